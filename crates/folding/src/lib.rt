//! Folding a matrix into points, stems and the width.
#![tactic(auto)]

ghost use Rattle.std.specs.Prelude.{◌≡◌};
ghost use Rattle.folding.specs.Folding as Folding;

use geometry::{Matrix, Point};
use outline::Stem;

// Whether every entry of the matrix is finite.
#[tactic(auto, unfolding(crate::specs::Folding::finite_matrix))]
pub fn finite_matrix(m: Matrix) -> bool
    ensures { result ≡ Folding.finite_matrix m }
{
    binary64::is_finite(m.a)
        && binary64::is_finite(m.b)
        && binary64::is_finite(m.c)
        && binary64::is_finite(m.d)
        && binary64::is_finite(m.tx)
        && binary64::is_finite(m.ty)
}

// A matrix, and whether it is the identity, which leaves points and stems alone.
#[derive(Clone, Copy)]
pub struct Fold {
    pub matrix: Matrix,
    pub identity: bool,
}

impl Fold {
    // A matrix, with the test of it done once.
    pub fn new(m: Matrix) -> Fold
        ensures { result ≡ Folding.fold_of m }
    {
        Fold {
            matrix: m,
            identity: m == Matrix::identity(),
        }
    }

    // A folded point.
    pub fn fold_point(self, x: f64, y: f64) -> Point
        ensures { result ≡ Folding.folded_point self (record { x = x; y = y }) }
    {
        if self.identity {
            Point { x, y }
        } else {
            self.matrix.transform_point(x, y)
        }
    }

    // Whether a stem stays.
    pub fn stem_stays(self, s: Stem) -> bool
        ensures { result ≡ Folding.stem_stays self s }
    {
        let m = self.matrix;
        if self.identity {
            true
        } else if s.horizontal {
            m.b == 0.0 && 0.0 < m.d
        } else {
            m.c == 0.0 && 0.0 < m.a
        }
    }

    // A folded stem, as it is declared.
    pub fn fold_stem(self, s: Stem) -> Stem
        ensures { result ≡ Folding.folded_stem self s }
    {
        if self.identity {
            s
        } else {
            transform_stem(self.matrix, s)
        }
    }
}

// The advance width under the matrix.
pub fn fold_width(m: Matrix, w: f64) -> f64
    ensures { result ≡ Folding.folded_width m w }
{
    m.transform_delta(w, 0.0).x
}

// An edge under the matrix.
fn fold_edge(m: Matrix, horizontal: bool, e: f64) -> f64
    ensures { result ≡ Folding.edge m horizontal e }
{
    if horizontal {
        m.d * e + m.ty
    } else {
        m.a * e + m.tx
    }
}

// An ordinary width under the matrix.
fn scale_width(m: Matrix, horizontal: bool, w: f64) -> f64
    ensures { result ≡ Folding.scaled m horizontal w }
{
    if horizontal { m.d * w } else { m.a * w }
}

// A stem under the matrix. Widths -21 and -20 are markers, and stay.
fn transform_stem(m: Matrix, s: Stem) -> Stem
    ensures { result ≡ Folding.transformed_stem m s }
{
    let h = s.horizontal;
    if s.width == -21.0 {
        return Stem {
            horizontal: h,
            pos: fold_edge(m, h, s.pos - 21.0) + 21.0,
            width: -21.0,
        };
    }
    if s.width == -20.0 {
        return Stem {
            horizontal: h,
            pos: fold_edge(m, h, s.pos),
            width: -20.0,
        };
    }
    Stem {
        horizontal: h,
        pos: fold_edge(m, h, s.pos),
        width: scale_width(m, h, s.width),
    }
}

// The number that is answered where writing was refused with `written`: the one before it, if there was one, else 14
// where a folded point is not finite, since folding comes before writing.
pub fn refusal(before: u64, written: u64, finite: bool) -> u64
    ensures { result ≡ Folding.refusal before written finite }
{
    if before != 0 {
        return before;
    }
    if finite { written } else { 14 }
}
