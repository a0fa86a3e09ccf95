//! The box of a finished charstring, and how it lies to a window. Document 02, (a).
#![tactic(auto)]

ghost use Rattle.std.specs.Prelude.{◌≡◌, ◌<◌, not, ◌&&◌, ◌||◌, cond, IfSome};
ghost use Rattle.std.proofs.Math.Option.{Option as OptionOf};
ghost use Rattle.renderer.specs.Reader.{coordinate};
ghost use Rattle.std.specs.Int.Signed.{le_z};
ghost use Rattle.boxes.specs.Window.{meet, verdict_of};
ghost use Rattle.boxes.specs.Answers.{answer_of, answer};
ghost use Rattle.boxes.specs.Extent.{extent_with, SmallFrom, Extends, Limited, bounds_at, HoldsBox};

use refusal::Refusal;
use renderer::{Operation, Position, Reader};

/// The least x, the least y, the greatest x and the greatest y of a box or of a window, in units of 1/65536.
#[derive(Clone, Copy, Debug, PartialEq, Eq)]
pub struct Bounds {
    pub left: i64,
    pub bottom: i64,
    pub right: i64,
    pub top: i64,
}

/// How a box lies to a window.
#[derive(Clone, Copy, Debug, PartialEq, Eq)]
pub enum Verdict {
    Within,
    Crossing,
    Outside,
}

/// A box, and how it lies to the window.
#[derive(Clone, Copy, Debug, PartialEq, Eq)]
pub struct Boxed {
    pub bounds: Bounds,
    pub verdict: Verdict,
}

// The least and the greatest coordinates of one point or more, each as its units and 2 ^ 61.
#[derive(Clone, Copy)]
struct Extent {
    left: u64,
    bottom: u64,
    right: u64,
    top: u64,
}

// With one point more.
fn grown(extent: Option<Extent>, p: Position) -> Extent
    ensures { result ≡ extent_with extent p }
{
    match extent {
        None => Extent {
            left: p.x,
            bottom: p.y,
            right: p.x,
            top: p.y,
        },
        Some(e) => Extent {
            left: e.left.min(p.x),
            bottom: e.bottom.min(p.y),
            right: e.right.max(p.x),
            top: e.top.max(p.y),
        },
    }
}

// With the points that pairs of deltas go to, from a point.
fn extended(deltas: &[u32], from: Position, before: Option<Extent>) -> Option<Extent>
    requires { SmallFrom deltas.now from }
    ensures { Extends deltas.now from before result }
{
    let mut extent = before;
    let mut p = from;
    for &[dx, dy] in deltas.as_chunks::<2>().0 {
        p = Position {
            x: p.x + u64::from(dx) - 2147483648,
            y: p.y + u64::from(dy) - 2147483648,
        };
        extent = Some(grown(extent, p));
    }
    extent
}

fn units(x: u64) -> i64
    requires { x < 4611686018427387904 }
    ensures { result ≡ coordinate x }
{
    x as i64 - 2305843009213693952
}

// Whether a to b and c to d have no number in common. Four numbers here and below: as methods of `Bounds` the goals on
// its signed fields stay open.
fn apart(a: i64, b: i64, c: i64, d: i64) -> bool
    ensures { result ≡ not (meet a b c d) }
{
    b < a || d < a || b < c || d < c
}

// Whether a to b lies within c to d.
fn inside(a: i64, b: i64, c: i64, d: i64) -> bool
    ensures { result ≡ (le_z c a && le_z b d) }
{
    c <= a && b <= d
}

// The verdict, by whether the spans of x or those of y are apart (a, b), and whether each lies within the window's
// (c, d).
fn decide(a: bool, b: bool, c: bool, d: bool) -> Verdict
    ensures { result ≡ cond (a || b) Verdict.Outside (cond (c && d) Verdict.Within Verdict.Crossing) }
{
    if a || b {
        Verdict::Outside
    } else if c && d {
        Verdict::Within
    } else {
        Verdict::Crossing
    }
}

// How a box lies to a window.
fn verdict_of(b: Bounds, w: Bounds) -> Verdict
    ensures { result ≡ verdict_of b w }
{
    let apart_x = apart(b.left, b.right, w.left, w.right);
    let apart_y = apart(b.bottom, b.top, w.bottom, w.top);
    let inside_x = inside(b.left, b.right, w.left, w.right);
    let inside_y = inside(b.bottom, b.top, w.bottom, w.top);
    decide(apart_x, apart_y, inside_x, inside_y)
}

fn bounds_of(e: Extent) -> Bounds
    requires { Limited e }
    ensures { result ≡ bounds_at e }
{
    Bounds {
        left: units(e.left),
        bottom: units(e.bottom),
        right: units(e.right),
        top: units(e.top),
    }
}

// The answer at the end of a charstring.
fn answered(extent: Option<Extent>, window: Bounds) -> Result<Boxed, Refusal>
    requires { IfSome extent Limited }
    ensures { (b : OptionOf Bounds) → HoldsBox b extent → result ≡ answer_of b window }
{
    let bounds = bounds_of(extent.ok_or(Refusal::NothingDrawn)?);
    Ok(Boxed {
        bounds,
        verdict: verdict_of(bounds, window),
    })
}

/// The box of all points that a finished charstring draws, and how it lies to a window. The one refusal is
/// `Refusal::NothingDrawn`, where the machine faults or no point is drawn.
pub fn glyph_box(program: &[u8], window: Bounds) -> Result<Boxed, Refusal>
    ensures { result ≡ answer program.now window }
{
    let mut ops = [0u32; 48];
    let mut reader = Reader::new();
    let mut extent = None;
    while let Some(operator) = reader.next(program, &mut ops) {
        if operator.operation == Operation::End {
            return answered(extent, window);
        }
        if operator.operation.is_drawing() {
            let deltas = &ops[operator.first..operator.end];
            extent = extended(deltas, reader.position, extent);
        }
        reader = operator.after;
    }
    Err(Refusal::NothingDrawn)
}
