//! Points, matrices and their products, in the order of operations of stet's geometry.rs.
#![tactic(auto)]

ghost use Rattle.std.specs.Prelude.{◌≡◌};
ghost use Rattle.geometry.specs.Transform as Transform;

// A point in character space.
#[derive(Clone, Copy)]
pub struct Point {
    pub x: f64,
    pub y: f64,
}

// An affine matrix: x' = a x + c y + tx, y' = b x + d y + ty.
#[derive(Clone, Copy, PartialEq)]
pub struct Matrix {
    pub a: f64,
    pub b: f64,
    pub c: f64,
    pub d: f64,
    pub tx: f64,
    pub ty: f64,
}

// v to 10 decimal places.
pub fn round10(v: f64) -> f64
    ensures { result ≡ Transform.rounded10 v }
{
    binary64::round(v * 1e10) / 1e10
}

impl Matrix {
    // The matrix that leaves every point where it is.
    pub fn identity() -> Matrix
        ensures { result ≡ Transform.identity }
    {
        Matrix {
            a: 1.0,
            b: 0.0,
            c: 0.0,
            d: 1.0,
            tx: 0.0,
            ty: 0.0,
        }
    }

    // The point (x, y) under the matrix.
    pub fn transform_point(self, x: f64, y: f64) -> Point
        ensures { result ≡ Transform.point self x y }
    {
        Point {
            x: round10(self.a * x + self.c * y + self.tx),
            y: round10(self.b * x + self.d * y + self.ty),
        }
    }

    // The vector (dx, dy) under the matrix: nothing is added to it.
    pub fn transform_delta(self, dx: f64, dy: f64) -> Point
        ensures { result ≡ Transform.delta self dx dy }
    {
        Point {
            x: round10(self.a * dx + self.c * dy),
            y: round10(self.b * dx + self.d * dy),
        }
    }
}
