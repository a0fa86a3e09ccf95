// The operands of moves, lines and curves (T1 6.4).
ghost use Rattle.std.specs.Prelude.{◌≡◌};
ghost use Rattle.type1.specs.Deltas.{axes_of, tangents_of, point_delta, curve_deltas};

use crate::Deltas;
use crate::opcodes::{HLINETO, HMOVETO, HVCURVETO, VHCURVETO, VLINETO, VMOVETO};
use geometry::Point;

// Of a move or a line: dx dy, or dx, or dy. None where there are too few.
pub(crate) fn point_delta(op: u16, operands: &[f64]) -> Option<Point>
    ensures { result ≡ point_delta (axes_of op) operands.now }
{
    let n = operands.len();
    if n < 1 {
        return None;
    }
    let last = operands[n - 1];
    match op {
        HMOVETO | HLINETO => Some(Point { x: last, y: 0.0 }),
        VMOVETO | VLINETO => Some(Point { x: 0.0, y: last }),
        _ => {
            if n < 2 {
                return None;
            }
            Some(Point {
                x: operands[n - 2],
                y: last,
            })
        }
    }
}

// Of a curve: dx1 dy1 dx2 dy2 dx3 dy3, or dy1 dx2 dy2 dx3, or dx1 dx2 dy2 dy3. None where there are too few.
pub(crate) fn curve_deltas(op: u16, operands: &[f64]) -> Option<Deltas>
    ensures { result ≡ curve_deltas (tangents_of op) operands.now }
{
    let n = operands.len();
    if n < 4 {
        return None;
    }
    let a = operands[n - 4];
    let b = operands[n - 3];
    let c = operands[n - 2];
    let d = operands[n - 1];
    match op {
        VHCURVETO => Some(Deltas {
            first: Point { x: 0.0, y: a },
            second: Point { x: b, y: c },
            third: Point { x: d, y: 0.0 },
        }),
        HVCURVETO => Some(Deltas {
            first: Point { x: a, y: 0.0 },
            second: Point { x: b, y: c },
            third: Point { x: 0.0, y: d },
        }),
        _ => {
            if n < 6 {
                return None;
            }
            Some(Deltas {
                first: Point {
                    x: operands[n - 6],
                    y: operands[n - 5],
                },
                second: Point { x: a, y: b },
                third: Point { x: c, y: d },
            })
        }
    }
}
