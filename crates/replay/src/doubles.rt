// Functions on doubles and on points.
use crate::vector::Vector;
use compare::same;
use geometry::Point;

// The double is the vector's result.
pub(crate) fn is_double(x: f64, v: &mut Vector) -> Option<bool> {
    Some(same(x, v.double()?))
}

pub(crate) fn compare_is_finite(v: &mut Vector) -> Option<bool> {
    let told = binary64::is_finite(v.double()?);
    Some(u64::from(told) == v.number()?)
}

pub(crate) fn compare_to_usize(v: &mut Vector) -> Option<bool> {
    let n = binary64::to_usize(v.double()?);
    Some(n == v.size()?)
}

pub(crate) fn compare_to_i64(v: &mut Vector) -> Option<bool> {
    let n = binary64::to_i64(v.double()?);
    Some(n == v.signed()?)
}

// The point is the vector's result.
fn is_point(p: Point, v: &mut Vector) -> Option<bool> {
    Some(same(p.x, v.double()?) && same(p.y, v.double()?))
}

pub(crate) fn compare_transform_point(v: &mut Vector) -> Option<bool> {
    let m = v.matrix()?;
    let p = m.transform_point(v.double()?, v.double()?);
    is_point(p, v)
}

pub(crate) fn compare_transform_delta(v: &mut Vector) -> Option<bool> {
    let m = v.matrix()?;
    let p = m.transform_delta(v.double()?, v.double()?);
    is_point(p, v)
}
