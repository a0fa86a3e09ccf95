// Boxes: an answer against the vector's, and a box against what a run of the Rust's allows.
use crate::vector::Vector;
use boxes::{Bounds, Verdict, glyph_box};

// Four signed numbers.
fn bounds(v: &mut Vector) -> Option<Bounds> {
    Some(Bounds {
        left: v.signed()?,
        bottom: v.signed()?,
        right: v.signed()?,
        top: v.signed()?,
    })
}

const NOWHERE: Bounds = Bounds {
    left: 0,
    bottom: 0,
    right: 0,
    top: 0,
};

fn word(verdict: Verdict) -> u64 {
    match verdict {
        Verdict::Within => 1,
        Verdict::Crossing => 2,
        Verdict::Outside => 3,
    }
}

// The number, the box and the verdict's word are the vector's results.
fn is_result(number: u64, b: Bounds, word: u64, v: &mut Vector) -> Option<bool> {
    Some(number == v.number()? && b == bounds(v)? && word == v.number()?)
}

pub(crate) fn compare_glyph_box(v: &mut Vector) -> Option<bool> {
    let program = v.string()?;
    match glyph_box(program, bounds(v)?) {
        Err(refusal) => is_result(u64::from(refusal.number()), NOWHERE, 0, v),
        Ok(boxed) => is_result(0, boxed.bounds, word(boxed.verdict), v),
    }
}

// The side is from the vector's next number to the one after it.
fn is_allowed(side: i64, v: &mut Vector) -> Option<bool> {
    Some(v.signed()? <= side && side <= v.signed()?)
}

// Each side of the box is from the least to the greatest that the vector allows.
fn all_allowed(b: Bounds, v: &mut Vector) -> Option<bool> {
    Some(
        is_allowed(b.left, v)?
            && is_allowed(b.bottom, v)?
            && is_allowed(b.right, v)?
            && is_allowed(b.top, v)?,
    )
}

pub(crate) fn compare_box_of_run(v: &mut Vector) -> Option<bool> {
    let program = v.string()?;
    let number = v.number()?;
    match glyph_box(program, NOWHERE) {
        Err(refusal) => Some(number == u64::from(refusal.number())),
        Ok(boxed) => Some(number == 0 && all_allowed(boxed.bounds, v)?),
    }
}
