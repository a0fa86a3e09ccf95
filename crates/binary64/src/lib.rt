//! Rust's `round`, `floor`, `abs`, `is_finite` and the casts to `usize` and `i64`, from plain operations on floats.
#![tactic(auto)]

ghost use Rattle.std.specs.Prelude.{◌≡◌, false};
ghost use Rattle.std.specs.Float.Ieee.{to_unsigned, to_signed};
ghost use Rattle.std.specs.Float.Ieee.Scale.{finite};
ghost use Rattle.binary64.specs.Value.{sign};
ghost use Rattle.binary64.specs.Rounding as Rounding;

// `round` of a value whose sign is not negative. From 2 ^ 52 on every value is whole.
fn round_positive(a: f64) -> f64
    requires { sign a ≡ false }
    ensures { result ≡ Rounding.round_away a }
{
    if a < 4503599627370496.0 {
        let r = (a + 4503599627370496.0) - 4503599627370496.0;
        if a - r == 0.5 { r + 1.0 } else { r }
    } else {
        a
    }
}

// Rust's `f64::round`: v to the nearest whole number, a tie away from zero. A NaN, an infinity and a
// zero come back as they are, and what is above -0.5 and below 0.0 gives -0.0.
// `Away.away_near`: the result is within a half of v.
pub fn round(v: f64) -> f64
    ensures { result ≡ Rounding.round_away v }
{
    if v == 0.0 {
        v
    } else if v < 0.0 {
        -round_positive(-v)
    } else {
        round_positive(v)
    }
}

// Rust's `f64::floor`: the largest whole number that is not above v. A NaN, an infinity and a zero
// come back as they are. `Floor.floor_near`: the result is less than one below v.
pub fn floor(v: f64) -> f64
    ensures { result ≡ Rounding.round_down v }
{
    let r = round(v);
    if v < r { r - 1.0 } else { r }
}

// Rust's `f64::abs`.
pub fn abs(x: f64) -> f64
    ensures { result ≡ Rounding.abs x }
{
    if x == 0.0 {
        0.0
    } else if x < 0.0 {
        -x
    } else {
        x
    }
}

// Rust's `f64::is_finite`: neither a NaN nor an infinity.
pub fn is_finite(x: f64) -> bool
    ensures { result ≡ finite x }
{
    let top = 1.0 / 0.0;
    x < top && -top < x
}

// Rust's `x as usize`: the fraction is dropped, what lies out of range goes to the nearest end of
// it, and a NaN to 0. `Truncation.unsigned_near`: in range the result is less than one below x.
pub fn to_usize(x: f64) -> usize
    ensures { result ≡ to_unsigned 64 x }
{
    std::num::saturating_f64_to_usize(x)
}

// Rust's `x as i64`, likewise.
pub fn to_i64(x: f64) -> i64
    ensures { result ≡ to_signed 63 x }
{
    std::num::saturating_f64_to_i64(x)
}
