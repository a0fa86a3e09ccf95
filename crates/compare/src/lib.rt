//! Comparing what a function gives with what was recorded of it.
#![tactic(auto)]

ghost use Rattle.std.specs.Prelude.{◌≡◌, length, get_or, replicate};
ghost use Rattle.std.specs.Float.{binary64};
ghost use Rattle.std.specs.Float.Ieee.{of_bits};
ghost use Rattle.binary64.specs.Round.{plus_zero};
ghost use Rattle.compare.specs.Comparisons.{Tells, padded};

// The pattern of infinity: those above it, without their sign, are NaNs.
const INFINITE: u64 = 0x7FF0_0000_0000_0000;

// The double of a bit pattern, every NaN's alike.
pub fn from_pattern(bits: u64) -> f64
    ensures { result ≡ of_bits binary64 bits }
{
    if bits % 0x8000_0000_0000_0000 > INFINITE {
        0.0 / 0.0
    } else {
        f64::from_bits(bits)
    }
}

// Both are a NaN, or they are equal and, where zero, of one sign.
pub fn same(x: f64, y: f64) -> bool
    ensures { Tells result (x ≡ y) }
{
    if x == y {
        x != 0.0 || 1.0 / x == 1.0 / y
    } else {
        x != x && y != y
    }
}

// The byte at a place; rest beyond the end.
fn byte_or(front: &[u8], at: usize, rest: u8) -> u8
    ensures { result ≡ get_or front.now at rest }
{
    front.get(at).copied().unwrap_or(rest)
}

// The bytes of out are those of front, then each is rest.
pub fn holds(out: &[u8], front: &[u8], rest: u8) -> bool
    ensures { Tells result (out.now ≡ padded front.now rest (length out.now)) }
{
    for (i, &b) in out.iter().enumerate() {
        if b != byte_or(front, i, rest) {
            return false;
        }
    }
    front.len() <= out.len()
}

// 0.0 below n, rest from n on.
fn zero_or(n: usize, at: usize, rest: f64) -> f64
    ensures { result ≡ get_or (replicate n plus_zero) at rest }
{
    if at < n { 0.0 } else { rest }
}

// The first n of xs are 0.0, and each other is rest.
pub fn is_cleared(xs: &[f64], n: usize, rest: f64) -> bool
    ensures { Tells result (xs.now ≡ padded (replicate n plus_zero) rest (length xs.now)) }
{
    for (i, &x) in xs.iter().enumerate() {
        if !same(x, zero_or(n, i, rest)) {
            return false;
        }
    }
    n <= xs.len()
}
