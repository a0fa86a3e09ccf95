// Numbers in text.
ghost use Rattle.std.specs.Prelude.{◌<◌, ◌≤◌, length, IfSome};

use crate::bytes::byte;

// The value of a hexadecimal digit.
pub(crate) fn hex_value(b: u8) -> Option<u8> {
    match b {
        b'0'..=b'9' => Some(b - b'0'),
        b'A'..=b'F' => Some(b - b'A' + 10),
        b'a'..=b'f' => Some(b - b'a' + 10),
        _ => None,
    }
}

// The digits that a text begins with: what they spell, the largest number where that is too large, and how many
// there are.
#[derive(Clone, Copy)]
struct Digits {
    value: u64,
    count: usize,
}

fn read_digits(text: &[u8], base: u32) -> Digits
    requires least { 2 ≤ base }
    requires most { base ≤ 36 }
    ensures { result.count ≤ length text.now }
{
    let mut value: u64 = 0;
    for (count, &b) in text.iter().enumerate() {
        let Some(d) = char::from(b).to_digit(base) else {
            return Digits { value, count };
        };
        value = value
            .saturating_mul(u64::from(base))
            .saturating_add(u64::from(d));
    }
    Digits {
        value,
        count: text.len(),
    }
}

// What a text spells that is digits alone.
fn all_digits(text: &[u8], base: u32) -> Option<u64>
    requires least { 2 ≤ base }
    requires most { base ≤ 36 }
{
    let n = read_digits(text, base);
    (n.count > 0 && n.count == text.len()).then_some(n.value)
}

// A whole number with its sign, which -0 has too.
#[derive(Clone, Copy, Debug, PartialEq, Eq)]
pub(crate) struct Signed {
    pub negative: bool,
    pub value: u64,
}

impl Signed {
    // The number, where no minus stands before it.
    pub(crate) fn natural(self) -> Option<usize> {
        (!self.negative).then_some(self.value as usize)
    }
}

// Whether a text begins with a minus, and what stands after its sign.
fn after_sign(text: &[u8]) -> (bool, &[u8]) {
    match text {
        [b'-', rest @ ..] => (true, rest),
        [b'+', rest @ ..] => (false, rest),
        _ => (false, text),
    }
}

// The number that the digits after 'base#' spell.
fn with_base(base: u64, text: &[u8]) -> Option<Signed> {
    if base < 2 || base > 36 {
        return None;
    }
    let value = all_digits(text, base as u32)?;
    Some(Signed {
        negative: false,
        value,
    })
}

// The whole number that a text is: digits after a sign, or base#digits.
pub(crate) fn read_signed(text: &[u8]) -> Option<Signed> {
    let n = read_digits(text, 10);
    if let [b'#', rest @ ..] = &text[n.count..]
        && n.count > 0
    {
        return with_base(n.value, rest);
    }
    let (negative, rest) = after_sign(text);
    let value = all_digits(rest, 10)?;
    Some(Signed { negative, value })
}

// 10 to the n, for n up to 300.
fn power_of_ten(n: usize) -> f64 {
    (0..n.min(300)).fold(1.0, |x, _| x * 10.0)
}

fn raised(m: f64, up: usize) -> f64 {
    m * power_of_ten(up)
        * power_of_ten(up.saturating_sub(300))
        * power_of_ten(up.saturating_sub(600))
}

fn lowered(m: f64, down: usize) -> f64 {
    m / power_of_ten(down)
        / power_of_ten(down.saturating_sub(300))
        / power_of_ten(down.saturating_sub(600))
}

// A mantissa times ten to the up, over ten to the down. std's parse rounds otherwise, and what is printed may not
// change.
fn scaled(mantissa: u64, up: usize, down: usize) -> f64 {
    let m = std::num::nearest_u64_to_f64(mantissa);
    if mantissa == 0 {
        0.0
    } else if down <= up {
        raised(m, up - down)
    } else {
        lowered(m, down - up)
    }
}

// The first digits of a number, as many as fit, how many more there are, and how many there are in all.
#[derive(Clone, Copy)]
struct Mantissa {
    value: u64,
    dropped: usize,
    count: usize,
}

// The digits that a text begins with, after a number that was read before them.
fn read_mantissa(text: &[u8], before: u64) -> Mantissa
    ensures { result.count ≤ length text.now }
{
    let mut value = before;
    let mut dropped: usize = 0;
    for (count, &b) in text.iter().enumerate() {
        let Some(d) = char::from(b).to_digit(10) else {
            return Mantissa {
                value,
                dropped,
                count,
            };
        };
        if value < 1_000_000_000_000_000_000 {
            value = value * 10 + u64::from(d);
        } else {
            dropped = dropped.saturating_add(1);
        }
    }
    Mantissa {
        value,
        dropped,
        count: text.len(),
    }
}

// A power of ten, up or down.
#[derive(Clone, Copy)]
struct Exponent {
    up: usize,
    down: usize,
}

// The exponent that ends a number: nothing, or an e and a whole number.
fn read_exponent(text: &[u8]) -> Option<Exponent> {
    let [b'e' | b'E', signed @ ..] = text else {
        return text.is_empty().then_some(Exponent { up: 0, down: 0 });
    };
    let (minus, rest) = after_sign(signed);
    let size = all_digits(rest, 10)?.min(100000) as usize;
    Some(if minus {
        Exponent { up: 0, down: size }
    } else {
        Exponent { up: size, down: 0 }
    })
}

// The unsigned decimal number that a text is.
fn unsigned(text: &[u8]) -> Option<f64> {
    let whole = read_mantissa(text, 0);
    let rest = &text[whole.count..];
    let Some(fraction) = rest.strip_prefix(b".") else {
        if whole.count == 0 {
            return None;
        }
        let e = read_exponent(rest)?;
        return Some(scaled(whole.value, e.up.saturating_add(whole.dropped), e.down));
    };
    let all = read_mantissa(fraction, whole.value);
    if whole.count == 0 && all.count == 0 {
        return None;
    }
    let e = read_exponent(&fraction[all.count..])?;
    let places = all.count.saturating_sub(all.dropped);
    Some(scaled(
        all.value,
        e.up.saturating_add(whole.dropped),
        e.down.saturating_add(places),
    ))
}

// The number that a text is.
pub(crate) fn read_real(text: &[u8]) -> Option<f64> {
    let (negative, rest) = after_sign(text);
    let x = unsigned(rest)?;
    Some(if negative { 0.0 - x } else { x })
}

// A decimal number in a text: its digits before and after the written point; by its power of ten, the zeros that
// come before them and how many digits then stand before the point.
#[derive(Clone, Copy)]
struct Spelled<'a> {
    whole: &'a [u8],
    fraction: &'a [u8],
    zeros: usize,
    before: usize,
}

impl<'a> Spelled<'a> {
    // The unsigned number that a text is.
    fn of(text: &'a [u8]) -> Option<Spelled<'a>> {
        let front = read_digits(text, 10);
        let (whole, rest) = text.split_at(front.count);
        let rest = rest.strip_prefix(b".").unwrap_or(rest);
        let (fraction, end) = rest.split_at(read_digits(rest, 10).count);
        if whole.is_empty() && fraction.is_empty() {
            return None;
        }
        let e = read_exponent(end)?;
        let up = whole.len().saturating_add(e.up);
        Some(Spelled {
            whole,
            fraction,
            zeros: e.down.saturating_sub(up),
            before: up.saturating_sub(e.down),
        })
    }

    // Digit k, the zeros before those that are written among them; 0 beyond them.
    fn digit(self, k: usize) -> u64 {
        let Some(i) = k.checked_sub(self.zeros) else {
            return 0;
        };
        let b = if i < self.whole.len() {
            self.whole[i]
        } else {
            byte(self.fraction, i - self.whole.len())
        };
        char::from(b).to_digit(10).map_or(0, u64::from)
    }

    // What so many digits from digit k on spell; the largest number where that is too large.
    fn value_of(self, k: usize, count: usize) -> u64 {
        (k..k.saturating_add(count)).fold(0u64, |value, at| {
            value.saturating_mul(10).saturating_add(self.digit(at))
        })
    }
}

// 1/65536s: those of a whole part, and the nearest to a fraction of 17 decimal places, half away from zero. The
// largest number where there are too many.
fn units(whole: u64, places: u64) -> u64 {
    whole
        .saturating_mul(65536)
        .saturating_add((places / 762_939_453_125).saturating_add(1) / 2)
}

// The nearest 1/65536 to the number that a text is, half away from zero. A multiple of 1/131072 has at most 17
// decimal places, so the places after these do not count: 762939453125 is 5 ^ 17, and the first 17 places divided by
// it are the fraction in whole 1/131072s.
pub(crate) fn read_units(text: &[u8]) -> Option<Signed> {
    let (negative, rest) = after_sign(text);
    let s = Spelled::of(rest)?;
    Some(Signed {
        negative,
        value: units(s.value_of(0, s.before), s.value_of(s.before, 17)),
    })
}

// A count that a text is, if it is a whole number of 0 or more.
pub(crate) fn read_count(text: &[u8]) -> Option<usize> {
    let x = read_real(text)?;
    (0.0 <= x && binary64::floor(x) == x).then_some(binary64::to_usize(x))
}
