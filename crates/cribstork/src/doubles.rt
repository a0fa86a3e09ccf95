// Numbers as text: to five places, with no zeros at the end, and never clipped.
use std::fmt;
use std::fmt::{Display, InlineText};

// Below this a double's whole part is a whole number that fits, and from it on every double is whole.
const WHOLE: f64 = 9007199254740992.0;

// A number to five places: its sign, whole part and hundred thousandths.
#[derive(Clone, Copy)]
struct Fixed {
    negative: bool,
    whole: u64,
    fraction: u64,
}

impl Fixed {
    // A double below WHOLE.
    fn of(x: f64) -> Fixed {
        let size = binary64::abs(x);
        let whole = binary64::to_usize(binary64::floor(size)) as u64;
        let rest = (size - binary64::floor(size)) * 100000.0;
        let fraction = binary64::to_usize(binary64::round(rest)) as u64;
        let negative = x < 0.0;
        if fraction >= 100000 {
            return Fixed {
                negative,
                whole: whole.saturating_add(1),
                fraction: 0,
            };
        }
        Fixed {
            negative,
            whole,
            fraction,
        }
    }
}

// Hundred thousandths without the zeros at their end, and how many places are left.
fn trimmed(fraction: u64) -> (u64, usize) {
    match fraction {
        0 => (0, 0),
        n if n % 10000 == 0 => (n / 10000, 1),
        n if n % 1000 == 0 => (n / 1000, 2),
        n if n % 100 == 0 => (n / 100, 3),
        n if n % 10 == 0 => (n / 10, 4),
        n => (n, 5),
    }
}

impl fmt::Display for Fixed {
    fn fmt<W: fmt::Write>(&self, f: &mut fmt::Formatter<W>) -> fmt::Result {
        let whole = self.whole;
        let (shown, places) = trimmed(self.fraction);
        let text = if places == 0 {
            InlineText::<32>::of(whole)
        } else {
            InlineText::<32>::of(format_args!("{whole}.{shown:0places$}"))
        };
        let negative = self.negative && (whole > 0 || shown > 0);
        f.pad_integral(!negative, "", text.as_str())
    }
}

// A double.
#[derive(Clone, Copy)]
pub(crate) struct Double(pub f64);

impl fmt::Display for Double {
    fn fmt<W: fmt::Write>(&self, f: &mut fmt::Formatter<W>) -> fmt::Result {
        let x = self.0;
        if !binary64::is_finite(x) {
            return f.write_str("not finite");
        }
        if binary64::abs(x) < WHOLE {
            return Display::fmt(&Fixed::of(x), f);
        }
        write!(f, "{x:.0}")
    }
}

// A number of 1/65536s. No two print alike.
#[derive(Clone, Copy)]
pub(crate) struct Units(pub i64);

impl fmt::Display for Units {
    fn fmt<W: fmt::Write>(&self, f: &mut fmt::Formatter<W>) -> fmt::Result {
        let n = self.0.unsigned_abs();
        let fixed = Fixed {
            negative: self.0 < 0,
            whole: n / 65536,
            fraction: (n % 65536 * 100000 + 32768) / 65536,
        };
        write!(f, "{fixed}")
    }
}
