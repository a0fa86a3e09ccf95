// What is asked of the charstrings of a font: none is shorter than lenIV, and none is a multiple-master font's.
use crate::bytes::Span;
use crate::font::Font;
use crate::trouble::{Trouble, What};
use std::alloc::Global;

// Where a charstring stands before a byte: between numbers and operators, with the number that stands there if
// it is one of a few; in a number, with so many bytes to come; or after an escape, with the number before it.
#[derive(Clone, Copy)]
enum Scan {
    Plain { number: u8 },
    Number { left: usize },
    Escape { number: u8 },
}

impl Scan {
    // The state after a plain byte (T1 6.2, 6.3).
    fn after(self, b: u8) -> Scan {
        match (self, b) {
            (Scan::Number { left }, _) if left > 1 => Scan::Number { left: left - 1 },
            (Scan::Number { .. }, _) => Scan::Plain { number: b },
            (Scan::Escape { .. }, _) => Scan::Plain { number: 0 },
            (Scan::Plain { number }, 12) => Scan::Escape { number },
            (_, 255) => Scan::Number { left: 4 },
            (_, 247..=254) => Scan::Number { left: 1 },
            _ => Scan::Plain {
                number: b.saturating_sub(139),
            },
        }
    }

    // A callothersubr of 14 to 18 ends here.
    fn calls_blend(self, b: u8) -> bool {
        matches!((self, b), (Scan::Escape { number: 14..=18 }, 16))
    }
}

// The charstring calls one of OtherSubrs 14 to 18, by a number that stands before the call.
fn blends(code: &[u8], len_iv: usize) -> bool {
    let mut cursor = charstring::Cursor::new(code, len_iv);
    let mut scan = Scan::Plain { number: 0 };
    for _ in 0..code.len() {
        let Some((b, after)) = cursor.next(code) else {
            return false;
        };
        if scan.calls_blend(b) {
            return true;
        }
        scan = scan.after(b);
        cursor = after;
    }
    false
}

// What is wrong with charstrings: one is too short, or blends.
fn check_all(font: &Font<'_>, codes: &[Span], short: What) -> Result<(), Trouble> {
    let least = font.head.len_iv.unwrap_or(0);
    if let Some(code) = codes.iter().find(|code| code.len < least) {
        return Err(short.at(code.at));
    }
    let len_iv = font.len_iv();
    if let Some(code) = codes.iter().find(|code| blends(code.of(font.text), len_iv)) {
        return Err(What::Blends.at(code.at));
    }
    Ok(())
}

// What is wrong with the subroutines and charstrings of a font.
pub(crate) fn check(alloc: Global, font: &Font<'_>) -> Result<(), Trouble> {
    let bodies: Vec<Span> = font.bodies().iter().flatten().copied().collect(alloc)?;
    let codes: Vec<Span> = font.charstrings.glyphs.values().copied().collect(alloc)?;
    check_all(font, &bodies, What::ShortBody)?;
    check_all(font, &codes, What::ShortCharstring)
}
