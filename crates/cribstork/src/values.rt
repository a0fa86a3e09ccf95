// The values of options and of a bank's cells.
use crate::converting::{ENTRIES, OUTPUT};
use crate::page::Page;
use crate::{STEMS, number, window};
use std::fmt;
use std::fmt::Display;

// The stores whose sizes can be asked.
#[derive(Clone, Copy, PartialEq, Eq)]
pub(crate) enum Store {
    Stems,
    Commands,
    Output,
}

impl Store {
    // The largest that the program lends.
    fn limit(self) -> usize {
        match self {
            Store::Stems => STEMS,
            Store::Commands => ENTRIES,
            Store::Output => OUTPUT,
        }
    }
}

// What can be wrong with a value. `TooMany` has the store's limit.
#[derive(Clone, Copy, PartialEq, Eq)]
pub(crate) enum Wrong {
    NoCount,
    TooMany(usize),
    NoNumber,
    Beyond,
}

// In words, after the value.
impl Display for Wrong {
    fn fmt<W: fmt::Write>(&self, f: &mut fmt::Formatter<W>) -> fmt::Result {
        f.write_str(match self {
            Wrong::NoCount => " is no whole number",
            Wrong::TooMany(_) => " is more than the program lends",
            Wrong::NoNumber => " is no finite number",
            Wrong::Beyond => " is not -140737488355328 to below 140737488355328 once rounded",
        })
    }
}

// The size of a store.
pub(crate) fn size(store: Store, text: &[u8]) -> Result<usize, Wrong> {
    match number::read_count(text) {
        None => Err(Wrong::NoCount),
        Some(n) if n > store.limit() => Err(Wrong::TooMany(store.limit())),
        Some(n) => Ok(n),
    }
}

// An entry of a matrix.
pub(crate) fn entry(text: &[u8]) -> Result<f64, Wrong> {
    match number::read_real(text) {
        Some(x) if binary64::is_finite(x) => Ok(x),
        _ => Err(Wrong::NoNumber),
    }
}

// A side of a window, in 1/65536s.
pub(crate) fn side(text: &[u8]) -> Result<i64, Wrong> {
    let n = number::read_units(text).ok_or(Wrong::NoNumber)?;
    window::side(n).ok_or(Wrong::Beyond)
}

// A text in quotes.
pub(crate) fn quoted(page: &mut Page, text: &[u8]) {
    write!(page, "'");
    page.name(text);
    write!(page, "'");
}
