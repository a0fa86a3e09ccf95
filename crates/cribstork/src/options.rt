// The program's arguments: options, and the names of fonts.
use crate::page::Page;
use crate::values;
use crate::values::{Store, Wrong, quoted};
use boxes::Bounds;
use geometry::Matrix;
use std::alloc::{AllocError, AllocFailed, Global};

// The kinds of an argument.
#[derive(Clone, Copy, PartialEq, Eq)]
enum Kind {
    Hex,
    Table,
    FontMatrix,
    Help,
    Version,
    Glyph,
    Size(Store),
    Banks,
    Need,
    Matrix,
    Window,
    Strict,
    Font,
    Unknown,
}

impl From<&[u8]> for Kind {
    fn from(word: &[u8]) -> Kind {
        match word {
            b"--hex" => Kind::Hex,
            b"--table" => Kind::Table,
            b"--font-matrix" => Kind::FontMatrix,
            b"--help" | b"-h" => Kind::Help,
            b"--version" => Kind::Version,
            b"--glyph" => Kind::Glyph,
            b"--stems" => Kind::Size(Store::Stems),
            b"--commands" => Kind::Size(Store::Commands),
            b"--output" => Kind::Size(Store::Output),
            b"--banks" => Kind::Banks,
            b"--need" => Kind::Need,
            b"--matrix" => Kind::Matrix,
            b"--window" => Kind::Window,
            b"--strict" => Kind::Strict,
            [b'-', ..] => Kind::Unknown,
            _ => Kind::Font,
        }
    }
}

impl Kind {
    // It goes with one font's table only.
    fn is_of_table(self) -> bool {
        matches!(
            self,
            Kind::Hex | Kind::Table | Kind::Window | Kind::Glyph | Kind::Size(_)
        )
    }
}

// What is wrong with the arguments: with an option, or with its value.
#[derive(Clone, Copy)]
pub(crate) enum Fault<'a> {
    Unknown(&'a [u8]),
    NoValue(&'a [u8]),
    Value(&'a [u8], &'a [u8], Wrong),
    Again(&'a [u8]),
    NotWithBanks(&'a [u8]),
    OnlyWithBanks(&'a [u8]),
    NoFont,
    LongNames,
    OutOfMemory,
}

impl<'a> From<AllocError> for Fault<'a> {
    fn from(_e: AllocError) -> Fault<'a> {
        Fault::OutOfMemory
    }
}

impl<'a, T: Drop> From<AllocFailed<T>> for Fault<'a> {
    fn from(_e: AllocFailed<T>) -> Fault<'a> {
        Fault::OutOfMemory
    }
}

// A matrix in place of the identity: one that is given, or 1000 times the font's own.
#[derive(Clone, Copy)]
pub(crate) enum AskedMatrix {
    Given(Matrix),
    OfFont,
}

// What the arguments ask. `names` has those after every --glyph, with a space after each. `banks` and `need` are the
// paths after these options. `of_table` is the first option that does not go with --banks.
#[derive(Drop)]
pub(crate) struct Options<'a> {
    pub fonts: Vec<&'a [u8]>,
    pub table: bool,
    pub hex: bool,
    pub names: Vec<u8>,
    pub matrix: Option<AskedMatrix>,
    pub window: Option<Bounds>,
    pub stems: Option<usize>,
    pub commands: Option<usize>,
    pub output: Option<usize>,
    pub banks: Option<&'a [u8]>,
    pub need: Option<&'a [u8]>,
    pub help: bool,
    pub version: bool,
    pub strict: bool,
    of_table: Option<&'a [u8]>,
}

impl<'a> Options<'a> {
    fn new(alloc: Global) -> Options<'a> {
        Options {
            fonts: Vec::new(alloc),
            table: false,
            hex: false,
            names: Vec::new(alloc),
            matrix: None,
            window: None,
            stems: None,
            commands: None,
            output: None,
            banks: None,
            need: None,
            help: false,
            version: false,
            strict: false,
            of_table: None,
        }
    }

    // What does not go together. Of one font the table is printed.
    fn checked(mut self) -> Result<Options<'a>, Fault<'a>> {
        self.table |= self.fonts.len() <= 1;
        if self.banks.is_none() {
            return match self.need {
                Some(_) => Err(Fault::OnlyWithBanks(b"--need")),
                None => Ok(self),
            };
        }
        if let Some(option) = self.of_table {
            return Err(Fault::NotWithBanks(option));
        }
        if self.fonts.is_empty() && !self.help && !self.version {
            return Err(Fault::NoFont);
        }
        Ok(self)
    }
}

// Sets what no option before has set.
fn set<'a, T: Copy>(place: &mut Option<T>, option: &'a [u8], value: T) -> Result<(), Fault<'a>> {
    if place.is_some() {
        return Err(Fault::Again(option));
    }
    *place = Some(value);
    Ok(())
}

// A comma between names becomes a space.
fn separated(b: u8) -> u8 {
    if b == b',' { b' ' } else { b }
}

// Puts names at the end of a text, and a space after them.
fn add_names(text: &mut Vec<u8>, names: &[u8]) -> Result<(), AllocFailed<u8>> {
    for b in names {
        text.push(separated(*b))?;
    }
    text.push(b' ')
}

// The size that is the value of an option.
fn size<'a>(store: Store, option: &'a [u8], value: &'a [u8]) -> Result<usize, Fault<'a>> {
    values::size(store, value).map_err(|why| Fault::Value(option, value, why))
}

fn entry<'a>(option: &'a [u8], value: &'a [u8]) -> Result<f64, Fault<'a>> {
    values::entry(value).map_err(|why| Fault::Value(option, value, why))
}

fn side<'a>(option: &'a [u8], value: &'a [u8]) -> Result<i64, Fault<'a>> {
    values::side(value).map_err(|why| Fault::Value(option, value, why))
}

// The matrix of the six numbers after an option.
fn matrix<'a>(option: &'a [u8], values: [&'a Vec<u8>; 6]) -> Result<Matrix, Fault<'a>> {
    let [a, b, c, d, tx, ty] = values;
    Ok(Matrix {
        a: entry(option, a)?,
        b: entry(option, b)?,
        c: entry(option, c)?,
        d: entry(option, d)?,
        tx: entry(option, tx)?,
        ty: entry(option, ty)?,
    })
}

// The window of the four numbers after an option.
fn window<'a>(option: &'a [u8], values: [&'a Vec<u8>; 4]) -> Result<Bounds, Fault<'a>> {
    let [left, bottom, right, top] = values;
    Ok(Bounds {
        left: side(option, left)?,
        bottom: side(option, bottom)?,
        right: side(option, right)?,
        top: side(option, top)?,
    })
}

// Reads all arguments, up to the first that is wrong.
pub(crate) fn read<'a>(alloc: Global, arguments: &'a [Vec<u8>]) -> Result<Options<'a>, Fault<'a>> {
    let mut o = Options::new(alloc);
    let mut left = arguments;
    while let [word, rest @ ..] = left {
        let kind = Kind::from(word.as_slice());
        left = match (kind, rest) {
            (Kind::Font, _) => {
                o.fonts.push(word)?;
                rest
            }
            (Kind::Unknown, _) => return Err(Fault::Unknown(word)),
            (Kind::Hex, _) => {
                o.hex = true;
                o.table = true;
                rest
            }
            (Kind::Table, _) => {
                o.table = true;
                rest
            }
            (Kind::Help, _) => {
                o.help = true;
                rest
            }
            (Kind::Version, _) => {
                o.version = true;
                rest
            }
            (Kind::Strict, _) => {
                o.strict = true;
                rest
            }
            (Kind::FontMatrix, _) => {
                set(&mut o.matrix, word, AskedMatrix::OfFont)?;
                rest
            }
            (Kind::Matrix, [a, b, c, d, tx, ty, rest @ ..]) => {
                let m = matrix(word, [a, b, c, d, tx, ty])?;
                set(&mut o.matrix, word, AskedMatrix::Given(m))?;
                rest
            }
            (Kind::Window, [left, bottom, right, top, rest @ ..]) => {
                let w = window(word, [left, bottom, right, top])?;
                set(&mut o.window, word, w)?;
                o.table = true;
                rest
            }
            (Kind::Size(Store::Stems), [n, rest @ ..]) => {
                let n = size(Store::Stems, word, n)?;
                set(&mut o.stems, word, n)?;
                rest
            }
            (Kind::Size(Store::Commands), [n, rest @ ..]) => {
                let n = size(Store::Commands, word, n)?;
                set(&mut o.commands, word, n)?;
                rest
            }
            (Kind::Size(Store::Output), [n, rest @ ..]) => {
                let n = size(Store::Output, word, n)?;
                set(&mut o.output, word, n)?;
                rest
            }
            (Kind::Glyph, [names, rest @ ..]) => {
                add_names(&mut o.names, names)?;
                o.table = true;
                rest
            }
            (Kind::Banks, [path, rest @ ..]) => {
                set(&mut o.banks, word, path.as_slice())?;
                rest
            }
            (Kind::Need, [path, rest @ ..]) => {
                set(&mut o.need, word, path.as_slice())?;
                rest
            }
            _ => return Err(Fault::NoValue(word)),
        };
        if kind.is_of_table() && o.of_table.is_none() {
            o.of_table = Some(word);
        }
    }
    o.checked()
}

// An option, and what is wrong with it.
fn say_option(page: &mut Page, option: &[u8], words: &str) {
    quoted(page, option);
    write!(page, "{words}");
}

fn say_value(page: &mut Page, option: &[u8], value: &[u8], why: Wrong) {
    say_option(page, option, ": ");
    quoted(page, value);
    write!(page, "{why}");
    if let Wrong::TooMany(limit) = why {
        write!(page, ", {limit}");
    }
}

// What is wrong with the arguments.
pub(crate) fn say(page: &mut Page, f: Fault) {
    write!(page, "cribstork: ");
    match f {
        Fault::Unknown(option) => {
            write!(page, "unknown option ");
            quoted(page, option);
        }
        Fault::NoValue(option) => say_option(page, option, " has no value"),
        Fault::Value(option, value, why) => say_value(page, option, value, why),
        Fault::Again(option) => say_option(page, option, " is given a second time"),
        Fault::NotWithBanks(option) => say_option(page, option, " does not go with --banks"),
        Fault::OnlyWithBanks(option) => say_option(page, option, " goes with --banks only"),
        Fault::NoFont => write!(page, "no font is named"),
        Fault::LongNames => { write!(page, "the names after --glyph have more than 65535 bytes") }
        Fault::OutOfMemory => write!(page, "out of memory"),
    }
}
