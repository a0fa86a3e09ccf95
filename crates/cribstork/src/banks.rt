// The file of banks: lines of cells with tabs between them, the first of which names the columns.
use crate::bytes::is_space;
use crate::page::Page;
use crate::values;
use crate::values::{Store, Wrong, quoted};
use boxes::Bounds;
use geometry::Matrix;
use std::alloc::{AllocError, AllocFailed, Global};
use std::fmt;
use std::fmt::Display;

// The columns that the program knows.
#[derive(Clone, Copy, PartialEq, Eq)]
pub(crate) enum Column {
    Name,
    Stems,
    Commands,
    Output,
    A,
    B,
    C,
    D,
    Tx,
    Ty,
    X0,
    Y0,
    X1,
    Y1,
    Strict,
}

// Those that every bank has, those of a matrix, and those of a window.
const NEEDED: [Column; 4] = [
    Column::Name,
    Column::Stems,
    Column::Commands,
    Column::Output,
];

const MATRIX: [Column; 6] = [
    Column::A,
    Column::B,
    Column::C,
    Column::D,
    Column::Tx,
    Column::Ty,
];

const WINDOW: [Column; 4] = [Column::X0, Column::Y0, Column::X1, Column::Y1];

impl From<Store> for Column {
    fn from(s: Store) -> Column {
        match s {
            Store::Stems => Column::Stems,
            Store::Commands => Column::Commands,
            Store::Output => Column::Output,
        }
    }
}

impl Column {
    // The column of a name, if there is one.
    fn named(name: &[u8]) -> Option<Column> {
        match name {
            b"name" => Some(Column::Name),
            b"stems" => Some(Column::Stems),
            b"commands" => Some(Column::Commands),
            b"output" => Some(Column::Output),
            b"a" => Some(Column::A),
            b"b" => Some(Column::B),
            b"c" => Some(Column::C),
            b"d" => Some(Column::D),
            b"tx" => Some(Column::Tx),
            b"ty" => Some(Column::Ty),
            b"x0" => Some(Column::X0),
            b"y0" => Some(Column::Y0),
            b"x1" => Some(Column::X1),
            b"y1" => Some(Column::Y1),
            b"strict" => Some(Column::Strict),
            _ => None,
        }
    }
}

impl Display for Column {
    fn fmt<W: fmt::Write>(&self, f: &mut fmt::Formatter<W>) -> fmt::Result {
        f.write_str(match self {
            Column::Name => "name",
            Column::Stems => "stems",
            Column::Commands => "commands",
            Column::Output => "output",
            Column::A => "a",
            Column::B => "b",
            Column::C => "c",
            Column::D => "d",
            Column::Tx => "tx",
            Column::Ty => "ty",
            Column::X0 => "x0",
            Column::Y0 => "y0",
            Column::X1 => "x1",
            Column::Y1 => "y1",
            Column::Strict => "strict",
        })
    }
}

// A bank: its name, its stores, its matrix and its window if it has them, and whether its reading is strict if it
// says so.
#[derive(Clone, Copy)]
pub(crate) struct Bank<'a> {
    pub name: &'a [u8],
    pub stems: usize,
    pub commands: usize,
    pub output: usize,
    pub matrix: Option<Matrix>,
    pub window: Option<Bounds>,
    pub strict: Option<bool>,
}

// What can be wrong with a file, with its header, a bank's line, or a cell.
#[derive(Clone, Copy)]
pub(crate) enum What<'a> {
    NoBank,
    NoColumn(Column),
    NoCell(Column),
    Cell(Column, &'a [u8], Wrong),
    NoAnswer(&'a [u8]),
    ManyCells,
    SameName(&'a [u8]),
    OutOfMemory,
}

impl<'a> From<AllocError> for What<'a> {
    fn from(_e: AllocError) -> What<'a> {
        What::OutOfMemory
    }
}

// What is wrong, and in which line if it is in one. Lines count from 1.
#[derive(Clone, Copy)]
pub(crate) struct Fault<'a> {
    line: Option<usize>,
    what: What<'a>,
}

impl<'a> From<AllocError> for Fault<'a> {
    fn from(_e: AllocError) -> Fault<'a> {
        Fault {
            line: None,
            what: What::OutOfMemory,
        }
    }
}

impl<'a, T: Drop> From<AllocFailed<T>> for Fault<'a> {
    fn from(_e: AllocFailed<T>) -> Fault<'a> {
        Fault {
            line: None,
            what: What::OutOfMemory,
        }
    }
}

fn in_line<'a>(line: usize, what: What<'a>) -> Fault<'a> {
    Fault {
        line: Some(line),
        what,
    }
}

fn trimmed_start(mut v: &[u8]) -> &[u8] {
    while let [b, rest @ ..] = v
        && is_space(*b)
    {
        v = rest;
    }
    v
}

fn trimmed_end(mut v: &[u8]) -> &[u8] {
    while let [rest @ .., b] = v
        && is_space(*b)
    {
        v = rest;
    }
    v
}

// A line's cells, without its comment.
fn without_comment(line: &[u8]) -> &[u8] {
    trimmed_end(line.split(|b| *b == b'#').next().unwrap_or(line))
}

// A cell without white space around it. '-' stands for an empty cell.
fn cell(text: &[u8]) -> &[u8] {
    match trimmed_end(trimmed_start(text)) {
        b"-" => b"",
        w => w,
    }
}

// The cells of a line.
fn cells<'a>(alloc: Global, line: &'a [u8]) -> Result<Vec<&'a [u8]>, AllocError> {
    line.split(|b| *b == b'\t').map(|w| cell(w)).collect(alloc)
}

// The columns of the header's cells: it names the four that every bank has.
fn header<'a>(alloc: Global, line: &[u8]) -> Result<Vec<Option<Column>>, What<'a>> {
    let columns: Vec<Option<Column>> = line
        .split(|b| *b == b'\t')
        .map(|w| Column::named(cell(w)))
        .collect(alloc)?;
    for c in NEEDED {
        if !columns.contains(&Some(c)) {
            return Err(What::NoColumn(c));
        }
    }
    Ok(columns)
}

// A bank's line: the header's columns, and its cells.
#[derive(Clone, Copy)]
struct Row<'a, 'b> {
    columns: &'b [Option<Column>],
    cells: &'b [&'a [u8]],
}

impl<'a, 'b> Row<'a, 'b> {
    // The cell of a column; empty where there is none.
    fn cell(&self, c: Column) -> &'a [u8] {
        let Some(at) = self.columns.iter().position(|x| *x == Some(c)) else {
            return b"";
        };
        self.cells.get(at).copied().unwrap_or(b"")
    }

    // The cell of a column, which is not empty.
    fn given(&self, c: Column) -> Result<&'a [u8], What<'a>> {
        match self.cell(c) {
            b"" => Err(What::NoCell(c)),
            w => Ok(w),
        }
    }

    fn size(&self, s: Store) -> Result<usize, What<'a>> {
        let c = Column::from(s);
        let w = self.given(c)?;
        values::size(s, w).map_err(|why| What::Cell(c, w, why))
    }

    fn entry(&self, c: Column) -> Result<f64, What<'a>> {
        let w = self.given(c)?;
        values::entry(w).map_err(|why| What::Cell(c, w, why))
    }

    fn side(&self, c: Column) -> Result<i64, What<'a>> {
        let w = self.given(c)?;
        values::side(w).map_err(|why| What::Cell(c, w, why))
    }

    // All of several cells are empty.
    fn has_none(&self, columns: &[Column]) -> bool {
        columns.iter().all(|c| self.cell(*c).is_empty())
    }

    // The six entries are numbers, or all are empty.
    fn matrix(&self) -> Result<Option<Matrix>, What<'a>> {
        if self.has_none(&MATRIX) {
            return Ok(None);
        }
        Ok(Some(Matrix {
            a: self.entry(Column::A)?,
            b: self.entry(Column::B)?,
            c: self.entry(Column::C)?,
            d: self.entry(Column::D)?,
            tx: self.entry(Column::Tx)?,
            ty: self.entry(Column::Ty)?,
        }))
    }

    // The four sides are numbers of a window's size, or all are empty.
    fn window(&self) -> Result<Option<Bounds>, What<'a>> {
        if self.has_none(&WINDOW) {
            return Ok(None);
        }
        Ok(Some(Bounds {
            left: self.side(Column::X0)?,
            bottom: self.side(Column::Y0)?,
            right: self.side(Column::X1)?,
            top: self.side(Column::Y1)?,
        }))
    }

    // Yes, no, or empty.
    fn strict(&self) -> Result<Option<bool>, What<'a>> {
        match self.cell(Column::Strict) {
            b"" => Ok(None),
            b"yes" => Ok(Some(true)),
            b"no" => Ok(Some(false)),
            w => Err(What::NoAnswer(w)),
        }
    }

    fn bank(&self) -> Result<Bank<'a>, What<'a>> {
        if self.cells.len() > self.columns.len() {
            return Err(What::ManyCells);
        }
        Ok(Bank {
            name: self.given(Column::Name)?,
            stems: self.size(Store::Stems)?,
            commands: self.size(Store::Commands)?,
            output: self.size(Store::Output)?,
            matrix: self.matrix()?,
            window: self.window()?,
            strict: self.strict()?,
        })
    }
}

// The bank of a line, where no bank before has the same name.
fn bank_of<'a>(
    alloc: Global,
    columns: &[Option<Column>],
    line: &'a [u8],
    before: &[Bank],
) -> Result<Bank<'a>, What<'a>> {
    let cells = cells(alloc, line)?;
    let row = Row {
        columns,
        cells: &cells,
    };
    let bank = row.bank()?;
    if before.iter().any(|b| b.name == bank.name) {
        return Err(What::SameName(bank.name));
    }
    Ok(bank)
}

// A line that has a cell, without its comment. Its number counts from 1.
#[derive(Clone, Copy)]
struct Line<'a> {
    number: usize,
    text: &'a [u8],
}

// The lines of a file that have a cell.
fn lines<'a>(alloc: Global, text: &'a [u8]) -> Result<Vec<Line<'a>>, AllocError> {
    (1..)
        .zip(text.split(|b| *b == b'\n'))
        .map(|(number, line)| Line {
            number,
            text: without_comment(line),
        })
        .filter(|l| !l.text.is_empty())
        .collect(alloc)
}

// The number of the line after a file's last.
fn number_after(text: &[u8]) -> usize {
    let text = text.strip_suffix(b"\n").unwrap_or(text);
    text.split(|b| *b == b'\n').count().saturating_add(1)
}

// The banks of a file.
pub(crate) fn read<'a>(alloc: Global, text: &'a [u8]) -> Result<Vec<Bank<'a>>, Fault<'a>> {
    let lines = lines(alloc, text)?;
    let Some((first, rest)) = lines.split_first() else {
        return Err(in_line(number_after(text), What::NoColumn(Column::Name)));
    };
    let columns = header(alloc, first.text).map_err(|what| in_line(first.number, what))?;
    if rest.is_empty() {
        return Err(Fault {
            line: None,
            what: What::NoBank,
        });
    }
    let mut banks = Vec::new(alloc);
    for line in rest {
        let bank = bank_of(alloc, &columns, line.text, &banks).map_err(|what| in_line(
            line.number,
            what,
        ))?;
        banks.push(bank)?;
    }
    Ok(banks)
}

// A cell that is wrong, and why.
fn say_cell(page: &mut Page, c: Column, text: &[u8], why: Wrong) {
    quoted(page, text);
    match why {
        Wrong::TooMany(limit) => write!(page, "{why} for {c}, {limit}"),
        Wrong::Beyond => write!(page, "{why}, for {c}"),
        Wrong::NoCount | Wrong::NoNumber => write!(page, "{why} for {c}"),
    }
}

// What is wrong with a file of banks, in words.
pub(crate) fn say(page: &mut Page, f: Fault) {
    if let Some(line) = f.line {
        write!(page, "line {line}: ");
    }
    match f.what {
        What::NoBank => write!(page, "no bank"),
        What::NoColumn(c) => write!(page, "no column {c}"),
        What::NoCell(c) => write!(page, "no value for {c}"),
        What::Cell(c, text, why) => say_cell(page, c, text, why),
        What::NoAnswer(text) => {
            quoted(page, text);
            write!(page, " is neither yes nor no for strict");
        }
        What::ManyCells => write!(page, "more cells than the header has"),
        What::SameName(name) => {
            write!(page, "a bank before has the same name, ");
            quoted(page, name);
        }
        What::OutOfMemory => write!(page, "out of memory"),
    }
}
