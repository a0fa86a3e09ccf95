//! Converts Type 1 font files: reads each, builds its bank, converts every glyph, chooses the widths,
//! finishes each glyph, and prints a table, a row for each font, or a row for each font and bank.
#![tactic(auto)]

ghost use Rattle.std.specs.Prelude.{◌≡◌, ◌≤◌, length};
ghost use Rattle.type1.specs.Interpret.{source_of, outcome};
ghost use Rattle.type1_to_type2.specs.Convert.{rooms_with, convert};
ghost use Rattle.type1_to_type2.specs.Entry.{Answers};
ghost use Rattle.cribstork.specs.Ran.{Runs};

mod arguments;
mod banks;
mod bytes;
mod checks;
mod converting;
mod doubles;
mod entries;
mod file;
mod font;
mod names;
mod number;
mod options;
mod page;
mod report;
mod rows;
mod say;
mod source;
mod subroutines;
mod table;
mod tokens;
mod trouble;
mod values;
mod window;

use geometry::Matrix;
use names::{KeyedHash, Names};
use options::{Fault, Options};
use page::Page;
use report::{Task, Totals};
use std::alloc::AllocError;
use std::io::IsTerminal;
use type1::Reading;
use type1_to_type2::Type2Glyph;

// The most bytes of a file, subroutines of a font, bytes of its bank, and glyphs.
pub const FONT_BYTES: usize = 1048576;

pub const SUBROUTINES: usize = 16384;

pub const BANK_BYTES: usize = 1048576;

pub const GLYPHS: usize = 16384;

// The most bytes of a file of banks or of names, and one more.
const LIST_BYTES: usize = 65536;

// The stem records lent to converting.
pub const STEMS: usize = 1000;

fn stem_store() -> [outline::Stem; STEMS]
    ensures { 1000 ≡ length result }
{
    let none = outline::Stem {
        horizontal: false,
        pos: 0.0,
        width: 0.0,
    };
    [none; STEMS]
}

// Runs a charstring with a stem store of its own, of so many records.
fn run(
    charstring: &[u8],
    bank: &[u8],
    reading: Reading,
    records: usize,
    words: &mut [u64],
) -> type1::Interpreted
    requires { records ≤ 1000 }
    ensures { Runs result words.old words.new (outcome (source_of charstring.now bank.now) reading records (length words.old)) }
{
    let mut stems = stem_store();
    type1::run_charstring(charstring, bank, reading, words, &mut stems[..records])
}

// Converts a charstring with a stem store of its own, of so many records.
fn convert(
    charstring: &[u8],
    bank: &[u8],
    reading: Reading,
    matrix: Matrix,
    records: usize,
    words: &mut [u64],
    out: &mut [u8],
) -> Type2Glyph
    requires { records ≤ 1000 }
    ensures { Answers (convert (source_of charstring.now bank.now) reading matrix (rooms_with records words.old out.old))
        (length out.old) result out.new }
{
    let mut stems = stem_store();
    type1_to_type2::convert_charstring_transformed(
        charstring,
        bank,
        reading,
        matrix,
        &mut stems[..records],
        words,
        out,
    )
}

// The rows or the tables of all fonts, below the names of the columns, and the totals.
fn do_fonts(task: Task, page: &mut Page) -> Result<(), AllocError> {
    if task.options.banks.is_some() {
        write!(
            page,
            "font\tbank\tprints\tfailing\twhich\tshort\tdefault\tnominal\tglyph_bytes\tsubroutine_bytes\tnotes\n",
        );
    } else if task.options.fonts.len() > 1 {
        write!(
            page,
            "font\tglyphs\tconverted\trefused\tnumbers\tdefault\tnominal\tstems\tcommands\toutput\tnotes\n",
        );
    }
    let mut t = Totals::default();
    for path in &task.options.fonts {
        task.do_font(page, path, &mut t)?;
    }
    task.finish(page, t);
    Ok(())
}

// What is wrong with the arguments, and how the program is called.
fn say_fault(rt: &HostRuntime, f: Fault) {
    let mut e = Page::errors(rt);
    options::say(&mut e, f);
    write!(e, "\n{}\n", say::USAGE);
    e.flush();
}

// The table of one font, or the rows of several.
fn do_tables(task: Task, page: &mut Page) -> Result<(), AllocError> {
    if task.options.names.len() >= LIST_BYTES {
        say_fault(task.rt, Fault::LongNames);
        return Ok(());
    }
    let names = Names::of_text(task.rt.alloc(), task.hash, &task.options.names)?;
    do_fonts(
        Task {
            names: &names,
            ..task
        },
        page,
    )
}

// Without a font: the example, where it is there. Too many names ask for every glyph.
fn do_example(task: Task, page: &mut Page) -> Result<(), AllocError> {
    let asked = task.options.names.as_slice();
    let names = if asked.len() <= LIST_BYTES {
        Names::of_text(task.rt.alloc(), task.hash, asked)?
    } else {
        Names::all()
    };
    let path = b"examples/digits.pfb";
    let Ok(font) = file::load(task.rt, path, FONT_BYTES) else {
        say_fault(task.rt, Fault::NoFont);
        return Ok(());
    };
    let task = Task {
        names: &names,
        ..task
    };
    let mut t = Totals::default();
    task.do_bytes(page, path, &font, &mut t)?;
    task.finish(page, t);
    Ok(())
}

// Reads a file of banks or of names; says what is wrong with it.
fn load_list(rt: &HostRuntime, path: &[u8]) -> Option<Vec<u8>> {
    match file::load(rt, path, LIST_BYTES) {
        Ok(list) => Some(list),
        Err(what) => {
            report::say_trouble(rt, path, what.into(), false);
            None
        }
    }
}

// Says what is wrong with the file of banks.
fn say_banks(rt: &HostRuntime, path: &[u8], f: banks::Fault) {
    let mut e = Page::errors(rt);
    e.name(path);
    write!(e, ": ");
    banks::say(&mut e, f);
    write!(e, "\n");
    e.flush();
}

fn say_no_names(rt: &HostRuntime, path: &[u8]) {
    let mut e = Page::errors(rt);
    e.name(path);
    write!(e, ": no glyph name\n");
    e.flush();
}

// Reads the names that are needed, and prints the rows.
fn do_need(task: Task, page: &mut Page) -> Result<(), AllocError> {
    let Some(path) = task.options.need else {
        return do_fonts(task, page);
    };
    let Some(list) = load_list(task.rt, path) else {
        return Ok(());
    };
    let names = Names::of_text(task.rt.alloc(), task.hash, &list)?;
    if names.listed().is_empty() {
        say_no_names(task.rt, path);
        return Ok(());
    }
    do_fonts(
        Task {
            names: &names,
            ..task
        },
        page,
    )
}

// Reads the banks, and prints the rows.
fn do_banks(task: Task, page: &mut Page, path: &[u8]) -> Result<(), AllocError> {
    let Some(list) = load_list(task.rt, path) else {
        return Ok(());
    };
    match banks::read(task.rt.alloc(), &list) {
        Ok(banks) => do_need(
            Task {
                banks: &banks,
                ..task
            },
            page,
        ),
        Err(f) => {
            say_banks(task.rt, path, f);
            Ok(())
        }
    }
}

// What the arguments ask for. Where standard error is a terminal, a line tells which of several fonts is read.
fn act(rt: &HostRuntime, page: &mut Page, options: &Options) -> Result<(), AllocError> {
    let progress = options.fonts.len() > 1 && rt.stderr().is_terminal();
    page.set_clears(progress);
    let task = Task {
        rt,
        hash: KeyedHash::new(rt),
        options,
        banks: &[],
        names: &Names::all(),
        progress,
    };
    if let Some(path) = options.banks {
        do_banks(task, page, path)
    } else if options.fonts.is_empty() {
        do_example(task, page)
    } else {
        do_tables(task, page)
    }
}

fn main(rt: HostRuntime) -> Result<(), AllocError> {
    let alloc = rt.alloc();
    let arguments = arguments::read(&rt, alloc)?;
    let mut page = Page::output(&rt);
    match options::read(alloc, &arguments) {
        Err(f) => say_fault(&rt, f),
        Ok(o) if o.help => {
            write!(page, "{}", say::HELP);
            page.flush();
        }
        Ok(o) if o.version => {
            write!(page, "cribstork 0.2\n");
            page.flush();
        }
        Ok(o) => act(&rt, &mut page, &o)?,
    }
    Ok(())
}
