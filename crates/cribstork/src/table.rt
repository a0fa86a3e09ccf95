// The table of a font's glyphs, and the row of a font.
use crate::converting::{Conversion, Measured, Setup, Sizes, Stores};
use crate::doubles::Double;
use crate::font::Font;
use crate::names::{Name, Names};
use crate::options::Options;
use crate::page::Page;
use crate::source::{Code, Source};
use crate::window;
use crate::window::{Columns, Corners};
use boxes::{Bounds, Boxed, Verdict};
use refusal::Refusal;
use std::alloc::{AllocError, Global};
use std::collections::BTreeMap;
use std::fmt;
use type2::Widths;

// How many glyphs are refused so.
#[derive(Clone, Copy)]
struct Refused {
    why: Refusal,
    glyphs: u64,
}

// What a font's glyphs add up to: how many there are and convert, the largest stores that one needs, how many
// lie how to the window, and how many are refused with which number.
#[derive(Drop)]
struct Totals {
    glyphs: usize,
    converted: usize,
    needs: Sizes,
    within: usize,
    crossing: usize,
    outside: usize,
    no_point: usize,
    refused: BTreeMap<u8, Refused>,
}

impl Totals {
    fn new(alloc: Global) -> Totals {
        Totals {
            glyphs: 0,
            converted: 0,
            needs: Sizes::NONE,
            within: 0,
            crossing: 0,
            outside: 0,
            no_point: 0,
            refused: BTreeMap::new(alloc),
        }
    }

    // One more glyph.
    fn add(&mut self, m: Measured) -> Result<(), AllocError> {
        self.glyphs = self.glyphs.saturating_add(1);
        self.needs = self.needs.max(m.needs);
        match m.answer {
            Ok(_) => self.converted = self.converted.saturating_add(1),
            Err(why) => self.add_refused(why)?,
        }
        Ok(())
    }

    fn add_refused(&mut self, why: Refusal) -> Result<(), AllocError> {
        let none = Refused { why, glyphs: 0 };
        let refused = self.refused.entry(why.number())?.or_insert(none);
        refused.glyphs = refused.glyphs.saturating_add(1);
        Ok(())
    }

    // One more glyph that lies so to the window.
    fn add_boxed(&mut self, boxed: Option<Boxed>) {
        match boxed.map(|p| p.verdict) {
            None => self.no_point = self.no_point.saturating_add(1),
            Some(Verdict::Within) => self.within = self.within.saturating_add(1),
            Some(Verdict::Crossing) => self.crossing = self.crossing.saturating_add(1),
            Some(Verdict::Outside) => self.outside = self.outside.saturating_add(1),
        }
    }

    fn refused_glyphs(&self) -> usize {
        self.glyphs.saturating_sub(self.converted)
    }

    // The lines below the table.
    fn print(&self, page: &mut Page, widths: Widths) {
        write!(
            page,
            "glyphs: {}; converted: {}; refused: {}\n",
            self.glyphs,
            self.converted,
            self.refused_glyphs(),
        );
        for (number, refused) in self.refused.iter() {
            write!(
                page,
                "  refused with {number}, glyphs: {}; {}\n",
                refused.glyphs, refused.why,
            );
        }
        write!(
            page,
            "default width: {}; nominal width: {}\n",
            Double(widths.default_width_x),
            Double(widths.nominal_width_x),
        );
        let [stems, commands, output] = self.needs.as_needs();
        write!(
            page,
            "largest stores needed: stems {stems}, commands {commands}, output {output}\n",
        );
    }

    // How many glyphs lie how to the window.
    fn print_window(&self, page: &mut Page, window: Bounds) {
        write!(
            page,
            "window: {}; within: {}; crossing: {}; outside: {}; no point: {}\n",
            Corners(window),
            self.within,
            self.crossing,
            self.outside,
            self.no_point,
        );
    }

    // The row of a font: cells with tabs between them.
    fn print_row(&self, page: &mut Page, source: Source, widths: Widths) {
        page.name(source.path);
        write!(
            page,
            "\t{}\t{}\t{}\t",
            self.glyphs,
            self.converted,
            self.refused_glyphs(),
        );
        self.print_numbers(page);
        let [stems, commands, output] = self.needs.as_needs();
        write!(
            page,
            "\t{}\t{}\t{stems}\t{commands}\t{output}\t{}\n",
            Double(widths.default_width_x),
            Double(widths.nominal_width_x),
            Notes(source.font),
        );
    }

    // The cell of the numbers that were given, with their counts.
    fn print_numbers(&self, page: &mut Page) {
        if self.refused.is_empty() {
            write!(page, "-");
        }
        for (i, (number, refused)) in self.refused.iter().enumerate() {
            if i > 0 {
                write!(page, " ");
            }
            write!(page, "{number}x{}", refused.glyphs);
        }
    }
}

// The row of a font that cannot be read.
pub(crate) fn print_unreadable(page: &mut Page, path: &[u8]) {
    page.name(path);
    write!(page, "\t-\t-\t-\t-\t-\t-\t-\t-\t-\tunreadable\n");
}

// What is lawful but worth knowing of a font.
#[derive(Clone, Copy)]
enum Note {
    // So many of those declared.
    Count {
        what: &'static str,
        n: usize,
        declared: usize,
    },
    // So many that were defined again.
    Again {
        what: &'static str,
        n: usize,
    },
    // What the font does not define.
    Lacks(&'static str),
}

impl fmt::Display for Note {
    fn fmt<W: fmt::Write>(&self, f: &mut fmt::Formatter<W>) -> fmt::Result {
        match self {
            Note::Count { what, n, declared } => write!(f, "{what} {n}, declared {declared}"),
            Note::Again { what, n } => write!(f, "{what} defined again {n}"),
            Note::Lacks(what) => write!(f, "no {what}"),
        }
    }
}

fn count_note(what: &'static str, n: usize, declared: usize) -> Option<Note> {
    (n != declared).then_some(Note::Count { what, n, declared })
}

fn again_note(what: &'static str, n: usize) -> Option<Note> {
    (n != 0).then_some(Note::Again { what, n })
}

fn lack_note(what: &'static str, defined: bool) -> Option<Note> {
    (!defined).then_some(Note::Lacks(what))
}

// The notes on a font, or '-'.
#[derive(Clone, Copy)]
pub(crate) struct Notes<'a, 't>(pub &'a Font<'t>);

impl Notes<'_, '_> {
    fn notes(&self) -> [Option<Note>; 7] {
        let f = self.0;
        let glyphs = f.charstrings.glyphs.len();
        [
            count_note("glyphs", glyphs, f.charstrings.room),
            count_note("subroutines", f.defined(), f.bodies().len()),
            again_note("glyphs", f.charstrings.again),
            again_note("subroutines", f.rewritten()),
            lack_note("FontMatrix", f.head.matrix.is_some()),
            lack_note("FontType", f.head.typed),
            lack_note("Subrs", f.subroutines.is_some()),
        ]
    }

    fn are_none(&self) -> bool {
        self.notes().iter().all(|note| note.is_none())
    }
}

impl fmt::Display for Notes<'_, '_> {
    fn fmt<W: fmt::Write>(&self, f: &mut fmt::Formatter<W>) -> fmt::Result {
        if self.are_none() {
            return f.write_str("-");
        }
        for (i, note) in self.notes().into_iter().flatten().enumerate() {
            if i > 0 {
                f.write_str("; ")?;
            }
            write!(f, "{note}")?;
        }
        Ok(())
    }
}

// The six numbers of the font's matrix.
fn print_matrix(page: &mut Page, font: &Font) {
    let Some(m) = font.head.matrix else {
        write!(page, "-");
        return;
    };
    for (i, number) in [m.a, m.b, m.c, m.d, m.tx, m.ty].iter().enumerate() {
        if i > 0 {
            write!(page, " ");
        }
        page.name(number.span.of(font.text));
    }
}

// The line of what the font defines.
fn print_definitions(page: &mut Page, source: Source) {
    write!(page, "FontMatrix: ");
    print_matrix(page, source.font);
    match source.font.head.len_iv {
        Some(n) => write!(page, "; lenIV: {n}"),
        None => write!(page, "; not encrypted"),
    }
    write!(
        page,
        "; subroutines: {}; bytes of the bank: {}\n",
        source.font.bodies().len(),
        source.bank.len(),
    );
}

// What is known of a font before its glyphs are converted.
fn print_font(page: &mut Page, source: Source, windowed: bool) {
    page.name(source.path);
    write!(page, "\n");
    print_definitions(page, source);
    let notes = Notes(source.font);
    if !notes.are_none() {
        write!(page, "notes: {notes}\n");
    }
    let columns = if windowed { "  window    box" } else { "" };
    write!(
        page,
        "glyph                       number  bytes       width    run{columns}\n",
    );
}

// A line of the table; how the glyph lies to the window, where there is one.
fn print_glyph(page: &mut Page, name: &[u8], m: Measured, windowed: bool, boxed: Option<Boxed>) {
    page.left(name, 28);
    match m.answer {
        Err(why) => {
            let number = why.number();
            let column = if windowed { "-         " } else { "" };
            write!(
                page,
                "{number:>6}      -           -      -  {column}{why}\n"
            );
        }
        Ok(done) => {
            write!(
                page,
                "     0{:>7} {:>11}{:>7}",
                done.len,
                Double(done.width),
                done.ran,
            );
            if windowed {
                write!(page, "  {}", Columns(boxed));
            }
            write!(page, "\n");
        }
    }
}

// The names that were asked and no glyph has.
fn print_missing(page: &mut Page, missing: &[Name]) {
    for name in missing {
        write!(page, "no glyph named ");
        page.name(name.bytes);
        write!(page, "\n");
    }
}

// The table of a font: the glyphs on a bank, whether there is a table, and whether it has the bytes of the glyphs.
#[derive(Clone, Copy)]
struct Table<'a, 't> {
    conversion: Conversion<'a, 't>,
    printed: bool,
    hex: bool,
}

impl Table<'_, '_> {
    // Measures a glyph, holds it to the window, and prints its line and its bytes where they are shown.
    fn do_glyph(
        &self,
        page: &mut Page,
        name: &[u8],
        code: Code,
        shown: bool,
        stores: &mut Stores,
        totals: &mut Totals,
    ) -> Result<(), AllocError> {
        let m = self.conversion.measure(code, stores);
        let window = self.conversion.setup.window;
        totals.add(m)?;
        let finished = stores.finished(m.answer.map_or(0, |done| done.len));
        let mut boxed = None;
        if let (Ok(_), Some(window)) = (m.answer, window) {
            boxed = window::judge(finished, window);
            totals.add_boxed(boxed);
        }
        if self.printed && shown {
            print_glyph(page, name, m, window.is_some(), boxed);
            if self.hex {
                page.hex_line(finished);
            }
        }
        Ok(())
    }
}

// The table of a font, or its row; the answer is whether all glyphs convert.
pub(crate) fn print(
    alloc: Global,
    page: &mut Page,
    source: Source,
    setup: Setup,
    o: &Options,
    names: &Names,
) -> Result<bool, AllocError> {
    let mut stores = Stores::new();
    let table = Table {
        conversion: Conversion::new(alloc, source, setup, &mut stores)?,
        printed: o.table,
        hex: o.hex,
    };
    if o.table {
        print_font(page, source, setup.window.is_some());
    }
    let mut totals = Totals::new(alloc);
    let glyphs = &source.font.charstrings.glyphs;
    let asked = names.of_glyphs(alloc, glyphs)?;
    for ((name, charstring), shown) in glyphs.iter().zip(asked.glyphs.iter()) {
        let code = source.code(*charstring);
        table.do_glyph(page, name.bytes, code, *shown, &mut stores, &mut totals)?;
    }
    print_missing(page, &asked.missing);
    let widths = table.conversion.widths;
    if o.table {
        totals.print(page, widths);
    }
    if let Some(window) = setup.window {
        totals.print_window(page, window);
    }
    if o.fonts.len() > 1 {
        totals.print_row(page, source, widths);
    }
    Ok(totals.converted == totals.glyphs)
}
