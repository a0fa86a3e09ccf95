// The rows of a font: one for each bank.
use crate::banks::Bank;
use crate::converting::{Conversion, Setup, Sizes, Stores};
use crate::doubles::Double;
use crate::names::{Asked, Name, Names};
use crate::page::Page;
use crate::source::{Code, Source};
use crate::table::Notes;
use crate::window;
use boxes::{Boxed, Verdict};
use geometry::Matrix;
use refusal::Refusal;
use std::alloc::{AllocError, Global};
use std::fmt;
use type1::Reading;

// Why a needed glyph fails on a bank: it is refused, or its box crosses the bank's window, or lies outside it.
#[derive(Clone, Copy)]
enum Failure {
    Refused(Refusal),
    Crossing,
    Outside,
}

impl Failure {
    // A glyph that draws no point fails on no window.
    fn of(boxed: Option<Boxed>) -> Option<Failure> {
        match boxed?.verdict {
            Verdict::Within => None,
            Verdict::Crossing => Some(Failure::Crossing),
            Verdict::Outside => Some(Failure::Outside),
        }
    }
}

impl fmt::Display for Failure {
    fn fmt<W: fmt::Write>(&self, f: &mut fmt::Formatter<W>) -> fmt::Result {
        match self {
            Failure::Refused(why) => write!(f, "{}", why.number()),
            Failure::Crossing => write!(f, "crossing"),
            Failure::Outside => write!(f, "outside"),
        }
    }
}

// A needed glyph that fails.
#[derive(Clone, Copy)]
struct Failing<'a> {
    name: &'a [u8],
    why: Failure,
}

// What a bank makes of a font: the needed glyphs that fail, the bytes of all finished glyphs, and what the
// needed glyphs need of the stores.
#[derive(Drop)]
struct Sums<'a> {
    failing: Vec<Failing<'a>>,
    bytes: usize,
    needs: Sizes,
}

impl<'a> Sums<'a> {
    fn new(alloc: Global) -> Sums<'a> {
        Sums {
            failing: Vec::new(alloc),
            bytes: 0,
            needs: Sizes::NONE,
        }
    }

    // Measures a glyph on a bank, and holds it to the bank's window where it is needed.
    fn add(
        &mut self,
        conversion: &Conversion,
        name: &'a [u8],
        code: Code,
        needed: bool,
        stores: &mut Stores,
    ) -> Result<(), AllocError> {
        let m = conversion.measure(code, stores);
        if let Ok(done) = m.answer {
            self.bytes = self.bytes.saturating_add(done.len);
        }
        if !needed {
            return Ok(());
        }
        self.needs = self.needs.max(m.needs);
        let why = match m.answer {
            Err(why) => Some(Failure::Refused(why)),
            Ok(done) => match conversion.setup.window {
                None => None,
                Some(window) => Failure::of(window::judge(stores.finished(done.len), window)),
            },
        };
        if let Some(why) = why {
            self.failing.push(Failing { name, why })?;
        }
        Ok(())
    }
}

// The items of a cell, with commas between them, or '-'.
#[derive(Clone, Copy)]
struct Items {
    begun: bool,
}

impl Items {
    fn new() -> Items {
        Items { begun: false }
    }

    // Before an item.
    fn next(&mut self, page: &mut Page) {
        if self.begun {
            write!(page, ", ");
        }
        self.begun = true;
    }

    fn end(self, page: &mut Page) {
        write!(page, "{}\t", if self.begun { "" } else { "-" });
    }
}

// The cell of the needed glyphs that fail or that the font lacks.
fn print_which(page: &mut Page, sums: &Sums, missing: &[Name]) {
    let mut items = Items::new();
    for failing in sums.failing.iter() {
        items.next(page);
        page.name(failing.name);
        write!(page, " {}", failing.why);
    }
    for name in missing {
        items.next(page);
        page.name(name.bytes);
        write!(page, " missing");
    }
    items.end(page);
}

// The cell of the stores that a bank is short of.
fn print_short(page: &mut Page, has: Sizes, needs: Sizes) {
    let [stems, commands, output] = needs.as_needs();
    let mut items = Items::new();
    for (what, has, need) in [
        ("stems", has.stems, stems),
        ("commands", has.commands, commands),
        ("output", has.output, output),
    ] {
        if need.n > has {
            items.next(page);
            write!(page, "{what} {has} < {need}");
        }
    }
    items.end(page);
}

fn begin_row(page: &mut Page, path: &[u8], bank: &Bank) {
    page.name(path);
    write!(page, "\t");
    page.name(bank.name);
    write!(page, "\t");
}

// What the rows of a font go by: the banks, the names of the glyphs that are needed, the matrix of a bank that has
// none of its own, and the reading of one that does not say how it reads.
#[derive(Clone, Copy)]
pub(crate) struct Rows<'a> {
    pub banks: &'a [Bank<'a>],
    pub need: &'a Names<'a>,
    pub matrix: Matrix,
    pub strict: bool,
}

impl Rows<'_> {
    fn setup(self, bank: &Bank, len_iv: usize) -> Setup {
        Setup {
            reading: Reading {
                len_iv,
                strict: bank.strict.unwrap_or(self.strict),
            },
            matrix: bank.matrix.unwrap_or(self.matrix),
            sizes: Sizes {
                stems: bank.stems,
                commands: bank.commands,
                output: bank.output,
            },
            window: bank.window,
        }
    }

    // The row of a bank; the answer is whether it prints the font.
    fn print_row(
        self,
        alloc: Global,
        page: &mut Page,
        source: Source,
        needed: &Asked,
        bank: &Bank,
        stores: &mut Stores,
    ) -> Result<bool, AllocError> {
        begin_row(page, source.path, bank);
        let setup = self.setup(bank, source.font.len_iv());
        let conversion = Conversion::new(alloc, source, setup, stores)?;
        let mut sums = Sums::new(alloc);
        let glyphs = source.font.charstrings.glyphs.iter();
        for ((name, charstring), wanted) in glyphs.zip(needed.glyphs.iter()) {
            let code = source.code(*charstring);
            sums.add(&conversion, name.bytes, code, *wanted, stores)?;
        }
        let fails = sums.failing.len().saturating_add(needed.missing.len());
        write!(page, "{}\t{fails}\t", if fails == 0 { "yes" } else { "no" });
        print_which(page, &sums, &needed.missing);
        print_short(page, setup.sizes, sums.needs);
        write!(
            page,
            "{}\t{}\t{}\t{}\t{}\n",
            Double(conversion.widths.default_width_x),
            Double(conversion.widths.nominal_width_x),
            sums.bytes,
            source.bank.len(),
            Notes(source.font),
        );
        Ok(fails == 0)
    }

    // The rows of a font; the answer is how many banks print it.
    pub(crate) fn print(
        self,
        alloc: Global,
        page: &mut Page,
        source: Source,
    ) -> Result<usize, AllocError> {
        let needed = self.need.of_glyphs(alloc, &source.font.charstrings.glyphs)?;
        let mut stores = Stores::new();
        let mut yes: usize = 0;
        for bank in self.banks {
            if self.print_row(alloc, page, source, &needed, bank, &mut stores)? {
                yes = yes.saturating_add(1);
            }
        }
        Ok(yes)
    }
}

// The rows of a font that cannot be read.
pub(crate) fn print_unreadable(page: &mut Page, path: &[u8], banks: &[Bank]) {
    for bank in banks {
        begin_row(page, path, bank);
        write!(page, "unreadable\t-\t-\t-\t-\t-\t-\t-\t-\n");
    }
}
