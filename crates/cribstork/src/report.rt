// What is printed of a font: its table, its rows, or what is wrong with it.
use crate::banks::Bank;
use crate::converting::{ENTRIES, OUTPUT, Setup, Sizes};
use crate::font::Font;
use crate::names::{KeyedHash, Names};
use crate::options::{AskedMatrix, Options};
use crate::page::Page;
use crate::rows::Rows;
use crate::source::Source;
use crate::trouble::Trouble;
use crate::{FONT_BYTES, STEMS, file, font, page, rows, subroutines, table};
use geometry::Matrix;
use std::alloc::{AllocError, Global};
use type1::Reading;

// How many fonts and rows there were: rows that print, that do not, and that cannot be read.
#[derive(Clone, Copy, Default)]
pub(crate) struct Totals {
    fonts: usize,
    yes: usize,
    no: usize,
    unreadable: usize,
}

impl Totals {
    // One more font, with so many rows that print and that do not.
    fn add(&mut self, yes: usize, no: usize) {
        self.fonts = self.fonts.saturating_add(1);
        self.yes = self.yes.saturating_add(yes);
        self.no = self.no.saturating_add(no);
    }

    // One more font that cannot be read, with so many rows.
    fn add_unreadable(&mut self, rows: usize) {
        self.fonts = self.fonts.saturating_add(1);
        self.unreadable = self.unreadable.saturating_add(rows);
    }
}

// What is wrong with a file, on a line of standard error.
pub(crate) fn say_trouble(rt: &HostRuntime, path: &[u8], t: Trouble, progress: bool) {
    let mut e = Page::errors(rt);
    page::clear_line(rt, progress);
    e.name(path);
    write!(e, ": {t}\n");
    e.flush();
}

// Reads a font from a file's bytes, and builds its bank; its plain text goes to `text`.
fn read<'a>(
    alloc: Global,
    hash: KeyedHash,
    file: &[u8],
    text: &'a mut Vec<u8>,
) -> Result<(Font<'a>, Vec<u8>), Trouble> {
    let font = font::read(alloc, hash, file, text)?;
    let bank = subroutines::build_bank(alloc, font.text, font.bodies())?;
    Ok((font, bank))
}

// What the program does with every font: how glyph names are hashed, what the arguments ask, the banks and the
// names that were read, and whether a line of standard error shows progress.
#[derive(Clone, Copy)]
pub(crate) struct Task<'a> {
    pub rt: &'a HostRuntime,
    pub hash: KeyedHash,
    pub options: &'a Options<'a>,
    pub banks: &'a [Bank<'a>],
    pub names: &'a Names<'a>,
    pub progress: bool,
}

impl Task<'_> {
    // The matrix that the arguments ask for; the identity where they ask for none.
    fn matrix(self, f: &Font) -> Matrix {
        match self.options.matrix {
            None => Matrix::identity(),
            Some(AskedMatrix::Given(m)) => m,
            Some(AskedMatrix::OfFont) => f.matrix(),
        }
    }

    // What the arguments ask of converting.
    fn setup(self, f: &Font) -> Setup {
        let o = self.options;
        Setup {
            reading: Reading {
                len_iv: f.len_iv(),
                strict: o.strict,
            },
            matrix: self.matrix(f),
            sizes: Sizes {
                stems: o.stems.unwrap_or(STEMS),
                commands: o.commands.unwrap_or(ENTRIES),
                output: o.output.unwrap_or(OUTPUT),
            },
            window: o.window,
        }
    }

    // A font that was read: its table, or its rows.
    fn print(
        self,
        page: &mut Page,
        path: &[u8],
        font: &Font,
        bank: &[u8],
        t: &mut Totals,
    ) -> Result<(), AllocError> {
        let alloc = self.rt.alloc();
        let source = Source { path, font, bank };
        let setup = self.setup(font);
        if self.options.banks.is_none() {
            let all = table::print(alloc, page, source, setup, self.options, self.names)?;
            t.add(usize::from(all), usize::from(!all));
            return Ok(());
        }
        let rows = Rows {
            banks: self.banks,
            need: self.names,
            matrix: setup.matrix,
            strict: setup.reading.strict,
        };
        let yes = rows.print(alloc, page, source)?;
        t.add(yes, self.banks.len().saturating_sub(yes));
        Ok(())
    }

    // A font that cannot be read: its rows, and a line of standard error.
    fn print_unreadable(self, page: &mut Page, path: &[u8], wrong: Trouble, t: &mut Totals) {
        if self.options.banks.is_some() {
            rows::print_unreadable(page, path, self.banks);
            t.add_unreadable(self.banks.len());
        } else {
            if self.options.fonts.len() > 1 {
                table::print_unreadable(page, path);
            }
            t.add_unreadable(1);
        }
        page.flush();
        say_trouble(self.rt, path, wrong, self.progress);
    }

    // A font from a file's bytes.
    pub(crate) fn do_bytes(
        self,
        page: &mut Page,
        path: &[u8],
        file: &[u8],
        t: &mut Totals,
    ) -> Result<(), AllocError> {
        let alloc = self.rt.alloc();
        let mut text = Vec::new(alloc);
        match read(alloc, self.hash, file, &mut text) {
            Ok((font, bank)) => self.print(page, path, &font, &bank, t),
            Err(wrong) => {
                self.print_unreadable(page, path, wrong, t);
                Ok(())
            }
        }
    }

    // Shows which font is next, where that is asked.
    fn show_progress(self, path: &[u8], before: usize) {
        if !self.progress {
            return;
        }
        let mut e = Page::errors(self.rt);
        page::clear_line(self.rt, true);
        write!(
            e,
            "{} of {}: ",
            before.saturating_add(1),
            self.options.fonts.len(),
        );
        e.name(path);
        e.flush();
    }

    // A font.
    pub(crate) fn do_font(
        self,
        page: &mut Page,
        path: &[u8],
        t: &mut Totals,
    ) -> Result<(), AllocError> {
        self.show_progress(path, t.fonts);
        match file::load(self.rt, path, FONT_BYTES) {
            Ok(font) => {
                self.do_bytes(page, path, &font, t)?;
                page.flush();
            }
            Err(what) => self.print_unreadable(page, path, what.into(), t),
        }
        Ok(())
    }

    // Writes what is left, and the last line of standard error.
    pub(crate) fn finish(self, page: &mut Page, t: Totals) {
        page.flush();
        let mut e = Page::errors(self.rt);
        if page.has_failed() {
            write!(e, "cribstork: standard output cannot be written\n");
        } else {
            page::clear_line(self.rt, self.progress);
            write!(
                e,
                "cribstork: fonts {}, banks {}, yes {}, no {}, unreadable {}\n",
                t.fonts,
                self.banks.len(),
                t.yes,
                t.no,
                t.unreadable,
            );
        }
        e.flush();
    }
}
