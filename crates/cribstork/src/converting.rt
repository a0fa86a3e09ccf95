// Converting the glyphs of a font with the stores of a bank, and what they need.
use crate::STEMS;
use crate::source::{Code, Source};
use boxes::Bounds;
use geometry::Matrix;
use refusal::Refusal;
use std::alloc::{AllocError, Global};
use std::fmt;
use type1::Reading;
use type1_to_type2::Type2Glyph;
use type2::Widths;

// The stores that the program lends: entries of 14 words, and bytes.
pub(crate) const ENTRIES: usize = 1024;

const WORDS: usize = 14336;

pub(crate) const OUTPUT: usize = 16384;

// The sizes of stores, or what glyphs need of them: stem records, entries, bytes. A need over what the
// program lends is one more than that.
#[derive(Clone, Copy)]
pub(crate) struct Sizes {
    pub stems: usize,
    pub commands: usize,
    pub output: usize,
}

impl Sizes {
    pub(crate) const NONE: Sizes = Sizes {
        stems: 0,
        commands: 0,
        output: 0,
    };

    // All of the program's stores.
    const ALL: Sizes = Sizes {
        stems: STEMS,
        commands: ENTRIES,
        output: OUTPUT,
    };

    // Stores that are large enough for most glyphs.
    const SMALL: Sizes = Sizes {
        stems: 256,
        commands: 256,
        output: 4096,
    };

    fn are_all(self) -> bool {
        self.stems >= STEMS && self.commands >= ENTRIES && self.output >= OUTPUT
    }

    fn min(self, other: Sizes) -> Sizes {
        Sizes {
            stems: self.stems.min(other.stems),
            commands: self.commands.min(other.commands),
            output: self.output.min(other.output),
        }
    }

    pub(crate) fn max(self, other: Sizes) -> Sizes {
        Sizes {
            stems: self.stems.max(other.stems),
            commands: self.commands.max(other.commands),
            output: self.output.max(other.output),
        }
    }

    // The three as needs.
    pub(crate) fn as_needs(self) -> [Need; 3] {
        [
            Need {
                n: self.stems,
                limit: STEMS,
            },
            Need {
                n: self.commands,
                limit: ENTRIES,
            },
            Need {
                n: self.output,
                limit: OUTPUT,
            },
        ]
    }
}

// What is needed of a store, or that it is over what the program lends.
#[derive(Clone, Copy)]
pub(crate) struct Need {
    pub n: usize,
    limit: usize,
}

impl fmt::Display for Need {
    fn fmt<W: fmt::Write>(&self, f: &mut fmt::Formatter<W>) -> fmt::Result {
        if self.n > self.limit {
            write!(f, "over {}", self.limit)
        } else {
            write!(f, "{}", self.n)
        }
    }
}

// The stores themselves: words of entries, a program, and the finished charstring.
#[derive(Drop)]
pub(crate) struct Stores {
    words: [u64; WORDS],
    program: [u8; OUTPUT],
    finished: [u8; OUTPUT],
}

impl Stores {
    pub(crate) fn new() -> Stores {
        Stores {
            words: [0; WORDS],
            program: [0; OUTPUT],
            finished: [0; OUTPUT],
        }
    }

    // The finished charstring, of so many bytes.
    pub(crate) fn finished(&mut self, len: usize) -> &[u8] {
        type1_to_type2::finished_program(&mut self.finished, len)
    }
}

// A glyph that was converted and finished: how many bytes it has, its width, and the bytes run.
#[derive(Clone, Copy)]
pub(crate) struct Finished {
    pub len: usize,
    pub width: f64,
    pub ran: usize,
}

// What a glyph gives with the stores that are asked, and what it needs of the stores, whichever are asked.
#[derive(Clone, Copy)]
pub(crate) struct Measured {
    pub answer: Result<Finished, Refusal>,
    pub needs: Sizes,
}

// What converting goes by: how a charstring is read, the matrix, and the sizes of the stores; and the window
// that the finished glyphs are held to, if there is one.
#[derive(Clone, Copy)]
pub(crate) struct Setup {
    pub reading: Reading,
    pub matrix: Matrix,
    pub sizes: Sizes,
    pub window: Option<Bounds>,
}

impl Setup {
    // The same, with all of the program's stores.
    fn with_all(self) -> Setup {
        Setup {
            sizes: Sizes::ALL,
            ..self
        }
    }

    // Converts a charstring with stores of some sizes.
    fn convert_lent(
        self,
        code: Code,
        sizes: Sizes,
        words: &mut [u64],
        program: &mut [u8],
    ) -> Result<Type2Glyph, Refusal> {
        let entries = sizes
            .commands
            .saturating_mul(outline::ENTRY)
            .min(words.len());
        let bytes = sizes.output.min(program.len());
        let g = crate::convert(
            code.charstring,
            code.bank,
            self.reading,
            self.matrix,
            sizes.stems.min(STEMS),
            &mut words[..entries],
            &mut program[..bytes],
        );
        answer(g.number, g)
    }

    // Converts a charstring. A store's size shows only in a refusal for want of room, so small ones, which are
    // sooner wiped, are tried first.
    fn convert(self, code: Code, stores: &mut Stores) -> Result<Type2Glyph, Refusal> {
        let Stores { words, program, .. } = stores;
        match self.convert_lent(code, self.sizes.min(Sizes::SMALL), words, program) {
            Err(Refusal::StemsFull | Refusal::CommandsFull | Refusal::OutputShort) => {
                self.convert_lent(code, self.sizes, words, program)
            }
            answer => answer,
        }
    }

    // Converts a charstring and finishes it.
    fn finish(self, code: Code, widths: Widths, stores: &mut Stores) -> Result<Finished, Refusal> {
        let g = self.convert(code, stores)?;
        let Stores {
            program,
            finished,
            ..
        } = stores;
        finish(g, program, widths, self.sizes.output, finished)
    }

    // The default and the nominal width over the glyphs that convert.
    fn widths(
        self,
        alloc: Global,
        source: Source,
        stores: &mut Stores,
    ) -> Result<Widths, AllocError> {
        let mut list = Vec::new(alloc);
        for charstring in source.font.charstrings.glyphs.values() {
            if let Ok(g) = self.convert(source.code(*charstring), stores) {
                list.push(g.width)?;
            }
        }
        let mut scratch = vec![in alloc; 0.0; list.len()]?;
        // None of these widths is refused, since each is finite and the scratch is as long.
        Ok(widths::choose_widths(list.as_slice(), scratch.as_mut_slice()).unwrap_or(Widths {
            default_width_x: 0.0,
            nominal_width_x: 0.0,
        }))
    }
}

// A font on a bank: its glyphs, what they are converted by, and the default and the nominal width, with all of
// the program's stores and with those that are asked.
#[derive(Clone, Copy)]
pub(crate) struct Conversion<'a, 't> {
    pub source: Source<'a, 't>,
    pub setup: Setup,
    most: Widths,
    pub widths: Widths,
}

impl<'a, 't> Conversion<'a, 't> {
    pub(crate) fn new(
        alloc: Global,
        source: Source<'a, 't>,
        setup: Setup,
        stores: &mut Stores,
    ) -> Result<Conversion<'a, 't>, AllocError> {
        let widths = setup.widths(alloc, source, stores)?;
        let most = if setup.sizes.are_all() {
            widths
        } else {
            setup.with_all().widths(alloc, source, stores)?
        };
        Ok(Conversion {
            source,
            setup,
            most,
            widths,
        })
    }

    // What a glyph gives with all stores, and what it needs of them.
    fn measure_most(&self, code: Code, stores: &mut Stores) -> Measured {
        let run = crate::run(
            code.charstring,
            code.bank,
            self.setup.reading,
            STEMS,
            &mut stores.words,
        );
        let answer = self.setup.with_all().finish(code, self.most, stores);
        let needs = match answer {
            Ok(done) => Sizes {
                stems: run.stems,
                commands: run.entries,
                output: done.len,
            },
            Err(Refusal::CommandsFull) => Sizes {
                commands: ENTRIES + 1,
                ..Sizes::NONE
            },
            Err(Refusal::OutputShort) => Sizes {
                output: OUTPUT + 1,
                ..Sizes::NONE
            },
            Err(_) => Sizes::NONE,
        };
        Measured { answer, needs }
    }

    // Converts and finishes a glyph with all stores, under the widths that go with them, and with the stores
    // that are asked, under theirs. The finished charstring is that of the latter.
    pub(crate) fn measure(&self, code: Code, stores: &mut Stores) -> Measured {
        let all = self.measure_most(code, stores);
        let setup = self.setup;
        if setup.sizes.are_all() {
            return all;
        }
        let answer = setup.finish(code, self.widths, stores);
        let mut needs = all.needs;
        // Where a glyph lacks output under the bank's own widths, it needs what they take.
        if matches!(answer, Err(Refusal::OutputShort)) && needs.output <= setup.sizes.output {
            if let Ok(here) = setup.with_all().finish(code, self.widths, stores) {
                needs.output = needs.output.max(here.len);
            }
        }
        Measured { answer, needs }
    }
}

// The glyph's charstring into an output of some size.
fn finish(
    g: Type2Glyph,
    program: &[u8],
    widths: Widths,
    room: usize,
    out: &mut [u8],
) -> Result<Finished, Refusal> {
    let bytes = room.min(out.len());
    let len = g.charstring(program, widths, &mut out[..bytes])?;
    Ok(Finished {
        len,
        width: g.width,
        ran: g.ran,
    })
}

// A library's answer with a number: a refusal's, or 0.
fn answer<T: Copy>(number: u64, value: T) -> Result<T, Refusal> {
    match Refusal::try_from(number) {
        Ok(refusal) => Err(refusal),
        Err(_) => Ok(value),
    }
}
