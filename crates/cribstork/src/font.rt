// What a Type 1 font defines: the clear part up to eexec, and the private part.
use crate::bytes::Span;
use crate::entries::{Charstrings, Step, Subroutines, take_steps};
use crate::file::Private;
use crate::names::KeyedHash;
use crate::tokens::{Kind, Token};
use crate::trouble::{Place, Trouble, What};
use crate::{SUBROUTINES, checks, entries, file, tokens};
use geometry::Matrix;
use std::alloc::Global;
use std::ops::ControlFlow;

// A number of the font's matrix, and where it stands.
#[derive(Clone, Copy)]
pub(crate) struct Number {
    pub span: Span,
    pub value: f64,
}

// The six numbers of FontMatrix.
#[derive(Clone, Copy)]
pub(crate) struct FontMatrix {
    pub a: Number,
    pub b: Number,
    pub c: Number,
    pub d: Number,
    pub tx: Number,
    pub ty: Number,
}

impl FontMatrix {
    // In thousandths: the usual one is the identity.
    fn in_thousandths(self) -> Matrix {
        Matrix {
            a: 1000.0 * self.a.value,
            b: 1000.0 * self.b.value,
            c: 1000.0 * self.c.value,
            d: 1000.0 * self.d.value,
            tx: 1000.0 * self.tx.value,
            ty: 1000.0 * self.ty.value,
        }
    }
}

// What both parts define: whether FontType was defined, the matrix, and lenIV; none where nothing is encrypted.
#[derive(Clone, Copy)]
pub(crate) struct Head {
    pub typed: bool,
    pub matrix: Option<FontMatrix>,
    pub len_iv: Option<usize>,
}

// A font: its plain text, and what was read in it.
#[derive(Drop)]
pub(crate) struct Font<'a> {
    pub text: &'a [u8],
    pub head: Head,
    pub subroutines: Option<Subroutines<'a>>,
    pub charstrings: Charstrings<'a>,
}

impl Font<'_> {
    // FontMatrix in thousandths; the identity where it is not defined.
    pub(crate) fn matrix(&self) -> Matrix {
        self.head
            .matrix
            .map_or_else(Matrix::identity, FontMatrix::in_thousandths)
    }

    // lenIV as a charstring's reading takes it: the largest number where nothing is encrypted.
    pub(crate) fn len_iv(&self) -> usize {
        self.head.len_iv.unwrap_or(usize::MAX)
    }

    // Where its subroutines stand, those that are defined.
    pub(crate) fn bodies(&self) -> &[Option<Span>] {
        match &self.subroutines {
            Some(subroutines) => subroutines.list.as_slice(),
            None => &[],
        }
    }

    // How many subroutines are defined, and how many were defined again.
    pub(crate) fn defined(&self) -> usize {
        self.bodies().iter().flatten().count()
    }

    pub(crate) fn rewritten(&self) -> usize {
        self.subroutines.as_ref().map_or(0, |s| s.again)
    }
}

// A word that takes the name before it and defines nothing.
fn takes_name(t: Token<'_>) -> bool {
    t.kind == Kind::Word
        && matches!(
            t.text,
            b"known" | b"get" | b"exch" | b"load" | b"where" | b"undef"
        )
}

// The token after a value is a word that is no number, as `def` is.
fn is_stored(text: &[u8], t: Token<'_>) -> bool {
    let u = tokens::next(text, t.end());
    u.kind == Kind::Word && !u.is_number()
}

// The finite number that stands from a place on, which moves past it.
fn next_number(text: &[u8], at: &mut usize) -> Option<Number> {
    let t = tokens::next(text, *at);
    *at = t.end();
    Some(Number {
        span: t.span(),
        value: t.real().filter(|&x| binary64::is_finite(x))?,
    })
}

// Six finite numbers and the bracket that closes them, from a place on; and the place after them.
fn six_numbers(text: &[u8], from: usize) -> Option<(FontMatrix, usize)> {
    let mut at = from;
    let matrix = FontMatrix {
        a: next_number(text, &mut at)?,
        b: next_number(text, &mut at)?,
        c: next_number(text, &mut at)?,
        d: next_number(text, &mut at)?,
        tx: next_number(text, &mut at)?,
        ty: next_number(text, &mut at)?,
    };
    let t = tokens::next(text, at);
    matches!(t.kind, Kind::Close | Kind::CloseArray).then_some((matrix, t.end()))
}

impl Head {
    // FontType: it is 1.
    fn font_type(&mut self, text: &[u8], t: Token<'_>) -> Result<usize, Trouble> {
        if t.natural() != Some(1) || !is_stored(text, t) {
            return Err(What::FontType.at(t.at));
        }
        self.typed = true;
        Ok(t.end())
    }

    // The bytes that a charstring drops; -1 says that nothing is encrypted.
    fn len_iv(&mut self, text: &[u8], t: Token<'_>) -> Result<usize, Trouble> {
        let bad = What::BadLenIv.at(t.at);
        let n = t.whole().filter(|_| is_stored(text, t)).ok_or(bad)?;
        self.len_iv = match (n.negative, n.value) {
            (true, 1) => None,
            (false, n @ 0..=65535) => Some(n as usize),
            _ => return Err(bad),
        };
        Ok(t.end())
    }

    fn font_matrix(&mut self, text: &[u8], t: Token<'_>) -> Result<usize, Trouble> {
        match six_numbers(text, t.end()) {
            Some((matrix, end)) if matches!(t.kind, Kind::Open | Kind::OpenArray) => {
                self.matrix = Some(matrix);
                Ok(end)
            }
            _ => Err(What::BadMatrix.at(t.at)),
        }
    }

    // A literal name outside procedures, and its value; the answer is the next place. WeightVector makes the
    // font a multiple-master font.
    fn name(&mut self, text: &[u8], t: Token<'_>) -> Result<usize, Trouble> {
        let value = tokens::next(text, t.end());
        match t.text {
            _ if takes_name(value) => Ok(t.end()),
            b"FontType" => self.font_type(text, value),
            b"FontMatrix" => self.font_matrix(text, value),
            b"WeightVector" => Err(What::MultipleMaster.at(t.at)),
            b"lenIV" => self.len_iv(text, value),
            _ => Ok(t.end()),
        }
    }

    // A token of either part; the answer is the next place.
    fn token(&mut self, text: &[u8], t: Token<'_>) -> Result<usize, Trouble> {
        let not_closed = What::NotClosed.at(t.at);
        match t.kind {
            Kind::Broken | Kind::Close => Err(not_closed),
            Kind::Open => tokens::procedure_end(text, t.end()).ok_or(not_closed),
            Kind::OpenArray => Ok(tokens::array_end(text, t.end()).unwrap_or(t.end())),
            Kind::Name => self.name(text, t),
            _ => Ok(t.end()),
        }
    }

    // A token of the clear part: `eexec` ends it.
    fn clear_step(&mut self, text: &[u8], at: usize) -> Step {
        let t = tokens::next(text, at);
        if t.kind == Kind::End {
            return Err(What::NoEexec.at(t.at));
        }
        if t.is_word(b"eexec") {
            return Ok(ControlFlow::Break(t.end()));
        }
        Ok(ControlFlow::Continue(self.token(text, t)?))
    }
}

// Reads the clear part: what it defines, and the place after eexec.
fn read_clear(text: &[u8]) -> Result<(Head, usize), Trouble> {
    let mut head = Head {
        typed: false,
        matrix: None,
        len_iv: Some(4),
    };
    let eexec = take_steps(text, 0, |at| head.clear_step(text, at))?;
    Ok((head, eexec))
}

// What was read of the private part so far.
#[derive(Drop)]
struct Reader<'a> {
    alloc: Global,
    hash: KeyedHash,
    text: &'a [u8],
    head: Head,
    subroutines: Option<Subroutines<'a>>,
    charstrings: Option<Charstrings<'a>>,
}

impl<'a> Reader<'a> {
    // Subrs: an array of so many, or an empty one in brackets.
    fn subrs(&mut self, t: Token<'a>) -> Result<usize, Trouble> {
        let u = tokens::next(self.text, t.end());
        let w = tokens::next(self.text, u.end());
        if takes_name(u) {
            return Ok(t.end());
        }
        if u.kind == Kind::OpenArray && w.kind == Kind::CloseArray {
            if self.subroutines.is_none() {
                self.subroutines = Some(Subroutines::none(self.alloc));
            }
            return Ok(w.end());
        }
        let count = match u.natural() {
            Some(count) if w.is_word(b"array") => count,
            _ => return Err(What::DamagedSubrs.at(t.at)),
        };
        if self.subroutines.is_some() {
            return Err(What::Second.at(t.at));
        }
        if count > SUBROUTINES {
            return Err(What::TooManySubroutines.into());
        }
        let (subroutines, end) = entries::list_bodies(self.alloc, self.text, w.end(), count)?;
        self.subroutines = Some(subroutines);
        Ok(end)
    }

    // CharStrings: a dictionary with room for so many.
    fn charstrings(&mut self, t: Token<'a>) -> Result<usize, Trouble> {
        let u = tokens::next(self.text, t.end());
        let w = tokens::next(self.text, u.end());
        if takes_name(u) {
            return Ok(t.end());
        }
        let room = match u.natural() {
            Some(room) if w.is_word(b"dict") => room,
            _ => return Err(What::Damaged.at(t.at)),
        };
        if self.charstrings.is_some() {
            return Err(What::Second.at(t.at));
        }
        let reads = self.subroutines.as_ref().and_then(|s| s.reads);
        let (glyphs, again, end) = entries::list_glyphs(
            self.alloc,
            self.hash,
            self.text,
            w.end(),
            reads,
        )?;
        self.charstrings = Some(Charstrings {
            at: t.at,
            room,
            glyphs,
            again,
        });
        Ok(end)
    }

    // A token of the private part: `closefile` ends it. Once CharStrings is read, what does not end does so too.
    fn step(&mut self, at: usize) -> Step {
        let t = tokens::next(self.text, at);
        if t.kind == Kind::End || t.is_word(b"closefile") {
            return Ok(ControlFlow::Break(t.at));
        }
        let next = match t.text {
            b"Subrs" if t.kind == Kind::Name => self.subrs(t)?,
            b"CharStrings" if t.kind == Kind::Name => self.charstrings(t)?,
            _ => match self.head.token(self.text, t) {
                Err(
                    Trouble {
                        what: What::NotClosed,
                        ..
                    },
                ) if self.charstrings.is_some() => {
                    return Ok(ControlFlow::Break(t.at));
                }
                next => next?,
            },
        };
        Ok(ControlFlow::Continue(next))
    }

    // The font, at the end of its private part.
    fn finish(self, end: usize) -> Result<Font<'a>, Trouble> {
        let Reader {
            text,
            head,
            subroutines,
            charstrings,
            ..
        } = self;
        let charstrings = charstrings.ok_or(What::NoCharstrings.at(end))?;
        if charstrings.glyphs.is_empty() {
            return Err(What::NoGlyphs.at(charstrings.at));
        }
        Ok(Font {
            text,
            head,
            subroutines,
            charstrings,
        })
    }
}

// Reads the private part, which begins at a place, and checks what is in it.
fn read_private(
    alloc: Global,
    hash: KeyedHash,
    text: &[u8],
    head: Head,
    from: usize,
) -> Result<Font<'_>, Trouble> {
    let mut reader = Reader {
        alloc,
        hash,
        text,
        head,
        subroutines: None,
        charstrings: None,
    };
    let end = take_steps(text, from.saturating_add(4), |at| reader.step(at))?;
    let font = reader.finish(end)?;
    checks::check(alloc, &font)?;
    Ok(font)
}

// The first byte of the encrypted part: eexec passes over white space (T1 7.2).
fn private_from(text: &[u8], from: usize) -> usize {
    (from..text.len())
        .find(|&at| !matches!(text[at], b' ' | b'\t' | b'\n' | b'\r'))
        .unwrap_or(from.max(text.len()))
}

// The trouble of a text, said of its file. From `from` on the text is of the encrypted part, in hexadecimal
// digits if it is so.
fn in_file(file: &[u8], t: Trouble, from: usize, hex: bool) -> Trouble {
    Trouble {
        what: t.what,
        place: t.place.map(|place| Place {
            at: file::file_place(file, from, hex, place.at),
            hidden: place.at >= from,
        }),
    }
}

// The trouble of a private part from a place on, said of the file. A part in hexadecimal digits that stops at
// another byte is cut there.
fn in_private(file: &[u8], t: Trouble, from: usize, p: Private) -> Trouble {
    match p.cut {
        Some(cut) if t.what.is_cut() => What::NoDigit.at(file::file_place(file, from, false, cut)),
        _ => in_file(file, t, from, p.hex),
    }
}

// Reads a font from a file's bytes: its plain text goes to `text`.
pub(crate) fn read<'a>(
    alloc: Global,
    hash: KeyedHash,
    file: &[u8],
    text: &'a mut Vec<u8>,
) -> Result<Font<'a>, Trouble> {
    if let Some(kind) = file::other_kind(file) {
        return Err(What::OtherKind(kind).into());
    }
    *text = file::join(alloc, file)?;
    let (head, eexec) = read_clear(text).map_err(|t| in_file(file, t, usize::MAX, false))?;
    let from = private_from(text, eexec);
    let p = file::open_private(text, from);
    read_private(alloc, hash, text, head, from).map_err(|t| in_private(file, t, from, p))
}
