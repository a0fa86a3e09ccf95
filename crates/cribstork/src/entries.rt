// The subroutines and the charstrings of a private part.
use crate::bytes::{Span, byte, is_space};
use crate::names::{Glyphs, KeyedHash, Name};
use crate::tokens::{Kind, Token};
use crate::trouble::{Trouble, What};
use crate::{GLYPHS, tokens};
use std::alloc::Global;
use std::ops::ControlFlow;

// A step of reading: the next place, or the place after all that is read.
pub(crate) type Step = Result<ControlFlow<usize, usize>, Trouble>;

// Steps from a place on, up to the one that ends them; the answer is its place. Each but the last passes a byte.
pub(crate) fn take_steps<F: FnMut(usize) -> Step>(
    text: &[u8],
    from: usize,
    mut step: F,
) -> Result<usize, Trouble>
    requires { F.IsAlwaysCallable step }
{
    let mut at = from;
    for _ in 0..=text.len() {
        match step(at)? {
            ControlFlow::Continue(next) => at = next,
            ControlFlow::Break(end) => return Ok(end),
        }
    }
    Ok(at)
}

// Binary bytes in a text: a length, a word that reads them, one space, the bytes.
#[derive(Clone, Copy)]
struct Binary<'a> {
    word: &'a [u8],
    code: Span,
    next: usize,
}

// The token is this word; any where none is given.
fn is_same_word(t: Token<'_>, word: Option<&[u8]>) -> bool {
    word.is_none_or(|word| t.text == word)
}

// One of PostScript's own words that store an entry.
fn stores(t: Token<'_>) -> bool {
    matches!(
        t.text,
        b"noaccess" | b"readonly" | b"executeonly" | b"put" | b"def"
    )
}

// A walk through entries: the words that read and store the first one, whether the last one still waits to be
// stored, and how many words stand after its bytes.
#[derive(Drop)]
struct Walk<'a> {
    text: &'a [u8],
    reads: Option<&'a [u8]>,
    stores: Option<&'a [u8]>,
    waits: bool,
    words: usize,
}

impl<'a> Walk<'a> {
    fn new(text: &'a [u8], reads: Option<&'a [u8]>) -> Walk<'a> {
        Walk {
            text,
            reads,
            stores: None,
            waits: false,
            words: 0,
        }
    }

    // The binary bytes from a place on, read by the word that reads the first entry.
    fn binary(&self, from: usize) -> Result<Binary<'a>, Trouble> {
        let t = tokens::next(self.text, from);
        let len = t.natural().ok_or(What::NoLength.at(t.at))?;
        let w = tokens::next(self.text, t.end());
        if !w.is_plain_word() || !is_space(byte(self.text, w.end())) {
            return Err(What::NoLength.at(t.at));
        }
        if !is_same_word(w, self.reads) {
            return Err(What::OtherWord.at(w.at));
        }
        let at = w.end().saturating_add(1);
        if self.text.len().saturating_sub(at) < len {
            return Err(What::Cut.at(t.at));
        }
        Ok(Binary {
            word: w.text,
            code: Span { at, len },
            next: at.saturating_add(len),
        })
    }

    // An entry's binary bytes were read.
    fn begin(&mut self, b: Binary<'a>) -> Step {
        self.reads = Some(b.word);
        self.waits = true;
        self.words = 0;
        Ok(ControlFlow::Continue(b.next))
    }

    // A word is passed over.
    fn pass(&mut self, t: Token<'a>) -> Step {
        self.words = self.words.saturating_add(1);
        Ok(ControlFlow::Continue(t.end()))
    }

    // The first word after an entry's bytes: one of PostScript's own, or the word that stored the first one that
    // was stored by another.
    fn store(&mut self, t: Token<'a>) -> Step {
        if !stores(t) {
            if !is_same_word(t, self.stores) {
                return Err(What::OtherWord.at(t.at));
            }
            self.stores = Some(t.text);
        }
        self.waits = false;
        self.pass(t)
    }
}

// The subroutines of a font: where each stands, how many were defined again, and the word that reads them.
#[derive(Drop)]
pub(crate) struct Subroutines<'a> {
    pub list: Vec<Option<Span>>,
    pub again: usize,
    pub reads: Option<&'a [u8]>,
}

impl Subroutines<'_> {
    pub(crate) fn none(alloc: Global) -> Self {
        Subroutines {
            list: Vec::new(alloc),
            again: 0,
            reads: None,
        }
    }
}

// A walk through the subroutines of an array.
#[derive(Drop)]
struct Bodies<'a> {
    walk: Walk<'a>,
    list: Vec<Option<Span>>,
    again: usize,
}

impl<'a> Bodies<'a> {
    // The array ends before a place, where its last entry and the array are stored.
    fn end(&self, at: usize) -> Step {
        if self.walk.reads.is_some() && self.walk.words < 2 {
            return Err(What::DamagedSubrs.at(at));
        }
        Ok(ControlFlow::Break(at))
    }

    // The subroutine after `dup`: its number and its bytes. A name after `dup` ends the array.
    fn body(&mut self, t: Token<'a>) -> Step {
        let u = tokens::next(self.walk.text, t.end());
        let Some(n) = u.whole() else {
            if u.kind == Kind::Name {
                return self.end(t.at);
            }
            return Err(What::DamagedSubrs.at(u.at));
        };
        let no_such_place = What::NoSuchPlace.at(u.at);
        let number = n.natural().ok_or(no_such_place)?;
        let body = self.list.get_mut(number).ok_or(no_such_place)?;
        let b = self.walk.binary(u.end())?;
        if body.replace(b.code).is_some() {
            self.again = self.again.saturating_add(1);
        }
        self.walk.begin(b)
    }

    // The number after the array is no length: the word that reads entries does not follow it.
    fn is_length(&self, t: Token<'a>) -> bool {
        self.walk
            .reads
            .is_some_and(|word| tokens::next(self.walk.text, t.end()).text == word)
    }

    // A token that can be neither in the array nor after it.
    fn is_damage(&self, t: Token<'a>) -> bool {
        match t.kind {
            Kind::Broken | Kind::Close => true,
            Kind::Word => !t.is_number() || self.is_length(t),
            _ => false,
        }
    }

    // The next token of the array: `dup` begins an entry, other words are passed over, anything else ends it.
    fn step(&mut self, at: usize) -> Step {
        let t = tokens::next(self.walk.text, at);
        if self.walk.waits {
            if !t.is_plain_word() {
                return Err(What::DamagedSubrs.at(t.at));
            }
            return self.walk.store(t);
        }
        if t.is_word(b"dup") {
            return self.body(t);
        }
        if t.is_plain_word() {
            return self.walk.pass(t);
        }
        if self.is_damage(t) {
            return Err(What::DamagedSubrs.at(t.at));
        }
        self.end(t.begins())
    }
}

// The subroutines of an array of so many, from a place on, and the place after them.
pub(crate) fn list_bodies<'a>(
    alloc: Global,
    text: &'a [u8],
    from: usize,
    count: usize,
) -> Result<(Subroutines<'a>, usize), Trouble> {
    let mut bodies = Bodies {
        walk: Walk::new(text, None),
        list: vec![in alloc; None; count]?,
        again: 0,
    };
    let end = take_steps(text, from, |at| bodies.step(at))?;
    let Bodies { walk, list, again } = bodies;
    let list = Subroutines {
        list,
        again,
        reads: walk.reads,
    };
    Ok((list, end))
}

// The charstrings of a font: the place where they are named, how many are declared, the glyphs, and how many
// were defined again.
#[derive(Drop)]
pub(crate) struct Charstrings<'a> {
    pub at: usize,
    pub room: usize,
    pub glyphs: Glyphs<'a>,
    pub again: usize,
}

// A walk through the glyphs of a dictionary.
#[derive(Drop)]
struct Charcodes<'a> {
    walk: Walk<'a>,
    glyphs: Glyphs<'a>,
    again: usize,
}

impl<'a> Charcodes<'a> {
    // The glyph of a name. A name that comes again replaces its charstring.
    fn glyph(&mut self, t: Token<'a>) -> Step {
        let b = self.walk.binary(t.end())?;
        let name = Name { bytes: t.text };
        if self.glyphs.len() >= GLYPHS && !self.glyphs.contains_key(&name) {
            return Err(What::TooManyGlyphs.into());
        }
        if self.glyphs.insert(name, b.code)?.is_some() {
            self.again = self.again.saturating_add(1);
        }
        self.walk.begin(b)
    }

    // A word after a glyph; `end` ends them.
    fn word(&mut self, t: Token<'a>) -> Step {
        if self.walk.waits {
            return self.walk.store(t);
        }
        if t.is_word(b"end") {
            return Ok(ControlFlow::Break(t.end()));
        }
        self.walk.pass(t)
    }

    // The next token of the dictionary: a name begins a glyph.
    fn step(&mut self, at: usize) -> Step {
        let t = tokens::next(self.walk.text, at);
        if !self.walk.waits && t.kind == Kind::Name {
            return self.glyph(t);
        }
        if t.is_plain_word() {
            return self.word(t);
        }
        if t.kind == Kind::End {
            return Err(What::NoEnd.at(t.at));
        }
        Err(What::Damaged.at(t.at))
    }
}

// The glyphs of a dictionary, from a place on, read by a word if one is given; how many were defined again, and
// the place after them.
pub(crate) fn list_glyphs<'a>(
    alloc: Global,
    hash: KeyedHash,
    text: &'a [u8],
    from: usize,
    reads: Option<&'a [u8]>,
) -> Result<(Glyphs<'a>, usize, usize), Trouble> {
    let mut codes = Charcodes {
        walk: Walk::new(text, reads),
        glyphs: Glyphs::with_hasher(alloc, hash),
        again: 0,
    };
    let end = take_steps(text, from, |at| codes.step(at))?;
    let Charcodes { glyphs, again, .. } = codes;
    Ok((glyphs, again, end))
}
