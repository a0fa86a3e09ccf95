// A font that was read.
use crate::bytes::Span;
use crate::font::Font;

// The charstring of a glyph, and the bank of the subroutines that it calls.
#[derive(Clone, Copy)]
pub(crate) struct Code<'a> {
    pub charstring: &'a [u8],
    pub bank: &'a [u8],
}

// Where a font was read, what it defines, and the bank.
#[derive(Clone, Copy)]
pub(crate) struct Source<'a, 't> {
    pub path: &'a [u8],
    pub font: &'a Font<'t>,
    pub bank: &'a [u8],
}

impl<'a> Source<'a, '_> {
    // The charstring that stands at a place of the font's text.
    pub(crate) fn code(&self, charstring: Span) -> Code<'a> {
        Code {
            charstring: charstring.of(self.font.text),
            bank: self.bank,
        }
    }
}
