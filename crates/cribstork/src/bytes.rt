// Bytes of a text.

// Where bytes stand in a text.
#[derive(Clone, Copy, Debug, PartialEq, Eq)]
pub(crate) struct Span {
    pub at: usize,
    pub len: usize,
}

impl Span {
    // Its bytes; none where they are not all there.
    pub(crate) fn of(self, text: &[u8]) -> &[u8] {
        text.get(self.at..self.at.saturating_add(self.len))
            .unwrap_or(&[])
    }
}

// The byte at a place; 0 beyond the end. It stays beside std's get, since many tests ask for one byte.
pub(crate) fn byte(text: &[u8], at: usize) -> u8 {
    text.get(at).copied().unwrap_or(0)
}

// The bytes of a word stand at a place.
pub(crate) fn starts(text: &[u8], at: usize, word: &[u8]) -> bool {
    text.get(at..).is_some_and(|rest| rest.starts_with(word))
}

// PostScript's white space. Tests by `==` are compiled to one jump, `matches!` of so many bytes is not.
pub(crate) fn is_space(b: u8) -> bool {
    b == b' ' || b == b'\n' || b == b'\r' || b == b'\t' || b == 12 || b == 0
}
