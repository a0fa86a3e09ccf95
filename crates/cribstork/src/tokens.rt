// PostScript's tokens (PostScript Language Reference, 3.2): names, numbers, strings, procedures, comments.
use crate::bytes::{Span, byte, is_space, starts};
use crate::number::{Signed, read_real, read_signed};

// The kinds of tokens. A word is an executable name or a number; a broken token is a string that does not end, or
// a delimiter that nothing opened.
#[derive(Clone, Copy, Debug, PartialEq, Eq)]
pub(crate) enum Kind {
    End,
    Word,
    Name,
    String,
    Open,
    Close,
    OpenArray,
    CloseArray,
    Mark,
    Broken,
}

// A token, the place of its bytes, and these; a literal name's without the slash.
#[derive(Clone, Copy, Debug)]
pub(crate) struct Token<'a> {
    pub kind: Kind,
    pub at: usize,
    pub text: &'a [u8],
}

impl<'a> Token<'a> {
    // The token whose bytes stand from a place up to an end.
    fn new(v: &'a [u8], kind: Kind, at: usize, end: usize) -> Token<'a> {
        Token {
            kind,
            at,
            text: v.get(at..end).unwrap_or(&[]),
        }
    }

    // The place after its bytes.
    pub(crate) fn end(self) -> usize {
        self.at.saturating_add(self.text.len())
    }

    // Where its bytes stand.
    pub(crate) fn span(self) -> Span {
        Span {
            at: self.at,
            len: self.text.len(),
        }
    }

    // Where it begins: a literal name's slash stands before its bytes.
    pub(crate) fn begins(self) -> usize {
        match self.kind {
            Kind::Name => self.at.saturating_sub(1),
            _ => self.at,
        }
    }

    // It is this word.
    pub(crate) fn is_word(self, word: &[u8]) -> bool {
        self.kind == Kind::Word && self.text == word
    }

    // The whole number that it is.
    pub(crate) fn whole(self) -> Option<Signed> {
        match self.kind {
            Kind::Word => read_signed(self.text),
            _ => None,
        }
    }

    // The number without a minus that it is.
    pub(crate) fn natural(self) -> Option<usize> {
        self.whole()?.natural()
    }

    // The number that it is.
    pub(crate) fn real(self) -> Option<f64> {
        match self.kind {
            Kind::Word => read_real(self.text),
            _ => None,
        }
    }

    pub(crate) fn is_number(self) -> bool {
        self.whole().is_some() || self.real().is_some()
    }

    // Its bytes are printable ASCII.
    fn is_printable(self) -> bool {
        self.text.iter().all(u8::is_ascii_graphic)
    }

    // It is an executable name of printable ASCII.
    pub(crate) fn is_plain_word(self) -> bool {
        self.kind == Kind::Word && self.is_printable() && !self.is_number()
    }

    // It is a name with a byte that is no printable ASCII.
    fn is_binary(self) -> bool {
        matches!(self.kind, Kind::Word | Kind::Name) && !self.is_printable()
    }
}

// A byte that ends a name or a number.
fn is_delimiter(b: u8) -> bool {
    is_space(b)
        || b == b'/'
        || b == b'['
        || b == b']'
        || b == b'{'
        || b == b'}'
        || b == b'('
        || b == b')'
        || b == b'<'
        || b == b'>'
        || b == b'%'
}

// The first place from `from` on that ends a name.
fn name_end(v: &[u8], from: usize) -> usize {
    (from..v.len())
        .find(|&at| is_delimiter(v[at]))
        .unwrap_or(v.len())
}

// A comment goes on after this byte, or begins with it.
fn in_comment(before: bool, b: u8) -> bool {
    if before {
        !matches!(b, b'\n' | b'\r' | 12)
    } else {
        b == b'%'
    }
}

// The first place from `from` on that is neither white space nor in a comment.
fn skip_blank(v: &[u8], from: usize) -> usize {
    let mut comment = false;
    for at in from..v.len() {
        let b = v[at];
        comment = in_comment(comment, b);
        if !comment && !is_space(b) {
            return at;
        }
    }
    from.max(v.len())
}

// The place after the string whose first byte stands at a place.
fn string_end(v: &[u8], from: usize) -> Option<usize> {
    let mut depth: usize = 1;
    let mut escaped = false;
    for at in from..v.len() {
        let b = v[at];
        match b {
            _ if escaped => escaped = false,
            b'\\' => escaped = true,
            b'(' => depth = depth.saturating_add(1),
            b')' => depth = depth.saturating_sub(1),
            _ => {}
        }
        if depth == 0 {
            return Some(at + 1);
        }
    }
    None
}

// The same for a string in hexadecimal digits.
fn hex_string_end(v: &[u8], from: usize) -> Option<usize> {
    for at in from..v.len() {
        let b = v[at];
        if b == b'>' {
            return Some(at + 1);
        }
        if !b.is_ascii_hexdigit() && !is_space(b) {
            return None;
        }
    }
    None
}

// The same for a string in base 85.
fn base85_end(v: &[u8], from: usize) -> Option<usize> {
    let at = (from..v.len()).find(|&at| starts(v, at, b"~>"))?;
    Some(at.saturating_add(2))
}

// A string that ends before a place; a broken one where it does not end.
fn string(at: usize, end: Option<usize>) -> (Kind, usize, usize) {
    match end {
        Some(end) => (Kind::String, at, end),
        None => (Kind::Broken, at, at),
    }
}

// What begins with '<'.
fn angle(v: &[u8], at: usize) -> (Kind, usize, usize) {
    let next = at.saturating_add(1);
    let second = at.saturating_add(2);
    match byte(v, next) {
        b'<' => (Kind::Mark, at, second),
        b'~' => string(at, base85_end(v, second)),
        _ => string(at, hex_string_end(v, next)),
    }
}

// The kind of the token that a byte at a place begins, and where its bytes begin and end. The byte is neither
// white space nor a comment's.
#[inline(always)]
fn begun(v: &[u8], at: usize, b: u8) -> (Kind, usize, usize) {
    let next = at.saturating_add(1);
    match b {
        b'/' => (Kind::Name, next, name_end(v, next)),
        b'{' => (Kind::Open, at, next),
        b'}' => (Kind::Close, at, next),
        b'[' => (Kind::OpenArray, at, next),
        b']' => (Kind::CloseArray, at, next),
        b'(' => string(at, string_end(v, next)),
        b'<' => angle(v, at),
        b'>' if byte(v, next) == b'>' => (Kind::Mark, at, at.saturating_add(2)),
        b'>' | b')' => (Kind::Broken, at, at),
        _ => (Kind::Word, at, name_end(v, at)),
    }
}

// The next token from a place on. It is compiled into its callers: a walk over nested arrays takes half as long
// again where it is called.
#[inline(always)]
pub(crate) fn next(v: &[u8], from: usize) -> Token<'_> {
    let place = skip_blank(v, from);
    let (kind, at, end) = match v.get(place) {
        None => (Kind::End, place, place),
        Some(&b) => begun(v, place, b),
    };
    Token::new(v, kind, at, end)
}

// The place after the procedure or array whose first token stands from a place on.
fn closed_end(v: &[u8], from: usize, open: Kind, close: Kind) -> Option<usize> {
    let mut at = from;
    let mut depth: usize = 1;
    for _ in 0..v.len() {
        let t = next(v, at);
        if matches!(t.kind, Kind::End | Kind::Broken) || t.is_binary() {
            return None;
        }
        if t.kind == open {
            depth = depth.saturating_add(1);
        } else if t.kind == close {
            depth = depth.saturating_sub(1);
        }
        at = t.end();
        if depth == 0 {
            return Some(at);
        }
    }
    None
}

// The place after the procedure.
pub(crate) fn procedure_end(v: &[u8], from: usize) -> Option<usize> {
    closed_end(v, from, Kind::Open, Kind::Close)
}

// The place after the array.
pub(crate) fn array_end(v: &[u8], from: usize) -> Option<usize> {
    closed_end(v, from, Kind::OpenArray, Kind::CloseArray)
}
