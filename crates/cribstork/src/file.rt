// A font's file: what kind it is, PFB segments, the eexec part.
ghost use Rattle.std.specs.Prelude.{◌-◌, length};
ghost use Rattle.std.specs.Iterator.{at_most};

use crate::bytes::{byte, is_space, starts};
use crate::number::hex_value;
use crate::trouble::{Kind, Trouble, What};
use std::alloc::{AllocError, Global};
use std::fs::File;
use std::io::Read;
use std::{io, str};

// The system's numbers of errors: no such file, no permission, a directory. ErrorKind takes other numbers along.
const ENOENT: i32 = 2;

const EACCES: i32 = 13;

const EISDIR: i32 = 21;

// Why a file could not be opened.
fn not_opened(error: io::Error) -> What {
    match error.raw_os_error() {
        Some(ENOENT) => What::Missing,
        Some(EACCES) => What::NoPermission,
        _ => What::NotOpened,
    }
}

// Why nothing was read, where a read failed.
fn nothing_read(error: io::Error) -> What {
    match error.raw_os_error() {
        Some(EISDIR) => What::Directory,
        _ => What::NotRead,
    }
}

// Opens a file for reading, or says what is wrong. A path that is not UTF-8 cannot be opened.
fn open(rt: &HostRuntime, path: &[u8]) -> Result<File, What> {
    let Ok(path) = str::from_utf8(path) else {
        return Err(What::NotOpened);
    };
    File::open(rt, path).map_err(not_opened)
}

// A file's bytes, which are fewer than `most`. Where a read fails after some bytes, these are the file's.
pub(crate) fn load(rt: &HostRuntime, path: &[u8], most: usize) -> Result<Vec<u8>, What> {
    let file = open(rt, path)?;
    let mut bytes = Vec::with_capacity(rt.alloc(), most)?;
    let read = file.take(most as u64).read_to_end(&mut bytes);
    if bytes.is_empty() {
        read.map_err(nothing_read)?;
        return Err(What::Empty);
    }
    if bytes.len() >= most {
        return Err(What::TooLarge {
            limit: most.saturating_sub(1),
        });
    }
    Ok(bytes)
}

// The bytes that files of other kinds begin with.
const HEADS: [(&[u8], Kind); 14] = [
    (&[0, 1, 0, 0], Kind::TrueType),
    (b"true", Kind::TrueType),
    (b"ttcf", Kind::Collection),
    (b"OTTO", Kind::OpenType),
    (b"wOFF", Kind::WebFont),
    (b"wOF2", Kind::WebFont),
    (&[137, 80, 78, 71], Kind::Png),
    (b"%PDF", Kind::Pdf),
    (b"StartFontMetrics", Kind::Metrics),
    (&[0, 1], Kind::WindowsMetrics),
    (&[31, 139], Kind::Gzip),
    (b"PK", Kind::Zip),
    (b"STARTFONT", Kind::Bitmap),
    (&[1, 0, 4], Kind::BareCff),
];

// The kind of a file that is no Type 1 font; none for any other.
pub(crate) fn other_kind(v: &[u8]) -> Option<Kind> {
    HEADS
        .iter()
        .find(|(head, _)| v.starts_with(head))
        .map(|&(_, kind)| kind)
}

// A PFB segment's length: four bytes, the lowest first.
fn segment_length(v: &[u8], at: usize) -> usize {
    let bytes = [0, 1, 2, 3].map(|i| byte(v, at.saturating_add(i)));
    u32::from_le_bytes(bytes) as usize
}

// The bytes of the segment at a place.
fn segment(v: &[u8], at: usize) -> Option<&[u8]> {
    let rest = v.get(at.saturating_add(6)..).unwrap_or(&[]);
    rest.get(..segment_length(v, at.saturating_add(2)))
}

// The text of a file's segments. The mark of the end ends it.
fn join_segments(alloc: Global, v: &[u8]) -> Result<Vec<u8>, Trouble> {
    let mut text = Vec::new(alloc);
    let mut at = 0;
    // Each turn goes on by a segment's length.
    while at < v.len() {
        match (byte(v, at), byte(v, at.saturating_add(1))) {
            (128, 1 | 2) => {
                let Some(body) = segment(v, at) else {
                    return Err(What::SegmentCut.at(at));
                };
                text.extend_from_slice(body)?;
                at = at.saturating_add(6).saturating_add(body.len());
            }
            (128, 3) => break,
            _ => return Err(What::NoSegment.at(at)),
        }
    }
    Ok(text)
}

// A file's bytes, or those of its segments, in a row.
pub(crate) fn join(alloc: Global, v: &[u8]) -> Result<Vec<u8>, Trouble> {
    if v.starts_with(&[128]) {
        return join_segments(alloc, v);
    }
    Ok(Vec::from_slice(alloc, v)?)
}

// Whether a private part was in hexadecimal digits, and the place of the byte that cuts these, if one does.
#[derive(Clone, Copy)]
pub(crate) struct Private {
    pub hex: bool,
    pub cut: Option<usize>,
}

// The first place from `from` on that is neither a digit nor white space.
fn digits_end(text: &[u8], from: usize) -> Option<usize> {
    (from..text.len()).find(|&at| {
        let b = byte(text, at);
        !b.is_ascii_hexdigit() && !is_space(b)
    })
}

// Two hexadecimal digits become a byte, in place, up to an end, which becomes the text's.
fn unhex(text: &mut Vec<u8>, from: usize, end: usize) {
    let mut to = from;
    let mut high = None;
    for at in from..end {
        let Some(d) = hex_value(byte(text, at)) else {
            continue;
        };
        high = match high {
            None => Some(d),
            Some(h) => {
                if let Some(b) = text.get_mut(to) {
                    *b = h << 4 | d;
                }
                to = to.saturating_add(1);
                None
            }
        };
    }
    text.truncate(to);
}

// The key that eexec starts with.
const EEXEC_KEY: u16 = 55665;

// The bytes from a place on become plain, in place.
fn decrypt(text: &mut [u8], from: usize) {
    let mut key = EEXEC_KEY;
    for b in text.iter_mut().skip(from) {
        let c = *b;
        *b = charstring::plain_byte(c, key);
        key = charstring::next_key(c, key);
    }
}

// The four bytes from a place on are hexadecimal digits.
fn is_hex_text(text: &[u8], at: usize) -> bool {
    text.get(at..at.saturating_add(4))
        .is_some_and(|bytes| bytes.iter().all(u8::is_ascii_hexdigit))
}

// The part of a text from a place on becomes plain, in place, and the text's end (T1 7.2). Hexadecimal digits are not
// cut where the word cleartomark follows them, whose first letter is a digit.
pub(crate) fn open_private(text: &mut Vec<u8>, from: usize) -> Private {
    let hex = is_hex_text(text, from);
    let mut cut = None;
    if hex {
        let stop = digits_end(text, from);
        cut = stop.filter(|&at| !starts(text, at.saturating_sub(1), b"cleartomark"));
        unhex(text, from, stop.unwrap_or(text.len()));
    }
    decrypt(text, from);
    Private { hex, cut }
}

// The places of a file that its text is read from.
#[derive(Drop)]
struct Places<'a> {
    file: &'a [u8],
    at: usize,
    // The bytes left of a segment.
    left: usize,
}

impl<'a> Places<'a> {
    fn of(file: &'a [u8]) -> Places<'a> {
        Places {
            file,
            at: 0,
            left: if byte(file, 0) == 128 { 0 } else { file.len() },
        }
    }
}

impl<'a> Iterator for Places<'a> {
    type Item = usize;

    ghost remaining = { λ s. at_most (length s.file.now - s.at) };

    fn next(&mut self) -> Option<usize> {
        let mut at = self.at;
        let mut left = self.left;
        while left == 0 && at < self.file.len() {
            left = segment_length(self.file, at.saturating_add(2));
            at = at.saturating_add(6);
        }
        self.at = at.saturating_add(1);
        self.left = left.saturating_sub(1);
        (at < self.file.len()).then_some(at)
    }
}

// The byte of the file that a place of its text was read from. From `from` on the text is in hexadecimal
// digits, if it is so.
pub(crate) fn file_place(file: &[u8], from: usize, hex: bool, target: usize) -> usize {
    let mut digits: usize = 0;
    let mut text: usize = 0;
    for at in Places::of(file) {
        let reached = if hex && text >= from {
            from.saturating_add(digits / 2)
        } else {
            text
        };
        if reached >= target {
            return at;
        }
        if text >= from && byte(file, at).is_ascii_hexdigit() {
            digits = digits.saturating_add(1);
        }
        text = text.saturating_add(1);
    }
    file.len()
}
