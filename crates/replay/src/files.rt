// Files of vectors: each is read frame by frame, compared, and its line printed.
ghost use Rattle.std.specs.Prelude.{◌≡◌, length};

use crate::compare;
use crate::kind::Kind;
use std::fmt::Display;
use std::fs::File;
use std::io::{Cursor, Read, Write};
use std::ops::Add;
use std::{fmt, io, str};

// The most bytes of a payload.
const LONGEST: usize = 8192;

// How many vectors were compared, and how many differ.
#[derive(Clone, Copy, Default)]
pub(crate) struct Tally {
    compared: u64,
    different: u64,
}

impl Tally {
    // One that was compared.
    fn one(same: bool) -> Tally {
        Tally {
            compared: 1,
            different: if same { 0 } else { 1 },
        }
    }

    // What cannot be read counts as one that differs.
    const UNREAD: Tally = Tally {
        compared: 0,
        different: 1,
    };
}

impl Add for Tally {
    type Output = Tally;

    fn add(self, t: Tally) -> Tally {
        Tally {
            compared: self.compared.saturating_add(t.compared),
            different: self.different.saturating_add(t.different),
        }
    }
}

impl Display for Tally {
    fn fmt<W: fmt::Write>(&self, f: &mut fmt::Formatter<W>) -> fmt::Result {
        let compared = self.compared;
        let different = self.different;
        write!(f, "{compared} compared, {different} different")
    }
}

fn buffer() -> [u8; LONGEST]
    ensures { 8192 ≡ length result }
{
    [0; LONGEST]
}

// Reads the next frame of a file and compares its payload; None at the file's end. A frame that is cut or too long is
// an error, as is a read that fails.
fn compare_next(file: &mut File, kind: Kind) -> io::Result<Option<bool>> {
    let mut head = [0u8; 4];
    if file.read(&mut head[..1])? == 0 {
        return Ok(None);
    }
    file.read_exact(&mut head[1..])?;
    let n = u32::from_be_bytes(head) as usize;
    if n > LONGEST {
        return Err(io::Error::from(io::ErrorKind::InvalidData));
    }
    let mut payload = buffer();
    file.read_exact(&mut payload[..n])?;
    Ok(Some(compare(kind, &payload[..n])))
}

// Compares every vector of an open file.
// A proved loop has to end, and nothing says that a file does: the turns count to a number that no run reaches.
fn compare_all(file: &mut File, kind: Kind) -> Tally {
    let mut t = Tally::default();
    for _ in 0..u64::MAX {
        match compare_next(file, kind) {
            Ok(Some(same)) => t = t + Tally::one(same),
            Ok(None) => return t,
            Err(_) => break,
        }
    }
    t + Tally::UNREAD
}

// The system's words of an error's text, without its number and what is left of a buffer.
fn words(text: &str) -> &str {
    match text.split_once(" (os error ") {
        Some((words, _)) => words,
        None => text.trim_end_matches('\0'),
    }
}

// Says on standard error why a file cannot be opened.
fn say_not_opened(rt: &HostRuntime, file: &str, error: io::Error) -> io::Result<()> {
    let mut text = Cursor::new([0u8; 256]);
    write!(text, "{error}")?;
    let text = text.into_inner();
    let why = words(str::from_utf8(&text).unwrap_or(""));
    eprintln!(rt; "{file}: {why}")
}

// A file that cannot be opened counts as one vector that differs.
fn compare_file(rt: &HostRuntime, kind: Kind) -> io::Result<Tally> {
    match File::open(rt, kind.file()) {
        Ok(mut opened) => Ok(compare_all(&mut opened, kind)),
        Err(e) => {
            say_not_opened(rt, kind.file(), e)?;
            Ok(Tally::UNREAD)
        }
    }
}

// A file's name without `.vec`.
fn name(file: &str) -> &str {
    file.strip_suffix(".vec").unwrap_or(file)
}

// Replays a kind's file, and prints its line.
pub(crate) fn replay(rt: &HostRuntime, kind: Kind) -> io::Result<Tally> {
    let t = compare_file(rt, kind)?;
    let name = name(kind.file());
    println!(rt; "{name}: {t}")?;
    Ok(t)
}
