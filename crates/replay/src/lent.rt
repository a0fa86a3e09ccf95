// What is lent to a call, and what of it changed.
ghost use Rattle.std.specs.Prelude.{◌≡◌, length};

use compare::holds;

// The most bytes of an output, and words of a command store.
const BYTES: usize = 2048;

const WORDS: usize = 14336;

// What an output and a command store hold before a call.
pub(crate) const BEFORE: u8 = 170;

const USED: u64 = 170;

// An output, with what it holds before a call.
pub(crate) fn output() -> [u8; BYTES]
    ensures { 2048 ≡ length result }
{
    [BEFORE; BYTES]
}

pub(crate) fn command_store() -> [u64; WORDS]
    ensures { 14336 ≡ length result }
{
    [USED; WORDS]
}

// A part of an output is as before the call.
pub(crate) fn is_unchanged(out: &[u8]) -> bool {
    holds(out, b"", BEFORE)
}

// The first `room` bytes of an output are front, then zeros, and behind them nothing has changed.
pub(crate) fn is_written(out: &[u8], room: usize, front: &[u8]) -> bool {
    let (lent, behind) = out.split_at(room.min(out.len()));
    holds(lent, front, 0) && is_unchanged(behind)
}

// The first n words of a command store are 0, and each other is as before.
pub(crate) fn is_wiped(words: &[u64], n: usize) -> bool {
    let (lent, behind) = words.split_at(n.min(words.len()));
    lent.iter().all(|w| *w == 0) && behind.iter().all(|w| *w == USED)
}
