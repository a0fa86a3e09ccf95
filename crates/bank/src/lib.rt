//! The subroutine bank: a check of its layout, where a body lies, and the body that a call names.
#![tactic(auto)]

ghost use Rattle.std.specs.Prelude.{◌≡◌, ◌+◌, ◌*◌, ◌<◌, ◌≤◌, length};
ghost use Rattle.refusal.specs.Refusal.{number_in};
ghost use Rattle.bank.specs.Bank.{be16, be32, rises_from, valid, found, bytes_at};
ghost use Rattle.bank.specs.Call.{max_depth, called, refused_before};

use charstring::MAX_CHARSTRING_BYTES;
use refusal::Refusal;
use std::ops::Range;

// The number of 16 bits at a place, big-endian.
fn u16_at(s: &[u8], at: usize) -> usize
    requires { at + 1 < length s.now }
    ensures { (result ≡ be16 s.now at) × (result < 65536) }
{
    u16::from_be_bytes([s[at], s[at + 1]]) as usize
}

// The number of 32 bits at a place, big-endian.
fn u32_at(s: &[u8], at: usize) -> usize
    requires { at + 3 < length s.now }
    ensures { (result ≡ be32 s.now at) × (result < 4294967296) }
{
    u32::from_be_bytes([s[at], s[at + 1], s[at + 2], s[at + 3]]) as usize
}

// Whether N offsets, the first at a place, do not fall, nor below the one before them.
fn rise<const N: usize>(bank: &[u8], at: usize, before: usize) -> bool
    requires { at + 4 * N ≤ length bank.now }
    ensures { result ≡ rises_from bank.now before at N }
{
    let mut last = before;
    for i in 0..N {
        let offset = u32_at(bank, at + 4 * i);
        if offset < last {
            return false;
        }
        last = offset;
    }
    true
}

// The bank has the layout of a bank. The offsets are compared sixteen at a time, which is faster.
fn is_valid(bank: &[u8]) -> bool
    ensures { result ≡ valid bank.now }
{
    if bank.len() < 6 {
        return false;
    }
    let count = u16_at(bank, 0);
    let table = 6 + 4 * count;
    if bank.len() < table || u32_at(bank, 2) != 0 {
        return false;
    }
    let blocks = count / 16;
    let mut before = 0;
    for block in 0..blocks {
        if !rise::<16>(bank, 6 + 64 * block, before) {
            return false;
        }
        before = u32_at(bank, 66 + 64 * block);
    }
    for i in 16 * blocks..count {
        if !rise::<1>(bank, 6 + 4 * i, before) {
            return false;
        }
        before = u32_at(bank, 6 + 4 * i);
    }
    before == bank.len() - table
}

// Where body n lies. It looks at the count and at two offsets: of a bank that is not valid, too, what is found is within the bank.
fn find(bank: &[u8], n: usize) -> Option<Range<usize>>
    ensures { result ≡ found n bank.now }
{
    if bank.len() < 6 {
        return None;
    }
    let count = u16_at(bank, 0);
    let table = 6 + 4 * count;
    if count <= n || bank.len() < table {
        return None;
    }
    let from = u32_at(bank, 2 + 4 * n);
    let to = u32_at(bank, 6 + 4 * n);
    if to < from || bank.len() < table + to {
        return None;
    }
    Some(table + from..table + to)
}

// The bytes of body n; none where there is no such body.
pub fn body(bank: &[u8], n: usize) -> &[u8]
    ensures { result.now ≡ bytes_at (found n bank.now) bank.now }
{
    match find(bank, n) {
        Some(place) => &bank[place],
        None => &bank[..0],
    }
}

// A subroutine to call: which body, and the bytes run with the body's.
#[derive(Clone, Copy, Debug, PartialEq, Eq)]
pub struct Callee {
    pub index: usize,
    pub ran: usize,
}

// The call of the subroutine that a number names, after so many bytes run. The body's encrypted bytes are counted.
pub fn call(bank: &[u8], number: f64, ran: usize) -> Result<Callee, Refusal>
    ensures { result ≡ called bank.now number ran }
{
    if number >= 0.0 {
        let index = binary64::to_usize(number);
        let Some(place) = find(bank, index) else {
            return Err(Refusal::NoSuchSubroutine);
        };
        let size = place.end - place.start;
        if MAX_CHARSTRING_BYTES < ran || MAX_CHARSTRING_BYTES - ran < size {
            return Err(Refusal::TooManyBytes);
        }
        return Ok(Callee {
            index,
            ran: ran + size,
        });
    }
    Err(Refusal::NoSuchSubroutine)
}

// What is refused before the first byte runs, for a charstring of so many bytes: the bank's layout, then the bytes.
pub fn refused_before(bank: &[u8], size: usize) -> Result<(), Refusal>
    ensures { number_in result ≡ refused_before bank.now size }
{
    if !is_valid(bank) {
        return Err(Refusal::BankLayout);
    }
    if MAX_CHARSTRING_BYTES < size {
        return Err(Refusal::TooManyBytes);
    }
    Ok(())
}

// Levels of subroutines that run.
const MAX_SUBR_DEPTH: usize = 10;

// How deep a subroutine may be called.
pub fn max_depth() -> usize
    ensures { result ≡ max_depth }
{
    MAX_SUBR_DEPTH
}
