// The cipher, Type 2 numbers, and the widths of a font.
ghost use Rattle.std.specs.Prelude.{◌≡◌, length};

use crate::lent::{BEFORE, is_unchanged, is_written, output};
use crate::vector::{Vector, refusal_number};
use compare::{holds, is_cleared, same};
use refusal::Refusal;
use type2::Widths;

// An output that is long enough: the plain bytes, then zeros.
fn decrypts(data: &[u8], len_iv: usize, plain: &[u8]) -> bool {
    let mut out = output();
    let r = charstring::decrypt_charstring(data, len_iv, &mut out);
    r == Ok(plain.len()) && holds(&out, plain, 0)
}

// An output that is one byte short: 18 and zeros, and nothing behind the output changes.
fn refuses_short(data: &[u8], len_iv: usize, plain: &[u8]) -> bool {
    let Some(room) = plain.len().checked_sub(1) else {
        return true;
    };
    let mut out = output();
    if room > out.len() {
        return false;
    }
    let r = charstring::decrypt_charstring(data, len_iv, &mut out[..room]);
    r == Err(Refusal::OutputShort) && is_written(&out, room, b"")
}

pub(crate) fn compare_decrypt_charstring(v: &mut Vector) -> Option<bool> {
    let len_iv = v.size()?;
    let data = v.string()?;
    let plain = v.string()?;
    Some(decrypts(data, len_iv, plain) && refuses_short(data, len_iv, plain))
}

// A push that is refused: the number, and nothing changes.
fn is_refused(r: Result<usize, Refusal>, refusal: u64, out: &[u8]) -> bool {
    r.is_err() && refusal_number(r) == refusal && is_unchanged(out)
}

// The bytes of an output from the second on are the pushed ones, and nothing else changes.
fn is_pushed(out: &[u8], bytes: &[u8]) -> bool {
    let (first, rest) = out.split_at(out.len().min(1));
    is_unchanged(first) && holds(rest, bytes, BEFORE)
}

// Into an output that is long enough, at its second byte: the bytes, and nothing else changes.
fn pushes(x: f64, refusal: u64, bytes: &[u8]) -> bool {
    let mut out = output();
    let r = type2::push_number(&mut out, 1, x);
    if refusal != 0 {
        return is_refused(r, refusal, &out);
    }
    r == Ok(bytes.len().saturating_add(1)) && is_pushed(&out, bytes)
}

// Into an output that is one byte short: the refusal before, else 18, and nothing changes.
fn refuses_push(x: f64, refusal: u64, bytes: &[u8]) -> bool {
    let mut out = output();
    let room = bytes.len();
    if room > out.len() {
        return false;
    }
    let r = type2::push_number(&mut out[..room], 1, x);
    is_refused(r, if refusal != 0 { refusal } else { 18 }, &out)
}

pub(crate) fn compare_push_number(v: &mut Vector) -> Option<bool> {
    let x = v.double()?;
    let refusal = v.number()?;
    let bytes = v.string()?;
    Some(pushes(x, refusal, bytes) && refuses_push(x, refusal, bytes))
}

// The most widths of a payload.
const MOST: usize = 1024;

// What a scratch holds before a call.
const UNUSED: f64 = 85.5;

fn width_list() -> [f64; MOST]
    ensures { 1024 ≡ length result }
{
    [UNUSED; MOST]
}

// The widths are the vector's results.
fn is_chosen(r: Result<Widths, Refusal>, v: &mut Vector) -> Option<bool> {
    let (refused, default, nominal) = match r {
        Ok(w) => (0, w.default_width_x, w.nominal_width_x),
        Err(refusal) => (refusal.number() as u64, 0.0, 0.0),
    };
    Some(refused == v.number()? && same(default, v.double()?) && same(nominal, v.double()?))
}

// With a scratch of the vector's length: the vector's results, the scratch cleared, and nothing behind it changes.
fn chooses(ws: &[f64], v: &mut Vector) -> Option<bool> {
    let mut scratch = width_list();
    let room = v.size()?;
    if room > MOST {
        return None;
    }
    let r = widths::choose_widths(ws, &mut scratch[..room]);
    Some(is_chosen(r, v)? && is_cleared(&scratch, room, UNUSED))
}

pub(crate) fn compare_choose_widths(v: &mut Vector) -> Option<bool> {
    let mut list = width_list();
    let n = v.size()?;
    if n > MOST {
        return None;
    }
    for w in &mut list[..n] {
        *w = v.double()?;
    }
    chooses(&list[..n], v)
}
