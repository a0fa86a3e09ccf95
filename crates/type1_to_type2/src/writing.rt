// A program written into the output: numbers, operators, deltas, masks (document 01, "Path", "Stems and masks").
ghost use Rattle.std.specs.Prelude.{◌≡◌, Bool, true, List, [], ◌∷◌, ◌+◌, ◌≤◌, ◌<◌, length, take, IfOk};
ghost use Rattle.refusal.specs.Refusal.{number_in};
ghost use Rattle.outline.specs.Outline.{move};
ghost use Rattle.outline.specs.declared.Stem.{Stem};
ghost use Rattle.type1.specs.Run.{point_at};
ghost use Rattle.type2.specs.Number.{units};
ghost use Rattle.type1_to_type2.specs.Emission.{written, shape};
ghost use Rattle.type1_to_type2.specs.Writing.{put, put_numbers};
ghost use Rattle.type1_to_type2.specs.Places.{places_from};
ghost use Rattle.type1_to_type2.specs.Streaming.{Puts, Still, Flushed, Batched, Goes, Draws, Ends, resumed_all, Masks};

use crate::Writer;
use crate::masks::mask_byte;
use refusal::Refusal;

// Type 2 operators; flex is 12 35
pub(crate) const T2_HSTEM: u8 = 1;

pub(crate) const T2_VSTEM: u8 = 3;

const T2_VMOVETO: u8 = 4;

pub(crate) const T2_RLINETO: u64 = 5;

pub(crate) const T2_RRCURVETO: u64 = 8;

pub(crate) const T2_ESCAPE: u8 = 12;

const T2_ENDCHAR: u8 = 14;

pub(crate) const T2_HSTEMHM: u8 = 18;

const T2_HINTMASK: u8 = 19;

const T2_RMOVETO: u8 = 21;

const T2_HMOVETO: u8 = 22;

pub(crate) const T2_VSTEMHM: u8 = 23;

pub(crate) const T2_FLEX: u8 = 35;

// A number.
pub(crate) fn put_number(v: f64, w: Writer, out: &mut [u8]) -> Writer
    ensures puts { Puts (λ f left. put_numbers (units v ∷ []) left f) w out.old result out.new }
    ensures still { Still w result }
    ensures v_value { written v ≡ units v }
{
    let Ok(at) = w.next else { return w };
    Writer {
        next: type2::push_number(out, at, v),
        ..w
    }
}

// An operator, or a byte of a mask.
pub(crate) fn put_byte(b: u8, w: Writer, out: &mut [u8]) -> Writer
    ensures puts { Puts (λ f left. put left (b ∷ []) f) w out.old result out.new }
    ensures still { Still w result }
    ensures next_in_bounds { IfOk result.next (λ next. next ≤ length out.new) }
{
    let Ok(at) = w.next else { return w };
    if out.len() <= at {
        return Writer {
            next: Err(Refusal::OutputShort),
            ..w
        };
    }
    out[at] = b;
    Writer {
        next: Ok(at + 1),
        ..w
    }
}

// The waiting operator, if there is one.
pub(crate) fn flush(w: Writer, out: &mut [u8]) -> Writer
    ensures { Flushed w out.old result out.new }
{
    if w.waits == 0 {
        return Writer { held: 0, ..w };
    }
    let r = put_byte((w.waits % 256) as u8, w, out);
    Writer {
        waits: 0,
        held: 0,
        ..r
    }
}

// Before `count` operands of `op`: an operator that waits is written, unless it is `op` and takes them.
pub(crate) fn batch(op: u64, count: usize, takes: bool, w: Writer, out: &mut [u8]) -> Writer
    requires { takes ≡ true → w.held + count < 256 }
    ensures { Batched op count takes w out.old result out.new }
{
    if w.waits == op && takes {
        return Writer {
            held: w.held + count,
            ..w
        };
    }
    let r = flush(w, out);
    Writer {
        waits: op,
        held: count,
        ..r
    }
}

// The deltas to a point, from the point the renderer will have reached, which moves by them.
pub(crate) fn put_delta(px: f64, py: f64, w: Writer, out: &mut [u8]) -> Writer
    ensures { Goes (point_at px py ∷ []) w out.old result out.new }
{
    let Ok(at) = w.next else { return w };
    let a = type2::push_step(out, at, w.x, px);
    let Ok(next) = a.pushed else {
        return Writer {
            next: a.pushed,
            ..w
        };
    };
    let b = type2::push_step(out, next, w.y, py);
    Writer {
        next: b.pushed,
        x: a.reached,
        y: b.reached,
        ..w
    }
}

// A delta of 0 has an operator of its own.
pub(crate) fn move_to(px: f64, py: f64, w: Writer, out: &mut [u8]) -> Writer
    ensures { (masked : Bool) (ss : List Stem) → Draws masked ss (shape (move (point_at px py)) ∷ []) w out.old result out.new }
{
    let dx = type2::quantize(px - w.x);
    let dy = type2::quantize(py - w.y);
    let f = flush(w, out);
    let a = Writer {
        x: w.x + dx,
        y: w.y + dy,
        ..f
    };
    if dy == 0.0 {
        let b = put_number(dx, a, out);
        return put_byte(T2_HMOVETO, b, out);
    }
    if dx == 0.0 {
        let b = put_number(dy, a, out);
        return put_byte(T2_VMOVETO, b, out);
    }
    let b = put_number(dx, a, out);
    let c = put_number(dy, b, out);
    put_byte(T2_RMOVETO, c, out)
}

// The mask of a group, where n stems are declared; the first k places are those of its stems. Each byte is made finished
// and written once.
pub(crate) fn write_mask(n: usize, k: usize, places: &[u8; 96], w: Writer, out: &mut [u8]) -> Writer
    requires { (n ≤ 96) × ((k ≤ 96) × (k ≤ length places.now)) }
    ensures out_len_unchanged { length out.new ≡ length out.old }
    ensures masks { (b : List Bool) → length b ≡ n → take k places.now ≡ places_from 0 b → Masks b w out.old result out.new }
{
    let f = flush(w, out);
    let mut r = put_byte(T2_HINTMASK, f, out);
    let mut j = 0;
    let mut i = 0;
    while i < n {
        let m = mask_byte(i as u8, j, k, places);
        r = put_byte(m.byte, r, out);
        j = m.next;
        i += 8;
    }
    r
}

// 0, or the number of a refusal.
fn number_of(end: Result<usize, Refusal>) -> u64
    ensures { result ≡ number_in end }
{
    match end {
        Ok(_) => 0,
        Err(refusal) => refusal.number() as u64,
    }
}

// The end of a program, and zeros after it; all zeros on a refusal. The program's length.
pub(crate) fn finish_program(w: Writer, out: &mut [u8]) -> Result<usize, Refusal>
    ensures { (masked : Bool) (ss : List Stem) → Ends (length out.old) (resumed_all masked ss w out.old []) result out.new }
{
    let f = flush(w, out);
    let end = put_byte(T2_ENDCHAR, f, out).next;
    let kept = stores::kept_bytes(number_of(end), end.unwrap_or(0));
    stores::zero_from(out, kept);
    end
}
