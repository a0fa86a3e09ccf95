//! Type 2 numbers (TN#5177, section 3.2): doubles rounded to the 16.16 grid, and their bytes; the deltas of a path, how many
//! share an operator, and a charstring's width.
#![tactic(auto)]

ghost use Rattle.std.specs.Prelude.{◌≡◌, ◌-◌, ◌*◌, ◌≤◌, ◌<◌};
ghost use Rattle.std.proofs.Math.IntN.{sub_ℕ};
ghost use Rattle.std.specs.Float.{binary64};
ghost use Rattle.std.specs.Float.Ieee.{sub};
ghost use Rattle.binary64.specs.Rounding.{round_away};
ghost use Rattle.type2.specs.Number.{quantized, number_bytes, pushed, put, push_number};
ghost use Rattle.type2.specs.Path.{lines, curves, reaches, takes};
ghost use Rattle.type2.specs.Width.{push_width};

use refusal::Refusal;

// `binary64::round`, at once for a whole number and where there is no tie. Below 2 ^ 51 the sum with
// 1.5 * 2 ^ 52 is rounded to a whole number, which is within a half of v. A zero's sign is v's.
fn nearest(v: f64) -> f64
    ensures { result ≡ round_away v }
{
    if v < 2251799813685248.0 && -2251799813685248.0 < v {
        let r = (v + 6755399441055744.0) - 6755399441055744.0;
        if r == v {
            return v;
        }
        let d = v - r;
        if d < 0.5 && -0.5 < d && r != 0.0 {
            return r;
        }
    }
    binary64::round(v)
}

// v to the whole number that it is strictly closer to than 1e-9, else to the nearest 1/65536.
// `Quantize.quantized_nearest`: the result is the nearest multiple of 1/65536, a tie away from zero.
pub fn quantize(v: f64) -> f64
    ensures { result ≡ quantized v }
{
    let r = nearest(v);
    if binary64::abs(v - r) < 1e-9 {
        r
    } else {
        nearest(v * 65536.0) / 65536.0
    }
}

// The bytes into `out` at `at`, and the place after them.
fn put<const N: usize>(out: &mut [u8], at: usize, bytes: [u8; N]) -> Result<usize, Refusal>
    ensures { pushed result out.new ≡ put out.old at bytes.entry }
{
    if out.len() < at || out.len() - at < N {
        return Err(Refusal::OutputShort);
    }
    out[at..at + N].copy_from_slice(&bytes);
    Ok(at + N)
}

// Of a size below the first a whole number has one byte, below the second two.
const ONE_BYTE: u32 = 108;

const TWO_BYTES: u32 = 1132;

// The bytes of the whole number `w - 65536`, in its shortest form. Only its size is branched on, not its sign.
fn push_whole(out: &mut [u8], at: usize, w: u32) -> Result<usize, Refusal>
    requires { (32768 ≤ w) × (w < 98304) }
    ensures { pushed result out.new ≡ put out.old at (number_bytes (sub_ℕ (w * 65536) 4294967296)) }
{
    let i = if w < 65536 { 65536 - w } else { w - 65536 };
    let base = if w < 65536 { 251 } else { 247 };
    if i < ONE_BYTE {
        return put(out, at, [(w - 65397) as u8]);
    }
    if i < TWO_BYTES {
        let j = i - 108;
        return put(out, at, [(j / 256 + base) as u8, (j % 256) as u8]);
    }
    put(out, at, [28, (w / 256 % 256) as u8, (w % 256) as u8])
}

// The bytes of the number `n - 2 ^ 32`, in units of 1/65536: a whole number's, else 16.16.
fn push_units(out: &mut [u8], at: usize, n: u64) -> Result<usize, Refusal>
    requires { (2147483648 ≤ n) × (n < 6442450944) }
    ensures { pushed result out.new ≡ put out.old at (number_bytes (sub_ℕ n 4294967296)) }
{
    let w = n / 65536;
    if n % 65536 != 0 {
        let bytes = [
            255,
            (n / 16777216 % 256) as u8,
            (w % 256) as u8,
            (n / 256 % 256) as u8,
            (n % 256) as u8,
        ];
        return put(out, at, bytes);
    }
    push_whole(out, at, w as u32)
}

// What a pushed delta gave: the place after its bytes, and the delta that they stand for.
#[derive(Clone, Copy)]
struct Delta {
    pushed: Result<usize, Refusal>,
    value: f64,
}

// v to the nearest 1/65536, a tie away from zero, into `out` at `at`: the shortest form of a whole
// number, else 16.16. Refused with 13 where the rounded number is not -32768 to below 32768, which the
// two tests decide half of 1/65536 further out, and with 18 where `out` has no room; `out` is then as it was.
// `value` is `quantize(v)`: by `Quantize.rounded_once`, one rounding gives both. A whole number, which the sum
// with 1.5 * 2 ^ 52 gives back as it was, is pushed at once.
fn push_far(out: &mut [u8], at: usize, v: f64) -> Delta
    ensures out_after { pushed result.pushed out.new ≡ push_number out.old at v }
    ensures value_value { result.value ≡ quantized v }
{
    if v < 32767.99999237060546875 && -32768.00000762939453125 < v {
        if (v + 6755399441055744.0) - 6755399441055744.0 == v {
            return Delta {
                pushed: push_whole(out, at, (v + 65536.0) as u32),
                value: v,
            };
        }
        let n = nearest(v * 65536.0);
        return Delta {
            pushed: push_units(out, at, (n + 4294967296.0) as u64),
            value: n / 65536.0,
        };
    }
    Delta {
        pushed: Err(Refusal::OutOfRange),
        value: quantize(v),
    }
}

// The same, which pushes a whole number between -108 and 108 at once: its byte is 139 more.
fn push_delta(out: &mut [u8], at: usize, v: f64) -> Delta
    ensures out_after { pushed result.pushed out.new ≡ push_number out.old at v }
    ensures value_value { result.value ≡ quantized v }
{
    if -108.0 < v && v < 108.0 && (v + 6755399441055744.0) - 6755399441055744.0 == v {
        return Delta {
            pushed: put(out, at, [(v + 139.0) as u8]),
            value: v,
        };
    }
    push_far(out, at, v)
}

// The push that `push_far` makes, without the value.
pub fn push_number(out: &mut [u8], at: usize, v: f64) -> Result<usize, Refusal>
    ensures { pushed result out.new ≡ push_number out.old at v }
{
    push_far(out, at, v).pushed
}

// ---- the path

// What a pushed step gave: the place after its bytes, and the coordinate that the renderer will have reached.
#[derive(Clone, Copy)]
pub struct Step {
    pub pushed: Result<usize, Refusal>,
    pub reached: f64,
}

// The delta from the coordinate that the renderer will have reached to another, into `out` at `at`. The coordinate
// reached moves by the delta that the bytes stand for, even on a refusal.
pub fn push_step(out: &mut [u8], at: usize, from: f64, to: f64) -> Step
    ensures out_after { pushed result.pushed out.new ≡ push_number out.old at (sub binary64 to from) }
    ensures reached_value { result.reached ≡ reaches from to }
{
    let d = push_delta(out, at, to - from);
    Step {
        pushed: d.pushed,
        reached: from + d.value,
    }
}

// Whether an rlineto with so many operands takes one line more.
pub fn takes_line(held: usize) -> bool
    ensures { result ≡ takes lines held 2 }
{
    held <= 44
}

// Whether an rrcurveto with so many operands takes one curve more.
pub fn takes_curve(held: usize) -> bool
    ensures { result ≡ takes curves held 6 }
{
    held <= 36
}

// ---- the width

// A font's default and nominal width.
#[derive(Clone, Copy)]
pub struct Widths {
    pub default_width_x: f64,
    pub nominal_width_x: f64,
}

// The width at the start of an output, and the place after it: none if the rounded width equals the default, else the rounded width less the nominal.
pub fn push_width(out: &mut [u8], width: f64, widths: Widths) -> Result<usize, Refusal>
    ensures { pushed result out.new ≡ push_width out.old width widths }
{
    let rounded = quantize(width);
    if rounded == widths.default_width_x {
        return Ok(0);
    }
    push_number(out, 0, rounded - widths.nominal_width_x)
}
