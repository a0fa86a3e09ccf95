// Numbers and operators are read (document 01, Reading; T1 6.2); lines and curves of an open subpath are drawn as they are read.
ghost use Rattle.std.specs.Prelude.{◌≡◌, cond, ◌*◌, ◌≤◌, ◌<◌, length, ltb};
ghost use Rattle.type1.specs.Number as Number;
ghost use Rattle.outline.specs.Store.{entry_words};
ghost use Rattle.type1.specs.Reading.{placed, tok_of, Numbered, Operated, Draws, is_quick, Reads};
ghost use Rattle.type1.specs.Small as Small;

use crate::entries::{add_curve, add_line};
use crate::opcodes::{
    CLOSEPATH_BYTE, ESCAPE, ESCAPED, HLINETO, HVCURVETO, RLINETO, RRCURVETO, VHCURVETO, VLINETO,
};
use crate::operands::{curve_deltas, point_delta};
use crate::states::flow_of;
use crate::{Num, Reading, St, Tok};
use geometry::Point;
use refusal::Refusal;

fn wide(b: u8) -> u16
    ensures { result ≡ b }
{
    b as u16
}

fn wider(b: u8) -> u64
    ensures { result ≡ b }
{
    b as u64
}

// 32 to 246.
fn one_byte(v: u8) -> f64
    ensures { result ≡ Number.double (Number.one_byte v) }
{
    v as f64 - 139.0
}

// 247 to 254, and the byte after it. The value plus 65536 is made without a jump on the sign.
fn two_bytes(v: u8, w: u8) -> f64
    requires { 247 ≤ v }
    ensures { result ≡ Number.double (cond (ltb v 251) (Number.two_bytes v w) (Number.two_bytes_below v w)) }
{
    let both = wider(v) * 256 + wider(w);
    let raised = if v < 251 { both + 2412 } else { 129684 - both };
    raised as f64 - 65536.0
}

// 255: the four bytes after it.
fn four_bytes(a: u8, b: u8, c: u8, d: u8) -> f64
    ensures { result ≡ Number.double (Number.four_bytes a b c d) }
{
    let n = ((wider(a) * 256 + wider(b)) * 256 + wider(c)) * 256 + wider(d);
    if n < 2147483648 {
        n as f64
    } else {
        -((4294967296 - n) as f64)
    }
}

// The state with so many operands held, another point, so many entries, and a subpath open or not.
fn place(st: St, n: usize, x: f64, y: f64, entries: usize, opened: bool) -> St
    ensures { result ≡ placed n x y entries (Small.with_opened opened st) }
{
    let mut s = st;
    s.operands = n;
    s.x = x;
    s.y = y;
    s.entries = entries;
    s.opened = opened;
    s
}

fn found(st: St, next: usize, key: u16, flow: u8, op: u16) -> Tok
    ensures { result ≡ tok_of st next key flow op }
{
    Tok {
        st,
        next,
        key,
        flow,
        op,
    }
}

// The number whose first byte v was read, with the bytes from a place on.
fn number_at(code: &[u8], i: usize, key: u16, encrypted: bool, v: u8) -> Num
    requires { (32 ≤ v) × (i ≤ length code.now) }
    ensures { Numbered code.now i key encrypted v result }
{
    if v < 247 {
        return Num {
            x: one_byte(v),
            next: i,
            key,
            cut: false,
        };
    }
    if v < 255 {
        if code.len() - i < 1 {
            return Num {
                x: 0.0,
                next: i,
                key,
                cut: true,
            };
        }
        let c = code[i];
        return Num {
            x: two_bytes(v, charstring::byte_of(c, key, encrypted)),
            next: i + 1,
            key: charstring::next_key(c, key),
            cut: false,
        };
    }
    if code.len() - i < 4 {
        return Num {
            x: 0.0,
            next: i,
            key,
            cut: true,
        };
    }
    let c1 = code[i];
    let c2 = code[i + 1];
    let c3 = code[i + 2];
    let c4 = code[i + 3];
    let k2 = charstring::next_key(c1, key);
    let k3 = charstring::next_key(c2, k2);
    let k4 = charstring::next_key(c3, k3);
    let x = four_bytes(
        charstring::byte_of(c1, key, encrypted),
        charstring::byte_of(c2, k2, encrypted),
        charstring::byte_of(c3, k3, encrypted),
        charstring::byte_of(c4, k4, encrypted),
    );
    Num {
        x,
        next: i + 4,
        key: charstring::next_key(c4, k4),
        cut: false,
    }
}

// The operator whose first byte v was read, with the bytes from a place on.
fn operator_at(code: &[u8], i: usize, key: u16, encrypted: bool, v: u8, st: St) -> Tok
    requires { (v < 32) × (i ≤ length code.now) }
    ensures { Operated code.now i key encrypted v st result }
{
    if v != ESCAPE {
        return found(st, i, key, 0, wide(v));
    }
    if code.len() - i < 1 {
        return found(st, i, key, 5, 0);
    }
    let c = code[i];
    let e = charstring::byte_of(c, key, encrypted);
    found(
        st,
        i + 1,
        charstring::next_key(c, key),
        0,
        ESCAPED + wide(e),
    )
}

// The operator of the byte v, if it is a line or a curve that is not refused: with n operands, at (x, y), with k
// entries listed: the point after it. Else nothing is done. x and y stay apart, as `token` keeps them in registers.
fn draw(
    v: u8,
    n: usize,
    x: f64,
    y: f64,
    k: usize,
    ops: &[f64; 256],
    cmds: &mut [u64],
) -> Option<Point>
    requires { (n ≤ 256) × (entry_words * k ≤ length cmds.old) }
    ensures { Draws v n x y k ops.now cmds.old result cmds.new }
{
    let op = wide(v);
    let held = &ops[..];
    match op {
        RLINETO | HLINETO | VLINETO => {
            let d = point_delta(op, &held[0..n])?;
            add_line(d, x, y, k, cmds)
        }
        RRCURVETO | VHCURVETO | HVCURVETO => {
            let d = curve_deltas(op, &held[0..n])?;
            add_curve(d, x, y, k, cmds)
        }
        _ => None,
    }
}

// Whether a line or a curve is one entry: a subpath is open, and the stems in force did not change.
fn is_quick(changed: bool, opened: bool) -> bool
    ensures { result ≡ is_quick changed opened }
{
    !changed && opened
}

// Reads numbers, which it pushes, closepath, and lines and curves, which it lists where `is_quick` says so, up to
// another operator or the end of the bytes. The key is stepped after the branch on the plain byte: before it, LLVM
// would step the key only once it is extended for the plain byte.
pub(crate) fn token(
    code: &[u8],
    from: usize,
    start: u16,
    encrypted: bool,
    st: St,
    ops: &mut [f64; 256],
    cmds: &mut [u64],
    reading: Reading,
) -> Tok
    requires { (from < length code.now) × ((st.operands ≤ 256) × (entry_words * st.entries ≤ length cmds.old)) }
    ensures { Reads reading code.now from start encrypted st ops.old cmds.old result ops.new cmds.new }
{
    let mut i = from;
    let mut key = start;
    let mut n = st.operands;
    let mut x = st.x;
    let mut y = st.y;
    let mut entries = st.entries;
    let mut opened = st.opened;
    // Each turn goes on by the bytes of a number or an operator.
    while i < code.len() {
        let c = code[i];
        let v = charstring::byte_of(c, key, encrypted);
        if v < 32 {
            if v == CLOSEPATH_BYTE {
                key = charstring::next_key(c, key);
                n = 0;
                opened = false;
                i += 1;
            } else {
                let k = charstring::next_key(c, key);
                if !is_quick(st.changed, opened) {
                    return operator_at(
                        code,
                        i + 1,
                        k,
                        encrypted,
                        v,
                        place(st, n, x, y, entries, opened),
                    );
                }
                let Some(p) = draw(v, n, x, y, entries, ops, cmds) else {
                    return operator_at(
                        code,
                        i + 1,
                        k,
                        encrypted,
                        v,
                        place(st, n, x, y, entries, opened),
                    );
                };
                n = 0;
                x = p.x;
                y = p.y;
                entries += 1;
                i += 1;
                key = k;
            }
        } else {
            let k = charstring::next_key(c, key);
            let w = number_at(code, i + 1, k, encrypted, v);
            let cut = operand_stack::refuse_if(w.cut, Refusal::Cut);
            let over = operand_stack::room(n, reading.strict);
            let f = flow_of(operand_stack::first(cut, over));
            if f != 0 {
                return found(place(st, n, x, y, entries, opened), i + 1, k, f, 0);
            }
            ops[n] = w.x;
            n += 1;
            i = w.next;
            key = w.key;
        }
    }
    found(place(st, n, x, y, entries, opened), i, key, 1, 0)
}
