// What each operator does (document 01, Reading; T1 6.4).
ghost use Rattle.std.specs.Prelude.{◌≡◌, ℕ, ◌≤◌, ◌<◌, length, get_or, T};
ghost use Rattle.std.specs.Float.{nan};
ghost use Rattle.std.specs.Float.Ieee.Scale.{finite};
ghost use Rattle.type1.specs.State as State;
ghost use Rattle.type1.specs.Operator as Op;
ghost use Rattle.type1.specs.Run as Run;
ghost use Rattle.type1.specs.Run.{within, limits_of, operate};
ghost use Rattle.type1.specs.Memory.{Mem, Bounds, Holds, Meets, operator_of, with_ops, with_ps, with_cells, with_hints, with_path, after, Told, Takes, Hinted};
ghost use Rattle.type1.specs.Deltas.{axes_of, tangents_of, by_point, by_curve, stem_from};
ghost use Rattle.type1.specs.Small as Small;

use crate::opcodes::{
    CALLOTHERSUBR, CLOSEPATH, DIV, DOTSECTION, ENDCHAR, HLINETO, HMOVETO, HSBW, HSTEM, HSTEM3,
    HVCURVETO, POP, RETURN, RLINETO, RMOVETO, RRCURVETO, SBW, SEAC, SETCURRENTPOINT, VHCURVETO,
    VLINETO, VMOVETO, VSTEM, VSTEM3,
};
use crate::operands::{curve_deltas, point_delta};
use crate::paths::{curve_by, line_by, move_by, set_point};
use crate::states::{at_point, cleared, copied, flow_of, kept, made};
use crate::stems::add_stem;
use crate::subroutines::callothersubr;
use crate::{BEARING_X, BEARING_Y, Ran, Reading, St, WIDTH};
use geometry::Point;
use outline::Stem;
use refusal::Refusal;

// rmoveto, hmoveto, vmoveto
fn move_operator(
    op: u16,
    same: bool,
    room: usize,
    st: St,
    ops: &[f64; 256],
    cmds: &mut [u64],
) -> Ran
    requires bounds { Bounds st (length cmds.old) }
    requires stems_le_room { st.stems ≤ room }
    ensures takes { Takes same st result ops.now cmds.old cmds.new room (by_point Run.move_by (axes_of op)) }
    ensures space { Small.Space st result.st room }
{
    let held = &ops[..];
    let n = st.operands;
    match point_delta(op, &held[0..n]) {
        Some(delta) => move_by(delta, same, room, cleared(st), cmds),
        None => made(st, 7),
    }
}

// rlineto, hlineto, vlineto
fn line_operator(
    op: u16,
    same: bool,
    room: usize,
    st: St,
    ops: &[f64; 256],
    cmds: &mut [u64],
) -> Ran
    requires bounds { Bounds st (length cmds.old) }
    requires stems_le_room { st.stems ≤ room }
    requires t { T (finite st.x) × T (finite st.y) }
    ensures takes { Takes same st result ops.now cmds.old cmds.new room (by_point Run.line_by (axes_of op)) }
    ensures space { Small.Space st result.st room }
{
    let held = &ops[..];
    let n = st.operands;
    match point_delta(op, &held[0..n]) {
        Some(delta) => line_by(delta, same, room, cleared(st), cmds),
        None => made(st, 7),
    }
}

// rrcurveto, vhcurveto, hvcurveto
fn curve_operator(
    op: u16,
    same: bool,
    room: usize,
    st: St,
    ops: &[f64; 256],
    cmds: &mut [u64],
) -> Ran
    requires bounds { Bounds st (length cmds.old) }
    requires stems_le_room { st.stems ≤ room }
    requires t { T (finite st.x) × T (finite st.y) }
    ensures takes { Takes same st result ops.now cmds.old cmds.new room (by_curve (tangents_of op)) }
    ensures space { Small.Space st result.st room }
{
    let held = &ops[..];
    let n = st.operands;
    match curve_deltas(op, &held[0..n]) {
        Some(deltas) => curve_by(deltas, same, room, cleared(st), cmds),
        None => made(st, 7),
    }
}

// 12 33
fn setcurrentpoint(same: bool, room: usize, st: St, ops: &[f64; 256], cmds: &mut [u64]) -> Ran
    requires bounds { Bounds st (length cmds.old) }
    requires stems_le_room { st.stems ≤ room }
    requires t { T (finite st.x) × T (finite st.y) }
    requires by_index { (i : ℕ) → i < st.operands → T (finite (get_or ops.now i nan)) }
    ensures takes { Takes same st result ops.now cmds.old cmds.new room (λ lim. operate lim (Run.refused 6) Op.setcurrentpoint) }
    ensures space { Small.Space st result.st room }
{
    let n = st.operands;
    if n < 2 {
        return made(st, 7);
    }
    let p = Point {
        x: ops[n - 2],
        y: ops[n - 1],
    };
    set_point(p, same, room, cleared(st), cmds)
}

// hstem and vstem: a stem, counted from a side bearing.
fn one_stem(
    horizontal: bool,
    from: f64,
    st: St,
    ops: &[f64; 256],
    edges: &mut [f64; 512],
    across: &mut [bool; 256],
) -> Ran
    requires { (st.operands ≤ 256) × (st.hints ≤ 256) }
    ensures hinted { Hinted st result ops.now edges.old across.old edges.new across.new (stem_from horizontal from) }
    ensures groups_value { result.st.groups ≡ st.groups }
{
    let n = st.operands;
    if n < 2 {
        return made(st, 7);
    }
    let v = Stem {
        horizontal,
        pos: from + ops[n - 2],
        width: ops[n - 1],
    };
    add_stem(v, cleared(st), edges, across)
}

// 12 1 and 12 2: three stems in turn, counted from a side bearing.
fn stems3(
    horizontal: bool,
    from: f64,
    st: St,
    ops: &[f64; 256],
    edges: &mut [f64; 512],
    across: &mut [bool; 256],
) -> Ran
    requires { (st.operands ≤ 256) × (st.hints ≤ 256) }
    ensures hinted { Hinted st result ops.now edges.old across.old edges.new across.new (λ lim. Run.stems3 lim horizontal from) }
    ensures groups_value { result.st.groups ≡ st.groups }
{
    let n = st.operands;
    if n < 6 {
        return made(st, 7);
    }
    let u = Stem {
        horizontal,
        pos: from + ops[n - 6],
        width: ops[n - 5],
    };
    let a = add_stem(u, cleared(st), edges, across);
    if a.flow != 0 {
        return a;
    }
    let v = Stem {
        horizontal,
        pos: from + ops[n - 4],
        width: ops[n - 3],
    };
    let b = add_stem(v, a.st, edges, across);
    if b.flow != 0 {
        return b;
    }
    let w = Stem {
        horizontal,
        pos: from + ops[n - 2],
        width: ops[n - 1],
    };
    add_stem(w, b.st, edges, across)
}

// 13
fn hsbw(st: St, ops: &[f64; 256], cells: &mut [f64; 17]) -> Ran
    requires { st.operands ≤ 256 }
    ensures meets { (m : Mem) (s : State.State) (c : Run.Outcome) (room words : ℕ) → Holds st (with_ops ops.now (with_cells cells.old m)) s →
        Meets result (with_ops ops.now (with_cells cells.new m)) (operate (within room words) c Op.hsbw s) }
    ensures groups_value { result.st.groups ≡ st.groups }
{
    let n = st.operands;
    if n < 2 {
        return made(st, 7);
    }
    let p = Point {
        x: ops[n - 2],
        y: 0.0,
    };
    side_bearing(p, ops[n - 1], cleared(st), cells)
}

// 12 7
fn sbw(st: St, ops: &[f64; 256], cells: &mut [f64; 17]) -> Ran
    requires { st.operands ≤ 256 }
    ensures meets { (m : Mem) (s : State.State) (c : Run.Outcome) (room words : ℕ) → Holds st (with_ops ops.now (with_cells cells.old m)) s →
        Meets result (with_ops ops.now (with_cells cells.new m)) (operate (within room words) c Op.sbw s) }
    ensures groups_value { result.st.groups ≡ st.groups }
{
    let n = st.operands;
    if n < 4 {
        return made(st, 7);
    }
    let p = Point {
        x: ops[n - 4],
        y: ops[n - 3],
    };
    side_bearing(p, ops[n - 2], cleared(st), cells)
}

fn side_bearing(p: Point, width: f64, st: St, cells: &mut [f64; 17]) -> Ran
    ensures meets { (m : Mem) (s : State.State) → Holds st (with_cells cells.old m) s →
        Meets result (with_cells cells.new m) (Run.going (State.with_bearing p width s)) }
    ensures groups_value { result.st.groups ≡ st.groups }
{
    cells[BEARING_X] = p.x;
    cells[BEARING_Y] = p.y;
    cells[WIDTH] = width;
    made(at_point(p, st), 0)
}

// 9
fn closepath(st: St) -> Ran
    ensures { result ≡ Small.closed_ran st }
{
    let mut s = cleared(st);
    s.opened = false;
    made(s, 0)
}

// 12 12
fn div(st: St, ops: &mut [f64; 256]) -> Ran
    requires { st.operands ≤ 256 }
    ensures meets { (m : Mem) (s : State.State) → Holds st (with_ops ops.old m) s →
        Meets result (with_ops ops.new m) (Run.div_d s) }
    ensures groups_value { result.st.groups ≡ st.groups }
{
    let n = st.operands;
    if n < 2 {
        return made(st, 7);
    }
    let b = ops[n - 1];
    if b == 0.0 {
        return made(st, 10);
    }
    let q = ops[n - 2] / b;
    if !binary64::is_finite(q) {
        return made(st, 14);
    }
    ops[n - 2] = q;
    let mut s = st;
    s.operands = n - 1;
    s.divided = true;
    made(s, 0)
}

// 12 17
fn pop(st: St, ops: &mut [f64; 256], ps: &[f64; 256], reading: Reading) -> Ran
    requires { (st.operands ≤ 256) × (st.postscript ≤ 256) }
    ensures meets { (m : Mem) (s : State.State) (room words : ℕ) → Holds st (with_ops ops.old (with_ps ps.now m)) s →
        Meets result (with_ops ops.new (with_ps ps.now m)) (Run.pop_d (limits_of reading (within room words)) s) }
    ensures groups_value { result.st.groups ≡ st.groups }
{
    let p = st.postscript;
    let n = st.operands;
    let none = operand_stack::refuse_if(p == 0, Refusal::NothingToPop);
    let over = operand_stack::room(n, reading.strict);
    let f = flow_of(operand_stack::first(none, over));
    if f != 0 {
        return made(st, f);
    }
    ops[n] = ps[p - 1];
    let mut s = st;
    s.postscript = p - 1;
    s.operands = n + 1;
    made(s, 0)
}

// Every operator but callsubr.
pub(crate) fn plain(
    op: u16,
    same: bool,
    room: usize,
    st: St,
    ops: &mut [f64; 256],
    ps: &mut [f64; 256],
    cells: &mut [f64; 17],
    edges: &mut [f64; 512],
    across: &mut [bool; 256],
    cmds: &mut [u64],
    reading: Reading,
) -> Ran
    requires bounds { Bounds st (length cmds.old) }
    requires stems_le_room { st.stems ≤ room }
    requires finite { Small.Finite st ops.old cells.old }
    ensures meets { (m : Mem) (s : State.State) → length m.stems ≡ room → Told same s →
        Holds st (with_ops ops.old (with_ps ps.old
        (with_cells cells.old (with_path edges.old across.old cmds.old m)))) s →
        Meets result (with_ops ops.new (with_ps ps.new
        (with_cells cells.new (after st result cmds.new (with_hints edges.new across.new m)))))
        (operate (limits_of reading (within room (length cmds.old))) (Run.refused 6) (operator_of op) s) }
    ensures space { Small.Space st result.st room }
{
    match op {
        HSTEM => one_stem(true, cells[BEARING_Y], st, ops, edges, across),
        VSTEM => one_stem(false, cells[BEARING_X], st, ops, edges, across),
        RMOVETO | HMOVETO | VMOVETO => kept(move_operator(op, same, room, st, ops, cmds)),
        RLINETO | HLINETO | VLINETO => kept(line_operator(op, same, room, st, ops, cmds)),
        RRCURVETO | VHCURVETO | HVCURVETO => kept(curve_operator(op, same, room, st, ops, cmds)),
        // `token` does it as it reads, so `op` is never given it
        CLOSEPATH => closepath(st),
        RETURN => made(st, 1),
        HSBW => hsbw(st, ops, cells),
        ENDCHAR => made(cleared(st), 2),
        DOTSECTION => made(cleared(st), 0),
        VSTEM3 => kept(stems3(false, cells[BEARING_X], copied(st), ops, edges, across)),
        HSTEM3 => kept(stems3(true, cells[BEARING_Y], copied(st), ops, edges, across)),
        SEAC => made(st, 12),
        SBW => sbw(st, ops, cells),
        DIV => div(st, ops),
        CALLOTHERSUBR => kept(callothersubr(same, room, st, ops, ps, cells, cmds)),
        POP => pop(st, ops, ps, reading),
        SETCURRENTPOINT => kept(setcurrentpoint(same, room, st, ops, cmds)),
        _ => made(st, 6),
    }
}
