// OtherSubrs, and which body a call names (document 01, OtherSubrs, Bank).
ghost use Rattle.std.specs.Prelude.{◌≡◌, true, List, ℕ, ◌-◌, ◌*◌, ◌≤◌, ◌<◌, length, get_or, take, drop, T, Float};
ghost use Rattle.std.specs.Float.{nan};
ghost use Rattle.std.specs.Float.Ieee.Scale.{finite};
ghost use Rattle.charstring.specs.Cipher.{max_charstring_bytes};
ghost use Rattle.bank.specs.Bank.{Valid};
ghost use Rattle.type1.specs.declared.Reading.{Reading};
ghost use Rattle.type1.specs.State as State;
ghost use Rattle.type1.specs.Run as Run;
ghost use Rattle.type1.specs.Run.{within};
ghost use Rattle.type1.specs.Memory.{Mem, Bounds, Good, Holds, Meets, with_ops, with_ps, with_cells, with_cmds, after, Told};
ghost use Rattle.type1.specs.Reading.{Calls};
ghost use Rattle.type1.specs.Small as Small;

use crate::entries::list_flex;
use crate::states::{flow_of, made};
use crate::stems::commit;
use crate::{Called, Ran, St};
use refusal::Refusal;

// The operands from one place to another are left for `pop`, the first popped first.
fn hand_back(from: usize, to: usize, st: St, ops: &[f64; 256], ps: &mut [f64; 256]) -> Ran
    requires { (from ≤ to) × ((to ≤ 256) × (st.postscript ≤ 256)) }
    ensures meets { (m : Mem) (s : State.State) (room words : ℕ) → length ops.now ≡ 256 → Holds st (with_ps ps.old m) s →
        Meets result (with_ps ps.new m) (Run.hand_back (within room words) (Run.backwards (take (to - from) (drop from ops.now))) s) }
    ensures groups_value { result.st.groups ≡ st.groups }
{
    let p = st.postscript;
    let held = &ops[..];
    let f = flow_of(othersubrs::hand_back(&held[from..to], p, ps));
    if f != 0 {
        return made(st, f);
    }
    let mut s = st;
    s.postscript = p + (to - from);
    made(s, 0)
}

// 0: the flex is listed, and its end point left for `pop`.
fn end_flex(
    height: f64,
    same: bool,
    room: usize,
    st: St,
    ps: &mut [f64; 256],
    cells: &[f64; 17],
    cmds: &mut [u64],
) -> Ran
    requires bounds { Bounds st (length cmds.old) }
    requires stems_le_room { st.stems ≤ room }
    requires t { T (finite height) × (st.flexing ≡ true → st.points < 8 → (i : ℕ) → i < 2 * st.points → Good (get_or cells.now i nan)) }
    ensures meets { (m : Mem) (s : State.State) (args : List Float) → height ≡ Run.height_of args → length m.stems ≡ room →
        Told same s → Holds st (with_ps ps.old (with_cells cells.now (with_cmds cmds.old m))) s →
        Meets result (with_ps ps.new (with_cells cells.now (after st result cmds.new m))) (Run.other_subr0 (within room (length cmds.old)) args s) }
    ensures space { Small.Space st result.st room }
{
    if !othersubrs::is_whole_flex(st.flexing, st.points) {
        return made(st, 9);
    }
    let mut s = st;
    s.flexing = false;
    let c = commit(same, room, s, cmds);
    if c.flow != 0 {
        return c;
    }
    let e = list_flex(height, c.st, cells, cmds);
    if e.flow != 0 {
        return e;
    }
    let mut t = e.st;
    let p = t.postscript;
    if 254 < p {
        return made(t, 15);
    }
    ps[p] = cells[13];
    ps[p + 1] = cells[12];
    t.postscript = p + 2;
    t.x = cells[12];
    t.y = cells[13];
    made(t, 0)
}

// 2: the current point is collected. An eighth is counted, not kept.
fn collect(st: St, cells: &mut [f64; 17]) -> Ran
    ensures meets { (m : Mem) (s : State.State) → Holds st (with_cells cells.old m) s →
        Meets result (with_cells cells.new m) (Run.other_subr2 s) }
    ensures groups_value { result.st.groups ≡ st.groups }
{
    if !st.flexing {
        return made(st, 9);
    }
    let n = st.points;
    let mut s = st;
    if n < 7 {
        cells[2 * n] = st.x;
        cells[2 * n + 1] = st.y;
        s.points = n + 1;
        return made(s, 0);
    }
    s.points = 8;
    made(s, 0)
}

// 12 16
pub(crate) fn callothersubr(
    same: bool,
    room: usize,
    st: St,
    ops: &[f64; 256],
    ps: &mut [f64; 256],
    cells: &mut [f64; 17],
    cmds: &mut [u64],
) -> Ran
    requires bounds { Bounds st (length cmds.old) }
    requires stems_le_room { st.stems ≤ room }
    requires finite { Small.Finite st ops.now cells.old }
    ensures meets { (m : Mem) (s : State.State) → length m.stems ≡ room → Told same s →
        Holds st (with_ops ops.now (with_ps ps.old (with_cells cells.old (with_cmds cmds.old m)))) s →
        Meets result (with_ops ops.now (with_ps ps.new (with_cells cells.new (after st result cmds.new m))))
        (Run.call_other_subr (within room (length cmds.old)) s) }
    ensures space { Small.Space st result.st room }
{
    let n = st.operands;
    if n < 2 {
        return made(st, 7);
    }
    let left = n - 2;
    let m = match othersubrs::arguments(n, ops[left]) {
        Ok(count) => count,
        Err(refusal) => return made(st, refusal.number()),
    };
    let from = left - m;
    let mut s = st;
    s.operands = from;
    let number = binary64::to_i64(ops[left + 1]);
    if number == 0 {
        if m == 0 {
            return end_flex(50.0, same, room, s, ps, cells, cmds);
        }
        return end_flex(ops[from], same, room, s, ps, cells, cmds);
    }
    if number == 1 {
        s.flexing = true;
        s.points = 0;
        return made(s, 0);
    }
    if number == 2 {
        return collect(s, cells);
    }
    if number == 3 {
        s.hints = 0;
        s.changed = true;
        return hand_back(from, left, s, ops, ps);
    }
    hand_back(from, left, s, ops, ps)
}

// 10: the body that the top operand names, its encrypted bytes counted.
pub(crate) fn callsubr(bank: &[u8], st: St, ops: &[f64; 256]) -> Result<Called, Refusal>
    requires { Valid bank.now × ((st.operands ≤ 256) × (st.ran ≤ max_charstring_bytes)) }
    ensures { (m : Mem) (s : State.State) (reading : Reading) → Holds st (with_ops ops.now m) s →
        Calls bank.now reading (with_ops ops.now m) s result }
{
    let n = st.operands;
    if n == 0 {
        return Err(Refusal::MissingOperands);
    }
    let c = bank::call(bank, ops[n - 1], st.ran)?;
    let mut s = st;
    s.operands = n - 1;
    s.ran = c.ran;
    Ok(Called {
        st: s,
        index: c.index,
    })
}
