// The stems in force, groups, and the stem store (document 01, Hints). The functions that hold the stem store are few and thin.
ghost use Rattle.std.specs.Prelude.{◌≡◌, false, ◌&&◌, ℕ, ◌+◌, ◌-◌, ◌≤◌, ◌<◌, length, take, drop, ltb};
ghost use Rattle.std.proofs.Math.Seq.{paste};
ghost use Rattle.type1.specs.State as State;
ghost use Rattle.outline.specs.Outline as Outline;
ghost use Rattle.type1.specs.Run as Run;
ghost use Rattle.hints.specs.Hints.{stem_at};
ghost use Rattle.type1.specs.Run.{within};
ghost use Rattle.type1.specs.Memory.{Mem, stems_at, Bounds, Holds, Meets, with_cmds, with_hints, after, Path, Step};
ghost use Rattle.type1.specs.Small as Small;

use crate::states::{flow_of, made};
use crate::{Ran, St};
use outline::{ENTRY, GROUP, Stem};

// Whether the stem is among the first count in force.
fn in_force(v: Stem, count: usize, edges: &[f64; 512], across: &[bool; 256]) -> bool
    requires { count ≤ 256 }
    ensures { result ≡ Outline.is_in (stems_at 0 count edges.now across.now) v }
{
    hints::in_force(v, count, edges, across)
}

// A stem comes in force, unless an equal one is.
pub(crate) fn add_stem(v: Stem, st: St, edges: &mut [f64; 512], across: &mut [bool; 256]) -> Ran
    requires { st.hints ≤ 256 }
    ensures meets { (m : Mem) (s : State.State) (room words : ℕ) → Holds st (with_hints edges.old across.old m) s →
        Meets result (with_hints edges.new across.new m) (Run.stem (within room words) v.horizontal v.pos v.width s) }
    ensures hints_bound { (result.st.hints ≤ 256) × (result.st.groups ≡ st.groups) }
{
    if !binary64::is_finite(v.pos) {
        return made(st, 14);
    }
    let n = st.hints;
    if in_force(v, n, edges, across) {
        return made(st, 0);
    }
    if n == 256 {
        return made(st, 16);
    }
    edges[2 * n] = v.pos;
    edges[2 * n + 1] = v.width;
    across[n] = v.horizontal;
    let mut s = st;
    s.hints = n + 1;
    s.changed = true;
    made(s, 0)
}

// The stems in force become a new group, where the stem store has `room` records. Its stems are
// stored after the operator.
fn new_group(room: usize, st: St, cmds: &mut [u64]) -> Ran
    requires bounds { Bounds st (length cmds.old) }
    requires stems_le_room { st.stems ≤ room }
    ensures meets { (m : Mem) (s : State.State) → length m.stems ≡ room → Holds st (with_cmds cmds.old m) s →
        Meets result (after st result cmds.new m) (Run.new_group (within room (length cmds.old)) s) }
    ensures changed_value { (result.flow ≡ 0 → result.st.changed ≡ false) × Small.Space st result.st room }
    ensures grown { Small.Grown st result.st (length cmds.old) room }
{
    let n = st.hints;
    let used = st.stems;
    let k = st.entries;
    let f = flow_of(hints::new_group(st.groups, room, used, n, cmds.len(), k));
    if f != 0 {
        return made(st, f);
    }
    let at = ENTRY * k;
    cmds[at] = GROUP;
    cmds[at + 1] = used as u64;
    cmds[at + 2] = n as u64;
    let mut s = st;
    s.entries = k + 1;
    s.stems = used + n;
    s.last = n;
    s.groups = st.groups + 1;
    s.changed = false;
    made(s, 0)
}

// At a path command: changed stems become a new group unless they are the last one's.
pub(crate) fn commit(same: bool, room: usize, st: St, cmds: &mut [u64]) -> Ran
    requires bounds { Bounds st (length cmds.old) }
    requires stems_le_room { st.stems ≤ room }
    ensures step { Step same st result cmds.old cmds.new room Run.commit }
    ensures path { Path st result room }
    ensures grown { Small.Grown st result.st (length cmds.old) room }
{
    if !st.changed {
        return made(st, 0);
    }
    if same {
        let mut s = st;
        s.changed = false;
        return made(s, 0);
    }
    new_group(room, st, cmds)
}

// The stem in force at a place.
fn stem_at(i: usize, edges: &[f64; 512], across: &[bool; 256]) -> Stem
    requires { i < 256 }
    ensures { result ≡ stem_at edges.now across.now i }
{
    Stem {
        horizontal: across[i],
        pos: edges[2 * i],
        width: edges[2 * i + 1],
    }
}

// Whether n records are the stems in force, in the same order.
fn all_same(
    first: usize,
    n: usize,
    edges: &[f64; 512],
    across: &[bool; 256],
    stems: &[Stem],
) -> bool
    requires { (n ≤ 256) × (first + n ≤ length stems.now) }
    ensures { result ≡ Outline.same_stems (take n (drop first stems.now)) (stems_at 0 n edges.now across.now) }
{
    for i in 0..n {
        if !outline::same_stem(stems[first + i], stem_at(i, edges, across)) {
            return false;
        }
    }
    true
}

// Whether the stems in force changed and are the last group's, in the same order. With no group they are not.
pub(crate) fn is_last(st: St, edges: &[f64; 512], across: &[bool; 256], stems: &[Stem]) -> bool
    requires { (st.hints ≤ 256) × ((st.last ≤ st.stems) × (st.stems ≤ length stems.now)) }
    ensures { result ≡ (st.changed && (ltb 0 st.groups &&
        Outline.same_stems (take st.last (drop (st.stems - st.last) stems.now)) (stems_at 0 st.hints edges.now across.now))) }
{
    hints::may_be_last(st.changed, st.groups, st.last, st.hints)
        && all_same(st.stems - st.last, st.hints, edges, across, stems)
}

// The stems in force are stored as a group's records.
pub(crate) fn keep_group(
    used: usize,
    n: usize,
    edges: &[f64; 512],
    across: &[bool; 256],
    stems: &mut [Stem],
)
    requires { (n ≤ 256) × (used + n ≤ length stems.old) }
    ensures { stems.new ≡ paste stems.old used (stems_at 0 n edges.now across.now) n }
{
    for i in 0..n {
        stems[used + i] = stem_at(i, edges, across);
    }
}
