// Moves, lines and curves are listed (document 01, Reading).
ghost use Rattle.std.specs.Prelude.{true, ◌≤◌, ◌<◌, length, T};
ghost use Rattle.std.specs.Float.Ieee.Scale.{finite};
ghost use Rattle.type1.specs.State as State;
ghost use Rattle.outline.specs.Outline as Outline;
ghost use Rattle.type1.specs.Run as Run;
ghost use Rattle.outline.specs.Store.{point_command};
ghost use Rattle.type1.specs.Run.{point_at, is_finite};
ghost use Rattle.type1.specs.Deltas.{by_deltas};
ghost use Rattle.type1.specs.Memory.{Bounds, Path, Step};
ghost use Rattle.type1.specs.Small as Small;

use crate::entries::{enter_curve, enter_point, finite_point};
use crate::states::{at_point, made, opened};
use crate::stems::commit;
use crate::{Deltas, Ran, St};
use geometry::Point;
use outline::{LINE, MOVE};

// A move or a line to p is listed.
fn list_point(kind: u64, p: Point, same: bool, room: usize, st: St, cmds: &mut [u64]) -> Ran
    requires bounds { Bounds st (length cmds.old) }
    requires stems_le_room { st.stems ≤ room }
    requires kind_nonzero { (0 < kind) × (kind < 3) }
    requires t { T (is_finite p) }
    ensures step { Step same st result cmds.old cmds.new room (λ lim. Run.list lim (point_command kind p)) }
    ensures path { Path st result room }
    ensures grown { Small.Grown st result.st (length cmds.old) room }
{
    let c = commit(same, room, st, cmds);
    if c.flow != 0 {
        return c;
    }
    enter_point(kind, p, c.st, cmds)
}

// rmoveto, hmoveto, vmoveto.
pub(crate) fn move_by(delta: Point, same: bool, room: usize, st: St, cmds: &mut [u64]) -> Ran
    requires bounds { Bounds st (length cmds.old) }
    requires stems_le_room { st.stems ≤ room }
    ensures step { Step same st result cmds.old cmds.new room (λ lim. Run.move_by lim delta.x delta.y) }
    ensures space { Small.Space st result.st room }
{
    let p = Point {
        x: st.x + delta.x,
        y: st.y + delta.y,
    };
    if !finite_point(p) {
        return made(st, 14);
    }
    if st.flexing {
        return made(at_point(p, st), 0);
    }
    opened(list_point(MOVE, p, same, room, at_point(p, st), cmds))
}

// A line or curve with no subpath open first moves to the current point.
fn open_subpath(same: bool, room: usize, st: St, cmds: &mut [u64]) -> Ran
    requires bounds { Bounds st (length cmds.old) }
    requires stems_le_room { st.stems ≤ room }
    requires t { T (finite st.x) × T (finite st.y) }
    ensures step { Step same st result cmds.old cmds.new room
        (λ lim s. Run.and_then (Run.list lim (Outline.move (point_at st.x st.y)) s) (λ t. Run.going (State.with_open true t))) }
    ensures path { Path st result room }
    ensures grown { Small.Grown st result.st (length cmds.old) room }
{
    let p = Point { x: st.x, y: st.y };
    opened(list_point(MOVE, p, same, room, st, cmds))
}

// rlineto, hlineto, vlineto, with a subpath open.
fn line_to(delta: Point, same: bool, room: usize, st: St, cmds: &mut [u64]) -> Ran
    requires bounds { Bounds st (length cmds.old) }
    requires stems_le_room { st.stems ≤ room }
    ensures step { Step same st result cmds.old cmds.new room (λ lim. Run.line_to lim delta.x delta.y) }
    ensures path { Path st result room }
{
    let p = Point {
        x: st.x + delta.x,
        y: st.y + delta.y,
    };
    if !finite_point(p) {
        return made(st, 14);
    }
    list_point(LINE, p, same, room, at_point(p, st), cmds)
}

pub(crate) fn line_by(delta: Point, same: bool, room: usize, st: St, cmds: &mut [u64]) -> Ran
    requires bounds { Bounds st (length cmds.old) }
    requires stems_le_room { st.stems ≤ room }
    requires t { T (finite st.x) × T (finite st.y) }
    ensures step { Step same st result cmds.old cmds.new room (λ lim. Run.line_by lim delta.x delta.y) }
    ensures space { Small.Space st result.st room }
{
    if st.opened {
        return line_to(delta, same, room, st, cmds);
    }
    let o = open_subpath(same, room, st, cmds);
    if o.flow != 0 {
        return o;
    }
    line_to(delta, same, room, o.st, cmds)
}

// rrcurveto, vhcurveto, hvcurveto, with a subpath open.
fn curve_to(deltas: Deltas, same: bool, room: usize, st: St, cmds: &mut [u64]) -> Ran
    requires bounds { Bounds st (length cmds.old) }
    requires stems_le_room { st.stems ≤ room }
    ensures step { Step same st result cmds.old cmds.new room (λ lim. Run.curve_to lim deltas.first.x deltas.first.y deltas.second.x deltas.second.y deltas.third.x deltas.third.y) }
    ensures path { Path st result room }
{
    let p = Point {
        x: st.x + deltas.first.x,
        y: st.y + deltas.first.y,
    };
    let q = Point {
        x: p.x + deltas.second.x,
        y: p.y + deltas.second.y,
    };
    let r = Point {
        x: q.x + deltas.third.x,
        y: q.y + deltas.third.y,
    };
    if !finite_point(p) || !finite_point(q) || !finite_point(r) {
        return made(st, 14);
    }
    let c = commit(same, room, at_point(r, st), cmds);
    if c.flow != 0 {
        return c;
    }
    enter_curve(p, q, r, c.st, cmds)
}

pub(crate) fn curve_by(deltas: Deltas, same: bool, room: usize, st: St, cmds: &mut [u64]) -> Ran
    requires bounds { Bounds st (length cmds.old) }
    requires stems_le_room { st.stems ≤ room }
    requires t { T (finite st.x) × T (finite st.y) }
    ensures step { Step same st result cmds.old cmds.new room (λ lim. by_deltas lim deltas) }
    ensures space { Small.Space st result.st room }
{
    if st.opened {
        return curve_to(deltas, same, room, st, cmds);
    }
    let o = open_subpath(same, room, st, cmds);
    if o.flow != 0 {
        return o;
    }
    curve_to(deltas, same, room, o.st, cmds)
}

// setcurrentpoint.
pub(crate) fn set_point(p: Point, same: bool, room: usize, st: St, cmds: &mut [u64]) -> Ran
    requires bounds { Bounds st (length cmds.old) }
    requires stems_le_room { st.stems ≤ room }
    requires t { T (is_finite p) }
    ensures step { Step same st result cmds.old cmds.new room (λ lim. Run.set_point lim p) }
    ensures space { Small.Space st result.st room }
{
    if p.x == st.x && p.y == st.y {
        return made(st, 0);
    }
    let s = at_point(p, st);
    if othersubrs::is_move(s.opened, s.flexing) {
        return list_point(MOVE, p, same, room, s, cmds);
    }
    made(s, 0)
}
