// The command store's entries are written.
ghost use Rattle.std.specs.Prelude.{◌≡◌, ℕ, ◌+◌, ◌*◌, ◌≤◌, ◌<◌, length, get_or, T, is_ok, IfErr};
ghost use Rattle.std.specs.Float.{nan, binary64};
ghost use Rattle.std.specs.Float.Ieee.{fits, to_bits};
ghost use Rattle.std.specs.Float.Ieee.Scale.{finite};
ghost use Rattle.refusal.specs.declared.Refusal.TheVariants.{CommandsFull};
ghost use Rattle.type1.specs.State as State;
ghost use Rattle.outline.specs.Outline as Outline;
ghost use Rattle.type1.specs.Run as Run;
ghost use Rattle.outline.specs.Store.{entry_words, point_command};
ghost use Rattle.type1.specs.Run.{within, is_finite};
ghost use Rattle.type1.specs.Memory.{Mem, Good, Holds, Meets, with_cells, with_cmds, Plain};
ghost use Rattle.type1.specs.Reading.{Stores, Adds};
ghost use Rattle.type1.specs.Deltas.{by_deltas};
ghost use Rattle.type1.specs.Small as Small;

use crate::states::made;
use crate::{Deltas, Ran, St};
use geometry::Point;
use outline::{CURVE, ENTRY, FLEX, LINE};
use refusal::Refusal;

// A finite double as a word.
fn bits(x: f64) -> u64
    requires { T (finite x) }
    ensures { (result ≡ to_bits binary64 x) × T (fits binary64 x) }
{
    f64::to_bits(x)
}

// An entry of one point, a move or a line, where there is room.
fn store_point(kind: u64, p: Point, k: usize, cmds: &mut [u64]) -> Result<(), Refusal>
    requires k_in_bounds { entry_words * k ≤ length cmds.old }
    requires kind_nonzero { (0 < kind) × (kind < 3) }
    requires t { T (is_finite p) }
    ensures stores { Stores (point_command kind p) k cmds.old (is_ok result) cmds.new }
    ensures refused { IfErr result (λ e. e ≡ CommandsFull) }
{
    let at = ENTRY * k;
    if cmds.len() - at < ENTRY {
        return Err(Refusal::CommandsFull);
    }
    cmds[at] = kind;
    cmds[at + 1] = bits(p.x);
    cmds[at + 2] = bits(p.y);
    Ok(())
}

// A curve through p to q and r, where there is room.
fn store_curve(p: Point, q: Point, r: Point, k: usize, cmds: &mut [u64]) -> Result<(), Refusal>
    requires k_in_bounds { entry_words * k ≤ length cmds.old }
    requires t { T (is_finite p) × (T (is_finite q) × T (is_finite r)) }
    ensures stores { Stores (Outline.curve p q r) k cmds.old (is_ok result) cmds.new }
    ensures refused { IfErr result (λ e. e ≡ CommandsFull) }
{
    let at = ENTRY * k;
    if cmds.len() - at < ENTRY {
        return Err(Refusal::CommandsFull);
    }
    cmds[at] = CURVE;
    cmds[at + 1] = bits(p.x);
    cmds[at + 2] = bits(p.y);
    cmds[at + 3] = bits(q.x);
    cmds[at + 4] = bits(q.y);
    cmds[at + 5] = bits(r.x);
    cmds[at + 6] = bits(r.y);
    Ok(())
}

// A line from (x, y) with k entries listed: the point after it, where it was listed.
pub(crate) fn add_line(delta: Point, x: f64, y: f64, k: usize, cmds: &mut [u64]) -> Option<Point>
    requires { entry_words * k ≤ length cmds.old }
    ensures { Adds (λ lim. Run.line_by lim delta.x delta.y) x y k cmds.old result cmds.new }
{
    let p = Point {
        x: x + delta.x,
        y: y + delta.y,
    };
    if !finite_point(p) {
        return None;
    }
    match store_point(LINE, p, k, cmds) {
        Ok(()) => Some(p),
        Err(_) => None,
    }
}

// A curve likewise.
pub(crate) fn add_curve(deltas: Deltas, x: f64, y: f64, k: usize, cmds: &mut [u64]) -> Option<Point>
    requires { entry_words * k ≤ length cmds.old }
    ensures { Adds (λ lim. by_deltas lim deltas) x y k cmds.old result cmds.new }
{
    let p = Point {
        x: x + deltas.first.x,
        y: y + deltas.first.y,
    };
    let q = Point {
        x: p.x + deltas.second.x,
        y: p.y + deltas.second.y,
    };
    let r = Point {
        x: q.x + deltas.third.x,
        y: q.y + deltas.third.y,
    };
    if !finite_point(p) || !finite_point(q) || !finite_point(r) {
        return None;
    }
    match store_curve(p, q, r, k, cmds) {
        Ok(()) => Some(r),
        Err(_) => None,
    }
}

// An entry of one point: a move or a line.
pub(crate) fn enter_point(kind: u64, p: Point, st: St, cmds: &mut [u64]) -> Ran
    requires entries_in_bounds { entry_words * st.entries ≤ length cmds.old }
    requires kind_nonzero { (0 < kind) × (kind < 3) }
    requires t { T (is_finite p) }
    ensures meets { (m : Mem) (s : State.State) (room : ℕ) → Holds st (with_cmds cmds.old m) s →
        Meets result (with_cmds cmds.new m) (Run.enter (within room (length cmds.old)) (point_command kind p) s) }
    ensures plain { Plain st result.st }
    ensures entered { Small.Entered st result.st (length cmds.old) }
{
    let k = st.entries;
    match store_point(kind, p, k, cmds) {
        Ok(()) => {
            let mut s = st;
            s.entries = k + 1;
            made(s, 0)
        }
        Err(refusal) => made(st, refusal.number()),
    }
}

// A curve through p to q and r.
pub(crate) fn enter_curve(p: Point, q: Point, r: Point, st: St, cmds: &mut [u64]) -> Ran
    requires entries_in_bounds { entry_words * st.entries ≤ length cmds.old }
    requires t { T (is_finite p) × (T (is_finite q) × T (is_finite r)) }
    ensures meets { (m : Mem) (s : State.State) (room : ℕ) → Holds st (with_cmds cmds.old m) s →
        Meets result (with_cmds cmds.new m) (Run.enter (within room (length cmds.old)) (Outline.curve p q r) s) }
    ensures plain { Plain st result.st }
{
    let k = st.entries;
    match store_curve(p, q, r, k, cmds) {
        Ok(()) => {
            let mut s = st;
            s.entries = k + 1;
            made(s, 0)
        }
        Err(refusal) => made(st, refusal.number()),
    }
}

// A point's coordinates as words.
fn put_point(at: usize, p: Point, cmds: &mut [u64])
    requires { (at + 1 < length cmds.old) × Small.GoodPoint p }
    ensures { cmds.new ≡ Small.point_put at p cmds.old }
{
    cmds[at] = f64::to_bits(p.x);
    cmds[at + 1] = f64::to_bits(p.y);
}

// A flex with its height, to p6.
fn enter_flex(
    p1: Point,
    p2: Point,
    p3: Point,
    p4: Point,
    p5: Point,
    p6: Point,
    height: f64,
    st: St,
    cmds: &mut [u64],
) -> Ran
    requires entries_in_bounds { entry_words * st.entries ≤ length cmds.old }
    requires good_point { Small.GoodPoint p1 × (Small.GoodPoint p2 × Small.GoodPoint p3) }
    requires good_point_2 { Small.GoodPoint p4 × (Small.GoodPoint p5 × Small.GoodPoint p6) }
    requires t { T (finite height) }
    ensures meets { (m : Mem) (s : State.State) (room : ℕ) → Holds st (with_cmds cmds.old m) s →
        Meets result (with_cmds cmds.new m) (Run.enter (within room (length cmds.old)) (Outline.flex p1 p2 p3 p4 p5 p6 height) s) }
    ensures plain { Plain st result.st }
{
    let k = st.entries;
    let at = ENTRY * k;
    if cmds.len() - at < ENTRY {
        return made(st, 17);
    }
    cmds[at] = FLEX;
    put_point(at + 1, p1, cmds);
    put_point(at + 3, p2, cmds);
    put_point(at + 5, p3, cmds);
    put_point(at + 7, p4, cmds);
    put_point(at + 9, p5, cmds);
    put_point(at + 11, p6, cmds);
    cmds[at + 13] = f64::to_bits(height);
    let mut s = st;
    s.entries = k + 1;
    made(s, 0)
}

// A point that a flex collected.
fn collected(cells: &[f64; 17], i: usize) -> Point
    requires { i < 7 }
    ensures { result ≡ Small.cell_point cells.now i }
{
    Point {
        x: cells[2 * i],
        y: cells[2 * i + 1],
    }
}

// The flex of the seven points collected, of which the first is not used.
pub(crate) fn list_flex(height: f64, st: St, cells: &[f64; 17], cmds: &mut [u64]) -> Ran
    requires entries_in_bounds { entry_words * st.entries ≤ length cmds.old }
    requires t { T (finite height) × ((i : ℕ) → i < 14 → Good (get_or cells.now i nan)) }
    ensures meets { (m : Mem) (s : State.State) (room : ℕ) → Holds st (with_cells cells.now (with_cmds cmds.old m)) s →
        Meets result (with_cells cells.now (with_cmds cmds.new m))
        (Run.enter (within room (length cmds.old)) (Small.flex_of cells.now height) s) }
    ensures plain { Plain st result.st }
{
    enter_flex(
        collected(cells, 1),
        collected(cells, 2),
        collected(cells, 3),
        collected(cells, 4),
        collected(cells, 5),
        collected(cells, 6),
        height,
        st,
        cmds,
    )
}

pub(crate) fn finite_point(p: Point) -> bool
    ensures { result ≡ is_finite p }
{
    binary64::is_finite(p.x) && binary64::is_finite(p.y)
}
