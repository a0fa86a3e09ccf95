// States, and a state with what follows it.
ghost use Rattle.refusal.specs.Refusal.{number_in};
ghost use Rattle.std.specs.Prelude.{◌≡◌, eqb};
ghost use Rattle.outline.specs.Outline.{pick};
ghost use Rattle.type1.specs.Reading.{with_count};
ghost use Rattle.type1.specs.Small as Small;

use crate::{Ran, St};
use geometry::Point;
use refusal::Refusal;

// The same state, field by field. LLVM then keeps it in registers: copied as a whole, or lent to a call that is not inlined, it would stay in memory.
pub(crate) fn copied(t: St) -> St
    ensures { result ≡ t }
{
    St {
        operands: t.operands,
        postscript: t.postscript,
        x: t.x,
        y: t.y,
        points: t.points,
        hints: t.hints,
        last: t.last,
        groups: t.groups,
        stems: t.stems,
        entries: t.entries,
        ran: t.ran,
        opened: t.opened,
        flexing: t.flexing,
        changed: t.changed,
        divided: t.divided,
    }
}

// The flow after a step that may be refused.
pub(crate) fn flow_of(r: Result<(), Refusal>) -> u8
    ensures { result ≡ number_in r }
{
    match r {
        Ok(()) => 0,
        Err(refusal) => refusal.number(),
    }
}

pub(crate) fn made(st: St, flow: u8) -> Ran
    ensures { result ≡ Small.ran_of st flow }
{
    Ran {
        st: copied(st),
        flow,
    }
}

// The same answer, field by field.
pub(crate) fn kept(r: Ran) -> Ran
    ensures { result ≡ r }
{
    made(r.st, r.flow)
}

// A body that returns, or comes to its end, goes on after the call.
pub(crate) fn stopped(st: St, flow: u8) -> Ran
    ensures { result ≡ Small.ran_of st (pick (eqb flow 1) 0 flow) }
{
    if flow == 1 {
        made(st, 0)
    } else {
        made(st, flow)
    }
}

// The state with no operands.
pub(crate) fn cleared(st: St) -> St
    ensures { result ≡ with_count 0 st }
{
    let mut s = st;
    s.operands = 0;
    s
}

pub(crate) fn at_point(p: Point, st: St) -> St
    ensures { result ≡ Small.with_xY p.x p.y st }
{
    let mut s = st;
    s.x = p.x;
    s.y = p.y;
    s
}

pub(crate) fn opened(r: Ran) -> Ran
    ensures { result ≡ Small.opened_ran r }
{
    if r.flow != 0 {
        return r;
    }
    let mut s = r.st;
    s.opened = true;
    made(s, 0)
}
