// The bytes of a charstring and of its subroutines run: `run`, `op` and `call_body` call each other.
ghost use Rattle.std.specs.Prelude.{◌<◌};
ghost use Rattle.bank.specs.Bank.{Valid};
ghost use Rattle.type1.specs.Cycle.{mem_of, Ready, op_d, run_d, MeetsFrom};

use crate::bytes::token;
use crate::opcodes::CALLSUBR;
use crate::operators::plain;
use crate::states::{made, stopped};
use crate::stems::{is_last, keep_group};
use crate::subroutines::callsubr;
use crate::{Ran, Reading, St};
use outline::Stem;

// 10: the body that the top operand names runs, one level deeper.
#[cycle(call_body_op_run)]
fn call_body(
    bank: &[u8],
    reading: Reading,
    levels: usize,
    st: St,
    ops: &mut [f64; 256],
    ps: &mut [f64; 256],
    cells: &mut [f64; 17],
    edges: &mut [f64; 512],
    across: &mut [bool; 256],
    cmds: &mut [u64],
    stems: &mut [Stem],
) -> Ran
    requires { (levels < 100) × (Valid bank.now × Ready st (mem_of ops.old ps.old cells.old edges.old across.old cmds.old stems.old)) }
    ensures { MeetsFrom result (mem_of ops.new ps.new cells.new edges.new across.new cmds.new stems.new)
        (op_d bank.now reading levels 10 st
        (mem_of ops.old ps.old cells.old edges.old across.old cmds.old stems.old)) }
{
    let c = match callsubr(bank, st, ops) {
        Ok(c) => c,
        Err(refusal) => return made(st, refusal.number()),
    };
    if levels == 0 {
        return made(c.st, 4);
    }
    run(
        bank::body(bank, c.index),
        bank,
        reading,
        levels - 1,
        c.st,
        ops,
        ps,
        cells,
        edges,
        across,
        cmds,
        stems,
    )
}

// One operator. `call_body` is a function of its own so that LLVM inlines `plain`.
#[cycle(call_body_op_run)]
fn op(
    op: u16,
    bank: &[u8],
    reading: Reading,
    levels: usize,
    st: St,
    ops: &mut [f64; 256],
    ps: &mut [f64; 256],
    cells: &mut [f64; 17],
    edges: &mut [f64; 512],
    across: &mut [bool; 256],
    cmds: &mut [u64],
    stems: &mut [Stem],
) -> Ran
    requires { (levels < 100) × (Valid bank.now × Ready st (mem_of ops.old ps.old cells.old edges.old across.old cmds.old stems.old)) }
    ensures { MeetsFrom result (mem_of ops.new ps.new cells.new edges.new across.new cmds.new stems.new)
        (op_d bank.now reading levels op st
        (mem_of ops.old ps.old cells.old edges.old across.old cmds.old stems.old)) }
{
    if op == CALLSUBR {
        return call_body(
            bank, reading, levels, st, ops, ps, cells, edges, across, cmds, stems,
        );
    }
    let n = stems.len();
    let same = is_last(st, edges, across, stems);
    let r = plain(
        op, same, n, st, ops, ps, cells, edges, across, cmds, reading,
    );
    if r.st.groups != st.groups {
        keep_group(st.stems, st.hints, edges, across, stems);
    }
    r
}

// The bytes of a charstring or of a body.
#[cycle(call_body_op_run)]
pub(crate) fn run(
    code: &[u8],
    bank: &[u8],
    reading: Reading,
    levels: usize,
    st: St,
    ops: &mut [f64; 256],
    ps: &mut [f64; 256],
    cells: &mut [f64; 17],
    edges: &mut [f64; 512],
    across: &mut [bool; 256],
    cmds: &mut [u64],
    stems: &mut [Stem],
) -> Ran
    requires { (levels < 100) × (Valid bank.now × Ready st (mem_of ops.old ps.old cells.old edges.old across.old cmds.old stems.old)) }
    ensures { MeetsFrom result (mem_of ops.new ps.new cells.new edges.new across.new cmds.new stems.new)
        (run_d bank.now reading levels code.now st
        (mem_of ops.old ps.old cells.old edges.old across.old cmds.old stems.old)) }
{
    let b = charstring::Cursor::new(code, reading.len_iv);
    let e = b.encrypted;
    let mut i = b.at;
    let mut key = b.key;
    let mut s = st;
    // Each turn goes on by the bytes of a token.
    while i < code.len() {
        let t = token(code, i, key, e, s, ops, cmds, reading);
        s = t.st;
        let g = t.flow;
        if g != 0 {
            return stopped(s, g);
        }
        i = t.next;
        key = t.key;
        let r = op(
            t.op, bank, reading, levels, s, ops, ps, cells, edges, across, cmds, stems,
        );
        s = r.st;
        let f = r.flow;
        if f != 0 {
            return stopped(s, f);
        }
    }
    made(s, 0)
}
