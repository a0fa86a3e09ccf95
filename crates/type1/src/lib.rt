//! The Type 1 run: a charstring and its subroutines are run on lent stores. The command store gets an
//! entry of 14 words for each path command and for each group's start, the stem store a record for
//! each stem of each group.
#![tactic(auto)]

ghost use Rattle.std.specs.Prelude.{◌≡◌, length, replicate};
ghost use Rattle.outline.specs.Outline as Outline;
ghost use Rattle.type1.specs.Run.{reading_of};
ghost use Rattle.type1.specs.Small as Small;
ghost use Rattle.type1.specs.Entry.{zero_st, start_flow, number_of, answer_of, Cleared};
ghost use Rattle.type1.specs.Interpret.{source_of, outcome, refused_with, Leaves};

mod bytes;
mod entries;
mod opcodes;
mod operands;
mod operators;
mod paths;
mod run;
mod states;
mod stems;
mod subroutines;

use geometry::Point;
use outline::Stem;
use run::run;
use states::{flow_of, made};

// How a charstring and its subroutines are read.
#[derive(Clone, Copy)]
pub struct Reading {
    // plain bytes dropped at the start of each; `charstring::NOT_ENCRYPTED`: they are not encrypted
    pub len_iv: usize,
    // whether T1's own operand stack is enforced: 24 operands fit
    pub strict: bool,
}

impl Reading {
    // With this lenIV, and not strict.
    pub fn new(len_iv: usize) -> Reading
        ensures { result ≡ reading_of len_iv }
    {
        Reading {
            len_iv,
            strict: false,
        }
    }
}

// What of the state is small. The rest is in arrays: the operands and the PostScript stack, each
// bottom first; `cells`: the points of a flex, the side bearing and the width; `edges` and `across`:
// the stems in force.
#[derive(Clone, Copy)]
struct St {
    // operands held, and numbers on the PostScript stack
    operands: usize,
    postscript: usize,
    // the current point
    x: f64,
    y: f64,
    // how many points a flex has collected, of which seven are kept: 8 stands for more
    points: usize,
    // stems in force, and stems of the last group
    hints: usize,
    last: usize,
    // groups, records used, entries used
    groups: usize,
    stems: usize,
    entries: usize,
    // bytes run
    ran: usize,
    // whether a subpath is open
    opened: bool,
    // whether a flex runs
    flexing: bool,
    // whether the stems in force changed
    changed: bool,
    // whether a div ran
    divided: bool,
}

// A step's or a run's state and flow: 0 goes on, 1 returns from a body, 2 ends the glyph, and any
// other is document 01's number of a refusal.
#[derive(Clone, Copy)]
struct Ran {
    st: St,
    flow: u8,
}

// places in `cells`, after the seven points of a flex
const BEARING_X: usize = 14;

const BEARING_Y: usize = 15;

const WIDTH: usize = 16;

// What stands at a place of a charstring, after the numbers before it were pushed.
#[derive(Clone, Copy)]
struct Tok {
    st: St,
    next: usize,
    key: u16,
    // 0: an operator; 1: the end of the bytes; else the number of a refusal
    flow: u8,
    // its byte, or 256 and the byte after a 12
    op: u16,
}

// A number of a charstring, and where the bytes after it begin. `cut` beside it and no Option: `token` tests it with the depth
// in one branch, and a branch for each refusal is slower (docs/DECISIONS.md, The strict reading).
#[derive(Clone, Copy)]
struct Num {
    x: f64,
    next: usize,
    key: u16,
    cut: bool,
}

// The three deltas of a curve, each from the point before it.
#[derive(Clone, Copy)]
struct Deltas {
    first: Point,
    second: Point,
    third: Point,
}

// A call about to be made: which body.
#[derive(Clone, Copy)]
struct Called {
    st: St,
    index: usize,
}

// What a run leaves: document 01's number, and where it is 0 the width, the bytes run, and how many
// entries and records the stores hold.
#[derive(Clone, Copy)]
pub struct Interpreted {
    pub number: u64,
    pub width: f64,
    pub ran: usize,
    pub entries: usize,
    pub stems: usize,
}

// Every record becomes the zero record: vertical, 0, 0. Stored as a literal: LLVM then writes its fields and no padding.
pub fn wipe(stems: &mut [Stem])
    ensures { stems.new ≡ replicate (length stems.old) Outline.zero_stem }
{
    for stem in stems.iter_mut() {
        *stem = Stem {
            horizontal: false,
            pos: 0.0,
            width: 0.0,
        };
    }
}

// The state before the first byte, with so many bytes counted.
fn zero_state(ran: usize) -> St
    ensures { result ≡ zero_st ran }
{
    St {
        operands: 0,
        postscript: 0,
        x: 0.0,
        y: 0.0,
        opened: false,
        flexing: false,
        points: 0,
        hints: 0,
        changed: false,
        last: 0,
        groups: 0,
        stems: 0,
        entries: 0,
        divided: false,
        ran,
    }
}

// The bank's layout is tested, and the charstring's bytes are counted.
fn start_run(charstring: &[u8], bank: &[u8]) -> Ran
    ensures { result ≡ Small.ran_of (zero_st (length charstring.now)) (start_flow charstring.now bank.now) }
{
    let st = zero_state(charstring.len());
    made(st, flow_of(bank::refused_before(bank, charstring.len())))
}

// The number that a run's flow stands for.
fn number_of(flow: u8) -> u8
    ensures { result ≡ number_of flow }
{
    if flow == 2 { 0 } else { flow }
}

// Every word becomes 0.
fn wipe_words(commands: &mut [u64])
    ensures { commands.new ≡ replicate (length commands.old) 0 }
{
    stores::wipe_words(commands);
}

fn refused(number: u8) -> Interpreted
    ensures { result ≡ refused_with number }
{
    Interpreted {
        number: number as u64,
        width: 0.0,
        ran: 0,
        entries: 0,
        stems: 0,
    }
}

fn answer(st: St, cells: &[f64; 17]) -> Interpreted
    ensures { result ≡ answer_of st cells.now }
{
    Interpreted {
        number: 0,
        width: cells[WIDTH],
        ran: st.ran,
        entries: st.entries,
        stems: st.stems,
    }
}

// Levels of subroutines that run: depth 10 does, 11 is refused.
fn deepest() -> usize
    ensures { result ≡ 10 }
{
    bank::max_depth()
}

// The entry's work, on arrays that are zero.
fn interpret(
    charstring: &[u8],
    bank: &[u8],
    reading: Reading,
    ops: &mut [f64; 256],
    ps: &mut [f64; 256],
    cells: &mut [f64; 17],
    edges: &mut [f64; 512],
    across: &mut [bool; 256],
    commands: &mut [u64],
    stems: &mut [Stem],
) -> Interpreted
    requires { Cleared ops.old ps.old cells.old edges.old across.old }
    ensures { Leaves result commands.new stems.new commands.old stems.old
        (outcome (source_of charstring.now bank.now) reading (length stems.old) (length commands.old)) }
{
    let b = start_run(charstring, bank);
    let f = b.flow;
    if f != 0 {
        wipe(stems);
        wipe_words(commands);
        return refused(f);
    }
    let r = run(
        charstring,
        bank,
        reading,
        deepest(),
        b.st,
        ops,
        ps,
        cells,
        edges,
        across,
        commands,
        stems,
    );
    let g = number_of(r.flow);
    if g != 0 {
        wipe(stems);
        wipe_words(commands);
        return refused(g);
    }
    answer(r.st, cells)
}

// Runs a Type 1 charstring with the subroutines of a bank.
pub fn run_charstring(
    charstring: &[u8],
    bank: &[u8],
    reading: Reading,
    commands: &mut [u64],
    stems: &mut [Stem],
) -> Interpreted
    ensures { Leaves result commands.new stems.new commands.old stems.old
        (outcome (source_of charstring.now bank.now) reading (length stems.old) (length commands.old)) }
{
    let mut ops = [0.0; 256];
    let mut ps = [0.0; 256];
    let mut cells = [0.0; 17];
    let mut edges = [0.0; 512];
    let mut across = [false; 256];
    interpret(
        charstring,
        bank,
        reading,
        &mut ops,
        &mut ps,
        &mut cells,
        &mut edges,
        &mut across,
        commands,
        stems,
    )
}
