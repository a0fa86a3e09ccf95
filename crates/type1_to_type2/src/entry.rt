// From what a run has left to the answer: the plan, the program's start and end, and the tables lent.
ghost use Rattle.std.specs.Prelude.{◌≡◌, false, ◌&&◌, [], ℕ, ◌+◌, ◌*◌, ◌≤◌, ◌<◌, length, replicate, MatchResult, IfOk, IsErr, Ok};
ghost use Rattle.std.specs.Float.Ieee.Scale.{finite};
ghost use Rattle.outline.specs.Store.{entry_words, command_in, drawn_in};
ghost use Rattle.type1.specs.Memory.{Good};
ghost use Rattle.type1.specs.Sound.{All, OfCommand};
ghost use Rattle.folding.specs.Folding.{folded_list, folded_width, finite_list};
ghost use Rattle.type1_to_type2.specs.Convert.{glyph_of, writes, folded, refused, answer};
ghost use Rattle.type1_to_type2.specs.Collecting.{Counted};
ghost use Rattle.type1_to_type2.specs.Streaming.{resumed_all};
ghost use Rattle.type1_to_type2.specs.Passes.{Stored};
ghost use Rattle.type1_to_type2.specs.Entry.{Lengths, Planned, nothing_planned, Opens, left_state, settles, Gives, GivesAfter, first_number, from_run, Answers};

use crate::checking::{count_groups, finite_points};
use crate::declaring::write_front;
use crate::passes::{collect_all, write_all};
use crate::tables::{dropped, none_collected};
use crate::writing::finish_program;
use crate::{Collected, Plan, Type2Glyph, Writer};
use folding::Fold;
use geometry::Matrix;
use outline::Stem;
use refusal::Refusal;
use type1::Interpreted;

// No stems and no masks.
fn nothing_planned() -> Plan
    ensures { result ≡ nothing_planned }
{
    Plan {
        masked: false,
        across: 0,
        upright: 0,
        width: 0.0,
    }
}

// What is to be written, from the stems; 14 where the folded width or a folded stem is not finite.
fn make_plan(c: Collected, m: Matrix, r: Interpreted) -> Result<Plan, Refusal>
    requires { Counted c }
    ensures { MatchResult result (Planned c m r.width) (λ e. (e ≡ Refusal.NotFinite) × ((finite (folded_width m r.width) && c.finite) ≡ false)) }
{
    let width = folding::fold_width(m, r.width);
    if !binary64::is_finite(width) || !c.finite {
        return Err(Refusal::NotFinite);
    }
    let d = dropped(c);
    Ok(Plan {
        masked: hints::need_masks(d.groups, d.across, d.upright),
        across: d.across,
        upright: d.upright,
        width,
    })
}

// The stems are written, or a refusal is kept: then nothing more is written.
fn begin_program(
    planned: Result<Plan, Refusal>,
    across: &[f64; 192],
    upright: &[f64; 192],
    out: &mut [u8],
) -> Writer
    requires { IfOk planned (λ p. p.across + p.upright ≤ 96) }
    ensures opens { Opens planned across.now upright.now (length out.old) result out.new }
    ensures out_len_unchanged { length out.new ≡ length out.old }
{
    match planned {
        Ok(p) => write_front(p.masked, p.across, p.upright, across, upright, out),
        Err(refusal) => Writer {
            next: Err(refusal),
            x: 0.0,
            y: 0.0,
            waits: 0,
            held: 0,
        },
    }
}

// The program's end, and the glyph. A folded point that is not finite has been refused by the writer at the latest,
// so that the points are tested only where it refused; folding's number then comes first.
fn end_program(
    p: Plan,
    r: Interpreted,
    w: Writer,
    commands: &[u64],
    fold: Fold,
    out: &mut [u8],
) -> Result<Type2Glyph, Refusal>
    requires { (entry_words * r.entries ≤ length commands.now) × ((e : ℕ) → e < r.entries → All (OfCommand Good) (command_in commands.now e)) }
    ensures { Gives (settles (finite_list (folded_list fold (drawn_in r.entries commands.now)))
        (writes (glyph_of p.width r.ran) (resumed_all false [] w out.old []))) (length out.old) result out.new }
{
    match finish_program(w, out) {
        Ok(len) => Ok(Type2Glyph {
            number: 0,
            len,
            width: p.width,
            ran: r.ran,
        }),
        Err(refused) => {
            let finite = finite_points(commands, r.entries, fold);
            let number = folding::refusal(0, refused.number() as u64, finite);
            Err(Refusal::try_from(number).unwrap_or(refused))
        }
    }
}

// Folding and writing, from what a run has left. The same steps are taken for every input: a refusal, given early or
// by the plan, is kept, and nothing more is written.
fn convert_run(
    r: Interpreted,
    early: Result<(), Refusal>,
    m: Matrix,
    stems: &mut [Stem],
    commands: &mut [u64],
    across: &mut [f64; 192],
    upright: &mut [f64; 192],
    places: &mut [u8; 96],
    out: &mut [u8],
) -> Result<Type2Glyph, Refusal>
    requires { Stored r.entries commands.old stems.old × Lengths across.old upright.old places.old }
    ensures { (stems.new ≡ stems.old) × ((commands.new ≡ commands.old) ×
        GivesAfter early (folded m (length out.old) (left_state r commands.old stems.old)) (length out.old) result out.new) }
{
    let fold = Fold::new(m);
    let k = count_groups(commands, r.entries);
    let c = collect_all(
        stems,
        commands,
        r.entries,
        fold,
        none_collected(k),
        across,
        upright,
    );
    let planned = early.and(make_plan(c, m, r));
    let p = planned.unwrap_or(nothing_planned());
    let w = begin_program(planned, across, upright, out);
    let v = write_all(
        stems, commands, r.entries, fold, p.masked, p.across, p.upright, across, upright, places,
        w, out,
    );
    planned.and(end_program(p, r, v, commands, fold, out))
}

// The same with its own tables of stems, which are made after the run: so they may share the stack with the
// run's arrays.
pub(crate) fn convert_stored(
    r: Interpreted,
    early: Result<(), Refusal>,
    m: Matrix,
    stems: &mut [Stem],
    commands: &mut [u64],
    out: &mut [u8],
) -> Result<Type2Glyph, Refusal>
    requires { Stored r.entries commands.old stems.old }
    ensures { (stems.new ≡ stems.old) × ((commands.new ≡ commands.old) ×
        GivesAfter early (folded m (length out.old) (left_state r commands.old stems.old)) (length out.old) result out.new) }
{
    let mut across = [0.0; 192];
    let mut upright = [0.0; 192];
    let mut places = [0; 96];
    convert_run(
        r,
        early,
        m,
        stems,
        commands,
        &mut across,
        &mut upright,
        &mut places,
        out,
    )
}

// 1 where an entry of the matrix is not finite, else the run's number.
pub(crate) fn first_number(m: Matrix, number: u64) -> u64
    ensures { result ≡ first_number m number }
{
    if folding::finite_matrix(m) { number } else { 1 }
}

// A refusal: all but the number are 0.
fn refuse(number: u64) -> Type2Glyph
    ensures { result ≡ answer (refused number) }
{
    Type2Glyph {
        number,
        len: 0,
        width: 0.0,
        ran: 0,
    }
}

// A number that was given early, as its refusal; one that document 01 does not have is given as another, since `answered`
// gives the number itself.
fn early(number: u64) -> Result<(), Refusal>
    ensures { (number ≡ 0 → result ≡ Ok tt) × ((number ≡ 0 → ⊥) → IsErr result) }
{
    if number == 0 {
        return Ok(());
    }
    Err(Refusal::try_from(number).unwrap_or(Refusal::NotFinite))
}

// The same as an answer, with the number so far.
pub(crate) fn answered(
    r: Interpreted,
    number: u64,
    m: Matrix,
    stems: &mut [Stem],
    commands: &mut [u64],
    out: &mut [u8],
) -> Type2Glyph
    requires { Stored r.entries commands.old stems.old }
    ensures { (stems.new ≡ stems.old) × ((commands.new ≡ commands.old) ×
        Answers (from_run number m (length out.old) r commands.old stems.old) (length out.old) result out.new) }
{
    match convert_stored(r, early(number), m, stems, commands, out) {
        Ok(g) => g,
        Err(e) => refuse(folding::refusal(number, e.number() as u64, true)),
    }
}

// Every word becomes zero.
pub(crate) fn wipe_words(commands: &mut [u64])
    ensures { commands.new ≡ replicate (length commands.old) 0 }
{
    stores::wipe_words(commands);
}
