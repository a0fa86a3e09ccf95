// Entries of the command store, written (document 01, "Path").
ghost use Rattle.std.specs.Prelude.{◌≡◌, ◌+◌, ◌*◌, ◌≤◌, ◌<◌, length, take};
ghost use Rattle.outline.specs.Store.{entry_words, coordinate, point_in, command_in};
ghost use Rattle.type1.specs.Memory.{Good};
ghost use Rattle.type1.specs.Sound.{All, OfPoint, OfCommand};
ghost use Rattle.folding.specs.Folding.{folded_point};
ghost use Rattle.type1_to_type2.specs.Streaming.{Goes, Writes, points_in, folded_points, point_count, EntryBegins, EntryEnds};

use crate::Writer;
use crate::writing::{
    T2_ESCAPE, T2_FLEX, T2_RLINETO, T2_RRCURVETO, batch, flush, move_to, put_byte, put_delta,
    put_number, write_mask,
};
use folding::Fold;
use outline::{CURVE, ENTRY, FLEX, GROUP, LINE, MOVE};

// The point at word i of entry e.
fn read_point(commands: &[u64], e: usize, i: usize, fold: Fold) -> geometry::Point
    requires entry_words_in_bounds { (entry_words * e + entry_words ≤ length commands.now) × (i < 13) }
    requires of_point { OfPoint Good (point_in commands.now e i) }
    ensures { result ≡ folded_point fold (point_in commands.now e i) }
{
    let x = f64::from_bits(commands[ENTRY * e + i]);
    let y = f64::from_bits(commands[ENTRY * e + (i + 1)]);
    fold.fold_point(x, y)
}

// How many points an entry has by its kind: none where it is no line, curve or flex.
fn points_of(kind: u64) -> usize
    ensures { (result ≡ point_count kind) × (result ≤ 6) }
{
    match kind {
        LINE => 1,
        CURVE => 3,
        FLEX => 6,
        _ => 0,
    }
}

// Before an entry's points: a line or a curve shares an operator that takes one more; before a flex the
// waiting operator is written.
fn begin_entry(kind: u64, w: Writer, out: &mut [u8]) -> Writer
    ensures { EntryBegins kind w out.old result out.new }
{
    match kind {
        LINE => batch(T2_RLINETO, 2, type2::takes_line(w.held), w, out),
        CURVE => batch(T2_RRCURVETO, 6, type2::takes_curve(w.held), w, out),
        FLEX => flush(w, out),
        _ => w,
    }
}

// The deltas to the first n points of entry e. One call of `put_delta` for lines, curves and flexes, so that
// LLVM puts it in place.
fn draw_points(
    commands: &[u64],
    e: usize,
    n: usize,
    fold: Fold,
    w: Writer,
    out: &mut [u8],
) -> Writer
    requires entry_words_in_bounds { (entry_words * e + entry_words ≤ length commands.now) × (n ≤ 6) }
    requires all { All (OfPoint Good) (points_in commands.now e 1 n) }
    ensures { Goes (folded_points fold (points_in commands.now e 1 n)) w out.old result out.new }
{
    let mut r = w;
    for j in 0..n {
        let p = read_point(commands, e, 2 * j + 1, fold);
        r = put_delta(p.x, p.y, r, out);
    }
    r
}

// After an entry's points: a flex has its height and its operator.
fn end_entry(commands: &[u64], e: usize, kind: u64, w: Writer, out: &mut [u8]) -> Writer
    requires entry_words_in_bounds { entry_words * e + entry_words ≤ length commands.now }
    requires good { kind ≡ 4 → Good (coordinate commands.now e 13) }
    ensures { EntryEnds kind (coordinate commands.now e 13) w out.old result out.new }
{
    if kind != FLEX {
        return w;
    }
    let height = f64::from_bits(commands[ENTRY * e + 13]);
    let a = put_number(height, w, out);
    let b = put_byte(T2_ESCAPE, a, out);
    put_byte(T2_FLEX, b, out)
}

// Entry e of the command store: a path command, or where `masked` a group's start; the first k of `places` are its stems'.
pub(crate) fn write_entry(
    commands: &[u64],
    e: usize,
    fold: Fold,
    masked: bool,
    n: usize,
    k: usize,
    places: &[u8; 96],
    w: Writer,
    out: &mut [u8],
) -> Writer
    requires { (entry_words * e + entry_words ≤ length commands.now) × (((n ≤ 96) × ((k ≤ 96) × (k ≤ length places.now))) × All (OfCommand Good) (command_in commands.now e)) }
    ensures { Writes masked fold commands.now e n (take k places.now) w out.old result out.new }
{
    let kind = commands[ENTRY * e];
    match kind {
        MOVE => {
            let p = read_point(commands, e, 1, fold);
            move_to(p.x, p.y, w, out)
        }
        GROUP => {
            if masked {
                write_mask(n, k, places, w, out)
            } else {
                w
            }
        }
        _ => {
            let a = begin_entry(kind, w, out);
            let b = draw_points(commands, e, points_of(kind), fold, a, out);
            end_entry(commands, e, kind, b, out)
        }
    }
}
