// Entries of the command store: which start a group, and whether their folded points are finite.
ghost use Rattle.std.specs.Prelude.{◌≡◌, ℕ, ◌+◌, ◌*◌, ◌≤◌, ◌<◌, length, get_or};
ghost use Rattle.std.specs.Float.{binary64};
ghost use Rattle.std.specs.Float.Ieee.{of_bits};
ghost use Rattle.outline.specs.Store.{entry_words, command_in, drawn_in};
ghost use Rattle.type1.specs.Memory.{Good};
ghost use Rattle.type1.specs.Sound.{All, OfCommand};
ghost use Rattle.folding.specs.Folding.{folded_point, folded_list, finite_list, finite_point};
ghost use Rattle.type1_to_type2.specs.Collecting.{Starts};
ghost use Rattle.type1_to_type2.specs.Entry.{group_count};

use crate::GroupStart;
use folding::Fold;
use outline::{CURVE, ENTRY, FLEX, GROUP, LINE, MOVE};

// The group that entry e starts, if it starts one.
pub(crate) fn group_start(commands: &[u64], e: usize) -> Option<GroupStart>
    requires { entry_words * e + entry_words ≤ length commands.now }
    ensures { Starts commands.now e result }
{
    let at = ENTRY * e;
    if commands[at] != GROUP {
        return None;
    }
    Some(GroupStart {
        first: commands[at + 1] as usize,
        count: commands[at + 2] as usize,
    })
}

// How many entries start a group.
pub(crate) fn count_groups(commands: &[u64], entries: usize) -> usize
    requires { entry_words * entries ≤ length commands.now }
    ensures { result ≡ group_count entries commands.now }
{
    let mut groups = 0;
    for e in 0..entries {
        if commands[ENTRY * e] == GROUP {
            groups += 1;
        }
    }
    groups
}

// Whether the folded point whose words begin at a place is finite.
fn check_point(commands: &[u64], at: usize, fold: Fold) -> bool
    requires at_in_bounds { at + 2 ≤ length commands.now }
    requires good { Good (of_bits binary64 (get_or commands.now at 0)) × Good (of_bits binary64 (get_or commands.now (at + 1) 0)) }
    ensures { result ≡ finite_point (folded_point fold
        (record { x = of_bits binary64 (get_or commands.now at 0); y = of_bits binary64 (get_or commands.now (at + 1) 0) })) }
{
    let x = f64::from_bits(commands[at]);
    let y = f64::from_bits(commands[at + 1]);
    let p = fold.fold_point(x, y);
    binary64::is_finite(p.x) && binary64::is_finite(p.y)
}

// Whether every folded coordinate of entry e is finite.
fn check_points(commands: &[u64], e: usize, fold: Fold) -> bool
    requires entry_words_in_bounds { entry_words * e + entry_words ≤ length commands.now }
    requires all { All (OfCommand Good) (command_in commands.now e) }
    ensures { result ≡ finite_list (folded_list fold (command_in commands.now e)) }
{
    let at = ENTRY * e;
    match commands[at] {
        MOVE => check_point(commands, at + 1, fold),
        LINE => check_point(commands, at + 1, fold),
        CURVE => {
            check_point(commands, at + 1, fold)
                && check_point(commands, at + 3, fold)
                && check_point(commands, at + 5, fold)
        }
        FLEX => {
            check_point(commands, at + 1, fold)
                && check_point(commands, at + 3, fold)
                && check_point(commands, at + 5, fold)
                && check_point(commands, at + 7, fold)
                && check_point(commands, at + 9, fold)
                && check_point(commands, at + 11, fold)
        }
        _ => true,
    }
}

// The same, at once under the identity: every coordinate in the store is finite.
fn check_entry(commands: &[u64], e: usize, fold: Fold) -> bool
    requires entry_words_in_bounds { entry_words * e + entry_words ≤ length commands.now }
    requires all { All (OfCommand Good) (command_in commands.now e) }
    ensures { result ≡ finite_list (folded_list fold (command_in commands.now e)) }
{
    fold.identity || check_points(commands, e, fold)
}

// Whether the folded points of all entries are finite.
pub(crate) fn finite_points(commands: &[u64], entries: usize, fold: Fold) -> bool
    requires { (entry_words * entries ≤ length commands.now) × ((e : ℕ) → e < entries → All (OfCommand Good) (command_in commands.now e)) }
    ensures { result ≡ finite_list (folded_list fold (drawn_in entries commands.now)) }
{
    for e in 0..entries {
        if !check_entry(commands, e, fold) {
            return false;
        }
    }
    true
}
