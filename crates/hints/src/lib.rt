//! Stem hints: the stems in force, whether they can be the last group's, when a new group is refused, and which hints are
//! declared.
#![tactic(auto)]

ghost use Rattle.std.specs.Prelude.{◌≡◌, ◌≤◌};
ghost use Rattle.refusal.specs.Refusal.{number_in};
ghost use Rattle.hints.specs.Hints.{in_force, may_be_last, refused_group, are_few, need_masks};

use outline::{ENTRY, Stem};
use refusal::Refusal;

// Groups, and stems in force, at the most.
const MOST: usize = 256;

// Whether the stem equals one of so many in force, 256 at the most.
pub fn in_force(s: Stem, count: usize, edges: &[f64; 512], across: &[bool; 256]) -> bool
    ensures { result ≡ in_force count edges.now across.now s }
{
    for i in 0..count.min(MOST) {
        let t = Stem {
            horizontal: across[i],
            pos: edges[2 * i],
            width: edges[2 * i + 1],
        };
        if outline::same_stem(t, s) {
            return true;
        }
    }
    false
}

// Whether the stems in force can be the last group's: they changed, there is a group, and it has as many.
#[tactic(auto, unfolding(crate::specs::Hints::may_be_last))]
pub fn may_be_last(changed: bool, groups: usize, last: usize, count: usize) -> bool
    ensures { result ≡ may_be_last changed groups last count }
{
    changed && groups != 0 && last == count
}

// Whether there is room for a new group of n stems: of so many groups, with so many records used of the stem store's,
// and so many entries in a command store of so many words.
pub fn new_group(
    groups: usize,
    records: usize,
    used: usize,
    n: usize,
    words: usize,
    entries: usize,
) -> Result<(), Refusal>
    ensures { number_in result ≡ refused_group groups records used n words entries }
{
    if MOST <= groups || records < used || records - used < n {
        return Err(Refusal::StemsFull);
    }
    if words / ENTRY <= entries {
        return Err(Refusal::CommandsFull);
    }
    Ok(())
}

// Whether so many distinct stems of each direction are declared: 97 or more drop all hints.
pub fn are_few(across: usize, upright: usize) -> bool
    ensures { result ≡ are_few across upright }
{
    across < 97 && upright < 97 - across
}

// Whether hints need masks: there are two groups or more, and a stem left in one direction or the other.
pub fn need_masks(groups: usize, across: usize, upright: usize) -> bool
    ensures { result ≡ need_masks groups across upright }
{
    groups >= 2 && (across != 0 || upright != 0)
}
