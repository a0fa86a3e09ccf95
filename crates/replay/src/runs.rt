// A run: its answer, groups and commands against the vector's.
use crate::lent::{command_store, is_wiped};
use crate::vector::Vector;
use crate::{AfterRun, run};
use compare::{from_pattern, same};
use outline::{ENTRY, GROUP, Stem};
use type1::Reading;

// The record is the vector's.
fn is_stem(s: Stem, v: &mut Vector) -> Option<bool> {
    Some(
        u64::from(s.horizontal) == v.number()?
            && same(s.pos, v.double()?)
            && same(s.width, v.double()?),
    )
}

// So many records from one on are the vector's stems.
fn are_stems(stems: &[Stem], first: usize, count: usize, v: &mut Vector) -> Option<bool> {
    for s in stems.get(first..)?.get(..count)? {
        if !is_stem(*s, v)? {
            return Some(false);
        }
    }
    Some(true)
}

// Word k of an entry; 0 beyond the end.
fn word(entry: &[u64], k: usize) -> u64 {
    entry.get(k).copied().unwrap_or(0)
}

// The words of so many entries.
fn entry_words(words: &[u64], entries: usize) -> Option<&[u64]> {
    words.get(..entries.checked_mul(ENTRY)?)
}

// A group's entry, whose records begin at `used`, is the vector's group.
fn is_group(entry: &[u64], used: usize, stems: &[Stem], v: &mut Vector) -> Option<bool> {
    let count = word(entry, 2);
    if word(entry, 1) != used as u64 || count != v.number()? {
        return Some(false);
    }
    are_stems(stems, used, count as usize, v)
}

// The groups are the vector's, which begin with their count.
// A group's entry has the first of its records, which follow those of the group before, and their count.
fn has_groups(words: &[u64], stems: &[Stem], count: usize, v: &mut Vector) -> Option<bool> {
    let groups = v.size()?;
    let mut seen: usize = 0;
    let mut used: usize = 0;
    for entry in words.chunks(ENTRY) {
        if word(entry, 0) == GROUP {
            if !is_group(entry, used, stems, v)? {
                return Some(false);
            }
            seen = seen.saturating_add(1);
            used = used.saturating_add(word(entry, 2) as usize);
        }
    }
    Some(seen == groups && used == count)
}

// How many numbers a vector's command has.
fn numbers_of(kind: u64) -> usize {
    match kind {
        0 | 1 => 2,
        2 => 6,
        3 => 13,
        _ => 0,
    }
}

// The start of a group, among a vector's commands: its number.
const START: u64 = 4;

// The entry is the vector's command. A group's start has the group's number.
fn is_command(entry: &[u64], group: u64, v: &mut Vector) -> Option<bool> {
    let kind = v.number()?;
    if word(entry, 0) != kind.saturating_add(1) {
        return Some(false);
    }
    for w in entry.iter().skip(1).take(numbers_of(kind)) {
        if !same(from_pattern(*w), v.double()?) {
            return Some(false);
        }
    }
    Some(kind != START || v.number()? == group)
}

// The commands are the vector's, which begin with their count.
fn has_commands(words: &[u64], entries: usize, v: &mut Vector) -> Option<bool> {
    if v.size()? != entries {
        return Some(false);
    }
    let mut groups: u64 = 0;
    for entry in words.chunks(ENTRY) {
        if !is_command(entry, groups, v)? {
            return Some(false);
        }
        if word(entry, 0) == GROUP {
            groups = groups.saturating_add(1);
        }
    }
    Some(true)
}

fn is_blank(s: Stem) -> bool {
    !s.horizontal && same(s.pos, 0.0) && same(s.width, 0.0)
}

pub(crate) fn all_blank(stems: &[Stem]) -> bool {
    stems.iter().all(|s| is_blank(*s))
}

// A refused run: all but the number are 0, and both stores are zero.
fn is_refusal(words: &[u64], r: AfterRun) -> bool {
    let answer = r.answer;
    same(answer.width, 0.0)
        && answer.ran == 0
        && answer.entries == 0
        && answer.stems == 0
        && is_wiped(words, words.len())
        && all_blank(&r.stems)
}

// A run that is not refused: width, bytes run, groups and commands are the vector's.
fn is_ended(words: &[u64], r: AfterRun, v: &mut Vector) -> Option<bool> {
    let answer = r.answer;
    let words = entry_words(words, answer.entries)?;
    Some(
        same(answer.width, v.double()?)
            && answer.ran == v.size()?
            && has_groups(words, &r.stems, answer.stems, v)?
            && has_commands(words, answer.entries, v)?,
    )
}

// The run is that of the vector's results.
fn is_run(words: &[u64], r: AfterRun, v: &mut Vector) -> Option<bool> {
    let number = v.number()?;
    if r.answer.number != number {
        return Some(false);
    }
    if number != 0 {
        return Some(is_refusal(words, r));
    }
    is_ended(words, r, v)
}

pub(crate) fn compare_run(v: &mut Vector) -> Option<bool> {
    let reading = Reading::new(v.size()?);
    let charstring = v.string()?;
    let bank = v.string()?;
    let mut words = command_store();
    let r = run(charstring, bank, reading, &mut words);
    is_run(&words, r, v)
}
