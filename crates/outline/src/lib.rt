//! The vocabulary of outlines: stem records, and the entries of the command store.
#![tactic(auto)]

ghost use Rattle.std.specs.Prelude.{◌≡◌, get_or};
ghost use Rattle.outline.specs.Outline.{same_stem, zero_stem};

// A stem hint in absolute character-space coordinates, in C's layout.
#[repr(C)]
#[derive(Clone, Copy, PartialEq)]
pub struct Stem {
    // A horizontal stem (`hstem`), which constrains y.
    pub horizontal: bool,
    // The stem's first edge.
    pub pos: f64,
    // Distance to its second edge; -20 and -21 mark edge (ghost) hints.
    pub width: f64,
}

// Words of an entry of the command store: its kind, then coordinates as the bits of f64, or numbers.
pub const ENTRY: usize = 14;

// Kinds of entries: words of the store, which the run writes and the passes compare, so no enum with its conversions.
pub const MOVE: u64 = 1;

pub const LINE: u64 = 2;

pub const CURVE: u64 = 3;

pub const FLEX: u64 = 4;

pub const GROUP: u64 = 5;

// Whether two stems are equal, as numbers.
pub fn same_stem(a: Stem, b: Stem) -> bool
    ensures { result ≡ same_stem a b }
{
    a == b
}

// The record at a place of the stem store; the zero record beyond its end. The store is lent as `&mut` to whoever reads it.
pub fn stem_from(stems: &mut [Stem], i: usize) -> Stem
    ensures { (result ≡ get_or stems.old i zero_stem) × (stems.new ≡ stems.old) }
{
    stems.get(i).copied().unwrap_or(Stem {
        horizontal: false,
        pos: 0.0,
        width: 0.0,
    })
}
