//! Compares our functions with vectors recorded from the Rust, with Adobe's number examples and with boxes that the oracle states
//! (tools/oracle/VECTORS.md has their layout).
//! Prints for each file of vectors its name, how many were compared and how many differ, then the sums.
#![tactic(auto)]

ghost use Rattle.std.specs.Prelude.{◌≡◌, length, replicate};
ghost use Rattle.type1.specs.Interpret.{source_of, outcome, Leaves};
ghost use Rattle.type1_to_type2.specs.Convert.{rooms_with};
ghost use Rattle.type1_to_type2.specs.Entry.{ConvertsFrom};
ghost use Rattle.replay.specs.Stores.{used_stem, after_run, after_converting};

mod bounds;
mod doubles;
mod files;
mod glyphs;
mod kind;
mod lent;
mod parts;
mod runs;
mod vector;

use doubles::is_double;
use files::{Tally, replay};
use kind::{KINDS, Kind};
use std::io;
use type1::Reading;
use vector::Vector;

// The stem records of a store.
const RECORDS: usize = 512;

// The stem store before a call: no record is zero.
fn stem_store() -> [outline::Stem; RECORDS]
    ensures { result ≡ replicate 512 used_stem }
{
    let used = outline::Stem {
        horizontal: true,
        pos: 0.0,
        width: 0.0,
    };
    [used; RECORDS]
}

// What a run answers, and the stem store after it.
#[derive(Drop)]
struct AfterRun {
    answer: type1::Interpreted,
    stems: [outline::Stem; RECORDS],
}

fn with_stems(answer: type1::Interpreted, stems: [outline::Stem; RECORDS]) -> AfterRun
    ensures { result ≡ after_run answer stems }
{
    AfterRun { answer, stems }
}

// Runs a charstring with a stem store of its own.
fn run(charstring: &[u8], bank: &[u8], reading: Reading, words: &mut [u64]) -> AfterRun
    ensures { Leaves result.answer words.new result.stems words.old (replicate 512 used_stem)
        (outcome (source_of charstring.now bank.now) reading 512 (length words.old)) }
{
    let mut stems = stem_store();
    let answer = type1::run_charstring(charstring, bank, reading, words, &mut stems);
    with_stems(answer, stems)
}

// What converting answers, and the stem store after it.
#[derive(Drop)]
struct AfterConverting {
    answer: type1_to_type2::Type2Glyph,
    stems: [outline::Stem; RECORDS],
}

fn with_records(
    answer: type1_to_type2::Type2Glyph,
    stems: [outline::Stem; RECORDS],
) -> AfterConverting
    ensures { result ≡ after_converting answer stems }
{
    AfterConverting { answer, stems }
}

// Converts a charstring with a stem store of its own.
fn convert(
    charstring: &[u8],
    bank: &[u8],
    reading: Reading,
    matrix: geometry::Matrix,
    words: &mut [u64],
    out: &mut [u8],
) -> AfterConverting
    ensures { ConvertsFrom (source_of charstring.now bank.now) reading matrix (rooms_with 512 words.old out.old)
        result.answer result.stems words.new out.new }
{
    let mut stems = stem_store();
    let answer = type1_to_type2::convert_charstring_transformed(
        charstring, bank, reading, matrix, &mut stems, words, out,
    );
    with_records(answer, stems)
}

// The most bytes of a charstring that is nothing but `09`.
const LONG: usize = 1048577;

fn closepaths() -> [u8; LONG]
    ensures { 1048577 ≡ length result }
{
    [9; LONG]
}

// Converts so many bytes `09`, not encrypted.
fn convert_closepaths(n: usize, bank: &[u8], words: &mut [u64], out: &mut [u8]) -> AfterConverting {
    let code = closepaths();
    convert(
        code.get(..n).unwrap_or(b""),
        bank,
        Reading::new(usize::MAX),
        geometry::Matrix::identity(),
        words,
        out,
    )
}

// Our function gives what the vector says; None where the vector is cut, or asks for more than is lent.
fn compare_fields(kind: Kind, v: &mut Vector) -> Option<bool> {
    match kind {
        Kind::Round => is_double(binary64::round(v.double()?), v),
        Kind::Floor => is_double(binary64::floor(v.double()?), v),
        Kind::Abs => is_double(binary64::abs(v.double()?), v),
        Kind::IsFinite => doubles::compare_is_finite(v),
        Kind::ToUsize => doubles::compare_to_usize(v),
        Kind::ToI64 => doubles::compare_to_i64(v),
        Kind::Round10 => is_double(geometry::round10(v.double()?), v),
        Kind::TransformPoint => doubles::compare_transform_point(v),
        Kind::TransformDelta => doubles::compare_transform_delta(v),
        Kind::DecryptCharstring => parts::compare_decrypt_charstring(v),
        Kind::Quantize => is_double(type2::quantize(v.double()?), v),
        Kind::PushNumber | Kind::AdobeNumbers => parts::compare_push_number(v),
        Kind::ChooseWidths => parts::compare_choose_widths(v),
        Kind::Run => runs::compare_run(v),
        Kind::Convert => glyphs::compare_convert(v, false),
        Kind::Strict => glyphs::compare_convert(v, true),
        Kind::Finish => glyphs::compare_finish(v),
        Kind::Closepaths => glyphs::compare_closepaths(v),
        Kind::GlyphBox => bounds::compare_glyph_box(v),
        Kind::BoxOfRun => bounds::compare_box_of_run(v),
    }
}

// Our function gives what a payload says, to its end. A vector of another kind than its file's counts as different.
fn compare(kind: Kind, payload: &[u8]) -> bool {
    let mut v = Vector::new(kind.form(), payload);
    v.byte() == Some(kind.byte()) && compare_fields(kind, &mut v) == Some(true) && v.is_at_end()
}

fn main(rt: HostRuntime) -> io::Result<()> {
    let mut total = Tally::default();
    for kind in KINDS {
        total = total + replay(&rt, kind)?;
    }
    println!(rt; "total: {total}")
}
