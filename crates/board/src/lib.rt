//! The C interface of the board: each function wraps one entry, has its contract, writes what the entry
//! answers to lent words and returns the number. Crate `board_c` exports them to C.
#![tactic(auto)]

ghost use Rattle.std.specs.Prelude.{◌≡◌, length, replicate, T};
ghost use Rattle.std.specs.Float.Ieee.Scale.{finite};
ghost use Rattle.refusal.specs.Refusal.{number_in};
ghost use Rattle.charstring.specs.Charstring.{decrypted, written};
ghost use Rattle.type1.specs.Interpret.{source_of};
ghost use Rattle.type1_to_type2.specs.Convert.{rooms_of};
ghost use Rattle.type1_to_type2.specs.Finish.{finish};
ghost use Rattle.type1_to_type2.specs.FinishAnswer.{finished_of, finished_answer, finished_output};
ghost use Rattle.widths.specs.Widths.{chosen, zero_width};
ghost use Rattle.boxes.specs.Answers as Boxes;
ghost use Rattle.boxes.specs.Answers.{number_of, four_words, box_words, verdict_word};
ghost use Rattle.board.specs.Answers.{reading_with, matrix_of, widths_of, glyph_words, finished_words, decrypted_words, pair_of, window_of, boxed_words, BoardConverts, BoardFinishes};

use boxes::{Bounds, Boxed, Verdict};
use geometry::Matrix;
use outline::Stem;
use refusal::Refusal;
use type1::Reading;
use type1_to_type2::Type2Glyph;
use type2::Widths;

// The matrix of six entries: a, b, c, d, tx, ty.
fn matrix_of(m: &[f64; 6]) -> Matrix
    ensures { result ≡ matrix_of m.now }
{
    Matrix {
        a: m[0],
        b: m[1],
        c: m[2],
        d: m[3],
        tx: m[4],
        ty: m[5],
    }
}

// How charstrings with this lenIV are read. Bit 0 of the word makes the reading strict; the others have no meaning.
fn reading_of(len_iv: usize, reading: u64) -> Reading
    ensures { result ≡ reading_with len_iv reading }
{
    Reading {
        len_iv,
        strict: reading % 2 == 1,
    }
}

fn widths_of(default_width: f64, nominal_width: f64) -> Widths
    ensures { result ≡ widths_of default_width nominal_width }
{
    Widths {
        default_width_x: default_width,
        nominal_width_x: nominal_width,
    }
}

// The glyph's words into the answer; the number.
fn put_glyph(g: Type2Glyph, answer: &mut [u64; 4]) -> u64
    requires { T (finite g.width) }
    ensures { (result ≡ g.number) × (answer.new ≡ glyph_words g) }
{
    *answer = [g.number, g.len as u64, f64::to_bits(g.width), g.ran as u64];
    g.number
}

// `type1_to_type2::convert_charstring_transformed`. The answer: number, length, the width's bits, bytes run.
pub fn cribstork_convert(
    charstring: &[u8],
    bank: &[u8],
    len_iv: usize,
    reading: u64,
    matrix: &[f64; 6],
    stems: &mut [Stem],
    commands: &mut [u64],
    out: &mut [u8],
    answer: &mut [u64; 4],
) -> u64
    ensures { BoardConverts (source_of charstring.now bank.now) (reading_with len_iv reading) (matrix_of matrix.now)
        (rooms_of stems.old commands.old out.old)
        result stems.new commands.new out.new answer.new }
{
    let g = type1_to_type2::convert_charstring_transformed(
        charstring,
        bank,
        reading_of(len_iv, reading),
        matrix_of(matrix),
        stems,
        commands,
        out,
    );
    put_glyph(g, answer)
}

// The words of a finished charstring: the number, 0 if none, and the length, 0 on a refusal.
fn finished_words(f: Result<usize, Refusal>) -> [u64; 2]
    ensures { result ≡ finished_words (finished_of f) }
{
    match f {
        Ok(len) => [0, len as u64],
        Err(e) => [e.number() as u64, 0],
    }
}

// `Type2Glyph::charstring` of a glyph with this width and program. The answer: number, length.
pub fn cribstork_finish(
    width: f64,
    program: &[u8],
    default_width: f64,
    nominal_width: f64,
    out: &mut [u8],
    answer: &mut [u64; 2],
) -> u64
    ensures value { result ≡ (finished_answer (finish width program.now (widths_of default_width nominal_width) (length out.old))).number }
    ensures answer_after { answer.new ≡ finished_words (finished_answer (finish width program.now (widths_of default_width nominal_width) (length out.old))) }
    ensures out_after { out.new ≡ finished_output (length out.old) (finish width program.now (widths_of default_width nominal_width) (length out.old)) }
{
    let glyph = Type2Glyph {
        number: 0,
        len: program.len(),
        width,
        ran: 0,
    };
    let f = glyph.charstring(program, widths_of(default_width, nominal_width), out);
    let words = finished_words(f);
    *answer = [words[0], words[1]];
    words[0]
}

// `agreement::convert_finished`. `program` is a working store for the program. The answer: number, length,
// the width's bits, bytes run. Where the number is 0, demand 3 holds of the bytes in the output.
pub fn cribstork_convert_finished(
    charstring: &[u8],
    bank: &[u8],
    len_iv: usize,
    reading: u64,
    matrix: &[f64; 6],
    stems: &mut [Stem],
    commands: &mut [u64],
    program: &mut [u8],
    default_width: f64,
    nominal_width: f64,
    out: &mut [u8],
    answer: &mut [u64; 4],
) -> u64
    ensures { BoardFinishes (source_of charstring.now bank.now) (reading_with len_iv reading) (matrix_of matrix.now) (widths_of default_width nominal_width)
        (rooms_of stems.old commands.old program.old) (length out.old)
        result stems.new commands.new program.new out.new answer.new }
{
    let g = agreement::convert_finished(
        charstring,
        bank,
        reading_of(len_iv, reading),
        matrix_of(matrix),
        widths_of(default_width, nominal_width),
        stems,
        commands,
        program,
        out,
    );
    put_glyph(g, answer)
}

// `widths::choose_widths`. The pair: the default and the nominal width, 0 and 0 on a refusal.
pub fn cribstork_choose_widths(widths: &[f64], scratch: &mut [f64], pair: &mut [f64; 2]) -> u64
    ensures value { result ≡ number_in (chosen widths.now (length scratch.old)) }
    ensures pair_after { pair.new ≡ pair_of (chosen widths.now (length scratch.old)) }
    ensures scratch_after { scratch.new ≡ replicate (length scratch.old) zero_width }
{
    match widths::choose_widths(widths, scratch) {
        Ok(w) => {
            *pair = [w.default_width_x, w.nominal_width_x];
            0
        }
        Err(refusal) => {
            *pair = [0.0, 0.0];
            refusal.number() as u64
        }
    }
}

// `charstring::decrypt_charstring`. The answer: number, length.
pub fn cribstork_decrypt(data: &[u8], len_iv: usize, out: &mut [u8], answer: &mut [u64; 2]) -> u64
    ensures value { result ≡ number_in (decrypted len_iv «data».now (length out.old)) }
    ensures answer_after { answer.new ≡ decrypted_words (decrypted len_iv «data».now (length out.old)) }
    ensures out_after { out.new ≡ written len_iv «data».now (length out.old) }
{
    match charstring::decrypt_charstring(data, len_iv, out) {
        Ok(n) => {
            *answer = [0, n as u64];
            0
        }
        Err(refusal) => {
            let number = refusal.number() as u64;
            *answer = [number, 0];
            number
        }
    }
}

// The window of four words: the least x, the least y, the greatest x, the greatest y.
fn window_of(w: &[i64; 4]) -> Bounds
    ensures { result ≡ window_of w.now }
{
    Bounds {
        left: w[0],
        bottom: w[1],
        right: w[2],
        top: w[3],
    }
}

// 0 if the program was not refused.
fn number_of(a: Result<Boxed, Refusal>) -> u64
    ensures { result ≡ number_of a }
{
    match a {
        Err(refusal) => u64::from(refusal.number()),
        Ok(_) => 0,
    }
}

// The word for C: 1 within, 2 crossing, 3 outside; 0 on a refusal.
fn word_of(a: Result<Boxed, Refusal>) -> u64
    ensures { result ≡ verdict_word a }
{
    match a {
        Err(_) => 0,
        Ok(boxed) => match boxed.verdict {
            Verdict::Within => 1,
            Verdict::Crossing => 2,
            Verdict::Outside => 3,
        },
    }
}

// The box; zeros on a refusal.
fn bounds_of(a: Result<Boxed, Refusal>) -> Bounds
    ensures { four_words result ≡ box_words a }
{
    match a {
        Err(_) => Bounds {
            left: 0,
            bottom: 0,
            right: 0,
            top: 0,
        },
        Ok(boxed) => boxed.bounds,
    }
}

// The words of a box: least x, least y, greatest x, greatest y.
fn put_bounds(b: Bounds, bounds: &mut [i64; 4])
    ensures { bounds.new ≡ four_words b }
{
    *bounds = [b.left, b.bottom, b.right, b.top];
}

// `boxes::glyph_box` of a finished charstring. The box: least x, least y, greatest x, greatest y. The answer: number,
// then 1 within, 2 crossing, 3 outside.
pub fn cribstork_box(
    program: &[u8],
    window: &[i64; 4],
    bounds: &mut [i64; 4],
    answer: &mut [u64; 2],
) -> u64
    ensures value { result ≡ number_of (Boxes.answer program.now (window_of window.now)) }
    ensures bounds_after { bounds.new ≡ box_words (Boxes.answer program.now (window_of window.now)) }
    ensures answer_after { answer.new ≡ boxed_words (Boxes.answer program.now (window_of window.now)) }
{
    let a = boxes::glyph_box(program, window_of(window));
    put_bounds(bounds_of(a), bounds);
    *answer = [number_of(a), word_of(a)];
    number_of(a)
}
