//! The archive of the C interface: each function of `board` that the board calls, under its C name and with its contract.
//! `include/cribstork.h` declares them.
#![tactic(auto)]

ghost use Rattle.std.specs.Prelude.{◌≡◌, length, replicate};
ghost use Rattle.refusal.specs.Refusal.{number_in};
ghost use Rattle.charstring.specs.Charstring.{decrypted, written};
ghost use Rattle.type1.specs.Interpret.{source_of};
ghost use Rattle.type1_to_type2.specs.Convert.{rooms_of};
ghost use Rattle.type1_to_type2.specs.Finish.{finish};
ghost use Rattle.type1_to_type2.specs.FinishAnswer.{finished_answer, finished_output};
ghost use Rattle.widths.specs.Widths.{chosen, zero_width};
ghost use Rattle.boxes.specs.Answers as Boxes;
ghost use Rattle.boxes.specs.Answers.{number_of, box_words};
ghost use Rattle.board.specs.Answers.{reading_with, matrix_of, widths_of, finished_words, decrypted_words, pair_of, window_of, boxed_words, BoardConverts, BoardFinishes};

use outline::Stem;

// `type1_to_type2::convert_charstring_transformed`. The answer: number, length, the width's bits, bytes run.
#[unsafe(no_mangle)]
pub extern "C" fn cribstork_convert(
    charstring: &[u8],
    bank: &[u8],
    len_iv: usize,
    reading: u64,
    matrix: &[f64; 6],
    stems: &mut [Stem],
    commands: &mut [u64],
    out: &mut [u8],
    answer: &mut [u64; 4],
) -> u64
    ensures { BoardConverts (source_of charstring.now bank.now) (reading_with len_iv reading) (matrix_of matrix.now)
        (rooms_of stems.old commands.old out.old)
        result stems.new commands.new out.new answer.new }
{
    board::cribstork_convert(
        charstring, bank, len_iv, reading, matrix, stems, commands, out, answer,
    )
}

// `Type2Glyph::charstring` of a glyph with this width and program. The answer: number, length.
#[unsafe(no_mangle)]
pub extern "C" fn cribstork_finish(
    width: f64,
    program: &[u8],
    default_width: f64,
    nominal_width: f64,
    out: &mut [u8],
    answer: &mut [u64; 2],
) -> u64
    ensures value { result ≡ (finished_answer (finish width program.now (widths_of default_width nominal_width) (length out.old))).number }
    ensures answer_after { answer.new ≡ finished_words (finished_answer (finish width program.now (widths_of default_width nominal_width) (length out.old))) }
    ensures out_after { out.new ≡ finished_output (length out.old) (finish width program.now (widths_of default_width nominal_width) (length out.old)) }
{
    board::cribstork_finish(width, program, default_width, nominal_width, out, answer)
}

// `agreement::convert_finished`. `program` is a working store for the program. The answer: number, length,
// the width's bits, bytes run. Where the number is 0, demand 3 holds of the bytes in the output.
#[unsafe(no_mangle)]
pub extern "C" fn cribstork_convert_finished(
    charstring: &[u8],
    bank: &[u8],
    len_iv: usize,
    reading: u64,
    matrix: &[f64; 6],
    stems: &mut [Stem],
    commands: &mut [u64],
    program: &mut [u8],
    default_width: f64,
    nominal_width: f64,
    out: &mut [u8],
    answer: &mut [u64; 4],
) -> u64
    ensures { BoardFinishes (source_of charstring.now bank.now) (reading_with len_iv reading) (matrix_of matrix.now) (widths_of default_width nominal_width)
        (rooms_of stems.old commands.old program.old) (length out.old)
        result stems.new commands.new program.new out.new answer.new }
{
    board::cribstork_convert_finished(
        charstring,
        bank,
        len_iv,
        reading,
        matrix,
        stems,
        commands,
        program,
        default_width,
        nominal_width,
        out,
        answer,
    )
}

// `widths::choose_widths`. The pair: the default and the nominal width, 0 and 0 on a refusal.
#[unsafe(no_mangle)]
pub extern "C" fn cribstork_choose_widths(
    widths: &[f64],
    scratch: &mut [f64],
    pair: &mut [f64; 2],
) -> u64
    ensures value { result ≡ number_in (chosen widths.now (length scratch.old)) }
    ensures pair_after { pair.new ≡ pair_of (chosen widths.now (length scratch.old)) }
    ensures scratch_after { scratch.new ≡ replicate (length scratch.old) zero_width }
{
    board::cribstork_choose_widths(widths, scratch, pair)
}

// `charstring::decrypt_charstring`. The answer: number, length.
#[unsafe(no_mangle)]
pub extern "C" fn cribstork_decrypt(
    data: &[u8],
    len_iv: usize,
    out: &mut [u8],
    answer: &mut [u64; 2],
) -> u64
    ensures value { result ≡ number_in (decrypted len_iv «data».now (length out.old)) }
    ensures answer_after { answer.new ≡ decrypted_words (decrypted len_iv «data».now (length out.old)) }
    ensures out_after { out.new ≡ written len_iv «data».now (length out.old) }
{
    board::cribstork_decrypt(data, len_iv, out, answer)
}

// `boxes::glyph_box` of a finished charstring. The box: least x, least y, greatest x, greatest y. The answer: number,
// then 1 within, 2 crossing, 3 outside.
#[unsafe(no_mangle)]
pub extern "C" fn cribstork_box(
    program: &[u8],
    window: &[i64; 4],
    bounds: &mut [i64; 4],
    answer: &mut [u64; 2],
) -> u64
    ensures value { result ≡ number_of (Boxes.answer program.now (window_of window.now)) }
    ensures bounds_after { bounds.new ≡ box_words (Boxes.answer program.now (window_of window.now)) }
    ensures answer_after { answer.new ≡ boxed_words (Boxes.answer program.now (window_of window.now)) }
{
    board::cribstork_box(program, window, bounds, answer)
}
