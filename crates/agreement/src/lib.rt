//! Demand 3, and the entry that converts and finishes in one call.
#![tactic(auto)]

ghost use Rattle.std.specs.Prelude.{◌≡◌, length, replicate};
ghost use Rattle.type1.specs.Interpret.{source_of};
ghost use Rattle.type1_to_type2.specs.Convert.{rooms_of};
ghost use Rattle.agreement.specs.Finished.{refusal, Finishes, ConvertsFinished};

use geometry::Matrix;
use outline::Stem;
use type1::Reading;
use type1_to_type2::Type2Glyph;
use type2::Widths;

// Every byte becomes 0.
fn wipe_bytes(bytes: &mut [u8])
    ensures { bytes.new ≡ replicate (length bytes.old) 0 }
{
    stores::zero_from(bytes, 0);
}

// A refusal: all but the number are 0.
fn refused(number: u64) -> Type2Glyph
    ensures { result ≡ refusal number }
{
    Type2Glyph {
        number: number,
        len: 0,
        width: 0.0,
        ran: 0,
    }
}

// The glyph's charstring into the output, with its length.
fn finish_glyph(glyph: Type2Glyph, widths: Widths, program: &[u8], out: &mut [u8]) -> Type2Glyph
    ensures { Finishes glyph widths program.now (length out.old) result out.new }
{
    let is_refused = glyph.number != 0;
    if is_refused {
        wipe_bytes(out);
        return refused(glyph.number);
    }
    match glyph.charstring(program, widths, out) {
        Ok(len) => Type2Glyph { len, ..glyph },
        Err(e) => refused(e.number() as u64),
    }
}

// Converts a Type 1 charstring under a matrix and finishes it for a font's widths. `program` is a working
// store for the program. Where the number is 0, demand 3 holds of the bytes in the output.
pub fn convert_finished(
    charstring: &[u8],
    bank: &[u8],
    reading: Reading,
    matrix: Matrix,
    widths: Widths,
    stems: &mut [Stem],
    commands: &mut [u64],
    program: &mut [u8],
    out: &mut [u8],
) -> Type2Glyph
    ensures { ConvertsFinished (source_of charstring.now bank.now) reading matrix widths
        (rooms_of stems.old commands.old program.old) (length out.old)
        result stems.new commands.new program.new out.new }
{
    let g = type1_to_type2::convert_charstring_transformed(
        charstring, bank, reading, matrix, stems, commands, program,
    );
    let r = finish_glyph(g, widths, program, out);
    wipe_bytes(program);
    r
}
