// Converting and finishing: answer, output and stores against the vector's.
use crate::lent::{command_store, is_wiped, is_written, output};
use crate::runs::all_blank;
use crate::vector::{Vector, refusal_number};
use crate::{AfterConverting, convert, convert_closepaths};
use compare::{holds, same};
use type1::Reading;
use type1_to_type2::Type2Glyph;
use type2::Widths;

// A vector's results: number, width, bytes run and program.
#[derive(Clone, Copy)]
struct Converted<'a> {
    number: u64,
    width: f64,
    ran: usize,
    program: &'a [u8],
}

fn results<'a>(v: &mut Vector<'a>) -> Option<Converted<'a>> {
    Some(Converted {
        number: v.number()?,
        width: v.double()?,
        ran: v.size()?,
        program: v.string()?,
    })
}

// The answer is the vector's, and the stem store is zero.
fn is_converted(r: AfterConverting, want: Converted) -> bool {
    let g = r.answer;
    g.number == want.number
        && same(g.width, want.width)
        && g.ran == want.ran
        && g.len == want.program.len()
        && all_blank(&r.stems)
}

// Converts with so many words and bytes: the vector's answer, the program and zeros, the stores zero, and nothing
// behind what is lent changes.
pub(crate) fn compare_convert(v: &mut Vector, strict: bool) -> Option<bool> {
    let matrix = v.matrix()?;
    let len_iv = v.size()?;
    let charstring = v.string()?;
    let bank = v.string()?;
    let room = v.size()?;
    let bytes = v.size()?;
    let want = results(v)?;
    let mut words = command_store();
    let mut out = output();
    if room > words.len() || bytes > out.len() {
        return None;
    }
    let r = convert(
        charstring,
        bank,
        Reading { len_iv, strict },
        matrix,
        &mut words[..room],
        &mut out[..bytes],
    );
    Some(is_converted(r, want) && is_written(&out, bytes, want.program) && is_wiped(&words, room))
}

pub(crate) fn compare_closepaths(v: &mut Vector) -> Option<bool> {
    let n = v.size()?;
    let bank = v.string()?;
    let want = results(v)?;
    let mut words = command_store();
    let mut out = output();
    let r = convert_closepaths(n, bank, &mut words, &mut out);
    Some(is_converted(r, want) && holds(&out, want.program, 0) && is_wiped(&words, words.len()))
}

// Finishes a glyph into a part of the output: the vector's number, the bytes, then zeros; behind the part nothing
// changes.
pub(crate) fn compare_finish(v: &mut Vector) -> Option<bool> {
    let width = v.double()?;
    let program = v.string()?;
    let widths = Widths {
        default_width_x: v.double()?,
        nominal_width_x: v.double()?,
    };
    let room = v.size()?;
    let number = v.number()?;
    let bytes = v.string()?;
    let mut out = output();
    if room > out.len() {
        return None;
    }
    let glyph = Type2Glyph {
        number: 0,
        len: program.len(),
        width,
        ran: 0,
    };
    let f = glyph.charstring(program, widths, &mut out[..room]);
    Some(
        refusal_number(f) == number
            && f.unwrap_or(0) == bytes.len()
            && is_written(&out, room, bytes),
    )
}
