// What finishing writes (document 01, "Finishing").
ghost use Rattle.std.specs.Prelude.{◌≡◌, length};
ghost use Rattle.type1_to_type2.specs.Finish.{finish};
ghost use Rattle.type1_to_type2.specs.FinishAnswer.{Wrote};

use refusal::Refusal;
use type2::Widths;

// Bytes copied one by one: the archive has no `memmove` to call.
fn copy(from: &[u8], to: &mut [u8])
    requires { length to.old ≡ length from.now }
    ensures { to.new ≡ from.now }
{
    for (i, &b) in from.iter().enumerate() {
        to[i] = b;
    }
}

// The width, where one is put, and then the program; how many bytes they are.
pub(crate) fn put_charstring(
    width: f64,
    program: &[u8],
    widths: Widths,
    out: &mut [u8],
) -> Result<usize, Refusal>
    ensures { Wrote (length out.old) (finish width program.now widths (length out.old)) result out.new }
{
    let at = type2::push_width(out, width, widths)?;
    if out.len() - at < program.len() {
        return Err(Refusal::OutputShort);
    }
    let end = at + program.len();
    copy(program, &mut out[at..end]);
    Ok(end)
}
