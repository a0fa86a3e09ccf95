//! The operand stack: what one operand more is refused with, and which of two refusals comes first.
#![tactic(auto)]

ghost use Rattle.std.specs.Prelude.{◌≡◌, ◌+◌, true, false, Err, IsOk};
ghost use Rattle.std.specs.Result.{result_and};
ghost use Rattle.refusal.specs.Refusal.{number_of, number_in};
ghost use Rattle.operand_stack.specs.Stack.{depth_of, overflow_of, operand_refusal};

use refusal::Refusal;

// How many operands fit.
fn depth(strict: bool) -> usize
    ensures { result ≡ depth_of strict }
{
    if strict { 24 } else { 256 }
}

// What the next one is refused with.
fn overflow(strict: bool) -> Refusal
    ensures { number_of result ≡ overflow_of strict }
{
    if strict {
        Refusal::StrictStackFull
    } else {
        Refusal::StackFull
    }
}

// Whether there is room for one operand more where so many are held.
pub fn room(held: usize, strict: bool) -> Result<(), Refusal>
    ensures { number_in result ≡ operand_refusal strict (held + 1) }
{
    if held < depth(strict) {
        Ok(())
    } else {
        Err(overflow(strict))
    }
}

// A refusal where something is refused. Generic, as a number may stand for a refusal.
pub fn refuse_if<E: Copy>(refused: bool, refusal: E) -> Result<(), E>
    ensures refused { refused ≡ true → result ≡ Err refusal }
    ensures free { refused ≡ false → IsOk result }
{
    if refused { Err(refusal) } else { Ok(()) }
}

// The first of two refusals, if there is one.
pub fn first<E: Copy>(a: Result<(), E>, b: Result<(), E>) -> Result<(), E>
    ensures { result ≡ result_and a b }
{
    a.and(b)
}
