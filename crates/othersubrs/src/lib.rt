//! OtherSubrs: the arguments that callothersubr takes and hands back, when a flex is drawn, and when setcurrentpoint is a move.
#![tactic(auto)]

ghost use Rattle.std.specs.Prelude.{◌≡◌, length};
ghost use Rattle.refusal.specs.Refusal.{number_in};
ghost use Rattle.othersubrs.specs.OtherSubrs.{taken, hand_number, handed_back, whole_flex, is_move};

use refusal::Refusal;

// How many arguments a callothersubr takes, with so many operands held, of which the upper two are the argument count and the OtherSubr's number.
pub fn arguments(held: usize, count: f64) -> Result<usize, Refusal>
    ensures { result ≡ taken held count }
{
    if held < 2 {
        return Err(Refusal::MissingOperands);
    }
    let left = held - 2;
    if count >= 0.0 {
        let n = binary64::to_usize(count);
        if n <= left {
            return Ok(n);
        }
    }
    Err(Refusal::MissingOperands)
}

// The arguments are put on a PostScript stack that holds so many numbers, the last first.
pub fn hand_back(args: &[f64], held: usize, stack: &mut [f64; 256]) -> Result<(), Refusal>
    ensures value { number_in result ≡ hand_number held (length args.now) }
    ensures stack_after { stack.new ≡ handed_back args.now held stack.old }
{
    let n = args.len();
    let most = stack.len();
    if most < held || most - held < n {
        return Err(Refusal::StackFull);
    }
    for i in 0..n {
        stack[held + i] = args[n - 1 - i];
    }
    Ok(())
}

// Whether a flex that has collected so many points may be drawn.
pub fn is_whole_flex(flexing: bool, points: usize) -> bool
    ensures { result ≡ whole_flex flexing points }
{
    flexing && points == 7
}

// Whether setcurrentpoint to another point lists a move.
pub fn is_move(opened: bool, flexing: bool) -> bool
    ensures { result ≡ is_move opened flexing }
{
    opened && !flexing
}
