//! The Type 2 machine. Its definition is in specs/Machine.antt; here a finished charstring is read operator by
//! operator, as the machine reads it.
#![tactic(auto)]

ghost use Rattle.std.specs.Prelude.{◌≡◌, true};
ghost use Rattle.renderer.specs.Reader.{number_draws};

mod numbers;
mod opcodes;
mod operators;
mod path;

use operators::find;
pub use path::Position;

/// What an operator does.
#[derive(Clone, Copy, Debug, PartialEq, Eq)]
pub enum Operation {
    Stems,
    Mask,
    Move,
    Lines,
    Curves,
    Flex,
    End,
}

impl Operation {
    ghost use Rattle.renderer.specs.Reader.{is_drawing};

    /// Whether it draws: a move, lines, curves or a flex.
    pub fn is_drawing(self) -> bool
        ensures { result ≡ is_drawing self }
    {
        matches!(
            self,
            Operation::Move | Operation::Lines | Operation::Curves | Operation::Flex
        )
    }
}

/// Whether the operation of a number draws: 1 stems, 19 a mask, 21 a move, 5 lines, 8 curves, 12 a flex, 14 the end. It
/// stands beside the method, since it was promised of every number.
pub fn is_drawing(code: u32) -> bool
    ensures { result ≡ number_draws code }
{
    matches!(code, 21 | 5 | 8 | 12)
}

/// Where a reader stands between two operators: the place in the program, whether an operator has run, how many
/// stems are declared, and the point.
#[derive(Clone, Copy)]
pub struct Reader {
    pub at: usize,
    pub begun: bool,
    pub stems: usize,
    pub position: Position,
}

/// An operator that comes. Its operands stand in the lent array from `first` to before `end`, each as its units of
/// 1/65536 and 2 ^ 31; where `first` is 1, the width stands at 0. Every move has two operands. A mask's bytes end
/// where the reader then stands.
#[derive(Clone, Copy)]
pub struct Operator {
    pub operation: Operation,
    pub first: usize,
    pub end: usize,
    pub after: Reader,
}

impl Reader {
    ghost use Rattle.renderer.specs.Reader.{is_possible, first_reader, Comes};

    /// At the first byte, with nothing read.
    pub fn new() -> Reader
        ensures { result ≡ first_reader }
    {
        Reader {
            at: 0,
            begun: false,
            stems: 0,
            position: Position {
                x: 2305843009213693952,
                y: 2305843009213693952,
            },
        }
    }

    // Whether a run can stand so: at most 96 stems, and a point within 2 ^ 60 units.
    fn is_possible(self) -> bool
        ensures { result ≡ is_possible self }
    {
        self.stems <= 96 && self.position.is_near()
    }

    // The next operator where a run can stand, with the point after it; none where the machine faults.
    fn coming(self, program: &[u8], ops: &mut [u32; 48]) -> Option<Operator>
        requires { is_possible self ≡ true }
        ensures { Comes program.now «self» ops.new result }
    {
        let operator = find(program, self, ops)?;
        if !operator.operation.is_drawing() {
            return Some(operator);
        }
        let position = self.position.follow(&ops[operator.first..operator.end])?;
        Some(Operator {
            after: Reader {
                position,
                ..operator.after
            },
            ..operator
        })
    }

    /// The next operator, and where the reader stands after it; none where the machine faults, and where no run can
    /// stand.
    pub fn next(self, program: &[u8], ops: &mut [u32; 48]) -> Option<Operator>
        ensures { Comes program.now «self» ops.new result }
    {
        if !self.is_possible() {
            return None;
        }
        self.coming(program, ops)
    }
}
