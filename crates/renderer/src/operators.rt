// Operators: which one comes, and whether its operands are those it takes. TN#5177, section 4.
ghost use Rattle.std.specs.Prelude.{◌≡◌, ◌≤◌, length};
ghost use Rattle.renderer.specs.Reads.{after_mask, Finds};

use crate::numbers::{Numbers, ZERO, operands};
use crate::opcodes::Opcode;
use crate::{Operation, Operator, Reader};

// How many stems the machine declares at most.
const MOST_STEMS: usize = 96;

const POWERS: [u8; 8] = [1, 2, 4, 8, 16, 32, 64, 128];

// The place after a mask of so many stems; none where its bytes are cut or a spare bit is set.
fn after_mask(program: &[u8], at: usize, stems: usize) -> Option<usize>
    requires { (stems ≤ 96) × (at ≤ length program.now) }
    ensures { result ≡ after_mask program.now at stems }
{
    let k = stems.div_ceil(8);
    if program.len() - at < k {
        return None;
    }
    if stems == 0 {
        return Some(at);
    }
    let last = program[at + k - 1];
    (last % POWERS[k * 8 - stems] == 0).then_some(at + k)
}

// The operator that comes, with the point as it was before it.
pub(crate) fn find(program: &[u8], from: Reader, ops: &mut [u32; 48]) -> Option<Operator>
    requires { from.stems ≤ 96 }
    ensures { Finds program.now from ops.new result }
{
    let Numbers { byte, count, next } = operands(program, from.at, ops)?;
    let opcode = Opcode::read(program, next, byte)?;
    let first = opcode.first_operand(count, from.begun)?;
    let after = Reader {
        at: next,
        begun: true,
        ..from
    };
    let found = Operator {
        operation: Operation::End,
        first,
        end: count,
        after,
    };
    match opcode {
        Opcode::Stem => {
            let stems = from.stems + (count - first) / 2;
            (stems <= MOST_STEMS).then_some(Operator {
                operation: Operation::Stems,
                after: Reader { stems, ..after },
                ..found
            })
        }
        Opcode::HintMask => {
            let at = after_mask(program, next, from.stems)?;
            Some(Operator {
                operation: Operation::Mask,
                after: Reader { at, ..after },
                ..found
            })
        }
        Opcode::RMoveTo => Some(Operator {
            operation: Operation::Move,
            ..found
        }),
        Opcode::HMoveTo => {
            ops[count] = ZERO;
            Some(Operator {
                operation: Operation::Move,
                end: count + 1,
                ..found
            })
        }
        Opcode::VMoveTo => {
            ops[count] = ops[first];
            ops[first] = ZERO;
            Some(Operator {
                operation: Operation::Move,
                end: count + 1,
                ..found
            })
        }
        Opcode::RLineTo => Some(Operator {
            operation: Operation::Lines,
            ..found
        }),
        Opcode::RRCurveTo => Some(Operator {
            operation: Operation::Curves,
            ..found
        }),
        Opcode::EscapeFlex => Some(Operator {
            operation: Operation::Flex,
            after: Reader {
                at: next + 1,
                ..after
            },
            ..found
        }),
        Opcode::EndChar => Some(found),
    }
}
