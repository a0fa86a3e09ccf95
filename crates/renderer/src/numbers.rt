// Numbers, and the operands before an operator. TN#5177, section 3.2.
// An operand is held as its units of 1/65536 and 2 ^ 31, so that it is 0 to below 2 ^ 32.
ghost use Rattle.std.specs.Prelude.{◌≡◌, true, MatchOption};
ghost use Rattle.renderer.specs.Reads.{starts_number, IsCut, IsByte, Reads, Gathers};

// An operand of 0.
pub(crate) const ZERO: u32 = 2147483648;

// How many operands the machine holds at most.
const MOST: usize = 48;

// Whether a byte starts a number.
fn starts_number(b: u8) -> bool
    ensures { result ≡ starts_number b }
{
    matches!(b, 28 | 32..=255)
}

// The byte at a place.
fn byte(program: &[u8], at: usize) -> Option<u32>
    ensures { MatchOption result (IsCut program.now at) (IsByte program.now at) }
{
    program.get(at).map(|b| u32::from(*b))
}

// A number's value, and the place after it.
#[derive(Clone, Copy)]
struct Value {
    value: u32,
    next: usize,
}

// The number that starts with the byte b, of which the bytes after b begin at `at`.
fn number(program: &[u8], at: usize, b: u8) -> Option<Value>
    requires { starts_number b ≡ true }
    ensures { Reads b program.now at result }
{
    let first = u32::from(b);
    match b {
        0..=31 => {
            let high = byte(program, at)?;
            let low = byte(program, at + 1)?;
            let n = high * 256 + low;
            let value = if n < 32768 {
                n * 65536 + ZERO
            } else {
                n * 65536 - ZERO
            };
            Some(Value {
                value,
                next: at + 2,
            })
        }
        32..=246 => Some(Value {
            value: first * 65536 + 2138374144,
            next: at,
        }),
        247..=250 => {
            let second = byte(program, at)?;
            Some(Value {
                value: ((first - 247) * 256 + second + 108) * 65536 + ZERO,
                next: at + 1,
            })
        }
        251..=254 => {
            let second = byte(program, at)?;
            Some(Value {
                value: ZERO - ((first - 251) * 256 + second + 108) * 65536,
                next: at + 1,
            })
        }
        255 => {
            let second = byte(program, at)?;
            let third = byte(program, at + 1)?;
            let fourth = byte(program, at + 2)?;
            let fifth = byte(program, at + 3)?;
            let n = ((second * 256 + third) * 256 + fourth) * 256 + fifth;
            let value = if n < ZERO { n + ZERO } else { n - ZERO };
            Some(Value {
                value,
                next: at + 4,
            })
        }
    }
}

// The numbers up to an operator: the operator's first byte, how many numbers, and the place after that byte.
#[derive(Clone, Copy)]
pub(crate) struct Numbers {
    pub(crate) byte: u8,
    pub(crate) count: usize,
    pub(crate) next: usize,
}

pub(crate) fn operands(program: &[u8], from: usize, ops: &mut [u32; 48]) -> Option<Numbers>
    ensures { Gathers program.now from ops.new result }
{
    let mut at = from;
    let mut count = 0;
    // A number takes one to five bytes, so no iterator goes over them.
    while let Some(&b) = program.get(at) {
        if !starts_number(b) {
            return Some(Numbers {
                byte: b,
                count,
                next: at + 1,
            });
        }
        let number = number(program, at + 1, b)?;
        if MOST <= count {
            return None;
        }
        ops[count] = number.value;
        count += 1;
        at = number.next;
    }
    None
}
