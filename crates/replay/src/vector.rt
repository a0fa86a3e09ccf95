// Reads a vector, one field after the other; None where it is cut. tools/oracle/VECTORS.md has the layout.
use compare::from_pattern;
use geometry::Matrix;
use refusal::Refusal;

// How numbers are written: in 8 bytes, or in as many as a byte before them says.
#[derive(Clone, Copy, PartialEq, Eq)]
pub(crate) enum Form {
    Long,
    Short,
}

// What is left of a vector.
#[derive(Drop)]
pub(crate) struct Vector<'a> {
    form: Form,
    left: &'a [u8],
}

// The number that bytes make, of which the last 8 count.
fn big_endian(bytes: &[u8]) -> u64 {
    let mut n: u64 = 0;
    for b in bytes {
        n = (n << 8) | u64::from(*b);
    }
    n
}

impl<'a> Vector<'a> {
    pub(crate) fn new(form: Form, payload: &'a [u8]) -> Vector<'a> {
        Vector {
            form,
            left: payload,
        }
    }

    pub(crate) fn is_at_end(&self) -> bool {
        self.left.is_empty()
    }

    fn bytes(&mut self, n: usize) -> Option<&'a [u8]> {
        let left = self.left;
        if left.len() < n {
            return None;
        }
        let (front, left) = left.split_at(n);
        self.left = left;
        Some(front)
    }

    pub(crate) fn byte(&mut self) -> Option<u8> {
        let (b, left) = self.left.split_first()?;
        self.left = left;
        Some(*b)
    }

    pub(crate) fn number(&mut self) -> Option<u64> {
        let n = match self.form {
            Form::Long => 8,
            Form::Short => usize::from(self.byte()?),
        };
        Some(big_endian(self.bytes(n)?))
    }

    pub(crate) fn size(&mut self) -> Option<usize> {
        Some(self.number()? as usize)
    }

    pub(crate) fn string(&mut self) -> Option<&'a [u8]> {
        let n = self.size()?;
        self.bytes(n)
    }

    pub(crate) fn double(&mut self) -> Option<f64> {
        Some(from_pattern(self.number()?))
    }

    // In two's complement; or, where numbers are short, half of the number, or where it is odd as far below -1 as its half
    // is above 0.
    pub(crate) fn signed(&mut self) -> Option<i64> {
        let n = self.number()?;
        Some(match self.form {
            Form::Long => n.cast_signed(),
            Form::Short if n % 2 == 0 => (n / 2).cast_signed(),
            Form::Short => !(n / 2).cast_signed(),
        })
    }

    pub(crate) fn matrix(&mut self) -> Option<Matrix> {
        Some(Matrix {
            a: self.double()?,
            b: self.double()?,
            c: self.double()?,
            d: self.double()?,
            tx: self.double()?,
            ty: self.double()?,
        })
    }
}

// The number of a refusal; 0 where there is none.
pub(crate) fn refusal_number<T: Copy>(r: Result<T, Refusal>) -> u64 {
    match r {
        Ok(_) => 0,
        Err(e) => u64::from(e.number()),
    }
}
