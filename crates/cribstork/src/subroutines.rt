// The subroutine bank of a font: a count, the offsets, the bodies.
use crate::BANK_BYTES;
use crate::bytes::Span;
use crate::trouble::{Trouble, What};
use std::alloc::Global;

// The bytes of a subroutine; none where it is not defined.
fn body(text: &[u8], span: Option<Span>) -> &[u8] {
    match span {
        Some(span) => span.of(text),
        None => &[],
    }
}

// The bank of the listed subroutines: a count of two bytes, offsets of four, and the bodies.
pub(crate) fn build_bank(
    alloc: Global,
    text: &[u8],
    list: &[Option<Span>],
) -> Result<Vec<u8>, Trouble> {
    let mut bank = Vec::new(alloc);
    let mut offset: usize = 0;
    bank.extend_from_slice(&list.len().to_be_bytes()[6..])?;
    bank.extend_from_slice(&offset.to_be_bytes()[4..])?;
    for &span in list {
        offset = offset.saturating_add(body(text, span).len());
        bank.extend_from_slice(&offset.to_be_bytes()[4..])?;
    }
    if bank.len().saturating_add(offset) > BANK_BYTES {
        return Err(What::TooLargeBank.into());
    }
    for &span in list {
        bank.extend_from_slice(body(text, span))?;
    }
    Ok(bank)
}
