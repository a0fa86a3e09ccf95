// The program's arguments, as bytes.
use std::alloc::{AllocError, Global};
use std::env::{Env, FillError};

// Argument i; None after the last. One of more than 4096 bytes is read as an empty one. std's `env::args` takes
// UTF-8 alone, and a path may have any bytes.
fn argument(rt: &impl Env, alloc: Global, i: usize) -> Result<Option<Vec<u8>>, AllocError> {
    let mut buf = [0u8; 4096];
    match rt.arg(i, &mut buf) {
        Ok(n) => Ok(Some(Vec::from_slice(alloc, &buf[..n])?)),
        Err(FillError::TooLong) => Ok(Some(Vec::new(alloc))),
        Err(FillError::NotPresent) => Ok(None),
    }
}

// The arguments after the program's name.
pub(crate) fn read(rt: &impl Env, alloc: Global) -> Result<Vec<Vec<u8>>, AllocError> {
    let mut all = Vec::new(alloc);
    for i in 1..usize::MAX {
        let Some(word) = argument(rt, alloc, i)? else {
            break;
        };
        all.push(word)?;
    }
    Ok(all)
}
