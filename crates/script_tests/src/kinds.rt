//! The kinds of the frames on a tap.

use std::alloc::{AllocError, Global};

/// The kinds of the frames that some bytes are, up to the first that isn't whole.
pub(crate) fn kinds_of(alloc: Global, frames: &[u8]) -> Result<Vec<u8>, AllocError> {
    let mut kinds = Vec::new(alloc);
    let mut rest = frames;
    'frames: while let [_, kind, a, b, c, d, behind @ ..] = rest {
        kinds.push(*kind)?;
        let length = u32::from_be_bytes([*a, *b, *c, *d]) as usize;
        rest = behind.get(length..).unwrap_or(&[]);
    }
    Ok(kinds)
}
