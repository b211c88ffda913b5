//! Frames as they are printed.

use std::io;

/// Prints the digits of each frame that some bytes are, up to the first that isn't whole.
pub(crate) fn print_frames(rt: &HostRuntime, bytes: &[u8]) -> io::Result<()> {
    let mut rest = bytes;
    'frames: while let [_, _, a, b, c, d, behind @ ..] = rest {
        let length = u32::from_be_bytes([*a, *b, *c, *d]) as usize;
        let frame = rest.get(..length.saturating_add(6)).unwrap_or(rest);
        println!(rt; "{}", hex::encode(rt.alloc(), frame)?)?;
        rest = behind.get(length..).unwrap_or(&[]);
    }
    Ok(())
}
