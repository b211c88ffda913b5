//! The words of a case.

use std::fs;
use std::io::{self, ErrorKind};

/// The bytes of some words: hexadecimal digits, digits and how often they stand, as `20*100`, or the name of a file, as `@u.sql`.
pub(crate) fn bytes_of(rt: &HostRuntime, words: &str) -> io::Result<Vec<u8>> {
    let mut bytes = Vec::new(rt.alloc());
    for word in words.split_whitespace() {
        push_word(rt, &mut bytes, word)?;
    }
    Ok(bytes)
}

fn push_word(rt: &HostRuntime, bytes: &mut Vec<u8>, word: &str) -> io::Result<()> {
    if let Some(name) = word.strip_prefix('@') {
        bytes.extend_from_slice(&fs::read(rt, name)?)?;
        return Ok(());
    }
    let (digits, times) = word.split_once('*').unwrap_or((word, "1"));
    let (Ok(piece), Ok(times)) = (hex::decode(rt.alloc(), digits), times.parse::<usize>()) else {
        return Err(io::Error::from(ErrorKind::InvalidData));
    };
    for _ in 0..times {
        bytes.extend_from_slice(&piece)?;
    }
    Ok(())
}
