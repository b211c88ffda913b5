//! Long frames, written by code.

use std::alloc::{AllocError, Global};

fn frame(alloc: Global, version: u8, kind: u8, body: &[u8]) -> Result<Vec<u8>, AllocError> {
    let [high, low] = ((body.len() % 65_536) as u16).to_be_bytes();
    let mut out = Vec::new(alloc);
    out.extend_from_slice(&[version, kind, 0, 0, high, low])?;
    out.extend_from_slice(body)?;
    Ok(out)
}

fn push_entries(body: &mut Vec<u8>, entries: u8) -> Result<(), AllocError> {
    body.push(entries)?;
    for i in 0..entries {
        let (path, wrapped) = if i % 2 == 0 {
            (b'm', b'w')
        } else {
            (b'n', b'x')
        };
        body.extend_from_slice(&[0, 0, 0, i / 2 + 1, 0, 1, b'k', 0, 1, path, 0, 1, wrapped])?;
    }
    Ok(())
}

/// Columns, each encrypted under a key of its own. Their keys have so many values in all: two each,
/// the last one perhaps one.
pub fn columns_under_keys(alloc: Global, entries: u8) -> Result<Vec<u8>, AllocError> {
    let keys = entries / 2 + entries % 2;
    let mut body = Vec::new(alloc);
    push_entries(&mut body, entries)?;
    body.extend_from_slice(&[0, keys])?;
    for i in 0..keys {
        body.extend_from_slice(&[0, 0, 1, 1, 0, 0, 0, i + 1])?;
    }
    frame(alloc, 0x01, 0x82, &body)
}

/// So many plain columns, without titles.
pub fn plain_columns(alloc: Global, count: u16) -> Result<Vec<u8>, AllocError> {
    let mut body = Vec::new(alloc);
    body.push(0)?;
    body.extend_from_slice(&count.to_be_bytes())?;
    for _ in 0..count {
        body.extend_from_slice(&[0, 0, 1, 0])?;
    }
    frame(alloc, 0x01, 0x82, &body)
}

/// A row of so many NULLs, alone in its frame.
pub fn nulls(alloc: Global, count: u16) -> Result<Vec<u8>, AllocError> {
    let mut body = Vec::new(alloc);
    body.extend_from_slice(&count.to_be_bytes())?;
    for _ in 0..count {
        body.push(0)?;
    }
    frame(alloc, 0x01, 0x83, &body)
}

/// A row of so many NULLs, in a frame that rows share.
pub fn shared_nulls(alloc: Global, count: u16) -> Result<Vec<u8>, AllocError> {
    let mut body = Vec::new(alloc);
    body.extend_from_slice(&[0, 1])?;
    body.extend_from_slice(&count.to_be_bytes())?;
    for _ in 0..count {
        body.push(0)?;
    }
    frame(alloc, 0x02, 0x86, &body)
}

/// So many rows of one number, the five, in a frame that they share.
pub fn fives(alloc: Global, rows: u16) -> Result<Vec<u8>, AllocError> {
    let mut body = Vec::new(alloc);
    body.extend_from_slice(&rows.to_be_bytes())?;
    body.extend_from_slice(&[0, 1])?;
    for _ in 0..rows {
        body.extend_from_slice(&[1, 0, 0, 0, 0, 0, 0, 0, 5])?;
    }
    frame(alloc, 0x02, 0x86, &body)
}
