//! The devices that fail.

use ae_base::texts::Txt;
use std::alloc::{AllocError, Global};

/// A device that fails, and at which of its calls, from 0.
#[derive(Clone, Copy)]
pub(crate) struct Failing<'a> {
    pub(crate) device: &'a str,
    pub(crate) call: u64,
}

impl Failing<'_> {
    fn calls(&self, alloc: Global, device: &str) -> Result<Vec<u64>, AllocError> {
        let mut calls = Vec::new(alloc);
        if self.device == device {
            calls.push(self.call)?;
        }
        Ok(calls)
    }
}

/// The calls of each device that fail.
#[derive(Drop)]
pub(crate) struct Calls {
    pub(crate) script: Vec<u64>,
    pub(crate) vault: Vec<u64>,
    pub(crate) entropy: Vec<u64>,
    pub(crate) replies: Vec<u64>,
    pub(crate) out: Vec<u64>,
    pub(crate) tap: Vec<u64>,
}

impl Calls {
    pub(crate) fn of(alloc: Global, failing: Failing<'_>) -> Result<Calls, AllocError> {
        Ok(Calls {
            script: failing.calls(alloc, "script")?,
            vault: failing.calls(alloc, "vault")?,
            entropy: failing.calls(alloc, "entropy")?,
            replies: failing.calls(alloc, "replies")?,
            out: failing.calls(alloc, "out")?,
            tap: failing.calls(alloc, "tap")?,
        })
    }
}

/// The master key of RFC 3394, section 4.6.
const MAIN: [u8; 32] = [
    0, 1, 2, 3, 4, 5, 6, 7, 8, 9, 10, 11, 12, 13, 14, 15, 16, 17, 18, 19, 20, 21, 22, 23, 24, 25,
    26, 27, 28, 29, 30, 31,
];

/// A master key under the path `main`.
pub(crate) fn master_keys(alloc: Global) -> Result<Vec<(Txt, [u8; 32])>, AllocError> {
    let mut keys = Vec::new(alloc);
    keys.push((Txt::copied(alloc, "main")?, MAIN))?;
    Ok(keys)
}
