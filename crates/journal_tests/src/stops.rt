//! A journal that is stopped at each call of its disk, and what a crash leaves of it.

use crate::journals::{EXECUTE, add, mounts};
use disk::mem_disk::{DiskCall, MadeCall, MemDisk};
use journal_core::journal::Appended;
use std::alloc::{AllocError, Global};
use std::test::Fail;

// The range of the last write that no sync followed.
fn torn_range(made: &[MadeCall]) -> Option<(usize, usize)> {
    let mut range = None;
    for made in made {
        match &made.call {
            DiskCall::Write(at, bytes) => range = Some((*at as usize, bytes.len())),
            DiskCall::Sync if !made.failed => range = None,
            DiskCall::Size | DiskCall::Read(_, _) | DiskCall::Cut(_) | DiskCall::Sync => {}
        }
    }
    range
}

// A crash's image of a disk: the bytes of that range are others, and of what is past the end only the
// first are there.
fn image(alloc: Global, disk: &MemDisk, byte: u8, most: usize) -> Result<Vec<u8>, AllocError> {
    let Some((at, len)) = torn_range(disk.made()) else {
        return Ok(Vec::from_slice(alloc, disk.bytes())?);
    };
    let file = disk.bytes();
    let mut image = Vec::from_slice(alloc, file)?;
    image.truncate(at);
    for _ in 0..len.min(most) {
        image.push(byte)?;
    }
    if let Some(rest) = file.get(at.saturating_add(len)..) {
        for _ in len.min(most)..len {
            image.push(byte)?;
        }
        image.extend_from_slice(rest)?;
    }
    Ok(image)
}

// Adds a record again and again, until a call fails: how many are there.
fn added(alloc: Global, disk: &mut MemDisk, most: usize) -> usize {
    for done in 0..most {
        if add(alloc, disk, EXECUTE) != Appended::Done {
            return done;
        }
    }
    most
}

// Whether an image is mounted with so many records or one more.
fn holds(alloc: Global, image: &[u8], done: usize) -> Result<bool, AllocError> {
    let mut disk = MemDisk::new(alloc, image, Vec::new(alloc))?;
    let records = [EXECUTE; 4];
    let Some(without) = records.get(..done) else {
        return Ok(false);
    };
    let Some(with) = records.get(..done.saturating_add(1)) else {
        return Ok(false);
    };
    Ok(mounts(alloc, &mut disk, without) || mounts(alloc, &mut disk, with))
}

// Whether each crash of a disk leaves so many records or one more.
fn survives(alloc: Global, disk: &MemDisk, done: usize) -> Result<bool, AllocError> {
    for byte in [0x00u8, 0x01, 0x07, 0xff] {
        for most in [0usize, 1, 9, 30, 99] {
            let image = image(alloc, disk, byte, most)?;
            if !holds(alloc, image.as_slice(), done)? {
                return Ok(false);
            }
        }
    }
    Ok(true)
}

// How many records are added where a call of the disk fails, and whether each crash leaves them.
fn stopped_at(alloc: Global, call: u64) -> Result<(usize, bool), AllocError> {
    let mut disk = MemDisk::new(alloc, b"", Vec::from_slice(alloc, &[call])?)?;
    let done = added(alloc, &mut disk, 3);
    Ok((done, survives(alloc, &disk, done).unwrap_or(false)))
}

#[test]
fn a_stop_at_any_call_loses_nothing(rt: HostRuntime) -> Result<(), Fail> {
    let mut stops = 0u64;
    for call in 0u64..40 {
        let (done, survived) = stopped_at(rt.alloc(), call)?;
        assert!(rt; survived, "at {call}");
        if done < 3 {
            stops = stops.saturating_add(1);
        }
    }
    // The first mount has five calls, each other one four and two for each record; each record that
    // is added has four.
    assert_eq!(rt; stops, 31);
    Ok(())
}
