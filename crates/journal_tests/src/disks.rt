//! The disk in memory.

use ae_base::blobs::Blob;
use disk::disks::{Disk, Given, Measured, Stored};
use disk::mem_disk::{DiskCall, MadeCall, MemDisk};
use std::alloc::Global;
use std::test::Fail;

fn has_given(given: Given, want: &[u8]) -> bool {
    match given {
        Given::Bytes(bytes) => bytes.as_slice() == want,
        Given::Failed | Given::OutOfMemory => false,
    }
}

fn is_sync(made: Option<&MadeCall>, failed: bool) -> bool {
    match made {
        Some(made) => matches!(made.call, DiskCall::Sync) && made.failed == failed,
        None => false,
    }
}

fn disk_of(alloc: Global, file: &[u8], failing: &[u64]) -> Result<MemDisk, Fail> {
    let failing = Vec::from_slice(alloc, failing)?;
    Ok(MemDisk::new(alloc, file, failing)?)
}

#[test]
fn gives_what_was_written(rt: HostRuntime) -> Result<(), Fail> {
    let alloc = rt.alloc();
    let mut disk = disk_of(alloc, b"abcdef", &[])?;
    assert_eq!(rt; disk.write(0, b"XYZ"), Stored::Done);
    assert_eq!(rt; disk.size(), Measured::Bytes(6));
    assert!(rt; has_given(disk.read(alloc, 2, 2), b"Zd"));
    assert!(rt; has_given(disk.read(alloc, 6, 2), b""));
    assert_eq!(rt; disk.sync(), Stored::Done);
    assert_eq!(rt; disk.bytes(), b"XYZdef".as_slice());
    assert_eq!(rt; disk.cut(0), Stored::Done);
    assert_eq!(rt; disk.size(), Measured::Bytes(0));
    Ok(())
}

#[test]
fn fails_at_the_listed_calls(rt: HostRuntime) -> Result<(), Fail> {
    let alloc = rt.alloc();
    let mut disk = disk_of(alloc, b"abc", &[0, 2, 3, 5])?;
    assert_eq!(rt; disk.size(), Measured::Failed);
    assert_eq!(rt; disk.write(0, b"X"), Stored::Done);
    assert_eq!(rt; disk.write(0, b"Y"), Stored::Failed);
    assert!(rt; matches!(disk.read(alloc, 0, 1), Given::Failed));
    assert!(rt; has_given(disk.read(alloc, 0, 9), b"Xbc"));
    assert_eq!(rt; disk.sync(), Stored::Failed);
    assert_eq!(rt; disk.made().len(), 6);
    assert!(rt; is_sync(disk.made().last(), true));
    Ok(())
}

#[test]
fn notes_its_calls(rt: HostRuntime) -> Result<(), Fail> {
    let alloc = rt.alloc();
    let mut disk = disk_of(alloc, b"", &[])?;
    assert_eq!(rt; disk.write(0, b"ab"), Stored::Done);
    assert_eq!(rt; disk.sync(), Stored::Done);
    assert!(rt; is_sync(disk.made().last(), false));
    let first = Blob::copied(alloc, b"ab")?;
    match disk.made().first() {
        Some(
            MadeCall {
                call: DiskCall::Write(at, bytes),
                failed,
            },
        ) => {
            assert_eq!(rt; *at, 0);
            assert!(rt; *bytes == first);
            assert!(rt; !*failed);
        }
        _ => assert!(rt; false),
    }
    Ok(())
}
