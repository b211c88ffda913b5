//! A disk and a journal over a file.

use crate::journals::{EXECUTE, ONE_RECORD, add, mounts};
use disk::disks::{Disk, Given, Measured, Stored};
use disk::file_disk::FileDisk;
use journal_core::journal::Appended;
use std::test::Fail;
use std::{env, fs, process};

pub(crate) fn file_name(rt: &HostRuntime, name: &str) -> Result<String, Fail> {
    let parent = env::temp_dir(rt)?;
    let number = process::id(rt.process());
    Ok(format!(in rt.alloc(); "{}/{name}_{number}", parent.display())?)
}

fn has_given(given: Given, want: &[u8]) -> bool {
    match given {
        Given::Bytes(bytes) => bytes.as_slice() == want,
        Given::Failed | Given::OutOfMemory => false,
    }
}

#[test]
fn a_file_is_a_disk(rt: HostRuntime) -> Result<(), Fail> {
    let name = file_name(&rt, "disk_test")?;
    let mut disk = FileDisk::new(&rt, name.as_str());
    assert_eq!(rt; disk.size(), Measured::Bytes(0));
    assert_eq!(rt; disk.write(0, b"abcdef"), Stored::Done);
    assert_eq!(rt; disk.write(2, b"XY"), Stored::Done);
    assert_eq!(rt; disk.cut(5), Stored::Done);
    assert_eq!(rt; disk.sync(), Stored::Done);
    assert_eq!(rt; disk.size(), Measured::Bytes(5));
    assert!(rt; has_given(disk.read(rt.alloc(), 1, 3), b"bXY"));
    assert!(rt; has_given(disk.read(rt.alloc(), 5, 3), b""));
    drop(disk);
    let bytes = fs::read(&rt, name.as_str())?;
    assert_eq!(rt; bytes.as_slice(), b"abXYe".as_slice());
    fs::remove_file(&rt, name.as_str())?;
    Ok(())
}

#[test]
fn a_file_keeps_a_journal(rt: HostRuntime) -> Result<(), Fail> {
    let name = file_name(&rt, "journal_test")?;
    let mut disk = FileDisk::new(&rt, name.as_str());
    assert_eq!(rt; add(rt.alloc(), &mut disk, EXECUTE), Appended::Done);
    drop(disk);
    let bytes = fs::read(&rt, name.as_str())?;
    assert_eq!(rt; bytes.as_slice(), ONE_RECORD);
    let mut disk = FileDisk::new(&rt, name.as_str());
    assert!(rt; mounts(rt.alloc(), &mut disk, &[EXECUTE]));
    drop(disk);
    fs::remove_file(&rt, name.as_str())?;
    Ok(())
}
