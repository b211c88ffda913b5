//! A journal at the end of the longest file.

ghost use Rattle.ae_edge.specs.Devices.{silent};

use crate::journal::{Appended, Journal};
use crate::records::is_record;
use disk::disks::{Disk, Given, Measured, Stored};
use std::alloc::Global;
use std::test::Fail;

// The most bytes that the file has.
const MOST_BYTES: u64 = 1_099_511_627_776;

// The frame of a definition, of 43 bytes.
const EXECUTE: &[u8] =
    b"\x01\x02\x00\x00\x00\x25\x00\x01\x00\x00\x00\x00\x00\x00\x00\x00\x00\x00\x00\x16CREATE TABLE t (a INT)\x00";

// A disk that keeps the end of the last write, and how many calls there were.
#[derive(Drop)]
struct Ends {
    last: u64,
    calls: u64,
}

impl Ends {
    fn count(&mut self) {
        self.calls = self.calls.saturating_add(1);
    }
}

impl Disk for Ends {
    ghost seen = { λ d. silent 0 };

    fn size(&mut self) -> Measured {
        Measured::OutOfMemory
    }

    fn read(&mut self, _alloc: Global, _at: u64, _max: usize) -> Given {
        Given::OutOfMemory
    }

    fn write(&mut self, at: u64, bytes: &[u8]) -> Stored {
        self.last = at.saturating_add(bytes.len() as u64).max(self.last);
        self.count();
        Stored::Done
    }

    fn cut(&mut self, _len: u64) -> Stored {
        self.count();
        Stored::Done
    }

    fn sync(&mut self) -> Stored {
        self.count();
        Stored::Done
    }
}

#[test]
fn the_longest_file_takes_no_record(rt: HostRuntime) -> Result<(), Fail> {
    let alloc = rt.alloc();
    let mut disk = Ends { last: 0, calls: 0 };
    // Room for one record, its length and two gates.
    let mut journal = Journal::at(MOST_BYTES - 53);
    let Ok(true) = is_record(alloc, EXECUTE) else {
        return Err(Fail::new("no record"));
    };
    assert_eq!(rt; journal.append(alloc, &mut disk, EXECUTE), Appended::Done);
    assert_eq!(rt; disk.last, MOST_BYTES);
    assert_eq!(rt; disk.calls, 4);
    if !journal.failed() {
        assert_eq!(rt;
            journal.append(alloc, &mut disk, EXECUTE),
            Appended::JournalFull
        );
    }
    assert_eq!(rt; disk.calls, 4);
    assert!(rt; !journal.failed());
    Ok(())
}
