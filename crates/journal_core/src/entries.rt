//! The records of a journal are read from its disk, one after another.

ghost use Rattle.std.specs.Prelude.{◌≡◌, ◌<◌, ◌≤◌, ◌^◌, IfSome};
ghost use Rattle.ae_edge.specs.Devices.{Calls, WhereExposed};
ghost use Rattle.journal_core.specs.Appends.{IsMounted};
ghost use Rattle.journal_core.specs.Entries.{Continues, CountsEntry, IsNotPast};

use crate::journal::Journal;
use crate::reading::{Stood, stood_at};
use ae_base::blobs::Blob;
use disk::disks::Disk;
use std::alloc::Global;

/// What stands at a gate of a journal.
#[derive(Drop)]
pub enum Entry {
    /// A record.
    Next(Blob),
    /// It is the last gate.
    End,
    /// The disk gives other bytes than it gave to `mount`.
    Other,
    /// A call of the disk failed.
    Failed,
    OutOfMemory,
}

impl Journal {
    /// The record whose gate stands at a place, as it was found or added: the first record's stands
    /// at 0, and each other one nine bytes behind the end of the record before it.
    pub fn entry_at<D: Disk>(&self, alloc: Global, disk: &mut D, place: u64) -> Entry
        requires mounted { IfSome (D.seen disk.old).content (IsMounted self.now.gate) }
        requires before { place ≤ self.now.gate }
        ensures call { Calls (WhereExposed (Continues result place self.now.gate))
            (CountsEntry result) (D.seen disk.old) (D.seen disk.new) }
        ensures mounted { IfSome (D.seen disk.new).content (IsMounted self.now.gate) }
        ensures inside { IsNotPast result place self.now.gate }
        ensures fits { self.now.gate < 2 ^ 64 }
    {
        if place == self.last_gate() {
            return Entry::End;
        }
        match stood_at(alloc, disk, place, self.last_gate()) {
            Stood::Open(entry) => Entry::Next(entry),
            Stood::Closed => Entry::Other,
            Stood::Broken => Entry::Other,
            Stood::Failed => Entry::Failed,
            Stood::OutOfMemory => Entry::OutOfMemory,
        }
    }
}
