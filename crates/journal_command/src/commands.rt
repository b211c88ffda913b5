//! The command `serve --journal`.

ghost use Rattle.std.specs.Prelude.{◌≡◌, IfSome, false};
ghost use Rattle.ae_edge.specs.Devices.{Rose, WhereExposed};
ghost use Rattle.journal_core.specs.Appends.{IsMounted};
ghost use Rattle.journal_command.specs.Exact.{ServesExactly};
ghost use Rattle.journal_command.specs.Journaling.{ServesFound, ServesFrom, ServesJournal};
ghost use Rattle.journal_command.specs.Servable.{IsntDamaged, StaysServable};

use crate::durable::Durable;
use crate::endings::Ended;
use crate::restarts::{Restarted, serve_records};
use ae_edge::sinks::Sink;
use ae_edge::sources::Source;
use disk::disks::Disk;
use journal_core::journal::Journal;
use journal_core::mounting::Mounted;
use recording_laws::laws::prefixes_are_accepted;
use serve_command::inputs::serve_input;
use server_core::laws::{requests_are_serial_from, requests_may_be_asked};
use server_core::server::Server;
use std::alloc::Global;
use wire_frames::{frames_are_read_back, one_reading, streams_are_read_once};

/// Serves the input with a server that stands where the records have led.
fn serve_from<S: Source, W: Sink, D: Disk>(
    alloc: Global,
    input: &mut S,
    out: &mut W,
    disk: &mut D,
    server: Server,
    journal: Journal,
) -> Ended
    requires ready { journal.failed ≡ false }
    requires mounted { IfSome (D.seen disk.old).content (IsMounted journal.gate) }
    ensures serves { ServesFrom result server journal.gate (S.seen input.old).content
        (S.seen input.new).content (D.seen disk.old).content (D.seen disk.new).content
        (W.seen out.old).content (W.seen out.new).content }
    ensures same { (D.seen disk.new).names ≡ (D.seen disk.old).names }
    ensures read { result ≡ Ended.ReadFault
        → Rose (S.seen input.old).faults (S.seen input.new).faults }
    ensures write { result ≡ Ended.WriteFault
        → Rose (W.seen out.old).faults (W.seen out.new).faults }
    ensures stored { result ≡ Ended.DiskFault
        → Rose (D.seen disk.old).faults (D.seen disk.new).faults }
{
    requests_are_serial_from();
    match Durable::new(alloc, server, journal) {
        Ok(mut durable) => {
            let ending = serve_input(alloc, input, out, disk, &mut durable);
            drop(durable);
            Ended::from(ending)
        }
        Err(_) => Ended::OutOfMemory,
    }
}

/// Serves the records again, and then the input.
fn serve_found<S: Source, W: Sink, D: Disk>(
    alloc: Global,
    input: &mut S,
    out: &mut W,
    disk: &mut D,
    journal: Journal,
) -> Ended
    requires ready { journal.failed ≡ false }
    requires mounted { IfSome (D.seen disk.old).content (IsMounted journal.gate) }
    ensures serves { ServesFound result journal.gate (S.seen input.old).content
        (S.seen input.new).content (D.seen disk.old).content (D.seen disk.new).content
        (W.seen out.old).content (W.seen out.new).content }
    ensures same { (D.seen disk.new).names ≡ (D.seen disk.old).names }
    ensures read { result ≡ Ended.ReadFault
        → Rose (S.seen input.old).faults (S.seen input.new).faults }
    ensures write { result ≡ Ended.WriteFault
        → Rose (W.seen out.old).faults (W.seen out.new).faults }
    ensures stored { result ≡ Ended.DiskFault
        → Rose (D.seen disk.old).faults (D.seen disk.new).faults }
{
    let mut server = Server::new(alloc);
    match serve_records(alloc, disk, &journal, &mut server) {
        Restarted::Served => serve_from(alloc, input, out, disk, server, journal),
        Restarted::Refused(place) => Ended::Damaged(place),
        Restarted::DiskFault => Ended::DiskFault,
        Restarted::OutOfMemory => Ended::OutOfMemory,
    }
}

/// Finds the journal on a disk, serves its records again, and then the input.
fn serve_mounted<S: Source, W: Sink, D: Disk>(
    alloc: Global,
    input: &mut S,
    out: &mut W,
    disk: &mut D,
) -> Ended
    ensures content { ServesJournal result (S.seen input.old).content (S.seen input.new).content
        (D.seen disk.old).content (D.seen disk.new).content
        (W.seen out.old).content (W.seen out.new).content }
    ensures same { (D.seen disk.new).names ≡ (D.seen disk.old).names }
    ensures read { result ≡ Ended.ReadFault
        → Rose (S.seen input.old).faults (S.seen input.new).faults }
    ensures write { result ≡ Ended.WriteFault
        → Rose (W.seen out.old).faults (W.seen out.new).faults }
    ensures stored { result ≡ Ended.DiskFault
        → Rose (D.seen disk.old).faults (D.seen disk.new).faults }
{
    requests_may_be_asked();
    match Journal::mount(alloc, disk) {
        Mounted::Ready(journal) => serve_found(alloc, input, out, disk, journal),
        Mounted::Damaged(place) => Ended::Damaged(place),
        Mounted::DiskFault => Ended::DiskFault,
        Mounted::OutOfMemory => Ended::OutOfMemory,
    }
}

/// Finds the journal on a disk and serves its records again; then reads requests from the input,
/// frame after frame, and puts the frames of the replies to the output. What a request changes is
/// on the disk before its replies are put: all the records of a transaction at its COMMIT.
pub fn serve_journal<S: Source, W: Sink, D: Disk>(
    alloc: Global,
    input: &mut S,
    out: &mut W,
    disk: &mut D,
) -> Ended
    // What was taken of the input, what was put for it and what a crash leaves of its records, by
    // how it ended, and that transactions took effect one after another; or why the file's records
    // weren't served again.
    ensures content { ServesJournal result (S.seen input.old).content (S.seen input.new).content
        (D.seen disk.old).content (D.seen disk.new).content
        (W.seen out.old).content (W.seen out.new).content }
    // Where the input and the disk expose what they hold: by how the bytes within the limit end,
    // and the frames of their replies, from the state that the file's records lead to. So whole
    // frames within the limit end with `Done` and all frames, unless memory runs out, a device
    // fails or the file is full. `Damaged` comes only where a record isn't served again.
    ensures exact { ServesExactly result (S.seen input.old).content (D.seen disk.old).content
        (W.seen out.old).content (W.seen out.new).content }
    // A file whose records are served again stays one, and isn't found damaged.
    ensures servable { WhereExposed StaysServable (D.seen disk.old).content
        (D.seen disk.new).content }
    ensures undamaged { IsntDamaged result (D.seen disk.old).content (D.seen disk.new).content }
    ensures same { (D.seen disk.new).names ≡ (D.seen disk.old).names }
    // The faults of the outside come only where a count rose.
    ensures read { result ≡ Ended.ReadFault
        → Rose (S.seen input.old).faults (S.seen input.new).faults }
    ensures write { result ≡ Ended.WriteFault
        → Rose (W.seen out.old).faults (W.seen out.new).faults }
    ensures stored { result ≡ Ended.DiskFault
        → Rose (D.seen disk.old).faults (D.seen disk.new).faults }
{
    one_reading();
    streams_are_read_once();
    frames_are_read_back();
    requests_may_be_asked();
    prefixes_are_accepted();
    serve_mounted(alloc, input, out, disk)
}
