//! The endings of commands as statuses.

ghost use Rattle.std.specs.Prelude.{◌≡◌};
ghost use Rattle.ae_cli.specs.Endings.{status_of_checking, status_of_generating, status_of_journaling, status_of_refusal, status_of_serving, status_of_wrapping};

use ae_base::refusals::Refusal;
use ae_base::texts::Txt;
use check_command::steps::Checked;
use command_words::status::Status;
use gen_command::commands::Generated;
use journal_command::endings::Ended;
use serve_command::commands::Served;
use wrap_command::commands::Wrapped;

/// The status of a check.
pub fn of_checking(checked: Checked) -> Status
    ensures { result ≡ status_of_checking checked }
{
    match checked {
        Checked::Done => Status::Done,
        Checked::Refusals => Status::Refusals,
        Checked::ReadFault => Status::ReadFault,
        Checked::WriteFault => Status::WriteFault,
        Checked::OutOfMemory => Status::OutOfMemory,
        Checked::BadLine(line) => Status::BadScript(line),
        Checked::TooLong => Status::TooLong,
    }
}

/// The status of serving.
pub fn of_serving(served: Served) -> Status
    ensures { result ≡ status_of_serving served }
{
    match served {
        Served::Done => Status::Done,
        Served::ReadFault => Status::ReadFault,
        Served::WriteFault => Status::WriteFault,
        Served::OutOfMemory => Status::OutOfMemory,
        Served::TooLong => Status::TooLong,
        Served::BadFrame(place) => Status::BadFrame(place),
    }
}

/// The status of serving with a journal.
pub fn of_journaling(ended: Ended) -> Status
    ensures { result ≡ status_of_journaling ended }
{
    match ended {
        Ended::Done => Status::Done,
        Ended::ReadFault => Status::ReadFault,
        Ended::WriteFault => Status::WriteFault,
        Ended::DiskFault => Status::DiskFault,
        Ended::OutOfMemory => Status::OutOfMemory,
        Ended::TooLong => Status::TooLong,
        Ended::BadFrame(place) => Status::BadFrame(place),
        Ended::Damaged(place) => Status::BadJournal(place),
        Ended::JournalFull => Status::JournalFull,
    }
}

/// The status of a wrapping at a path.
pub fn of_wrapping(path: Txt, wrapped: Wrapped) -> Status
    ensures { result ≡ status_of_wrapping path wrapped }
{
    match wrapped {
        Wrapped::Done => Status::Done,
        Wrapped::ReadFault => Status::ReadFault,
        Wrapped::WriteFault => Status::WriteFault,
        Wrapped::OutOfMemory => Status::OutOfMemory,
        Wrapped::VaultFault => Status::VaultFault,
        Wrapped::BadLine => Status::BadScript(1),
        Wrapped::TooLong => Status::TooLong,
        Wrapped::NoMasterKey => Status::NoMasterKey(path),
    }
}

/// The status of generating.
pub fn of_generating(generated: Generated) -> Status
    ensures { result ≡ status_of_generating generated }
{
    match generated {
        Generated::Done => Status::Done,
        Generated::WriteFault => Status::WriteFault,
        Generated::OutOfMemory => Status::OutOfMemory,
    }
}

/// The status of words that are refused, or that there is no memory to read.
pub fn of_refusal(refusal: Refusal<Txt>) -> Status
    ensures { result ≡ status_of_refusal refusal }
{
    match refusal {
        Refusal::Fault(text) => Status::Usage(text),
        Refusal::OutOfMemory => Status::OutOfMemory,
    }
}
