//! Laws of files as journals: functions that do nothing, whose contracts are the laws.

ghost use Rattle.journal_core.specs.Laws.{EachFileReads, FilesReadOnce, JournalsAreReadBack};

/// A file stands for one thing.
pub fn files_read_once()
    ensures { FilesReadOnce }
{}

/// No file stands for nothing: each has records, or is damaged at a place.
pub fn each_file_reads()
    ensures { EachFileReads }
{}

/// What is written as a journal of some records stands for them.
pub fn journals_are_read_back()
    ensures { JournalsAreReadBack }
{}
