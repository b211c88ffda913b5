//! Laws of compactions: functions that do nothing, whose contracts are the laws.

ghost use Rattle.journal_compaction.specs.Laws.{CompactedIsTheSame};

use wire_frames::one_reading;

/// Of the records of a compaction none is refused when they are served again, and they lead to the
/// world of the records that were read: to its catalog, with its version and the numbers of its
/// keys, and to the same rows of each table in the same order.
pub fn compacted_is_the_same()
    ensures { CompactedIsTheSame }
{
    one_reading();
}
