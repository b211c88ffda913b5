//! The law of answers in frames: a function that does nothing, whose contract is the law.

ghost use Rattle.frame_laws.specs.Laws.{RepliesAreCarriedAlike};

/// For every renaming of cells: replies that are renamed are carried, in either version, by frames
/// that are renamed one by one, so rows share frames alike.
pub fn replies_are_carried_alike()
    ensures { RepliesAreCarriedAlike }
{}
