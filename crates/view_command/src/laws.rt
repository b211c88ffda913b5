//! The law of the text of a recording: a function that does nothing, whose contract is the law.

ghost use Rattle.view_command.specs.Laws.{TextsAreOfEntries};

/// Two recordings whose frames have the same entries, and which end alike, have one text, and one
/// page.
pub fn texts_are_of_entries()
    ensures { TextsAreOfEntries }
{}
