//! What the steps of every script are, as a law: a function that does nothing.

ghost use Rattle.script_lang.specs.Laws.{ScriptsAreWithinLimits};

/// The turns of a script are those of sessions from 1 to 64, and no batch has more than 128
/// parameters or one name twice. The tables of a rotation have names.
pub fn scripts_are_within_limits()
    ensures { ScriptsAreWithinLimits }
{}
