//! What opens is a key, as a law.

ghost use Rattle.key_store.specs.Laws.{OpenedAreDerived, OpenedAreWhole, NamesDoNotCount};

/// What is opened is derived from the column key that one of the values gives, whose wrapped bytes
/// are 40, and neither the key's name nor its number has a part in it.
pub fn opened_are_keys()
    ensures derived { OpenedAreDerived }
    ensures whole { OpenedAreWhole }
    ensures names { NamesDoNotCount }
{}
