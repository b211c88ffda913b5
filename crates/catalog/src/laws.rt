//! What definitions do to catalogs, as laws.

ghost use Rattle.catalog.specs.Laws.{DefinitionsKeepCatalogs, DefinitionsAreFollowed, EachFollowsItself, FollowingIsTransitive, IdsAreNotReused, KeysAreTold, NamedAreNumbered};

/// Each definition whose keys are there keeps what a catalog is.
pub fn definitions_keep_catalogs()
    ensures { DefinitionsKeepCatalogs }
{}

/// Each such definition leads to a catalog that follows, of the next version; and what follows by
/// several definitions follows.
pub fn definitions_are_followed()
    ensures each { DefinitionsAreFollowed }
    ensures none { EachFollowsItself }
    ensures several { FollowingIsTransitive }
{}

/// A key's number is never used again: what is found later under a number that was used is the key
/// that was found before.
pub fn ids_are_not_reused()
    ensures { IdsAreNotReused }
{}

/// A column key that is found by its name is found by its number, and has its master key there, so
/// that a client can be told of it.
pub fn keys_are_told()
    ensures numbered { NamedAreNumbered }
    ensures told { KeysAreTold }
{}
