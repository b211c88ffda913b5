//! What is sealed is read back, as laws.

ghost use Rattle.cell_codec.specs.Laws.{SealedIsReadBack, SealedDetIsReadBack};
ghost use Rattle.cell_codec.specs.Laws.{SealedIsCell, SealedHasShape};
ghost use Rattle.cell_codec.specs.Laws.{DerivedAreKeys, IvIsBlock};

/// What is sealed under keys of 32 bytes is read back, randomized and deterministic.
pub fn sealing_is_read_back()
    ensures randomized { SealedIsReadBack }
    ensures deterministic { SealedDetIsReadBack }
{
    cbc_mode::each_undoes_the_other();
}

/// A cell has the length that `cell_len` gives and is made of bytes, and the cell of no more bytes
/// than a type's values have at most is of the type's shape.
pub fn sealing_makes_cells()
    ensures cell { SealedIsCell }
    ensures shape { SealedHasShape }
{
    cbc_mode::each_undoes_the_other();
}

/// Derived keys have 32 bytes, and a deterministic initialization vector has 16, as the laws of
/// sealing ask for.
pub fn derived_keys_are_keys()
    ensures keys { DerivedAreKeys }
    ensures iv { IvIsBlock }
{}
