//! The lengths that cells of a type have.

ghost use Rattle.std.specs.Prelude.{◌≡◌, ◌^◌, ◌<◌, ◌↔◌, IsTrue};
ghost use Rattle.cell_codec.specs.Cells.{IsShape, is_shape, is_cell_length, is_length_of, most_blocks};

use crate::{BLOCK_LENGTH, HEAD_LENGTH, VERSION};
use ae_base::cells::Cell;
use ae_base::types::Ty;
use value_norm::most_bytes;

/// Whether a cell has the first byte and a length of the cells of a type's values. Nothing else of
/// it is read.
pub fn shape_ok(cell: &Cell, ty: Ty) -> bool
    ensures shape { IsTrue result ↔ IsShape cell.now ty }
    ensures value { result ≡ is_shape cell.now ty }
{
    cell.lead() == VERSION && is_length_of(cell.len(), ty)
}

/// Whether a cell of `count` bytes has no more blocks than the cells of the type's values.
fn is_length_of(count: usize, ty: Ty) -> bool
    ensures { result ≡ is_length_of count ty }
{
    is_cell_length(count) && count <= HEAD_LENGTH + most_blocks(ty) * BLOCK_LENGTH
}

/// Whether `count` bytes are a head and one or more blocks.
pub(crate) fn is_cell_length(count: usize) -> bool
    ensures { result ≡ is_cell_length count }
{
    count >= HEAD_LENGTH + BLOCK_LENGTH && (count - HEAD_LENGTH) % BLOCK_LENGTH == 0
}

/// The most blocks of ciphertext that the cell of a value of the type has.
fn most_blocks(ty: Ty) -> usize
    ensures value { result ≡ most_blocks ty }
    ensures below { result < 2 ^ 14 }
{
    most_bytes(ty) / BLOCK_LENGTH + 1
}
