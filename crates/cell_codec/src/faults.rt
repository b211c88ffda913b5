//! Why a cell is refused.

use thiserror::Error;

/// Why a cell was not opened.
#[derive(Clone, Copy, Debug, PartialEq, Eq, Error)]
pub enum CellFault {
    /// The cell is empty, or its first byte is not 0x01.
    #[error("the cell has an unknown version")]
    BadVersion,
    /// The ciphertext is not one or more whole blocks.
    #[error("the cell has a wrong length")]
    BadLength,
    /// The MAC is not that of the cell under these keys.
    #[error("the cell has a wrong tag")]
    BadTag,
    /// The decrypted bytes do not end in padding.
    #[error("the cell has wrong padding")]
    BadPadding,
    #[error("out of memory")]
    OutOfMemory,
}
