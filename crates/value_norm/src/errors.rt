//! Why a value has no bytes, or bytes have no value.

ghost use Rattle.std.specs.Prelude.{◌≡◌};
ghost use Rattle.value_norm.specs.declared.errors.NormError.TheVariants as norm_error;
ghost use Rattle.value_norm.specs.declared.errors.ReadError.TheVariants as read_error;

use std::alloc::AllocError;
use thiserror::Error;

/// Why a value was not turned into cell bytes.
#[derive(Clone, Copy, Debug, PartialEq, Eq, Error)]
pub enum NormError {
    /// The value is not of the type, or is past its bound.
    #[error("the value does not fit the type")]
    DoesNotFit,
    #[error("out of memory")]
    OutOfMemory,
}

/// Why cell bytes were not turned into a value.
#[derive(Clone, Copy, Debug, PartialEq, Eq, Error)]
pub enum ReadError {
    /// No value of the type has these bytes.
    #[error("no value of the type has these bytes")]
    NotNormal,
    #[error("out of memory")]
    OutOfMemory,
}

impl From<AllocError> for NormError {
    ghost from_gives = { λ _ e. e ≡ norm_error.OutOfMemory };

    fn from(_refused: AllocError) -> NormError {
        NormError::OutOfMemory
    }
}

impl From<AllocError> for ReadError {
    ghost from_gives = { λ _ e. e ≡ read_error.OutOfMemory };

    fn from(_refused: AllocError) -> ReadError {
        ReadError::OutOfMemory
    }
}
