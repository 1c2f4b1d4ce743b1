//! Why there is no array of nulls.
ghost use Rattle.std.specs.Prelude.{◌≡◌};
ghost use Rattle.lower_nulls.specs.declared.error.NullError.TheVariants.{Memory, DataType};

use lower::error::Error as ArrayError;
use std::alloc::{AllocError, AllocFailed};
use thiserror::Error;

/// Why there is no array of nulls.
#[derive(Debug, Clone, Copy, Drop, PartialEq, Eq, Error)]
pub enum NullError {
    /// An allocation failed.
    #[error("out of memory")]
    Memory,
    /// No array has the data type.
    #[error("no array has the data type")]
    DataType,
    /// Slots of a fixed size need 2^64 or more bytes or slots of a child.
    #[error("the slots of a fixed size need more than 64 bits can count")]
    Length,
}

impl From<AllocError> for NullError {
    ghost from_gives = { λ _ e. e ≡ Memory };

    fn from(_e: AllocError) -> NullError {
        NullError::Memory
    }
}

impl<T: Drop> From<AllocFailed<T>> for NullError {
    ghost from_gives = { λ _ e. e ≡ Memory };

    fn from(_e: AllocFailed<T>) -> NullError {
        NullError::Memory
    }
}

// The parts of null slots keep all rules that don't depend on the data type alone.
impl From<ArrayError> for NullError {
    ghost from_gives = { λ _ e. e ≡ DataType };

    fn from(_e: ArrayError) -> NullError {
        NullError::DataType
    }
}
