//! Why a slot can't be appended.
ghost use Rattle.std.specs.Prelude.{◌≡◌};
ghost use Rattle.lower_builders.specs.declared.error.BuildError.TheVariants.{Memory};

use std::alloc::{AllocError, AllocFailed};
use thiserror::Error;

/// Why a slot can't be appended.
#[derive(Debug, Clone, Copy, Drop, PartialEq, Eq, Error)]
pub enum BuildError {
    /// An allocation failed.
    #[error("out of memory")]
    Memory,
    /// An offset would be above the maximum of its type.
    #[error("an offset is above the maximum of its type")]
    OffsetOverflow,
    /// The dictionary would have more values than its key type has numbers.
    #[error("the dictionary has more values than its keys can number")]
    KeyOverflow,
    /// The value hasn't the length that each slot has.
    #[error("the value has another length than the slots")]
    Length,
}

impl From<AllocError> for BuildError {
    ghost from_gives = { λ _ e. e ≡ Memory };

    fn from(_e: AllocError) -> BuildError {
        BuildError::Memory
    }
}

impl<T: Drop> From<AllocFailed<T>> for BuildError {
    ghost from_gives = { λ _ e. e ≡ Memory };

    fn from(_e: AllocFailed<T>) -> BuildError {
        BuildError::Memory
    }
}
