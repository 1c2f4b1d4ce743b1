//! Why a call on arrays fails.
ghost use Rattle.std.specs.Prelude.{◌≡◌};
ghost use Rattle.lower_compute.specs.declared.error.ComputeError.TheVariants.{Memory};
ghost use Rattle.lower_compute.specs.Errors.{build_error};

use lower_builders::error::BuildError;
use std::alloc::{AllocError, AllocFailed};
use thiserror::Error;

/// Why a call on arrays fails.
#[derive(Debug, Clone, Copy, Drop, PartialEq, Eq, Error)]
pub enum ComputeError {
    /// An allocation failed.
    #[error("out of memory")]
    Memory,
    /// The mask has another length than the array.
    #[error("the mask has another length than the array")]
    Length,
    /// The index at this position is past the end of the array.
    #[error("the index at position {0} is past the end of the array")]
    Index(usize),
    /// The arrays have different types.
    #[error("the arrays have different types")]
    Type,
    /// No array is given.
    #[error("no array is given")]
    NothingGiven,
    /// A length, an offset or a key would be above the maximum of its type.
    #[error("a length, an offset or a key is above the maximum of its type")]
    Overflow,
}

impl From<AllocError> for ComputeError {
    ghost from_gives = { λ _ e. e ≡ Memory };

    fn from(_e: AllocError) -> ComputeError {
        ComputeError::Memory
    }
}

impl<T: Drop> From<AllocFailed<T>> for ComputeError {
    ghost from_gives = { λ _ e. e ≡ Memory };

    fn from(_e: AllocFailed<T>) -> ComputeError {
        ComputeError::Memory
    }
}

impl From<BuildError> for ComputeError {
    ghost from_gives = { λ e error. error ≡ build_error e };

    fn from(e: BuildError) -> ComputeError {
        match e {
            BuildError::Memory => ComputeError::Memory,
            _ => ComputeError::Overflow,
        }
    }
}
