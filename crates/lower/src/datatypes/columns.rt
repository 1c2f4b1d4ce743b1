//! Several columns by their names, and the errors of choosing columns.
ghost use Rattle.std.specs.Prelude.{◌≡◌, IfErr, IfOk, length, map};
ghost use Rattle.lower.specs.declared.datatypes.columns.NameError.TheVariants.{Memory as NameMemory};
ghost use Rattle.lower.specs.declared.datatypes.columns.ProjectError.TheVariants.{Memory as ProjectMemory};
ghost use Rattle.lower.specs.Columns.{HaveNames, AreDistinct, NameCause};

use super::Schema;
use std::alloc::{AllocError, AllocFailed, Global};
use thiserror::Error;

/// Why names aren't names of different columns.
#[derive(Debug, Clone, Copy, Drop, PartialEq, Eq, Error)]
pub enum NameError {
    /// No column has the name at this index.
    #[error("there is no column of name {0}")]
    Missing(usize),
    /// The name at this index is equal to an earlier one.
    #[error("name {0} is an earlier one again")]
    Repeated(usize),
    /// An allocation failed.
    #[error("out of memory")]
    Memory,
}

impl From<AllocError> for NameError {
    ghost from_gives = { λ _ error. error ≡ NameMemory };

    fn from(_e: AllocError) -> NameError {
        NameError::Memory
    }
}

impl<T: Drop> From<AllocFailed<T>> for NameError {
    ghost from_gives = { λ _ error. error ≡ NameMemory };

    fn from(_e: AllocFailed<T>) -> NameError {
        NameError::Memory
    }
}

/// Why indices aren't indices of columns.
#[derive(Debug, Clone, Copy, Drop, PartialEq, Eq, Error)]
pub enum ProjectError {
    /// There are no more columns than the number at this index.
    #[error("there is no column of index {0}")]
    Missing(usize),
    /// An allocation failed.
    #[error("out of memory")]
    Memory,
}

impl From<AllocError> for ProjectError {
    ghost from_gives = { λ _ error. error ≡ ProjectMemory };

    fn from(_e: AllocError) -> ProjectError {
        ProjectError::Memory
    }
}

impl<T: Drop> From<AllocFailed<T>> for ProjectError {
    ghost from_gives = { λ _ error. error ≡ ProjectMemory };

    fn from(_e: AllocFailed<T>) -> ProjectError {
        ProjectError::Memory
    }
}

/// Returns the indices of the first columns of these names, in the order of the names.
///
/// They are a projection: each is a column, and none is repeated. The errors are
///
/// - `Missing(i)`: no column has the name at index `i`, and those before are different columns;
/// - `Repeated(i)`: the name at index `i` is equal to an earlier one, and those before are
///   different columns;
/// - `Memory`: an allocation failed.
pub fn columns_named(
    alloc: Global,
    schema: &Schema,
    names: &[&str],
) -> Result<Vec<usize>, NameError>
    ensures named { let texts = map (λ n. n.now) names.now in
        IfOk result (λ v. HaveNames schema.now.fields.items texts v.items) }
    ensures projection { IfOk result (λ v. AreDistinct v.items (length schema.now.fields.items)) }
    ensures error { let texts = map (λ n. n.now) names.now in
        IfErr result (NameCause schema.now.fields.items texts) }
{
    let mut columns = Vec::new(alloc);
    for (i, name) in names.iter().enumerate() {
        let Some(column) = schema.index_of(name) else {
            return Err(NameError::Missing(i));
        };
        if columns.contains(&column) {
            return Err(NameError::Repeated(i));
        }
        columns.push(column)?;
    }
    Ok(columns)
}
