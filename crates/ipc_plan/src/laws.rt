//! Theorems about what the levels of a plan mean in a batch. The functions do nothing.

ghost use Rattle.ipc_plan.specs.Batches.{ColumnsBatchLaw};
ghost use Rattle.ipc_plan.specs.Meaning.{ArrayLaw, LevelsLaw};

/// In a batch, the levels of some slots of an array mean these slots.
///
/// They are a valid column of the array's type.
pub fn levels_mean_their_slots()
    ensures { LevelsLaw }
{}

/// In a batch, the levels of an array are a valid column with its slots.
pub fn arrays_mean_their_slots()
    ensures { ArrayLaw }
{}

/// A record batch with the content of a plan means the columns.
pub fn batches_mean_their_columns()
    ensures { ColumnsBatchLaw }
{}
