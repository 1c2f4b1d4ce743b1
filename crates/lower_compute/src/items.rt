//! Copies of values, run by run.
ghost use Rattle.std.specs.Prelude.{◌≡◌, map, length, IfOk};
ghost use Rattle.std.specs.List.{All};
ghost use Rattle.lower_compute.specs.Runs.{RunFits, items_of_runs};

use crate::runs::Run;
use std::alloc::{AllocError, Global};

/// Returns the values of each run, in order.
pub(crate) fn copy_items<T: Copy>(
    alloc: Global,
    lists: &[&[T]],
    runs: &[Run],
) -> Result<Vec<T>, AllocError>
    requires { All (RunFits (map (λ xs. length xs.now) lists.now)) runs.now }
    ensures { IfOk result
        (λ v. v.items ≡ items_of_runs (map (λ xs. xs.now) lists.now) runs.now) }
{
    let mut items = Vec::new(alloc);
    for run in runs {
        let list = lists[run.array];
        let rest = &list[run.offset..];
        items.extend_from_slice(&rest[..run.len])?;
    }
    Ok(items)
}
