//! Checks the lengths of a chunk's dictionaries, also of those that needn't be written.
ghost use Rattle.std.specs.Prelude.{◌≡◌, ◌≤◌, ◌++◌, [], map, IsTrue, MatchResult};
ghost use Rattle.std.specs.List.{AllByRecursion};
ghost use Rattle.lower_arrays.specs.AnyLayouts.{layout_of};
ghost use Rattle.lower_arrays.specs.Layouts.{height, heights, layouts};
ghost use Rattle.ipc_chunks.specs.Lengths.{AnswersLengths, HasLengths, RefusesLengths, dictionaries_below, dictionaries_in, own_dictionaries};

use ipc_devices::Fault;
use ipc_plan::serialize::plan_columns;
use lower::types::Endianness;
use lower_arrays::array::AnyArray;
use std::alloc::Global;
use std::slice;

/// Refuses columns of a chunk with a dictionary that is too long for a message.
///
/// Most chunks have no dictionary, which is found at once. The errors are those of
/// [`check_lengths`].
pub fn check_dictionaries(alloc: Global, columns: &[AnyArray]) -> Result<(), Fault>
    ensures { AnswersLengths result (dictionaries_in (layouts (map layout_of columns.now))) }
{
    if are_flat(columns) {
        return Ok(());
    }
    check_lengths(alloc, columns)
}

// Whether no array is a dictionary, or has others below it.
fn are_flat(arrays: &[AnyArray]) -> bool
    ensures { IsTrue result
        → AllByRecursion HasLengths (dictionaries_in (layouts (map layout_of arrays.now))) }
{
    for array in arrays {
        if !is_flat(array) {
            return false;
        }
    }
    true
}

// Whether an array is neither a dictionary nor has others below it.
fn is_flat(array: &AnyArray) -> bool
    ensures below { IsTrue result → dictionaries_below (layout_of array.now) ≡ [] }
    ensures own { IsTrue result → own_dictionaries (layout_of array.now) ≡ [] }
{
    match array {
        AnyArray::List(_) => false,
        AnyArray::LargeList(_) => false,
        AnyArray::FixedSizeList(_) => false,
        AnyArray::Struct(_) => false,
        AnyArray::Union(_) => false,
        AnyArray::Map(_) => false,
        AnyArray::Dictionary(_) => false,
        _ => true,
    }
}

/// Refuses columns with a dictionary that is too long for a message.
///
/// Dictionaries inside the values of others are checked too. Errors:
///
/// - `Fault::Argument(ArgFault::TooLong)`: an array in some values has more than `2^63 - 1` slots
///   to write.
/// - `Fault::Argument(ArgFault::TooLarge)`: the body of some values is longer than `2^63 - 1`
///   bytes.
/// - `Fault::Memory`: an allocation failed.
#[cycle(lengths)]
pub fn check_lengths(alloc: Global, columns: &[AnyArray]) -> Result<(), Fault>
    ensures { AnswersLengths result (dictionaries_in (layouts (map layout_of columns.now))) }
{
    for column in columns {
        check_column(alloc, column)?;
    }
    Ok(())
}

// Checks the dictionaries below an array, and then its own.
#[cycle(lengths)]
fn check_column(alloc: Global, column: &AnyArray) -> Result<(), Fault>
    ensures { AnswersLengths result (dictionaries_below (layout_of column.now) ++ own_dictionaries (layout_of column.now)) }
{
    check_lengths(alloc, below(column))?;
    check_own(alloc, column)
}

// Checks the values of an array of keys.
fn check_own(alloc: Global, column: &AnyArray) -> Result<(), Fault>
    ensures { AnswersLengths result (own_dictionaries (layout_of column.now)) }
{
    match column {
        AnyArray::Dictionary(array) => check_values(alloc, array.values()),
        _ => Ok(()),
    }
}

// Checks the lengths of values by planning them, as for a message.
fn check_values(alloc: Global, values: &AnyArray) -> Result<(), Fault>
    ensures { MatchResult result (λ _. HasLengths (layout_of values.now)) (RefusesLengths (layout_of values.now)) }
{
    let _ = plan_columns(alloc, slice::from_ref(values), Endianness::Little)?;
    Ok(())
}

// The arrays in which dictionaries below an array are: the children, or those of a dictionary's
// values.
fn below(array: &AnyArray) -> &[AnyArray]
    ensures same { dictionaries_in (layouts (map layout_of result.now)) ≡ dictionaries_below (layout_of array.now) }
    ensures small { heights (layouts (map layout_of result.now)) ≤ height (layout_of array.now) }
{
    match array {
        AnyArray::Dictionary(array) => below(array.values()),
        AnyArray::List(array) | AnyArray::LargeList(array) => slice::from_ref(array.values()),
        AnyArray::FixedSizeList(array) => slice::from_ref(array.values()),
        AnyArray::Map(array) => slice::from_ref(array.field()),
        AnyArray::Struct(array) => array.values(),
        AnyArray::Union(array) => array.fields(),
        _ => &[],
    }
}
