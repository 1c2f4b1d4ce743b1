//! Prepares projections: columns in ascending order, and the requested index of each.
ghost use Rattle.std.specs.Prelude.{◌≡◌, ℕ, ◌<◌, nat_eq, map, length, slice_get, option_map, IfErr, IfOk, Some};
ghost use Rattle.std.specs.HashMap.{get};
ghost use Rattle.std.specs.List.{enumerate_from, AllByRecursion};
ghost use Rattle.std.specs.List.Sorted.{IsPermutation, IsNonDecreasingBy};
ghost use Rattle.ipc_devices.specs.declared.fault.Fault.TheVariants.{Memory};
ghost use Rattle.lower.specs.TypeViews.{field_view};
ghost use Rattle.ipc_model.specs.Batches.{IsProjection};
ghost use Rattle.ipc_projection.specs.Preparing.{Prepares, ReorderLaw, selected};

use crate::fault::Fault;
use lower::datatypes::Field;
use std::alloc::{AllocError, Global};
use std::collections::HashMap;

/// A theorem: reading by a prepared projection and reordering is reading by the projection.
pub fn reordered_batches(map: &HashMap<usize, usize>)
    ensures { ReorderLaw map.now }
{}

/// Prepares a projection for readers, which take columns in ascending order.
///
/// It returns three values:
///
/// - The columns in ascending order.
/// - A map from the index of each column there to its index in `projection`, for
///   `apply_projection`.
/// - The fields of the columns, in the order of `projection`.
///
/// For `[2, 0, 1]` the columns are 0, 1 and 2, and the map is 0 to 1, 1 to 2, and 2 to 0. The
/// columns must exist, without repeats, as `is_projection` tests. The only error is
/// `Fault::Memory`.
pub fn prepare_projection(
    alloc: Global,
    fields: &[Field],
    projection: Vec<usize>,
) -> Result<(Vec<usize>, HashMap<usize, usize>, Vec<Field>), Fault>
    requires { IsProjection (Some projection.items) (length fields.now) }
    ensures order { IfOk result (λ r.
        Prepares projection.items (length fields.now) r.0.items r.1) }
    ensures fields { IfOk result (λ r. map field_view r.2.items
        ≡ selected (map field_view fields.now) projection.items) }
    ensures only { IfErr result (λ fault. fault ≡ Memory) }
{
    let prepared = prepared(alloc, fields, &projection)?;
    Ok(prepared)
}

// The same, for a borrowed projection.
fn prepared(
    alloc: Global,
    fields: &[Field],
    projection: &[usize],
) -> Result<(Vec<usize>, HashMap<usize, usize>, Vec<Field>), AllocError>
    requires { IsProjection (Some projection.now) (length fields.now) }
    ensures order { IfOk result (λ r. Prepares projection.now (length fields.now) r.0.items r.1) }
    ensures fields { IfOk result (λ r. map field_view r.2.items ≡ selected (map field_view fields.now) projection.now) }
{
    let pairs = in_rising_order(alloc, projection)?;
    let columns = columns_of(alloc, &pairs)?;
    let places = places_of(alloc, &pairs)?;
    let selected = selected_fields(alloc, fields, projection)?;
    Ok((columns, places, selected))
}

// The columns of a projection in ascending order, each after its index in the projection.
fn in_rising_order(alloc: Global, projection: &[usize]) -> Result<Vec<(usize, usize)>, AllocError>
    ensures same { IfOk result (λ pairs. IsPermutation (enumerate_from 0 projection.now) pairs.items) }
    ensures rising { IfOk result (λ pairs. IsNonDecreasingBy (λ (p : ℕ × ℕ). p.1) pairs.items) }
{
    let mut pairs = with_places(alloc, projection)?;
    pairs.sort_unstable_by_key(|pair| pair.1);
    Ok(pairs)
}

// Each column after its index.
fn with_places(alloc: Global, projection: &[usize]) -> Result<Vec<(usize, usize)>, AllocError>
    ensures { IfOk result (λ pairs. pairs.items ≡ enumerate_from 0 projection.now) }
{
    projection.iter().copied().enumerate().collect(alloc)
}

// The columns of such pairs.
fn columns_of(alloc: Global, pairs: &[(usize, usize)]) -> Result<Vec<usize>, AllocError>
    ensures { IfOk result (λ columns. columns.items ≡ map (λ (p : ℕ × ℕ). p.1) pairs.now) }
{
    pairs.iter().map(|pair| pair.1).collect(alloc)
}

// The indices of such pairs, in a map from the positions of the pairs.
fn places_of(alloc: Global, pairs: &[(usize, usize)]) -> Result<HashMap<usize, usize>, AllocError>
    ensures { IfOk result (λ places. (i : ℕ) → get nat_eq places i ≡ option_map (λ (p : ℕ × ℕ). p.0) (slice_get pairs.now i)) }
{
    let mut places = HashMap::with_capacity(alloc, pairs.len())?;
    for (column, pair) in pairs.iter().enumerate() {
        places.insert(column, pair.0)?;
    }
    Ok(places)
}

// The fields of the columns, in the order of the projection.
fn selected_fields(
    alloc: Global,
    fields: &[Field],
    projection: &[usize],
) -> Result<Vec<Field>, AllocError>
    requires { AllByRecursion (λ j. j < length fields.now) projection.now }
    ensures { IfOk result (λ chosen. map field_view chosen.items ≡ selected (map field_view fields.now) projection.now) }
{
    let mut chosen = Vec::with_capacity(alloc, projection.len())?;
    for column in projection {
        chosen.push(fields[*column].clone()?)?;
    }
    Ok(chosen)
}
