//! Projections: which columns of a batch are read, and in which order.
//!
//! A reader visits a batch once. So it takes the columns in ascending order, and reorders them
//! afterwards.
ghost use Rattle.std.specs.Prelude.{◌≡◌, ◌↔◌, ◌<◌, ℕ, nat_eq, [], length, IsTrue, IsSome, Some, IfErr, IfOk};
ghost use Rattle.std.specs.List.{All, filter_map};
ghost use Rattle.std.specs.HashMap.{get, keys};
ghost use Rattle.ipc_devices.specs.declared.fault.Fault.TheVariants.{Memory};
ghost use Rattle.ipc_model.specs.Batches.{IsProjection};
ghost use Rattle.ipc_projection.specs.Projections.{IsIncreasing, IsPrepared, IsReordering, AreReordered, PreparedLaw};
ghost use Rattle.ipc_projection.specs.Placing.{Placing};
ghost use Rattle.ipc_projection.specs.Steps.{HasFirstKeys, HasPlaces, IsApart, IsPlace};
ghost use Rattle.ipc_projection.specs.ChosenColumns.{items_of};

use crate::fault::Fault;
use ipc_base::chunk::{Chunk, Rows};
use lower_arrays::array::AnyArray;
use std::alloc::{AllocError, Global};
use std::collections::HashMap;
use std::marker::Model;

/// A theorem: a prepared projection is a projection, since ascending columns are distinct.
#[tactic(auto, using(crate::proofs::Prepared::prepared_projection))]
pub fn prepared_projections()
    ensures { PreparedLaw }
{}

/// Returns whether a projection has only indices below `columns`, without repeats.
///
/// The order doesn't count, and the projection may be empty. It allocates nothing, and compares
/// each index with each other one.
pub fn is_projection(projection: &[usize], columns: usize) -> bool
    ensures { IsTrue result ↔ IsProjection (Some projection.now) columns }
{
    let mut rest = projection;
    while let Some((column, others)) = rest.split_first() {
        if *column >= columns || others.contains(column) {
            return false;
        }
        rest = others;
    }
    true
}

/// Returns whether the requested columns are a projection, or all columns are requested.
pub fn are_there(projection: &Option<Vec<usize>>, columns: usize) -> bool
    ensures { IsTrue result ↔ IsProjection (items_of projection.now) columns }
{
    match projection {
        Some(asked) => is_projection(asked, columns),
        None => true,
    }
}

/// Returns whether the indices are below `columns` and strictly ascending.
///
/// Readers of batches need such a projection. It may be empty. It allocates nothing.
pub fn is_prepared(projection: &[usize], columns: usize) -> bool
    ensures { IsTrue result ↔ IsPrepared projection.now columns }
{
    let mut rest = projection;
    let mut least = 0;
    while let Some((column, others)) = rest.split_first() {
        if *column < least || *column >= columns {
            return false;
        }
        least = *column + 1;
        rest = others;
    }
    true
}

/// Returns whether a map is a reordering of `columns` columns.
///
/// Its keys must be the numbers below `columns`, and its values these numbers too, each of one key.
/// The empty map reorders no columns. It allocates nothing, and compares each value with each other
/// one.
pub fn is_reordering(map: &HashMap<usize, usize>, columns: usize) -> bool
    ensures { IsTrue result ↔ IsReordering map.now columns }
{
    has_keys(map, columns) && has_places(map, columns)
}

// Whether the keys are the numbers below this one.
fn has_keys(map: &HashMap<usize, usize>, columns: usize) -> bool
    ensures { IsTrue result ↔ HasFirstKeys map.now columns }
{
    has_keys_below(map, columns) && has_each_key(map, columns)
}

// Whether each key is below this number.
fn has_keys_below(map: &HashMap<usize, usize>, columns: usize) -> bool
    ensures { IsTrue result ↔ All (λ key. key < columns) (keys map.now) }
{
    map.keys().all(|key| *key < columns)
}

// Whether each number below this one is a key.
fn has_each_key(map: &HashMap<usize, usize>, columns: usize) -> bool
    ensures { IsTrue result ↔ ((i : ℕ) → i < columns → IsSome (get nat_eq map.now i)) }
{
    for column in 0..columns {
        if !map.contains_key(&column) {
            return false;
        }
    }
    true
}

// Whether each number below this one is the value of exactly one column.
fn has_places(map: &HashMap<usize, usize>, columns: usize) -> bool
    ensures { IsTrue result ↔ HasPlaces map.now columns }
{
    has_places_apart(map, columns) && has_each_place(map, columns)
}

// Whether each column has a value below this number, and none the value of a column before it.
fn has_places_apart(map: &HashMap<usize, usize>, columns: usize) -> bool
    ensures { IsTrue result ↔ ((i : ℕ) → i < columns → IsApart map.now columns i) }
{
    for column in 0..columns {
        if !is_apart(map, column, columns) {
            return false;
        }
    }
    true
}

// Whether a column has a value below this number, which no column before it has.
fn is_apart(map: &HashMap<usize, usize>, column: usize, columns: usize) -> bool
    ensures { IsTrue result ↔ IsApart map.now columns column }
{
    match map.get(&column) {
        Some(place) => *place < columns && !is_place(map, *place, column),
        None => false,
    }
}

// Whether each number below this one is the value of a column.
fn has_each_place(map: &HashMap<usize, usize>, columns: usize) -> bool
    ensures { IsTrue result ↔ ((p : ℕ) → p < columns → IsPlace map.now columns p) }
{
    for place in 0..columns {
        if !is_place(map, place, columns) {
            return false;
        }
    }
    true
}

// Whether one of the first columns has this value.
fn is_place(map: &HashMap<usize, usize>, place: usize, columns: usize) -> bool
    ensures { IsTrue result ↔ IsPlace map.now columns place }
{
    for column in 0..columns {
        if goes_to(map, column, place) {
            return true;
        }
    }
    false
}

// Whether this column has this value.
fn goes_to(map: &HashMap<usize, usize>, column: usize, place: usize) -> bool
    ensures { IsTrue result ↔ (get nat_eq map.now column ≡ Some place) }
{
    match map.get(&column) {
        Some(found) => *found == place,
        None => false,
    }
}

/// Returns the chunk with column `i` at index `map[i]`.
///
/// The map must reorder as many columns as the chunk has, as [`is_reordering`] tests. No column is
/// copied. The only error is `Fault::Memory`; the chunk is dropped then.
pub fn apply_projection(
    alloc: Global,
    chunk: Chunk<AnyArray>,
    map: &HashMap<usize, usize>,
) -> Result<Chunk<AnyArray>, Fault>
    requires { IsReordering map.now (length chunk) }
    ensures columns { IfOk result (λ ordered. AreReordered map.now chunk ordered) }
    ensures only { IfErr result (λ fault. fault ≡ Memory) }
{
    let ordered = reordered(alloc, chunk, map)?;
    Ok(ordered)
}

// The same for any type of columns.
#[tactic(auto, using(crate::proofs::Moves::moved_equal))]
fn reordered<A: Rows>(
    alloc: Global,
    chunk: Chunk<A>,
    map: &HashMap<usize, usize>,
) -> Result<Chunk<A>, AllocError>
    requires { IsReordering map.now (length chunk) }
    ensures { IfOk result (λ ordered. AreReordered map.now chunk ordered) }
{
    let columns = in_order(alloc, chunk.into_arrays(), map)?;
    Ok(Chunk::new(columns))
}

// Moves each column to its new index.
#[tactic(auto, using(crate::proofs::Moves::all_moved_to))]
fn in_order<T: Drop>(
    alloc: Global,
    columns: Vec<T>,
    map: &HashMap<usize, usize>,
) -> Result<Vec<T>, AllocError>
    requires { IsReordering map.now (length columns.items) }
    ensures { IfOk result (λ ordered. AreReordered map.now columns.items ordered.items) }
{
    let places = placed(alloc, columns, map)?;
    let ordered = filled(alloc, places)?;
    Ok(ordered)
}

// The columns at the indices.
fn filled<T: Drop>(alloc: Global, places: Vec<Option<T>>) -> Result<Vec<T>, AllocError>
    ensures { IfOk result (λ ordered. ordered.items ≡ filter_map (λ place. place) places.items) }
{
    places.into_iter().filter_map(|place| place).collect(alloc)
}

// Moves each column to its new index. The last is taken first, so that no column is shifted.
#[tactic(auto, using(crate::proofs::Moves::begun, crate::proofs::Moves::has_place, crate::proofs::Moves::has_room, crate::proofs::Moves::one_placed))]
fn placed<T: Drop>(
    alloc: Global,
    mut columns: Vec<T>,
    map: &HashMap<usize, usize>,
) -> Result<Vec<Option<T>>, AllocError>
    requires { IsReordering map.now (length columns.items) }
    ensures { IfOk result (λ places. Placing map.now columns.items [] places.items) }
{
    let mut places = Vec::with_capacity(alloc, columns.len())?;
    places.resize_with(columns.len(), || None)?;
    while let Some(column) = columns.pop() {
        let place = map[&columns.len()];
        places[place] = Some(column);
    }
    Ok(places)
}

/// An item, and whether a projection selects it.
#[derive(Debug, PartialEq, Eq, Hash, Drop)]
pub enum ProjectionResult<T> {
    /// The projection selects it.
    Selected(T),
    /// The projection doesn't select it.
    NotSelected(T),
}

/// An iterator over items, each with whether a projection selects its index.
///
/// Its model is the inner iterator, and whether each remaining item is selected.
#[derive(Drop)]
pub struct ProjectionIter<'a, I: Iterator> {
    // The selected indices that remain.
    projection: &'a [usize],
    iter: I,
    // The index of the next item, as long as a selected one remains. After the last one nothing is
    // counted, so the count can't overflow.
    count: usize,
}

impl<'a, I: Iterator> Model for ProjectionIter<'a, I> {
    ghost use Rattle.ipc_projection.specs.Projected.{Projected};
    ghost use Rattle.ipc_projection.specs.Projections.{IsIncreasingFrom};

    ghost Value = { Projected I };

    ghost view = { λ it. record { source = it.iter; next = it.count; columns = it.projection.now } };

    ghost invariant = { λ it. IsIncreasingFrom it.count it.projection.now };
}

impl<'a, I: Iterator> ProjectionIter<'a, I> {
    ghost use Rattle.std.specs.Prelude.{◌==◌};
    ghost use Rattle.std.specs.List.{list_any};
    ghost use Rattle.ipc_projection.specs.Projected.{is_chosen};

    /// Returns an iterator that marks the items whose index is in `projection`.
    ///
    /// Indices start at 0. The projection must be strictly increasing; it may be empty, and have
    /// indices that no item has. It allocates nothing.
    pub fn new(projection: &'a [usize], iter: I) -> Self
        requires { IsIncreasing projection.now }
        ensures source { result.source ≡ iter }
        ensures chosen { (i : ℕ)
            → is_chosen result i ≡ list_any (λ j. i == j) projection.now }
    {
        ProjectionIter {
            projection,
            iter,
            count: 0,
        }
    }
}

impl<'a, I: Iterator + Drop> Iterator for ProjectionIter<'a, I> {
    ghost use Rattle.ipc_projection.specs.Marks.{Marks};

    type Item = ProjectionResult<I::Item>;

    ghost can_next = { λ s. I.can_next s.source };

    ghost next_gives = { λ s r t. Marks I.next_gives s r t };

    ghost remaining = { λ s. I.remaining s.source };

    /// Returns the next item, marked. If the inner iterator has none, nothing is counted.
    fn next(&mut self) -> Option<ProjectionResult<I::Item>> {
        let item = self.iter.next()?;
        let Some((column, others)) = self.projection.split_first() else {
            return Some(ProjectionResult::NotSelected(item));
        };
        if self.count < *column {
            self.count += 1;
            return Some(ProjectionResult::NotSelected(item));
        }
        if let Some(next) = others.first() {
            let _next = *next;
            self.count += 1;
        }
        self.projection = others;
        Some(ProjectionResult::Selected(item))
    }
}
