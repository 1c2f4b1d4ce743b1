//! Whole batches.
//!
//! Arrow columnar format, "RecordBatch message".
ghost use Rattle.std.specs.Prelude.{◌≡◌, ◌+◌, ◌<◌, ◌≤◌, ◌^◌, ◌↔◌, All, IfOk, IsTrue, MatchOption, length, map};
ghost use Rattle.std.specs.Option.{option_map};
ghost use Rattle.ipc_model.specs.Batches;
ghost use Rattle.ipc_model.specs.Kinds.{all_buffers, all_nodes, buffers, nodes};
ghost use Rattle.ipc_reference.specs.PlainBatches.{columns_of, columns_view, reads};
ghost use Rattle.ipc_reference.specs.PlainEntries.{entries_view};
ghost use Rattle.ipc_reference.specs.PlainKinds.{kind_view, kinds_view};
ghost use Rattle.ipc_reference.specs.PlainSlots.{slots_view};
ghost use Rattle.ipc_reference.specs.Rooms.{HasEntries, IsEnough};

use crate::entries::{PlainEntries, size};
use crate::kinds::{PlainKind, buffer_count, node_count};
use crate::slots::{PlainSlot, column};
use crate::well::is_well;
use std::alloc::{AllocError, Global};

// Whether no stated length is negative, and their sum is at most `most`.
fn are_bounded(entries: &PlainEntries, most: u64) -> bool
    ensures { result ≡ Batches.are_bounded (entries_view entries.now) most }
{
    let mut total = 0u128;
    for part in entries.parts {
        if part.length < 0 {
            return false;
        }
        total += size(part.length) as u128;
    }
    total <= most as u128
}

// How many of `count` nodes are left after those of a column. None if they are too few.
#[tactic(auto, using(crate::proofs::Views::kinds, crate::proofs::Views::lefts))]
fn nodes_left(kind: &PlainKind, count: usize) -> Option<usize>
    ensures { MatchOption result (count < nodes (kind_view kind.now)) (λ rest. rest + nodes (kind_view kind.now) ≡ count) }
{
    match kind {
        PlainKind::Int(_) | PlainKind::Utf8 => count.checked_sub(1),
        PlainKind::List(item) => nodes_left(item, count.checked_sub(1)?),
        PlainKind::Struct(fields) => {
            let mut rest = count.checked_sub(1)?;
            for field in fields {
                rest = nodes_left(field, rest)?;
            }
            Some(rest)
        }
    }
}

// The same for buffers.
#[tactic(auto, using(crate::proofs::Views::kinds, crate::proofs::Views::lefts))]
fn buffers_left(kind: &PlainKind, extra: usize, count: usize) -> Option<usize>
    ensures { MatchOption result (count < buffers extra (kind_view kind.now)) (λ rest. rest + buffers extra (kind_view kind.now) ≡ count) }
{
    match kind {
        PlainKind::Int(_) => count.checked_sub(2),
        PlainKind::Utf8 => count.checked_sub(3),
        PlainKind::List(item) => buffers_left(item, extra, count.checked_sub(2)?),
        PlainKind::Struct(fields) => {
            let mut rest = count.checked_sub(1)?;
            for field in fields {
                rest = buffers_left(field, extra, rest)?;
            }
            Some(rest)
        }
    }
}

// Whether there are enough nodes for all columns.
#[tactic(auto, using(crate::proofs::Views::lefts))]
fn are_nodes_enough(kinds: &[PlainKind], count: usize) -> bool
    ensures { IsTrue result ↔ all_nodes (kinds_view kinds.now) ≤ count }
{
    let mut rest = count;
    for kind in kinds {
        match nodes_left(kind, rest) {
            Some(left) => rest = left,
            None => return false,
        }
    }
    true
}

// Whether there are enough buffers for all columns.
#[tactic(auto, using(crate::proofs::Views::lefts))]
fn are_buffers_enough(kinds: &[PlainKind], extra: usize, count: usize) -> bool
    ensures { IsTrue result ↔ all_buffers extra (kinds_view kinds.now) ≤ count }
{
    let mut rest = count;
    for kind in kinds {
        match buffers_left(kind, extra, rest) {
            Some(left) => rest = left,
            None => return false,
        }
    }
    true
}

// The kind of a column.
#[tactic(auto, using(crate::proofs::Places::kind_is))]
fn kind_at(kinds: &[PlainKind], index: usize) -> &PlainKind
    requires { index < length kinds.now }
    ensures { kind_view result.now ≡ Batches.kind_at (kinds_view kinds.now) index }
{
    &kinds[index]
}

// How many nodes precede those of a column.
#[tactic(auto, using(crate::proofs::Places::places))]
fn nodes_before(kinds: &[PlainKind], index: usize) -> usize
    requires index { index < length kinds.now }
    requires few { all_nodes (kinds_view kinds.now) < 2 ^ 64 }
    ensures before { result ≡ Batches.nodes_before (kinds_view kinds.now) index }
    ensures inside { result + nodes (Batches.kind_at (kinds_view kinds.now) index) ≤ all_nodes (kinds_view kinds.now) }
{
    let mut count = 0;
    for i in 0..index {
        count += node_count(kind_at(kinds, i));
    }
    count
}

// The same for buffers.
#[tactic(auto, using(crate::proofs::Places::places))]
fn buffers_before(kinds: &[PlainKind], extra: usize, index: usize) -> usize
    requires index { index < length kinds.now }
    requires few { all_buffers extra (kinds_view kinds.now) < 2 ^ 64 }
    ensures before { result ≡ Batches.buffers_before extra (kinds_view kinds.now) index }
    ensures inside { result + buffers extra (Batches.kind_at (kinds_view kinds.now) index) ≤ all_buffers extra (kinds_view kinds.now) }
{
    let mut count = 0;
    for i in 0..index {
        count += buffer_count(kind_at(kinds, i), extra);
    }
    count
}

// The entries of a column: as many as its kind needs, from its position on.
fn own<'a>(entries: &PlainEntries<'a>, kinds: &[PlainKind], index: usize) -> PlainEntries<'a>
    requires index { index < length kinds.now }
    requires enough { IsEnough entries.now (kinds_view kinds.now) }
    ensures own { entries_view result ≡ Batches.own (entries_view entries.now) (kinds_view kinds.now) index }
    ensures room { HasEntries result (Batches.kind_at (kinds_view kinds.now) index) 0 0 }
{
    let kind = kind_at(kinds, index);
    let node = nodes_before(kinds, index);
    let buffer = buffers_before(kinds, entries.extra, index);
    PlainEntries {
        nodes: &entries.nodes[node..node + node_count(kind)],
        parts: &entries.parts[buffer..buffer + buffer_count(kind, entries.extra)],
        order: entries.order,
        extra: entries.extra,
    }
}

// Whether a column is valid and has so many rows.
#[tactic(auto, using(crate::proofs::Places::read_is, crate::proofs::Places::room_of))]
fn is_read(
    entries: &PlainEntries,
    kinds: &[PlainKind],
    limit: Option<usize>,
    rows: usize,
    index: usize,
) -> bool
    requires index { index < length kinds.now }
    requires enough { IsEnough entries.now (kinds_view kinds.now) }
    ensures { result ≡ reads (entries_view entries.now) (kinds_view kinds.now) limit rows index }
{
    let own = own(entries, kinds, index);
    is_well(&own, kind_at(kinds, index), 0, 0, limit) && own.rows(0, limit) == rows
}

// Whether each of some columns is.
fn all_read(
    entries: &PlainEntries,
    kinds: &[PlainKind],
    limit: Option<usize>,
    rows: usize,
    chosen: &[usize],
) -> bool
    requires chosen { All (λ j. j < length kinds.now) chosen.now }
    requires enough { IsEnough entries.now (kinds_view kinds.now) }
    ensures { result ≡ Batches.all_read (entries_view entries.now) (kinds_view kinds.now) limit rows chosen.now }
{
    for index in chosen {
        if !is_read(entries, kinds, limit, rows, *index) {
            return false;
        }
    }
    true
}

// How many rows the first of some columns has.
fn first_rows(
    entries: &PlainEntries,
    kinds: &[PlainKind],
    limit: Option<usize>,
    chosen: &[usize],
) -> usize
    requires chosen { All (λ j. j < length kinds.now) chosen.now }
    requires enough { IsEnough entries.now (kinds_view kinds.now) }
    ensures { result ≡ Batches.first_rows (entries_view entries.now) (kinds_view kinds.now) limit chosen.now }
{
    if chosen.is_empty() {
        return 0;
    }
    own(entries, kinds, chosen[0]).rows(0, limit)
}

// Whether the entries suffice, and the chosen columns are valid and of one length.
fn is_batch(
    entries: &PlainEntries,
    most: u64,
    kinds: &[PlainKind],
    chosen: &[usize],
    limit: Option<usize>,
) -> bool
    requires { All (λ j. j < length kinds.now) chosen.now }
    ensures test { result ≡ Batches.is_batch (entries_view entries.now) most (kinds_view kinds.now) chosen.now limit }
    ensures enough { IsTrue result → IsEnough entries.now (kinds_view kinds.now) }
{
    if !are_bounded(entries, most)
        || !are_nodes_enough(kinds, entries.nodes.len())
        || !are_buffers_enough(kinds, entries.extra, entries.parts.len())
    {
        return false;
    }
    let rows = first_rows(entries, kinds, limit, chosen);
    all_read(entries, kinds, limit, rows, chosen)
}

// The slots of a column.
#[tactic(auto, using(crate::proofs::Places::slots_are, crate::proofs::Places::room_of))]
fn slots_of_column(
    alloc: Global,
    entries: &PlainEntries,
    kinds: &[PlainKind],
    limit: Option<usize>,
    index: usize,
) -> Result<Vec<PlainSlot>, AllocError>
    requires index { index < length kinds.now }
    requires enough { IsEnough entries.now (kinds_view kinds.now) }
    ensures { IfOk result (λ v. slots_view v.items ≡ Batches.slots_of_column (entries_view entries.now) (kinds_view kinds.now) limit index) }
{
    let own = own(entries, kinds, index);
    column(alloc, &own, kind_at(kinds, index), 0, 0, limit)
}

// The slots of the chosen columns.
fn columns(
    alloc: Global,
    entries: &PlainEntries,
    kinds: &[PlainKind],
    chosen: &[usize],
    limit: Option<usize>,
) -> Result<Vec<Vec<PlainSlot>>, AllocError>
    requires chosen { All (λ j. j < length kinds.now) chosen.now }
    requires enough { IsEnough entries.now (kinds_view kinds.now) }
    ensures { IfOk result (λ v. columns_view v.items ≡ map (λ j. Batches.slots_of_column (entries_view entries.now) (kinds_view kinds.now) limit j) chosen.now) }
{
    let mut columns = Vec::new(alloc);
    for index in chosen {
        columns.push(slots_of_column(alloc, entries, kinds, limit, *index)?)?;
    }
    Ok(columns)
}

/// Whether each chosen column is less than `count`.
pub fn is_projection(chosen: &[usize], count: usize) -> bool
    ensures { IsTrue result ↔ All (λ j. j < count) chosen.now }
{
    chosen.iter().all(|index| *index < count)
}

/// The slots of the chosen columns of a batch, in the order of `chosen`.
///
/// None if the batch is invalid. `most` is how many bytes its buffers may have together.
pub fn plain_batch(
    alloc: Global,
    entries: &PlainEntries,
    most: u64,
    kinds: &[PlainKind],
    chosen: &[usize],
    limit: Option<usize>,
) -> Result<Option<Vec<Vec<PlainSlot>>>, AllocError>
    requires { All (λ j. j < length kinds.now) chosen.now }
    ensures { IfOk result (λ r. option_map (λ v. columns_view v.items) r ≡ columns_of (entries_view entries.now) most (kinds_view kinds.now) chosen.now limit) }
{
    if !is_batch(entries, most, kinds, chosen, limit) {
        return Ok(None);
    }
    Ok(Some(columns(alloc, entries, kinds, chosen, limit)?))
}
