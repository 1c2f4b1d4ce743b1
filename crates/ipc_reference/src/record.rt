//! Record batches from their tables.
//!
//! Arrow columnar format, "RecordBatch message".
ghost use Rattle.std.specs.Prelude.{◌≡◌, ◌+◌, ◌<◌, ◌^◌, [], All, IfOk, MatchOption, None, Some, length, map};
ghost use Rattle.std.specs.Option.{option_map};
ghost use Rattle.ipc_model.specs.Batches.{entries_of, lists_of};
ghost use Rattle.ipc_model.specs.Entries.{part_at};
ghost use Rattle.ipc_reference.specs.PlainBatches.{columns_of, columns_view};
ghost use Rattle.ipc_reference.specs.PlainEntries.{part_view};
ghost use Rattle.ipc_reference.specs.PlainKinds.{kinds_view};
ghost use Rattle.ipc_reference.specs.PlainRecords.{RecordLaw, body_view, record_columns};

use crate::batch::plain_batch;
use crate::entries::{PlainEntries, PlainPart, size};
use crate::kinds::PlainKind;
use crate::numbers::window;
use crate::slots::PlainSlot;
use ipc_table_views::{Buffer, Buffers, FieldNode, Nodes, RecordBatchRef};
use lower_types::Endianness;
use std::alloc::{AllocError, Global};

// A buffer entry, in a source whose body begins at `base`.
#[tactic(auto, using(crate::proofs::Windows::windows))]
fn part<'a>(source: &'a [u8], base: usize, entry: Buffer) -> PlainPart<'a>
    requires { base < 2 ^ 63 }
    ensures { part_view result ≡ part_at source.now base entry }
{
    let bytes = if entry.offset < 0 || entry.length < 0 {
        &[]
    } else {
        window(source, base + size(entry.offset), size(entry.length))
    };
    PlainPart {
        offset: entry.offset,
        length: entry.length,
        bytes,
    }
}

// All buffer entries.
#[tactic(auto, using(crate::proofs::Windows::part_more))]
fn parts<'a>(
    alloc: Global,
    source: &'a [u8],
    base: usize,
    buffers: &Buffers,
) -> Result<Vec<PlainPart<'a>>, AllocError>
    requires { base < 2 ^ 63 }
    ensures { IfOk result (λ v. map part_view v.items ≡ map (part_at source.now base) buffers.now) }
{
    let mut parts = Vec::new(alloc);
    for index in 0..buffers.len() {
        parts.push(part(source, base, buffers.get(index)))?;
    }
    Ok(parts)
}

// All nodes.
#[tactic(auto, using(crate::proofs::Windows::node_more))]
fn nodes(alloc: Global, listed: &Nodes) -> Result<Vec<FieldNode>, AllocError>
    ensures { IfOk result (λ v. v.items ≡ listed.now) }
{
    let mut nodes = Vec::new(alloc);
    for index in 0..listed.len() {
        nodes.push(listed.get(index))?;
    }
    Ok(nodes)
}

// The entries of a batch. None if a list is missing or the buffers are compressed.
#[tactic(auto, unfolding(ipc_model::specs::Batches::lists_of))]
fn lists<'a>(batch: &RecordBatchRef<'a>) -> Option<(Nodes<'a>, Buffers<'a>)>
    ensures { MatchOption result (lists_of batch.now ≡ None) (λ r. lists_of batch.now ≡ Some (record { nodes = r.0; buffers = r.1 })) }
{
    match batch.compression() {
        Ok(None) => {}
        Ok(Some(_)) => return None,
        Err(_) => return None,
    }
    let nodes = match batch.nodes() {
        Ok(Some(nodes)) => nodes,
        Ok(None) => return None,
        Err(_) => return None,
    };
    match batch.buffers() {
        Ok(Some(buffers)) => Some((nodes, buffers)),
        Ok(None) => None,
        Err(_) => None,
    }
}

/// The body of a batch, and how its numbers are read.
#[derive(Clone, Copy, Debug)]
pub struct PlainBody<'a> {
    /// The bytes that contain the body.
    pub source: &'a [u8],
    /// The offset of the body in them.
    pub base: usize,
    /// How many bytes the buffers may have together.
    pub size: u64,
    /// The byte order of numbers.
    pub order: Endianness,
    /// How many buffers precede a union's own.
    pub extra: usize,
}

// The slots of the chosen columns of these entries. None if they are invalid.
fn listed_columns(
    alloc: Global,
    listed: &Nodes,
    buffers: &Buffers,
    body: &PlainBody,
    kinds: &[PlainKind],
    chosen: &[usize],
    limit: Option<usize>,
) -> Result<Option<Vec<Vec<PlainSlot>>>, AllocError>
    requires base { body.now.base < 2 ^ 63 }
    requires chosen { All (λ j. j < length kinds.now) chosen.now }
    ensures { IfOk result (λ r. option_map (λ v. columns_view v.items) r
        ≡ columns_of (entries_of (record { nodes = listed.now; buffers = buffers.now }) (body_view body.now) body.now.order body.now.extra []) body.now.size (kinds_view kinds.now) chosen.now limit) }
{
    let nodes = nodes(alloc, listed)?;
    let parts = parts(alloc, body.source, body.base, buffers)?;
    let entries = PlainEntries {
        nodes: nodes.as_slice(),
        parts: parts.as_slice(),
        order: body.order,
        extra: body.extra,
    };
    plain_batch(alloc, &entries, body.size, kinds, chosen, limit)
}

/// The slots of the chosen columns of a record batch, in the order of `chosen`.
///
/// None if the batch is invalid.
pub fn plain_record(
    alloc: Global,
    batch: &RecordBatchRef,
    body: &PlainBody,
    kinds: &[PlainKind],
    chosen: &[usize],
    limit: Option<usize>,
) -> Result<Option<Vec<Vec<PlainSlot>>>, AllocError>
    requires base { body.now.base < 2 ^ 63 }
    requires chosen { All (λ j. j < length kinds.now) chosen.now }
    ensures { IfOk result (λ r. option_map (λ v. columns_view v.items) r
        ≡ record_columns (lists_of batch.now) (body_view body.now) body.now.order body.now.extra (kinds_view kinds.now) chosen.now limit) }
{
    match lists(batch) {
        Some((listed, buffers)) => {
            listed_columns(alloc, &listed, &buffers, body, kinds, chosen, limit)
        }
        None => Ok(None),
    }
}

/// A valid record batch means these slots.
pub fn slots_of_records()
    ensures { RecordLaw }
{}
