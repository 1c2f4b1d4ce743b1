//! Reads batches.
ghost use Rattle.std.specs.Prelude.{◌≡◌, ◌+◌, ◌≤◌, ◌<◌, ◌^◌, ◌↔◌, length, IfErr, IfOk, IsSome, Some, IsTrue};
ghost use Rattle.std.specs.Option.{option_copied};
ghost use Rattle.ipc_devices.specs.Faults.{OnIo, OwnFault, Answers};
ghost use Rattle.ipc_devices.specs.declared.fault.Fault.TheVariants.{OutOfSpec};
ghost use Rattle.ipc_devices.specs.declared.fault.OutOfSpecKind.TheVariants.{NegativeFooterLength};
ghost use Rattle.lower.specs.Counts.{nodes, fields_nodes, buffers, fields_buffers};
ghost use Rattle.lower.specs.TypeViews.{type_view, fields_view};
ghost use Rattle.ipc_base.specs.IdTrees.{all_ids_view};
ghost use Rattle.ipc_model.specs.Batches.{extra_of, lists_of, chosen};
ghost use Rattle.ipc_model.specs.Kinds.{all_nodes, all_buffers};
ghost use Rattle.ipc_model.specs.TypeKinds.{kinds_of};
ghost use Rattle.ipc_read_flat.specs.Limits.{AreSmall};
ghost use Rattle.ipc_read_flat.specs.Refusals.{TellsEntries};
ghost use Rattle.ipc_read_flat.specs.Scratches.{KeepsScratch};
ghost use Rattle.ipc_read_flat.specs.Bodies.{KeepsBytes, HasRoom, entries, known};
ghost use Rattle.ipc_read_flat.specs.Steps.{Step};
ghost use Rattle.ipc_read.specs.Api.{ReadsRecordBatch, batch_request};
ghost use Rattle.ipc_read.specs.Chunks.{order_of};
ghost use Rattle.ipc_read.specs.Columns.{ArePrepared, AreColumns, HasColumns, IsChosen, columns_listed};
ghost use Rattle.ipc_read.specs.HeldChunks.{columns_most, arrays_held};
ghost use Rattle.ipc_read.specs.Refusals.{IsEntriesFault, IsListFault, IsFaultOfSome, TellsCounts, TellsLengths, TellsTable};
ghost use Rattle.ipc_read.specs.Sizes.{AreSizes, total_of};

use crate::read::Dictionaries;
use ipc_base::chunk::Chunk;
use ipc_base::ipc::{IpcField, IpcSchema};
use ipc_devices::fault::{Fault, Nyi, OutOfSpecKind};
use ipc_devices::{Reads, Seeks};
use ipc_read_flat::read::body::{Body, Place};
use ipc_read_flat::read::read_basic::natural;
use ipc_read_nested::read::deserialize::read;
use ipc_read_nested::read::ids::{child_of, others_of};
use ipc_table_views::{Buffers, MetadataVersion, Nodes, RecordBatchRef};
use lower::datatypes::{
    DataType, Field, count_all_buffers, count_all_nodes, count_buffers, count_nodes,
};
use lower::types::Endianness;
use lower_arrays::array::AnyArray;
use std::alloc::Global;
use std::snapshot::Snapshot;

// The nodes and buffers of a batch that isn't compressed.
#[tactic(auto, unfolding(ipc_model::specs::Batches::lists_of), using(crate::proofs::NodeLengths::node_lengths, crate::proofs::Refusals::table_faults))]
pub(crate) fn entries_of<'a>(batch: &RecordBatchRef<'a>) -> Result<(Nodes<'a>, Buffers<'a>), Fault>
    ensures own { OnIo result ⊥ }
    ensures only { IfErr result (λ e. OwnFault e (IsEntriesFault e)) }
    ensures tells { IfErr result (TellsTable batch.now) }
    ensures small { IfOk result (λ r. AreSmall r.0) }
    ensures exact { Answers result (IsSome (lists_of batch.now)) (λ r. lists_of batch.now ≡ Some (record { nodes = r.0; buffers = r.1 })) }
{
    match batch.compression() {
        Ok(None) => {}
        Ok(Some(_)) => return Err(Fault::NotYetImplemented(Nyi::Compressed)),
        Err(e) => return Err(OutOfSpecKind::InvalidFlatbufferCompression(e).into()),
    }
    let buffers = match batch.buffers() {
        Ok(Some(buffers)) => buffers,
        Ok(None) => return Err(OutOfSpecKind::MissingMessageBuffers.into()),
        Err(e) => return Err(OutOfSpecKind::InvalidFlatbufferBuffers(e).into()),
    };
    match batch.nodes() {
        Ok(Some(nodes)) => Ok((nodes, buffers)),
        Ok(None) => Err(OutOfSpecKind::MissingMessageNodes.into()),
        Err(e) => Err(OutOfSpecKind::InvalidFlatbufferNodes(e).into()),
    }
}

// The sum of the buffers' lengths, in bytes.
fn listed_bytes(buffers: &Buffers) -> Result<u128, Fault>
    ensures own { OnIo result ⊥ }
    ensures only { IfErr result (λ e. e ≡ OutOfSpec NegativeFooterLength) }
    ensures exact { Answers result (AreSizes buffers.now) (λ n. n ≡ total_of buffers.now) }
{
    let mut total = 0;
    for index in 0..buffers.len() {
        total += natural(buffers.get(index).length)? as u128;
    }
    Ok(total)
}

// Checks that the buffers are together at most `file_size` bytes long.
#[tactic(auto, using(crate::proofs::Refusals::list_faults))]
pub(crate) fn check_lengths(buffers: &Buffers, file_size: u64) -> Result<(), Fault>
    ensures own { OnIo result ⊥ }
    ensures only { IfErr result (λ e. OwnFault e (IsListFault e)) }
    ensures tells { IfErr result (TellsLengths buffers.now file_size) }
    ensures exact { Answers result (AreSizes buffers.now × (total_of buffers.now ≤ file_size)) (λ _. Unit {0}) }
{
    let total = listed_bytes(buffers)?;
    if total > file_size as u128 {
        return Err(Fault::OutOfSpec(OutOfSpecKind::InvalidBuffersLength {
            buffers_size: u64::try_from(total).unwrap_or(u64::MAX),
            file_size,
        }));
    }
    Ok(())
}

// Checks that there are the nodes and buffers that some columns need.
fn check_counts(nodes: usize, buffers: usize, fields: &[Field], extra: usize) -> Result<(), Fault>
    requires { extra ≤ 1 }
    ensures own { OnIo result ⊥ }
    ensures only { IfErr result (λ e. OwnFault e (IsEntriesFault e)) }
    ensures tells { let fs = fields_view fields.now in IfErr result (TellsCounts nodes buffers (fields_nodes fs) (fields_buffers extra fs)) }
    ensures exact { let fs = fields_view fields.now in Answers result ((fields_nodes fs ≤ nodes) × (fields_buffers extra fs ≤ buffers)) (λ _. Unit {0}) }
{
    match count_all_nodes(fields) {
        Some(needed) if needed <= nodes as u64 => {}
        _ => return Err(OutOfSpecKind::MissingMessageNodes.into()),
    }
    match count_all_buffers(fields, extra as u64) {
        Some(needed) if needed <= buffers as u64 => Ok(()),
        _ => Err(OutOfSpecKind::ExpectedBuffer.into()),
    }
}

// The byte order of numbers.
pub(crate) fn byte_order(is_little_endian: bool) -> Endianness
    ensures { result ≡ order_of is_little_endian }
{
    if is_little_endian {
        Endianness::Little
    } else {
        Endianness::Big
    }
}

// How many buffers precede a union's own: its validity, before version 5.
pub(crate) fn count_extra(version: MetadataVersion) -> usize
    ensures extra { result ≡ extra_of version }
    ensures small { result ≤ 1 }
{
    match version {
        MetadataVersion::V5 => 0,
        _ => 1,
    }
}

// Whether a column is the one at index `place` of the projection, or there is none.
fn is_chosen(projection: Option<&[usize]>, place: usize, column: usize) -> bool
    ensures { IsTrue result ↔ IsChosen (option_copied projection.entry) place column }
{
    match projection {
        None => true,
        Some(columns) => match columns.get(place) {
            None => false,
            Some(chosen) => *chosen == column,
        },
    }
}

// The position after a column that isn't read, by the counts of its type alone.
fn skip(data_type: &DataType, extra: usize, place: Place) -> Place
    requires extra { extra ≤ 1 }
    requires nodes { place.node + nodes (type_view data_type.now) < 2 ^ 64 }
    requires buffers { place.buffer + buffers extra (type_view data_type.now) < 2 ^ 64 }
    ensures nodes { result.node ≡ place.node + nodes (type_view data_type.now) }
    ensures buffers { result.buffer ≡ place.buffer + buffers extra (type_view data_type.now) }
{
    let nodes = count_nodes(data_type).unwrap_or(0);
    let buffers = count_buffers(data_type, extra as u64).unwrap_or(0);
    Place {
        node: place.node + nodes as usize,
        buffer: place.buffer + buffers as usize,
    }
}

/// Reads the columns of some fields, whose entries begin at the first of the batch.
///
/// - `ids`: the dictionary ids of the fields.
/// - `projection`: indexes of the columns to read, ascending; None reads all. No byte of another
///   column is read or checked.
/// - `limit`: reads at most this many rows of each column; None reads all.
/// - `body`: the entries of all fields must be present.
/// - `scratch`: a block that they are read through, as [`read`] says.
///
/// See "RecordBatch message" in the Arrow columnar format. The errors are those of [`read`], for a
/// column that is chosen.
pub fn read_columns<R: Reads + Seeks>(
    alloc: Global,
    fields: &[Field],
    ids: &[IpcField],
    projection: Option<&[usize]>,
    limit: Option<usize>,
    reader: &mut R,
    body: &Body<R>,
    scratch: &mut Vec<u8>,
) -> Result<Vec<AnyArray>, Fault>
    requires prepared { ArePrepared (option_copied projection) (length fields.now) }
    requires room { let ts = kinds_of (fields_view fields.now) (all_ids_view ids.now) in
        HasRoom body.now (record { node = 0; buffer = 0 }) (all_nodes ts) (all_buffers body.now.extra ts) }
    requires stands { KeepsBytes R.device reader.old body.now }
    ensures many { IfOk result (λ v. length v.items ≡ length (chosen (option_copied projection.entry) (length fields.now))) }
    ensures only { let js = chosen (option_copied projection.entry) (length fields.now) in
        IfErr result (λ e. OwnFault e (IsFaultOfSome (kinds_of (fields_view fields.now) (all_ids_view ids.now)) js e)) }
    ensures tells { IfErr result
        (λ e. OwnFault e (TellsEntries R.device.is_memory (entries R.device body.now) e)) }
    ensures step { let js = chosen (option_copied projection.entry) (length fields.now) in
        let ts = kinds_of (fields_view fields.now) (all_ids_view ids.now) in
        Step R.device body.now
        (columns_listed (entries R.device body.now) body.now.extra ts js) reader.old result
        reader.new }
    ensures held { let js = chosen (option_copied projection.entry) (length fields.now) in
        let ts = kinds_of (fields_view fields.now) (all_ids_view ids.now) in
        IfOk result (λ v. arrays_held v.items
        ≤ columns_most (entries R.device body.now) body.now.extra ts js) }
    ensures memory { IsTrue R.device.is_memory → let s = entries R.device body.now in
        let js = chosen (option_copied projection.entry) (length fields.now) in
        let ts = kinds_of (fields_view fields.now) (all_ids_view ids.now) in
        Answers result (HasColumns s ts limit js)
        (λ v. AreColumns s (known body.now) (fields_view fields.now) ts limit js v.items) }
    ensures scratch { KeepsScratch scratch.old.items scratch.new.items }
{
    let wanted = match projection {
        None => fields.len(),
        Some(projection) => projection.len(),
    };
    let mut columns = Vec::with_capacity(alloc, wanted)?;
    let mut place = Place { node: 0, buffer: 0 };
    let mut left = ids;
    for (index, field) in fields.iter().enumerate() {
        let (id, child_ids) = child_of(field, left);
        left = others_of(left);
        if !is_chosen(projection, columns.len(), index) {
            place = skip(&field.data_type, body.extra, place);
            continue;
        }
        let (column, next) = read(
            alloc,
            &field.data_type,
            id,
            child_ids,
            reader,
            body,
            place,
            limit,
            scratch,
        )?;
        columns.push(column)?;
        place = next;
    }
    Ok(columns)
}

/// Reads the columns of a record batch.
///
/// - `fields`, `ipc_schema`: all columns, their dictionary ids and the byte order of the body.
/// - `projection`: indexes of the columns to read, ascending; None reads all, an empty one gives a
///   chunk without columns. Another column is skipped by the counts of its type: no byte of it is
///   read or checked.
/// - `limit`: reads at most this many rows of each column; None reads all.
/// - `dictionaries`: the dictionaries that were read before.
/// - `version`: of the message. Before version 5 a union has a validity buffer, which is skipped.
/// - `block_offset`: the offset of the body on the device, in bytes.
/// - `file_size`: how many bytes the buffers may have together: the length of the body or the file.
/// - `scratch`: a block that columns are read through, as [`read`] says. Its content is unspecified
///   afterwards. It gets no longer than 65,536 bytes, and no longer at all if the device lends its
///   bytes.
///
/// See "RecordBatch message" in the Arrow columnar format. When reading from memory, it is `Ok`
/// exactly if the batch is valid by these, unless an allocation fails. At each dictionary field,
/// except inside dictionary values, the chunk then has the values that `dictionaries` has under the
/// field's id.
///
/// At most the encoded length of the chosen columns' buffers is read from the device, also on an
/// error. The arrays retain at most that, and at most `file_size` bytes, plus one offset for each
/// empty offset buffer. Dictionary values aren't counted, as they are shared.
///
/// # Errors
/// Each of the first five groups is `OutOfSpec`.
///
/// - `InvalidFlatbufferCompression`, `InvalidFlatbufferBuffers`, `InvalidFlatbufferNodes`: this
///   slot of the batch is malformed.
/// - `MissingMessageBuffers`, `ExpectedBuffer`: the batch has no buffers, or fewer than the columns
///   of all fields need.
/// - `MissingMessageNodes`: the batch has no nodes, or fewer than the columns of all fields need.
/// - `NegativeFooterLength`: the length of a buffer is negative.
/// - `InvalidBuffersLength`: the buffers are together longer than `file_size`. It has their sum, at
///   most `u64::MAX`, and `file_size`.
/// - `NotYetImplemented(Compressed)`: the batch is compressed.
/// - Those of [`read_columns`].
/// - `Argument(UnequalRows)`: the columns have different lengths.
/// - `Io` exactly if a call of the device failed; `Memory`.
///
/// After an error the reader may be at any position.
#[allow(clippy::too_many_arguments)]
#[tactic(auto, using(crate::proofs::Refusals::batch_faults, crate::proofs::Reasons::reasons))]
pub fn read_record_batch<R: Reads + Seeks>(
    alloc: Global,
    batch: RecordBatchRef,
    fields: &[Field],
    ipc_schema: &IpcSchema,
    projection: Option<&[usize]>,
    limit: Option<usize>,
    dictionaries: &Dictionaries,
    version: MetadataVersion,
    reader: &mut R,
    block_offset: u64,
    file_size: u64,
    scratch: &mut Vec<u8>,
) -> Result<Chunk<AnyArray>, Fault>
    requires prepared { ArePrepared (option_copied projection) (length fields.now) }
    ensures batch { let js = option_copied projection.entry in
        let q = batch_request fields.now ipc_schema.now dictionaries.now version block_offset
        file_size batch.entry js limit in
        ReadsRecordBatch R.device q reader.old result reader.new }
    ensures scratch { KeepsScratch scratch.old.items scratch.new.items }
{
    let (nodes, buffers) = entries_of(&batch)?;
    check_lengths(&buffers, file_size)?;
    let extra = count_extra(version);
    check_counts(nodes.len(), buffers.len(), fields, extra)?;
    let body = Body {
        nodes,
        buffers,
        base: block_offset,
        order: byte_order(ipc_schema.is_little_endian),
        extra,
        dictionaries,
        device: Snapshot::of(&*reader),
    };
    let ids = ipc_schema.fields.as_slice();
    let columns = read_columns(
        alloc, fields, ids, projection, limit, reader, &body, scratch,
    )?;
    Chunk::try_new(columns)
}
