//! Reads dictionary batches.
ghost use Rattle.std.specs.Prelude.{◌≡◌, ◌+◌, ◌++◌, ◌≤◌, [], ◌∷◌, None, Some, IsSome, IfErr, IfOk, IsTrue, MatchOption};
ghost use Rattle.ipc_devices.specs.Acts.{ReadsDevice};
ghost use Rattle.ipc_devices.specs.Faults.{OnIo, OwnFault, Answers};
ghost use Rattle.lower.specs.Counts.{nodes, buffers};
ghost use Rattle.lower.specs.TypeViews.{type_view, fields_view};
ghost use Rattle.ipc_base.specs.IdTrees.{all_ids_view};
ghost use Rattle.ipc_model.specs.Batches.{kinds, extra_of, lists_of, own_place, inner_places, places, place_of, values_schema};
ghost use Rattle.ipc_model.specs.TypeKinds.{kind_of};
ghost use Rattle.ipc_read_flat.specs.Bodies.{known_dictionaries};
ghost use Rattle.ipc_read_flat.specs.Scratches.{KeepsScratch};
ghost use Rattle.ipc_read.specs.Api.{ReadsDictionary, dictionary_request};
ghost use Rattle.ipc_read.specs.Chunks.{order_of};
ghost use Rattle.ipc_read.specs.DictionaryBatches.{GivesColumn, dictionary_head, IsHeadFault, IsValuesFault, RefusesHead};
ghost use Rattle.ipc_read.specs.HeldChunks.{HoldChosen};
ghost use Rattle.ipc_read.specs.Refusals.{IsEntriesFault, TellsColumns, TellsCounts, TellsLists};
ghost use Rattle.ipc_read.specs.Sizes.{chosen_listed};

use crate::read::Dictionaries;
use crate::read::common::{byte_order, check_lengths, count_extra, entries_of};
use ipc_base::ipc::{IpcField, IpcSchema};
use ipc_devices::fault::{Fault, Nyi, OutOfSpecKind};
use ipc_devices::{Reads, Seeks};
use ipc_read_flat::read::body::{Body, Place};
use ipc_read_nested::read::deserialize::read;
use ipc_read_nested::read::ids::{first_of, others_of};
use ipc_table_views::{DictionaryBatchRef, MetadataVersion, RecordBatchRef};
use lower::datatypes::{DataType, Field, count_buffers, count_nodes};
use lower_arrays::array::AnyArray;
use std::alloc::Global;
use std::snapshot::Snapshot;
use std::sync::Arc;

// As `first_dict_field`, in one field of this type. `own` and `ids` are its id and its children's.
#[cycle(places)]
#[tactic(auto, using(crate::proofs::PlaceLists::first_places))]
fn find_first_dict_field<'a>(
    data_type: &'a DataType,
    own: Option<i64>,
    ids: &'a [IpcField],
    id: i64,
) -> Option<(&'a DataType, &'a [IpcField])>
    ensures { let ps = own_place (type_view data_type.now) own (all_ids_view ids.now) ++ inner_places (type_view data_type.now) (all_ids_view ids.now) in
        MatchOption result (place_of ps id ≡ None)
        (λ r. place_of ps id ≡ Some (record { id = Some id; type = type_view r.0.now; ids = all_ids_view r.1.now })) }
{
    match data_type {
        DataType::Extension(_, inner, _) => find_first_dict_field(inner, own, ids, id),
        DataType::Dictionary(_, values, _) => {
            if own == Some(id) {
                return Some((values, ids));
            }
            find_first_dict_field(values, None, ids, id)
        }
        DataType::List(field)
        | DataType::LargeList(field)
        | DataType::FixedSizeList(field, _)
        | DataType::Map(field, _) => {
            let (child_id, child_ids) = first_of(ids);
            find_first_dict_field(&field.data_type, child_id, child_ids, id)
        }
        DataType::Struct(fields) | DataType::Union(fields, _, _) => {
            first_dict_field(fields, ids, id)
        }
        _ => None,
    }
}

// Finds the first dictionary field with this id, in pre-order. Returns the type of its values and
// the ids in that, or None.
#[cycle(places)]
#[tactic(auto, using(crate::proofs::PlaceLists::first_places))]
pub(crate) fn first_dict_field<'a>(
    fields: &'a [Field],
    ids: &'a [IpcField],
    id: i64,
) -> Option<(&'a DataType, &'a [IpcField])>
    ensures { let ps = places (fields_view fields.now) (all_ids_view ids.now) in
        MatchOption result (place_of ps id ≡ None)
        (λ r. place_of ps id ≡ Some (record { id = Some id; type = type_view r.0.now; ids = all_ids_view r.1.now })) }
{
    let mut left = ids;
    for field in fields {
        let (own, below) = first_of(left);
        let found = find_first_dict_field(&field.data_type, own, below, id);
        if found.is_some() {
            return found;
        }
        left = others_of(left);
    }
    None
}

// Checks that there are the nodes and buffers that a column needs.
fn check_column(
    node_count: usize,
    buffer_count: usize,
    data_type: &DataType,
    extra: usize,
) -> Result<(), Fault>
    requires { extra ≤ 1 }
    ensures own { OnIo result ⊥ }
    ensures only { IfErr result (λ e. OwnFault e (IsEntriesFault e)) }
    ensures tells { let t = type_view data_type.now in IfErr result (TellsCounts node_count buffer_count (nodes t) (buffers extra t)) }
    ensures exact { let t = type_view data_type.now in Answers result ((nodes t ≤ node_count) × (buffers extra t ≤ buffer_count)) (λ _. Unit {0}) }
{
    match count_nodes(data_type) {
        Some(needed) if needed <= node_count as u64 => {}
        _ => return Err(OutOfSpecKind::MissingMessageNodes.into()),
    }
    match count_buffers(data_type, extra as u64) {
        Some(needed) if needed <= buffer_count as u64 => Ok(()),
        _ => Err(OutOfSpecKind::ExpectedBuffer.into()),
    }
}

// The values of a dictionary: the only column of their batch, all rows of it.
#[allow(clippy::too_many_arguments)]
#[tactic(auto, using(crate::proofs::ValueReads::values_faults, crate::proofs::Reasons::reasons))]
fn read_values<R: Reads + Seeks>(
    alloc: Global,
    batch: RecordBatchRef,
    value_type: &DataType,
    ids: &[IpcField],
    is_little_endian: bool,
    dictionaries: &Dictionaries,
    version: MetadataVersion,
    reader: &mut R,
    block_offset: u64,
    file_size: u64,
    scratch: &mut Vec<u8>,
) -> Result<AnyArray, Fault>
    ensures only { IfErr result (λ e. OwnFault e (IsValuesFault (kind_of (type_view value_type.now) None (all_ids_view ids.now)) e)) }
    ensures lists { let t = type_view value_type.now in IfErr result (TellsLists batch.entry file_size (nodes t) (buffers (extra_of version) t)) }
    ensures tells { IfErr result
        (TellsColumns R.device.is_memory (order_of is_little_endian) (extra_of version)
        (known_dictionaries dictionaries.now)
        (record
        { source = (R.device.memory reader.old).whole; base = block_offset; size = file_size })
        batch.entry) }
    ensures device { ReadsDevice R.device reader.old result reader.new }
    ensures given { let schema = values_schema (record { id = None; type = type_view value_type.now; ids = all_ids_view ids.now }) (order_of is_little_endian) in
        R.device.given reader.new
        ≤ R.device.given reader.old
        + chosen_listed (lists_of batch.entry) (extra_of version) (kinds schema) (0 ∷ []) }
    ensures held { let schema = values_schema (record { id = None; type = type_view value_type.now; ids = all_ids_view ids.now }) (order_of is_little_endian) in
        IfOk result (λ x. HoldChosen file_size (lists_of batch.entry) (extra_of version) (kinds schema) (0 ∷ []) (x ∷ [])) }
    ensures memory { IsTrue R.device.is_memory → let u = type_view value_type.now in
        let schema = values_schema (record { id = None; type = u; ids = all_ids_view ids.now }) (order_of is_little_endian) in
        GivesColumn schema (extra_of version) (known_dictionaries dictionaries.now)
        (record
        { source = (R.device.memory reader.old).whole; base = block_offset; size = file_size })
        batch.entry u result }
    ensures scratch { KeepsScratch scratch.old.items scratch.new.items }
{
    let (nodes, buffers) = entries_of(&batch)?;
    check_lengths(&buffers, file_size)?;
    let extra = count_extra(version);
    check_column(nodes.len(), buffers.len(), value_type, extra)?;
    let body = Body {
        nodes,
        buffers,
        base: block_offset,
        order: byte_order(is_little_endian),
        extra,
        dictionaries,
        device: Snapshot::of(&*reader),
    };
    let first = Place { node: 0, buffer: 0 };
    let (values, _) = read(
        alloc, value_type, None, ids, reader, &body, first, None, scratch,
    )?;
    Ok(values)
}

// The id of a dictionary batch and the batch of its values. A delta is refused.
fn head_of<'a>(batch: &DictionaryBatchRef<'a>) -> Result<(i64, RecordBatchRef<'a>), Fault>
    ensures own { OnIo result ⊥ }
    ensures only { IfErr result (λ e. OwnFault e (IsHeadFault e)) }
    ensures tells { IfErr result (RefusesHead batch.now) }
    ensures exact { Answers result (IsSome (dictionary_head batch.now)) (λ r. dictionary_head batch.now ≡ Some (r.0, r.1)) }
{
    match batch.is_delta() {
        Ok(false) => {}
        Ok(true) => return Err(Fault::NotYetImplemented(Nyi::Delta)),
        Err(e) => return Err(OutOfSpecKind::InvalidFlatbufferIsDelta(e).into()),
    }
    let id = match batch.id() {
        Ok(id) => id,
        Err(e) => return Err(OutOfSpecKind::InvalidFlatbufferId(e).into()),
    };
    match batch.data() {
        Ok(Some(values)) => Ok((id, values)),
        Ok(None) => Err(OutOfSpecKind::MissingData.into()),
        Err(e) => Err(OutOfSpecKind::InvalidFlatbufferData(e).into()),
    }
}

/// Reads a dictionary batch and replaces the values of its id.
///
/// - `fields`, `ipc_schema`: all columns, their dictionary ids and the byte order of the body.
/// - `dictionaries`: the dictionaries that were read before, which the values may refer to.
/// - `version`: of the message. Before version 5 a union has a validity buffer, which is skipped.
/// - `block_offset`: the offset of the body on the device, in bytes.
/// - `file_size`: how many bytes the buffers may have together: the length of the body or the file.
/// - `scratch`: a block that the values are read through, as [`read`] says. Its content is
///   unspecified afterwards. It gets no longer than 65,536 bytes, and no longer at all if the
///   device lends its bytes.
///
/// See "Dictionary messages" in the Arrow columnar format. The values have the type of the first
/// field with this id, in pre-order. When reading from memory, it is `Ok` exactly if the batch is
/// valid, unless an allocation fails.
///
/// At most the encoded length of the values' buffers is read from the device, also on an error. The
/// array retains at most that, and at most `file_size` bytes, plus one offset for each empty offset
/// buffer.
///
/// # Errors
/// Each of the first eight groups is `OutOfSpec`.
///
/// - `InvalidFlatbufferIsDelta`, `InvalidFlatbufferId`, `InvalidFlatbufferData`: this slot of the
///   dictionary batch is malformed.
/// - `MissingData`: the dictionary batch has no values.
/// - `InvalidId` with the id: no field has it.
/// - `InvalidFlatbufferCompression`, `InvalidFlatbufferBuffers`, `InvalidFlatbufferNodes`: this
///   slot of the values' batch is malformed.
/// - `MissingMessageBuffers`, `ExpectedBuffer`: the values have no buffers, or fewer than their
///   type needs.
/// - `MissingMessageNodes`: the values have no nodes, or fewer than their type needs.
/// - `NegativeFooterLength`: the length of a buffer is negative.
/// - `InvalidBuffersLength`: the buffers are together longer than `file_size`. It has their sum, at
///   most `u64::MAX`, and `file_size`.
/// - Those of the values' column, by [`read`].
/// - `NotYetImplemented(Delta)`: the values extend those that the id has.
/// - `NotYetImplemented(Compressed)`: the values are compressed.
/// - `Io` exactly if a call of the device failed; `Memory`.
///
/// After an error the dictionaries are as they were, and the reader may be at any position.
#[allow(clippy::too_many_arguments)]
#[tactic(auto, using(crate::proofs::DictionaryMeanings::dictionary_faults, crate::proofs::ValueReasons::value_reasons))]
pub fn read_dictionary<R: Reads + Seeks>(
    alloc: Global,
    batch: DictionaryBatchRef,
    fields: &[Field],
    ipc_schema: &IpcSchema,
    dictionaries: &mut Dictionaries,
    version: MetadataVersion,
    reader: &mut R,
    block_offset: u64,
    file_size: u64,
    scratch: &mut Vec<u8>,
) -> Result<(), Fault>
    ensures dictionary { let q = dictionary_request fields.now ipc_schema.now version block_offset
        file_size batch.entry in
        ReadsDictionary R.device q reader.old dictionaries.old result reader.new
        dictionaries.new }
    ensures scratch { KeepsScratch scratch.old.items scratch.new.items }
{
    let (id, values) = head_of(&batch)?;
    let schema_ids = ipc_schema.fields.as_slice();
    let Some((value_type, ids)) = first_dict_field(fields, schema_ids, id) else {
        return Err(OutOfSpecKind::InvalidId { requested_id: id }.into());
    };
    let order = ipc_schema.is_little_endian;
    let known = &*dictionaries;
    let values = read_values(
        alloc,
        values,
        value_type,
        ids,
        order,
        known,
        version,
        reader,
        block_offset,
        file_size,
        scratch,
    )?;
    let values = Arc::new(alloc, values)?;
    dictionaries.insert(id, values)?;
    Ok(())
}
