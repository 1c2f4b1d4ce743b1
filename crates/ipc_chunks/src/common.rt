//! Encodes chunks as messages, after the dictionaries that they need.
//!
//! Arrow columnar format, "Dictionary Messages".
ghost use Rattle.std.specs.Prelude.{◌≡◌, map, not, IfErr, IfOk, OnErr, OnOk};
ghost use Rattle.lower_arrays.specs.AnyLayouts.{layout_of};
ghost use Rattle.ipc_base.specs.IdTrees.{all_ids_view};
ghost use Rattle.ipc_devices.specs.declared.fault.Fault.TheVariants.{Memory};
ghost use Rattle.ipc_encode.specs.Appending.{order_of};
ghost use Rattle.ipc_plan.specs.Pieces.{pieces_bytes};
ghost use Rattle.ipc_tracker.specs.Trackers.{IsSameMemory, remembered};
ghost use Rattle.ipc_chunks.specs.Chunks.{EncodesChunk, RefusesChunk};
ghost use Rattle.ipc_chunks.specs.Messages.{data_seen, message_seen};

use crate::messages::{Messages, encode_messages, list_messages};
use crate::writable::check_columns;
use ipc_base::chunk::Chunk;
use ipc_base::ipc::IpcField;
use ipc_devices::Fault;
use ipc_encode::batches::Encoded;
use ipc_encode::common::{EncodedData, WriteOptions};
use ipc_plan::plan::Plan;
use ipc_plan::sending::send_pieces;
use ipc_tracker::DictionaryTracker;
use lower_arrays::array::AnyArray;
use std::alloc::Global;

// Replaces the bytes with the body of a plan.
fn write_body(body: &Plan<'_>, arrow_data: &mut Vec<u8>) -> Result<(), Fault>
    ensures bytes { OnOk result (arrow_data.new.items ≡ pieces_bytes body.now.order body.now.pieces.items) }
    ensures only { IfErr result (λ fault. fault ≡ Memory) }
{
    arrow_data.clear();
    arrow_data.reserve(body.end as usize)?;
    match send_pieces(arrow_data, &body.pieces, body.order) {
        Ok(()) => Ok(()),
        // Writing to memory fails only if it can't grow.
        Err(_) => Err(Fault::Memory),
    }
}

// Replaces what was encoded before with a message, its body in one piece.
fn join_pieces(message: Encoded<'_>, encoded: &mut EncodedData) -> Result<(), Fault>
    ensures same { OnOk result (data_seen encoded.new ≡ message_seen message.entry) }
    ensures only { IfErr result (λ fault. fault ≡ Memory) }
{
    let Encoded { metadata, body } = message;
    write_body(&body, &mut encoded.arrow_data)?;
    encoded.ipc_message = metadata;
    Ok(())
}

// The same for each of some messages, in order.
fn join_all(alloc: Global, messages: Vec<Encoded<'_>>) -> Result<Vec<EncodedData>, Fault>
    ensures same { IfOk result (λ encoded. map data_seen encoded.items ≡ map message_seen messages.entry.items) }
    ensures only { IfErr result (λ fault. fault ≡ Memory) }
{
    let mut all = Vec::new(alloc);
    for message in messages {
        let mut encoded = EncodedData::empty(alloc);
        join_pieces(message, &mut encoded)?;
        all.push(encoded)?;
    }
    Ok(all)
}

/// Returns the messages that a writer sends for a chunk.
///
/// They are those of the dictionaries that are new or differ from what the tracker has, each after
/// those inside its values, and that of the columns. `fields` are the ids of the columns'
/// dictionaries. The columns have no schema: they are encoded as nullable fields without names and
/// metadata. The numbers in bodies have the byte order of `options`. The tracker then has what was
/// encoded.
///
/// Errors (if several apply, any of them):
///
/// - `Fault::Argument(ArgFault::ColumnCount)`: there are not as many ids as columns.
/// - `Fault::Argument(ArgFault::FieldsShape)`: the ids don't have the shape of the types.
/// - `Fault::Argument(ArgFault::NotWritable)`: a schema of these types can't be written, as
///   [`ipc_schema_write::schema::schema_to_bytes`] says.
/// - `Fault::Argument(ArgFault::SharedDictionary(id))`: two dictionaries with this id have
///   different values.
/// - `Fault::Argument(ArgFault::DictionaryReplaced(id))`: the tracker has other values for this id,
///   which must not be replaced.
/// - `Fault::Argument(ArgFault::TooLong)`: an array has more than `2^63 - 1` slots to write.
/// - `Fault::Argument(ArgFault::TooLarge)`: a body is longer than `2^63 - 1` bytes.
/// - `Fault::Memory`: an allocation failed.
///
/// `TooLong` and `TooLarge` come also for a dictionary that needn't be written. After an error the
/// tracker is unchanged.
pub fn encode_chunk(
    alloc: Global,
    columns: &Chunk<AnyArray>,
    fields: &[IpcField],
    dictionary_tracker: &mut DictionaryTracker,
    options: &WriteOptions,
) -> Result<(Vec<EncodedData>, EncodedData), Fault>
    ensures encodes { IfOk result (λ made. EncodesChunk (order_of (not options.now.big_endian))
        (remembered dictionary_tracker.old) dictionary_tracker.old.cannot_replace
        (map layout_of columns.now) (all_ids_view fields.now) made.0.items made.1
        (remembered dictionary_tracker.new)) }
    ensures refused { IfErr result (RefusesChunk (remembered dictionary_tracker.old)
        dictionary_tracker.old.cannot_replace (map layout_of columns.now)
        (all_ids_view fields.now)) }
    ensures kept { OnErr result
        (IsSameMemory (remembered dictionary_tracker.old)
        (remembered dictionary_tracker.new)) }
    ensures fixed { dictionary_tracker.new.cannot_replace
        ≡ dictionary_tracker.old.cannot_replace }
{
    let mut encoded_message = EncodedData::empty(alloc);
    let encoded_dictionaries = encode_chunk_amortized(
        alloc,
        columns,
        fields,
        dictionary_tracker,
        options,
        &mut encoded_message,
    )?;
    Ok((encoded_dictionaries, encoded_message))
}

/// Encodes a chunk as [`encode_chunk`] does, into `encoded_message`.
///
/// It returns the messages of the dictionaries. The message of the columns replaces
/// `encoded_message`, whose memory for the body is reused. Errors are those of [`encode_chunk`].
/// After an error the tracker is unchanged, and the content of `encoded_message` is unspecified.
pub fn encode_chunk_amortized(
    alloc: Global,
    columns: &Chunk<AnyArray>,
    fields: &[IpcField],
    dictionary_tracker: &mut DictionaryTracker,
    options: &WriteOptions,
    encoded_message: &mut EncodedData,
) -> Result<Vec<EncodedData>, Fault>
    ensures encodes { IfOk result (λ dictionaries.
        EncodesChunk (order_of (not options.now.big_endian))
        (remembered dictionary_tracker.old) dictionary_tracker.old.cannot_replace
        (map layout_of columns.now) (all_ids_view fields.now) dictionaries.items
        encoded_message.new (remembered dictionary_tracker.new)) }
    ensures refused { IfErr result (RefusesChunk (remembered dictionary_tracker.old)
        dictionary_tracker.old.cannot_replace (map layout_of columns.now)
        (all_ids_view fields.now)) }
    ensures kept { OnErr result
        (IsSameMemory (remembered dictionary_tracker.old)
        (remembered dictionary_tracker.new)) }
    ensures fixed { dictionary_tracker.new.cannot_replace
        ≡ dictionary_tracker.old.cannot_replace }
{
    let arrays = columns.arrays();
    let is_little_endian = !options.big_endian;
    check_columns(alloc, arrays, fields)?;
    let dictionaries = list_messages(alloc, dictionary_tracker, arrays, fields)?;
    let Messages {
        dictionaries: values,
        record_batch,
    } = encode_messages(alloc, columns, &dictionaries, is_little_endian)?;
    let encoded_dictionaries = join_all(alloc, values)?;
    join_pieces(record_batch, encoded_message)?;
    // The last call that can fail: after it there is room for all.
    dictionary_tracker.make_room(dictionaries.len())?;
    dictionary_tracker.remember_all(dictionaries);
    Ok(encoded_dictionaries)
}
