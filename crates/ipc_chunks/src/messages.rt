//! The messages of a chunk, with their bodies in pieces.
//!
//! Arrow columnar format, "Dictionary Messages".
ghost use Rattle.std.specs.Prelude.{All, map, IfErr, IfOk, MatchResult, OnOk};
ghost use Rattle.lower_arrays.specs.AnyLayouts.{layout_of};
ghost use Rattle.lower_arrays.specs.Layouts.{layouts, len_of};
ghost use Rattle.ipc_base.specs.Chunks.{row_count};
ghost use Rattle.ipc_base.specs.IdTrees.{all_ids_view};
ghost use Rattle.ipc_encode.specs.Appending.{order_of};
ghost use Rattle.ipc_encode.specs.Encoding.{IsEncodable, levels_of};
ghost use Rattle.ipc_encode.specs.declared.batches.BatchKind.TheVariants.{Record};
ghost use Rattle.ipc_model.specs.Offers.{values_of};
ghost use Rattle.ipc_tracker.specs.Listings.{ListsAll, listed};
ghost use Rattle.ipc_tracker.specs.Trackers.{remembered};
ghost use Rattle.ipc_chunks.specs.Lengths.{HaveLengths};
ghost use Rattle.ipc_chunks.specs.Messages.{AreAllValues, AreMessages, AreSendable, AreValueMessages, HaveWholeBodies, HasWholeBody, RefusesAllValues, RefusesMessages, RefusesPlaces, RefusesValues, dictionaries_seen, message_seen};

use crate::lengths::check_dictionaries;
use ipc_base::chunk::Chunk;
use ipc_base::ipc::IpcField;
use ipc_devices::Fault;
use ipc_encode::batches::{BatchKind, Encoded, encode_batch};
use ipc_tracker::{DictionaryTracker, NewDictionary, list_dictionaries};
use lower_arrays::array::AnyArray;
use std::alloc::Global;
use std::slice;

/// The messages that are written for a chunk, in order.
///
/// Their bodies are in pieces that borrow the chunk.
#[derive(Drop)]
pub struct Messages<'a> {
    /// Those of the dictionaries that must be written.
    pub dictionaries: Vec<Encoded<'a>>,
    /// That of the columns, which comes last.
    pub record_batch: Encoded<'a>,
}

/// Returns the dictionaries that must be written for a chunk, and checks all lengths.
///
/// The list is that of [`list_dictionaries`]. The lengths of dictionaries that were written before
/// are checked too. Errors (if several apply, any of them):
///
/// - Those of [`list_dictionaries`].
/// - `Fault::Argument(ArgFault::TooLong)`: an array in some values has more than `2^63 - 1` slots
///   to write.
/// - `Fault::Argument(ArgFault::TooLarge)`: the body of some values is longer than `2^63 - 1`
///   bytes.
/// - `Fault::Memory`: an allocation failed.
pub fn list_messages(
    alloc: Global,
    tracker: &DictionaryTracker,
    columns: &[AnyArray],
    ids: &[IpcField],
) -> Result<Vec<NewDictionary>, Fault>
    ensures lists { IfOk result (λ list.
        ListsAll (remembered tracker.now) tracker.now.cannot_replace (map layout_of columns.now)
        (all_ids_view ids.now) (map listed list.items)) }
    ensures lengths { OnOk result
        (HaveLengths (values_of (layouts (map layout_of columns.now)) (all_ids_view ids.now))) }
    ensures refused { IfErr result (RefusesPlaces (remembered tracker.now)
        tracker.now.cannot_replace (map layout_of columns.now) (all_ids_view ids.now)) }
{
    let list = list_dictionaries(alloc, tracker, columns, ids)?;
    check_dictionaries(alloc, columns)?;
    Ok(list)
}

// Encodes the values of a dictionary.
fn encode_dictionary<'a>(
    alloc: Global,
    dictionary: &'a NewDictionary,
    is_little_endian: bool,
) -> Result<Encoded<'a>, Fault>
    ensures encodes { IfOk result (λ encoded. AreValueMessages (order_of is_little_endian) (listed dictionary.now) (message_seen encoded)) }
    ensures whole { IfOk result HasWholeBody }
    ensures refused { IfErr result (RefusesValues (listed dictionary.now)) }
{
    let values = &*dictionary.values;
    let encoded = encode_batch(
        alloc,
        BatchKind::Dictionary(dictionary.id),
        slice::from_ref(values),
        values.len(),
        is_little_endian,
    )?;
    Ok(encoded)
}

// Encodes the values of each dictionary, in order.
fn encode_dictionaries<'a>(
    alloc: Global,
    dictionaries: &'a [NewDictionary],
    is_little_endian: bool,
) -> Result<Vec<Encoded<'a>>, Fault>
    ensures encodes { IfOk result (λ encoded. AreAllValues (order_of is_little_endian) (map listed dictionaries.now) (map message_seen encoded.items)) }
    ensures whole { IfOk result (λ encoded. All HasWholeBody encoded.items) }
    ensures refused { IfErr result (RefusesAllValues (map listed dictionaries.now)) }
{
    let mut encoded = Vec::new(alloc);
    for dictionary in dictionaries {
        encoded.push(encode_dictionary(alloc, dictionary, is_little_endian)?)?;
    }
    Ok(encoded)
}

/// Encodes the messages of a chunk: those of `dictionaries`, and that of the columns.
///
/// `dictionaries` are those of [`list_messages`]. `is_little_endian` is the byte order of the
/// numbers in bodies. No byte of a column is copied. Errors (if several apply, any of them):
///
/// - `Fault::Argument(ArgFault::TooLong)`: an array has more than `2^63 - 1` slots to write.
/// - `Fault::Argument(ArgFault::TooLarge)`: a body is longer than `2^63 - 1` bytes, or metadata are
///   longer than `2^31 - 1`.
/// - `Fault::Memory`: an allocation failed.
pub fn encode_messages<'a>(
    alloc: Global,
    columns: &'a Chunk<AnyArray>,
    dictionaries: &'a [NewDictionary],
    is_little_endian: bool,
) -> Result<Messages<'a>, Fault>
    ensures encodes { IfOk result (λ messages. AreMessages (order_of is_little_endian)
        (map layout_of columns.now) (map listed dictionaries.now)
        (dictionaries_seen messages) (message_seen messages.record_batch)) }
    ensures sendable { IfOk result AreSendable }
    ensures whole { IfOk result HaveWholeBodies }
    ensures takes { MatchResult result
        (λ _. IsEncodable Record (row_count len_of (map layout_of columns.now))
        (levels_of (map layout_of columns.now)))
        (RefusesMessages (map listed dictionaries.now) (map layout_of columns.now)) }
{
    let rows = columns.len();
    let dictionaries = encode_dictionaries(alloc, dictionaries, is_little_endian)?;
    let record_batch = encode_batch(
        alloc,
        BatchKind::Record,
        columns.arrays(),
        rows,
        is_little_endian,
    )?;
    Ok(Messages {
        dictionaries,
        record_batch,
    })
}
