//! The state and the results of a stream reader.
ghost use Rattle.std.specs.Prelude.{IsTrue, length, ◌≤◌};
ghost use Rattle.ipc_base.specs.Fitting.{all_fit};
ghost use Rattle.ipc_base.specs.IdTrees.{all_ids_view};
ghost use Rattle.ipc_model.specs.Batches.{is_projection};
ghost use Rattle.ipc_model.specs.Streams.{most_dictionaries};
ghost use Rattle.ipc_projection.specs.ChosenColumns.{asked_by};
ghost use Rattle.lower.specs.TypeViews.{fields_view};

use crate::read::begun::Begun;
use crate::read::stream::metadata::StreamMetadata;
use ipc_base::chunk::Chunk;
use ipc_projection::read::chosen::ChosenColumns;
use ipc_read::read::Dictionaries;
use lower_arrays::array::AnyArray;
use std::alloc::Global;

/// Reads the chunks of a stream, one at each call of `next`.
///
/// See "IPC Streaming Format" in the Arrow columnar format. `next` reads dictionary batches, and
/// replaces the values of their ids. Then it returns
///
/// - `Some(Ok(StreamState::Some(chunk)))`: the chunk of the next record batch;
/// - `Some(Ok(StreamState::Waiting))`: the input ended before the next message, or in the first 4
///   bytes of its prefix. These are kept, and each later call continues there.
/// - `None`: the stream has ended by its end mark, or an earlier call returned an error;
/// - `Some(Err(..))`: an error, once. The reader keeps the dictionary values that it had before the
///   faulty message.
///
/// A chunk has the requested columns, in this order; no byte of another column is checked. Its
/// dictionary values are those that were read before its record batch; chunks share them.
///
/// The arrays of a chunk retain at most the encoded length of its columns' buffers, plus one offset
/// for each empty offset buffer. They retain at most the length of the body, plus these offsets.
/// The same applies to the array of a dictionary's values, by its own message.
///
/// # Errors of `next`
/// - Those of [`read_frame`], [`open_message`], [`read_dictionary`] and [`read_record_batch`].
/// - `Ended`: the body is shorter than stated.
/// - `OutOfSpec(UnexpectedMessageType)`: the message is neither a record batch nor a dictionary
///   batch.
/// - `TooManyDictionaries`: at the 65,537th dictionary batch since the last record batch.
/// - `Io` exactly if a call of the device failed; `Memory`.
///
/// When reading from memory, `Io` never comes. Another error except `Memory` comes only if the
/// stream is invalid for the requested columns.
///
/// [`read_frame`]: crate::read::frame::read_frame
/// [`open_message`]: crate::read::message::open_message
/// [`read_dictionary`]: ipc_read::read::dictionaries::read_dictionary
/// [`read_record_batch`]: ipc_read::read::common::read_record_batch
#[derive(Drop)]
pub struct StreamReader<R> {
    pub(crate) reader: R,
    pub(crate) begun: Begun,
    // the metadata of the last message, and its body unless the device lent it
    pub(crate) message: Vec<u8>,
    pub(crate) body: Vec<u8>,
    pub(crate) batches: Batches,
    pub(crate) finished: bool,
}

// The parameters and the state by which batches are read.
#[derive(Drop)]
pub(crate) struct Batches {
    pub(crate) alloc: Global,
    pub(crate) metadata: StreamMetadata,
    // the requested columns; None means all
    pub(crate) projection: Option<ChosenColumns>,
    // the values that were read, by their ids
    pub(crate) dictionaries: Dictionaries,
    // how many dictionary batches came since the last record batch
    pub(crate) count: usize,
    // an argument of the calls that read a batch; it stays empty, as a body in memory is lent
    pub(crate) scratch: Vec<u8>,
    ghost few: { count ≤ most_dictionaries },
    ghost there: { IsTrue (is_projection (asked_by projection) (length metadata.schema.fields.items)) },
    ghost fits: { IsTrue (all_fit (fields_view metadata.schema.fields.items)
        (all_ids_view metadata.ipc_schema.fields.items)) },
}

/// The result of a call of `next` that isn't an error or the end.
#[derive(Drop)]
pub enum StreamState {
    /// The input ended before the next message or in the first 4 bytes of it. More may come.
    Waiting,
    /// The next chunk.
    Some(Chunk<AnyArray>),
}

// The next item of a stream.
#[derive(Drop)]
pub(crate) enum Found {
    // A dictionary batch, whose values are recorded.
    Dictionary,
    // The chunk of a record batch.
    Chunk(Chunk<AnyArray>),
    // The end mark.
    Mark,
    // The end of the input, before the next message or inside its prefix.
    Waiting,
}
