//! Writes streams.
//!
//! Arrow columnar format, "IPC Streaming Format".
ghost use Rattle.std.specs.Prelude.{◌≡◌, ◌≤◌, ◌^◌, All, [], pos, length, map, IfErr, IfOk, IfSome, IsTrue, MatchResult, OnOk};
ghost use Rattle.std.specs.Int.{next_multiple_of};
ghost use Rattle.lower.specs.TypeViews.{fields_view, pairs_of};
ghost use Rattle.lower_arrays.specs.AnyLayouts.{layout_of};
ghost use Rattle.lower_arrays.specs.Layouts.{len_of};
ghost use Rattle.lower_arrays.specs.Slots.{IsArray};
ghost use Rattle.ipc_base.specs.Chunks.{row_count};
ghost use Rattle.ipc_devices.specs.declared.fault.Fault.TheVariants.{State};
ghost use Rattle.ipc_encode.specs.Encoding.{IsEncodable, levels_of};
ghost use Rattle.ipc_encode.specs.declared.batches.BatchKind.TheVariants.{Record};
ghost use Rattle.ipc_schema_write.specs.WriterAnswers.{byte_order};
ghost use Rattle.ipc_tracker.specs.Listings.{listed};
ghost use Rattle.ipc_write.specs.declared.stream.WriterState.TheVariants.{New};
ghost use Rattle.ipc_write.specs.Agreement.{IsFresh};
ghost use Rattle.ipc_write.specs.Api.{FinishesStream, FlushesStream, StartsStream, WritesToStream};
ghost use Rattle.ipc_write.specs.Framing.{message_bytes, prefix_bytes};
ghost use Rattle.ipc_write.specs.Meaning.{normal_types};
ghost use Rattle.ipc_write.specs.Messages.{RefusesHanding};
ghost use Rattle.ipc_write.specs.Sending.{Delivers, HandsMessages, SendsOrRefuses};
ghost use Rattle.ipc_write.specs.Writers.{HaveTypes, LeavesState, MayList, RefusesChunk, RefusesTypes, chosen_ids, fault_unless_started, normal_view, order_of, seen, seen_ids};

mod writer;

use crate::checks::{check_ids, check_new, check_started, flush, has_type, note_failure};
use crate::common::{WriteOptions, byte_order};
use crate::common_sync::{write_continuation, write_head, write_messages};
use ipc_base::chunk::Chunk;
use ipc_base::ipc::IpcField;
use ipc_chunks::messages::{encode_messages, list_messages};
use ipc_devices::{ArgFault, Fault, Writes};
use ipc_schema_write::defaults::writable_ipc_fields;
use ipc_schema_write::schema::schema_to_bytes_as;
use ipc_tracker::{DictionaryTracker, NewDictionary};
use lower::datatypes::{DataType, Field, Schema};
use lower::types::Endianness;
use lower_arrays::array::AnyArray;
use std::alloc::{AllocError, Global};
pub use writer::StreamWriter;

/// The state of a writer.
#[derive(Clone, Copy, Debug, PartialEq, Eq)]
pub enum WriterState {
    /// Nothing was written.
    New,
    /// The schema was written.
    Started,
    /// The end mark, and in a file the footer, was written.
    Finished,
    /// A call returned `Io`.
    Failed,
}

// Checks that there is one column for each type, and that it has that type.
fn check_types(columns: &[AnyArray], types: &[DataType]) -> Result<(), Fault>
    ensures ok { OnOk result (HaveTypes columns.now (map normal_view types.now)) }
    ensures arrays { OnOk result (All (λ array. IsArray (layout_of array)) columns.now) }
    ensures only { IfErr result (RefusesTypes columns.now (map normal_view types.now)) }
{
    if columns.len() != types.len() {
        return Err(Fault::Argument(ArgFault::ColumnCount));
    }
    for (i, column) in columns.iter().enumerate() {
        if !has_type(column, &types[i]) {
            return Err(Fault::Argument(ArgFault::ColumnType));
        }
    }
    Ok(())
}

// Sends the message of a schema, which has no body. If the device fails, the state is `Failed`.
fn send_schema<W: Writes>(
    writer: &mut W,
    state: &mut WriterState,
    metadata: &[u8],
) -> Result<(), Fault>
    ensures sends { SendsOrRefuses W.device writer.old result writer.new
        (message_bytes metadata.now []) (2 ^ 31 ≤ next_multiple_of (length metadata.now) 8) }
    ensures state { LeavesState result state.old state.new }
{
    match write_head(writer, metadata) {
        Ok(()) => Ok(()),
        Err(Fault::Io(error)) => {
            *state = WriterState::Failed;
            Err(Fault::Io(error))
        }
        Err(fault) => Err(fault),
    }
}

// Encodes a chunk and these new dictionaries, and sends their messages. All memory is allocated
// before the first byte is sent. If the device fails, the state is `Failed`.
fn send_chunk<W: Writes>(
    alloc: Global,
    writer: &mut W,
    state: &mut WriterState,
    columns: &Chunk<AnyArray>,
    dictionaries: &[NewDictionary],
    order: Endianness,
) -> Result<(), Fault>
    ensures sends { HandsMessages W.device order (map layout_of columns.now)
        (map listed dictionaries.now)
        writer.old result writer.new }
    ensures takes { MatchResult result (λ _. IsEncodable Record (row_count len_of (map layout_of columns.now)) (levels_of (map layout_of columns.now)))
        (RefusesHanding (map listed dictionaries.now) (map layout_of columns.now)) }
    ensures state { LeavesState result state.old state.new }
{
    let messages = encode_messages(alloc, columns, dictionaries, is_little_endian(order))?;
    let sent = write_messages(writer, &messages);
    note_failure(state, sent)
}

// Sends the end mark of a stream, and flushes the device.
fn send_mark<W: Writes>(writer: &mut W) -> Result<(), Fault>
    ensures sends { Delivers W.device (prefix_bytes (pos 0)) writer.old result writer.new }
    ensures flushed { OnOk result (IsTrue (W.device.is_flushed writer.new)) }
{
    write_continuation(writer, 0)?;
    writer.flush()?;
    Ok(())
}

// The types of the fields.
fn types_of_fields(alloc: Global, fields: &[Field]) -> Result<Vec<DataType>, AllocError>
    ensures { IfOk result (λ types. map normal_view types.items ≡ normal_types (fields_view fields.now)) }
{
    let mut types = Vec::new(alloc);
    for field in fields {
        types.push(field.data_type.clone()?)?;
    }
    Ok(types)
}

// Whether the lowest byte of a number comes first.
fn is_little_endian(order: Endianness) -> bool
    ensures { byte_order result ≡ order }
{
    match order {
        Endianness::Little => true,
        Endianness::Big => false,
    }
}

impl<W: Writes + Drop> StreamWriter<W> {
    /// A writer of a stream. Nothing is written or allocated yet.
    pub fn new(alloc: Global, writer: W, write_options: WriteOptions) -> StreamWriter<W>
        ensures device { (seen result).device ≡ writer }
        ensures state { (seen result).state ≡ New }
        ensures order { (seen result).order ≡ order_of write_options }
        ensures means { IsFresh W.device (seen result) }
    {
        StreamWriter {
            alloc,
            writer,
            order: byte_order(write_options),
            state: WriterState::New,
            types: Vec::new(alloc),
            ipc_fields: Vec::new(alloc),
            dictionary_tracker: DictionaryTracker::new(alloc, false),
        }
    }

    /// The state of the writer.
    pub fn state(&self) -> WriterState
        ensures { result ≡ (seen self.now).state }
    {
        self.state
    }

    /// The device, as it is.
    pub fn get_ref(&self) -> &W
        ensures { result.now ≡ (seen self.now).device }
    {
        &self.writer
    }

    /// The device.
    pub fn into_inner(self) -> W
        ensures { result ≡ (seen self).device }
    {
        self.writer
    }

    /// Writes the schema message, with the schema in its normal form.
    ///
    /// `ipc_fields` are the dictionary ids of the fields. Without them the dictionaries get 0, 1, 2
    /// and so on, in pre-order.
    ///
    /// # Errors
    /// After any but `Io`, nothing was sent and the writer is as before.
    ///
    /// - `State(AlreadyStarted)`, `State(Finished)`, `State(Failed)`: the writer's state.
    /// - `Argument(FieldsShape)`: the ids don't have the shape of the fields.
    /// - `Argument(NotWritable)`: the schema can't be written with these ids, as
    ///   [`schema_to_bytes_as`] says.
    /// - `Memory`.
    /// - `Io`: the device failed, or it is memory whose growth was refused. Some of the first bytes
    ///   may have been sent, and each later `start`, `write` and `finish` returns `State(Failed)`.
    pub fn start(&mut self, schema: &Schema, ipc_fields: Option<Vec<IpcField>>) -> Result<(), Fault>
        ensures { let fields = fields_view schema.now.fields.items in
            StartsStream W.device (seen self.old) fields (pairs_of schema.now.metadata.entries)
            (chosen_ids ipc_fields fields) result (seen self.new) }
    {
        check_new(self.state)?;
        let ipc_fields = match ipc_fields {
            Some(given) => given,
            None => writable_ipc_fields(self.alloc, &schema.fields)?,
        };
        let types = types_of_fields(self.alloc, &schema.fields)?;
        let is_little = is_little_endian(self.order);
        let metadata = schema_to_bytes_as(self.alloc, schema, &ipc_fields, is_little)?;
        send_schema(&mut self.writer, &mut self.state, &metadata)?;
        self.state = WriterState::Started;
        self.types = types;
        self.ipc_fields = ipc_fields;
        Ok(())
    }

    // Checks a chunk except its columns' lengths, and lists the dictionaries to be written.
    fn check_write(
        &self,
        columns: &[AnyArray],
        ipc_fields: Option<&[IpcField]>,
    ) -> Result<Vec<NewDictionary>, Fault>
        ensures first { IfSome (fault_unless_started self.now.state) (λ e. result ≡ Err (State e)) }
        ensures ok { IfOk result (λ list. MayList (seen self.now) columns.now (seen_ids ipc_fields.entry) (map listed list.items)) }
        ensures only { IfErr result (RefusesChunk (seen self.now) columns.now (seen_ids ipc_fields.entry)) }
    {
        check_started(self.state)?;
        check_ids(ipc_fields, &self.ipc_fields)?;
        check_types(columns, &self.types)?;
        let list = list_messages(
            self.alloc,
            &self.dictionary_tracker,
            columns,
            &self.ipc_fields,
        )?;
        Ok(list)
    }

    /// Writes a chunk: its new or changed dictionaries, then its columns.
    ///
    /// - `columns`: one for each field, with the field's type.
    /// - `ipc_fields`: None, or the dictionary ids of the start.
    ///
    /// # Errors
    /// After any but `Io`, nothing was sent, and the writer and the dictionaries that it remembers
    /// are as before.
    ///
    /// - `State(NotStarted)`, `State(Finished)`, `State(Failed)`: the writer's state.
    /// - `Argument(FieldsDiffer)`: the ids are others.
    /// - `Argument(ColumnCount)`: there aren't as many columns as fields.
    /// - `Argument(ColumnType)`: a column doesn't have its field's type, comparing both in their
    ///   normal form.
    /// - `Argument(SharedDictionary)` with the id: columns of one dictionary id have different
    ///   values.
    /// - `Argument(TooLong)`: an array, also in dictionary values, has more than `2^63 - 1` slots
    ///   to be written.
    /// - `Argument(TooLarge)`: the body of a message would have more than `2^63 - 1` bytes.
    /// - `Memory`.
    /// - `Io`: the device failed, or it is memory whose growth was refused. Some of the first bytes
    ///   may have been sent, and each later `start`, `write` and `finish` returns `State(Failed)`.
    pub fn write(
        &mut self,
        columns: &Chunk<AnyArray>,
        ipc_fields: Option<&[IpcField]>,
    ) -> Result<(), Fault>
        ensures { WritesToStream W.device (seen self.old) columns.now (seen_ids ipc_fields.entry)
            result (seen self.new) }
    {
        let dictionaries = self.check_write(columns.arrays(), ipc_fields)?;
        // Room for all dictionaries is allocated here, so that nothing can fail after sending.
        self.dictionary_tracker.make_room(dictionaries.len())?;
        send_chunk(
            self.alloc,
            &mut self.writer,
            &mut self.state,
            columns,
            &dictionaries,
            self.order,
        )?;
        self.dictionary_tracker.remember_all(dictionaries);
        Ok(())
    }

    /// Flushes the device, so that it keeps nothing back of what was written.
    ///
    /// # Errors
    /// - `State(Failed)`: an earlier call returned `Io`. The writer is as before.
    /// - `Io`: the flush failed. Each later `start`, `write`, `flush` and `finish` returns
    ///   `State(Failed)`, unless the stream is finished: then it stays so.
    pub fn flush(&mut self) -> Result<(), Fault>
        ensures { FlushesStream W.device (seen self.old) result (seen self.new) }
    {
        flush(&mut self.writer, &mut self.state)
    }

    /// Writes the end mark of the stream, and flushes the device.
    ///
    /// # Errors
    /// - `State(NotStarted)`, `State(Finished)`, `State(Failed)`: the writer's state. Nothing was
    ///   sent, and the writer is as before.
    /// - `Io`: a write or the flush failed, or the device is memory whose growth was refused. Each
    ///   later `start`, `write` and `finish` returns `State(Failed)`.
    pub fn finish(&mut self) -> Result<(), Fault>
        ensures { FinishesStream W.device (seen self.old) result (seen self.new) }
    {
        check_started(self.state)?;
        match send_mark(&mut self.writer) {
            Ok(_) => {
                self.state = WriterState::Finished;
                Ok(())
            }
            Err(fault) => {
                self.state = WriterState::Failed;
                Err(fault)
            }
        }
    }
}
