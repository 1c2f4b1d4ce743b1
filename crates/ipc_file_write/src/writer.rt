//! Writes files.
//!
//! Arrow columnar format, "IPC File Format".
ghost use Rattle.std.specs.Prelude.{◌≡◌, [], All, IfErr, IfOk, IfSome, IsOkAnd, None, OnOk, map, not, ◌≤◌, ◌-◌, ◌+◌, ◌^◌};
ghost use Rattle.lower.specs.TypeViews.{fields_view, pairs_of, schema_view};
ghost use Rattle.ipc_devices.specs.declared.fault.Fault.TheVariants.{State};
ghost use Rattle.lower_arrays.specs.AnyLayouts.{layout_of};
ghost use Rattle.lower_arrays.specs.Slots.{IsArray};
ghost use Rattle.ipc_schema_write.specs.WriterAnswers.{byte_order};
ghost use Rattle.ipc_tracker.specs.Listings.{listed};
ghost use Rattle.ipc_write.specs.Writers.{HaveTypes, RefusesState, RefusesTypes, chosen_ids, seen_ids, fault_unless_new, fault_unless_started};
ghost use Rattle.ipc_write.specs.declared.stream.WriterState.TheVariants.{New, Started};
ghost use Rattle.ipc_file_write.specs.Api.{FinishesFile, FlushesFile, IsNewWriter, MakesStarted, SetsPairs, StartsFile, WritesToFile};
ghost use Rattle.ipc_file_write.specs.Appends.{AreEmptyScratches};
ghost use Rattle.ipc_file_write.specs.Writes.{MayList, RefusesChunk, field_normal};
ghost use Rattle.ipc_file_write.specs.FileWriters.{MayFinish, MayStart, RefusesFinish, RefusesStart, fault_if_over, scratches_of, seen};

use crate::blocks::{add, add_all, make_room};
pub use crate::file::FileWriter;
use crate::sending::{Ending, beginning, footer_and_tail, send, send_chunk, send_last};
use ipc_base::chunk::Chunk;
use ipc_base::ipc::{IpcField, clone_ipc_fields};
use ipc_chunks::messages::list_messages;
use ipc_devices::Writes;
use ipc_devices::fault::{ArgFault, Fault, StateFault};
use ipc_encode::common::{EncodedData, WriteOptions};
use ipc_footer_write::footer::footer_to_bytes;
use ipc_footer_write::weights::is_light;
use ipc_schema_write::defaults::writable_ipc_fields;
use ipc_schema_write::schema::schema_to_bytes_as;
use ipc_tracker::{DictionaryTracker, NewDictionary};
use ipc_write::checks::{check_ids, check_new, check_started, flush, has_type};
use ipc_write::stream::WriterState;
use lower::datatypes::{Field, Metadata, Schema};
use lower_arrays::array::AnyArray;
use std::alloc::Global;
use std::collections::BTreeMap;
use std::mem::replace;

// The ids that a file is started with, and its first bytes.
#[derive(Drop)]
pub(crate) struct Starting {
    pub(crate) ipc_fields: Vec<IpcField>,
    pub(crate) bytes: Vec<u8>,
}

// Checks that there is one column for each field, with its type in the normal form.
fn check_types(columns: &[AnyArray], fields: &[Field]) -> Result<(), Fault>
    ensures ok { OnOk result (HaveTypes columns.now (map field_normal fields.now)) }
    ensures arrays { OnOk result (All (λ array. IsArray (layout_of array)) columns.now) }
    ensures only { IfErr result (RefusesTypes columns.now (map field_normal fields.now)) }
{
    if columns.len() != fields.len() {
        return Err(Fault::Argument(ArgFault::ColumnCount));
    }
    for (i, column) in columns.iter().enumerate() {
        if !has_type(column, &fields[i].data_type) {
            return Err(Fault::Argument(ArgFault::ColumnType));
        }
    }
    Ok(())
}

impl<W: Writes + Drop> FileWriter<W> {
    // Refuses the states in which pairs can't be set.
    fn check_open(&self) -> Result<(), Fault>
        ensures ok { OnOk result (fault_if_over self.now.state ≡ None) }
        ensures first { IfSome (fault_if_over self.now.state) (λ e. result ≡ Err (State e)) }
        ensures only { IfErr result (RefusesState (fault_if_over self.now.state)) }
    {
        match self.state {
            WriterState::New | WriterState::Started => Ok(()),
            WriterState::Finished => Err(Fault::State(StateFault::Finished)),
            WriterState::Failed => Err(Fault::State(StateFault::Failed)),
        }
    }

    /// A writer of a file. Nothing is written or allocated yet, so it is `Ok`.
    ///
    /// `ipc_fields` are the dictionary ids of the fields; without them the dictionaries get 0, 1, 2
    /// and so on, in pre-order.
    pub fn new(
        alloc: Global,
        writer: W,
        schema: Schema,
        ipc_fields: Option<Vec<IpcField>>,
        options: WriteOptions,
    ) -> Result<FileWriter<W>, Fault>
        ensures made { let fields = fields_view schema.fields.items in
            IsOkAnd result (λ w. IsNewWriter W.device writer fields
            (pairs_of schema.metadata.entries) (chosen_ids ipc_fields fields)
            (byte_order (not options.big_endian)) (seen w)) }
        ensures scratches { IsOkAnd result (λ w. AreEmptyScratches (scratches_of w)) }
    {
        Ok(FileWriter {
            alloc,
            writer,
            state: WriterState::New,
            is_little_endian: !options.big_endian,
            schema,
            given: ipc_fields,
            ipc_fields: Vec::new(alloc),
            dictionary_blocks: Vec::new(alloc),
            record_blocks: Vec::new(alloc),
            block_offsets: 0,
            size: 0,
            custom_metadata: BTreeMap::new(alloc),
            dictionary_tracker: DictionaryTracker::new(alloc, true),
            encoded_message: EncodedData::empty(alloc),
        })
    }

    /// A writer of a file, already started.
    ///
    /// It is [`new`](FileWriter::new), and then [`start`](FileWriter::start). The errors are those
    /// of `start`; the arguments are dropped then.
    pub fn try_new(
        alloc: Global,
        writer: W,
        schema: Schema,
        ipc_fields: Option<Vec<IpcField>>,
        options: WriteOptions,
    ) -> Result<FileWriter<W>, Fault>
        ensures { let fields = fields_view schema.fields.items in
            MakesStarted W.device writer fields (pairs_of schema.metadata.entries)
            (chosen_ids ipc_fields fields) (byte_order (not options.big_endian)) result }
    {
        let mut file = FileWriter::new(alloc, writer, schema, ipc_fields, options)?;
        file.start()?;
        Ok(file)
    }

    /// Takes the scratch memory, to pass it to another writer, and leaves empty vectors.
    ///
    /// It is what [`set_scratches`](FileWriter::set_scratches) was given, or empty.
    pub fn get_scratches(&mut self) -> EncodedData
        ensures handed { result ≡ scratches_of self.old }
        ensures message { (scratches_of self.new).ipc_message.items ≡ [] }
        ensures data { (scratches_of self.new).arrow_data.items ≡ [] }
        ensures same { seen self.new ≡ seen self.old }
    {
        replace(&mut self.encoded_message, EncodedData::empty(self.alloc))
    }

    /// Replaces the scratch memory. No call writes into it.
    ///
    /// It is only kept for [`get_scratches`](FileWriter::get_scratches).
    pub fn set_scratches(&mut self, scratches: EncodedData)
        ensures handed { scratches_of self.new ≡ scratches }
        ensures same { seen self.new ≡ seen self.old }
    {
        self.encoded_message = scratches;
    }

    /// The state of the writer.
    pub fn state(&self) -> WriterState
        ensures { result ≡ (seen self.now).state }
    {
        self.state
    }

    /// The schema that the writer was made with.
    pub fn schema(&self) -> &Schema
        ensures { schema_view result.now ≡ ((seen self.now).fields, (seen self.now).metadata) }
    {
        &self.schema
    }

    /// The device, as it is.
    pub fn get_ref(&self) -> &W
        ensures { result.now ≡ (seen self.now).device }
    {
        &self.writer
    }

    /// The device.
    pub fn into_inner(self) -> W
        ensures { result ≡ (seen self).device }
    {
        self.writer
    }

    /// Sets the pairs of texts for the footer, in place of earlier ones.
    ///
    /// Nothing is allocated.
    ///
    /// # Errors
    /// After each the writer is as before.
    ///
    /// - `State(Finished)`, `State(Failed)`: the writer's state.
    /// - `Argument(TooLarge)`: the schema and the pairs weigh more than `2^30`.
    pub fn set_custom_metadata(&mut self, metadata: Metadata) -> Result<(), Fault>
        ensures sets { SetsPairs W.device (seen self.old) (pairs_of metadata.entries) result
            (seen self.new) }
        ensures scratches { scratches_of self.new ≡ scratches_of self.old }
    {
        self.check_open()?;
        if !is_light(&self.schema, &metadata) {
            return Err(Fault::Argument(ArgFault::TooLarge));
        }
        self.custom_metadata = metadata;
        Ok(())
    }

    // Checks whether the file may start, and makes its first bytes. Pairs that were set fit beside
    // a schema that can be written.
    fn starting(&self) -> Result<Starting, Fault>
        ensures first { IfSome (fault_unless_new self.now.state) (λ e. result ≡ Err (State e)) }
        ensures ok { IfOk result (MayStart (seen self.now)) }
        ensures only { IfErr result (RefusesStart (seen self.now)) }
    {
        check_new(self.state)?;
        let ipc_fields = match &self.given {
            Some(given) => clone_ipc_fields(given)?,
            None => writable_ipc_fields(self.alloc, &self.schema.fields)?,
        };
        let message = schema_to_bytes_as(
            self.alloc,
            &self.schema,
            &ipc_fields,
            self.is_little_endian,
        )?;
        let bytes = beginning(self.alloc, &message)?;
        Ok(Starting { ipc_fields, bytes })
    }

    /// Writes the head of the file and the schema message.
    ///
    /// The schema is written in its normal form. Without dictionary ids the dictionaries get 0, 1,
    /// 2 and so on, in pre-order.
    ///
    /// # Errors
    /// After any but `Io`, nothing was sent and the writer is as before.
    ///
    /// - `State(AlreadyStarted)`, `State(Finished)`, `State(Failed)`: the writer's state.
    /// - `Argument(FieldsShape)`: the ids don't have the shape of the fields.
    /// - `Argument(NotWritable)`: the schema can't be written.
    /// - `Memory`.
    /// - `Io`: the device failed, or it is memory whose growth was refused. Some of the first bytes
    ///   may have been sent, and each later `start`, `write` and `finish` returns `State(Failed)`.
    pub fn start(&mut self) -> Result<(), Fault>
        ensures starts { StartsFile W.device (seen self.old) result (seen self.new) }
        ensures scratches { scratches_of self.new ≡ scratches_of self.old }
    {
        let Starting { ipc_fields, bytes } = self.starting()?;
        send(&mut self.writer, &mut self.state, &bytes)?;
        self.state = WriterState::Started;
        self.ipc_fields = ipc_fields;
        self.block_offsets = bytes.len() as u64;
        Ok(())
    }

    // Checks a chunk except the lengths in it, and lists the dictionaries to be written.
    fn check_write(
        &self,
        columns: &[AnyArray],
        ipc_fields: Option<&[IpcField]>,
    ) -> Result<Vec<NewDictionary>, Fault>
        ensures first { IfSome (fault_unless_started self.now.state) (λ e. result ≡ Err (State e)) }
        ensures ok { IfOk result (λ list. MayList (seen self.now) columns.now (seen_ids ipc_fields.entry) (map listed list.items)) }
        ensures only { IfErr result (RefusesChunk (seen self.now) columns.now (seen_ids ipc_fields.entry)) }
    {
        check_started(self.state)?;
        check_ids(ipc_fields, &self.ipc_fields)?;
        check_types(columns, &self.schema.fields)?;
        let list = list_messages(
            self.alloc,
            &self.dictionary_tracker,
            columns,
            &self.ipc_fields,
        )?;
        Ok(list)
    }

    /// Writes a chunk: its new dictionaries, then its columns.
    ///
    /// - `columns`: one for each field, with the field's type.
    /// - `ipc_fields`: None, or the dictionary ids of the start.
    ///
    /// # Errors
    /// After any but `Io`, nothing was sent, and the writer, its blocks and the dictionaries that
    /// it remembers are as before.
    ///
    /// - `State(NotStarted)`, `State(Finished)`, `State(Failed)`: the writer's state.
    /// - `Argument(FieldsDiffer)`: the ids are others.
    /// - `Argument(ColumnCount)`: there aren't as many columns as fields.
    /// - `Argument(ColumnType)`: a column doesn't have its field's type, comparing both in their
    ///   normal form.
    /// - `Argument(SharedDictionary)` with the id: columns of one dictionary id have different
    ///   values.
    /// - `Argument(DictionaryReplaced)` with the id: other values were already written for it.
    /// - `Argument(TooLong)`: an array, also in dictionary values, has more than `2^63 - 1` slots
    ///   to be written.
    /// - `Argument(TooLarge)`: the body of a message would have more than `2^63 - 1` bytes, or end
    ///   after that offset; or the file would have more than `2^25` blocks.
    /// - `Memory`.
    /// - `Io`: the device failed, or it is memory whose growth was refused. Some of the first bytes
    ///   may have been sent, and each later `start`, `write` and `finish` returns `State(Failed)`.
    pub fn write(
        &mut self,
        columns: &Chunk<AnyArray>,
        ipc_fields: Option<&[IpcField]>,
    ) -> Result<(), Fault>
        ensures writes { WritesToFile W.device (seen self.old) columns.now
            (seen_ids ipc_fields.entry) result (seen self.new) }
        ensures scratches { scratches_of self.new ≡ scratches_of self.old }
    {
        let dictionaries = self.check_write(columns.arrays(), ipc_fields)?;
        let count = dictionaries.len();
        // Room for all is allocated here, so that nothing can fail after sending.
        make_room(&mut self.dictionary_blocks, &mut self.record_blocks, count)?;
        self.dictionary_tracker.make_room(count)?;
        let placed = send_chunk(
            self.alloc,
            &mut self.writer,
            &mut self.state,
            columns,
            &dictionaries,
            self.is_little_endian,
            self.block_offsets,
        )?;
        add_all(&mut self.dictionary_blocks, &placed.dictionaries);
        add(&mut self.record_blocks, placed.record_batch);
        self.block_offsets = placed.end;
        self.dictionary_tracker.remember_all(dictionaries);
        Ok(())
    }

    /// Flushes the device, so that it keeps nothing back of what was written.
    ///
    /// # Errors
    /// - `State(Failed)`: an earlier call returned `Io`. The writer is as before.
    /// - `Io`: the flush failed. Each later `start`, `write`, `flush` and `finish` returns
    ///   `State(Failed)`, unless the file is finished: then it stays so.
    pub fn flush(&mut self) -> Result<(), Fault>
        ensures flushes { FlushesFile W.device (seen self.old) result (seen self.new) }
        ensures scratches { scratches_of self.new ≡ scratches_of self.old }
    {
        flush(&mut self.writer, &mut self.state)
    }

    // Checks whether the file may end, and makes its last bytes.
    fn finishing(&self) -> Result<Ending, Fault>
        ensures first { IfSome (fault_unless_started self.now.state) (λ e. result ≡ Err (State e)) }
        ensures ok { IfOk result (λ ending. MayFinish (seen self.now) ending) }
        ensures only { IfErr result (RefusesFinish (seen self.now)) }
    {
        check_started(self.state)?;
        let footer = footer_to_bytes(
            self.alloc,
            &self.schema,
            &self.ipc_fields,
            &self.dictionary_blocks,
            &self.record_blocks,
            &self.custom_metadata,
            self.is_little_endian,
        )?;
        let bytes = footer_and_tail(self.alloc, &footer)?;
        let zeros = self.zeros_before(bytes.len() as u64);
        Ok(Ending { zeros, bytes })
    }

    // How many zero bytes follow the end mark, before the last `count` bytes.
    fn zeros_before(&self, count: u64) -> u64
        requires { count ≤ 2 ^ 32 }
        ensures { result ≡ (seen self.now).size - (seen self.now).place - (8 + count) }
    {
        let behind = self.size.saturating_sub(self.block_offsets);
        behind.saturating_sub(count + 8)
    }

    /// Writes the end mark of the stream and the footer, and flushes the device.
    ///
    /// A file that is appended to doesn't get shorter: if necessary, zero bytes are written between
    /// the mark and the footer.
    ///
    /// # Errors
    /// - `State(NotStarted)`, `State(Finished)`, `State(Failed)`: the writer's state.
    /// - `Argument(TooLarge)`: the file has more than `2^25` blocks.
    /// - `Memory`. After this and the errors above nothing was sent, and the writer is as before.
    /// - `Io`: the device failed, or it is memory whose growth was refused. Each later `start`,
    ///   `write` and `finish` returns `State(Failed)`.
    pub fn finish(&mut self) -> Result<(), Fault>
        ensures finishes { FinishesFile W.device (seen self.old) result (seen self.new) }
        ensures scratches { scratches_of self.new ≡ scratches_of self.old }
    {
        let ending = self.finishing()?;
        send_last(&mut self.writer, &mut self.state, &ending)?;
        self.state = WriterState::Finished;
        Ok(())
    }
}
