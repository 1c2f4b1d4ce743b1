//! Reads the next chunk of a stream.
ghost use Rattle.std.specs.Prelude.{◌≡◌, ◌<◌, ◌+◌, ◌-◌, ◌^◌, ◌↔◌, IsTrue, IsSome, IfOk, IfErr, OnOk, OnErr, length, vec_capacity};
ghost use Rattle.std.specs.Iterator.{endless};
ghost use Rattle.ipc_devices.specs.Device.{IsAnswered};
ghost use Rattle.ipc_devices.specs.Faults.{IfIo, OnIo, OwnFault};
ghost use Rattle.ipc_devices.specs.declared.fault.Fault.TheVariants.{Memory};
ghost use Rattle.ipc_base.specs.Fitting.{AllFit};
ghost use Rattle.ipc_base.specs.IdTrees.{all_ids_view};
ghost use Rattle.ipc_stream_lemmas.specs.Agreement.{AreAt};
ghost use Rattle.ipc_model.specs.Batches.{IsProjection};
ghost use Rattle.ipc_model.specs.Streams.{most_dictionaries};
ghost use Rattle.ipc_table_views.specs.Unions.{header_parts};
ghost use Rattle.lower.specs.TypeViews.{fields_view};
ghost use Rattle.ipc_projection.specs.ChosenColumns.{items_of};
ghost use Rattle.ipc_readers.specs.Api.{MakesReader, TriesReader};
ghost use Rattle.ipc_readers.specs.Chunks.{chunks_left, lender, lent};
ghost use Rattle.ipc_readers.specs.KeptValues.{KeepsValues, KeptOfBatch, KeptOfBody, KeptOfItem, KeepsArrays, values_in, values_of};
ghost use Rattle.ipc_readers.specs.Messages.{header_seen};
ghost use Rattle.ipc_readers.specs.Refusals.{IsStreamFault};
ghost use Rattle.ipc_readers.specs.Streams.{NextStep, IsWaiting, HasChunk, BodyGave, BodyHasValues, Counted, CountsOn, FrontHasValues, GivesHeld, HasKnownValues, IsAdmitted, ItemGave, NextGave, RefusesBody, StateHasValues, request_of, request_in, begun_of, chosen_of, device_of, is_over, known_in, known_of, metadata_of, of_dictionary, of_record, schema_of};

use crate::read::begun::{Begun, Frame};
use crate::read::frame::read_frame;
use crate::read::message::{Message, open_message};
use crate::read::stream::chunks::Chunks;
use crate::read::stream::metadata::StreamMetadata;
use crate::read::stream::reader::{Batches, Found, StreamReader, StreamState};
use ipc_base::chunk::Chunk;
use ipc_base::ipc::fits;
use ipc_devices::fault::{Fault, OutOfSpecKind};
use ipc_devices::{Bytes, MemFile, Reads, read_into};
use ipc_projection::read::chosen::{choose, in_order, rising, shown};
use ipc_projection::read::projection::are_there;
use ipc_read::read::common::read_record_batch;
use ipc_read::read::dictionaries::read_dictionary;
use ipc_table_views::{DictionaryBatchRef, MessageHeaderRef, RecordBatchRef};
use lower::datatypes::Schema;
use lower_arrays::array::AnyArray;
use std::alloc::Global;
use std::collections::HashMap;

// The most dictionary batches before a record batch.
const MOST_DICTIONARIES: usize = 65_536;

impl StreamState {
    /// Whether the input ended before the next message.
    pub fn is_waiting(&self) -> bool
        ensures { IsTrue result ↔ IsWaiting self.now }
    {
        match self {
            StreamState::Waiting => true,
            StreamState::Some(_) => false,
        }
    }

    /// The chunk. The state must not be `Waiting` (see [`StreamState::is_waiting`]).
    pub fn unwrap(self) -> Chunk<AnyArray>
        requires { IsWaiting self → ⊥ }
        ensures { HasChunk self result }
    {
        match self {
            StreamState::Some(chunk) => chunk,
            StreamState::Waiting => unreachable!(),
        }
    }
}

impl Batches {
    // The requested columns of a record batch with this body.
    fn columns<B: Bytes + Drop>(
        &mut self,
        batch: RecordBatchRef<'_>,
        body: B,
        size: usize,
    ) -> Result<Chunk<AnyArray>, Fault>
        requires { size ≡ length (B.bytes body) }
        ensures described { self.new.metadata ≡ self.old.metadata }
        ensures projected { self.new.projection ≡ self.old.projection }
        ensures counted { OnOk result (self.new.count ≡ 0) }
        ensures kept { OnErr result (AreAt (known_in self.old) (known_in self.new)) }
        ensures only { IfErr result (λ e. OwnFault e (IsStreamFault (request_in self.old) e)) }
        ensures own { OnIo result ⊥ }
        ensures values { IfOk result (λ chunk. HasKnownValues self.new chunk) }
        ensures held { KeepsArrays (values_in self.old) (values_in self.new) }
        ensures memory { GivesHeld (request_in self.old) (known_in self.old) 3 batch.entry
            (B.bytes body) (of_record result) (known_in self.new) }
    {
        let mut bytes = MemFile::new(body);
        let read = read_record_batch(
            self.alloc,
            batch,
            &self.metadata.schema.fields,
            &self.metadata.ipc_schema,
            rising(&self.projection),
            None,
            &self.dictionaries,
            self.metadata.version,
            &mut bytes,
            0,
            size as u64,
            &mut self.scratch,
        )?;
        let chunk = in_order(self.alloc, &self.projection, read)?;
        self.count = 0;
        Ok(chunk)
    }

    // Replaces the values of an id by those of a dictionary batch, and counts the batch.
    fn values<B: Bytes + Drop>(
        &mut self,
        batch: DictionaryBatchRef<'_>,
        body: B,
        size: usize,
    ) -> Result<(), Fault>
        requires counted { self.old.count < most_dictionaries }
        requires size { size ≡ length (B.bytes body) }
        ensures described { self.new.metadata ≡ self.old.metadata }
        ensures projected { self.new.projection ≡ self.old.projection }
        ensures counted { OnOk result (self.new.count ≡ self.old.count + 1) }
        ensures held { KeptOfBatch (request_in self.old)
            (record { tag = 2; table = batch.entry; body = length (B.bytes body) })
            (of_dictionary result) (values_in self.old) (values_in self.new) }
        ensures kept { OnErr result (AreAt (known_in self.old) (known_in self.new)) }
        ensures only { IfErr result (λ e. OwnFault e (IsStreamFault (request_in self.old) e)) }
        ensures own { OnIo result ⊥ }
        ensures memory { GivesHeld (request_in self.old) (known_in self.old) 2 batch.entry
            (B.bytes body) (of_dictionary result) (known_in self.new) }
    {
        let mut bytes = MemFile::new(body);
        read_dictionary(
            self.alloc,
            batch,
            &self.metadata.schema.fields,
            &self.metadata.ipc_schema,
            &mut self.dictionaries,
            self.metadata.version,
            &mut bytes,
            0,
            size as u64,
            &mut self.scratch,
        )?;
        self.count += 1;
        Ok(())
    }

    // Reads the batch with this header and body. Returns the chunk of a record batch, or None for a
    // dictionary batch, whose values are recorded.
    fn read_batch<B: Bytes + Drop>(
        &mut self,
        header: MessageHeaderRef<'_>,
        body: B,
        size: usize,
    ) -> Result<Option<Chunk<AnyArray>>, Fault>
        requires admitted { IsAdmitted self.old.count (header_parts header).0 }
        requires size { size ≡ length (B.bytes body) }
        ensures described { self.new.metadata ≡ self.old.metadata }
        ensures projected { self.new.projection ≡ self.old.projection }
        ensures counted { IfOk result (λ c. Counted c self.old.count self.new.count) }
        ensures values { IfOk result (λ c. BodyHasValues self.new c) }
        ensures held { let u = header_parts header.entry in
            KeptOfBatch (request_in self.old)
            (record { tag = u.0; table = u.1; body = length (B.bytes body) })
            result (values_in self.old) (values_in self.new) }
        ensures kept { OnErr result (AreAt (known_in self.old) (known_in self.new)) }
        ensures only { IfErr result (λ e. OwnFault e (IsStreamFault (request_in self.old) e)) }
        ensures own { OnIo result ⊥ }
        ensures memory { GivesHeld (request_in self.old) (known_in self.old) (header_parts header.entry).0
            (header_parts header.entry).1 (B.bytes body) result (known_in self.new) }
    {
        match header {
            MessageHeaderRef::RecordBatch(batch) => {
                let chunk = self.columns(batch, body, size)?;
                Ok(Some(chunk))
            }
            MessageHeaderRef::DictionaryBatch(batch) => {
                self.values(batch, body, size)?;
                Ok(None)
            }
            _ => Err(Fault::OutOfSpec(OutOfSpecKind::UnexpectedMessageType)),
        }
    }

    // Refuses a message of another kind, and one dictionary batch too many.
    fn check(&self, header: &MessageHeaderRef<'_>) -> Result<(), Fault>
        ensures admitted { OnOk result (IsAdmitted self.now.count (header_parts header.now).0) }
        ensures only { IfErr result (λ e. OwnFault e (IsStreamFault (request_in self.now) e)) }
        ensures own { OnIo result ⊥ }
        ensures refused { IfErr result (λ e. RefusesBody (request_in self.now) (known_in self.now)
            (header_parts header.now).0 (header_parts header.now).1 e) }
    {
        match header {
            MessageHeaderRef::RecordBatch(_) => Ok(()),
            MessageHeaderRef::DictionaryBatch(_) => {
                if self.count == MOST_DICTIONARIES {
                    return Err(Fault::TooManyDictionaries);
                }
                Ok(())
            }
            _ => Err(Fault::OutOfSpec(OutOfSpecKind::UnexpectedMessageType)),
        }
    }

    // Reads the body of a message. The device shares or lends it if it can.
    fn read_body<R: Reads>(
        &mut self,
        message: Message<'_>,
        reader: &mut R,
        body: &mut Vec<u8>,
    ) -> Result<Option<Chunk<AnyArray>>, Fault>
        requires { message.body_length < 2 ^ 63 }
        ensures described { self.new.metadata ≡ self.old.metadata }
        ensures projected { self.new.projection ≡ self.old.projection }
        ensures counted { IfOk result (λ c. Counted c self.old.count self.new.count) }
        ensures values { IfOk result (λ c. BodyHasValues self.new c) }
        ensures held { KeptOfBody R.gives (request_in self.old)
            (header_seen message.entry) reader.old result reader.new
            (values_in self.old) (values_in self.new) }
        ensures kept { OnErr result (AreAt (known_in self.old) (known_in self.new)) }
        ensures only { IfErr result (λ e. OwnFault e (IsStreamFault (request_in self.old) e)) }
        ensures gives { BodyGave R.gives (request_in self.old) (known_in self.old) (header_seen message.entry)
            reader.old result (known_in self.new) reader.new }
        ensures answered { IfIo result (IsAnswered R.device) }
        ensures shown { R.shows reader.old message.entry.body_length
            → (body.new.items ≡ body.old.items) × (vec_capacity body.new ≡ vec_capacity body.old) }
    {
        let Message {
            header,
            body_length,
        } = message;
        self.check(&header)?;
        if let Some(shared) = reader.share(body_length) {
            return self.read_batch(header, shared, body_length);
        }
        if let Some(shown) = reader.pass(body_length) {
            return self.read_batch(header, shown, body_length);
        }
        read_into(reader, body, body_length)?;
        self.read_batch(header, body.as_slice(), body_length)
    }
}

impl<R: Reads + Drop> StreamReader<R> {
    /// A reader of the messages after the schema message.
    ///
    /// - `reader`: at the first message after the schema.
    /// - `metadata`: of that schema message. Its dictionary ids have the shape of its fields (see
    ///   `fits`).
    /// - `projection`: indexes of the columns to return, in this order, none twice (see
    ///   `is_projection`). None returns all; an empty one gives chunks without columns.
    ///
    /// The error is `Memory`, and comes only with a projection: otherwise nothing is allocated.
    #[tactic(auto, using(ipc_base::proofs::FitTests::all_test))]
    pub fn new(
        alloc: Global,
        reader: R,
        metadata: StreamMetadata,
        projection: Option<Vec<usize>>,
    ) -> Result<StreamReader<R>, Fault>
        requires fits { AllFit (fields_view metadata.schema.fields.items)
            (all_ids_view metadata.ipc_schema.fields.items) }
        requires columns { IsProjection (items_of projection)
            (length metadata.schema.fields.items) }
        ensures made { IfOk result (λ made.
            MakesReader reader metadata (items_of projection) made) }
        ensures only { IfErr result (λ e. (e ≡ Memory) × IsSome projection) }
    {
        let projection = choose(alloc, &metadata.schema, projection)?;
        let batches = Batches {
            alloc,
            metadata,
            projection,
            dictionaries: HashMap::new(alloc),
            count: 0,
            scratch: Vec::new(alloc),
        };
        Ok(StreamReader {
            reader,
            begun: Begun::new(),
            message: Vec::new(alloc),
            body: Vec::new(alloc),
            batches,
            finished: false,
        })
    }

    /// A reader as [`new`](StreamReader::new) makes it, or None where that can't be called.
    ///
    /// It is None exactly if the dictionary ids haven't the shape of the fields, or a requested
    /// column doesn't exist or is requested twice; the device is dropped then. The error is
    /// `Memory`, as that of `new`.
    pub fn try_new(
        alloc: Global,
        reader: R,
        metadata: StreamMetadata,
        projection: Option<Vec<usize>>,
    ) -> Result<Option<StreamReader<R>>, Fault>
        ensures tried { IfOk result (λ made.
            TriesReader reader metadata (items_of projection) made) }
        ensures only { IfErr result (λ e. (e ≡ Memory) × IsSome projection) }
    {
        let columns = metadata.schema.fields.len();
        if !fits(&metadata.schema.fields, &metadata.ipc_schema.fields)
            || !are_there(&projection, columns)
        {
            return Ok(None);
        }
        Ok(Some(StreamReader::new(alloc, reader, metadata, projection)?))
    }

    /// The content of the schema message.
    pub fn metadata(&self) -> &StreamMetadata
        ensures { result.now ≡ metadata_of self.now }
    {
        &self.batches.metadata
    }

    /// The schema of the chunks, with the fields of the requested columns in their order.
    ///
    /// It has the metadata of the stream's schema.
    pub fn schema(&self) -> &Schema
        ensures { result.now ≡ schema_of self.now }
    {
        shown(&self.batches.projection, &self.batches.metadata.schema)
    }

    /// The chunks, for a loop that ends at the end mark, after an error, and where the stream
    /// waits.
    ///
    /// Afterwards [`is_finished`](StreamReader::is_finished) tells a stream that waits from one
    /// that has ended. If more bytes have come, the iterator or a new one goes on. It gives at most
    /// 2^64 - 1 chunks, so that a loop over them ends.
    pub fn chunks(&mut self) -> Chunks<'_, R>
        ensures lender { lender result ≡ self.entry.ghost_name }
        ensures lent { lent result ≡ self.entry.now }
        ensures left { chunks_left result ≡ 2 ^ 64 - 1 }
    {
        Chunks::new(self)
    }

    /// Whether `next` returns None from now on: after the end mark or an error.
    pub fn is_finished(&self) -> bool
        ensures { result ≡ is_over self.now }
    {
        self.finished
    }

    /// The device.
    ///
    /// If the last call of `next` returned [`StreamState::Waiting`], up to three bytes of a prefix
    /// were read from it and are lost.
    pub fn into_inner(self) -> R
        ensures { result ≡ device_of self }
    {
        self.reader
    }

    // The next item: a batch, the end mark or the end of the input.
    fn read_item(&mut self) -> Result<Found, Fault>
        ensures only { IfErr result (λ e. OwnFault e (IsStreamFault (request_of self.old) e)) }
        ensures finished { is_over self.new ≡ is_over self.old }
        ensures described { metadata_of self.new ≡ metadata_of self.old }
        ensures projected { chosen_of self.new ≡ chosen_of self.old }
        ensures counted { IfOk result (λ f. CountsOn f (known_of self.old).count (known_of self.new).count) }
        ensures values { IfOk result (λ f. FrontHasValues self.new.batches f) }
        ensures held { KeptOfItem R.gives (request_of self.old) (begun_of self.old)
            (device_of self.old) result
            (begun_of self.new) (device_of self.new) (values_of self.old) (values_of self.new) }
        ensures kept { OnErr result (AreAt (known_of self.old) (known_of self.new)) }
        ensures gives { ItemGave R.gives (request_of self.old) (known_of self.old) (begun_of self.old)
            (device_of self.old) result (known_of self.new) (begun_of self.new) (device_of self.new) }
        ensures answered { IfIo result (IsAnswered R.device) }
    {
        match read_frame(&mut self.reader, &mut self.begun, &mut self.message)? {
            Frame::Waiting => Ok(Found::Waiting),
            Frame::Mark => Ok(Found::Mark),
            Frame::Message => {
                let message = open_message(&self.message)?;
                let read = self
                    .batches
                    .read_body(message, &mut self.reader, &mut self.body)?;
                match read {
                    Some(chunk) => Ok(Found::Chunk(chunk)),
                    None => Ok(Found::Dictionary),
                }
            }
        }
    }

    // The next chunk, or None at the end mark. The dictionary batches before it are read.
    fn read_next(&mut self) -> Result<Option<StreamState>, Fault>
        ensures only { IfErr result (λ e. OwnFault e (IsStreamFault (request_of self.old) e)) }
        ensures finished { is_over self.new ≡ is_over self.old }
        ensures described { metadata_of self.new ≡ metadata_of self.old }
        ensures projected { chosen_of self.new ≡ chosen_of self.old }
        ensures values { IfOk result (λ state. StateHasValues self.new.batches state) }
        ensures held { KeepsValues R.gives (request_of self.old) (begun_of self.old)
            (device_of self.old) (device_of self.new)
            (values_of self.old) (values_of self.new) }
        ensures gives { NextGave R.gives (request_of self.old) (known_of self.old) (begun_of self.old)
            (device_of self.old) result (known_of self.new) (begun_of self.new) (device_of self.new) }
        ensures answered { IfIo result (IsAnswered R.device) }
    {
        loop {
            match self.read_item()? {
                Found::Dictionary => {}
                Found::Chunk(chunk) => return Ok(Some(StreamState::Some(chunk))),
                Found::Mark => return Ok(None),
                Found::Waiting => return Ok(Some(StreamState::Waiting)),
            }
        }
    }
}

impl<R: Reads + Drop> Iterator for StreamReader<R> {
    type Item = Result<StreamState, Fault>;

    // It may return `Waiting` without end.
    ghost remaining = { λ _. endless };

    ghost next_gives = { λ a r b. NextStep R.gives R.device a r b };

    fn next(&mut self) -> Option<Result<StreamState, Fault>> {
        if self.finished {
            return None;
        }
        match self.read_next() {
            Ok(Some(state)) => Some(Ok(state)),
            Ok(None) => {
                self.finished = true;
                None
            }
            Err(e) => {
                self.finished = true;
                Some(Err(e))
            }
        }
    }
}
