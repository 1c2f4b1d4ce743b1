//! The tables of Arrow's `Message.fbs`, as values that are encoded.
ghost use Rattle.std.specs.Prelude.{ℕ, ◌≡◌, ◌<◌, ◌≤◌, IfOk, None, length, option_map};
ghost use Rattle.ipc_table_bytes.specs.Encodes.{Encodes};
ghost use Rattle.ipc_table_bytes.specs.Parts.{IsPart};
ghost use Rattle.ipc_table_bytes.specs.Tree.{table};
ghost use Rattle.ipc_tables.specs.Messages.{codec_number, compression_slots, dictionary_batch_slots, header_slots, header_tag, message_slots, method_number, record_batch_slots};
ghost use Rattle.ipc_tables.specs.Reads.{HaveRoot, IsMessage};
ghost use Rattle.ipc_tables.specs.Slots.{IsOptional};
ghost use Rattle.ipc_tables.specs.Weights.{schema_weight};

use crate::elements::{Element, elements_part};
use crate::schema::{KeyValue, Schema, optional_pairs, schema_part, version_number};
use crate::slots::{flag, long};
use ipc_devices::fault::Fault;
use ipc_table_bytes::{Built, Pool, Slot, message, put_u64, table};
use ipc_table_views::{Buffer, FieldNode, MetadataVersion};
use std::alloc::{AllocError, Global};

/// The compression of buffers: the enumeration `CompressionType`.
#[derive(Clone, Copy, Debug, PartialEq, Eq)]
pub enum CompressionType {
    Lz4Frame,
    Zstd,
}

/// What is compressed in a body: the enumeration `BodyCompressionMethod`.
#[derive(Clone, Copy, Debug, PartialEq, Eq)]
pub enum BodyCompressionMethod {
    /// Each buffer by itself.
    Buffer,
}

/// A table `BodyCompression`, as a value.
#[derive(Clone, Copy, Debug, PartialEq, Eq)]
pub struct BodyCompression {
    pub codec: CompressionType,
    pub method: BodyCompressionMethod,
}

/// A table `RecordBatch`, as a value (Arrow columnar format, "RecordBatch message").
#[derive(Drop)]
pub struct RecordBatch {
    /// The number of rows.
    pub length: i64,
    pub nodes: Vec<FieldNode>,
    pub buffers: Vec<Buffer>,
    /// How the buffers are compressed, `None` if they aren't.
    pub compression: Option<BodyCompression>,
}

/// A table `DictionaryBatch`, as a value (Arrow columnar format, "Dictionary Messages").
#[derive(Drop)]
pub struct DictionaryBatch {
    pub id: i64,
    /// The values, as a record batch of one column.
    pub data_: Option<RecordBatch>,
    pub is_delta: bool,
}

/// The header of a message: the union `MessageHeader`.
#[derive(Drop)]
pub enum MessageHeader {
    Schema(Schema),
    DictionaryBatch(DictionaryBatch),
    RecordBatch(RecordBatch),
}

/// A table `Message`, as a value (Arrow columnar format, "Encapsulated message format").
#[derive(Drop)]
pub struct Message {
    pub version: MetadataVersion,
    pub header: MessageHeader,
    /// The length of the body in bytes.
    pub body_length: i64,
    pub custom_metadata: Option<Vec<KeyValue>>,
}

impl Element for FieldNode {
    ghost use Rattle.std.proofs.Common.{refl};
    ghost use Rattle.ipc_tables.specs.Messages.{node_bytes};
    ghost use Rattle.ipc_tables.specs.ElementLaws.{length-node, some-16};

    ghost size = { 16 };

    ghost align = { 8 };

    ghost spelt = { node_bytes };

    ghost sized = { length-node };

    ghost some = { some-16 };

    ghost aligned = { refl };

    fn len() -> usize {
        16
    }

    fn put(self, bytes: &mut Vec<u8>) -> Result<(), AllocError> {
        put_u64(bytes, self.length.cast_unsigned())?;
        put_u64(bytes, self.null_count.cast_unsigned())
    }
}

impl Element for Buffer {
    ghost use Rattle.std.proofs.Common.{refl};
    ghost use Rattle.ipc_tables.specs.Messages.{buffer_bytes};
    ghost use Rattle.ipc_tables.specs.ElementLaws.{length-buffer, some-16};

    ghost size = { 16 };

    ghost align = { 8 };

    ghost spelt = { buffer_bytes };

    ghost sized = { length-buffer };

    ghost some = { some-16 };

    ghost aligned = { refl };

    fn len() -> usize {
        16
    }

    fn put(self, bytes: &mut Vec<u8>) -> Result<(), AllocError> {
        put_u64(bytes, self.offset.cast_unsigned())?;
        put_u64(bytes, self.length.cast_unsigned())
    }
}

fn codec_number(codec: CompressionType) -> u64
    ensures value { result ≡ codec_number codec }
    ensures small { result < 256 }
{
    match codec {
        CompressionType::Lz4Frame => 0,
        CompressionType::Zstd => 1,
    }
}

fn method_number(method: BodyCompressionMethod) -> u64
    ensures value { result ≡ method_number method }
    ensures small { result < 256 }
{
    match method {
        BodyCompressionMethod::Buffer => 0,
    }
}

fn compression_part(pool: &mut Pool, compression: BodyCompression) -> Result<Built, AllocError>
    ensures { IfOk result (λ built. IsPart built (table (compression_slots compression))) }
{
    table(
        pool,
        &[
            Slot::Number(codec_number(compression.codec)),
            Slot::Number(method_number(compression.method)),
        ],
    )
}

fn compression_slot(
    pool: &mut Pool,
    compression: Option<BodyCompression>,
) -> Result<Slot, AllocError>
    ensures { IfOk result (λ slot. IsOptional slot (option_map (λ c. table (compression_slots c)) compression)) }
{
    match compression {
        None => Ok(Slot::Absent),
        Some(compression) => Ok(Slot::Offset(compression_part(pool, compression)?)),
    }
}

fn record_batch_part(pool: &mut Pool, batch: &RecordBatch) -> Result<Built, AllocError>
    ensures { IfOk result (λ built. IsPart built (table (record_batch_slots batch.now))) }
{
    let nodes = elements_part(pool, batch.nodes.as_slice())?;
    let buffers = elements_part(pool, batch.buffers.as_slice())?;
    let compression = compression_slot(pool, batch.compression)?;
    table(
        pool,
        &[
            Slot::Number(long(batch.length)),
            Slot::Offset(nodes),
            Slot::Offset(buffers),
            compression,
        ],
    )
}

fn record_batch_slot(pool: &mut Pool, batch: &Option<RecordBatch>) -> Result<Slot, AllocError>
    ensures { IfOk result (λ slot. IsOptional slot (option_map (λ b. table (record_batch_slots b)) batch.now)) }
{
    match batch {
        None => Ok(Slot::Absent),
        Some(batch) => Ok(Slot::Offset(record_batch_part(pool, batch)?)),
    }
}

fn dictionary_batch_part(pool: &mut Pool, batch: &DictionaryBatch) -> Result<Built, AllocError>
    ensures { IfOk result (λ built. IsPart built (table (dictionary_batch_slots batch.now))) }
{
    let data_ = record_batch_slot(pool, &batch.data_)?;
    table(
        pool,
        &[
            Slot::Number(long(batch.id)),
            data_,
            Slot::Number(flag(batch.is_delta)),
        ],
    )
}

fn header_tag(header: &MessageHeader) -> u64
    ensures value { result ≡ header_tag header.now }
    ensures small { result < 256 }
{
    match header {
        MessageHeader::Schema(_) => 1,
        MessageHeader::DictionaryBatch(_) => 2,
        MessageHeader::RecordBatch(_) => 3,
    }
}

fn header_part(pool: &mut Pool, header: &MessageHeader) -> Result<Built, AllocError>
    ensures { IfOk result (λ built. IsPart built (table (header_slots header.now))) }
{
    match header {
        MessageHeader::Schema(schema) => schema_part(pool, schema),
        MessageHeader::DictionaryBatch(batch) => dictionary_batch_part(pool, batch),
        MessageHeader::RecordBatch(batch) => record_batch_part(pool, batch),
    }
}

fn message_part(pool: &mut Pool, message: &Message) -> Result<Built, AllocError>
    ensures { IfOk result (λ built. IsPart built (table (message_slots message.now))) }
{
    let header = header_part(pool, &message.header)?;
    let pairs = optional_pairs(pool, &message.custom_metadata)?;
    table(
        pool,
        &[
            Slot::Number(version_number(message.version)),
            Slot::Number(header_tag(&message.header)),
            Slot::Offset(header),
            Slot::Number(long(message.body_length)),
            pairs,
        ],
    )
}

impl Message {
    /// Returns the encoded message, without its prefix and padding.
    ///
    /// Errors:
    ///
    /// - `Fault::Memory`: an allocation failed.
    /// - `Fault::Argument(ArgFault::TooLarge)`: it is longer than `2^31 - 1` bytes.
    pub fn to_bytes(&self, alloc: Global) -> Result<Vec<u8>, Fault>
        // the root table has these slots, in a strict layout
        ensures encodes { Encodes result (message_slots self.now) }
        // the message of a schema, without metadata of its own, is no longer than the weight of the
        // schema
        ensures weight { (schema : Schema) → self.now.header ≡ MessageHeader.Schema schema
            → self.now.custom_metadata ≡ None
            → IfOk result (λ bytes. length bytes.items ≤ schema_weight schema) }
        // each accessor returns what the value says, for fields nested to any depth
        ensures reads { (levels : ℕ) → IfOk result (λ bytes.
            HaveRoot bytes.items (IsMessage levels) self.now) }
    {
        let mut pool = Pool::new(alloc);
        message(alloc, &message_part(&mut pool, self)?)
    }
}
