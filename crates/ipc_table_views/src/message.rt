//! Views of the tables of Arrow's `Message.fbs`: messages and their headers.
ghost use Rattle.std.specs.Prelude.{◌≡◌, ◌<◌, ◌≤◌, ◌+◌, ◌↔◌, IsTrue, Some, length, option_map, slice_get};
ghost use Rattle.ipc_table_views.specs.MessageSlots.{dictionary_batch_data, dictionary_batch_id, dictionary_batch_is_delta, message_body_length, message_custom_metadata, message_header, message_version, record_batch_buffers, record_batch_compression, record_batch_length, record_batch_nodes};
ghost use Rattle.ipc_table_views.specs.Structs.{node_of, structs_at};
ghost use Rattle.ipc_table_views.specs.Tables.{map_ok, root_at};
ghost use Rattle.ipc_table_views.specs.Unions.{header_parts};

use crate::number::{bytes_at, u32_at};
use crate::schema::{Buffers, KeyValueTable, MetadataVersion, SchemaRef, version_of};
use crate::structs::signed64;
use crate::view::{TableRef, Tables};
use ipc_devices::fault::TableFault;
use std::marker::Model;

/// The kind of a table `Message`.
pub enum MessageTable {}

/// The kind of a table `RecordBatch`.
pub enum RecordBatchTable {}

/// The kind of a table `DictionaryBatch`.
pub enum DictionaryBatchTable {}

/// The kind of a table `BodyCompression`. Its slots have no accessors.
pub enum BodyCompressionTable {}

/// The kind of a table `Tensor`. Its slots have no accessors.
pub enum TensorTable {}

/// The kind of a table `SparseTensor`. Its slots have no accessors.
pub enum SparseTensorTable {}

/// A view of a message (Arrow columnar format, "Encapsulated message format").
pub type MessageRef<'a> = TableRef<'a, MessageTable>;

/// A view of the header of a record batch (Arrow columnar format, "RecordBatch message").
pub type RecordBatchRef<'a> = TableRef<'a, RecordBatchTable>;

/// A view of the header of a dictionary batch (Arrow columnar format, "Dictionary Messages").
pub type DictionaryBatchRef<'a> = TableRef<'a, DictionaryBatchTable>;

/// A view of how the buffers of a record batch are compressed.
pub type BodyCompressionRef<'a> = TableRef<'a, BodyCompressionTable>;

/// A view of the header of a tensor.
pub type TensorRef<'a> = TableRef<'a, TensorTable>;

/// A view of the header of a sparse tensor.
pub type SparseTensorRef<'a> = TableRef<'a, SparseTensorTable>;

/// A view of the header of a message: the union `MessageHeader`.
#[derive(Drop)]
pub enum MessageHeaderRef<'a> {
    /// Tag 1.
    Schema(SchemaRef<'a>),
    /// Tag 2.
    DictionaryBatch(DictionaryBatchRef<'a>),
    /// Tag 3.
    RecordBatch(RecordBatchRef<'a>),
    /// Tag 4.
    Tensor(TensorRef<'a>),
    /// Tag 5.
    SparseTensor(SparseTensorRef<'a>),
}

impl<'a> TableRef<'a, MessageTable> {
    /// Returns the message whose offset is in the first four bytes.
    ///
    /// Errors:
    ///
    /// - `TableFault::Outside`: the offset, the table or its vtable leads outside `message`.
    /// - `TableFault::Vtable`: the vtable is shorter than 4 bytes.
    pub fn read_as_root(message: &'a [u8]) -> Result<MessageRef<'a>, TableFault>
        ensures { result ≡ root_at message.now }
    {
        TableRef::open(message, u32_at(message, 0)? as usize)
    }

    /// Returns the version of the metadata, or `V1` if absent.
    pub fn version(&self) -> Result<MetadataVersion, TableFault>
        ensures { result ≡ message_version self.now }
    {
        version_of(self.u16(0, 0)?)
    }

    /// Returns the header, or `None` if its tag is 0 or absent.
    pub fn header(&self) -> Result<Option<MessageHeaderRef<'a>>, TableFault>
        ensures { map_ok (option_map header_parts) result ≡ message_header self.now }
    {
        Ok(Some(match self.u8(1, 0)? {
            0 => return Ok(None),
            1 => MessageHeaderRef::Schema(self.present(2)?),
            2 => MessageHeaderRef::DictionaryBatch(self.present(2)?),
            3 => MessageHeaderRef::RecordBatch(self.present(2)?),
            4 => MessageHeaderRef::Tensor(self.present(2)?),
            5 => MessageHeaderRef::SparseTensor(self.present(2)?),
            _ => return Err(TableFault::UnknownTag),
        }))
    }

    /// Returns the length of the body in bytes, or 0 if absent.
    pub fn body_length(&self) -> Result<i64, TableFault>
        ensures { result ≡ message_body_length self.now }
    {
        self.i64(3)
    }

    /// Returns the key-value metadata of the message.
    pub fn custom_metadata(&self) -> Result<Option<Tables<'a, KeyValueTable>>, TableFault>
        ensures { result ≡ message_custom_metadata self.now }
    {
        self.tables(4)
    }
}

impl<'a> TableRef<'a, RecordBatchTable> {
    /// Returns the number of rows, or 0 if absent.
    pub fn length(&self) -> Result<i64, TableFault>
        ensures { result ≡ record_batch_length self.now }
    {
        self.i64(0)
    }

    /// Returns the field nodes of the columns, in pre-order.
    pub fn nodes(&self) -> Result<Option<Nodes<'a>>, TableFault>
        ensures { result ≡ record_batch_nodes self.now }
    {
        match self.target(1)? {
            Some(place) => Ok(Some(Nodes::open(self.message(), place)?)),
            None => Ok(None),
        }
    }

    /// Returns where the buffers of the columns are in the body, in pre-order.
    pub fn buffers(&self) -> Result<Option<Buffers<'a>>, TableFault>
        ensures { result ≡ record_batch_buffers self.now }
    {
        match self.target(2)? {
            Some(place) => Ok(Some(Buffers::open(self.message(), place)?)),
            None => Ok(None),
        }
    }

    /// Returns how the buffers are compressed, or `None` if they aren't.
    pub fn compression(&self) -> Result<Option<BodyCompressionRef<'a>>, TableFault>
        ensures { result ≡ record_batch_compression self.now }
    {
        self.table(3)
    }
}

impl<'a> TableRef<'a, DictionaryBatchTable> {
    /// Returns the id of the dictionary, or 0 if absent.
    pub fn id(&self) -> Result<i64, TableFault>
        ensures { result ≡ dictionary_batch_id self.now }
    {
        self.i64(0)
    }

    /// Returns the values of the dictionary, as a record batch of one column.
    pub fn data(&self) -> Result<Option<RecordBatchRef<'a>>, TableFault>
        ensures { result ≡ dictionary_batch_data self.now }
    {
        self.table(1)
    }

    /// Returns whether the values are appended to the dictionary's, or `false` if absent.
    pub fn is_delta(&self) -> Result<bool, TableFault>
        ensures { result ≡ dictionary_batch_is_delta self.now }
    {
        self.bool(2)
    }
}

/// The lengths of one level of a column: the struct `FieldNode` (`Message.fbs`).
#[derive(Clone, Copy, Debug, PartialEq, Eq)]
pub struct FieldNode {
    /// The number of slots.
    pub length: i64,
    /// The number of null slots.
    pub null_count: i64,
}

// The node at an offset: two numbers of 8 bytes.
fn node_at(message: &[u8], place: usize) -> FieldNode
    requires { place + 16 ≤ length message.now }
    ensures { result ≡ node_of message.now place }
{
    FieldNode {
        length: signed64(message, place),
        null_count: signed64(message, place + 8),
    }
}

/// The field nodes of a record batch.
#[derive(Drop)]
pub struct Nodes<'a> {
    message: &'a [u8],
    place: usize,
    count: usize,
}

impl<'a> Model for Nodes<'a> {
    ghost use Rattle.std.specs.Prelude.{◌+◌, ◌*◌, ◌≤◌, List, length};
    ghost use Rattle.ipc_table_views.specs.declared.message.FieldNode.{FieldNode};
    ghost use Rattle.ipc_table_views.specs.Structs.{structs_from, node_of};

    ghost Value = { List FieldNode };

    ghost view = { λ v. structs_from (node_of v.message.now) 16 v.count v.place };

    ghost invariant = { λ v. v.place + 16 * v.count ≤ length v.message.now };
}

#[tactic(auto, using(crate::proofs::StructsOf::structs))]
impl<'a> Nodes<'a> {
    #[tactic(auto, unfolding(crate::specs::Structs::structs_at, crate::specs::Tables::vector_at))]
    pub(crate) fn open(message: &'a [u8], place: usize) -> Result<Nodes<'a>, TableFault>
        ensures { result ≡ structs_at node_of 16 message.now place }
    {
        let count = u32_at(message, place)? as usize;
        bytes_at(message, place + 4, 16 * count)?;
        Ok(Nodes {
            message,
            place: place + 4,
            count,
        })
    }

    /// Returns the number of nodes.
    pub fn len(&self) -> usize
        ensures { result ≡ length self.now }
    {
        self.count
    }

    /// Returns whether there is no node.
    pub fn is_empty(&self) -> bool
        ensures { IsTrue result ↔ (length self.now ≡ 0) }
    {
        self.count == 0
    }

    /// Returns the node at `index`.
    pub fn get(&self, index: usize) -> FieldNode
        requires { index < length self.now }
        ensures { slice_get self.now index ≡ Some result }
    {
        node_at(self.message, self.place + 16 * index)
    }
}
