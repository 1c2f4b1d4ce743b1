//! A view of the table of Arrow's `File.fbs`: the footer of a file.
ghost use Rattle.std.specs.Prelude.{◌≡◌, ◌<◌, ◌≤◌, ◌+◌, ◌↔◌, IsTrue, Some, length, slice_get};
ghost use Rattle.ipc_table_views.specs.FileSlots.{footer_custom_metadata, footer_dictionaries, footer_record_batches, footer_schema, footer_version};
ghost use Rattle.ipc_table_views.specs.Structs.{block_of, structs_at};
ghost use Rattle.ipc_table_views.specs.Tables.{root_at};

use crate::number::{bytes_at, u32_at};
use crate::schema::{KeyValueTable, MetadataVersion, SchemaRef, version_of};
use crate::structs::{signed32, signed64};
use crate::view::{TableRef, Tables};
use ipc_devices::fault::TableFault;
use std::marker::Model;

/// The kind of a table `Footer`.
pub enum FooterTable {}

/// A view of the footer of a file (Arrow columnar format, "IPC File Format").
pub type FooterRef<'a> = TableRef<'a, FooterTable>;

impl<'a> TableRef<'a, FooterTable> {
    /// Returns the footer whose offset is in the first four bytes.
    ///
    /// Errors:
    ///
    /// - `TableFault::Outside`: the offset, the table or its vtable leads outside `footer`.
    /// - `TableFault::Vtable`: the vtable is shorter than 4 bytes.
    pub fn read_as_root(footer: &'a [u8]) -> Result<FooterRef<'a>, TableFault>
        ensures { result ≡ root_at footer.now }
    {
        TableRef::open(footer, u32_at(footer, 0)? as usize)
    }

    /// Returns the version of the metadata, or `V1` if absent.
    pub fn version(&self) -> Result<MetadataVersion, TableFault>
        ensures { result ≡ footer_version self.now }
    {
        version_of(self.u16(0, 0)?)
    }

    /// Returns the schema of the file.
    pub fn schema(&self) -> Result<Option<SchemaRef<'a>>, TableFault>
        ensures { result ≡ footer_schema self.now }
    {
        self.table(1)
    }

    /// Returns where the dictionary batches are in the file.
    pub fn dictionaries(&self) -> Result<Option<Blocks<'a>>, TableFault>
        ensures { result ≡ footer_dictionaries self.now }
    {
        match self.target(2)? {
            Some(place) => Ok(Some(Blocks::open(self.message(), place)?)),
            None => Ok(None),
        }
    }

    /// Returns where the record batches are in the file.
    pub fn record_batches(&self) -> Result<Option<Blocks<'a>>, TableFault>
        ensures { result ≡ footer_record_batches self.now }
    {
        match self.target(3)? {
            Some(place) => Ok(Some(Blocks::open(self.message(), place)?)),
            None => Ok(None),
        }
    }

    /// Returns the key-value metadata of the file.
    pub fn custom_metadata(&self) -> Result<Option<Tables<'a, KeyValueTable>>, TableFault>
        ensures { result ≡ footer_custom_metadata self.now }
    {
        self.tables(4)
    }
}

/// The position of a message in a file: the struct `Block` (`File.fbs`).
#[derive(Clone, Copy, Debug, PartialEq, Eq)]
pub struct Block {
    /// The offset of its first byte in the file, in bytes.
    pub offset: i64,
    /// The length of its prefix, its metadata and their padding, in bytes.
    pub meta_data_length: i32,
    /// The length of its body, in bytes.
    pub body_length: i64,
}

// The block at an offset: 24 bytes, of which four are unused.
fn block_at(message: &[u8], place: usize) -> Block
    requires { place + 24 ≤ length message.now }
    ensures { result ≡ block_of message.now place }
{
    Block {
        offset: signed64(message, place),
        meta_data_length: signed32(message, place + 8),
        body_length: signed64(message, place + 16),
    }
}

/// The blocks of a file.
#[derive(Drop)]
pub struct Blocks<'a> {
    message: &'a [u8],
    place: usize,
    count: usize,
}

impl<'a> Model for Blocks<'a> {
    ghost use Rattle.std.specs.Prelude.{◌+◌, ◌*◌, ◌≤◌, List, length};
    ghost use Rattle.ipc_table_views.specs.declared.file.Block.{Block};
    ghost use Rattle.ipc_table_views.specs.Structs.{structs_from, block_of};

    ghost Value = { List Block };

    ghost view = { λ v. structs_from (block_of v.message.now) 24 v.count v.place };

    ghost invariant = { λ v. v.place + 24 * v.count ≤ length v.message.now };
}

#[tactic(auto, using(crate::proofs::StructsOf::structs))]
impl<'a> Blocks<'a> {
    #[tactic(auto, unfolding(crate::specs::Structs::structs_at, crate::specs::Tables::vector_at))]
    pub(crate) fn open(message: &'a [u8], place: usize) -> Result<Blocks<'a>, TableFault>
        ensures { result ≡ structs_at block_of 24 message.now place }
    {
        let count = u32_at(message, place)? as usize;
        bytes_at(message, place + 4, 24 * count)?;
        Ok(Blocks {
            message,
            place: place + 4,
            count,
        })
    }

    /// Returns the number of blocks.
    pub fn len(&self) -> usize
        ensures { result ≡ length self.now }
    {
        self.count
    }

    /// Returns whether there is no block.
    pub fn is_empty(&self) -> bool
        ensures { IsTrue result ↔ (length self.now ≡ 0) }
    {
        self.count == 0
    }

    /// Returns the block at `index`.
    pub fn get(&self, index: usize) -> Block
        requires { index < length self.now }
        ensures { slice_get self.now index ≡ Some result }
    {
        block_at(self.message, self.place + 24 * index)
    }
}
