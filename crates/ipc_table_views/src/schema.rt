//! Views of the tables of Arrow's `Schema.fbs` for schemas and fields.
ghost use Rattle.std.specs.Prelude.{◌≡◌, ◌<◌, ◌≤◌, ◌+◌, ◌↔◌, IsTrue, Some, length, option_map, slice_get};
ghost use Rattle.ipc_table_views.specs.Enumerations.{endianness_of, version_of};
ghost use Rattle.ipc_table_views.specs.SchemaSlots.{dictionary_encoding_id, dictionary_encoding_index_type, dictionary_encoding_is_ordered, field_children, field_custom_metadata, field_dictionary, field_name, field_nullable, field_type, key_value_key, key_value_value, schema_custom_metadata, schema_endianness, schema_fields};
ghost use Rattle.ipc_table_views.specs.Structs.{buffer_of, structs_at};
ghost use Rattle.ipc_table_views.specs.Tables.{map_ok, texts};
ghost use Rattle.ipc_table_views.specs.Unions.{type_parts};

use crate::number::{bytes_at, u32_at};
use crate::structs::signed64;
use crate::types::{IntRef, TypeRef};
use crate::view::{TableRef, Tables};
use ipc_devices::fault::TableFault;
use std::marker::Model;

/// The kind of a table `Schema`.
pub enum SchemaTable {}

/// The kind of a table `Field`.
pub enum FieldTable {}

/// The kind of a table `KeyValue`.
pub enum KeyValueTable {}

/// The kind of a table `DictionaryEncoding`.
pub enum DictionaryEncodingTable {}

/// A view of a schema (Arrow columnar format, "Schema message").
pub type SchemaRef<'a> = TableRef<'a, SchemaTable>;

/// A view of a field of a schema, or of a nested type.
pub type FieldRef<'a> = TableRef<'a, FieldTable>;

/// A view of a key-value pair of a schema, a field, a message or a footer.
pub type KeyValueRef<'a> = TableRef<'a, KeyValueTable>;

/// A view of how a dictionary encodes the values of a field.
pub type DictionaryEncodingRef<'a> = TableRef<'a, DictionaryEncodingTable>;

/// The version of the metadata: the enumeration `MetadataVersion`.
#[derive(Clone, Copy, Debug, PartialEq, Eq)]
pub enum MetadataVersion {
    V1,
    V2,
    V3,
    V4,
    V5,
}

// Used for messages and for the footer of a file.
pub(crate) fn version_of(number: u16) -> Result<MetadataVersion, TableFault>
    ensures { result ≡ version_of number }
{
    match number {
        0 => Ok(MetadataVersion::V1),
        1 => Ok(MetadataVersion::V2),
        2 => Ok(MetadataVersion::V3),
        3 => Ok(MetadataVersion::V4),
        4 => Ok(MetadataVersion::V5),
        _ => Err(TableFault::UnknownTag),
    }
}

/// The byte order of the numbers in a body: the enumeration `Endianness`.
#[derive(Clone, Copy, Debug, PartialEq, Eq)]
pub enum Endianness {
    Little,
    Big,
}

fn endianness_of(number: u16) -> Result<Endianness, TableFault>
    ensures { result ≡ endianness_of number }
{
    match number {
        0 => Ok(Endianness::Little),
        1 => Ok(Endianness::Big),
        _ => Err(TableFault::UnknownTag),
    }
}

impl<'a> TableRef<'a, SchemaTable> {
    /// Returns the byte order, or little-endian if absent.
    pub fn endianness(&self) -> Result<Endianness, TableFault>
        ensures { result ≡ schema_endianness self.now }
    {
        endianness_of(self.u16(0, 0)?)
    }

    /// Returns the fields.
    pub fn fields(&self) -> Result<Option<Tables<'a, FieldTable>>, TableFault>
        ensures { result ≡ schema_fields self.now }
    {
        self.tables(1)
    }

    /// Returns the key-value metadata of the schema.
    pub fn custom_metadata(&self) -> Result<Option<Tables<'a, KeyValueTable>>, TableFault>
        ensures { result ≡ schema_custom_metadata self.now }
    {
        self.tables(2)
    }
}

impl<'a> TableRef<'a, FieldTable> {
    /// Returns the name.
    pub fn name(&self) -> Result<Option<&'a str>, TableFault>
        ensures { texts result ≡ field_name self.now }
    {
        self.text(0)
    }

    /// Returns whether slots may be null, or `false` if absent.
    pub fn nullable(&self) -> Result<bool, TableFault>
        ensures { result ≡ field_nullable self.now }
    {
        self.bool(1)
    }

    /// Returns the type, or `None` if its tag is 0 or absent.
    ///
    /// If the field has a dictionary, it is the type of the dictionary's values.
    pub fn type_(&self) -> Result<Option<TypeRef<'a>>, TableFault>
        ensures { map_ok (option_map type_parts) result ≡ field_type self.now }
    {
        Ok(Some(match self.u8(2, 0)? {
            0 => return Ok(None),
            1 => TypeRef::Null(self.present(3)?),
            2 => TypeRef::Int(self.present(3)?),
            3 => TypeRef::FloatingPoint(self.present(3)?),
            4 => TypeRef::Binary(self.present(3)?),
            5 => TypeRef::Utf8(self.present(3)?),
            6 => TypeRef::Bool(self.present(3)?),
            7 => TypeRef::Decimal(self.present(3)?),
            8 => TypeRef::Date(self.present(3)?),
            9 => TypeRef::Time(self.present(3)?),
            10 => TypeRef::Timestamp(self.present(3)?),
            11 => TypeRef::Interval(self.present(3)?),
            12 => TypeRef::List(self.present(3)?),
            13 => TypeRef::Struct(self.present(3)?),
            14 => TypeRef::Union(self.present(3)?),
            15 => TypeRef::FixedSizeBinary(self.present(3)?),
            16 => TypeRef::FixedSizeList(self.present(3)?),
            17 => TypeRef::Map(self.present(3)?),
            18 => TypeRef::Duration(self.present(3)?),
            19 => TypeRef::LargeBinary(self.present(3)?),
            20 => TypeRef::LargeUtf8(self.present(3)?),
            21 => TypeRef::LargeList(self.present(3)?),
            _ => return Err(TableFault::UnknownTag),
        }))
    }

    /// Returns how a dictionary encodes the values, or `None` if none does.
    pub fn dictionary(&self) -> Result<Option<DictionaryEncodingRef<'a>>, TableFault>
        ensures { result ≡ field_dictionary self.now }
    {
        self.table(4)
    }

    /// Returns the fields of a nested type.
    pub fn children(&self) -> Result<Option<Tables<'a, FieldTable>>, TableFault>
        ensures { result ≡ field_children self.now }
    {
        self.tables(5)
    }

    /// Returns the key-value metadata of the field.
    pub fn custom_metadata(&self) -> Result<Option<Tables<'a, KeyValueTable>>, TableFault>
        ensures { result ≡ field_custom_metadata self.now }
    {
        self.tables(6)
    }
}

impl<'a> TableRef<'a, KeyValueTable> {
    /// Returns the key.
    pub fn key(&self) -> Result<Option<&'a str>, TableFault>
        ensures { texts result ≡ key_value_key self.now }
    {
        self.text(0)
    }

    /// Returns the value.
    pub fn value(&self) -> Result<Option<&'a str>, TableFault>
        ensures { texts result ≡ key_value_value self.now }
    {
        self.text(1)
    }
}

impl<'a> TableRef<'a, DictionaryEncodingTable> {
    /// Returns the id of the dictionary, or 0 if absent.
    pub fn id(&self) -> Result<i64, TableFault>
        ensures { result ≡ dictionary_encoding_id self.now }
    {
        self.i64(0)
    }

    /// Returns the type of the keys.
    pub fn index_type(&self) -> Result<Option<IntRef<'a>>, TableFault>
        ensures { result ≡ dictionary_encoding_index_type self.now }
    {
        self.table(1)
    }

    /// Returns whether the order of the values has a meaning, or `false` if absent.
    pub fn is_ordered(&self) -> Result<bool, TableFault>
        ensures { result ≡ dictionary_encoding_is_ordered self.now }
    {
        self.bool(2)
    }
}

/// The position of a buffer in a body: the struct `Buffer` (`Schema.fbs`).
#[derive(Clone, Copy, Debug, PartialEq, Eq)]
pub struct Buffer {
    /// The offset of its first byte from the start of the body, in bytes.
    pub offset: i64,
    /// Its length in bytes.
    pub length: i64,
}

// The entry at an offset: two numbers of 8 bytes.
fn buffer_at(message: &[u8], place: usize) -> Buffer
    requires { place + 16 ≤ length message.now }
    ensures { result ≡ buffer_of message.now place }
{
    Buffer {
        offset: signed64(message, place),
        length: signed64(message, place + 8),
    }
}

/// The positions of the buffers of a record batch.
#[derive(Drop)]
pub struct Buffers<'a> {
    message: &'a [u8],
    place: usize,
    count: usize,
}

impl<'a> Model for Buffers<'a> {
    ghost use Rattle.std.specs.Prelude.{◌+◌, ◌*◌, ◌≤◌, List, length};
    ghost use Rattle.ipc_table_views.specs.declared.schema.Buffer.{Buffer};
    ghost use Rattle.ipc_table_views.specs.Structs.{structs_from, buffer_of};

    ghost Value = { List Buffer };

    ghost view = { λ v. structs_from (buffer_of v.message.now) 16 v.count v.place };

    ghost invariant = { λ v. v.place + 16 * v.count ≤ length v.message.now };
}

#[tactic(auto, using(crate::proofs::StructsOf::structs))]
impl<'a> Buffers<'a> {
    #[tactic(auto, unfolding(crate::specs::Structs::structs_at, crate::specs::Tables::vector_at))]
    pub(crate) fn open(message: &'a [u8], place: usize) -> Result<Buffers<'a>, TableFault>
        ensures { result ≡ structs_at buffer_of 16 message.now place }
    {
        let count = u32_at(message, place)? as usize;
        bytes_at(message, place + 4, 16 * count)?;
        Ok(Buffers {
            message,
            place: place + 4,
            count,
        })
    }

    /// Returns the number of entries.
    pub fn len(&self) -> usize
        ensures { result ≡ length self.now }
    {
        self.count
    }

    /// Returns whether there is no entry.
    pub fn is_empty(&self) -> bool
        ensures { IsTrue result ↔ (length self.now ≡ 0) }
    {
        self.count == 0
    }

    /// Returns the entry at `index`.
    pub fn get(&self, index: usize) -> Buffer
        requires { index < length self.now }
        ensures { slice_get self.now index ≡ Some result }
    {
        buffer_at(self.message, self.place + 16 * index)
    }
}
