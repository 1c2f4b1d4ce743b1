//! What is passed to a writer, and what it encodes.
ghost use Rattle.std.specs.Prelude.{◌≡◌, [], map, option_map, IfOk, None};
ghost use Rattle.std.specs.Cow.{cow_slice_items, cow_value, IsBorrowed};
ghost use Rattle.lower_arrays.specs.AnyLayouts.{layout_of};
ghost use Rattle.ipc_base.specs.IdTrees.{all_ids_view};
ghost use Rattle.ipc_encode.specs.Records.{columns_of, fields_of, AreLent, LendsAgain};

use ipc_base::chunk::Chunk;
use ipc_base::ipc::{IpcField, clone_ipc_fields};
use lower_arrays::array::AnyArray;
use std::alloc::{AllocError, Global};
use std::borrow::{Cow, CowSlice};

/// Options of a writer.
#[derive(Clone, Copy, Debug, Default, PartialEq, Eq, Hash)]
pub struct WriteOptions {
    /// Whether the numbers in bodies are big-endian. By default they are little-endian.
    pub big_endian: bool,
}

/// An encoded message and its body.
#[derive(Debug, Drop)]
pub struct EncodedData {
    /// The metadata: a table `Message` of `Message.fbs`.
    pub ipc_message: Vec<u8>,
    /// The body: the buffers of a batch, or nothing for a schema.
    pub arrow_data: Vec<u8>,
}

impl EncodedData {
    /// Returns a value with neither metadata nor body. It allocates nothing.
    pub fn empty(alloc: Global) -> EncodedData
        ensures ipc_message { result.ipc_message.items ≡ [] }
        ensures arrow_data { result.arrow_data.items ≡ [] }
    {
        EncodedData {
            ipc_message: Vec::new(alloc),
            arrow_data: Vec::new(alloc),
        }
    }
}

/// A chunk, with or without ids for the dictionaries of its columns.
///
/// Each of the two is owned or borrowed.
#[derive(Debug, Drop, PartialEq)]
pub struct Record<'a> {
    columns: Cow<'a, Chunk<AnyArray>>,
    fields: Option<CowSlice<'a, IpcField>>,
}

impl<'a> Record<'a> {
    /// Returns a record that owns the chunk. The ids may be borrowed.
    pub fn owned(columns: Chunk<AnyArray>, fields: Option<CowSlice<'a, IpcField>>) -> Self
        ensures columns { columns_of result ≡ columns }
        ensures fields { fields_of result ≡ option_map cow_slice_items fields.entry }
    {
        let columns = Cow::Owned(columns);
        Record { columns, fields }
    }

    /// Returns a record that borrows the chunk. The ids may be borrowed too.
    pub fn borrowed(columns: &'a Chunk<AnyArray>, fields: Option<CowSlice<'a, IpcField>>) -> Self
        ensures columns { columns_of result ≡ columns.now }
        ensures fields { fields_of result ≡ option_map cow_slice_items fields.entry }
    {
        let columns = Cow::Borrowed(columns);
        Record { columns, fields }
    }

    /// Returns the ids of the columns, if there are any.
    pub fn fields(&self) -> Option<&[IpcField]>
        ensures { option_map (λ fields. fields.now) result ≡ fields_of self.now }
    {
        match &self.fields {
            Some(fields) => Some(fields.as_slice()),
            None => None,
        }
    }

    /// Returns the chunk.
    pub fn columns(&self) -> &Chunk<AnyArray>
        ensures { result.now ≡ columns_of self.now }
    {
        self.columns.as_ref()
    }

    /// Returns a copy of the record, with columns in the same memory.
    ///
    /// What is borrowed stays borrowed, and what is owned is cloned. It fails if an allocation
    /// fails or the count of owners can't grow.
    pub fn clone(&self) -> Result<Record<'a>, AllocError>
        ensures columns { IfOk result (λ copy.
            map layout_of (columns_of copy) ≡ map layout_of (columns_of self.now)) }
        ensures fields { IfOk result (λ copy.
            option_map all_ids_view (fields_of copy)
            ≡ option_map all_ids_view (fields_of self.now)) }
        ensures lent { IfOk result (λ copy. LendsAgain self.now copy) }
    {
        Ok(Record {
            columns: clone_columns(&self.columns)?,
            fields: clone_fields(&self.fields)?,
        })
    }
}

// A chunk that is borrowed again, or cloned.
fn clone_columns<'a>(
    columns: &Cow<'a, Chunk<AnyArray>>,
) -> Result<Cow<'a, Chunk<AnyArray>>, AllocError>
    ensures same { IfOk result (λ copy. map layout_of (cow_value copy) ≡ map layout_of (cow_value columns.now)) }
    ensures lent { IfOk result (λ copy. IsBorrowed columns.now → IsBorrowed copy) }
{
    match columns {
        Cow::Borrowed(columns) => Ok(Cow::Borrowed(*columns)),
        Cow::Owned(columns) => Ok(Cow::Owned(columns.clone()?)),
    }
}

// Ids that are borrowed again, or cloned.
fn clone_fields<'a>(
    fields: &Option<CowSlice<'a, IpcField>>,
) -> Result<Option<CowSlice<'a, IpcField>>, AllocError>
    ensures same { IfOk result (λ copy. option_map (λ ids. all_ids_view (cow_slice_items ids)) copy ≡ option_map (λ ids. all_ids_view (cow_slice_items ids)) fields.now) }
    ensures lent { IfOk result (λ copy. AreLent fields.now → AreLent copy) }
{
    match fields {
        None => Ok(None),
        Some(CowSlice::Borrowed(fields)) => Ok(Some(CowSlice::Borrowed(*fields))),
        Some(CowSlice::Owned(fields)) => Ok(Some(CowSlice::Owned(clone_ipc_fields(fields)?))),
    }
}

impl<'a> From<Chunk<AnyArray>> for Record<'a> {
    ghost from_gives = { λ chunk made. (columns_of made ≡ chunk) × (fields_of made ≡ None) };

    fn from(columns: Chunk<AnyArray>) -> Record<'a> {
        Record::owned(columns, None)
    }
}
