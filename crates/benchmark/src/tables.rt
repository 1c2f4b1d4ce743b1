//! Tables that are written.

use crate::asked::Size;
use crate::columns::{Kind, column, kind_at};
use ipc_base::chunk::Chunk;
use ipc_devices::Fault;
use ipc_write::common::WriteOptions;
use lower::datatypes::{Field, Metadata, Schema};
use lower_arrays::array::AnyArray;
use std::alloc::{AllocError, Global};

/// A table: a chunk, and how often it is written.
#[derive(Drop)]
pub struct Table {
    /// The names and the types of its columns.
    pub schema: Schema,
    /// The columns.
    pub chunk: Chunk<AnyArray>,
    /// How often the chunk is written.
    pub chunks: u32,
    /// The byte order.
    pub options: WriteOptions,
}

// The field of the column with this index.
fn field_of(alloc: Global, number: u32, array: &AnyArray) -> Result<Field, AllocError> {
    let data_type = array.data_type().clone()?;
    Ok(Field::new(format!(in alloc; "{number}")?, data_type, true))
}

/// A table of columns of a kind.
pub fn make_table(
    alloc: Global,
    kind: Kind,
    size: Size,
    options: WriteOptions,
) -> Result<Table, Fault> {
    let mut fields = Vec::new(alloc);
    let mut arrays = Vec::new(alloc);
    for number in 0..size.columns {
        let array = column(alloc, kind_at(kind, number), size.rows, number)?;
        fields.push(field_of(alloc, number, &array)?)?;
        arrays.push(array)?;
    }
    let metadata = Metadata::new(alloc);
    Ok(Table {
        schema: Schema { fields, metadata },
        chunk: Chunk::try_new(arrays)?,
        chunks: size.chunks,
        options,
    })
}
