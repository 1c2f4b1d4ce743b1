//! Chunks, as text: `{"columns": [[..], ..], "rows": 2}`.
//!
//! A column whose type isn't that of its field is `{"slots": [..], "type": ".."}`, with the `Debug`
//! text of the type.

use crate::arrays::arrays;
use crate::slots::put_slots;
use cases_notation::decoder::Decoder;
use cases_notation::text::Text;
use cases_notation::types::LEVELS;
use ipc_base::chunk::Chunk;
use lower::datatypes::Field;
use lower_arrays::array::AnyArray;
use serde_json::Value;

/// The chunk of these columns, where they have the same number of rows.
pub fn chunk(d: &mut Decoder, value: &Value) -> Option<Chunk<AnyArray>> {
    let columns = arrays(d, value, LEVELS);
    let chunk = Chunk::try_new(columns);
    d.take(chunk)
}

/// Appends the columns of a chunk that has these fields, and how many rows it has.
pub fn put_chunk(out: &mut Text, chunk: &Chunk<AnyArray>, fields: &[Field]) {
    out.put("{\"columns\":[");
    for (number, column) in chunk.arrays().iter().enumerate() {
        out.comma();
        put_column(out, column, fields.get(number));
    }
    out.put("],\"rows\":");
    out.show(&chunk.len());
    out.put("}");
}

fn put_column(out: &mut Text, column: &AnyArray, field: Option<&Field>) {
    if let Some(field) = field {
        if field.data_type == *column.data_type() {
            return put_slots(out, column, LEVELS);
        }
    }
    out.put("{\"slots\":");
    put_slots(out, column, LEVELS);
    out.put(",\"type\":");
    out.shown(column.data_type());
    out.put("}");
}

/// Appends the slots of columns.
pub fn put_columns(out: &mut Text, columns: &[AnyArray]) {
    out.put("[");
    for column in columns {
        out.comma();
        put_slots(out, column, LEVELS);
    }
    out.put("]");
}
