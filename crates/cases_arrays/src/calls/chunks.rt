//! The calls of chunks and ids.
//!
//! `"chunk_of": [ARRAY, ..]` makes a chunk of these columns and a clone of it. It gives `{"arrays":
//! [SLOTS, ..], "columns": [SLOTS, ..], "is_clone_same": true, "is_empty": false, "moved": [2, 2],
//! "rows": 2}`: the columns of the chunk and of its clone, and how many columns are moved out of
//! each. `"are_equal_rows": [ARRAY, ..]` gives whether the arrays have the same number of rows.
//!
//! `"fits": {"fields": [FIELD, ..], "ids": [ID, ..]}` gives whether the ids belong to the fields.
//! `"cloned_ids_of": SCHEMA` gives the schema with clones of its ids.

use crate::arrays::arrays;
use crate::chunks::{chunk, put_columns};
use crate::schemas::{ids_of, ipc_schema, put_schema, schema};
use cases_notation::decoder::Decoder;
use cases_notation::text::Text;
use cases_notation::types::LEVELS;
use ipc_base::chunk::{Chunk, equal_rows};
use ipc_base::ipc::{IpcSchema, clone_ipc_fields, fits};
use lower_arrays::array::AnyArray;
use serde_json::Value;

/// Appends what a chunk and its clone return.
pub fn chunk_of(d: &mut Decoder, out: &mut Text, value: &Value) {
    let Some(chunk) = chunk(d, value) else {
        return;
    };
    let copy = chunk.clone();
    if let Some(copy) = d.take(copy) {
        put_both(out, &chunk, &copy);
        put_moved(out, chunk, copy);
    }
}

fn put_both(out: &mut Text, chunk: &Chunk<AnyArray>, copy: &Chunk<AnyArray>) {
    out.put("{\"arrays\":");
    put_columns(out, chunk.arrays());
    out.put(",\"columns\":");
    put_columns(out, copy.columns());
    out.put(",\"is_clone_same\":");
    out.show(&(*chunk == *copy));
    out.put(",\"is_empty\":");
    out.show(&chunk.is_empty());
}

fn put_moved(out: &mut Text, chunk: Chunk<AnyArray>, copy: Chunk<AnyArray>) {
    let rows = chunk.len();
    let first = Chunk::new(chunk.into_arrays()).into_arrays();
    let second: Vec<AnyArray> = copy.into();
    out.put(",\"moved\":");
    out.pair(&first.len(), &second.len());
    out.put(",\"rows\":");
    out.show(&rows);
    out.put("}");
}

/// Appends whether columns have the same number of rows.
pub fn are_equal_rows(d: &mut Decoder, out: &mut Text, value: &Value) {
    let columns = arrays(d, value, LEVELS);
    out.show(&equal_rows(&columns));
}

/// Appends whether ids belong to fields.
pub fn fits_of(d: &mut Decoder, out: &mut Text, value: &Value) {
    let schema = schema(d, value);
    let ids = ids_of(d, value, &schema.fields);
    out.show(&fits(&schema.fields, &ids));
}

/// Appends a schema with clones of its ids.
pub fn cloned_ids_of(d: &mut Decoder, out: &mut Text, value: &Value) {
    let schema = schema(d, value);
    let ids = ipc_schema(d, value, &schema.fields);
    if let Some(copy) = cloned(d, &ids) {
        put_schema(out, &schema, &copy);
    }
}

// A clone of one that has clones of these ids.
fn cloned(d: &mut Decoder, ids: &IpcSchema) -> Option<IpcSchema> {
    let fields = clone_ipc_fields(&ids.fields);
    let copy = IpcSchema {
        fields: d.take(fields)?,
        is_little_endian: ids.is_little_endian,
    };
    let again = copy.clone();
    d.take(again)
}
