//! The calls of schemas.
//!
//! - `"schema_of": BYTES` decodes a schema message, and gives the schema.
//! - `"visits_of": BYTES` does so too, and gives the schema with `"visits": 3`, how many tables of
//!   fields were opened. If decoding fails it gives `{"fault": FAULT, "visits": 3}`.
//! - `"schema_bytes_of": SCHEMA` encodes a schema message, and gives its bytes.
//! - `"schema_back_of": SCHEMA` decodes these bytes, and gives the schema.
//! - `"weight_of": SCHEMA` gives the weight of a schema's tables. With `"pairs": {"k": "v"}` it is
//!   the weight of a file's schema and of these pairs in its footer. It is null if it has more than
//!   64 bits.
//! - `"normal_of": SCHEMA` gives the normal form, with the default ids.
//! - `"is_normal": SCHEMA` gives whether a schema is its own normal form.
//! - `"are_same_schemas": [SCHEMA, SCHEMA]` gives whether a clone of the first and the second are
//!   the same.

use crate::schemas::{ids_of, put_schema, put_schema_of_case, schema};
use cases_notation::bytes::bytes;
use cases_notation::decoder::Decoder;
use cases_notation::text::Text;
use cases_notation::types::{is_little_endian, texts};
use ipc_base::ipc::IpcField;
use ipc_devices::fault::Fault;
use ipc_footer_write::weights::weigh_file;
use ipc_schema::read::schema::{deserialize_schema, deserialize_schema_counted};
use ipc_schema_write::schema::{schema_to_bytes, schema_to_bytes_as, serialize_schema};
use ipc_schema_write::weights::weigh_schema;
use lower::datatypes::{Schema, is_same_schema};
use serde_json::Value;

/// Appends the schema of a message.
pub fn schema_of(d: &mut Decoder, out: &mut Text, value: &Value) {
    let message = bytes(d, value);
    put_message(d, out, &message);
}

fn put_message(d: &mut Decoder, out: &mut Text, message: &[u8]) {
    let read = deserialize_schema(d.alloc(), message);
    if let Some((schema, ids)) = d.take(read) {
        put_schema(out, &schema, &ids);
    }
}

/// Appends the schema of a message, or why decoding fails, and how many tables of fields were
/// opened.
pub fn visits_of(d: &mut Decoder, out: &mut Text, value: &Value) {
    let message = bytes(d, value);
    let mut visits = 0;
    match deserialize_schema_counted(d.alloc(), &message, &mut visits) {
        Ok((schema, ids)) => {
            put_schema(out, &schema, &ids);
            out.put(" ");
            out.show(&visits);
        }
        Err(fault) => put_fault(out, &fault, visits),
    }
}

fn put_fault(out: &mut Text, fault: &Fault, visits: u64) {
    out.put("{\"fault\":");
    out.shown(fault);
    out.put(",\"visits\":");
    out.show(&visits);
    out.put("}");
}

// The message of a schema.
fn message_of(d: &mut Decoder, value: &Value) -> Option<Vec<u8>> {
    let schema = schema(d, value);
    let ids = ids_of(d, value, &schema.fields);
    let message = encoded(d, value, &schema, &ids);
    d.take(message)
}

fn encoded(
    d: &mut Decoder,
    value: &Value,
    schema: &Schema,
    ids: &[IpcField],
) -> Result<Vec<u8>, Fault> {
    if value.get("order").is_none() {
        return schema_to_bytes(d.alloc(), schema, ids);
    }
    let is_little_endian = is_little_endian(d, value);
    schema_to_bytes_as(d.alloc(), schema, ids, is_little_endian)
}

/// Appends the bytes of a schema's message.
pub fn schema_bytes_of(d: &mut Decoder, out: &mut Text, value: &Value) {
    if let Some(message) = message_of(d, value) {
        out.hex(&message);
    }
}

/// Appends the schema that such bytes are decoded to.
pub fn schema_back_of(d: &mut Decoder, out: &mut Text, value: &Value) {
    if let Some(message) = message_of(d, value) {
        put_message(d, out, &message);
    }
}

/// Appends the normal form of a schema, with the default ids.
pub fn normal_of(d: &mut Decoder, out: &mut Text, value: &Value) {
    let normal = schema(d, value).normal();
    if let Some(normal) = d.take(normal) {
        put_schema_of_case(d, out, value, &normal);
    }
}

/// Appends whether a schema is its own normal form.
pub fn is_normal(d: &mut Decoder, out: &mut Text, value: &Value) {
    let schema = schema(d, value);
    let normal = schema.normal();
    if let Some(normal) = d.take(normal) {
        out.show(&is_same_schema(&normal, &schema));
    }
}

/// Appends whether a clone of a schema and another schema are the same.
pub fn are_same_schemas(d: &mut Decoder, out: &mut Text, value: &Value) {
    let (first, second) = d.both(value, "schemas");
    let first = schema(d, first).clone();
    let second = schema(d, second);
    if let Some(first) = d.take(first) {
        out.show(&is_same_schema(&first, &second));
    }
}

/// Appends the weight of a schema's tables, or of a file's schema and pairs.
///
/// It is null if it has more than 64 bits.
pub fn weight_of(d: &mut Decoder, out: &mut Text, value: &Value) {
    match weighed(d, value) {
        None => out.put("null"),
        Some(weight) => out.show(&weight),
    }
}

fn weighed(d: &mut Decoder, value: &Value) -> Option<u64> {
    let schema = schema(d, value);
    if value.get("pairs").is_some() {
        let pairs = texts(d, value, "pairs");
        return weigh_file(&schema, &pairs);
    }
    weighed_tables(d, value, &schema)
}

fn weighed_tables(d: &mut Decoder, value: &Value, schema: &Schema) -> Option<u64> {
    let ids = ids_of(d, value, &schema.fields);
    let table = serialize_schema(d.alloc(), schema, &ids, true);
    weigh_schema(&d.take(table)?)
}
