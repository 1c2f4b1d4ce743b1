//! The calls that bound what a schema costs.
//!
//! - `"cost_of": {"message": BYTES, "limit": 4}` gives what reading the schema of a message costs,
//!   or null above the limit.
//! - `"footer_cost_of": {"footer": BYTES, "limit": 4}` gives the same of the footer of a file.
//! - `"head_within": {"stream": STREAM, "limit": 4}` decodes the schema message in front of a
//!   stream, unless it costs more, and gives the schema and the version.

use crate::written::stream;
use cases_arrays::schemas::put_schema;
use cases_notation::bytes::bytes;
use cases_notation::decoder::Decoder;
use cases_notation::text::Text;
use ipc_costs::cost::{footer_cost, schema_cost};
use ipc_devices::MemFile;
use ipc_limits::stream::read_stream_metadata_within;
use serde_json::Value;

/// Appends what the schema of a message costs.
pub fn cost_of(d: &mut Decoder, out: &mut Text, value: &Value) {
    let part = d.member(value, "message");
    let message = bytes(d, part);
    let limit = d.count(value.get("limit"), "limit");
    put_cost(out, schema_cost(&message, limit as u64));
}

/// Appends what the schema and the pairs of a footer cost.
pub fn footer_cost_of(d: &mut Decoder, out: &mut Text, value: &Value) {
    let part = d.member(value, "footer");
    let footer = bytes(d, part);
    let limit = d.count(value.get("limit"), "limit");
    put_cost(out, footer_cost(&footer, limit as u64));
}

fn put_cost(out: &mut Text, cost: Option<u64>) {
    match cost {
        Some(cost) => out.show(&cost),
        None => out.put("null"),
    }
}

/// Appends the schema of a stream, and its version.
pub fn head_within(d: &mut Decoder, out: &mut Text, value: &Value) {
    let part = d.member(value, "stream");
    let stream = stream(d, part);
    let limit = d.count(value.get("limit"), "limit");
    let mut input = MemFile::new(stream.as_slice());
    let head = read_stream_metadata_within(d.alloc(), &mut input, limit as u64);
    if let Some(head) = d.take(head) {
        put_schema(out, &head.schema, &head.ipc_schema);
        out.put(" ");
        out.debug(&head.version);
    }
}
