//! Chunks that are encoded as messages, and the dictionaries that a tracker has recorded.
//!
//! `"encoded_by": {"ids": [ID, ..], "chunks": [[ARRAY, ..], ..]}` encodes chunks in order, with one
//! tracker. It gives `{"dictionaries": [PART, ..], "record": PART}` for each of them, or its error.
//! A PART is `{"body": BYTES, "message": MESSAGE}`, as in `views.rt` of `cases_notation`. With
//! `"amortized": true` the call is the one that fills an existing message, with
//! `"big_endian": true` numbers have their highest byte first, and with `"cannot_replace": true` an
//! id keeps the values that were recorded first.
//!
//! `"tracked_by": {"inserts": [[ID, ARRAY], ..]}`, which may have `"cannot_replace": true` too,
//! inserts the values of dictionary arrays. It gives the result of each insertion and the values
//! that are then recorded under its id: `[[true, ["a"]], [false, ["a"]]]`.

use crate::calls::options;
use cases_arrays::arrays::array;
use cases_arrays::chunks::chunk;
use cases_arrays::schemas::ids_of;
use cases_arrays::slots::put_slots;
use cases_notation::calls::views;
use cases_notation::decoder::{Decoder, is_set};
use cases_notation::text::Text;
use cases_notation::types::LEVELS;
use ipc_base::chunk::Chunk;
use ipc_base::ipc::IpcField;
use ipc_chunks::common::{encode_chunk, encode_chunk_amortized};
use ipc_devices::fault::Fault;
use ipc_encode::common::{EncodedData, WriteOptions};
use ipc_table_views::MessageRef;
use ipc_tracker::tracker::DictionaryTracker;
use lower_arrays::array::{AnyArray, is_dictionary};
use serde_json::Value;
use std::alloc::Global;

/// The messages of chunks.
pub fn encoded_by(d: &mut Decoder, out: &mut Text, value: &Value) {
    let ids = ids_of(d, value, &[]);
    let mut tracker = tracker_of(d.alloc(), value);
    out.put("[");
    for columns in d.items(value.get("chunks"), "chunks") {
        out.comma();
        if let Some(chunk) = chunk(d, columns) {
            let encoded = encode(d.alloc(), &chunk, &ids, &mut tracker, value);
            put_encoded(d, out, &encoded);
        }
    }
    out.put("]");
}

fn tracker_of(alloc: Global, value: &Value) -> DictionaryTracker {
    DictionaryTracker::new(alloc, is_set(value, "cannot_replace"))
}

// The messages of the dictionaries, and that of the columns.
type Encoded = Result<(Vec<EncodedData>, EncodedData), Fault>;

// The messages of a chunk, by either call.
fn encode(
    alloc: Global,
    chunk: &Chunk<AnyArray>,
    ids: &[IpcField],
    tracker: &mut DictionaryTracker,
    value: &Value,
) -> Encoded {
    let options = options(value);
    if is_set(value, "amortized") {
        encode_amortized(alloc, chunk, ids, tracker, &options)
    } else {
        encode_chunk(alloc, chunk, ids, tracker, &options)
    }
}

// By the call that fills an existing message, which isn't empty.
fn encode_amortized(
    alloc: Global,
    chunk: &Chunk<AnyArray>,
    ids: &[IpcField],
    tracker: &mut DictionaryTracker,
    options: &WriteOptions,
) -> Encoded {
    let mut record = EncodedData {
        ipc_message: Vec::from_slice(alloc, b"an old message")?,
        arrow_data: Vec::from_slice(alloc, b"and its body")?,
    };
    let dictionaries = encode_chunk_amortized(alloc, chunk, ids, tracker, options, &mut record)?;
    Ok((dictionaries, record))
}

fn put_encoded(d: &mut Decoder, out: &mut Text, encoded: &Encoded) {
    match encoded {
        Ok((dictionaries, record)) => {
            out.put("{\"dictionaries\":[");
            put_dictionaries(d, out, dictionaries);
            out.put("],\"record\":");
            put_part(d, out, record);
            out.put("}");
        }
        Err(fault) => out.shown(fault),
    }
}

fn put_dictionaries(d: &mut Decoder, out: &mut Text, dictionaries: &[EncodedData]) {
    for dictionary in dictionaries {
        out.comma();
        put_part(d, out, dictionary);
    }
}

fn put_part(d: &mut Decoder, out: &mut Text, encoded: &EncodedData) {
    match MessageRef::read_as_root(&encoded.ipc_message) {
        Ok(message) => views::put_encoded(out, &encoded.arrow_data, &message),
        Err(_) => d.miss("a message"),
    }
}

/// The results of insertions, and the values that are recorded after each.
pub fn tracked_by(d: &mut Decoder, out: &mut Text, value: &Value) {
    let mut tracker = tracker_of(d.alloc(), value);
    out.put("[");
    for insertion in d.items(value.get("inserts"), "inserts") {
        out.comma();
        put_insertion(d, out, &mut tracker, insertion);
    }
    out.put("]");
}

fn put_insertion(
    d: &mut Decoder,
    out: &mut Text,
    tracker: &mut DictionaryTracker,
    insertion: &Value,
) {
    let (id, values) = d.both(insertion, "inserts");
    let id = d.number(Some(id), "inserts");
    if let Some(values) = array(d, values, LEVELS) {
        out.put("[");
        insert(d, out, tracker, id, &values);
        out.put(",");
        put_recorded(out, tracker, id);
        out.put("]");
    }
}

fn insert(
    d: &mut Decoder,
    out: &mut Text,
    tracker: &mut DictionaryTracker,
    id: i64,
    values: &AnyArray,
) {
    if !is_dictionary(values) {
        return d.miss("inserts");
    }
    match tracker.insert(id, values) {
        Ok(is_new) => out.show(&is_new),
        Err(fault) => out.shown(&fault),
    }
}

// The values under an id, or null.
fn put_recorded(out: &mut Text, tracker: &DictionaryTracker, id: i64) {
    match tracker.dictionaries.get(&id) {
        Some(values) => put_slots(out, values, LEVELS),
        None => out.put("null"),
    }
}
