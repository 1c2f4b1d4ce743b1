//! The calls of views.
//!
//! - `"views_of": BYTES` gives what the accessors of a message return.
//! - `"footer_views_of": BYTES` gives the same for a file's footer.
//!
//! The notation is that of `tables.rt`, with no part left out. An absent part is null. A malformed
//! one is `{"fault": "Outside"}`, and the other parts are still printed. A batch also has whether
//! it is compressed.

mod parts;
mod types;

use crate::bytes::bytes;
use crate::decoder::{Decoder, named};
use crate::text::Text;
use crate::types::LEVELS;
use ipc_table_views::{
    DictionaryBatchRef, DictionaryEncodingRef, FieldRef, FieldTable, FooterRef, MessageHeaderRef,
    MessageRef, RecordBatchRef, SchemaRef, TableFault, Tables,
};
use parts::{
    present, put_blocks, put_buffers, put_fault, put_name, put_nodes, put_optional_text, put_pairs,
    put_value,
};
use serde_json::Value;

#[derive(Clone, Copy)]
enum Call {
    ViewsOf,
    FooterViewsOf,
}

const CALLS: [(&str, Call); 2] = [
    ("views_of", Call::ViewsOf),
    ("footer_views_of", Call::FooterViewsOf),
];

/// Appends what the call of this name gives, and returns whether there is such a call here.
pub fn put_call(d: &mut Decoder, out: &mut Text, name: &str, parts: &Value) -> bool {
    let Some(call) = named(&CALLS, name) else {
        return false;
    };
    match call {
        Call::ViewsOf => views_of(d, out, parts),
        Call::FooterViewsOf => footer_views_of(d, out, parts),
    }
    true
}

fn views_of(d: &mut Decoder, out: &mut Text, value: &Value) {
    let message = bytes(d, value);
    match MessageRef::read_as_root(&message) {
        Ok(message) => put_message(out, &message),
        Err(fault) => put_fault(out, fault),
    }
}

fn footer_views_of(d: &mut Decoder, out: &mut Text, value: &Value) {
    let footer = bytes(d, value);
    match FooterRef::read_as_root(&footer) {
        Ok(footer) => put_footer(out, &footer),
        Err(fault) => put_fault(out, fault),
    }
}

/// Appends a body, and what the accessors of its message return.
pub fn put_encoded(out: &mut Text, body: &[u8], message: &MessageRef<'_>) {
    out.put("{\"body\":");
    out.words(body);
    out.put(",\"message\":");
    put_message(out, message);
    out.put("}");
}

/// Appends what the accessors of a message return.
pub fn put_message(out: &mut Text, message: &MessageRef<'_>) {
    out.put("{\"body_length\":");
    put_value(out, message.body_length());
    out.put(",\"header\":");
    put_header(out, message.header());
    out.put(",\"metadata\":");
    put_pairs(out, message.custom_metadata());
    out.put(",\"version\":");
    put_name(out, message.version());
    out.put("}");
}

fn put_header(out: &mut Text, header: Result<Option<MessageHeaderRef<'_>>, TableFault>) {
    let Some(header) = present(out, header) else {
        return;
    };
    match &header {
        MessageHeaderRef::Schema(schema) => {
            out.put("{\"schema\":");
            put_schema(out, schema);
        }
        MessageHeaderRef::DictionaryBatch(batch) => {
            out.put("{\"dictionary_batch\":");
            put_dictionary_batch(out, batch);
        }
        MessageHeaderRef::RecordBatch(batch) => {
            out.put("{\"record_batch\":");
            put_record_batch(out, batch);
        }
        MessageHeaderRef::Tensor(_) => out.put("{\"tensor\":null"),
        MessageHeaderRef::SparseTensor(_) => out.put("{\"sparse_tensor\":null"),
    }
    out.put("}");
}

fn put_footer(out: &mut Text, footer: &FooterRef<'_>) {
    out.put("{\"dictionaries\":");
    put_blocks(out, footer.dictionaries());
    out.put(",\"metadata\":");
    put_pairs(out, footer.custom_metadata());
    out.put(",\"record_batches\":");
    put_blocks(out, footer.record_batches());
    out.put(",\"schema\":");
    if let Some(schema) = present(out, footer.schema()) {
        put_schema(out, &schema);
    }
    out.put(",\"version\":");
    put_name(out, footer.version());
    out.put("}");
}

// ---- batches

fn put_dictionary_batch(out: &mut Text, batch: &DictionaryBatchRef<'_>) {
    out.put("{\"data\":");
    if let Some(data) = present(out, batch.data()) {
        put_record_batch(out, &data);
    }
    out.put(",\"id\":");
    put_value(out, batch.id());
    out.put(",\"is_delta\":");
    put_value(out, batch.is_delta());
    out.put("}");
}

fn put_record_batch(out: &mut Text, batch: &RecordBatchRef<'_>) {
    out.put("{\"buffers\":");
    put_buffers(out, batch.buffers());
    out.put(",\"compressed\":");
    match batch.compression() {
        Ok(compression) => out.show(&compression.is_some()),
        Err(fault) => put_fault(out, fault),
    }
    out.put(",\"length\":");
    put_value(out, batch.length());
    out.put(",\"nodes\":");
    put_nodes(out, batch.nodes());
    out.put("}");
}

// ---- schemas

fn put_schema(out: &mut Text, schema: &SchemaRef<'_>) {
    out.put("{\"endianness\":");
    put_name(out, schema.endianness());
    out.put(",\"fields\":");
    put_fields(out, schema.fields(), LEVELS);
    out.put(",\"metadata\":");
    put_pairs(out, schema.custom_metadata());
    out.put("}");
}

#[cycle(fields)]
fn put_fields(
    out: &mut Text,
    fields: Result<Option<Tables<'_, FieldTable>>, TableFault>,
    levels: usize,
) {
    let Some(fields) = present(out, fields) else {
        return;
    };
    out.put("[");
    for index in 0..fields.len() {
        out.comma();
        match fields.get(index) {
            Ok(field) => put_field(out, &field, levels),
            Err(fault) => put_fault(out, fault),
        }
    }
    out.put("]");
}

#[cycle(fields)]
fn put_field(out: &mut Text, field: &FieldRef<'_>, levels: usize) {
    if levels == 0 {
        out.miss("levels");
        return;
    }
    out.put("{\"children\":");
    put_fields(out, field.children(), levels - 1);
    out.put(",\"dictionary\":");
    put_dictionary(out, field.dictionary());
    out.put(",\"metadata\":");
    put_pairs(out, field.custom_metadata());
    out.put(",\"name\":");
    put_optional_text(out, field.name());
    out.put(",\"nullable\":");
    put_value(out, field.nullable());
    out.put(",\"type\":");
    types::put_type(out, field.type_());
    out.put("}");
}

fn put_dictionary(
    out: &mut Text,
    dictionary: Result<Option<DictionaryEncodingRef<'_>>, TableFault>,
) {
    let Some(dictionary) = present(out, dictionary) else {
        return;
    };
    out.put("{\"id\":");
    put_value(out, dictionary.id());
    out.put(",\"index_type\":");
    if let Some(keys) = present(out, dictionary.index_type()) {
        types::put_int(out, &keys);
    }
    out.put(",\"is_ordered\":");
    put_value(out, dictionary.is_ordered());
    out.put("}");
}
