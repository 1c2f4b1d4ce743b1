//! Schemas.
//!
//! - A schema is `{"fields": [FIELD, ..], "metadata": {..}, "ids": [ID, ..], "order": "big"}`. Only
//!   the fields are required. By default the ids are the default ones, and numbers are
//!   little-endian.
//! - An id is `{"id": 7, "children": [ID, ..]}`, where either may be left out.
//! - A schema that a case wants may also have `"version": "V5"`, the version of its message, and
//!   `"visits": 3`, how many tables of fields are opened to decode it.

use cases_notation::decoder::Decoder;
use cases_notation::text::Text;
use cases_notation::types::{LEVELS, fields, is_little_endian, metadata};
use ipc_base::ipc::{IpcField, IpcSchema};
use ipc_schema_write::defaults::default_ipc_fields;
use lower::datatypes::{Field, Schema};
use serde_json::Value;

/// The schema of a case.
pub fn schema(d: &mut Decoder, value: &Value) -> Schema {
    let listed = d.member(value, "fields");
    Schema {
        fields: fields(d, listed, LEVELS),
        metadata: metadata(d, value),
    }
}

/// Appends the schema that a case wants, and what IPC adds to it.
pub fn put_wanted_schema(d: &mut Decoder, out: &mut Text, value: &Value) {
    let schema = schema(d, value);
    put_schema_of_case(d, out, value, &schema);
    put_version(d, out, value.get("version"));
    put_visits(out, value.get("visits"));
}

fn put_version(d: &mut Decoder, out: &mut Text, version: Option<&Value>) {
    if version.is_some() {
        out.put(" ");
        out.put(d.text(version, "version"));
    }
}

fn put_visits(out: &mut Text, visits: Option<&Value>) {
    if let Some(visits) = visits {
        out.put(" ");
        out.json(visits);
    }
}

/// Appends a schema, with the ids and the byte order of a case.
pub fn put_schema_of_case(d: &mut Decoder, out: &mut Text, value: &Value, schema: &Schema) {
    let ids = ipc_schema(d, value, &schema.fields);
    put_schema(out, schema, &ids);
}

/// Appends a schema and what IPC adds to it: the `Debug` text of both.
pub fn put_schema(out: &mut Text, schema: &Schema, ids: &IpcSchema) {
    out.debug(schema);
    out.put(" ");
    out.debug(ids);
}

/// Appends the name and the type of each field, as the items of a list: `"a: Int32", "b: Utf8"`.
pub fn put_fields(d: &mut Decoder, out: &mut Text, fields: &[Field]) {
    for field in fields {
        let shown = format!(in d.alloc(); "{}: {:?}", field.name, field.data_type);
        if let Some(shown) = d.take(shown) {
            out.comma();
            out.quoted(shown.as_str());
        }
    }
}

/// The ids and the byte order of a case, for these fields.
pub fn ipc_schema(d: &mut Decoder, value: &Value, fields: &[Field]) -> IpcSchema {
    IpcSchema {
        fields: ids_of(d, value, fields),
        is_little_endian: is_little_endian(d, value),
    }
}

/// The ids of a case, by default those that these fields have.
pub fn ids_of(d: &mut Decoder, value: &Value, fields: &[Field]) -> Vec<IpcField> {
    match value.get("ids") {
        Some(ids) => id_trees(d, ids, LEVELS),
        None => default_ids(d, fields),
    }
}

fn default_ids(d: &mut Decoder, fields: &[Field]) -> Vec<IpcField> {
    let ids = default_ipc_fields(d.alloc(), fields);
    d.take(ids).unwrap_or(d.list())
}

#[cycle(ids)]
fn id_trees(d: &mut Decoder, value: &Value, levels: usize) -> Vec<IpcField> {
    let mut out = d.list();
    for value in d.items(Some(value), "ids") {
        let tree = id_tree(d, value, levels);
        d.push(&mut out, tree);
    }
    out
}

#[cycle(ids)]
fn id_tree(d: &mut Decoder, value: &Value, levels: usize) -> IpcField {
    if levels == 0 {
        d.miss("ids");
        return IpcField::empty(d.alloc());
    }
    let dictionary_id = dictionary_id(d, value);
    let fields = match value.get("children") {
        None => d.list(),
        Some(children) => id_trees(d, children, levels - 1),
    };
    IpcField {
        fields,
        dictionary_id,
    }
}

fn dictionary_id(d: &mut Decoder, value: &Value) -> Option<i64> {
    let id = value.get("id")?;
    Some(d.number(Some(id), "id"))
}
