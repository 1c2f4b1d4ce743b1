//! The calls that decode a schema message by the reader and by the plain program.
//!
//! The plain program, `ipc_reference_schema`, only supports integers, texts, lists and structs.
//!
//! - `"plain_schema_of": BYTES` gives what the plain program decodes: a schema, `"Other"` (a schema
//!   with another type) or `"NoSchema"`. An extension type is the type that it is stored as.
//! - `"schema_by_both": BYTES` gives `{"plain": PLAIN, "reader": SCHEMA, "agree": true}`.
//! - `"damaged_schemas_of": {"bytes": BYTES, "kinds": ["NoSchema", ..]}` decodes the message with
//!   each damage by both. It gives
//!   `{"cuts": 48, "sets": 192, "differ": [], "kinds": ["NoSchema", ..]}`: how many damages were
//!   tried, those at which the two differ, and which of these kinds of results occurred.
//!   `"only_cuts": true` leaves out the damages that set a byte.

use crate::same_schemas::{are_plain, is_same_schema};
use crate::schemas::put_schema;
use cases_notation::bytes::bytes;
use cases_notation::damages::{Damage, Tried, cuts, damaged, damages};
use cases_notation::decoder::Decoder;
use cases_notation::failure::Failure;
use cases_notation::text::Text;
use ipc_base::ipc::IpcSchema;
use ipc_devices::fault::Fault;
use ipc_reference_schema::schema::{PlainAnswer, plain_schema};
use ipc_reference_schema::types::{PlainField, PlainSchema, PlainType};
use ipc_schema::read::schema::deserialize_schema;
use ipc_schema_write::defaults::default_ipc_fields;
use lower::datatypes::{DataType, Field, Metadata, Schema};
use lower_types::Endianness;
use serde_json::Value;

type Read = Result<(Schema, IpcSchema), Fault>;

/// Appends what the plain program decodes a message to.
pub fn plain_schema_of(d: &mut Decoder, out: &mut Text, value: &Value) {
    let message = bytes(d, value);
    let plain = read_plainly(d, &message);
    put_plain(d, out, &plain);
}

/// Appends what both decode a message to, and whether they agree.
pub fn schema_by_both(d: &mut Decoder, out: &mut Text, value: &Value) {
    let message = bytes(d, value);
    let read = read(d, &message);
    let plain = read_plainly(d, &message);
    out.put("agree ");
    out.show(&!matches!(judged(&plain, &read), Kind::Differ));
    out.put(", plain ");
    put_plain(d, out, &plain);
    out.put(", reader ");
    put_read(out, &read);
}

fn put_read(out: &mut Text, read: &Read) {
    match read {
        Ok((schema, ids)) => put_schema(out, schema, ids),
        Err(fault) => out.shown(fault),
    }
}

// What the reader returns. An allocation that fails isn't an answer.
fn read(d: &mut Decoder, message: &[u8]) -> Read {
    let read = deserialize_schema(d.alloc(), message);
    if matches!(&read, Err(Fault::Memory)) {
        d.fail(Failure::Refused(Fault::Memory));
    }
    read
}

fn read_plainly(d: &mut Decoder, message: &[u8]) -> PlainAnswer {
    let answer = plain_schema(d.alloc(), message);
    d.take(answer).unwrap_or(PlainAnswer::NoSchema)
}

// ---- the plain program's schema as the reader's

fn put_plain(d: &mut Decoder, out: &mut Text, answer: &PlainAnswer) {
    match answer {
        PlainAnswer::NoSchema => out.put("\"NoSchema\""),
        PlainAnswer::Other => out.put("\"Other\""),
        PlainAnswer::Plain(plain) => put_plain_schema(d, out, plain),
    }
}

fn put_plain_schema(d: &mut Decoder, out: &mut Text, plain: &PlainSchema) {
    let schema = Schema {
        fields: fields_of(d, &plain.fields),
        metadata: copied(d, &plain.metadata),
    };
    let ids = default_ipc_fields(d.alloc(), &schema.fields);
    if let Some(fields) = d.take(ids) {
        let is_little_endian = plain.order == Endianness::Little;
        let ids = IpcSchema {
            fields,
            is_little_endian,
        };
        put_schema(out, &schema, &ids);
    }
}

/// The fields that the reader has for these.
#[cycle(plain)]
pub fn fields_of(d: &mut Decoder, plain: &[PlainField]) -> Vec<Field> {
    let mut fields = d.list();
    for plain in plain {
        let field = field_of(d, plain);
        d.push(&mut fields, field);
    }
    fields
}

#[cycle(plain)]
fn field_of(d: &mut Decoder, plain: &PlainField) -> Field {
    Field {
        name: d.owned(plain.name.as_str()),
        data_type: type_of(d, &plain.data_type),
        is_nullable: plain.is_nullable,
        metadata: copied(d, &plain.metadata),
    }
}

fn copied(d: &mut Decoder, metadata: &Metadata) -> Metadata {
    let copy: Result<_, _> = metadata.clone();
    d.take(copy).unwrap_or(Metadata::new(d.alloc()))
}

#[cycle(plain)]
fn type_of(d: &mut Decoder, plain: &PlainType) -> DataType {
    match plain {
        PlainType::Int(form) => DataType::from(*form),
        PlainType::Utf8 => DataType::Utf8,
        PlainType::List(item) => {
            let item = field_of(d, item);
            list_of(d, item)
        }
        PlainType::Struct(fields) => DataType::Struct(fields_of(d, fields)),
    }
}

fn list_of(d: &mut Decoder, item: Field) -> DataType {
    match d.boxed(item) {
        Some(item) => DataType::List(item),
        None => DataType::Null,
    }
}

// ---- whether both agree

// What both return.
#[derive(Clone, Copy)]
enum Kind {
    NoSchema,
    Other,
    Plain,
    Differ,
}

// Where the plain program finds no schema, the reader has to return an error. Where it finds
// another type, the reader has to find one too.
fn judged(plain: &PlainAnswer, read: &Read) -> Kind {
    match (plain, read) {
        (PlainAnswer::NoSchema, Err(_)) => Kind::NoSchema,
        (PlainAnswer::Other, Ok((schema, _))) if !are_plain(&schema.fields) => Kind::Other,
        (PlainAnswer::Plain(plain), Ok((schema, ids))) if is_same_schema(plain, schema, ids) => {
            Kind::Plain
        }
        _ => Kind::Differ,
    }
}

// ---- damages

// Which kinds of answers occurred.
#[derive(Clone, Copy)]
struct Kinds {
    no_schema: bool,
    other: bool,
    plain: bool,
}

impl Kinds {
    fn add(&mut self, kind: Kind) {
        match kind {
            Kind::NoSchema => self.no_schema = true,
            Kind::Other => self.other = true,
            Kind::Plain => self.plain = true,
            Kind::Differ => {}
        }
    }

    // Whether answers of this kind occurred.
    fn has(&self, kind: Kind) -> bool {
        match kind {
            Kind::NoSchema => self.no_schema,
            Kind::Other => self.other,
            Kind::Plain => self.plain,
            Kind::Differ => false,
        }
    }
}

const KIND_NAMES: [(&str, Kind); 3] = [
    ("NoSchema", Kind::NoSchema),
    ("Other", Kind::Other),
    ("Plain", Kind::Plain),
];

/// Appends how many damages of a message were tried, those at which both differ, and which kinds of
/// answers occurred.
pub fn damaged_schemas_of(d: &mut Decoder, out: &mut Text, value: &Value) {
    let message = d.member(value, "bytes");
    let message = bytes(d, message);
    let damages = match value.get("only_cuts") {
        None => damages(d, message.len()),
        Some(_) => cuts(d, message.len()),
    };
    out.put("{");
    let kinds = put_tried(d, out, &message, &damages);
    out.put(",\"kinds\":[");
    put_kinds(d, out, kinds, value);
    out.put("]}");
}

// Tries each damage, and appends how many there are and those at which both differ.
fn put_tried(d: &mut Decoder, out: &mut Text, message: &[u8], damages: &[Damage]) -> Kinds {
    let mut tried = Tried::new(d.alloc());
    let mut kinds = Kinds {
        no_schema: false,
        other: false,
        plain: false,
    };
    for damage in damages {
        let kind = kind_with(d, message, *damage);
        tried.add(*damage, matches!(kind, Kind::Differ));
        kinds.add(kind);
    }
    tried.put_cuts(out);
    tried.put(d, out);
    kinds
}

fn kind_with(d: &mut Decoder, message: &[u8], damage: Damage) -> Kind {
    let message = damaged(d, message, damage);
    let read = read(d, &message);
    let plain = read_plainly(d, &message);
    judged(&plain, &read)
}

// Those of the kinds that a case names which occurred.
fn put_kinds(d: &mut Decoder, out: &mut Text, occurred: Kinds, value: &Value) {
    for kind in d.items(value.get("kinds"), "kinds") {
        if occurred.has(d.choice(Some(kind), &KIND_NAMES, "kinds", Kind::Differ)) {
            out.comma();
            out.json(kind);
        }
    }
}
