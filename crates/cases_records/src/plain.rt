//! The plain program of columns, `ipc_reference`, and the text of what it returns.

use cases_arrays::slots::put_whole;
use cases_notation::decoder::Decoder;
use cases_notation::text::Text;
use ipc_reference::batch::is_projection;
use ipc_reference::kinds::PlainKind;
use ipc_reference::record::{PlainBody, plain_record};
use ipc_reference::slots::PlainSlot;
use ipc_table_views::RecordBatchRef;
use lower::datatypes::{DataType, Field, IntegerType};
use lower_types::Endianness;

/// What the plain program needs beside the message of a record batch.
#[derive(Drop)]
pub struct PlainForm {
    /// The kinds of all columns.
    pub kinds: Vec<PlainKind>,
    /// The columns that are read.
    pub chosen: Vec<usize>,
    /// How many slots are read at most.
    pub limit: Option<usize>,
    pub order: Endianness,
    /// How many buffers a union has before its own.
    pub extra: usize,
}

/// The slots of columns.
pub type PlainColumns = Vec<Vec<PlainSlot>>;

impl PlainForm {
    /// The columns that the plain program decodes, or none where the record batch is invalid.
    pub fn columns(
        &self,
        d: &mut Decoder,
        batch: &RecordBatchRef,
        source: &[u8],
    ) -> Option<PlainColumns> {
        if !is_projection(&self.chosen, self.kinds.len()) {
            return None;
        }
        let body = PlainBody {
            source,
            base: 0,
            size: source.len() as u64,
            order: self.order,
            extra: self.extra,
        };
        let columns = plain_record(
            d.alloc(),
            batch,
            &body,
            &self.kinds,
            &self.chosen,
            self.limit,
        );
        d.take(columns)?
    }
}

/// The indices of so many columns.
pub fn all_columns(d: &mut Decoder, count: usize) -> Vec<usize> {
    let mut all = d.list();
    for column in 0..count {
        d.push(&mut all, column);
    }
    all
}

// ---- kinds

/// The kinds of columns with these fields.
#[cycle(kinds)]
pub fn kinds_of(d: &mut Decoder, fields: &[Field]) -> Vec<PlainKind> {
    let mut kinds = d.list();
    for field in fields {
        let kind = kind_of(d, &field.data_type);
        d.push(&mut kinds, kind);
    }
    kinds
}

#[cycle(kinds)]
fn kind_of(d: &mut Decoder, data_type: &DataType) -> PlainKind {
    match data_type {
        DataType::Utf8 => PlainKind::Utf8,
        DataType::List(item) => {
            let item = kind_of(d, &item.data_type);
            list_of(d, item)
        }
        DataType::Struct(fields) => PlainKind::Struct(kinds_of(d, fields)),
        _ => PlainKind::Int(integer_of(d, data_type)),
    }
}

fn list_of(d: &mut Decoder, item: PlainKind) -> PlainKind {
    match d.boxed(item) {
        Some(item) => PlainKind::List(item),
        None => PlainKind::Utf8,
    }
}

fn integer_of(d: &mut Decoder, data_type: &DataType) -> IntegerType {
    match data_type {
        DataType::Int8 => IntegerType::Int8,
        DataType::Int16 => IntegerType::Int16,
        DataType::Int32 => IntegerType::Int32,
        DataType::Int64 => IntegerType::Int64,
        DataType::UInt8 => IntegerType::UInt8,
        DataType::UInt16 => IntegerType::UInt16,
        DataType::UInt32 => IntegerType::UInt32,
        DataType::UInt64 => IntegerType::UInt64,
        _ => {
            d.miss("a type of the plain program");
            IntegerType::Int8
        }
    }
}

// ---- slots

/// Appends the slots of columns, in the notation of the slots of arrays.
pub fn put_plain_columns(out: &mut Text, columns: &[Vec<PlainSlot>]) {
    out.put("[");
    for column in columns {
        out.comma();
        put_plain_slots(out, column);
    }
    out.put("]");
}

#[cycle(plain)]
fn put_plain_slots(out: &mut Text, slots: &[PlainSlot]) {
    out.put("[");
    for slot in slots {
        out.comma();
        put_plain_slot(out, slot);
    }
    out.put("]");
}

#[cycle(plain)]
fn put_plain_slot(out: &mut Text, slot: &PlainSlot) {
    match slot {
        PlainSlot::Null => out.put("null"),
        PlainSlot::Number(number) => put_whole(out, *number),
        PlainSlot::Text(text) => out.text(text),
        PlainSlot::List(slots) | PlainSlot::Record(slots) => put_plain_slots(out, slots),
    }
}
