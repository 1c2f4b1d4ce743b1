//! The calls of record batches, dictionary batches and projections, by their names.

pub mod projections;
pub mod records;

use cases_notation::decoder::{Decoder, named};
use cases_notation::text::Text;
use serde_json::Value;

#[derive(Clone, Copy)]
enum Call {
    ColumnsOf,
    PlainColumnsOf,
    KnownBy,
    ColumnsByBoth,
    DamagedRecordsOf,
    CutBodiesOf,
    ProjectionOf,
    PreparedBy,
    MovedBy,
    MarkedBy,
}

const CALLS: [(&str, Call); 10] = [
    ("columns_of", Call::ColumnsOf),
    ("plain_columns_of", Call::PlainColumnsOf),
    ("known_by", Call::KnownBy),
    ("columns_by_both", Call::ColumnsByBoth),
    ("damaged_records_of", Call::DamagedRecordsOf),
    ("cut_bodies_of", Call::CutBodiesOf),
    ("projection_of", Call::ProjectionOf),
    ("prepared_by", Call::PreparedBy),
    ("moved_by", Call::MovedBy),
    ("marked_by", Call::MarkedBy),
];

/// Appends what the call of this name gives, and returns whether there is such a call here.
pub fn put_call(d: &mut Decoder, out: &mut Text, name: &str, parts: &Value) -> bool {
    let Some(call) = named(&CALLS, name) else {
        return false;
    };
    match call {
        Call::ColumnsOf => records::columns_of(d, out, parts),
        Call::PlainColumnsOf => records::plain_columns_of(d, out, parts),
        Call::KnownBy => records::known_by(d, out, parts),
        Call::ColumnsByBoth => records::columns_by_both(d, out, parts),
        Call::DamagedRecordsOf => records::damaged_records_of(d, out, parts),
        Call::CutBodiesOf => records::cut_bodies_of(d, out, parts),
        Call::ProjectionOf => projections::projection_of(d, out, parts),
        Call::PreparedBy => projections::prepared_by(d, out, parts),
        Call::MovedBy => projections::moved_by(d, out, parts),
        Call::MarkedBy => projections::marked_by(d, out, parts),
    }
    true
}
