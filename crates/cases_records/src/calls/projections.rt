//! The calls of projections.
//!
//! - `"projection_of": {"projection": [2, 0], "columns": 3}` gives whether it is a projection of so
//!   many columns, and a prepared one: `{"is_prepared": false, "is_projection": true}`.
//! - `"prepared_by": {"fields": [FIELD, ..], "projection": [2, 0]}` gives `{"columns": [0, 2],
//!   "map": [[0, 1], [1, 0]], "selected": ["c: Int32", ..]}`, with the map as pairs of a key and
//!   its value, or null where it isn't a projection.
//! - `"moved_by": {"columns": [ARRAY, ..], "map": [[0, 1], [1, 0]]}` gives the slots of the columns
//!   in their new order, or null where the map isn't a reordering of so many.
//! - `"marked_by": {"projection": [0, 2], "items": [1, 2]}` gives
//!   `[["selected", 1], ["not_selected", 2]]`, or null where the projection isn't prepared.

use crate::projections::counts;
use cases_arrays::chunks::{chunk, put_columns};
use cases_arrays::schemas::{put_fields, schema};
use cases_notation::decoder::Decoder;
use cases_notation::text::Text;
use ipc_projection::read::prepare::prepare_projection;
use ipc_projection::read::projection::{
    ProjectionIter, ProjectionResult, apply_projection, is_prepared, is_projection, is_reordering,
};
use lower::datatypes::Field;
use serde_json::Value;
use std::collections::HashMap;

/// The columns of a projection.
pub fn projection_in(d: &mut Decoder, value: &Value) -> Vec<usize> {
    counts(d, value.get("projection"), "projection")
}

/// Appends whether columns are a projection, and a prepared one.
pub fn projection_of(d: &mut Decoder, out: &mut Text, value: &Value) {
    let projection = projection_in(d, value);
    let columns = d.count(value.get("columns"), "columns");
    out.put("{\"is_prepared\":");
    out.show(&is_prepared(&projection, columns));
    out.put(",\"is_projection\":");
    out.show(&is_projection(&projection, columns));
    out.put("}");
}

/// Appends what a projection is prepared to.
pub fn prepared_by(d: &mut Decoder, out: &mut Text, value: &Value) {
    let fields = schema(d, value).fields;
    let projection = projection_in(d, value);
    if !is_projection(&projection, fields.len()) {
        return out.put("null");
    }
    let prepared = prepare_projection(d.alloc(), &fields, projection);
    if let Some((columns, map, selected)) = d.take(prepared) {
        put_prepared(d, out, &columns, &map, &selected);
    }
}

fn put_prepared(
    d: &mut Decoder,
    out: &mut Text,
    columns: &[usize],
    map: &HashMap<usize, usize>,
    selected: &[Field],
) {
    out.put("{\"columns\":");
    put_counts(out, columns);
    out.put(",\"map\":");
    put_map(out, map, columns.len());
    out.put(",\"selected\":[");
    put_fields(d, out, selected);
    out.put("]}");
}

fn put_counts(out: &mut Text, counts: &[usize]) {
    out.put("[");
    for count in counts {
        out.comma();
        out.show(count);
    }
    out.put("]");
}

// The keys below a number, with their values.
fn put_map(out: &mut Text, map: &HashMap<usize, usize>, keys: usize) {
    out.put("[");
    for key in 0..keys {
        if let Some(index) = map.get(&key) {
            out.comma();
            out.pair(&key, index);
        }
    }
    out.put("]");
}

fn map_in(d: &mut Decoder, value: &Value) -> HashMap<usize, usize> {
    let mut map = HashMap::new(d.alloc());
    for pair in d.items(value.get("map"), "map") {
        put_pair(d, &mut map, pair);
    }
    map
}

fn put_pair(d: &mut Decoder, map: &mut HashMap<usize, usize>, pair: &Value) {
    let (key, index) = d.both(pair, "map");
    let key = d.count(Some(key), "map");
    let index = d.count(Some(index), "map");
    let held = map.insert(key, index);
    let _ = d.take(held);
}

/// Appends the columns of a chunk in a new order.
pub fn moved_by(d: &mut Decoder, out: &mut Text, value: &Value) {
    let columns = d.member(value, "columns");
    let Some(chunk) = chunk(d, columns) else {
        return;
    };
    let map = map_in(d, value);
    if !is_reordering(&map, chunk.arrays().len()) {
        return out.put("null");
    }
    let moved = apply_projection(d.alloc(), chunk, &map);
    if let Some(moved) = d.take(moved) {
        put_columns(out, moved.arrays());
    }
}

/// Appends items, each with whether a projection chooses it.
pub fn marked_by(d: &mut Decoder, out: &mut Text, value: &Value) {
    let projection = projection_in(d, value);
    if !is_prepared(&projection, usize::MAX) {
        return out.put("null");
    }
    let items = d.items(value.get("items"), "items");
    out.put("[");
    for item in ProjectionIter::new(&projection, items.iter()) {
        put_marked(out, item);
    }
    out.put("]");
}

fn put_marked(out: &mut Text, item: ProjectionResult<&Value>) {
    out.comma();
    let item = match item {
        ProjectionResult::Selected(item) => {
            out.put("[\"selected\",");
            item
        }
        ProjectionResult::NotSelected(item) => {
            out.put("[\"not_selected\",");
            item
        }
    };
    out.json(item);
    out.put("]");
}
