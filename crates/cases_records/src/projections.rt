//! Projections: the columns and rows that a case reads.
//!
//! `"chosen": [2, 0]` reads these columns and gives them in this order. `"limit": 2` reads at most
//! so many rows. Readers return columns in ascending order, so these are put into the order of the
//! case.

ghost use Rattle.std.specs.Prelude.{IfSome};
ghost use Rattle.ipc_projection.specs.Projections.{IsPrepared};

use cases_notation::decoder::Decoder;
use ipc_base::chunk::Chunk;
use ipc_projection::read::projection::{
    apply_projection, is_prepared, is_projection, is_reordering,
};
use lower::datatypes::Field;
use lower::datatypes::clones::clone_fields;
use lower_arrays::array::AnyArray;
use serde_json::Value;
use std::collections::HashMap;

/// The columns that a case chooses, where it does.
pub fn chosen(d: &mut Decoder, value: &Value) -> Option<Vec<usize>> {
    let columns = value.get("chosen")?;
    Some(counts(d, Some(columns), "chosen"))
}

/// The counts or indices of the list that is the part of this name.
pub fn counts(d: &mut Decoder, value: Option<&Value>, name: &'static str) -> Vec<usize> {
    let mut out = d.list();
    for item in d.items(value, name) {
        let count = d.count(Some(item), name);
        d.push(&mut out, count);
    }
    out
}

/// How many rows a case reads at most, where it has a limit.
pub fn limit(d: &mut Decoder, value: &Value) -> Option<usize> {
    let limit = value.get("limit")?;
    Some(d.count(Some(limit), "limit"))
}

/// The fields of the columns that are read.
pub fn chosen_fields(
    d: &mut Decoder,
    fields: &Vec<Field>,
    chosen: &Option<Vec<usize>>,
) -> Vec<Field> {
    match chosen {
        Some(chosen) => fields_at(d, fields, chosen),
        None => copied(d, fields),
    }
}

fn copied(d: &mut Decoder, fields: &Vec<Field>) -> Vec<Field> {
    let copies = clone_fields(fields);
    d.take(copies).unwrap_or(d.list())
}

fn fields_at(d: &mut Decoder, fields: &[Field], chosen: &[usize]) -> Vec<Field> {
    let mut out = d.list();
    for column in chosen {
        put_field(d, &mut out, fields.get(*column));
    }
    out
}

fn put_field(d: &mut Decoder, out: &mut Vec<Field>, field: Option<&Field>) {
    let Some(field) = field else {
        return d.miss("chosen");
    };
    let copy = field.clone();
    if let Some(copy) = d.take(copy) {
        d.push(out, copy);
    }
}

/// The chosen ones of so many columns in ascending order, where they are a projection.
pub fn prepared(d: &mut Decoder, chosen: &[usize], columns: usize) -> Option<Vec<usize>>
    ensures { IfSome result (λ ascending. IsPrepared ascending.items columns) }
{
    let ascending = ascending(d, chosen, columns);
    if is_projection(chosen, columns) && is_prepared(&ascending, columns) {
        return Some(ascending);
    }
    d.miss("chosen");
    None
}

fn ascending(d: &mut Decoder, chosen: &[usize], columns: usize) -> Vec<usize> {
    let mut out = d.list();
    for column in 0..columns {
        if chosen.contains(&column) {
            d.push(&mut out, column);
        }
    }
    out
}

/// The columns of a prepared projection in the order in which they were chosen.
pub fn in_order(
    d: &mut Decoder,
    chunk: Chunk<AnyArray>,
    chosen: &[usize],
) -> Option<Chunk<AnyArray>> {
    let map = order_of(d, chosen);
    if !is_reordering(&map, chunk.arrays().len()) {
        d.miss("chosen");
        return None;
    }
    let ordered = apply_projection(d.alloc(), chunk, &map);
    d.take(ordered)
}

// The index at which each column of the prepared projection was chosen.
fn order_of(d: &mut Decoder, chosen: &[usize]) -> HashMap<usize, usize> {
    let mut map = HashMap::new(d.alloc());
    for (index, column) in chosen.iter().enumerate() {
        let held = map.insert(rank(chosen, *column), index);
        let _ = d.take(held);
    }
    map
}

// How many of the chosen columns are below this one.
fn rank(chosen: &[usize], column: usize) -> usize {
    chosen.iter().filter(|other| **other < column).count()
}
