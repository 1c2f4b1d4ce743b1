//! Checks whether columns are valid.
//!
//! Arrow columnar format, "Physical Memory Layout".
ghost use Rattle.std.specs.Prelude.{◌≡◌, ◌+◌, ◌<◌, ◌^◌};
ghost use Rattle.ipc_model.specs.Kinds.{number_kind, offsets_32, struct_kind, utf8_kind};
ghost use Rattle.ipc_model.specs.TypeKinds.{key_form};
ghost use Rattle.ipc_model.specs.Tests;
ghost use Rattle.ipc_reference.specs.PlainEntries.{entries_view};
ghost use Rattle.ipc_reference.specs.PlainKinds.{kind_view, kinds_view};
ghost use Rattle.ipc_reference.specs.Rooms.{HasEntries, HasRooms};

use crate::entries::PlainEntries;
use crate::kinds::{PlainKind, buffer_count, node_count};
use crate::numbers::width;
use lower::datatypes::IntegerType;

// Integers.
#[tactic(auto, using(crate::proofs::Views::kinds))]
fn is_well_int(
    entries: &PlainEntries,
    form: IntegerType,
    a: usize,
    b: usize,
    limit: Option<usize>,
) -> bool
    requires { b < 2 ^ 63 }
    ensures { result ≡ Tests.is_well (entries_view entries.now) (number_kind (key_form form)) a b limit }
{
    let rows = entries.rows(a, limit);
    entries.begins(a, b, rows) && entries.has_bytes(b + 1, width(form) as u128 * rows as u128)
}

// Texts.
fn is_well_utf8(entries: &PlainEntries, a: usize, b: usize, limit: Option<usize>) -> bool
    requires { b < 2 ^ 62 }
    ensures { result ≡ Tests.is_well (entries_view entries.now) (utf8_kind offsets_32) a b limit }
{
    let rows = entries.rows(a, limit);
    entries.begins(a, b, rows) && entries.has_texts(b + 1, rows)
}

/// Whether a column is valid, as far as it is read.
///
/// It begins at node a and buffer b.
#[cycle(well)]
#[tactic(auto, using(crate::proofs::Views::kinds))]
pub fn is_well(
    entries: &PlainEntries,
    kind: &PlainKind,
    a: usize,
    b: usize,
    limit: Option<usize>,
) -> bool
    requires { HasEntries entries.now (kind_view kind.now) a b }
    ensures { result ≡ Tests.is_well (entries_view entries.now) (kind_view kind.now) a b limit }
{
    match kind {
        PlainKind::Int(form) => is_well_int(entries, *form, a, b, limit),
        PlainKind::Utf8 => is_well_utf8(entries, a, b, limit),
        PlainKind::List(item) => {
            let rows = entries.rows(a, limit);
            if !entries.begins(a, b, rows) || !entries.has_offsets(b + 1, rows) {
                return false;
            }
            let last = entries.last_offset(b + 1, rows);
            is_well(entries, item, a + 1, b + 2, Some(last))
                && entries.rows(a + 1, Some(last)) == last
        }
        PlainKind::Struct(fields) => is_well_struct(entries, fields, a, b, limit),
    }
}

// A struct of some fields.
#[cycle(well)]
#[tactic(auto, using(crate::proofs::Views::somes))]
fn is_well_struct(
    entries: &PlainEntries,
    fields: &[PlainKind],
    a: usize,
    b: usize,
    limit: Option<usize>,
) -> bool
    requires { HasEntries entries.now (struct_kind (kinds_view fields.now)) a b }
    ensures { result ≡ Tests.is_well (entries_view entries.now) (struct_kind (kinds_view fields.now)) a b limit }
{
    let rows = entries.rows(a, limit);
    if fields.is_empty() || !entries.begins(a, b, rows) {
        return false;
    }
    all_have_rows(entries, fields, a + 1, b + 1, limit, rows)
}

// Whether each of consecutive columns is valid, as far as it is read, and has `rows` rows.
#[cycle(well)]
fn all_have_rows(
    entries: &PlainEntries,
    kinds: &[PlainKind],
    a: usize,
    b: usize,
    limit: Option<usize>,
    rows: usize,
) -> bool
    requires { HasRooms entries.now (kinds_view kinds.now) a b }
    ensures { result ≡ Tests.all_have_rows (entries_view entries.now) (kinds_view kinds.now) a b limit rows }
{
    let mut node = a;
    let mut buffer = b;
    for kind in kinds {
        if !is_well(entries, kind, node, buffer, limit) || entries.rows(node, limit) != rows {
            return false;
        }
        node += node_count(kind);
        buffer += buffer_count(kind, entries.extra);
    }
    true
}
