//! The slots of columns.
//!
//! Arrow columnar format, "Physical Memory Layout".
ghost use Rattle.std.specs.Prelude.{◌≡◌, ◌+◌, ◌<◌, ◌^◌, IfOk};
ghost use Rattle.std.specs.Option.{option_map};
ghost use Rattle.ipc_model.specs.Columns;
ghost use Rattle.ipc_reference.specs.PlainColumns.{read};
ghost use Rattle.ipc_model.specs.Kinds.{number_kind, offsets_32, utf8_kind};
ghost use Rattle.ipc_model.specs.TypeKinds.{key_form};
ghost use Rattle.lower_arrays.specs.Slots.{slots_of};
ghost use Rattle.ipc_reference.specs.PlainEntries.{entries_view};
ghost use Rattle.ipc_reference.specs.PlainKinds.{kind_view, kinds_view};
ghost use Rattle.ipc_reference.specs.PlainSlots.{slot_view, slots_view};
ghost use Rattle.ipc_reference.specs.Rooms.{HasEntries, HasRooms};

use crate::entries::PlainEntries;
use crate::kinds::{PlainKind, buffer_count, node_count};
use crate::numbers::{integer, value_bytes, width};
use crate::well::is_well;
use lower::datatypes::IntegerType;
use std::alloc::{AllocError, Global};

/// The value of one slot of a column.
#[derive(Debug, Drop, PartialEq, Eq)]
pub enum PlainSlot {
    Null,
    Number(i128),
    /// The bytes of a text.
    Text(Vec<u8>),
    /// The slots of a list.
    List(Vec<PlainSlot>),
    /// One slot of each child.
    Record(Vec<PlainSlot>),
}

// Slot i of a column of integers.
#[tactic(auto, using(crate::proofs::SlotViews::slots))]
fn int_at(entries: &PlainEntries, form: IntegerType, a: usize, b: usize, i: usize) -> PlainSlot
    requires { b < 2 ^ 63 }
    ensures { slot_view result ≡ Columns.slot_at (entries_view entries.now) (number_kind (key_form form)) a b i }
{
    if !entries.is_valid(a, b, i) {
        return PlainSlot::Null;
    }
    let bytes = value_bytes(entries.part(b + 1).bytes, width(form), i);
    PlainSlot::Number(integer(form, entries.order, bytes))
}

// Slot i of a column of texts.
#[tactic(auto, using(crate::proofs::SlotViews::slots))]
fn text_at(
    alloc: Global,
    entries: &PlainEntries,
    a: usize,
    b: usize,
    i: usize,
) -> Result<PlainSlot, AllocError>
    requires buffer { b < 2 ^ 62 }
    requires slot { i < 2 ^ 63 }
    ensures { IfOk result (λ x. slot_view x ≡ Columns.slot_at (entries_view entries.now) (utf8_kind offsets_32) a b i) }
{
    if !entries.is_valid(a, b, i) {
        return Ok(PlainSlot::Null);
    }
    let text = Vec::from_slice(alloc, entries.bytes(b + 1, i))?;
    Ok(PlainSlot::Text(text))
}

/// Slot i of the column at node a and buffer b.
#[cycle(slots)]
#[tactic(auto, using(crate::proofs::Views::kinds, crate::proofs::SlotViews::slots))]
pub fn slot_at(
    alloc: Global,
    entries: &PlainEntries,
    kind: &PlainKind,
    a: usize,
    b: usize,
    i: usize,
) -> Result<PlainSlot, AllocError>
    requires room { HasEntries entries.now (kind_view kind.now) a b }
    requires slot { i < 2 ^ 63 }
    ensures { IfOk result (λ x. slot_view x ≡ Columns.slot_at (entries_view entries.now) (kind_view kind.now) a b i) }
{
    match kind {
        PlainKind::Int(form) => Ok(int_at(entries, *form, a, b, i)),
        PlainKind::Utf8 => text_at(alloc, entries, a, b, i),
        PlainKind::List(item) => {
            if !entries.is_valid(a, b, i) {
                return Ok(PlainSlot::Null);
            }
            let mut items = Vec::new(alloc);
            for j in entries.offset(b + 1, i)..entries.offset(b + 1, i + 1) {
                items.push(slot_at(alloc, entries, item, a + 1, b + 2, j)?)?;
            }
            Ok(PlainSlot::List(items))
        }
        PlainKind::Struct(fields) => {
            if !entries.is_valid(a, b, i) {
                return Ok(PlainSlot::Null);
            }
            Ok(PlainSlot::Record(slots_at(alloc, entries, fields, a + 1, b + 1, i)?))
        }
    }
}

// Slot i of each of consecutive columns.
#[cycle(slots)]
#[tactic(auto, using(crate::proofs::SlotViews::slots))]
fn slots_at(
    alloc: Global,
    entries: &PlainEntries,
    kinds: &[PlainKind],
    a: usize,
    b: usize,
    i: usize,
) -> Result<Vec<PlainSlot>, AllocError>
    requires room { HasRooms entries.now (kinds_view kinds.now) a b }
    requires slot { i < 2 ^ 63 }
    ensures { IfOk result (λ v. slots_of (slots_view v.items) ≡ Columns.slots_at (entries_view entries.now) (kinds_view kinds.now) a b i) }
{
    let mut slots = Vec::new(alloc);
    let mut node = a;
    let mut buffer = b;
    for kind in kinds {
        slots.push(slot_at(alloc, entries, kind, node, buffer, i)?)?;
        node += node_count(kind);
        buffer += buffer_count(kind, entries.extra);
    }
    Ok(slots)
}

/// The slots that are read of the column at node a and buffer b.
#[tactic(auto, using(crate::proofs::SlotViews::pushed))]
pub fn column(
    alloc: Global,
    entries: &PlainEntries,
    kind: &PlainKind,
    a: usize,
    b: usize,
    limit: Option<usize>,
) -> Result<Vec<PlainSlot>, AllocError>
    requires { HasEntries entries.now (kind_view kind.now) a b }
    ensures { IfOk result (λ v. slots_view v.items ≡ Columns.column (entries_view entries.now) (kind_view kind.now) a b limit) }
{
    let mut slots = Vec::new(alloc);
    for i in 0..entries.rows(a, limit) {
        slots.push(slot_at(alloc, entries, kind, a, b, i)?)?;
    }
    Ok(slots)
}

/// The slots that are read of the column at node a and buffer b. None if it is invalid.
pub fn plain_column(
    alloc: Global,
    entries: &PlainEntries,
    kind: &PlainKind,
    a: usize,
    b: usize,
    limit: Option<usize>,
) -> Result<Option<Vec<PlainSlot>>, AllocError>
    requires { HasEntries entries.now (kind_view kind.now) a b }
    ensures exact { IfOk result (λ r. option_map (λ v. slots_view v.items) r ≡ read (kind_view kind.now) a b limit (entries_view entries.now)) }
{
    if !is_well(entries, kind, a, b, limit) {
        return Ok(None);
    }
    Ok(Some(column(alloc, entries, kind, a, b, limit)?))
}
