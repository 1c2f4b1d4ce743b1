//! Reads a column by its type.
ghost use Rattle.std.specs.Prelude.{◌≡◌, ◌+◌, map, None, IsTrue, IfOk, IfErr};
ghost use Rattle.ipc_devices.specs.Faults.{OwnFault, Answers};
ghost use Rattle.lower.specs.TypeTrees.{no_fields, more_fields};
ghost use Rattle.lower.specs.TypeViews.{type_view, field_view, fields_view, ids_of};
ghost use Rattle.lower.specs.Physical.{physical};
ghost use Rattle.lower.specs.declared.datatypes.physical_type.PhysicalType.TheVariants.{FixedSizeList, Map, Struct, Union};
ghost use Rattle.lower_validation.specs.Fields.{child_fields};
ghost use Rattle.lower_validation.specs.Ids.{union_ids, union_mode};
ghost use Rattle.lower_validation.specs.ListTypes.{list_with, list_size};
ghost use Rattle.lower_arrays.specs.Layouts.{layouts};
ghost use Rattle.lower_arrays.specs.AnyLayouts.{layout_of};
ghost use Rattle.ipc_base.specs.IdTrees.{all_ids_view};
ghost use Rattle.ipc_model.specs.Kinds.{list_kind, map_kind, fixed_list_kind, struct_kind, union_kind, nodes, all_nodes, buffers, all_buffers};
ghost use Rattle.ipc_model.specs.TypeKinds.{first_ids, field_kind, kinds_of, kind_of};
ghost use Rattle.ipc_model.specs.Columns.{IsWell, AllHaveRows, AllWell};
ghost use Rattle.ipc_model.specs.ReadArrays.{array_at, arrays_at, offset_type};
ghost use Rattle.ipc_read_flat.specs.Bodies.{KeepsBytes, HasRoom, entries, known};
ghost use Rattle.ipc_read_flat.specs.FlatKinds.{IsPlain};
ghost use Rattle.ipc_read_flat.specs.HeldListed.{HoldsListed, HoldAllListed};
ghost use Rattle.ipc_read_flat.specs.Kinds.{IsStored, IsBehind, AllFollow, form_of, listed_in, all_listed};
ghost use Rattle.ipc_read_nested.specs.ReadColumns.{IsColumn};
ghost use Rattle.ipc_read_flat.specs.Refusals.{IsColumnFault, IsFaultOf, TellsEntries};
ghost use Rattle.ipc_read_flat.specs.Scratches.{KeepsScratch};
ghost use Rattle.ipc_read_flat.specs.Steps.{Step};

use crate::read::array::fixed_size_list::{make_fixed_size_list, times_limit};
use crate::read::array::list::{make_list, read_list_head};
use crate::read::array::map::{make_map, read_map_head};
use crate::read::array::struct_::make_struct;
use crate::read::array::union::{make_union, read_places, read_types};
use crate::read::ids::{child_of, others_of};
use ipc_base::ipc::IpcField;
use ipc_devices::fault::{Fault, Nyi, OutOfSpecKind};
use ipc_devices::{Reads, Seeks};
use ipc_read_flat::read::array::dictionary::read_dictionary;
use ipc_read_flat::read::body::{Body, Place};
use ipc_read_flat::read::flat::{flat_after, read_flat};
use ipc_read_flat::read::read_basic::{BLOCK, read_head};
use lower::datatypes::{DataType, Field, UnionMode};
use lower::error::{Error, Rule};
use lower_arrays::array::AnyArray;
use std::alloc::Global;

// Reads a column without children as an array of type `own`, stored as `data_type`. Returns the
// position after it too, as all of these do.
fn read_plain<R: Reads + Seeks>(
    alloc: Global,
    data_type: &DataType,
    own: &DataType,
    id: Option<i64>,
    ids: &[IpcField],
    reader: &mut R,
    body: &Body<R>,
    place: Place,
    limit: Option<usize>,
    scratch: &mut Vec<u8>,
) -> Result<(AnyArray, Place), Fault>
    requires plain { IsPlain (type_view data_type.now) }
    requires stored { IsStored (type_view own.now) (type_view data_type.now) }
    requires room { let t = kind_of (type_view data_type.now) id (all_ids_view ids.now) in HasRoom body.now place (nodes t) (buffers body.now.extra t) }
    requires stands { KeepsBytes R.device reader.old body.now }
    ensures only { let t = kind_of (type_view data_type.now) id (all_ids_view ids.now) in IfErr result (λ e. OwnFault e (IsFaultOf t e)) }
    ensures tells { IfErr result
        (λ e. OwnFault e (TellsEntries R.device.is_memory (entries R.device body.now) e)) }
    ensures step { let t = kind_of (type_view data_type.now) id (all_ids_view ids.now) in
        Step R.device body.now
        (listed_in (entries R.device body.now) body.now.extra t place.buffer) reader.old
        result reader.new }
    ensures next { IfOk result (λ r. IsBehind body.now.extra (kind_of (type_view data_type.now) id (all_ids_view ids.now)) place r.1) }
    ensures held { let t = kind_of (type_view data_type.now) id (all_ids_view ids.now) in
        IfOk result (λ r. HoldsListed (entries R.device body.now) body.now.extra t place.buffer
        (layout_of r.0)) }
    ensures memory { IsTrue R.device.is_memory → let s = entries R.device body.now in
        let t = kind_of (type_view data_type.now) id (all_ids_view ids.now) in
        Answers result (IsWell s t place.node place.buffer limit)
        (λ r. layout_of r.0 ≡ array_at s (known body.now) t (type_view own.now) place.node
        place.buffer limit) }
{
    let physical_type = own.to_physical_type();
    let array = read_flat(
        alloc,
        physical_type,
        own,
        reader,
        body,
        place,
        limit,
        scratch,
    )?;
    let after = flat_after(physical_type, own, body, place);
    Ok((array, after))
}

// Reads a column as an array of type `own`, stored as `data_type`.
#[cycle(columns)]
#[tactic(auto, using(crate::proofs::ColumnLevels::columns))]
fn read_as<R: Reads + Seeks>(
    alloc: Global,
    data_type: &DataType,
    own: &DataType,
    id: Option<i64>,
    ids: &[IpcField],
    reader: &mut R,
    body: &Body<R>,
    place: Place,
    limit: Option<usize>,
    scratch: &mut Vec<u8>,
) -> Result<(AnyArray, Place), Fault>
    requires stored { IsStored (type_view own.now) (type_view data_type.now) }
    requires room { let t = kind_of (type_view data_type.now) id (all_ids_view ids.now) in HasRoom body.now place (nodes t) (buffers body.now.extra t) }
    requires stands { KeepsBytes R.device reader.old body.now }
    ensures only { let t = kind_of (type_view data_type.now) id (all_ids_view ids.now) in IfErr result (λ e. OwnFault e (IsFaultOf t e)) }
    ensures tells { IfErr result
        (λ e. OwnFault e (TellsEntries R.device.is_memory (entries R.device body.now) e)) }
    ensures step { let t = kind_of (type_view data_type.now) id (all_ids_view ids.now) in
        Step R.device body.now
        (listed_in (entries R.device body.now) body.now.extra t place.buffer) reader.old
        result reader.new }
    ensures next { IfOk result (λ r. IsBehind body.now.extra (kind_of (type_view data_type.now) id (all_ids_view ids.now)) place r.1) }
    ensures held { let t = kind_of (type_view data_type.now) id (all_ids_view ids.now) in
        IfOk result (λ r. HoldsListed (entries R.device body.now) body.now.extra t place.buffer
        (layout_of r.0)) }
    ensures memory { IsTrue R.device.is_memory → let s = entries R.device body.now in
        let t = kind_of (type_view data_type.now) id (all_ids_view ids.now) in
        Answers result (IsWell s t place.node place.buffer limit)
        (λ r. layout_of r.0 ≡ array_at s (known body.now) t (type_view own.now) place.node
        place.buffer limit) }
{
    match data_type {
        DataType::Extension(_, inner, _) => read_as(
            alloc, inner, own, id, ids, reader, body, place, limit, scratch,
        ),
        DataType::List(field) => read_list(
            alloc, field, own, ids, reader, body, place, limit, false, scratch,
        ),
        DataType::LargeList(field) => read_list(
            alloc, field, own, ids, reader, body, place, limit, true, scratch,
        ),
        DataType::Dictionary(keys, values, _) => read_dictionary(
            alloc, *keys, values, own, id, reader, body, place, limit, scratch,
        ),
        DataType::Struct(fields) => read_struct(
            alloc, fields, own, ids, reader, body, place, limit, scratch,
        ),
        DataType::FixedSizeList(field, size) => read_fixed_size_list(
            alloc, field, *size, own, ids, reader, body, place, limit, scratch,
        ),
        DataType::Map(field, _) => read_map(
            alloc, field, own, ids, reader, body, place, limit, scratch,
        ),
        DataType::Union(fields, type_ids, mode) => read_union(
            alloc, fields, type_ids, *mode, own, ids, reader, body, place, limit, scratch,
        ),
        DataType::Float16 | DataType::Float32 | DataType::Float64 => Err(Fault::NotYetImplemented(
            Nyi::Float,
        )),
        _ => read_plain(
            alloc, data_type, own, id, ids, reader, body, place, limit, scratch,
        ),
    }
}

// Reads a column of lists.
#[cycle(columns)]
#[tactic(auto, using(crate::proofs::ColumnLevels::columns, ipc_read_flat::proofs::Refusals::child_faults, ipc_read_flat::proofs::Reasons::reasons))]
fn read_list<R: Reads + Seeks>(
    alloc: Global,
    field: &Field,
    own: &DataType,
    ids: &[IpcField],
    reader: &mut R,
    body: &Body<R>,
    place: Place,
    limit: Option<usize>,
    is_large: bool,
    scratch: &mut Vec<u8>,
) -> Result<(AnyArray, Place), Fault>
    requires lies { physical (type_view own.now) ≡ list_with (offset_type (form_of is_large)) }
    requires fields { child_fields (type_view own.now) ≡ more_fields (field_view field.now) no_fields }
    requires room { let t = list_kind (form_of is_large) (field_kind (field_view field.now) (first_ids (all_ids_view ids.now))) in
        HasRoom body.now place (nodes t) (buffers body.now.extra t) }
    requires stands { KeepsBytes R.device reader.old body.now }
    ensures only { IfErr result (λ e. OwnFault e (IsColumnFault e)) }
    ensures tells { IfErr result
        (λ e. OwnFault e (TellsEntries R.device.is_memory (entries R.device body.now) e)) }
    ensures step { let t = list_kind (form_of is_large)
        (field_kind (field_view field.now) (first_ids (all_ids_view ids.now))) in
        Step R.device body.now
        (listed_in (entries R.device body.now) body.now.extra t place.buffer) reader.old
        result reader.new }
    ensures next { IfOk result (λ r. IsBehind body.now.extra (list_kind (form_of is_large) (field_kind (field_view field.now) (first_ids (all_ids_view ids.now)))) place r.1) }
    ensures held { let t = list_kind (form_of is_large)
        (field_kind (field_view field.now) (first_ids (all_ids_view ids.now))) in
        IfOk result (λ r. HoldsListed (entries R.device body.now) body.now.extra t place.buffer
        (layout_of r.0)) }
    ensures memory { IsTrue R.device.is_memory → let s = entries R.device body.now in
        let t = list_kind (form_of is_large)
        (field_kind (field_view field.now) (first_ids (all_ids_view ids.now))) in
        Answers result (IsWell s t place.node place.buffer limit)
        (λ r. layout_of r.0 ≡ array_at s (known body.now) t (type_view own.now) place.node
        place.buffer limit) }
{
    let head = read_list_head(alloc, reader, body, place, limit, is_large, scratch)?;
    let (child_id, child_ids) = child_of(field, ids);
    let below = Place {
        node: place.node + 1,
        buffer: place.buffer + 2,
    };
    let (child, after) = read_as(
        alloc,
        &field.data_type,
        &field.data_type,
        child_id,
        child_ids,
        reader,
        body,
        below,
        Some(head.last),
        scratch,
    )?;
    let array = make_list(alloc, own, head, child)?;
    Ok((array, after))
}

// Reads a column of lists of a fixed size.
#[cycle(columns)]
#[tactic(auto, using(crate::proofs::ColumnLevels::columns, ipc_read_flat::proofs::Refusals::child_faults, ipc_read_flat::proofs::Reasons::reasons))]
fn read_fixed_size_list<R: Reads + Seeks>(
    alloc: Global,
    field: &Field,
    size: usize,
    own: &DataType,
    ids: &[IpcField],
    reader: &mut R,
    body: &Body<R>,
    start: Place,
    limit: Option<usize>,
    scratch: &mut Vec<u8>,
) -> Result<(AnyArray, Place), Fault>
    requires lies { physical (type_view own.now) ≡ FixedSizeList }
    requires named { list_size (type_view own.now) ≡ size }
    requires fields { child_fields (type_view own.now) ≡ more_fields (field_view field.now) no_fields }
    requires room { let t = fixed_list_kind size (field_kind (field_view field.now) (first_ids (all_ids_view ids.now))) in HasRoom body.now start (nodes t) (buffers body.now.extra t) }
    requires stands { KeepsBytes R.device reader.old body.now }
    ensures only { IfErr result (λ e. OwnFault e (IsColumnFault e)) }
    ensures tells { IfErr result
        (λ e. OwnFault e (TellsEntries R.device.is_memory (entries R.device body.now) e)) }
    ensures step { let t = fixed_list_kind size
        (field_kind (field_view field.now) (first_ids (all_ids_view ids.now))) in
        Step R.device body.now
        (listed_in (entries R.device body.now) body.now.extra t start.buffer) reader.old
        result reader.new }
    ensures next { IfOk result (λ r. IsBehind body.now.extra (fixed_list_kind size (field_kind (field_view field.now) (first_ids (all_ids_view ids.now)))) start r.1) }
    ensures held { let t = fixed_list_kind size
        (field_kind (field_view field.now) (first_ids (all_ids_view ids.now))) in
        IfOk result (λ r. HoldsListed (entries R.device body.now) body.now.extra t start.buffer
        (layout_of r.0)) }
    ensures memory { IsTrue R.device.is_memory → let s = entries R.device body.now in
        let t = fixed_list_kind size
        (field_kind (field_view field.now) (first_ids (all_ids_view ids.now))) in
        Answers result (IsWell s t start.node start.buffer limit)
        (λ r. layout_of r.0 ≡ array_at s (known body.now) t (type_view own.now) start.node
        start.buffer limit) }
{
    if size == 0 {
        return Err(Fault::OutOfSpec(OutOfSpecKind::InvalidDataType));
    }
    let head = read_head(alloc, reader, body, start, limit)?;
    let (child_id, child_ids) = child_of(field, ids);
    let below = Place {
        node: start.node + 1,
        buffer: start.buffer + 1,
    };
    let most = times_limit(limit, size);
    let (child, after) = read_as(
        alloc,
        &field.data_type,
        &field.data_type,
        child_id,
        child_ids,
        reader,
        body,
        below,
        most,
        scratch,
    )?;
    let array = make_fixed_size_list(alloc, own, size, head, child)?;
    Ok((array, after))
}

// Reads a column of maps.
#[cycle(columns)]
#[tactic(auto, using(crate::proofs::ColumnLevels::columns, ipc_read_flat::proofs::Refusals::child_faults, ipc_read_flat::proofs::Reasons::reasons))]
fn read_map<R: Reads + Seeks>(
    alloc: Global,
    field: &Field,
    own: &DataType,
    ids: &[IpcField],
    reader: &mut R,
    body: &Body<R>,
    start: Place,
    limit: Option<usize>,
    scratch: &mut Vec<u8>,
) -> Result<(AnyArray, Place), Fault>
    requires lies { physical (type_view own.now) ≡ Map }
    requires fields { child_fields (type_view own.now) ≡ more_fields (field_view field.now) no_fields }
    requires room { let t = map_kind (field_kind (field_view field.now) (first_ids (all_ids_view ids.now))) in HasRoom body.now start (nodes t) (buffers body.now.extra t) }
    requires stands { KeepsBytes R.device reader.old body.now }
    ensures only { IfErr result (λ e. OwnFault e (IsColumnFault e)) }
    ensures tells { IfErr result
        (λ e. OwnFault e (TellsEntries R.device.is_memory (entries R.device body.now) e)) }
    ensures step { let t = map_kind
        (field_kind (field_view field.now) (first_ids (all_ids_view ids.now))) in
        Step R.device body.now
        (listed_in (entries R.device body.now) body.now.extra t start.buffer) reader.old
        result reader.new }
    ensures next { IfOk result (λ r. IsBehind body.now.extra (map_kind (field_kind (field_view field.now) (first_ids (all_ids_view ids.now)))) start r.1) }
    ensures held { let t = map_kind
        (field_kind (field_view field.now) (first_ids (all_ids_view ids.now))) in
        IfOk result (λ r. HoldsListed (entries R.device body.now) body.now.extra t start.buffer
        (layout_of r.0)) }
    ensures memory { IsTrue R.device.is_memory → let s = entries R.device body.now in
        let t = map_kind (field_kind (field_view field.now) (first_ids (all_ids_view ids.now))) in
        Answers result (IsWell s t start.node start.buffer limit)
        (λ r. layout_of r.0 ≡ array_at s (known body.now) t (type_view own.now) start.node
        start.buffer limit) }
{
    let head = read_map_head(alloc, reader, body, start, limit, scratch)?;
    let (child_id, child_ids) = child_of(field, ids);
    let below = Place {
        node: start.node + 1,
        buffer: start.buffer + 2,
    };
    let most = Some(head.last);
    let (child, after) = read_as(
        alloc,
        &field.data_type,
        &field.data_type,
        child_id,
        child_ids,
        reader,
        body,
        below,
        most,
        scratch,
    )?;
    let array = make_map(alloc, own, head, child)?;
    Ok((array, after))
}

// Reads a column of structs.
#[cycle(columns)]
#[tactic(auto, using(crate::proofs::ColumnLevels::columns, ipc_read_flat::proofs::Refusals::child_faults, ipc_read_flat::proofs::Reasons::reasons))]
fn read_struct<R: Reads + Seeks>(
    alloc: Global,
    fields: &[Field],
    own: &DataType,
    ids: &[IpcField],
    reader: &mut R,
    body: &Body<R>,
    place: Place,
    limit: Option<usize>,
    scratch: &mut Vec<u8>,
) -> Result<(AnyArray, Place), Fault>
    requires lies { physical (type_view own.now) ≡ Struct }
    requires fields { child_fields (type_view own.now) ≡ fields_view fields.now }
    requires room { let t = struct_kind (kinds_of (fields_view fields.now) (all_ids_view ids.now)) in HasRoom body.now place (nodes t) (buffers body.now.extra t) }
    requires stands { KeepsBytes R.device reader.old body.now }
    ensures only { IfErr result (λ e. OwnFault e (IsColumnFault e)) }
    ensures tells { IfErr result
        (λ e. OwnFault e (TellsEntries R.device.is_memory (entries R.device body.now) e)) }
    ensures step { let t = struct_kind (kinds_of (fields_view fields.now) (all_ids_view ids.now)) in
        Step R.device body.now
        (listed_in (entries R.device body.now) body.now.extra t place.buffer) reader.old
        result reader.new }
    ensures next { IfOk result (λ r. IsBehind body.now.extra (struct_kind (kinds_of (fields_view fields.now) (all_ids_view ids.now))) place r.1) }
    ensures held { let t = struct_kind (kinds_of (fields_view fields.now) (all_ids_view ids.now)) in
        IfOk result (λ r. HoldsListed (entries R.device body.now) body.now.extra t place.buffer
        (layout_of r.0)) }
    ensures memory { IsTrue R.device.is_memory → let s = entries R.device body.now in
        let t = struct_kind (kinds_of (fields_view fields.now) (all_ids_view ids.now)) in
        Answers result (IsWell s t place.node place.buffer limit)
        (λ r. layout_of r.0 ≡ array_at s (known body.now) t (type_view own.now) place.node
        place.buffer limit) }
{
    let head = read_head(alloc, reader, body, place, limit)?;
    let below = Place {
        node: place.node + 1,
        buffer: place.buffer + 1,
    };
    let (columns, after) = read_fields(
        alloc, fields, ids, reader, body, below, limit, head.rows, scratch,
    )?;
    let array = make_struct(own, head, columns)?;
    Ok((array, after))
}

// Reads the columns of some fields, each of so many rows.
#[cycle(columns)]
#[tactic(auto, using(crate::proofs::ColumnLevels::columns, ipc_read_flat::proofs::Refusals::child_faults, ipc_read_flat::proofs::Reasons::reasons))]
fn read_fields<R: Reads + Seeks>(
    alloc: Global,
    fields: &[Field],
    ids: &[IpcField],
    reader: &mut R,
    body: &Body<R>,
    start: Place,
    limit: Option<usize>,
    rows: usize,
    scratch: &mut Vec<u8>,
) -> Result<(Vec<AnyArray>, Place), Fault>
    requires room { let ts = kinds_of (fields_view fields.now) (all_ids_view ids.now) in HasRoom body.now start (all_nodes ts) (all_buffers body.now.extra ts) }
    requires stands { KeepsBytes R.device reader.old body.now }
    ensures only { IfErr result (λ e. OwnFault e (IsColumnFault e)) }
    ensures tells { IfErr result
        (λ e. OwnFault e (TellsEntries R.device.is_memory (entries R.device body.now) e)) }
    ensures step { let ts = kinds_of (fields_view fields.now) (all_ids_view ids.now) in
        Step R.device body.now
        (all_listed (entries R.device body.now) body.now.extra ts start.buffer) reader.old
        result reader.new }
    ensures next { IfOk result (λ r. AllFollow body.now.extra (kinds_of (fields_view fields.now) (all_ids_view ids.now)) start r.1) }
    ensures held { let ts = kinds_of (fields_view fields.now) (all_ids_view ids.now) in
        IfOk result (λ r. HoldAllListed (entries R.device body.now) body.now.extra ts start.buffer
        (layouts (map layout_of r.0.items))) }
    ensures memory { IsTrue R.device.is_memory → let s = entries R.device body.now in
        let ts = kinds_of (fields_view fields.now) (all_ids_view ids.now) in
        Answers result (AllHaveRows s ts start.node start.buffer limit rows)
        (λ r. layouts (map layout_of r.0.items) ≡ arrays_at s (known body.now) ts
        (fields_view fields.now) start.node start.buffer limit) }
{
    let mut columns = Vec::new(alloc);
    let mut place = start;
    let mut left = ids;
    for field in fields {
        let (child_id, child_ids) = child_of(field, left);
        let (column, next) = read_as(
            alloc,
            &field.data_type,
            &field.data_type,
            child_id,
            child_ids,
            reader,
            body,
            place,
            limit,
            scratch,
        )?;
        if column.len() != rows {
            return Err(Fault::Lower(Error::OutOfSpec(Rule::ChildLength)));
        }
        columns.push(column)?;
        place = next;
        left = others_of(left);
    }
    Ok((columns, place))
}

// Reads a column of unions. The type ids, and the offsets of a dense union, precede the children.
#[cycle(columns)]
#[tactic(auto, using(crate::proofs::ColumnLevels::columns, ipc_read_flat::proofs::Refusals::child_faults, ipc_read_flat::proofs::Reasons::reasons, crate::proofs::UnionReads::union_types_first))]
fn read_union<R: Reads + Seeks>(
    alloc: Global,
    fields: &[Field],
    type_ids: &Option<Vec<i32>>,
    mode: UnionMode,
    own: &DataType,
    ids: &[IpcField],
    reader: &mut R,
    body: &Body<R>,
    place: Place,
    limit: Option<usize>,
    scratch: &mut Vec<u8>,
) -> Result<(AnyArray, Place), Fault>
    requires lies { physical (type_view own.now) ≡ Union }
    requires fields { child_fields (type_view own.now) ≡ fields_view fields.now }
    requires ids_named { union_ids (type_view own.now) ≡ ids_of type_ids.now }
    requires mode_named { union_mode (type_view own.now) ≡ mode }
    requires room { let t = union_kind mode (ids_of type_ids.now) (kinds_of (fields_view fields.now) (all_ids_view ids.now)) in HasRoom body.now place (nodes t) (buffers body.now.extra t) }
    requires stands { KeepsBytes R.device reader.old body.now }
    ensures only { IfErr result (λ e. OwnFault e (IsColumnFault e)) }
    ensures tells { IfErr result
        (λ e. OwnFault e (TellsEntries R.device.is_memory (entries R.device body.now) e)) }
    ensures step { let t = union_kind mode (ids_of type_ids.now)
        (kinds_of (fields_view fields.now) (all_ids_view ids.now)) in
        Step R.device body.now
        (listed_in (entries R.device body.now) body.now.extra t place.buffer) reader.old
        result reader.new }
    ensures next { IfOk result (λ r. IsBehind body.now.extra (union_kind mode (ids_of type_ids.now) (kinds_of (fields_view fields.now) (all_ids_view ids.now))) place r.1) }
    ensures held { let t = union_kind mode (ids_of type_ids.now)
        (kinds_of (fields_view fields.now) (all_ids_view ids.now)) in
        IfOk result (λ r. HoldsListed (entries R.device body.now) body.now.extra t place.buffer
        (layout_of r.0)) }
    ensures memory { IsTrue R.device.is_memory → let s = entries R.device body.now in
        let t = union_kind mode (ids_of type_ids.now)
        (kinds_of (fields_view fields.now) (all_ids_view ids.now)) in
        Answers result (IsWell s t place.node place.buffer limit)
        (λ r. layout_of r.0 ≡ array_at s (known body.now) t (type_view own.now) place.node
        place.buffer limit) }
{
    let types = read_types(alloc, reader, body, place, limit, scratch)?;
    let rows = types.len();
    match mode {
        UnionMode::Sparse => {
            let below = Place {
                node: place.node + 1,
                buffer: place.buffer + body.extra + 1,
            };
            let (columns, after) = read_fields(
                alloc, fields, ids, reader, body, below, limit, rows, scratch,
            )?;
            let array = make_union(own, types, None, columns)?;
            Ok((array, after))
        }
        UnionMode::Dense => {
            let index = place.buffer + body.extra + 1;
            let places = read_places(alloc, reader, body, index, rows, scratch)?;
            let below = Place {
                node: place.node + 1,
                buffer: place.buffer + body.extra + 2,
            };
            let (columns, after) = read_whole_fields(
                alloc, fields, ids, reader, body, below, scratch,
            )?;
            let array = make_union(own, types, Some(places), columns)?;
            Ok((array, after))
        }
    }
}

// Reads the columns of some fields, all rows of each.
#[cycle(columns)]
#[tactic(auto, using(crate::proofs::ColumnLevels::columns, ipc_read_flat::proofs::Refusals::child_faults, ipc_read_flat::proofs::Reasons::reasons))]
fn read_whole_fields<R: Reads + Seeks>(
    alloc: Global,
    fields: &[Field],
    ids: &[IpcField],
    reader: &mut R,
    body: &Body<R>,
    start: Place,
    scratch: &mut Vec<u8>,
) -> Result<(Vec<AnyArray>, Place), Fault>
    requires room { let ts = kinds_of (fields_view fields.now) (all_ids_view ids.now) in HasRoom body.now start (all_nodes ts) (all_buffers body.now.extra ts) }
    requires stands { KeepsBytes R.device reader.old body.now }
    ensures only { IfErr result (λ e. OwnFault e (IsColumnFault e)) }
    ensures tells { IfErr result
        (λ e. OwnFault e (TellsEntries R.device.is_memory (entries R.device body.now) e)) }
    ensures step { let ts = kinds_of (fields_view fields.now) (all_ids_view ids.now) in
        Step R.device body.now
        (all_listed (entries R.device body.now) body.now.extra ts start.buffer) reader.old
        result reader.new }
    ensures next { IfOk result (λ r. AllFollow body.now.extra (kinds_of (fields_view fields.now) (all_ids_view ids.now)) start r.1) }
    ensures held { let ts = kinds_of (fields_view fields.now) (all_ids_view ids.now) in
        IfOk result (λ r. HoldAllListed (entries R.device body.now) body.now.extra ts start.buffer
        (layouts (map layout_of r.0.items))) }
    ensures memory { IsTrue R.device.is_memory → let s = entries R.device body.now in
        let ts = kinds_of (fields_view fields.now) (all_ids_view ids.now) in
        Answers result (AllWell s ts start.node start.buffer)
        (λ r. layouts (map layout_of r.0.items) ≡ arrays_at s (known body.now) ts
        (fields_view fields.now) start.node start.buffer None) }
{
    let mut columns = Vec::new(alloc);
    let mut place = start;
    let mut others = ids;
    for field in fields {
        let (child_id, child_ids) = child_of(field, others);
        let (column, after) = read_as(
            alloc,
            &field.data_type,
            &field.data_type,
            child_id,
            child_ids,
            reader,
            body,
            place,
            None,
            scratch,
        )?;
        columns.push(column)?;
        place = after;
        others = others_of(others);
    }
    Ok((columns, place))
}

/// Reads a column of any type, and returns the position after it.
///
/// - `id`, `ids`: the dictionary ids of the field with this type, and of its child fields.
/// - `place`: the position of the column. The entries that its type needs must be present.
/// - `limit`: reads at most this many rows; None reads all.
/// - `scratch`: a block that longer buffers of numbers are read through, unless the device lends
///   their bytes. It has at most 65,536 bytes afterwards.
///
/// See "RecordBatch message" in the Arrow columnar format: nodes and buffers are in pre-order. The
/// array retains at most the encoded length of the column's buffers, plus one offset for each empty
/// offset buffer. Dictionary values aren't counted, as they are shared.
///
/// # Errors
/// - `Float`: the column has floats.
/// - `InvalidId`: no dictionary was read under the id of a column of keys.
/// - `InvalidIdDataType`: that dictionary has values of another type.
/// - `NegativeFooterLength`: a length, or the offset of a buffer in use, is negative.
/// - `InvalidBuffer`: a buffer in use is too short; `InvalidBitmap`: one of bits is.
/// - `Ended`: the device is too short.
/// - `InvalidDataType`: bytes or lists have the fixed size 0.
/// - `FallingOffset`, `Utf8`, `NoChild`, `ChildLength`, `UnionType`, `DictionaryKey` and others of
///   [`lower::error::Rule`]: the parts break a rule of their array.
/// - `Io`, `Memory`.
#[inline(always)]
#[tactic(auto, using(crate::proofs::ColumnLevels::same_stored))]
pub fn read<R: Reads + Seeks>(
    alloc: Global,
    data_type: &DataType,
    id: Option<i64>,
    ids: &[IpcField],
    reader: &mut R,
    body: &Body<R>,
    place: Place,
    limit: Option<usize>,
    scratch: &mut Vec<u8>,
) -> Result<(AnyArray, Place), Fault>
    requires room { let t = kind_of (type_view data_type.now) id (all_ids_view ids.now) in HasRoom body.now place (nodes t) (buffers body.now.extra t) }
    requires stands { KeepsBytes R.device reader.old body.now }
    ensures only { let t = kind_of (type_view data_type.now) id (all_ids_view ids.now) in IfErr result (λ e. OwnFault e (IsFaultOf t e)) }
    ensures tells { IfErr result
        (λ e. OwnFault e (TellsEntries R.device.is_memory (entries R.device body.now) e)) }
    ensures step { let t = kind_of (type_view data_type.now) id (all_ids_view ids.now) in
        Step R.device body.now
        (listed_in (entries R.device body.now) body.now.extra t place.buffer) reader.old
        result reader.new }
    ensures next { IfOk result (λ r. IsBehind body.now.extra (kind_of (type_view data_type.now) id (all_ids_view ids.now)) place r.1) }
    ensures held { let t = kind_of (type_view data_type.now) id (all_ids_view ids.now) in
        IfOk result (λ r. HoldsListed (entries R.device body.now) body.now.extra t place.buffer
        (layout_of r.0)) }
    ensures memory { IsTrue R.device.is_memory → let s = entries R.device body.now in
        let t = kind_of (type_view data_type.now) id (all_ids_view ids.now) in
        Answers result (IsWell s t place.node place.buffer limit)
        (λ r. IsColumn s (known body.now) t (type_view data_type.now) place.node place.buffer limit
        (layout_of r.0)) }
    ensures scratch { KeepsScratch scratch.old.items scratch.new.items }
{
    let column = read_as(
        alloc, data_type, data_type, id, ids, reader, body, place, limit, scratch,
    );
    // for the proof: no buffer lengthens it further
    scratch.truncate(BLOCK);
    column
}
