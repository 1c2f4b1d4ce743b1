//! Reads the type ids and offsets of unions, and makes their arrays.
ghost use Rattle.std.specs.Prelude.{◌≡◌, ◌+◌, ◌≤◌, ◌*◌, ◌<◌, length, map, IsTrue, IfOk, IfErr};
ghost use Rattle.ipc_devices.specs.Faults.{OnIo, OwnFault, Answers};
ghost use Rattle.lower.specs.TypeViews.{type_view};
ghost use Rattle.lower_types.specs.declared.PrimitiveType.TheVariants.{Int8, Int32};
ghost use Rattle.lower_validation.specs.Ids.{union_ids};
ghost use Rattle.lower_arrays.specs.Layouts.{layouts};
ghost use Rattle.lower_arrays.specs.Choices.{ChoicesFit};
ghost use Rattle.lower_arrays.specs.Unions.{union_seen, union_layout};
ghost use Rattle.lower_arrays.specs.AnyLayouts.{layout_of};
ghost use Rattle.ipc_model.specs.Entries.{IsSize, node, listed, Need, rows};
ghost use Rattle.ipc_model.specs.ReadArrays.{integers_of};
ghost use Rattle.ipc_read_flat.specs.Bodies.{KeepsBytes, HasRoom, entries};
ghost use Rattle.ipc_read_flat.specs.Refusals.{IsBufferFault, IsRuleFault, TellsEntries};
ghost use Rattle.ipc_read_flat.specs.Steps.{Step};

use ipc_devices::fault::Fault;
use ipc_devices::{Reads, Seeks};
use ipc_read_flat::read::body::{Body, Place};
use ipc_read_flat::read::read_basic::{fetch_numbers, read_node};
use lower::buffer::Buffer;
use lower::datatypes::DataType;
use lower_arrays::array::{AnyArray, UnionArray};
use std::alloc::Global;

// The first `count` numbers of 8 bits of the buffer at `index`.
fn fetch_types<R: Reads + Seeks>(
    alloc: Global,
    reader: &mut R,
    body: &Body<R>,
    index: usize,
    count: usize,
    scratch: &mut Vec<u8>,
) -> Result<Buffer<i8>, Fault>
    requires inside { index < length body.now.buffers }
    requires stands { KeepsBytes R.device reader.old body.now }
    ensures only { IfErr result (λ e. OwnFault e (IsBufferFault e)) }
    ensures tells { IfErr result
        (λ e. OwnFault e (TellsEntries R.device.is_memory (entries R.device body.now) e)) }
    ensures step { Step R.device
        body.now (listed (entries R.device body.now) index) reader.old result reader.new }
    ensures count { IfOk result (λ types. length types ≡ count) }
    ensures held { IfOk result
        (λ types. length types ≤ listed (entries R.device body.now) index) }
    ensures memory { IsTrue R.device.is_memory → let s = entries R.device body.now in
        Answers result (Need s index count) (λ types. types ≡ integers_of s index Int8 count) }
{
    let types = fetch_numbers::<i8, R>(alloc, reader, body, index, count, scratch)?;
    Ok(Buffer::new(types)?)
}

/// Reads the offsets of a dense union's first `count` slots from the buffer at `index`.
///
/// See "Dense Union" in the Arrow columnar format. The errors are those of [`fetch_numbers`].
pub fn read_places<R: Reads + Seeks>(
    alloc: Global,
    reader: &mut R,
    body: &Body<R>,
    index: usize,
    count: usize,
    scratch: &mut Vec<u8>,
) -> Result<Buffer<i32>, Fault>
    requires inside { index < length body.now.buffers }
    requires stands { KeepsBytes R.device reader.old body.now }
    ensures only { IfErr result (λ e. OwnFault e (IsBufferFault e)) }
    ensures tells { IfErr result
        (λ e. OwnFault e (TellsEntries R.device.is_memory (entries R.device body.now) e)) }
    ensures step { Step R.device
        body.now (listed (entries R.device body.now) index) reader.old result reader.new }
    ensures count { IfOk result (λ places. length places ≡ count) }
    ensures held { IfOk result
        (λ places. 4 * length places ≤ listed (entries R.device body.now) index) }
    ensures memory { IsTrue R.device.is_memory → let s = entries R.device body.now in
        Answers result (Need s index (4 * count))
        (λ places. places ≡ integers_of s index Int32 count) }
{
    let places = fetch_numbers::<i32, R>(alloc, reader, body, index, count, scratch)?;
    Ok(Buffer::new(places)?)
}

/// Reads the node and the type ids of a union, one for each row.
///
/// The node's null count isn't used. Before version 5 another buffer precedes the type ids, which
/// is skipped. See "Union Layout" in the Arrow columnar format.
///
/// # Errors
/// - `NegativeFooterLength`: the node's length, or the offset of the type ids, is negative.
/// - `InvalidBuffer`: the type ids are too short.
/// - `Ended`: the device is too short.
/// - `Io`, `Memory`.
pub fn read_types<R: Reads + Seeks>(
    alloc: Global,
    reader: &mut R,
    body: &Body<R>,
    place: Place,
    limit: Option<usize>,
    scratch: &mut Vec<u8>,
) -> Result<Buffer<i8>, Fault>
    requires room { HasRoom body.now place 1 (1 + body.now.extra) }
    requires stands { KeepsBytes R.device reader.old body.now }
    ensures only { IfErr result (λ e. OwnFault e (IsBufferFault e)) }
    ensures tells { IfErr result
        (λ e. OwnFault e (TellsEntries R.device.is_memory (entries R.device body.now) e)) }
    ensures step { Step R.device
        body.now (listed (entries R.device body.now) (place.buffer + body.now.extra))
        reader.old result reader.new }
    ensures held { IfOk result (λ types. length types
        ≤ listed (entries R.device body.now) (place.buffer + body.now.extra)) }
    ensures memory { IsTrue R.device.is_memory → let s = entries R.device body.now in
        let k = rows s place.node limit in
        Answers result (IsSize (node s place.node).length × Need s (place.buffer + body.now.extra)
        k)
        (λ types. (types ≡ integers_of s (place.buffer + body.now.extra) Int8 k) ×
        (length types ≡ k)) }
{
    let node = read_node(body, place.node, limit)?;
    let index = place.buffer + body.extra;
    fetch_types(alloc, reader, body, index, node.rows, scratch)
}

/// Makes the array of a union of some columns.
///
/// See "Union Layout" in the Arrow columnar format.
///
/// # Errors
/// - `PhysicalType`: the type isn't a union.
/// - `UnionChildren`: there are no columns, or more than 127.
/// - `UnionIds`: the ids in the type aren't as many as the columns, distinct and from 0 to 126.
/// - `UnionType`: the type id of a slot names no column.
/// - `ChildCount`, `ChildType`: the columns don't have the number and the types of the fields.
/// - `UnionOffsets`: a dense union doesn't have an offset for each slot, or a sparse one has
///   offsets.
/// - `ChildLength`: a column of a sparse union doesn't have as many slots as the union.
/// - `UnionOffset`: an offset is negative, or not less than the number of its column's slots.
/// - `Memory`.
#[tactic(auto, using(crate::proofs::UnionRules::union_rules))]
pub fn make_union(
    own: &DataType,
    types: Buffer<i8>,
    offsets: Option<Buffer<i32>>,
    columns: Vec<AnyArray>,
) -> Result<AnyArray, Fault>
    ensures own { OnIo result ⊥ }
    ensures only { IfErr result (λ e. OwnFault e (IsRuleFault e)) }
    ensures exact { let u = type_view own.now in let cs = map layout_of columns.items in
        Answers result (ChoicesFit u (union_ids u) types offsets (layouts cs))
        (λ array. layout_of array ≡ union_layout (union_seen u types cs offsets)) }
{
    let own = own.clone()?;
    let array = UnionArray::try_new(own, types, columns, offsets)?;
    Ok(AnyArray::Union(array))
}
