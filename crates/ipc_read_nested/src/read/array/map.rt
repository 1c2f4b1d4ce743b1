//! Reads the node, validity and offsets of maps, and makes their arrays.
ghost use Rattle.std.specs.Prelude.{◌≡◌, [], ◌∷◌, ◌+◌, ◌≤◌, IsTrue, IfOk, IfErr};
ghost use Rattle.ipc_devices.specs.Faults.{OnIo, OwnFault, Answers};
ghost use Rattle.lower.specs.TypeViews.{type_view};
ghost use Rattle.lower.specs.Physical.{physical};
ghost use Rattle.lower.specs.declared.datatypes.physical_type.PhysicalType.TheVariants.{Map};
ghost use Rattle.lower_validation.specs.Fields.{child_fields, FieldTypes, IsPair};
ghost use Rattle.lower_arrays.specs.Layouts.{len_of, type_of};
ghost use Rattle.lower_arrays.specs.Maps.{map_seen, map_layout};
ghost use Rattle.lower_arrays.specs.AnyLayouts.{layout_of};
ghost use Rattle.ipc_model.specs.Kinds.{offsets_32, offset_width};
ghost use Rattle.ipc_model.specs.Entries.{listed, rows};
ghost use Rattle.ipc_model.specs.Columns.{Begins, Offsets};
ghost use Rattle.ipc_read_flat.specs.Bodies.{KeepsBytes, HasRoom, entries};
ghost use Rattle.lower_arrays.specs.Held.{validity_held};
ghost use Rattle.lower_types.specs.declared.PrimitiveType.TheVariants.{Int32};
ghost use Rattle.ipc_read_flat.specs.HeldListed.{HoldsOffsets};
ghost use Rattle.ipc_read_nested.specs.ListHeads.{AreLists, AreListsAt};
ghost use Rattle.ipc_read_flat.specs.Refusals.{IsColumnFault, IsRuleFault, TellsEntries};
ghost use Rattle.ipc_read_flat.specs.Steps.{Step};

use ipc_devices::fault::Fault;
use ipc_devices::{Reads, Seeks};
use ipc_read_flat::read::body::{Body, Place};
use ipc_read_flat::read::read_basic::{read_head, read_offsets};
use lower::bitmap::Bitmap;
use lower::datatypes::DataType;
use lower::error::{Error, Rule};
use lower::offset::OffsetsBuffer;
use lower_arrays::array::{AnyArray, MapArray};
use std::alloc::Global;

/// A column of maps without its child.
#[derive(Drop)]
pub struct MapHead {
    /// Which maps aren't null; None if all aren't.
    pub validity: Option<Bitmap>,
    /// The offsets of the maps in the child.
    pub offsets: OffsetsBuffer<i32>,
    /// The last offset: how many slots the child must have.
    pub last: usize,
}

/// Reads a column of maps without its child: a node, a validity and offsets.
///
/// The offsets have 32 bits. See "Map Layout" in the Arrow columnar format.
///
/// # Errors
/// - `NegativeFooterLength`: the node's length, or the offset of a buffer in use, is negative.
/// - `InvalidBuffer`: a buffer in use is too short; `InvalidBitmap`: the validity is.
/// - `Ended`: the device is too short.
/// - `FallingOffset`: an offset is negative, or less than the one before it.
/// - `Io`, `Memory`.
#[tactic(auto, using(ipc_read_flat::proofs::Refusals::buffer_column))]
pub fn read_map_head<R: Reads + Seeks>(
    alloc: Global,
    reader: &mut R,
    body: &Body<R>,
    place: Place,
    limit: Option<usize>,
    scratch: &mut Vec<u8>,
) -> Result<MapHead, Fault>
    requires room { HasRoom body.now place 1 2 }
    requires stands { KeepsBytes R.device reader.old body.now }
    ensures only { IfErr result (λ e. OwnFault e (IsColumnFault e)) }
    ensures tells { IfErr result
        (λ e. OwnFault e (TellsEntries R.device.is_memory (entries R.device body.now) e)) }
    ensures step { let s = entries R.device body.now in
        Step R.device body.now
        (listed s place.buffer + listed s (place.buffer + 1)) reader.old result reader.new }
    ensures made { IfOk result (λ h. AreLists h.offsets h.validity h.last) }
    ensures held { let s = entries R.device body.now in IfOk result
        (λ h. (validity_held h.validity ≤ listed s place.buffer)
        × HoldsOffsets s offsets_32 (place.buffer + 1) Int32 h.offsets) }
    ensures memory { IsTrue R.device.is_memory → let s = entries R.device body.now in
        let k = rows s place.node limit in
        Answers result (Begins s place.node place.buffer k × Offsets s (place.buffer + 1)
        (offset_width offsets_32) k)
        (λ h. AreListsAt s offsets_32 place.node place.buffer k h.offsets h.validity h.last) }
{
    let head = read_head(alloc, reader, body, place, limit)?;
    let index = place.buffer + 1;
    let offsets = read_offsets::<i32, R>(alloc, reader, body, index, head.rows, scratch)?;
    let last = offsets.last();
    Ok(MapHead {
        validity: head.validity,
        offsets,
        last,
    })
}

/// Makes the array of maps.
///
/// # Errors
/// - `ChildLength`: the child doesn't have as many slots as the last offset says.
/// - `MapChild`: the child's type isn't a struct of two fields.
/// - `ChildType`: the child doesn't have the type of the field.
/// - `Memory`.
#[tactic(auto, using(crate::proofs::MapReads::map_rules))]
pub fn make_map(
    alloc: Global,
    own: &DataType,
    head: MapHead,
    child: AnyArray,
) -> Result<AnyArray, Fault>
    requires lies { physical (type_view own.now) ≡ Map }
    requires made { AreLists head.offsets head.validity head.last }
    ensures own { OnIo result ⊥ }
    ensures only { IfErr result (λ e. OwnFault e (IsRuleFault e)) }
    ensures exact { let u = type_view own.now in let c = layout_of child in
        Answers result (IsPair (type_of c) × FieldTypes (child_fields u) (type_of c ∷ []) × (len_of c ≡ head.last))
        (λ array. layout_of array ≡ map_layout (map_seen u head.offsets c head.validity)) }
{
    if child.len() != head.last {
        return Err(Fault::Lower(Error::OutOfSpec(Rule::ChildLength)));
    }
    let own = own.clone()?;
    let child = Box::new(alloc, child)?;
    let array = MapArray::try_new(own, head.offsets, child, head.validity)?;
    Ok(AnyArray::Map(array))
}
