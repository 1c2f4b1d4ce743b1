//! Reads the node, validity and offsets of lists, and makes their arrays.
ghost use Rattle.std.specs.Prelude.{◌≡◌, [], ◌∷◌, ◌+◌, ◌≤◌, IsTrue, IfOk, IfErr};
ghost use Rattle.ipc_devices.specs.Faults.{OnIo, OwnFault, Answers};
ghost use Rattle.lower.specs.TypeViews.{type_view};
ghost use Rattle.lower.specs.Physical.{physical};
ghost use Rattle.lower_validation.specs.AnyOffsets.{list_places, list_width};
ghost use Rattle.lower_validation.specs.ListTypes.{list_with};
ghost use Rattle.lower_validation.specs.Fields.{child_fields, FieldTypes};
ghost use Rattle.lower_arrays.specs.Layouts.{len_of, type_of};
ghost use Rattle.lower_arrays.specs.Lists.{list_seen, list_layout};
ghost use Rattle.lower_arrays.specs.AnyLayouts.{layout_of};
ghost use Rattle.ipc_model.specs.Kinds.{offset_width};
ghost use Rattle.ipc_model.specs.Entries.{listed, rows};
ghost use Rattle.ipc_model.specs.Columns.{Begins, Offsets};
ghost use Rattle.ipc_model.specs.ReadArrays.{offset_type};
ghost use Rattle.ipc_read_flat.specs.Bodies.{KeepsBytes, HasRoom, entries};
ghost use Rattle.lower_arrays.specs.Held.{validity_held};
ghost use Rattle.ipc_read_flat.specs.HeldListed.{HoldsOffsets};
ghost use Rattle.ipc_read_flat.specs.Kinds.{form_of};
ghost use Rattle.ipc_read_nested.specs.ListHeads.{AreLists, AreListsAt};
ghost use Rattle.ipc_read_flat.specs.Refusals.{IsColumnFault, IsRuleFault, TellsEntries};
ghost use Rattle.ipc_read_flat.specs.Steps.{Step};

use ipc_devices::fault::Fault;
use ipc_devices::{Reads, Seeks};
use ipc_read_flat::read::body::{Body, Place};
use ipc_read_flat::read::read_basic::{read_head, read_offsets};
use lower::bitmap::Bitmap;
use lower::datatypes::DataType;
use lower::error::{Error, Rule};
use lower_arrays::array::{AnyArray, ListArray, ListOffsets};
use std::alloc::Global;

/// A column of lists without its child.
#[derive(Drop)]
pub struct ListHead {
    /// Which lists aren't null; None if all aren't.
    pub validity: Option<Bitmap>,
    /// The offsets of the lists in the child.
    pub offsets: ListOffsets,
    /// The last offset: how many slots the child must have.
    pub last: usize,
}

/// Reads a column of lists without its child: a node, a validity and offsets.
///
/// The offsets have 64 bits if `is_large`, else 32. See "Variable-size List Layout" in the Arrow
/// columnar format.
///
/// # Errors
/// - `NegativeFooterLength`: the node's length, or the offset of a buffer in use, is negative.
/// - `InvalidBuffer`: a buffer in use is too short; `InvalidBitmap`: the validity is.
/// - `Ended`: the device is too short.
/// - `FallingOffset`: an offset is negative, or less than the one before it.
/// - `Io`, `Memory`.
#[tactic(auto, using(ipc_read_flat::proofs::Refusals::buffer_column))]
pub fn read_list_head<R: Reads + Seeks>(
    alloc: Global,
    reader: &mut R,
    body: &Body<R>,
    place: Place,
    limit: Option<usize>,
    is_large: bool,
    scratch: &mut Vec<u8>,
) -> Result<ListHead, Fault>
    requires room { HasRoom body.now place 1 2 }
    requires stands { KeepsBytes R.device reader.old body.now }
    ensures only { IfErr result (λ e. OwnFault e (IsColumnFault e)) }
    ensures tells { IfErr result
        (λ e. OwnFault e (TellsEntries R.device.is_memory (entries R.device body.now) e)) }
    ensures step { let s = entries R.device body.now in
        Step R.device body.now
        (listed s place.buffer + listed s (place.buffer + 1)) reader.old result reader.new }
    ensures width { IfOk result (λ h. list_width h.offsets ≡ offset_type (form_of is_large)) }
    ensures made { IfOk result (λ h. AreLists (list_places h.offsets) h.validity h.last) }
    ensures held { let s = entries R.device body.now in IfOk result
        (λ h. (validity_held h.validity ≤ listed s place.buffer)
        × HoldsOffsets s (form_of is_large) (place.buffer + 1) (list_width h.offsets)
        (list_places h.offsets)) }
    ensures memory { IsTrue R.device.is_memory → let s = entries R.device body.now in
        let k = rows s place.node limit in
        Answers result (Begins s place.node place.buffer k × Offsets s (place.buffer + 1)
        (offset_width (form_of is_large)) k)
        (λ h. AreListsAt s (form_of is_large) place.node place.buffer k (list_places h.offsets)
        h.validity h.last) }
{
    let head = read_head(alloc, reader, body, place, limit)?;
    let index = place.buffer + 1;
    if is_large {
        let offsets = read_offsets::<i64, R>(alloc, reader, body, index, head.rows, scratch)?;
        let last = offsets.last();
        return Ok(ListHead {
            validity: head.validity,
            offsets: ListOffsets::Large(offsets),
            last,
        });
    }
    let offsets = read_offsets::<i32, R>(alloc, reader, body, index, head.rows, scratch)?;
    let last = offsets.last();
    Ok(ListHead {
        validity: head.validity,
        offsets: ListOffsets::Small(offsets),
        last,
    })
}

/// Makes the array of lists.
///
/// # Errors
/// - `ChildLength`: the child doesn't have as many slots as the last offset says.
/// - `ChildType`: the child doesn't have the type of the field.
/// - `Memory`.
#[tactic(auto, using(crate::proofs::ListLevels::list_rules))]
pub fn make_list(
    alloc: Global,
    own: &DataType,
    head: ListHead,
    child: AnyArray,
) -> Result<AnyArray, Fault>
    requires lies { physical (type_view own.now) ≡ list_with (list_width head.offsets) }
    requires made { AreLists (list_places head.offsets) head.validity head.last }
    ensures own { OnIo result ⊥ }
    ensures only { IfErr result (λ e. OwnFault e (IsRuleFault e)) }
    ensures exact { let u = type_view own.now in
        Answers result (FieldTypes (child_fields u) (type_of (layout_of child) ∷ []) × (len_of (layout_of child) ≡ head.last))
        (λ array. layout_of array ≡ list_layout (list_seen u (list_width head.offsets) (list_places head.offsets) (layout_of child) head.validity)) }
{
    if child.len() != head.last {
        return Err(Fault::Lower(Error::OutOfSpec(Rule::ChildLength)));
    }
    let own = own.clone()?;
    let child = Box::new(alloc, child)?;
    let array = ListArray::try_new(own, head.offsets, child, head.validity)?;
    Ok(array.boxed())
}
