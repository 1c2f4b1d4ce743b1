//! Reads columns of booleans.
ghost use Rattle.std.specs.Prelude.{◌≡◌, ◌+◌, ◌<◌, IsTrue, IfOk, IfErr};
ghost use Rattle.ipc_devices.specs.Faults.{OwnFault, Answers};
ghost use Rattle.lower.specs.TypeViews.{type_view};
ghost use Rattle.lower.specs.Physical.{physical};
ghost use Rattle.lower.specs.declared.datatypes.physical_type.PhysicalType.TheVariants.{Boolean};
ghost use Rattle.lower_arrays.specs.Flat.{boolean_layout};
ghost use Rattle.ipc_model.specs.Kinds.{boolean_kind};
ghost use Rattle.ipc_model.specs.Entries.{listed};
ghost use Rattle.ipc_model.specs.Columns.{IsWell};
ghost use Rattle.ipc_model.specs.ReadArrays.{array_at};
ghost use Rattle.ipc_read_flat.specs.Bodies.{KeepsBytes, HasRoom, entries, known};
ghost use Rattle.ipc_read_flat.specs.HeldListed.{HoldsListed};
ghost use Rattle.ipc_read_flat.specs.Refusals.{IsColumnFault, TellsEntries};
ghost use Rattle.ipc_read_flat.specs.Steps.{Step};

use crate::read::body::{Body, Place};
use crate::read::read_basic::{read_bits, read_head};
use ipc_devices::fault::Fault;
use ipc_devices::{Reads, Seeks};
use lower::datatypes::DataType;
use lower_arrays::array::BooleanArray;
use std::alloc::Global;

/// Reads a column of booleans: a node, a validity, and a bit for each slot.
///
/// `data_type` has this physical type. See "Fixed-size Primitive Layout" in the Arrow columnar
/// format.
///
/// # Errors
/// - `NegativeFooterLength`: the node's length, or the offset of a buffer in use, is negative.
/// - `InvalidBitmap`: a buffer in use is too short.
/// - `Ended`: the device is too short.
/// - `Io`, `Memory`.
#[tactic(auto, using(crate::proofs::Refusals::buffer_column))]
pub fn read_boolean<R: Reads + Seeks>(
    alloc: Global,
    data_type: &DataType,
    reader: &mut R,
    body: &Body<R>,
    place: Place,
    limit: Option<usize>,
) -> Result<BooleanArray, Fault>
    requires lies { physical (type_view data_type.now) ≡ Boolean }
    requires room { HasRoom body.now place 1 2 }
    requires stands { KeepsBytes R.device reader.old body.now }
    ensures only { IfErr result (λ e. OwnFault e (IsColumnFault e)) }
    ensures tells { IfErr result
        (λ e. OwnFault e (TellsEntries R.device.is_memory (entries R.device body.now) e)) }
    ensures step { let s = entries R.device body.now in
        Step R.device body.now
        (listed s place.buffer + listed s (place.buffer + 1)) reader.old result reader.new }
    ensures held { IfOk result
        (λ array. HoldsListed (entries R.device body.now) body.now.extra boolean_kind
        place.buffer (boolean_layout array)) }
    ensures memory { IsTrue R.device.is_memory → let s = entries R.device body.now in
        Answers result (IsWell s boolean_kind place.node place.buffer limit)
        (λ array. boolean_layout array ≡ array_at s (known body.now) boolean_kind
        (type_view data_type.now) place.node place.buffer limit) }
{
    let head = read_head(alloc, reader, body, place, limit)?;
    let bits = read_bits(alloc, reader, body, place.buffer + 1, head.rows)?;
    let data_type = data_type.clone()?;
    Ok(BooleanArray::try_new(data_type, bits, head.validity)?)
}
