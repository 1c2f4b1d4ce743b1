//! Reads columns of bytes of a fixed size.
ghost use Rattle.std.specs.Prelude.{◌≡◌, ◌+◌, ◌<◌, IsTrue, IfOk, IfErr};
ghost use Rattle.ipc_devices.specs.Faults.{OwnFault, Answers};
ghost use Rattle.lower.specs.TypeViews.{type_view};
ghost use Rattle.lower.specs.Physical.{physical};
ghost use Rattle.lower.specs.declared.datatypes.physical_type.PhysicalType.TheVariants.{FixedSizeBinary};
ghost use Rattle.lower_flat_arrays.specs.FixedBinaries.{byte_size};
ghost use Rattle.lower_arrays.specs.Flat.{fixed_layout};
ghost use Rattle.ipc_model.specs.Kinds.{fixed_binary_kind};
ghost use Rattle.ipc_model.specs.Entries.{listed};
ghost use Rattle.ipc_model.specs.Columns.{IsWell};
ghost use Rattle.ipc_model.specs.ReadArrays.{array_at};
ghost use Rattle.ipc_read_flat.specs.Bodies.{KeepsBytes, HasRoom, entries, known};
ghost use Rattle.ipc_read_flat.specs.HeldListed.{HoldsListed};
ghost use Rattle.ipc_read_flat.specs.Refusals.{IsColumnFault, TellsEntries};
ghost use Rattle.ipc_read_flat.specs.Steps.{Step};

use crate::read::body::{Body, Place};
use crate::read::read_basic::{fetch_pieces, read_head};
use ipc_devices::fault::{Fault, OutOfSpecKind};
use ipc_devices::{Reads, Seeks};
use lower::datatypes::DataType;
use lower_arrays::array::FixedSizeBinaryArray;
use std::alloc::Global;

/// How many bytes a slot of this type has; 0 unless it is `FixedSizeBinary`.
pub fn get_size(data_type: &DataType) -> usize
    ensures { result ≡ byte_size (type_view data_type.now) }
{
    match data_type.to_logical_type() {
        DataType::FixedSizeBinary(size) => *size,
        _ => 0,
    }
}

/// Reads a column of bytes: a node, a validity, and `size` bytes for each slot.
///
/// `data_type` has this physical type and names this size. See "Fixed-size Primitive Layout" in the
/// Arrow columnar format.
///
/// # Errors
/// - `InvalidDataType`: the size is 0.
/// - `NegativeFooterLength`: the node's length, or the offset of a buffer in use, is negative.
/// - `InvalidBuffer`: a buffer in use is too short; `InvalidBitmap`: the validity is.
/// - `Ended`: the device is too short.
/// - `Io`, `Memory`.
#[tactic(auto, using(crate::proofs::Refusals::buffer_column))]
pub fn read_fixed_size_binary<R: Reads + Seeks>(
    alloc: Global,
    data_type: &DataType,
    size: usize,
    reader: &mut R,
    body: &Body<R>,
    place: Place,
    limit: Option<usize>,
) -> Result<FixedSizeBinaryArray, Fault>
    requires lies { physical (type_view data_type.now) ≡ FixedSizeBinary }
    requires named { byte_size (type_view data_type.now) ≡ size }
    requires room { HasRoom body.now place 1 2 }
    requires stands { KeepsBytes R.device reader.old body.now }
    ensures only { IfErr result (λ e. OwnFault e (IsColumnFault e)) }
    ensures tells { IfErr result
        (λ e. OwnFault e (TellsEntries R.device.is_memory (entries R.device body.now) e)) }
    ensures step { let s = entries R.device body.now in
        Step R.device body.now
        (listed s place.buffer + listed s (place.buffer + 1)) reader.old result reader.new }
    ensures held { IfOk result (λ array. HoldsListed (entries R.device body.now) body.now.extra
        (fixed_binary_kind size) place.buffer (fixed_layout array)) }
    ensures memory { IsTrue R.device.is_memory → let s = entries R.device body.now in
        Answers result (IsWell s (fixed_binary_kind size) place.node place.buffer limit)
        (λ array. fixed_layout array
        ≡ array_at s (known body.now) (fixed_binary_kind size) (type_view data_type.now)
        place.node place.buffer limit) }
{
    if size == 0 {
        return Err(Fault::OutOfSpec(OutOfSpecKind::InvalidDataType));
    }
    let head = read_head(alloc, reader, body, place, limit)?;
    let values = fetch_pieces(alloc, reader, body, place.buffer + 1, size, head.rows)?;
    let data_type = data_type.clone()?;
    Ok(FixedSizeBinaryArray::try_new(data_type, values, head.validity)?)
}
