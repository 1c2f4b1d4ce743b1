//! Reads columns of texts.
ghost use Rattle.std.specs.Prelude.{◌≡◌, ◌+◌, ◌<◌, IsTrue, IfOk, IfErr};
ghost use Rattle.ipc_devices.specs.Faults.{OwnFault, Answers};
ghost use Rattle.lower.specs.TypeViews.{type_view};
ghost use Rattle.lower.specs.Physical.{physical};
ghost use Rattle.lower_flat_arrays.specs.Texts.{texts_with};
ghost use Rattle.lower_arrays.specs.Flat.{texts_layout};
ghost use Rattle.ipc_model.specs.Kinds.{utf8_kind};
ghost use Rattle.ipc_model.specs.Entries.{listed};
ghost use Rattle.ipc_model.specs.Columns.{IsWell};
ghost use Rattle.ipc_model.specs.ReadArrays.{array_at};
ghost use Rattle.ipc_read_flat.specs.Bodies.{KeepsBytes, HasRoom, entries, known};
ghost use Rattle.ipc_read_flat.specs.HeldListed.{HoldsListed};
ghost use Rattle.ipc_read_flat.specs.Refusals.{IsColumnFault, TellsEntries};
ghost use Rattle.ipc_read_flat.specs.Steps.{Step};

use crate::read::body::{Body, Place};
use crate::read::read_basic::{StoredOffset, fetch_bytes, read_head, read_offsets};
use ipc_devices::fault::Fault;
use ipc_devices::{Reads, Seeks};
use lower::datatypes::DataType;
use lower_arrays::array::Utf8Array;
use std::alloc::Global;

/// Reads a column of texts: a node, a validity, offsets and UTF-8.
///
/// `data_type` has this physical type; the offsets have 32 or 64 bits. Only the bytes up to the
/// last offset in use are read, and checked once. See "Variable-size Binary Layout" in the Arrow
/// columnar format.
///
/// # Errors
/// - `NegativeFooterLength`: the node's length, or the offset of a buffer in use, is negative.
/// - `InvalidBuffer`: a buffer in use is too short; `InvalidBitmap`: the validity is.
/// - `Ended`: the device is too short.
/// - `FallingOffset`: an offset is negative, or less than the one before it.
/// - `Utf8`: a slot isn't UTF-8, null or not.
/// - `Io`, `Memory`.
#[tactic(auto, using(crate::proofs::Refusals::buffer_column))]
pub fn read_utf8<O: StoredOffset, R: Reads + Seeks>(
    alloc: Global,
    data_type: &DataType,
    reader: &mut R,
    body: &Body<R>,
    place: Place,
    limit: Option<usize>,
    scratch: &mut Vec<u8>,
) -> Result<Utf8Array<O>, Fault>
    requires lies { physical (type_view data_type.now) ≡ texts_with O.primitive }
    requires room { HasRoom body.now place 1 3 }
    requires stands { KeepsBytes R.device reader.old body.now }
    ensures only { IfErr result (λ e. OwnFault e (IsColumnFault e)) }
    ensures tells { IfErr result
        (λ e. OwnFault e (TellsEntries R.device.is_memory (entries R.device body.now) e)) }
    ensures step { let s = entries R.device body.now in
        Step R.device body.now
        (listed s place.buffer + listed s (place.buffer + 1) + listed s (place.buffer + 1 + 1))
        reader.old result reader.new }
    ensures held { IfOk result
        (λ array. HoldsListed (entries R.device body.now) body.now.extra (utf8_kind O.form)
        place.buffer (texts_layout O.primitive array)) }
    ensures memory { IsTrue R.device.is_memory → let s = entries R.device body.now in
        Answers result (IsWell s (utf8_kind O.form) place.node place.buffer limit)
        (λ array. texts_layout O.primitive array ≡ array_at s (known body.now) (utf8_kind O.form)
        (type_view data_type.now) place.node place.buffer limit) }
{
    let head = read_head(alloc, reader, body, place, limit)?;
    let index = place.buffer + 1;
    let offsets = read_offsets(alloc, reader, body, index, head.rows, scratch)?;
    let values = fetch_bytes(alloc, reader, body, index + 1, offsets.last())?;
    let data_type = data_type.clone()?;
    Ok(Utf8Array::try_new(data_type, offsets, values, head.validity)?)
}
