//! Reads columns of numbers.
ghost use Rattle.std.specs.Prelude.{◌≡◌, ◌+◌, ◌<◌, IsTrue, IfOk, IfErr};
ghost use Rattle.ipc_devices.specs.Faults.{OwnFault, Answers};
ghost use Rattle.lower.specs.TypeViews.{type_view};
ghost use Rattle.lower.specs.Physical.{physical};
ghost use Rattle.lower.specs.declared.datatypes.physical_type.PhysicalType.TheVariants.{Primitive};
ghost use Rattle.lower_arrays.specs.Primitives.{primitive_layout};
ghost use Rattle.lower_arrays.specs.AnyLayouts.{any_primitive_layout};
ghost use Rattle.ipc_model.specs.Kinds.{number_kind};
ghost use Rattle.ipc_model.specs.Entries.{listed};
ghost use Rattle.ipc_model.specs.Columns.{IsWell};
ghost use Rattle.ipc_model.specs.ReadArrays.{array_at};
ghost use Rattle.ipc_read_flat.specs.Bodies.{KeepsBytes, HasRoom, entries, known};
ghost use Rattle.ipc_read_flat.specs.HeldListed.{HoldsListed};
ghost use Rattle.ipc_read_flat.specs.FlatKinds.{IsExact};
ghost use Rattle.ipc_read_flat.specs.Refusals.{IsBufferFault, TellsEntries};
ghost use Rattle.ipc_read_flat.specs.Steps.{Step};

use crate::read::body::{Body, Place};
use crate::read::read_basic::{fetch_numbers, read_head};
use ipc_devices::fault::{Fault, Nyi};
use ipc_devices::{Reads, Seeks};
use lower::buffer::Buffer;
use lower::datatypes::DataType;
use lower::types::{NativeType, PrimitiveType};
use lower_arrays::array::{AnyPrimitive, PrimitiveArray};
use std::alloc::Global;

/// Reads a column of numbers: a node, a validity, and a number for each slot.
///
/// `data_type` has this physical type; the numbers have the body's byte order. See "Fixed-size
/// Primitive Layout" in the Arrow columnar format.
///
/// # Errors
/// - `NegativeFooterLength`: the node's length, or the offset of a buffer in use, is negative.
/// - `InvalidBuffer`: a buffer in use is too short; `InvalidBitmap`: the validity is.
/// - `Ended`: the device is too short.
/// - `Io`, `Memory`.
#[inline(always)]
pub fn read_primitive<T: NativeType, R: Reads + Seeks>(
    alloc: Global,
    data_type: &DataType,
    reader: &mut R,
    body: &Body<R>,
    place: Place,
    limit: Option<usize>,
    scratch: &mut Vec<u8>,
) -> Result<PrimitiveArray<T>, Fault>
    requires lies { physical (type_view data_type.now) ≡ Primitive T.primitive }
    requires room { HasRoom body.now place 1 2 }
    requires stands { KeepsBytes R.device reader.old body.now }
    ensures only { IfErr result (λ e. OwnFault e (IsBufferFault e)) }
    ensures tells { IfErr result
        (λ e. OwnFault e (TellsEntries R.device.is_memory (entries R.device body.now) e)) }
    ensures step { let s = entries R.device body.now in
        Step R.device body.now
        (listed s place.buffer + listed s (place.buffer + 1)) reader.old result reader.new }
    ensures held { IfOk result (λ array. HoldsListed (entries R.device body.now) body.now.extra
        (number_kind T.primitive) place.buffer (primitive_layout T.primitive T.number array)) }
    ensures memory { IsTrue R.device.is_memory → let s = entries R.device body.now in
        Answers result (IsWell s (number_kind T.primitive) place.node place.buffer limit)
        (λ array. primitive_layout T.primitive T.number array
        ≡ array_at s (known body.now) (number_kind T.primitive) (type_view data_type.now)
        place.node place.buffer limit) }
{
    let head = read_head(alloc, reader, body, place, limit)?;
    let values = fetch_numbers(alloc, reader, body, place.buffer + 1, head.rows, scratch)?;
    let values = Buffer::new(values)?;
    let data_type = data_type.clone()?;
    Ok(PrimitiveArray::try_new(data_type, values, head.validity)?)
}

/// Reads a column of numbers, but not floats, by a type known at run time.
///
/// The errors are those of [`read_primitive`].
pub fn read_any_primitive<R: Reads + Seeks>(
    alloc: Global,
    primitive: PrimitiveType,
    data_type: &DataType,
    reader: &mut R,
    body: &Body<R>,
    place: Place,
    limit: Option<usize>,
    scratch: &mut Vec<u8>,
) -> Result<AnyPrimitive, Fault>
    requires exact { IsExact primitive }
    requires lies { physical (type_view data_type.now) ≡ Primitive primitive }
    requires room { HasRoom body.now place 1 2 }
    requires stands { KeepsBytes R.device reader.old body.now }
    ensures only { IfErr result (λ e. OwnFault e (IsBufferFault e)) }
    ensures tells { IfErr result
        (λ e. OwnFault e (TellsEntries R.device.is_memory (entries R.device body.now) e)) }
    ensures step { let s = entries R.device body.now in
        Step R.device body.now
        (listed s place.buffer + listed s (place.buffer + 1)) reader.old result reader.new }
    ensures held { IfOk result (λ array. HoldsListed (entries R.device body.now) body.now.extra
        (number_kind primitive) place.buffer (any_primitive_layout array)) }
    ensures memory { IsTrue R.device.is_memory → let s = entries R.device body.now in
        Answers result (IsWell s (number_kind primitive) place.node place.buffer limit)
        (λ array. any_primitive_layout array
        ≡ array_at s (known body.now) (number_kind primitive) (type_view data_type.now) place.node
        place.buffer limit) }
{
    match primitive {
        PrimitiveType::Int8 => {
            let array = read_primitive(alloc, data_type, reader, body, place, limit, scratch)?;
            Ok(AnyPrimitive::Int8(array))
        }
        PrimitiveType::Int16 => {
            let array = read_primitive(alloc, data_type, reader, body, place, limit, scratch)?;
            Ok(AnyPrimitive::Int16(array))
        }
        PrimitiveType::Int32 => {
            let array = read_primitive(alloc, data_type, reader, body, place, limit, scratch)?;
            Ok(AnyPrimitive::Int32(array))
        }
        PrimitiveType::Int64 => {
            let array = read_primitive(alloc, data_type, reader, body, place, limit, scratch)?;
            Ok(AnyPrimitive::Int64(array))
        }
        PrimitiveType::Int128 => {
            let array = read_primitive(alloc, data_type, reader, body, place, limit, scratch)?;
            Ok(AnyPrimitive::Int128(array))
        }
        PrimitiveType::Int256 => {
            let array = read_primitive(alloc, data_type, reader, body, place, limit, scratch)?;
            Ok(AnyPrimitive::Int256(array))
        }
        PrimitiveType::UInt8 => {
            let array = read_primitive(alloc, data_type, reader, body, place, limit, scratch)?;
            Ok(AnyPrimitive::UInt8(array))
        }
        PrimitiveType::UInt16 => {
            let array = read_primitive(alloc, data_type, reader, body, place, limit, scratch)?;
            Ok(AnyPrimitive::UInt16(array))
        }
        PrimitiveType::UInt32 => {
            let array = read_primitive(alloc, data_type, reader, body, place, limit, scratch)?;
            Ok(AnyPrimitive::UInt32(array))
        }
        PrimitiveType::UInt64 => {
            let array = read_primitive(alloc, data_type, reader, body, place, limit, scratch)?;
            Ok(AnyPrimitive::UInt64(array))
        }
        PrimitiveType::DaysMs => {
            let array = read_primitive(alloc, data_type, reader, body, place, limit, scratch)?;
            Ok(AnyPrimitive::DaysMs(array))
        }
        PrimitiveType::MonthDayNano => {
            let array = read_primitive(alloc, data_type, reader, body, place, limit, scratch)?;
            Ok(AnyPrimitive::MonthDayNano(array))
        }
        PrimitiveType::Float16 | PrimitiveType::Float32 | PrimitiveType::Float64 => {
            Err(Fault::NotYetImplemented(Nyi::Float))
        }
    }
}
