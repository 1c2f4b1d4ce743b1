//! Reads a column of a type without children.
ghost use Rattle.std.specs.Prelude.{◌≡◌, IsTrue, IfOk, IfErr};
ghost use Rattle.ipc_devices.specs.Faults.{OwnFault, Answers};
ghost use Rattle.lower.specs.TypeViews.{type_view};
ghost use Rattle.lower.specs.Physical.{physical};
ghost use Rattle.lower_flat_arrays.specs.FixedBinaries.{byte_size};
ghost use Rattle.lower_arrays.specs.AnyLayouts.{layout_of};
ghost use Rattle.ipc_model.specs.Kinds.{nodes, buffers};
ghost use Rattle.ipc_model.specs.Columns.{IsWell};
ghost use Rattle.ipc_model.specs.ReadArrays.{array_at};
ghost use Rattle.ipc_read_flat.specs.Bodies.{KeepsBytes, HasRoom, entries, known};
ghost use Rattle.ipc_read_flat.specs.FlatKinds.{IsFlat, flat_kind};
ghost use Rattle.ipc_read_flat.specs.HeldListed.{HoldsListed};
ghost use Rattle.ipc_read_flat.specs.Kinds.{IsBehind, listed_in};
ghost use Rattle.ipc_read_flat.specs.Refusals.{IsFaultOf, TellsEntries};
ghost use Rattle.ipc_read_flat.specs.Steps.{Step};

use crate::read::array::binary::read_binary;
use crate::read::array::boolean::read_boolean;
use crate::read::array::fixed_size_binary::{get_size, read_fixed_size_binary};
use crate::read::array::null::read_null;
use crate::read::array::primitive::read_any_primitive;
use crate::read::array::utf8::read_utf8;
use crate::read::body::{Body, Place};
use ipc_devices::fault::Fault;
use ipc_devices::{Reads, Seeks};
use lower::datatypes::{DataType, PhysicalType};
use lower_arrays::array::AnyArray;
use std::alloc::Global;

/// Reads a column without children, by its physical type.
///
/// The errors are those of the call for that type.
pub fn read_flat<R: Reads + Seeks>(
    alloc: Global,
    physical_type: PhysicalType,
    data_type: &DataType,
    reader: &mut R,
    body: &Body<R>,
    place: Place,
    limit: Option<usize>,
    scratch: &mut Vec<u8>,
) -> Result<AnyArray, Fault>
    requires lies { physical (type_view data_type.now) ≡ physical_type }
    requires flat { IsFlat physical_type }
    requires room { let t = flat_kind physical_type (byte_size (type_view data_type.now)) in HasRoom body.now place (nodes t) (buffers body.now.extra t) }
    requires stands { KeepsBytes R.device reader.old body.now }
    ensures only { let t = flat_kind physical_type (byte_size (type_view data_type.now)) in IfErr result (λ e. OwnFault e (IsFaultOf t e)) }
    ensures tells { IfErr result
        (λ e. OwnFault e (TellsEntries R.device.is_memory (entries R.device body.now) e)) }
    ensures step { let t = flat_kind physical_type (byte_size (type_view data_type.now)) in
        Step R.device body.now
        (listed_in (entries R.device body.now) body.now.extra t place.buffer) reader.old
        result reader.new }
    ensures held { let t = flat_kind physical_type (byte_size (type_view data_type.now)) in
        IfOk result (λ array. HoldsListed (entries R.device body.now) body.now.extra t place.buffer
        (layout_of array)) }
    ensures memory { IsTrue R.device.is_memory → let s = entries R.device body.now in
        let t = flat_kind physical_type (byte_size (type_view data_type.now)) in
        Answers result (IsWell s t place.node place.buffer limit)
        (λ array. layout_of array ≡ array_at s (known body.now) t (type_view data_type.now)
        place.node place.buffer limit) }
{
    match physical_type {
        PhysicalType::Null => Ok(AnyArray::Null(read_null(data_type, body, place, limit)?)),
        PhysicalType::Boolean => {
            let array = read_boolean(alloc, data_type, reader, body, place, limit)?;
            Ok(AnyArray::Boolean(array))
        }
        PhysicalType::Primitive(primitive) => {
            let array = read_any_primitive(
                alloc, primitive, data_type, reader, body, place, limit, scratch,
            )?;
            Ok(AnyArray::Primitive(array))
        }
        PhysicalType::FixedSizeBinary => {
            let size = get_size(data_type);
            let array = read_fixed_size_binary(alloc, data_type, size, reader, body, place, limit)?;
            Ok(AnyArray::FixedSizeBinary(array))
        }
        PhysicalType::Binary => {
            let array = read_binary(alloc, data_type, reader, body, place, limit, scratch)?;
            Ok(AnyArray::Binary(array))
        }
        PhysicalType::LargeBinary => {
            let array = read_binary(alloc, data_type, reader, body, place, limit, scratch)?;
            Ok(AnyArray::LargeBinary(array))
        }
        PhysicalType::Utf8 => {
            let array = read_utf8(alloc, data_type, reader, body, place, limit, scratch)?;
            Ok(AnyArray::Utf8(array))
        }
        PhysicalType::LargeUtf8 => {
            let array = read_utf8(alloc, data_type, reader, body, place, limit, scratch)?;
            Ok(AnyArray::LargeUtf8(array))
        }
        PhysicalType::List
        | PhysicalType::LargeList
        | PhysicalType::FixedSizeList
        | PhysicalType::Struct
        | PhysicalType::Union
        | PhysicalType::Map
        | PhysicalType::Dictionary(_) => unreachable!(),
    }
}

/// The position after a column without children.
pub fn flat_after<R>(
    physical_type: PhysicalType,
    data_type: &DataType,
    body: &Body<R>,
    place: Place,
) -> Place
    requires flat { IsFlat physical_type }
    requires room { let t = flat_kind physical_type (byte_size (type_view data_type.now)) in HasRoom body.now place (nodes t) (buffers body.now.extra t) }
    ensures next { IsBehind body.now.extra (flat_kind physical_type (byte_size (type_view data_type.now))) place result }
{
    let buffers = match physical_type {
        PhysicalType::Null => 0,
        PhysicalType::Binary
        | PhysicalType::LargeBinary
        | PhysicalType::Utf8
        | PhysicalType::LargeUtf8 => 3,
        _ => 2,
    };
    Place {
        node: place.node + 1,
        buffer: place.buffer + buffers,
    }
}
