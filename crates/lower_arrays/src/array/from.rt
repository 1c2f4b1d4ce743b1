//! Conversions into [`AnyArray`]. None allocates.
ghost use Rattle.std.specs.Prelude.{◌≡◌};
ghost use Rattle.lower_types.specs.declared.PrimitiveType.TheVariants as Named;
ghost use Rattle.lower_arrays.specs.Flat.{null_layout, boolean_layout, fixed_layout, bytes_layout, texts_layout};
ghost use Rattle.lower_arrays.specs.Lists.{list_layout};
ghost use Rattle.lower_arrays.specs.FixedLists.{fixed_list_layout};
ghost use Rattle.lower_arrays.specs.Structs.{struct_layout};
ghost use Rattle.lower_arrays.specs.Maps.{map_layout};
ghost use Rattle.lower_arrays.specs.Unions.{union_layout};
ghost use Rattle.lower_arrays.specs.Dictionaries.{dictionary_layout};
ghost use Rattle.lower_arrays.specs.AnyLayouts.{layout_of, any_primitive_layout};
ghost use Rattle.lower_validation.specs.declared.numbers.AnyPrimitive.TheVariants as Numbers;

use super::{
    AnyArray, AnyPrimitive, BinaryArray, BooleanArray, DictionaryArray, FixedSizeBinaryArray,
    FixedSizeListArray, ListArray, MapArray, NullArray, PrimitiveArray, StructArray, UnionArray,
    Utf8Array,
};
use lower::types::{days_ms, i256, months_days_ns};

impl From<AnyPrimitive> for AnyArray {
    ghost from_gives = { λ array any. layout_of any ≡ any_primitive_layout array };

    fn from(array: AnyPrimitive) -> AnyArray {
        AnyArray::Primitive(array)
    }
}

impl From<PrimitiveArray<i8>> for AnyArray {
    ghost from_gives = { λ array any. layout_of any ≡ any_primitive_layout (Numbers.Int8 array) };

    fn from(array: PrimitiveArray<i8>) -> AnyArray {
        AnyArray::Primitive(AnyPrimitive::Int8(array))
    }
}

impl From<PrimitiveArray<i16>> for AnyArray {
    ghost from_gives = { λ array any. layout_of any ≡ any_primitive_layout (Numbers.Int16 array) };

    fn from(array: PrimitiveArray<i16>) -> AnyArray {
        AnyArray::Primitive(AnyPrimitive::Int16(array))
    }
}

impl From<PrimitiveArray<i32>> for AnyArray {
    ghost from_gives = { λ array any. layout_of any ≡ any_primitive_layout (Numbers.Int32 array) };

    fn from(array: PrimitiveArray<i32>) -> AnyArray {
        AnyArray::Primitive(AnyPrimitive::Int32(array))
    }
}

impl From<PrimitiveArray<i64>> for AnyArray {
    ghost from_gives = { λ array any. layout_of any ≡ any_primitive_layout (Numbers.Int64 array) };

    fn from(array: PrimitiveArray<i64>) -> AnyArray {
        AnyArray::Primitive(AnyPrimitive::Int64(array))
    }
}

impl From<PrimitiveArray<i128>> for AnyArray {
    ghost from_gives = { λ array any. layout_of any ≡ any_primitive_layout (Numbers.Int128 array) };

    fn from(array: PrimitiveArray<i128>) -> AnyArray {
        AnyArray::Primitive(AnyPrimitive::Int128(array))
    }
}

impl From<PrimitiveArray<i256>> for AnyArray {
    ghost from_gives = { λ array any. layout_of any ≡ any_primitive_layout (Numbers.Int256 array) };

    fn from(array: PrimitiveArray<i256>) -> AnyArray {
        AnyArray::Primitive(AnyPrimitive::Int256(array))
    }
}

impl From<PrimitiveArray<u8>> for AnyArray {
    ghost from_gives = { λ array any. layout_of any ≡ any_primitive_layout (Numbers.UInt8 array) };

    fn from(array: PrimitiveArray<u8>) -> AnyArray {
        AnyArray::Primitive(AnyPrimitive::UInt8(array))
    }
}

impl From<PrimitiveArray<u16>> for AnyArray {
    ghost from_gives = { λ array any. layout_of any ≡ any_primitive_layout (Numbers.UInt16 array) };

    fn from(array: PrimitiveArray<u16>) -> AnyArray {
        AnyArray::Primitive(AnyPrimitive::UInt16(array))
    }
}

impl From<PrimitiveArray<u32>> for AnyArray {
    ghost from_gives = { λ array any. layout_of any ≡ any_primitive_layout (Numbers.UInt32 array) };

    fn from(array: PrimitiveArray<u32>) -> AnyArray {
        AnyArray::Primitive(AnyPrimitive::UInt32(array))
    }
}

impl From<PrimitiveArray<u64>> for AnyArray {
    ghost from_gives = { λ array any. layout_of any ≡ any_primitive_layout (Numbers.UInt64 array) };

    fn from(array: PrimitiveArray<u64>) -> AnyArray {
        AnyArray::Primitive(AnyPrimitive::UInt64(array))
    }
}

impl From<PrimitiveArray<days_ms>> for AnyArray {
    ghost from_gives = { λ array any. layout_of any ≡ any_primitive_layout (Numbers.DaysMs array) };

    fn from(array: PrimitiveArray<days_ms>) -> AnyArray {
        AnyArray::Primitive(AnyPrimitive::DaysMs(array))
    }
}

impl From<PrimitiveArray<months_days_ns>> for AnyArray {
    ghost from_gives = { λ array any. layout_of any ≡ any_primitive_layout (Numbers.MonthDayNano array) };

    fn from(array: PrimitiveArray<months_days_ns>) -> AnyArray {
        AnyArray::Primitive(AnyPrimitive::MonthDayNano(array))
    }
}

impl From<NullArray> for AnyArray {
    ghost from_gives = { λ array any. layout_of any ≡ null_layout array };

    fn from(array: NullArray) -> AnyArray {
        AnyArray::Null(array)
    }
}

impl From<BooleanArray> for AnyArray {
    ghost from_gives = { λ array any. layout_of any ≡ boolean_layout array };

    fn from(array: BooleanArray) -> AnyArray {
        AnyArray::Boolean(array)
    }
}

impl From<FixedSizeBinaryArray> for AnyArray {
    ghost from_gives = { λ array any. layout_of any ≡ fixed_layout array };

    fn from(array: FixedSizeBinaryArray) -> AnyArray {
        AnyArray::FixedSizeBinary(array)
    }
}

impl From<BinaryArray<i32>> for AnyArray {
    ghost from_gives = { λ array any. layout_of any ≡ bytes_layout Named.Int32 array };

    fn from(array: BinaryArray<i32>) -> AnyArray {
        AnyArray::Binary(array)
    }
}

impl From<BinaryArray<i64>> for AnyArray {
    ghost from_gives = { λ array any. layout_of any ≡ bytes_layout Named.Int64 array };

    fn from(array: BinaryArray<i64>) -> AnyArray {
        AnyArray::LargeBinary(array)
    }
}

impl From<Utf8Array<i32>> for AnyArray {
    ghost from_gives = { λ array any. layout_of any ≡ texts_layout Named.Int32 array };

    fn from(array: Utf8Array<i32>) -> AnyArray {
        AnyArray::Utf8(array)
    }
}

impl From<Utf8Array<i64>> for AnyArray {
    ghost from_gives = { λ array any. layout_of any ≡ texts_layout Named.Int64 array };

    fn from(array: Utf8Array<i64>) -> AnyArray {
        AnyArray::LargeUtf8(array)
    }
}

impl From<ListArray> for AnyArray {
    ghost from_gives = { λ array any. layout_of any ≡ list_layout array };

    fn from(array: ListArray) -> AnyArray {
        array.boxed()
    }
}

impl From<FixedSizeListArray> for AnyArray {
    ghost from_gives = { λ array any. layout_of any ≡ fixed_list_layout array };

    fn from(array: FixedSizeListArray) -> AnyArray {
        AnyArray::FixedSizeList(array)
    }
}

impl From<StructArray> for AnyArray {
    ghost from_gives = { λ array any. layout_of any ≡ struct_layout array };

    fn from(array: StructArray) -> AnyArray {
        AnyArray::Struct(array)
    }
}

impl From<UnionArray> for AnyArray {
    ghost from_gives = { λ array any. layout_of any ≡ union_layout array };

    fn from(array: UnionArray) -> AnyArray {
        AnyArray::Union(array)
    }
}

impl From<MapArray> for AnyArray {
    ghost from_gives = { λ array any. layout_of any ≡ map_layout array };

    fn from(array: MapArray) -> AnyArray {
        AnyArray::Map(array)
    }
}

impl From<DictionaryArray> for AnyArray {
    ghost from_gives = { λ array any. layout_of any ≡ dictionary_layout array };

    fn from(array: DictionaryArray) -> AnyArray {
        AnyArray::Dictionary(array)
    }
}
