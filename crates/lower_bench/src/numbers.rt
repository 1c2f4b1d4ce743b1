//! Arrays of numbers that are built slot by slot.

use crate::bitmaps::has_validity;
use lower::datatypes::{DataType, IntervalUnit};
use lower::types::{Endianness, append_bytes, days_ms, i256, months_days_ns};
use lower_arrays::array::PrimitiveArray;
use lower_builders::primitive::MutablePrimitiveArray;
use lower_builders::zero::Zero;
use std::alloc::{AllocError, Global};
use std::test::Fail;

// Slots, the numbers of their array, and its validity bitmap.
#[derive(Clone, Copy)]
struct Case {
    slots: &'static [Option<i32>],
    numbers: &'static [i32],
    validity: Option<&'static str>,
}

// The slot of a null holds 0. The first null is the first slot, or in the first byte of the bitmap,
// or the first or the last bit of a later byte.
const CASES: [Case; 8] = [
    Case {
        slots: &[],
        numbers: &[],
        validity: None,
    },
    Case {
        slots: &[Some(7), Some(-7)],
        numbers: &[7, -7],
        validity: None,
    },
    Case {
        slots: &[None],
        numbers: &[0],
        validity: Some("0"),
    },
    Case {
        slots: &[None, None, None],
        numbers: &[0, 0, 0],
        validity: Some("000"),
    },
    Case {
        slots: &[Some(7), None, Some(9), None],
        numbers: &[7, 0, 9, 0],
        validity: Some("1010"),
    },
    Case {
        slots: &[
            Some(1),
            Some(2),
            Some(3),
            Some(4),
            Some(5),
            Some(6),
            Some(7),
            Some(8),
            None,
        ],
        numbers: &[1, 2, 3, 4, 5, 6, 7, 8, 0],
        validity: Some("111111110"),
    },
    Case {
        slots: &[
            None,
            Some(2),
            Some(3),
            Some(4),
            Some(5),
            Some(6),
            Some(7),
            Some(8),
            Some(9),
        ],
        numbers: &[0, 2, 3, 4, 5, 6, 7, 8, 9],
        validity: Some("011111111"),
    },
    Case {
        slots: &[
            Some(1),
            Some(1),
            Some(1),
            Some(1),
            Some(1),
            Some(1),
            Some(1),
            Some(1),
            Some(1),
            Some(1),
            Some(1),
            Some(1),
            Some(1),
            Some(1),
            Some(1),
            None,
        ],
        numbers: &[1, 1, 1, 1, 1, 1, 1, 1, 1, 1, 1, 1, 1, 1, 1, 0],
        validity: Some("1111111111111110"),
    },
];

// Whether an array is that of a case.
fn is_built(array: &PrimitiveArray<i32>, case: &Case) -> bool {
    array.values().as_slice() == case.numbers
        && has_validity(array.validity(), case.validity)
        && *array.data_type() == DataType::Int32
}

fn pushed(alloc: Global, slots: &[Option<i32>]) -> Result<MutablePrimitiveArray<i32>, AllocError> {
    let mut array = MutablePrimitiveArray::new(alloc);
    for slot in slots {
        array.push(*slot)?;
    }
    Ok(array)
}

#[test]
fn numbers_are_pushed(rt: HostRuntime) -> Result<(), Fail> {
    for case in CASES {
        let array = pushed(rt.alloc(), case.slots)?;
        assert_eq!(rt; array.len(), case.slots.len());
        let array = array.finish()?;
        assert!(rt; is_built(&array, &case), "{array:?}");
    }
    Ok(())
}

#[test]
fn slices_of_slots_are_copied(rt: HostRuntime) -> Result<(), Fail> {
    for case in CASES {
        let array = MutablePrimitiveArray::from_options(rt.alloc(), case.slots)?.finish()?;
        assert!(rt; is_built(&array, &case), "{array:?}");
    }
    Ok(())
}

#[test]
fn slices_of_numbers_have_no_nulls(rt: HostRuntime) -> Result<(), Fail> {
    let array = MutablePrimitiveArray::from_slice(rt.alloc(), &[7, 0, -7])?.finish()?;
    assert!(rt; array.values().as_slice() == [7, 0, -7].as_slice());
    assert!(rt; array.validity().is_none());
    let none: MutablePrimitiveArray<i32> = MutablePrimitiveArray::from_slice(rt.alloc(), &[])?;
    assert_eq!(rt; none.len(), 0);
    Ok(())
}

// Numbers and a null, between which memory is reserved.
fn reserved(alloc: Global) -> Result<MutablePrimitiveArray<i32>, AllocError> {
    let mut array = MutablePrimitiveArray::with_capacity(alloc, 4)?;
    array.push(Some(7))?;
    array.reserve(9)?;
    array.push_null()?;
    Ok(array)
}

#[test]
fn reserved_memory_has_no_numbers(rt: HostRuntime) -> Result<(), Fail> {
    let array = reserved(rt.alloc())?.finish()?;
    assert!(rt; array.values().as_slice() == [7, 0].as_slice());
    assert!(rt; has_validity(array.validity(), Some("10")));
    Ok(())
}

// The array of a null and of a number.
fn null_and<T: Zero>(alloc: Global, number: T) -> Result<PrimitiveArray<T>, AllocError> {
    let mut array = MutablePrimitiveArray::new(alloc);
    array.push_null()?;
    array.push(Some(number))?;
    array.finish()
}

// Whether the array of a null and of a number has this type, and whether its bytes are zeros and
// these, the lowest first.
fn is_typed<T: Zero>(
    alloc: Global,
    number: T,
    data_type: DataType,
    bytes: &[u8],
) -> Result<bool, AllocError> {
    let array = null_and(alloc, number)?;
    let mut all = Vec::new(alloc);
    append_bytes(&mut all, array.values().as_slice(), Endianness::Little)?;
    let mut expected = vec![in alloc; 0; bytes.len()]?;
    expected.extend_from_slice(bytes)?;
    Ok(
        all == expected
            && *array.data_type() == data_type
            && has_validity(array.validity(), Some("01")),
    )
}

#[test]
fn integers_of_each_width_are_pushed(rt: HostRuntime) -> Result<(), Fail> {
    let alloc = rt.alloc();
    assert!(rt; is_typed(alloc, -2i8, DataType::Int8, &[0xFE])?);
    assert!(rt; is_typed(alloc, -2i16, DataType::Int16, &[0xFE, 0xFF])?);
    assert!(rt; is_typed(alloc, 0x0403_0201i32, DataType::Int32, &[1, 2, 3, 4])?);
    let bytes = [1, 2, 3, 4, 5, 6, 7, 8];
    assert!(rt; is_typed(alloc, 0x0807_0605_0403_0201i64, DataType::Int64, &bytes)?);
    Ok(())
}

#[test]
fn unsigned_integers_of_each_width_are_pushed(rt: HostRuntime) -> Result<(), Fail> {
    let alloc = rt.alloc();
    assert!(rt; is_typed(alloc, 254u8, DataType::UInt8, &[0xFE])?);
    assert!(rt; is_typed(alloc, 0xFFFEu16, DataType::UInt16, &[0xFE, 0xFF])?);
    assert!(rt;
        is_typed(
            alloc,
            0xFFFF_FFFEu32,
            DataType::UInt32,
            &[0xFE, 0xFF, 0xFF, 0xFF]
        )?
    );
    let bytes = [1, 2, 3, 4, 5, 6, 7, 0xF8];
    assert!(rt; is_typed(alloc, 0xF807_0605_0403_0201u64, DataType::UInt64, &bytes)?);
    Ok(())
}

#[test]
fn decimals_are_pushed(rt: HostRuntime) -> Result<(), Fail> {
    let alloc = rt.alloc();
    let minus_two = [
        0xFE, 0xFF, 0xFF, 0xFF, 0xFF, 0xFF, 0xFF, 0xFF, 0xFF, 0xFF, 0xFF, 0xFF, 0xFF, 0xFF, 0xFF,
        0xFF,
    ];
    assert!(rt; is_typed(alloc, -2i128, DataType::Decimal(32, 32), &minus_two)?);
    // 1 + 2 ^ 129
    let bytes = [
        1, 0, 0, 0, 0, 0, 0, 0, 0, 0, 0, 0, 0, 0, 0, 0, 2, 0, 0, 0, 0, 0, 0, 0, 0, 0, 0, 0, 0, 0,
        0, 0,
    ];
    let wide = i256 { low: 1, high: 2 };
    assert!(rt; is_typed(alloc, wide, DataType::Decimal256(32, 32), &bytes)?);
    Ok(())
}

#[test]
fn intervals_are_pushed(rt: HostRuntime) -> Result<(), Fail> {
    let alloc = rt.alloc();
    let days = days_ms {
        days: 1,
        milliseconds: -2,
    };
    let bytes = [1, 0, 0, 0, 0xFE, 0xFF, 0xFF, 0xFF];
    assert!(rt;
        is_typed(
            alloc,
            days,
            DataType::Interval(IntervalUnit::DayTime),
            &bytes
        )?
    );
    let months = months_days_ns {
        months: 1,
        days: 2,
        nanoseconds: -2,
    };
    let bytes = [
        1, 0, 0, 0, 2, 0, 0, 0, 0xFE, 0xFF, 0xFF, 0xFF, 0xFF, 0xFF, 0xFF, 0xFF,
    ];
    let data_type = DataType::Interval(IntervalUnit::MonthDayNano);
    assert!(rt; is_typed(alloc, months, data_type, &bytes)?);
    Ok(())
}
