//! Floats, by their bits, as texts.

use lower_arrays::array::{AnyArray, PrimitiveArray};
use lower_display::{FloatSlot, FloatType, get_float_display};
use std::alloc::{AllocError, Global};
use std::test::Fail;

// Whether the slots of a column of floats by their bits are these texts.
fn prints(
    alloc: Global,
    array: AnyArray,
    float: FloatType,
    texts: &[&str],
) -> Result<bool, AllocError> {
    let column = get_float_display(&array, float, "null");
    for (index, text) in texts.iter().enumerate() {
        if !is_text(alloc, column.slot(index), text)? {
            return Ok(false);
        }
    }
    Ok(column.slot(texts.len()).is_none())
}

fn is_text(alloc: Global, slot: Option<FloatSlot<'_>>, text: &str) -> Result<bool, AllocError> {
    match slot {
        Some(slot) => Ok(format!(in alloc; "{slot}")?.as_str() == text),
        None => Ok(false),
    }
}

const TEXTS: [&str; 5] = ["1.5", "-0.25", "inf", "-inf", "NaN"];

#[test]
fn bits_of_doubles_are_floats(rt: HostRuntime) -> Result<(), Fail> {
    let alloc = rt.alloc();
    let bits = [
        0x3ff8_0000_0000_0000u64,
        0xbfd0_0000_0000_0000,
        0x7ff0_0000_0000_0000,
        0xfff0_0000_0000_0000,
        0x7ff8_0000_0000_0000,
    ];
    let array = AnyArray::from(PrimitiveArray::from_slice(alloc, &bits)?);
    assert!(rt; prints(alloc, array, FloatType::Float64, &TEXTS)?);
    Ok(())
}

#[test]
fn bits_of_singles_are_floats(rt: HostRuntime) -> Result<(), Fail> {
    let alloc = rt.alloc();
    let bits = [
        0x3fc0_0000u32,
        0xbe80_0000,
        0x7f80_0000,
        0xff80_0000,
        0x7fc0_0000,
    ];
    let array = AnyArray::from(PrimitiveArray::from_slice(alloc, &bits)?);
    assert!(rt; prints(alloc, array, FloatType::Float32, &TEXTS)?);
    Ok(())
}

#[test]
fn bits_of_halves_are_floats(rt: HostRuntime) -> Result<(), Fail> {
    let alloc = rt.alloc();
    let bits = [0x3e00u16, 0xb400, 0x7c00, 0xfc00, 0x7e00];
    let array = AnyArray::from(PrimitiveArray::from_slice(alloc, &bits)?);
    assert!(rt; prints(alloc, array, FloatType::Float16, &TEXTS)?);
    Ok(())
}
