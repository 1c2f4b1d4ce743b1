//! What tests of texts of slots share.

use lower::buffer::Buffer;
use lower::datatypes::DataType;
use lower_arrays::array::{AnyArray, PrimitiveArray};
use lower_builders::primitive::MutablePrimitiveArray;
use lower_display::{SlotDisplay, get_display};
use std::alloc::{AllocError, Global};
use std::test::Fail;

/// A column of numbers of 32 bits.
pub fn int32(alloc: Global, data_type: DataType, values: &[i32]) -> Result<AnyArray, Fail> {
    let values = Buffer::new(Vec::from_slice(alloc, values)?)?;
    Ok(AnyArray::from(PrimitiveArray::try_new(data_type, values, None)?))
}

/// A column of numbers of 64 bits.
pub fn int64(alloc: Global, data_type: DataType, values: &[i64]) -> Result<AnyArray, Fail> {
    let values = Buffer::new(Vec::from_slice(alloc, values)?)?;
    Ok(AnyArray::from(PrimitiveArray::try_new(data_type, values, None)?))
}

/// The slots 7, null and 9.
pub fn numbers(alloc: Global) -> Result<AnyArray, Fail> {
    let mut array = MutablePrimitiveArray::<i32>::new(alloc);
    for slot in [Some(7), None, Some(9)] {
        array.push(slot)?;
    }
    Ok(AnyArray::from(array.finish()?))
}

/// Whether a column's slots are exactly these texts.
pub fn prints(alloc: Global, array: AnyArray, texts: &[&str]) -> Result<bool, AllocError> {
    let column = get_display(&array, "null");
    for (index, text) in texts.iter().enumerate() {
        if !is_text(alloc, column.slot(index), text)? {
            return Ok(false);
        }
    }
    Ok(column.slot(texts.len()).is_none())
}

// Whether there is a slot that prints this text.
fn is_text(alloc: Global, slot: Option<SlotDisplay<'_>>, text: &str) -> Result<bool, AllocError> {
    match slot {
        Some(slot) => Ok(format!(in alloc; "{slot}")?.as_str() == text),
        None => Ok(false),
    }
}
