//! Clones and slices of arrays share the memory of their values.
//!
//! No contract states this. A test sees it by `into_vec`, which only returns the vector of a buffer
//! without another owner, or by the number of owners.

use ipc_devices::Fault;
use lower::bitmap::Bitmap;
use lower::buffer::Buffer;
use lower::datatypes::{DataType, IntegerType};
use lower::offset::OffsetsBuffer;
use lower::types::NativeType;
use lower_arrays::array::{
    AnyArray, BinaryArray, DictionaryArray, DictionaryKeys, FixedSizeBinaryArray, PrimitiveArray,
    Utf8Array,
};
use std::alloc::{AllocError, Global};
use std::sync::Arc;

fn buffer<T: NativeType>(alloc: Global, values: &[T]) -> Result<Buffer<T>, AllocError> {
    Buffer::new(Vec::from_slice(alloc, values)?)
}

// The numbers below 1000.
fn thousand_numbers(alloc: Global) -> Result<Buffer<u32>, AllocError> {
    let mut numbers = Vec::new(alloc);
    for number in 0..1_000u32 {
        numbers.push(number)?;
    }
    Buffer::new(numbers)
}

// Two of the numbers, by a slice of a part of twenty.
fn two_of_twenty(all: &Buffer<u32>) -> Result<Option<Buffer<u32>>, AllocError> {
    if all.len() != 1_000 {
        return Ok(None);
    }
    let mut part = all.part(10, 20)?;
    part.slice(5, 2);
    Ok(Some(part))
}

fn is_fifteen_and_sixteen(part: &Option<Buffer<u32>>) -> bool {
    match part {
        Some(part) => part.as_slice() == [15u32, 16].as_slice() && !part.is_empty(),
        None => false,
    }
}

// Whether a part of no value is empty, at either end.
fn has_empty_parts(all: &Buffer<u32>) -> Result<bool, AllocError> {
    let front = all.part(0, 0)?;
    let end = all.part(all.len(), 0)?;
    Ok(front.is_empty() && end.is_empty())
}

#[test]
fn part_of_no_value_is_empty(rt: HostRuntime) -> Result<(), Fault> {
    let numbers = buffer(rt.alloc(), &[7u32, 8, 9])?;
    assert!(rt; has_empty_parts(&numbers)?);
    let none = buffer(rt.alloc(), &[])?;
    assert!(rt; has_empty_parts(&none)?);
    Ok(())
}

// The buffer, where `into_vec` fails because there is another owner.
fn if_shared<T: Copy>(all: Buffer<T>) -> Option<Buffer<T>> {
    all.into_vec().err()
}

#[test]
fn buffers_share_memory(rt: HostRuntime) -> Result<(), Fault> {
    let all = thousand_numbers(rt.alloc())?;
    let part = two_of_twenty(&all)?;
    assert!(rt; is_fifteen_and_sixteen(&part));
    let all = if_shared(all).expect(&rt, "into_vec took the memory of a part");
    drop(part);
    let copy = all.clone()?;
    let all = if_shared(all).expect(&rt, "into_vec took the memory of a clone");
    drop(copy);
    assert_eq!(rt;
        all.into_vec().map(|numbers| numbers.len()).ok(),
        Some(1_000)
    );
    Ok(())
}

// The last two of three numbers, by a slice of a clone.
fn last_two(array: &PrimitiveArray<i32>) -> Result<Option<PrimitiveArray<i32>>, AllocError> {
    let copy = array.clone()?;
    if copy.len() != 3 {
        return Ok(None);
    }
    Ok(Some(copy.sliced(1, 2)))
}

#[test]
fn primitive_arrays_share_memory(rt: HostRuntime) -> Result<(), Fault> {
    let values = buffer(rt.alloc(), &[1, 2, 3])?;
    let part = last_two(&PrimitiveArray::try_new(DataType::Int32, values.clone()?, None)?)?;
    assert!(rt; values.into_vec().is_err(), "the slice has its own memory");
    assert_eq!(rt; part.map(|part| part.len()), Some(2));
    Ok(())
}

// The second of two slots, by a slice of a clone.
fn second_pair(array: &FixedSizeBinaryArray) -> Result<Option<FixedSizeBinaryArray>, AllocError> {
    let copy = array.clone()?;
    if copy.len() != 2 {
        return Ok(None);
    }
    Ok(Some(copy.sliced(1, 1)))
}

#[test]
fn fixed_size_binary_arrays_share_memory(rt: HostRuntime) -> Result<(), Fault> {
    let values = buffer(rt.alloc(), &[1, 2, 3, 4])?;
    let data_type = DataType::FixedSizeBinary(2);
    let part = second_pair(&FixedSizeBinaryArray::try_new(data_type, values.clone()?, None)?)?;
    assert!(rt; values.into_vec().is_err(), "the slice has its own memory");
    assert_eq!(rt; part.map(|part| part.len()), Some(1));
    Ok(())
}

// The offsets of two slots, of one byte and of two.
fn offsets(alloc: Global) -> Result<OffsetsBuffer<i32>, Fault> {
    Ok(OffsetsBuffer::try_new(buffer(alloc, &[0, 1, 3])?)?)
}

fn bytes(alloc: Global, values: Buffer<u8>) -> Result<BinaryArray<i32>, Fault> {
    Ok(BinaryArray::try_new(DataType::Binary, offsets(alloc)?, values, None)?)
}

// The second of two slots, by a slice of a clone.
fn second_bytes(array: &BinaryArray<i32>) -> Result<Option<BinaryArray<i32>>, AllocError> {
    let copy = array.clone()?;
    if copy.len() != 2 {
        return Ok(None);
    }
    Ok(Some(copy.sliced(1, 1)))
}

#[test]
fn binary_arrays_share_memory(rt: HostRuntime) -> Result<(), Fault> {
    let values = buffer(rt.alloc(), b"abc")?;
    let part = second_bytes(&bytes(rt.alloc(), values.clone()?)?)?;
    assert!(rt; values.into_vec().is_err(), "the slice has its own memory");
    assert_eq!(rt; part.map(|part| part.len()), Some(1));
    Ok(())
}

fn texts(alloc: Global, values: Buffer<u8>) -> Result<Utf8Array<i32>, Fault> {
    Ok(Utf8Array::try_new(DataType::Utf8, offsets(alloc)?, values, None)?)
}

// The second of two texts, by a slice of a clone.
fn second_text(array: &Utf8Array<i32>) -> Result<Option<Utf8Array<i32>>, AllocError> {
    let copy = array.clone()?;
    if copy.len() != 2 {
        return Ok(None);
    }
    Ok(Some(copy.sliced(1, 1)))
}

#[test]
fn utf8_arrays_share_memory(rt: HostRuntime) -> Result<(), Fault> {
    let values = buffer(rt.alloc(), b"abc")?;
    let part = second_text(&texts(rt.alloc(), values.clone()?)?)?;
    assert!(rt; values.into_vec().is_err(), "the slice has its own memory");
    assert_eq!(rt; part.map(|part| part.len()), Some(1));
    Ok(())
}

// The texts `a` and `b`, with a validity bitmap.
fn two_texts(alloc: Global) -> Result<AnyArray, Fault> {
    let offsets = OffsetsBuffer::try_new(buffer(alloc, &[0, 1, 2])?)?;
    let validity = Some(Bitmap::try_new(buffer(alloc, &[0b11])?, 2)?);
    let texts = Utf8Array::try_new(DataType::Utf8, offsets, buffer(alloc, b"ab")?, validity)?;
    Ok(AnyArray::Utf8(texts))
}

// Three keys, with a validity bitmap.
fn keys(alloc: Global) -> Result<DictionaryKeys, Fault> {
    let validity = Some(Bitmap::try_new(buffer(alloc, &[0b111])?, 3)?);
    let keys = PrimitiveArray::try_new(DataType::Int32, buffer(alloc, &[1, 0, 1])?, validity)?;
    Ok(DictionaryKeys::Int32(keys))
}

// Three keys into these values.
fn three_keys(alloc: Global, values: Arc<AnyArray>) -> Result<DictionaryArray, Fault> {
    let texts = Box::new(alloc, DataType::Utf8)?;
    let data_type = DataType::Dictionary(IntegerType::Int32, texts, false);
    Ok(DictionaryArray::try_new(data_type, keys(alloc)?, values)?)
}

// Whether the array's values are these, in the same memory: then another owner of them counts as
// one of these.
pub fn shares(array: &DictionaryArray, values: &Arc<AnyArray>) -> Result<bool, AllocError> {
    let owners = Arc::strong_count(values);
    let another = array.shared_values()?;
    let is_counted = owners < Arc::strong_count(values);
    drop(another);
    Ok(is_counted)
}

// Whether a slice has the last two keys, and both values.
fn has_two_keys(part: &DictionaryArray) -> bool {
    part.len() == 2
        && !part.is_empty()
        && part.is_valid(0)
        && part.key_value(0) == 0
        && part.keys().len() == 2
        && part.values().len() == 2
}

#[test]
fn dictionary_arrays_share_values(rt: HostRuntime) -> Result<(), Fault> {
    let alloc = rt.alloc();
    let values = Arc::new(alloc, two_texts(alloc)?)?;
    let array = three_keys(alloc, values.clone()?)?;
    assert!(rt; shares(&array.clone()?, &values)?);
    assert_eq!(rt; array.len(), 3);
    let part = array.sliced(1, 2);
    assert!(rt; shares(&part, &values)?);
    assert!(rt; has_two_keys(&part));
    Ok(())
}
