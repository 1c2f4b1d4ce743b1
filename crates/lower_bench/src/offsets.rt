//! Offsets that are built slot by slot.

use lower::offset::{Offset, OffsetsBuffer};
use lower::types::{Endianness, append_bytes};
use lower_builders::error::BuildError;
use lower_builders::offsets::Offsets;
use std::alloc::Global;
use std::test::Fail;

/// Whether offsets of any type are these numbers.
pub fn are_offsets<O: Offset>(offsets: &OffsetsBuffer<O>, expected: &[usize]) -> bool {
    if offsets.len() != expected.len() {
        return false;
    }
    for (i, offset) in expected.iter().enumerate() {
        if i >= offsets.len() || offsets.get(i) != *offset {
            return false;
        }
    }
    true
}

// Lengths of slots, and their offsets: the first is 0, and each slot ends where the next begins.
const OFFSETS: [(&[usize], &[usize]); 5] = [
    (&[], &[0]),
    (&[0], &[0, 0]),
    (&[3], &[0, 3]),
    (&[3, 0, 2], &[0, 3, 3, 5]),
    (
        &[1, 1, 1, 1, 1, 1, 1, 1, 1],
        &[0, 1, 2, 3, 4, 5, 6, 7, 8, 9],
    ),
];

fn pushed<O: Offset>(alloc: Global, lengths: &[usize]) -> Result<Offsets<O>, BuildError> {
    let mut offsets = Offsets::new(alloc)?;
    for len in lengths {
        offsets.try_push_usize(*len)?;
    }
    Ok(offsets)
}

// Whether offsets are these, by all calls that read them.
fn have_numbers<O: Offset>(offsets: Offsets<O>, expected: &[usize]) -> Result<bool, BuildError> {
    let slots = offsets.len_proxy();
    let last = offsets.last();
    let all = offsets.finish()?;
    Ok(
        are_offsets(&all, expected)
            && slots == expected.len().saturating_sub(1)
            && Some(&last) == expected.last(),
    )
}

fn are_built<O: Offset>(
    alloc: Global,
    lengths: &[usize],
    expected: &[usize],
) -> Result<bool, BuildError> {
    let one_by_one = have_numbers(pushed::<O>(alloc, lengths)?, expected)?;
    let at_once = have_numbers(Offsets::<O>::try_from_lengths(alloc, lengths)?, expected)?;
    Ok(one_by_one && at_once)
}

#[test]
fn offsets_are_sums_of_lengths(rt: HostRuntime) -> Result<(), Fail> {
    for (lengths, expected) in OFFSETS {
        assert!(rt; are_built::<i32>(rt.alloc(), lengths, expected)?);
        assert!(rt; are_built::<i64>(rt.alloc(), lengths, expected)?);
    }
    Ok(())
}

fn bytes_of<O: Offset>(alloc: Global) -> Result<Vec<u8>, BuildError> {
    let offsets = pushed::<O>(alloc, &[1, 2])?.finish()?;
    let mut bytes = Vec::new(alloc);
    append_bytes(&mut bytes, offsets.as_slice(), Endianness::Little)?;
    Ok(bytes)
}

#[test]
fn offsets_have_32_or_64_bits(rt: HostRuntime) -> Result<(), Fail> {
    assert_eq!(rt;
        bytes_of::<i32>(rt.alloc())?.as_slice(),
        [0, 0, 0, 0, 1, 0, 0, 0, 3, 0, 0, 0].as_slice()
    );
    assert_eq!(rt;
        bytes_of::<i64>(rt.alloc())?.as_slice(),
        [
            0, 0, 0, 0, 0, 0, 0, 0, 1, 0, 0, 0, 0, 0, 0, 0, 3, 0, 0, 0, 0, 0, 0, 0
        ]
        .as_slice()
    );
    Ok(())
}

#[test]
fn reserved_memory_has_no_slots(rt: HostRuntime) -> Result<(), Fail> {
    let mut offsets = Offsets::<i32>::with_capacity(rt.alloc(), 4)?;
    offsets.reserve(9)?;
    assert_eq!(rt; offsets.len_proxy(), 0);
    offsets.try_push_usize(2)?;
    assert!(rt; have_numbers(offsets, &[0, 2])?);
    Ok(())
}

// The greatest offsets of 32 and of 64 bits.
const MAX_32: usize = 0x7FFF_FFFF;

const MAX_64: usize = 0x7FFF_FFFF_FFFF_FFFF;

// Whether an offset is refused because it is above the maximum of its type.
fn is_overflow(outcome: Result<(), BuildError>) -> Result<bool, BuildError> {
    match outcome {
        Err(BuildError::Memory) => Err(BuildError::Memory),
        Err(BuildError::OffsetOverflow) => Ok(true),
        _ => Ok(false),
    }
}

// Whether a slot of this length is refused, and the offsets are `expected` after two more slots
// without bytes.
fn is_refused<O: Offset>(
    mut offsets: Offsets<O>,
    len: usize,
    expected: &[usize],
) -> Result<bool, BuildError> {
    let refused = is_overflow(offsets.try_push_usize(len))?;
    offsets.try_push_usize(0)?;
    offsets.try_push_usize(0)?;
    let same = have_numbers(offsets, expected)?;
    Ok(refused && same)
}

#[test]
fn offset_above_32_bits_is_refused(rt: HostRuntime) -> Result<(), Fail> {
    let alloc = rt.alloc();
    let none = [0, 0, 0];
    assert!(rt; is_refused(pushed::<i32>(alloc, &[])?, MAX_32 + 1, &none)?);
    assert!(rt; is_refused(pushed::<i32>(alloc, &[])?, usize::MAX, &none)?);
    let most = [0, MAX_32, MAX_32, MAX_32];
    assert!(rt; is_refused(pushed::<i32>(alloc, &[MAX_32])?, 1, &most)?);
    Ok(())
}

#[test]
fn offset_above_64_bits_is_refused(rt: HostRuntime) -> Result<(), Fail> {
    let alloc = rt.alloc();
    let more = [0, MAX_32 + 1];
    assert!(rt; have_numbers(pushed::<i64>(alloc, &[MAX_32 + 1])?, &more)?);
    let none = [0, 0, 0];
    assert!(rt; is_refused(pushed::<i64>(alloc, &[])?, MAX_64 + 1, &none)?);
    let most = [0, MAX_64, MAX_64, MAX_64];
    assert!(rt; is_refused(pushed::<i64>(alloc, &[MAX_64])?, usize::MAX, &most)?);
    Ok(())
}

// Whether the offsets of slots of these lengths are refused.
fn are_refused<O: Offset>(alloc: Global, lengths: &[usize]) -> Result<bool, BuildError> {
    match Offsets::<O>::try_from_lengths(alloc, lengths) {
        Ok(_) => Ok(false),
        Err(error) => is_overflow(Err(error)),
    }
}

#[test]
fn lengths_above_the_maximum_are_refused(rt: HostRuntime) -> Result<(), Fail> {
    let alloc = rt.alloc();
    assert!(rt; are_refused::<i32>(alloc, &[1, MAX_32])?);
    assert!(rt; !are_refused::<i64>(alloc, &[1, MAX_32])?);
    assert!(rt; are_refused::<i64>(alloc, &[1, MAX_64])?);
    Ok(())
}
