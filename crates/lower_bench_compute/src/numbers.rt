//! Columns of numbers, and errors.

use crate::columns::{filters, joins, mask, numbers, takes, texts};
use lower::datatypes::DataType;
use lower_arrays::array::{AnyArray, NullArray};
use lower_compute::concatenate::concatenate;
use lower_compute::error::ComputeError;
use lower_compute::filter::filter;
use lower_compute::take::take;
use std::alloc::Global;
use std::test::Fail;

// Slots, a mask, and the slots at which it is true.
const FILTERED: [(&[Option<i64>], &[Option<bool>], &[Option<i64>]); 6] = [
    (&[], &[], &[]),
    (&[Some(1)], &[Some(false)], &[]),
    (&[None, None], &[Some(true), Some(true)], &[None, None]),
    (&[Some(1), Some(2)], &[None, None], &[]),
    (
        &[Some(1), None, Some(3), Some(4)],
        &[Some(true), Some(true), None, Some(true)],
        &[Some(1), None, Some(4)],
    ),
    (
        &[Some(5), Some(6), Some(7)],
        &[Some(false), Some(true), Some(true)],
        &[Some(6), Some(7)],
    ),
];

#[test]
fn slots_are_filtered(rt: HostRuntime) -> Result<(), Fail> {
    let alloc = rt.alloc();
    for (slots, bits, expected) in FILTERED {
        let array = numbers(alloc, slots)?;
        assert!(rt;
            filters(alloc, array, bits, numbers(alloc, expected)?)?,
            "{slots:?} {bits:?}"
        );
    }
    Ok(())
}

// Masks of other lengths than two.
const OTHER_LENGTHS: [&[Option<bool>]; 3] = [&[], &[Some(true)], &[None, None, None]];

// Whether a mask is refused for its length by an array of two slots.
fn refuses(alloc: Global, bits: &[Option<bool>]) -> Result<bool, Fail> {
    let array = numbers(alloc, &[Some(1), Some(2)])?;
    let mask = mask(alloc, bits)?;
    Ok(matches!(filter(alloc, &array, &mask), Err(ComputeError::Length)))
}

#[test]
fn mask_has_the_length_of_the_array(rt: HostRuntime) -> Result<(), Fail> {
    for bits in OTHER_LENGTHS {
        assert!(rt; refuses(rt.alloc(), bits)?, "{bits:?}");
    }
    Ok(())
}

const SLOTS: [Option<i64>; 4] = [Some(7), None, Some(9), Some(10)];

// Indices, and the slots of `SLOTS` there.
const TAKEN: [(&[usize], &[Option<i64>]); 4] = [
    (&[], &[]),
    (&[3], &[Some(10)]),
    (&[2, 2, 1, 0], &[Some(9), Some(9), None, Some(7)]),
    (
        &[0, 1, 2, 3, 0],
        &[Some(7), None, Some(9), Some(10), Some(7)],
    ),
];

#[test]
fn slots_are_taken(rt: HostRuntime) -> Result<(), Fail> {
    let alloc = rt.alloc();
    for (indices, expected) in TAKEN {
        let array = numbers(alloc, &SLOTS)?;
        assert!(rt;
            takes(alloc, array, indices, numbers(alloc, expected)?)?,
            "{indices:?}"
        );
    }
    Ok(())
}

// Indices, and the position of the first that is past the end of `SLOTS`.
const PAST: [(&[usize], usize); 4] = [
    (&[4], 0),
    (&[0, 3, 5, 4], 2),
    (&[1, usize::MAX], 1),
    (&[usize::MAX - 1, 0], 0),
];

// The position of the index that is refused, if one is.
fn refused_position(alloc: Global, indices: &[usize]) -> Result<Option<usize>, Fail> {
    let array = numbers(alloc, &SLOTS)?;
    match take(alloc, &array, indices) {
        Ok(_) => Ok(None),
        Err(ComputeError::Index(position)) => Ok(Some(position)),
        Err(error) => Err(Fail::from(error)),
    }
}

#[test]
fn indices_past_the_end_are_refused(rt: HostRuntime) -> Result<(), Fail> {
    for (indices, position) in PAST {
        assert_eq!(rt; refused_position(rt.alloc(), indices)?, Some(position));
    }
    Ok(())
}

// Slots of two columns, and those of both.
const JOINED: [(&[Option<i64>], &[Option<i64>], &[Option<i64>]); 4] = [
    (&[], &[], &[]),
    (&[Some(1), None], &[], &[Some(1), None]),
    (&[], &[Some(3)], &[Some(3)]),
    (
        &[Some(1), None],
        &[Some(3), Some(4)],
        &[Some(1), None, Some(3), Some(4)],
    ),
];

#[test]
fn slots_are_concatenated(rt: HostRuntime) -> Result<(), Fail> {
    let alloc = rt.alloc();
    for (first, other, expected) in JOINED {
        let first = numbers(alloc, first)?;
        let other = numbers(alloc, other)?;
        assert!(rt; joins(alloc, first, other, numbers(alloc, expected)?)?);
    }
    Ok(())
}

#[test]
fn nothing_is_not_concatenated(rt: HostRuntime) -> Result<(), Fail> {
    let copy = concatenate(rt.alloc(), &[]);
    assert!(rt; matches!(copy, Err(ComputeError::NothingGiven)));
    Ok(())
}

// Whether two columns are refused for their types.
fn differ(alloc: Global, first: AnyArray, other: AnyArray) -> bool {
    matches!(
        concatenate(alloc, &[&first, &first, &other]),
        Err(ComputeError::Type)
    )
}

#[test]
fn other_types_are_not_concatenated(rt: HostRuntime) -> Result<(), Fail> {
    let alloc = rt.alloc();
    let whole = numbers(alloc, &[Some(1)])?;
    assert!(rt; differ(alloc, whole, texts(alloc, &[Some("a")])?));
    Ok(())
}

// How many slots a column has `times` times, or none if they are too many.
fn count(alloc: Global, array: AnyArray, times: usize) -> Result<Option<usize>, Fail> {
    let mut arrays = Vec::new(alloc);
    for _ in 0..times {
        arrays.push(&array)?;
    }
    match concatenate(alloc, &arrays) {
        Ok(copy) => Ok(Some(copy.len())),
        Err(ComputeError::Overflow) => Ok(None),
        Err(error) => Err(Fail::from(error)),
    }
}

#[test]
fn too_many_nulls_are_not_concatenated(rt: HostRuntime) -> Result<(), Fail> {
    let alloc = rt.alloc();
    let many = AnyArray::from(NullArray::try_new(DataType::Null, usize::MAX)?);
    assert_eq!(rt; count(alloc, many, 1)?, Some(usize::MAX));
    let many = AnyArray::from(NullArray::try_new(DataType::Null, usize::MAX)?);
    assert_eq!(rt; count(alloc, many, 2)?, None);
    Ok(())
}
