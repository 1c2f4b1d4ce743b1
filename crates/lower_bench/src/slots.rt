//! Slots by their index, slots in a loop, equal values, and parts of arrays.

use lower_arrays::array::{AnyArray, Int64Array};
use lower_arrays::value::{Nesting, Scalar, Value};
use lower_builders::error::BuildError;
use lower_builders::utf8::MutableUtf8Array;
use std::alloc::{AllocError, Global};
use std::test::Fail;

// The slots of `texts`.
const TEXTS: [Option<&str>; 3] = [Some("a"), None, Some("")];

fn texts(alloc: Global) -> Result<AnyArray, BuildError> {
    let array = MutableUtf8Array::<i32>::from_options(alloc, &TEXTS)?;
    Ok(AnyArray::from(array.finish()?))
}

fn value_of(slot: Option<&str>) -> Value<'_> {
    match slot {
        Some(text) => Value::Text(text),
        None => Value::Null,
    }
}

#[test]
fn slots_are_found_by_their_index(rt: HostRuntime) -> Result<(), Fail> {
    let array = texts(rt.alloc())?;
    for (i, slot) in TEXTS.iter().enumerate() {
        assert!(rt; array.slot(i) == Some(value_of(*slot)), "{i}");
    }
    assert!(rt; array.slot(3).is_none());
    assert!(rt; array.slot(usize::MAX).is_none());
    Ok(())
}

#[test]
fn slots_are_visited_in_order(rt: HostRuntime) -> Result<(), Fail> {
    let array = texts(rt.alloc())?;
    let mut values = array.iter();
    for slot in TEXTS {
        assert!(rt; values.next() == Some(value_of(slot)));
    }
    assert!(rt; values.next().is_none());
    Ok(())
}

fn numbers(alloc: Global, values: &[i64]) -> Result<AnyArray, AllocError> {
    Ok(AnyArray::from(Int64Array::from_slice(alloc, values)?))
}

// Values of which no two are equal, and their texts.
fn different() -> [(Value<'static>, &'static str); 6] {
    [
        (Value::Null, "Null"),
        (Value::Truth(false), "Truth(false)"),
        (Value::Number(Scalar::Whole(0)), "Number(Whole(0))"),
        (Value::Number(Scalar::Whole(-1)), "Number(Whole(-1))"),
        (Value::Bytes(&[97]), "Bytes([97])"),
        (Value::Text("a"), "Text(\"a\")"),
    ]
}

#[test]
fn values_equal_themselves_alone(rt: HostRuntime) -> Result<(), Fail> {
    for (i, (value, _)) in different().iter().enumerate() {
        for (j, (other, _)) in different().iter().enumerate() {
            assert_eq!(rt; *value == *other, i == j, "{i} {j}");
        }
    }
    Ok(())
}

#[test]
fn values_have_texts(rt: HostRuntime) -> Result<(), Fail> {
    for (value, text) in different() {
        let shown = format!(in rt.alloc(); "{value:?}")?;
        assert_eq!(rt; shown.as_str(), text);
    }
    Ok(())
}

// Lists of slots of 1, 2, 1, 2: where they begin, how long they are, and whether the list equals
// the first two slots. The last begins after the end.
const LISTS: [(usize, usize, bool); 5] = [
    (0, 2, true),
    (2, 2, true),
    (1, 2, false),
    (0, 1, false),
    (5, 2, false),
];

#[test]
fn lists_are_equal_by_their_slots(rt: HostRuntime) -> Result<(), Fail> {
    let slots = [numbers(rt.alloc(), &[1, 2, 1, 2])?];
    let first = Value::Nested(Nesting::List(2), &slots, 0);
    for (start, len, is_equal) in LISTS {
        let list = Value::Nested(Nesting::List(len), &slots, start);
        assert_eq!(rt; list == first, is_equal, "{start} {len}");
    }
    Ok(())
}

// Parts of the slots 7, 8 and 9: where they begin, how long they are, and their numbers, if there
// is such a part.
const PARTS: [(usize, usize, Option<&[i64]>); 7] = [
    (0, 3, Some(&[7, 8, 9])),
    (1, 1, Some(&[8])),
    (3, 0, Some(&[])),
    (2, 2, None),
    (4, 0, None),
    (usize::MAX, 1, None),
    (1, usize::MAX, None),
];

#[test]
fn parts_of_arrays_are_tried(rt: HostRuntime) -> Result<(), Fail> {
    for (offset, len, expected) in PARTS {
        let array = numbers(rt.alloc(), &[7, 8, 9])?;
        match (array.try_sliced(offset, len), expected) {
            (Some(part), Some(values)) => assert!(rt; part == numbers(rt.alloc(), values)?),
            (part, values) => assert_eq!(rt; part.is_some(), values.is_some()),
        }
    }
    Ok(())
}
