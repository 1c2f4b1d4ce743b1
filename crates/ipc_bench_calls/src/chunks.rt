//! Parts of chunks.

use arrow2_ipc::array::{AnyArray, Int64Array};
use arrow2_ipc::chunk::Chunk;
use arrow2_ipc::io::ipc::fault::Fault;
use std::alloc::{AllocError, Global};
use std::test::Fail;

fn numbers(alloc: Global, values: &[i64]) -> Result<AnyArray, AllocError> {
    Ok(AnyArray::from(Int64Array::from_slice(alloc, values)?))
}

// Parts of the slots 7, 8 and 9: where they begin, how long they are, and their numbers, if there
// is such a part.
const PARTS: [(usize, usize, Option<&[i64]>); 7] = [
    (0, 3, Some(&[7, 8, 9])),
    (1, 1, Some(&[8])),
    (3, 0, Some(&[])),
    (2, 2, None),
    (4, 0, None),
    (usize::MAX, 1, None),
    (1, usize::MAX, None),
];

fn chunk_of(alloc: Global, values: &[i64]) -> Result<Chunk<AnyArray>, Fault> {
    Chunk::try_new(vec![in alloc; numbers(alloc, values)?, numbers(alloc, values)?]?)
}

#[test]
fn parts_of_chunks_are_tried(rt: HostRuntime) -> Result<(), Fail> {
    for (offset, len, expected) in PARTS {
        let chunk = chunk_of(rt.alloc(), &[7, 8, 9])?;
        match (chunk.try_sliced(offset, len), expected) {
            (Some(part), Some(values)) => assert!(rt; part == chunk_of(rt.alloc(), values)?),
            (part, values) => assert_eq!(rt; part.is_some(), values.is_some()),
        }
    }
    Ok(())
}
