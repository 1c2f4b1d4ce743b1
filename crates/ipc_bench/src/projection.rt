//! Columns are projected, in any order.

use arrow2_ipc::array::{AnyArray, equal};
use arrow2_ipc::chunk::Chunk;
use arrow2_ipc::io::ipc::fault::Fault;
use arrow2_ipc::io::ipc::read::{
    ProjectionIter, ProjectionResult, apply_projection, is_prepared, is_projection, is_reordering,
    prepare_projection,
};
use bench_devices::fixtures::{Example, int32, make_example};
use std::alloc::Global;

// The projected columns of the example, in the order of the projection.
fn project(alloc: Global, projection: Vec<usize>) -> Result<Chunk<AnyArray>, Fault> {
    let Example { schema, chunk } = make_example(alloc)?;
    if !is_projection(&projection, schema.fields.len()) {
        return Err(Fault::Ended);
    }
    let (_sorted, positions, _fields) = prepare_projection(alloc, &schema.fields, projection)?;
    if !is_reordering(&positions, chunk.arrays().len()) {
        return Err(Fault::Ended);
    }
    apply_projection(alloc, chunk, &positions)
}

fn is_first(chunk: &Chunk<AnyArray>, column: &AnyArray) -> bool {
    match chunk.arrays().first() {
        Some(first) => equal(first, column),
        None => false,
    }
}

#[test]
fn columns_are_in_the_order_of_the_projection(rt: HostRuntime) -> Result<(), Fault> {
    let alloc = rt.alloc();
    let reversed = project(alloc, Vec::from_slice(alloc, &[1usize, 0])?)?;
    let second = int32(alloc, &[1, -1])?;
    assert!(rt; is_first(&reversed, &second));
    Ok(())
}

// A selected number, else 0.
fn if_selected(item: ProjectionResult<&u32>) -> u32 {
    match item {
        ProjectionResult::Selected(number) => *number,
        ProjectionResult::NotSelected(_) => 0,
    }
}

// The sum of the numbers that a projection selects.
fn sum_of_selected(projection: &[usize], numbers: &[u32]) -> u32 {
    if !is_prepared(projection, numbers.len()) {
        return 0;
    }
    let mut sum = 0u32;
    for item in ProjectionIter::new(projection, numbers.iter()) {
        sum = sum.saturating_add(if_selected(item));
    }
    sum
}

#[test]
fn iterator_marks_the_selected_items(rt: HostRuntime) -> Result<(), Fault> {
    assert_eq!(rt;
        sum_of_selected(&[0, 2, 4], &[1, 20, 300, 4000, 50000]),
        50301
    );
    assert_eq!(rt; sum_of_selected(&[], &[1, 20]), 0);
    Ok(())
}
