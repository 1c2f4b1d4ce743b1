//! Arrays are appended to the parts of a record batch.

use arrow2_ipc::array::AnyArray;
use arrow2_ipc::io::ipc::fault::Fault;
use arrow2_ipc::io::ipc::format::{Buffer, FieldNode};
use arrow2_ipc::io::ipc::write::write;
use bench_devices::column_kinds::{lists, numbers};
use std::alloc::Global;

// The parts of a record batch.
#[derive(Drop)]
struct Parts {
    nodes: Vec<FieldNode>,
    buffers: Vec<Buffer>,
    body: Vec<u8>,
    offset: i64,
}

// How many nodes, buffers and bytes there are, and the offset after them.
fn lengths(parts: &Parts) -> (usize, usize, usize, i64) {
    let Parts {
        nodes,
        buffers,
        body,
        offset,
    } = parts;
    (nodes.len(), buffers.len(), body.len(), *offset)
}

fn append(alloc: Global, array: &AnyArray, parts: &mut Parts) -> Result<(), Fault> {
    if parts.offset < 0 {
        return Err(Fault::Ended);
    }
    write(
        alloc,
        array,
        &mut parts.buffers,
        &mut parts.body,
        &mut parts.nodes,
        &mut parts.offset,
        true,
    )
}

// The same. A call that failed for want of memory left the parts as they were, and is made again.
fn append_again(alloc: Global, array: &AnyArray, parts: &mut Parts) -> Result<(), Fault> {
    let before = lengths(parts);
    match append(alloc, array, parts) {
        Err(Fault::Memory) if lengths(parts) == before => append(alloc, array, parts),
        Err(Fault::Memory) => Err(Fault::Ended),
        appended => appended,
    }
}

// The numbers have a validity bitmap and values. The lists have offsets, and the numbers in them.
#[test]
fn arrays_are_appended_after_a_failed_allocation(rt: HostRuntime) -> Result<(), Fault> {
    let alloc = rt.alloc();
    let mut parts = Parts {
        nodes: Vec::new(alloc),
        buffers: Vec::new(alloc),
        body: Vec::new(alloc),
        offset: 0,
    };
    append_again(alloc, &AnyArray::from(numbers(alloc)?), &mut parts)?;
    assert_eq!(rt; lengths(&parts), (1, 2, 128, 128));
    append_again(alloc, &AnyArray::from(lists(alloc)?), &mut parts)?;
    assert_eq!(rt; lengths(&parts), (3, 6, 320, 320));
    Ok(())
}
