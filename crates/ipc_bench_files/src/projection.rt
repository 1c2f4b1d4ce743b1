//! Some columns and rows of a file are read.

use crate::example_file::make_example_file;
use arrow2_ipc::array::AnyArray;
use arrow2_ipc::chunk::Chunk;
use arrow2_ipc::io::ipc::fault::Fault;
use arrow2_ipc::io::ipc::read::read_file_columns;
use bench_devices::fixtures::int32;
use std::alloc::Global;

// The columns of the example's file, the second one first, up to this number of rows.
fn read_turned(
    alloc: Global,
    bytes: &[u8],
    limit: usize,
) -> Result<Option<Chunk<AnyArray>>, Fault> {
    let projection = Some(Vec::from_slice(alloc, &[1usize, 0])?);
    match read_file_columns(alloc, bytes, projection, Some(limit))? {
        Some(mut file) => Ok(file.chunks.pop()),
        None => Ok(None),
    }
}

// The first rows of the columns `y` and `x` of the example.
fn turned(alloc: Global, y: &[i32], x: &[i32]) -> Result<Option<Chunk<AnyArray>>, Fault> {
    let columns = vec![in alloc; int32(alloc, y)?, int32(alloc, x)?]?;
    Ok(Some(Chunk::try_new(columns)?))
}

#[test]
fn first_rows_of_projected_columns_are_read(rt: HostRuntime) -> Result<(), Fault> {
    let alloc = rt.alloc();
    let bytes = make_example_file(alloc)?;
    assert!(rt; read_turned(alloc, &bytes, 0)? == turned(alloc, &[], &[])?);
    assert!(rt; read_turned(alloc, &bytes, 1)? == turned(alloc, &[1], &[-1])?);
    assert!(rt; read_turned(alloc, &bytes, 3)? == turned(alloc, &[1, -1], &[-1, 1])?);
    Ok(())
}
