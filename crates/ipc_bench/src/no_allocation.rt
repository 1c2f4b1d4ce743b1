//! Calls that allocate nothing, so that they succeed whichever allocation fails. Their arguments
//! are made before.
//!
//! In an ordinary run no allocation fails. `make refused` runs the tests with each of their
//! allocations failing in turn.

use arrow2_ipc::array::{AnyArray, is_dictionary};
use arrow2_ipc::chunk::{Chunk, equal_rows};
use arrow2_ipc::io::ipc::fault::{Fault, MemFile};
use arrow2_ipc::io::ipc::fits;
use arrow2_ipc::io::ipc::read::{
    ProjectionIter, ProjectionResult, StreamReader, is_prepared, is_projection, is_reordering,
    read_stream_metadata,
};
use arrow2_ipc::io::ipc::write::{Record, StreamWriter, WriteOptions, default_ipc_fields};
use bench_devices::fixtures::{Example, empty_buffer, make_example};
use std::alloc::Global;
use std::collections::HashMap;

// The stream of the example's schema, without chunks.
fn empty_stream(alloc: Global, example: &Example) -> Result<Vec<u8>, Fault> {
    let mut writer = StreamWriter::new(alloc, empty_buffer(alloc)?, WriteOptions::default());
    writer.start(&example.schema, None)?;
    writer.finish()?;
    Ok(writer.into_inner())
}

// Whether this is a reader of a schema of two columns, which has ended after one call, and returns
// the device that it read from.
fn is_reader_without_chunks(
    reader: Result<StreamReader<MemFile<&[u8]>>, Fault>,
    bytes: &[u8],
) -> bool {
    match reader {
        Ok(mut reader) => {
            reader.next().is_none()
                && reader.is_finished()
                && reader.next().is_none()
                && reader.schema().fields.len() == 2
                && reader.metadata().schema.fields.len() == 2
                && reader.into_inner().into_inner() == bytes
        }
        Err(_) => false,
    }
}

#[test]
fn stream_reader_allocates_nothing(rt: HostRuntime) -> Result<(), Fault> {
    let alloc = rt.alloc();
    let bytes = empty_stream(alloc, &make_example(alloc)?)?;
    let mut input = MemFile::new(bytes.as_slice());
    let metadata = read_stream_metadata(alloc, &mut input)?;
    let reader = StreamReader::new(alloc, input, metadata, None);
    assert!(rt; is_reader_without_chunks(reader, &bytes));
    Ok(())
}

// How many of three columns are selected: the first and the last.
fn count_selected() -> usize {
    let mut count = 0usize;
    let projection = [0, 2];
    if !is_projection(&projection, 3) || !is_prepared(&projection, 3) {
        return count;
    }
    for item in ProjectionIter::new(&projection, [7, 8, 9].iter()) {
        if let ProjectionResult::Selected(_) = item {
            count = count.saturating_add(1);
        }
    }
    count
}

// Whether there are two columns, of the same length, and none is a dictionary column.
fn are_two_plain(arrays: &[AnyArray]) -> bool {
    for array in arrays {
        if is_dictionary(array) {
            return false;
        }
    }
    equal_rows(arrays) && arrays.len() == 2
}

// Whether a record has these columns, and no ids.
fn has_plain_columns(record: &Record<'_>) -> bool {
    record.fields().is_none() && are_two_plain(record.columns().arrays())
}

// Whether a chunk has these columns, and so does a record of it.
fn is_plain_chunk(chunk: &Chunk<AnyArray>) -> bool {
    has_plain_columns(&Record::borrowed(chunk, None)) && chunk.len() == 2 && !chunk.is_empty()
}

// Whether these columns make a chunk, which returns them.
fn make_plain_chunk(arrays: Vec<AnyArray>) -> bool {
    match Chunk::try_new(arrays) {
        Ok(chunk) => are_two_plain(&chunk.into_arrays()),
        Err(_) => false,
    }
}

#[test]
fn predicates_allocate_nothing(rt: HostRuntime) -> Result<(), Fault> {
    let alloc = rt.alloc();
    let example = make_example(alloc)?;
    let ids = default_ipc_fields(alloc, &example.schema.fields)?;
    assert!(rt; fits(&example.schema.fields, &ids));
    assert_eq!(rt; count_selected(), 2);
    assert!(rt; is_reordering(&HashMap::new(alloc), 0));
    assert!(rt; is_plain_chunk(&example.chunk));
    assert!(rt; make_plain_chunk(example.chunk.into_arrays()));
    Ok(())
}

#[test]
fn records_allocate_nothing(rt: HostRuntime) -> Result<(), Fault> {
    let alloc = rt.alloc();
    let owned = make_example(alloc)?.chunk;
    let made = make_example(alloc)?.chunk;
    assert!(rt; has_plain_columns(&Record::owned(owned, None)));
    assert!(rt; has_plain_columns(&Record::from(made)));
    Ok(())
}
