//! Allocations that fail, and what a reader, a writer and a tracker do then.
//!
//! In an ordinary run no allocation fails. `make refused` runs the tests with each of their
//! allocations failing in turn.

use crate::encoding::{count_dictionaries, make_ids};
use crate::scenario::{Scenario, ScenarioRun, make_stream_fixture};
use crate::{message_write, stream_read, stream_write};
use arrow2_ipc::array::{AnyArray, is_dictionary};
use arrow2_ipc::chunk::Chunk;
use arrow2_ipc::io::ipc::IpcField;
use arrow2_ipc::io::ipc::fault::{ArgFault, Fault, MemFile};
use arrow2_ipc::io::ipc::read::{StreamReader, StreamState, read_stream_metadata};
use arrow2_ipc::io::ipc::write::{DictionaryTracker, StreamWriter, WriteOptions};
use bench_devices::dictionary_chunks::dictionary_chunk;
use bench_devices::failing_runs::FailingRun;
use bench_devices::faulty::NEVER;
use bench_devices::fixtures::{Example, empty_buffer, error_of, make_example};
use bench_devices::trace::Alternatives;
use std::alloc::Global;

// Each scenario, and its traces: first that without a failed allocation, then those of which it may
// have another where one fails. A writer's call that failed is made again. A reader of a stream
// ends.
const SCENARIOS: [(&str, Scenario, &[&str]); 3] = [
    (
        "a stream is written",
        Scenario::WriteStream,
        stream_write::ON_ALLOCATION_FAILURE,
    ),
    (
        "a stream is read",
        Scenario::ReadStream,
        stream_read::ON_ALLOCATION_FAILURE,
    ),
    (
        "messages are written",
        Scenario::WriteMessages,
        message_write::ON_ALLOCATION_FAILURE,
    ),
];

#[test]
fn any_allocation_of_a_scenario_may_fail(rt: HostRuntime) -> Result<(), Fault> {
    let alloc = rt.alloc();
    let fixture = make_stream_fixture(alloc, false)?;
    for (name, scenario, expected) in SCENARIOS {
        let run = ScenarioRun {
            fixture: &fixture,
            scenario,
        };
        let trace = run.run(alloc, NEVER)?;
        let texts = Alternatives(expected);
        assert!(rt;
            trace.is_one_of(expected),
            "{name}\nexpected one of:{texts}\ngot:{trace}"
        );
    }
    Ok(())
}

// Writes the stream of five equal chunks.
fn write_five(writer: &mut StreamWriter<Vec<u8>>, example: &Example) -> Result<(), Fault> {
    writer.start(&example.schema, None)?;
    for _ in 0..5 {
        writer.write(&example.chunk, None)?;
    }
    writer.finish()
}

fn make_stream(alloc: Global, example: &Example) -> Result<Vec<u8>, Fault> {
    let mut writer = StreamWriter::new(alloc, empty_buffer(alloc)?, WriteOptions::default());
    write_five(&mut writer, example)?;
    Ok(writer.into_inner())
}

// Whether the next chunk is the expected one.
fn is_next(
    reader: &mut StreamReader<MemFile<&[u8]>>,
    expected: &Chunk<AnyArray>,
) -> Result<bool, Fault> {
    match reader.next() {
        Some(Ok(StreamState::Some(chunk))) => Ok(chunk == *expected),
        Some(Err(fault)) => Err(fault),
        _ => Ok(false),
    }
}

// How many chunks of the stream at the front of the input are the expected one, and the input after
// the stream.
fn count_chunks<'a>(
    alloc: Global,
    mut input: MemFile<&'a [u8]>,
    expected: &Chunk<AnyArray>,
) -> Result<(usize, MemFile<&'a [u8]>), Fault> {
    let metadata = read_stream_metadata(alloc, &mut input)?;
    let mut reader = StreamReader::new(alloc, input, metadata, None)?;
    let mut count = 0usize;
    for _ in 0..6 {
        if is_next(&mut reader, expected)? {
            count = count.saturating_add(1);
        }
    }
    Ok((count, reader.into_inner()))
}

// The counts of two streams, one after the other.
fn count_twice(
    alloc: Global,
    bytes: &[u8],
    expected: &Chunk<AnyArray>,
) -> Result<[usize; 2], Fault> {
    let (first, rest) = count_chunks(alloc, MemFile::new(bytes), expected)?;
    let (second, _) = count_chunks(alloc, rest, expected)?;
    Ok([first, second])
}

#[test]
fn streams_are_read_after_a_failed_allocation(rt: HostRuntime) -> Result<(), Fault> {
    let alloc = rt.alloc();
    let example = make_example(alloc)?;
    let mut bytes = make_stream(alloc, &example)?;
    bytes.append(&mut make_stream(alloc, &example)?)?;
    let counts = match count_twice(alloc, &bytes, &example.chunk) {
        Err(Fault::Memory) => count_twice(alloc, &bytes, &example.chunk)?,
        counts => counts?,
    };
    assert!(rt; counts == [5, 5]);
    Ok(())
}

// How many dictionaries have to be written with a chunk whose dictionary is this number. A call
// that failed for want of memory is made again.
fn count_dictionaries_again(
    alloc: Global,
    number: i32,
    ids: &[IpcField],
    tracker: &mut DictionaryTracker,
) -> Result<usize, Fault> {
    let chunk = dictionary_chunk(alloc, &[0], &[number])?;
    match count_dictionaries(alloc, &chunk, ids, tracker) {
        Err(Fault::Memory) => count_dictionaries(alloc, &chunk, ids, tracker),
        count => count,
    }
}

// A call that fails for want of memory leaves the tracker as it was.
#[test]
fn chunk_is_encoded_after_a_failed_allocation(rt: HostRuntime) -> Result<(), Fault> {
    let alloc = rt.alloc();
    let ids = make_ids(alloc)?;
    let mut tracker = DictionaryTracker::new(alloc, false);
    assert_eq!(rt; count_dictionaries_again(alloc, 5, &ids, &mut tracker)?, 1);
    assert_eq!(rt; count_dictionaries_again(alloc, 5, &ids, &mut tracker)?, 0);
    assert_eq!(rt; count_dictionaries_again(alloc, 6, &ids, &mut tracker)?, 1);
    Ok(())
}

// Whether the values of a chunk's columns are new under the id 7.
fn insert(chunk: &Chunk<AnyArray>, tracker: &mut DictionaryTracker) -> Result<bool, Fault> {
    let mut is_new = false;
    for column in chunk.iter() {
        if is_dictionary(column) {
            is_new = tracker.insert(7, column)?;
        }
    }
    Ok(is_new)
}

// Whether this number is new as the dictionary of the id 7. A call that failed for want of memory
// is made again.
fn insert_again(
    alloc: Global,
    number: i32,
    tracker: &mut DictionaryTracker,
) -> Result<bool, Fault> {
    let chunk = dictionary_chunk(alloc, &[0], &[number])?;
    match insert(&chunk, tracker) {
        Err(Fault::Memory) => insert(&chunk, tracker),
        inserted => inserted,
    }
}

#[test]
fn dictionary_is_recorded_after_a_failed_allocation(rt: HostRuntime) -> Result<(), Fault> {
    let alloc = rt.alloc();
    let mut tracker = DictionaryTracker::new(alloc, true);
    assert!(rt; insert_again(alloc, 5, &mut tracker)?);
    assert!(rt; !insert_again(alloc, 5, &mut tracker)?);
    let replaced = error_of(insert_again(alloc, 6, &mut tracker))?;
    assert!(rt;
        matches!(
            replaced,
            Some(Fault::Argument(ArgFault::DictionaryReplaced(7)))
        )
    );
    assert!(rt; !insert_again(alloc, 5, &mut tracker)?);
    Ok(())
}
