//! Streams are read, on a device that may fail or that pauses inside a message.

use crate::scenario::StreamFixture;
use arrow2_ipc::io::ipc::fault::{Failures, Fault, Reads, Watched};
use arrow2_ipc::io::ipc::read::{StreamReader, StreamState, read_stream_metadata};
use arrow2_ipc::io::ipc::write::{StreamWriter, WriteOptions};
use bench_devices::dictionary_chunks::DictionaryChunks;
use bench_devices::faulty::TestFile;
use bench_devices::fixtures::{Example, make_example};
use bench_devices::pieces::Pieces;
use bench_devices::trace::{Answer, Call, Trace};
use ipc_readers::read::begun::{Begun, Frame};
use ipc_readers::read::frame::read_frame;
use std::alloc::Global;

/// The traces of `read_stream` where a call of the device fails.
pub const ON_DEVICE_FAILURE: &[&str] = &[
    "
    metadata io
    device: 1 failure
    ",
    "
    metadata ok
    next io
    next end
    next end
    next end
    next end
    device: 1 failure
    ",
    "
    metadata ok
    next a
    next io
    next end
    next end
    next end
    device: 1 failure
    ",
    "
    metadata ok
    next a
    next b
    next io
    next end
    next end
    device: 1 failure
    ",
    "
    metadata ok
    next a
    next b
    next c
    next io
    next end
    device: 1 failure
    ",
    "
    metadata ok
    next a
    next b
    next c
    next end
    next end
    device: no failure
    ",
];

/// The traces of `read_stream` where an allocation may fail.
pub const ON_ALLOCATION_FAILURE: &[&str] = &[
    "
    metadata ok
    next a
    next b
    next c
    next end
    next end
    device: no failure
    ",
    "
    metadata memory
    device: no failure
    ",
    "
    metadata ok
    next memory
    next end
    next end
    next end
    next end
    device: no failure
    ",
    "
    metadata ok
    next a
    next memory
    next end
    next end
    next end
    device: no failure
    ",
    "
    metadata ok
    next a
    next b
    next memory
    next end
    next end
    device: no failure
    ",
];

/// Reads the stream of the three chunks, by five calls of a reader.
pub fn read_stream<D: TestFile>(
    alloc: Global,
    fixture: &StreamFixture,
    mut device: Watched<D>,
) -> Result<Trace, Fault> {
    let mut trace = Trace::new();
    match read_stream_metadata(alloc, &mut device) {
        Ok(metadata) => {
            trace.add(Call::Metadata, Answer::Success);
            let mut reader = StreamReader::new(alloc, &mut device, metadata, None)?;
            for _ in 0..5 {
                trace.add(Call::Next, next_answer(&fixture.chunks, &mut reader));
            }
        }
        Err(fault) => trace.add(Call::Metadata, Answer::of_fault(&fault)),
    }
    trace.add_failures(device.failures());
    Ok(trace)
}

/// Which of the dictionary chunks is next, or what else the reader returns.
pub fn next_answer<R: Reads + Drop>(
    chunks: &DictionaryChunks,
    reader: &mut StreamReader<R>,
) -> Answer {
    match reader.next() {
        Some(Ok(StreamState::Some(chunk))) => chunks.answer(&chunk),
        Some(Ok(StreamState::Waiting)) => Answer::Waiting,
        Some(Err(fault)) => Answer::of_fault(&fault),
        None => Answer::End,
    }
}

/// Whether the example's chunk is next, or what else the reader returns.
pub fn next_example<R: Reads + Drop>(reader: &mut StreamReader<R>, example: &Example) -> Answer {
    match reader.next() {
        Some(Ok(StreamState::Some(chunk))) => example.answer(&chunk),
        Some(Ok(StreamState::Waiting)) => Answer::Waiting,
        Some(Err(fault)) => Answer::of_fault(&fault),
        None => Answer::End,
    }
}

fn three_frames(device: &mut Pieces, metadata: &mut Vec<u8>) -> Result<[Frame; 3], Fault> {
    let mut begun = Begun::new();
    let mut frames = [Frame::Message; 3];
    for frame in &mut frames {
        *frame = read_frame(device, &mut begun, metadata)?;
    }
    Ok(frames)
}

// The prefix comes in three pieces.
#[test]
fn frame_waits_inside_its_prefix(rt: HostRuntime) -> Result<(), Fault> {
    let alloc = rt.alloc();
    let pieces: [&[u8]; 3] = [&[255, 255], &[255], &[255, 2, 0, 0, 0, 7, 8]];
    let mut device = Pieces::new(alloc, &pieces)?;
    let mut metadata = Vec::new(alloc);
    let frames = three_frames(&mut device, &mut metadata)?;
    assert!(rt; frames == [Frame::Waiting, Frame::Waiting, Frame::Message]);
    assert_eq!(rt; metadata.as_slice(), [7, 8].as_slice());
    Ok(())
}

// The schema message of the example's stream.
fn schema_message(alloc: Global, example: &Example) -> Result<Vec<u8>, Fault> {
    let mut writer = StreamWriter::new(alloc, Vec::new(alloc), WriteOptions::default());
    writer.start(&example.schema, None)?;
    Ok(writer.into_inner())
}

// The example's stream, of one chunk.
fn example_stream(alloc: Global, example: &Example) -> Result<Vec<u8>, Fault> {
    let mut writer = StreamWriter::new(alloc, Vec::new(alloc), WriteOptions::default());
    writer.start(&example.schema, None)?;
    writer.write(&example.chunk, None)?;
    writer.finish()?;
    Ok(writer.into_inner())
}

fn part(bytes: &[u8], start: usize, end: usize) -> &[u8] {
    bytes.get(start..end).unwrap_or(&[])
}

// What six calls of a reader return.
fn read_pieces(alloc: Global, mut device: Pieces, example: &Example) -> Result<Trace, Fault> {
    let metadata = read_stream_metadata(alloc, &mut device)?;
    let mut reader = StreamReader::new(alloc, device, metadata, None)?;
    let mut trace = Trace::new();
    for _ in 0..6 {
        trace.add(Call::Next, next_example(&mut reader, example));
    }
    trace.unless_out_of_memory()
}

const CHUNK_AFTER_THREE_PAUSES: &str = "
    next waiting
    next waiting
    next waiting
    next example
    next end
    next end
    ";

// The device pauses after the first byte of a record batch message, after the second and after the
// third.
#[test]
fn reader_waits_inside_a_prefix(rt: HostRuntime) -> Result<(), Fault> {
    let alloc = rt.alloc();
    let example = make_example(alloc)?;
    let bytes = example_stream(alloc, &example)?;
    let start = schema_message(alloc, &example)?.len();
    let one = start.saturating_add(1);
    let two = start.saturating_add(2);
    let three = start.saturating_add(3);
    let pieces: [&[u8]; 4] = [
        part(&bytes, 0, one),
        part(&bytes, one, two),
        part(&bytes, two, three),
        part(&bytes, three, bytes.len()),
    ];
    let device = Pieces::new(alloc, &pieces)?;
    let trace = read_pieces(alloc, device, &example)?;
    assert!(rt;
        trace.is(CHUNK_AFTER_THREE_PAUSES),
        "expected:{CHUNK_AFTER_THREE_PAUSES}\ngot:{trace}"
    );
    Ok(())
}
