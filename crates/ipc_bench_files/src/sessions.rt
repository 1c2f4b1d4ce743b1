//! Sessions write one file, one after the other.

use arrow2_ipc::array::AnyArray;
use arrow2_ipc::chunk::Chunk;
use arrow2_ipc::datatypes::{Metadata, Schema};
use arrow2_ipc::io::ipc::fault::{ArgFault, Fault, StateFault};
use arrow2_ipc::io::ipc::read::{read_file, read_stream};
use arrow2_ipc::io::ipc::write::{
    FileWriter, WriteOptions, WrittenSessions, write_chunks, write_sessions,
};
use bench_devices::dictionary_chunks::{
    DictionaryChunks, dictionary_chunk, make_dictionary_chunks,
};
use bench_devices::fixtures::empty_buffer;
use bench_devices::trace::{Answer, Call, Trace};
use std::alloc::Global;

/// The chunk `a`.
pub fn only_a(alloc: Global) -> Result<Vec<Chunk<AnyArray>>, Fault> {
    Ok(vec![in alloc; dictionary_chunk(alloc, &[1, 0], &[5, 6])?]?)
}

// Sessions of the chunks `a`, `b` and `c`, where the dictionary of `c` can't replace that of `a`;
// of no chunk; and of `a`.
fn later_sessions(alloc: Global) -> Result<Vec<Vec<Chunk<AnyArray>>>, Fault> {
    let second = Vec::from_array(alloc, make_dictionary_chunks(alloc)?.chunks)?;
    let fourth = only_a(alloc)?;
    Ok(vec![in alloc; second, Vec::new(alloc), fourth]?)
}

// A session of the chunk `a`, and those.
fn write_four(alloc: Global, schema: Schema) -> Result<WrittenSessions, Fault> {
    let first = only_a(alloc)?;
    let later = later_sessions(alloc)?;
    let metadata = Metadata::new(alloc);
    let options = WriteOptions::default();
    write_sessions(alloc, schema, None, metadata, options, &first, &later)
}

/// Adds what writes returned.
pub fn add_writes(trace: &mut Trace, answers: &[Result<(), Fault>]) {
    for answer in answers {
        trace.add_result(Call::Write, answer);
    }
}

fn add_chunks(trace: &mut Trace, call: Call, known: &DictionaryChunks, chunks: &[Chunk<AnyArray>]) {
    for chunk in chunks {
        trace.add(call, known.answer(chunk));
    }
}

// What the writes of the later sessions returned, and the chunks of the file, and of the stream
// after its first eight bytes.
fn trace_of(
    alloc: Global,
    chunks: &DictionaryChunks,
    written: &WrittenSessions,
) -> Result<Trace, Fault> {
    let mut trace = Trace::new();
    for answers in &written.later {
        add_writes(&mut trace, answers);
        trace.add(Call::Session, Answer::End);
    }
    let file = read_file(alloc, &written.bytes)?;
    add_chunks(&mut trace, Call::File, chunks, &file.chunks);
    let stream = read_stream(alloc, written.bytes.get(8..).unwrap_or(&[]))?;
    add_chunks(&mut trace, Call::Stream, chunks, &stream.chunks);
    trace.unless_out_of_memory()
}

const FOUR_SESSIONS: &str = "
    write ok
    write ok
    write refused
    session end
    session end
    write ok
    session end
    file: a
    file: a
    file: b
    file: a
    stream: a
    stream: a
    stream: b
    stream: a
    ";

#[test]
fn four_sessions_write_one_file(rt: HostRuntime) -> Result<(), Fault> {
    let alloc = rt.alloc();
    let chunks = make_dictionary_chunks(alloc)?;
    let written = match write_four(alloc, chunks.schema.clone()?) {
        Ok(written) => written,
        // The file's buffer couldn't grow: the write of a chunk returned `Io`, and then `finish`
        // returned this.
        Err(Fault::State(StateFault::Failed)) => return Err(Fault::Memory),
        // There was no memory for the chunk of the first session, and the second can't append to a
        // file without chunks.
        Err(Fault::Argument(ArgFault::NoRecordBlocks)) => return Err(Fault::Memory),
        Err(fault) => return Err(fault),
    };
    let trace = trace_of(alloc, &chunks, &written)?;
    assert!(rt;
        trace.is(FOUR_SESSIONS),
        "expected:{FOUR_SESSIONS}\ngot:{trace}"
    );
    Ok(())
}

// The file of `a`, `b`, and `c`, whose dictionary can't replace that of `a`. One call writes them,
// of a writer that was made started.
fn write_at_once(
    alloc: Global,
    chunks: &DictionaryChunks,
    trace: &mut Trace,
) -> Result<Vec<u8>, Fault> {
    let schema = chunks.schema.clone()?;
    let options = WriteOptions::default();
    let mut writer = FileWriter::try_new(alloc, empty_buffer(alloc)?, schema, None, options)?;
    add_writes(trace, &write_chunks(alloc, &mut writer, &chunks.chunks)?);
    trace.add_result(Call::Finish, &writer.finish());
    Ok(writer.into_inner())
}

const WRITTEN: &str = "
    write ok
    write ok
    write refused
    finish ok
    ";

const READ: &str = "
    file: a
    file: b
    ";

#[test]
fn write_chunks_writes_each_chunk(rt: HostRuntime) -> Result<(), Fault> {
    let alloc = rt.alloc();
    let chunks = make_dictionary_chunks(alloc)?;
    let mut trace = Trace::new();
    let bytes = write_at_once(alloc, &chunks, &mut trace)?;
    let trace = trace.unless_out_of_memory()?;
    assert!(rt; trace.is(WRITTEN), "expected:{WRITTEN}\ngot:{trace}");
    let mut trace = Trace::new();
    add_chunks(
        &mut trace,
        Call::File,
        &chunks,
        &read_file(alloc, &bytes)?.chunks,
    );
    assert!(rt; trace.is(READ), "expected:{READ}\ngot:{trace}");
    Ok(())
}
