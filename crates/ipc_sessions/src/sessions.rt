//! Sessions on existing files: chunks are appended, and the file is finished again.
ghost use Rattle.std.specs.Prelude.{◌≡◌, IfErr, IfOk, IsTrue, Ok, OnErr};
ghost use Rattle.ipc_devices.specs.Acts.{ReadsDevice};
ghost use Rattle.ipc_devices.specs.Device.{IsAnswered};
ghost use Rattle.ipc_devices.specs.Faults.{IfIo, IsIo, OwnFault};
ghost use Rattle.ipc_devices.specs.declared.fault.Fault.TheVariants.{Memory};
ghost use Rattle.ipc_files.specs.Footers.{file_seen};
ghost use Rattle.ipc_file_write.specs.Appends.{resumed};
ghost use Rattle.ipc_file_write.specs.FileWriters.{seen};
ghost use Rattle.ipc_sessions.specs.Api.{AppendsSession, AppendsToFile, RunsSessions};
ghost use Rattle.ipc_sessions.specs.Sessions.{GainsChunks, OpeningCause, taken_of};
ghost use Rattle.ipc_sessions.specs.Steps.{AreWritten, EndsSession, FailsWhole, IsSessionOn, WholeSessionCause, ResumesFile, TakesChunks, WritesNext};

use ipc_base::chunk::Chunk;
use ipc_devices::{Fault, Reads, Seeks, Writes};
use ipc_file_write::append::{Prepared, prepare};
use ipc_file_write::writer::FileWriter;
use ipc_files::read::file::{FileMetadata, read_file_metadata};
use lower_arrays::array::AnyArray;
use std::alloc::{AllocError, Global};

/// The device after a session, and the results of the session's calls.
#[derive(Drop)]
pub struct Session<W> {
    /// The device.
    pub device: W,
    /// The result of the `write` of each chunk, in order.
    pub answers: Vec<Result<(), Fault>>,
    /// The result of [`finish`](FileWriter::finish), the last call.
    pub end: Result<(), Fault>,
}

/// The device after sessions that all finished their file, and the results of their writes.
#[derive(Drop)]
pub struct Sessions<W> {
    /// The device.
    pub device: W,
    /// For each session, the result of the `write` of each of its chunks, in order.
    pub answers: Vec<Vec<Result<(), Fault>>>,
}

// Writes a chunk.
fn write_chunk<W: Writes + Drop>(
    writer: &mut FileWriter<W>,
    chunk: &Chunk<AnyArray>,
) -> Result<(), Fault>
    ensures { WritesNext W.device (seen writer.old) chunk.now result (seen writer.new) }
{
    writer.write(chunk, None)
}

/// Writes chunks in order, also after a refused one, and returns all results.
///
/// A file in memory then has the chunks that it had, and after them exactly those whose `write`
/// returned `Ok`. Nothing before the writer's offset was changed.
///
/// `AllocError` if there is no memory for the results; nothing was written then.
pub fn write_chunks<W: Writes + Drop>(
    alloc: Global,
    writer: &mut FileWriter<W>,
    chunks: &[Chunk<AnyArray>],
) -> Result<Vec<Result<(), Fault>>, AllocError>
    ensures made { IfOk result (λ answers. AreWritten W.device
        (seen writer.old) chunks.now answers.items (seen writer.new)) }
    ensures nothing { OnErr result (seen writer.new ≡ seen writer.old) }
    ensures takes { IfOk result (λ answers. TakesChunks W.device (seen writer.old)
        (seen writer.new) (taken_of chunks.now answers.items)) }
{
    // Room for all results is allocated here, so that none is lost after writing.
    let mut answers = Vec::with_capacity(alloc, chunks.len())?;
    for chunk in chunks {
        answers.push_reserved(write_chunk(writer, chunk));
    }
    Ok(answers)
}

// Writes chunks, and finishes the file, whatever the writes returned.
fn end_session<W: Writes + Drop>(
    alloc: Global,
    mut writer: FileWriter<W>,
    chunks: &[Chunk<AnyArray>],
) -> Result<Session<W>, Fault>
    ensures made { IfOk result
        (λ session. EndsSession W.device (seen writer) chunks.now session.answers.items session.end
        session.device) }
    ensures only { IfErr result (λ e. e ≡ Memory) }
{
    let answers = write_chunks(alloc, &mut writer, chunks)?;
    let end = writer.finish();
    let device = writer.into_inner();
    let session = Session {
        device,
        answers,
        end,
    };
    Ok(session)
}

/// Prepares to append to the file that begins where its device begins.
///
/// It reads the file's metadata ([`read_file_metadata`]), and then is [`prepare`]. The device is
/// only read: if reading doesn't change the bytes of such a device, they stay the same, also on an
/// error. On `Ok` the device is at the append offset. [`FileWriter::resume`] makes the writer.
///
/// # Errors
/// Those of [`read_file_metadata`] and of [`prepare`]; `Io` exactly if a call of the device failed.
/// After an error the device may be at any offset.
pub fn prepare_session<W: Reads + Seeks>(alloc: Global, device: &mut W) -> Result<Prepared, Fault>
    ensures ok { IfOk result (λ prepared. ResumesFile W.device device.old
        (resumed device.new prepared)) }
    ensures only { IfErr result
        (OpeningCause W.device.is_memory (W.device.memory device.old).whole) }
    ensures device { ReadsDevice W.device device.old result device.new }
{
    device.seek_to(0)?;
    let metadata = read_file_metadata(alloc, device)?;
    let prepared = prepare(alloc, device, metadata)?;
    Ok(prepared)
}

/// Appends chunks to a file, by metadata that were read from this device.
///
/// The file must begin where the device begins. Each chunk is written, also after a refused one,
/// and then the file is finished. The device is returned even if that fails.
///
/// In memory, if `end` is `Ok`, the file has the schema and pairs that it had. After its old chunks
/// it has exactly those whose `write` returned `Ok`. It is a stream without its first eight bytes
/// if it was one. Whatever the calls return, the file doesn't get shorter. Its old metadata still
/// give the same dictionaries and chunks, if these need no byte after the append offset.
///
/// # Errors
/// Those of [`prepare`], and `Memory` if there is none for the results. Nothing is written then:
/// the file is as it was, and the device is dropped. A borrowed device may be at any offset.
pub fn append_to_file<W: Reads + Writes + Seeks + Drop>(
    alloc: Global,
    mut device: W,
    metadata: FileMetadata,
    chunks: &[Chunk<AnyArray>],
) -> Result<Session<W>, Fault>
    ensures { AppendsToFile W.device (file_seen metadata) device chunks.now result }
{
    let prepared = prepare(alloc, &mut device, metadata)?;
    let writer = FileWriter::resume(device, prepared);
    let session = end_session(alloc, writer, chunks)?;
    Ok(session)
}

/// Appends chunks to the file that begins where its device begins.
///
/// It is [`append_to_file`], by the metadata that the file has.
///
/// # Errors
/// Those of [`prepare_session`], and `Memory` if there is none for the results. Nothing is written
/// then: the file is as it was, and the device is dropped. A borrowed device may be at any offset.
pub fn append_session<W: Reads + Writes + Seeks + Drop>(
    alloc: Global,
    mut device: W,
    chunks: &[Chunk<AnyArray>],
) -> Result<Session<W>, Fault>
    ensures { AppendsSession W.device device chunks.now result }
{
    let prepared = prepare_session(alloc, &mut device)?;
    let writer = FileWriter::resume(device, prepared);
    let session = end_session(alloc, writer, chunks)?;
    Ok(session)
}

// A session, which must finish its file.
fn whole_session<W: Reads + Writes + Seeks + Drop>(
    alloc: Global,
    device: W,
    chunks: &[Chunk<AnyArray>],
) -> Result<(W, Vec<Result<(), Fault>>), Fault>
    ensures adds { IsTrue W.device.is_memory
        → IfOk result
        (λ left. GainsChunks (W.device.memory device).whole (W.device.memory left.0).whole
        (taken_of chunks.now left.1.items)) }
    ensures made { IfOk result
        (λ left. IsSessionOn W.device device chunks.now left.1.items (Ok tt) left.0) }
    ensures only { IfErr result
        (λ e. OwnFault e (WholeSessionCause W.device device chunks.now e)) }
    ensures failed { IfErr result (λ e. IsIo e → FailsWhole W.device device chunks.now e) }
    ensures answered { IfIo result (IsAnswered W.device) }
{
    let session = append_session(alloc, device, chunks)?;
    let Session {
        device: left,
        answers,
        end: outcome,
    } = session;
    outcome?;
    Ok((left, answers))
}

/// Appends to a file in sessions, one after the other.
///
/// Each uses the metadata that the one before it wrote. The file then has the schema and pairs that
/// it had. After its old chunks it has exactly those whose `write` returned `Ok`, in order. It is a
/// stream without its first eight bytes if it was one.
///
/// # Errors
/// Those of [`append_session`] and of a `finish` that failed. `Io` comes only if a call of the
/// device failed, or if the file is in memory and its growth was refused.
///
/// The device is dropped then, with all that was written to it. If it was borrowed, the file may
/// have no footer. The chunks of the sessions before are still at the blocks in the metadata that
/// the last of these sessions wrote.
pub fn run_sessions<W: Reads + Writes + Seeks + Drop>(
    alloc: Global,
    mut device: W,
    sessions: &[Vec<Chunk<AnyArray>>],
) -> Result<Sessions<W>, Fault>
    ensures { RunsSessions W.device device sessions.now result }
{
    let mut answers = Vec::new(alloc);
    for chunks in sessions {
        let ended = whole_session(alloc, device, chunks)?;
        let (left, session) = ended;
        device = left;
        answers.push(session)?;
    }
    Ok(Sessions { device, answers })
}
