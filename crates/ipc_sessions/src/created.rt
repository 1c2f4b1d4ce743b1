//! Files in memory that are created in one session and appended to in later ones.
ghost use Rattle.std.specs.Prelude.{not};
ghost use Rattle.lower.specs.TypeViews.{fields_view, pairs_of};
ghost use Rattle.ipc_schema_write.specs.WriterAnswers.{byte_order};
ghost use Rattle.ipc_write.specs.Writers.{chosen_ids};
ghost use Rattle.ipc_sessions.specs.Api.{CreatesFile, WritesSessions};

use crate::sessions::{Sessions, run_sessions, write_chunks};
use ipc_base::chunk::Chunk;
use ipc_base::ipc::IpcField;
use ipc_devices::{Fault, MemFile};
use ipc_encode::common::WriteOptions;
use ipc_file_write::calls::WrittenFile;
use ipc_file_write::writer::FileWriter;
use lower::datatypes::{Metadata, Schema};
use lower_arrays::array::AnyArray;
use std::alloc::Global;

/// A file in memory that was written in sessions, and the results of their writes.
#[derive(Drop)]
pub struct WrittenSessions {
    /// The bytes of the file.
    pub bytes: Vec<u8>,
    /// The result of the `write` of each chunk of the first session, in order.
    pub first: Vec<Result<(), Fault>>,
    /// The same of each later session.
    pub later: Vec<Vec<Result<(), Fault>>>,
}

/// Creates a file in memory with these chunks, and returns the results of their writes.
///
/// Chunks after a refused one are written too, and then the file is finished. It has the schema in
/// its normal form, these pairs, and exactly the chunks whose `write` returned `Ok`. The dictionary
/// ids are `ipc_fields`, or 0, 1, 2 and so on. Later sessions can append to the file.
///
/// # Errors
/// - `Argument(TooLarge)`: the schema and the pairs weigh more than `2^30`, or the file has more
///   than `2^25` blocks.
/// - `Argument(FieldsShape)`: the ids don't have the shape of the fields.
/// - `Argument(NotWritable)`: the schema can't be written.
/// - `State(Failed)`: a `write` returned `Io`; `Io`: the head or the end can't be written. Both
///   come only if the growth of the vector was refused.
/// - `Memory`.
pub fn create_file(
    alloc: Global,
    schema: Schema,
    ipc_fields: Option<Vec<IpcField>>,
    custom_metadata: Metadata,
    options: WriteOptions,
    chunks: &[Chunk<AnyArray>],
) -> Result<WrittenFile, Fault>
    ensures { let fields = fields_view schema.fields.items in
        CreatesFile fields (pairs_of schema.metadata.entries) (chosen_ids ipc_fields fields)
        (byte_order (not options.big_endian)) (pairs_of custom_metadata.entries)
        chunks.now result }
{
    let mut writer = FileWriter::new(alloc, Vec::new(alloc), schema, ipc_fields, options)?;
    writer.set_custom_metadata(custom_metadata)?;
    writer.start()?;
    let answers = write_chunks(alloc, &mut writer, chunks)?;
    writer.finish()?;
    let bytes = writer.into_inner();
    Ok(WrittenFile { bytes, answers })
}

/// Creates a file in memory, and appends to it in later sessions.
///
/// Each later session reads the metadata of the file, and finishes it again. The file has the
/// schema in its normal form, these pairs, and exactly the chunks whose `write` returned `Ok`, of
/// all sessions in order. The dictionary ids are `ipc_fields`, or 0, 1, 2 and so on. Without its
/// first eight bytes it is a stream of the same.
///
/// # Errors
/// They are those of [`create_file`] and [`run_sessions`], so:
///
/// - `Argument(TooLarge)`, `Argument(FieldsShape)`, `Argument(NotWritable)`, as in [`create_file`].
/// - `Argument(NoRecordBlocks)`: a later session finds a file without chunks.
/// - `Argument(TooLarge)`: a later session finds more than `2^63 - 1` bytes or `2^25` blocks.
/// - `Io`: the growth of the vector was refused; `State(Failed)`: that happened in a `write`.
/// - `Memory`.
pub fn write_sessions(
    alloc: Global,
    schema: Schema,
    ipc_fields: Option<Vec<IpcField>>,
    custom_metadata: Metadata,
    options: WriteOptions,
    first: &[Chunk<AnyArray>],
    later: &[Vec<Chunk<AnyArray>>],
) -> Result<WrittenSessions, Fault>
    ensures { let fields = fields_view schema.fields.items in
        WritesSessions fields (pairs_of schema.metadata.entries) (chosen_ids ipc_fields fields)
        (byte_order (not options.big_endian)) (pairs_of custom_metadata.entries)
        first.now later.now result }
{
    let created = create_file(alloc, schema, ipc_fields, custom_metadata, options, first)?;
    let WrittenFile { bytes, answers } = created;
    let left = run_sessions(alloc, MemFile::new(bytes), later)?;
    let Sessions {
        device,
        answers: others,
    } = left;
    Ok(WrittenSessions {
        bytes: device.into_inner(),
        first: answers,
        later: others,
    })
}
