//! Appends to existing files.
//!
//! Arrow columnar format, "IPC File Format".
ghost use Rattle.std.specs.Prelude.{◌≡◌, [], ◌-◌, ◌^◌, min, max, IsTrue, IfErr, IfOk, OnOk};
ghost use Rattle.ipc_devices.specs.Acts.{ReadsDevice};
ghost use Rattle.ipc_devices.specs.Device.{GoesTo};
ghost use Rattle.ipc_devices.specs.Faults.{OwnFault};
ghost use Rattle.ipc_devices.specs.declared.fault.Fault.TheVariants.{OutOfSpec};
ghost use Rattle.ipc_devices.specs.declared.fault.OutOfSpecKind.TheVariants.{UnexpectedNegativeInteger};
ghost use Rattle.ipc_model.specs.Files.{file_dictionaries};
ghost use Rattle.ipc_read_flat.specs.Bodies.{known_dictionaries};
ghost use Rattle.ipc_files.specs.Dictionaries.{DictionariesReason, GivesKnown, IsDictionaryBlockFault};
ghost use Rattle.ipc_files.specs.Footers.{file_seen};
ghost use Rattle.ipc_file_lemmas.specs.Appending.{HasNegative, HaveNegative, end_of, goes_on, greatest_end};
ghost use Rattle.ipc_file_write.specs.Api.{OpensToAppend};
ghost use Rattle.ipc_file_write.specs.FileWriters.{scratches_of, seen};
ghost use Rattle.ipc_file_write.specs.Appends.{AreEmptyScratches, CanBeWritten, GoesOn, MayGoOn, RefusesFile, RefusesToGoOn, resumed};

use crate::file::FileWriter;
pub use crate::prepared::Prepared;
use ipc_devices::fault::{ArgFault, Fault, OutOfSpecKind};
use ipc_devices::{Reads, Seeks, Writes};
use ipc_encode::common::{EncodedData, WriteOptions};
use ipc_files::read::file::{FileMetadata, read_file_dictionaries};
use ipc_footer_write::weights::is_light;
use ipc_read::read::Dictionaries;
use ipc_schema_write::schema::serialize_schema;
use ipc_table_views::Block;
use ipc_tracker::DictionaryTracker;
use ipc_write::stream::WriterState;
use std::alloc::Global;

/// The length of a file's head: `ARROW1` and two zero bytes.
const HEAD_LEN: u64 = 8;

// The end offset of a block, at most `u64::MAX`.
fn end_of(block: &Block) -> Result<u64, Fault>
    ensures ok { IfOk result (λ end. end ≡ min (2 ^ 64 - 1) (end_of block.now)) }
    ensures natural { OnOk result (HasNegative block.now → ⊥) }
    ensures only { IfErr result (λ e. (e ≡ OutOfSpec UnexpectedNegativeInteger) × HasNegative block.now) }
{
    if block.offset < 0 || block.meta_data_length < 0 || block.body_length < 0 {
        return Err(Fault::OutOfSpec(OutOfSpecKind::UnexpectedNegativeInteger));
    }
    let body = (block.offset as u64).saturating_add(block.meta_data_length as u64);
    Ok(body.saturating_add(block.body_length as u64))
}

// The greatest of an offset and the ends of some blocks.
fn greatest_end(from: u64, blocks: &[Block]) -> Result<u64, Fault>
    ensures ok { IfOk result (λ end. end ≡ max from (min (2 ^ 64 - 1) (greatest_end blocks.now))) }
    ensures natural { OnOk result (HaveNegative blocks.now → ⊥) }
    ensures only { IfErr result (λ e. (e ≡ OutOfSpec UnexpectedNegativeInteger) × HaveNegative blocks.now) }
{
    let mut end = from;
    for block in blocks {
        end = end.max(end_of(block)?);
    }
    Ok(end)
}

// Refuses a schema or pairs that can't be written, and a file that is too long.
fn check_written(alloc: Global, metadata: &FileMetadata) -> Result<(), Fault>
    ensures ok { OnOk result (CanBeWritten (file_seen metadata.now)) }
    ensures only { IfErr result (RefusesToGoOn (file_seen metadata.now)) }
{
    const MOST: u64 = i64::MAX as u64;
    if metadata.size > MOST || !is_light(&metadata.schema, &metadata.custom_metadata) {
        return Err(Fault::Argument(ArgFault::TooLarge));
    }
    // serialized only to check it
    let ipc_schema = &metadata.ipc_schema;
    let _ = serialize_schema(
        alloc,
        &metadata.schema,
        &ipc_schema.fields,
        ipc_schema.is_little_endian,
    )?;
    Ok(())
}

// The append offset in a file of this size whose blocks end at `end`.
fn place_in(size: u64, end: u64) -> u64
    ensures { result ≡ max 8 (min size end) }
{
    end.min(size).max(HEAD_LEN)
}

// Checks whether a file can be appended to, and returns the append offset.
fn place_to_go_on(alloc: Global, metadata: &FileMetadata) -> Result<u64, Fault>
    ensures place { IfOk result (λ place. place ≡ goes_on (file_seen metadata.now)) }
    ensures ok { OnOk result (MayGoOn (file_seen metadata.now)) }
    ensures only { IfErr result (RefusesToGoOn (file_seen metadata.now)) }
{
    if metadata.blocks.is_empty() {
        return Err(Fault::Argument(ArgFault::NoRecordBlocks));
    }
    let dictionaries = greatest_end(0, metadata.dictionary_blocks())?;
    let end = greatest_end(dictionaries, &metadata.blocks)?;
    check_written(alloc, metadata)?;
    Ok(place_in(metadata.size, end))
}

// Reads the dictionaries of a file, and then seeks to an offset. The device's bytes never change,
// and `Io` comes exactly if a call of it failed.
fn dictionaries_of<W: Reads + Seeks>(
    alloc: Global,
    device: &mut W,
    metadata: &FileMetadata,
    place: u64,
) -> Result<Dictionaries, Fault>
    ensures only { IfErr result (λ e. OwnFault e (IsDictionaryBlockFault e)) }
    ensures reason { IsTrue W.device.is_memory → let m = file_seen metadata.now in
        IfErr result
        (λ e. OwnFault e
        (DictionariesReason m (W.device.memory device.old).whole [] m.dictionaries e)) }
    ensures memory { IsTrue W.device.is_memory
        → GivesKnown (λ known. known_dictionaries known) result
        (file_dictionaries (file_seen metadata.now) (W.device.memory device.old).whole) }
    ensures place { IsTrue W.device.is_memory
        → OnOk result (GoesTo (W.device.memory device.old) (W.device.memory device.new) place) }
    ensures device { ReadsDevice W.device device.old result device.new }
{
    let mut scratch = Vec::new(alloc);
    let dictionaries = read_file_dictionaries(alloc, device, metadata, &mut scratch)?;
    device.seek_to(place)?;
    Ok(dictionaries)
}

/// Prepares to append to a file, by metadata that were read from this device.
///
/// The file must begin where the device begins. The device is only read: if reading doesn't change
/// the bytes of such a device, they stay the same, also on an error. On `Ok` the device is at the
/// append offset. [`FileWriter::resume`] makes the writer.
///
/// The append offset is the end of the block that ends last, or the end of the file if a block ends
/// after that. It is at least 8, after the file's head. See "IPC File Format" in the Arrow columnar
/// format.
///
/// # Errors
/// - `Argument(NoRecordBlocks)`: the file has no record block.
/// - `OutOfSpec(UnexpectedNegativeInteger)`: one of the three numbers of a block is negative.
/// - `Argument(TooLarge)`: the file has more than `2^63 - 1` bytes, or its schema and pairs weigh
///   more than `2^30`.
/// - `Argument(NotWritable)`: the schema can't be written.
/// - `Argument(FieldsShape)`: the dictionary ids don't have the shape of the fields.
/// - Those of [`read_file_dictionaries`].
/// - `Io` exactly if a call of the device failed; `Memory`.
///
/// After an error the device may be at any offset.
pub fn prepare<W: Reads + Seeks>(
    alloc: Global,
    device: &mut W,
    metadata: FileMetadata,
) -> Result<Prepared, Fault>
    ensures ok { IfOk result (λ prepared. GoesOn W.device (file_seen metadata) device.old
        (resumed device.new prepared)) }
    ensures only { IfErr result
        (RefusesFile W.device.is_memory (file_seen metadata) (W.device.memory device.old).whole) }
    ensures device { ReadsDevice W.device device.old result device.new }
{
    let place = place_to_go_on(alloc, &metadata)?;
    let mut dictionary_blocks = Vec::new(alloc);
    dictionary_blocks.extend_from_slice(metadata.dictionary_blocks())?;
    let dictionaries = dictionaries_of(alloc, device, &metadata, place)?;
    Ok(Prepared {
        alloc,
        metadata,
        dictionary_blocks,
        block_offsets: place,
        dictionary_tracker: DictionaryTracker {
            dictionaries,
            cannot_replace: true,
        },
    })
}

impl<W> FileWriter<W> {
    /// The writer that appends to a prepared file, already started.
    ///
    /// The device must be the one that was passed to [`prepare`], at the offset where that left it.
    /// Nothing is allocated, no call of the device is made, and it can't fail. The writer keeps the
    /// file's byte order and, unless others are set, its pairs. A dictionary whose values the file
    /// has isn't written again. [`finish`](FileWriter::finish) writes a footer with all blocks, old
    /// and new.
    pub fn resume(device: W, prepared: Prepared) -> FileWriter<W>
        ensures writer { seen result ≡ resumed device prepared }
        ensures scratches { AreEmptyScratches (scratches_of result) }
    {
        // The borrow checker wants each nested field moved by itself, and no call in the literal.
        let alloc = prepared.alloc;
        let encoded_message = EncodedData::empty(alloc);
        let block_offsets = prepared.block_offsets;
        let dictionary_blocks = prepared.dictionary_blocks;
        let dictionary_tracker = prepared.dictionary_tracker;
        let metadata = prepared.metadata;
        let is_little_endian = metadata.ipc_schema.is_little_endian;
        let ipc_fields = metadata.ipc_schema.fields;
        FileWriter {
            alloc,
            writer: device,
            state: WriterState::Started,
            is_little_endian,
            schema: metadata.schema,
            given: None,
            ipc_fields,
            dictionary_blocks,
            record_blocks: metadata.blocks,
            block_offsets,
            size: metadata.size,
            custom_metadata: metadata.custom_metadata,
            dictionary_tracker,
            encoded_message,
        }
    }
}

impl<W: Reads + Writes + Seeks + Drop> FileWriter<W> {
    /// The writer that appends to a file, already started.
    ///
    /// `metadata` were read from this device. It is [`prepare`], and then
    /// [`resume`](FileWriter::resume); the options are ignored. Bytes before the append offset
    /// never change, and the file never gets shorter. So after any later call, also a failed one,
    /// these metadata still give the chunks that they gave, if these need no byte after that
    /// offset.
    ///
    /// # Errors
    /// Those of [`prepare`]. They leave the file as it was, and drop the device.
    pub fn try_from_file(
        alloc: Global,
        mut writer: W,
        metadata: FileMetadata,
        _options: WriteOptions,
    ) -> Result<FileWriter<W>, Fault>
        ensures { OpensToAppend W.device (file_seen metadata) writer result }
    {
        let prepared = prepare(alloc, &mut writer, metadata)?;
        Ok(FileWriter::resume(writer, prepared))
    }
}
