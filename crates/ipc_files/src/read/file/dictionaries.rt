//! Reads the dictionaries of a file.
ghost use Rattle.std.specs.Prelude.{◌≡◌, ◌+◌, ◌≤◌, Some, None, Err, IsTrue, IfErr, OnOk};
ghost use Rattle.ipc_devices.specs.Acts.{ReadsDevice};
ghost use Rattle.ipc_devices.specs.Faults.{OwnFault};
ghost use Rattle.ipc_devices.specs.declared.fault.Fault.TheVariants.{OutOfSpec};
ghost use Rattle.ipc_devices.specs.declared.fault.OutOfSpecKind.TheVariants.{UnexpectedNegativeInteger};
ghost use Rattle.ipc_model.specs.Batches.{dictionary_meaning, extra_of};
ghost use Rattle.ipc_model.specs.Files.{block_header, dictionaries_at, placed};
ghost use Rattle.ipc_files.specs.Api.{ReadsDictionaries};
ghost use Rattle.ipc_files.specs.Batches.{BlockGiven, block_metadata};
ghost use Rattle.ipc_files.specs.Dictionaries.{DictionaryReason, GivesKnown, HoldsHeader, IsDictionaryBlockFault, needed_dictionary, needed_values};
ghost use Rattle.ipc_files.specs.Footers.{file_seen};
ghost use Rattle.ipc_read_flat.specs.Bodies.{array_under, known_dictionaries};
ghost use Rattle.ipc_read_flat.specs.Scratches.{KeepsScratch};
ghost use Rattle.ipc_read.specs.HeldChunks.{HoldsValues};
ghost use Rattle.ipc_read.specs.DictionaryBatches.{BlamesDictionary, IsDictionaryFault, TellsValues, values_listed};

use crate::read::file::block::{open_message, place_of, read_metadata};
use crate::read::file::metadata::FileMetadata;
use ipc_devices::fault::{Fault, OutOfSpecKind};
use ipc_devices::{Reads, Seeks};
use ipc_read::read::Dictionaries;
use ipc_read::read::dictionaries::read_dictionary;
use ipc_table_views::{Block, DictionaryBatchRef, MessageHeaderRef, MetadataVersion};
use std::alloc::Global;
use std::collections::HashMap;

// The dictionary batch in the header of a message, or `UnexpectedMessageType`.
fn dictionary_of(header: MessageHeaderRef<'_>) -> Result<DictionaryBatchRef<'_>, Fault>
    ensures { result ≡ needed_dictionary header.entry }
{
    match header {
        MessageHeaderRef::DictionaryBatch(batch) => Ok(batch),
        _ => Err(Fault::OutOfSpec(OutOfSpecKind::UnexpectedMessageType)),
    }
}

// Adds the values of a dictionary batch whose body is at the offset `body`.
#[allow(clippy::too_many_arguments)]
fn read_values<R: Reads + Seeks>(
    alloc: Global,
    reader: &mut R,
    metadata: &FileMetadata,
    batch: DictionaryBatchRef<'_>,
    version: MetadataVersion,
    body: u64,
    dictionaries: &mut Dictionaries,
    scratch: &mut Vec<u8>,
) -> Result<(), Fault>
    ensures only { IfErr result (λ e. OwnFault e (IsDictionaryFault e)) }
    ensures blames { IfErr result (λ e. OwnFault e (BlamesDictionary (file_seen metadata.now).schema batch.entry e)) }
    ensures lists { IfErr result (TellsValues (file_seen metadata.now).schema (extra_of version) batch.entry metadata.now.size) }
    ensures device { ReadsDevice R.device reader.old result reader.new }
    ensures given { R.device.given reader.new
        ≤ R.device.given reader.old
        + values_listed (file_seen metadata.now).schema (extra_of version) batch.entry }
    ensures held { OnOk result (HoldsValues metadata.now.size (file_seen metadata.now).schema (extra_of version) batch.entry
        (λ id. array_under dictionaries.old id) (λ id. array_under dictionaries.new id)) }
    ensures memory { IsTrue R.device.is_memory → let m = file_seen metadata.now in
        GivesKnown (λ _. known_dictionaries dictionaries.new) result
        (dictionary_meaning m.schema (extra_of version) (known_dictionaries dictionaries.old)
        (record { source = (R.device.memory reader.old).whole; base = body; size = m.size })
        batch.entry) }
    ensures scratch { KeepsScratch scratch.old.items scratch.new.items }
{
    read_dictionary(
        alloc,
        batch,
        &metadata.schema.fields,
        &metadata.ipc_schema,
        dictionaries,
        version,
        reader,
        body,
        metadata.size,
        scratch,
    )?;
    Ok(())
}

// Reads the dictionary batch at a block, and adds its values.
fn read_dictionary_block<R: Reads + Seeks>(
    alloc: Global,
    reader: &mut R,
    metadata: &FileMetadata,
    block: &Block,
    dictionaries: &mut Dictionaries,
    message_scratch: &mut Vec<u8>,
    data_scratch: &mut Vec<u8>,
) -> Result<(), Fault>
    ensures only { IfErr result (λ e. OwnFault e (IsDictionaryBlockFault e)) }
    ensures device { ReadsDevice R.device reader.old result reader.new }
    ensures given { BlockGiven R.device.is_memory (needed_values (file_seen metadata.now).schema)
        (R.device.memory reader.old).whole (Some block.now)
        message_scratch.new.items result (R.device.given reader.old) (R.device.given reader.new) }
    ensures held { OnOk result (HoldsHeader metadata.now.size (file_seen metadata.now).schema (block_header message_scratch.new.items)
        (λ id. array_under dictionaries.old id) (λ id. array_under dictionaries.new id)) }
    ensures message { IsTrue R.device.is_memory
        → OnOk result
        (block_metadata (R.device.memory reader.old).whole (Some block.now)
        ≡ Some message_scratch.new.items) }
    ensures numbers { placed block.now ≡ None → result ≡ Err (OutOfSpec UnexpectedNegativeInteger) }
    ensures reason { IsTrue R.device.is_memory
        → IfErr result
        (λ e. OwnFault e
        (DictionaryReason (file_seen metadata.now) (R.device.memory reader.old).whole block.now
        e)) }
    ensures memory { IsTrue R.device.is_memory
        → GivesKnown (λ _. known_dictionaries dictionaries.new) result
        (dictionaries_at (file_seen metadata.now) (known_dictionaries dictionaries.old)
        (R.device.memory reader.old).whole block.now) }
    ensures scratch { KeepsScratch data_scratch.old.items data_scratch.new.items }
{
    let place = place_of(block, OutOfSpecKind::UnexpectedNegativeInteger)?;
    let negative = OutOfSpecKind::NegativeFooterLength;
    read_metadata(reader, place.message, negative, message_scratch)?;
    let message = open_message(message_scratch)?;
    let batch = dictionary_of(message.header)?;
    read_values(
        alloc,
        reader,
        metadata,
        batch,
        message.version,
        place.body,
        dictionaries,
        data_scratch,
    )?;
    Ok(())
}

/// Reads all dictionaries of a file, in the order of its footer.
///
/// - `metadata`: of a file that begins where the device begins, as blocks have offsets of the
///   device.
/// - `scratch`: a block that the values are read through, as [`read_dictionary`] says.
///
/// See "IPC File Format" in the Arrow columnar format. If an id comes again, its last values count.
/// The version of each block is that of its own message; the stated lengths of bodies aren't used.
/// Without dictionary blocks it is `Ok`. When reading from memory, it is `Ok` exactly if each block
/// is valid, unless an allocation fails. The values are those that `file_dictionaries` of
/// `ipc_model` defines.
///
/// At most the messages of the blocks, their 8-byte prefixes and the encoded lengths of the values'
/// buffers are read from the device. If a block is refused, no byte is read for a later one. If its
/// message can't be read, at most the prefix and the length that this states are read for it.
/// Whatever the device returns, the array under an id retains at most the encoded length of the
/// buffers in one of the id's blocks. It retains at most the size of the file, plus one offset for
/// each empty offset buffer.
///
/// # Errors
/// They are those of the first block that is refused. Each of the first four groups is `OutOfSpec`.
///
/// - `UnexpectedNegativeInteger`: the block's offset or metadata length is negative.
/// - `NegativeFooterLength`: the prefix of the message states a negative length.
/// - `InvalidFlatbufferMessage`, `MissingMessageHeader`, `InvalidFlatbufferHeader`,
///   `InvalidFlatbufferVersion`: the message is malformed, or has no header.
/// - `UnexpectedMessageType`: the message isn't a dictionary batch.
/// - `Ended`: the device has no whole message at the block. At most 65,536 bytes, or four times the
///   bytes that were read, are allocated for a length that is only stated.
/// - Those of [`read_dictionary`].
/// - `Io` exactly if a call of the device failed; `Memory`.
///
/// After an error the reader may be at any position.
pub fn read_file_dictionaries<R: Reads + Seeks>(
    alloc: Global,
    reader: &mut R,
    metadata: &FileMetadata,
    scratch: &mut Vec<u8>,
) -> Result<Dictionaries, Fault>
    ensures dictionaries { ReadsDictionaries R.device (file_seen metadata.now) reader.old result
        reader.new }
    ensures scratch { KeepsScratch scratch.old.items scratch.new.items }
{
    let mut dictionaries = HashMap::new(alloc);
    let mut message = Vec::new(alloc);
    let blocks = metadata.dictionary_blocks();
    for block in blocks {
        read_dictionary_block(
            alloc,
            reader,
            metadata,
            block,
            &mut dictionaries,
            &mut message,
            scratch,
        )?;
    }
    Ok(dictionaries)
}
