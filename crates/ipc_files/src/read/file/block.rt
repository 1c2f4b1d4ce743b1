//! Reads the message at a block of a file.
//!
//! Arrow columnar format, "IPC File Format" and "Encapsulated message format".
ghost use Rattle.std.specs.Prelude.{◌≡◌, ◌+◌, ◌≤◌, length, drop, IsTrue, IfErr, OnOk};
ghost use Rattle.ipc_devices.specs.Acts.{ReadsDevice};
ghost use Rattle.ipc_devices.specs.Device.{after};
ghost use Rattle.ipc_devices.specs.Faults.{OnIo, OwnFault, Answers};
ghost use Rattle.ipc_devices.specs.declared.fault.Fault.TheVariants.{Ended, OutOfSpec};
ghost use Rattle.ipc_table_views.specs.MessageSlots.{message_version};
ghost use Rattle.ipc_model.specs.Files.{block_header, placed};
ghost use Rattle.ipc_model.specs.Frame.{frame, word};
ghost use Rattle.ipc_read.specs.Headers.{answered_as};
ghost use Rattle.ipc_files.specs.Blocks.{GivesPrefix, IsFrameFault, IsHeaderFault, MetadataGiven, frame_fault, message_seen, opened_message, place_seen, prefix_of, stated_metadata, stated_version};
ghost use Rattle.ipc_files.specs.Footers.{GivesPart};

use crate::read::file::exact::read_exact;
use ipc_devices::fault::{Fault, OutOfSpecKind};
use ipc_devices::{Reads, Seeks, read_into};
use ipc_read::read::header::header_of;
use ipc_table_views::{Block, MessageHeaderRef, MessageRef, MetadataVersion};

// The continuation marker before a length, as a number.
const CONTINUATION: u32 = u32::MAX;

// The offsets of a block's message and of its body.
#[derive(Clone, Copy, Drop)]
pub(crate) struct BlockPlace {
    pub(crate) message: u64,
    pub(crate) body: u64,
}

// The header and the version of a message in a file. Its stated body length isn't used.
#[derive(Drop)]
pub(crate) struct BlockMessage<'a> {
    pub(crate) header: MessageHeaderRef<'a>,
    pub(crate) version: MetadataVersion,
}

// The offsets of a block. A negative offset or metadata length is the error `negative`.
pub(super) fn place_of(block: &Block, negative: OutOfSpecKind) -> Result<BlockPlace, Fault>
    ensures place { GivesPart place_seen result (placed block.now) }
    ensures only { IfErr result (λ e. e ≡ OutOfSpec negative) }
{
    if block.offset < 0 || block.meta_data_length < 0 {
        return Err(Fault::OutOfSpec(negative));
    }
    let message = block.offset as u64;
    Ok(BlockPlace {
        message,
        body: message + block.meta_data_length as u64,
    })
}

// The next 4 bytes as a number.
fn read_word<R: Reads>(reader: &mut R) -> Result<u32, Fault>
    ensures only { IfErr result (λ e. OwnFault e (e ≡ Ended)) }
    ensures device { ReadsDevice R.device reader.old result reader.new }
    ensures given { R.device.given reader.new ≤ R.device.given reader.old + 4 }
    ensures left { IsTrue R.device.is_memory
        → OnOk result
        (after (R.device.memory reader.new) ≡ drop 4 (after (R.device.memory reader.old))) }
    ensures memory { IsTrue R.device.is_memory
        → Answers result (4 ≤ length (after (R.device.memory reader.old)))
        (λ n. n ≡ word (after (R.device.memory reader.old))) }
{
    let mut bytes = [0; 4];
    read_exact(reader, &mut bytes)?;
    Ok(u32::from_le_bytes(bytes))
}

// The length that a prefix states: after the continuation marker, or alone in the older form.
fn read_prefix<R: Reads>(reader: &mut R) -> Result<u32, Fault>
    ensures only { IfErr result (λ e. OwnFault e (e ≡ Ended)) }
    ensures device { ReadsDevice R.device reader.old result reader.new }
    ensures given { R.device.given reader.new ≤ R.device.given reader.old + 8 }
    ensures number { IsTrue R.device.is_memory
        → GivesPart (λ n. n) result (prefix_of (after (R.device.memory reader.old))) }
    ensures memory { IsTrue R.device.is_memory
        → GivesPrefix (frame (after (R.device.memory reader.old))) result
        (after (R.device.memory reader.new)) }
{
    let first = read_word(reader)?;
    if first != CONTINUATION {
        return Ok(first);
    }
    read_word(reader)
}

// Replaces `metadata` by the metadata of the message at the offset `place`. A negative length is
// the error `negative`. At most the prefix and the stated length are read, also on an error. At
// most 65,536 bytes, or four times the bytes that were read, are allocated for a length that is
// only stated.
pub(super) fn read_metadata<R: Reads + Seeks>(
    reader: &mut R,
    place: u64,
    negative: OutOfSpecKind,
    metadata: &mut Vec<u8>,
) -> Result<(), Fault>
    ensures only { IfErr result (λ e. OwnFault e (IsFrameFault negative e)) }
    ensures device { ReadsDevice R.device reader.old result reader.new }
    ensures given { MetadataGiven R.device.is_memory (drop place (R.device.memory reader.old).whole)
        result metadata.new.items
        (R.device.given reader.old) (R.device.given reader.new) }
    ensures reason { IsTrue R.device.is_memory
        → IfErr result
        (λ e. OwnFault e
        (e ≡ frame_fault negative (prefix_of (drop place (R.device.memory reader.old).whole)))) }
    ensures memory { IsTrue R.device.is_memory → GivesPart (λ _. metadata.new.items) result
        (stated_metadata (frame (drop place (R.device.memory reader.old).whole))) }
{
    reader.seek_to(place)?;
    let length = read_prefix(reader)?;
    if length > i32::MAX as u32 {
        return Err(Fault::OutOfSpec(negative));
    }
    read_into(reader, metadata, length as usize)?;
    Ok(())
}

// The version, which is checked in each message of a file.
fn version_of(message: &MessageRef<'_>) -> Result<MetadataVersion, Fault>
    ensures value { result ≡ stated_version (message_version message.now) }
    ensures only { IfErr result (λ e. OwnFault e (IsHeaderFault e)) }
{
    match message.version() {
        Ok(version) => Ok(version),
        Err(e) => Err(Fault::OutOfSpec(OutOfSpecKind::InvalidFlatbufferVersion(e))),
    }
}

// Opens the metadata of a message, without an allocation.
#[tactic(auto, unfolding(crate::specs::Blocks::opened_message), using(crate::proofs::BlockHeaders::header_faults))]
pub(super) fn open_message(metadata: &[u8]) -> Result<BlockMessage<'_>, Fault>
    ensures exact { answered_as message_seen result ≡ opened_message metadata.now }
    ensures meaning { GivesPart message_seen result (block_header metadata.now) }
    ensures only { IfErr result (λ e. OwnFault e (IsHeaderFault e)) }
    ensures own { OnIo result ⊥ }
{
    let message = match MessageRef::read_as_root(metadata) {
        Ok(message) => message,
        Err(e) => return Err(Fault::OutOfSpec(OutOfSpecKind::InvalidFlatbufferMessage(e))),
    };
    let header = header_of(&message)?;
    let version = version_of(&message)?;
    Ok(BlockMessage { header, version })
}
