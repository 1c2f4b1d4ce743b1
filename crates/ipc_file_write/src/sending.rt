//! Sends bytes to a device, and makes the ends of a file.
ghost use Rattle.std.specs.Prelude.{◌≡◌, ◌^◌, ◌<◌, ◌++◌, IfOk, IsTrue, OnErr, OnOk, length, map};
ghost use Rattle.lower_arrays.specs.AnyLayouts.{layout_of};
ghost use Rattle.ipc_schema_write.specs.WriterAnswers.{byte_order};
ghost use Rattle.ipc_tracker.specs.Listings.{listed};
ghost use Rattle.ipc_plan.specs.Sending.{Sends};
ghost use Rattle.ipc_model.specs.WrittenLaws.{prefix};
ghost use Rattle.ipc_chunks.specs.Messages.{AreSendable};
ghost use Rattle.ipc_write.specs.Messages.{all_seen, messages_bytes};
ghost use Rattle.ipc_write.specs.Sending.{Delivers};
ghost use Rattle.ipc_write.specs.declared.stream.WriterState.TheVariants.{Failed};
ghost use Rattle.ipc_footer_write.specs.Footers.{tail_of};
ghost use Rattle.ipc_file_lemmas.specs.FileBytes.{file_head};
ghost use Rattle.ipc_file_write.specs.FileWriters.{ending_bytes};
ghost use Rattle.ipc_file_write.specs.Writes.{HandsChunk};

use crate::blocks::{Placed, place_chunk};
use ipc_base::chunk::Chunk;
use ipc_chunks::messages::{Messages, encode_messages};
use ipc_devices::{Fault, Writes};
use ipc_plan::pieces::{Padded, Piece};
use ipc_plan::sending::{send_bytes, send_pieces};
use ipc_tracker::NewDictionary;
use ipc_write::checks::note_failure;
use ipc_write::common_sync::write_messages;
use ipc_write::stream::WriterState;
use lower::types::Endianness;
use lower_arrays::array::AnyArray;
use std::alloc::{AllocError, Global};

/// The head of a file: `ARROW1`, padded with zeros to 8 bytes.
const FILE_HEAD: [u8; 8] = *b"ARROW1\0\0";

/// The last bytes of a file.
const ARROW_MAGIC: [u8; 6] = *b"ARROW1";

/// The continuation marker before the length of a message.
const CONTINUATION_MARKER: [u8; 4] = [0xff; 4];

/// The end mark of a stream: the marker and the length 0.
const END_OF_STREAM: [u8; 8] = [0xff, 0xff, 0xff, 0xff, 0, 0, 0, 0];

// The end of a file: the end mark, `zeros` zero bytes, and the footer and tail in `bytes`.
#[derive(Drop)]
pub(crate) struct Ending {
    pub(crate) zeros: u64,
    pub(crate) bytes: Vec<u8>,
}

// Sends all of these bytes. If the device fails, the state is `Failed`.
pub(crate) fn send<W: Writes>(
    writer: &mut W,
    state: &mut WriterState,
    bytes: &[u8],
) -> Result<(), Fault>
    ensures sends { Delivers W.device bytes.now writer.old result writer.new }
    ensures stays { OnOk result (state.new ≡ state.old) }
    ensures failed { OnErr result (state.new ≡ Failed) }
{
    let sent = send_bytes(writer, bytes);
    note_failure(state, sent)
}

// Sends the end mark, the zero bytes, the footer and the tail.
fn send_ending<W: Writes>(writer: &mut W, ending: &Ending) -> Result<(), Fault>
    ensures { Sends W.device (ending_bytes ending.now) writer.old result writer.new }
{
    let pieces = [
        Padded {
            piece: Piece::Bytes(&END_OF_STREAM),
            zeros: ending.zeros as usize,
        },
        Padded {
            piece: Piece::Bytes(&ending.bytes),
            zeros: 0,
        },
    ];
    // There are no numbers in it, so that either byte order will do.
    send_pieces(writer, &pieces, Endianness::Little)
}

// Sends the end of a file, and flushes the device.
fn send_and_flush<W: Writes>(writer: &mut W, ending: &Ending) -> Result<(), Fault>
    ensures sends { Delivers W.device (ending_bytes ending.now) writer.old result writer.new }
    ensures flushed { OnOk result (IsTrue (W.device.is_flushed writer.new)) }
{
    send_ending(writer, ending)?;
    writer.flush()?;
    Ok(())
}

// Sends the end of a file, and flushes the device. If that fails, the state is `Failed`.
pub(crate) fn send_last<W: Writes>(
    writer: &mut W,
    state: &mut WriterState,
    ending: &Ending,
) -> Result<(), Fault>
    ensures sends { Delivers W.device (ending_bytes ending.now) writer.old result writer.new }
    ensures flushed { OnOk result (IsTrue (W.device.is_flushed writer.new)) }
    ensures stays { OnOk result (state.new ≡ state.old) }
    ensures failed { OnErr result (state.new ≡ Failed) }
{
    let sent = send_and_flush(writer, ending);
    note_failure(state, sent)
}

// The first bytes of a file whose schema message has these metadata.
pub(crate) fn beginning(alloc: Global, metadata: &[u8]) -> Result<Vec<u8>, AllocError>
    requires { length metadata.now < 2 ^ 31 }
    ensures { IfOk result (λ bytes. bytes.items ≡ file_head ++ (prefix (length metadata.now) ++ metadata.now)) }
{
    let mut bytes = Vec::new(alloc);
    bytes.extend_from_slice(&FILE_HEAD)?;
    bytes.extend_from_slice(&CONTINUATION_MARKER)?;
    bytes.extend_from_slice(&(metadata.len() as u32).to_le_bytes())?;
    bytes.extend_from_slice(metadata)?;
    Ok(bytes)
}

// A footer and the tail after it.
pub(crate) fn footer_and_tail(alloc: Global, footer: &[u8]) -> Result<Vec<u8>, AllocError>
    requires { length footer.now < 2 ^ 31 }
    ensures { IfOk result (λ bytes. bytes.items ≡ footer.now ++ tail_of footer.now) }
{
    let mut bytes = Vec::new(alloc);
    bytes.extend_from_slice(footer)?;
    bytes.extend_from_slice(&(footer.len() as u32).to_le_bytes())?;
    bytes.extend_from_slice(&ARROW_MAGIC)?;
    Ok(bytes)
}

// Sends the messages of a chunk. If the device fails, the state is `Failed`.
fn send_messages<W: Writes>(
    writer: &mut W,
    state: &mut WriterState,
    messages: &Messages<'_>,
) -> Result<(), Fault>
    requires { AreSendable messages.now }
    ensures sends { Delivers W.device (messages_bytes (all_seen messages.now)) writer.old result
        writer.new }
    ensures stays { OnOk result (state.new ≡ state.old) }
    ensures failed { OnErr result (state.new ≡ Failed) }
{
    let sent = write_messages(writer, messages);
    note_failure(state, sent)
}

// Encodes a chunk and these new dictionaries, sends their messages, and returns their blocks. They
// are sent to the offset `place`. All memory is allocated before the first byte is sent. If the
// device fails, the state is `Failed`.
pub(crate) fn send_chunk<W: Writes>(
    alloc: Global,
    writer: &mut W,
    state: &mut WriterState,
    columns: &Chunk<AnyArray>,
    dictionaries: &[NewDictionary],
    is_little_endian: bool,
    place: u64,
) -> Result<Placed, Fault>
    ensures { HandsChunk W.device (byte_order is_little_endian) (map layout_of columns.now)
        (map listed dictionaries.now) place writer.old state.old result writer.new state.new }
{
    let messages = encode_messages(alloc, columns, dictionaries, is_little_endian)?;
    let placed = place_chunk(alloc, &messages, place)?;
    send_messages(writer, state, &messages)?;
    Ok(placed)
}
