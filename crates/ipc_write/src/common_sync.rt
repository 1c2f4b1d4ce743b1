//! Sends messages to a device.
ghost use Rattle.std.specs.Prelude.{◌≡◌, ◌+◌, ◌-◌, ◌^◌, ◌<◌, ◌≤◌, [], All, length, map, IfOk, OnOk};
ghost use Rattle.std.specs.Int.{next_multiple_of};
ghost use Rattle.ipc_plan.specs.Sending.{Sends};
ghost use Rattle.ipc_write.specs.Framing.{head_bytes, head_len, message_bytes, padded, prefix_bytes};
ghost use Rattle.ipc_write.specs.Messages.{all_seen, messages_bytes};
ghost use Rattle.ipc_chunks.specs.Messages.{AreSendable, IsSendable, message_seen};
ghost use Rattle.ipc_write.specs.Sending.{SendsOrRefuses};

use crate::common::EncodedData;
use ipc_chunks::messages::Messages;
use ipc_devices::{ArgFault, Fault, Writes};
use ipc_encode::batches::Encoded;
use ipc_plan::sending::{send_bytes, send_pieces, zeros};

/// Sends all of these bytes, in order.
///
/// `Io` comes only if the device failed, or if it is memory whose growth was refused. A prefix of
/// the bytes was sent then. There is no other error.
pub fn write_all<W: Writes>(writer: &mut W, bytes: &[u8]) -> Result<(), Fault>
    ensures sends { Sends W.device bytes.now writer.old result writer.new }
{
    send_bytes(writer, bytes)
}

// How many bytes are missing up to the next multiple.
fn padding(len: usize, multiple: usize) -> usize
    requires { 0 < multiple }
    ensures value { result ≡ next_multiple_of len multiple - len }
    ensures most { result < multiple }
{
    (multiple - len % multiple) % multiple
}

// Sends these bytes, and zeros up to the next multiple.
fn write_padded<W: Writes>(writer: &mut W, bytes: &[u8], multiple: usize) -> Result<(), Fault>
    requires positive { 0 < multiple }
    requires most { multiple ≤ 64 }
    ensures sends { Sends W.device (padded bytes.now multiple) writer.old result writer.new }
{
    send_bytes(writer, bytes)?;
    send_bytes(writer, zeros(padding(bytes.len(), multiple)))
}

/// Sends the continuation marker FF FF FF FF and a length, and returns 8.
///
/// 8 is the number of bytes. See "Encapsulated message format" in the Arrow columnar format. `Io`
/// comes only if the device failed, or if it is memory whose growth was refused.
#[tactic(auto, unfolding(crate::specs::Framing::prefix_bytes))]
pub fn write_continuation<W: Writes>(writer: &mut W, total_len: i32) -> Result<usize, Fault>
    ensures answer { IfOk result (λ n. n ≡ 8) }
    ensures sends { Sends W.device (prefix_bytes total_len) writer.old result writer.new }
{
    let mut prefix = [0xff; 8];
    prefix[4..].copy_from_slice(&total_len.to_le_bytes());
    send_bytes(writer, &prefix)?;
    Ok(8)
}

// Sends the prefix of a message and its metadata, padded with zeros to a multiple of 8 bytes.
// Returns how many bytes these are.
//
// `Argument(TooLarge)` if the padded metadata has more than `2^31 - 1` bytes; nothing was sent
// then.
fn write_metadata<W: Writes>(writer: &mut W, metadata: &[u8]) -> Result<usize, Fault>
    ensures len { IfOk result (λ len. len ≡ head_len metadata.now) }
    ensures ok { OnOk result (next_multiple_of (length metadata.now) 8 < 2 ^ 31) }
    ensures sends { SendsOrRefuses W.device writer.old result writer.new
        (head_bytes metadata.now) (2 ^ 31 ≤ next_multiple_of (length metadata.now) 8) }
{
    let padded_len = metadata.len().next_multiple_of(8);
    let Ok(total_len) = i32::try_from(padded_len) else {
        return Err(Fault::Argument(ArgFault::TooLarge));
    };
    write_continuation(writer, total_len)?;
    write_padded(writer, metadata, 8)?;
    Ok(8 + padded_len)
}

// Sends a message that has no body. The errors are those of `write_metadata`.
pub(crate) fn write_head<W: Writes>(writer: &mut W, metadata: &[u8]) -> Result<(), Fault>
    ensures sends { SendsOrRefuses W.device writer.old result writer.new
        (message_bytes metadata.now []) (2 ^ 31 ≤ next_multiple_of (length metadata.now) 8) }
{
    write_metadata(writer, metadata)?;
    Ok(())
}

/// Sends a message: its prefix, its padded metadata and its padded body.
///
/// The prefix is the continuation marker and the length of the padded metadata, together 8 bytes.
/// The metadata are padded with zeros to a multiple of 8 bytes, the body to one of 64. Returns the
/// length of prefix and padded metadata, and that of the padded body, in bytes.
///
/// # Errors
/// - `Argument(TooLarge)`: the padded metadata has more than `2^31 - 1` bytes; nothing was sent.
/// - `Io` only if the device failed, or if it is memory whose growth was refused; a prefix of the
///   message was sent.
pub fn write_message<W: Writes>(
    writer: &mut W,
    encoded: &EncodedData,
) -> Result<(usize, usize), Fault>
    ensures lengths { IfOk result (λ lens.
        (lens.0 ≡ 8 + next_multiple_of (length encoded.now.ipc_message.items) 8)
        × (lens.1 ≡ next_multiple_of (length encoded.now.arrow_data.items) 64)) }
    ensures ok { OnOk result (next_multiple_of (length encoded.now.ipc_message.items) 8 < 2 ^ 31) }
    ensures sends { SendsOrRefuses W.device writer.old result writer.new
        (message_bytes encoded.now.ipc_message.items encoded.now.arrow_data.items)
        (2 ^ 31 ≤ next_multiple_of (length encoded.now.ipc_message.items) 8) }
{
    let head_len = write_metadata(writer, &encoded.ipc_message)?;
    write_padded(writer, &encoded.arrow_data, 64)?;
    Ok((head_len, encoded.arrow_data.len().next_multiple_of(64)))
}

/// Sends a message whose body is in pieces, as [`write_message`] does.
///
/// Returns the length of what precedes the body, and that of the body, in bytes. `Io` comes only if
/// the device failed, or if it is memory whose growth was refused; a prefix of the message was sent
/// then. There is no other error.
pub fn write_encoded<W: Writes>(
    writer: &mut W,
    encoded: &Encoded<'_>,
) -> Result<(usize, u64), Fault>
    requires { IsSendable encoded.now }
    ensures lengths { IfOk result (λ lens.
        (lens.0 ≡ head_len encoded.now.metadata.items) × (lens.1 ≡ encoded.now.body.end)) }
    ensures sends { Sends W.device
        (message_bytes (message_seen encoded.now).metadata (message_seen encoded.now).body)
        writer.old result
        writer.new }
{
    let head_len = write_metadata(writer, &encoded.metadata)?;
    send_pieces(writer, &encoded.body.pieces, encoded.body.order)?;
    Ok((head_len, encoded.body.end))
}

// Sends messages in order.
fn write_all_encoded<W: Writes>(writer: &mut W, messages: &[Encoded<'_>]) -> Result<(), Fault>
    requires { All IsSendable messages.now }
    ensures { Sends W.device (messages_bytes (map message_seen messages.now)) writer.old result
        writer.new }
{
    for message in messages {
        write_encoded(writer, message)?;
    }
    Ok(())
}

/// Sends the messages of a chunk, those of its dictionaries first.
///
/// `Io` comes only if the device failed, or if it is memory whose growth was refused; a prefix of
/// the messages was sent then. There is no other error.
pub fn write_messages<W: Writes>(writer: &mut W, messages: &Messages<'_>) -> Result<(), Fault>
    requires { AreSendable messages.now }
    ensures { Sends W.device (messages_bytes (all_seen messages.now)) writer.old result writer.new }
{
    write_all_encoded(writer, &messages.dictionaries)?;
    write_encoded(writer, &messages.record_batch)?;
    Ok(())
}
