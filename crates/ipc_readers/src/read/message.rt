//! Opens the messages of a stream.
ghost use Rattle.std.specs.Prelude.{◌≡◌, ◌<◌, ◌^◌, IfOk, IfErr};
ghost use Rattle.ipc_devices.specs.Faults.{OnIo, OwnFault};
ghost use Rattle.ipc_table_views.specs.MessageSlots.{message_body_length};
ghost use Rattle.ipc_model.specs.Streams.{header_of};
ghost use Rattle.ipc_read.specs.Headers.{answered_as};
ghost use Rattle.ipc_readers.specs.Messages.{GivesMessage, header_seen, natural_length, opened};
ghost use Rattle.ipc_readers.specs.Refusals.{IsMessageFault};

use ipc_devices::fault::{Fault, OutOfSpecKind};
use ipc_read::read::header::header_of;
use ipc_table_views::{MessageHeaderRef, MessageRef};

/// The header of a message after the schema, and the length of its body.
#[derive(Drop)]
pub struct Message<'a> {
    /// The header, as a table in the metadata.
    pub header: MessageHeaderRef<'a>,
    /// The length of the body in bytes.
    pub body_length: usize,
}

// The length of the body in bytes. A negative one is refused.
fn body_length_of(message: &MessageRef<'_>) -> Result<usize, Fault>
    ensures small { IfOk result (λ n. n < 2 ^ 63) }
    ensures value { result ≡ natural_length (message_body_length message.now) }
    ensures device { OnIo result ⊥ }
    ensures only { IfErr result (λ e. OwnFault e (IsMessageFault e)) }
{
    match message.body_length() {
        Ok(length) if length >= 0 => Ok(length as usize),
        Ok(_) => Err(Fault::OutOfSpec(OutOfSpecKind::UnexpectedNegativeInteger)),
        Err(e) => Err(Fault::OutOfSpec(OutOfSpecKind::InvalidFlatbufferBodyLength(e))),
    }
}

/// Opens the metadata of a message after the schema, without an allocation.
///
/// # Errors
/// Each is `OutOfSpec`.
///
/// - `InvalidFlatbufferMessage`: the message's table is malformed.
/// - `MissingMessageHeader`, `InvalidFlatbufferHeader`: it has no header, or a malformed one.
/// - `InvalidFlatbufferBodyLength`: the body length is malformed.
/// - `UnexpectedNegativeInteger`: the body length is negative.
#[tactic(auto, unfolding(crate::specs::Messages::opened), using(crate::proofs::Openings::header_faults))]
pub fn open_message(metadata: &[u8]) -> Result<Message<'_>, Fault>
    ensures small { IfOk result (λ m. m.body_length < 2 ^ 63) }
    ensures message { GivesMessage (header_of metadata.now) result }
    ensures exact { answered_as header_seen result ≡ opened metadata.now }
    ensures device { OnIo result ⊥ }
    ensures only { IfErr result (λ e. OwnFault e (IsMessageFault e)) }
{
    let message = match MessageRef::read_as_root(metadata) {
        Ok(message) => message,
        Err(e) => return Err(Fault::OutOfSpec(OutOfSpecKind::InvalidFlatbufferMessage(e))),
    };
    let header = header_of(&message)?;
    let body_length = body_length_of(&message)?;
    Ok(Message {
        header,
        body_length,
    })
}
