//! The header of a message: the Arrow columnar format, "Encapsulated message format".
ghost use Rattle.std.specs.Prelude.{◌≡◌, IfErr};
ghost use Rattle.ipc_devices.specs.Faults.{OnIo, OwnFault};
ghost use Rattle.ipc_table_views.specs.MessageSlots.{message_header};
ghost use Rattle.ipc_table_views.specs.Unions.{header_parts};
ghost use Rattle.ipc_read.specs.Headers.{LacksHeader, answered_as, needed_header};

use ipc_devices::fault::{Fault, OutOfSpecKind};
use ipc_table_views::{MessageHeaderRef, MessageRef};

/// The header of a message, without an allocation.
///
/// # Errors
/// - `OutOfSpec(MissingMessageHeader)`: the message has no header.
/// - `OutOfSpec(InvalidFlatbufferHeader)`: the header is malformed.
pub fn header_of<'a>(message: &MessageRef<'a>) -> Result<MessageHeaderRef<'a>, Fault>
    ensures value { answered_as header_parts result ≡ needed_header (message_header message.now) }
    ensures only { IfErr result (λ e. OwnFault e (LacksHeader e)) }
    ensures device { OnIo result ⊥ }
{
    match message.header() {
        Ok(Some(header)) => Ok(header),
        Ok(None) => Err(OutOfSpecKind::MissingMessageHeader.into()),
        Err(e) => Err(OutOfSpecKind::InvalidFlatbufferHeader(e).into()),
    }
}
