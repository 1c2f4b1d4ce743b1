//! Encodes whole messages.
ghost use Rattle.std.specs.Prelude.{◌≡◌, ◌++◌, ◌+◌, IfOk};
ghost use Rattle.ipc_table_bytes.specs.Encodes.{Encodes};
ghost use Rattle.ipc_table_bytes.specs.Pads.{le};
ghost use Rattle.ipc_table_bytes.specs.Parts.{IsPart};
ghost use Rattle.ipc_table_bytes.specs.Tree.{Slots, table};

use crate::build::{Built, put_u64};
use ipc_devices::fault::{ArgFault, Fault};
use std::alloc::{AllocError, Global};

/// The greatest length of a message in bytes.
const MAX_LEN: usize = 0x7FFF_FFFF;

// The offset of the root, and the root.
fn rooted(alloc: Global, root: &Built) -> Result<Vec<u8>, AllocError>
    ensures { IfOk result (λ bytes. bytes.items ≡ le 8 (8 + root.now.entry) ++ root.now.bytes.items) }
{
    let mut bytes = Vec::with_capacity(alloc, 8 + root.bytes.len())?;
    put_u64(&mut bytes, (8 + root.entry) as u64)?;
    bytes.extend_from_slice(&root.bytes)?;
    Ok(bytes)
}

/// Returns the message whose root is this table.
///
/// Errors:
///
/// - `Fault::Memory`: an allocation failed.
/// - `Fault::Argument(ArgFault::TooLarge)`: the message is longer than `2^31 - 1` bytes.
pub fn message(alloc: Global, root: &Built) -> Result<Vec<u8>, Fault>
    ensures { (slots : Slots) → IsPart root.now (table slots) → Encodes result slots }
{
    let bytes = rooted(alloc, root)?;
    if bytes.len() > MAX_LEN {
        return Err(Fault::Argument(ArgFault::TooLarge));
    }
    Ok(bytes)
}
