//! Offsets and texts in a message.
ghost use Rattle.std.specs.Prelude.{◌≡◌, ◌<◌, ◌^◌};
ghost use Rattle.ipc_table_views.specs.Tables.{as_text, before, map_ok, target_at, text_at};

use crate::number::{bytes_at, u32_at};
use ipc_devices::fault::TableFault;
use simdutf8::basic::from_utf8;

// Subtracts a signed 32-bit number, of which `bits` are the bits, from an offset.
pub(crate) fn before(place: usize, bits: u32) -> Result<usize, TableFault>
    requires { place < 2 ^ 63 }
    ensures { result ≡ before place bits }
{
    let bits = bits as usize;
    if bits < 1 << 31 {
        if bits <= place {
            Ok(place - bits)
        } else {
            Err(TableFault::Outside)
        }
    } else {
        Ok(place + ((1 << 32) - bits))
    }
}

// The target of the relative offset at an offset.
#[tactic(auto, unfolding(crate::specs::Tables::target_at))]
pub(crate) fn target_at(message: &[u8], place: usize) -> Result<usize, TableFault>
    ensures { result ≡ target_at message.now place }
{
    let offset = u32_at(message, place)?;
    Ok(place + offset as usize)
}

fn as_text(bytes: &[u8]) -> Result<&str, TableFault>
    ensures { map_ok (λ text. text.now) result ≡ as_text bytes.now }
{
    match from_utf8(bytes) {
        Ok(text) => Ok(text),
        Err(_) => Err(TableFault::Utf8),
    }
}

// The text at an offset: its length and its bytes.
#[tactic(auto, unfolding(crate::specs::Tables::text_at))]
pub(crate) fn text_at(message: &[u8], place: usize) -> Result<&str, TableFault>
    ensures { map_ok (λ text. text.now) result ≡ text_at message.now place }
{
    let count = u32_at(message, place)?;
    as_text(bytes_at(message, place + 4, count as usize)?)
}
