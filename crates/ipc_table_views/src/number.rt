//! Bytes and numbers at an offset of a message.
ghost use Rattle.std.specs.Prelude.{◌≡◌, ◌+◌, ◌≤◌, OnOk, length};
ghost use Rattle.ipc_table_views.specs.Tables.{bytes_at, map_ok, number_at};

use byteorder::{ByteOrder, LittleEndian};
use ipc_devices::fault::TableFault;

// The `count` bytes from an offset.
pub(crate) fn bytes_at(message: &[u8], place: usize, count: usize) -> Result<&[u8], TableFault>
    ensures value { map_ok (λ bytes. bytes.now) result ≡ bytes_at count message.now place }
    ensures inside { OnOk result (place + count ≤ length message.now) }
{
    if place <= message.len() && count <= message.len() - place {
        Ok(&message[place..place + count])
    } else {
        Err(TableFault::Outside)
    }
}

#[tactic(auto, unfolding(crate::specs::Tables::number_at))]
pub(crate) fn u8_at(message: &[u8], place: usize) -> Result<u8, TableFault>
    ensures value { result ≡ number_at 1 message.now place }
    ensures inside { OnOk result (place + 1 ≤ length message.now) }
{
    Ok(bytes_at(message, place, 1)?[0])
}

#[tactic(auto, unfolding(crate::specs::Tables::number_at))]
pub(crate) fn u16_at(message: &[u8], place: usize) -> Result<u16, TableFault>
    ensures value { result ≡ number_at 2 message.now place }
    ensures inside { OnOk result (place + 2 ≤ length message.now) }
{
    Ok(LittleEndian::read_u16(bytes_at(message, place, 2)?))
}

#[tactic(auto, unfolding(crate::specs::Tables::number_at))]
pub(crate) fn u32_at(message: &[u8], place: usize) -> Result<u32, TableFault>
    ensures value { result ≡ number_at 4 message.now place }
    ensures inside { OnOk result (place + 4 ≤ length message.now) }
{
    Ok(LittleEndian::read_u32(bytes_at(message, place, 4)?))
}

#[tactic(auto, unfolding(crate::specs::Tables::number_at))]
pub(crate) fn u64_at(message: &[u8], place: usize) -> Result<u64, TableFault>
    ensures value { result ≡ number_at 8 message.now place }
    ensures inside { OnOk result (place + 8 ≤ length message.now) }
{
    Ok(LittleEndian::read_u64(bytes_at(message, place, 8)?))
}
