//! Numbers of structs in a vector.
ghost use Rattle.std.specs.Prelude.{◌≡◌, ◌+◌, ◌≤◌, length};
ghost use Rattle.ipc_table_views.specs.Structs.{signed32, signed64};

use byteorder::{ByteOrder, LittleEndian};

#[tactic(auto, unfolding(crate::specs::Structs::signed32))]
pub(crate) fn signed32(message: &[u8], place: usize) -> i32
    requires { place + 4 ≤ length message.now }
    ensures { result ≡ signed32 message.now place }
{
    LittleEndian::read_i32(&message[place..place + 4])
}

#[tactic(auto, unfolding(crate::specs::Structs::signed64))]
pub(crate) fn signed64(message: &[u8], place: usize) -> i64
    requires { place + 8 ≤ length message.now }
    ensures { result ≡ signed64 message.now place }
{
    LittleEndian::read_i64(&message[place..place + 8])
}
