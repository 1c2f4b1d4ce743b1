//! Numbers as the content of slots.
ghost use Rattle.std.specs.Prelude.{◌≡◌, ◌<◌, ◌^◌, ◌++◌, ◌∷◌, [], OnOk};
ghost use Rattle.ipc_tables.specs.Slots.{bit, bits32, bits64};

use ipc_table_bytes::Built;
use std::alloc::AllocError;

pub(crate) fn flag(b: bool) -> u64
    ensures value { result ≡ bit b }
    ensures small { result < 256 }
{
    if b { 1 } else { 0 }
}

pub(crate) fn word(number: i32) -> u64
    ensures value { result ≡ bits32 number }
    ensures small { result < 2 ^ 32 }
{
    number.cast_unsigned() as u64
}

pub(crate) fn long(number: i64) -> u64
    ensures value { result ≡ bits64 number }
    ensures small { result < 2 ^ 64 }
{
    number.cast_unsigned()
}

// Appends a part.
pub(crate) fn push(parts: &mut Vec<Built>, part: Built) -> Result<(), AllocError>
    ensures { OnOk result (parts.new.items ≡ parts.old.items ++ part ∷ []) }
{
    parts.push(part).map_err(AllocError::from)
}
