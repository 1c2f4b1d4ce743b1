//! What was read of a part of a message.
ghost use Rattle.std.specs.Prelude.{◌≡◌};
ghost use Rattle.ipc_model.specs.Schemas.{made, present};

use ipc_table_views::TableFault;

/// A part of a message that is valid.
#[derive(Drop)]
pub(crate) struct Seen<T> {
    /// Its value. None if a type in it isn't supported.
    pub(crate) plain: Option<T>,
    /// How many fields may still be read after it.
    pub(crate) left: usize,
}

/// The value of a slot. None if it is malformed.
pub(crate) fn made<T>(slot: Result<T, TableFault>) -> Option<T>
    ensures { result ≡ made slot }
{
    match slot {
        Ok(value) => Some(value),
        Err(_) => None,
    }
}

/// The value of a slot. None if it is malformed or absent.
pub(crate) fn present<T>(slot: Result<Option<T>, TableFault>) -> Option<T>
    ensures { result ≡ present slot }
{
    match slot {
        Ok(value) => value,
        Err(_) => None,
    }
}
