//! Views of tables in a message. None allocates.
ghost use Rattle.std.specs.Prelude.{◌≡◌, ◌<◌, ◌^◌, IsTrue, ◌↔◌};
ghost use Rattle.std.specs.Int.{w32, w64, cast_signed};
ghost use Rattle.ipc_table_views.specs.Tables.{and_then, flag, map_ok, number_slot, of_slot, present, slot_at, spot_at, table_in, table_slot, target_at, text_slot, vector_at, vector_slot, texts};

use crate::number::{bytes_at, u8_at, u16_at, u32_at, u64_at};
use crate::table::{before, target_at, text_at};
use ipc_devices::fault::TableFault;
use std::marker::{Model, PhantomData};

/// A view of a table in a message, of kind `K`.
///
/// The message may be any bytes. Opening a view checks the position of the table and its vtable; a
/// slot is checked when its accessor is called. Neither alignment, zero bytes after texts, nor the
/// size of tables is checked. Errors of accessors:
///
/// - `TableFault::Outside`: the slot, or what its offset leads to, is outside the message.
/// - `TableFault::Vtable`: the slot leads to a table whose vtable is shorter than 4 bytes.
/// - `TableFault::UnknownTag`: the number of an enumeration or a union is unknown.
/// - `TableFault::MissingValue`: a union has a tag but no value.
/// - `TableFault::Utf8`: a text isn't UTF-8.
#[derive(Drop)]
pub struct TableRef<'a, K> {
    message: &'a [u8],
    place: usize,
    vtable: usize,
    vtable_size: usize,
    kind: PhantomData<K>,
}

impl<'a, K> Model for TableRef<'a, K> {
    ghost use Rattle.std.specs.Prelude.{◌≡◌, ◌+◌, ◌≤◌, Ok, length};
    ghost use Rattle.ipc_table_views.specs.Spot.{Spot};
    ghost use Rattle.ipc_table_views.specs.Tables.{table_at};

    ghost Value = { Spot };

    ghost view = { λ t. record { message = t.message.now; place = t.place } };

    ghost invariant = { λ t. (table_at t.message.now t.place ≡ Ok (t.vtable, t.vtable_size))
        × (t.place + 4 ≤ length t.message.now) × (t.vtable + 4 ≤ length t.message.now) };
}

impl<'a, K> TableRef<'a, K> {
    #[tactic(auto, unfolding(crate::specs::Tables::spot_at, crate::specs::Tables::table_at))]
    pub(crate) fn open(message: &'a [u8], place: usize) -> Result<TableRef<'a, K>, TableFault>
        ensures { result ≡ spot_at message.now place }
    {
        let vtable = before(place, u32_at(message, place)?)?;
        let vtable_size = u16_at(message, vtable)?;
        u16_at(message, vtable + 2)?;
        if vtable_size < 4 {
            return Err(TableFault::Vtable);
        }
        Ok(TableRef {
            message,
            place,
            vtable,
            vtable_size: vtable_size as usize,
            kind: PhantomData,
        })
    }

    /// Returns the message that has the table.
    pub fn message(&self) -> &'a [u8]
        ensures { result.now ≡ self.now.message }
    {
        self.message
    }

    // The offset of a slot's value.
    #[tactic(auto, unfolding(crate::specs::Tables::slot_at))]
    pub(crate) fn slot(&self, index: usize) -> Result<Option<usize>, TableFault>
        requires { index < 2 ^ 16 }
        ensures { result ≡ slot_at self.now.message self.now.place index }
    {
        if self.vtable_size < 4 + 2 * index + 2 {
            return Ok(None);
        }
        let offset = u16_at(self.message, self.vtable + 4 + 2 * index)?;
        Ok(if offset == 0 {
            None
        } else {
            Some(self.place + offset as usize)
        })
    }

    // The target of the offset in a slot.
    pub(crate) fn target(&self, index: usize) -> Result<Option<usize>, TableFault>
        requires { index < 2 ^ 16 }
        ensures { result ≡ of_slot (slot_at self.now.message self.now.place index) (target_at self.now.message) }
    {
        match self.slot(index)? {
            Some(place) => Ok(Some(target_at(self.message, place)?)),
            None => Ok(None),
        }
    }

    pub(crate) fn u8(&self, index: usize, default: u8) -> Result<u8, TableFault>
        requires { index < 2 ^ 16 }
        ensures { result ≡ number_slot 1 default self.now.message self.now.place index }
    {
        match self.slot(index)? {
            Some(place) => u8_at(self.message, place),
            None => Ok(default),
        }
    }

    pub(crate) fn u16(&self, index: usize, default: u16) -> Result<u16, TableFault>
        requires { index < 2 ^ 16 }
        ensures { result ≡ number_slot 2 default self.now.message self.now.place index }
    {
        match self.slot(index)? {
            Some(place) => u16_at(self.message, place),
            None => Ok(default),
        }
    }

    pub(crate) fn u32(&self, index: usize, default: u32) -> Result<u32, TableFault>
        requires { index < 2 ^ 16 }
        ensures { result ≡ number_slot 4 default self.now.message self.now.place index }
    {
        match self.slot(index)? {
            Some(place) => u32_at(self.message, place),
            None => Ok(default),
        }
    }

    pub(crate) fn u64(&self, index: usize, default: u64) -> Result<u64, TableFault>
        requires { index < 2 ^ 16 }
        ensures { result ≡ number_slot 8 default self.now.message self.now.place index }
    {
        match self.slot(index)? {
            Some(place) => u64_at(self.message, place),
            None => Ok(default),
        }
    }

    // A boolean: true if its byte isn't 0, false also if the slot is absent.
    pub(crate) fn bool(&self, index: usize) -> Result<bool, TableFault>
        requires { index < 2 ^ 16 }
        ensures { result ≡ map_ok flag (number_slot 1 0 self.now.message self.now.place index) }
    {
        Ok(self.u8(index, 0)? != 0)
    }

    pub(crate) fn i32(&self, index: usize, default: u32) -> Result<i32, TableFault>
        requires { index < 2 ^ 16 }
        ensures { result ≡ map_ok (cast_signed w32) (number_slot 4 default self.now.message self.now.place index) }
    {
        Ok(self.u32(index, default)?.cast_signed())
    }

    pub(crate) fn i64(&self, index: usize) -> Result<i64, TableFault>
        requires { index < 2 ^ 16 }
        ensures { result ≡ map_ok (cast_signed w64) (number_slot 8 0 self.now.message self.now.place index) }
    {
        Ok(self.u64(index, 0)?.cast_signed())
    }

    pub(crate) fn text(&self, index: usize) -> Result<Option<&'a str>, TableFault>
        requires { index < 2 ^ 16 }
        ensures { texts result ≡ text_slot self.now.message self.now.place index }
    {
        match self.slot(index)? {
            Some(place) => Ok(Some(text_at(self.message, target_at(self.message, place)?)?)),
            None => Ok(None),
        }
    }

    pub(crate) fn table<L>(&self, index: usize) -> Result<Option<TableRef<'a, L>>, TableFault>
        requires { index < 2 ^ 16 }
        ensures { result ≡ table_slot self.now.message self.now.place index }
    {
        match self.slot(index)? {
            Some(place) => Ok(Some(TableRef::open(self.message, target_at(self.message, place)?)?)),
            None => Ok(None),
        }
    }

    // The table of a union whose tag is present.
    pub(crate) fn present<L>(&self, index: usize) -> Result<TableRef<'a, L>, TableFault>
        requires { index < 2 ^ 16 }
        ensures { result ≡ and_then (table_slot self.now.message self.now.place index) present }
    {
        self.table(index)?.ok_or(TableFault::MissingValue)
    }

    pub(crate) fn tables<L>(&self, index: usize) -> Result<Option<Tables<'a, L>>, TableFault>
        requires { index < 2 ^ 16 }
        ensures { result ≡ vector_slot 4 self.now.message self.now.place index }
    {
        match self.slot(index)? {
            Some(place) => Ok(Some(Tables::open(self.message, target_at(self.message, place)?)?)),
            None => Ok(None),
        }
    }
}

/// A vector of tables in a message, of kind `K`.
#[derive(Drop)]
pub struct Tables<'a, K> {
    message: &'a [u8],
    place: usize,
    count: usize,
    kind: PhantomData<K>,
}

impl<'a, K> Model for Tables<'a, K> {
    ghost use Rattle.std.specs.Prelude.{◌+◌, ◌*◌, ◌≤◌, length};
    ghost use Rattle.ipc_table_views.specs.Spot.{Vector};

    ghost Value = { Vector };

    ghost view = { λ t. record { message = t.message.now; place = t.place; count = t.count } };

    ghost invariant = { λ t. t.place + 4 * t.count ≤ length t.message.now };
}

impl<'a, K> Tables<'a, K> {
    #[tactic(auto, unfolding(crate::specs::Tables::vector_at))]
    pub(crate) fn open(message: &'a [u8], place: usize) -> Result<Tables<'a, K>, TableFault>
        ensures { result ≡ vector_at 4 message.now place }
    {
        let count = u32_at(message, place)? as usize;
        bytes_at(message, place + 4, 4 * count)?;
        Ok(Tables {
            message,
            place: place + 4,
            count,
            kind: PhantomData,
        })
    }

    /// Returns the number of tables.
    pub fn len(&self) -> usize
        ensures { result ≡ self.now.count }
    {
        self.count
    }

    /// Returns whether there is no table.
    pub fn is_empty(&self) -> bool
        ensures { IsTrue result ↔ (self.now.count ≡ 0) }
    {
        self.count == 0
    }

    /// Opens the table at `index`.
    ///
    /// Errors:
    ///
    /// - `TableFault::Outside`: the offset, the table or its vtable leads outside the message.
    /// - `TableFault::Vtable`: the vtable is shorter than 4 bytes.
    #[tactic(auto, unfolding(crate::specs::Tables::table_in))]
    pub fn get(&self, index: usize) -> Result<TableRef<'a, K>, TableFault>
        requires { index < self.now.count }
        ensures { result ≡ table_in self.now index }
    {
        let place = target_at(self.message, self.place + 4 * index)?;
        TableRef::open(self.message, place)
    }
}
