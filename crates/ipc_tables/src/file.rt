//! The table of Arrow's `File.fbs`, as a value that is encoded.
ghost use Rattle.std.specs.Prelude.{ℕ, IfOk, option_map};
ghost use Rattle.ipc_table_bytes.specs.Encodes.{Encodes};
ghost use Rattle.ipc_table_bytes.specs.Parts.{IsPart};
ghost use Rattle.ipc_table_bytes.specs.Tree.{table};
ghost use Rattle.ipc_tables.specs.Files.{footer_slots};
ghost use Rattle.ipc_tables.specs.Reads.{HaveRoot, IsFooter};
ghost use Rattle.ipc_tables.specs.Schemas.{schema_slots};
ghost use Rattle.ipc_tables.specs.Slots.{IsOptional};

use crate::elements::{Element, elements_slot};
use crate::schema::{KeyValue, Schema, optional_pairs, schema_part, version_number};
use ipc_devices::fault::Fault;
use ipc_table_bytes::{Built, Pool, Slot, message, put_u32, put_u64, table};
use ipc_table_views::{Block, MetadataVersion};
use std::alloc::{AllocError, Global};

/// A table `Footer`, as a value (Arrow columnar format, "IPC File Format").
#[derive(Drop)]
pub struct Footer {
    pub version: MetadataVersion,
    pub schema: Option<Schema>,
    /// Where the dictionary batches are in the file.
    pub dictionaries: Option<Vec<Block>>,
    /// Where the record batches are in the file.
    pub record_batches: Option<Vec<Block>>,
    pub custom_metadata: Option<Vec<KeyValue>>,
}

impl Element for Block {
    ghost use Rattle.std.proofs.Common.{refl};
    ghost use Rattle.ipc_tables.specs.Files.{block_bytes};
    ghost use Rattle.ipc_tables.specs.ElementLaws.{length-block, some-24};

    ghost size = { 24 };

    ghost align = { 8 };

    ghost spelt = { block_bytes };

    ghost sized = { length-block };

    ghost some = { some-24 };

    ghost aligned = { refl };

    fn len() -> usize {
        24
    }

    // 24 bytes, of which four are unused.
    fn put(self, bytes: &mut Vec<u8>) -> Result<(), AllocError> {
        put_u64(bytes, self.offset.cast_unsigned())?;
        put_u32(bytes, self.meta_data_length.cast_unsigned())?;
        put_u32(bytes, 0)?;
        put_u64(bytes, self.body_length.cast_unsigned())
    }
}

fn schema_slot(pool: &mut Pool, schema: &Option<Schema>) -> Result<Slot, AllocError>
    ensures { IfOk result (λ slot. IsOptional slot (option_map (λ s. table (schema_slots s)) schema.now)) }
{
    match schema {
        None => Ok(Slot::Absent),
        Some(schema) => Ok(Slot::Offset(schema_part(pool, schema)?)),
    }
}

fn footer_part(pool: &mut Pool, footer: &Footer) -> Result<Built, AllocError>
    ensures { IfOk result (λ built. IsPart built (table (footer_slots footer.now))) }
{
    let schema = schema_slot(pool, &footer.schema)?;
    let dictionaries = elements_slot(pool, &footer.dictionaries)?;
    let record_batches = elements_slot(pool, &footer.record_batches)?;
    let pairs = optional_pairs(pool, &footer.custom_metadata)?;
    table(
        pool,
        &[
            Slot::Number(version_number(footer.version)),
            schema,
            dictionaries,
            record_batches,
            pairs,
        ],
    )
}

impl Footer {
    /// Returns the encoded footer.
    ///
    /// Errors:
    ///
    /// - `Fault::Memory`: an allocation failed.
    /// - `Fault::Argument(ArgFault::TooLarge)`: it is longer than `2^31 - 1` bytes.
    pub fn to_bytes(&self, alloc: Global) -> Result<Vec<u8>, Fault>
        // the root table has these slots, in a strict layout
        ensures encodes { Encodes result (footer_slots self.now) }
        // each accessor returns what the value says, for fields nested to any depth
        ensures reads { (levels : ℕ) → IfOk result (λ bytes.
            HaveRoot bytes.items (IsFooter levels) self.now) }
    {
        let mut pool = Pool::new(alloc);
        message(alloc, &footer_part(&mut pool, self)?)
    }
}
