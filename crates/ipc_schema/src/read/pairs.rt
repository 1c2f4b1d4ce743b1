//! Key-value metadata: `custom_metadata` of `Schema.fbs` and of `File.fbs`.
ghost use Rattle.std.specs.Prelude.{◌≡◌, [], IfOk};
ghost use Rattle.lower.specs.Normal.{with_pair};
ghost use Rattle.lower.specs.TypeViews.{pairs_of};
ghost use Rattle.ipc_model.specs.Schemas.{with_key_value, pairs_from};
ghost use Rattle.ipc_schema.specs.Pairs.{GivesPairs};
ghost use Rattle.ipc_schema.specs.declared.read.pairs.PairsFault.TheVariants.{Memory, Table};

use ipc_devices::fault::TableFault;
use ipc_table_views::{KeyValueRef, KeyValueTable, Tables};
use lower::datatypes::Metadata;
use std::alloc::{AllocError, Global};
use std::collections::BTreeMap;

/// Why pairs can't be read.
#[derive(Debug, Clone, Copy, PartialEq, Eq)]
pub enum PairsFault {
    /// The table of a pair is malformed.
    Table(TableFault),
    /// An allocation failed.
    Memory,
}

impl From<TableFault> for PairsFault {
    ghost from_gives = { λ fault f. f ≡ Table fault };

    fn from(fault: TableFault) -> PairsFault {
        PairsFault::Table(fault)
    }
}

impl From<AllocError> for PairsFault {
    ghost from_gives = { λ _ f. f ≡ Memory };

    fn from(_e: AllocError) -> PairsFault {
        PairsFault::Memory
    }
}

fn put(alloc: Global, pairs: &mut Metadata, key: &str, value: &str) -> Result<(), AllocError>
    ensures { IfOk result (λ _. pairs_of pairs.new.entries
        ≡ with_pair key.now value.now (pairs_of pairs.old.entries)) }
{
    let key = String::from_str(alloc, key)?;
    let value = String::from_str(alloc, value)?;
    drop(pairs.insert(key, value)?);
    Ok(())
}

// Inserts the pair of a table. A pair without a key or a value is ignored, and a later pair
// replaces an earlier one with the same key.
fn read_pair(alloc: Global, pair: &KeyValueRef<'_>, pairs: &mut Metadata) -> Result<(), PairsFault>
    ensures { GivesPairs (λ _. pairs_of pairs.new.entries) result
        (with_key_value pair.now (pairs_of pairs.old.entries)) }
{
    let key = pair.key()?;
    let value = pair.value()?;
    if let Some(key) = key {
        if let Some(value) = value {
            put(alloc, pairs, key, value)?;
        }
    }
    Ok(())
}

/// Returns the pairs of a vector of tables, in the order of their keys.
///
/// A pair without a key or a value is ignored, and a later pair replaces an earlier one with the
/// same key. Errors:
///
/// - `PairsFault::Table`: a table is malformed.
/// - `PairsFault::Memory`: an allocation failed.
pub fn read_pairs(alloc: Global, tables: &Tables<'_, KeyValueTable>) -> Result<Metadata, PairsFault>
    ensures { GivesPairs (λ pairs. pairs_of pairs.entries) result
        (pairs_from tables.now 0 tables.now.count []) }
{
    let mut pairs = BTreeMap::new(alloc);
    for i in 0..tables.len() {
        let pair = tables.get(i)?;
        read_pair(alloc, &pair, &mut pairs)?;
    }
    Ok(pairs)
}
