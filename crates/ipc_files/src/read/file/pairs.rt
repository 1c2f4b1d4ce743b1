//! Reads a file's own pairs of texts: `custom_metadata` of `File.fbs`.
ghost use Rattle.std.specs.Prelude.{◌≡◌, []};
ghost use Rattle.lower.specs.TypeViews.{pairs_of};
ghost use Rattle.ipc_table_views.specs.FileSlots.{footer_custom_metadata};
ghost use Rattle.ipc_model.specs.Schemas.{made, given, pairs_from, pairs_at};
ghost use Rattle.ipc_files.specs.Footers.{GivesPairs, in_footer};

use ipc_devices::fault::{Fault, OutOfSpecKind, TableFault};
use ipc_schema::read::pairs::{PairsFault, read_pairs};
use ipc_table_views::{FooterRef, KeyValueTable, Tables};
use lower::datatypes::Metadata;
use std::alloc::Global;
use std::collections::BTreeMap;

// The value of a slot whose only error is `InvalidFlatbufferFooter`.
pub(super) fn in_footer<T>(slot: Result<T, TableFault>) -> Result<T, Fault>
    ensures { result ≡ in_footer slot }
{
    match slot {
        Ok(value) => Ok(value),
        Err(fault) => Err(Fault::OutOfSpec(OutOfSpecKind::InvalidFlatbufferFooter(fault))),
    }
}

// The pairs of a vector of tables. A malformed pair is `InvalidFlatbufferFooter`.
fn pairs_in_footer(alloc: Global, tables: &Tables<'_, KeyValueTable>) -> Result<Metadata, Fault>
    ensures { GivesPairs (λ pairs. pairs_of pairs.entries) result
        (pairs_from tables.now 0 tables.now.count []) }
{
    match read_pairs(alloc, tables) {
        Ok(pairs) => Ok(pairs),
        Err(PairsFault::Table(fault)) => {
            Err(Fault::OutOfSpec(OutOfSpecKind::InvalidFlatbufferFooter(fault)))
        }
        Err(PairsFault::Memory) => Err(Fault::Memory),
    }
}

/// The pairs of a footer; none if it has no vector of them.
#[tactic(auto, unfolding(ipc_model::specs::Schemas::pairs_at))]
pub(super) fn read_custom_metadata(alloc: Global, footer: &FooterRef<'_>) -> Result<Metadata, Fault>
    ensures { GivesPairs (λ pairs. pairs_of pairs.entries) result
        (given (made (footer_custom_metadata footer.now)) pairs_at) }
{
    match in_footer(footer.custom_metadata())? {
        Some(tables) => pairs_in_footer(alloc, &tables),
        None => Ok(BTreeMap::new(alloc)),
    }
}
