//! The requested columns of a schema, if not all, and their schema.
ghost use Rattle.std.specs.Prelude.{◌≡◌, length, IfErr, IfOk, IsSome};
ghost use Rattle.std.specs.Option.{option_copied};
ghost use Rattle.ipc_devices.specs.declared.fault.Fault.TheVariants.{Memory};
ghost use Rattle.ipc_model.specs.Batches.{IsProjection};
ghost use Rattle.ipc_projection.specs.ChosenColumns.{AreAsMany, AreOrdered, AreShuffled, AreThere, ShowsColumns, asked_by, items_of, rising_by, shown_by};

use crate::fault::Fault;
use crate::read::asked::AskedColumns;
use ipc_base::chunk::Chunk;
use lower::datatypes::Schema;
use lower::datatypes::clones::clone_metadata;
use lower_arrays::array::AnyArray;
use std::alloc::Global;

/// Requested columns of a schema, with the schema of what is returned.
///
/// A reader has `None` instead if all columns are requested.
#[derive(Drop)]
pub struct ChosenColumns {
    columns: AskedColumns,
    // their fields in the requested order, and the metadata of the whole schema
    schema: Schema,
}

/// Returns the columns of a projection to the columns of a schema.
///
/// It is `None` if there is no projection: all columns are read then, and nothing is allocated. The
/// columns must exist, without repeats, as [`is_projection`] tests. The only error is
/// `Fault::Memory`.
///
/// [`is_projection`]: crate::read::projection::is_projection
pub fn choose(
    alloc: Global,
    schema: &Schema,
    projection: Option<Vec<usize>>,
) -> Result<Option<ChosenColumns>, Fault>
    requires { IsProjection (items_of projection) (length schema.now.fields.items) }
    ensures asked { IfOk result (λ c. asked_by c ≡ items_of projection) }
    ensures there { IfOk result (λ c. AreThere c (length schema.now.fields.items)) }
    ensures shown { IfOk result (λ c.
        ShowsColumns (items_of projection) schema.now (shown_by schema.now c)) }
    ensures only { IfErr result (λ e. (e ≡ Memory) × IsSome projection) }
{
    let Some(projection) = projection else {
        return Ok(None);
    };
    let (columns, fields) = AskedColumns::new(alloc, &schema.fields, projection)?;
    let metadata = clone_metadata(&schema.metadata)?;
    Ok(Some(ChosenColumns {
        columns,
        schema: Schema { fields, metadata },
    }))
}

/// Returns the columns in ascending order, or `None` if a batch is read whole.
///
/// A batch is read in this order. It allocates nothing.
pub fn rising(chosen: &Option<ChosenColumns>) -> Option<&[usize]>
    ensures columns { option_copied result ≡ rising_by chosen.now }
    ensures same { AreShuffled chosen.now }
{
    match chosen {
        Some(chosen) => Some(chosen.columns.rising()),
        None => None,
    }
}

/// Returns a chunk with its columns in the requested order, instead of ascending order.
///
/// No column is copied. The only error is `Fault::Memory`; the chunk is dropped then.
pub fn in_order(
    alloc: Global,
    chosen: &Option<ChosenColumns>,
    read: Chunk<AnyArray>,
) -> Result<Chunk<AnyArray>, Fault>
    requires { AreAsMany chosen.now (length read) }
    ensures ordered { IfOk result (λ given. AreOrdered chosen.now read given) }
    ensures only { IfErr result (λ e. e ≡ Memory) }
{
    match chosen {
        Some(chosen) => chosen.columns.in_order(alloc, read),
        None => Ok(read),
    }
}

/// Returns the schema of the requested columns, or the whole one.
pub fn shown<'a>(chosen: &'a Option<ChosenColumns>, whole: &'a Schema) -> &'a Schema
    ensures { result.now ≡ shown_by whole.now chosen.now }
{
    match chosen {
        Some(chosen) => &chosen.schema,
        None => whole,
    }
}
