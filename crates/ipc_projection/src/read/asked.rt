//! Requested columns, prepared once for any number of batches.
ghost use Rattle.std.specs.Prelude.{◌≡◌, length, map, Some, IfOk, IfErr};
ghost use Rattle.std.specs.List.Sorted.{IsPermutation};
ghost use Rattle.ipc_devices.specs.declared.fault.Fault.TheVariants.{Memory};
ghost use Rattle.lower.specs.TypeViews.{field_view};
ghost use Rattle.ipc_model.specs.Batches.{IsProjection};
ghost use Rattle.ipc_projection.specs.AskedOrder.{AskedBatchLaw, AskedRecordLaw, IsInAskedOrder, KeepsPlaces};
ghost use Rattle.ipc_projection.specs.Preparing.{selected};
ghost use Rattle.ipc_projection.specs.Projections.{IsIncreasing};

use crate::fault::Fault;
use crate::read::prepare::prepare_projection;
use crate::read::projection::apply_projection;
use ipc_base::chunk::Chunk;
use lower::datatypes::Field;
use lower_arrays::array::AnyArray;
use std::alloc::Global;
use std::collections::HashMap;
use std::marker::Model;
use std::snapshot::Snapshot;

/// A theorem: columns in ascending and in requested order select the same data.
///
/// The content of a batch by one is that by the other, apart from the order, and exists by both or
/// by neither.
pub fn asked_batches()
    ensures batches { AskedBatchLaw }
    ensures records { AskedRecordLaw }
{}

/// The requested columns, in any order and without repeats.
///
/// Its model is their indices, as requested and in ascending order. Batches are read in the latter.
#[derive(Drop)]
pub struct AskedColumns {
    rising: Vec<usize>,
    // the index in the request of each of these
    places: HashMap<usize, usize>,
    // The columns as requested, for proofs alone: it takes no bytes.
    columns: Snapshot<Vec<usize>>,
}

impl Model for AskedColumns {
    ghost use Rattle.ipc_projection.specs.AskedOrder.{Asked, KeepsPlaces};

    ghost Value = { Asked };

    ghost view = { λ a. record { columns = a.columns.value.items; rising = a.rising.items } };

    ghost invariant = { λ a. KeepsPlaces (record { columns = a.columns.value.items; rising = a.rising.items }) a.places };
}

impl AskedColumns {
    /// Prepares a projection, and returns its columns with their fields in its order.
    ///
    /// The columns must exist, without repeats, as [`is_projection`] tests. The only error is
    /// `Fault::Memory`.
    ///
    /// [`is_projection`]: crate::read::projection::is_projection
    pub fn new(
        alloc: Global,
        fields: &[Field],
        projection: Vec<usize>,
    ) -> Result<(AskedColumns, Vec<Field>), Fault>
        requires { IsProjection (Some projection.items) (length fields.now) }
        ensures columns { IfOk result (λ r. r.0.columns ≡ projection.items) }
        ensures fields { IfOk result (λ r. map field_view r.1.items
            ≡ selected (map field_view fields.now) projection.items) }
        ensures only { IfErr result (λ fault. fault ≡ Memory) }
    {
        let columns = Snapshot::of(&projection);
        let (rising, places, fields) = prepare_projection(alloc, fields, projection)?;
        Ok((
            AskedColumns {
                rising,
                places,
                columns,
            },
            fields,
        ))
    }

    /// Returns the columns in ascending order. It allocates nothing.
    pub fn rising(&self) -> &[usize]
        ensures value { result.now ≡ self.now.rising }
        ensures same { IsPermutation self.now.columns self.now.rising }
        ensures increasing { IsIncreasing self.now.rising }
    {
        self.rising.as_slice()
    }

    /// Returns the chunk with its columns in the requested order, instead of ascending order.
    ///
    /// No column is copied. The only error is `Fault::Memory`; the chunk is dropped then.
    pub fn in_order(&self, alloc: Global, chunk: Chunk<AnyArray>) -> Result<Chunk<AnyArray>, Fault>
        requires { length chunk ≡ length self.now.rising }
        ensures order { IfOk result (λ given. IsInAskedOrder self.now chunk given) }
        ensures only { IfErr result (λ fault. fault ≡ Memory) }
    {
        apply_projection(alloc, chunk, &self.places)
    }
}
