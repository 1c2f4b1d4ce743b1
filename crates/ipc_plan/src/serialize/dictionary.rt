//! Plans the keys of dictionaries (Arrow columnar format, "Dictionary-encoded Layout").
ghost use Rattle.std.specs.Prelude.{◌≡◌, ◌+◌, ◌^◌, ◌<◌, ◌≤◌, length, map, OnOk};
ghost use Rattle.lower_types.specs.NumberTypes.{whole};
ghost use Rattle.lower_arrays.specs.Layouts.{numbers};
ghost use Rattle.ipc_plan.specs.Pieces.{slice_numbers, slice_type};
ghost use Rattle.lower_flat_arrays.specs.Validities.{part};
ghost use Rattle.lower_arrays.specs.Dictionaries.{dictionary_layout};
ghost use Rattle.lower_validation.specs.AnyKeys.{keys_seen};
ghost use Rattle.ipc_model.specs.TypeKinds.{key_form};
ghost use Rattle.ipc_model.specs.Offers.{written_levels};
ghost use Rattle.ipc_plan.specs.Taking.{TakesLevels};
ghost use Rattle.ipc_plan.specs.Plans.{Adds, IsSpelt};

use super::numbers::{plan_numbers, values_in};
use super::validity::plan_start;
use crate::pieces::NumberSlice;
use crate::plan::{Plan, PlanFault};
use lower_arrays::array::{DictionaryArray, DictionaryKeys};

// Plans the keys of a dictionary.
pub(crate) fn plan_dictionary<'a>(
    plan: &mut Plan<'a>,
    array: &'a DictionaryArray,
    offset: usize,
    len: usize,
) -> Result<(), PlanFault>
    requires small { plan.old.end < 2 ^ 63 }
    requires inside { offset + len ≤ length array.now.keys.integers }
    ensures grows { OnOk result (Adds plan.old plan.new (written_levels (dictionary_layout array.now) offset len)) }
    ensures takes { TakesLevels result (written_levels (dictionary_layout array.now) offset len) plan.old.end plan.new.end }
{
    plan_start(plan, array.validity(), offset, len)?;
    plan_numbers(plan, keys_in(array.keys(), offset, len))
}

// The keys of `len` slots from slot `offset`, as numbers.
#[tactic(auto, using(crate::proofs::Numbers::key_slices))]
fn keys_in<'a>(keys: &'a DictionaryKeys, offset: usize, len: usize) -> NumberSlice<'a>
    requires { offset + len ≤ length (keys_seen keys.now).integers }
    ensures form { slice_type result ≡ key_form (keys_seen keys.now).key }
    ensures numbers { slice_numbers result ≡ map (λ z. whole z) (part offset len (keys_seen keys.now).integers) }
    ensures len { length (slice_numbers result) ≡ len }
    ensures spelt { IsSpelt result }
{
    match keys {
        DictionaryKeys::Int8(array) => NumberSlice::Int8(values_in(array, offset, len)),
        DictionaryKeys::Int16(array) => NumberSlice::Int16(values_in(array, offset, len)),
        DictionaryKeys::Int32(array) => NumberSlice::Int32(values_in(array, offset, len)),
        DictionaryKeys::Int64(array) => NumberSlice::Int64(values_in(array, offset, len)),
        DictionaryKeys::UInt8(array) => NumberSlice::UInt8(values_in(array, offset, len)),
        DictionaryKeys::UInt16(array) => NumberSlice::UInt16(values_in(array, offset, len)),
        DictionaryKeys::UInt32(array) => NumberSlice::UInt32(values_in(array, offset, len)),
        DictionaryKeys::UInt64(array) => NumberSlice::UInt64(values_in(array, offset, len)),
    }
}
