//! Makes the arrays of columns of lists of a fixed size.
ghost use Rattle.std.specs.Prelude.{◌≡◌, [], ◌∷◌, ◌*◌, ◌<◌, IfErr};
ghost use Rattle.ipc_devices.specs.Faults.{OnIo, OwnFault, Answers};
ghost use Rattle.lower.specs.TypeViews.{type_view};
ghost use Rattle.lower.specs.Physical.{physical};
ghost use Rattle.lower.specs.declared.datatypes.physical_type.PhysicalType.TheVariants.{FixedSizeList};
ghost use Rattle.lower_flat_arrays.specs.Validities.{ValidityFits};
ghost use Rattle.lower_validation.specs.Fields.{child_fields, FieldTypes};
ghost use Rattle.lower_validation.specs.ListTypes.{list_size};
ghost use Rattle.lower_arrays.specs.Layouts.{len_of, type_of};
ghost use Rattle.lower_arrays.specs.AnyLayouts.{layout_of};
ghost use Rattle.ipc_read_nested.specs.FixedLevels.{sized_layout};
ghost use Rattle.ipc_read_flat.specs.Limits.{IsTimes};
ghost use Rattle.ipc_read_flat.specs.Refusals.{IsRuleFault};

use ipc_devices::fault::Fault;
use ipc_read_flat::read::read_basic::Head;
use lower::datatypes::DataType;
use lower::error::{Error, Rule};
use lower_arrays::array::{AnyArray, FixedSizeListArray};
use std::alloc::Global;

/// The limit of a child with `size` slots for each row; None if it overflows.
pub fn times_limit(limit: Option<usize>, size: usize) -> Option<usize>
    ensures { IsTimes limit size result }
{
    match limit {
        None => None,
        Some(most) => most.checked_mul(size),
    }
}

/// Makes the array of lists of `size` slots each.
///
/// See "Fixed-Size List Layout" in the Arrow columnar format.
///
/// # Errors
/// - `ChildLength`: the child doesn't have `size` slots for each row of the head.
/// - `ChildType`: the child doesn't have the type of the field.
/// - `Memory`.
#[tactic(auto, using(crate::proofs::FixedReads::fixed_rules))]
pub fn make_fixed_size_list(
    alloc: Global,
    own: &DataType,
    size: usize,
    head: Head,
    child: AnyArray,
) -> Result<AnyArray, Fault>
    requires lies { physical (type_view own.now) ≡ FixedSizeList }
    requires named { list_size (type_view own.now) ≡ size }
    requires some { 0 < size }
    requires fits { ValidityFits head.validity head.rows }
    ensures own { OnIo result ⊥ }
    ensures only { IfErr result (λ e. OwnFault e (IsRuleFault e)) }
    ensures exact { let u = type_view own.now in let c = layout_of child in
        Answers result (FieldTypes (child_fields u) (type_of c ∷ []) × (len_of c ≡ head.rows * size))
        (λ array. layout_of array ≡ sized_layout u head.rows size head.validity c) }
{
    let len = child.len();
    let Some(slots) = head.rows.checked_mul(size) else {
        return Err(Fault::Lower(Error::OutOfSpec(Rule::ChildLength)));
    };
    if len != slots {
        return Err(Fault::Lower(Error::OutOfSpec(Rule::ChildLength)));
    }
    let own = own.clone()?;
    let child = Box::new(alloc, child)?;
    let array = FixedSizeListArray::try_new(own, child, head.validity)?;
    Ok(AnyArray::FixedSizeList(array))
}
