//! Makes the arrays of columns of structs.
ghost use Rattle.std.specs.Prelude.{◌≡◌, map, IfErr};
ghost use Rattle.ipc_devices.specs.Faults.{OnIo, OwnFault, Answers};
ghost use Rattle.lower.specs.TypeViews.{type_view};
ghost use Rattle.lower.specs.Physical.{physical};
ghost use Rattle.lower.specs.declared.datatypes.physical_type.PhysicalType.TheVariants.{Struct};
ghost use Rattle.lower_flat_arrays.specs.Validities.{ValidityFits};
ghost use Rattle.lower_arrays.specs.Layouts.{layouts};
ghost use Rattle.lower_arrays.specs.Children.{child_fields, ChildTypes, HasChild, AllHave};
ghost use Rattle.lower_arrays.specs.AnyLayouts.{layout_of};
ghost use Rattle.ipc_read_nested.specs.StructLevels.{records_layout};
ghost use Rattle.ipc_read_flat.specs.Refusals.{IsRuleFault};

use ipc_devices::fault::Fault;
use ipc_read_flat::read::read_basic::Head;
use lower::datatypes::DataType;
use lower::error::{Error, Rule};
use lower_arrays::array::{AnyArray, StructArray};

/// Makes the array of structs of some columns.
///
/// See "Struct Layout" in the Arrow columnar format.
///
/// # Errors
/// - `NoChild`: there is no column.
/// - `ChildLength`: a column doesn't have as many slots as the head has rows.
/// - `ChildCount`, `ChildType`: the columns don't have the number and the types of the fields.
/// - `Memory`.
#[tactic(auto, using(crate::proofs::Records::records))]
pub fn make_struct(own: &DataType, head: Head, columns: Vec<AnyArray>) -> Result<AnyArray, Fault>
    requires lies { physical (type_view own.now) ≡ Struct }
    requires fits { ValidityFits head.validity head.rows }
    ensures own { OnIo result ⊥ }
    ensures only { IfErr result (λ e. OwnFault e (IsRuleFault e)) }
    ensures exact { let u = type_view own.now in let cs = map layout_of columns.items in
        Answers result (HasChild (layouts cs) × ChildTypes (child_fields u) (layouts cs) × AllHave head.rows (layouts cs))
        (λ array. layout_of array ≡ records_layout u head.rows head.validity cs) }
{
    let len = match columns.first() {
        None => return Err(Fault::Lower(Error::OutOfSpec(Rule::NoChild))),
        Some(first) => first.len(),
    };
    if len != head.rows {
        return Err(Fault::Lower(Error::OutOfSpec(Rule::ChildLength)));
    }
    let own = own.clone()?;
    let array = StructArray::try_new(own, columns, head.validity)?;
    Ok(AnyArray::Struct(array))
}
