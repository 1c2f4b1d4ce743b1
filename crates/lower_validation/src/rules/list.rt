//! The rules of lists (Arrow columnar format, "Variable-size List Layout").
ghost use Rattle.std.specs.Prelude.{MatchResult};
ghost use Rattle.lower.specs.TypeViews.{type_view};
ghost use Rattle.lower_validation.specs.AnyOffsets.{list_places, list_width};
ghost use Rattle.lower_validation.specs.Rules.{ListRules, BreaksListRules};

use crate::fields::{child_fields, is_only_child};
use crate::offsets::ListOffsets;
use lower::bitmap::Bitmap;
use lower::datatypes::DataType;
use lower::error::{Error, Rule};
use lower_flat_arrays::validity::fits;

/// Checks lists with these offsets, and a child of type `child` and `len` slots.
///
/// Errors, each as `Error::OutOfSpec`:
///
/// - `Rule::ValidityLength`: `validity` has another number of bits than there are lists.
/// - `Rule::OffsetsPastValues`: the last offset is greater than `len`.
/// - `Rule::PhysicalType`: `data_type` isn't one of lists with such offsets.
/// - `Rule::ChildType`: `child` isn't the type of the field in `data_type`.
pub fn check_list(
    data_type: &DataType,
    offsets: &ListOffsets,
    child: &DataType,
    len: usize,
    validity: &Option<Bitmap>,
) -> Result<(), Error>
    ensures { MatchResult result
        (λ _. ListRules (type_view data_type.now) (list_width offsets.now) (list_places offsets.now) (type_view child.now) len validity.now)
        (BreaksListRules (type_view data_type.now) (list_width offsets.now) (list_places offsets.now) (type_view child.now) len validity.now) }
{
    if !fits(validity, offsets.len() - 1) {
        return Err(Error::OutOfSpec(Rule::ValidityLength));
    }
    if offsets.last() > len {
        return Err(Error::OutOfSpec(Rule::OffsetsPastValues));
    }
    if data_type.to_physical_type() != offsets.physical_type() {
        return Err(Error::OutOfSpec(Rule::PhysicalType));
    }
    if !is_only_child(child_fields(data_type), child) {
        return Err(Error::OutOfSpec(Rule::ChildType));
    }
    Ok(())
}
