//! The rules of lists of one length (Arrow columnar format, "Fixed-Size List Layout").
ghost use Rattle.std.specs.Prelude.{MatchResult};
ghost use Rattle.lower.specs.TypeViews.{type_view};
ghost use Rattle.lower_validation.specs.Rules.{FixedListRules, BreaksFixedListRules};

use crate::fields::{child_fields, is_only_child, list_size};
use lower::bitmap::Bitmap;
use lower::datatypes::{DataType, PhysicalType};
use lower::error::{Error, Rule};
use lower_flat_arrays::validity::fits;

/// Checks lists of one length, with a child of type `child` and `len` slots.
///
/// Errors, each as `Error::OutOfSpec`:
///
/// - `Rule::PhysicalType`: `data_type` isn't one of lists of one length.
/// - `Rule::ZeroSize`: this length is 0.
/// - `Rule::ChildLength`: `len` isn't a multiple of it.
/// - `Rule::ChildType`: `child` isn't the type of the field in `data_type`.
/// - `Rule::ValidityLength`: `validity` has another number of bits than there are lists.
pub fn check_fixed_list(
    data_type: &DataType,
    child: &DataType,
    len: usize,
    validity: &Option<Bitmap>,
) -> Result<(), Error>
    ensures { MatchResult result
        (λ _. FixedListRules (type_view data_type.now) (type_view child.now) len validity.now)
        (BreaksFixedListRules (type_view data_type.now) (type_view child.now) len validity.now) }
{
    if data_type.to_physical_type() != PhysicalType::FixedSizeList {
        return Err(Error::OutOfSpec(Rule::PhysicalType));
    }
    let size = list_size(data_type);
    if size == 0 {
        return Err(Error::OutOfSpec(Rule::ZeroSize));
    }
    if len % size != 0 {
        return Err(Error::OutOfSpec(Rule::ChildLength));
    }
    if !is_only_child(child_fields(data_type), child) {
        return Err(Error::OutOfSpec(Rule::ChildType));
    }
    if !fits(validity, len / size) {
        return Err(Error::OutOfSpec(Rule::ValidityLength));
    }
    Ok(())
}
