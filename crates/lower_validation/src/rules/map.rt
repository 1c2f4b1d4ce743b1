//! The rules of maps (Arrow columnar format, "Map Layout").
ghost use Rattle.std.specs.Prelude.{MatchResult};
ghost use Rattle.lower.specs.TypeViews.{type_view};
ghost use Rattle.lower_validation.specs.Rules.{MapRules, BreaksMapRules};

use crate::fields::{child_fields, is_only_child, is_pair};
use lower::bitmap::Bitmap;
use lower::datatypes::{DataType, PhysicalType};
use lower::error::{Error, Rule};
use lower::offset::OffsetsBuffer;
use lower_flat_arrays::validity::fits;

/// Checks maps with these offsets, and `len` pairs of type `pairs`.
///
/// Errors, each as `Error::OutOfSpec`:
///
/// - `Rule::ValidityLength`: `validity` has another number of bits than there are maps.
/// - `Rule::OffsetsPastValues`: the last offset is greater than `len`.
/// - `Rule::PhysicalType`: `data_type` isn't one of maps.
/// - `Rule::MapChild`: `pairs` isn't a struct of two fields.
/// - `Rule::ChildType`: `pairs` isn't the type of the field in `data_type`.
pub fn check_map(
    data_type: &DataType,
    offsets: &OffsetsBuffer<i32>,
    pairs: &DataType,
    len: usize,
    validity: &Option<Bitmap>,
) -> Result<(), Error>
    ensures { MatchResult result
        (λ _. MapRules (type_view data_type.now) offsets.now (type_view pairs.now) len validity.now)
        (BreaksMapRules (type_view data_type.now) offsets.now (type_view pairs.now) len validity.now) }
{
    if !fits(validity, offsets.len() - 1) {
        return Err(Error::OutOfSpec(Rule::ValidityLength));
    }
    if offsets.last() > len {
        return Err(Error::OutOfSpec(Rule::OffsetsPastValues));
    }
    if data_type.to_physical_type() != PhysicalType::Map {
        return Err(Error::OutOfSpec(Rule::PhysicalType));
    }
    if !is_pair(pairs) {
        return Err(Error::OutOfSpec(Rule::MapChild));
    }
    if !is_only_child(child_fields(data_type), pairs) {
        return Err(Error::OutOfSpec(Rule::ChildType));
    }
    Ok(())
}
