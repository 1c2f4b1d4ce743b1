//! The rules of structs (Arrow columnar format, "Struct Layout").
ghost use Rattle.std.specs.Prelude.{◌≡◌, map, get_or, IfOk, MatchResult};
ghost use Rattle.std.specs.List.{All};
ghost use Rattle.lower.specs.TypeViews.{type_view};
ghost use Rattle.lower_validation.specs.Rules.{StructRules, BreaksStructRules};

use crate::children::{Child, have_len, have_types};
use crate::fields::{are_so_many, child_fields};
use lower::bitmap::Bitmap;
use lower::datatypes::{DataType, PhysicalType};
use lower::error::{Error, Rule};
use lower_flat_arrays::validity::fits;

/// Checks a struct with these children, and returns its number of slots.
///
/// Errors, each as `Error::OutOfSpec`:
///
/// - `Rule::NoChild`: there is no child.
/// - `Rule::PhysicalType`: `data_type` isn't a struct.
/// - `Rule::ChildCount`: there are not as many children as fields.
/// - `Rule::ValidityLength`: `validity` has another number of bits than there are slots.
/// - `Rule::ChildType`: a child has another type than its field.
/// - `Rule::ChildLength`: a child has another length than the first one.
pub fn check_struct<C: Child>(
    data_type: &DataType,
    children: &[C],
    validity: &Option<Bitmap>,
) -> Result<usize, Error>
    ensures rules { MatchResult result
        (λ _. StructRules (type_view data_type.now) (map C.child_type children.now) (map C.child_len children.now) validity.now)
        (BreaksStructRules (type_view data_type.now) (map C.child_type children.now) (map C.child_len children.now) validity.now) }
    ensures len { IfOk result (λ len. len ≡ get_or (map C.child_len children.now) 0 0) }
    ensures valid { IfOk result (λ _. All C.is_child children.now) }
{
    let len = match children.first() {
        None => return Err(Error::OutOfSpec(Rule::NoChild)),
        Some(first) => first.len(),
    };
    if data_type.to_physical_type() != PhysicalType::Struct {
        return Err(Error::OutOfSpec(Rule::PhysicalType));
    }
    if !are_so_many(child_fields(data_type), children.len()) {
        return Err(Error::OutOfSpec(Rule::ChildCount));
    }
    if !fits(validity, len) {
        return Err(Error::OutOfSpec(Rule::ValidityLength));
    }
    if !have_types(child_fields(data_type), children) {
        return Err(Error::OutOfSpec(Rule::ChildType));
    }
    if !have_len(children, len) {
        return Err(Error::OutOfSpec(Rule::ChildLength));
    }
    Ok(len)
}
