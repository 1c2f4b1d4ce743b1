//! The rules of dictionaries (Arrow columnar format, "Dictionary-encoded Layout").
ghost use Rattle.std.specs.Prelude.{◌≡◌, ◌↔◌, IsTrue, MatchResult};
ghost use Rattle.lower.specs.TypeViews.{type_view};
ghost use Rattle.lower.specs.Normal.{norm};
ghost use Rattle.lower_validation.specs.Keys.{values_type};
ghost use Rattle.lower_validation.specs.AnyKeys.{keys_seen};
ghost use Rattle.lower_validation.specs.Rules.{DictionaryRules, BreaksDictionaryRules};

use crate::keys::DictionaryKeys;
use lower::datatypes::{DataType, PhysicalType, is_same_normal_type, is_same_type};
use lower::error::{Error, Rule};

// Whether the type is a dictionary of values of this type, both in their normal form.
fn is_dictionary_of(data_type: &DataType, values: &DataType) -> bool
    ensures { IsTrue result ↔ norm (type_view values.now) ≡ norm (values_type (type_view data_type.now)) }
{
    match data_type.to_logical_type() {
        DataType::Dictionary(_, inner, _) => is_same_normal_type(values, inner),
        _ => is_same_normal_type(values, &DataType::Null),
    }
}

/// Checks a dictionary with this type, these keys, and `len` values of type `values`.
///
/// Errors, each as `Error::OutOfSpec`:
///
/// - `Rule::PhysicalType`: `data_type` isn't a dictionary with keys of this integer type, or the
///   array of keys has another data type than its integers.
/// - `Rule::DictionaryValues`: `values` differs from the type of values that `data_type` names,
///   both in their normal form.
/// - `Rule::DictionaryKey`: a key that isn't null is negative, or not below `len`.
pub fn check_dictionary(
    data_type: &DataType,
    keys: &DictionaryKeys,
    values: &DataType,
    len: usize,
) -> Result<(), Error>
    ensures { MatchResult result
        (λ _. DictionaryRules (type_view data_type.now) (keys_seen keys.now) (type_view values.now) len)
        (BreaksDictionaryRules (type_view data_type.now) (keys_seen keys.now) (type_view values.now) len) }
{
    let key = keys.key_type();
    if data_type.to_physical_type() != PhysicalType::Dictionary(key) {
        return Err(Error::OutOfSpec(Rule::PhysicalType));
    }
    if !is_same_type(keys.data_type(), &DataType::from(key)) {
        return Err(Error::OutOfSpec(Rule::PhysicalType));
    }
    if !is_dictionary_of(data_type, values) {
        return Err(Error::OutOfSpec(Rule::DictionaryValues));
    }
    if !keys.fit(len) {
        return Err(Error::OutOfSpec(Rule::DictionaryKey));
    }
    let _ = keys.len();
    Ok(())
}
