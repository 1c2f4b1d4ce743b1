//! Types of columns, and slots that print.
ghost use Rattle.std.specs.Prelude.{◌≡◌, ℤ, IsTrue};
ghost use Rattle.lower.specs.TypeViews.{type_view};
ghost use Rattle.lower_arrays.specs.Sameness.{value_fits};
ghost use Rattle.lower_display.specs.Numbers.{integer_shown, type_scale, form_text, form_scale};

use crate::form::{Form, form_of};
use lower::datatypes::DataType;
use lower_arrays::value::Value;

/// A type, and how the numbers of its columns print.
#[derive(Debug, Clone, Copy)]
pub struct Kind<'a> {
    pub(crate) data_type: &'a DataType,
    pub(crate) form: Form<'a>,
    pub(crate) ghost is_form: { (z : ℤ) → form_text form z ≡ integer_shown (type_view data_type.now) z },
    pub(crate) ghost is_scale: { form_scale form ≡ type_scale (type_view data_type.now) },
}

/// A slot that prints by the type of its column.
#[derive(Debug, Clone, Copy)]
pub struct SlotDisplay<'a> {
    pub(crate) value: Value<'a>,
    pub(crate) null: &'a str,
    pub(crate) kind: Kind<'a>,
    pub(crate) ghost fits: { IsTrue (value_fits value) },
}

// A type with the form of its numbers.
pub fn kind_of(data_type: &DataType) -> Kind<'_>
    ensures { type_view result.data_type.now ≡ type_view data_type.now }
{
    let form = form_of(data_type);
    Kind { data_type, form }
}
