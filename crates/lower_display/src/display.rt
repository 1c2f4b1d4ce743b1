//! Columns as texts.
ghost use Rattle.std.specs.Prelude.{◌≡◌, ◌<◌, ℕ, Some, SomeIff};
ghost use Rattle.std.specs.Option.{option_map};
ghost use Rattle.lower_arrays.specs.Layouts.{len_of, type_of};
ghost use Rattle.lower_arrays.specs.Slots.{slot_at};
ghost use Rattle.lower_arrays.specs.AnyLayouts.{layout_of};
ghost use Rattle.lower_display.specs.Shown.{column_text, column_len, shown_text};
ghost use Rattle.lower_display.specs.Texts.{slot_text};

use crate::column::{Kind, SlotDisplay, kind_of};
use crate::value::write_value;
use lower_arrays::array::AnyArray;
use std::fmt;

/// A column whose slots print by its type, which was examined once.
///
/// [`get_display`] makes it.
#[derive(Clone, Copy)]
pub struct ColumnDisplay<'a> {
    array: &'a AnyArray,
    null: &'a str,
    kind: Kind<'a>,
}

/// Returns the column as one whose slots print by its type, as arrow2's `get_display` does.
///
/// - A null is `null`.
/// - Integers are in decimal, booleans `true` or `false`, texts as they are, bytes in hexadecimal.
/// - Decimals have their point: `-1.50`.
/// - Dates are `2021-01-31`, times `12:34:56.789`, time stamps `2021-01-31T12:34:56.789`, with all
///   digits of their unit. Years before 0 have a sign.
/// - A time stamp with an offset is in local time: `2021-01-31T14:34:56+02:00`. Other zones are
///   in UTC: `..Z` for `UTC`, `..Z[Europe/Paris]` for a name.
/// - Spans have their unit: `90s`, `5ms`, `7us`, `1ns`; intervals `3m`, `1d500ms`, `3m1d0ns`.
/// - Lists are `[1, 2]`, structs `{a: 1, b: x}`, maps lists of structs; a union's slot is that of
///   its child, a dictionary's slot its value.
/// - A date or time stamp outside the years -9999 to 9999 is its number.
pub fn get_display<'a>(array: &'a AnyArray, null: &'a str) -> ColumnDisplay<'a>
    ensures len { column_len result ≡ len_of (layout_of array.now) }
    ensures text { (i : ℕ) → column_text result i ≡
        slot_text (type_of (layout_of array.now)) null.now (slot_at (layout_of array.now) i) }
{
    let kind = kind_of(array.data_type());
    ColumnDisplay { array, null, kind }
}

impl<'a> ColumnDisplay<'a> {
    /// Returns the slot at `index`, which prints, or `None` if `index` isn't below the length.
    #[tactic(auto, using(crate::proofs::Forms::shown))]
    pub fn slot(&self, index: usize) -> Option<SlotDisplay<'a>>
        ensures { SomeIff (option_map shown_text result)
            (index < column_len self.now)
            (Some (column_text self.now index)) }
    {
        match self.array.slot(index) {
            Some(value) => Some(SlotDisplay {
                value,
                null: self.null,
                kind: self.kind,
            }),
            None => None,
        }
    }
}

impl fmt::Display for SlotDisplay<'_> {
    ghost output = { shown_text };

    #[tactic(auto, using(crate::proofs::Forms::shown))]
    fn fmt<W: fmt::Write>(&self, f: &mut fmt::Formatter<W>) -> fmt::Result {
        write_value(self.value, self.kind, self.null, f)
    }
}
