//! Values of slots as text.
ghost use Rattle.std.specs.Prelude.{◌≡◌, ◌+◌, ◌<◌, ◌≤◌, length, get_or, map};
ghost use Rattle.std.specs.Fmt.{WritesOnOk};
ghost use Rattle.lower.specs.TypeViews.{type_view, fields_view};
ghost use Rattle.lower_arrays.specs.Layouts.{len_of, layouts, height, heights};
ghost use Rattle.lower_arrays.specs.Children.{AllReach};
ghost use Rattle.lower_arrays.specs.Slots.{record_slot, slots_of, slots_from, slot_at};
ghost use Rattle.lower_arrays.specs.AnyLayouts.{layout_of};
ghost use Rattle.lower_arrays.specs.Values.{scalar_number, record_slots, nested_slot, NestedFits, value_slot, ValueFits};
ghost use Rattle.lower_arrays.specs.declared.value.Nesting.TheVariants.{List as ListOf, Variant};
ghost use Rattle.lower_display.specs.Numbers.{number_text, form_text, form_scale};
ghost use Rattle.lower_display.specs.Texts.{truth_text, comma, slot_text, items_text, members_text};

use crate::children::{item_type, record_fields, variant_type};
use crate::column::{Kind, kind_of};
use crate::digits::write_hex;
use crate::form::{Form, write_integer};
use crate::wide::write_wide;
use lower::datatypes::{DataType, Field};
use lower_arrays::array::AnyArray;
use lower_arrays::value::{Nesting, Scalar, Value, value_at};
use std::fmt;

// Writes a value of a column of this kind.
#[cycle(values)]
pub fn write_value<W: fmt::Write>(
    value: Value<'_>,
    kind: Kind<'_>,
    null: &str,
    f: &mut fmt::Formatter<W>,
) -> fmt::Result
    requires { ValueFits value }
    ensures { WritesOnOk W.write_str_gives f.old result
        (slot_text (type_view kind.entry.data_type.now) null.now (value_slot value.entry)) f.new }
{
    match value {
        Value::Null => f.write_str(null),
        Value::Truth(truth) => f.write_str(truth_text(truth)),
        Value::Number(number) => write_number(number, kind.form, f),
        Value::Bytes(bytes) => write_hex(bytes, f),
        Value::Text(text) => f.write_str(text),
        Value::Nested(nesting, children, index) => {
            write_nested(nesting, children, index, kind.data_type, null, f)
        }
    }
}

fn truth_text(truth: bool) -> &'static str
    ensures { result.now ≡ truth_text truth }
{
    if truth { "true" } else { "false" }
}

fn write_number<W: fmt::Write>(
    number: Scalar,
    form: Form<'_>,
    f: &mut fmt::Formatter<W>,
) -> fmt::Result
    ensures { WritesOnOk W.write_str_gives f.old result
        (number_text (form_text form.entry) (form_scale form.entry) (scalar_number number)) f.new }
{
    match number {
        Scalar::Whole(number) => write_integer(form, number, f),
        Scalar::DayTime(span) => write!(f, "{}d{}ms", span.days, span.milliseconds),
        Scalar::MonthDayNano(span) => {
            write!(f, "{}m{}d{}ns", span.months, span.days, span.nanoseconds)
        }
        Scalar::Wide(number) => write_wide(number, scale_of(form), f),
    }
}

// How many digits are after the point.
fn scale_of(form: Form<'_>) -> usize
    ensures { result ≡ form_scale form.entry }
{
    match form {
        Form::Decimal(scale) => scale,
        _ => 0,
    }
}

// Writes a value of a nested type.
#[cycle(values)]
fn write_nested<W: fmt::Write>(
    nesting: Nesting,
    children: &[AnyArray],
    index: usize,
    data_type: &DataType,
    null: &str,
    f: &mut fmt::Formatter<W>,
) -> fmt::Result
    requires { NestedFits nesting children.now index }
    ensures { WritesOnOk W.write_str_gives f.old result
        (slot_text (type_view data_type.now) null.now
        (nested_slot nesting children.now index)) f.new }
{
    match nesting {
        Nesting::List(len) => write_list(children, index, len, data_type, null, f),
        Nesting::Record => write_record(children, index, data_type, null, f),
        Nesting::Variant(id) => write_variant(children, index, id, data_type, null, f),
    }
}

// Writes a list of slots of the first child.
#[cycle(values)]
fn write_list<W: fmt::Write>(
    children: &[AnyArray],
    index: usize,
    len: usize,
    data_type: &DataType,
    null: &str,
    f: &mut fmt::Formatter<W>,
) -> fmt::Result
    requires { NestedFits (ListOf len) children.now index }
    ensures { WritesOnOk W.write_str_gives f.old result
        (slot_text (type_view data_type.now) null.now
        (nested_slot (ListOf len) children.now index)) f.new }
{
    f.write_str("[")?;
    let child = child_with(children, 0, index, len);
    write_items(child, index, len, kind_of(item_type(data_type)), null, f)?;
    f.write_str("]")
}

// Writes a slot of each child, after its name.
#[cycle(values)]
fn write_record<W: fmt::Write>(
    children: &[AnyArray],
    index: usize,
    data_type: &DataType,
    null: &str,
    f: &mut fmt::Formatter<W>,
) -> fmt::Result
    requires { AllReach (index + 1) (layouts (map layout_of children.now)) }
    ensures { WritesOnOk W.write_str_gives f.old result
        (slot_text (type_view data_type.now) null.now
        (record_slot (slots_of (record_slots children.now index)))) f.new }
{
    f.write_str("{")?;
    write_members(record_fields(data_type), children, index, null, f)?;
    f.write_str("}")
}

// Writes a slot of the first child, by the type that the id names.
#[cycle(values)]
fn write_variant<W: fmt::Write>(
    children: &[AnyArray],
    index: usize,
    id: i8,
    data_type: &DataType,
    null: &str,
    f: &mut fmt::Formatter<W>,
) -> fmt::Result
    requires { NestedFits (Variant id) children.now index }
    ensures { WritesOnOk W.write_str_gives f.old result
        (slot_text (type_view data_type.now) null.now
        (nested_slot (Variant id) children.now index)) f.new }
{
    let child = child_with(children, 0, index, 1);
    write_slot(variant_type(data_type, id), child, index, null, f)
}

// A child, which has the `len` slots from `place`.
fn child_with(children: &[AnyArray], index: usize, place: usize, len: usize) -> &AnyArray
    requires inside { index < length children.now }
    requires within { AllReach (place + len) (layouts (map layout_of children.now)) }
    ensures item { result.now ≡ get_or children.now index result.now }
    ensures reach { place + len ≤ len_of (layout_of result.now) }
    ensures height { height (layout_of result.now)
        < heights (layouts (map layout_of children.now)) }
{
    &children[index]
}

// Writes a slot of an array, as one of this type.
#[cycle(values)]
fn write_slot<W: fmt::Write>(
    data_type: &DataType,
    array: &AnyArray,
    index: usize,
    null: &str,
    f: &mut fmt::Formatter<W>,
) -> fmt::Result
    requires { index < len_of (layout_of array.now) }
    ensures { WritesOnOk W.write_str_gives f.old result
        (slot_text (type_view data_type.now) null.now (slot_at (layout_of array.now) index)) f.new }
{
    write_value(value_at(array, index), kind_of(data_type), null, f)
}

// Writes the `len` slots of an array from `start`, with a text between them.
#[cycle(values)]
fn write_items<W: fmt::Write>(
    array: &AnyArray,
    start: usize,
    len: usize,
    kind: Kind<'_>,
    null: &str,
    f: &mut fmt::Formatter<W>,
) -> fmt::Result
    requires { start + len ≤ len_of (layout_of array.now) }
    ensures { WritesOnOk W.write_str_gives f.old result
        (items_text (type_view kind.entry.data_type.now) null.now 0
        (slots_of (slots_from (slot_at (layout_of array.now)) start len))) f.new }
{
    // for the proof alone: `start + index` doesn't overflow, as the array has so many slots
    let _slots = array.len();
    for index in 0..len {
        f.write_str(comma(index == 0))?;
        write_value(value_at(array, start + index), kind, null, f)?;
    }
    Ok(())
}

// Writes a slot of each child that has a field, after the field's name.
#[cycle(values)]
fn write_members<W: fmt::Write>(
    fields: &[Field],
    children: &[AnyArray],
    place: usize,
    null: &str,
    f: &mut fmt::Formatter<W>,
) -> fmt::Result
    requires { AllReach (place + 1) (layouts (map layout_of children.now)) }
    ensures { WritesOnOk W.write_str_gives f.old result
        (members_text (fields_view fields.now) null.now 0
        (slots_of (record_slots children.now place))) f.new }
{
    for index in 0..fields.len().min(children.len()) {
        let field = &fields[index];
        f.write_str(comma(index == 0))?;
        f.write_str(field.name.as_str())?;
        f.write_str(": ")?;
        write_slot(
            &field.data_type,
            child_with(children, index, place, 1),
            place,
            null,
            f,
        )?;
    }
    Ok(())
}

// The text between parts, none before the first.
fn comma(is_first: bool) -> &'static str
    ensures { result.now ≡ comma is_first }
{
    if is_first { "" } else { ", " }
}
