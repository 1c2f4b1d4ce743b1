//! Equality of arrays.
ghost use Rattle.std.specs.Prelude.{◌≡◌, ◌↔◌, ◌+◌, ◌<◌, ◌≤◌, IsTrue, map};
ghost use Rattle.std.specs.List.{All};
ghost use Rattle.std.specs.Ordering.{on};
ghost use Rattle.lower.specs.TypeViews.{type_view};
ghost use Rattle.lower_flat_arrays.specs.Columns.{IsSame, same_column};
ghost use Rattle.lower_flat_arrays.specs.ColumnLaws.{columns_equiv, columns_per};
ghost use Rattle.lower_arrays.specs.Layouts.{layouts, len_of, type_of};
ghost use Rattle.lower_arrays.specs.Children.{AllReach};
ghost use Rattle.lower_arrays.specs.Slots.{null_slot, truth_slot, number_slot, bytes_slot, text_slot, slot_at, column_of};
ghost use Rattle.lower_arrays.specs.Lists.{list_layout};
ghost use Rattle.lower_arrays.specs.FixedLists.{fixed_list_layout};
ghost use Rattle.lower_arrays.specs.Structs.{struct_layout};
ghost use Rattle.lower_arrays.specs.Unions.{union_layout};
ghost use Rattle.lower_arrays.specs.Maps.{map_layout};
ghost use Rattle.lower_arrays.specs.Dictionaries.{dictionary_layout};
ghost use Rattle.lower_arrays.specs.AnyLayouts.{layout_of};
ghost use Rattle.lower_arrays.specs.Values.{scalar_number, record_slots, nested_slot, NestedFits, value_slot, ValueFits};
ghost use Rattle.lower_arrays.specs.declared.value.Nesting.TheVariants.{List as ListOf, Variant};
ghost use Rattle.lower_arrays.specs.Sameness.{SameRange, IsSameValue, same_value, values_per};

use crate::array::{
    AnyArray, DictionaryArray, FixedSizeListArray, ListArray, MapArray, StructArray, UnionArray,
};
use crate::value::{
    Nesting, Scalar, Value, dictionary_value, fixed_list_value, is_same_number, list_value,
    map_value, record_value, union_value, value_at,
};
use lower::datatypes::DataType;
use lower_flat_arrays::equality::{ToColumn, is_same_column};
use lower_flat_arrays::ranges::is_range;

/// Returns whether both have the same data type and slots, as `==` does.
///
/// Their layouts in memory may differ.
pub fn equal(lhs: &AnyArray, rhs: &AnyArray) -> bool
    ensures { IsTrue result ↔ IsSame (column_of (layout_of lhs.now)) (column_of (layout_of rhs.now)) }
{
    *lhs == *rhs
}

/// Returns whether slot `i` of one is slot `j` of the other.
///
/// The data types don't count.
#[cycle(sameness)]
pub fn has_same_slot(lhs: &AnyArray, i: usize, rhs: &AnyArray, j: usize) -> bool
    requires lhs_within { i < len_of (layout_of lhs.now) }
    requires rhs_within { j < len_of (layout_of rhs.now) }
    ensures { IsTrue result ↔ (slot_at (layout_of lhs.now) i ≡ slot_at (layout_of rhs.now) j) }
{
    is_same_value(value_at(lhs, i), value_at(rhs, j))
}

/// Returns whether two ranges of `len` slots are the same, from slots `i` and `j`.
#[cycle(sameness)]
pub fn has_same_range(lhs: &AnyArray, i: usize, rhs: &AnyArray, j: usize, len: usize) -> bool
    requires lhs_within { i + len ≤ len_of (layout_of lhs.now) }
    requires rhs_within { j + len ≤ len_of (layout_of rhs.now) }
    ensures { IsTrue result ↔ SameRange (layout_of lhs.now) i (layout_of rhs.now) j len }
{
    let _lens = (lhs.len(), rhs.len());
    for k in 0..len {
        if !has_same_slot(lhs, i + k, rhs, j + k) {
            return false;
        }
    }
    true
}

// Whether both are the same slot.
#[cycle(sameness)]
fn is_same_value(lhs: Value<'_>, rhs: Value<'_>) -> bool
    requires lhs_fits { ValueFits lhs }
    requires rhs_fits { ValueFits rhs }
    ensures { IsTrue result ↔ (value_slot lhs.entry ≡ value_slot rhs.entry) }
{
    match lhs {
        Value::Null => is_null(rhs),
        Value::Truth(bit) => is_truth(rhs, bit),
        Value::Number(number) => is_number(rhs, number),
        Value::Bytes(bytes) => are_bytes(rhs, bytes),
        Value::Text(text) => is_text(rhs, text),
        Value::Nested(nesting, children, index) => is_nested(rhs, nesting, children, index),
    }
}

fn is_null(value: Value<'_>) -> bool
    ensures { IsTrue result ↔ (null_slot ≡ value_slot value.entry) }
{
    match value {
        Value::Null => true,
        _ => false,
    }
}

fn is_truth(value: Value<'_>, bit: bool) -> bool
    ensures { IsTrue result ↔ (truth_slot bit ≡ value_slot value.entry) }
{
    match value {
        Value::Truth(other) => bit == other,
        _ => false,
    }
}

fn is_number(value: Value<'_>, number: Scalar) -> bool
    ensures { IsTrue result ↔ (number_slot (scalar_number number) ≡ value_slot value.entry) }
{
    match value {
        Value::Number(other) => is_same_number(number, other),
        _ => false,
    }
}

fn are_bytes(value: Value<'_>, bytes: &[u8]) -> bool
    ensures { IsTrue result ↔ (bytes_slot bytes.now ≡ value_slot value.entry) }
{
    match value {
        Value::Bytes(other) => *bytes == *other,
        _ => false,
    }
}

fn is_text(value: Value<'_>, text: &str) -> bool
    ensures { IsTrue result ↔ (text_slot text.now ≡ value_slot value.entry) }
{
    match value {
        Value::Text(other) => text == other,
        _ => false,
    }
}

// Whether the value is the same nested slot.
#[cycle(sameness)]
fn is_nested(value: Value<'_>, nesting: Nesting, children: &[AnyArray], index: usize) -> bool
    requires fits { ValueFits value }
    requires within { NestedFits nesting children.now index }
    ensures { IsTrue result ↔ (nested_slot nesting children.now index ≡ value_slot value.entry) }
{
    match value {
        Value::Nested(other, others, place) => {
            are_same_nested(nesting, children, index, other, others, place)
        }
        _ => false,
    }
}

// Whether two nested slots are the same.
#[cycle(sameness)]
fn are_same_nested(
    lhs: Nesting,
    children: &[AnyArray],
    i: usize,
    rhs: Nesting,
    others: &[AnyArray],
    j: usize,
) -> bool
    requires lhs_within { NestedFits lhs children.now i }
    requires rhs_within { NestedFits rhs others.now j }
    ensures { IsTrue result ↔ (nested_slot lhs children.now i ≡ nested_slot rhs others.now j) }
{
    match (lhs, rhs) {
        (Nesting::List(len), Nesting::List(count)) => {
            are_same_lists(children, i, len, others, j, count)
        }
        (Nesting::Record, Nesting::Record) => have_same_slots(children, i, others, j),
        (Nesting::Variant(id), Nesting::Variant(other)) => {
            are_same_variants(id, children, i, other, others, j)
        }
        _ => false,
    }
}

// Whether two lists are the same: both have as many slots, and these are the same.
#[cycle(sameness)]
fn are_same_lists(
    children: &[AnyArray],
    i: usize,
    len: usize,
    others: &[AnyArray],
    j: usize,
    count: usize,
) -> bool
    requires lhs_within { NestedFits (ListOf len) children.now i }
    requires rhs_within { NestedFits (ListOf count) others.now j }
    ensures { IsTrue result ↔ (nested_slot (ListOf len) children.now i ≡ nested_slot (ListOf count) others.now j) }
{
    if len != count {
        return false;
    }
    has_same_range(&children[0], i, &others[0], j, len)
}

// Whether two slots of unions are the same: both have the same type id and the same child slot.
#[cycle(sameness)]
fn are_same_variants(
    id: i8,
    children: &[AnyArray],
    i: usize,
    other: i8,
    others: &[AnyArray],
    j: usize,
) -> bool
    requires lhs_within { NestedFits (Variant id) children.now i }
    requires rhs_within { NestedFits (Variant other) others.now j }
    ensures { IsTrue result ↔ (nested_slot (Variant id) children.now i ≡ nested_slot (Variant other) others.now j) }
{
    if id != other {
        return false;
    }
    has_same_slot(&children[0], i, &others[0], j)
}

// Whether two structs are the same: both have as many children, with the same slots.
#[cycle(sameness)]
fn have_same_slots(lhs: &[AnyArray], i: usize, rhs: &[AnyArray], j: usize) -> bool
    requires lhs_within { AllReach (i + 1) (layouts (map layout_of lhs.now)) }
    requires rhs_within { AllReach (j + 1) (layouts (map layout_of rhs.now)) }
    ensures { IsTrue result ↔ (record_slots lhs.now i ≡ record_slots rhs.now j) }
{
    if lhs.len() != rhs.len() {
        return false;
    }
    for k in 0..lhs.len() {
        if !has_same_slot(&lhs[k], i, &rhs[k], j) {
            return false;
        }
    }
    true
}

impl Value<'_> {
    /// Returns whether the slots of the value are all within its arrays, as those of arrays are.
    pub fn is_within(&self) -> bool
        ensures { IsTrue result ↔ ValueFits self.now }
    {
        match *self {
            Value::Nested(nesting, children, index) => is_nested_within(nesting, children, index),
            _ => true,
        }
    }
}

// Whether both are within their arrays and the same slot.
fn are_one_slot(lhs: &Value<'_>, rhs: &Value<'_>) -> bool
    ensures { IsTrue result ↔ IsSameValue lhs.now rhs.now }
{
    lhs.is_within() && rhs.is_within() && is_same_value(*lhs, *rhs)
}

fn is_nested_within(nesting: Nesting, children: &[AnyArray], index: usize) -> bool
    ensures { IsTrue result ↔ NestedFits nesting children.now index }
{
    match nesting {
        Nesting::Record => all_reach(children, index, 1),
        Nesting::List(len) => !children.is_empty() && all_reach(children, index, len),
        Nesting::Variant(_) => !children.is_empty() && all_reach(children, index, 1),
    }
}

// Whether each child has the `len` slots from `index`.
fn all_reach(children: &[AnyArray], index: usize, len: usize) -> bool
    ensures { IsTrue result ↔ AllReach (index + len) (layouts (map layout_of children.now)) }
{
    each_reaches(children, index, len)
}

// The same, child by child.
fn each_reaches(children: &[AnyArray], index: usize, len: usize) -> bool
    ensures { IsTrue result
        ↔ All (λ child. index + len ≤ len_of (layout_of child)) children.now }
{
    children
        .iter()
        .all(|child| is_range(index, len, child.len()))
}

/// It is no equivalence: a nested value whose slots aren't all within its arrays equals none.
impl PartialEq for Value<'_> {
    ghost eq = { same_value };

    ghost laws = { values_per };

    fn eq(&self, other: &Self) -> bool {
        are_one_slot(self, other)
    }
}

// Compares slot by slot, for any two arrays.
impl ToColumn for AnyArray {
    ghost tree = { λ a. type_of (layout_of a) };

    ghost count = { λ a. len_of (layout_of a) };

    ghost slot = { λ a. slot_at (layout_of a) };

    fn column_type(&self) -> &DataType {
        self.data_type()
    }

    fn count(&self) -> usize {
        self.len()
    }

    fn has_same_slot(&self, other: &AnyArray, index: usize) -> bool {
        has_same_slot(self, index, other, index)
    }
}

impl PartialEq for AnyArray {
    ghost eq = { on (λ a. column_of (layout_of a)) same_column };

    ghost laws = { columns_per (λ a. column_of (layout_of a)) };

    /// Returns whether both have the same data type and the same slots.
    ///
    /// Their layouts in memory may differ.
    fn eq(&self, other: &Self) -> bool {
        match (self, other) {
            (AnyArray::Null(lhs), AnyArray::Null(rhs)) => lhs == rhs,
            (AnyArray::Boolean(lhs), AnyArray::Boolean(rhs)) => lhs == rhs,
            (AnyArray::Primitive(lhs), AnyArray::Primitive(rhs)) => lhs == rhs,
            (AnyArray::FixedSizeBinary(lhs), AnyArray::FixedSizeBinary(rhs)) => lhs == rhs,
            (AnyArray::Binary(lhs), AnyArray::Binary(rhs)) => lhs == rhs,
            (AnyArray::LargeBinary(lhs), AnyArray::LargeBinary(rhs)) => lhs == rhs,
            (AnyArray::Utf8(lhs), AnyArray::Utf8(rhs)) => lhs == rhs,
            (AnyArray::LargeUtf8(lhs), AnyArray::LargeUtf8(rhs)) => lhs == rhs,
            _ => is_same_column(self, other),
        }
    }
}

impl Eq for AnyArray {
    ghost laws = { columns_equiv (λ a. column_of (layout_of a)) };
}

impl ToColumn for ListArray {
    ghost tree = { λ a. type_of (list_layout a) };

    ghost count = { λ a. len_of (list_layout a) };

    ghost slot = { λ a. slot_at (list_layout a) };

    fn column_type(&self) -> &DataType {
        self.data_type()
    }

    fn count(&self) -> usize {
        self.len()
    }

    fn has_same_slot(&self, other: &ListArray, index: usize) -> bool {
        is_same_value(list_value(self, index), list_value(other, index))
    }
}

impl PartialEq for ListArray {
    ghost eq = { on (λ a. column_of (list_layout a)) same_column };

    ghost laws = { columns_per (λ a. column_of (list_layout a)) };

    fn eq(&self, other: &Self) -> bool {
        is_same_column(self, other)
    }
}

impl Eq for ListArray {
    ghost laws = { columns_equiv (λ a. column_of (list_layout a)) };
}

impl ToColumn for FixedSizeListArray {
    ghost tree = { λ a. type_of (fixed_list_layout a) };

    ghost count = { λ a. len_of (fixed_list_layout a) };

    ghost slot = { λ a. slot_at (fixed_list_layout a) };

    fn column_type(&self) -> &DataType {
        self.data_type()
    }

    fn count(&self) -> usize {
        self.len()
    }

    fn has_same_slot(&self, other: &FixedSizeListArray, index: usize) -> bool {
        is_same_value(
            fixed_list_value(self, index),
            fixed_list_value(other, index),
        )
    }
}

impl PartialEq for FixedSizeListArray {
    ghost eq = { on (λ a. column_of (fixed_list_layout a)) same_column };

    ghost laws = { columns_per (λ a. column_of (fixed_list_layout a)) };

    fn eq(&self, other: &Self) -> bool {
        is_same_column(self, other)
    }
}

impl Eq for FixedSizeListArray {
    ghost laws = { columns_equiv (λ a. column_of (fixed_list_layout a)) };
}

impl ToColumn for StructArray {
    ghost tree = { λ a. type_of (struct_layout a) };

    ghost count = { λ a. len_of (struct_layout a) };

    ghost slot = { λ a. slot_at (struct_layout a) };

    fn column_type(&self) -> &DataType {
        self.data_type()
    }

    fn count(&self) -> usize {
        self.len()
    }

    fn has_same_slot(&self, other: &StructArray, index: usize) -> bool {
        is_same_value(record_value(self, index), record_value(other, index))
    }
}

impl PartialEq for StructArray {
    ghost eq = { on (λ a. column_of (struct_layout a)) same_column };

    ghost laws = { columns_per (λ a. column_of (struct_layout a)) };

    fn eq(&self, other: &Self) -> bool {
        is_same_column(self, other)
    }
}

impl Eq for StructArray {
    ghost laws = { columns_equiv (λ a. column_of (struct_layout a)) };
}

impl ToColumn for UnionArray {
    ghost tree = { λ a. type_of (union_layout a) };

    ghost count = { λ a. len_of (union_layout a) };

    ghost slot = { λ a. slot_at (union_layout a) };

    fn column_type(&self) -> &DataType {
        self.data_type()
    }

    fn count(&self) -> usize {
        self.len()
    }

    fn has_same_slot(&self, other: &UnionArray, index: usize) -> bool {
        is_same_value(union_value(self, index), union_value(other, index))
    }
}

impl PartialEq for UnionArray {
    ghost eq = { on (λ a. column_of (union_layout a)) same_column };

    ghost laws = { columns_per (λ a. column_of (union_layout a)) };

    fn eq(&self, other: &Self) -> bool {
        is_same_column(self, other)
    }
}

impl Eq for UnionArray {
    ghost laws = { columns_equiv (λ a. column_of (union_layout a)) };
}

impl ToColumn for MapArray {
    ghost tree = { λ a. type_of (map_layout a) };

    ghost count = { λ a. len_of (map_layout a) };

    ghost slot = { λ a. slot_at (map_layout a) };

    fn column_type(&self) -> &DataType {
        self.data_type()
    }

    fn count(&self) -> usize {
        self.len()
    }

    fn has_same_slot(&self, other: &MapArray, index: usize) -> bool {
        is_same_value(map_value(self, index), map_value(other, index))
    }
}

impl PartialEq for MapArray {
    ghost eq = { on (λ a. column_of (map_layout a)) same_column };

    ghost laws = { columns_per (λ a. column_of (map_layout a)) };

    fn eq(&self, other: &Self) -> bool {
        is_same_column(self, other)
    }
}

impl Eq for MapArray {
    ghost laws = { columns_equiv (λ a. column_of (map_layout a)) };
}

impl ToColumn for DictionaryArray {
    ghost tree = { λ a. type_of (dictionary_layout a) };

    ghost count = { λ a. len_of (dictionary_layout a) };

    ghost slot = { λ a. slot_at (dictionary_layout a) };

    fn column_type(&self) -> &DataType {
        self.data_type()
    }

    fn count(&self) -> usize {
        self.len()
    }

    fn has_same_slot(&self, other: &DictionaryArray, index: usize) -> bool {
        is_same_value(
            dictionary_value(self, index),
            dictionary_value(other, index),
        )
    }
}

impl PartialEq for DictionaryArray {
    ghost eq = { on (λ a. column_of (dictionary_layout a)) same_column };

    ghost laws = { columns_per (λ a. column_of (dictionary_layout a)) };

    fn eq(&self, other: &Self) -> bool {
        is_same_column(self, other)
    }
}

impl Eq for DictionaryArray {
    ghost laws = { columns_equiv (λ a. column_of (dictionary_layout a)) };
}
