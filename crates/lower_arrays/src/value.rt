//! Single slots of arrays.
ghost use Rattle.std.specs.Prelude.{◌≡◌, ◌↔◌, ◌+◌, ◌<◌, ◌≤◌, length, IsTrue, IfSome, SomeIff};
ghost use Rattle.std.specs.Option.{option_map};
ghost use Rattle.std.specs.Iterator.{YieldsFirstBy, item_count};
ghost use Rattle.lower_flat_arrays.specs.Spans.{span_count};
ghost use Rattle.lower_arrays.specs.Layouts.{len_of, height};
ghost use Rattle.lower_arrays.specs.Slots.{slot_at, slots};
ghost use Rattle.lower_arrays.specs.Primitives.{primitive_layout};
ghost use Rattle.lower_arrays.specs.Flat.{boolean_layout, fixed_layout, bytes_layout, texts_layout};
ghost use Rattle.lower_arrays.specs.Lists.{list_layout};
ghost use Rattle.lower_arrays.specs.FixedLists.{fixed_list_layout};
ghost use Rattle.lower_arrays.specs.Structs.{struct_layout};
ghost use Rattle.lower_arrays.specs.Maps.{map_layout};
ghost use Rattle.lower_arrays.specs.Unions.{union_layout};
ghost use Rattle.lower_arrays.specs.Dictionaries.{dictionary_layout};
ghost use Rattle.lower_arrays.specs.AnyLayouts.{any_primitive_layout, layout_of};
ghost use Rattle.lower_arrays.specs.Values.{scalar_number, span, child_slot, IsOneChild, value_slot, ValueFits, value_height, values_left};

use crate::array::{
    AnyArray, AnyPrimitive, BinaryArray, BooleanArray, DictionaryArray, FixedSizeBinaryArray,
    FixedSizeListArray, ListArray, MapArray, PrimitiveArray, StructArray, UnionArray, Utf8Array,
};
use lower::offset::Offset;
use lower::types::{NativeType, days_ms, i256, months_days_ns};
use std::slice;

/// A number of any type that arrays can have.
#[derive(Debug, Clone, Copy, PartialEq, Eq)]
pub enum Scalar {
    Whole(i128),
    Wide(i256),
    DayTime(days_ms),
    MonthDayNano(months_days_ns),
}

/// How a nested slot is made of slots of children.
#[derive(Debug, Clone, Copy, PartialEq, Eq)]
pub enum Nesting {
    /// A list of this many consecutive slots of the first child.
    List(usize),
    /// A struct: one slot of each child.
    Record,
    /// A slot of a union with this type id: one child slot.
    Variant(i8),
}

/// The value of one slot of an array.
///
/// Two values are equal by `==` if they are the same slot, wherever their children lie. A nested
/// value whose slots aren't all within its arrays, which no array has, equals none.
#[derive(Debug, Clone, Copy)]
pub enum Value<'a> {
    Null,
    Truth(bool),
    Number(Scalar),
    Bytes(&'a [u8]),
    Text(&'a str),
    /// Slots of these children at an index.
    Nested(Nesting, &'a [AnyArray], usize),
}

// A number type that converts to [`Scalar`].
trait ToScalar: NativeType {
    // The same number.
    fn scalar(self) -> Scalar
        ensures { scalar_number result ≡ Self.number self };
}

impl ToScalar for i8 {
    fn scalar(self) -> Scalar {
        Scalar::Whole(i128::from(self))
    }
}

impl ToScalar for i16 {
    fn scalar(self) -> Scalar {
        Scalar::Whole(i128::from(self))
    }
}

impl ToScalar for i32 {
    fn scalar(self) -> Scalar {
        Scalar::Whole(i128::from(self))
    }
}

impl ToScalar for i64 {
    fn scalar(self) -> Scalar {
        Scalar::Whole(i128::from(self))
    }
}

impl ToScalar for i128 {
    fn scalar(self) -> Scalar {
        Scalar::Whole(self)
    }
}

impl ToScalar for i256 {
    fn scalar(self) -> Scalar {
        Scalar::Wide(self)
    }
}

impl ToScalar for u8 {
    fn scalar(self) -> Scalar {
        Scalar::Whole(i128::from(self))
    }
}

impl ToScalar for u16 {
    fn scalar(self) -> Scalar {
        Scalar::Whole(i128::from(self))
    }
}

impl ToScalar for u32 {
    fn scalar(self) -> Scalar {
        Scalar::Whole(i128::from(self))
    }
}

impl ToScalar for u64 {
    fn scalar(self) -> Scalar {
        Scalar::Whole(i128::from(self))
    }
}

impl ToScalar for days_ms {
    fn scalar(self) -> Scalar {
        Scalar::DayTime(self)
    }
}

impl ToScalar for months_days_ns {
    fn scalar(self) -> Scalar {
        Scalar::MonthDayNano(self)
    }
}

/// Returns the value of the slot at `index`, for an array of any layout.
///
/// A dictionary's slot is the value that its key selects, which is never another dictionary's slot.
#[cycle(value)]
pub fn value_at(array: &AnyArray, index: usize) -> Value<'_>
    requires { index < len_of (layout_of array.now) }
    ensures slot { value_slot result ≡ slot_at (layout_of array.now) index }
    ensures fits { ValueFits result }
    ensures height { value_height result ≤ height (layout_of array.now) }
{
    match array {
        AnyArray::Null(_) => Value::Null,
        AnyArray::Boolean(array) => boolean_value(array, index),
        AnyArray::Primitive(array) => number_value(array, index),
        AnyArray::FixedSizeBinary(array) => fixed_value(array, index),
        AnyArray::Binary(array) => bytes_value(array, index),
        AnyArray::LargeBinary(array) => bytes_value(array, index),
        AnyArray::Utf8(array) => text_value(array, index),
        AnyArray::LargeUtf8(array) => text_value(array, index),
        AnyArray::List(array) => list_value(array, index),
        AnyArray::LargeList(array) => list_value(array, index),
        AnyArray::FixedSizeList(array) => fixed_list_value(array, index),
        AnyArray::Struct(array) => record_value(array, index),
        AnyArray::Union(array) => union_value(array, index),
        AnyArray::Map(array) => map_value(array, index),
        AnyArray::Dictionary(array) => dictionary_value(array, index),
    }
}

impl AnyArray {
    /// Returns the value of the slot at `index`, or `None` if `index` isn't below the length.
    ///
    /// [`value_at`] is the same for an index that is known to be below the length.
    pub fn slot(&self, index: usize) -> Option<Value<'_>>
        ensures slot { SomeIff (option_map value_slot result)
            (index < len_of (layout_of self.now))
            (slot_at (layout_of self.now) index) }
        ensures fits { IfSome result ValueFits }
        ensures height { IfSome result
            (λ value. value_height value ≤ height (layout_of self.now)) }
    {
        if index >= self.len() {
            return None;
        }
        Some(value_at(self, index))
    }

    /// Iterates over the values of all slots, in order.
    #[tactic(auto, using(crate::proofs::SlotSteps::slot_steps))]
    pub fn iter(&self) -> ValueIter<'_>
        ensures { values_left result ≡ slots (layout_of self.now) }
    {
        ValueIter {
            array: self,
            index: 0,
        }
    }
}

/// An iterator over the values of the slots of an array.
#[derive(Drop)]
pub struct ValueIter<'a> {
    array: &'a AnyArray,
    index: usize,
}

impl<'a> Iterator for ValueIter<'a> {
    type Item = Value<'a>;

    ghost next_gives = { YieldsFirstBy value_slot values_left };

    ghost remaining = { item_count values_left };

    #[tactic(auto, using(crate::proofs::SlotSteps::slot_steps))]
    fn next(&mut self) -> Option<Value<'a>> {
        let index = self.index;
        if index >= self.array.len() {
            return None;
        }
        self.index += 1;
        Some(value_at(self.array, index))
    }
}

impl<'a> IntoIterator for &'a AnyArray {
    type Item = Value<'a>;

    type IntoIter = ValueIter<'a>;

    ghost into_iter_gives = { λ array rest. values_left rest ≡ slots (layout_of array.now) };

    fn into_iter(self) -> ValueIter<'a> {
        self.iter()
    }
}

fn boolean_value(array: &BooleanArray, index: usize) -> Value<'_>
    requires { index < length array.now.values }
    ensures slot { value_slot result ≡ slot_at (boolean_layout array.now) index }
    ensures fits { ValueFits result }
    ensures height { value_height result ≤ 0 }
{
    if !array.is_valid(index) {
        return Value::Null;
    }
    Value::Truth(array.value(index))
}

// The number at `index`.
fn number_value(array: &AnyPrimitive, index: usize) -> Value<'_>
    requires { index < len_of (any_primitive_layout array.now) }
    ensures slot { value_slot result ≡ slot_at (any_primitive_layout array.now) index }
    ensures fits { ValueFits result }
    ensures height { value_height result ≤ 0 }
{
    match array {
        AnyPrimitive::Int8(array) => primitive_value(array, index),
        AnyPrimitive::Int16(array) => primitive_value(array, index),
        AnyPrimitive::Int32(array) => primitive_value(array, index),
        AnyPrimitive::Int64(array) => primitive_value(array, index),
        AnyPrimitive::Int128(array) => primitive_value(array, index),
        AnyPrimitive::Int256(array) => primitive_value(array, index),
        AnyPrimitive::UInt8(array) => primitive_value(array, index),
        AnyPrimitive::UInt16(array) => primitive_value(array, index),
        AnyPrimitive::UInt32(array) => primitive_value(array, index),
        AnyPrimitive::UInt64(array) => primitive_value(array, index),
        AnyPrimitive::DaysMs(array) => primitive_value(array, index),
        AnyPrimitive::MonthDayNano(array) => primitive_value(array, index),
    }
}

#[tactic(auto, using(crate::proofs::SameSlots::primitive_slot))]
fn primitive_value<T: ToScalar>(array: &PrimitiveArray<T>, index: usize) -> Value<'_>
    requires { index < length array.now.values }
    ensures slot { value_slot result ≡ slot_at (primitive_layout T.primitive T.number array.now) index }
    ensures fits { ValueFits result }
    ensures height { value_height result ≤ 0 }
{
    if !array.is_valid(index) {
        return Value::Null;
    }
    let value = array.values().as_slice()[index];
    Value::Number(value.scalar())
}

fn fixed_value(array: &FixedSizeBinaryArray, index: usize) -> Value<'_>
    requires { index < array.now.len }
    ensures slot { value_slot result ≡ slot_at (fixed_layout array.now) index }
    ensures fits { ValueFits result }
    ensures height { value_height result ≤ 0 }
{
    if !array.is_valid(index) {
        return Value::Null;
    }
    Value::Bytes(array.value(index))
}

fn bytes_value<O: Offset>(array: &BinaryArray<O>, index: usize) -> Value<'_>
    requires { index < span_count array.now.offsets }
    ensures slot { value_slot result ≡ slot_at (bytes_layout O.primitive array.now) index }
    ensures fits { ValueFits result }
    ensures height { value_height result ≤ 0 }
{
    if !array.is_valid(index) {
        return Value::Null;
    }
    Value::Bytes(array.value(index))
}

fn text_value<O: Offset>(array: &Utf8Array<O>, index: usize) -> Value<'_>
    requires { index < span_count array.now.offsets }
    ensures slot { value_slot result ≡ slot_at (texts_layout O.primitive array.now) index }
    ensures fits { ValueFits result }
    ensures height { value_height result ≤ 0 }
{
    if !array.is_valid(index) {
        return Value::Null;
    }
    Value::Text(array.value(index))
}

// A list of slots of one child, or a slot of a union.
fn nested(nesting: Nesting, child: &AnyArray, index: usize) -> Value<'_>
    requires one { IsOneChild nesting }
    requires within { index + span nesting ≤ len_of (layout_of child.now) }
    ensures slot { value_slot result ≡ child_slot nesting (slot_at (layout_of child.now)) index }
    ensures fits { ValueFits result }
    ensures height { value_height result ≤ height (layout_of child.now) + 1 }
{
    Value::Nested(nesting, slice::from_ref(child), index)
}

/// Returns the slot at `index` of a list array.
///
/// It consists of the slots of the child between offsets `index` and `index + 1`.
#[tactic(auto, using(crate::proofs::ItemPlaces::item_places))]
pub fn list_value(array: &ListArray, index: usize) -> Value<'_>
    requires { index < span_count array.now.offsets }
    ensures slot { value_slot result ≡ slot_at (list_layout array.now) index }
    ensures fits { ValueFits result }
    ensures height { value_height result ≤ height (list_layout array.now) }
{
    if !array.is_valid(index) {
        return Value::Null;
    }
    prove!(index < array.len());
    let start = array.offsets().get(index);
    let end = array.offsets().get(index + 1);
    nested(Nesting::List(end - start), array.values(), start)
}

/// Returns the slot at `index` of a map array.
///
/// It consists of the pairs between offsets `index` and `index + 1`.
#[tactic(auto, using(crate::proofs::ItemPlaces::item_places))]
pub fn map_value(array: &MapArray, index: usize) -> Value<'_>
    requires { index < span_count array.now.offsets }
    ensures slot { value_slot result ≡ slot_at (map_layout array.now) index }
    ensures fits { ValueFits result }
    ensures height { value_height result ≤ height (map_layout array.now) }
{
    if !array.is_valid(index) {
        return Value::Null;
    }
    prove!(index < array.len());
    let start = array.offsets().get(index);
    let end = array.offsets().get(index + 1);
    nested(Nesting::List(end - start), array.field(), start)
}

/// Returns the slot at `index` of an array of lists of one length.
#[tactic(auto, using(crate::proofs::ItemPlaces::item_places))]
pub fn fixed_list_value(array: &FixedSizeListArray, index: usize) -> Value<'_>
    requires { index < array.now.len }
    ensures slot { value_slot result ≡ slot_at (fixed_list_layout array.now) index }
    ensures fits { ValueFits result }
    ensures height { value_height result ≤ height (fixed_list_layout array.now) }
{
    if !array.is_valid(index) {
        return Value::Null;
    }
    let _slots = array.values().len();
    nested(
        Nesting::List(array.size()),
        array.values(),
        index * array.size(),
    )
}

/// Returns the slot at `index` of a struct array: one slot of each child.
#[tactic(auto, using(crate::proofs::ItemPlaces::item_places))]
pub fn record_value(array: &StructArray, index: usize) -> Value<'_>
    requires { index < array.now.len }
    ensures slot { value_slot result ≡ slot_at (struct_layout array.now) index }
    ensures fits { ValueFits result }
    ensures height { value_height result ≤ height (struct_layout array.now) }
{
    if !array.is_valid(index) {
        return Value::Null;
    }
    Value::Nested(Nesting::Record, array.values(), index)
}

/// Returns the slot at `index` of a union array, with its type id.
pub fn union_value(array: &UnionArray, index: usize) -> Value<'_>
    requires { index < length array.now.types }
    ensures slot { value_slot result ≡ slot_at (union_layout array.now) index }
    ensures fits { ValueFits result }
    ensures height { value_height result ≤ height (union_layout array.now) }
{
    let (number, place) = array.index(index);
    let id = array.type_at(index);
    nested(Nesting::Variant(id), &array.fields()[number], place)
}

/// Returns the slot at `index` of a dictionary array: the value of its key.
#[cycle(value)]
pub fn dictionary_value(array: &DictionaryArray, index: usize) -> Value<'_>
    requires { index < length array.now.keys.integers }
    ensures slot { value_slot result ≡ slot_at (dictionary_layout array.now) index }
    ensures fits { ValueFits result }
    ensures height { value_height result ≤ height (dictionary_layout array.now) }
{
    if !array.is_valid(index) {
        return Value::Null;
    }
    value_at(array.values(), array.key_value(index))
}

/// Returns whether both are the same number.
pub fn is_same_number(lhs: Scalar, rhs: Scalar) -> bool
    ensures { IsTrue result ↔ (scalar_number lhs ≡ scalar_number rhs) }
{
    match (lhs, rhs) {
        (Scalar::Whole(lhs), Scalar::Whole(rhs)) => lhs == rhs,
        (Scalar::Wide(lhs), Scalar::Wide(rhs)) => lhs.is_same(rhs),
        (Scalar::DayTime(lhs), Scalar::DayTime(rhs)) => lhs.is_same(rhs),
        (Scalar::MonthDayNano(lhs), Scalar::MonthDayNano(rhs)) => lhs.is_same(rhs),
        _ => false,
    }
}
