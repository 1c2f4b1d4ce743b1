//! Equality of arrays: the same type and the same slots, whatever the memory.
ghost use Rattle.std.specs.Prelude.{◌≡◌, ◌↔◌, ◌<◌, ℕ, IsTrue, IfSome, length};
ghost use Rattle.std.specs.Ordering.{on};
ghost use Rattle.lower.specs.TypeTrees.{TypeTree};
ghost use Rattle.lower.specs.TypeViews.{type_view};
ghost use Rattle.lower_flat_arrays.specs.Spans.{span_count};
ghost use Rattle.lower_flat_arrays.specs.Columns.{Slot, slots_from, column_by, IsSame, same_column, null_at, truth_at, number_at, fixed_at, bytes_at, text_at, null_column, truth_column, number_column, fixed_column, bytes_column, text_column};
ghost use Rattle.lower_flat_arrays.specs.ColumnLaws.{columns_equiv, columns_per};
ghost use Rattle.lower_flat_arrays.specs.SameValues.{number_in, HasSameNumbers};

use crate::spans::{has_same_bytes, has_same_spans};
use crate::{
    BinaryArray, BooleanArray, FixedSizeBinaryArray, NullArray, PrimitiveArray, Utf8Array,
};
use lower::datatypes::{DataType, is_same_type};
use lower::offset::Offset;
use lower::types::NativeType;

/// An array whose slots can be compared with another's.
pub trait ToColumn {
    // Its type.
    ghost tree: { Self → TypeTree };

    // How many slots it has.
    ghost count: { Self → ℕ };

    // Its slots.
    ghost slot: { Self → ℕ → Slot };

    /// Returns the data type.
    fn column_type(&self) -> &DataType
        ensures { type_view result.now ≡ tree self.now };

    /// Returns the number of slots.
    fn count(&self) -> usize
        ensures { result ≡ count self.now };

    /// Returns whether both have the same slot at `index`. Two nulls are the same.
    fn has_same_slot(&self, other: &Self, index: usize) -> bool
        requires here { index < count self.now }
        requires there { index < count other.now }
        ensures { IsTrue result ↔ (slot self.now index ≡ slot other.now index) };

    /// Compares all values at once, and returns whether both have the same slots.
    ///
    /// It is `None` if the slots must be compared one by one, as when some are null.
    fn has_same_values(&self, other: &Self) -> Option<bool>
        requires { count self.now ≡ count other.now }
        ensures { IfSome result (λ same. IsTrue same ↔ (slots_from (slot self.now) 0 (count self.now) ≡ slots_from (slot other.now) 0 (count other.now))) }
    {
        None
    }
}

/// Returns whether both have the same number of slots, and the same slots.
pub fn has_same_slots<A: ToColumn>(lhs: &A, rhs: &A) -> bool
    ensures { IsTrue result ↔ (slots_from (A.slot lhs.now) 0 (A.count lhs.now) ≡ slots_from (A.slot rhs.now) 0 (A.count rhs.now)) }
{
    if lhs.count() != rhs.count() {
        return false;
    }
    match lhs.has_same_values(rhs) {
        Some(same) => same,
        None => has_each_slot(lhs, rhs),
    }
}

// Compares the slots one by one.
fn has_each_slot<A: ToColumn>(lhs: &A, rhs: &A) -> bool
    requires { A.count lhs.now ≡ A.count rhs.now }
    ensures { IsTrue result ↔ (slots_from (A.slot lhs.now) 0 (A.count lhs.now) ≡ slots_from (A.slot rhs.now) 0 (A.count rhs.now)) }
{
    for index in 0..lhs.count() {
        if !lhs.has_same_slot(rhs, index) {
            return false;
        }
    }
    true
}

/// Returns whether both have the same data type and the same slots.
pub fn is_same_column<A: ToColumn>(lhs: &A, rhs: &A) -> bool
    ensures test { result ≡ same_column (column_by (A.tree lhs.now) (A.count lhs.now) (A.slot lhs.now)) (column_by (A.tree rhs.now) (A.count rhs.now) (A.slot rhs.now)) }
    ensures exact { IsTrue result ↔ IsSame (column_by (A.tree lhs.now) (A.count lhs.now) (A.slot lhs.now)) (column_by (A.tree rhs.now) (A.count rhs.now) (A.slot rhs.now)) }
{
    are_one_column(lhs, rhs)
}

// Whether both have the same data type and the same slots.
fn are_one_column<A: ToColumn>(lhs: &A, rhs: &A) -> bool
    ensures { IsTrue result ↔ IsSame (column_by (A.tree lhs.now) (A.count lhs.now) (A.slot lhs.now)) (column_by (A.tree rhs.now) (A.count rhs.now) (A.slot rhs.now)) }
{
    is_same_type(lhs.column_type(), rhs.column_type()) && has_same_slots(lhs, rhs)
}

impl ToColumn for NullArray {
    ghost tree = { λ a. a.type };

    ghost count = { λ a. a.len };

    ghost slot = { null_at };

    fn column_type(&self) -> &DataType {
        self.data_type()
    }

    fn count(&self) -> usize {
        self.len()
    }

    fn has_same_slot(&self, _other: &NullArray, _index: usize) -> bool {
        true
    }
}

impl PartialEq for NullArray {
    ghost eq = { on (null_column) same_column };

    ghost laws = { columns_per (null_column) };

    fn eq(&self, other: &Self) -> bool {
        is_same_column(self, other)
    }
}

impl Eq for NullArray {
    ghost laws = { columns_equiv (null_column) };
}

impl ToColumn for BooleanArray {
    ghost tree = { λ a. a.type };

    ghost count = { λ a. length a.values };

    ghost slot = { truth_at };

    fn column_type(&self) -> &DataType {
        self.data_type()
    }

    fn count(&self) -> usize {
        self.len()
    }

    fn has_same_slot(&self, other: &BooleanArray, index: usize) -> bool {
        match (self.is_valid(index), other.is_valid(index)) {
            (true, true) => self.value(index) == other.value(index),
            (false, false) => true,
            _ => false,
        }
    }
}

impl PartialEq for BooleanArray {
    ghost eq = { on (truth_column) same_column };

    ghost laws = { columns_per (truth_column) };

    fn eq(&self, other: &Self) -> bool {
        is_same_column(self, other)
    }
}

impl Eq for BooleanArray {
    ghost laws = { columns_equiv (truth_column) };
}

impl<T: NativeType> ToColumn for PrimitiveArray<T> {
    ghost tree = { λ a. a.type };

    ghost count = { λ a. length a.values };

    ghost slot = { number_at T.number };

    fn column_type(&self) -> &DataType {
        self.data_type()
    }

    fn count(&self) -> usize {
        self.len()
    }

    #[tactic(auto, using(crate::proofs::SlotRows::number_slot_at))]
    fn has_same_slot(&self, other: &PrimitiveArray<T>, index: usize) -> bool {
        match (self.is_valid(index), other.is_valid(index)) {
            (true, true) => {
                let value = self.values().as_slice()[index];
                value.is_same(other.values().as_slice()[index])
            }
            (false, false) => true,
            _ => false,
        }
    }

    fn has_same_values(&self, other: &PrimitiveArray<T>) -> Option<bool> {
        if self.null_count() != 0 || other.null_count() != 0 {
            return None;
        }
        Some(has_same_numbers(self.values().as_slice(), other.values().as_slice()))
    }
}

// Whether both have the same numbers. The loop has no early exit, so that it is vectorized.
fn has_same_numbers<T: NativeType>(lhs: &[T], rhs: &[T]) -> bool
    requires { length lhs.now ≡ length rhs.now }
    ensures { IsTrue result ↔ HasSameNumbers T.number lhs.now rhs.now (length lhs.now) }
{
    let mut are_same = true;
    for index in 0..lhs.len() {
        if !has_same_number(lhs, rhs, index) {
            are_same = false;
        }
    }
    are_same
}

// Whether both have the same number at `index`.
fn has_same_number<T: NativeType>(lhs: &[T], rhs: &[T], index: usize) -> bool
    requires here { index < length lhs.now }
    requires there { index < length rhs.now }
    ensures { IsTrue result ↔ (number_in T.number lhs.now index ≡ number_in T.number rhs.now index) }
{
    lhs[index].is_same(rhs[index])
}

impl<T: NativeType> PartialEq for PrimitiveArray<T> {
    ghost eq = { on (number_column T.number) same_column };

    ghost laws = { columns_per (number_column T.number) };

    fn eq(&self, other: &Self) -> bool {
        is_same_column(self, other)
    }
}

impl<T: NativeType> Eq for PrimitiveArray<T> {
    ghost laws = { columns_equiv (number_column T.number) };
}

impl ToColumn for FixedSizeBinaryArray {
    ghost tree = { λ a. a.type };

    ghost count = { λ a. a.len };

    ghost slot = { fixed_at };

    fn column_type(&self) -> &DataType {
        self.data_type()
    }

    fn count(&self) -> usize {
        self.len()
    }

    fn has_same_slot(&self, other: &FixedSizeBinaryArray, index: usize) -> bool {
        match (self.is_valid(index), other.is_valid(index)) {
            (true, true) => *self.value(index) == *other.value(index),
            (false, false) => true,
            _ => false,
        }
    }

    fn has_same_values(&self, other: &FixedSizeBinaryArray) -> Option<bool> {
        if self.size() != other.size() || self.null_count() != 0 || other.null_count() != 0 {
            return None;
        }
        Some(has_same_bytes(self.values().as_slice(), other.values().as_slice()))
    }
}

impl PartialEq for FixedSizeBinaryArray {
    ghost eq = { on (fixed_column) same_column };

    ghost laws = { columns_per (fixed_column) };

    fn eq(&self, other: &Self) -> bool {
        is_same_column(self, other)
    }
}

impl Eq for FixedSizeBinaryArray {
    ghost laws = { columns_equiv (fixed_column) };
}

impl<O: Offset> ToColumn for BinaryArray<O> {
    ghost tree = { λ a. a.type };

    ghost count = { λ a. span_count a.offsets };

    ghost slot = { bytes_at };

    fn column_type(&self) -> &DataType {
        self.data_type()
    }

    fn count(&self) -> usize {
        self.len()
    }

    fn has_same_slot(&self, other: &BinaryArray<O>, index: usize) -> bool {
        match (self.is_valid(index), other.is_valid(index)) {
            (true, true) => *self.value(index) == *other.value(index),
            (false, false) => true,
            _ => false,
        }
    }

    fn has_same_values(&self, other: &BinaryArray<O>) -> Option<bool> {
        if self.null_count() != 0 || other.null_count() != 0 {
            return None;
        }
        Some(has_same_spans(
            self.offsets(),
            self.values().as_slice(),
            other.offsets(),
            other.values().as_slice(),
        ))
    }
}

impl<O: Offset> PartialEq for BinaryArray<O> {
    ghost eq = { on (bytes_column) same_column };

    ghost laws = { columns_per (bytes_column) };

    fn eq(&self, other: &Self) -> bool {
        is_same_column(self, other)
    }
}

impl<O: Offset> Eq for BinaryArray<O> {
    ghost laws = { columns_equiv (bytes_column) };
}

impl<O: Offset> ToColumn for Utf8Array<O> {
    ghost tree = { λ a. a.type };

    ghost count = { λ a. span_count a.offsets };

    ghost slot = { text_at };

    fn column_type(&self) -> &DataType {
        self.data_type()
    }

    fn count(&self) -> usize {
        self.len()
    }

    fn has_same_slot(&self, other: &Utf8Array<O>, index: usize) -> bool {
        match (self.is_valid(index), other.is_valid(index)) {
            (true, true) => *self.value(index) == *other.value(index),
            (false, false) => true,
            _ => false,
        }
    }

    fn has_same_values(&self, other: &Utf8Array<O>) -> Option<bool> {
        if self.null_count() != 0 || other.null_count() != 0 {
            return None;
        }
        Some(has_same_spans(
            self.offsets(),
            self.values().as_slice(),
            other.offsets(),
            other.values().as_slice(),
        ))
    }
}

impl<O: Offset> PartialEq for Utf8Array<O> {
    ghost eq = { on (text_column) same_column };

    ghost laws = { columns_per (text_column) };

    fn eq(&self, other: &Self) -> bool {
        is_same_column(self, other)
    }
}

impl<O: Offset> Eq for Utf8Array<O> {
    ghost laws = { columns_equiv (text_column) };
}
