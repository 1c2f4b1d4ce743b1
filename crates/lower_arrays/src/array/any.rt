//! Tests, downcasts and printing of arrays of any layout.
ghost use Rattle.std.specs.Prelude.{◌≡◌, ◌↔◌, ◌<◌, IsTrue, MatchOption, not};
ghost use Rattle.lower_arrays.specs.Layouts.{len_of, is_own_valid};
ghost use Rattle.lower_arrays.specs.Primitives.{primitive_layout, IsPrimitiveOf};
ghost use Rattle.lower_arrays.specs.AnyLayouts.{layout_of};

use super::{
    AnyArray, DictionaryArray, FixedSizeListArray, ListArray, MapArray, StructArray, UnionArray,
};
use lower::datatypes::DataType;
use lower_flat_arrays::PrimitiveArray;
use lower_validation::numeric::Numeric;
use std::fmt;

impl AnyArray {
    /// Returns whether there is no slot.
    pub fn is_empty(&self) -> bool
        ensures { IsTrue result ↔ (len_of (layout_of self.now) ≡ 0) }
    {
        self.len() == 0
    }

    /// Returns whether the slot at `index` is valid by the array's own validity.
    ///
    /// No slot of an array of nulls is, and each of a union is. A slot of a dictionary is valid if
    /// its key is.
    pub fn is_valid(&self, index: usize) -> bool
        requires { index < len_of (layout_of self.now) }
        ensures { result ≡ is_own_valid (layout_of self.now) index }
    {
        match self {
            AnyArray::Null(array) => array.is_valid(index),
            _ => match self.validity() {
                None => true,
                Some(bits) => bits.get_bit(index),
            },
        }
    }

    /// Returns whether the slot at `index` is null, in the sense of [`AnyArray::is_valid`].
    pub fn is_null(&self, index: usize) -> bool
        requires { index < len_of (layout_of self.now) }
        ensures { result ≡ not (is_own_valid (layout_of self.now) index) }
    {
        !self.is_valid(index)
    }

    /// Returns the array as one of numbers of type `T`, if it is.
    pub fn as_primitive<T: Numeric>(&self) -> Option<&PrimitiveArray<T>>
        ensures { MatchOption result
            (¬ (IsPrimitiveOf T.primitive (layout_of self.now)))
            (λ a. primitive_layout T.primitive T.number a.now ≡ layout_of self.now) }
    {
        match self {
            AnyArray::Primitive(array) => T::downcast_ref(array),
            _ => None,
        }
    }
}

// Prints a name, the data type and the length.
fn fmt_brief<W: fmt::Write>(
    name: &str,
    data_type: &DataType,
    len: usize,
    f: &mut fmt::Formatter<W>,
) -> fmt::Result {
    f.debug_struct(name)
        .field("data_type", data_type)
        .field("len", &len)
        .finish()
}

/// Prints the slots if there are no children, else the data type and the length.
impl fmt::Debug for AnyArray {
    fn fmt<W: fmt::Write>(&self, f: &mut fmt::Formatter<W>) -> fmt::Result {
        match self {
            AnyArray::Null(array) => fmt::Debug::fmt(array, f),
            AnyArray::Boolean(array) => fmt::Debug::fmt(array, f),
            AnyArray::Primitive(array) => fmt::Debug::fmt(array, f),
            AnyArray::FixedSizeBinary(array) => fmt::Debug::fmt(array, f),
            AnyArray::Binary(array) => fmt::Debug::fmt(array, f),
            AnyArray::LargeBinary(array) => fmt::Debug::fmt(array, f),
            AnyArray::Utf8(array) => fmt::Debug::fmt(array, f),
            AnyArray::LargeUtf8(array) => fmt::Debug::fmt(array, f),
            _ => fmt_brief("AnyArray", self.data_type(), self.len(), f),
        }
    }
}

/// Prints the data type and the length.
impl fmt::Debug for ListArray {
    fn fmt<W: fmt::Write>(&self, f: &mut fmt::Formatter<W>) -> fmt::Result {
        fmt_brief("ListArray", self.data_type(), self.len(), f)
    }
}

/// Prints the data type and the length.
impl fmt::Debug for FixedSizeListArray {
    fn fmt<W: fmt::Write>(&self, f: &mut fmt::Formatter<W>) -> fmt::Result {
        fmt_brief("FixedSizeListArray", self.data_type(), self.len(), f)
    }
}

/// Prints the data type and the length.
impl fmt::Debug for StructArray {
    fn fmt<W: fmt::Write>(&self, f: &mut fmt::Formatter<W>) -> fmt::Result {
        fmt_brief("StructArray", self.data_type(), self.len(), f)
    }
}

/// Prints the data type and the length.
impl fmt::Debug for UnionArray {
    fn fmt<W: fmt::Write>(&self, f: &mut fmt::Formatter<W>) -> fmt::Result {
        fmt_brief("UnionArray", self.data_type(), self.len(), f)
    }
}

/// Prints the data type and the length.
impl fmt::Debug for MapArray {
    fn fmt<W: fmt::Write>(&self, f: &mut fmt::Formatter<W>) -> fmt::Result {
        fmt_brief("MapArray", self.data_type(), self.len(), f)
    }
}

/// Prints the data type and the length.
impl fmt::Debug for DictionaryArray {
    fn fmt<W: fmt::Write>(&self, f: &mut fmt::Formatter<W>) -> fmt::Result {
        fmt_brief("DictionaryArray", self.data_type(), self.len(), f)
    }
}
