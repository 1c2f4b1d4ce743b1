//! Arrays of numbers.
ghost use Rattle.std.specs.Prelude.{◌≡◌, ◌+◌, ◌≤◌, length, MatchResult, MatchOption, IsTrue, IfOk, not, true, false, None, get_or, ◌↔◌, ◌<◌, ◌-◌, ◌^◌, min, ◌*◌, SomeIff};
ghost use Rattle.std.specs.Option.{option_copied};
ghost use Rattle.std.specs.Iterator.{YieldsFirst, item_count};
ghost use Rattle.lower.specs.TypeTrees.{plain};
ghost use Rattle.lower.specs.TypeViews.{type_view};
ghost use Rattle.lower.specs.Physical.{number_type};
ghost use Rattle.lower_flat_arrays.specs.Options.{options};
ghost use Rattle.lower_flat_arrays.specs.Validities.{null_count_of, is_valid, ValidityFits};
ghost use Rattle.lower_flat_arrays.specs.Primitives.{primitive_seen, IsPrimitive, BreaksPrimitive, cut_primitive};

use crate::ranges::is_range;
use crate::validity::{
    clone_validity, compact_validity, fits, is_valid_at, sliced_validity, unset_bits,
    validity_bytes,
};
use lower::bitmap::Bitmap;
use lower::buffer::Buffer;
use lower::datatypes::{DataType, PhysicalType};
use lower::error::{Error, Rule};
use lower::types::{NativeType, days_ms, i256, months_days_ns};
use std::alloc::{AllocError, Global};
use std::fmt;
use std::marker::Model;

/// An array of numbers (Arrow columnar format, "Fixed-size Primitive Layout").
///
/// Its data type is any whose values have the layout of `T`: an array of `i32` may be one of dates.
#[derive(Drop)]
pub struct PrimitiveArray<T: NativeType> {
    data_type: DataType,
    values: Buffer<T>,
    validity: Option<Bitmap>,
}

/// An array of `i8`.
pub type Int8Array = PrimitiveArray<i8>;

/// An array of `i16`.
pub type Int16Array = PrimitiveArray<i16>;

/// An array of `i32`.
pub type Int32Array = PrimitiveArray<i32>;

/// An array of `i64`.
pub type Int64Array = PrimitiveArray<i64>;

/// An array of `i128`.
pub type Int128Array = PrimitiveArray<i128>;

/// An array of `i256`.
pub type Int256Array = PrimitiveArray<i256>;

/// An array of `u8`.
pub type UInt8Array = PrimitiveArray<u8>;

/// An array of `u16`.
pub type UInt16Array = PrimitiveArray<u16>;

/// An array of `u32`.
pub type UInt32Array = PrimitiveArray<u32>;

/// An array of `u64`.
pub type UInt64Array = PrimitiveArray<u64>;

/// An array of `days_ms`.
pub type DaysMsArray = PrimitiveArray<days_ms>;

/// An array of `months_days_ns`.
pub type MonthsDaysNsArray = PrimitiveArray<months_days_ns>;

impl<T: NativeType> Model for PrimitiveArray<T> {
    ghost use Rattle.lower_flat_arrays.specs.Primitives.{PrimitiveSeen, coded_primitive, IsPrimitive};
    ghost use Rattle.lower.specs.TypeViews.{type_view};

    ghost Value = { PrimitiveSeen T };

    ghost coded = { coded_primitive T.code };

    ghost view = { λ a. record { type = type_view a.data_type; values = a.values; validity = a.validity } };

    ghost invariant = { λ a. IsPrimitive T.primitive (record { type = type_view a.data_type; values = a.values; validity = a.validity }) };
}

impl<T: NativeType> PrimitiveArray<T> {
    /// Returns an array of these numbers.
    ///
    /// A slot is null if its bit in `validity` isn't set. Errors, each as `Error::OutOfSpec`:
    ///
    /// - `Rule::ValidityLength`: `validity` has another number of bits than there are numbers.
    /// - `Rule::PhysicalType`: `data_type` isn't one whose values have the layout of `T`.
    pub fn try_new(
        data_type: DataType,
        values: Buffer<T>,
        validity: Option<Bitmap>,
    ) -> Result<Self, Error>
        ensures { let seen = primitive_seen (type_view data_type) values validity in
            MatchResult result (λ a. (a ≡ seen) × IsPrimitive T.primitive seen) (BreaksPrimitive T.primitive seen) }
    {
        if !fits(&validity, values.len()) {
            return Err(Error::OutOfSpec(Rule::ValidityLength));
        }
        if data_type.to_physical_type() != PhysicalType::Primitive(T::primitive_type()) {
            return Err(Error::OutOfSpec(Rule::PhysicalType));
        }
        Ok(PrimitiveArray {
            data_type,
            values,
            validity,
        })
    }

    /// Returns the data type.
    pub fn data_type(&self) -> &DataType
        ensures tree { type_view result.now ≡ self.now.type }
        ensures valid { IsPrimitive T.primitive self.now }
    {
        &self.data_type
    }

    /// Returns the numbers, which include one for each null.
    pub fn values(&self) -> &Buffer<T>
        ensures numbers { result.now ≡ self.now.values }
        ensures valid { IsPrimitive T.primitive self.now }
    {
        &self.values
    }

    /// Returns the validity bitmap, or `None` if there is none: all slots are valid.
    pub fn validity(&self) -> Option<&Bitmap>
        ensures bits { option_copied result ≡ self.now.validity }
        ensures valid { IsPrimitive T.primitive self.now }
    {
        self.validity.as_ref()
    }

    /// Returns the number of slots.
    pub fn len(&self) -> usize
        ensures len { result ≡ length self.now.values }
        ensures valid { IsPrimitive T.primitive self.now }
    {
        self.values.len()
    }

    /// Returns whether there is no slot.
    pub fn is_empty(&self) -> bool
        ensures { IsTrue result ↔ (length self.now.values ≡ 0) }
    {
        self.values.len() == 0
    }

    /// Returns the number of null slots.
    pub fn null_count(&self) -> usize
        ensures { result ≡ null_count_of self.now.validity }
    {
        unset_bits(&self.validity)
    }

    /// Returns whether the slot at `index` isn't null.
    pub fn is_valid(&self, index: usize) -> bool
        requires { index < length self.now.values }
        ensures { result ≡ is_valid self.now.validity index }
    {
        is_valid_at(&self.validity, index)
    }

    /// Returns whether the slot at `index` is null.
    pub fn is_null(&self, index: usize) -> bool
        requires { index < length self.now.values }
        ensures { result ≡ not (is_valid self.now.validity index) }
    {
        !self.is_valid(index)
    }

    /// Returns the `len` slots from `offset`, in the same memory. It allocates nothing.
    pub fn sliced(self, offset: usize, len: usize) -> Self
        requires { offset + len ≤ length self.values }
        ensures { result ≡ cut_primitive offset len self }
    {
        let PrimitiveArray {
            data_type,
            values,
            validity,
        } = self;
        PrimitiveArray {
            data_type,
            values: values.sliced(offset, len),
            validity: sliced_validity(validity, offset, len),
        }
    }

    /// Returns the `len` slots from `offset`, as [`PrimitiveArray::sliced`] does.
    ///
    /// It is `None` if the array hasn't all of them; the array is dropped then.
    pub fn try_sliced(self, offset: usize, len: usize) -> Option<Self>
        ensures { SomeIff result
            (offset + len ≤ length self.values)
            (cut_primitive offset len self) }
    {
        if !is_range(offset, len, self.len()) {
            return None;
        }
        Some(self.sliced(offset, len))
    }

    /// Returns the array with these numbers in place of its own.
    ///
    /// It is `None` if there are more or fewer of them than slots; all is dropped then.
    pub fn with_values(self, values: Buffer<T>) -> Option<Self>
        ensures { SomeIff result
            (length values ≡ length self.values)
            (primitive_seen self.type values self.validity) }
    {
        if values.len() != self.len() {
            return None;
        }
        let PrimitiveArray {
            data_type,
            validity,
            ..
        } = self;
        Some(PrimitiveArray {
            data_type,
            values,
            validity,
        })
    }

    /// Returns the array with this validity bitmap in place of its own, or without one.
    ///
    /// It is `None` if the bitmap has more or fewer bits than there are slots; all is dropped then.
    pub fn with_validity(self, validity: Option<Bitmap>) -> Option<Self>
        ensures { SomeIff result
            (ValidityFits validity (length self.values))
            (primitive_seen self.type self.values validity) }
    {
        if !fits(&validity, self.len()) {
            return None;
        }
        let PrimitiveArray {
            data_type,
            values,
            ..
        } = self;
        Some(PrimitiveArray {
            data_type,
            values,
            validity,
        })
    }

    /// Returns the number at `index`, even if the slot is null.
    pub fn value(&self, index: usize) -> T
        requires { index < length self.now.values }
        ensures { result ≡ get_or self.now.values index result }
    {
        self.values.as_slice()[index]
    }

    /// Returns the number at `index`, or `None` if the slot is null.
    pub fn get(&self, index: usize) -> Option<T>
        requires { index < length self.now.values }
        ensures { MatchOption result
            (is_valid self.now.validity index ≡ false)
            (λ x. (is_valid self.now.validity index ≡ true) × (x ≡ get_or self.now.values index x)) }
    {
        if self.is_valid(index) {
            Some(self.value(index))
        } else {
            None
        }
    }

    /// Iterates over the slots, with `None` for a null.
    pub fn iter(&self) -> PrimitiveIter<'_, T>
        ensures { result ≡ options self.now.validity self.now.values }
    {
        PrimitiveIter {
            array: self,
            index: 0,
        }
    }

    /// Returns an array of these numbers, without nulls.
    ///
    /// Its data type is what [`DataType::from`] gives for theirs. No number is copied. It fails
    /// only if the small block that counts the owners can't be allocated.
    pub fn from_vec(values: Vec<T>) -> Result<Self, AllocError>
        ensures { IfOk result (λ a. a ≡ primitive_seen (plain (number_type T.primitive)) values.items None) }
    {
        let data_type = DataType::from(T::primitive_type());
        let values = Buffer::new(values)?;
        Ok(PrimitiveArray {
            data_type,
            values,
            validity: None,
        })
    }

    /// Returns an array of a copy of these numbers, as [`PrimitiveArray::from_vec`] does.
    ///
    /// It fails only if an allocation fails.
    pub fn from_slice(alloc: Global, values: &[T]) -> Result<Self, AllocError>
        ensures { IfOk result (λ a. a ≡ primitive_seen (plain (number_type T.primitive)) values.now None) }
    {
        PrimitiveArray::from_vec(Vec::from_slice(alloc, values)?)
    }

    /// Returns the number of bytes that stay allocated as long as the array exists.
    ///
    /// See [`Buffer::retained_bytes`](lower::buffer::Buffer::retained_bytes). Memory that several
    /// of its buffers share counts for each.
    pub fn retained_bytes(&self) -> usize
        ensures { min (T.width * length self.now.values) (2 ^ 64 - 1) ≤ result }
    {
        self.values
            .retained_bytes()
            .saturating_add(validity_bytes(&self.validity))
    }

    /// Returns an array of the same slots in memory of its own.
    ///
    /// It fails only if an allocation fails.
    pub fn compact(&self, alloc: Global) -> Result<Self, AllocError>
        ensures { IfOk result (λ copy. copy ≡ self.now) }
    {
        Ok(PrimitiveArray {
            data_type: self.data_type.clone()?,
            values: self.values.compact(alloc)?,
            validity: compact_validity(alloc, &self.validity)?,
        })
    }
}

impl<T: NativeType> Clone for PrimitiveArray<T> {
    ghost is_clone = { λ a b. b ≡ a };

    /// Returns an array of the same slots, in the same memory.
    ///
    /// It fails if an allocation fails or the count of owners can't grow.
    fn clone(&self) -> Result<Self, AllocError> {
        Ok(PrimitiveArray {
            data_type: self.data_type.clone()?,
            values: self.values.clone()?,
            validity: clone_validity(&self.validity)?,
        })
    }
}

/// An iterator over the slots of a [`PrimitiveArray`]. Its model is the list of those that are
/// left.
#[derive(Drop)]
pub struct PrimitiveIter<'a, T: NativeType> {
    array: &'a PrimitiveArray<T>,
    index: usize,
}

impl<'a, T: NativeType> Model for PrimitiveIter<'a, T> {
    ghost use Rattle.std.specs.Prelude.{List, Option, drop};
    ghost use Rattle.lower_flat_arrays.specs.Options.{options};

    ghost Value = { List (Option T) };

    ghost view = { λ a. drop a.index (options a.array.now.validity a.array.now.values) };
}

impl<'a, T: NativeType> Iterator for PrimitiveIter<'a, T> {
    type Item = Option<T>;

    ghost next_gives = { YieldsFirst (λ rest. rest) };

    ghost remaining = { item_count (λ rest. rest) };

    #[tactic(auto, using(crate::proofs::OptionSteps::number_steps))]
    fn next(&mut self) -> Option<Option<T>> {
        let index = self.index;
        if index >= self.array.len() {
            return None;
        }
        self.index += 1;
        Some(self.array.get(index))
    }
}

impl<'a, T: NativeType> IntoIterator for &'a PrimitiveArray<T> {
    type Item = Option<T>;

    type IntoIter = PrimitiveIter<'a, T>;

    ghost into_iter_gives = { λ array rest. rest ≡ options array.now.validity array.now.values };

    fn into_iter(self) -> PrimitiveIter<'a, T> {
        self.iter()
    }
}

/// Prints the data type, and the slots as a list.
impl<T: NativeType + fmt::Debug> fmt::Debug for PrimitiveArray<T> {
    fn fmt<W: fmt::Write>(&self, f: &mut fmt::Formatter<W>) -> fmt::Result {
        fmt::Debug::fmt(&self.data_type, f)?;
        f.debug_list().entries(self.iter()).finish()
    }
}
