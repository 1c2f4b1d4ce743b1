//! Arrays of booleans.
ghost use Rattle.std.specs.Prelude.{◌≡◌, ◌+◌, ◌≤◌, length, MatchResult, IfOk, IsTrue, not, false, ◌↔◌, ◌<◌, get_or, false, ◌-◌, ◌^◌, min, ◌*◌, SomeIff};
ghost use Rattle.std.specs.Option.{option_copied};
ghost use Rattle.std.specs.Iterator.{YieldsFirst, item_count};
ghost use Rattle.lower.specs.TypeViews.{type_view};
ghost use Rattle.lower_flat_arrays.specs.Options.{option_where, options};
ghost use Rattle.lower_flat_arrays.specs.Validities.{null_count_of, is_valid};
ghost use Rattle.lower_flat_arrays.specs.Booleans.{boolean_seen, IsBoolean, BreaksBoolean, cut_boolean};

use crate::ranges::is_range;
use crate::validity::{
    clone_validity, compact_validity, fits, is_valid_at, sliced_validity, unset_bits,
    validity_bytes,
};
use lower::bitmap::Bitmap;
use lower::datatypes::{DataType, PhysicalType};
use lower::error::{Error, Rule};
use std::alloc::{AllocError, Global};
use std::fmt;
use std::marker::Model;

/// An array of booleans, one bit each (Arrow columnar format, "Fixed-size Primitive Layout").
#[derive(Drop)]
pub struct BooleanArray {
    data_type: DataType,
    values: Bitmap,
    validity: Option<Bitmap>,
}

impl Model for BooleanArray {
    ghost use Rattle.lower_flat_arrays.specs.Booleans.{BooleanSeen, coded_boolean, IsBoolean};
    ghost use Rattle.lower.specs.TypeViews.{type_view};

    ghost Value = { BooleanSeen };

    ghost coded = { coded_boolean };

    ghost view = { λ a. record { type = type_view a.data_type; values = a.values; validity = a.validity } };

    ghost invariant = { λ a. IsBoolean (record { type = type_view a.data_type; values = a.values; validity = a.validity }) };
}

impl BooleanArray {
    /// Returns an array of these bits.
    ///
    /// A slot is null if its bit in `validity` isn't set. Errors, each as `Error::OutOfSpec`:
    ///
    /// - `Rule::ValidityLength`: `validity` has another number of bits than there are slots.
    /// - `Rule::PhysicalType`: `data_type` isn't one of booleans.
    pub fn try_new(
        data_type: DataType,
        values: Bitmap,
        validity: Option<Bitmap>,
    ) -> Result<Self, Error>
        ensures { let seen = boolean_seen (type_view data_type) values validity in
            MatchResult result (λ a. (a ≡ seen) × IsBoolean seen) (BreaksBoolean seen) }
    {
        if !fits(&validity, values.len()) {
            return Err(Error::OutOfSpec(Rule::ValidityLength));
        }
        if data_type.to_physical_type() != PhysicalType::Boolean {
            return Err(Error::OutOfSpec(Rule::PhysicalType));
        }
        Ok(BooleanArray {
            data_type,
            values,
            validity,
        })
    }

    /// Returns the data type.
    pub fn data_type(&self) -> &DataType
        ensures tree { type_view result.now ≡ self.now.type }
        ensures valid { IsBoolean self.now }
    {
        &self.data_type
    }

    /// Returns the bits, which include one for each null.
    pub fn values(&self) -> &Bitmap
        ensures bits { result.now ≡ self.now.values }
        ensures valid { IsBoolean self.now }
    {
        &self.values
    }

    /// Returns the validity bitmap, or `None` if there is none: all slots are valid.
    pub fn validity(&self) -> Option<&Bitmap>
        ensures bits { option_copied result ≡ self.now.validity }
        ensures valid { IsBoolean self.now }
    {
        self.validity.as_ref()
    }

    /// Returns the number of slots.
    pub fn len(&self) -> usize
        ensures len { result ≡ length self.now.values }
        ensures valid { IsBoolean self.now }
    {
        self.values.len()
    }

    /// Returns whether there is no slot.
    pub fn is_empty(&self) -> bool
        ensures { IsTrue result ↔ (length self.now.values ≡ 0) }
    {
        self.values.len() == 0
    }

    /// Returns the number of null slots.
    pub fn null_count(&self) -> usize
        ensures { result ≡ null_count_of self.now.validity }
    {
        unset_bits(&self.validity)
    }

    /// Returns whether the slot at `index` isn't null.
    pub fn is_valid(&self, index: usize) -> bool
        requires { index < length self.now.values }
        ensures { result ≡ is_valid self.now.validity index }
    {
        is_valid_at(&self.validity, index)
    }

    /// Returns whether the slot at `index` is null.
    pub fn is_null(&self, index: usize) -> bool
        requires { index < length self.now.values }
        ensures { result ≡ not (is_valid self.now.validity index) }
    {
        !self.is_valid(index)
    }

    /// Returns the bit of the slot at `index`, even if it is null.
    pub fn value(&self, index: usize) -> bool
        requires { index < length self.now.values }
        ensures { result ≡ get_or self.now.values index false }
    {
        self.values.get_bit(index)
    }

    /// Returns the `len` slots from `offset`, in the same memory. It allocates nothing.
    pub fn sliced(self, offset: usize, len: usize) -> Self
        requires { offset + len ≤ length self.values }
        ensures { result ≡ cut_boolean offset len self }
    {
        let BooleanArray {
            data_type,
            values,
            validity,
        } = self;
        BooleanArray {
            data_type,
            values: values.sliced(offset, len),
            validity: sliced_validity(validity, offset, len),
        }
    }

    /// Returns the `len` slots from `offset`, as [`BooleanArray::sliced`] does.
    ///
    /// It is `None` if the array hasn't all of them; the array is dropped then.
    pub fn try_sliced(self, offset: usize, len: usize) -> Option<Self>
        ensures { SomeIff result
            (offset + len ≤ length self.values)
            (cut_boolean offset len self) }
    {
        if !is_range(offset, len, self.len()) {
            return None;
        }
        Some(self.sliced(offset, len))
    }

    /// Returns the boolean at `index`, or `None` if the slot is null.
    pub fn get(&self, index: usize) -> Option<bool>
        requires { index < length self.now.values }
        ensures { result ≡ option_where (is_valid self.now.validity index) (get_or self.now.values index false) }
    {
        if self.is_valid(index) {
            Some(self.value(index))
        } else {
            None
        }
    }

    /// Iterates over the slots, with `None` for a null.
    pub fn iter(&self) -> BooleanIter<'_>
        ensures { result ≡ options self.now.validity self.now.values }
    {
        BooleanIter {
            array: self,
            index: 0,
        }
    }

    /// Returns the number of bytes that stay allocated as long as the array exists.
    ///
    /// See [`Buffer::retained_bytes`](lower::buffer::Buffer::retained_bytes). Memory that several
    /// of its buffers share counts for each.
    pub fn retained_bytes(&self) -> usize
        ensures { min (length self.now.values) (2 ^ 64 - 1) ≤ 8 * result }
    {
        self.values
            .retained_bytes()
            .saturating_add(validity_bytes(&self.validity))
    }

    /// Returns an array of the same slots in memory of its own.
    ///
    /// It fails only if an allocation fails.
    pub fn compact(&self, alloc: Global) -> Result<Self, AllocError>
        ensures { IfOk result (λ copy. copy ≡ self.now) }
    {
        Ok(BooleanArray {
            data_type: self.data_type.clone()?,
            values: self.values.compact(alloc)?,
            validity: compact_validity(alloc, &self.validity)?,
        })
    }
}

impl Clone for BooleanArray {
    ghost is_clone = { λ a b. b ≡ a };

    /// Returns an array of the same slots, in the same memory.
    ///
    /// It fails if an allocation fails or the count of owners can't grow.
    fn clone(&self) -> Result<Self, AllocError> {
        Ok(BooleanArray {
            data_type: self.data_type.clone()?,
            values: self.values.clone()?,
            validity: clone_validity(&self.validity)?,
        })
    }
}

/// An iterator over the slots of a [`BooleanArray`]. Its model is the list of those that are left.
#[derive(Drop)]
pub struct BooleanIter<'a> {
    array: &'a BooleanArray,
    index: usize,
}

impl<'a> Model for BooleanIter<'a> {
    ghost use Rattle.std.specs.Prelude.{Bool, List, Option, drop};
    ghost use Rattle.lower_flat_arrays.specs.Options.{options};

    ghost Value = { List (Option Bool) };

    ghost view = { λ a. drop a.index (options a.array.now.validity a.array.now.values) };
}

impl<'a> Iterator for BooleanIter<'a> {
    type Item = Option<bool>;

    ghost next_gives = { YieldsFirst (λ rest. rest) };

    ghost remaining = { item_count (λ rest. rest) };

    #[tactic(auto, using(crate::proofs::OptionSteps::bit_steps))]
    fn next(&mut self) -> Option<Option<bool>> {
        let index = self.index;
        if index >= self.array.len() {
            return None;
        }
        self.index += 1;
        Some(self.array.get(index))
    }
}

impl<'a> IntoIterator for &'a BooleanArray {
    type Item = Option<bool>;

    type IntoIter = BooleanIter<'a>;

    ghost into_iter_gives = { λ array rest. rest ≡ options array.now.validity array.now.values };

    fn into_iter(self) -> BooleanIter<'a> {
        self.iter()
    }
}

/// Prints the data type, and the slots as a list.
impl fmt::Debug for BooleanArray {
    fn fmt<W: fmt::Write>(&self, f: &mut fmt::Formatter<W>) -> fmt::Result {
        fmt::Debug::fmt(&self.data_type, f)?;
        f.debug_list().entries(self.iter()).finish()
    }
}
