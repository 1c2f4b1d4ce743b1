//! Arrays of byte strings of one length.
ghost use Rattle.std.specs.Prelude.{◌≡◌, ◌+◌, ◌*◌, ◌≤◌, MatchResult, IfOk, IsTrue, not, ◌↔◌, ◌<◌, ◌-◌, ◌^◌, length, min, SomeIff};
ghost use Rattle.std.specs.Option.{option_copied};
ghost use Rattle.std.specs.Iterator.{YieldsFirstBy, item_count};
ghost use Rattle.lower.specs.TypeViews.{type_view};
ghost use Rattle.lower_flat_arrays.specs.Options.{option_where, options, pieces};
ghost use Rattle.lower_flat_arrays.specs.Validities.{null_count_of, is_valid, part};
ghost use Rattle.lower_flat_arrays.specs.FixedBinaries.{byte_size, fixed_seen, IsFixedBinary, BreaksFixedBinary, cut_fixed};

use crate::ranges::is_range;
use crate::validity::{
    clone_validity, compact_validity, fits, is_valid_at, sliced_validity, unset_bits,
    validity_bytes,
};
use lower::bitmap::Bitmap;
use lower::buffer::Buffer;
use lower::datatypes::{DataType, PhysicalType};
use lower::error::{Error, Rule};
use std::alloc::{AllocError, Global};
use std::fmt;
use std::marker::Model;

/// An array of byte strings whose length the data type gives.
///
/// Arrow columnar format, "Fixed-size Primitive Layout".
#[derive(Drop)]
pub struct FixedSizeBinaryArray {
    data_type: DataType,
    size: usize,
    len: usize,
    values: Buffer<u8>,
    validity: Option<Bitmap>,
}

impl Model for FixedSizeBinaryArray {
    ghost use Rattle.lower_flat_arrays.specs.FixedBinaries.{FixedBinarySeen, coded_fixed, IsFixedBinary};
    ghost use Rattle.lower.specs.TypeViews.{type_view};

    ghost Value = { FixedBinarySeen };

    ghost coded = { coded_fixed };

    ghost view = { λ a. record { type = type_view a.data_type; size = a.size; len = a.len; values = a.values; validity = a.validity } };

    ghost invariant = { λ a. IsFixedBinary (record { type = type_view a.data_type; size = a.size; len = a.len; values = a.values; validity = a.validity }) };
}

// The number of bytes of a slot, or 0 if the type isn't one of byte strings of one length.
fn byte_size(data_type: &DataType) -> usize
    ensures { result ≡ byte_size (type_view data_type.now) }
{
    match data_type.to_logical_type() {
        DataType::FixedSizeBinary(size) => *size,
        _ => 0,
    }
}

impl FixedSizeBinaryArray {
    /// Returns an array that cuts these bytes into slots.
    ///
    /// A slot is null if its bit in `validity` isn't set. Errors, each as `Error::OutOfSpec`:
    ///
    /// - `Rule::PhysicalType`: `data_type` isn't one of byte strings of one length.
    /// - `Rule::ZeroSize`: this length is 0.
    /// - `Rule::ValuesLength`: `values` isn't a whole number of slots long.
    /// - `Rule::ValidityLength`: `validity` has another number of bits than there are slots.
    pub fn try_new(
        data_type: DataType,
        values: Buffer<u8>,
        validity: Option<Bitmap>,
    ) -> Result<Self, Error>
        ensures { let seen = fixed_seen (type_view data_type) values validity in
            MatchResult result (λ a. (a ≡ seen) × IsFixedBinary seen) (BreaksFixedBinary seen) }
    {
        if data_type.to_physical_type() != PhysicalType::FixedSizeBinary {
            return Err(Error::OutOfSpec(Rule::PhysicalType));
        }
        let size = byte_size(&data_type);
        if size == 0 {
            return Err(Error::OutOfSpec(Rule::ZeroSize));
        }
        if values.len() % size != 0 {
            return Err(Error::OutOfSpec(Rule::ValuesLength));
        }
        let len = values.len() / size;
        if !fits(&validity, len) {
            return Err(Error::OutOfSpec(Rule::ValidityLength));
        }
        Ok(FixedSizeBinaryArray {
            data_type,
            size,
            len,
            values,
            validity,
        })
    }

    /// Returns the data type.
    pub fn data_type(&self) -> &DataType
        ensures tree { type_view result.now ≡ self.now.type }
        ensures valid { IsFixedBinary self.now }
    {
        &self.data_type
    }

    /// Returns the number of bytes of a slot.
    pub fn size(&self) -> usize
        ensures size { result ≡ self.now.size }
        ensures valid { IsFixedBinary self.now }
    {
        self.size
    }

    /// Returns the bytes of all slots, which include those of each null.
    pub fn values(&self) -> &Buffer<u8>
        ensures bytes { result.now ≡ self.now.values }
        ensures valid { IsFixedBinary self.now }
    {
        &self.values
    }

    /// Returns the validity bitmap, or `None` if there is none: all slots are valid.
    pub fn validity(&self) -> Option<&Bitmap>
        ensures bits { option_copied result ≡ self.now.validity }
        ensures valid { IsFixedBinary self.now }
    {
        self.validity.as_ref()
    }

    /// Returns the number of slots.
    pub fn len(&self) -> usize
        ensures len { result ≡ self.now.len }
        ensures valid { IsFixedBinary self.now }
    {
        self.len
    }

    /// Returns whether there is no slot.
    pub fn is_empty(&self) -> bool
        ensures { IsTrue result ↔ (self.now.len ≡ 0) }
    {
        self.len == 0
    }

    /// Returns the number of null slots.
    pub fn null_count(&self) -> usize
        ensures { result ≡ null_count_of self.now.validity }
    {
        unset_bits(&self.validity)
    }

    /// Returns whether the slot at `index` isn't null.
    pub fn is_valid(&self, index: usize) -> bool
        requires { index < self.now.len }
        ensures { result ≡ is_valid self.now.validity index }
    {
        is_valid_at(&self.validity, index)
    }

    /// Returns whether the slot at `index` is null.
    pub fn is_null(&self, index: usize) -> bool
        requires { index < self.now.len }
        ensures { result ≡ not (is_valid self.now.validity index) }
    {
        !self.is_valid(index)
    }

    /// Returns the bytes of the slot at `index`, even if it is null.
    pub fn value(&self, index: usize) -> &[u8]
        requires { index < self.now.len }
        ensures { result.now ≡ part (index * self.now.size) self.now.size self.now.values }
    {
        prove!(self.size <= self.values.len());
        let start = index * self.size;
        &self.values.as_slice()[start..start + self.size]
    }

    /// Returns the `len` slots from `offset`, in the same memory. It allocates nothing.
    pub fn sliced(self, offset: usize, len: usize) -> Self
        requires { offset + len ≤ self.len }
        ensures { result ≡ cut_fixed offset len self }
    {
        let FixedSizeBinaryArray {
            data_type,
            size,
            values,
            validity,
            ..
        } = self;
        FixedSizeBinaryArray {
            data_type,
            size,
            len,
            values: values.sliced(offset * size, len * size),
            validity: sliced_validity(validity, offset, len),
        }
    }

    /// Returns the `len` slots from `offset`, as [`FixedSizeBinaryArray::sliced`] does.
    ///
    /// It is `None` if the array hasn't all of them; the array is dropped then.
    pub fn try_sliced(self, offset: usize, len: usize) -> Option<Self>
        ensures { SomeIff result
            (offset + len ≤ self.len)
            (cut_fixed offset len self) }
    {
        if !is_range(offset, len, self.len()) {
            return None;
        }
        Some(self.sliced(offset, len))
    }

    /// Returns the bytes of the slot at `index`, or `None` if it is null.
    pub fn get(&self, index: usize) -> Option<&[u8]>
        requires { index < self.now.len }
        ensures { option_copied result ≡ option_where (is_valid self.now.validity index) (part (index * self.now.size) self.now.size self.now.values) }
    {
        if self.is_valid(index) {
            Some(self.value(index))
        } else {
            None
        }
    }

    /// Iterates over the slots, with `None` for a null.
    pub fn iter(&self) -> FixedSizeBinaryIter<'_>
        ensures { result ≡ options self.now.validity (pieces self.now) }
    {
        FixedSizeBinaryIter {
            array: self,
            index: 0,
        }
    }

    /// Returns the number of bytes that stay allocated as long as the array exists.
    ///
    /// See [`Buffer::retained_bytes`](lower::buffer::Buffer::retained_bytes). Memory that several
    /// of its buffers share counts for each.
    pub fn retained_bytes(&self) -> usize
        ensures { min (length self.now.values) (2 ^ 64 - 1) ≤ result }
    {
        self.values
            .retained_bytes()
            .saturating_add(validity_bytes(&self.validity))
    }

    /// Returns an array of the same slots in memory of its own.
    ///
    /// It fails only if an allocation fails.
    pub fn compact(&self, alloc: Global) -> Result<Self, AllocError>
        ensures { IfOk result (λ copy. copy ≡ self.now) }
    {
        Ok(FixedSizeBinaryArray {
            data_type: self.data_type.clone()?,
            size: self.size,
            len: self.len,
            values: self.values.compact(alloc)?,
            validity: compact_validity(alloc, &self.validity)?,
        })
    }
}

impl Clone for FixedSizeBinaryArray {
    ghost is_clone = { λ a b. b ≡ a };

    /// Returns an array of the same slots, in the same memory.
    ///
    /// It fails if an allocation fails or the count of owners can't grow.
    fn clone(&self) -> Result<Self, AllocError> {
        Ok(FixedSizeBinaryArray {
            data_type: self.data_type.clone()?,
            size: self.size,
            len: self.len,
            values: self.values.clone()?,
            validity: clone_validity(&self.validity)?,
        })
    }
}

/// An iterator over the slots of a [`FixedSizeBinaryArray`].
///
/// Its model is the list of those that are left.
#[derive(Drop)]
pub struct FixedSizeBinaryIter<'a> {
    array: &'a FixedSizeBinaryArray,
    index: usize,
}

impl<'a> Model for FixedSizeBinaryIter<'a> {
    ghost use Rattle.std.specs.Prelude.{ℕ, List, Option, drop};
    ghost use Rattle.lower_flat_arrays.specs.Options.{options, pieces};

    ghost Value = { List (Option (List ℕ)) };

    ghost view = { λ a. drop a.index (options a.array.now.validity (pieces a.array.now)) };
}

impl<'a> Iterator for FixedSizeBinaryIter<'a> {
    type Item = Option<&'a [u8]>;

    ghost next_gives = { YieldsFirstBy (λ item. option_copied item) (λ rest. rest) };

    ghost remaining = { item_count (λ rest. rest) };

    #[tactic(auto, using(crate::proofs::OptionSteps::given_steps))]
    fn next(&mut self) -> Option<Option<&'a [u8]>> {
        let index = self.index;
        if index >= self.array.len() {
            return None;
        }
        self.index += 1;
        Some(self.array.get(index))
    }
}

impl<'a> IntoIterator for &'a FixedSizeBinaryArray {
    type Item = Option<&'a [u8]>;

    type IntoIter = FixedSizeBinaryIter<'a>;

    ghost into_iter_gives = { λ array rest. rest ≡ options array.now.validity (pieces array.now) };

    fn into_iter(self) -> FixedSizeBinaryIter<'a> {
        self.iter()
    }
}

/// Prints the data type, and the slots as a list.
impl fmt::Debug for FixedSizeBinaryArray {
    fn fmt<W: fmt::Write>(&self, f: &mut fmt::Formatter<W>) -> fmt::Result {
        fmt::Debug::fmt(&self.data_type, f)?;
        f.debug_list().entries(self.iter()).finish()
    }
}
