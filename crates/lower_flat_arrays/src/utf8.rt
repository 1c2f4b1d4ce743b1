//! Arrays of texts.
ghost use Rattle.std.specs.Prelude.{◌≡◌, ◌+◌, ◌≤◌, MatchResult, IfOk, IsTrue, not, ◌↔◌, ◌<◌, ◌-◌, ◌^◌, length, min, SomeIff};
ghost use Rattle.std.specs.Option.{option_copied};
ghost use Rattle.std.specs.Iterator.{YieldsFirstBy, item_count};
ghost use Rattle.lower.specs.TypeViews.{type_view};
ghost use Rattle.lower_flat_arrays.specs.Options.{option_where, options, spans};
ghost use Rattle.lower_flat_arrays.specs.Validities.{null_count_of, is_valid};
ghost use Rattle.lower_flat_arrays.specs.Spans.{spans_seen, span_count, span, cut_spans};
ghost use Rattle.lower_flat_arrays.specs.Texts.{texts_with, IsText, BreaksText};

use crate::ranges::is_range;
use crate::texts::are_texts;
use crate::validity::{
    clone_validity, compact_validity, fits, is_valid_at, sliced_validity, unset_bits,
    validity_bytes,
};
use lower::bitmap::Bitmap;
use lower::buffer::Buffer;
use lower::datatypes::{DataType, PhysicalType};
use lower::error::{Error, Rule};
use lower::offset::{Offset, OffsetsBuffer};
use lower::types::PrimitiveType;
use std::alloc::{AllocError, Global};
use std::fmt;
use std::marker::Model;

/// An array of UTF-8 texts (Arrow columnar format, "Variable-size Binary Layout").
///
/// With `i64` offsets its data type is a large one.
#[derive(Drop)]
pub struct Utf8Array<O: Offset> {
    data_type: DataType,
    offsets: OffsetsBuffer<O>,
    values: Buffer<u8>,
    validity: Option<Bitmap>,
}

impl<O: Offset> Model for Utf8Array<O> {
    ghost use Rattle.lower_flat_arrays.specs.Spans.{SpansSeen, coded_spans};
    ghost use Rattle.lower_flat_arrays.specs.Texts.{IsText};
    ghost use Rattle.lower.specs.TypeViews.{type_view};

    ghost Value = { SpansSeen };

    ghost coded = { coded_spans };

    ghost view = { λ a. record { type = type_view a.data_type; offsets = a.offsets; values = a.values; validity = a.validity } };

    ghost invariant = { λ a. IsText O.primitive (record { type = type_view a.data_type; offsets = a.offsets; values = a.values; validity = a.validity }) };
}

// The layout of texts with offsets of this type.
fn texts_with(offsets: PrimitiveType) -> PhysicalType
    ensures { result ≡ texts_with offsets }
{
    match offsets {
        PrimitiveType::Int64 => PhysicalType::LargeUtf8,
        _ => PhysicalType::Utf8,
    }
}

impl<O: Offset> Utf8Array<O> {
    /// Returns an array whose slot `i` is the bytes between offsets `i` and `i + 1`.
    ///
    /// A slot is null if its bit in `validity` isn't set. Errors, each as `Error::OutOfSpec`:
    ///
    /// - `Rule::ValidityLength`: `validity` has another number of bits than there are slots.
    /// - `Rule::OffsetsPastValues`: the last offset is greater than the length of `values`.
    /// - `Rule::Utf8`: a slot, null or not, isn't UTF-8.
    /// - `Rule::PhysicalType`: `data_type` isn't one of texts with such offsets.
    pub fn try_new(
        data_type: DataType,
        offsets: OffsetsBuffer<O>,
        values: Buffer<u8>,
        validity: Option<Bitmap>,
    ) -> Result<Self, Error>
        ensures { let seen = spans_seen (type_view data_type) offsets values validity in
            MatchResult result (λ a. (a ≡ seen) × IsText O.primitive seen) (BreaksText O.primitive seen) }
    {
        if !fits(&validity, offsets.len() - 1) {
            return Err(Error::OutOfSpec(Rule::ValidityLength));
        }
        if offsets.last() > values.len() {
            return Err(Error::OutOfSpec(Rule::OffsetsPastValues));
        }
        if !are_texts(&offsets, values.as_slice()) {
            return Err(Error::OutOfSpec(Rule::Utf8));
        }
        if data_type.to_physical_type() != texts_with(O::primitive_type()) {
            return Err(Error::OutOfSpec(Rule::PhysicalType));
        }
        Ok(Utf8Array {
            data_type,
            offsets,
            values,
            validity,
        })
    }

    /// Returns the data type.
    pub fn data_type(&self) -> &DataType
        ensures tree { type_view result.now ≡ self.now.type }
        ensures valid { IsText O.primitive self.now }
    {
        &self.data_type
    }

    /// Returns the offsets, one more than there are slots.
    pub fn offsets(&self) -> &OffsetsBuffer<O>
        ensures offsets { result.now ≡ self.now.offsets }
        ensures valid { IsText O.primitive self.now }
    {
        &self.offsets
    }

    /// Returns the bytes that the offsets point into. They may include bytes of no slot.
    pub fn values(&self) -> &Buffer<u8>
        ensures bytes { result.now ≡ self.now.values }
        ensures valid { IsText O.primitive self.now }
    {
        &self.values
    }

    /// Returns the validity bitmap, or `None` if there is none: all slots are valid.
    pub fn validity(&self) -> Option<&Bitmap>
        ensures bits { option_copied result ≡ self.now.validity }
        ensures valid { IsText O.primitive self.now }
    {
        self.validity.as_ref()
    }

    /// Returns the number of slots.
    pub fn len(&self) -> usize
        ensures len { result ≡ span_count self.now.offsets }
        ensures valid { IsText O.primitive self.now }
    {
        self.offsets.len() - 1
    }

    /// Returns whether there is no slot.
    pub fn is_empty(&self) -> bool
        ensures { IsTrue result ↔ (span_count self.now.offsets ≡ 0) }
    {
        self.offsets.len() == 1
    }

    /// Returns the number of null slots.
    pub fn null_count(&self) -> usize
        ensures { result ≡ null_count_of self.now.validity }
    {
        unset_bits(&self.validity)
    }

    /// Returns whether the slot at `index` isn't null.
    pub fn is_valid(&self, index: usize) -> bool
        requires { index < span_count self.now.offsets }
        ensures { result ≡ is_valid self.now.validity index }
    {
        is_valid_at(&self.validity, index)
    }

    /// Returns whether the slot at `index` is null.
    pub fn is_null(&self, index: usize) -> bool
        requires { index < span_count self.now.offsets }
        ensures { result ≡ not (is_valid self.now.validity index) }
    {
        !self.is_valid(index)
    }

    /// Returns the text at `index`, even if the slot is null.
    #[tactic(auto, using(crate::proofs::SpanPlaces::span_places))]
    pub fn value(&self, index: usize) -> &str
        requires { index < span_count self.now.offsets }
        ensures { result.now ≡ span self.now.offsets self.now.values index }
    {
        prove!(index < self.offsets.len());
        let start = self.offsets.get(index);
        let end = self.offsets.get(index + 1);
        // The constructor checked that each slot is UTF-8.
        unsafe { str::from_utf8_unchecked(&self.values.as_slice()[start..end]) }
    }

    /// Returns the `len` slots from `offset`, in the same memory. It allocates nothing.
    ///
    /// The bytes that only other slots use are kept too.
    pub fn sliced(self, offset: usize, len: usize) -> Self
        requires { offset + len ≤ span_count self.offsets }
        ensures { result ≡ cut_spans offset len self }
    {
        let Utf8Array {
            data_type,
            offsets,
            values,
            validity,
        } = self;
        Utf8Array {
            data_type,
            offsets: offsets.sliced(offset, len),
            values,
            validity: sliced_validity(validity, offset, len),
        }
    }

    /// Returns the `len` slots from `offset`, as [`Utf8Array::sliced`] does.
    ///
    /// It is `None` if the array hasn't all of them; the array is dropped then.
    pub fn try_sliced(self, offset: usize, len: usize) -> Option<Self>
        ensures { SomeIff result
            (offset + len ≤ span_count self.offsets)
            (cut_spans offset len self) }
    {
        if !is_range(offset, len, self.len()) {
            return None;
        }
        Some(self.sliced(offset, len))
    }

    /// Returns the text at `index`, or `None` if the slot is null.
    pub fn get(&self, index: usize) -> Option<&str>
        requires { index < span_count self.now.offsets }
        ensures { option_copied result ≡ option_where (is_valid self.now.validity index) (span self.now.offsets self.now.values index) }
    {
        if self.is_valid(index) {
            Some(self.value(index))
        } else {
            None
        }
    }

    /// Iterates over the slots, with `None` for a null.
    pub fn iter(&self) -> Utf8Iter<'_, O>
        ensures { result ≡ options self.now.validity (spans self.now) }
    {
        Utf8Iter {
            array: self,
            index: 0,
        }
    }

    /// Returns the number of bytes that stay allocated as long as the array exists.
    ///
    /// See [`Buffer::retained_bytes`](lower::buffer::Buffer::retained_bytes). Memory that several
    /// of its buffers share counts for each.
    pub fn retained_bytes(&self) -> usize
        ensures { min (length self.now.values) (2 ^ 64 - 1) ≤ result }
    {
        self.offsets
            .retained_bytes()
            .saturating_add(self.values.retained_bytes())
            .saturating_add(validity_bytes(&self.validity))
    }

    /// Returns an array of the same slots in memory of its own.
    ///
    /// It fails only if an allocation fails.
    pub fn compact(&self, alloc: Global) -> Result<Self, AllocError>
        ensures { IfOk result (λ copy. copy ≡ self.now) }
    {
        Ok(Utf8Array {
            data_type: self.data_type.clone()?,
            offsets: self.offsets.compact(alloc)?,
            values: self.values.compact(alloc)?,
            validity: compact_validity(alloc, &self.validity)?,
        })
    }
}

impl<O: Offset> Clone for Utf8Array<O> {
    ghost is_clone = { λ a b. b ≡ a };

    /// Returns an array of the same slots, in the same memory.
    ///
    /// It fails if an allocation fails or the count of owners can't grow.
    fn clone(&self) -> Result<Self, AllocError> {
        Ok(Utf8Array {
            data_type: self.data_type.clone()?,
            offsets: self.offsets.clone()?,
            values: self.values.clone()?,
            validity: clone_validity(&self.validity)?,
        })
    }
}

/// An iterator over the slots of a [`Utf8Array`]. Its model is the list of those that are left.
#[derive(Drop)]
pub struct Utf8Iter<'a, O: Offset> {
    array: &'a Utf8Array<O>,
    index: usize,
}

impl<'a, O: Offset> Model for Utf8Iter<'a, O> {
    ghost use Rattle.std.specs.Prelude.{ℕ, List, Option, drop};
    ghost use Rattle.lower_flat_arrays.specs.Options.{options, spans};

    ghost Value = { List (Option (List ℕ)) };

    ghost view = { λ a. drop a.index (options a.array.now.validity (spans a.array.now)) };
}

impl<'a, O: Offset> Iterator for Utf8Iter<'a, O> {
    type Item = Option<&'a str>;

    ghost next_gives = { YieldsFirstBy (λ item. option_copied item) (λ rest. rest) };

    ghost remaining = { item_count (λ rest. rest) };

    #[tactic(auto, using(crate::proofs::OptionSteps::given_steps))]
    fn next(&mut self) -> Option<Option<&'a str>> {
        let index = self.index;
        if index >= self.array.len() {
            return None;
        }
        self.index += 1;
        Some(self.array.get(index))
    }
}

impl<'a, O: Offset> IntoIterator for &'a Utf8Array<O> {
    type Item = Option<&'a str>;

    type IntoIter = Utf8Iter<'a, O>;

    ghost into_iter_gives = { λ array rest. rest ≡ options array.now.validity (spans array.now) };

    fn into_iter(self) -> Utf8Iter<'a, O> {
        self.iter()
    }
}

/// Prints the data type, and the slots as a list.
impl<O: Offset> fmt::Debug for Utf8Array<O> {
    fn fmt<W: fmt::Write>(&self, f: &mut fmt::Formatter<W>) -> fmt::Result {
        fmt::Debug::fmt(&self.data_type, f)?;
        f.debug_list().entries(self.iter()).finish()
    }
}
