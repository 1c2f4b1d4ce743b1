//! Arrays of lists.
ghost use Rattle.std.specs.Prelude.{◌≡◌, ◌+◌, ◌-◌, ◌<◌, ◌≤◌, ◌↔◌, MatchResult, IsTrue, IfOk, slice_index, SomeIff};
ghost use Rattle.std.specs.Option.{option_copied};
ghost use Rattle.lower.specs.TypeViews.{type_view};
ghost use Rattle.lower_flat_arrays.specs.Validities.{null_count_of, is_valid};
ghost use Rattle.lower_flat_arrays.specs.Spans.{span_count};
ghost use Rattle.lower_arrays.specs.Slots.{IsArray};
ghost use Rattle.lower_arrays.specs.Cuts.{cut};
ghost use Rattle.lower_arrays.specs.Lists.{list_places, list_width, list_seen, list_layout, cut_list, BreaksList};
ghost use Rattle.lower_arrays.specs.AnyLayouts.{layout_of};
ghost use Rattle.lower_types.specs.declared.PrimitiveType.TheVariants.{Int32, Int64};
ghost use Rattle.lower_arrays.specs.declared.array.AnyArray.TheVariants.{List as ListOf, LargeList};

use super::AnyArray;
use lower::bitmap::Bitmap;
use lower::datatypes::DataType;
use lower::error::Error;
use lower_flat_arrays::ranges::is_range;
use lower_flat_arrays::validity::{
    clone_validity, compact_validity, is_valid_at, sliced_validity, unset_bits, validity_bytes,
};
use lower_validation::offsets::ListOffsets;
use lower_validation::rules::check_list;
use std::alloc::{AllocError, Global};
use std::marker::Model;

/// An array of lists (Arrow columnar format, "Variable-size List Layout").
///
/// With 64-bit offsets its data type is a large one.
#[cycle(arrays)]
#[derive(Drop)]
pub struct ListArray {
    data_type: DataType,
    offsets: ListOffsets,
    values: Box<AnyArray>,
    validity: Option<Bitmap>,
}

impl Model for ListArray {
    ghost use Rattle.std.specs.Prelude.{◌+◌};
    ghost use Rattle.lower_arrays.specs.Lists.{ListSeen, coded_list_seen, list_seen, list_places, list_width, list_layout};

    ghost Value = { ListSeen };

    ghost coded = { coded_list_seen };

    ghost use Rattle.lower.specs.TypeViews.{type_view};
    ghost use Rattle.lower_arrays.specs.Layouts.{height};
    ghost use Rattle.lower_arrays.specs.Slots.{IsArray};
    ghost use Rattle.lower_arrays.specs.AnyLayouts.{layout_of};

    ghost view = { λ a. list_seen (type_view a.data_type) (list_width a.offsets) (list_places a.offsets) (layout_of a.values.value) a.validity };

    ghost invariant = { λ a. IsArray (list_layout (list_seen (type_view a.data_type) (list_width a.offsets) (list_places a.offsets) (layout_of a.values.value) a.validity)) };

    ghost size = { λ s. height s.child + 1 };

    ghost use Rattle.lower_arrays.specs.Falls.{one_child};

    ghost size_decreases = { λ a h. one_child a.values.value };
}

impl ListArray {
    /// Returns an array of lists: slot `i` is between offsets `i` and `i + 1`.
    ///
    /// A slot is null if its bit in `validity` isn't set. Errors, each as `Error::OutOfSpec`:
    ///
    /// - `Rule::ValidityLength`: `validity` has another number of bits than there are lists.
    /// - `Rule::OffsetsPastValues`: the last offset is greater than the number of slots of
    ///   `values`.
    /// - `Rule::PhysicalType`: `data_type` isn't one of lists with such offsets.
    /// - `Rule::ChildType`: `values` has another type than the field in `data_type`.
    #[tactic(auto, using(crate::proofs::Checked::lists))]
    pub fn try_new(
        data_type: DataType,
        offsets: ListOffsets,
        values: Box<AnyArray>,
        validity: Option<Bitmap>,
    ) -> Result<Self, Error>
        ensures { let seen = list_seen (type_view data_type) (list_width offsets) (list_places offsets) (layout_of values.value) validity in
            MatchResult result (λ a. (a ≡ seen) × IsArray (list_layout seen)) (BreaksList seen) }
    {
        check_list(
            &data_type,
            &offsets,
            values.data_type(),
            values.len(),
            &validity,
        )?;
        Ok(ListArray {
            data_type,
            offsets,
            values,
            validity,
        })
    }

    /// Returns the data type.
    pub fn data_type(&self) -> &DataType
        ensures tree { type_view result.now ≡ self.now.type }
        ensures valid { IsArray (list_layout self.now) }
    {
        &self.data_type
    }

    /// Returns the offsets, one more than there are slots.
    pub fn offsets(&self) -> &ListOffsets
        ensures places { list_places result.now ≡ self.now.offsets }
        ensures width { list_width result.now ≡ self.now.width }
        ensures valid { IsArray (list_layout self.now) }
    {
        &self.offsets
    }

    /// Returns the child that the offsets point into. It may have slots of no list.
    pub fn values(&self) -> &AnyArray
        ensures child { layout_of result.now ≡ self.now.child }
        ensures valid { IsArray (list_layout self.now) }
    {
        &self.values
    }

    /// Returns the validity bitmap, or `None` if there is none: all slots are valid.
    pub fn validity(&self) -> Option<&Bitmap>
        ensures bits { option_copied result ≡ self.now.validity }
        ensures valid { IsArray (list_layout self.now) }
    {
        self.validity.as_ref()
    }

    /// Returns the number of slots.
    pub fn len(&self) -> usize
        ensures len { result ≡ span_count self.now.offsets }
        ensures valid { IsArray (list_layout self.now) }
    {
        self.offsets.len() - 1
    }

    /// Returns whether there is no slot.
    pub fn is_empty(&self) -> bool
        ensures { IsTrue result ↔ (span_count self.now.offsets ≡ 0) }
    {
        self.offsets.len() == 1
    }

    /// Returns the number of null slots.
    pub fn null_count(&self) -> usize
        ensures { result ≡ null_count_of self.now.validity }
    {
        unset_bits(&self.validity)
    }

    /// Returns whether the slot at `index` isn't null.
    pub fn is_valid(&self, index: usize) -> bool
        requires { index < span_count self.now.offsets }
        ensures { result ≡ is_valid self.now.validity index }
    {
        is_valid_at(&self.validity, index)
    }

    /// Returns the `len` slots from `offset`, with the same child. It allocates nothing.
    pub fn sliced(self, offset: usize, len: usize) -> Self
        requires { offset + len ≤ span_count self.offsets }
        ensures { result ≡ cut_list offset len self }
    {
        let ListArray {
            data_type,
            offsets,
            values,
            validity,
        } = self;
        ListArray {
            data_type,
            offsets: offsets.sliced(offset, len),
            values,
            validity: sliced_validity(validity, offset, len),
        }
    }

    /// Returns the `len` slots from `offset`, as [`ListArray::sliced`] does.
    ///
    /// It is `None` if the array hasn't all of them; the array is dropped then.
    pub fn try_sliced(self, offset: usize, len: usize) -> Option<Self>
        ensures { SomeIff result
            (offset + len ≤ span_count self.offsets)
            (cut_list offset len self) }
    {
        if !is_range(offset, len, self.len()) {
            return None;
        }
        Some(self.sliced(offset, len))
    }

    /// Returns the list at `index`, even if it is null.
    ///
    /// It is a slice of the child. It fails only if a clone of the child does.
    #[tactic(auto, using(lower_flat_arrays::proofs::SpanPlaces::offset_next, lower_flat_arrays::proofs::SpanPlaces::offset_last))]
    pub fn value(&self, index: usize) -> Result<AnyArray, AllocError>
        requires { index < span_count self.now.offsets }
        ensures { let start = slice_index self.now.offsets index in
            IfOk result (λ list. layout_of list ≡ cut start (slice_index self.now.offsets (index + 1) - start) self.now.child) }
    {
        prove!(index < self.len());
        let start = self.offsets.get(index);
        let end = self.offsets.get(index + 1);
        Ok(self.values().clone()?.sliced(start, end - start))
    }

    /// Returns the array as `LargeList` if its offsets have 64 bits, else as `List`.
    pub fn boxed(self) -> AnyArray
        ensures layout { layout_of result ≡ list_layout self }
        ensures small { self.width ≡ Int32 → result ≡ ListOf self }
        ensures large { self.width ≡ Int64 → result ≡ LargeList self }
    {
        match &self.offsets {
            ListOffsets::Small(_) => AnyArray::List(self),
            ListOffsets::Large(_) => AnyArray::LargeList(self),
        }
    }

    // A clone.
    #[cycle(copies)]
    pub(super) fn copy(&self) -> Result<Self, AllocError>
        ensures { IfOk result (λ copy. copy ≡ self.now) }
    {
        Ok(ListArray {
            data_type: self.data_type.clone()?,
            offsets: self.offsets.clone()?,
            values: Box::new(*Box::allocator(&self.values), self.values.copy()?)?,
            validity: clone_validity(&self.validity)?,
        })
    }

    /// Returns the number of bytes that stay allocated as long as the array exists.
    ///
    /// As [`AnyArray::retained_bytes`].
    #[cycle(retains)]
    pub fn retained_bytes(&self) -> usize {
        self.offsets
            .retained_bytes()
            .saturating_add(self.values.retained_bytes())
            .saturating_add(validity_bytes(&self.validity))
    }

    /// Returns an array of the same slots in memory of its own.
    ///
    /// It fails only if an allocation fails.
    #[cycle(compacts)]
    pub fn compact(&self, alloc: Global) -> Result<Self, AllocError>
        ensures { IfOk result (λ copy. copy ≡ self.now) }
    {
        Ok(ListArray {
            data_type: self.data_type.clone()?,
            offsets: self.offsets.compact(alloc)?,
            values: Box::new(alloc, self.values.compact(alloc)?)?,
            validity: compact_validity(alloc, &self.validity)?,
        })
    }
}

impl Clone for ListArray {
    ghost is_clone = { λ a b. b ≡ a };

    /// Returns an array of the same slots, in the same memory.
    ///
    /// It fails if an allocation fails or the count of owners can't grow.
    fn clone(&self) -> Result<Self, AllocError> {
        self.copy()
    }
}
