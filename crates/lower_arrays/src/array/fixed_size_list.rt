//! Arrays of lists of one length.
ghost use Rattle.std.specs.Prelude.{◌≡◌, ◌+◌, ◌*◌, ◌<◌, ◌≤◌, ◌↔◌, MatchResult, IsTrue, IfOk, SomeIff};
ghost use Rattle.std.specs.Option.{option_copied};
ghost use Rattle.lower.specs.TypeViews.{type_view};
ghost use Rattle.lower_flat_arrays.specs.Validities.{null_count_of, is_valid};
ghost use Rattle.lower_arrays.specs.Slots.{IsArray};
ghost use Rattle.lower_validation.specs.ListTypes.{list_size};
ghost use Rattle.lower_arrays.specs.FixedLists.{fixed_list_seen, fixed_list_layout, cut_fixed_list, BreaksFixedList};
ghost use Rattle.lower_arrays.specs.AnyLayouts.{layout_of};

use super::AnyArray;
use lower::bitmap::Bitmap;
use lower::datatypes::DataType;
use lower::error::Error;
use lower_flat_arrays::ranges::is_range;
use lower_flat_arrays::validity::{
    clone_validity, compact_validity, is_valid_at, sliced_validity, unset_bits, validity_bytes,
};
use lower_validation::fields::list_size;
use lower_validation::rules::check_fixed_list;
use std::alloc::{AllocError, Global};
use std::marker::Model;

/// An array of lists of one length (Arrow columnar format, "Fixed-Size List Layout").
#[cycle(arrays)]
#[derive(Drop)]
pub struct FixedSizeListArray {
    data_type: DataType,
    size: usize,
    len: usize,
    values: Box<AnyArray>,
    validity: Option<Bitmap>,
}

impl Model for FixedSizeListArray {
    ghost use Rattle.std.specs.Prelude.{◌+◌};
    ghost use Rattle.lower_arrays.specs.FixedLists.{FixedListSeen, coded_fixed_list_seen, fixed_list_layout};

    ghost Value = { FixedListSeen };

    ghost coded = { coded_fixed_list_seen };

    ghost use Rattle.lower.specs.TypeViews.{type_view};
    ghost use Rattle.lower_arrays.specs.Layouts.{height};
    ghost use Rattle.lower_arrays.specs.Slots.{IsArray};
    ghost use Rattle.lower_arrays.specs.AnyLayouts.{layout_of};

    ghost view = { λ a. record { type = type_view a.data_type; size = a.size; len = a.len; child = layout_of a.values.value; validity = a.validity } };

    ghost invariant = { λ a. IsArray (fixed_list_layout (record { type = type_view a.data_type; size = a.size; len = a.len; child = layout_of a.values.value; validity = a.validity })) };

    ghost size = { λ s. height s.child + 1 };

    ghost use Rattle.lower_arrays.specs.Falls.{one_child};

    ghost size_decreases = { λ a h. one_child a.values.value };
}

impl FixedSizeListArray {
    /// Returns an array of lists that the slots of the child make up.
    ///
    /// A slot is null if its bit in `validity` isn't set. Errors, each as `Error::OutOfSpec`:
    ///
    /// - `Rule::PhysicalType`: `data_type` isn't one of lists of one length.
    /// - `Rule::ZeroSize`: this length is 0.
    /// - `Rule::ChildLength`: the number of slots of `values` isn't a multiple of it.
    /// - `Rule::ChildType`: `values` has another type than the field in `data_type`.
    /// - `Rule::ValidityLength`: `validity` has another number of bits than there are lists.
    #[tactic(auto, using(crate::proofs::Checked::fixed_lists))]
    pub fn try_new(
        data_type: DataType,
        values: Box<AnyArray>,
        validity: Option<Bitmap>,
    ) -> Result<Self, Error>
        ensures { let seen = fixed_list_seen (type_view data_type) (layout_of values.value) validity in
            MatchResult result (λ a. (a ≡ seen) × IsArray (fixed_list_layout seen)) (BreaksFixedList seen) }
    {
        check_fixed_list(&data_type, values.data_type(), values.len(), &validity)?;
        let size = list_size(&data_type);
        let len = values.len() / size;
        Ok(FixedSizeListArray {
            data_type,
            size,
            len,
            values,
            validity,
        })
    }

    /// Returns the data type.
    pub fn data_type(&self) -> &DataType
        ensures tree { type_view result.now ≡ self.now.type }
        ensures valid { IsArray (fixed_list_layout self.now) }
    {
        &self.data_type
    }

    /// Returns the number of slots of the child in each list.
    pub fn size(&self) -> usize
        ensures size { result ≡ self.now.size }
        ensures valid { IsArray (fixed_list_layout self.now) }
    {
        self.size
    }

    /// Returns the child: the slots of all lists, which include those of each null.
    pub fn values(&self) -> &AnyArray
        ensures child { layout_of result.now ≡ self.now.child }
        ensures valid { IsArray (fixed_list_layout self.now) }
    {
        &self.values
    }

    /// Returns the validity bitmap, or `None` if there is none: all slots are valid.
    pub fn validity(&self) -> Option<&Bitmap>
        ensures bits { option_copied result ≡ self.now.validity }
        ensures valid { IsArray (fixed_list_layout self.now) }
    {
        self.validity.as_ref()
    }

    /// Returns the number of slots.
    pub fn len(&self) -> usize
        ensures len { result ≡ self.now.len }
        ensures valid { IsArray (fixed_list_layout self.now) }
    {
        self.len
    }

    /// Returns whether there is no slot.
    pub fn is_empty(&self) -> bool
        ensures { IsTrue result ↔ (self.now.len ≡ 0) }
    {
        self.len == 0
    }

    /// Returns the number of null slots.
    pub fn null_count(&self) -> usize
        ensures { result ≡ null_count_of self.now.validity }
    {
        unset_bits(&self.validity)
    }

    /// Returns whether the slot at `index` isn't null.
    pub fn is_valid(&self, index: usize) -> bool
        requires { index < self.now.len }
        ensures { result ≡ is_valid self.now.validity index }
    {
        is_valid_at(&self.validity, index)
    }

    /// Returns the `len` slots from `offset`, with their slots of the child. It allocates nothing.
    #[cycle(slices)]
    pub fn sliced(self, offset: usize, len: usize) -> Self
        requires { offset + len ≤ self.len }
        ensures { result ≡ cut_fixed_list offset len self }
    {
        let FixedSizeListArray {
            data_type,
            size,
            mut values,
            validity,
            ..
        } = self;
        let _slots = values.len();
        values.slice(offset * size, len * size);
        FixedSizeListArray {
            data_type,
            size,
            len,
            values,
            validity: sliced_validity(validity, offset, len),
        }
    }

    /// Returns the `len` slots from `offset`, as [`FixedSizeListArray::sliced`] does.
    ///
    /// It is `None` if the array hasn't all of them; the array is dropped then.
    pub fn try_sliced(self, offset: usize, len: usize) -> Option<Self>
        ensures { SomeIff result
            (offset + len ≤ self.len)
            (cut_fixed_list offset len self) }
    {
        if !is_range(offset, len, self.len()) {
            return None;
        }
        Some(self.sliced(offset, len))
    }

    // A clone.
    #[cycle(copies)]
    pub(super) fn copy(&self) -> Result<Self, AllocError>
        ensures { IfOk result (λ copy. copy ≡ self.now) }
    {
        Ok(FixedSizeListArray {
            data_type: self.data_type.clone()?,
            size: self.size,
            len: self.len,
            values: Box::new(*Box::allocator(&self.values), self.values.copy()?)?,
            validity: clone_validity(&self.validity)?,
        })
    }

    /// Returns the number of bytes that stay allocated as long as the array exists.
    ///
    /// As [`AnyArray::retained_bytes`].
    #[cycle(retains)]
    pub fn retained_bytes(&self) -> usize {
        self.values
            .retained_bytes()
            .saturating_add(validity_bytes(&self.validity))
    }

    /// Returns an array of the same slots in memory of its own.
    ///
    /// It fails only if an allocation fails.
    #[cycle(compacts)]
    pub fn compact(&self, alloc: Global) -> Result<Self, AllocError>
        ensures { IfOk result (λ copy. copy ≡ self.now) }
    {
        Ok(FixedSizeListArray {
            data_type: self.data_type.clone()?,
            size: self.size,
            len: self.len,
            values: Box::new(alloc, self.values.compact(alloc)?)?,
            validity: compact_validity(alloc, &self.validity)?,
        })
    }
}

impl Clone for FixedSizeListArray {
    ghost is_clone = { λ a b. b ≡ a };

    /// Returns an array of the same slots, in the same memory.
    ///
    /// It fails if an allocation fails or the count of owners can't grow.
    fn clone(&self) -> Result<Self, AllocError> {
        self.copy()
    }
}
