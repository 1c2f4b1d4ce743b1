//! Arrays of structs.
ghost use Rattle.std.specs.Prelude.{◌≡◌, ◌+◌, ◌<◌, ◌≤◌, ◌↔◌, map, MatchResult, IsTrue, IfOk, SomeIff};
ghost use Rattle.std.specs.Option.{option_copied};
ghost use Rattle.lower.specs.TypeViews.{type_view};
ghost use Rattle.lower_flat_arrays.specs.Validities.{null_count_of, is_valid};
ghost use Rattle.lower_arrays.specs.Slots.{IsArray};
ghost use Rattle.lower_arrays.specs.Structs.{struct_seen, struct_layout, cut_struct, BreaksStruct};
ghost use Rattle.lower_arrays.specs.AnyLayouts.{layout_of};

use super::AnyArray;
use super::children::{compact_each, copy_each, retained_each, sliced_each};
use lower::bitmap::Bitmap;
use lower::datatypes::DataType;
use lower::error::Error;
use lower_flat_arrays::ranges::is_range;
use lower_flat_arrays::validity::{
    clone_validity, compact_validity, is_valid_at, sliced_validity, unset_bits, validity_bytes,
};
use lower_validation::rules::check_struct;
use std::alloc::{AllocError, Global};
use std::marker::Model;

/// An array of structs: each slot is one slot of each child.
///
/// Arrow columnar format, "Struct Layout".
#[cycle(arrays)]
#[derive(Drop)]
pub struct StructArray {
    data_type: DataType,
    len: usize,
    values: Vec<AnyArray>,
    validity: Option<Bitmap>,
}

impl Model for StructArray {
    ghost use Rattle.std.specs.Prelude.{map};
    ghost use Rattle.lower_arrays.specs.Structs.{StructSeen, coded_struct_seen, struct_layout};

    ghost Value = { StructSeen };

    ghost coded = { coded_struct_seen };

    ghost use Rattle.lower.specs.TypeViews.{type_view};
    ghost use Rattle.lower_arrays.specs.Layouts.{heights, layouts};
    ghost use Rattle.lower_arrays.specs.Slots.{IsArray};
    ghost use Rattle.lower_arrays.specs.AnyLayouts.{layout_of};

    ghost view = { λ a. record { type = type_view a.data_type; len = a.len; children = map layout_of a.values.items; validity = a.validity } };

    ghost invariant = { λ a. IsArray (struct_layout (record { type = type_view a.data_type; len = a.len; children = map layout_of a.values.items; validity = a.validity })) };

    ghost size = { λ s. heights (layouts s.children) };

    ghost use Rattle.std.proofs.Common.{arith};
    ghost use Rattle.lower_arrays.specs.Falls.{most_le-heights};

    ghost size_decreases = { λ a h. omega (arith, most_le-heights a.values.items) };
}

impl StructArray {
    /// Returns an array of structs of the children's slots.
    ///
    /// A slot is null if its bit in `validity` isn't set. Errors, each as `Error::OutOfSpec`:
    ///
    /// - `Rule::NoChild`: there is no child.
    /// - `Rule::PhysicalType`: `data_type` isn't a struct.
    /// - `Rule::ChildCount`: there are not as many children as fields.
    /// - `Rule::ValidityLength`: `validity` has another number of bits than there are slots.
    /// - `Rule::ChildType`: a child has another type than its field.
    /// - `Rule::ChildLength`: a child has another length than the first one.
    #[tactic(auto, using(crate::proofs::Checked::structs))]
    pub fn try_new(
        data_type: DataType,
        values: Vec<AnyArray>,
        validity: Option<Bitmap>,
    ) -> Result<Self, Error>
        ensures { let seen = struct_seen (type_view data_type) (map layout_of values.items) validity in
            MatchResult result (λ a. (a ≡ seen) × IsArray (struct_layout seen)) (BreaksStruct seen) }
    {
        let len = check_struct(&data_type, &values, &validity)?;
        Ok(StructArray {
            data_type,
            len,
            values,
            validity,
        })
    }

    /// Returns the data type.
    pub fn data_type(&self) -> &DataType
        ensures tree { type_view result.now ≡ self.now.type }
        ensures valid { IsArray (struct_layout self.now) }
    {
        &self.data_type
    }

    /// Returns the children, each with as many slots as the array.
    pub fn values(&self) -> &[AnyArray]
        ensures children { map layout_of result.now ≡ self.now.children }
        ensures valid { IsArray (struct_layout self.now) }
    {
        &self.values
    }

    /// Returns the validity bitmap, or `None` if there is none: all slots are valid.
    pub fn validity(&self) -> Option<&Bitmap>
        ensures bits { option_copied result ≡ self.now.validity }
        ensures valid { IsArray (struct_layout self.now) }
    {
        self.validity.as_ref()
    }

    /// Returns the number of slots.
    pub fn len(&self) -> usize
        ensures len { result ≡ self.now.len }
        ensures valid { IsArray (struct_layout self.now) }
    {
        self.len
    }

    /// Returns whether there is no slot.
    pub fn is_empty(&self) -> bool
        ensures { IsTrue result ↔ (self.now.len ≡ 0) }
    {
        self.len == 0
    }

    /// Returns the number of null slots.
    pub fn null_count(&self) -> usize
        ensures { result ≡ null_count_of self.now.validity }
    {
        unset_bits(&self.validity)
    }

    /// Returns whether the slot at `index` isn't null.
    pub fn is_valid(&self, index: usize) -> bool
        requires { index < self.now.len }
        ensures { result ≡ is_valid self.now.validity index }
    {
        is_valid_at(&self.validity, index)
    }

    /// Returns the `len` slots from `offset`, of each child. It allocates nothing.
    #[cycle(slices)]
    pub fn sliced(self, offset: usize, len: usize) -> Self
        requires { offset + len ≤ self.len }
        ensures { result ≡ cut_struct offset len self }
    {
        let StructArray {
            data_type,
            values,
            validity,
            ..
        } = self;
        StructArray {
            data_type,
            len,
            values: sliced_each(values, offset, len),
            validity: sliced_validity(validity, offset, len),
        }
    }

    /// Returns the `len` slots from `offset`, as [`StructArray::sliced`] does.
    ///
    /// It is `None` if the array hasn't all of them; the array is dropped then.
    pub fn try_sliced(self, offset: usize, len: usize) -> Option<Self>
        ensures { SomeIff result
            (offset + len ≤ self.len)
            (cut_struct offset len self) }
    {
        if !is_range(offset, len, self.len()) {
            return None;
        }
        Some(self.sliced(offset, len))
    }

    // A clone.
    #[cycle(copies)]
    pub(super) fn copy(&self) -> Result<Self, AllocError>
        ensures { IfOk result (λ copy. copy ≡ self.now) }
    {
        Ok(StructArray {
            data_type: self.data_type.clone()?,
            len: self.len,
            values: copy_each(*self.values.allocator(), &self.values)?,
            validity: clone_validity(&self.validity)?,
        })
    }

    /// Returns the number of bytes that stay allocated as long as the array exists.
    ///
    /// As [`AnyArray::retained_bytes`].
    #[cycle(retains)]
    pub fn retained_bytes(&self) -> usize {
        retained_each(&self.values).saturating_add(validity_bytes(&self.validity))
    }

    /// Returns an array of the same slots in memory of its own.
    ///
    /// It fails only if an allocation fails.
    #[cycle(compacts)]
    pub fn compact(&self, alloc: Global) -> Result<Self, AllocError>
        ensures { IfOk result (λ copy. copy ≡ self.now) }
    {
        Ok(StructArray {
            data_type: self.data_type.clone()?,
            len: self.len,
            values: compact_each(alloc, &self.values)?,
            validity: compact_validity(alloc, &self.validity)?,
        })
    }
}

impl Clone for StructArray {
    ghost is_clone = { λ a b. b ≡ a };

    /// Returns an array of the same slots, in the same memory.
    ///
    /// It fails if an allocation fails or the count of owners can't grow.
    fn clone(&self) -> Result<Self, AllocError> {
        self.copy()
    }
}
