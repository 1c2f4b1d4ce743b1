//! Arrays of unions.
ghost use Rattle.std.specs.Prelude.{◌≡◌, ◌↔◌, pos, None, ◌+◌, ◌<◌, ◌≤◌, length, map, get_or, IsTrue, IfOk, MatchResult, SomeIff};
ghost use Rattle.std.specs.Option.{option_copied};
ghost use Rattle.lower.specs.TypeViews.{type_view};
ghost use Rattle.lower_arrays.specs.Layouts.{layouts, len_of};
ghost use Rattle.lower_validation.specs.Ids.{union_ids, child_number};
ghost use Rattle.lower_arrays.specs.Children.{child_count};
ghost use Rattle.lower_arrays.specs.Choices.{child, place_in};
ghost use Rattle.lower_arrays.specs.Unions.{union_seen, IsUnion, BreaksUnion, cut_union};
ghost use Rattle.lower_arrays.specs.AnyLayouts.{layout_of};

use super::AnyArray;
use super::children::{compact_each, copy_each, retained_each, sliced_each};
use lower::bitmap::Bitmap;
use lower::buffer::Buffer;
use lower::datatypes::DataType;
use lower::error::Error;
use lower_flat_arrays::ranges::is_range;
use lower_validation::ids::{child_number, union_ids};
use lower_validation::places::{clone_offsets, compact_offsets, offsets_bytes};
use lower_validation::rules::check_union;
use std::alloc::{AllocError, Global};
use std::marker::Model;

/// An array of unions: each slot is one slot of one child.
///
/// Arrow columnar format, "Union Layout". The type id of a slot selects its child. Slot `i` of a
/// sparse union is slot `i` of its child; slot `i` of a dense one is the slot at offset `i`.
#[cycle(arrays)]
#[derive(Drop)]
pub struct UnionArray {
    data_type: DataType,
    types: Buffer<i8>,
    fields: Vec<AnyArray>,
    offsets: Option<Buffer<i32>>,
}

impl Model for UnionArray {
    ghost use Rattle.std.specs.Prelude.{map};
    ghost use Rattle.lower_arrays.specs.Unions.{UnionSeen, coded_union, IsUnion};

    ghost Value = { UnionSeen };

    ghost coded = { coded_union };

    ghost use Rattle.lower.specs.TypeViews.{type_view};
    ghost use Rattle.lower_arrays.specs.Layouts.{heights, layouts};
    ghost use Rattle.lower_arrays.specs.AnyLayouts.{layout_of};

    ghost view = { λ a. record { type = type_view a.data_type; types = a.types; offsets = a.offsets; children = map layout_of a.fields.items } };

    ghost invariant = { λ a. IsUnion (record { type = type_view a.data_type; types = a.types; offsets = a.offsets; children = map layout_of a.fields.items }) };

    ghost size = { λ s. heights (layouts s.children) };

    ghost use Rattle.std.proofs.Common.{arith};
    ghost use Rattle.lower_arrays.specs.Falls.{most_le-heights};

    ghost size_decreases = { λ a h. omega (arith, most_le-heights a.fields.items) };
}

impl UnionArray {
    /// Returns an array whose slot `i` is of the child with type id `types[i]`.
    ///
    /// It is the child's slot `i` without offsets, else its slot at offset `i`. Errors, each as
    /// `Error::OutOfSpec`:
    ///
    /// - `Rule::PhysicalType`: `data_type` isn't a union.
    /// - `Rule::UnionChildren`: there are no children, or more than 127.
    /// - `Rule::ChildCount`: there are not as many children as fields.
    /// - `Rule::UnionIds`: the ids in `data_type` are not one for each child, not distinct, or not
    ///   from 0 to 126.
    /// - `Rule::UnionType`: the type id of a slot selects no child.
    /// - `Rule::UnionOffsets`: `data_type` is dense and there is not one offset for each slot, or
    ///   it is sparse and there are offsets.
    /// - `Rule::ChildType`: a child has another type than its field.
    /// - `Rule::ChildLength`: a child of a sparse union has another length than the union.
    /// - `Rule::UnionOffset`: an offset of a dense union is negative, or not below the length of
    ///   its child.
    #[tactic(auto, using(crate::proofs::Checked::unions))]
    pub fn try_new(
        data_type: DataType,
        types: Buffer<i8>,
        fields: Vec<AnyArray>,
        offsets: Option<Buffer<i32>>,
    ) -> Result<Self, Error>
        ensures { let seen = union_seen (type_view data_type) types (map layout_of fields.items) offsets in
            MatchResult result (λ a. (a ≡ seen) × IsUnion seen) (BreaksUnion seen) }
    {
        check_union(&data_type, types.as_slice(), &offsets, &fields)?;
        Ok(UnionArray {
            data_type,
            types,
            fields,
            offsets,
        })
    }

    /// Returns the data type.
    pub fn data_type(&self) -> &DataType
        ensures tree { type_view result.now ≡ self.now.type }
        ensures valid { IsUnion self.now }
    {
        &self.data_type
    }

    /// Returns the type ids of the slots.
    pub fn types(&self) -> &Buffer<i8>
        ensures ids { result.now ≡ self.now.types }
        ensures valid { IsUnion self.now }
    {
        &self.types
    }

    /// Returns the children.
    pub fn fields(&self) -> &[AnyArray]
        ensures children { map layout_of result.now ≡ self.now.children }
        ensures valid { IsUnion self.now }
    {
        &self.fields
    }

    /// Returns the index of each slot in its child, or `None` if sparse.
    pub fn offsets(&self) -> Option<&Buffer<i32>>
        ensures places { option_copied result ≡ self.now.offsets }
        ensures valid { IsUnion self.now }
    {
        self.offsets.as_ref()
    }

    /// Returns `None`: a union has no validity bitmap.
    pub fn validity(&self) -> Option<&Bitmap>
        ensures bits { option_copied result ≡ None }
        ensures valid { IsUnion self.now }
    {
        let _ = &self.types;
        None
    }

    /// Returns the number of slots.
    pub fn len(&self) -> usize
        ensures len { result ≡ length self.now.types }
        ensures valid { IsUnion self.now }
    {
        self.types.len()
    }

    /// Returns whether there is no slot.
    pub fn is_empty(&self) -> bool
        ensures { IsTrue result ↔ (length self.now.types ≡ 0) }
    {
        self.types.len() == 0
    }

    /// Returns 0: a union has no nulls of its own, only its children have.
    pub fn null_count(&self) -> usize
        ensures { result ≡ 0 }
    {
        0
    }

    /// Returns the type id of the slot at `index`.
    pub fn type_at(&self, index: usize) -> i8
        requires { index < length self.now.types }
        ensures { result ≡ get_or self.now.types index (pos 0) }
    {
        self.types.as_slice()[index]
    }

    /// Returns the child of the slot at `index`, and the slot's index there.
    #[tactic(auto, using(crate::proofs::Unions::index_rules))]
    pub fn index(&self, index: usize) -> (usize, usize)
        requires { index < length self.now.types }
        ensures number { result.0 ≡ child_number (union_ids self.now.type) (get_or self.now.types index (pos 0)) }
        ensures place { result.1 ≡ place_in self.now.offsets index }
        ensures child { result.0 < child_count (layouts self.now.children) }
        ensures bound { result.1 < len_of (child (layouts self.now.children) result.0) }
    {
        let number = child_number(union_ids(self.data_type()), self.type_at(index));
        match self.offsets() {
            None => (number, index),
            Some(offsets) => (number, offsets.as_slice()[index].cast_unsigned() as usize),
        }
    }

    /// Returns the `len` slots from `offset`. It allocates nothing.
    ///
    /// A sparse union slices each child. A dense one slices its offsets, and keeps its children
    /// whole.
    #[cycle(slices)]
    pub fn sliced(self, offset: usize, len: usize) -> Self
        requires { offset + len ≤ length self.types }
        ensures { result ≡ cut_union offset len self }
    {
        let UnionArray {
            data_type,
            types,
            fields,
            offsets,
        } = self;
        let types = types.sliced(offset, len);
        match offsets {
            None => UnionArray {
                data_type,
                types,
                fields: sliced_each(fields, offset, len),
                offsets: None,
            },
            Some(offsets) => UnionArray {
                data_type,
                types,
                fields,
                offsets: Some(offsets.sliced(offset, len)),
            },
        }
    }

    /// Returns the `len` slots from `offset`, as [`UnionArray::sliced`] does.
    ///
    /// It is `None` if the array hasn't all of them; the array is dropped then.
    pub fn try_sliced(self, offset: usize, len: usize) -> Option<Self>
        ensures { SomeIff result
            (offset + len ≤ length self.types)
            (cut_union offset len self) }
    {
        if !is_range(offset, len, self.len()) {
            return None;
        }
        Some(self.sliced(offset, len))
    }

    // A clone.
    #[cycle(copies)]
    pub(super) fn copy(&self) -> Result<Self, AllocError>
        ensures { IfOk result (λ copy. copy ≡ self.now) }
    {
        Ok(UnionArray {
            data_type: self.data_type.clone()?,
            types: self.types.clone()?,
            fields: copy_each(*self.fields.allocator(), &self.fields)?,
            offsets: clone_offsets(&self.offsets)?,
        })
    }

    /// Returns the number of bytes that stay allocated as long as the array exists.
    ///
    /// As [`AnyArray::retained_bytes`].
    #[cycle(retains)]
    pub fn retained_bytes(&self) -> usize {
        self.types
            .retained_bytes()
            .saturating_add(retained_each(&self.fields))
            .saturating_add(offsets_bytes(&self.offsets))
    }

    /// Returns an array of the same slots in memory of its own.
    ///
    /// It fails only if an allocation fails.
    #[cycle(compacts)]
    pub fn compact(&self, alloc: Global) -> Result<Self, AllocError>
        ensures { IfOk result (λ copy. copy ≡ self.now) }
    {
        Ok(UnionArray {
            data_type: self.data_type.clone()?,
            types: self.types.compact(alloc)?,
            fields: compact_each(alloc, &self.fields)?,
            offsets: compact_offsets(alloc, &self.offsets)?,
        })
    }
}

impl Clone for UnionArray {
    ghost is_clone = { λ a b. b ≡ a };

    /// Returns an array of the same slots, in the same memory.
    ///
    /// It fails if an allocation fails or the count of owners can't grow.
    fn clone(&self) -> Result<Self, AllocError> {
        self.copy()
    }
}
