//! Arrays of maps.
ghost use Rattle.std.specs.Prelude.{◌≡◌, ◌+◌, ◌-◌, ◌<◌, ◌≤◌, ◌↔◌, MatchResult, IsTrue, IfOk, SomeIff};
ghost use Rattle.std.specs.Option.{option_copied};
ghost use Rattle.lower.specs.TypeViews.{type_view};
ghost use Rattle.lower_flat_arrays.specs.Validities.{null_count_of, is_valid};
ghost use Rattle.lower_flat_arrays.specs.Spans.{span_count};
ghost use Rattle.lower_arrays.specs.Slots.{IsArray};
ghost use Rattle.lower_arrays.specs.Maps.{map_seen, map_layout, cut_map, BreaksMap};
ghost use Rattle.lower_arrays.specs.AnyLayouts.{layout_of};

use super::AnyArray;
use lower::bitmap::Bitmap;
use lower::datatypes::DataType;
use lower::error::Error;
use lower::offset::OffsetsBuffer;
use lower_flat_arrays::ranges::is_range;
use lower_flat_arrays::validity::{
    clone_validity, compact_validity, is_valid_at, sliced_validity, unset_bits, validity_bytes,
};
use lower_validation::rules::check_map;
use std::alloc::{AllocError, Global};
use std::marker::Model;

/// An array of maps, which are lists of key-value pairs.
///
/// Arrow columnar format, "Map Layout".
#[cycle(arrays)]
#[derive(Drop)]
pub struct MapArray {
    data_type: DataType,
    offsets: OffsetsBuffer<i32>,
    field: Box<AnyArray>,
    validity: Option<Bitmap>,
}

impl Model for MapArray {
    ghost use Rattle.std.specs.Prelude.{◌+◌};
    ghost use Rattle.lower_arrays.specs.Maps.{MapSeen, coded_map_seen, map_seen, map_layout};

    ghost Value = { MapSeen };

    ghost coded = { coded_map_seen };

    ghost use Rattle.lower.specs.TypeViews.{type_view};
    ghost use Rattle.lower_arrays.specs.Layouts.{height};
    ghost use Rattle.lower_arrays.specs.Slots.{IsArray};
    ghost use Rattle.lower_arrays.specs.AnyLayouts.{layout_of};

    ghost view = { λ a. map_seen (type_view a.data_type) a.offsets (layout_of a.field.value) a.validity };

    ghost invariant = { λ a. IsArray (map_layout (map_seen (type_view a.data_type) a.offsets (layout_of a.field.value) a.validity)) };

    ghost size = { λ s. height s.child + 1 };

    ghost use Rattle.lower_arrays.specs.Falls.{one_child};

    ghost size_decreases = { λ a h. one_child a.field.value };
}

impl MapArray {
    /// Returns an array whose slot `i` is the pairs between offsets `i` and `i + 1`.
    ///
    /// A slot is null if its bit in `validity` isn't set. Errors, each as `Error::OutOfSpec`:
    ///
    /// - `Rule::ValidityLength`: `validity` has another number of bits than there are maps.
    /// - `Rule::OffsetsPastValues`: the last offset is greater than the number of pairs.
    /// - `Rule::PhysicalType`: `data_type` isn't one of maps.
    /// - `Rule::MapChild`: the type of the pairs isn't a struct of two fields.
    /// - `Rule::ChildType`: the pairs have another type than the field in `data_type`.
    #[tactic(auto, using(crate::proofs::Checked::maps))]
    pub fn try_new(
        data_type: DataType,
        offsets: OffsetsBuffer<i32>,
        field: Box<AnyArray>,
        validity: Option<Bitmap>,
    ) -> Result<Self, Error>
        ensures { let seen = map_seen (type_view data_type) offsets (layout_of field.value) validity in
            MatchResult result (λ a. (a ≡ seen) × IsArray (map_layout seen)) (BreaksMap seen) }
    {
        check_map(
            &data_type,
            &offsets,
            field.data_type(),
            field.len(),
            &validity,
        )?;
        Ok(MapArray {
            data_type,
            offsets,
            field,
            validity,
        })
    }

    /// Returns the data type.
    pub fn data_type(&self) -> &DataType
        ensures tree { type_view result.now ≡ self.now.type }
        ensures valid { IsArray (map_layout self.now) }
    {
        &self.data_type
    }

    /// Returns the offsets, one more than there are slots.
    pub fn offsets(&self) -> &OffsetsBuffer<i32>
        ensures places { result.now ≡ self.now.offsets }
        ensures valid { IsArray (map_layout self.now) }
    {
        &self.offsets
    }

    /// Returns the pairs that the offsets point into. They may include pairs of no slot.
    pub fn field(&self) -> &AnyArray
        ensures child { layout_of result.now ≡ self.now.child }
        ensures valid { IsArray (map_layout self.now) }
    {
        &self.field
    }

    /// Returns the validity bitmap, or `None` if there is none: all slots are valid.
    pub fn validity(&self) -> Option<&Bitmap>
        ensures bits { option_copied result ≡ self.now.validity }
        ensures valid { IsArray (map_layout self.now) }
    {
        self.validity.as_ref()
    }

    /// Returns the number of slots.
    pub fn len(&self) -> usize
        ensures len { result ≡ span_count self.now.offsets }
        ensures valid { IsArray (map_layout self.now) }
    {
        self.offsets.len() - 1
    }

    /// Returns whether there is no slot.
    pub fn is_empty(&self) -> bool
        ensures { IsTrue result ↔ (span_count self.now.offsets ≡ 0) }
    {
        self.offsets.len() == 1
    }

    /// Returns the number of null slots.
    pub fn null_count(&self) -> usize
        ensures { result ≡ null_count_of self.now.validity }
    {
        unset_bits(&self.validity)
    }

    /// Returns whether the slot at `index` isn't null.
    pub fn is_valid(&self, index: usize) -> bool
        requires { index < span_count self.now.offsets }
        ensures { result ≡ is_valid self.now.validity index }
    {
        is_valid_at(&self.validity, index)
    }

    /// Returns the `len` slots from `offset`, with the same pairs. It allocates nothing.
    pub fn sliced(self, offset: usize, len: usize) -> Self
        requires { offset + len ≤ span_count self.offsets }
        ensures { result ≡ cut_map offset len self }
    {
        let MapArray {
            data_type,
            offsets,
            field,
            validity,
        } = self;
        MapArray {
            data_type,
            offsets: offsets.sliced(offset, len),
            field,
            validity: sliced_validity(validity, offset, len),
        }
    }

    /// Returns the `len` slots from `offset`, as [`MapArray::sliced`] does.
    ///
    /// It is `None` if the array hasn't all of them; the array is dropped then.
    pub fn try_sliced(self, offset: usize, len: usize) -> Option<Self>
        ensures { SomeIff result
            (offset + len ≤ span_count self.offsets)
            (cut_map offset len self) }
    {
        if !is_range(offset, len, self.len()) {
            return None;
        }
        Some(self.sliced(offset, len))
    }

    // A clone.
    #[cycle(copies)]
    pub(super) fn copy(&self) -> Result<Self, AllocError>
        ensures { IfOk result (λ copy. copy ≡ self.now) }
    {
        Ok(MapArray {
            data_type: self.data_type.clone()?,
            offsets: self.offsets.clone()?,
            field: Box::new(*Box::allocator(&self.field), self.field.copy()?)?,
            validity: clone_validity(&self.validity)?,
        })
    }

    /// Returns the number of bytes that stay allocated as long as the array exists.
    ///
    /// As [`AnyArray::retained_bytes`].
    #[cycle(retains)]
    pub fn retained_bytes(&self) -> usize {
        self.offsets
            .retained_bytes()
            .saturating_add(self.field.retained_bytes())
            .saturating_add(validity_bytes(&self.validity))
    }

    /// Returns an array of the same slots in memory of its own.
    ///
    /// It fails only if an allocation fails.
    #[cycle(compacts)]
    pub fn compact(&self, alloc: Global) -> Result<Self, AllocError>
        ensures { IfOk result (λ copy. copy ≡ self.now) }
    {
        Ok(MapArray {
            data_type: self.data_type.clone()?,
            offsets: self.offsets.compact(alloc)?,
            field: Box::new(alloc, self.field.compact(alloc)?)?,
            validity: compact_validity(alloc, &self.validity)?,
        })
    }
}

impl Clone for MapArray {
    ghost is_clone = { λ a b. b ≡ a };

    /// Returns an array of the same slots, in the same memory.
    ///
    /// It fails if an allocation fails or the count of owners can't grow.
    fn clone(&self) -> Result<Self, AllocError> {
        self.copy()
    }
}
