//! Arrays whose slots are values of a dictionary.
ghost use Rattle.std.specs.Prelude.{◌≡◌, ◌↔◌, pos, ◌+◌, ◌<◌, ◌≤◌, true, length, get_or, IsTrue, IfOk, MatchResult, SomeIff};
ghost use Rattle.std.specs.Option.{option_copied};
ghost use Rattle.lower.specs.TypeViews.{type_view};
ghost use Rattle.lower_flat_arrays.specs.Validities.{null_count_of, is_valid};
ghost use Rattle.lower_arrays.specs.Layouts.{level, len_of};
ghost use Rattle.lower_arrays.specs.Slots.{IsArray};
ghost use Rattle.lower_arrays.specs.Dictionaries.{HasKeys, dictionary_seen, IsDictionary, BreaksDictionary, cut_dictionary};
ghost use Rattle.lower_validation.specs.Keys.{is_ordered, place_of};
ghost use Rattle.lower_validation.specs.AnyKeys.{keys_seen};
ghost use Rattle.lower_arrays.specs.AnyLayouts.{layout_of};

use super::AnyArray;
use lower::bitmap::Bitmap;
use lower::datatypes::DataType;
use lower::error::Error;
use lower_flat_arrays::ranges::is_range;
use lower_validation::fields::is_ordered;
use lower_validation::keys::DictionaryKeys;
use lower_validation::rules::check_dictionary;
use std::alloc::{AllocError, Global};
use std::marker::Model;
use std::sync::Arc;

/// An array of keys, each the index of a dictionary's value.
///
/// Arrow columnar format, "Dictionary-encoded Layout". A slot is null if its key is, or if the
/// value that its key selects is. Clones and slices share the values.
#[cycle(arrays)]
#[derive(Drop)]
pub struct DictionaryArray {
    data_type: DataType,
    keys: DictionaryKeys,
    values: Arc<AnyArray>,
}

impl Model for DictionaryArray {
    ghost use Rattle.lower_arrays.specs.Dictionaries.{DictionarySeen, coded_dictionary, IsDictionary};

    ghost Value = { DictionarySeen };

    ghost coded = { coded_dictionary };

    ghost use Rattle.std.specs.Prelude.{◌+◌};
    ghost use Rattle.lower.specs.TypeViews.{type_view};
    ghost use Rattle.lower_arrays.specs.Layouts.{height};
    ghost use Rattle.lower_validation.specs.AnyKeys.{keys_seen};
    ghost use Rattle.lower_arrays.specs.AnyLayouts.{layout_of};

    ghost view = { λ a. record { type = type_view a.data_type; keys = keys_seen a.keys; values = layout_of a.values.value } };

    ghost invariant = { λ a. IsDictionary (record { type = type_view a.data_type; keys = keys_seen a.keys; values = layout_of a.values.value }) };

    ghost size = { λ s. height s.values + 1 };

    ghost use Rattle.lower_arrays.specs.Falls.{one_child};

    ghost size_decreases = { λ a h. one_child a.values.value };
}

/// Returns whether the array is a [`DictionaryArray`].
pub fn is_dictionary(array: &AnyArray) -> bool
    ensures { IsTrue result ↔ HasKeys (level (layout_of array.now)).parts }
{
    matches!(array, AnyArray::Dictionary(_))
}

impl DictionaryArray {
    /// Returns an array of the values that the keys select.
    ///
    /// A slot is null if its key is, or if its value is. Errors, each as `Error::OutOfSpec`:
    ///
    /// - `Rule::PhysicalType`: `data_type` isn't a dictionary with keys of this integer type, or
    ///   the array of keys has another data type than its integers.
    /// - `Rule::DictionaryValues`: the type of `values` differs from the one that `data_type`
    ///   names, both in their normal form (see [`DataType::normal`]).
    /// - `Rule::DictionaryKey`: a key that isn't null is negative, or not below the number of
    ///   values.
    #[tactic(auto, using(crate::proofs::Checked::dictionaries))]
    pub fn try_new(
        data_type: DataType,
        keys: DictionaryKeys,
        values: Arc<AnyArray>,
    ) -> Result<Self, Error>
        ensures { let seen = dictionary_seen (type_view data_type) (keys_seen keys) (layout_of values.value) in
            MatchResult result (λ a. (a ≡ seen) × IsDictionary seen) (BreaksDictionary seen) }
    {
        check_dictionary(&data_type, &keys, values.data_type(), values.len())?;
        Ok(DictionaryArray {
            data_type,
            keys,
            values,
        })
    }

    /// Returns the data type.
    pub fn data_type(&self) -> &DataType
        ensures tree { type_view result.now ≡ self.now.type }
        ensures valid { IsDictionary self.now }
    {
        &self.data_type
    }

    /// Returns whether the order of the values has a meaning, by the data type.
    pub fn is_ordered(&self) -> bool
        ensures order { result ≡ is_ordered self.now.type }
        ensures valid { IsDictionary self.now }
    {
        is_ordered(&self.data_type)
    }

    /// Returns the keys, which include one for each null.
    pub fn keys(&self) -> &DictionaryKeys
        ensures keys { keys_seen result.now ≡ self.now.keys }
        ensures valid { IsDictionary self.now }
    {
        &self.keys
    }

    /// Returns the values, which may include some that no key selects.
    pub fn values(&self) -> &AnyArray
        ensures values { layout_of result.now ≡ self.now.values }
        ensures valid { IsDictionary self.now }
    {
        &self.values
    }

    /// Returns another owner of the values.
    ///
    /// It fails only if the count of owners can't grow.
    pub fn shared_values(&self) -> Result<Arc<AnyArray>, AllocError>
        ensures values { IfOk result (λ values. layout_of values.value ≡ self.now.values) }
        ensures valid { IfOk result (λ values. IsArray (layout_of values.value)) }
    {
        self.values.clone()
    }

    /// Returns the validity bitmap of the keys, or `None` if there is none.
    ///
    /// A slot is null also if the value that its key selects is.
    pub fn validity(&self) -> Option<&Bitmap>
        ensures bits { option_copied result ≡ self.now.keys.validity }
        ensures valid { IsDictionary self.now }
    {
        self.keys.validity()
    }

    /// Returns the number of slots.
    pub fn len(&self) -> usize
        ensures len { result ≡ length self.now.keys.integers }
        ensures valid { IsDictionary self.now }
    {
        self.keys.len()
    }

    /// Returns whether there is no slot.
    pub fn is_empty(&self) -> bool
        ensures { IsTrue result ↔ (length self.now.keys.integers ≡ 0) }
    {
        self.keys.len() == 0
    }

    /// Returns the number of null keys.
    pub fn null_count(&self) -> usize
        ensures { result ≡ null_count_of self.now.keys.validity }
    {
        self.keys.null_count()
    }

    /// Returns whether the key at `index` isn't null.
    pub fn is_valid(&self, index: usize) -> bool
        requires { index < length self.now.keys.integers }
        ensures { result ≡ is_valid self.now.keys.validity index }
    {
        self.keys.is_valid(index)
    }

    /// Returns the key at `index` as an index into the values.
    pub fn key_value(&self, index: usize) -> usize
        requires within { index < length self.now.keys.integers }
        requires valid { is_valid self.now.keys.validity index ≡ true }
        ensures place { result ≡ place_of (get_or self.now.keys.integers index (pos 0)) }
        ensures bound { result < len_of self.now.values }
    {
        self.keys.place(index, self.values.len())
    }

    /// Returns the `len` slots from `offset`, with the same values. It allocates nothing.
    pub fn sliced(self, offset: usize, len: usize) -> Self
        requires { offset + len ≤ length self.keys.integers }
        ensures { result ≡ cut_dictionary offset len self }
    {
        let DictionaryArray {
            data_type,
            keys,
            values,
        } = self;
        DictionaryArray {
            data_type,
            keys: keys.sliced(offset, len),
            values,
        }
    }

    /// Returns the `len` slots from `offset`, as [`DictionaryArray::sliced`] does.
    ///
    /// It is `None` if the array hasn't all of them; the array is dropped then.
    pub fn try_sliced(self, offset: usize, len: usize) -> Option<Self>
        ensures { SomeIff result
            (offset + len ≤ length self.keys.integers)
            (cut_dictionary offset len self) }
    {
        if !is_range(offset, len, self.len()) {
            return None;
        }
        Some(self.sliced(offset, len))
    }

    /// Returns the number of bytes that stay allocated as long as the array exists.
    ///
    /// As [`AnyArray::retained_bytes`].
    #[cycle(retains)]
    pub fn retained_bytes(&self) -> usize {
        self.keys
            .retained_bytes()
            .saturating_add(self.values.retained_bytes())
    }

    /// Returns an array of the same slots in memory of its own.
    ///
    /// It fails only if an allocation fails.
    #[cycle(compacts)]
    pub fn compact(&self, alloc: Global) -> Result<Self, AllocError>
        ensures { IfOk result (λ copy. copy ≡ self.now) }
    {
        Ok(DictionaryArray {
            data_type: self.data_type.clone()?,
            keys: self.keys.compact(alloc)?,
            values: Arc::new(alloc, self.values.compact(alloc)?)?,
        })
    }
}

impl Clone for DictionaryArray {
    ghost is_clone = { λ a b. b ≡ a };

    /// Returns an array of the same slots, in the same memory.
    ///
    /// It fails if an allocation fails or the count of owners can't grow.
    fn clone(&self) -> Result<Self, AllocError> {
        Ok(DictionaryArray {
            data_type: self.data_type.clone()?,
            keys: self.keys.clone()?,
            values: self.values.clone()?,
        })
    }
}
