//! The keys of dictionaries (Arrow columnar format, "Dictionary-encoded Layout").
ghost use Rattle.std.specs.Prelude.{◌≡◌, ◌↔◌, ℤ, pos, ◌+◌, ◌<◌, ◌≤◌, ◌<ℤ◌, length, map, get_or, IsTrue, MatchOption, IfOk};
ghost use Rattle.std.specs.Option.{option_copied};
ghost use Rattle.lower.specs.TypeViews.{type_view};
ghost use Rattle.lower.specs.declared.datatypes.IntegerType.{IntegerType};
ghost use Rattle.lower_flat_arrays.specs.Validities.{null_count_of, is_valid, ValidityFits};
ghost use Rattle.lower_validation.specs.Keys.{place_of, KeyFits, KeysFit, cut_keys};
ghost use Rattle.lower_validation.specs.AnyKeys.{keys_seen};

use lower::bitmap::Bitmap;
use lower::datatypes::{DataType, IntegerType};
use lower::types::NativeType;
use lower_flat_arrays::PrimitiveArray;
use std::alloc::{AllocError, Global};
use std::fmt;

/// An integer type that the keys of a dictionary can have.
pub trait DictionaryKey: NativeType {
    // The name of the type.
    ghost key: { IntegerType };

    // The integer that a key is.
    ghost integer: { Self → ℤ };

    /// Returns the name of the type.
    fn key_type() -> IntegerType
        ensures { result ≡ key };

    /// Returns the key as an index, or `None` if it is negative.
    fn to_usize(self) -> Option<usize>
        ensures { MatchOption result (integer self <ℤ pos 0) (λ place. integer self ≡ pos place) };
}

impl DictionaryKey for i8 {
    ghost use Rattle.lower.specs.declared.datatypes.IntegerType.TheVariants.{Int8};

    ghost key = { Int8 };

    ghost integer = { λ x. x };

    fn key_type() -> IntegerType {
        IntegerType::Int8
    }

    fn to_usize(self) -> Option<usize> {
        if self < 0 {
            return None;
        }
        Some(self.cast_unsigned() as usize)
    }
}

impl DictionaryKey for i16 {
    ghost use Rattle.lower.specs.declared.datatypes.IntegerType.TheVariants.{Int16};

    ghost key = { Int16 };

    ghost integer = { λ x. x };

    fn key_type() -> IntegerType {
        IntegerType::Int16
    }

    fn to_usize(self) -> Option<usize> {
        if self < 0 {
            return None;
        }
        Some(self.cast_unsigned() as usize)
    }
}

impl DictionaryKey for i32 {
    ghost use Rattle.lower.specs.declared.datatypes.IntegerType.TheVariants.{Int32};

    ghost key = { Int32 };

    ghost integer = { λ x. x };

    fn key_type() -> IntegerType {
        IntegerType::Int32
    }

    fn to_usize(self) -> Option<usize> {
        if self < 0 {
            return None;
        }
        Some(self.cast_unsigned() as usize)
    }
}

impl DictionaryKey for i64 {
    ghost use Rattle.lower.specs.declared.datatypes.IntegerType.TheVariants.{Int64};

    ghost key = { Int64 };

    ghost integer = { λ x. x };

    fn key_type() -> IntegerType {
        IntegerType::Int64
    }

    fn to_usize(self) -> Option<usize> {
        if self < 0 {
            return None;
        }
        Some(self.cast_unsigned() as usize)
    }
}

impl DictionaryKey for u8 {
    ghost use Rattle.lower.specs.declared.datatypes.IntegerType.TheVariants.{UInt8};

    ghost key = { UInt8 };

    ghost integer = { λ x. pos x };

    fn key_type() -> IntegerType {
        IntegerType::UInt8
    }

    fn to_usize(self) -> Option<usize> {
        Some(self as usize)
    }
}

impl DictionaryKey for u16 {
    ghost use Rattle.lower.specs.declared.datatypes.IntegerType.TheVariants.{UInt16};

    ghost key = { UInt16 };

    ghost integer = { λ x. pos x };

    fn key_type() -> IntegerType {
        IntegerType::UInt16
    }

    fn to_usize(self) -> Option<usize> {
        Some(self as usize)
    }
}

impl DictionaryKey for u32 {
    ghost use Rattle.lower.specs.declared.datatypes.IntegerType.TheVariants.{UInt32};

    ghost key = { UInt32 };

    ghost integer = { λ x. pos x };

    fn key_type() -> IntegerType {
        IntegerType::UInt32
    }

    fn to_usize(self) -> Option<usize> {
        Some(self as usize)
    }
}

impl DictionaryKey for u64 {
    ghost use Rattle.lower.specs.declared.datatypes.IntegerType.TheVariants.{UInt64};

    ghost key = { UInt64 };

    ghost integer = { λ x. pos x };

    fn key_type() -> IntegerType {
        IntegerType::UInt64
    }

    fn to_usize(self) -> Option<usize> {
        Some(self as usize)
    }
}

// Whether each key that isn't null is below `len`. Usually all keys are, even the null ones, and
// checking that first is faster.
fn keys_fit<K: DictionaryKey>(keys: &PrimitiveArray<K>, len: usize) -> bool
    ensures { IsTrue result ↔ KeysFit keys.now.validity (map K.integer keys.now.values) len }
{
    are_places(keys.values().as_slice(), len) || valid_keys_fit(keys, len)
}

// Whether each key is from 0 to below `len`. The loop counts those that aren't, without an early
// exit, so that no key costs a branch.
fn are_places<K: DictionaryKey>(keys: &[K], len: usize) -> bool
    ensures { IsTrue result ↔ KeysFit None (map K.integer keys.now) len }
{
    let mut others = 0usize;
    for index in 0..keys.len() {
        if !is_place(keys, index, len) {
            others += 1;
        }
    }
    others == 0
}

// Checks one by one whether each key that isn't null is from 0 to below `len`.
fn valid_keys_fit<K: DictionaryKey>(keys: &PrimitiveArray<K>, len: usize) -> bool
    ensures { IsTrue result ↔ KeysFit keys.now.validity (map K.integer keys.now.values) len }
{
    let values = keys.values().as_slice();
    for index in 0..values.len() {
        if keys.is_valid(index) && !is_place(values, index, len) {
            return false;
        }
    }
    true
}

// Whether the key at `index` is from 0 to below `len`.
fn is_place<K: DictionaryKey>(keys: &[K], index: usize, len: usize) -> bool
    requires { index < length keys.now }
    ensures { IsTrue result ↔ KeyFits (get_or (map K.integer keys.now) index (pos 0)) len }
{
    match keys[index].to_usize() {
        None => false,
        Some(place) => place < len,
    }
}

// The key at `index` as an index of the values.
fn place_at<K: DictionaryKey>(keys: &PrimitiveArray<K>, index: usize, len: usize) -> usize
    requires within { index < length keys.now.values }
    requires fits { KeyFits (get_or (map K.integer keys.now.values) index (pos 0)) len }
    ensures place { result ≡ place_of (get_or (map K.integer keys.now.values) index (pos 0)) }
    ensures bound { result < len }
{
    match keys.values().as_slice()[index].to_usize() {
        None => 0,
        Some(place) => place,
    }
}

/// An array of dictionary keys of any integer type.
#[derive(Drop)]
pub enum DictionaryKeys {
    Int8(PrimitiveArray<i8>),
    Int16(PrimitiveArray<i16>),
    Int32(PrimitiveArray<i32>),
    Int64(PrimitiveArray<i64>),
    UInt8(PrimitiveArray<u8>),
    UInt16(PrimitiveArray<u16>),
    UInt32(PrimitiveArray<u32>),
    UInt64(PrimitiveArray<u64>),
}

impl DictionaryKeys {
    /// Returns the integer type of the keys.
    pub fn key_type(&self) -> IntegerType
        ensures { result ≡ (keys_seen self.now).key }
    {
        match self {
            DictionaryKeys::Int8(_) => IntegerType::Int8,
            DictionaryKeys::Int16(_) => IntegerType::Int16,
            DictionaryKeys::Int32(_) => IntegerType::Int32,
            DictionaryKeys::Int64(_) => IntegerType::Int64,
            DictionaryKeys::UInt8(_) => IntegerType::UInt8,
            DictionaryKeys::UInt16(_) => IntegerType::UInt16,
            DictionaryKeys::UInt32(_) => IntegerType::UInt32,
            DictionaryKeys::UInt64(_) => IntegerType::UInt64,
        }
    }

    /// Returns the data type of the array of keys.
    pub fn data_type(&self) -> &DataType
        ensures { type_view result.now ≡ (keys_seen self.now).type }
    {
        match self {
            DictionaryKeys::Int8(keys) => keys.data_type(),
            DictionaryKeys::Int16(keys) => keys.data_type(),
            DictionaryKeys::Int32(keys) => keys.data_type(),
            DictionaryKeys::Int64(keys) => keys.data_type(),
            DictionaryKeys::UInt8(keys) => keys.data_type(),
            DictionaryKeys::UInt16(keys) => keys.data_type(),
            DictionaryKeys::UInt32(keys) => keys.data_type(),
            DictionaryKeys::UInt64(keys) => keys.data_type(),
        }
    }

    /// Returns the validity bitmap, or `None` if there is none: all keys are valid.
    pub fn validity(&self) -> Option<&Bitmap>
        ensures bits { option_copied result ≡ (keys_seen self.now).validity }
        ensures fits { ValidityFits (keys_seen self.now).validity (length (keys_seen self.now).integers) }
    {
        match self {
            DictionaryKeys::Int8(keys) => keys.validity(),
            DictionaryKeys::Int16(keys) => keys.validity(),
            DictionaryKeys::Int32(keys) => keys.validity(),
            DictionaryKeys::Int64(keys) => keys.validity(),
            DictionaryKeys::UInt8(keys) => keys.validity(),
            DictionaryKeys::UInt16(keys) => keys.validity(),
            DictionaryKeys::UInt32(keys) => keys.validity(),
            DictionaryKeys::UInt64(keys) => keys.validity(),
        }
    }

    /// Returns the number of keys.
    pub fn len(&self) -> usize
        ensures len { result ≡ length (keys_seen self.now).integers }
        ensures fits { ValidityFits (keys_seen self.now).validity (length (keys_seen self.now).integers) }
    {
        match self {
            DictionaryKeys::Int8(keys) => keys.len(),
            DictionaryKeys::Int16(keys) => keys.len(),
            DictionaryKeys::Int32(keys) => keys.len(),
            DictionaryKeys::Int64(keys) => keys.len(),
            DictionaryKeys::UInt8(keys) => keys.len(),
            DictionaryKeys::UInt16(keys) => keys.len(),
            DictionaryKeys::UInt32(keys) => keys.len(),
            DictionaryKeys::UInt64(keys) => keys.len(),
        }
    }

    /// Returns the number of null keys.
    pub fn null_count(&self) -> usize
        ensures { result ≡ null_count_of (keys_seen self.now).validity }
    {
        match self {
            DictionaryKeys::Int8(keys) => keys.null_count(),
            DictionaryKeys::Int16(keys) => keys.null_count(),
            DictionaryKeys::Int32(keys) => keys.null_count(),
            DictionaryKeys::Int64(keys) => keys.null_count(),
            DictionaryKeys::UInt8(keys) => keys.null_count(),
            DictionaryKeys::UInt16(keys) => keys.null_count(),
            DictionaryKeys::UInt32(keys) => keys.null_count(),
            DictionaryKeys::UInt64(keys) => keys.null_count(),
        }
    }

    /// Returns whether the key at `index` isn't null.
    pub fn is_valid(&self, index: usize) -> bool
        requires { index < length (keys_seen self.now).integers }
        ensures { result ≡ is_valid (keys_seen self.now).validity index }
    {
        match self {
            DictionaryKeys::Int8(keys) => keys.is_valid(index),
            DictionaryKeys::Int16(keys) => keys.is_valid(index),
            DictionaryKeys::Int32(keys) => keys.is_valid(index),
            DictionaryKeys::Int64(keys) => keys.is_valid(index),
            DictionaryKeys::UInt8(keys) => keys.is_valid(index),
            DictionaryKeys::UInt16(keys) => keys.is_valid(index),
            DictionaryKeys::UInt32(keys) => keys.is_valid(index),
            DictionaryKeys::UInt64(keys) => keys.is_valid(index),
        }
    }

    /// Returns whether each key that isn't null is from 0 to below `len`.
    pub fn fit(&self, len: usize) -> bool
        ensures { IsTrue result ↔ KeysFit (keys_seen self.now).validity (keys_seen self.now).integers len }
    {
        match self {
            DictionaryKeys::Int8(keys) => keys_fit(keys, len),
            DictionaryKeys::Int16(keys) => keys_fit(keys, len),
            DictionaryKeys::Int32(keys) => keys_fit(keys, len),
            DictionaryKeys::Int64(keys) => keys_fit(keys, len),
            DictionaryKeys::UInt8(keys) => keys_fit(keys, len),
            DictionaryKeys::UInt16(keys) => keys_fit(keys, len),
            DictionaryKeys::UInt32(keys) => keys_fit(keys, len),
            DictionaryKeys::UInt64(keys) => keys_fit(keys, len),
        }
    }

    /// Returns the key at `index` as an index into `len` values.
    pub fn place(&self, index: usize, len: usize) -> usize
        requires within { index < length (keys_seen self.now).integers }
        requires fits { KeyFits (get_or (keys_seen self.now).integers index (pos 0)) len }
        ensures place { result ≡ place_of (get_or (keys_seen self.now).integers index (pos 0)) }
        ensures bound { result < len }
    {
        match self {
            DictionaryKeys::Int8(keys) => place_at(keys, index, len),
            DictionaryKeys::Int16(keys) => place_at(keys, index, len),
            DictionaryKeys::Int32(keys) => place_at(keys, index, len),
            DictionaryKeys::Int64(keys) => place_at(keys, index, len),
            DictionaryKeys::UInt8(keys) => place_at(keys, index, len),
            DictionaryKeys::UInt16(keys) => place_at(keys, index, len),
            DictionaryKeys::UInt32(keys) => place_at(keys, index, len),
            DictionaryKeys::UInt64(keys) => place_at(keys, index, len),
        }
    }

    /// Returns the `len` keys from `offset`, in the same memory. It allocates nothing.
    #[tactic(auto, using(crate::proofs::Parts::keys_part))]
    pub fn sliced(self, offset: usize, len: usize) -> Self
        requires { offset + len ≤ length (keys_seen self).integers }
        ensures { keys_seen result ≡ cut_keys offset len (keys_seen self) }
    {
        match self {
            DictionaryKeys::Int8(keys) => DictionaryKeys::Int8(keys.sliced(offset, len)),
            DictionaryKeys::Int16(keys) => DictionaryKeys::Int16(keys.sliced(offset, len)),
            DictionaryKeys::Int32(keys) => DictionaryKeys::Int32(keys.sliced(offset, len)),
            DictionaryKeys::Int64(keys) => DictionaryKeys::Int64(keys.sliced(offset, len)),
            DictionaryKeys::UInt8(keys) => DictionaryKeys::UInt8(keys.sliced(offset, len)),
            DictionaryKeys::UInt16(keys) => DictionaryKeys::UInt16(keys.sliced(offset, len)),
            DictionaryKeys::UInt32(keys) => DictionaryKeys::UInt32(keys.sliced(offset, len)),
            DictionaryKeys::UInt64(keys) => DictionaryKeys::UInt64(keys.sliced(offset, len)),
        }
    }

    /// Returns the number of bytes that stay allocated as long as the keys exist.
    ///
    /// See [`Buffer::retained_bytes`](lower::buffer::Buffer::retained_bytes). Memory that several
    /// of its buffers share counts for each.
    pub fn retained_bytes(&self) -> usize {
        match self {
            DictionaryKeys::Int8(keys) => keys.retained_bytes(),
            DictionaryKeys::Int16(keys) => keys.retained_bytes(),
            DictionaryKeys::Int32(keys) => keys.retained_bytes(),
            DictionaryKeys::Int64(keys) => keys.retained_bytes(),
            DictionaryKeys::UInt8(keys) => keys.retained_bytes(),
            DictionaryKeys::UInt16(keys) => keys.retained_bytes(),
            DictionaryKeys::UInt32(keys) => keys.retained_bytes(),
            DictionaryKeys::UInt64(keys) => keys.retained_bytes(),
        }
    }

    /// Returns the same keys in memory of their own. It fails only if an allocation fails.
    pub fn compact(&self, alloc: Global) -> Result<Self, AllocError>
        ensures { IfOk result (λ copy. keys_seen copy ≡ keys_seen self.now) }
    {
        match self {
            DictionaryKeys::Int8(keys) => Ok(DictionaryKeys::Int8(keys.compact(alloc)?)),
            DictionaryKeys::Int16(keys) => Ok(DictionaryKeys::Int16(keys.compact(alloc)?)),
            DictionaryKeys::Int32(keys) => Ok(DictionaryKeys::Int32(keys.compact(alloc)?)),
            DictionaryKeys::Int64(keys) => Ok(DictionaryKeys::Int64(keys.compact(alloc)?)),
            DictionaryKeys::UInt8(keys) => Ok(DictionaryKeys::UInt8(keys.compact(alloc)?)),
            DictionaryKeys::UInt16(keys) => Ok(DictionaryKeys::UInt16(keys.compact(alloc)?)),
            DictionaryKeys::UInt32(keys) => Ok(DictionaryKeys::UInt32(keys.compact(alloc)?)),
            DictionaryKeys::UInt64(keys) => Ok(DictionaryKeys::UInt64(keys.compact(alloc)?)),
        }
    }
}

impl Clone for DictionaryKeys {
    ghost is_clone = { λ a b. keys_seen b ≡ keys_seen a };

    /// Returns the same keys, in the same memory.
    ///
    /// It fails if an allocation fails or the count of owners can't grow.
    fn clone(&self) -> Result<Self, AllocError> {
        match self {
            DictionaryKeys::Int8(keys) => Ok(DictionaryKeys::Int8(keys.clone()?)),
            DictionaryKeys::Int16(keys) => Ok(DictionaryKeys::Int16(keys.clone()?)),
            DictionaryKeys::Int32(keys) => Ok(DictionaryKeys::Int32(keys.clone()?)),
            DictionaryKeys::Int64(keys) => Ok(DictionaryKeys::Int64(keys.clone()?)),
            DictionaryKeys::UInt8(keys) => Ok(DictionaryKeys::UInt8(keys.clone()?)),
            DictionaryKeys::UInt16(keys) => Ok(DictionaryKeys::UInt16(keys.clone()?)),
            DictionaryKeys::UInt32(keys) => Ok(DictionaryKeys::UInt32(keys.clone()?)),
            DictionaryKeys::UInt64(keys) => Ok(DictionaryKeys::UInt64(keys.clone()?)),
        }
    }
}

/// Prints the array inside.
impl fmt::Debug for DictionaryKeys {
    fn fmt<W: fmt::Write>(&self, f: &mut fmt::Formatter<W>) -> fmt::Result {
        match self {
            DictionaryKeys::Int8(keys) => fmt::Debug::fmt(keys, f),
            DictionaryKeys::Int16(keys) => fmt::Debug::fmt(keys, f),
            DictionaryKeys::Int32(keys) => fmt::Debug::fmt(keys, f),
            DictionaryKeys::Int64(keys) => fmt::Debug::fmt(keys, f),
            DictionaryKeys::UInt8(keys) => fmt::Debug::fmt(keys, f),
            DictionaryKeys::UInt16(keys) => fmt::Debug::fmt(keys, f),
            DictionaryKeys::UInt32(keys) => fmt::Debug::fmt(keys, f),
            DictionaryKeys::UInt64(keys) => fmt::Debug::fmt(keys, f),
        }
    }
}
