//! Arrays with children, and arrays of any layout.
ghost use Rattle.std.specs.Prelude.{◌≡◌, ◌+◌, ◌<◌, ◌≤◌, take, drop, IfOk, SomeIff};
ghost use Rattle.std.specs.Option.{option_copied, option_map};
ghost use Rattle.lower.specs.TypeViews.{type_view};
ghost use Rattle.lower_arrays.specs.Layouts.{level, len_of, type_of, nulls_of};
ghost use Rattle.lower_arrays.specs.Slots.{IsArray, slots};
ghost use Rattle.lower_arrays.specs.Cuts.{cut};
ghost use Rattle.lower_arrays.specs.AnyLayouts.{layout_of};

mod any;
mod children;
mod dictionary;
mod fixed_size_list;
mod from;
mod list;
mod map;
mod struct_;
mod union;

pub use children::{compact_each, retained_each, sliced_each};
pub use dictionary::{DictionaryArray, DictionaryArray as AnyDictionary, is_dictionary};
pub use fixed_size_list::FixedSizeListArray;
pub use list::ListArray;
use lower::bitmap::Bitmap;
use lower::datatypes::DataType;
pub use lower_flat_arrays::ranges::is_range;
pub use lower_flat_arrays::{
    BinaryArray, BinaryIter, BooleanArray, BooleanIter, DaysMsArray, FixedSizeBinaryArray,
    FixedSizeBinaryIter, Int8Array, Int16Array, Int32Array, Int64Array, Int128Array, Int256Array,
    MonthsDaysNsArray, NullArray, PrimitiveArray, PrimitiveIter, UInt8Array, UInt16Array,
    UInt32Array, UInt64Array, Utf8Array, Utf8Iter,
};
pub use lower_validation::keys::{DictionaryKey, DictionaryKeys};
pub use lower_validation::numbers::AnyPrimitive;
pub use lower_validation::numeric::Numeric;
pub use lower_validation::offsets::ListOffsets;
pub use map::MapArray;
use std::alloc::{AllocError, Global};
use std::mem;
pub use struct_::StructArray;
pub use union::UnionArray;

/// An array of any layout: one variant for each physical type.
///
/// `List` is for lists with 32-bit offsets, `LargeList` for lists with 64-bit offsets; both contain
/// a [`ListArray`]. [`ListArray::boxed`] and `AnyArray::from` choose the variant by the offsets;
/// slices and clones keep it. Either variant can be made of any `ListArray`: neither `==` nor the
/// encoding depends on it.
#[cycle(arrays)]
#[derive(Drop)]
pub enum AnyArray {
    Null(NullArray),
    Boolean(BooleanArray),
    Primitive(AnyPrimitive),
    FixedSizeBinary(FixedSizeBinaryArray),
    Binary(BinaryArray<i32>),
    LargeBinary(BinaryArray<i64>),
    Utf8(Utf8Array<i32>),
    LargeUtf8(Utf8Array<i64>),
    /// Lists with 32-bit offsets.
    List(ListArray),
    /// Lists with 64-bit offsets.
    LargeList(ListArray),
    FixedSizeList(FixedSizeListArray),
    Struct(StructArray),
    Union(UnionArray),
    Map(MapArray),
    Dictionary(DictionaryArray),
}

impl AnyArray {
    /// Returns the data type.
    pub fn data_type(&self) -> &DataType
        ensures tree { type_view result.now ≡ type_of (layout_of self.now) }
        ensures valid { IsArray (layout_of self.now) }
    {
        match self {
            AnyArray::Null(array) => array.data_type(),
            AnyArray::Boolean(array) => array.data_type(),
            AnyArray::Primitive(array) => array.data_type(),
            AnyArray::FixedSizeBinary(array) => array.data_type(),
            AnyArray::Binary(array) => array.data_type(),
            AnyArray::LargeBinary(array) => array.data_type(),
            AnyArray::Utf8(array) => array.data_type(),
            AnyArray::LargeUtf8(array) => array.data_type(),
            AnyArray::List(array) => array.data_type(),
            AnyArray::LargeList(array) => array.data_type(),
            AnyArray::FixedSizeList(array) => array.data_type(),
            AnyArray::Struct(array) => array.data_type(),
            AnyArray::Union(array) => array.data_type(),
            AnyArray::Map(array) => array.data_type(),
            AnyArray::Dictionary(array) => array.data_type(),
        }
    }

    /// Returns the validity bitmap, or `None` if there is none.
    ///
    /// Without a bitmap all slots are valid, with these exceptions:
    ///
    /// - All slots of an array of nulls are null.
    /// - A slot of a union is null if the slot of its child is.
    /// - A slot of a dictionary is null also if its value is.
    pub fn validity(&self) -> Option<&Bitmap>
        ensures bits { option_copied result ≡ (level (layout_of self.now)).validity }
        ensures valid { IsArray (layout_of self.now) }
    {
        match self {
            AnyArray::Null(array) => array.validity(),
            AnyArray::Boolean(array) => array.validity(),
            AnyArray::Primitive(array) => array.validity(),
            AnyArray::FixedSizeBinary(array) => array.validity(),
            AnyArray::Binary(array) => array.validity(),
            AnyArray::LargeBinary(array) => array.validity(),
            AnyArray::Utf8(array) => array.validity(),
            AnyArray::LargeUtf8(array) => array.validity(),
            AnyArray::List(array) => array.validity(),
            AnyArray::LargeList(array) => array.validity(),
            AnyArray::FixedSizeList(array) => array.validity(),
            AnyArray::Struct(array) => array.validity(),
            AnyArray::Union(array) => array.validity(),
            AnyArray::Map(array) => array.validity(),
            AnyArray::Dictionary(array) => array.validity(),
        }
    }

    /// Returns the number of slots.
    pub fn len(&self) -> usize
        ensures len { result ≡ len_of (layout_of self.now) }
        ensures valid { IsArray (layout_of self.now) }
    {
        match self {
            AnyArray::Null(array) => array.len(),
            AnyArray::Boolean(array) => array.len(),
            AnyArray::Primitive(array) => array.len(),
            AnyArray::FixedSizeBinary(array) => array.len(),
            AnyArray::Binary(array) => array.len(),
            AnyArray::LargeBinary(array) => array.len(),
            AnyArray::Utf8(array) => array.len(),
            AnyArray::LargeUtf8(array) => array.len(),
            AnyArray::List(array) => array.len(),
            AnyArray::LargeList(array) => array.len(),
            AnyArray::FixedSizeList(array) => array.len(),
            AnyArray::Struct(array) => array.len(),
            AnyArray::Union(array) => array.len(),
            AnyArray::Map(array) => array.len(),
            AnyArray::Dictionary(array) => array.len(),
        }
    }

    /// Returns the number of slots that are null by the array's own validity.
    ///
    /// It is that of all slots for an array of nulls, and 0 for a union. A dictionary's slots whose
    /// values are null aren't counted.
    pub fn null_count(&self) -> usize
        ensures { result ≡ nulls_of (layout_of self.now) }
    {
        match self {
            AnyArray::Null(array) => array.null_count(),
            AnyArray::Boolean(array) => array.null_count(),
            AnyArray::Primitive(array) => array.null_count(),
            AnyArray::FixedSizeBinary(array) => array.null_count(),
            AnyArray::Binary(array) => array.null_count(),
            AnyArray::LargeBinary(array) => array.null_count(),
            AnyArray::Utf8(array) => array.null_count(),
            AnyArray::LargeUtf8(array) => array.null_count(),
            AnyArray::List(array) => array.null_count(),
            AnyArray::LargeList(array) => array.null_count(),
            AnyArray::FixedSizeList(array) => array.null_count(),
            AnyArray::Struct(array) => array.null_count(),
            AnyArray::Union(array) => array.null_count(),
            AnyArray::Map(array) => array.null_count(),
            AnyArray::Dictionary(array) => array.null_count(),
        }
    }

    /// Returns the `len` slots from `offset`, in the same memory. It allocates nothing.
    #[tactic(auto, using(crate::proofs::Slices::slots_of_part))]
    pub fn sliced(self, offset: usize, len: usize) -> Self
        requires { offset + len ≤ len_of (layout_of self) }
        ensures layout { layout_of result ≡ cut offset len (layout_of self) }
        ensures slots { slots (layout_of result) ≡ take len (drop offset (slots (layout_of self))) }
    {
        self.part(offset, len)
    }

    /// Returns the `len` slots from `offset`, as [`AnyArray::sliced`] does.
    ///
    /// It is `None` if the array hasn't all of them; the array is dropped then.
    pub fn try_sliced(self, offset: usize, len: usize) -> Option<Self>
        ensures { SomeIff (option_map layout_of result)
            (offset + len ≤ len_of (layout_of self))
            (cut offset len (layout_of self)) }
    {
        if !is_range(offset, len, self.len()) {
            return None;
        }
        Some(self.sliced(offset, len))
    }

    /// Keeps only the `len` slots from `offset`. It allocates nothing.
    #[cycle(slices)]
    pub fn slice(&mut self, offset: usize, len: usize)
        requires { offset + len ≤ len_of (layout_of self.old) }
        ensures { layout_of self.new ≡ cut offset len (layout_of self.old) }
    {
        let array = self.take().part(offset, len);
        drop(mem::replace(self, array));
    }

    // Takes the array, and leaves one without slots in its place.
    fn take(&mut self) -> Self
        ensures { layout_of result ≡ layout_of self.old }
    {
        mem::replace(self, AnyArray::without_slots())
    }

    // An array without slots, which allocates nothing.
    fn without_slots() -> Self {
        AnyArray::Null(NullArray::try_new(DataType::Null, 0).unwrap())
    }

    // The `len` slots from `offset`, by the variant.
    #[cycle(slices)]
    #[tactic(auto, using(crate::proofs::Slices::slicing))]
    fn part(self, offset: usize, len: usize) -> Self
        requires { offset + len ≤ len_of (layout_of self) }
        ensures { layout_of result ≡ cut offset len (layout_of self) }
    {
        match self {
            AnyArray::Null(array) => AnyArray::Null(array.sliced(offset, len)),
            AnyArray::Boolean(array) => AnyArray::Boolean(array.sliced(offset, len)),
            AnyArray::Primitive(array) => AnyArray::Primitive(array.sliced(offset, len)),
            AnyArray::FixedSizeBinary(array) => AnyArray::FixedSizeBinary(array.sliced(
                offset, len,
            )),
            AnyArray::Binary(array) => AnyArray::Binary(array.sliced(offset, len)),
            AnyArray::LargeBinary(array) => AnyArray::LargeBinary(array.sliced(offset, len)),
            AnyArray::Utf8(array) => AnyArray::Utf8(array.sliced(offset, len)),
            AnyArray::LargeUtf8(array) => AnyArray::LargeUtf8(array.sliced(offset, len)),
            AnyArray::List(array) => AnyArray::List(array.sliced(offset, len)),
            AnyArray::LargeList(array) => AnyArray::LargeList(array.sliced(offset, len)),
            AnyArray::FixedSizeList(array) => AnyArray::FixedSizeList(array.sliced(offset, len)),
            AnyArray::Struct(array) => AnyArray::Struct(array.sliced(offset, len)),
            AnyArray::Union(array) => AnyArray::Union(array.sliced(offset, len)),
            AnyArray::Map(array) => AnyArray::Map(array.sliced(offset, len)),
            AnyArray::Dictionary(array) => AnyArray::Dictionary(array.sliced(offset, len)),
        }
    }

    // A clone, by the variant.
    #[cycle(copies)]
    fn copy(&self) -> Result<Self, AllocError>
        ensures { IfOk result (λ copy. layout_of copy ≡ layout_of self.now) }
    {
        match self {
            AnyArray::Null(array) => Ok(AnyArray::Null(array.clone()?)),
            AnyArray::Boolean(array) => Ok(AnyArray::Boolean(array.clone()?)),
            AnyArray::Primitive(array) => Ok(AnyArray::Primitive(array.clone()?)),
            AnyArray::FixedSizeBinary(array) => Ok(AnyArray::FixedSizeBinary(array.clone()?)),
            AnyArray::Binary(array) => Ok(AnyArray::Binary(array.clone()?)),
            AnyArray::LargeBinary(array) => Ok(AnyArray::LargeBinary(array.clone()?)),
            AnyArray::Utf8(array) => Ok(AnyArray::Utf8(array.clone()?)),
            AnyArray::LargeUtf8(array) => Ok(AnyArray::LargeUtf8(array.clone()?)),
            AnyArray::List(array) => Ok(AnyArray::List(array.copy()?)),
            AnyArray::LargeList(array) => Ok(AnyArray::LargeList(array.copy()?)),
            AnyArray::FixedSizeList(array) => Ok(AnyArray::FixedSizeList(array.copy()?)),
            AnyArray::Struct(array) => Ok(AnyArray::Struct(array.copy()?)),
            AnyArray::Union(array) => Ok(AnyArray::Union(array.copy()?)),
            AnyArray::Map(array) => Ok(AnyArray::Map(array.copy()?)),
            AnyArray::Dictionary(array) => Ok(AnyArray::Dictionary(array.clone()?)),
        }
    }

    /// Returns the number of bytes that stay allocated as long as the array exists.
    ///
    /// It is the sum over the buffers of the array, its children and its dictionary (see
    /// [`Buffer::retained_bytes`](lower::buffer::Buffer::retained_bytes)). Memory that several of
    /// them share counts for each; data types don't count.
    #[cycle(retains)]
    pub fn retained_bytes(&self) -> usize {
        match self {
            AnyArray::Null(array) => array.retained_bytes(),
            AnyArray::Boolean(array) => array.retained_bytes(),
            AnyArray::Primitive(array) => array.retained_bytes(),
            AnyArray::FixedSizeBinary(array) => array.retained_bytes(),
            AnyArray::Binary(array) => array.retained_bytes(),
            AnyArray::LargeBinary(array) => array.retained_bytes(),
            AnyArray::Utf8(array) => array.retained_bytes(),
            AnyArray::LargeUtf8(array) => array.retained_bytes(),
            AnyArray::List(array) => array.retained_bytes(),
            AnyArray::LargeList(array) => array.retained_bytes(),
            AnyArray::FixedSizeList(array) => array.retained_bytes(),
            AnyArray::Struct(array) => array.retained_bytes(),
            AnyArray::Union(array) => array.retained_bytes(),
            AnyArray::Map(array) => array.retained_bytes(),
            AnyArray::Dictionary(array) => array.retained_bytes(),
        }
    }

    /// Returns an array of the same slots in memory of its own.
    ///
    /// A part of a larger buffer then no longer retains all of it. The values of a dictionary are
    /// copied too. It fails only if an allocation fails.
    #[cycle(compacts)]
    pub fn compact(&self, alloc: Global) -> Result<Self, AllocError>
        ensures { IfOk result (λ copy. layout_of copy ≡ layout_of self.now) }
    {
        match self {
            AnyArray::Null(array) => Ok(AnyArray::Null(array.clone()?)),
            AnyArray::Boolean(array) => Ok(AnyArray::Boolean(array.compact(alloc)?)),
            AnyArray::Primitive(array) => Ok(AnyArray::Primitive(array.compact(alloc)?)),
            AnyArray::FixedSizeBinary(array) => Ok(AnyArray::FixedSizeBinary(array.compact(
                alloc,
            )?)),
            AnyArray::Binary(array) => Ok(AnyArray::Binary(array.compact(alloc)?)),
            AnyArray::LargeBinary(array) => Ok(AnyArray::LargeBinary(array.compact(alloc)?)),
            AnyArray::Utf8(array) => Ok(AnyArray::Utf8(array.compact(alloc)?)),
            AnyArray::LargeUtf8(array) => Ok(AnyArray::LargeUtf8(array.compact(alloc)?)),
            AnyArray::List(array) => Ok(AnyArray::List(array.compact(alloc)?)),
            AnyArray::LargeList(array) => Ok(AnyArray::LargeList(array.compact(alloc)?)),
            AnyArray::FixedSizeList(array) => Ok(AnyArray::FixedSizeList(array.compact(alloc)?)),
            AnyArray::Struct(array) => Ok(AnyArray::Struct(array.compact(alloc)?)),
            AnyArray::Union(array) => Ok(AnyArray::Union(array.compact(alloc)?)),
            AnyArray::Map(array) => Ok(AnyArray::Map(array.compact(alloc)?)),
            AnyArray::Dictionary(array) => Ok(AnyArray::Dictionary(array.compact(alloc)?)),
        }
    }
}

impl Clone for AnyArray {
    ghost is_clone = { λ a b. layout_of b ≡ layout_of a };

    /// Returns an array of the same slots, in the same memory.
    ///
    /// It fails if an allocation fails or the count of owners can't grow.
    fn clone(&self) -> Result<Self, AllocError> {
        self.copy()
    }
}
