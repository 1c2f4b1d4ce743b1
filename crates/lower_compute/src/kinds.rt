//! Arrays of one kind.
ghost use Rattle.std.specs.Prelude.{◌≡◌, map, IfOk, MatchOption};
ghost use Rattle.std.specs.List.{All};
ghost use Rattle.lower_arrays.specs.Layouts.{Parts, Layout, level};
ghost use Rattle.lower_arrays.specs.AnyLayouts.{layout_of};

use lower_arrays::array::{
    AnyArray, BinaryArray, BooleanArray, DictionaryArray, FixedSizeBinaryArray, UnionArray,
    Utf8Array,
};
use std::alloc::{AllocError, Global};

/// A type of arrays of one kind.
pub(crate) trait Kind {
    // The layout of an array.
    ghost layout: { Self → Layout };

    // The parts of arrays of this kind.
    ghost is_kind: { Parts → Type 0 };

    /// Returns the array as one of this kind, or `None` if it is of another.
    fn downcast_ref(array: &AnyArray) -> Option<&Self>
        ensures { MatchOption result
            (¬ (is_kind (level (layout_of array.now)).parts))
            (λ a. layout a.now ≡ layout_of array.now) };
}

impl Kind for BooleanArray {
    ghost use Rattle.lower_arrays.specs.Flat.{boolean_layout};
    ghost use Rattle.lower_compute.specs.Kinds.{AreTruths};

    ghost layout = { boolean_layout };

    ghost is_kind = { AreTruths };

    fn downcast_ref(array: &AnyArray) -> Option<&BooleanArray> {
        match array {
            AnyArray::Boolean(array) => Some(array),
            _ => None,
        }
    }
}

impl Kind for FixedSizeBinaryArray {
    ghost use Rattle.lower_arrays.specs.Flat.{fixed_layout};
    ghost use Rattle.lower_compute.specs.Kinds.{AreFixedBytes};

    ghost layout = { fixed_layout };

    ghost is_kind = { AreFixedBytes };

    fn downcast_ref(array: &AnyArray) -> Option<&FixedSizeBinaryArray> {
        match array {
            AnyArray::FixedSizeBinary(array) => Some(array),
            _ => None,
        }
    }
}

impl Kind for BinaryArray<i32> {
    ghost use Rattle.lower_types.specs.declared.PrimitiveType.TheVariants.{Int32};
    ghost use Rattle.lower_arrays.specs.Flat.{bytes_layout};
    ghost use Rattle.lower_compute.specs.Kinds.{AreBytes};

    ghost layout = { bytes_layout Int32 };

    ghost is_kind = { AreBytes Int32 };

    fn downcast_ref(array: &AnyArray) -> Option<&BinaryArray<i32>> {
        match array {
            AnyArray::Binary(array) => Some(array),
            _ => None,
        }
    }
}

impl Kind for BinaryArray<i64> {
    ghost use Rattle.lower_types.specs.declared.PrimitiveType.TheVariants.{Int64};
    ghost use Rattle.lower_arrays.specs.Flat.{bytes_layout};
    ghost use Rattle.lower_compute.specs.Kinds.{AreBytes};

    ghost layout = { bytes_layout Int64 };

    ghost is_kind = { AreBytes Int64 };

    fn downcast_ref(array: &AnyArray) -> Option<&BinaryArray<i64>> {
        match array {
            AnyArray::LargeBinary(array) => Some(array),
            _ => None,
        }
    }
}

impl Kind for Utf8Array<i32> {
    ghost use Rattle.lower_types.specs.declared.PrimitiveType.TheVariants.{Int32};
    ghost use Rattle.lower_arrays.specs.Flat.{texts_layout};
    ghost use Rattle.lower_compute.specs.Kinds.{AreStrings};

    ghost layout = { texts_layout Int32 };

    ghost is_kind = { AreStrings Int32 };

    fn downcast_ref(array: &AnyArray) -> Option<&Utf8Array<i32>> {
        match array {
            AnyArray::Utf8(array) => Some(array),
            _ => None,
        }
    }
}

impl Kind for Utf8Array<i64> {
    ghost use Rattle.lower_types.specs.declared.PrimitiveType.TheVariants.{Int64};
    ghost use Rattle.lower_arrays.specs.Flat.{texts_layout};
    ghost use Rattle.lower_compute.specs.Kinds.{AreStrings};

    ghost layout = { texts_layout Int64 };

    ghost is_kind = { AreStrings Int64 };

    fn downcast_ref(array: &AnyArray) -> Option<&Utf8Array<i64>> {
        match array {
            AnyArray::LargeUtf8(array) => Some(array),
            _ => None,
        }
    }
}

impl Kind for DictionaryArray {
    ghost use Rattle.lower_arrays.specs.Dictionaries.{dictionary_layout};
    ghost use Rattle.lower_compute.specs.Kinds.{AreKeys};

    ghost layout = { dictionary_layout };

    ghost is_kind = { AreKeys };

    fn downcast_ref(array: &AnyArray) -> Option<&DictionaryArray> {
        match array {
            AnyArray::Dictionary(array) => Some(array),
            _ => None,
        }
    }
}

impl Kind for UnionArray {
    ghost use Rattle.lower_arrays.specs.Unions.{union_layout};
    ghost use Rattle.lower_compute.specs.Kinds.{AreChoices};

    ghost layout = { union_layout };

    ghost is_kind = { AreChoices };

    fn downcast_ref(array: &AnyArray) -> Option<&UnionArray> {
        match array {
            AnyArray::Union(array) => Some(array),
            _ => None,
        }
    }
}

/// Returns the arrays as arrays of this kind.
pub(crate) fn all_of<'a, K: Kind>(
    alloc: Global,
    arrays: &[&'a AnyArray],
) -> Result<Vec<&'a K>, AllocError>
    requires { All (λ l. K.is_kind (level l).parts) (map (λ a. layout_of a.now) arrays.now) }
    ensures { IfOk result
        (λ v. map (λ a. K.layout a.now) v.items ≡ map (λ a. layout_of a.now) arrays.now) }
{
    let mut all = Vec::with_capacity(alloc, arrays.len())?;
    for any in arrays {
        let Some(array) = K::downcast_ref(*any) else {
            unreachable!();
        };
        all.push(array)?;
    }
    Ok(all)
}
