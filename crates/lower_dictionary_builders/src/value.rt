//! Integers that are values of dictionaries.
ghost use Rattle.std.specs.Prelude.{◌≡◌, None, IfOk};
ghost use Rattle.std.specs.Bool.{Decides};
ghost use Rattle.std.proofs.lemmas.Bool.Decides.{Decides-int_eq, Decides-eqb};
ghost use Rattle.lower.specs.TypeTrees.{plain};
ghost use Rattle.lower.specs.Physical.{number_type};
ghost use Rattle.lower_flat_arrays.specs.Primitives.{primitive_seen};
ghost use Rattle.lower_arrays.specs.Primitives.{primitive_layout};
ghost use Rattle.lower_arrays.specs.AnyLayouts.{layout_of};

use lower::types::NativeType;
use lower_arrays::array::AnyArray;
use lower_flat_arrays::PrimitiveArray;
use std::alloc::{AllocError, Global};
use std::hash::Hash;

/// An integer type that the values of a dictionary can have.
pub trait DictionaryValue: NativeType + Eq + Hash {
    /// Returns an array of a copy of these integers, without nulls.
    ///
    /// Its data type is what [`DataType::from`](lower::datatypes::DataType::from) gives for theirs.
    /// It fails only if an allocation fails.
    fn array_of(alloc: Global, values: &[Self]) -> Result<AnyArray, AllocError>
        ensures { let seen = primitive_seen (plain (number_type Self.primitive)) values.now None in
            IfOk result (λ a. layout_of a ≡ primitive_layout Self.primitive Self.number seen) };

    // Integers are equal exactly if they are the same.
    ghost decides: { (x y : Self) → Decides (Self.eq x y) (x ≡ y) };
}

impl DictionaryValue for i8 {
    ghost decides = { Decides-int_eq };

    fn array_of(alloc: Global, values: &[i8]) -> Result<AnyArray, AllocError> {
        Ok(AnyArray::from(PrimitiveArray::from_slice(alloc, values)?))
    }
}

impl DictionaryValue for i16 {
    ghost decides = { Decides-int_eq };

    fn array_of(alloc: Global, values: &[i16]) -> Result<AnyArray, AllocError> {
        Ok(AnyArray::from(PrimitiveArray::from_slice(alloc, values)?))
    }
}

impl DictionaryValue for i32 {
    ghost decides = { Decides-int_eq };

    fn array_of(alloc: Global, values: &[i32]) -> Result<AnyArray, AllocError> {
        Ok(AnyArray::from(PrimitiveArray::from_slice(alloc, values)?))
    }
}

impl DictionaryValue for i64 {
    ghost decides = { Decides-int_eq };

    fn array_of(alloc: Global, values: &[i64]) -> Result<AnyArray, AllocError> {
        Ok(AnyArray::from(PrimitiveArray::from_slice(alloc, values)?))
    }
}

impl DictionaryValue for u8 {
    ghost decides = { Decides-eqb };

    fn array_of(alloc: Global, values: &[u8]) -> Result<AnyArray, AllocError> {
        Ok(AnyArray::from(PrimitiveArray::from_slice(alloc, values)?))
    }
}

impl DictionaryValue for u16 {
    ghost decides = { Decides-eqb };

    fn array_of(alloc: Global, values: &[u16]) -> Result<AnyArray, AllocError> {
        Ok(AnyArray::from(PrimitiveArray::from_slice(alloc, values)?))
    }
}

impl DictionaryValue for u32 {
    ghost decides = { Decides-eqb };

    fn array_of(alloc: Global, values: &[u32]) -> Result<AnyArray, AllocError> {
        Ok(AnyArray::from(PrimitiveArray::from_slice(alloc, values)?))
    }
}

impl DictionaryValue for u64 {
    ghost decides = { Decides-eqb };

    fn array_of(alloc: Global, values: &[u64]) -> Result<AnyArray, AllocError> {
        Ok(AnyArray::from(PrimitiveArray::from_slice(alloc, values)?))
    }
}
