//! Null keys of dictionaries.
ghost use Rattle.std.specs.Prelude.{IfOk};
ghost use Rattle.lower_validation.specs.AnyKeys.{keys_seen};
ghost use Rattle.lower_nulls.specs.Storage.{AreNullKeys};

use crate::numbers::null_numbers;
use lower::datatypes::{DataType, IntegerType};
use lower_validation::keys::DictionaryKeys;
use std::alloc::{AllocError, Global};

// `length` null keys.
#[tactic(auto, using(crate::proofs::NullKeys::keys_null))]
pub(crate) fn null_keys(
    alloc: Global,
    keys: IntegerType,
    length: usize,
) -> Result<DictionaryKeys, AllocError>
    ensures { IfOk result (λ all. AreNullKeys keys length (keys_seen all)) }
{
    let data_type = DataType::from(keys);
    match keys {
        IntegerType::Int8 => Ok(DictionaryKeys::Int8(null_numbers(alloc, data_type, length)?)),
        IntegerType::Int16 => Ok(DictionaryKeys::Int16(null_numbers(alloc, data_type, length)?)),
        IntegerType::Int32 => Ok(DictionaryKeys::Int32(null_numbers(alloc, data_type, length)?)),
        IntegerType::Int64 => Ok(DictionaryKeys::Int64(null_numbers(alloc, data_type, length)?)),
        IntegerType::UInt8 => Ok(DictionaryKeys::UInt8(null_numbers(alloc, data_type, length)?)),
        IntegerType::UInt16 => Ok(DictionaryKeys::UInt16(null_numbers(alloc, data_type, length)?)),
        IntegerType::UInt32 => Ok(DictionaryKeys::UInt32(null_numbers(alloc, data_type, length)?)),
        IntegerType::UInt64 => Ok(DictionaryKeys::UInt64(null_numbers(alloc, data_type, length)?)),
    }
}
