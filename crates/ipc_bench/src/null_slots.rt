//! Null slots of arrays of each kind.

use bench_devices::column_kinds::{binary, booleans, fixed_size_binary, numbers, texts};
use ipc_devices::Fault;
use lower::datatypes::DataType;
use lower_arrays::array::{AnyArray, NullArray};
use std::alloc::Global;

fn second_is_null_in_numbers(alloc: Global) -> Result<bool, Fault> {
    let array = numbers(alloc)?;
    Ok(array.len() == 2 && !array.is_null(0) && array.is_null(1))
}

fn second_is_null_in_booleans(alloc: Global) -> Result<bool, Fault> {
    let array = booleans(alloc)?;
    Ok(array.len() == 2 && !array.is_null(0) && array.is_null(1))
}

fn second_is_null_in_texts(alloc: Global) -> Result<bool, Fault> {
    let array = texts(alloc)?;
    Ok(array.len() == 2 && !array.is_null(0) && array.is_null(1))
}

fn second_is_null_in_binary(alloc: Global) -> Result<bool, Fault> {
    let array = binary(alloc)?;
    Ok(array.len() == 2 && !array.is_null(0) && array.is_null(1))
}

fn second_is_null_in_fixed_size_binary(alloc: Global) -> Result<bool, Fault> {
    let array = fixed_size_binary(alloc)?;
    Ok(array.len() == 2 && !array.is_null(0) && array.is_null(1))
}

fn second_is_null_in_any_array(alloc: Global) -> Result<bool, Fault> {
    let array = AnyArray::from(numbers(alloc)?);
    Ok(array.len() == 2 && !array.is_null(0) && array.is_null(1))
}

#[test]
fn second_slot_is_null(rt: HostRuntime) -> Result<(), Fault> {
    let alloc = rt.alloc();
    assert!(rt; second_is_null_in_numbers(alloc)?);
    assert!(rt; second_is_null_in_booleans(alloc)?);
    assert!(rt; second_is_null_in_texts(alloc)?);
    assert!(rt; second_is_null_in_binary(alloc)?);
    assert!(rt; second_is_null_in_fixed_size_binary(alloc)?);
    assert!(rt; second_is_null_in_any_array(alloc)?);
    Ok(())
}

#[test]
fn every_slot_of_a_null_array_is_null(rt: HostRuntime) -> Result<(), Fault> {
    let nulls = NullArray::try_new(DataType::Null, 2)?;
    assert!(rt; nulls.len() == 2 && nulls.is_null(0) && nulls.is_null(1));
    Ok(())
}
