//! Encodes vectors of structs and of numbers.
ghost use Rattle.std.specs.Prelude.{◌≡◌, ◌++◌, IfOk, OnOk, option_map};
ghost use Rattle.std.specs.List.{flat_map};
ghost use Rattle.ipc_table_bytes.specs.Parts.{IsPart};
ghost use Rattle.ipc_tables.specs.Elements.{elements_of};
ghost use Rattle.ipc_tables.specs.Slots.{IsOptional};

use ipc_table_bytes::{Built, Pool, Slot, elements, elements_header};
use std::alloc::AllocError;

/// An element without offsets: a struct, or a number.
pub(crate) trait Element: Copy + Drop {
    ghost use Rattle.std.specs.Prelude.{ℕ, ◌≡◌, ◌<◌, ◌%◌, List, length};

    // The length of one in bytes, and the alignment of the first.
    ghost size: { ℕ };

    ghost align: { ℕ };

    // The bytes of one.
    ghost spelt: { Self → List ℕ };

    // The length of one in bytes.
    fn len() -> usize
        ensures { result ≡ size };

    // Appends the bytes of one.
    fn put(self, bytes: &mut Vec<u8>) -> Result<(), AllocError>
        ensures { OnOk result (bytes.new.items ≡ bytes.old.items ++ spelt self) };

    ghost sized: { (x : Self) → length (spelt x) ≡ size };

    ghost some: { 0 < size };

    ghost aligned: { 8 % align ≡ 0 };
}

// Appends the bytes of some elements.
fn put_all<S: Element>(bytes: &mut Vec<u8>, values: &[S]) -> Result<(), AllocError>
    ensures { OnOk result (bytes.new.items ≡ bytes.old.items ++ flat_map S.spelt values.now) }
{
    for value in values {
        value.put(bytes)?;
    }
    Ok(())
}

/// Returns the vector of some elements.
pub(crate) fn elements_part<S: Element>(pool: &mut Pool, values: &[S]) -> Result<Built, AllocError>
    ensures { IfOk result (λ built. IsPart built (elements_of S.align S.size S.spelt values.now)) }
{
    let len = S::len().saturating_mul(values.len());
    let mut bytes = elements_header(pool, values.len(), len)?;
    put_all(&mut bytes, values)?;
    elements(bytes)
}

/// Returns the slot for a vector of some elements, or an absent slot.
pub(crate) fn elements_slot<S: Element>(
    pool: &mut Pool,
    values: &Option<Vec<S>>,
) -> Result<Slot, AllocError>
    ensures { IfOk result (λ slot. IsOptional slot
        (option_map (λ v. elements_of S.align S.size S.spelt v.items) values.now)) }
{
    match values {
        None => Ok(Slot::Absent),
        Some(values) => Ok(Slot::Offset(elements_part(pool, values.as_slice())?)),
    }
}
