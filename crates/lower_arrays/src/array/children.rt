//! Slicing and cloning of all children.
ghost use Rattle.std.specs.Prelude.{◌≡◌, ◌+◌, IfOk, map};
ghost use Rattle.lower_arrays.specs.Layouts.{layouts};
ghost use Rattle.lower_arrays.specs.Children.{AllReach};
ghost use Rattle.lower_arrays.specs.Cuts.{cut};
ghost use Rattle.lower_arrays.specs.AnyLayouts.{layout_of};

use super::AnyArray;
use lower::datatypes::DataType;
use lower_validation::children::Child;
use std::alloc::{AllocError, Global};

impl Child for AnyArray {
    ghost use Rattle.lower_arrays.specs.Layouts.{len_of, type_of};
    ghost use Rattle.lower_arrays.specs.Slots.{IsArray};
    ghost use Rattle.lower_arrays.specs.AnyLayouts.{layout_of};

    ghost child_type = { λ a. type_of (layout_of a) };

    ghost child_len = { λ a. len_of (layout_of a) };

    ghost is_child = { λ a. IsArray (layout_of a) };

    fn data_type(&self) -> &DataType {
        self.data_type()
    }

    fn len(&self) -> usize {
        self.len()
    }
}

/// Returns the `len` slots from `offset` of each child. It allocates nothing.
#[cycle(slices)]
pub fn sliced_each(mut children: Vec<AnyArray>, offset: usize, len: usize) -> Vec<AnyArray>
    requires { AllReach (offset + len) (layouts (map layout_of children.items)) }
    ensures { map layout_of result.items ≡ map (cut offset len) (map layout_of children.items) }
{
    for i in 0..children.len() {
        children[i].slice(offset, len);
    }
    children
}

/// Returns clones of the children, in the same memory.
///
/// It fails if an allocation fails or the count of owners can't grow.
#[cycle(copies)]
pub fn copy_each(alloc: Global, children: &[AnyArray]) -> Result<Vec<AnyArray>, AllocError>
    ensures { IfOk result (λ copies. map layout_of copies.items ≡ map layout_of children.now) }
{
    let mut copies = Vec::new(alloc);
    for child in children {
        copies.push(child.copy()?)?;
    }
    Ok(copies)
}

/// Returns copies of the children in memory of their own.
///
/// It fails only if an allocation fails.
#[cycle(compacts)]
pub fn compact_each(alloc: Global, children: &[AnyArray]) -> Result<Vec<AnyArray>, AllocError>
    ensures { IfOk result (λ copies. map layout_of copies.items ≡ map layout_of children.now) }
{
    let mut copies = Vec::new(alloc);
    for child in children {
        copies.push(child.compact(alloc)?)?;
    }
    Ok(copies)
}

/// Returns the number of bytes that the children retain.
#[cycle(retains)]
pub fn retained_each(children: &[AnyArray]) -> usize {
    let mut bytes = 0usize;
    for child in children {
        bytes = bytes.saturating_add(child.retained_bytes());
    }
    bytes
}
