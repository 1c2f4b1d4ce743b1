//! Whether the slots of a union exist in its children.
ghost use Rattle.std.specs.Prelude.{◌≡◌, ◌↔◌, pos, ◌<◌, length, map, get_or, IsTrue, IfOk};
ghost use Rattle.std.specs.Option.{option_copied};
ghost use Rattle.lower_validation.specs.Keys.{KeyFits};
ghost use Rattle.lower_validation.specs.Ids.{child_number, NamesChild, AreNamed};
ghost use Rattle.lower_validation.specs.Places.{OffsetsFit, PlacesGiven, PlacesFit};

use crate::children::{Child, have_len};
use crate::ids::child_number;
use lower::buffer::Buffer;
use std::alloc::{AllocError, Global};

// Whether an offset is from 0 to below `len`.
fn is_place(offset: i32, len: usize) -> bool
    ensures { IsTrue result ↔ KeyFits offset len }
{
    offset >= 0 && (offset.cast_unsigned() as usize) < len
}

// The index of the child of the slot at `index`.
fn child_at(ids: Option<&[i32]>, types: &[i8], index: usize) -> usize
    requires { index < length types.now }
    ensures { result ≡ child_number (option_copied ids.entry) (get_or types.now index (pos 0)) }
{
    child_number(ids, types[index])
}

// Whether the offset at `index` is a slot of its child.
fn has_place<C: Child>(
    ids: Option<&[i32]>,
    types: &[i8],
    offsets: &[i32],
    children: &[C],
    index: usize,
) -> bool
    requires here { index < length types.now }
    requires given { index < length offsets.now }
    requires named { NamesChild (option_copied ids) (length children.now) (get_or types.now index (pos 0)) }
    ensures { IsTrue result ↔ KeyFits (get_or offsets.now index (pos 0)) (get_or (map C.child_len children.now) (child_number (option_copied ids.entry) (get_or types.now index (pos 0))) 0) }
{
    let child = &children[child_at(ids, types, index)];
    is_place(offsets[index], child.len())
}

// Whether each offset is a slot of its child.
fn offsets_fit<C: Child>(ids: Option<&[i32]>, types: &[i8], offsets: &[i32], children: &[C]) -> bool
    requires given { length offsets.now ≡ length types.now }
    requires named { AreNamed (option_copied ids) types.now (length children.now) }
    ensures { IsTrue result ↔ OffsetsFit (option_copied ids.entry) types.now offsets.now (map C.child_len children.now) }
{
    for index in 0..types.len() {
        if !has_place(ids, types, offsets, children, index) {
            return false;
        }
    }
    true
}

/// Returns whether each slot exists in its child.
///
/// In a sparse union each child must have as many slots as the union. In a dense one, each offset
/// must be from 0 to below the length of its child.
pub fn places_fit<C: Child>(
    ids: Option<&[i32]>,
    types: &[i8],
    offsets: &Option<Buffer<i32>>,
    children: &[C],
) -> bool
    requires given { PlacesGiven offsets.now (length types.now) }
    requires named { AreNamed (option_copied ids) types.now (length children.now) }
    ensures { IsTrue result ↔ PlacesFit (option_copied ids.entry) types.now offsets.now (map C.child_len children.now) }
{
    match offsets {
        None => have_len(children, types.len()),
        Some(offsets) => offsets_fit(ids, types, offsets.as_slice(), children),
    }
}

/// Returns the same offsets, in the same memory.
///
/// It fails only if the count of owners can't grow.
pub fn clone_offsets(offsets: &Option<Buffer<i32>>) -> Result<Option<Buffer<i32>>, AllocError>
    ensures { IfOk result (λ copy. copy ≡ offsets.now) }
{
    match offsets {
        None => Ok(None),
        Some(offsets) => Ok(Some(offsets.clone()?)),
    }
}

/// Returns the same offsets in memory of their own.
pub fn compact_offsets(
    alloc: Global,
    offsets: &Option<Buffer<i32>>,
) -> Result<Option<Buffer<i32>>, AllocError>
    ensures { IfOk result (λ copy. copy ≡ offsets.now) }
{
    match offsets {
        None => Ok(None),
        Some(offsets) => Ok(Some(offsets.compact(alloc)?)),
    }
}

/// Returns the number of bytes that the offsets retain, as [`Buffer::retained_bytes`].
pub fn offsets_bytes(offsets: &Option<Buffer<i32>>) -> usize {
    match offsets {
        None => 0,
        Some(offsets) => offsets.retained_bytes(),
    }
}
