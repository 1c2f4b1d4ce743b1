//! The type ids and offsets of null slots of a union.
ghost use Rattle.std.specs.Prelude.{◌≡◌, ℕ, ◌<◌, IfOk, MatchOption};
ghost use Rattle.lower.specs.TypeViews.{ids_of};
ghost use Rattle.lower_validation.specs.Ids.{IdsFit};
ghost use Rattle.lower_nulls.specs.Nulls.{first_id};
ghost use Rattle.lower_nulls.specs.Storage.{zero_places};

use crate::parts::repeated;
use lower::buffer::Buffer;
use lower::datatypes::UnionMode;
use std::alloc::{AllocError, Global};

// The type id of the first child, or `None` if the ids fit no children.
pub(crate) fn first_type(ids: &Option<Vec<i32>>) -> Option<i8>
    ensures { MatchOption result
        ((n : ℕ) → 0 < n → ¬ (IdsFit (ids_of ids.now) n))
        (λ id. id ≡ first_id (ids_of ids.now)) }
{
    let Some(ids) = ids else {
        return Some(0);
    };
    let Some(first) = ids.first() else {
        return None;
    };
    i8::try_from(*first).ok()
}

// The offsets of slots that are all the first slot of a child; a sparse union has none.
pub(crate) fn zero_offsets_of(
    alloc: Global,
    mode: UnionMode,
    length: usize,
) -> Result<Option<Buffer<i32>>, AllocError>
    ensures { IfOk result (λ offsets. offsets ≡ zero_places mode length) }
{
    match mode {
        UnionMode::Sparse => Ok(None),
        UnionMode::Dense => Ok(Some(Buffer::new(repeated::<i32>(alloc, 0, length)?)?)),
    }
}
