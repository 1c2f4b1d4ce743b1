//! The plan of a message: nodes, buffers, and the pieces of its body.
//!
//! Arrow columnar format, "RecordBatch message".
ghost use Rattle.std.specs.Prelude.{◌≡◌, ◌+◌, ◌-◌, ◌^◌, ◌<◌, ◌≤◌, pos, [], ◌∷◌, ◌++◌, length, OnOk};
ghost use Rattle.lower_types.specs.declared.Endianness.{Endianness};
ghost use Rattle.std.specs.Int.{next_multiple_of};
ghost use Rattle.ipc_plan.specs.Pieces.{buffer_pieces, piece_bytes, pieces_bytes};
ghost use Rattle.ipc_plan.specs.Taking.{TakesBuffers, TakesLevel, fault_of};
ghost use Rattle.ipc_plan.specs.declared.plan.PlanFault.TheVariants.{NoMemory};
ghost use Rattle.ipc_plan.specs.Plans.{AddsPieces, Grows, body};

use crate::pieces::{Padded, Piece};
use ipc_devices::{ArgFault, Fault};
use ipc_table_views::{Buffer as Entry, FieldNode};
use lower::types::Endianness;
use std::alloc::{AllocError, AllocFailed};

/// The nodes and buffers of a message, and its body in pieces.
///
/// The pieces borrow the arrays.
#[derive(Drop)]
pub struct Plan<'a> {
    /// The byte order of the numbers.
    pub order: Endianness,
    pub nodes: Vec<FieldNode>,
    pub buffers: Vec<Entry>,
    /// The body, with at most one piece for each buffer.
    pub pieces: Vec<Padded<'a>>,
    /// The offset of the next buffer in the body, in bytes.
    pub end: u64,
}

/// Why columns can't be planned. It is much smaller than a [`Fault`], which calls on each column
/// would pass on.
#[derive(Clone, Copy)]
pub enum PlanFault {
    /// A level has more than `2^63 - 1` slots to write.
    Long,
    /// The body would end after `2^63 - 1`.
    Large,
    /// An allocation failed.
    NoMemory,
}

impl From<AllocError> for PlanFault {
    ghost from_gives = { λ _ f. f ≡ NoMemory };

    fn from(_e: AllocError) -> PlanFault {
        PlanFault::NoMemory
    }
}

impl<T: Drop> From<AllocFailed<T>> for PlanFault {
    ghost from_gives = { λ _ f. f ≡ NoMemory };

    fn from(_e: AllocFailed<T>) -> PlanFault {
        PlanFault::NoMemory
    }
}

impl From<PlanFault> for Fault {
    ghost from_gives = { λ e f. f ≡ fault_of e };

    fn from(e: PlanFault) -> Fault {
        match e {
            PlanFault::Long => Fault::Argument(ArgFault::TooLong),
            PlanFault::Large => Fault::Argument(ArgFault::TooLarge),
            PlanFault::NoMemory => Fault::Memory,
        }
    }
}

// Adds the node of `len` slots, of which `nulls` are null.
//
// Errors: `Long` if there are more than `2^63 - 1` slots; `NoMemory`.
pub(crate) fn push_node(plan: &mut Plan<'_>, len: usize, nulls: usize) -> Result<(), PlanFault>
    requires small { plan.old.end < 2 ^ 63 }
    requires few { nulls ≤ len }
    ensures grows { OnOk result (Grows plan.old plan.new (record { length = pos len; null_count = pos nulls } ∷ []) []) }
    ensures takes { TakesLevel result len [] plan.old.end plan.new.end }
{
    let Ok(length) = i64::try_from(len) else {
        return Err(PlanFault::Long);
    };
    let Ok(null_count) = i64::try_from(nulls) else {
        return Err(PlanFault::Long);
    };
    plan.nodes.push(FieldNode { length, null_count })?;
    Ok(())
}

// Adds a piece of `len` bytes, unless that is 0, and as many zeros as its padding takes.
fn push_piece<'a>(
    pieces: &mut Vec<Padded<'a>>,
    piece: Piece<'a>,
    len: usize,
    zeros: usize,
) -> Result<(), AllocError>
    requires { zeros ≡ next_multiple_of len 64 - len }
    ensures bytes { OnOk result ((order : Endianness) → len ≡ length (piece_bytes order piece.entry)
        → pieces_bytes order pieces.new.items
        ≡ pieces_bytes order pieces.old.items ++ body (piece_bytes order piece.entry ∷ [])) }
    ensures few { OnOk result (length pieces.new.items ≤ length pieces.old.items + 1) }
    ensures adds { OnOk result (pieces.new.items
        ≡ pieces.old.items ++ buffer_pieces piece.entry len) }
{
    if len == 0 {
        return Ok(());
    }
    pieces.push(Padded { piece, zeros })?;
    Ok(())
}

// Adds a buffer of `len` bytes: its entry, and its piece with zeros up to a multiple of 64 bytes.
//
// Errors: `Large` if it would end after `2^63 - 1`; `NoMemory`.
pub(crate) fn push_buffer<'a>(
    plan: &mut Plan<'a>,
    piece: Piece<'a>,
    len: usize,
) -> Result<(), PlanFault>
    requires small { plan.old.end < 2 ^ 63 }
    requires len { len ≡ length (piece_bytes plan.old.order piece) }
    ensures grows { OnOk result (Grows plan.old plan.new [] (piece_bytes plan.old.order piece.entry ∷ [])) }
    ensures takes { TakesBuffers result (len ∷ []) plan.old.end plan.new.end }
    ensures adds { OnOk result (AddsPieces plan.old plan.new piece.entry len) }
{
    let Ok(length) = i64::try_from(len) else {
        return Err(PlanFault::Large);
    };
    let padded = len.next_multiple_of(64);
    let end = plan.end + padded as u64;
    if end >= 1 << 63 {
        return Err(PlanFault::Large);
    }
    plan.buffers.push(Entry {
        offset: plan.end.cast_signed(),
        length,
    })?;
    push_piece(&mut plan.pieces, piece, len, padded - len)?;
    plan.end = end;
    Ok(())
}
