//! Appends an array to a batch (Arrow columnar format, "RecordBatch message").
ghost use Rattle.std.specs.Prelude.{◌≡◌, ◌+◌, ◌^◌, ◌<◌, ◌++◌, length, IfErr, IfOk, MatchResult, OnErr, OnOk};
ghost use Rattle.lower_arrays.specs.AnyLayouts.{layout_of};
ghost use Rattle.lower_arrays.specs.Slots.{IsArray};
ghost use Rattle.ipc_devices.specs.declared.fault.Fault.TheVariants.{Memory};
ghost use Rattle.ipc_encode.specs.Api.{KeepsParts, parts};
ghost use Rattle.ipc_encode.specs.Appending.{TakesSayable, JoinsParts, PlansFrom, order_of};
ghost use Rattle.ipc_model.specs.Entries.{IsSize, size};
ghost use Rattle.ipc_model.specs.Offers.{whole_levels};
ghost use Rattle.ipc_plan.specs.Pieces.{pieces_bytes};

use ipc_devices::Fault;
use ipc_plan::plan::Plan;
use ipc_plan::sending::send_pieces;
use ipc_plan::serialize::plan_array;
use ipc_table_views::{Buffer, FieldNode};
use lower::types::Endianness;
use lower_arrays::array::AnyArray;
use std::alloc::Global;

// The byte order of numbers.
pub(crate) fn byte_order(is_little_endian: bool) -> Endianness
    ensures { result ≡ order_of is_little_endian }
{
    if is_little_endian {
        Endianness::Little
    } else {
        Endianness::Big
    }
}

// Plans an array whose first buffer begins at offset `start`.
fn plan_from<'a>(
    alloc: Global,
    array: &'a AnyArray,
    start: u64,
    order: Endianness,
) -> Result<Plan<'a>, Fault>
    requires { start < 2 ^ 63 }
    ensures plans { IfOk result (λ plan. PlansFrom order start (whole_levels (layout_of array.now)) plan) }
    ensures end { IfOk result (λ plan. plan.end ≡ start + length (pieces_bytes plan.order plan.pieces.items)) }
    ensures small { IfOk result (λ plan. plan.end < 2 ^ 63) }
    ensures takes { TakesSayable result (whole_levels (layout_of array.now)) start }
    ensures array { IsArray (layout_of array.now) }
{
    let len = array.len();
    let mut plan = Plan {
        order,
        nodes: Vec::new(alloc),
        buffers: Vec::new(alloc),
        pieces: Vec::new(alloc),
        end: start,
    };
    plan_array(&mut plan, array, 0, len)?;
    Ok(plan)
}

// Appends the nodes, the buffers and the `len` bytes of a plan, or nothing if an allocation fails.
fn append_plan(
    plan: &Plan<'_>,
    len: usize,
    buffers: &mut Vec<Buffer>,
    arrow_data: &mut Vec<u8>,
    nodes: &mut Vec<FieldNode>,
) -> Result<(), Fault>
    requires { len ≡ length (pieces_bytes plan.now.order plan.now.pieces.items) }
    ensures buffers { MatchResult result (λ _. buffers.new.items ≡ buffers.old.items ++ plan.now.buffers.items) (λ _. buffers.new.items ≡ buffers.old.items) }
    ensures bytes { MatchResult result (λ _. arrow_data.new.items ≡ arrow_data.old.items ++ pieces_bytes plan.now.order plan.now.pieces.items)
        (λ _. arrow_data.new.items ≡ arrow_data.old.items) }
    ensures nodes { MatchResult result (λ _. nodes.new.items ≡ nodes.old.items ++ plan.now.nodes.items) (λ _. nodes.new.items ≡ nodes.old.items) }
    ensures only { IfErr result (λ e. e ≡ Memory) }
{
    buffers.reserve(plan.buffers.len())?;
    nodes.reserve(plan.nodes.len())?;
    arrow_data.reserve(len)?;
    // There is room for all now, so nothing can fail.
    send_pieces(arrow_data, &plan.pieces, plan.order)?;
    buffers.extend_from_slice(&plan.buffers)?;
    nodes.extend_from_slice(&plan.nodes)?;
    Ok(())
}

/// Appends an array as one more column to a record batch.
///
/// It appends:
///
/// - To `nodes`, one node for each level of the array.
/// - To `buffers`, the buffers of these levels. Their offsets count from `offset`, which must be at
///   least 0.
/// - To `arrow_data`, their bytes, each buffer padded with zeros to a multiple of 64 bytes.
///
/// `offset` is then the end of the last buffer. `is_little_endian` is the byte order of the
/// numbers. For a dictionary the keys are appended; its values belong in a message of their own.
///
/// Errors (if several apply, any of them):
///
/// - `Fault::Argument(ArgFault::TooLong)`: the array at some level has more than `2^63 - 1` slots
///   to append.
/// - `Fault::Argument(ArgFault::TooLarge)`: the buffers would end after `2^63 - 1`.
/// - `Fault::Memory`: an allocation failed.
///
/// After an error all arguments are unchanged.
pub fn write(
    alloc: Global,
    array: &AnyArray,
    buffers: &mut Vec<Buffer>,
    arrow_data: &mut Vec<u8>,
    nodes: &mut Vec<FieldNode>,
    offset: &mut i64,
    is_little_endian: bool,
) -> Result<(), Fault>
    requires { IsSize offset.old }
    ensures exact { TakesSayable result (whole_levels (layout_of array.now)) (size offset.old) }
    ensures appends { OnOk result (JoinsParts (order_of is_little_endian) (layout_of array.now)
        (parts nodes.old.items buffers.old.items arrow_data.old.items offset.old)
        (parts nodes.new.items buffers.new.items arrow_data.new.items offset.new)) }
    ensures kept { OnErr result (KeepsParts
        (parts nodes.old.items buffers.old.items arrow_data.old.items offset.old)
        (parts nodes.new.items buffers.new.items arrow_data.new.items offset.new)) }
{
    let start = offset.cast_unsigned();
    let plan = plan_from(alloc, array, start, byte_order(is_little_endian))?;
    let len = (plan.end - start) as usize;
    append_plan(&plan, len, buffers, arrow_data, nodes)?;
    *offset = plan.end.cast_signed();
    Ok(())
}
