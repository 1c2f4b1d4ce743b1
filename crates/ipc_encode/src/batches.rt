//! Encodes batches as messages: metadata, and bodies in pieces.
//!
//! Arrow columnar format, "RecordBatch message" and "Dictionary Messages".
ghost use Rattle.std.specs.Prelude.{◌≡◌, ◌^◌, ◌<◌, [], map, IfOk};
ghost use Rattle.lower_arrays.specs.AnyLayouts.{layout_of};
ghost use Rattle.ipc_encode.specs.Api.{EncodesBatch};
ghost use Rattle.ipc_encode.specs.Appending.{order_of};
ghost use Rattle.ipc_encode.specs.Encoding.{AnswersBatch, IdFits, IsMessageOfPlan, header_in, levels_of};

use crate::serialize::byte_order;
use ipc_devices::{ArgFault, Fault};
use ipc_plan::plan::Plan;
use ipc_plan::serialize::plan_columns;
use ipc_table_views::MetadataVersion;
use ipc_tables::message::{DictionaryBatch, Message, MessageHeader, RecordBatch};
use lower_arrays::array::AnyArray;
use std::alloc::Global;
use std::mem::replace;

/// The kind of a batch.
#[derive(Clone, Copy, Debug, PartialEq, Eq)]
pub enum BatchKind {
    /// A record batch: the columns of a chunk.
    Record,
    /// A dictionary batch: the values of the dictionary with this id, as one column. They replace
    /// earlier ones.
    Dictionary(i64),
}

/// An encoded message of a batch.
#[derive(Drop)]
pub struct Encoded<'a> {
    /// The metadata: a table `Message` of `Message.fbs`.
    pub metadata: Vec<u8>,
    /// The body, in pieces that borrow the arrays. Its lists of nodes and buffers are empty, since
    /// the metadata have them.
    pub body: Plan<'a>,
}

// A record batch as the header of a message.
fn header(kind: BatchKind, batch: RecordBatch) -> MessageHeader
    ensures value { result ≡ header_in kind batch }
    ensures fits { IdFits kind }
{
    match kind {
        BatchKind::Record => MessageHeader::RecordBatch(batch),
        BatchKind::Dictionary(id) => MessageHeader::DictionaryBatch(DictionaryBatch {
            id,
            data_: Some(batch),
            is_delta: false,
        }),
    }
}

// The message of a batch with the nodes and the buffers of a plan. The plan keeps its pieces alone.
fn plan_to_message(alloc: Global, plan: &mut Plan<'_>, kind: BatchKind, length: i64) -> Message
    requires { plan.old.end < 2 ^ 63 }
    ensures value { IsMessageOfPlan result kind length plan.old }
    ensures fits { IdFits kind }
    ensures order { plan.new.order ≡ plan.old.order }
    ensures pieces { plan.new.pieces.items ≡ plan.old.pieces.items }
    ensures end { plan.new.end ≡ plan.old.end }
    ensures moved { (plan.new.nodes.items ≡ []) × (plan.new.buffers.items ≡ []) }
{
    let nodes = replace(&mut plan.nodes, Vec::new(alloc));
    let buffers = replace(&mut plan.buffers, Vec::new(alloc));
    let batch = RecordBatch {
        length,
        nodes,
        buffers,
        compression: None,
    };
    Message {
        version: MetadataVersion::V5,
        header: header(kind, batch),
        body_length: plan.end.cast_signed(),
        custom_metadata: None,
    }
}

/// Encodes columns of `rows` rows as the message of a batch.
///
/// The metadata have version V5 and no key-value pairs, and the body is planned: no byte of a
/// column is copied. `is_little_endian` is the byte order of the numbers in the body. For a
/// dictionary the keys are encoded; its values belong in a message of their own.
///
/// Errors (if several apply, any of them):
///
/// - `Fault::Argument(ArgFault::TooLong)`: there are more than `2^63 - 1` rows, or an array at some
///   level has more slots to write.
/// - `Fault::Argument(ArgFault::TooLarge)`: the body is longer than `2^63 - 1` bytes, or the
///   metadata than `2^31 - 1`.
/// - `Fault::Memory`: an allocation failed.
pub fn encode_batch<'a>(
    alloc: Global,
    kind: BatchKind,
    columns: &'a [AnyArray],
    rows: usize,
    is_little_endian: bool,
) -> Result<Encoded<'a>, Fault>
    ensures exact { AnswersBatch result kind rows (levels_of (map layout_of columns.now)) }
    ensures batch { let order = order_of is_little_endian in
        IfOk result (λ encoded. EncodesBatch kind order (map layout_of columns.now) rows encoded) }
{
    let Ok(length) = i64::try_from(rows) else {
        return Err(Fault::Argument(ArgFault::TooLong));
    };
    let mut plan = plan_columns(alloc, columns, byte_order(is_little_endian))?;
    let message = plan_to_message(alloc, &mut plan, kind, length);
    let metadata = message.to_bytes(alloc)?;
    Ok(Encoded {
        metadata,
        body: plan,
    })
}
