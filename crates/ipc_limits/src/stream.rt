//! The schema message at the beginning of a stream, within a limit.
ghost use Rattle.std.specs.Prelude.{◌≤◌, IfOk};
ghost use Rattle.ipc_devices.specs.Device.{IsAnswered};
ghost use Rattle.ipc_devices.specs.Faults.{IfIo};
ghost use Rattle.lower.specs.TypeViews.{fields_view};
ghost use Rattle.ipc_base.specs.Fitting.{AllFit};
ghost use Rattle.ipc_base.specs.IdTrees.{all_ids_view};
ghost use Rattle.ipc_schema.specs.Views.{schema_seen};
ghost use Rattle.ipc_limits.specs.Metadata.{MetadataGaveWithin};
ghost use Rattle.ipc_costs.specs.Sizes.{schema_size};

use ipc_costs::cost::schema_cost;
use ipc_devices::Reads;
use ipc_devices::fault::{ArgFault, Fault, SchemaFault};
use ipc_readers::read::begun::{Begun, Frame};
use ipc_readers::read::frame::read_frame;
use ipc_readers::read::stream::{StreamMetadata, version_of};
use ipc_schema::read::schema::deserialize_schema;
use std::alloc::Global;

/// Reads the schema message of a stream, unless its schema costs more than `limit`.
///
/// The cost is that of [`schema_cost`]. Otherwise it is [`read_stream_metadata`]. The returned
/// schema has at most `limit` fields, pairs, union ids and text bytes together.
///
/// # Errors
/// - Those of [`read_stream_metadata`].
/// - `Argument(TooLarge)` exactly if the whole message was read and its schema costs more. Only the
///   memory of the message was allocated then, and the next message follows.
///
/// [`read_stream_metadata`]: ipc_readers::read::stream::read_stream_metadata
#[tactic(auto, unfolding(ipc_readers::specs::Metadata::metadata_at), using(crate::proofs::MetadataRuns::metadata_runs))]
pub fn read_stream_metadata_within<R: Reads>(
    alloc: Global,
    reader: &mut R,
    limit: u64,
) -> Result<StreamMetadata, Fault>
    ensures gives { MetadataGaveWithin R.gives limit reader.old result reader.new }
    ensures answered { IfIo result (IsAnswered R.device) }
    ensures fits { IfOk result (λ m. AllFit (fields_view m.schema.fields.items)
        (all_ids_view m.ipc_schema.fields.items)) }
    ensures bounded { IfOk result (λ m.
        schema_size (schema_seen (m.schema, m.ipc_schema)) ≤ limit) }
{
    let mut message = Vec::new(alloc);
    match read_frame(reader, &mut Begun::new(), &mut message)? {
        Frame::Message => {}
        Frame::Mark => return Err(Fault::Schema(SchemaFault::NotASchema)),
        Frame::Waiting => return Err(Fault::Ended),
    }
    if schema_cost(&message, limit).is_none() {
        return Err(Fault::Argument(ArgFault::TooLarge));
    }
    let (schema, ipc_schema) = deserialize_schema(alloc, &message)?;
    let version = version_of(&message)?;
    Ok(StreamMetadata {
        schema,
        version,
        ipc_schema,
    })
}
