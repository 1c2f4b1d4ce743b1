//! The schema message at the beginning of a stream.
ghost use Rattle.std.specs.Prelude.{◌≡◌, IfOk};
ghost use Rattle.ipc_devices.specs.Device.{IsAnswered};
ghost use Rattle.ipc_devices.specs.Faults.{IfIo, OnIo};
ghost use Rattle.lower.specs.TypeViews.{fields_view, schema_view};
ghost use Rattle.ipc_base.specs.Fitting.{AllFit};
ghost use Rattle.ipc_base.specs.IdTrees.{all_ids_view, ipc_schema_view};
ghost use Rattle.ipc_readers.specs.Metadata.{version_at, MetadataGave};

use crate::read::begun::{Begun, Frame};
use crate::read::frame::read_frame;
use ipc_base::ipc::IpcSchema;
use ipc_devices::Reads;
use ipc_devices::fault::{Fault, OutOfSpecKind, SchemaFault};
use ipc_schema::read::schema::deserialize_schema;
use ipc_table_views::{MessageRef, MetadataVersion};
use lower::datatypes::Schema;
use std::alloc::{AllocError, Global};

/// The content of the schema message, which applies to all later messages.
#[derive(Debug, Drop)]
pub struct StreamMetadata {
    /// The names and types of the columns.
    pub schema: Schema,
    /// The version of the message, by which all batches are read.
    pub version: MetadataVersion,
    /// The dictionary ids, and the byte order of the bodies.
    pub ipc_schema: IpcSchema,
}

impl StreamMetadata {
    /// Makes a copy. `AllocError` if an allocation fails.
    pub fn clone(&self) -> Result<StreamMetadata, AllocError>
        ensures schema { IfOk result (λ copy.
            schema_view copy.schema ≡ schema_view self.now.schema) }
        ensures version { IfOk result (λ copy. copy.version ≡ self.now.version) }
        ensures ids { IfOk result (λ copy.
            ipc_schema_view copy.ipc_schema ≡ ipc_schema_view self.now.ipc_schema) }
    {
        Ok(StreamMetadata {
            schema: self.schema.clone()?,
            version: self.version,
            ipc_schema: self.ipc_schema.clone()?,
        })
    }
}

/// The metadata version of a message.
///
/// # Errors
/// - `Schema(Table(..))`: the message's own table is malformed.
/// - `OutOfSpec(InvalidFlatbufferVersion)`: its version is.
#[tactic(auto, unfolding(crate::specs::Metadata::version_at))]
pub fn version_of(message: &[u8]) -> Result<MetadataVersion, Fault>
    ensures version { result ≡ version_at message.now }
    ensures device { OnIo result ⊥ }
{
    let message = match MessageRef::read_as_root(message) {
        Ok(message) => message,
        Err(e) => return Err(Fault::Schema(SchemaFault::Table(e))),
    };
    match message.version() {
        Ok(version) => Ok(version),
        Err(e) => Err(Fault::OutOfSpec(OutOfSpecKind::InvalidFlatbufferVersion(e))),
    }
}

/// Reads the schema message at the beginning of a stream.
///
/// On `Ok`, exactly its frame was read from the device, so the next message follows. On an error it
/// was at most the frame. The returned dictionary ids have the shape of the fields.
///
/// # Errors
/// - Those of [`read_frame`] and [`deserialize_schema`].
/// - `Ended`: the input ends before or inside the message.
/// - `Schema(NotASchema)`: the end mark is in its place.
/// - `OutOfSpec(InvalidFlatbufferVersion)`: the version of the message is malformed.
#[tactic(auto, unfolding(crate::specs::Metadata::metadata_at), using(crate::proofs::MetadataRuns::metadata_runs))]
pub fn read_stream_metadata<R: Reads>(
    alloc: Global,
    reader: &mut R,
) -> Result<StreamMetadata, Fault>
    ensures gives { MetadataGave R.gives reader.old result reader.new }
    ensures answered { IfIo result (IsAnswered R.device) }
    ensures fits { IfOk result (λ m. AllFit (fields_view m.schema.fields.items)
        (all_ids_view m.ipc_schema.fields.items)) }
{
    let mut message = Vec::new(alloc);
    match read_frame(reader, &mut Begun::new(), &mut message)? {
        Frame::Message => {}
        Frame::Mark => return Err(Fault::Schema(SchemaFault::NotASchema)),
        Frame::Waiting => return Err(Fault::Ended),
    }
    let (schema, ipc_schema) = deserialize_schema(alloc, &message)?;
    let version = version_of(&message)?;
    Ok(StreamMetadata {
        schema,
        version,
        ipc_schema,
    })
}
