//! The footer of a file: the Arrow columnar format, "IPC File Format", and `File.fbs`.
ghost use Rattle.std.specs.Prelude.{◌≡◌, IfOk, IfErr};
ghost use Rattle.ipc_devices.specs.Faults.{OnIo};
ghost use Rattle.lower.specs.TypeViews.{fields_view};
ghost use Rattle.ipc_base.specs.Fitting.{AllFit};
ghost use Rattle.ipc_base.specs.IdTrees.{all_ids_view};
ghost use Rattle.ipc_table_views.specs.FileSlots.{footer_dictionaries, footer_record_batches, footer_schema};
ghost use Rattle.ipc_table_views.specs.Tables.{root_at};
ghost use Rattle.ipc_model.specs.Files.{footer_at};
ghost use Rattle.ipc_model.specs.Schemas.{made, present, given, schema_at};
ghost use Rattle.ipc_schema.specs.Views.{schema_seen};
ghost use Rattle.ipc_files.specs.Footers.{FooterFault, GivesPart, RootFault, file_seen, optional_blocks};

use crate::read::file::metadata::FileMetadata;
use crate::read::file::pairs::{in_footer, read_custom_metadata};
use ipc_base::ipc::IpcSchema;
use ipc_devices::fault::{Fault, OutOfSpecKind};
use ipc_schema::read::schema::fb_to_schema;
use ipc_table_views::{Block, Blocks, FooterRef};
use lower::datatypes::Schema;
use std::alloc::{AllocError, Global};

fn copied_blocks(alloc: Global, blocks: &Blocks<'_>) -> Result<Vec<Block>, AllocError>
    ensures { IfOk result (λ copy. copy.items ≡ blocks.now) }
{
    let mut copy = Vec::with_capacity(alloc, blocks.len())?;
    for i in 0..blocks.len() {
        copy.push(blocks.get(i))?;
    }
    Ok(copy)
}

// The record blocks, or `MissingRecordBatches`.
fn read_blocks(alloc: Global, footer: &FooterRef<'_>) -> Result<Vec<Block>, Fault>
    ensures meaning { GivesPart (λ blocks. blocks.items) result (present (footer_record_batches footer.now)) }
    ensures only { IfErr result (λ e. FooterFault e footer.now) }
{
    match footer.record_batches() {
        Ok(Some(blocks)) => Ok(copied_blocks(alloc, &blocks)?),
        Ok(None) => Err(Fault::OutOfSpec(OutOfSpecKind::MissingRecordBatches)),
        Err(e) => Err(Fault::OutOfSpec(OutOfSpecKind::InvalidFlatbufferRecordBatches(e))),
    }
}

// The dictionary blocks, or None if the footer has no vector of them.
fn read_dictionary_blocks(
    alloc: Global,
    footer: &FooterRef<'_>,
) -> Result<Option<Vec<Block>>, Fault>
    ensures meaning { GivesPart optional_blocks result (made (footer_dictionaries footer.now)) }
    ensures only { IfErr result (λ e. FooterFault e footer.now) }
{
    match footer.dictionaries() {
        Ok(Some(blocks)) => Ok(Some(copied_blocks(alloc, &blocks)?)),
        Ok(None) => Ok(None),
        Err(e) => Err(Fault::OutOfSpec(OutOfSpecKind::InvalidFlatbufferDictionaries(e))),
    }
}

// The schema and what IPC adds to it, or `MissingSchema`.
fn read_schema(alloc: Global, footer: &FooterRef<'_>) -> Result<(Schema, IpcSchema), Fault>
    ensures meaning { GivesPart schema_seen result (given (present (footer_schema footer.now)) schema_at) }
    ensures only { IfErr result (λ e. FooterFault e footer.now) }
    ensures fits { IfOk result (λ r. AllFit (fields_view r.0.fields.items)
        (all_ids_view r.1.fields.items)) }
{
    let schema = match footer.schema() {
        Ok(Some(schema)) => schema,
        Ok(None) => return Err(Fault::OutOfSpec(OutOfSpecKind::MissingSchema)),
        Err(e) => return Err(Fault::OutOfSpec(OutOfSpecKind::InvalidFlatbufferSchema(e))),
    };
    let mut visits = 0;
    let read = fb_to_schema(alloc, &schema, &mut visits)?;
    Ok(read)
}

/// Reads the metadata of a file of `size` bytes from the bytes of its footer.
///
/// It is `Ok` exactly if the footer is valid (`footer_at` of `ipc_model`), unless an allocation
/// fails. See "IPC File Format" in the Arrow columnar format, and `File.fbs`.
///
/// # Errors
/// Each of the first six is `OutOfSpec`.
///
/// - `InvalidFlatbufferFooter`: the footer's root, or one of the file's own pairs, is malformed.
/// - `MissingRecordBatches`: the footer has no vector of record blocks.
/// - `InvalidFlatbufferRecordBatches`: that vector is malformed.
/// - `MissingSchema`: the footer has no schema.
/// - `InvalidFlatbufferSchema`: the schema's table can't be opened.
/// - `InvalidFlatbufferDictionaries`: the vector of dictionary blocks is malformed.
/// - Those of [`fb_to_schema`] for the schema; `Memory`.
#[tactic(auto, unfolding(ipc_model::specs::Files::footer_at))]
pub fn deserialize_footer(alloc: Global, footer: &[u8], size: u64) -> Result<FileMetadata, Fault>
    ensures meaning { GivesPart file_seen result
        (given (made (root_at footer.now)) (footer_at size)) }
    ensures only { IfErr result (λ e. RootFault e (root_at footer.now)) }
    ensures fits { IfOk result (λ m. AllFit (fields_view m.schema.fields.items)
        (all_ids_view m.ipc_schema.fields.items)) }
    ensures device { OnIo result ⊥ }
{
    let footer = in_footer(FooterRef::read_as_root(footer))?;
    let blocks = read_blocks(alloc, &footer)?;
    let (schema, ipc_schema) = read_schema(alloc, &footer)?;
    let dictionaries = read_dictionary_blocks(alloc, &footer)?;
    let custom_metadata = read_custom_metadata(alloc, &footer)?;
    Ok(FileMetadata {
        schema,
        ipc_schema,
        blocks,
        dictionaries,
        size,
        custom_metadata,
    })
}
