//! Encodes the footer of a file (Arrow columnar format, "IPC File Format"; `File.fbs`).
ghost use Rattle.std.specs.Prelude.{◌≡◌, ◌+◌, ◌≤◌, ◌↔◌, All, IfOk, IsTrue, option_map};
ghost use Rattle.lower.specs.TypeViews.{fields_view, pairs_of};
ghost use Rattle.ipc_base.specs.IdTrees.{all_ids_view};
ghost use Rattle.ipc_tables.proofs.Kept.{BlockFits};
ghost use Rattle.ipc_schema_write.specs.Meanings.{Ascend, pairs_in};
ghost use Rattle.ipc_schema_write.specs.WriterAnswers.{byte_order};
ghost use Rattle.ipc_footer_write.specs.Footers.{AnswersFooter, AreFew, some_pairs};

use crate::weights::is_light;
use ipc_base::ipc::IpcField;
use ipc_devices::fault::{ArgFault, Fault};
use ipc_schema_write::metadata::serialize_pairs;
use ipc_schema_write::schema::serialize_schema;
use ipc_table_views::{Block, MetadataVersion};
use ipc_tables::file::Footer;
use ipc_tables::schema::KeyValue;
use lower::datatypes::{Metadata, Schema};
use std::alloc::{AllocError, Global};

/// The greatest number of blocks in a footer, of dictionaries and record batches together.
///
/// It is `2^25`.
pub const MAX_BLOCKS: usize = 1 << 25;

/// Returns whether these blocks together are at most [`MAX_BLOCKS`].
pub fn are_few(dictionaries: &[Block], blocks: &[Block]) -> bool
    ensures { IsTrue result ↔ AreFew dictionaries.now blocks.now }
{
    dictionaries.len() <= MAX_BLOCKS && blocks.len() <= MAX_BLOCKS - dictionaries.len()
}

fn copied_blocks(alloc: Global, blocks: &[Block]) -> Result<Vec<Block>, AllocError>
    ensures same { IfOk result (λ copy. copy.items ≡ blocks.now) }
    ensures fit { IfOk result (λ copy. All BlockFits copy.items) }
{
    let mut copy = Vec::new(alloc);
    for block in blocks {
        // number by number, so that each is known to be one of its type
        let Block {
            offset,
            meta_data_length,
            body_length,
        } = *block;
        copy.push(Block {
            offset,
            meta_data_length,
            body_length,
        })?;
    }
    Ok(copy)
}

// The pairs as tables, in the order of their keys, or None if there are none.
fn serialize_some(alloc: Global, metadata: &Metadata) -> Result<Option<Vec<KeyValue>>, AllocError>
    ensures all { IfOk result (λ pairs.
        option_map (λ v. pairs_in v.items) pairs ≡ some_pairs (pairs_of metadata.now.entries)) }
    ensures ordered { IfOk result (λ _. Ascend (pairs_of metadata.now.entries)) }
{
    let pairs = serialize_pairs(alloc, metadata)?;
    if pairs.is_empty() {
        return Ok(None);
    }
    Ok(Some(pairs))
}

/// Returns the encoded footer of a file.
///
/// It has the schema in normal form with these ids, the blocks of dictionary batches and record
/// batches, and the key-value metadata in the order of the keys. `is_little_endian` is the byte
/// order of the numbers in bodies. Its version is V5. Both vectors of blocks are present; the
/// metadata are only if they aren't empty. Its layout follows the rules for FlatBuffers writers,
/// and it is shorter than `2^31` bytes.
///
/// Errors:
///
/// - `Fault::Argument(ArgFault::FieldsShape)`, `NotWritable`: the ids or the schema can't be
///   written, as [`schema_to_bytes`](ipc_schema_write::schema::schema_to_bytes) says.
/// - `Fault::Argument(ArgFault::TooLarge)`: the weight of the schema and the metadata is above
///   `2^30`, or there are more than `2^25` blocks.
/// - `Fault::Memory`: an allocation failed.
pub fn footer_to_bytes(
    alloc: Global,
    schema: &Schema,
    ipc_fields: &[IpcField],
    dictionaries: &[Block],
    blocks: &[Block],
    custom_metadata: &Metadata,
    is_little_endian: bool,
) -> Result<Vec<u8>, Fault>
    ensures { AnswersFooter (byte_order is_little_endian) result
        (fields_view schema.now.fields.items) (pairs_of schema.now.metadata.entries)
        (all_ids_view ipc_fields.now) (pairs_of custom_metadata.now.entries)
        dictionaries.now blocks.now }
{
    let table = serialize_schema(alloc, schema, ipc_fields, is_little_endian)?;
    if !is_light(schema, custom_metadata) || !are_few(dictionaries, blocks) {
        return Err(Fault::Argument(ArgFault::TooLarge));
    }
    let footer = Footer {
        version: MetadataVersion::V5,
        schema: Some(table),
        dictionaries: Some(copied_blocks(alloc, dictionaries)?),
        record_batches: Some(copied_blocks(alloc, blocks)?),
        custom_metadata: serialize_some(alloc, custom_metadata)?,
    };
    footer.to_bytes(alloc)
}
