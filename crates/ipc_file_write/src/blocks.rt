//! The blocks of a chunk's messages: the struct `Block` of Arrow's `File.fbs`.
ghost use Rattle.std.specs.Prelude.{◌≡◌, ◌+◌, ◌^◌, ◌<◌, ◌≤◌, ◌++◌, ◌∷◌, [], All, IfErr, IfOk, MatchBool, OnOk, length, map, vec_capacity, vec_len};
ghost use Rattle.ipc_model.specs.Accepted.{most_blocks};
ghost use Rattle.ipc_file_lemmas.specs.FileBytes.{all_bytes, block_at, blocks_at, sent_bytes};
ghost use Rattle.ipc_chunks.specs.Messages.{HaveWholeBodies, HasWholeBody};
ghost use Rattle.ipc_file_write.specs.Blocks.{HasBlocksFrom, RefusesPlace, RefusesBlockRoom, sent_seen};
ghost use Rattle.ipc_file_write.specs.Writes.{RefusesBlocks};

use ipc_chunks::messages::Messages;
use ipc_devices::fault::{ArgFault, Fault};
use ipc_encode::batches::Encoded;
use ipc_footer_write::footer::MAX_BLOCKS;
use ipc_table_views::Block;
use std::alloc::Global;

// Whether the end offset of a message fits into an `i64`.
fn is_inside(place: u64, head: u64, body: u64) -> bool
    ensures { MatchBool result (place + head + body < 2 ^ 63) (2 ^ 63 ≤ place + head + body) }
{
    const MOST: u64 = i64::MAX as u64;
    place <= MOST && head <= MOST - place && body <= MOST - place - head
}

// The block of a message at an offset, and the offset after it.
#[tactic(auto, using(crate::proofs::PlacedMessages::placed))]
fn place_message(encoded: &Encoded<'_>, place: u64) -> Result<(Block, u64), Fault>
    requires { HasWholeBody encoded.now }
    ensures block { IfOk result (λ placed. placed.0 ≡ block_at place (sent_seen encoded.now)) }
    ensures end { IfOk result (λ placed. placed.1 ≡ place + length (sent_bytes (sent_seen encoded.now))) }
    ensures short { IfOk result (λ placed. placed.1 < 2 ^ 63) }
    ensures only { IfErr result (RefusesPlace place (sent_seen encoded.now)) }
{
    let head = encoded.metadata.len() as u64 + 8;
    let body = encoded.body.end;
    if head > i32::MAX as u64 || !is_inside(place, head, body) {
        return Err(Fault::Argument(ArgFault::TooLarge));
    }
    let block = Block {
        offset: place as i64,
        meta_data_length: head as i32,
        body_length: body as i64,
    };
    Ok((block, place + head + body))
}

// The blocks of consecutive messages from an offset on, and the offset after them.
fn place_messages(
    alloc: Global,
    messages: &[Encoded<'_>],
    place: u64,
) -> Result<(Vec<Block>, u64), Fault>
    requires { All HasWholeBody messages.now }
    ensures places { IfOk result (λ placed. placed.0.items ≡ blocks_at place (map sent_seen messages.now)) }
    ensures end { IfOk result (λ placed. placed.1 ≡ place + length (all_bytes (map sent_seen messages.now))) }
    ensures only { IfErr result (RefusesBlockRoom place (map sent_seen messages.now)) }
{
    let mut blocks = Vec::new(alloc);
    let mut end = place;
    for message in messages {
        let (block, behind) = place_message(message, end)?;
        blocks.push(block)?;
        end = behind;
    }
    Ok((blocks, end))
}

// The blocks of a chunk's messages.
#[derive(Drop)]
pub(crate) struct Placed {
    pub(crate) dictionaries: Vec<Block>,
    pub(crate) record_batch: Block,
    // the offset after all messages
    pub(crate) end: u64,
}

// The blocks of a chunk's messages from an offset on.
pub(crate) fn place_chunk(
    alloc: Global,
    messages: &Messages<'_>,
    place: u64,
) -> Result<Placed, Fault>
    requires { HaveWholeBodies messages.now }
    ensures ok { IfOk result (HasBlocksFrom place (map sent_seen messages.now.dictionaries.items) (sent_seen messages.now.record_batch)) }
    ensures only { IfErr result (RefusesBlockRoom place (map sent_seen messages.now.dictionaries.items ++ sent_seen messages.now.record_batch ∷ [])) }
{
    let (dictionaries, behind) = place_messages(alloc, &messages.dictionaries, place)?;
    let (record_batch, end) = place_message(&messages.record_batch, behind)?;
    Ok(Placed {
        dictionaries,
        record_batch,
        end,
    })
}

// Whether a footer may have these blocks, `added` more and one of a record.
fn are_few(dictionaries: usize, records: usize, added: usize) -> bool
    ensures { MatchBool result (dictionaries + records + added + 1 ≤ most_blocks) (most_blocks < dictionaries + records + added + 1) }
{
    dictionaries <= MAX_BLOCKS
        && records <= MAX_BLOCKS - dictionaries
        && added < MAX_BLOCKS - dictionaries - records
}

// Allocates room for the blocks of a chunk with so many dictionaries. More blocks than a footer may
// have are refused.
pub(crate) fn make_room(
    dictionary_blocks: &mut Vec<Block>,
    record_blocks: &mut Vec<Block>,
    dictionaries: usize,
) -> Result<(), Fault>
    ensures dictionary_room { OnOk result (vec_len dictionary_blocks.new + dictionaries ≤ vec_capacity dictionary_blocks.new) }
    ensures record_room { OnOk result (vec_len record_blocks.new + 1 ≤ vec_capacity record_blocks.new) }
    ensures few { OnOk result (length dictionary_blocks.old.items + length record_blocks.old.items + dictionaries + 1 ≤ most_blocks) }
    ensures same_dictionaries { dictionary_blocks.new.items ≡ dictionary_blocks.old.items }
    ensures same_records { record_blocks.new.items ≡ record_blocks.old.items }
    ensures only { let count = length dictionary_blocks.old.items
        + length record_blocks.old.items in
        IfErr result (RefusesBlocks count dictionaries) }
{
    if !are_few(dictionary_blocks.len(), record_blocks.len(), dictionaries) {
        return Err(Fault::Argument(ArgFault::TooLarge));
    }
    dictionary_blocks.reserve(dictionaries)?;
    record_blocks.reserve(1)?;
    Ok(())
}

// Adds blocks, for which there must be room.
pub(crate) fn add_all(blocks: &mut Vec<Block>, added: &[Block])
    requires { vec_len blocks.old + length added.now ≤ vec_capacity blocks.old }
    ensures { blocks.new.items ≡ blocks.old.items ++ added.now }
{
    let _ = blocks.extend_from_slice(added);
}

// Adds a block, for which there must be room.
pub(crate) fn add(blocks: &mut Vec<Block>, block: Block)
    requires { vec_len blocks.old + 1 ≤ vec_capacity blocks.old }
    ensures { blocks.new.items ≡ blocks.old.items ++ block ∷ [] }
{
    let _ = blocks.push(block);
}
