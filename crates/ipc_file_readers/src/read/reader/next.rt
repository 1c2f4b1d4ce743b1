//! Reads the next chunk of a file.
ghost use Rattle.std.specs.Prelude.{◌≡◌, ◌<◌, false, [], length, IsSome, IfOk, IfErr, vec_len};
ghost use Rattle.std.specs.Iterator.{at_most};
ghost use Rattle.ipc_devices.specs.declared.fault.Fault.TheVariants.{Memory};
ghost use Rattle.ipc_model.specs.Batches.{IsProjection};
ghost use Rattle.ipc_projection.specs.ChosenColumns.{items_of};
ghost use Rattle.ipc_file_readers.specs.Readers.{IsUnread, DiffersInScratches, NextStep, TriesFile, blocks_left, device_of, is_over, known_of, item_block, less, metadata_of, schema_of, scratches_of};
ghost use Rattle.ipc_file_readers.specs.Steps.{BlockGave, DictionariesGave, NextGave};

use crate::read::reader::state::FileReader;
use ipc_base::chunk::Chunk;
use ipc_devices::fault::Fault;
use ipc_devices::{Reads, Seeks};
use ipc_files::read::file::{FileMetadata, read_batch, read_file_dictionaries};
use ipc_projection::read::chosen::{choose, in_order, rising, shown};
use ipc_projection::read::projection::are_there;
use lower::datatypes::Schema;
use lower_arrays::array::AnyArray;
use std::alloc::Global;

// A limit less some rows, at least 0.
fn less(limit: Option<usize>, rows: usize) -> Option<usize>
    ensures { result ≡ less limit rows }
{
    match limit {
        Some(limit) => Some(limit.saturating_sub(rows)),
        None => None,
    }
}

impl<R: Reads + Seeks + Drop> FileReader<R> {
    /// A reader of the chunks of the file that `metadata` describes.
    ///
    /// - `projection`: indexes of the columns to return, in this order, none twice (see
    ///   `is_projection`). None returns all.
    /// - `limit`: the most rows of all chunks together; None returns all rows.
    ///
    /// Nothing is read yet. The error is `Memory`, and comes only with a projection: otherwise
    /// nothing is allocated.
    pub fn new(
        alloc: Global,
        reader: R,
        metadata: FileMetadata,
        projection: Option<Vec<usize>>,
        limit: Option<usize>,
    ) -> Result<FileReader<R>, Fault>
        requires { IsProjection (items_of projection) (length metadata.schema.fields.items) }
        ensures ok { IfOk result (λ made.
            IsUnread reader metadata (items_of projection) limit made) }
        ensures only { IfErr result (λ e. (e ≡ Memory) × IsSome projection) }
    {
        let projection = choose(alloc, &metadata.schema, projection)?;
        Ok(FileReader {
            alloc,
            reader,
            metadata,
            dictionaries: None,
            current_block: 0,
            projection,
            remaining: limit,
            message_scratch: Vec::new(alloc),
            data_scratch: Vec::new(alloc),
        })
    }

    /// A reader as [`new`](FileReader::new) makes it, or None where that can't be called.
    ///
    /// It is None exactly if a requested column doesn't exist or is requested twice; the device is
    /// dropped then. The error is `Memory`, as that of `new`.
    pub fn try_new(
        alloc: Global,
        reader: R,
        metadata: FileMetadata,
        projection: Option<Vec<usize>>,
        limit: Option<usize>,
    ) -> Result<Option<FileReader<R>>, Fault>
        ensures tried { IfOk result (λ made.
            TriesFile reader metadata (items_of projection) limit made) }
        ensures only { IfErr result (λ e. (e ≡ Memory) × IsSome projection) }
    {
        if !are_there(&projection, metadata.schema.fields.len()) {
            return Ok(None);
        }
        Ok(Some(FileReader::new(alloc, reader, metadata, projection, limit)?))
    }

    /// The schema of the chunks, with the fields of the requested columns in their order.
    ///
    /// It has the metadata of the file's schema.
    pub fn schema(&self) -> &Schema
        ensures { result.now ≡ schema_of self.now }
    {
        shown(&self.projection, &self.metadata.schema)
    }

    /// The content of the footer.
    pub fn metadata(&self) -> &FileMetadata
        ensures { result.now ≡ metadata_of self.now }
    {
        &self.metadata
    }

    /// The device.
    pub fn into_inner(self) -> R
        ensures { result ≡ device_of self }
    {
        self.reader
    }

    /// Whether `next` returns None from now on.
    ///
    /// This is so after the last block and after an error in the dictionaries.
    pub fn is_finished(&self) -> bool
        ensures { result ≡ is_over self.now }
    {
        self.current_block >= self.metadata.blocks.len()
    }

    /// The block that the last chunk or error came from: its index in the footer's list.
    ///
    /// None before the first item, and if that was the error of the dictionaries.
    pub fn block(&self) -> Option<usize>
        ensures { result ≡ item_block self.now }
    {
        if self.dictionaries.is_none() {
            None
        } else {
            self.current_block.checked_sub(1)
        }
    }

    /// Takes the scratch memory for data and for messages, and leaves empty vectors.
    ///
    /// [`set_scratches`](FileReader::set_scratches) hands it to the reader of another file, which
    /// then needn't allocate its own.
    pub fn get_scratches(&mut self) -> (Vec<u8>, Vec<u8>)
        ensures taken { result ≡ scratches_of self.old }
        ensures data_left { (scratches_of self.new).0.items ≡ [] }
        ensures message_left { (scratches_of self.new).1.items ≡ [] }
        ensures same { DiffersInScratches self.old self.new }
    {
        let data = std::mem::replace(&mut self.data_scratch, Vec::new(self.alloc));
        let message = std::mem::replace(&mut self.message_scratch, Vec::new(self.alloc));
        (data, message)
    }

    /// Replaces the scratch memory for data and for messages.
    pub fn set_scratches(&mut self, scratches: (Vec<u8>, Vec<u8>))
        ensures given { scratches_of self.new ≡ scratches }
        ensures same { DiffersInScratches self.old self.new }
    {
        (self.data_scratch, self.message_scratch) = scratches;
    }

    // Reads the dictionaries, if they weren't read yet. After an error only the device may have
    // changed.
    fn read_dictionaries(&mut self) -> Result<(), Fault>
        ensures gave { DictionariesGave R.device self.old result self.new }
    {
        if self.dictionaries.is_some() {
            return Ok(());
        }
        let read = read_file_dictionaries(
            self.alloc,
            &mut self.reader,
            &self.metadata,
            &mut self.data_scratch,
        )?;
        self.dictionaries = Some(read);
        Ok(())
    }

    // The requested columns of a block. The dictionaries must have been read.
    fn read_block(&mut self, block: usize) -> Result<Chunk<AnyArray>, Fault>
        requires known { IsSome (known_of self.old) }
        requires within { block < vec_len (metadata_of self.old).blocks }
        ensures gave { BlockGave R.device block self.old result self.new }
    {
        let Some(dictionaries) = &self.dictionaries else {
            unreachable!();
        };
        let chunk = read_batch(
            self.alloc,
            &mut self.reader,
            dictionaries,
            &self.metadata,
            rising(&self.projection),
            self.remaining,
            block,
            &mut self.message_scratch,
            &mut self.data_scratch,
        )?;
        in_order(self.alloc, &self.projection, chunk)
    }

    // The chunk of the next block. The dictionaries must have been read. After any error the reader
    // continues with the block after it, and keeps the dictionaries and the limit.
    fn read_next(&mut self) -> Result<Chunk<AnyArray>, Fault>
        requires known { IsSome (known_of self.old) }
        requires more { is_over self.old ≡ false }
        ensures next { NextGave R.device self.old result self.new }
    {
        let block = self.current_block;
        self.current_block += 1;
        let chunk = self.read_block(block)?;
        self.remaining = less(self.remaining, chunk.len());
        Ok(chunk)
    }
}

impl<R: Reads + Seeks + Drop> Iterator for FileReader<R> {
    type Item = Result<Chunk<AnyArray>, Fault>;

    // At most one item for each remaining block.
    ghost remaining = { λ a. at_most (blocks_left a) };

    ghost next_gives = { λ a r b. NextStep R.device a r b };

    fn next(&mut self) -> Option<Result<Chunk<AnyArray>, Fault>> {
        if self.is_finished() {
            return None;
        }
        match self.read_dictionaries() {
            Ok(()) => Some(self.read_next()),
            Err(e) => {
                self.current_block = self.metadata.blocks.len();
                Some(Err(e))
            }
        }
    }
}
