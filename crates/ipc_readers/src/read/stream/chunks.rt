//! The chunks of a stream as an iterator.
ghost use Rattle.std.specs.Prelude.{◌≡◌, ◌-◌, ◌^◌};
ghost use Rattle.std.specs.Iterator.{at_most};
ghost use Rattle.ipc_readers.specs.Chunks.{NextChunk, chunks_left, lender, lent};

use crate::read::stream::reader::{StreamReader, StreamState};
use ipc_base::chunk::Chunk;
use ipc_devices::Reads;
use ipc_devices::fault::Fault;
use lower_arrays::array::AnyArray;

/// The chunks of a stream, of a reader that [`StreamReader::chunks`] lends.
#[derive(Drop)]
pub struct Chunks<'a, R> {
    reader: &'a mut StreamReader<R>,
    // how many calls more are made of the reader
    left: usize,
}

impl<'a, R: Reads + Drop> Chunks<'a, R> {
    // Borrows a reader.
    pub(crate) fn new(reader: &'a mut StreamReader<R>) -> Chunks<'a, R>
        ensures lender { lender result ≡ reader.entry.ghost_name }
        ensures lent { lent result ≡ reader.entry.now }
        ensures left { chunks_left result ≡ 2 ^ 64 - 1 }
    {
        Chunks {
            reader,
            left: usize::MAX,
        }
    }
}

impl<R: Reads + Drop> Iterator for Chunks<'_, R> {
    type Item = Result<Chunk<AnyArray>, Fault>;

    ghost remaining = { λ chunks. at_most (chunks_left chunks) };

    ghost next_gives = { λ a r b. NextChunk R.gives R.device a r b };

    fn next(&mut self) -> Option<Result<Chunk<AnyArray>, Fault>> {
        if self.left == 0 {
            return None;
        }
        self.left -= 1;
        match self.reader.next() {
            Some(Ok(StreamState::Some(chunk))) => Some(Ok(chunk)),
            Some(Ok(StreamState::Waiting)) => None,
            Some(Err(fault)) => Some(Err(fault)),
            None => None,
        }
    }
}
