//! Theorems on the results of consecutive calls of `next`.
ghost use Rattle.ipc_file_readers.specs.Rows.{RowsLaw};
ghost use Rattle.ipc_file_readers.specs.Runs.{ItemsLaw, OverLaw, ToldOnceLaw};

use crate::read::reader::state::FileReader;
use ipc_devices::{Reads, Seeks};

/// Reading from memory, calls of `next` return one item for each block, then None.
///
/// If the dictionaries are valid or the reader has them, the item is the block's chunk, by the
/// requested columns and the remaining limit. It is an error if the block is invalid, an allocation
/// fails or the device returns an error. If the latter two happen at the dictionaries, they are
/// reported once, and then None comes. If the dictionaries are invalid, one error comes, then None.
/// Without record blocks nothing comes.
pub fn reading_of_files<R: Reads + Seeks + Drop>(reader: &FileReader<R>)
    ensures items { ItemsLaw R.device reader.now }
    ensures told_once { ToldOnceLaw R.device reader.now }
    ensures over { OverLaw R.device reader.now }
{}

/// The chunks of some valid blocks, joined, are the first rows of the requested columns.
///
/// There are as many rows as the limit leaves, if `next` returned a chunk for each of these blocks.
pub fn rows_of_files<R: Reads + Seeks + Drop>(reader: &FileReader<R>)
    ensures { RowsLaw R.device reader.now }
{}
