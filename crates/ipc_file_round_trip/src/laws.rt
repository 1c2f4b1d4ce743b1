//! Theorems on files that are read.
ghost use Rattle.ipc_file_round_trip.specs.Api.{FilesAreStreams};
ghost use Rattle.ipc_file_round_trip.specs.Laws.{AgreeingAnswersLaw, AgreeingChunksLaw, AgreeingFilesLaw, BatchesLaw, ChosenLaw, WholeFileLaw, WrittenLaw};

/// Reading a written file gives its schema, its ids, its pairs and its chunks.
///
/// The schema is in its normal form. The batch at each block, read at any time, is its chunk. Any
/// columns, each requested once, and any limit give the first rows of these columns. Without its
/// first eight bytes the file can be read as a stream of the same.
pub fn files_read_back()
    ensures whole { WholeFileLaw }
    ensures chosen { ChosenLaw }
    ensures written { WrittenLaw }
    ensures batches { BatchesLaw }
    ensures stream { FilesAreStreams }
{}

/// A block's chunk depends only on its message and the requested columns' buffers.
///
/// If two files with the same metadata agree in these bytes, whatever else they have, a read of the
/// block gives the same. If they agree so at all blocks and have the same dictionaries, they give
/// the same chunks.
pub fn files_that_agree()
    ensures chunks { AgreeingChunksLaw }
    ensures answers { AgreeingAnswersLaw }
    ensures files { AgreeingFilesLaw }
{}
