//! Theorems on the messages of a chunk, and on streams and files of them.

ghost use Rattle.ipc_stream_lemmas.specs.Agreement.{AlikeDictionaryLaw, AlikeRecordLaw, AlikeStreamLaw, OmittedLaw};
ghost use Rattle.ipc_stream_lemmas.specs.Blocks.{BlockDictionaryLaw, BlockRecordLaw, PlacedDictionaryLaw, PlacedRecordLaw};
ghost use Rattle.ipc_stream_lemmas.specs.Bodies.{ColumnsLaw, PlanLaw, ValuesLaw};
ghost use Rattle.ipc_stream_lemmas.specs.Chunks.{EncodedChunkLaw, ListedLaw, WrittenChunkLaw};
ghost use Rattle.ipc_stream_lemmas.specs.ColumnRuns.{ColumnRunLaw};
ghost use Rattle.ipc_stream_lemmas.specs.FileChunks.{FileChunkLaw, ListedBlocksLaw};
ghost use Rattle.ipc_stream_lemmas.specs.Kept.{KeptChunkLaw, KeptLaw, KeptRecordLaw, OfferKeptLaw, StillFoundLaw};
ghost use Rattle.ipc_stream_lemmas.specs.Messages.{WrittenDictionaryLaw};
ghost use Rattle.ipc_stream_lemmas.specs.Moves.{ChunkLaw, MovesLaw};
ghost use Rattle.ipc_stream_lemmas.specs.Order.{InnerFirstLaw};
ghost use Rattle.ipc_stream_lemmas.specs.Places.{AcceptedChunkLaw, FilledLaw, FitLaw, KnownLaw};
ghost use Rattle.ipc_stream_lemmas.specs.Runs.{FinishedRunLaw, OmitLaw, OpenFinishLaw, OpenRunLaw, OpenStartLaw, OpenWriteLaw};

/// A dictionary message sets the values of its id, and changes nothing else.
pub fn dictionary_messages()
    ensures { WrittenDictionaryLaw }
{}

/// Readers with the same values under the used ids read the same.
///
/// This applies to record batches, dictionary batches and streams.
pub fn alike_readers()
    ensures records { AlikeRecordLaw }
    ensures dictionaries { AlikeDictionaryLaw }
    ensures streams { AlikeStreamLaw }
{}

/// A dictionary message can be omitted if the reader has its values under its id.
pub fn omitted_dictionaries()
    ensures { OmittedLaw }
{}

/// The dictionaries of a chunk are written inner before outer, also if some are omitted.
pub fn ordered_dictionaries()
    ensures { InnerFirstLaw }
{}

/// After the dictionary messages of a chunk a reader has what the writer remembers.
pub fn dictionaries_of_chunks()
    ensures { MovesLaw }
{}

/// The messages of a chunk give exactly that chunk.
pub fn messages_of_chunks()
    ensures { ChunkLaw }
{}

/// The messages of a chunk add it to a started stream; the mark ends that.
pub fn steps_of_streams()
    ensures start { OpenStartLaw }
    ensures write { OpenWriteLaw }
    ensures finish { OpenFinishLaw }
{}

/// A stream of calls, refused ones included, has the chunks that were taken.
///
/// It doesn't matter which dictionaries were omitted.
pub fn streams_of_chunks()
    ensures open { OpenRunLaw }
    ensures finished { FinishedRunLaw }
    ensures omitted { OmitLaw }
{}

/// A finished stream of a writable schema has exactly the chunks that were taken.
///
/// This applies to each list of calls.
pub fn streams_of_columns()
    ensures { ColumnRunLaw }
{}

/// If the values at some columns' dictionary fields are found, their dictionaries are known.
pub fn known_dictionaries()
    ensures { KnownLaw }
{}

/// Each dictionary field of an accepted chunk is one of the schema's.
///
/// There are no more than a reader counts, and fields of one id have the same values. These are the
/// values that the chunk offers to a writer.
pub fn places_of_chunks()
    ensures brought { FilledLaw }
    ensures fit { FitLaw }
{}

/// The messages of an accepted chunk of a writable schema mean exactly that chunk.
pub fn accepted_chunks()
    ensures { AcceptedChunkLaw }
{}

/// The entries and the body of a plan of some columns mean these columns.
pub fn bodies_of_plans()
    ensures { PlanLaw }
{}

/// A dictionary message of some values, and a record batch of some columns, mean them.
pub fn bodies_of_messages()
    ensures values { ValuesLaw }
    ensures columns { ColumnsLaw }
{}

/// What is sent for a chunk's dictionary fields is one message for each listed dictionary.
///
/// They come in order.
pub fn listed_dictionaries()
    ensures { ListedLaw }
{}

/// What is sent of an accepted chunk of a writable schema means exactly that chunk.
///
/// The byte order is either. The same applies to columns that are encoded without a schema.
pub fn written_chunks()
    ensures written { WrittenChunkLaw }
    ensures encoded { EncodedChunkLaw }
{}

/// If no dictionary is replaced, the values of all earlier chunks are still found.
pub fn kept_dictionaries()
    ensures offered { OfferKeptLaw }
    ensures kept { KeptLaw }
    ensures found { StillFoundLaw }
{}

/// A valid record batch means the same if dictionaries are added and none is replaced.
///
/// The same applies to the record batch of a file's block.
pub fn kept_records()
    ensures records { KeptRecordLaw }
    ensures chunks { KeptChunkLaw }
{}

/// A record batch or dictionary batch means the same wherever its body is.
pub fn placed_bodies()
    ensures records { PlacedRecordLaw }
    ensures dictionaries { PlacedDictionaryLaw }
{}

/// A record batch that was written gives its chunk at its block of a file.
///
/// A dictionary batch sets the values of its id there.
pub fn blocks_of_messages()
    ensures records { BlockRecordLaw }
    ensures dictionaries { BlockDictionaryLaw }
{}

/// An accepted chunk that replaces no dictionary adds exactly itself to a file.
///
/// The schema is writable. The chunk's dictionary fields have one block for each listed dictionary,
/// in order.
pub fn chunks_of_files()
    ensures listed { ListedBlocksLaw }
    ensures added { FileChunkLaw }
{}
