//! Theorems on the steps of a file writer.
ghost use Rattle.ipc_file_lemmas.specs.AppendRows.{NegativeRows, PlaceRows};
ghost use Rattle.ipc_file_lemmas.specs.Appending.{GoOnLaw, InsideLaw, StayLaw};
ghost use Rattle.ipc_file_lemmas.specs.FileBytes.{FileEndLaw, FileGrowLaw, FileSizeLaw, FileStartLaw, FileWriteLaw, StreamEndLaw, StreamStartLaw, StreamWriteLaw};

/// What each step of a file writer adds.
///
/// The beginning of a file has no chunk, and bytes after it change nothing. The messages of an
/// accepted chunk that replaces no dictionary add exactly this chunk. The footer ends a file of the
/// chunks that were added.
pub fn steps_of_files()
    ensures start { FileStartLaw }
    ensures grown { FileGrowLaw }
    ensures longer { FileSizeLaw }
    ensures write { FileWriteLaw }
    ensures end { FileEndLaw }
{}

/// Without its first eight bytes a file is a stream of the same schema and chunks.
pub fn streams_of_files()
    ensures start { StreamStartLaw }
    ensures write { StreamWriteLaw }
    ensures end { StreamEndLaw }
{}

/// Blocks that need no byte after their own ends need none after the append offset.
///
/// As long as the bytes before that offset stay, metadata that were read before still give the
/// same. A writer that has the file's dictionaries continues with the file's chunks, in the normal
/// form of its schema.
pub fn files_that_go_on()
    ensures inside { InsideLaw }
    ensures stays { StayLaw }
    ensures goes_on { GoOnLaw }
{}

/// Worked examples of append offsets.
pub fn places_to_go_on()
    ensures places { PlaceRows }
    ensures negative { NegativeRows }
{}
