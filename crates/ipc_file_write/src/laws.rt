//! Theorems on files that are appended to.
ghost use Rattle.ipc_file_write.specs.AppendLaws.{OnwardBothLaw, OnwardLaw, StillGivesLaw};

/// Appending keeps the bytes before the append offset, and the chunks in them.
///
/// No call of a writer changes a byte before its offset or makes the file shorter, also if it
/// fails. So metadata that were read before still give the same dictionaries and chunks, if these
/// need no byte after that offset.
pub fn old_chunks_that_stay()
    ensures onward { OnwardLaw }
    ensures both { OnwardBothLaw }
    ensures gives { StillGivesLaw }
{}
