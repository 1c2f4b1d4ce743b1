//! Theorems about the messages of a chunk, and about refusals. The functions do nothing.
ghost use Rattle.ipc_chunks.specs.Laws.{MeaningLaw, MissesLaw, TakenLaw};

/// The messages of a chunk mean exactly its columns.
///
/// Only valid chunks are encoded. A reader then knows the dictionaries that the tracker has.
pub fn encoded_chunks()
    ensures means { MeaningLaw }
    ensures taken { TakenLaw }
{}

/// Each error names a condition that the chunk breaks, unless an allocation failed.
///
/// So no valid chunk is refused.
pub fn refused_chunks()
    ensures { MissesLaw }
{}
