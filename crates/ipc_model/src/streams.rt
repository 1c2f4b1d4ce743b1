//! Theorems on streams.
ghost use Rattle.ipc_model.specs.Streams.{FrontLaw, ResumeLaw};
ghost use Rattle.ipc_model.specs.Visits.{VisitLaw};
ghost use Rattle.ipc_model.specs.WholeStreams.{GrowLaw};
ghost use Rattle.ipc_model.specs.WriterStates.{ClosedLaw, KeepLaw};
ghost use Rattle.ipc_model.specs.Writers.{FinishLaw, StartLaw, WriteLaw};
ghost use Rattle.ipc_model.specs.WrittenLaws.{WrittenFrameLaw, WrittenMarkLaw, WrittenRecordLaw};

/// A stream means what its next item and the bytes after that mean.
#[tactic(auto, using(crate::proofs::Meanings::meaning_is))]
pub fn front_of_streams()
    ensures { FrontLaw }
{}

/// Bytes after a stream that waits are read as if they had always been there.
#[tactic(auto, using(crate::proofs::Meanings::resumed))]
pub fn resumed_streams()
    ensures { ResumeLaw }
{}

/// Bytes added to a stream that waits continue it at its end; its schema stays.
#[tactic(auto, using(crate::proofs::Growing::grow_law))]
pub fn growing_streams()
    ensures { GrowLaw }
{}

/// A written message is the next item of its bytes; so is an end mark.
#[tactic(auto, using(crate::proofs::Written::written_frame, crate::proofs::Written::written_mark))]
pub fn written_frames()
    ensures messages { WrittenFrameLaw }
    ensures marks { WrittenMarkLaw }
{}

/// A written record batch gives its chunk, and what follows is read next.
pub fn written_records()
    ensures { WrittenRecordLaw }
{}

/// A schema message starts a stream, a record batch adds its chunk, the mark ends it.
pub fn steps_of_writers()
    ensures start { StartLaw }
    ensures write { WriteLaw }
    ensures finish { FinishLaw }
{}

/// A schema that is read has at most one field for each byte of its message.
///
/// Fields of all levels are counted.
pub fn visits_of_schemas()
    ensures { VisitLaw }
{}

/// A writer that is finished, or whose device failed, takes no more chunks.
pub fn closed_writers()
    ensures { ClosedLaw }
{}

/// The byte order and the pairs of a footer stay through each list of calls.
pub fn kept_by_writers()
    ensures { KeepLaw }
{}
