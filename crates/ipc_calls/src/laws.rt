//! Theorems on streams and files in memory, written by any list of calls.
ghost use Rattle.ipc_calls.specs.CallRows.{BegunRowsLaw, PairRowsLaw};
ghost use Rattle.ipc_calls.specs.WholeLaws.{FileOfCallsLaw, OneHeadLaw, StreamOfCallsLaw};

/// A stream in memory that a new writer finished has exactly the written chunks.
///
/// These are the chunks whose `write` returned `Ok`, in order. The memory was empty before. The
/// schema and the ids are those of the `start` that was `Ok`. Refused calls, each with its own
/// arguments, may be in the list.
pub fn whole_streams()
    ensures { StreamOfCallsLaw }
{}

/// If each `start`, also a refused one, has one schema and ids, the stream has them.
pub fn calls_of_one_schema()
    ensures { OneHeadLaw }
{}

/// A file in memory that a new writer finished has exactly the written chunks.
///
/// These are the chunks whose `write` returned `Ok`, in order. The memory was empty before. The
/// schema and the ids are the writer's, and the pairs are those that were set last, or none.
/// Without its first eight bytes it is a stream of the same.
pub fn whole_files()
    ensures { FileOfCallsLaw }
{}

/// Worked examples of lists of calls: what they write, and what they don't.
pub fn examples_of_calls()
    ensures heads { BegunRowsLaw }
    ensures pairs { PairRowsLaw }
{}
