//! Theorems on files that sessions wrote.
ghost use Rattle.ipc_sessions.specs.Sessions.{BeforeLaw, EndedLaw, MayLaw};

/// Reading a session's file gives its schema, its pairs and its chunks.
///
/// It is also read as a stream of these if it is one. If it has a chunk and isn't too long, it can
/// be appended to. Its chunks need no byte after the append offset then: they stay, whatever a
/// later session's calls return.
pub fn files_that_sessions_left()
    ensures reads { EndedLaw }
    ensures may { MayLaw }
    ensures before { BeforeLaw }
{}
