//! Copies chunks in order.
ghost use Rattle.std.specs.Prelude.{◌≡◌, ◌⊎◌, ℕ, ◌∷◌, [], IfErr, IfOk, List, OnOk};
ghost use Rattle.ipc_devices.specs.Device.{Rises};
ghost use Rattle.ipc_devices.specs.Faults.{IfIo, OnIo, OnRefused, OwnFault};
ghost use Rattle.ipc_model.specs.Batches.{Chunk as ChunkMeant};
ghost use Rattle.ipc_read.specs.Chunks.{chunk_seen};
ghost use Rattle.ipc_convert.specs.Chunks.{CameNext, Copied, CopiedOne, MovedInTurn, NoneFailed, Nothing, StopsCopy, StopsOne, TookWhatCame};
ghost use Rattle.ipc_convert.specs.Failures.{CopyFails};

use ipc_base::chunk::Chunk;
use ipc_devices::fault::{ArgFault, Fault};
use lower_arrays::array::AnyArray;

/// How a source ended.
#[derive(Clone, Copy, PartialEq, Eq)]
pub enum Ending {
    /// The input waits: more may come.
    Waits,
    /// There are no more chunks.
    Over,
}

/// The next item of a source.
#[derive(Drop)]
pub enum Next {
    /// A chunk.
    Chunk(Chunk<AnyArray>),
    /// No chunk.
    End(Ending),
}

/// Something that chunks are read from.
pub trait Source {
    ghost use Rattle.std.specs.declared.io.Error.{Error};
    ghost use Rattle.ipc_convert.specs.declared.chunks.Ending.{Ending};
    ghost use Rattle.ipc_devices.specs.declared.fault.Fault.{Fault};

    // These chunks came between two states.
    ghost came: { Self → List ChunkMeant → Self → Type 0 };

    // No chunk came between two states, and the source ended so.
    ghost stopped: { Self → Ending → Self → Type 0 };

    // In a state this error comes in place of the next chunk.
    ghost breaks: { Self → Fault → Type 0 };

    // How many calls of the device failed.
    ghost failures: { Self → ℕ };

    // Which errors the device returned.
    ghost answered: { Error → Type 0 };

    /// The next chunk, or how the source ended.
    ///
    /// On `Ok` no call of the device failed. An error other than `Memory` and `Io` comes only as
    /// `breaks` says; `Io` only if a call of the device failed, which returned this error.
    fn next_chunk(&mut self) -> Result<Next, Fault>
        ensures came { IfOk result (λ next. CameNext came stopped self.old next self.new) }
        ensures done { OnOk result (failures self.new ≡ failures self.old) }
        ensures failed { OnIo result (Rises (failures self.old) (failures self.new)) }
        ensures answered { IfIo result answered }
        ensures broken { IfErr result (λ e. OwnFault e (breaks self.old e)) };

    // Lemmas: nothing comes without a call; what came in two steps is joined.
    ghost came_nothing: { Nothing came };

    ghost came_in_order: { MovedInTurn came };
}

/// Something that chunks are written to.
pub trait Sink {
    ghost use Rattle.std.specs.declared.io.Error.{Error};
    ghost use Rattle.ipc_devices.specs.declared.fault.Fault.{Fault};
    ghost use Rattle.lower_arrays.specs.declared.array.AnyArray.{AnyArray};

    // These chunks were taken between two states.
    ghost took: { Self → List ChunkMeant → Self → Type 0 };

    // In a state a chunk of these columns is refused by this error.
    ghost refuses: { Self → List AnyArray → Fault → Type 0 };

    // How many calls of the device failed.
    ghost failures: { Self → ℕ };

    // Between two states a call of the device failed, or memory's growth was refused.
    ghost fails: { Self → Self → Type 0 };

    // Which errors the device returned.
    ghost answered: { Error → Type 0 };

    /// Takes a chunk.
    ///
    /// On `Ok` no call of the device failed. An error other than `Io` changes nothing. An error
    /// other than `Memory` and `Io` comes only as `refuses` says. `Io` comes only if a call of the
    /// device failed, or if it is memory whose growth was refused; the device returned this error.
    fn take_chunk(&mut self, chunk: &Chunk<AnyArray>) -> Result<(), Fault>
        ensures taken { OnOk result (took self.old (chunk_seen chunk.now ∷ []) self.new) }
        ensures done { OnOk result (failures self.new ≡ failures self.old) }
        ensures failed { OnIo result (fails self.old self.new) }
        ensures answered { IfIo result answered }
        ensures kept { OnRefused result (took self.old [] self.new) }
        ensures refused { IfErr result (λ e. OwnFault e (refuses self.old chunk.now e)) };

    // Lemmas: nothing is taken without a call; what two steps took is joined.
    ghost took_nothing: { Nothing took };

    ghost took_in_order: { MovedInTurn took };
}

/// Writes each chunk of a source to a sink as soon as it is read.
///
/// On `Ok` exactly these chunks were written, and no call of either device failed.
///
/// # Errors
/// - That of the source in place of a chunk.
/// - That of the sink for a chunk that it refused.
/// - `Argument(TooLarge)`: `2^64 - 1` chunks came and no end.
/// - `Io` only if a call of one of the devices failed, or if the sink is memory whose growth was
///   refused. That device returned this error.
///
/// After an error other than `Io` the chunks that were written are the first that came.
pub fn copy_chunks<S: Source, T: Sink>(source: &mut S, sink: &mut T) -> Result<Ending, Fault>
    ensures copied { IfOk result (λ ending. Copied S.came S.stopped T.took
        source.old sink.old ending source.new sink.new) }
    ensures done { OnOk result
        (NoneFailed S.failures T.failures source.old sink.old source.new sink.new) }
    ensures failed { OnIo result
        (CopyFails S.failures T.failures T.fails source.old sink.old source.new sink.new) }
    ensures answered { IfIo result (λ e. S.answered e ⊎ T.answered e) }
    ensures refused { OnRefused result (TookWhatCame S.came T.took source.old sink.old sink.new) }
    ensures stops { IfErr result (λ e. OwnFault e
        (StopsCopy S.came S.breaks T.took T.refuses source.old sink.old e)) }
{
    for _ in 0..u64::MAX {
        if let Some(ending) = copy_next(source, sink)? {
            return Ok(ending);
        }
    }
    Err(Fault::Argument(ArgFault::TooLarge))
}

// Writes the next chunk, or returns how the source ended.
fn copy_next<S: Source, T: Sink>(source: &mut S, sink: &mut T) -> Result<Option<Ending>, Fault>
    ensures copied { IfOk result (λ ending. CopiedOne S.came S.stopped T.took source.old sink.old ending source.new sink.new) }
    ensures done { OnOk result
        (NoneFailed S.failures T.failures source.old sink.old source.new sink.new) }
    ensures failed { OnIo result
        (CopyFails S.failures T.failures T.fails source.old sink.old source.new sink.new) }
    ensures answered { IfIo result (λ e. S.answered e ⊎ T.answered e) }
    ensures refused { OnRefused result (T.took sink.old [] sink.new) }
    ensures stops { IfErr result (λ e. OwnFault e (StopsOne S.came S.breaks T.refuses source.old sink.old e)) }
{
    match source.next_chunk()? {
        Next::Chunk(chunk) => {
            sink.take_chunk(&chunk)?;
            Ok(None)
        }
        Next::End(ending) => Ok(Some(ending)),
    }
}
