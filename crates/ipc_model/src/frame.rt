//! Theorems on the frames of a stream.
ghost use Rattle.ipc_model.specs.Frame.{KeepsMessage, TakesBytes, WaitsWithAll};

/// A whole message stays the same if bytes follow.
pub fn keeps_message(bytes: &[u8], added: &[u8])
    ensures { KeepsMessage bytes.now added.now }
{}

/// A message uses bytes: fewer are left than before.
pub fn takes_bytes(bytes: &[u8])
    ensures { TakesBytes bytes.now }
{}

/// A frame that waits has kept all bytes.
#[tactic(auto, using(crate::proofs::Frames::frame_waits))]
pub fn waits_with_all(bytes: &[u8])
    ensures { WaitsWithAll bytes.now }
{}
