//! Theorems on files.

ghost use Rattle.ipc_model.specs.FileFollowLaws.{BlocksFollowLaw, FileFollowLaw};
ghost use Rattle.ipc_model.specs.FileLaws.{FileAgreeLaw};

/// The chunk of a block depends only on its message and the chosen columns' buffers.
#[tactic(auto, using(crate::proofs::FileAgreement::file_agree_law))]
pub fn agreeing_files()
    ensures { FileAgreeLaw }
{}

/// Blocks of a file mean the same if bytes follow or the file grows.
pub fn followed_blocks()
    ensures { BlocksFollowLaw }
{}

/// Bytes after a file change none of its dictionaries and no chunk.
#[tactic(auto, using(crate::proofs::FileFollowing::file_follow_law))]
pub fn followed_files()
    ensures { FileFollowLaw }
{}
