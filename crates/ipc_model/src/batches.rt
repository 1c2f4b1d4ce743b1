//! Theorems on batches.

ghost use Rattle.ipc_model.specs.AddressLaws.{AddressLaw, DictionaryFollowLaw, OrderLaw, RecordFollowLaw};
ghost use Rattle.ipc_model.specs.WrittenBatches.{WrittenBatchLaw};
ghost use Rattle.ipc_model.specs.HeldColumns.{ChosenHeldLaw};
ghost use Rattle.ipc_model.specs.Needed.{BatchNeededLaw, ChosenNeededLaw};
ghost use Rattle.ipc_model.specs.Offers.{EntryCountLaw};
ghost use Rattle.ipc_model.specs.BatchLaws.{AgreeLaw, BatchTestLaw, NoProjectionLaw, ProjectionTestLaw, PruneLaw};

/// `is_batch` decides whether a batch is valid, and `is_projection` whether a projection is.
#[tactic(auto, using(crate::proofs::Pruned::batch_decides, crate::proofs::Pruned::projection_decides))]
pub fn test_of_batches()
    ensures entries { BatchTestLaw }
    ensures projection { ProjectionTestLaw }
{}

/// A valid batch is valid for each projection and limit.
///
/// It gives the first slots of the chosen columns, in the order of the projection. A projection
/// that names a column twice, or one that isn't there, gives nothing.
#[tactic(auto, using(crate::proofs::Pruned::prune_law, crate::proofs::Pruned::no_projection_law))]
pub fn pruned_batches()
    ensures pruned { PruneLaw }
    ensures other { NoProjectionLaw }
{}

/// A batch depends only on the bytes in the chosen columns' buffers.
#[tactic(auto, using(crate::proofs::Agreement::agree_law))]
pub fn agreeing_sources()
    ensures { AgreeLaw }
{}

/// The entries of a column are after those of each column before it.
pub fn order_of_columns()
    ensures { OrderLaw }
{}

/// A column among all entries of a batch means the same as among its own.
pub fn addresses_of_columns()
    ensures { AddressLaw }
{}

/// A valid record batch means the same if bytes follow.
pub fn followed_batches()
    ensures { RecordFollowLaw }
{}

/// A valid dictionary batch means the same if bytes follow.
pub fn followed_dictionaries()
    ensures { DictionaryFollowLaw }
{}

/// A batch of columns of numbers that was written means these columns.
pub fn written_batches()
    ensures { WrittenBatchLaw }
{}

/// All columns of a batch need at most the bytes that its buffers may have together.
pub fn bytes_of_batches()
    ensures { BatchNeededLaw }
{}

/// The chosen columns of a batch need at most their own buffers' encoded length.
///
/// That is at most what all buffers may have together. It applies to each projection that names a
/// column once, and each limit.
pub fn bytes_of_chosen_columns()
    ensures { ChosenNeededLaw }
{}

/// Arrays of the chosen columns retain at most the encoded length of their own buffers.
///
/// That is at most what all buffers may have together. The offset for each empty offset buffer
/// isn't counted.
pub fn bytes_of_chosen_arrays()
    ensures { ChosenHeldLaw }
{}

/// A written array has the nodes and buffers that a column of its type needs.
pub fn entries_of_arrays()
    ensures { EntryCountLaw }
{}
