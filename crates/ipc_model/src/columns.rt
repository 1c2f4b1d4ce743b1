//! Theorems on columns.

ghost use Rattle.ipc_model.specs.Extending.{ExtendLaw};
ghost use Rattle.ipc_model.specs.HeldColumns.{ReadHeldLaw};
ghost use Rattle.ipc_model.specs.KindLaws.{BufferCountLaw, NoFloatLaw, NodeCountLaw};
ghost use Rattle.ipc_model.specs.Laws.{LimitLaw, NeedLaw, NodeLaw, NumberLaw};
ghost use Rattle.ipc_model.specs.Needed.{NeededLaw};
ghost use Rattle.ipc_model.specs.ReadArrays.{ReadSlotsLaw};
ghost use Rattle.ipc_model.specs.ReadChunks.{ReadValuesLaw};
ghost use Rattle.ipc_model.specs.TestLaws.{WellTestLaw};

/// Each column has at least one node.
#[tactic(auto, using(crate::proofs::Needs::node_law))]
pub fn nodes_of_columns()
    ensures { NodeLaw }
{}

/// Columns have as many nodes and buffers as their fields need.
#[tactic(auto, using(crate::proofs::TypeKinds::node_count_law, crate::proofs::TypeKinds::buffer_count_law))]
pub fn counts_of_fields()
    ensures nodes { NodeCountLaw }
    ensures buffers { BufferCountLaw }
{}

/// A column of floats has a kind of its own, which is never valid.
#[tactic(auto, using(crate::proofs::TypeKinds::no_float_law))]
pub fn floats_of_fields()
    ensures { NoFloatLaw }
{}

/// Each number and integer of a buffer is read from its bytes, if present.
#[tactic(auto, using(crate::proofs::Needs::number_law))]
pub fn numbers_of_columns()
    ensures { NumberLaw }
{}

/// The bytes of a buffer that are present are those within its length and the source.
#[tactic(auto, using(crate::proofs::Needs::need_law))]
pub fn needed_bytes()
    ensures { NeedLaw }
{}

/// A valid column stays valid under a smaller limit, which gives its first slots.
#[tactic(auto, using(crate::proofs::Limits::limit_law))]
pub fn smaller_limits()
    ensures { LimitLaw }
{}

/// Whether a column is valid can be computed.
#[tactic(auto, using(crate::proofs::Decided::well_test_law))]
pub fn test_of_columns()
    ensures { WellTestLaw }
{}

/// A valid column means the same if its entries move or bytes follow its buffers.
pub fn extended_columns()
    ensures { ExtendLaw }
{}

/// A valid column needs at most the encoded length of its buffers.
pub fn bytes_of_columns()
    ensures { NeededLaw }
{}

/// The array of a column retains at most the bytes that the column needs.
///
/// One offset for each empty offset buffer comes on top. Dictionary values aren't counted.
#[tactic(auto, using(crate::proofs::HeldColumns::read_held_law))]
pub fn bytes_of_arrays()
    ensures { ReadHeldLaw }
{}

/// The array of a valid column has the column's slots.
#[tactic(auto, using(crate::proofs::ReadSlots::read_slots_law))]
pub fn slots_of_arrays()
    ensures { ReadSlotsLaw }
{}

/// The array of a valid column has the known values at its dictionary fields.
#[tactic(auto, using(crate::proofs::ReadValues::read_values_law))]
pub fn values_of_arrays()
    ensures { ReadValuesLaw }
{}
