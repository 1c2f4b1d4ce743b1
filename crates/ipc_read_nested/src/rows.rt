//! Worked examples of columns, and how many bytes their arrays retain at most.
ghost use Rattle.ipc_read_nested.specs.HeldListedRows.{HeldListedRows};

/// The offsets that an array retains although no buffer has them.
#[tactic(auto, using(crate::proofs::HeldListedRows::held_listed_rows))]
pub fn bytes_listed()
    ensures { HeldListedRows }
{}
