//! Numbers in bytes.

ghost use Rattle.ipc_examples.specs.NumberRows.{NumberRows, PartRows, WideRows};

/// Numbers in either byte order, signed and unsigned, and past the end.
#[tactic(auto, using(crate::proofs::NumberRows::number_rows))]
pub fn numbers_in_bytes()
    ensures { NumberRows }
{}

/// Values of several numbers: the order applies in each part, not to the parts.
#[tactic(auto, using(crate::proofs::NumberRows::part_rows))]
pub fn parts_in_bytes()
    ensures { PartRows }
{}

/// Numbers of 128 and 256 bits.
#[tactic(auto, using(crate::proofs::NumberRows::wide_rows))]
pub fn wide_numbers()
    ensures { WideRows }
{}
