//! Tests of `filter`, `take` and `concatenate` on arrays of every kind.
//!
//! Expected slots are written by hand.
#![tactic(auto)]

#[cfg(test)]
mod columns;
#[cfg(test)]
mod dictionaries;
#[cfg(test)]
mod flat;
#[cfg(test)]
mod lists;
#[cfg(test)]
mod numbers;
#[cfg(test)]
mod parts;
#[cfg(test)]
mod records;
#[cfg(test)]
mod unions;
