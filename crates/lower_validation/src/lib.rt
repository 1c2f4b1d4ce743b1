//! Parts and rules of arrays with children: numbers, dictionary keys, type ids, offsets.
//!
//! A rule needs to know only the type and the length of a child. No clause says that clones and
//! slices share memory; tests check it.
#![tactic(auto)]

pub mod children;
pub mod fields;
pub mod ids;
pub mod keys;
pub mod numbers;
pub mod numeric;
pub mod offsets;
pub mod places;
pub mod rules;
