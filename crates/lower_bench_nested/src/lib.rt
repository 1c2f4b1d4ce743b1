//! Tests of builders of dictionary-encoded arrays, and of arrays of nulls.
//!
//! Each public call is made with known data. Expected values are those of the Arrow columnar
//! format.
#![tactic(auto)]

#[cfg(test)]
mod dictionaries;
#[cfg(test)]
mod integers;
#[cfg(test)]
mod nested_nulls;
#[cfg(test)]
mod nulls;
#[cfg(test)]
mod refused_types;
