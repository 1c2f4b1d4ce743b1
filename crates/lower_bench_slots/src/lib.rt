//! Tests of comparisons, of least and greatest values, and of slots as texts.
//!
//! Each public call is made with known data. Dates and times are those of ISO 8601.
#![tactic(auto)]

#[cfg(test)]
mod comparisons;
#[cfg(test)]
mod display_floats;
#[cfg(test)]
mod display_numbers;
#[cfg(test)]
mod display_slots;
#[cfg(test)]
mod display_times;
#[cfg(test)]
mod displays;
#[cfg(test)]
mod least;
