//! Tests of `ipcat` and `ipconvert` on devices and allocations that fail.
//!
//! No run of a program can show this.
#![tactic(auto)]

#[cfg(test)]
mod append;
#[cfg(test)]
mod append_refused;
#[cfg(test)]
mod printing;
#[cfg(test)]
mod runs;
