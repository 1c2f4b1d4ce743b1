//! What the programs do, on any devices. The main of each is three lines around a call of `start`.
#![tactic(auto)]

pub mod cat;
pub mod class;
pub mod convert;
pub mod process;
