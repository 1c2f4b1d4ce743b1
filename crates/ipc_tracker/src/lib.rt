//! Tracks which dictionaries were written, and lists those that a chunk needs written.
#![tactic(auto)]

pub mod laws;
pub mod listing;
pub mod tracker;

pub use listing::list_dictionaries;
pub use tracker::{DictionaryTracker, NewDictionary, is_same_values};
