//! arrow2's `compute`: comparisons with a value, and the least and the greatest value.
pub use lower_aggregate::{aggregate, comparison};
