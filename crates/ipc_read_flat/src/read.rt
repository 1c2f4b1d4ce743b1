//! Reads the entries of a batch, and columns that have no children among them.
pub mod array;
pub mod body;
pub mod flat;
pub mod read_basic;

use lower_arrays::array::AnyArray;
use std::collections::HashMap;
use std::sync::Arc;

/// The values of dictionaries by their ids, which the arrays that are read share.
///
/// See "Dictionary messages" in the Arrow columnar format.
pub type Dictionaries = HashMap<i64, Arc<AnyArray>>;
