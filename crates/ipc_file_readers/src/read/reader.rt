//! Reads the chunks of a file in order.
//!
//! Arrow columnar format, "IPC File Format".
mod next;
mod runs;
mod state;

pub use runs::{reading_of_files, rows_of_files};
pub use state::FileReader;
