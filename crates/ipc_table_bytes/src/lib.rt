//! Encodes the parts of a FlatBuffers message: texts, vectors and tables.
//!
//! A part is built from the parts that it refers to. Offsets are relative, so its bytes can be
//! placed at any multiple of 8, and nothing is patched. The size is computed first: each part is
//! one vector, into which the parts below are copied once. Their memory then serves the next parts.
#![tactic(auto)]

mod build;
mod root;
mod table_part;
mod vector_parts;

pub use crate::build::{Built, Pool, Slot, put_u32, put_u64};
pub use crate::root::message;
pub use crate::table_part::table;
pub use crate::vector_parts::{elements, elements_header, tables, text};
