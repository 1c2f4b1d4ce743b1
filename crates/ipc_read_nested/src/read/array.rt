//! Reads columns with children, one file for each physical type.
pub mod fixed_size_list;
pub mod list;
pub mod map;
pub mod struct_;
pub mod union;
