//! Reads columns without children, one file for each physical type.
pub mod binary;
pub mod boolean;
pub mod dictionary;
pub mod fixed_size_binary;
pub mod null;
pub mod primitive;
pub mod utf8;
