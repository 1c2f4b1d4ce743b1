//! Which columns are read, in which order, and at which index each is returned.
pub mod asked;
pub mod chosen;
pub mod prepare;
pub mod projection;
