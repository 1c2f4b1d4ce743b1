//! Checks whether some parts make an array with children.
//!
//! Only the types and the lengths of the children count.
mod dictionary;
mod fixed_size_list;
mod list;
mod map;
mod struct_;
mod union;

pub use dictionary::check_dictionary;
pub use fixed_size_list::check_fixed_list;
pub use list::check_list;
pub use map::check_map;
pub use struct_::check_struct;
pub use union::check_union;
