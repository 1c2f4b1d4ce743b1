//! Arrays without children: nulls, booleans, numbers, byte strings and texts.
//!
//! The constructors check the rules of the Arrow columnar format, "Physical Memory Layout", so that
//! each array keeps them. A clone or a slice shares the memory and copies no slot; no clause says
//! so, but tests check it. Slicing allocates nothing: it has no error for that.
#![tactic(auto)]

mod binary;
mod boolean;
pub mod equality;
mod fixed_size_binary;
mod null;
mod primitive;
pub mod ranges;
mod spans;
mod texts;
mod utf8;
pub mod validity;

pub use binary::{BinaryArray, BinaryIter};
pub use boolean::{BooleanArray, BooleanIter};
pub use fixed_size_binary::{FixedSizeBinaryArray, FixedSizeBinaryIter};
pub use null::NullArray;
pub use primitive::{
    DaysMsArray, Int8Array, Int16Array, Int32Array, Int64Array, Int128Array, Int256Array,
    MonthsDaysNsArray, PrimitiveArray, PrimitiveIter, UInt8Array, UInt16Array, UInt32Array,
    UInt64Array,
};
pub use utf8::{Utf8Array, Utf8Iter};
