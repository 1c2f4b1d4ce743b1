//! Why an array can't be made of its parts.
use thiserror::Error;

/// Why an array can't be made of its parts.
#[derive(Debug, Clone, Copy, Drop, PartialEq, Eq, Error)]
pub enum Error {
    /// The parts break a rule of the Arrow columnar format.
    #[error("out of spec: {0}")]
    OutOfSpec(Rule),
}

/// The rules for the parts of an array.
#[derive(Debug, Clone, Copy, PartialEq, Eq, Error)]
pub enum Rule {
    #[error("the bitmap has more bits than its bytes hold")]
    BitmapLength,
    #[error("there is no offset")]
    NoOffset,
    #[error("an offset is negative, or less than the one before it")]
    FallingOffset,
    #[error("the data type has another physical type than the array")]
    PhysicalType,
    #[error("the validity has another length than the array")]
    ValidityLength,
    #[error("the fixed size is 0")]
    ZeroSize,
    #[error("the values have another length than the slots take")]
    ValuesLength,
    #[error("the last offset is past the end of the values")]
    OffsetsPastValues,
    #[error("a text is not UTF-8")]
    Utf8,
    #[error("there is no child")]
    NoChild,
    #[error("there are not as many children as fields")]
    ChildCount,
    #[error("a child has another type than its field")]
    ChildType,
    #[error("a child has another length than the slots take")]
    ChildLength,
    #[error("the child of a map is not a struct of two fields")]
    MapChild,
    #[error("a union has 1 to 127 children")]
    UnionChildren,
    #[error("the ids of a union are distinct, from 0 to 126, one for each child")]
    UnionIds,
    #[error("a type of a union names no child")]
    UnionType,
    #[error("a dense union has one offset for each type, a sparse one has none")]
    UnionOffsets,
    #[error("an offset of a union is not a place of its child")]
    UnionOffset,
    #[error("a key is not a place among the values of the dictionary")]
    DictionaryKey,
    #[error("the values of the dictionary have another type")]
    DictionaryValues,
}
