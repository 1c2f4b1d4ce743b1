//! Pieces of a body, which borrow the arrays.

use lower::types::{days_ms, i256, months_days_ns};

/// Numbers of any type that arrays can have.
#[derive(Clone, Copy)]
pub enum NumberSlice<'a> {
    Int8(&'a [i8]),
    Int16(&'a [i16]),
    Int32(&'a [i32]),
    Int64(&'a [i64]),
    Int128(&'a [i128]),
    Int256(&'a [i256]),
    UInt8(&'a [u8]),
    UInt16(&'a [u16]),
    UInt32(&'a [u32]),
    UInt64(&'a [u64]),
    DaysMs(&'a [days_ms]),
    MonthDayNano(&'a [months_days_ns]),
}

/// A piece of a body. The byte order of its numbers is chosen when it is sent.
#[derive(Clone, Copy)]
pub enum Piece<'a> {
    /// Bytes as they are.
    Bytes(&'a [u8]),
    /// Numbers.
    Numbers(NumberSlice<'a>),
    /// 32-bit offsets, from each of which the first one is subtracted.
    SmallOffsets(&'a [i32]),
    /// 64-bit offsets, from each of which the first one is subtracted.
    LargeOffsets(&'a [i64]),
    /// Bits that are shifted to start at bit 0 of a byte, with zeros after the last.
    ///
    /// The fields are the bytes, the position of the first bit in the first byte (modulo 8), and
    /// the number of bits.
    Bits(&'a [u8], usize, usize),
}

/// A piece of a body, and how many zero bytes come after it.
#[derive(Clone, Copy)]
pub struct Padded<'a> {
    pub piece: Piece<'a>,
    pub zeros: usize,
}
