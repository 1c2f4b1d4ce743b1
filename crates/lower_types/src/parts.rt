//! Numbers of several parts: calendar intervals and 256-bit integers.
//!
//! Arrow columnar format, "Byte Order (Endianness)": the byte order applies to each part of an
//! interval, and the parts keep the order in which they are declared here, in memory too. A 256-bit
//! integer is one number, so the byte order applies to its halves too.
ghost use Rattle.std.specs.Prelude.{◌≡◌, ℕ, List, ◌+◌, ◌*◌, ◌/◌, ◌^◌, ◌<◌, ◌≤◌, ◌++◌, ◌↔◌, length, drop, vec_len, OnOk, IsTrue, refl};
ghost use Rattle.std.specs.Int.{w32, w64, w128};
ghost use Rattle.std.specs.Int.RustNames.{FitsSigned};
ghost use Rattle.std.specs.List.{flat_map};
ghost use Rattle.lower_types.specs.Numbers.{values_of};
ghost use Rattle.lower_types.specs.PartNumbers.{days_ms_by, days_ms_spelt, months_days_ns_by, months_days_ns_spelt, low_first_by, low_first_spelt, high_first_by, high_first_spelt};
ghost use Rattle.lower_types.specs.NumberTypes.{wide, day_time, month_day_nano};
ghost use Rattle.lower_types.specs.declared.PrimitiveType.TheVariants.{DaysMs, MonthDayNano, Int256};

use super::{Endianness, NativeType, PrimitiveType};
use byteorder::{BigEndian, ByteOrder, LittleEndian};
use std::alloc::AllocError;

/// A time span in days and milliseconds.
///
/// The parts don't add up, since a day has no fixed length.
#[derive(Debug, Clone, Copy, PartialEq, Eq)]
#[repr(C)]
pub struct days_ms {
    pub days: i32,
    pub milliseconds: i32,
}

/// A time span in months, days and nanoseconds.
///
/// The parts don't add up, since months and days have no fixed length.
#[derive(Debug, Clone, Copy, PartialEq, Eq)]
#[repr(C)]
pub struct months_days_ns {
    pub months: i32,
    pub days: i32,
    pub nanoseconds: i64,
}

/// A signed 256-bit integer: `2 ^ 128` times the high half, plus the low half.
///
/// In memory the low half comes first, as in Arrow's little-endian buffers.
#[derive(Debug, Clone, Copy, PartialEq, Eq)]
#[repr(C)]
pub struct i256 {
    pub low: u128,
    pub high: i128,
}

impl NativeType for days_ms {
    ghost use Rattle.lower_types.specs.PartNumbers.{days_ms_in, days_ms_bytes};
    ghost use Rattle.lower_types.specs.PartLaws.{days_ms-first, days_ms-length, days_ms-back, days_ms-number};

    ghost primitive = { DaysMs };

    ghost width = { 8 };

    ghost number = { λ x. day_time x.days x.milliseconds };

    ghost value = { days_ms_in };

    ghost spelt = { days_ms_bytes };

    ghost fits = { λ x. FitsSigned w32 x.days × FitsSigned w32 x.milliseconds };

    ghost width_is = { refl };

    ghost number_is = { days_ms-number };

    ghost reads_first = { days_ms-first };

    ghost spelt_length = { days_ms-length };

    ghost reads_back = { days_ms-back };

    fn primitive_type() -> PrimitiveType {
        PrimitiveType::DaysMs
    }

    fn width() -> usize {
        8
    }

    fn is_same(self, other: days_ms) -> bool {
        self.days == other.days && self.milliseconds == other.milliseconds
    }

    fn put(values: &[days_ms], to: &mut [u8], order: Endianness) {
        match order {
            Endianness::Little => put_days_ms::<LittleEndian>(values, to),
            Endianness::Big => put_days_ms::<BigEndian>(values, to),
        }
    }

    fn append(out: &mut Vec<days_ms>, bytes: &[u8], order: Endianness) -> Result<(), AllocError> {
        match order {
            Endianness::Little => append_days_ms::<LittleEndian>(out, bytes),
            Endianness::Big => append_days_ms::<BigEndian>(out, bytes),
        }
    }
}

fn read_days_ms<B: ByteOrder>(bytes: &[u8; 8]) -> days_ms
    ensures { result ≡ days_ms_by B.number_of bytes.now }
{
    days_ms {
        days: B::read_i32(bytes),
        milliseconds: B::read_i32(&bytes[4..]),
    }
}

fn write_days_ms<B: ByteOrder>(to: &mut [u8], value: days_ms)
    requires { 8 ≤ length to.old }
    ensures { to.new ≡ days_ms_spelt B.bytes_of value ++ drop 8 to.old }
{
    B::write_i32(to, value.days);
    B::write_i32(&mut to[4..], value.milliseconds);
}

fn put_days_ms<B: ByteOrder>(values: &[days_ms], to: &mut [u8])
    requires { length to.old ≡ 8 * length values.now }
    ensures { to.new ≡ flat_map (days_ms_spelt B.bytes_of) values.now }
{
    'items: for i in 0..values.len() {
        write_days_ms::<B>(&mut to[8 * i..], values[i]);
    }
}

fn append_days_ms<B: ByteOrder>(out: &mut Vec<days_ms>, bytes: &[u8]) -> Result<(), AllocError>
    ensures items { OnOk result (out.new.items ≡ out.old.items ++ values_of (days_ms_by B.number_of) 8 bytes.now) }
    ensures len { OnOk result (vec_len out.new ≡ vec_len out.old + length bytes.now / 8) }
{
    let (chunks, _) = bytes.as_chunks::<8>();
    out.extend(chunks.iter().map(|chunk| read_days_ms::<B>(chunk)))
}

impl NativeType for months_days_ns {
    ghost use Rattle.lower_types.specs.PartNumbers.{months_days_ns_in, months_days_ns_bytes};
    ghost use Rattle.lower_types.specs.PartLaws.{months_days_ns-first, months_days_ns-length, months_days_ns-back, months_days_ns-number};

    ghost primitive = { MonthDayNano };

    ghost width = { 16 };

    ghost number = { λ x. month_day_nano x.months x.days x.nanoseconds };

    ghost value = { months_days_ns_in };

    ghost spelt = { months_days_ns_bytes };

    ghost fits = { λ x. FitsSigned w32 x.months × FitsSigned w32 x.days × FitsSigned w64 x.nanoseconds };

    ghost width_is = { refl };

    ghost number_is = { months_days_ns-number };

    ghost reads_first = { months_days_ns-first };

    ghost spelt_length = { months_days_ns-length };

    ghost reads_back = { months_days_ns-back };

    fn primitive_type() -> PrimitiveType {
        PrimitiveType::MonthDayNano
    }

    fn width() -> usize {
        16
    }

    fn is_same(self, other: months_days_ns) -> bool {
        self.months == other.months
            && self.days == other.days
            && self.nanoseconds == other.nanoseconds
    }

    fn put(values: &[months_days_ns], to: &mut [u8], order: Endianness) {
        match order {
            Endianness::Little => put_months_days_ns::<LittleEndian>(values, to),
            Endianness::Big => put_months_days_ns::<BigEndian>(values, to),
        }
    }

    fn append(
        out: &mut Vec<months_days_ns>,
        bytes: &[u8],
        order: Endianness,
    ) -> Result<(), AllocError> {
        match order {
            Endianness::Little => append_months_days_ns::<LittleEndian>(out, bytes),
            Endianness::Big => append_months_days_ns::<BigEndian>(out, bytes),
        }
    }
}

fn read_months_days_ns<B: ByteOrder>(bytes: &[u8; 16]) -> months_days_ns
    ensures { result ≡ months_days_ns_by B.number_of bytes.now }
{
    months_days_ns {
        months: B::read_i32(bytes),
        days: B::read_i32(&bytes[4..]),
        nanoseconds: B::read_i64(&bytes[8..]),
    }
}

fn write_months_days_ns<B: ByteOrder>(to: &mut [u8], value: months_days_ns)
    requires { 16 ≤ length to.old }
    ensures { to.new ≡ months_days_ns_spelt B.bytes_of value ++ drop 16 to.old }
{
    B::write_i32(to, value.months);
    B::write_i32(&mut to[4..], value.days);
    B::write_i64(&mut to[8..], value.nanoseconds);
}

fn put_months_days_ns<B: ByteOrder>(values: &[months_days_ns], to: &mut [u8])
    requires { length to.old ≡ 16 * length values.now }
    ensures { to.new ≡ flat_map (months_days_ns_spelt B.bytes_of) values.now }
{
    'items: for i in 0..values.len() {
        write_months_days_ns::<B>(&mut to[16 * i..], values[i]);
    }
}

fn append_months_days_ns<B: ByteOrder>(
    out: &mut Vec<months_days_ns>,
    bytes: &[u8],
) -> Result<(), AllocError>
    ensures items { OnOk result (out.new.items ≡ out.old.items ++ values_of (months_days_ns_by B.number_of) 16 bytes.now) }
    ensures len { OnOk result (vec_len out.new ≡ vec_len out.old + length bytes.now / 16) }
{
    let (chunks, _) = bytes.as_chunks::<16>();
    out.extend(chunks.iter().map(|chunk| read_months_days_ns::<B>(chunk)))
}

impl NativeType for i256 {
    ghost use Rattle.lower_types.specs.PartNumbers.{i256_in, i256_bytes};
    ghost use Rattle.lower_types.specs.PartLaws.{i256-first, i256-length, i256-back, i256-number};

    ghost primitive = { Int256 };

    ghost width = { 32 };

    ghost number = { λ x. wide x.high x.low };

    ghost value = { i256_in };

    ghost spelt = { i256_bytes };

    ghost fits = { λ x. FitsSigned w128 x.high × (x.low < 2 ^ 128) };

    ghost width_is = { refl };

    ghost number_is = { i256-number };

    ghost reads_first = { i256-first };

    ghost spelt_length = { i256-length };

    ghost reads_back = { i256-back };

    fn primitive_type() -> PrimitiveType {
        PrimitiveType::Int256
    }

    fn width() -> usize {
        32
    }

    fn is_same(self, other: i256) -> bool {
        self.high == other.high && self.low == other.low
    }

    fn put(values: &[i256], to: &mut [u8], order: Endianness) {
        match order {
            Endianness::Little => put_low_first::<LittleEndian>(values, to),
            Endianness::Big => put_high_first::<BigEndian>(values, to),
        }
    }

    fn append(out: &mut Vec<i256>, bytes: &[u8], order: Endianness) -> Result<(), AllocError> {
        match order {
            Endianness::Little => append_low_first::<LittleEndian>(out, bytes),
            Endianness::Big => append_high_first::<BigEndian>(out, bytes),
        }
    }
}

fn read_low_first<B: ByteOrder>(bytes: &[u8; 32]) -> i256
    ensures { result ≡ low_first_by B.number_of bytes.now }
{
    i256 {
        high: B::read_i128(&bytes[16..]),
        low: B::read_u128(bytes),
    }
}

fn write_low_first<B: ByteOrder>(to: &mut [u8], value: i256)
    requires { 32 ≤ length to.old }
    ensures { to.new ≡ low_first_spelt B.bytes_of value ++ drop 32 to.old }
{
    B::write_u128(to, value.low);
    B::write_i128(&mut to[16..], value.high);
}

fn put_low_first<B: ByteOrder>(values: &[i256], to: &mut [u8])
    requires { length to.old ≡ 32 * length values.now }
    ensures { to.new ≡ flat_map (low_first_spelt B.bytes_of) values.now }
{
    'items: for i in 0..values.len() {
        write_low_first::<B>(&mut to[32 * i..], values[i]);
    }
}

fn append_low_first<B: ByteOrder>(out: &mut Vec<i256>, bytes: &[u8]) -> Result<(), AllocError>
    ensures items { OnOk result (out.new.items ≡ out.old.items ++ values_of (low_first_by B.number_of) 32 bytes.now) }
    ensures len { OnOk result (vec_len out.new ≡ vec_len out.old + length bytes.now / 32) }
{
    let (chunks, _) = bytes.as_chunks::<32>();
    out.extend(chunks.iter().map(|chunk| read_low_first::<B>(chunk)))
}

fn read_high_first<B: ByteOrder>(bytes: &[u8; 32]) -> i256
    ensures { result ≡ high_first_by B.number_of bytes.now }
{
    i256 {
        high: B::read_i128(bytes),
        low: B::read_u128(&bytes[16..]),
    }
}

fn write_high_first<B: ByteOrder>(to: &mut [u8], value: i256)
    requires { 32 ≤ length to.old }
    ensures { to.new ≡ high_first_spelt B.bytes_of value ++ drop 32 to.old }
{
    B::write_i128(to, value.high);
    B::write_u128(&mut to[16..], value.low);
}

fn put_high_first<B: ByteOrder>(values: &[i256], to: &mut [u8])
    requires { length to.old ≡ 32 * length values.now }
    ensures { to.new ≡ flat_map (high_first_spelt B.bytes_of) values.now }
{
    'items: for i in 0..values.len() {
        write_high_first::<B>(&mut to[32 * i..], values[i]);
    }
}

fn append_high_first<B: ByteOrder>(out: &mut Vec<i256>, bytes: &[u8]) -> Result<(), AllocError>
    ensures items { OnOk result (out.new.items ≡ out.old.items ++ values_of (high_first_by B.number_of) 32 bytes.now) }
    ensures len { OnOk result (vec_len out.new ≡ vec_len out.old + length bytes.now / 32) }
{
    let (chunks, _) = bytes.as_chunks::<32>();
    out.extend(chunks.iter().map(|chunk| read_high_first::<B>(chunk)))
}
