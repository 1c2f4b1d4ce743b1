//! Numbers and bits in bytes. Past the end, bytes are 0.
//!
//! Arrow columnar format, "Byte Order (Endianness)" and "Validity bitmaps".
ghost use Rattle.std.specs.Prelude.{◌≡◌, ◌+◌, ◌*◌, ◌<◌, ◌≤◌, drop, slice_index, slice_range, take};
ghost use Rattle.byteorder.specs.Endian.{little_from, big_from};
ghost use Rattle.ipc_model.specs.Entries.{bit};
ghost use Rattle.ipc_model.specs.TypeKinds.{key_form};
ghost use Rattle.lower_types.specs.Numbers.{unsigned_in};
ghost use Rattle.lower_types.specs.NumberTypes.{number_in, whole, width_of};

use lower::datatypes::IntegerType;
use lower_types::Endianness;

/// The byte at an index; 0 past the end.
pub fn byte(bytes: &[u8], index: usize) -> u8
    ensures { result ≡ slice_index bytes.now index }
{
    if index < bytes.len() { bytes[index] } else { 0 }
}

/// The bytes from `width * index` on; none past the end.
pub fn value_bytes(bytes: &[u8], width: usize, index: usize) -> &[u8]
    ensures { result.now ≡ drop (width * index) bytes.now }
{
    match width.checked_mul(index) {
        Some(place) if place < bytes.len() => &bytes[place..],
        _ => &[],
    }
}

/// The bytes in a range, as far as there are any.
pub fn range(bytes: &[u8], from: usize, to: usize) -> &[u8]
    ensures { result.now ≡ slice_range bytes.now from to }
{
    let end = to.min(bytes.len());
    if from < end { &bytes[from..end] } else { &[] }
}

/// `count` bytes from an offset on, as far as there are any.
#[tactic(auto, using(std::proofs::lemmas::List::take_min, std::proofs::lemmas::List::drop_all))]
pub fn window(bytes: &[u8], from: usize, count: usize) -> &[u8]
    ensures { result.now ≡ take count (drop from bytes.now) }
{
    if from >= bytes.len() {
        return &[];
    }
    let rest = &bytes[from..];
    &rest[..count.min(rest.len())]
}

/// Bit `index`: the lowest bit of a byte is the first.
pub fn bit(bytes: &[u8], index: usize) -> bool
    ensures { result ≡ bit bytes.now index }
{
    (byte(bytes, index / 8) >> (index % 8)) % 2 == 1
}

// The number in two bytes, the lowest first. The others likewise.
fn little_2(bytes: &[u8], from: usize) -> u16
    requires { from ≤ 6 }
    ensures { result ≡ little_from from 2 bytes.now }
{
    byte(bytes, from) as u16 + 256 * byte(bytes, from + 1) as u16
}

fn little_4(bytes: &[u8], from: usize) -> u32
    requires { from ≤ 4 }
    ensures { result ≡ little_from from 4 bytes.now }
{
    little_2(bytes, from) as u32 + 65536 * little_2(bytes, from + 2) as u32
}

fn little_8(bytes: &[u8]) -> u64
    ensures { result ≡ little_from 0 8 bytes.now }
{
    little_4(bytes, 0) as u64 + 4294967296 * little_4(bytes, 4) as u64
}

// The number in two bytes, the highest first. The others likewise.
fn big_2(bytes: &[u8], from: usize) -> u16
    requires { from ≤ 6 }
    ensures { result ≡ big_from from 2 bytes.now }
{
    256 * byte(bytes, from) as u16 + byte(bytes, from + 1) as u16
}

fn big_4(bytes: &[u8], from: usize) -> u32
    requires { from ≤ 4 }
    ensures { result ≡ big_from from 4 bytes.now }
{
    65536 * big_2(bytes, from) as u32 + big_2(bytes, from + 2) as u32
}

fn big_8(bytes: &[u8]) -> u64
    ensures { result ≡ big_from 0 8 bytes.now }
{
    4294967296 * big_4(bytes, 0) as u64 + big_4(bytes, 4) as u64
}

/// The number in the first two bytes.
pub fn unsigned_2(order: Endianness, bytes: &[u8]) -> u16
    ensures { result ≡ unsigned_in 2 order bytes.now }
{
    match order {
        Endianness::Little => little_2(bytes, 0),
        Endianness::Big => big_2(bytes, 0),
    }
}

/// The number in the first four bytes.
pub fn unsigned_4(order: Endianness, bytes: &[u8]) -> u32
    ensures { result ≡ unsigned_in 4 order bytes.now }
{
    match order {
        Endianness::Little => little_4(bytes, 0),
        Endianness::Big => big_4(bytes, 0),
    }
}

/// The number in the first eight bytes.
pub fn unsigned_8(order: Endianness, bytes: &[u8]) -> u64
    ensures { result ≡ unsigned_in 8 order bytes.now }
{
    match order {
        Endianness::Little => little_8(bytes),
        Endianness::Big => big_8(bytes),
    }
}

/// How many bytes an integer of a type has.
pub fn width(form: IntegerType) -> usize
    ensures width { result ≡ width_of (key_form form) }
    ensures few { result ≤ 8 }
{
    match form {
        IntegerType::Int8 | IntegerType::UInt8 => 1,
        IntegerType::Int16 | IntegerType::UInt16 => 2,
        IntegerType::Int32 | IntegerType::UInt32 => 4,
        IntegerType::Int64 | IntegerType::UInt64 => 8,
    }
}

/// The integer of a type in the first bytes.
pub fn integer(form: IntegerType, order: Endianness, bytes: &[u8]) -> i128
    ensures { whole result ≡ number_in (key_form form) order bytes.now }
{
    match form {
        IntegerType::Int8 => byte(bytes, 0).cast_signed() as i128,
        IntegerType::Int16 => unsigned_2(order, bytes).cast_signed() as i128,
        IntegerType::Int32 => unsigned_4(order, bytes).cast_signed() as i128,
        IntegerType::Int64 => unsigned_8(order, bytes).cast_signed() as i128,
        IntegerType::UInt8 => byte(bytes, 0) as i128,
        IntegerType::UInt16 => unsigned_2(order, bytes) as i128,
        IntegerType::UInt32 => unsigned_4(order, bytes) as i128,
        IntegerType::UInt64 => unsigned_8(order, bytes) as i128,
    }
}
