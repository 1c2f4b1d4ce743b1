//! Conversion between numbers and bytes.
//!
//! The loops over whole slices are written so that the compiler vectorizes them.
ghost use Rattle.std.specs.Prelude.{◌≡◌, ℕ, ℤ, pos, List, ◌+◌, ◌*◌, ◌/◌, ◌^◌, ◌<◌, ◌≤◌, ◌++◌, ◌↔◌, length, take, slice_index, vec_len, IfOk, OnOk, IsTrue, refl};
ghost use Rattle.std.specs.Int.{w8, w16, w32, w64, w128, cast_signed};
ghost use Rattle.std.specs.Int.RustNames.{FitsSigned};
ghost use Rattle.std.specs.List.{flat_map, All};
ghost use Rattle.lower_types.specs.Numbers.{values_of, unsigned_in, signed_in, unsigned_bytes, signed_bytes, byte_in, signed_byte_in, byte_of, signed_byte_of};
ghost use Rattle.lower_types.specs.NumberTypes.{Number, whole, width_of, number_in};
ghost use Rattle.lower_types.specs.NumberLaws.{unsigned_in-first, signed_in-first, length-unsigned_bytes, length-signed_bytes, unsigned_in-unsigned_bytes, signed_in-signed_bytes, byte_in-first, signed_byte_in-first, signed_byte_in-signed_byte_of};
ghost use Rattle.lower_types.specs.declared.Endianness.{Endianness};
ghost use Rattle.lower_types.specs.declared.PrimitiveType.{PrimitiveType};
ghost use Rattle.lower_types.specs.declared.PrimitiveType.TheVariants.{Int8, Int16, Int32, Int64, Int128, UInt8, UInt16, UInt32, UInt64};

use super::{Endianness, PrimitiveType};
use byteorder::{BigEndian, ByteOrder, LittleEndian};
use std::alloc::{AllocError, Global};

/// A number type that a column can have, of a fixed width in bytes.
pub trait NativeType: Copy + Drop {
    // The name of the type.
    ghost primitive: { PrimitiveType };

    // The bytes of one number.
    ghost width: { ℕ };

    // The number that a value is.
    ghost number: { Self → Number };

    // The value that some bytes encode.
    ghost value: { Endianness → List ℕ → Self };

    // The bytes of a value.
    ghost spelt: { Endianness → Self → List ℕ };

    // The range of the type.
    ghost fits: { Self → Type 0 };

    /// Returns the name of the type.
    fn primitive_type() -> PrimitiveType
        ensures { result ≡ primitive };

    /// Returns the width of one number in bytes, from 1 to 32.
    fn width() -> usize
        ensures value { result ≡ width }
        ensures bounds { (0 < result) × (result ≤ 32) };

    /// Returns whether two values are the same number.
    fn is_same(self, other: Self) -> bool
        ensures same { IsTrue result ↔ number self ≡ number other }
        ensures range { fits self };

    /// Writes the bytes of `values` over `to`.
    ///
    /// The length of `to` must be the width times the number of values.
    fn put(values: &[Self], to: &mut [u8], order: Endianness)
        requires { length to.old ≡ width * length values.now }
        ensures { to.new ≡ flat_map (spelt order) values.now };

    /// Appends the numbers that `bytes` encode.
    ///
    /// Bytes at the end that are fewer than one number are ignored. If an allocation fails, the
    /// contents of `out` are unspecified.
    fn append(out: &mut Vec<Self>, bytes: &[u8], order: Endianness) -> Result<(), AllocError>
        ensures items { OnOk result (out.new.items ≡ out.old.items ++ values_of (value order) width bytes.now) }
        ensures len { OnOk result (vec_len out.new ≡ vec_len out.old + length bytes.now / width) };

    ghost width_is: { width ≡ width_of primitive };

    ghost number_is: { (order : Endianness) (bytes : List ℕ) → number (value order bytes) ≡ number_in primitive order bytes };

    // Only the first `width` bytes count.
    ghost reads_first: { (order : Endianness) (bytes : List ℕ) → value order (take width bytes) ≡ value order bytes };

    ghost spelt_length: { (order : Endianness) (x : Self) → length (spelt order x) ≡ width };

    ghost reads_back: { (order : Endianness) (x : Self) → fits x → value order (spelt order x) ≡ x };
}

impl NativeType for i8 {
    ghost primitive = { Int8 };

    ghost width = { 1 };

    ghost number = { λ x. whole x };

    ghost value = { signed_byte_in };

    ghost spelt = { signed_byte_of };

    ghost fits = { λ x. FitsSigned w8 x };

    ghost width_is = { refl };

    ghost number_is = { λ order bytes. refl };

    ghost reads_first = { signed_byte_in-first };

    ghost spelt_length = { λ order x. refl };

    ghost reads_back = { λ order z h. signed_byte_in-signed_byte_of order z h };

    fn primitive_type() -> PrimitiveType {
        PrimitiveType::Int8
    }

    fn width() -> usize {
        1
    }

    fn is_same(self, other: i8) -> bool {
        self == other
    }

    fn put(values: &[i8], to: &mut [u8], _order: Endianness) {
        LittleEndian::write_i8_into(values, to);
    }

    fn append(out: &mut Vec<i8>, bytes: &[u8], _order: Endianness) -> Result<(), AllocError> {
        append_i8(out, bytes)
    }
}

fn append_i8(out: &mut Vec<i8>, bytes: &[u8]) -> Result<(), AllocError>
    ensures items { OnOk result (out.new.items ≡ out.old.items ++ values_of (λ xs. cast_signed w8 (slice_index xs 0)) 1 bytes.now) }
    ensures len { OnOk result (vec_len out.new ≡ vec_len out.old + length bytes.now / 1) }
{
    let (chunks, _) = bytes.as_chunks::<1>();
    out.extend(chunks.iter().map(|chunk| chunk[0].cast_signed()))
}

impl NativeType for i16 {
    ghost primitive = { Int16 };

    ghost width = { 2 };

    ghost number = { λ x. whole x };

    ghost value = { signed_in w16 };

    ghost spelt = { signed_bytes w16 };

    ghost fits = { λ x. FitsSigned w16 x };

    ghost width_is = { refl };

    ghost number_is = { λ order bytes. refl };

    ghost reads_first = { signed_in-first w16 };

    ghost spelt_length = { length-signed_bytes w16 };

    ghost reads_back = { signed_in-signed_bytes w16 refl };

    fn primitive_type() -> PrimitiveType {
        PrimitiveType::Int16
    }

    fn width() -> usize {
        2
    }

    fn is_same(self, other: i16) -> bool {
        self == other
    }

    fn put(values: &[i16], to: &mut [u8], order: Endianness) {
        match order {
            Endianness::Little => LittleEndian::write_i16_into(values, to),
            Endianness::Big => BigEndian::write_i16_into(values, to),
        }
    }

    fn append(out: &mut Vec<i16>, bytes: &[u8], order: Endianness) -> Result<(), AllocError> {
        match order {
            Endianness::Little => append_i16::<LittleEndian>(out, bytes),
            Endianness::Big => append_i16::<BigEndian>(out, bytes),
        }
    }
}

fn append_i16<B: ByteOrder>(out: &mut Vec<i16>, bytes: &[u8]) -> Result<(), AllocError>
    ensures items { OnOk result (out.new.items ≡ out.old.items ++ values_of (λ xs. cast_signed w16 (B.number_of 2 xs)) 2 bytes.now) }
    ensures len { OnOk result (vec_len out.new ≡ vec_len out.old + length bytes.now / 2) }
{
    let (chunks, _) = bytes.as_chunks::<2>();
    out.extend(chunks.iter().map(|chunk| B::read_i16(chunk)))
}

impl NativeType for i32 {
    ghost primitive = { Int32 };

    ghost width = { 4 };

    ghost number = { λ x. whole x };

    ghost value = { signed_in w32 };

    ghost spelt = { signed_bytes w32 };

    ghost fits = { λ x. FitsSigned w32 x };

    ghost width_is = { refl };

    ghost number_is = { λ order bytes. refl };

    ghost reads_first = { signed_in-first w32 };

    ghost spelt_length = { length-signed_bytes w32 };

    ghost reads_back = { signed_in-signed_bytes w32 refl };

    fn primitive_type() -> PrimitiveType {
        PrimitiveType::Int32
    }

    fn width() -> usize {
        4
    }

    fn is_same(self, other: i32) -> bool {
        self == other
    }

    fn put(values: &[i32], to: &mut [u8], order: Endianness) {
        match order {
            Endianness::Little => LittleEndian::write_i32_into(values, to),
            Endianness::Big => BigEndian::write_i32_into(values, to),
        }
    }

    fn append(out: &mut Vec<i32>, bytes: &[u8], order: Endianness) -> Result<(), AllocError> {
        match order {
            Endianness::Little => append_i32::<LittleEndian>(out, bytes),
            Endianness::Big => append_i32::<BigEndian>(out, bytes),
        }
    }
}

fn append_i32<B: ByteOrder>(out: &mut Vec<i32>, bytes: &[u8]) -> Result<(), AllocError>
    ensures items { OnOk result (out.new.items ≡ out.old.items ++ values_of (λ xs. cast_signed w32 (B.number_of 4 xs)) 4 bytes.now) }
    ensures len { OnOk result (vec_len out.new ≡ vec_len out.old + length bytes.now / 4) }
{
    let (chunks, _) = bytes.as_chunks::<4>();
    out.extend(chunks.iter().map(|chunk| B::read_i32(chunk)))
}

impl NativeType for i64 {
    ghost primitive = { Int64 };

    ghost width = { 8 };

    ghost number = { λ x. whole x };

    ghost value = { signed_in w64 };

    ghost spelt = { signed_bytes w64 };

    ghost fits = { λ x. FitsSigned w64 x };

    ghost width_is = { refl };

    ghost number_is = { λ order bytes. refl };

    ghost reads_first = { signed_in-first w64 };

    ghost spelt_length = { length-signed_bytes w64 };

    ghost reads_back = { signed_in-signed_bytes w64 refl };

    fn primitive_type() -> PrimitiveType {
        PrimitiveType::Int64
    }

    fn width() -> usize {
        8
    }

    fn is_same(self, other: i64) -> bool {
        self == other
    }

    fn put(values: &[i64], to: &mut [u8], order: Endianness) {
        match order {
            Endianness::Little => LittleEndian::write_i64_into(values, to),
            Endianness::Big => BigEndian::write_i64_into(values, to),
        }
    }

    fn append(out: &mut Vec<i64>, bytes: &[u8], order: Endianness) -> Result<(), AllocError> {
        match order {
            Endianness::Little => append_i64::<LittleEndian>(out, bytes),
            Endianness::Big => append_i64::<BigEndian>(out, bytes),
        }
    }
}

fn append_i64<B: ByteOrder>(out: &mut Vec<i64>, bytes: &[u8]) -> Result<(), AllocError>
    ensures items { OnOk result (out.new.items ≡ out.old.items ++ values_of (λ xs. cast_signed w64 (B.number_of 8 xs)) 8 bytes.now) }
    ensures len { OnOk result (vec_len out.new ≡ vec_len out.old + length bytes.now / 8) }
{
    let (chunks, _) = bytes.as_chunks::<8>();
    out.extend(chunks.iter().map(|chunk| B::read_i64(chunk)))
}

impl NativeType for i128 {
    ghost primitive = { Int128 };

    ghost width = { 16 };

    ghost number = { λ x. whole x };

    ghost value = { signed_in w128 };

    ghost spelt = { signed_bytes w128 };

    ghost fits = { λ x. FitsSigned w128 x };

    ghost width_is = { refl };

    ghost number_is = { λ order bytes. refl };

    ghost reads_first = { signed_in-first w128 };

    ghost spelt_length = { length-signed_bytes w128 };

    ghost reads_back = { signed_in-signed_bytes w128 refl };

    fn primitive_type() -> PrimitiveType {
        PrimitiveType::Int128
    }

    fn width() -> usize {
        16
    }

    fn is_same(self, other: i128) -> bool {
        self == other
    }

    fn put(values: &[i128], to: &mut [u8], order: Endianness) {
        match order {
            Endianness::Little => LittleEndian::write_i128_into(values, to),
            Endianness::Big => BigEndian::write_i128_into(values, to),
        }
    }

    fn append(out: &mut Vec<i128>, bytes: &[u8], order: Endianness) -> Result<(), AllocError> {
        match order {
            Endianness::Little => append_i128::<LittleEndian>(out, bytes),
            Endianness::Big => append_i128::<BigEndian>(out, bytes),
        }
    }
}

fn append_i128<B: ByteOrder>(out: &mut Vec<i128>, bytes: &[u8]) -> Result<(), AllocError>
    ensures items { OnOk result (out.new.items ≡ out.old.items ++ values_of (λ xs. cast_signed w128 (B.number_of 16 xs)) 16 bytes.now) }
    ensures len { OnOk result (vec_len out.new ≡ vec_len out.old + length bytes.now / 16) }
{
    let (chunks, _) = bytes.as_chunks::<16>();
    out.extend(chunks.iter().map(|chunk| B::read_i128(chunk)))
}

impl NativeType for u8 {
    ghost primitive = { UInt8 };

    ghost width = { 1 };

    ghost number = { λ x. whole (pos x) };

    ghost value = { byte_in };

    ghost spelt = { byte_of };

    ghost fits = { λ x. x < 2 ^ 8 };

    ghost width_is = { refl };

    ghost number_is = { λ order bytes. refl };

    ghost reads_first = { byte_in-first };

    ghost spelt_length = { λ order x. refl };

    ghost reads_back = { λ order x h. refl };

    fn primitive_type() -> PrimitiveType {
        PrimitiveType::UInt8
    }

    fn width() -> usize {
        1
    }

    fn is_same(self, other: u8) -> bool {
        self == other
    }

    fn put(values: &[u8], to: &mut [u8], _order: Endianness) {
        to.copy_from_slice(values);
    }

    fn append(out: &mut Vec<u8>, bytes: &[u8], _order: Endianness) -> Result<(), AllocError> {
        out.extend_from_slice(bytes)
    }
}

impl NativeType for u16 {
    ghost primitive = { UInt16 };

    ghost width = { 2 };

    ghost number = { λ x. whole (pos x) };

    ghost value = { unsigned_in 2 };

    ghost spelt = { unsigned_bytes 2 };

    ghost fits = { λ x. x < 2 ^ 16 };

    ghost width_is = { refl };

    ghost number_is = { λ order bytes. refl };

    ghost reads_first = { unsigned_in-first 2 };

    ghost spelt_length = { length-unsigned_bytes 2 };

    ghost reads_back = { unsigned_in-unsigned_bytes 2 };

    fn primitive_type() -> PrimitiveType {
        PrimitiveType::UInt16
    }

    fn width() -> usize {
        2
    }

    fn is_same(self, other: u16) -> bool {
        self == other
    }

    fn put(values: &[u16], to: &mut [u8], order: Endianness) {
        match order {
            Endianness::Little => LittleEndian::write_u16_into(values, to),
            Endianness::Big => BigEndian::write_u16_into(values, to),
        }
    }

    fn append(out: &mut Vec<u16>, bytes: &[u8], order: Endianness) -> Result<(), AllocError> {
        match order {
            Endianness::Little => append_u16::<LittleEndian>(out, bytes),
            Endianness::Big => append_u16::<BigEndian>(out, bytes),
        }
    }
}

fn append_u16<B: ByteOrder>(out: &mut Vec<u16>, bytes: &[u8]) -> Result<(), AllocError>
    ensures items { OnOk result (out.new.items ≡ out.old.items ++ values_of (B.number_of 2) 2 bytes.now) }
    ensures len { OnOk result (vec_len out.new ≡ vec_len out.old + length bytes.now / 2) }
{
    let (chunks, _) = bytes.as_chunks::<2>();
    out.extend(chunks.iter().map(|chunk| B::read_u16(chunk)))
}

impl NativeType for u32 {
    ghost primitive = { UInt32 };

    ghost width = { 4 };

    ghost number = { λ x. whole (pos x) };

    ghost value = { unsigned_in 4 };

    ghost spelt = { unsigned_bytes 4 };

    ghost fits = { λ x. x < 2 ^ 32 };

    ghost width_is = { refl };

    ghost number_is = { λ order bytes. refl };

    ghost reads_first = { unsigned_in-first 4 };

    ghost spelt_length = { length-unsigned_bytes 4 };

    ghost reads_back = { unsigned_in-unsigned_bytes 4 };

    fn primitive_type() -> PrimitiveType {
        PrimitiveType::UInt32
    }

    fn width() -> usize {
        4
    }

    fn is_same(self, other: u32) -> bool {
        self == other
    }

    fn put(values: &[u32], to: &mut [u8], order: Endianness) {
        match order {
            Endianness::Little => LittleEndian::write_u32_into(values, to),
            Endianness::Big => BigEndian::write_u32_into(values, to),
        }
    }

    fn append(out: &mut Vec<u32>, bytes: &[u8], order: Endianness) -> Result<(), AllocError> {
        match order {
            Endianness::Little => append_u32::<LittleEndian>(out, bytes),
            Endianness::Big => append_u32::<BigEndian>(out, bytes),
        }
    }
}

fn append_u32<B: ByteOrder>(out: &mut Vec<u32>, bytes: &[u8]) -> Result<(), AllocError>
    ensures items { OnOk result (out.new.items ≡ out.old.items ++ values_of (B.number_of 4) 4 bytes.now) }
    ensures len { OnOk result (vec_len out.new ≡ vec_len out.old + length bytes.now / 4) }
{
    let (chunks, _) = bytes.as_chunks::<4>();
    out.extend(chunks.iter().map(|chunk| B::read_u32(chunk)))
}

impl NativeType for u64 {
    ghost primitive = { UInt64 };

    ghost width = { 8 };

    ghost number = { λ x. whole (pos x) };

    ghost value = { unsigned_in 8 };

    ghost spelt = { unsigned_bytes 8 };

    ghost fits = { λ x. x < 2 ^ 64 };

    ghost width_is = { refl };

    ghost number_is = { λ order bytes. refl };

    ghost reads_first = { unsigned_in-first 8 };

    ghost spelt_length = { length-unsigned_bytes 8 };

    ghost reads_back = { unsigned_in-unsigned_bytes 8 };

    fn primitive_type() -> PrimitiveType {
        PrimitiveType::UInt64
    }

    fn width() -> usize {
        8
    }

    fn is_same(self, other: u64) -> bool {
        self == other
    }

    fn put(values: &[u64], to: &mut [u8], order: Endianness) {
        match order {
            Endianness::Little => LittleEndian::write_u64_into(values, to),
            Endianness::Big => BigEndian::write_u64_into(values, to),
        }
    }

    fn append(out: &mut Vec<u64>, bytes: &[u8], order: Endianness) -> Result<(), AllocError> {
        match order {
            Endianness::Little => append_u64::<LittleEndian>(out, bytes),
            Endianness::Big => append_u64::<BigEndian>(out, bytes),
        }
    }
}

fn append_u64<B: ByteOrder>(out: &mut Vec<u64>, bytes: &[u8]) -> Result<(), AllocError>
    ensures items { OnOk result (out.new.items ≡ out.old.items ++ values_of (B.number_of 8) 8 bytes.now) }
    ensures len { OnOk result (vec_len out.new ≡ vec_len out.old + length bytes.now / 8) }
{
    let (chunks, _) = bytes.as_chunks::<8>();
    out.extend(chunks.iter().map(|chunk| B::read_u64(chunk)))
}

/// Returns the numbers that `bytes` encode, in memory from `alloc`.
///
/// Bytes at the end that are fewer than one number are ignored. It fails only if an allocation
/// fails.
pub fn numbers_from_bytes<T: NativeType>(
    alloc: Global,
    bytes: &[u8],
    order: Endianness,
) -> Result<Vec<T>, AllocError>
    ensures items { IfOk result (λ v. v.items ≡ values_of (T.value order) T.width bytes.now) }
    ensures len { IfOk result (λ v. vec_len v ≡ length bytes.now / T.width) }
{
    let mut numbers = Vec::new(alloc);
    T::append(&mut numbers, bytes, order)?;
    Ok(numbers)
}

// Shows that each value of a slice is in the range of its type. The compiler removes the loop.
fn are_in_range<T: NativeType>(values: &[T])
    ensures { All T.fits values.now }
{
    for value in values {
        let _ = value.is_same(*value);
    }
}

/// Appends the bytes of `values` to `out`.
///
/// They read back as the same numbers. They are converted in blocks of at most 4,096 bytes. It
/// fails only if an allocation fails; the contents of `out` are unspecified then.
pub fn append_bytes<T: NativeType>(
    out: &mut Vec<u8>,
    values: &[T],
    order: Endianness,
) -> Result<(), AllocError>
    ensures items { OnOk result (out.new.items ≡ out.old.items ++ flat_map (T.spelt order) values.now) }
    ensures len { OnOk result (length (flat_map (T.spelt order) values.now) ≡ T.width * length values.now) }
    ensures read_back { OnOk result (values_of (T.value order) T.width (flat_map (T.spelt order) values.now) ≡ values.now) }
{
    are_in_range(values);
    let mut block = [0u8; 4096];
    let width = T::width();
    let most = 4096 / width;
    'pieces: for piece in values.chunks(most) {
        let bytes = &mut block[..width * piece.len()];
        T::put(piece, bytes, order);
        out.extend_from_slice(bytes)?;
    }
    Ok(())
}
