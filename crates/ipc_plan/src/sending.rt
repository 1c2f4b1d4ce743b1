//! Sends bytes and the pieces of a body to a device.
ghost use Rattle.std.specs.Prelude.{◌≡◌, ◌+◌, ◌*◌, ◌/◌, ◌%◌, ◌^◌, ◌<◌, ◌≤◌, length, map, min, replicate, pos, slice_index, slice_index_or};
ghost use Rattle.std.specs.Int.{w32, w64, byte_len, cast_unsigned};
ghost use Rattle.lower_types.specs.Numbers.{unsigned_bytes};
ghost use Rattle.std.specs.List.{flat_map, range_with_len};
ghost use Rattle.ipc_plan.specs.Sending.{Sends};
ghost use Rattle.ipc_model.specs.Entries.{bytes_for};
ghost use Rattle.ipc_plan.specs.Pieces.{less, packed, packed_byte, padded_bytes, piece_bytes, pieces_bytes};

use crate::pieces::{NumberSlice, Padded, Piece};
use ipc_devices::{Fault, Writes};
use lower::types::{Endianness, NativeType};

// As many zeros as a padding can need.
const ZEROS: [u8; 64] = [0; 64];

/// Sends all of `bytes`.
///
/// The only error is `Fault::Io`: the device failed, or it is memory that couldn't grow. Only the
/// first bytes may have been sent then.
pub fn send_bytes<W: Writes>(writer: &mut W, bytes: &[u8]) -> Result<(), Fault>
    ensures { Sends W.device bytes.now writer.old result writer.new }
{
    let mut at = 0;
    while at < bytes.len() {
        at += writer.write(&bytes[at..])?;
    }
    Ok(())
}

/// Returns `count` zero bytes, at most 64.
pub fn zeros(count: usize) -> &'static [u8]
    requires { count ≤ 64 }
    ensures { result.now ≡ replicate count 0 }
{
    &ZEROS[..count]
}

// Sends `count` zero bytes.
fn send_zeros<W: Writes>(writer: &mut W, count: usize) -> Result<(), Fault>
    ensures { Sends W.device (replicate count 0) writer.old result writer.new }
{
    let mut left = count;
    while left > 0 {
        let part = left.min(64);
        send_bytes(writer, zeros(part))?;
        left -= part;
    }
    Ok(())
}

// How many numbers are sent at once: as many as fit the block. Those of a long column that is
// written to memory are sent in smaller parts, so that one part is written while the next is read.
fn numbers_at_once<T: NativeType, W: Writes>(count: usize) -> usize
    ensures some { 0 < result }
    ensures fit { T.width * result ≤ 4096 }
{
    let bytes = if W::GROWS && count > 65_536 {
        1280
    } else {
        4096
    };
    bytes / T::width()
}

// Sends numbers through a block of 4,096 bytes.
fn send_numbers<T: NativeType, W: Writes>(
    writer: &mut W,
    values: &[T],
    order: Endianness,
    block: &mut [u8],
) -> Result<(), Fault>
    requires { length block.old ≡ 4096 }
    ensures sends { Sends W.device (flat_map (T.spelt order) values.now) writer.old result
        writer.new }
    ensures block { length block.new ≡ 4096 }
{
    let width = T::width();
    let most = numbers_at_once::<T, W>(values.len());
    'pieces: for piece in values.chunks(most) {
        let bytes = &mut block[..width * piece.len()];
        T::put(piece, bytes, order);
        send_bytes(writer, bytes)?;
    }
    Ok(())
}

// Writes each offset minus the first one into `to`.
fn lessen_small(offsets: &[i32], first: u32, to: &mut [u32])
    requires { length to.old ≡ length offsets.now }
    ensures { to.new ≡ map (less w32 (2 ^ 32) first) offsets.now }
{
    'each: for i in 0..offsets.len() {
        to[i] = offsets[i].cast_unsigned().wrapping_sub(first);
    }
}

// Sends offsets, each minus the first one, through a block of 4,096 bytes.
fn send_small_offsets<W: Writes>(
    writer: &mut W,
    offsets: &[i32],
    first: u32,
    order: Endianness,
    block: &mut [u8],
) -> Result<(), Fault>
    requires { length block.old ≡ 4096 }
    ensures sends { Sends W.device
        (flat_map (λ z. unsigned_bytes (byte_len w32) order (less w32 (2 ^ 32) first z))
        offsets.now) writer.old result writer.new }
    ensures block { length block.new ≡ 4096 }
{
    let mut lessened = [0u32; 1024];
    'pieces: for piece in offsets.chunks(1024) {
        let values = &mut lessened[..piece.len()];
        lessen_small(piece, first, values);
        let bytes = &mut block[..4 * piece.len()];
        u32::put(values, bytes, order);
        send_bytes(writer, bytes)?;
    }
    Ok(())
}

// Writes each offset minus the first one into `to`.
fn lessen_large(offsets: &[i64], first: u64, to: &mut [u64])
    requires { length to.old ≡ length offsets.now }
    ensures { to.new ≡ map (less w64 (2 ^ 64) first) offsets.now }
{
    'each: for i in 0..offsets.len() {
        to[i] = offsets[i].cast_unsigned().wrapping_sub(first);
    }
}

// Sends offsets, each minus the first one, through a block of 4,096 bytes.
fn send_large_offsets<W: Writes>(
    writer: &mut W,
    offsets: &[i64],
    first: u64,
    order: Endianness,
    block: &mut [u8],
) -> Result<(), Fault>
    requires { length block.old ≡ 4096 }
    ensures sends { Sends W.device
        (flat_map (λ z. unsigned_bytes (byte_len w64) order (less w64 (2 ^ 64) first z))
        offsets.now) writer.old result writer.new }
    ensures block { length block.new ≡ 4096 }
{
    let mut lessened = [0u64; 512];
    'pieces: for piece in offsets.chunks(512) {
        let values = &mut lessened[..piece.len()];
        lessen_large(piece, first, values);
        let bytes = &mut block[..8 * piece.len()];
        u64::put(values, bytes, order);
        send_bytes(writer, bytes)?;
    }
    Ok(())
}

// The eight bits of two neighbouring bytes from bit `shift`.
fn joined(low: u8, high: u8, shift: u32) -> u8
    requires { shift < 8 }
    ensures { result ≡ ((low + 256 * high) / 2 ^ shift) % 256 }
{
    let [byte, _] = (u16::from_le_bytes([low, high]) >> shift).to_le_bytes();
    byte
}

// The byte at an index, or 0 after the end.
fn byte_or_zero(bytes: &[u8], at: usize) -> u8
    ensures { result ≡ slice_index bytes.now at }
{
    bytes.get(at).copied().unwrap_or(0)
}

// The lowest `count` bits of a byte.
fn lowest(byte: u8, count: usize) -> u8
    ensures { result ≡ byte % 2 ^ min 8 count }
{
    if count >= 8 {
        byte
    } else {
        byte % (1 << count)
    }
}

// Shifts `count` bits, which start at bit `start` of the first byte, to bit 0, and writes their
// bytes from byte `at` into `to`.
fn pack(bytes: &[u8], start: u32, count: usize, at: usize, to: &mut [u8])
    requires start { start < 8 }
    requires room { at + length to.old ≤ bytes_for count }
    ensures { to.new ≡ map (packed_byte bytes.now start count) (range_with_len at (length to.old)) }
{
    // Here both bytes exist and all bits are needed, so that no step has a branch.
    let whole = (count / 8).min(bytes.len().saturating_sub(1));
    let inner = whole.saturating_sub(at).min(to.len());
    'inner: for k in 0..inner {
        to[k] = joined(bytes[at + k], bytes[at + k + 1], start);
    }
    'rest: for k in inner..to.len() {
        let byte = joined(
            byte_or_zero(bytes, at + k),
            byte_or_zero(bytes, at + k + 1),
            start,
        );
        to[k] = lowest(byte, count - 8 * (at + k));
    }
}

// Sends shifted bits through a block of 4,096 bytes.
fn send_bits<W: Writes>(
    writer: &mut W,
    bytes: &[u8],
    start: u32,
    count: usize,
    block: &mut [u8],
) -> Result<(), Fault>
    requires start { start < 8 }
    requires block { length block.old ≡ 4096 }
    ensures sends { Sends W.device (packed bytes.now start count) writer.old result writer.new }
    ensures block { length block.new ≡ 4096 }
{
    let whole = count.div_ceil(8);
    let mut done = 0;
    while done < whole {
        let n = (whole - done).min(4096);
        let to = &mut block[..n];
        pack(bytes, start, count, done, to);
        send_bytes(writer, to)?;
        done += n;
    }
    Ok(())
}

// The bits of the first offset, or 0 if there is none.
fn first_small(offsets: &[i32]) -> u32
    ensures { result ≡ cast_unsigned w32 (slice_index_or offsets.now 0 (pos 0)) }
{
    match offsets.first() {
        Some(first) => first.cast_unsigned(),
        None => 0,
    }
}

// The bits of the first offset, or 0 if there is none.
fn first_large(offsets: &[i64]) -> u64
    ensures { result ≡ cast_unsigned w64 (slice_index_or offsets.now 0 (pos 0)) }
{
    match offsets.first() {
        Some(first) => first.cast_unsigned(),
        None => 0,
    }
}

// Sends a piece through a block of 4,096 bytes.
fn send_piece<W: Writes>(
    writer: &mut W,
    piece: &Piece<'_>,
    order: Endianness,
    block: &mut [u8],
) -> Result<(), Fault>
    requires { length block.old ≡ 4096 }
    ensures sends { Sends W.device (piece_bytes order piece.now) writer.old result writer.new }
    ensures block { length block.new ≡ 4096 }
{
    match piece {
        Piece::Bytes(bytes) => send_bytes(writer, bytes),
        Piece::Numbers(NumberSlice::Int8(values)) => send_numbers(writer, values, order, block),
        Piece::Numbers(NumberSlice::Int16(values)) => send_numbers(writer, values, order, block),
        Piece::Numbers(NumberSlice::Int32(values)) => send_numbers(writer, values, order, block),
        Piece::Numbers(NumberSlice::Int64(values)) => send_numbers(writer, values, order, block),
        Piece::Numbers(NumberSlice::Int128(values)) => send_numbers(writer, values, order, block),
        Piece::Numbers(NumberSlice::Int256(values)) => send_numbers(writer, values, order, block),
        Piece::Numbers(NumberSlice::UInt8(values)) => send_numbers(writer, values, order, block),
        Piece::Numbers(NumberSlice::UInt16(values)) => send_numbers(writer, values, order, block),
        Piece::Numbers(NumberSlice::UInt32(values)) => send_numbers(writer, values, order, block),
        Piece::Numbers(NumberSlice::UInt64(values)) => send_numbers(writer, values, order, block),
        Piece::Numbers(NumberSlice::DaysMs(values)) => send_numbers(writer, values, order, block),
        Piece::Numbers(NumberSlice::MonthDayNano(values)) => {
            send_numbers(writer, values, order, block)
        }
        Piece::SmallOffsets(offsets) => {
            send_small_offsets(writer, offsets, first_small(offsets), order, block)
        }
        Piece::LargeOffsets(offsets) => {
            send_large_offsets(writer, offsets, first_large(offsets), order, block)
        }
        Piece::Bits(bytes, start, count) => {
            send_bits(writer, bytes, (*start % 8) as u32, *count, block)
        }
    }
}

// Sends a piece, and the zeros after it.
fn send_padded<W: Writes>(
    writer: &mut W,
    padded: &Padded<'_>,
    order: Endianness,
    block: &mut [u8],
) -> Result<(), Fault>
    requires { length block.old ≡ 4096 }
    ensures sends { Sends W.device (padded_bytes order padded.now) writer.old result writer.new }
    ensures block { length block.new ≡ 4096 }
{
    send_piece(writer, &padded.piece, order, block)?;
    send_zeros(writer, padded.zeros)
}

/// Sends pieces in order, each with its zeros, and numbers in this byte order.
///
/// Numbers, offsets and shifted bits go through a block of 4,096 bytes on the stack; bytes are sent
/// directly.
///
/// The only error is `Fault::Io`: the device failed, or it is memory that couldn't grow. Only the
/// first bytes of the pieces may have been sent then.
pub fn send_pieces<W: Writes>(
    writer: &mut W,
    pieces: &[Padded<'_>],
    order: Endianness,
) -> Result<(), Fault>
    ensures { Sends W.device (pieces_bytes order pieces.now) writer.old result writer.new }
{
    let mut block = [0u8; 4096];
    for piece in pieces {
        send_padded(writer, piece, order, &mut block)?;
    }
    Ok(())
}
