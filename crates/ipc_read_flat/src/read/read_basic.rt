//! Reads numbers, bits, bytes and offsets from the buffers of a batch.
ghost use Rattle.std.specs.Prelude.{◌≡◌, ◌+◌, ◌*◌, ◌-◌, ◌<◌, ◌≤◌, ◌^◌, ◌↔◌, length, take, drop, vec_len, IsTrue, IfOk, IfErr, IfSome, IsNone, MatchBool, min, ℕ, pos, List, [], ◌∷◌, refl};
ghost use Rattle.ipc_devices.specs.Acts.{LeavesDevice, ReadsDevice};
ghost use Rattle.ipc_devices.specs.Device.{after};
ghost use Rattle.ipc_devices.specs.Faults.{OnIo, OwnFault, Answers};
ghost use Rattle.ipc_devices.specs.Gives.{going};
ghost use Rattle.ipc_devices.specs.declared.fault.Fault.TheVariants.{Ended, OutOfSpec};
ghost use Rattle.ipc_devices.specs.declared.fault.OutOfSpecKind.TheVariants.{NegativeFooterLength};
ghost use Rattle.lower_types.specs.Numbers.{values_of, unsigned_in};
ghost use Rattle.ipc_model.specs.Entries.{IsSize, size, listed, bytes, Need, limited, rows, node, bytes_for};
ghost use Rattle.ipc_read_flat.specs.Bodies.{KeepsBytes, entries, HasRoom};
ghost use Rattle.ipc_read_flat.specs.Refusals.{IsBufferFault, IsBitsFault, IsColumnFault, TellsEntries, TellsShort};
ghost use Rattle.ipc_read_flat.specs.Steps.{Step};
ghost use Rattle.lower_flat_arrays.specs.Validities.{ValidityFits};
ghost use Rattle.ipc_model.specs.Columns.{Begins, is_omitted, Offsets};
ghost use Rattle.ipc_model.specs.ReadArrays.{bits_of, validity_of, offset_type, offsets_of};
ghost use Rattle.lower_types.specs.declared.Endianness.{Endianness};
ghost use Rattle.ipc_model.specs.Kinds.{OffsetWidth, offsets_32, offsets_64, offset_width};
ghost use Rattle.ipc_read_flat.specs.OffsetForms.{signed_of};
ghost use Rattle.lower_arrays.specs.Held.{bytes_of_bits, validity_held};
ghost use Rattle.ipc_read_flat.specs.HeldListed.{HoldsOffsets};

use crate::read::body::{Body, Place};
use ipc_devices::fault::{Fault, OutOfSpecKind};
use ipc_devices::{Failures, Reads, Seeks, fill, read_bytes};
use lower::bitmap::Bitmap;
use lower::buffer::Buffer;
use lower::offset::{Offset, OffsetsBuffer};
use lower::types::{Endianness, NativeType, PrimitiveType};
use std::alloc::Global;

/// The most bytes that numbers are read by at once, and that scratch memory is lengthened to.
pub const BLOCK: usize = 65_536;

// The bytes that numbers are read by at once without scratch memory.
const SMALL_BLOCK: usize = 4096;

/// A length or an offset as a `usize`; `NegativeFooterLength` if it is negative.
#[inline(always)]
pub fn natural(number: i64) -> Result<usize, Fault>
    ensures exact { Answers result (IsSize number) (λ n. (n ≡ size number) × (n < 2 ^ 63)) }
    ensures only { IfErr result (λ e. e ≡ OutOfSpec NegativeFooterLength) }
    ensures own { OnIo result ⊥ }
{
    if number < 0 {
        return Err(Fault::OutOfSpec(OutOfSpecKind::NegativeFooterLength));
    }
    Ok(number as usize)
}

// The length of an entry; a negative one counts as 0.
#[inline(always)]
fn size_of(number: i64) -> usize
    ensures size { result ≡ size number }
    ensures small { result < 2 ^ 63 }
{
    number.max(0) as usize
}

/// Reads the next `count` numbers, whose bytes have the order `order`.
///
/// If the device can lend the bytes, they are converted directly, else through a block. Then the
/// vector grows as they come, as the device may not have all that is stated.
///
/// - `scratch`: the block, if the numbers have more than 4,096 bytes. It's lengthened to these, but
///   to at most 65,536 bytes. If that memory is refused, 4,096 bytes on the stack serve.
///
/// The errors are `Ended` if there are fewer numbers, `Io` and `Memory`.
#[inline(always)]
pub fn read_numbers<T: NativeType, R: Reads>(
    alloc: Global,
    reader: &mut R,
    count: usize,
    order: Endianness,
    scratch: &mut Vec<u8>,
) -> Result<Vec<T>, Fault>
    ensures count { IfOk result (λ v. vec_len v ≡ count) }
    ensures only { IfErr result (λ e. OwnFault e (e ≡ Ended)) }
    ensures device { ReadsDevice R.device reader.old result reader.new }
    ensures given { R.device.given reader.new ≤ R.device.given reader.old + T.width * count }
    ensures memory { IsTrue R.device.is_memory → Answers result
        (T.width * count ≤ length (after (R.device.memory reader.old)))
        (λ v. v.items
        ≡ values_of (T.value order) T.width
        (take (T.width * count) (after (R.device.memory reader.old)))) }
{
    match take_shown(alloc, reader, count, order)? {
        Some(numbers) => Ok(numbers),
        None => read_by_block(alloc, reader, count, order, scratch),
    }
}

// The next `count` numbers, if the device can lend their bytes. None if it can't; nothing is read
// then.
#[inline(always)]
fn take_shown<T: NativeType, R: Reads>(
    alloc: Global,
    reader: &mut R,
    count: usize,
    order: Endianness,
) -> Result<Option<Vec<T>>, Fault>
    ensures count { IfOk result (λ r. IfSome r (λ v. vec_len v ≡ count)) }
    ensures only { IfErr result (λ e. OwnFault e ⊥) }
    ensures device { ReadsDevice R.device reader.old result reader.new }
    ensures given { R.device.given reader.new ≤ R.device.given reader.old + T.width * count }
    ensures none { IfOk result (λ r. IsNone r → R.gives reader.old [] going reader.new) }
    ensures idle { IfOk result
        (λ r. IsNone r → R.device.given reader.new ≤ R.device.given reader.old) }
    ensures memory { IsTrue R.device.is_memory → IfOk result (λ r. IfSome r (λ v.
        (T.width * count ≤ length (after (R.device.memory reader.old)))
        × (v.items
        ≡ values_of (T.value order) T.width
        (take (T.width * count) (after (R.device.memory reader.old)))))) }
{
    let Some(length) = count.checked_mul(T::width()) else {
        return Ok(None);
    };
    let mut numbers = Vec::new(alloc);
    // `given` is called for the proof alone: it states how many bytes `pass` read.
    let Some(bytes) = reader.pass(length) else {
        let _given = reader.given();
        return Ok(None);
    };
    let appended = T::append(&mut numbers, bytes, order);
    let _given = reader.given();
    appended?;
    Ok(Some(numbers))
}

// The next `count` numbers, through scratch memory, or through a small block if they are few.
//
// Without memory for a longer block the small one serves, so no read fails for want of it.
#[inline(never)]
fn read_by_block<T: NativeType, R: Reads>(
    alloc: Global,
    reader: &mut R,
    count: usize,
    order: Endianness,
    scratch: &mut Vec<u8>,
) -> Result<Vec<T>, Fault>
    ensures count { IfOk result (λ v. vec_len v ≡ count) }
    ensures only { IfErr result (λ e. OwnFault e (e ≡ Ended)) }
    ensures device { ReadsDevice R.device reader.old result reader.new }
    ensures given { R.device.given reader.new ≤ R.device.given reader.old + T.width * count }
    ensures memory { IsTrue R.device.is_memory → Answers result
        (T.width * count ≤ length (after (R.device.memory reader.old)))
        (λ v. v.items
        ≡ values_of (T.value order) T.width
        (take (T.width * count) (after (R.device.memory reader.old)))) }
{
    let needed = count.saturating_mul(T::width()).min(BLOCK);
    if needed <= SMALL_BLOCK || !lengthen(scratch, needed) {
        let mut block = [0u8; SMALL_BLOCK];
        return read_pieces(alloc, reader, count, order, &mut block);
    }
    read_pieces(alloc, reader, count, order, &mut scratch[..needed])
}

// Lengthens a block to `needed` bytes, if it is shorter. False if that memory is refused; the block
// is unchanged then.
fn lengthen(block: &mut Vec<u8>, needed: usize) -> bool
    ensures { IsTrue result → needed ≤ length block.new.items }
{
    block.len() >= needed || block.resize(needed, 0).is_ok()
}

// The next `count` numbers, as many at once as the block has room for. Its old bytes don't matter.
#[tactic(auto, using(crate::proofs::Pieces::reading))]
fn read_pieces<T: NativeType, R: Reads>(
    alloc: Global,
    reader: &mut R,
    count: usize,
    order: Endianness,
    block: &mut [u8],
) -> Result<Vec<T>, Fault>
    requires room { 32 ≤ length block.old }
    ensures answer { IfOk result (λ v. vec_len v ≡ count)
        × IfErr result (λ e. OwnFault e (e ≡ Ended)) }
    ensures device { ReadsDevice R.device reader.old result reader.new }
    ensures given { R.device.given reader.new ≤ R.device.given reader.old + T.width * count }
    ensures memory { IsTrue R.device.is_memory → Answers result
        (T.width * count ≤ length (after (R.device.memory reader.old)))
        (λ v. v.items
        ≡ values_of (T.value order) T.width
        (take (T.width * count) (after (R.device.memory reader.old)))) }
{
    let mut numbers = Vec::new(alloc);
    let width = T::width();
    let most = block.len() / width;
    'pieces: while numbers.len() < count {
        let wanted = (count - numbers.len()).min(most);
        let piece = &mut block[..width * wanted];
        if fill(reader, piece)? < piece.len() {
            return Err(Fault::Ended);
        }
        T::append(&mut numbers, piece, order)?;
    }
    Ok(numbers)
}

// A copy of the next `count` bytes, if the device can lend them. None if it can't; nothing is read
// then.
fn take_shown_bytes<R: Reads>(
    alloc: Global,
    reader: &mut R,
    count: usize,
) -> Result<Option<Vec<u8>>, Fault>
    ensures count { IfOk result (λ r. IfSome r (λ v. length v.items ≡ count)) }
    ensures only { IfErr result (λ e. OwnFault e ⊥) }
    ensures device { ReadsDevice R.device reader.old result reader.new }
    ensures given { R.device.given reader.new ≤ R.device.given reader.old + count }
    ensures none { IfOk result (λ r. IsNone r → R.gives reader.old [] going reader.new) }
    ensures idle { IfOk result
        (λ r. IsNone r → R.device.given reader.new ≤ R.device.given reader.old) }
    ensures memory { IsTrue R.device.is_memory → IfOk result (λ r. IfSome r (λ v.
        (count ≤ length (after (R.device.memory reader.old)))
        × (v.items ≡ take count (after (R.device.memory reader.old))))) }
{
    // `given` is called for the proof alone: it states how many bytes `pass` read.
    let Some(bytes) = reader.pass(count) else {
        let _given = reader.given();
        return Ok(None);
    };
    let copied = Vec::from_slice(alloc, bytes);
    let _given = reader.given();
    Ok(Some(copied?))
}

// The next `count` bytes: one copy if the device can lend them, else in pieces.
fn read_next_bytes<R: Reads>(alloc: Global, reader: &mut R, count: usize) -> Result<Vec<u8>, Fault>
    requires small { count < 2 ^ 63 }
    ensures count { IfOk result (λ v. length v.items ≡ count) }
    ensures only { IfErr result (λ e. OwnFault e (e ≡ Ended)) }
    ensures device { ReadsDevice R.device reader.old result reader.new }
    ensures given { R.device.given reader.new ≤ R.device.given reader.old + count }
    ensures memory { IsTrue R.device.is_memory → Answers result
        (count ≤ length (after (R.device.memory reader.old)))
        (λ v. v.items ≡ take count (after (R.device.memory reader.old))) }
{
    match take_shown_bytes(alloc, reader, count)? {
        Some(bytes) => Ok(bytes),
        None => read_bytes(alloc, reader, count),
    }
}

// The next `count` bytes in memory that the device shares. None if it doesn't; nothing is read
// then.
fn take_shared<R: Reads>(reader: &mut R, count: usize) -> Option<Buffer<u8>>
    ensures count { IfSome result (λ b. length b ≡ count) }
    ensures device { LeavesDevice R.device reader.old reader.new }
    ensures given { R.device.given reader.new ≤ R.device.given reader.old + count }
    ensures none { IsNone result → reader.new ≡ reader.old }
    ensures memory { IsTrue R.device.is_memory → IfSome result (λ b.
        (count ≤ length (after (R.device.memory reader.old)))
        × (b ≡ take count (after (R.device.memory reader.old)))) }
{
    let shared = reader.share(count);
    // `given` is called for the proof alone: it states how many bytes `share` read.
    let _given = reader.given();
    shared
}

// The next `count` bytes: shared if the device shares them, else a copy.
fn read_next_buffer<R: Reads>(
    alloc: Global,
    reader: &mut R,
    count: usize,
) -> Result<Buffer<u8>, Fault>
    requires small { count < 2 ^ 63 }
    ensures count { IfOk result (λ b. length b ≡ count) }
    ensures only { IfErr result (λ e. OwnFault e (e ≡ Ended)) }
    ensures device { ReadsDevice R.device reader.old result reader.new
        × (R.device.given reader.new ≤ R.device.given reader.old + count) }
    ensures memory { IsTrue R.device.is_memory → Answers result
        (count ≤ length (after (R.device.memory reader.old)))
        (λ b. b ≡ take count (after (R.device.memory reader.old))) }
{
    if let Some(shared) = take_shared(reader, count) {
        return Ok(shared);
    }
    let bytes = read_next_bytes(alloc, reader, count)?;
    Ok(Buffer::new(bytes)?)
}

// Reads `count` numbers, at least one, at `offset` bytes after `base`.
#[inline(always)]
fn read_numbers_at<T: NativeType, R: Reads + Seeks>(
    alloc: Global,
    reader: &mut R,
    base: u64,
    offset: usize,
    count: usize,
    order: Endianness,
    scratch: &mut Vec<u8>,
) -> Result<Vec<T>, Fault>
    requires { 0 < count }
    ensures count { IfOk result (λ v. vec_len v ≡ count) }
    ensures only { IfErr result (λ e. OwnFault e (e ≡ Ended)) }
    ensures device { ReadsDevice R.device reader.old result reader.new }
    ensures given { R.device.given reader.new ≤ R.device.given reader.old + T.width * count }
    ensures memory { IsTrue R.device.is_memory → Answers result
        (T.width * count ≤ length (drop (base + offset) (R.device.memory reader.old).whole))
        (λ v. v.items
        ≡ values_of (T.value order) T.width
        (take (T.width * count) (drop (base + offset) (R.device.memory reader.old).whole))) }
{
    let Some(place) = base.checked_add(offset as u64) else {
        // for the proof: the end of the device, a `u64`, is before this offset
        reader.seek_end()?;
        return Err(Fault::Ended);
    };
    reader.seek_to(place)?;
    read_numbers(alloc, reader, count, order, scratch)
}

// Reads `count` bytes, at least one, at `offset` bytes after `base`.
fn read_bytes_at<R: Reads + Seeks>(
    alloc: Global,
    reader: &mut R,
    base: u64,
    offset: usize,
    count: usize,
) -> Result<Buffer<u8>, Fault>
    requires some { 0 < count }
    requires small { count < 2 ^ 63 }
    ensures count { IfOk result (λ b. length b ≡ count) }
    ensures only { IfErr result (λ e. OwnFault e (e ≡ Ended)) }
    ensures device { ReadsDevice R.device reader.old result reader.new }
    ensures given { R.device.given reader.new ≤ R.device.given reader.old + count }
    ensures memory { IsTrue R.device.is_memory → Answers result
        (count ≤ length (drop (base + offset) (R.device.memory reader.old).whole))
        (λ b. b ≡ take count (drop (base + offset) (R.device.memory reader.old).whole)) }
{
    let Some(place) = base.checked_add(offset as u64) else {
        // for the proof: the end of the device, a `u64`, is before this offset
        reader.seek_end()?;
        return Err(Fault::Ended);
    };
    reader.seek_to(place)?;
    read_next_buffer(alloc, reader, count)
}

// Whether `count` values of `width` bytes fit into `listed` bytes.
#[inline(always)]
fn fit(count: usize, width: usize, listed: usize) -> bool
    requires { 0 < width }
    ensures { IsTrue result ↔ width * count ≤ listed }
{
    count <= listed / width
}

// The name of a number type in errors.
fn type_name(primitive: PrimitiveType) -> &'static str {
    match primitive {
        PrimitiveType::Int8 => "i8",
        PrimitiveType::Int16 => "i16",
        PrimitiveType::Int32 => "i32",
        PrimitiveType::Int64 => "i64",
        PrimitiveType::Int128 => "i128",
        PrimitiveType::Int256 => "i256",
        PrimitiveType::UInt8 => "u8",
        PrimitiveType::UInt16 => "u16",
        PrimitiveType::UInt32 => "u32",
        PrimitiveType::UInt64 => "u64",
        PrimitiveType::Float16 => "f16",
        PrimitiveType::Float32 => "f32",
        PrimitiveType::Float64 => "f64",
        PrimitiveType::DaysMs => "days_ms",
        PrimitiveType::MonthDayNano => "months_days_ns",
    }
}

// The error that `listed` bytes are too few for `count` values of `width` bytes.
fn too_short(count: usize, type_name: &'static str, width: usize, listed: usize) -> Fault
    ensures buffer { IsBufferFault result }
    ensures told { TellsShort count (min (count * width) (2 ^ 64 - 1)) listed result }
{
    Fault::OutOfSpec(OutOfSpecKind::InvalidBuffer {
        length: count,
        type_name,
        required_number_of_bytes: count.saturating_mul(width),
        buffer_length: listed,
    })
}

/// Reads the first `count` numbers of the buffer at `index`.
///
/// # Errors
/// - `NegativeFooterLength`: the buffer's offset is negative, also if `count` is 0.
/// - `InvalidBuffer`: the buffer is too short.
/// - `Ended`: the device is too short.
/// - `Io`, `Memory`.
#[tactic(auto, using(crate::proofs::Refusals::ended_buffer, crate::proofs::Refusals::negative_buffer), unfolding(crate::specs::Bodies::entries))]
#[inline(always)]
pub fn fetch_numbers<T: NativeType, R: Reads + Seeks>(
    alloc: Global,
    reader: &mut R,
    body: &Body<R>,
    index: usize,
    count: usize,
    scratch: &mut Vec<u8>,
) -> Result<Vec<T>, Fault>
    requires inside { index < length body.now.buffers }
    requires stands { KeepsBytes R.device reader.old body.now }
    ensures only { IfErr result (λ e. OwnFault e (IsBufferFault e)) }
    ensures tells { IfErr result
        (λ e. OwnFault e (TellsEntries R.device.is_memory (entries R.device body.now) e)) }
    ensures step { Step R.device
        body.now (listed (entries R.device body.now) index) reader.old result reader.new }
    ensures needed { R.device.given reader.new ≤ R.device.given reader.old + T.width * count }
    ensures count { IfOk result (λ v. vec_len v ≡ count) }
    ensures held { IfOk result
        (λ v. T.width * vec_len v ≤ listed (entries R.device body.now) index) }
    ensures memory { IsTrue R.device.is_memory → let s = entries R.device body.now in
        Answers result (Need s index (T.width * count))
        (λ v. v.items ≡ values_of (T.value body.now.order) T.width
        (take (T.width * count) (bytes s index))) }
{
    let entry = body.buffers.get(index);
    let offset = natural(entry.offset)?;
    if count == 0 {
        return Ok(Vec::new(alloc));
    }
    let width = T::width();
    let listed = size_of(entry.length);
    if !fit(count, width, listed) {
        return Err(too_short(count, type_name(T::primitive_type()), width, listed));
    }
    read_numbers_at(alloc, reader, body.base, offset, count, body.order, scratch)
}

/// Reads the first `count` bytes of the buffer at `index`.
///
/// They are in the device's memory if it shares that. The errors are those of [`fetch_numbers`].
#[tactic(auto, using(crate::proofs::Refusals::ended_buffer, crate::proofs::Refusals::negative_buffer), unfolding(crate::specs::Bodies::entries))]
pub fn fetch_bytes<R: Reads + Seeks>(
    alloc: Global,
    reader: &mut R,
    body: &Body<R>,
    index: usize,
    count: usize,
) -> Result<Buffer<u8>, Fault>
    requires inside { index < length body.now.buffers }
    requires stands { KeepsBytes R.device reader.old body.now }
    ensures only { IfErr result (λ e. OwnFault e (IsBufferFault e)) }
    ensures tells { IfErr result
        (λ e. OwnFault e (TellsEntries R.device.is_memory (entries R.device body.now) e)) }
    ensures step { Step R.device
        body.now (listed (entries R.device body.now) index) reader.old result reader.new }
    ensures needed { R.device.given reader.new ≤ R.device.given reader.old + count }
    ensures count { IfOk result (λ b. length b ≡ count) }
    ensures held { IfOk result (λ b. length b ≤ listed (entries R.device body.now) index) }
    ensures memory { IsTrue R.device.is_memory → let s = entries R.device body.now in
        Answers result (Need s index count) (λ b. b ≡ take count (bytes s index)) }
{
    let entry = body.buffers.get(index);
    let offset = natural(entry.offset)?;
    if count == 0 {
        return Ok(Buffer::new(Vec::new(alloc))?);
    }
    let listed = size_of(entry.length);
    if count > listed {
        return Err(too_short(count, "u8", 1, listed));
    }
    read_bytes_at(alloc, reader, body.base, offset, count)
}

/// Reads the first `count` pieces of `width` bytes each of the buffer at `index`.
///
/// As [`fetch_bytes`], also in its errors.
#[tactic(auto, using(crate::proofs::Refusals::ended_buffer, crate::proofs::Refusals::negative_buffer), unfolding(crate::specs::Bodies::entries))]
pub fn fetch_pieces<R: Reads + Seeks>(
    alloc: Global,
    reader: &mut R,
    body: &Body<R>,
    index: usize,
    width: usize,
    count: usize,
) -> Result<Buffer<u8>, Fault>
    requires some { 0 < width }
    requires inside { index < length body.now.buffers }
    requires stands { KeepsBytes R.device reader.old body.now }
    ensures only { IfErr result (λ e. OwnFault e (IsBufferFault e)) }
    ensures tells { IfErr result
        (λ e. OwnFault e (TellsEntries R.device.is_memory (entries R.device body.now) e)) }
    ensures step { Step R.device
        body.now (listed (entries R.device body.now) index) reader.old result reader.new }
    ensures needed { R.device.given reader.new ≤ R.device.given reader.old + width * count }
    ensures count { IfOk result (λ b. length b ≡ width * count) }
    ensures held { IfOk result (λ b. length b ≤ listed (entries R.device body.now) index) }
    ensures memory { IsTrue R.device.is_memory → let s = entries R.device body.now in
        Answers result (Need s index (width * count))
        (λ b. b ≡ take (width * count) (bytes s index)) }
{
    let entry = body.buffers.get(index);
    let offset = natural(entry.offset)?;
    if count == 0 {
        return Ok(Buffer::new(Vec::new(alloc))?);
    }
    let listed = size_of(entry.length);
    if !fit(count, width, listed) {
        return Err(too_short(count, "[u8]", width, listed));
    }
    read_bytes_at(alloc, reader, body.base, offset, width * count)
}

/// The node of a column: its rows, and whether some may be null.
///
/// See "RecordBatch message" in the Arrow columnar format.
#[derive(Clone, Copy, Debug, PartialEq, Eq)]
pub struct Node {
    /// How many rows are read.
    pub rows: usize,
    /// Whether the null count is above 0.
    pub has_nulls: bool,
}

/// The node and the validity of a column.
#[derive(Drop)]
pub struct Head {
    /// How many rows are read.
    pub rows: usize,
    /// Which rows aren't null; None if the null count isn't above 0.
    pub validity: Option<Bitmap>,
}

// Whether a null count is above 0.
#[inline(always)]
fn has_nulls(null_count: i64) -> bool
    ensures { MatchBool result (0 < size null_count) (size null_count ≡ 0) }
{
    null_count > 0
}

// How many rows are read of a column of `count` rows.
#[inline(always)]
fn limit_rows(limit: Option<usize>, count: usize) -> usize
    ensures rows { result ≡ limited limit count }
    ensures bound { result ≤ count }
{
    match limit {
        None => count,
        Some(most) => most.min(count),
    }
}

/// Reads the node at `index`, of which at most `limit` rows are read.
///
/// A negative null count is as 0. The error is `NegativeFooterLength` if the length is negative.
#[tactic(auto, using(crate::proofs::Refusals::negative_buffer, crate::proofs::Heads::nodes))]
#[inline(always)]
pub fn read_node<R: Failures>(
    body: &Body<R>,
    index: usize,
    limit: Option<usize>,
) -> Result<Node, Fault>
    requires inside { index < length body.now.nodes }
    ensures only { IfErr result (λ e. OwnFault e (IsBufferFault e)) }
    ensures tells { IfErr result
        (λ e. OwnFault e (TellsEntries R.device.is_memory (entries R.device body.now) e)) }
    ensures negative { IfErr result (λ e. e ≡ OutOfSpec NegativeFooterLength) }
    ensures own { OnIo result ⊥ }
    ensures small { IfOk result (λ n. n.rows < 2 ^ 63) }
    ensures exact { let s = entries R.device body.now in
        Answers result (IsSize (node s index).length)
        (λ n. (n.rows ≡ rows s index limit) × MatchBool n.has_nulls
        (0 < size (node s index).null_count) (size (node s index).null_count ≡ 0)) }
{
    let node = body.nodes.get(index);
    let count = natural(node.length)?;
    Ok(Node {
        rows: limit_rows(limit, count),
        has_nulls: has_nulls(node.null_count),
    })
}

// Checks that the stated length of a buffer is enough for `count` bits.
#[tactic(auto, using(crate::proofs::Refusals::negative_buffer), unfolding(crate::specs::Bodies::entries))]
fn check_bits<R: Failures>(body: &Body<R>, index: usize, count: usize) -> Result<(), Fault>
    requires inside { index < length body.now.buffers }
    requires small { count < 2 ^ 63 }
    ensures own { OnIo result ⊥ }
    ensures only { IfErr result (λ e. OwnFault e (IsBufferFault e)) }
    ensures tells { IfErr result
        (λ e. OwnFault e (TellsEntries R.device.is_memory (entries R.device body.now) e)) }
    ensures named { IfErr result IsBitsFault }
    ensures refused { IfErr result (λ e. OwnFault e
        (Need (entries R.device body.now) index (bytes_for count) → ⊥)) }
{
    let entry = body.buffers.get(index);
    natural(entry.offset)?;
    let listed = size_of(entry.length);
    if count.div_ceil(8) > listed {
        return Err(Fault::OutOfSpec(OutOfSpecKind::InvalidBitmap {
            length: count,
            number_of_bits: listed * 8,
        }));
    }
    Ok(())
}

/// Reads the first `count` bits of the buffer at `index`.
///
/// The lowest bit of each byte is the first. See "Validity bitmaps" in the Arrow columnar format.
///
/// # Errors
/// - `NegativeFooterLength`: the buffer's offset is negative.
/// - `InvalidBitmap`: the buffer is too short.
/// - `Ended`: the device is too short.
/// - `Io`, `Memory`.
#[tactic(auto, using(crate::proofs::Heads::bit_lists))]
pub fn read_bits<R: Reads + Seeks>(
    alloc: Global,
    reader: &mut R,
    body: &Body<R>,
    index: usize,
    count: usize,
) -> Result<Bitmap, Fault>
    requires inside { index < length body.now.buffers }
    requires small { count < 2 ^ 63 }
    requires stands { KeepsBytes R.device reader.old body.now }
    ensures only { IfErr result (λ e. OwnFault e (IsBufferFault e)) }
    ensures tells { IfErr result
        (λ e. OwnFault e (TellsEntries R.device.is_memory (entries R.device body.now) e)) }
    ensures step { Step R.device
        body.now (listed (entries R.device body.now) index) reader.old result reader.new }
    ensures count { IfOk result (λ bits. length bits ≡ count) }
    ensures held { IfOk result
        (λ bits. bytes_of_bits (length bits) ≤ listed (entries R.device body.now) index) }
    ensures memory { IsTrue R.device.is_memory → let s = entries R.device body.now in
        Answers result (Need s index (bytes_for count)) (λ bits. bits ≡ bits_of s index count) }
{
    check_bits(body, index, count)?;
    let bits = fetch_bytes(alloc, reader, body, index, count.div_ceil(8))?;
    Ok(Bitmap::try_new(bits, count)?)
}

/// Reads the node and the validity of a column.
///
/// The validity is only read if the null count is above 0. See "Validity bitmaps" in the Arrow
/// columnar format. The errors are `NegativeFooterLength` if the length is negative, and, for a
/// validity that is read, those of [`read_bits`].
#[tactic(auto, using(crate::proofs::Heads::heads))]
#[inline(always)]
pub fn read_head<R: Reads + Seeks>(
    alloc: Global,
    reader: &mut R,
    body: &Body<R>,
    place: Place,
    limit: Option<usize>,
) -> Result<Head, Fault>
    requires room { HasRoom body.now place 1 1 }
    requires stands { KeepsBytes R.device reader.old body.now }
    ensures only { IfErr result (λ e. OwnFault e (IsBufferFault e)) }
    ensures tells { IfErr result
        (λ e. OwnFault e (TellsEntries R.device.is_memory (entries R.device body.now) e)) }
    ensures step { Step R.device
        body.now (listed (entries R.device body.now) place.buffer) reader.old result reader.new }
    ensures untouched { size (node (entries R.device body.now) place.node).null_count ≡ 0
        → reader.new ≡ reader.old }
    ensures small { IfOk result (λ h. h.rows < 2 ^ 63) }
    ensures fits { IfOk result (λ h. ValidityFits h.validity h.rows) }
    ensures held { IfOk result (λ h. validity_held h.validity
        ≤ listed (entries R.device body.now) place.buffer) }
    ensures memory { IsTrue R.device.is_memory → let s = entries R.device body.now in
        Answers result (Begins s place.node place.buffer (rows s place.node limit))
        (λ h. (h.rows ≡ rows s place.node limit) ×
        (h.validity ≡ validity_of s place.node place.buffer (rows s place.node limit))) }
{
    let node = read_node(body, place.node, limit)?;
    if !node.has_nulls {
        return Ok(Head {
            rows: node.rows,
            validity: None,
        });
    }
    let bits = read_bits(alloc, reader, body, place.buffer, node.rows)?;
    Ok(Head {
        rows: node.rows,
        validity: Some(bits),
    })
}

/// Offsets as they are in a buffer: signed numbers of 32 or 64 bits.
///
/// See "Variable-size Binary Layout" in the Arrow columnar format.
pub trait StoredOffset: Offset {
    // 32 or 64 bits.
    ghost form: { OffsetWidth };

    /// The offset 0.
    fn zero() -> Self
        ensures { Self.integer result ≡ pos 0 };

    ghost form_is: { Self.primitive ≡ offset_type form };

    ghost form_width: { Self.width ≡ offset_width form };

    ghost reads: { (order : Endianness) (bytes : List ℕ) → Self.integer (Self.value order bytes) ≡ signed_of form (unsigned_in (offset_width form) order bytes) };
}

impl StoredOffset for i32 {
    ghost form = { offsets_32 };

    ghost form_is = { refl };

    ghost form_width = { refl };

    ghost reads = { λ order bytes. refl };

    fn zero() -> i32 {
        0
    }
}

impl StoredOffset for i64 {
    ghost form = { offsets_64 };

    ghost form_is = { refl };

    ghost form_width = { refl };

    ghost reads = { λ order bytes. refl };

    fn zero() -> i64 {
        0
    }
}

// Whether a buffer without bytes counts as the single offset 0.
#[tactic(auto, unfolding(crate::specs::Bodies::entries))]
fn is_omitted<R: Failures>(body: &Body<R>, index: usize, count: usize) -> bool
    requires inside { index < length body.now.buffers }
    ensures { result ≡ is_omitted (entries R.device body.now) index count }
{
    count == 0 && body.buffers.get(index).length <= 0
}

// The single offset 0.
#[tactic(auto, using(crate::proofs::OffsetLists::zeros))]
fn only_zero<O: StoredOffset>(alloc: Global) -> Result<OffsetsBuffer<O>, Fault>
    ensures own { OnIo result ⊥ }
    ensures only { IfErr result (λ e. OwnFault e ⊥) }
    ensures zero { IfOk result (λ o. o ≡ 0 ∷ []) }
{
    let mut zero = Vec::new(alloc);
    zero.push(O::zero())?;
    let zero = Buffer::new(zero)?;
    Ok(OffsetsBuffer::try_new(zero)?)
}

// Refuses a buffer with a negative offset, also if no byte of it is needed.
#[tactic(auto, using(crate::proofs::Refusals::negative_column), unfolding(crate::specs::Bodies::entries))]
fn check_offset<R: Failures>(body: &Body<R>, index: usize) -> Result<(), Fault>
    requires inside { index < length body.now.buffers }
    ensures own { OnIo result ⊥ }
    ensures only { IfErr result (λ e. OwnFault e (IsColumnFault e)) }
    ensures tells { IfErr result
        (λ e. OwnFault e (TellsEntries R.device.is_memory (entries R.device body.now) e)) }
    ensures negative { IfErr result (λ e. e ≡ OutOfSpec NegativeFooterLength) }
    ensures exact { Answers result (Need (entries R.device body.now) index 0) (λ _. Unit {0}) }
{
    natural(body.buffers.get(index).offset)?;
    Ok(())
}

/// Reads the `count + 1` offsets of `count` slots from the buffer at `index`.
///
/// If `count` is 0 and the buffer has no bytes, the result is the single offset 0. See
/// "Variable-size Binary Layout" in the Arrow columnar format.
///
/// # Errors
/// - `NegativeFooterLength`: the buffer's offset is negative.
/// - `InvalidBuffer`: the buffer is too short.
/// - `Ended`: the device is too short.
/// - `FallingOffset`: an offset is negative, or less than the one before it.
/// - `Io`, `Memory`.
#[tactic(auto, using(crate::proofs::Refusals::buffer_column))]
pub fn read_offsets<O: StoredOffset, R: Reads + Seeks>(
    alloc: Global,
    reader: &mut R,
    body: &Body<R>,
    index: usize,
    count: usize,
    scratch: &mut Vec<u8>,
) -> Result<OffsetsBuffer<O>, Fault>
    requires inside { index < length body.now.buffers }
    requires small { count < 2 ^ 63 }
    requires stands { KeepsBytes R.device reader.old body.now }
    ensures only { IfErr result (λ e. OwnFault e (IsColumnFault e)) }
    ensures tells { IfErr result
        (λ e. OwnFault e (TellsEntries R.device.is_memory (entries R.device body.now) e)) }
    ensures step { Step R.device
        body.now (listed (entries R.device body.now) index) reader.old result reader.new }
    ensures count { IfOk result (λ o. length o ≡ count + 1) }
    ensures held { IfOk result
        (λ o. HoldsOffsets (entries R.device body.now) O.form index O.primitive o) }
    ensures memory { IsTrue R.device.is_memory → let s = entries R.device body.now in
        Answers result (Offsets s index (offset_width O.form) count)
        (λ o. o ≡ offsets_of s index (offset_width O.form) count) }
{
    if is_omitted(body, index, count) {
        check_offset(body, index)?;
        return only_zero(alloc);
    }
    let numbers = fetch_numbers(alloc, reader, body, index, count + 1, scratch)?;
    let offsets = Buffer::new(numbers)?;
    Ok(OffsetsBuffer::try_new(offsets)?)
}
