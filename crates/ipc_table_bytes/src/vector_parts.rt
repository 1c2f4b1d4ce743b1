//! Encodes texts and vectors.
ghost use Rattle.std.specs.Prelude.{ℕ, ◌≡◌, ◌<◌, ◌%◌, ◌^◌, List, ◌++◌, ◌+◌, ◌*◌, IfOk, OnOk, length};
ghost use Rattle.ipc_table_bytes.specs.Pads.{short};
ghost use Rattle.ipc_table_bytes.specs.Parts.{AreParts, IsPart, elements_header, gap_after, joined_parts, offsets, text_bytes, vector_bytes};
ghost use Rattle.ipc_table_bytes.specs.Tree.{Parts, elements, tables, text};

use crate::build::{Built, Pool, pad, put_u32, put_zeros, short, together, whole};
use std::alloc::AllocError;

#[tactic(auto, unfolding(crate::specs::Parts::text_bytes))]
fn text_bytes(pool: &mut Pool, content: &str) -> Result<Vec<u8>, AllocError>
    ensures items { IfOk result (λ bytes. bytes.items ≡ text_bytes content.now) }
    ensures whole { IfOk result (λ bytes. length bytes.items % 8 ≡ 0) }
{
    let mut bytes = pool.take(whole(4 + content.len() + 1))?;
    put_u32(&mut bytes, short(content.len()))?;
    bytes.extend_from_slice(content.as_bytes())?;
    bytes.push(0).map_err(AllocError::from)?;
    pad(&mut bytes)?;
    Ok(bytes)
}

/// Returns a text: its length, its bytes and a zero byte. It fails only if an allocation fails.
pub fn text(pool: &mut Pool, content: &str) -> Result<Built, AllocError>
    ensures { IfOk result (λ built. IsPart built (text content.now)) }
{
    let bytes = text_bytes(pool, content)?;
    Ok(Built { bytes, entry: 0 })
}

/// Returns the header of a vector of `count` elements, with room for `len` bytes of elements.
///
/// The bytes of the elements are appended to it; then [`elements`] makes it the vector. It fails
/// only if an allocation fails.
pub fn elements_header(pool: &mut Pool, count: usize, len: usize) -> Result<Vec<u8>, AllocError>
    ensures { IfOk result (λ bytes. bytes.items ≡ elements_header count) }
{
    let mut bytes = pool.take(len.saturating_add(16))?;
    put_u32(&mut bytes, 0)?;
    put_u32(&mut bytes, short(count))?;
    Ok(bytes)
}

/// Returns a vector of elements without offsets, of which `bytes` is the header and the elements.
///
/// The first element is at a multiple of 8. It fails only if an allocation fails.
pub fn elements(bytes: Vec<u8>) -> Result<Built, AllocError>
    ensures { (align size count : ℕ) → (raw : List ℕ)
        → bytes.items ≡ elements_header count ++ raw
        → 8 % align ≡ 0 → 0 < size → length raw ≡ size * count
        → IfOk result (λ built. IsPart built (elements align size count raw)) }
{
    let mut bytes = bytes;
    pad(&mut bytes)?;
    Ok(Built { bytes, entry: 4 })
}

// The offset to a part that comes after `count` offsets, a gap and the earlier parts.
fn offset_to(count: usize, before: usize, entry: usize) -> u32
    requires before { before < 2 ^ 63 + 8 }
    requires entry { entry < 2 ^ 16 }
    ensures { result ≡ short (4 * count + before + entry) }
{
    if count > u32::MAX as usize {
        u32::MAX
    } else {
        short(4 * count + before + entry)
    }
}

// The number of zeros between the offsets and the parts.
fn gap_after(parts: &[Built]) -> usize
    ensures value { result ≡ gap_after parts.now }
    ensures small { result < 8 }
{
    4 - 4 * (parts.len() % 2)
}

// The length in bytes of the parts.
fn joined_len(parts: &[Built]) -> Result<usize, AllocError>
    ensures value { IfOk result (λ len. len ≡ length (joined_parts parts.now)) }
    ensures small { IfOk result (λ len. len < 2 ^ 63) }
{
    let mut len = 0;
    for part in parts {
        len = together(len, part.bytes.len())?;
    }
    Ok(len)
}

// Appends the offsets to the parts, which come after a gap.
fn put_offsets(bytes: &mut Vec<u8>, gap: usize, parts: &[Built]) -> Result<(), AllocError>
    requires gap { gap < 8 }
    requires small { length (joined_parts parts.now) < 2 ^ 63 }
    ensures { OnOk result (bytes.new.items ≡ bytes.old.items ++ offsets gap 0 parts.now) }
{
    // The length of the earlier parts.
    let mut before = 0;
    for (i, part) in parts.iter().enumerate() {
        put_u32(bytes, offset_to(parts.len() - i, gap + before, part.entry))?;
        before += part.bytes.len();
    }
    Ok(())
}

fn put_joined(bytes: &mut Vec<u8>, parts: &[Built]) -> Result<(), AllocError>
    ensures { OnOk result (bytes.new.items ≡ bytes.old.items ++ joined_parts parts.now) }
{
    for part in parts {
        bytes.extend_from_slice(&part.bytes)?;
    }
    Ok(())
}

fn vector_bytes(pool: &mut Pool, parts: &[Built]) -> Result<Vec<u8>, AllocError>
    ensures items { IfOk result (λ bytes. bytes.items ≡ vector_bytes parts.now) }
    ensures whole { IfOk result (λ bytes. length bytes.items % 8 ≡ 0) }
{
    let gap = gap_after(parts);
    let len = 4 + 4 * parts.len() + gap + joined_len(parts)?;
    let mut bytes = pool.take(len)?;
    put_u32(&mut bytes, short(parts.len()))?;
    put_offsets(&mut bytes, gap, parts)?;
    put_zeros(&mut bytes, gap)?;
    put_joined(&mut bytes, parts)?;
    Ok(bytes)
}

/// Returns a vector of tables or texts: its count, an offset to each, and the parts.
///
/// It fails only if an allocation fails.
pub fn tables(pool: &mut Pool, parts: &[Built]) -> Result<Built, AllocError>
    ensures { (xs : Parts) → AreParts parts.now xs → IfOk result (λ built. IsPart built (tables xs)) }
{
    let bytes = vector_bytes(pool, parts)?;
    Ok(Built { bytes, entry: 0 })
}
