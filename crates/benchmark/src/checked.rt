//! Texts that are checked without being read: the least that reading shared texts takes.

use crate::tables::Table;
use ipc_base::chunk::Chunk;
use ipc_devices::Fault;
use lower::buffer::Buffer;
use lower::datatypes::DataType;
use lower::offset::OffsetsBuffer;
use lower_arrays::array::{AnyArray, Utf8Array};
use std::alloc::Global;
use std::rt::Runtime;
use std::time::{Duration, Instant};

// The same texts, whose letters are shared and whose offsets are a copy.
fn checked(alloc: Global, texts: &Utf8Array<i32>) -> Result<Utf8Array<i32>, Fault> {
    let offsets = Vec::from_slice(alloc, texts.offsets().as_slice())?;
    let offsets = OffsetsBuffer::try_new(Buffer::new(offsets)?)?;
    let letters = texts.values().clone()?;
    Ok(Utf8Array::try_new(DataType::Utf8, offsets, letters, None)?)
}

// The same columns of texts of a chunk, each of them checked.
fn checked_columns(alloc: Global, chunk: &Chunk<AnyArray>) -> Result<Vec<Utf8Array<i32>>, Fault> {
    let mut columns = Vec::new(alloc);
    for column in chunk.arrays() {
        if let AnyArray::Utf8(texts) = column {
            columns.push(checked(alloc, texts)?)?;
        }
    }
    Ok(columns)
}

// Checks the texts of all chunks. `Ended` if a column has other values.
fn time_checked<R: Runtime>(rt: &R, alloc: Global, table: &Table) -> Result<Duration, Fault> {
    let start = Instant::now(rt)?;
    let mut columns = 0usize;
    for _ in 0..table.chunks {
        columns = columns.saturating_add(checked_columns(alloc, &table.chunk)?.len());
    }
    let time = start.elapsed(rt)?;
    let wanted = table.chunk.arrays().len();
    if columns != wanted.saturating_mul(table.chunks as usize) {
        return Err(Fault::Ended);
    }
    Ok(time)
}

/// The least time of `rounds` rounds, at least one, of checking the texts of a table and copying
/// their offsets. `Ended` if a column has other values.
pub fn best_checked<R: Runtime>(
    rt: &R,
    alloc: Global,
    table: &Table,
    rounds: u32,
) -> Result<Duration, Fault> {
    let mut best = time_checked(rt, alloc, table)?;
    for _ in 1..rounds {
        best = best.min(time_checked(rt, alloc, table)?);
    }
    Ok(best)
}
