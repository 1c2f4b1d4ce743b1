//! Times of writing, reading and copying.

use crate::asked::Measured;
use crate::files::{read_file, time_block, write_file};
use crate::streams::{read_first, read_shared, read_stream, write_stream};
use crate::tables::Table;
use ipc_devices::Fault;
use lower::buffer::Buffer;
use std::alloc::Global;
use std::io;
use std::mem::replace;
use std::num::nearest_usize_to_f64;
use std::rt::Runtime;
use std::time::{Duration, Instant};

/// The least times of all rounds.
#[derive(Clone, Copy)]
pub struct Times {
    /// Of writing.
    pub write: Duration,
    /// Of a copy of what was written, into memory that is reused.
    pub copy_again: Duration,
    /// Of reading.
    pub read: Duration,
    /// Of a copy of what was read, into fresh memory.
    pub copy: Duration,
}

impl Times {
    fn least(self, other: Times) -> Times {
        Times {
            write: self.write.min(other.write),
            copy_again: self.copy_again.min(other.copy_again),
            read: self.read.min(other.read),
            copy: self.copy.min(other.copy),
        }
    }
}

// Replaces the content of `out` by the table, in the same memory.
fn time_write<R: Runtime>(
    rt: &R,
    alloc: Global,
    table: &Table,
    measured: Measured,
    out: &mut Vec<u8>,
) -> Result<Duration, Fault> {
    out.clear();
    let start = Instant::now(rt)?;
    let taken = replace(out, Vec::new(alloc));
    *out = match measured {
        Measured::File | Measured::Device | Measured::Block => write_file(alloc, table, taken)?,
        Measured::Stream | Measured::Shared | Measured::Chosen => {
            write_stream(alloc, table, taken)?
        }
    };
    Ok(start.elapsed(rt)?)
}

// Replaces the content of `again` by the bytes, in the same memory.
fn time_copy_again<R: Runtime>(
    rt: &R,
    bytes: &[u8],
    again: &mut Vec<u8>,
) -> Result<Duration, Fault> {
    again.clear();
    let start = Instant::now(rt)?;
    again.extend_from_slice(bytes)?;
    Ok(start.elapsed(rt)?)
}

// Reads what is measured. The bytes stay as they are.
fn time_read<R: Runtime>(
    rt: &R,
    alloc: Global,
    table: &Table,
    measured: Measured,
    bytes: &mut Vec<u8>,
) -> Result<Duration, Fault> {
    match measured {
        Measured::Block => time_block(rt, alloc, bytes),
        Measured::Shared => time_shared(rt, alloc, table, bytes),
        Measured::Stream | Measured::File | Measured::Device | Measured::Chosen => {
            time_chunks(rt, alloc, table, measured, bytes)
        }
    }
}

// Reads all chunks, which share the memory of the bytes until they are dropped.
fn time_shared<R: Runtime>(
    rt: &R,
    alloc: Global,
    table: &Table,
    bytes: &mut Vec<u8>,
) -> Result<Duration, Fault> {
    let shared = Buffer::new(replace(bytes, Vec::new(alloc)))?;
    let start = Instant::now(rt)?;
    let rows = read_shared(alloc, &shared, table.chunks)?;
    let time = start.elapsed(rt)?;
    let Ok(taken) = shared.into_vec() else {
        return Err(Fault::Ended);
    };
    *bytes = taken;
    if rows != table.chunk.len().saturating_mul(table.chunks as usize) {
        return Err(Fault::Ended);
    }
    Ok(time)
}

// Reads all chunks. `Ended` if they have another number of rows.
fn time_chunks<R: Runtime>(
    rt: &R,
    alloc: Global,
    table: &Table,
    measured: Measured,
    bytes: &[u8],
) -> Result<Duration, Fault> {
    let start = Instant::now(rt)?;
    let rows = match measured {
        Measured::Stream | Measured::Shared => read_stream(alloc, bytes, table.chunks)?,
        Measured::File | Measured::Device | Measured::Block => {
            read_file(alloc, bytes, table.chunks)?
        }
        Measured::Chosen => read_first(alloc, bytes, table.chunks)?,
    };
    let time = start.elapsed(rt)?;
    if rows != table.chunk.len().saturating_mul(table.chunks as usize) {
        return Err(Fault::Ended);
    }
    Ok(time)
}

// Copies the bytes into fresh memory.
fn time_copy<R: Runtime>(rt: &R, alloc: Global, bytes: &[u8]) -> Result<Duration, Fault> {
    let start = Instant::now(rt)?;
    let fresh = Vec::from_slice(alloc, bytes)?;
    let time = start.elapsed(rt)?;
    // (so that the copy isn't optimized away)
    if fresh.len() != bytes.len() {
        return Err(Fault::Ended);
    }
    Ok(time)
}

// One round. The next round reuses `out` and `again`.
fn measure<R: Runtime>(
    rt: &R,
    alloc: Global,
    table: &Table,
    measured: Measured,
    out: &mut Vec<u8>,
    again: &mut Vec<u8>,
) -> Result<Times, Fault> {
    Ok(Times {
        write: time_write(rt, alloc, table, measured, out)?,
        copy_again: time_copy_again(rt, out, again)?,
        read: time_read(rt, alloc, table, measured, out)?,
        copy: time_copy(rt, alloc, out)?,
    })
}

/// The least times of `rounds` rounds, at least one, and how many bytes were written.
///
/// A first round, which allocates all memory, isn't counted.
pub fn best_of<R: Runtime>(
    rt: &R,
    alloc: Global,
    table: &Table,
    measured: Measured,
    rounds: u32,
) -> Result<(Times, usize), Fault> {
    let mut out = Vec::new(alloc);
    let mut again = Vec::new(alloc);
    measure(rt, alloc, table, measured, &mut out, &mut again)?;
    let mut best = measure(rt, alloc, table, measured, &mut out, &mut again)?;
    for _ in 1..rounds {
        best = best.least(measure(rt, alloc, table, measured, &mut out, &mut again)?);
    }
    Ok((best, out.len()))
}

/// Prints a rate, and its part of the rate of a copy.
pub fn print<R: Runtime>(
    rt: &R,
    name: &str,
    time: Duration,
    copy: Duration,
    bytes: usize,
) -> io::Result<()> {
    let rate = nearest_usize_to_f64(bytes) / time.as_secs_f64() / 1e6;
    let ratio = copy.as_secs_f64() / time.as_secs_f64();
    println!(rt; "{name}: {rate:.0} MB/s, {ratio:.2} of a copy")
}
