//! Files of the system that are timed.

use crate::files::{count_rows, write_file};
use crate::tables::Table;
use ipc_devices::{Fault, Watched, fill, read_bytes};
use std::alloc::Global;
use std::rt::Runtime;
use std::time::{Duration, Instant};
use std::{fs, io};

// The file, in the folder where the program runs.
const PATH: &str = "benchmark.arrow";

// How many bytes plain reads take at once.
const BLOCK: usize = 65_536;

// The longest file that plain reads take into fresh memory.
const LONGEST: usize = 1 << 40;

/// The least times of all rounds.
#[derive(Clone, Copy)]
pub struct DeviceTimes {
    /// Of reading the chunks.
    pub read: Duration,
    /// Of plain reads of the whole file, into memory that is reused.
    pub again: Duration,
    /// Of plain reads of the whole file, into fresh memory.
    pub fresh: Duration,
}

impl DeviceTimes {
    fn least(self, other: DeviceTimes) -> DeviceTimes {
        DeviceTimes {
            read: self.read.min(other.read),
            again: self.again.min(other.again),
            fresh: self.fresh.min(other.fresh),
        }
    }
}

fn open<R: Runtime>(rt: &R) -> io::Result<Watched<R::File>> {
    Ok(Watched::new(fs::open(rt, PATH)?))
}

// Reads all chunks. `Ended` if they have another number of rows.
fn time_read<R: Runtime>(rt: &R, alloc: Global, table: &Table) -> Result<Duration, Fault> {
    let file = open(rt)?;
    let start = Instant::now(rt)?;
    let rows = count_rows(alloc, file, table.chunks)?;
    let time = start.elapsed(rt)?;
    if rows != table.chunk.len().saturating_mul(table.chunks as usize) {
        return Err(Fault::Ended);
    }
    Ok(time)
}

// Replaces the content of `memory` by the file's bytes.
fn time_again<R: Runtime>(rt: &R, memory: &mut [u8]) -> Result<Duration, Fault> {
    let mut file = open(rt)?;
    let start = Instant::now(rt)?;
    for piece in memory.chunks_mut(BLOCK) {
        fill(&mut file, piece)?;
    }
    Ok(start.elapsed(rt)?)
}

// Reads the file's bytes into fresh memory, and returns that, as `count_rows` returns its chunks'.
fn time_fresh<R: Runtime>(rt: &R, alloc: Global, count: usize) -> Result<Duration, Fault> {
    let mut file = open(rt)?;
    let start = Instant::now(rt)?;
    let fresh = read_bytes(alloc, &mut file, count.min(LONGEST))?;
    // (so that it isn't optimized away)
    if fresh.len() != count {
        return Err(Fault::Ended);
    }
    drop(fresh);
    Ok(start.elapsed(rt)?)
}

// One round. The next round reuses `memory`, which is as long as the file.
fn measure<R: Runtime>(
    rt: &R,
    alloc: Global,
    table: &Table,
    memory: &mut Vec<u8>,
) -> Result<DeviceTimes, Fault> {
    Ok(DeviceTimes {
        read: time_read(rt, alloc, table)?,
        again: time_again(rt, memory)?,
        fresh: time_fresh(rt, alloc, memory.len())?,
    })
}

// The least times of `rounds` rounds, at least one. A first round isn't counted.
fn best_of<R: Runtime>(
    rt: &R,
    alloc: Global,
    table: &Table,
    mut memory: Vec<u8>,
    rounds: u32,
) -> Result<DeviceTimes, Fault> {
    measure(rt, alloc, table, &mut memory)?;
    let mut best = measure(rt, alloc, table, &mut memory)?;
    for _ in 1..rounds {
        best = best.least(measure(rt, alloc, table, &mut memory)?);
    }
    Ok(best)
}

/// The least times of `rounds` rounds, at least one, and how long the file is.
///
/// The file is made in the folder where the program runs, and removed afterwards.
pub fn best_of_device<R: Runtime>(
    rt: &R,
    alloc: Global,
    table: &Table,
    rounds: u32,
) -> Result<(DeviceTimes, usize), Fault> {
    let bytes = write_file(alloc, table, Vec::new(alloc))?;
    let length = bytes.len();
    fs::write(rt, PATH, bytes.as_slice())?;
    let best = best_of(rt, alloc, table, bytes, rounds);
    fs::remove_file(rt, PATH)?;
    Ok((best?, length))
}
