//! Measures writing and reading of streams and files, compared with plain copies.
//!
//! `benchmark [big] [shared|file|device|chosen|block] [KIND] ROWS COLUMNS ROUNDS [CHUNKS]` writes a
//! stream to memory that is reused, and reads it back. For each it prints the least time of all
//! rounds.
//!
//! - KIND: the values of the columns: `int64` (the default), `nulls`, `bits3`, `boolean`, `list`,
//!   `utf8`, `struct`, `dictionary`, `values` or `mixed`.
//! - ROWS: the rows of each chunk. CHUNKS: how many chunks there are; 1 by default.
//! - `big`: writes numbers in big-endian order.
//! - `shared`: reads from memory that the columns may share.
//! - `file`: writes and reads a file instead, in memory.
//! - `device`: reads a file of the system, `benchmark.arrow`, which it makes and removes.
//! - `chosen`: reads one column of a stream, and the same column in a stream of its own.
//! - `block`: reads one column of the last block of a file.
//!
//! Writing is compared with a copy into memory that is reused, reading with one into fresh memory:
//! for `device`, with plain reads of the file by 65,536 bytes into fresh memory. Of shared texts it
//! also prints how long checking them and copying their offsets takes, which reading them includes.
//! Without three or four numbers it does nothing; unknown words are ignored.
#![tactic(auto)]

mod asked;
mod checked;
mod columns;
mod devices;
mod files;
mod streams;
mod tables;
mod times;

use crate::asked::{Asked, Measured, Size, read_words};
use crate::checked::best_checked;
use crate::columns::Kind;
use crate::devices::best_of_device;
use crate::tables::{Table, make_table};
use crate::times::{best_of, print};
use ipc_devices::Fault;
use std::alloc::Global;
use std::num::nearest_usize_to_f64;
use std::rt::Runtime;

// Measures a table, and prints the results.
fn run<R: Runtime>(rt: &R, alloc: Global, table: &Table, asked: &Asked) -> Result<(), Fault> {
    let (best, bytes) = best_of(rt, alloc, table, asked.measured, asked.rounds)?;
    print(rt, "write", best.write, best.copy_again, bytes)?;
    print(
        rt,
        "copy into the same memory",
        best.copy_again,
        best.copy_again,
        bytes,
    )?;
    print(rt, "read", best.read, best.copy, bytes)?;
    print(rt, "copy into fresh memory", best.copy, best.copy, bytes)?;
    if let (Measured::Shared, Kind::Utf8) = (asked.measured, asked.kind) {
        let checked = best_checked(rt, alloc, table, asked.rounds)?;
        print(rt, "check texts, copy offsets", checked, best.copy, bytes)?;
    }
    Ok(())
}

// Reads a table from a file of the system.
fn run_device<R: Runtime>(
    rt: &R,
    alloc: Global,
    table: &Table,
    asked: &Asked,
) -> Result<(), Fault> {
    let (best, bytes) = best_of_device(rt, alloc, table, asked.rounds)?;
    print(rt, "read", best.read, best.fresh, bytes)?;
    print(
        rt,
        "plain reads into the same memory",
        best.again,
        best.fresh,
        bytes,
    )?;
    print(
        rt,
        "plain reads into fresh memory",
        best.fresh,
        best.fresh,
        bytes,
    )?;
    Ok(())
}

// Reads the first column of a table, and then of a table without other columns.
fn run_chosen<R: Runtime>(
    rt: &R,
    alloc: Global,
    table: &Table,
    alone: &Table,
    asked: &Asked,
) -> Result<(), Fault> {
    let (chosen, _) = best_of(rt, alloc, table, Measured::Chosen, asked.rounds)?;
    let (own, bytes) = best_of(rt, alloc, alone, Measured::Stream, asked.rounds)?;
    let rate = nearest_usize_to_f64(bytes) / chosen.read.as_secs_f64() / 1e6;
    let times = chosen.read.as_secs_f64() / own.read.as_secs_f64();
    println!(rt;
        "read one of {}: {rate:.0} MB/s, {times:.2} times as long as alone",
        asked.size.columns
    )?;
    Ok(())
}

// Reads the first column of the last block of a file.
fn run_block<R: Runtime>(rt: &R, alloc: Global, table: &Table, asked: &Asked) -> Result<(), Fault> {
    let (best, _) = best_of(rt, alloc, table, Measured::Block, asked.rounds)?;
    let micros = best.read.as_secs_f64() * 1e6;
    println!(rt;
        "read one of {} columns of one of {} blocks: {micros:.1} us",
        asked.size.columns, asked.size.chunks
    )?;
    Ok(())
}

fn main(rt: HostRuntime) -> Result<(), Fault> {
    let alloc = rt.alloc();
    let Some(asked) = read_words(&rt)? else {
        return Ok(());
    };
    let table = make_table(alloc, asked.kind, asked.size, asked.options)?;
    match asked.measured {
        Measured::Stream | Measured::Shared | Measured::File => run(&rt, alloc, &table, &asked),
        Measured::Device => run_device(&rt, alloc, &table, &asked),
        Measured::Block => run_block(&rt, alloc, &table, &asked),
        Measured::Chosen => {
            let one = Size {
                columns: 1,
                ..asked.size
            };
            let alone = make_table(alloc, asked.kind, one, asked.options)?;
            run_chosen(&rt, alloc, &table, &alone, &asked)
        }
    }
}
