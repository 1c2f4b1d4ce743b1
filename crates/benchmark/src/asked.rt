//! The arguments of a call.

use crate::columns::{Kind, kind_named};
use ipc_write::common::WriteOptions;
use std::rt::Runtime;
use std::{env, io};

/// What is measured.
#[derive(Clone, Copy)]
pub enum Measured {
    /// A stream.
    Stream,
    /// A stream, whose columns share its memory where they can.
    Shared,
    /// A file.
    File,
    /// A file of the system.
    Device,
    /// The first column of the last block of a file.
    Block,
    /// The first column of a stream.
    Chosen,
}

/// How large a table is.
#[derive(Clone, Copy)]
pub struct Size {
    /// The rows of each chunk.
    pub rows: u32,
    /// The columns.
    pub columns: u32,
    /// How often the chunk is written.
    pub chunks: u32,
}

/// What the arguments ask for.
#[derive(Clone, Copy)]
pub struct Asked {
    /// The values of the columns.
    pub kind: Kind,
    /// What is measured.
    pub measured: Measured,
    /// The byte order.
    pub options: WriteOptions,
    /// How large the table is.
    pub size: Size,
    /// The number of rounds, of which the least times are taken.
    pub rounds: u32,
}

// The arguments so far. The numbers are counted from the first.
#[derive(Clone, Copy)]
struct Words {
    kind: Kind,
    measured: Measured,
    options: WriteOptions,
    numbers: [u32; 4],
    count: usize,
}

impl Words {
    // Takes a number. More than four are only counted.
    fn add(&mut self, number: u32) {
        if self.count < 4 {
            self.numbers[self.count] = number;
        }
        self.count = self.count.saturating_add(1);
    }

    fn take(&mut self, word: &str) {
        if let Some(kind) = kind_named(word) {
            self.kind = kind;
        } else if let Ok(number) = word.parse::<u32>() {
            self.add(number);
        } else if word == "big" {
            self.options = WriteOptions { big_endian: true };
        } else if word == "shared" {
            self.measured = Measured::Shared;
        } else if word == "file" {
            self.measured = Measured::File;
        } else if word == "device" {
            self.measured = Measured::Device;
        } else if word == "block" {
            self.measured = Measured::Block;
        } else if word == "chosen" {
            self.measured = Measured::Chosen;
        }
    }

    // The whole request, if there are three numbers or four.
    fn asked(self) -> Option<Asked> {
        let [rows, columns, rounds, chunks] = self.numbers;
        let chunks = match self.count {
            3 => 1,
            4 => chunks,
            _ => return None,
        };
        Some(Asked {
            kind: self.kind,
            measured: self.measured,
            options: self.options,
            size: Size {
                rows,
                columns,
                chunks,
            },
            rounds,
        })
    }
}

/// The request in the arguments after the program's name, if they are right.
pub fn read_words<R: Runtime>(rt: &R) -> io::Result<Option<Asked>> {
    let mut taken = Words {
        kind: Kind::Int64,
        measured: Measured::Stream,
        options: WriteOptions::default(),
        numbers: [0; 4],
        count: 0,
    };
    for word in env::args(rt)?.skip(1) {
        taken.take(&word);
    }
    Ok(taken.asked())
}
