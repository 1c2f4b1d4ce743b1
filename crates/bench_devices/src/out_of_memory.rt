//! A file in memory that can't grow.
ghost use Rattle.std.specs.Prelude.{◌≡◌, ◌⊎◌, min, true};
ghost use Rattle.std.specs.IoError.{error_kind};
ghost use Rattle.std.specs.declared.io.ErrorKind.TheVariants.{OutOfMemory as NoMemory};
ghost use Rattle.ipc_devices.specs.Device.{through};

use ipc_devices::{Failures, Reads, Seeks, Writes};
use std::alloc::AllocError;
use std::io;

/// A file in memory whose writes fail, from one of them on, as if it couldn't grow.
#[derive(Drop)]
pub struct OutOfMemory<F> {
    file: F,
    // how many writes still succeed
    writes: u64,
}

impl<F> OutOfMemory<F> {
    /// This file. `failing` is the number of the first write that fails, counted from 1, or
    /// `NEVER`.
    pub fn new(file: F, failing: u64) -> OutOfMemory<F> {
        OutOfMemory {
            file,
            writes: failing.wrapping_sub(1),
        }
    }

    /// The file.
    pub fn into_inner(self) -> F {
        self.file
    }
}

impl<F: Failures> Failures for OutOfMemory<F> {
    // Each write that succeeds takes at least one byte.
    ghost device = { record (through (λ d. d.file) F.device) {
      grows = true;
      room = λ d. min d.writes (F.device.room d.file);
      answered = λ d e. (error_kind e ≡ NoMemory) ⊎ F.device.answered d.file e;
    } };

    fn failures(&self) -> u64 {
        self.file.failures()
    }
}

impl<F: Reads> Reads for OutOfMemory<F> {
    ghost gives = { λ a xs e b. F.gives a.file xs e b.file };

    ghost shows = { λ a n. F.shows a.file n };

    ghost laws = { record {
      nothing = λ a. F.laws.nothing a.file;
      in_order = λ a xs b ys e c. F.laws.in_order a.file xs b.file ys e c.file;
      counted = λ a xs e b. F.laws.counted a.file xs e b.file;
      fails = λ a xs e b. F.laws.fails a.file xs e b.file;
      ahead = λ a xs e b. F.laws.ahead a.file xs e b.file;
      still = λ a xs e b. F.laws.still a.file xs e b.file;
      names = λ a xs e b. F.laws.names a.file xs e b.file;
    } };

    fn given(&self) -> u64 {
        self.file.given()
    }

    fn read(&mut self, buf: &mut [u8]) -> io::Result<usize> {
        self.file.read(buf)
    }

    fn pass(&mut self, count: usize) -> Option<&[u8]> {
        self.file.pass(count)
    }

    fn skip(&mut self, count: usize) -> io::Result<()> {
        self.file.skip(count)
    }
}

impl<F: Writes> Writes for OutOfMemory<F> {
    const GROWS: bool = true;

    fn write(&mut self, buf: &[u8]) -> io::Result<usize> {
        if buf.is_empty() {
            return self.file.write(buf);
        }
        if self.writes == 0 {
            return Err(io::Error::from(AllocError));
        }
        self.writes -= 1;
        self.file.write(buf)
    }

    fn flush(&mut self) -> io::Result<()> {
        self.file.flush()
    }
}

impl<F: Seeks> Seeks for OutOfMemory<F> {
    ghost known_still = { F.known_still };

    fn seek_to(&mut self, place: u64) -> io::Result<()> {
        self.file.seek_to(place)
    }

    fn seek_end(&mut self) -> io::Result<u64> {
        self.file.seek_end()
    }

    fn position(&mut self) -> io::Result<u64> {
        self.file.position()
    }
}
