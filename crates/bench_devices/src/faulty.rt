//! Files in memory whose calls fail, or move few bytes.

use std::io;
use std::io::{Cursor, ErrorKind, SeekFrom};

/// A file in memory that a test inspects after it has served as a device.
pub trait TestFile: io::Read + io::Write + io::Seek + Drop {
    /// All bytes of the file.
    fn into_bytes(self) -> Vec<u8>;
}

fn broken() -> io::Error {
    io::Error::from(ErrorKind::BrokenPipe)
}

/// The number of a call that is never made.
pub const NEVER: u64 = 0;

/// A file in memory that fails in one of its calls.
///
/// A call is a read, a write, a flush or a seek.
#[derive(Drop)]
pub struct Flaky {
    file: Cursor<Vec<u8>>,
    failing: u64,
    calls: u64,
}

impl Flaky {
    /// A file of these bytes. `failing` is the number of the call that fails, counted from 1, or
    /// `NEVER`.
    pub fn new(bytes: Vec<u8>, failing: u64) -> Flaky {
        Flaky {
            file: Cursor::new(bytes),
            failing,
            calls: 0,
        }
    }

    // Counts a call, and fails if it is the one.
    fn count(&mut self) -> io::Result<()> {
        self.calls = self.calls.saturating_add(1);
        if self.calls == self.failing {
            return Err(broken());
        }
        Ok(())
    }
}

impl TestFile for Flaky {
    fn into_bytes(self) -> Vec<u8> {
        self.file.into_inner()
    }
}

impl io::Read for Flaky {
    fn read(&mut self, buf: &mut [u8]) -> io::Result<usize> {
        self.count()?;
        io::Read::read(&mut self.file, buf)
    }
}

impl io::Write for Flaky {
    fn write(&mut self, buf: &[u8]) -> io::Result<usize> {
        self.count()?;
        io::Write::write(&mut self.file, buf)
    }

    fn flush(&mut self) -> io::Result<()> {
        self.count()
    }
}

impl io::Seek for Flaky {
    fn seek(&mut self, to: SeekFrom) -> io::Result<u64> {
        self.count()?;
        io::Seek::seek(&mut self.file, to)
    }
}

/// A file in memory that moves one byte a call.
#[derive(Drop)]
pub struct OneByte {
    file: Cursor<Vec<u8>>,
}

impl OneByte {
    /// A file of these bytes.
    pub fn new(bytes: Vec<u8>) -> OneByte {
        OneByte {
            file: Cursor::new(bytes),
        }
    }
}

impl TestFile for OneByte {
    fn into_bytes(self) -> Vec<u8> {
        self.file.into_inner()
    }
}

impl io::Read for OneByte {
    fn read(&mut self, buf: &mut [u8]) -> io::Result<usize> {
        let count = buf.len().min(1);
        io::Read::read(&mut self.file, &mut buf[..count])
    }
}

impl io::Write for OneByte {
    fn write(&mut self, buf: &[u8]) -> io::Result<usize> {
        let count = buf.len().min(1);
        io::Write::write(&mut self.file, &buf[..count])
    }

    fn flush(&mut self) -> io::Result<()> {
        Ok(())
    }
}

impl io::Seek for OneByte {
    fn seek(&mut self, to: SeekFrom) -> io::Result<u64> {
        io::Seek::seek(&mut self.file, to)
    }
}

/// A file in memory some of whose bytes can't be read.
#[derive(Drop)]
pub struct Barred {
    file: Cursor<Vec<u8>>,
    start: u64,
    end: u64,
}

impl Barred {
    /// A file of these bytes, whose offsets from `start` to before `end` can't be read.
    ///
    /// Each read fails whose buffer reaches into them.
    pub fn new(bytes: Vec<u8>, start: u64, end: u64) -> Barred {
        Barred {
            file: Cursor::new(bytes),
            start,
            end,
        }
    }

    // Whether a read of this many bytes reaches into the range.
    fn is_barred(&self, count: usize) -> bool {
        let offset = self.file.position();
        offset < self.end && self.start < offset.saturating_add(count as u64)
    }
}

impl io::Read for Barred {
    fn read(&mut self, buf: &mut [u8]) -> io::Result<usize> {
        if self.is_barred(buf.len()) {
            return Err(broken());
        }
        io::Read::read(&mut self.file, buf)
    }
}

impl io::Seek for Barred {
    fn seek(&mut self, to: SeekFrom) -> io::Result<u64> {
        io::Seek::seek(&mut self.file, to)
    }
}
