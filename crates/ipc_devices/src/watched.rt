//! Devices of the standard library, with counts.
ghost use Rattle.std.specs.Prelude.{◌≡◌, ◌≤◌, true, [], OnOk, OnErr};
ghost use Rattle.ipc_devices.specs.Device.{Rises, counted_device};
ghost use Rattle.ipc_devices.specs.Gives.{counts_give};
ghost use Rattle.ipc_devices.specs.GivesLaws.{counts_laws};

use crate::device::{Failures, Reads, Seeks, Writes};
use std::io;
use std::io::{ErrorKind, SeekFrom};

/// A device of the standard library, with counts of failures and bytes read.
///
/// If the device refuses an offset as invalid, `seek_to` moves to its end. A file does so for an
/// offset above the greatest length in its file system, which is after all its bytes.
#[derive(Drop)]
pub struct Watched<T> {
    inner: T,
    failures: u64,
    given: u64,
    // all that was written was flushed
    is_flushed: bool,
}

impl<T> Watched<T> {
    /// A device whose counts are 0, to which nothing was written.
    pub fn new(inner: T) -> Watched<T>
        ensures { result ≡ record { inner = inner; failures = 0; given = 0; is_flushed = true } }
    {
        Watched {
            inner,
            failures: 0,
            given: 0,
            is_flushed: true,
        }
    }

    /// Returns the device of the standard library.
    pub fn into_inner(self) -> T
        ensures { result ≡ self.inner }
    {
        self.inner
    }
}

impl<T> Watched<T> {
    // Counts a call that failed.
    fn counted<X>(&mut self, answer: io::Result<X>) -> io::Result<X>
        ensures same { result ≡ answer }
        ensures inner { self.new.inner ≡ self.old.inner }
        ensures given { self.new.given ≡ self.old.given }
        ensures failed { OnErr answer (Rises self.old.failures self.new.failures) }
        ensures done { OnOk answer (self.new.failures ≡ self.old.failures) }
        ensures monotone { self.old.failures ≤ self.new.failures }
    {
        if answer.is_err() {
            self.failures = self.failures.saturating_add(1);
        }
        answer
    }
}

impl<T> Failures for Watched<T> {
    ghost device = { counted_device (λ w. w.failures) (λ w. w.given) (λ w. w.is_flushed) };

    fn failures(&self) -> u64 {
        self.failures
    }
}

impl<T: io::Read> Reads for Watched<T> {
    ghost gives = { counts_give (λ w. w.failures) (λ w. w.given) };

    ghost shows = { λ _ _. ⊥ };

    ghost laws = { counts_laws (λ w. w.failures) (λ w. w.given) (λ w. w.is_flushed) };

    fn given(&self) -> u64 {
        self.given
    }

    fn pass(&mut self, count: usize) -> Option<&[u8]> {
        let _ = count;
        None
    }

    fn read(&mut self, buf: &mut [u8]) -> io::Result<usize> {
        match self.inner.read(buf) {
            Ok(n) => {
                self.given = self.given.saturating_add(n as u64);
                Ok(n)
            }
            Err(e) => {
                self.failures = self.failures.saturating_add(1);
                Err(e)
            }
        }
    }
}

impl<T: io::Write> Writes for Watched<T> {
    const GROWS: bool = false;

    fn write(&mut self, buf: &[u8]) -> io::Result<usize> {
        self.is_flushed = false;
        let written = match self.inner.write(buf) {
            Ok(0) if !buf.is_empty() => Err(io::Error::from(ErrorKind::WriteZero)),
            written => written,
        };
        if written.is_err() {
            self.failures = self.failures.saturating_add(1);
        }
        written
    }

    fn flush(&mut self) -> io::Result<()> {
        let flushed = self.inner.flush();
        if flushed.is_err() {
            self.failures = self.failures.saturating_add(1);
        } else {
            self.is_flushed = true;
        }
        flushed
    }
}

impl<T: io::Seek> Seeks for Watched<T> {
    ghost known_still = { λ known. known };

    fn seek_to(&mut self, place: u64) -> io::Result<()> {
        let answer = match self.inner.seek(SeekFrom::Start(place)) {
            Err(e) if e.kind() == ErrorKind::InvalidInput => self.inner.seek(SeekFrom::End(0)),
            answer => answer,
        };
        self.counted(answer)?;
        Ok(())
    }

    fn seek_end(&mut self) -> io::Result<u64> {
        let answer = self.inner.seek(SeekFrom::End(0));
        self.counted(answer)
    }

    fn position(&mut self) -> io::Result<u64> {
        let answer = self.inner.stream_position();
        self.counted(answer)
    }
}
