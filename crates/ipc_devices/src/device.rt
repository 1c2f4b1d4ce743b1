//! Traits of devices that specify when a call can fail.
//!
//! Those of the standard library don't. A call of these returns an error only if the device counted
//! a failure in it, or if memory that is written to couldn't grow. No failed call is retried.
ghost use Rattle.std.specs.Prelude.{◌≡◌, ℕ, ◌+◌, ◌<◌, ◌≤◌, ◌↔◌, false, List, [], length, take, IsTrue, IsNone, IsSome, ◌⊎◌, IfOk, IfErr, IfSome, OnOk, OnErr, MatchResult, MatchOption};
ghost use Rattle.std.specs.Io.{ReadsAtMost, WritesAtMost};
ghost use Rattle.ipc_devices.specs.Device.{Device, Rises, counted, ReadsFront, WritesOver, GoesTo, behind};
ghost use Rattle.ipc_devices.specs.Gives.{Stop, going, failed, ReadGives, SkipGives, GivesLaws, gives_behind};
ghost use Rattle.ipc_devices.specs.GivesLaws.{laws_behind};
ghost use Rattle.std.specs.Io.BufRead.{Rests};
ghost use types.Logic.{sem};

use lower::buffer::Buffer;
use std::io;

/// A device that counts the calls that failed.
pub trait Failures {
    // What is known of such devices, and of each of their states.
    ghost device: { Device Self };

    /// Returns the number of calls that failed.
    ///
    /// The count stops at `u64::MAX`; a failure leaves it unchanged then.
    fn failures(&self) -> u64
        ensures { result ≡ Self.device.failures self.now };
}

/// A device that is read.
pub trait Reads: Failures {
    // Which bytes the reads between two states returned, and how the last of these reads ended.
    ghost gives: { Self → List ℕ → Stop → Self → Type 0 };

    // Whether the device has the next bytes, this many, in memory and lends them.
    ghost shows: { Self → ℕ → Type 0 };

    /// Returns the number of bytes that reads returned. The count stops at `u64::MAX`.
    fn given(&self) -> u64
        ensures { result ≡ Self.device.given self.now };

    /// Reads bytes into the front of `buf`, and returns their number.
    ///
    /// It is 0 if `buf` is empty or no bytes are left. Memory has no more bytes then; another
    /// device may have more later. An error is the device's, which counts it as a failure; no bytes
    /// were read, and the content of `buf` is unspecified.
    fn read(&mut self, buf: &mut [u8]) -> io::Result<usize>
        ensures bound { ReadsAtMost result buf.new }
        ensures gives { MatchResult result
            (λ n. ReadGives gives self.old n buf.new self.new)
            (λ _. gives self.old [] failed self.new) }
        ensures monotone { Self.device.failures self.old ≤ Self.device.failures self.new }
        ensures failed { OnErr result
            (Rises (Self.device.failures self.old) (Self.device.failures self.new)) }
        ensures given { MatchResult result
            (λ n. Self.device.given self.new ≡ counted (Self.device.given self.old) n)
            (λ _. Self.device.given self.new ≡ Self.device.given self.old) }
        ensures memory { IsTrue Self.device.is_memory → IfOk result (λ n.
            ReadsFront (Self.device.memory self.old) (Self.device.memory self.new) n buf.new) }
        ensures whole { IsTrue Self.device.is_read_only
            → (Self.device.memory self.new).whole ≡ (Self.device.memory self.old).whole }
        ensures names { Self.device.names self.new ≡ Self.device.names self.old }
        ensures answered { IfErr result (λ e. Self.device.answered self.new e) };

    /// Lends the next `count` bytes without a copy, and moves after them.
    ///
    /// It is `None` if the device doesn't have or doesn't lend them; nothing was read then.
    fn pass(&mut self, count: usize) -> Option<&[u8]>
        ensures count { IfSome result (λ bytes. length bytes.now ≡ count) }
        ensures shows { shows self.old count ↔ IsSome result }
        ensures* after_borrow { sem 𝓛 (Rests Self.row self.entry (λ new. MatchOption result
            (gives self.old [] going new)
            (λ bytes. gives self.old bytes.now going new))) };

    /// Returns the next `count` bytes in memory that the device shares, and moves after them.
    ///
    /// No byte is copied. It is `None` if the device doesn't have or doesn't share them; the device
    /// is unchanged then. The default shares nothing.
    fn share(&mut self, count: usize) -> Option<Buffer<u8>>
        ensures count { IfSome result (λ bytes. length bytes ≡ count) }
        ensures gives { IfSome result (λ bytes. gives self.old bytes going self.new) }
        ensures none { IsNone result → self.new ≡ self.old }
    {
        let _ = count;
        None
    }

    /// Skips the next `count` bytes, or all if there are fewer.
    ///
    /// An error is the device's, which counts it as a failure; fewer than `count` bytes were
    /// skipped. This is for callers: the readers here don't use it.
    fn skip(&mut self, count: usize) -> io::Result<()>
        ensures gives { SkipGives gives self.old count result self.new }
    {
        let mut piece = [0; 512];
        let mut left = count;
        while left > 0 {
            let most = left.min(piece.len());
            let n = self.read(&mut piece[..most])?;
            if n == 0 {
                break;
            }
            left -= n;
        }
        Ok(())
    }

    // Theorems: without calls nothing is read; the bytes of two runs of reads are concatenated; the
    // counts and the memory follow.
    ghost laws: { GivesLaws Self.device gives };
}

/// A device that is written.
pub trait Writes: Failures {
    /// Whether a write may have to grow memory, which can fail.
    ///
    /// It is true only for devices that write to memory.
    const GROWS: bool;

    /// Writes bytes from the front of `buf`, and returns their number.
    ///
    /// If `buf` isn't empty, at least one byte is written. An error is one of these:
    ///
    /// - The device's, which counts it as a failure.
    /// - Memory had to grow and couldn't. The bytes and the position are unchanged then, as they
    ///   are if `buf` is empty.
    fn write(&mut self, buf: &[u8]) -> io::Result<usize>
        ensures bound { WritesAtMost result buf.now }
        ensures some { IfOk result (λ n. 0 < length buf.now → 0 < n) }
        ensures monotone { Self.device.failures self.old ≤ Self.device.failures self.new }
        ensures failed { OnErr result
            (Rises (Self.device.failures self.old) (Self.device.failures self.new)
            ⊎ (IsTrue Self.device.grows × (Self.device.room self.old < length buf.now))) }
        ensures done { OnOk result
            (Self.device.failures self.new ≡ Self.device.failures self.old) }
        ensures memory { IsTrue Self.device.is_memory → IfOk result (λ n.
            WritesOver (Self.device.memory self.old) (Self.device.memory self.new)
            (take n buf.now)) }
        ensures nothing { IsTrue Self.device.is_memory → IfOk result (λ n.
            n ≡ 0 → Self.device.memory self.new ≡ Self.device.memory self.old) }
        ensures room { IfOk result
            (λ n. Self.device.room self.old ≤ Self.device.room self.new + n) }
        ensures refused { IsTrue Self.device.is_memory
            → OnErr result (Self.device.memory self.new ≡ Self.device.memory self.old) }
        ensures names { Self.device.names self.new ≡ Self.device.names self.old }
        ensures answered { IfErr result (λ e. Self.device.answered self.new e) }
        ensures kept { IsTrue Self.device.keeps_back
            → IfOk result (λ n. 0 < n → Self.device.is_flushed self.new ≡ false) };

    /// Passes on what was written to where it goes.
    ///
    /// If it is Ok, the device keeps nothing back. An error is the device's, which counts it as a
    /// failure.
    fn flush(&mut self) -> io::Result<()>
        ensures monotone { Self.device.failures self.old ≤ Self.device.failures self.new }
        ensures failed { OnErr result
            (Rises (Self.device.failures self.old) (Self.device.failures self.new)) }
        ensures done { OnOk result
            (Self.device.failures self.new ≡ Self.device.failures self.old) }
        ensures memory { IsTrue Self.device.is_memory
            → Self.device.memory self.new ≡ Self.device.memory self.old }
        ensures names { Self.device.names self.new ≡ Self.device.names self.old }
        ensures answered { IfErr result (λ e. Self.device.answered self.new e) }
        ensures flushed { OnOk result (IsTrue (Self.device.is_flushed self.new)) };
}

/// A device with a position, where the next call reads or writes.
///
/// An error of a call is the device's, which counts it as a failure. The position is unspecified
/// then.
pub trait Seeks: Failures {
    /// Moves to an offset in bytes from the start, maybe after the end.
    fn seek_to(&mut self, place: u64) -> io::Result<()>
        ensures monotone { Self.device.failures self.old ≤ Self.device.failures self.new }
        ensures failed { OnErr result
            (Rises (Self.device.failures self.old) (Self.device.failures self.new)) }
        ensures done { OnOk result
            (Self.device.failures self.new ≡ Self.device.failures self.old) }
        ensures given { Self.device.given self.new ≡ Self.device.given self.old }
        ensures memory { IsTrue Self.device.is_memory → OnOk result
            (GoesTo (Self.device.memory self.old) (Self.device.memory self.new) place) }
        ensures whole { IsTrue Self.device.is_read_only
            → (Self.device.memory self.new).whole ≡ (Self.device.memory self.old).whole }
        ensures names { Self.device.names self.new ≡ Self.device.names self.old }
        ensures answered { IfErr result (λ e. Self.device.answered self.new e) };

    /// Moves to the end, and returns its offset in bytes.
    fn seek_end(&mut self) -> io::Result<u64>
        ensures monotone { Self.device.failures self.old ≤ Self.device.failures self.new }
        ensures failed { OnErr result
            (Rises (Self.device.failures self.old) (Self.device.failures self.new)) }
        ensures done { OnOk result
            (Self.device.failures self.new ≡ Self.device.failures self.old) }
        ensures given { Self.device.given self.new ≡ Self.device.given self.old }
        ensures memory { IsTrue Self.device.is_memory → IfOk result (λ n.
            (n ≡ length (Self.device.memory self.old).whole)
            × GoesTo (Self.device.memory self.old) (Self.device.memory self.new) n) }
        ensures whole { IsTrue Self.device.is_read_only
            → (Self.device.memory self.new).whole ≡ (Self.device.memory self.old).whole }
        ensures names { Self.device.names self.new ≡ Self.device.names self.old }
        ensures answered { IfErr result (λ e. Self.device.answered self.new e) };

    /// Returns the position, as an offset in bytes from the start.
    fn position(&mut self) -> io::Result<u64>
        ensures monotone { Self.device.failures self.old ≤ Self.device.failures self.new }
        ensures failed { OnErr result
            (Rises (Self.device.failures self.old) (Self.device.failures self.new)) }
        ensures done { OnOk result
            (Self.device.failures self.new ≡ Self.device.failures self.old) }
        ensures given { Self.device.given self.new ≡ Self.device.given self.old }
        ensures place { IsTrue Self.device.is_memory
            → IfOk result (λ n. n ≡ (Self.device.memory self.old).place) }
        ensures stays { IsTrue Self.device.is_memory
            → Self.device.memory self.new ≡ Self.device.memory self.old }
        ensures whole { IsTrue Self.device.is_read_only
            → (Self.device.memory self.new).whole ≡ (Self.device.memory self.old).whole }
        ensures names { Self.device.names self.new ≡ Self.device.names self.old }
        ensures answered { IfErr result (λ e. Self.device.answered self.new e) };

    // A theorem: seeking in memory leaves its bytes unchanged.
    ghost known_still: { IsTrue Self.device.is_memory → IsTrue Self.device.is_read_only };
}

impl<D: Failures> Failures for &mut D {
    ghost device = { behind D.device };

    fn failures(&self) -> u64 {
        Failures::failures(&**self)
    }
}

impl<R: Reads> Reads for &mut R {
    ghost gives = { gives_behind R.gives };

    ghost shows = { λ a n. R.shows a.now n };

    ghost laws = { laws_behind R.device R.gives R.laws };

    fn given(&self) -> u64 {
        Reads::given(&**self)
    }

    fn read(&mut self, buf: &mut [u8]) -> io::Result<usize> {
        Reads::read(&mut **self, buf)
    }

    fn pass(&mut self, count: usize) -> Option<&[u8]> {
        Reads::pass(&mut **self, count)
    }

    fn share(&mut self, count: usize) -> Option<Buffer<u8>> {
        Reads::share(&mut **self, count)
    }

    fn skip(&mut self, count: usize) -> io::Result<()> {
        Reads::skip(&mut **self, count)
    }
}

impl<W: Writes> Writes for &mut W {
    const GROWS: bool = W::GROWS;

    fn write(&mut self, buf: &[u8]) -> io::Result<usize> {
        Writes::write(&mut **self, buf)
    }

    fn flush(&mut self) -> io::Result<()> {
        Writes::flush(&mut **self)
    }
}

impl<S: Seeks> Seeks for &mut S {
    ghost known_still = { S.known_still };

    fn seek_to(&mut self, place: u64) -> io::Result<()> {
        Seeks::seek_to(&mut **self, place)
    }

    fn seek_end(&mut self) -> io::Result<u64> {
        Seeks::seek_end(&mut **self)
    }

    fn position(&mut self) -> io::Result<u64> {
        Seeks::position(&mut **self)
    }
}

/// The same reference, after a value that had it returned it. A caller that lent it learns by this
/// call what the value left behind it.
pub fn itself<D>(device: &mut D) -> &mut D
    ensures same_reference { result.ghost_name ≡ device.entry.ghost_name }
    ensures now { result.now ≡ device.entry.now }
{
    device
}
