//! Devices in memory. They count no failures, and read and write exactly their bytes.
ghost use Rattle.std.specs.Prelude.{◌≡◌, ℕ, ◌+◌, ◌-◌, ◌<◌, ◌≤◌, List, [], ◌++◌, length, take, drop, replicate, min, OnOk, OnErr, IfSome, vec_len, vec_capacity};
ghost use Rattle.ipc_devices.specs.Device.{before, memory_device};
ghost use Rattle.ipc_devices.specs.Gives.{memory_gives};
ghost use Rattle.ipc_devices.specs.GivesLaws.{memory_laws};

use crate::device::{Failures, Reads, Seeks, Writes};
use lower::buffer::Buffer;
use std::alloc::AllocError;
use std::io;

impl Failures for Vec<u8> {
    ghost device = { memory_device (λ v. record { whole = v.items; place = vec_len v }) (λ _. 0)
        (λ v. vec_capacity v - vec_len v) };

    fn failures(&self) -> u64 {
        0
    }
}

impl Writes for Vec<u8> {
    const GROWS: bool = true;

    fn write(&mut self, buf: &[u8]) -> io::Result<usize> {
        self.extend_from_slice(buf)?;
        Ok(buf.len())
    }

    fn flush(&mut self) -> io::Result<()> {
        Ok(())
    }
}

/// Bytes in memory.
pub trait Bytes {
    ghost bytes: { Self → List ℕ };

    // How many bytes it can hold before it has to grow.
    ghost capacity: { Self → ℕ };

    /// Returns the bytes.
    fn bytes(&self) -> &[u8]
        ensures { result.now ≡ bytes self.now };

    /// Returns the `count` bytes from index `at` in the same memory, or `None` if it isn't shared.
    ///
    /// The default shares nothing.
    fn share(&self, at: usize, count: usize) -> Option<Buffer<u8>>
        requires { at + count ≤ length (bytes self.now) }
        ensures { IfSome result (λ b. b ≡ take count (drop at (bytes self.now))) }
    {
        let _ = at;
        let _ = count;
        None
    }
}

impl Bytes for Vec<u8> {
    ghost bytes = { λ v. v.items };

    ghost capacity = { λ v. vec_capacity v };

    fn bytes(&self) -> &[u8] {
        self.as_slice()
    }
}

impl Bytes for &[u8] {
    ghost bytes = { λ s. s.now };

    ghost capacity = { λ _. 0 };

    fn bytes(&self) -> &[u8] {
        *self
    }
}

/// Bytes that several owners share.
impl Bytes for Buffer<u8> {
    ghost bytes = { λ b. b };

    ghost capacity = { λ _. 0 };

    fn bytes(&self) -> &[u8] {
        self.as_slice()
    }

    fn share(&self, at: usize, count: usize) -> Option<Buffer<u8>> {
        self.part(at, count).ok()
    }
}

/// A file in memory: bytes and a position.
///
/// It reads and seeks. With a `Buffer<u8>`, columns that are read share its memory. With a `Vec` it
/// also writes, over the bytes at the position; if the position is after the end, it fills the gap
/// with zeros.
#[derive(Drop)]
pub struct MemFile<B> {
    inner: B,
    position: u64,
    given: u64,
}

impl<B: Bytes> MemFile<B> {
    /// Returns a file whose position is its start.
    pub fn new(inner: B) -> MemFile<B>
        ensures { result ≡ record { inner = inner; position = 0; given = 0 } }
    {
        MemFile {
            inner,
            position: 0,
            given: 0,
        }
    }

    /// Returns the bytes.
    pub fn into_inner(self) -> B
        ensures { result ≡ self.inner }
    {
        self.inner
    }
}

impl<B: Bytes> Failures for MemFile<B> {
    ghost device = { memory_device (λ f. record { whole = B.bytes f.inner; place = f.position })
        (λ f. f.given)
        (λ f. B.capacity f.inner - f.position) };

    fn failures(&self) -> u64 {
        0
    }
}

// The bytes from an offset on.
fn rest_of(bytes: &[u8], place: u64) -> &[u8]
    ensures { result.now ≡ drop place bytes.now }
{
    match usize::try_from(place) {
        Ok(at) if at <= bytes.len() => &bytes[at..],
        _ => &[],
    }
}

// The offset as an index, if so many bytes are after it.
fn index_of(bytes: &[u8], place: u64, count: usize) -> Option<usize>
    ensures { IfSome result (λ at. (at ≡ place) × (at + count ≤ length bytes.now)) }
{
    match usize::try_from(place) {
        Ok(at) if at <= bytes.len() && count <= bytes.len() - at => Some(at),
        _ => None,
    }
}

// Copies as many bytes as both have, and returns their number.
fn copy_front(from: &[u8], to: &mut [u8]) -> usize
    ensures count { result ≡ min (length from.now) (length to.old) }
    ensures copied { to.new ≡ take result from.now ++ drop result to.old }
{
    let n = from.len().min(to.len());
    to[..n].copy_from_slice(&from[..n]);
    n
}

impl<B: Bytes> Reads for MemFile<B> {
    ghost gives = { memory_gives (λ f. record { whole = B.bytes f.inner; place = f.position })
        (λ f. f.given) };

    ghost shows = { λ a n. n ≤ length (drop a.position (B.bytes a.inner)) };

    ghost laws = { memory_laws (λ f. record { whole = B.bytes f.inner; place = f.position })
        (λ f. f.given)
        (λ f. B.capacity f.inner - f.position) };

    fn given(&self) -> u64 {
        self.given
    }

    fn read(&mut self, buf: &mut [u8]) -> io::Result<usize> {
        let n = copy_front(rest_of(self.inner.bytes(), self.position), buf);
        self.position += n as u64;
        self.given = self.given.saturating_add(n as u64);
        Ok(n)
    }

    fn pass(&mut self, count: usize) -> Option<&[u8]> {
        let place = self.position;
        if rest_of(self.inner.bytes(), place).len() < count {
            return None;
        }
        self.position += count as u64;
        self.given = self.given.saturating_add(count as u64);
        Some(&rest_of(self.inner.bytes(), place)[..count])
    }

    fn share(&mut self, count: usize) -> Option<Buffer<u8>> {
        let at = index_of(self.inner.bytes(), self.position, count)?;
        let shared = self.inner.share(at, count)?;
        let length = count as u64;
        self.position += length;
        self.given = self.given.saturating_add(length);
        Some(shared)
    }

    fn skip(&mut self, count: usize) -> io::Result<()> {
        let passed = rest_of(self.inner.bytes(), self.position).len().min(count) as u64;
        self.position += passed;
        self.given = self.given.saturating_add(passed);
        Ok(())
    }
}

impl<B: Bytes> Seeks for MemFile<B> {
    ghost known_still = { λ known. known };

    fn seek_to(&mut self, place: u64) -> io::Result<()> {
        self.position = place;
        Ok(())
    }

    fn seek_end(&mut self) -> io::Result<u64> {
        self.position = self.inner.bytes().len() as u64;
        Ok(self.position)
    }

    fn position(&mut self) -> io::Result<u64> {
        Ok(self.position)
    }
}

// Writes over the bytes from an offset on. A gap is filled with zeros.
fn put(bytes: &mut Vec<u8>, place: usize, buf: &[u8]) -> Result<(), AllocError>
    ensures ok { OnOk result (bytes.new.items ≡ before (record { whole = bytes.old.items; place = place }) ++ buf.now ++ drop (place + length buf.now) bytes.old.items) }
    ensures err { OnErr result (bytes.new.items ≡ bytes.old.items) }
    ensures full { OnErr result (vec_capacity bytes.old < place + length buf.now) }
    ensures capacity { vec_capacity bytes.old ≤ vec_capacity bytes.new }
{
    let Some(end) = place.checked_add(buf.len()) else {
        return Err(AllocError);
    };
    fill_to(bytes, end)?;
    overwrite(bytes, place, buf);
    Ok(())
}

// Appends zeros up to this length.
fn fill_to(bytes: &mut Vec<u8>, end: usize) -> Result<(), AllocError>
    ensures ok { OnOk result (bytes.new.items ≡ bytes.old.items ++ replicate (end - length bytes.old.items) 0) }
    ensures err { OnErr result (bytes.new.items ≡ bytes.old.items) }
    ensures full { OnErr result (vec_capacity bytes.old < end) }
    ensures capacity { vec_capacity bytes.old ≤ vec_capacity bytes.new }
{
    if bytes.len() < end {
        bytes.resize(end, 0)?;
    }
    Ok(())
}

fn overwrite(bytes: &mut [u8], place: usize, buf: &[u8])
    requires { place + length buf.now ≤ length bytes.old }
    ensures { bytes.new ≡ take place bytes.old ++ buf.now ++ drop (place + length buf.now) bytes.old }
{
    bytes[place..place + buf.len()].copy_from_slice(buf);
}

impl Writes for MemFile<Vec<u8>> {
    const GROWS: bool = true;

    fn write(&mut self, buf: &[u8]) -> io::Result<usize> {
        if buf.is_empty() {
            return Ok(0);
        }
        let Ok(place) = usize::try_from(self.position) else {
            return Err(io::Error::from(AllocError));
        };
        put(&mut self.inner, place, buf)?;
        self.position += buf.len() as u64;
        Ok(buf.len())
    }

    fn flush(&mut self) -> io::Result<()> {
        Ok(())
    }
}
