//! Reads a known number of bytes from a device.
ghost use Rattle.std.specs.Prelude.{◌≡◌, ◌+◌, ◌^◌, ◌<◌, ◌≤◌, length, take, drop, IsTrue, IfOk, IfErr, OnOk, OnErr, MatchResult};
ghost use Rattle.ipc_devices.specs.Device.{Rises, after};
ghost use Rattle.ipc_devices.specs.Faults.{IfIo, OnIo, UnlessIo, OwnFault, Answers};
ghost use Rattle.ipc_devices.specs.Gives.{FillGives, IntoGives, PieceGives, StopsBefore, going};
ghost use Rattle.ipc_devices.specs.Reading.{HasRead, MovesBytes};
ghost use Rattle.ipc_devices.specs.declared.fault.Fault.TheVariants.{Ended};

use crate::device::Reads;
use crate::fault::Fault;
use std::alloc::{AllocError, Global};
use std::io;

// The most bytes that are read at once, and so allocated for a length that is only stated.
const MOST_AT_ONCE: usize = 65_536;

/// Reads until `buf` is full or no bytes are left.
///
/// It returns the number of bytes read.
///
/// An error is the device's, which counts it as a failure.
pub fn fill<R: Reads>(reader: &mut R, buf: &mut [u8]) -> io::Result<usize>
    ensures bound { IfOk result (λ n. n ≤ length buf.new) }
    ensures gives { FillGives R.gives reader.old result buf.new reader.new }
    ensures monotone { R.device.failures reader.old ≤ R.device.failures reader.new }
    ensures failed { OnErr result
        (Rises (R.device.failures reader.old) (R.device.failures reader.new)) }
    ensures done { OnOk result (R.device.failures reader.new ≡ R.device.failures reader.old) }
    ensures given { R.device.given reader.new ≤ R.device.given reader.old + length buf.old }
    ensures memory { IsTrue R.device.is_memory → IfOk result (λ n.
        HasRead (after (R.device.memory reader.old)) (after (R.device.memory reader.new)) n
        buf.new) }
    ensures whole { IsTrue R.device.is_read_only
        → (R.device.memory reader.new).whole ≡ (R.device.memory reader.old).whole }
    ensures names { R.device.names reader.new ≡ R.device.names reader.old }
    ensures answered { IfErr result (λ e. R.device.answered reader.new e) }
{
    let mut at = 0;
    while at < buf.len() {
        let n = reader.read(&mut buf[at..])?;
        if n == 0 {
            break;
        }
        at += n;
    }
    Ok(at)
}

// Appends the next `count` bytes.
fn add_piece<R: Reads>(reader: &mut R, bytes: &mut Vec<u8>, count: usize) -> Result<(), Fault>
    requires small { length bytes.old.items + count < 2 ^ 63 }
    requires some { 0 < count }
    ensures grown { OnOk result (length bytes.new.items ≡ length bytes.old.items + count) }
    ensures only { IfErr result (λ e. OwnFault e (e ≡ Ended)) }
    ensures gives { PieceGives R.gives reader.old bytes.old.items count result bytes.new.items reader.new }
    ensures monotone { R.device.failures reader.old ≤ R.device.failures reader.new }
    ensures failed { OnIo result
        (Rises (R.device.failures reader.old) (R.device.failures reader.new)) }
    ensures told { UnlessIo result (R.device.failures reader.new ≡ R.device.failures reader.old) }
    ensures given { R.device.given reader.new ≤ R.device.given reader.old + count }
    ensures memory { IsTrue R.device.is_memory
        → MovesBytes bytes.old.items (after (R.device.memory reader.old)) count
        result bytes.new.items (after (R.device.memory reader.new)) }
    ensures whole { IsTrue R.device.is_read_only
        → (R.device.memory reader.new).whole ≡ (R.device.memory reader.old).whole }
    ensures names { R.device.names reader.new ≡ R.device.names reader.old }
    ensures answered { IfIo result (λ e. R.device.answered reader.new e) }
{
    let start = bytes.len();
    bytes.resize(start + count, 0)?;
    let n = fill(reader, &mut bytes[start..])?;
    if n < count {
        return Err(Fault::Ended);
    }
    Ok(())
}

// Allocates room for a piece if there is none: for three times as many bytes as were read, and at
// least for the piece. So bytes are seldom moved, and a stated length alone allocates no more than
// a piece.
fn make_room(bytes: &mut Vec<u8>, piece: usize, left: usize) -> Result<(), AllocError>
    ensures { bytes.new.items ≡ bytes.old.items }
{
    if bytes.capacity().saturating_sub(bytes.len()) < piece {
        let more = bytes.len().saturating_mul(3).max(piece).min(left);
        bytes.reserve(more)?;
    }
    Ok(())
}

/// Replaces the content of `bytes` with the next `count` bytes.
///
/// It reads at most 65,536 bytes at once. It allocates at most 65,536 bytes, or four times as many
/// as were read: a stated length alone allocates no more. Errors:
///
/// - `Fault::Ended`: the device has fewer than `count` bytes.
/// - `Fault::Io`: the device failed.
/// - `Fault::Memory`: an allocation failed.
///
/// After an error, the content of `bytes` is unspecified.
pub fn read_into<R: Reads>(reader: &mut R, bytes: &mut Vec<u8>, count: usize) -> Result<(), Fault>
    requires { count < 2 ^ 63 }
    ensures count { OnOk result (length bytes.new.items ≡ count) }
    ensures only { IfErr result (λ e. OwnFault e (e ≡ Ended)) }
    ensures gives { IntoGives R.gives reader.old count result bytes.new.items reader.new }
    ensures monotone { R.device.failures reader.old ≤ R.device.failures reader.new }
    ensures failed { OnIo result
        (Rises (R.device.failures reader.old) (R.device.failures reader.new)) }
    ensures told { UnlessIo result (R.device.failures reader.new ≡ R.device.failures reader.old) }
    ensures given { R.device.given reader.new ≤ R.device.given reader.old + count }
    ensures left { IsTrue R.device.is_memory → OnOk result
        (after (R.device.memory reader.new) ≡ drop count (after (R.device.memory reader.old))) }
    ensures memory { IsTrue R.device.is_memory → Answers result
        (count ≤ length (after (R.device.memory reader.old)))
        (λ _. bytes.new.items ≡ take count (after (R.device.memory reader.old))) }
    ensures whole { IsTrue R.device.is_read_only
        → (R.device.memory reader.new).whole ≡ (R.device.memory reader.old).whole }
    ensures names { R.device.names reader.new ≡ R.device.names reader.old }
    ensures answered { IfIo result (λ e. R.device.answered reader.new e) }
{
    bytes.clear();
    while bytes.len() < count {
        let left = count - bytes.len();
        let piece = left.min(MOST_AT_ONCE);
        make_room(bytes, piece, left)?;
        add_piece(reader, bytes, piece)?;
    }
    Ok(())
}

/// As [`read_into`], into a new vector.
pub fn read_bytes<R: Reads>(alloc: Global, reader: &mut R, count: usize) -> Result<Vec<u8>, Fault>
    requires { count < 2 ^ 63 }
    ensures count { IfOk result (λ v. length v.items ≡ count) }
    ensures only { IfErr result (λ e. OwnFault e (e ≡ Ended)) }
    ensures gives { MatchResult result
        (λ v. R.gives reader.old v.items going reader.new)
        (λ e. StopsBefore R.gives reader.old count e reader.new) }
    ensures monotone { R.device.failures reader.old ≤ R.device.failures reader.new }
    ensures failed { OnIo result
        (Rises (R.device.failures reader.old) (R.device.failures reader.new)) }
    ensures told { UnlessIo result (R.device.failures reader.new ≡ R.device.failures reader.old) }
    ensures given { R.device.given reader.new ≤ R.device.given reader.old + count }
    ensures left { IsTrue R.device.is_memory → OnOk result
        (after (R.device.memory reader.new) ≡ drop count (after (R.device.memory reader.old))) }
    ensures memory { IsTrue R.device.is_memory → Answers result
        (count ≤ length (after (R.device.memory reader.old)))
        (λ v. v.items ≡ take count (after (R.device.memory reader.old))) }
    ensures whole { IsTrue R.device.is_read_only
        → (R.device.memory reader.new).whole ≡ (R.device.memory reader.old).whole }
    ensures names { R.device.names reader.new ≡ R.device.names reader.old }
    ensures answered { IfIo result (λ e. R.device.answered reader.new e) }
{
    let mut bytes = Vec::new(alloc);
    read_into(reader, &mut bytes, count)?;
    Ok(bytes)
}
