//! A buffer in front of an output, which is written in large pieces.
ghost use Rattle.std.specs.Prelude.{◌≡◌, ◌<◌, [], IfErr, OnOk};
ghost use Rattle.ipc_devices.specs.Faults.{OwnFault};
ghost use Rattle.ipc_programs.specs.Printing.{Prints, PrintsAll, Puts, SendsKept};

use crate::cat::output::Output;
use arrow2_ipc::io::ipc::fault::{Fault, Writes};
use itoa::{Buffer, Integer};
use std::alloc::Global;

// How many bytes are buffered before they are written.
const KEPT: usize = 65_536;

/// Buffers bytes for an output. The sent bytes and the buffer are what was put, in order.
#[derive(Drop)]
pub struct Printer<'a, W> {
    out: Output<'a, W>,
    kept: Vec<u8>,
}

impl<'a, W: Writes> Printer<'a, W> {
    /// A printer with an empty buffer.
    pub fn new(alloc: Global, out: &'a mut W) -> Self
        ensures same_reference { result.out.device.ghost_name ≡ out.entry.ghost_name }
        ensures now { result.out.device.now ≡ out.entry.now }
        ensures none { result.kept.items ≡ [] }
    {
        Printer {
            out: Output::new(out),
            kept: Vec::new(alloc),
        }
    }

    /// The borrowed output. The buffer is dropped.
    pub fn into_inner(self) -> &'a mut W
        ensures same_reference { result.ghost_name ≡ self.entry.out.device.ghost_name }
        ensures now { result.now ≡ self.entry.out.device.now }
    {
        self.out.into_inner()
    }

    /// Adds these bytes. Many at once are sent without being buffered.
    ///
    /// `Memory` if they can't be buffered, which changes nothing. `Io` if sending fails; the buffer
    /// is empty then.
    pub fn put(&mut self, bytes: &[u8]) -> Result<(), Fault>
        ensures puts { Puts W.device self.old result self.new bytes.now }
        ensures only { IfErr result (λ e. OwnFault e ⊥) }
        ensures prints { OnOk result (Prints W.device self.old self.new) }
    {
        if KEPT <= bytes.len() {
            self.send()?;
            return self.out.write_all(bytes);
        }
        self.kept.extend_from_slice(bytes)?;
        if KEPT <= self.kept.len() {
            return self.send();
        }
        Ok(())
    }

    /// Sends the buffer, and flushes the output.
    ///
    /// `Io` if that fails. Bytes that couldn't be sent are dropped: they aren't sent again.
    pub fn send(&mut self) -> Result<(), Fault>
        ensures sends { SendsKept W.device self.old result self.new }
        ensures only { IfErr result (λ e. OwnFault e ⊥) }
        ensures all { OnOk result (PrintsAll W.device self.old self.new) }
    {
        let sent = self.out.write_all(&self.kept);
        self.kept.clear();
        sent?;
        self.out.flush()?;
        Ok(())
    }

    /// Adds a byte as two hexadecimal digits.
    pub fn put_byte(&mut self, byte: u8) -> Result<(), Fault>
        ensures only { IfErr result (λ e. OwnFault e ⊥) }
        ensures prints { OnOk result (Prints W.device self.old self.new) }
    {
        self.put(&[hexadecimal(byte / 16), hexadecimal(byte % 16)])
    }
}

/// Prints an integer in decimal.
pub fn put_number<W: Writes, N: Integer>(printer: &mut Printer<W>, number: N) -> Result<(), Fault>
    ensures only { IfErr result (λ e. OwnFault e ⊥) }
    ensures prints { OnOk result (Prints W.device printer.old printer.new) }
{
    printer.put(Buffer::new().format(number).as_bytes())
}

/// Prints a text in double quotes.
///
/// Quotes, backslashes and control bytes are printed as `\x` and two digits.
pub fn put_text<W: Writes>(printer: &mut Printer<W>, text: &[u8]) -> Result<(), Fault>
    ensures only { IfErr result (λ e. OwnFault e ⊥) }
    ensures prints { OnOk result (Prints W.device printer.old printer.new) }
{
    printer.put(b"\"")?;
    let mut start = 0;
    for (at, byte) in text.iter().enumerate() {
        if is_escaped(*byte) {
            printer.put(&text[start..at])?;
            printer.put(b"\\x")?;
            printer.put_byte(*byte)?;
            start = at + 1;
        }
    }
    printer.put(&text[start..])?;
    printer.put(b"\"")
}

// Whether a byte of a text is printed as `\x` and two digits.
fn is_escaped(byte: u8) -> bool {
    byte < 0x20 || byte == 0x7f || byte == b'"' || byte == b'\\'
}

// The lower case hexadecimal digit of a number below 16.
fn hexadecimal(digit: u8) -> u8
    requires { digit < 16 }
{
    b"0123456789abcdef"[digit as usize]
}
