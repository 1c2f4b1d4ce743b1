//! Reads the frames of a stream.
//!
//! Arrow columnar format, "Encapsulated message format".
ghost use Rattle.std.specs.Prelude.{IfErr};
ghost use Rattle.ipc_devices.specs.Device.{IsAnswered};
ghost use Rattle.ipc_devices.specs.Faults.{IfIo, OwnFault};
ghost use Rattle.ipc_devices.specs.declared.fault.Fault.TheVariants.{Ended, OutOfSpec};
ghost use Rattle.ipc_devices.specs.declared.fault.OutOfSpecKind.TheVariants.{NegativeFooterLength};
ghost use Rattle.ipc_readers.specs.Frames.{begun_bytes, FrameGave, IsFramingFault, SizedGave, WordGave};

use crate::read::begun::{Begun, Frame};
use ipc_devices::fault::{Fault, OutOfSpecKind};
use ipc_devices::{Reads, fill, read_into};
use std::io;

// The continuation marker before a length, as a number.
const CONTINUATION: u32 = u32::MAX;

impl Begun {
    // The next 4 bytes as a number. If there are fewer, they are kept.
    fn word<R: Reads>(&mut self, reader: &mut R) -> io::Result<Option<u32>>
        ensures gives { WordGave R.gives (begun_bytes self.old) reader.old result (begun_bytes self.new) reader.new }
        ensures answered { IfErr result (IsAnswered R.device) }
    {
        let n = fill(reader, &mut self.bytes[self.count..])?;
        if n < 4 - self.count {
            self.count += n;
            return Ok(None);
        }
        self.count = 0;
        Ok(Some(u32::from_le_bytes(self.bytes)))
    }
}

// Reads what follows a prefix of this length.
fn read_sized<R: Reads>(reader: &mut R, size: u32, metadata: &mut Vec<u8>) -> Result<Frame, Fault>
    ensures only { IfErr result (λ e. OwnFault e (IsFramingFault e)) }
    ensures gives { SizedGave R.gives size reader.old result metadata.new.items reader.new }
    ensures answered { IfIo result (IsAnswered R.device) }
{
    if size > i32::MAX as u32 {
        return Err(Fault::OutOfSpec(OutOfSpecKind::NegativeFooterLength));
    }
    if size == 0 {
        return Ok(Frame::Mark);
    }
    read_into(reader, metadata, size as usize)?;
    Ok(Frame::Message)
}

/// Reads the next frame of a stream: a message's metadata or the end mark.
///
/// - `begun`: the bytes of an incomplete prefix that an earlier call read.
/// - `metadata`: its content is replaced by the metadata of a message.
///
/// See "Encapsulated message format" in the Arrow columnar format. A prefix with the continuation
/// marker and the older one without are both accepted. If the input ends in the first 4 bytes, the
/// result is `Waiting`, and `begun` keeps these bytes. From any device at most the frame's own
/// bytes are read.
///
/// # Errors
/// - `OutOfSpec(NegativeFooterLength)`: the stated length is negative.
/// - `Ended`: the input ends after the first 4 bytes and before the end of the frame.
/// - `Io`, `Memory`.
///
/// After an error `metadata` and `begun` may have any content.
pub fn read_frame<R: Reads>(
    reader: &mut R,
    begun: &mut Begun,
    metadata: &mut Vec<u8>,
) -> Result<Frame, Fault>
    ensures only { IfErr result (λ e. OwnFault e (IsFramingFault e)) }
    ensures gives { FrameGave R.gives (begun_bytes begun.old) reader.old result metadata.new.items
        (begun_bytes begun.new) reader.new }
    ensures answered { IfIo result (IsAnswered R.device) }
{
    let Some(first) = begun.word(reader)? else {
        return Ok(Frame::Waiting);
    };
    if first != CONTINUATION {
        return read_sized(reader, first, metadata);
    }
    let Some(size) = begun.word(reader)? else {
        return Err(Fault::Ended);
    };
    read_sized(reader, size, metadata)
}
