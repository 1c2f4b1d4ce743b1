//! The metadata of a file, which are in its footer.
ghost use Rattle.std.specs.Prelude.{◌≡◌, ◌+◌, ◌≤◌, ◌<◌, ◌^◌, take, IsTrue, IfOk, IfErr};
ghost use Rattle.ipc_devices.specs.Acts.{ReadsDevice};
ghost use Rattle.ipc_devices.specs.Device.{after};
ghost use Rattle.ipc_devices.specs.Faults.{OnIo, OwnFault, Answers};
ghost use Rattle.ipc_model.specs.Files.{magic, or_no_blocks};
ghost use Rattle.ipc_files.specs.Api.{CopiesMetadata, ReadsMetadata};
ghost use Rattle.ipc_files.specs.Footers.{optional_blocks};
ghost use Rattle.ipc_files.specs.Files.{BeginningLaw, EndsFault, GivesFooter, HeadFault, HeadReason, ReadsFooter, TailFault, TailReason, GivesTail, footer_length};

use crate::read::file::exact::read_exact;
use crate::read::file::footer::deserialize_footer;
use ipc_base::ipc::IpcSchema;
use ipc_devices::fault::{Fault, Nyi, OutOfSpecKind};
use ipc_devices::{Reads, Seeks, read_bytes};
use ipc_table_views::Block;
use lower::datatypes::clones::clone_metadata;
use lower::datatypes::{Metadata, Schema};
use std::alloc::{AllocError, Global};

// The bytes at both ends of a file.
const ARROW_MAGIC_V2: [u8; 6] = *b"ARROW1";

// The first bytes of a file of the older Feather format.
const ARROW_MAGIC_V1: [u8; 4] = *b"FEA1";

/// The metadata of a file, from its footer, and the size of the file.
#[derive(Debug, Drop)]
pub struct FileMetadata {
    /// The names and types of the columns.
    pub schema: Schema,
    /// The dictionary ids, and the byte order of the bodies.
    pub ipc_schema: IpcSchema,
    /// The blocks of the record batches, with their offsets and lengths in bytes.
    pub blocks: Vec<Block>,
    /// The blocks of the dictionary batches; None if the footer has no vector of them.
    pub(crate) dictionaries: Option<Vec<Block>>,
    /// The size of the file in bytes.
    pub size: u64,
    /// The file's own pairs of texts.
    pub custom_metadata: Metadata,
}

impl FileMetadata {
    /// The blocks of the dictionary batches; none if the footer has no vector of them.
    pub fn dictionary_blocks(&self) -> &[Block]
        ensures { result.now ≡ or_no_blocks (optional_blocks self.now.dictionaries) }
    {
        match &self.dictionaries {
            Some(blocks) => blocks.as_slice(),
            None => &[],
        }
    }

    /// Makes a copy. `AllocError` if an allocation fails.
    pub fn clone(&self) -> Result<FileMetadata, AllocError>
        ensures copy { IfOk result (λ copy. CopiesMetadata self.now copy) }
        ensures dictionaries { IfOk result (λ copy.
            optional_blocks copy.dictionaries ≡ optional_blocks self.now.dictionaries) }
    {
        let dictionaries = match &self.dictionaries {
            Some(blocks) => Some(blocks.clone()?),
            None => None,
        };
        Ok(FileMetadata {
            schema: self.schema.clone()?,
            ipc_schema: self.ipc_schema.clone()?,
            blocks: self.blocks.clone()?,
            dictionaries,
            size: self.size,
            custom_metadata: clone_metadata(&self.custom_metadata)?,
        })
    }
}

/// Theorem: for a file that begins where its device begins, `metadata_from 0` is `metadata_of`.
pub fn files_from_the_beginning()
    ensures { BeginningLaw }
{}

// Checks that a file begins with `ARROW1`.
fn read_head<R: Reads>(reader: &mut R) -> Result<(), Fault>
    ensures only { IfErr result (λ e. OwnFault e (HeadFault e)) }
    ensures device { ReadsDevice R.device reader.old result reader.new }
    ensures given { R.device.given reader.new ≤ R.device.given reader.old + 6 }
    ensures reason { IsTrue R.device.is_memory
        → IfErr result (λ e. OwnFault e (HeadReason (after (R.device.memory reader.old)) e)) }
    ensures memory { IsTrue R.device.is_memory → Answers result
        (take 6 (after (R.device.memory reader.old)) ≡ magic)
        (λ _. Unit {0}) }
{
    let mut head = [0; 6];
    read_exact(reader, &mut head)?;
    if head == ARROW_MAGIC_V2 {
        return Ok(());
    }
    if head.starts_with(&ARROW_MAGIC_V1) {
        return Err(Fault::NotYetImplemented(Nyi::FeatherV1));
    }
    Err(Fault::OutOfSpec(OutOfSpecKind::InvalidHeader))
}

// The length of the footer in bytes, from the last 10 bytes of a file.
#[tactic(auto, unfolding(crate::specs::Files::footer_length))]
fn footer_length(tail: &[u8; 10]) -> Result<u32, Fault>
    ensures value { result ≡ footer_length tail.now }
    ensures short { IfOk result (λ n. n < 2 ^ 31) }
    ensures only { IfErr result (λ e. OwnFault e (TailFault e)) }
    ensures device { OnIo result ⊥ }
{
    if &tail[4..] != &ARROW_MAGIC_V2[..] {
        return Err(Fault::OutOfSpec(OutOfSpecKind::InvalidFooter));
    }
    let mut length = [0; 4];
    length.copy_from_slice(&tail[..4]);
    let length = u32::from_le_bytes(length);
    if length > i32::MAX as u32 {
        return Err(Fault::OutOfSpec(OutOfSpecKind::NegativeFooterLength));
    }
    Ok(length)
}

// The end offset of the file, and the length of its footer in bytes.
fn read_footer_len<R: Reads + Seeks>(reader: &mut R) -> Result<(u64, u32), Fault>
    ensures inside { IfOk result (λ t. t.1 + 10 ≤ t.0) }
    ensures short { IfOk result (λ t. t.1 < 2 ^ 31) }
    ensures only { IfErr result (λ e. OwnFault e (TailFault e)) }
    ensures device { ReadsDevice R.device reader.old result reader.new }
    ensures given { R.device.given reader.new ≤ R.device.given reader.old + 10 }
    ensures reason { IsTrue R.device.is_memory
        → IfErr result (λ e. OwnFault e (TailReason (R.device.memory reader.old).whole e)) }
    ensures memory { IsTrue R.device.is_memory
        → GivesTail (R.device.memory reader.old).whole result }
{
    let end = reader.seek_end()?;
    if end < 10 {
        return Err(Fault::Ended);
    }
    reader.seek_to(end - 10)?;
    let mut tail = [0; 10];
    read_exact(reader, &mut tail)?;
    let length = footer_length(&tail)?;
    if (length as u64) + 10 > end {
        return Err(Fault::Ended);
    }
    Ok((end, length))
}

/// The bytes of a file's footer.
#[derive(Debug, Drop)]
pub struct FileFooter {
    /// The table `Footer` of `File.fbs`.
    pub bytes: Vec<u8>,
    /// The size of the file in bytes.
    pub size: u64,
}

/// Reads the bytes of the footer of a file, which [`deserialize_footer`] takes. The file begins at
/// the reader's position and ends where the device ends; its size is counted from that position.
///
/// Errors, when reading from memory each exactly for its cause:
///
/// - `Ended`: the file is shorter than its head, or the device is shorter than the tail, or than
///   the tail and the footer whose length it states. No memory is taken for such a footer.
/// - `NotYetImplemented(FeatherV1)`, `OutOfSpec(InvalidHeader)`: the file has 6 bytes and begins
///   with `FEA1`, or with anything else but `ARROW1`.
/// - `OutOfSpec(InvalidFooter)`: the device has 10 bytes and doesn't end with `ARROW1`.
/// - `OutOfSpec(NegativeFooterLength)`: the stated length of the footer is below 0.
/// - `Memory`; `Io` exactly if a call of the device failed.
///
/// After an error the reader may be at any position.
pub fn read_footer<R: Reads + Seeks>(alloc: Global, reader: &mut R) -> Result<FileFooter, Fault>
    ensures only { IfErr result (λ e. OwnFault e (EndsFault e)) }
    ensures device { ReadsFooter R.device reader.old result reader.new }
    ensures memory { IsTrue R.device.is_memory →
        GivesFooter (R.device.memory reader.old).place (R.device.memory reader.old).whole result }
{
    let start = reader.position()?;
    read_head(reader)?;
    let (end, length) = read_footer_len(reader)?;
    reader.seek_to(end - 10 - length as u64)?;
    let bytes = read_bytes(alloc, reader, length as usize)?;
    Ok(FileFooter {
        bytes,
        size: end.saturating_sub(start),
    })
}

/// Reads the metadata of a file, from its footer.
///
/// The file begins at the reader's position and ends where the device ends. Its size is counted
/// from that position.
///
/// When reading from memory, it is `Ok` exactly if the metadata are valid (`metadata_from`), unless
/// an allocation fails. On `Ok` and on an error, at most the head, the tail and the footer are
/// read. See "IPC File Format" in the Arrow columnar format.
///
/// # Errors
/// When reading from memory, each comes only for its cause.
///
/// - `Ended`: the file is shorter than its head, or the device is shorter than the tail, or than
///   the tail and the footer whose length it states. No memory is allocated for such a footer.
/// - `NotYetImplemented(FeatherV1)`, `OutOfSpec(InvalidHeader)`: the file has 6 bytes and begins
///   with `FEA1`, or with anything else but `ARROW1`.
/// - `OutOfSpec(InvalidFooter)`: the device has 10 bytes and doesn't end with `ARROW1`.
/// - `OutOfSpec(NegativeFooterLength)`: the stated length of the footer is negative.
/// - Those of [`deserialize_footer`].
/// - `Io` exactly if a call of the device failed; `Memory`.
///
/// After an error the reader may be at any position.
pub fn read_file_metadata<R: Reads + Seeks>(
    alloc: Global,
    reader: &mut R,
) -> Result<FileMetadata, Fault>
    ensures { ReadsMetadata R.device reader.old result reader.new }
{
    let footer = read_footer(alloc, reader)?;
    deserialize_footer(alloc, &footer.bytes, footer.size)
}
