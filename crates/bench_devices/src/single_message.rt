//! Reads the batch of one message by the public calls.

use ipc_base::chunk::Chunk;
use ipc_base::ipc::IpcSchema;
use ipc_devices::{Fault, OutOfSpecKind, Reads, Seeks};
use ipc_read::read::Dictionaries;
use ipc_read::read::common::read_record_batch;
use ipc_read::read::dictionaries::read_dictionary;
use ipc_table_views::{
    DictionaryBatchRef, MessageHeaderRef, MessageRef, MetadataVersion, RecordBatchRef,
};
use lower::datatypes::Field;
use lower_arrays::array::AnyArray;
use std::alloc::Global;

fn header_of(message: &[u8]) -> Result<MessageHeaderRef<'_>, Fault> {
    let message = match MessageRef::read_as_root(message) {
        Ok(message) => message,
        Err(e) => return Err(Fault::OutOfSpec(OutOfSpecKind::InvalidFlatbufferMessage(e))),
    };
    match message.header() {
        Ok(Some(header)) => Ok(header),
        _ => Err(Fault::OutOfSpec(OutOfSpecKind::MissingMessageHeader)),
    }
}

/// The batch of a record batch message.
pub fn record_batch_of(message: &[u8]) -> Result<RecordBatchRef<'_>, Fault> {
    match header_of(message)? {
        MessageHeaderRef::RecordBatch(batch) => Ok(batch),
        _ => Err(Fault::OutOfSpec(OutOfSpecKind::MissingMessageHeader)),
    }
}

/// The batch of a dictionary batch message.
pub fn dictionary_batch_of(message: &[u8]) -> Result<DictionaryBatchRef<'_>, Fault> {
    match header_of(message)? {
        MessageHeaderRef::DictionaryBatch(batch) => Ok(batch),
        _ => Err(Fault::OutOfSpec(OutOfSpecKind::MissingMessageHeader)),
    }
}

/// The metadata of a message whose body is on a device.
#[derive(Clone, Copy)]
pub struct MessageOnDevice<'a> {
    pub message: &'a [u8],
    /// The offset of the body in the device.
    pub body: u64,
    /// The length of the device, in bytes.
    pub length: u64,
}

/// Reads the values of a dictionary message into these dictionaries.
pub fn read_values<R: Reads + Seeks>(
    alloc: Global,
    message: MessageOnDevice<'_>,
    fields: &[Field],
    ids: &IpcSchema,
    dictionaries: &mut Dictionaries,
    device: &mut R,
) -> Result<(), Fault> {
    read_dictionary(
        alloc,
        dictionary_batch_of(message.message)?,
        fields,
        ids,
        dictionaries,
        MetadataVersion::V5,
        device,
        message.body,
        message.length,
        &mut Vec::new(alloc),
    )
}

/// Reads all columns of a record batch message.
pub fn read_columns<R: Reads + Seeks>(
    alloc: Global,
    message: MessageOnDevice<'_>,
    fields: &[Field],
    ids: &IpcSchema,
    dictionaries: &Dictionaries,
    device: &mut R,
) -> Result<Chunk<AnyArray>, Fault> {
    read_record_batch(
        alloc,
        record_batch_of(message.message)?,
        fields,
        ids,
        None,
        None,
        dictionaries,
        MetadataVersion::V5,
        device,
        message.body,
        message.length,
        &mut Vec::new(alloc),
    )
}
