//! The example of the programs, two columns of two rows, and helpers of many tests.

use crate::trace::Answer;
use ipc_base::chunk::Chunk;
use ipc_devices::Fault;
use lower::datatypes::{DataType, Field, Schema};
use lower_arrays::array::{AnyArray, Int32Array};
use std::alloc::Global;

/// The schema and the chunk of the example.
///
/// It has the columns `x` and `y` of 32-bit numbers, of two rows.
#[derive(Drop)]
pub struct Example {
    pub schema: Schema,
    pub chunk: Chunk<AnyArray>,
}

impl Example {
    /// Whether a chunk is the example's.
    pub fn answer(&self, chunk: &Chunk<AnyArray>) -> Answer {
        if *chunk == self.chunk {
            Answer::Example
        } else {
            Answer::OtherChunk
        }
    }
}

/// Makes the schema and the chunk.
pub fn make_example(alloc: Global) -> Result<Example, Fault> {
    Ok(Example {
        schema: schema(alloc)?,
        chunk: chunk(alloc)?,
    })
}

fn schema(alloc: Global) -> Result<Schema, Fault> {
    let x = Field::new("x".to_string(alloc)?, DataType::Int32, false);
    let y = Field::new("y".to_string(alloc)?, DataType::Int32, false);
    Ok(Schema::from(vec![in alloc; x, y]?))
}

fn chunk(alloc: Global) -> Result<Chunk<AnyArray>, Fault> {
    let x = int32(alloc, &[-1, 1])?;
    let y = int32(alloc, &[1, -1])?;
    Chunk::try_new(vec![in alloc; x, y]?)
}

/// A column of 32-bit numbers.
pub fn int32(alloc: Global, numbers: &[i32]) -> Result<AnyArray, Fault> {
    Ok(AnyArray::from(Int32Array::from_slice(alloc, numbers)?))
}

/// An empty vector with room for the bytes of any test.
///
/// A device on it never grows. A refused allocation is tried again.
pub fn empty_buffer(alloc: Global) -> Result<Vec<u8>, Fault> {
    match Vec::with_capacity(alloc, 8192) {
        Ok(bytes) => Ok(bytes),
        Err(_) => Ok(Vec::with_capacity(alloc, 8192)?),
    }
}

/// A copy of these bytes, with the same room.
pub fn buffer_of(alloc: Global, bytes: &[u8]) -> Result<Vec<u8>, Fault> {
    let mut copy = empty_buffer(alloc)?;
    copy.extend_from_slice(bytes)?;
    Ok(copy)
}

/// The error of a call, if it returned one. `Fault::Memory` is returned as an error instead.
pub fn error_of<X: Drop>(outcome: Result<X, Fault>) -> Result<Option<Fault>, Fault> {
    match outcome {
        Ok(_) => Ok(None),
        Err(Fault::Memory) => Err(Fault::Memory),
        Err(fault) => Ok(Some(fault)),
    }
}
