//! Three chunks of one dictionary column.

use crate::trace::Answer;
use ipc_base::chunk::Chunk;
use ipc_devices::Fault;
use lower::datatypes::{DataType, Field, IntegerType, Schema};
use lower_arrays::array::{AnyArray, DictionaryArray, DictionaryKeys, Int32Array};
use std::alloc::Global;
use std::sync::Arc;

/// The schema of the column, and the chunks `a`, `b` and `c`.
#[derive(Drop)]
pub struct DictionaryChunks {
    pub schema: Schema,
    /// The chunks `a`, `b` and `c`.
    ///
    /// `a` and `b` have the dictionary 5, 6, and the keys 1, 0 and 0, 1. `c` has the dictionary 7,
    /// and the keys 0, 0.
    pub chunks: [Chunk<AnyArray>; 3],
}

impl DictionaryChunks {
    /// Which of the three chunks this one is.
    pub fn answer(&self, chunk: &Chunk<AnyArray>) -> Answer {
        let [a, b, c] = &self.chunks;
        if *chunk == *a {
            Answer::A
        } else if *chunk == *b {
            Answer::B
        } else if *chunk == *c {
            Answer::C
        } else {
            Answer::OtherChunk
        }
    }

    /// Which of the three chunks a reader returned, or which error.
    pub fn answer_of(&self, outcome: &Result<Chunk<AnyArray>, Fault>) -> Answer {
        match outcome {
            Ok(chunk) => self.answer(chunk),
            Err(fault) => Answer::of_fault(fault),
        }
    }
}

/// Makes the schema and the three chunks.
pub fn make_dictionary_chunks(alloc: Global) -> Result<DictionaryChunks, Fault> {
    Ok(DictionaryChunks {
        schema: dictionary_schema(alloc)?,
        chunks: three_chunks(alloc)?,
    })
}

fn three_chunks(alloc: Global) -> Result<[Chunk<AnyArray>; 3], Fault> {
    let a = dictionary_chunk(alloc, &[1, 0], &[5, 6])?;
    let b = dictionary_chunk(alloc, &[0, 1], &[5, 6])?;
    let c = dictionary_chunk(alloc, &[0, 0], &[7])?;
    Ok([a, b, c])
}

/// The schema of one such column, which has no name and no nulls.
pub fn dictionary_schema(alloc: Global) -> Result<Schema, Fault> {
    let field = Field::new(String::new(alloc), dictionary_type(alloc)?, false);
    Ok(Schema::from(vec![in alloc; field]?))
}

fn dictionary_type(alloc: Global) -> Result<DataType, Fault> {
    let values = Box::new(alloc, DataType::Int32)?;
    Ok(DataType::Dictionary(IntegerType::Int32, values, false))
}

/// A chunk of one column of these keys into a dictionary of these values.
pub fn dictionary_chunk(
    alloc: Global,
    keys: &[i32],
    values: &[i32],
) -> Result<Chunk<AnyArray>, Fault> {
    let values = AnyArray::from(Int32Array::from_slice(alloc, values)?);
    let keys = DictionaryKeys::Int32(Int32Array::from_slice(alloc, keys)?);
    let column = DictionaryArray::try_new(dictionary_type(alloc)?, keys, Arc::new(alloc, values)?)?;
    Chunk::try_new(vec![in alloc; AnyArray::from(column)]?)
}
