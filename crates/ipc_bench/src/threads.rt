//! Columns, and readers and writers in memory, may be sent to other threads and shared with them.
//!
//! No thread is started: each call here is refused unless its type is `Send` and `Sync`.

use arrow2_ipc::array::{
    AnyArray, BinaryArray, DictionaryArray, DictionaryKeys, PrimitiveArray, StructArray, Utf8Array,
};
use arrow2_ipc::bitmap::Bitmap;
use arrow2_ipc::buffer::Buffer;
use arrow2_ipc::chunk::Chunk;
use arrow2_ipc::datatypes::Schema;
use arrow2_ipc::io::ipc::fault::MemFile;
use arrow2_ipc::io::ipc::read::{
    Dictionaries, FileMetadata, FileReader, StreamMetadata, StreamReader, StreamState,
};
use arrow2_ipc::io::ipc::write::{DictionaryTracker, FileWriter, StreamWriter};
use arrow2_ipc::offset::OffsetsBuffer;
use arrow2_ipc::types::i256;
use std::sync::Arc;

fn crosses<T: Send + Sync>() {}

#[test]
fn columns_cross_threads() {
    crosses::<Buffer<u8>>();
    crosses::<Buffer<i256>>();
    crosses::<Bitmap>();
    crosses::<OffsetsBuffer<i64>>();
    crosses::<PrimitiveArray<i32>>();
    crosses::<BinaryArray<i32>>();
    crosses::<Utf8Array<i64>>();
    crosses::<StructArray>();
    crosses::<DictionaryKeys>();
    crosses::<DictionaryArray>();
    crosses::<Arc<AnyArray>>();
    crosses::<Chunk<AnyArray>>();
    crosses::<Schema>();
}

#[test]
fn readers_cross_threads() {
    crosses::<StreamMetadata>();
    crosses::<StreamReader<MemFile<Vec<u8>>>>();
    crosses::<StreamReader<MemFile<Buffer<u8>>>>();
    crosses::<StreamState>();
    crosses::<FileMetadata>();
    crosses::<FileReader<MemFile<Vec<u8>>>>();
    crosses::<Dictionaries>();
}

#[test]
fn writers_cross_threads() {
    crosses::<StreamWriter<Vec<u8>>>();
    crosses::<FileWriter<MemFile<Vec<u8>>>>();
    crosses::<DictionaryTracker>();
}
