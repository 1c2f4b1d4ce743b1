//! Views of the tables in the metadata of Arrow messages and files.
//!
//! A view is an offset in bytes that may be hostile. An accessor reads one slot. It returns `None`
//! or the default of the format if the slot is absent, and a [`TableFault`] if it is malformed (the
//! doc of [`TableRef`] lists when). No accessor allocates.
#![tactic(auto)]

mod file;
mod message;
mod number;
mod schema;
mod structs;
mod table;
mod types;
mod view;

pub use crate::file::{Block, Blocks, FooterRef, FooterTable};
pub use crate::message::{
    BodyCompressionRef, BodyCompressionTable, DictionaryBatchRef, DictionaryBatchTable, FieldNode,
    MessageHeaderRef, MessageRef, MessageTable, Nodes, RecordBatchRef, RecordBatchTable,
    SparseTensorRef, SparseTensorTable, TensorRef, TensorTable,
};
pub use crate::schema::{
    Buffer, Buffers, DictionaryEncodingRef, DictionaryEncodingTable, Endianness, FieldRef,
    FieldTable, KeyValueRef, KeyValueTable, MetadataVersion, SchemaRef, SchemaTable,
};
pub use crate::types::{
    BinaryRef, BinaryTable, BoolRef, BoolTable, DateRef, DateTable, DateUnit, DecimalRef,
    DecimalTable, DurationRef, DurationTable, FixedSizeBinaryRef, FixedSizeBinaryTable,
    FixedSizeListRef, FixedSizeListTable, FloatingPointRef, FloatingPointTable, IntRef, IntTable,
    IntervalRef, IntervalTable, IntervalUnit, LargeBinaryRef, LargeBinaryTable, LargeListRef,
    LargeListTable, LargeUtf8Ref, LargeUtf8Table, ListRef, ListTable, MapRef, MapTable, NullRef,
    NullTable, Precision, StructRef, StructTable, TimeRef, TimeTable, TimeUnit, TimestampRef,
    TimestampTable, TypeIds, TypeRef, UnionMode, UnionRef, UnionTable, Utf8Ref, Utf8Table,
};
pub use crate::view::{TableRef, Tables};
pub use ipc_devices::fault::TableFault;
