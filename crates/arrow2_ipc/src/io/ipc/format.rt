//! Arrow's metadata tables: views of bytes (`..Ref`), and values that are built into bytes.
pub use ipc_table_views::{
    BinaryRef, Block, Blocks, BodyCompressionRef, BoolRef, Buffer, Buffers, DateRef, DateUnit,
    DecimalRef, DictionaryBatchRef, DictionaryEncodingRef, DurationRef, Endianness, FieldNode,
    FieldRef, FieldTable, FixedSizeBinaryRef, FixedSizeListRef, FloatingPointRef, FooterRef,
    IntRef, IntervalRef, IntervalUnit, KeyValueRef, KeyValueTable, LargeBinaryRef, LargeListRef,
    LargeUtf8Ref, ListRef, MapRef, MessageHeaderRef, MessageRef, MetadataVersion, Nodes, NullRef,
    Precision, RecordBatchRef, SchemaRef, SparseTensorRef, StructRef, TableRef, Tables, TensorRef,
    TimeRef, TimeUnit, TimestampRef, TypeIds, TypeRef, UnionMode, UnionRef, Utf8Ref,
};
pub use ipc_tables::file::Footer;
pub use ipc_tables::message::{
    BodyCompression, BodyCompressionMethod, CompressionType, DictionaryBatch, Message,
    MessageHeader, RecordBatch,
};
pub use ipc_tables::schema::{
    DictionaryEncoding, DictionaryKind, Feature, Field, KeyValue, Schema,
};
pub use ipc_tables::types::{
    Date, Decimal, Duration, FieldType, FixedSizeBinary, FixedSizeList, FloatingPoint, Int,
    Interval, Map, Time, Timestamp, Union,
};
