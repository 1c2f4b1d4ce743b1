//! arrow2's `datatypes`: the types of columns, fields and schemas, and calls on schemas.
pub use lower::datatypes::{
    DataType, Field, IntegerType, IntervalUnit, Metadata, NameError, PhysicalType, ProjectError,
    Schema, TimeUnit, UnionMode, columns_named, count_all_buffers, count_all_nodes, count_buffers,
    count_nodes, fields_as_bits, is_dictionary_type, is_same_field, is_same_normal_type,
    is_same_schema, is_same_type, is_within_levels, type_as_bits,
};
