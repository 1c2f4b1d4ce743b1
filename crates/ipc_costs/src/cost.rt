//! The cost of reading a schema or a footer, counted without copying.
//!
//! Arrow columnar format, "Schema message" and "IPC File Format". Tables may share texts, key-value
//! pairs and other tables. So the schema that is read can be far larger than its message or its
//! footer.
ghost use Rattle.std.specs.Prelude.{◌≡◌, ◌<◌, ◌≤◌, IfSome, Some};
ghost use Rattle.lower.specs.Normal.{is_extension_key};
ghost use Rattle.ipc_table_views.specs.SchemaSlots.{key_value_key};
ghost use Rattle.ipc_table_views.specs.Tables.{table_in, texts};
ghost use Rattle.ipc_table_views.specs.Unions.{type_parts};
ghost use Rattle.ipc_model.specs.Schemas.{present, schema_of};
ghost use Rattle.ipc_model.specs.Visits.{visits};
ghost use Rattle.ipc_costs.specs.Costs.{IsCostWithin, Leaves, children_read, field_cost, footer_cost, footer_table_cost, is_extension, own_cost, pair_cost, schema_cost, schema_table_cost, table_cost, tables_cost, type_cost, typed_cost, vector_cost};
ghost use Rattle.ipc_costs.specs.Sizes.{OfMetadata, metadata_size, schema_size, text_size};

use ipc_devices::fault::TableFault;
use ipc_table_views::{
    FieldRef, FieldTable, FooterRef, KeyValueRef, KeyValueTable, MessageHeaderRef, MessageRef,
    SchemaRef, Tables, TypeRef, UnionRef,
};

/// The greatest depth of fields that is counted.
const MAX_LEVELS: u64 = 64;

// Each private function but three takes an amount, and returns what is left of it after a cost, or
// None if the cost is greater. So no sum overflows, and no table is opened after the limit is used
// up.

fn text_left(text: Result<Option<&str>, TableFault>, left: u64) -> Option<u64>
    ensures { Leaves left (text_size (present (texts text.entry))) result }
{
    match text {
        Ok(Some(text)) => left.checked_sub(text.len() as u64),
        Ok(None) => Some(left),
        Err(_) => Some(left),
    }
}

const NAME_KEY: &str = "ARROW:extension:name";

const DATA_KEY: &str = "ARROW:extension:metadata";

fn is_extension_key(key: &str) -> bool
    ensures { result ≡ is_extension_key key.now }
{
    NAME_KEY.cmp(key).is_eq() || DATA_KEY.cmp(key).is_eq()
}

// Whether the key of a pair is one of extensions.
fn is_extension(pair: &KeyValueRef<'_>) -> bool
    ensures { result ≡ is_extension (present (key_value_key pair.now)) }
{
    match pair.key() {
        Ok(Some(key)) => is_extension_key(key),
        Ok(None) => false,
        Err(_) => false,
    }
}

fn pair_left(pair: &KeyValueRef<'_>, left: u64) -> Option<u64>
    ensures { Leaves left (pair_cost pair.now) result }
{
    let left = text_left(pair.key(), left)?;
    let left = text_left(pair.value(), left)?;
    if is_extension(pair) {
        text_left(pair.value(), left)
    } else {
        Some(left)
    }
}

// The pair at an index of a vector, whose table is opened here.
fn pair_table_left(tables: &Tables<'_, KeyValueTable>, index: usize, left: u64) -> Option<u64>
    requires { index < tables.now.count }
    ensures { Leaves left (table_cost pair_cost (table_in tables.now index)) result }
{
    let left = left.checked_sub(1)?;
    match tables.get(index) {
        Ok(pair) => pair_left(&pair, left),
        Err(_) => Some(left),
    }
}

#[tactic(auto, using(crate::proofs::Steps::costs))]
fn pairs_left(tables: &Tables<'_, KeyValueTable>, left: u64) -> Option<u64>
    ensures { Leaves left (tables_cost pair_cost tables.now 0 tables.now.count) result }
{
    let mut left = left;
    for i in 0..tables.len() {
        left = pair_table_left(tables, i, left)?;
    }
    Some(left)
}

// The pairs of a vector that may be absent.
fn optional_pairs_left(
    pairs: Result<Option<Tables<'_, KeyValueTable>>, TableFault>,
    left: u64,
) -> Option<u64>
    ensures { Leaves left (vector_cost pair_cost (present pairs.entry)) result }
{
    match pairs {
        Ok(Some(tables)) => pairs_left(&tables, left),
        Ok(None) => Some(left),
        Err(_) => Some(left),
    }
}

// The name and the pairs of a field.
fn own_left(field: &FieldRef<'_>, left: u64) -> Option<u64>
    ensures { Leaves left (own_cost field.now) result }
{
    let left = text_left(field.name(), left)?;
    optional_pairs_left(field.custom_metadata(), left)
}

fn ids_left(union: &UnionRef<'_>, left: u64) -> Option<u64>
    ensures { Leaves left (type_cost (14, union.now)) result }
{
    match union.type_ids() {
        Ok(Some(ids)) => left.checked_sub(ids.len() as u64),
        Ok(None) => Some(left),
        Err(_) => Some(left),
    }
}

// What is copied of a type itself.
fn type_left(type_: &TypeRef<'_>, left: u64) -> Option<u64>
    ensures { Leaves left (type_cost (type_parts type_.now)) result }
{
    match type_ {
        TypeRef::Timestamp(timestamp) => text_left(timestamp.timezone(), left),
        TypeRef::Union(union) => ids_left(union, left),
        _ => Some(left),
    }
}

// The number of children that are read of a field of a type.
fn children_read(type_: &TypeRef<'_>, count: usize) -> usize
    ensures value { result ≡ children_read (type_parts type_.now).0 count }
    ensures within { result ≤ count }
{
    match type_ {
        TypeRef::List(_) => count.min(1),
        TypeRef::LargeList(_) => count.min(1),
        TypeRef::FixedSizeList(_) => count.min(1),
        TypeRef::Map(_) => count.min(1),
        TypeRef::Struct(_) => count,
        TypeRef::Union(_) => count,
        _ => 0,
    }
}

// A field, down to so many levels.
#[cycle(fields)]
#[tactic(auto, using(crate::proofs::Steps::levels))]
fn field_left(field: &FieldRef<'_>, levels: u64, left: u64) -> Option<u64>
    ensures { Leaves left (field_cost levels field.now) result }
{
    if levels == 0 {
        return Some(left);
    }
    let left = own_left(field, left)?;
    match field.type_() {
        Ok(Some(type_)) => typed_left(field, &type_, levels - 1, left),
        Ok(None) => Some(left),
        Err(_) => Some(left),
    }
}

// The type of a field, and the children that are read.
#[cycle(fields)]
fn typed_left(field: &FieldRef<'_>, type_: &TypeRef<'_>, levels: u64, left: u64) -> Option<u64>
    ensures { Leaves left (typed_cost (λ s. field_cost levels s) field.now
        (Some (type_parts type_.now))) result }
{
    let left = type_left(type_, left)?;
    match field.children() {
        Ok(Some(tables)) => {
            let count = children_read(type_, tables.len());
            fields_left(&tables, count, levels, left)
        }
        Ok(None) => Some(left),
        Err(_) => Some(left),
    }
}

// The first fields of a vector.
#[cycle(fields)]
#[tactic(auto, using(crate::proofs::Steps::costs))]
fn fields_left(tables: &Tables<'_, FieldTable>, count: usize, levels: u64, left: u64) -> Option<u64>
    requires { count ≤ tables.now.count }
    ensures { Leaves left (tables_cost (λ s. field_cost levels s) tables.now 0 count) result }
{
    let mut left = left;
    for i in 0..count {
        left = field_table_left(tables, i, levels, left)?;
    }
    Some(left)
}

// The field at an index of a vector, whose table is opened here.
#[cycle(fields)]
fn field_table_left(
    tables: &Tables<'_, FieldTable>,
    index: usize,
    levels: u64,
    left: u64,
) -> Option<u64>
    requires { index < tables.now.count }
    ensures { Leaves left
        (table_cost (λ s. field_cost levels s) (table_in tables.now index)) result }
{
    let left = left.checked_sub(1)?;
    match tables.get(index) {
        Ok(table) => field_left(&table, levels, left),
        Err(_) => Some(left),
    }
}

fn schema_left(schema: &SchemaRef<'_>, left: u64) -> Option<u64>
    ensures { Leaves left (schema_table_cost schema.now) result }
{
    let left = optional_pairs_left(schema.custom_metadata(), left)?;
    match schema.fields() {
        Ok(Some(tables)) => fields_left(&tables, tables.len(), MAX_LEVELS, left),
        Ok(None) => Some(left),
        Err(_) => Some(left),
    }
}

#[tactic(auto, unfolding(crate::specs::Costs::schema_cost))]
fn message_left(message: &[u8], left: u64) -> Option<u64>
    ensures { Leaves left (schema_cost message.now) result }
{
    let Ok(root) = MessageRef::read_as_root(message) else {
        return Some(left);
    };
    match root.header() {
        Ok(Some(MessageHeaderRef::Schema(schema))) => schema_left(&schema, left),
        _ => Some(left),
    }
}

/// Returns the cost of reading the schema of a message, if within `limit`.
///
/// It is `None` if the cost is above `limit`. The cost is the sum of these:
///
/// - 1 for each table of a field or of a key-value pair that is opened.
/// - 1 for each type id of a union's children.
/// - The length in bytes of each text; twice that of a value under one of the two extension keys.
///
/// A table or a text that others share counts each time, since it is copied each time. A message
/// without a schema costs nothing, and neither does a malformed part of one.
///
/// It allocates nothing, opens at most `limit` tables of fields and pairs, and stops at the first
/// text that exceeds the limit. So the limit bounds its time too: choose it in proportion to the
/// length of the message.
#[tactic(auto, using(crate::proofs::Bounds::bounds))]
pub fn schema_cost(message: &[u8], limit: u64) -> Option<u64>
    ensures exact { IsCostWithin limit (schema_cost message.now) result }
    ensures visits { IfSome (schema_of message.now)
        (λ schema. visits schema ≤ schema_cost message.now) }
    ensures size { IfSome (schema_of message.now)
        (λ schema. schema_size schema ≤ schema_cost message.now) }
{
    let left = message_left(message, limit)?;
    Some(limit - left)
}

fn footer_table_left(footer: &FooterRef<'_>, left: u64) -> Option<u64>
    ensures { Leaves left (footer_table_cost footer.now) result }
{
    let left = optional_pairs_left(footer.custom_metadata(), left)?;
    match footer.schema() {
        Ok(Some(schema)) => schema_left(&schema, left),
        Ok(None) => Some(left),
        Err(_) => Some(left),
    }
}

#[tactic(auto, unfolding(crate::specs::Costs::footer_cost))]
fn footer_left(footer: &[u8], left: u64) -> Option<u64>
    ensures { Leaves left (footer_cost footer.now) result }
{
    match FooterRef::read_as_root(footer) {
        Ok(table) => footer_table_left(&table, left),
        Err(_) => Some(left),
    }
}

/// Returns the cost of reading the schema and the metadata of a file's footer.
///
/// It is `None` if the cost is above `limit`. The schema costs the same as in a message, by
/// [`schema_cost`], and the key-value metadata of the file the same as that of a schema. Blocks
/// cost nothing: a footer has 24 bytes for each. A footer whose root is malformed costs nothing,
/// and neither does a malformed part of one.
///
/// It allocates nothing, and the limit bounds its time, as that of [`schema_cost`].
#[tactic(auto, using(crate::proofs::FooterBounds::footer_bounds))]
pub fn footer_cost(footer: &[u8], limit: u64) -> Option<u64>
    ensures exact { IsCostWithin limit (footer_cost footer.now) result }
    ensures visits { OfMetadata footer.now (λ m. visits m.schema ≤ footer_cost footer.now) }
    ensures size { OfMetadata footer.now (λ m. metadata_size m ≤ footer_cost footer.now) }
{
    let left = footer_left(footer, limit)?;
    Some(limit - left)
}
