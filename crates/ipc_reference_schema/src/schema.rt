//! Reads schema messages.
//!
//! Arrow columnar format, "Schema message".
ghost use Rattle.std.specs.Prelude.{◌≡◌, IfOk};
ghost use Rattle.ipc_model.specs.Schemas;
ghost use Rattle.ipc_reference_schema.specs.PlainSchemas.{FindsPlainly};

use crate::field::fields_from;
use crate::metadata::pairs_of_schema;
use crate::types::PlainSchema;
use ipc_table_views::{Endianness as Order, MessageHeaderRef, MessageRef, SchemaRef};
use lower_types::Endianness;
use std::alloc::{AllocError, Global};

/// What a message means, as far as this program supports it.
#[derive(Debug, Drop, PartialEq, Eq)]
pub enum PlainAnswer {
    /// It isn't a valid schema message.
    NoSchema,
    /// It is a schema with a type other than integers, texts, lists and structs.
    Other,
    /// It is this schema.
    Plain(PlainSchema),
}

/// The most levels of fields.
const MOST_LEVELS: usize = 64;

fn order_of(order: Order) -> Endianness
    ensures { result ≡ Schemas.order_of order }
{
    match order {
        Order::Little => Endianness::Little,
        Order::Big => Endianness::Big,
    }
}

// The schema in a table. Its fields may be no more than its message has bytes.
#[tactic(auto, unfolding(ipc_model::specs::Schemas::schema_at))]
fn schema_at(
    alloc: Global,
    schema: &SchemaRef<'_>,
    message: &[u8],
) -> Result<PlainAnswer, AllocError>
    requires { message.now ≡ schema.now.message }
    ensures { IfOk result (λ answer. FindsPlainly answer (Schemas.schema_at schema.now)) }
{
    let Ok(order) = schema.endianness() else {
        return Ok(PlainAnswer::NoSchema);
    };
    let Some(metadata) = pairs_of_schema(alloc, schema)? else {
        return Ok(PlainAnswer::NoSchema);
    };
    let Ok(Some(tables)) = schema.fields() else {
        return Ok(PlainAnswer::NoSchema);
    };
    let Some(seen) = fields_from(alloc, &tables, MOST_LEVELS, message.len())? else {
        return Ok(PlainAnswer::NoSchema);
    };
    match seen.plain {
        Some(fields) => Ok(PlainAnswer::Plain(PlainSchema {
            fields,
            metadata,
            order: order_of(order),
        })),
        None => Ok(PlainAnswer::Other),
    }
}

/// Reads a schema message, as far as this program supports it.
///
/// - `Plain`: all types are integers, texts, lists and structs, or extension types stored as these.
/// - `Other`: a type is another, such as a dictionary.
/// - `NoSchema`: a table is malformed, or the header is another. Or a field has no name or no type,
///   or a list, map, struct or union has no child. Or a type is an integer, time, size or decimal
///   that doesn't exist. Or there are more than 64 levels, or more fields than the message has
///   bytes.
///
/// `AllocError` if an allocation fails.
#[tactic(auto, unfolding(ipc_model::specs::Schemas::schema_of))]
pub fn plain_schema(alloc: Global, message: &[u8]) -> Result<PlainAnswer, AllocError>
    ensures { IfOk result (λ answer. FindsPlainly answer (Schemas.schema_of message.now)) }
{
    let Ok(root) = MessageRef::read_as_root(message) else {
        return Ok(PlainAnswer::NoSchema);
    };
    match root.header() {
        Ok(Some(MessageHeaderRef::Schema(schema))) => schema_at(alloc, &schema, message),
        _ => Ok(PlainAnswer::NoSchema),
    }
}
