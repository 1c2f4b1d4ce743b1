//! The column types that this program supports.
//!
//! Arrow columnar format, "Data Types" and "Buffer Listing for Each Layout".
ghost use Rattle.std.specs.Prelude.{◌≡◌, ◌<◌, ◌^◌};
ghost use Rattle.ipc_model.specs.Kinds.{nodes, buffers};
ghost use Rattle.ipc_reference.specs.PlainKinds.{kind_view};

use lower::datatypes::IntegerType;

/// The layout of a column.
#[derive(Debug, Drop)]
pub enum PlainKind {
    /// Integers of up to 64 bits.
    Int(IntegerType),
    /// Texts, with offsets of 32 bits.
    Utf8,
    /// Lists, with offsets of 32 bits.
    List(Box<PlainKind>),
    /// Structs: one slot of each child.
    Struct(Vec<PlainKind>),
}

/// How many nodes a column has.
#[tactic(auto, using(crate::proofs::Views::kinds, crate::proofs::Views::lefts))]
pub fn node_count(kind: &PlainKind) -> usize
    requires { nodes (kind_view kind.now) < 2 ^ 64 }
    ensures { result ≡ nodes (kind_view kind.now) }
{
    match kind {
        PlainKind::Int(_) | PlainKind::Utf8 => 1,
        PlainKind::List(item) => 1 + node_count(item),
        PlainKind::Struct(fields) => {
            let mut count = 1;
            for field in fields {
                count += node_count(field);
            }
            count
        }
    }
}

/// How many buffers a column has.
///
/// `extra`, by the version of the metadata, isn't used: it only matters for unions.
#[tactic(auto, using(crate::proofs::Views::kinds, crate::proofs::Views::lefts))]
pub fn buffer_count(kind: &PlainKind, extra: usize) -> usize
    requires { buffers extra (kind_view kind.now) < 2 ^ 64 }
    ensures { result ≡ buffers extra (kind_view kind.now) }
{
    match kind {
        PlainKind::Int(_) => 2,
        PlainKind::Utf8 => 3,
        PlainKind::List(item) => 2 + buffer_count(item, extra),
        PlainKind::Struct(fields) => {
            let mut count = 1;
            for field in fields {
                count += buffer_count(field, extra);
            }
            count
        }
    }
}
