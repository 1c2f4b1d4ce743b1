//! The children of an array, of which the rules need types and lengths.
ghost use Rattle.std.specs.Prelude.{◌≡◌, ℕ, ◌↔◌, map, IsTrue};
ghost use Rattle.std.specs.List.{All};
ghost use Rattle.lower.specs.TypeTrees.{TypeTree};
ghost use Rattle.lower.specs.TypeViews.{type_view, fields_view};
ghost use Rattle.lower_validation.specs.Fields.{FieldTypes};
ghost use Rattle.lower_validation.specs.Places.{AllAre};

use crate::fields::has_type;
use lower::datatypes::{DataType, Field};

/// An array as the child of another.
pub trait Child: Drop {
    // The data type.
    ghost child_type: { Self → TypeTree };

    // The number of slots.
    ghost child_len: { Self → ℕ };

    // What is true of each such array.
    ghost is_child: { Self → Type 0 };

    /// Returns the data type.
    fn data_type(&self) -> &DataType
        ensures tree { type_view result.now ≡ child_type self.now }
        ensures valid { is_child self.now };

    /// Returns the number of slots.
    fn len(&self) -> usize
        ensures len { result ≡ child_len self.now }
        ensures valid { is_child self.now };
}

/// Returns whether there is one child for each field, of the field's type.
pub fn have_types<C: Child>(fields: &[Field], children: &[C]) -> bool
    ensures same { IsTrue result ↔ FieldTypes (fields_view fields.now) (map C.child_type children.now) }
    ensures valid { IsTrue result → All C.is_child children.now }
{
    if fields.len() != children.len() {
        return false;
    }
    for i in 0..fields.len() {
        if !has_type(&fields[i], children[i].data_type()) {
            return false;
        }
    }
    true
}

/// Returns whether each child has `len` slots.
#[tactic(auto, using(crate::proofs::ChildSteps::one_more))]
pub fn have_len<C: Child>(children: &[C], len: usize) -> bool
    ensures { IsTrue result ↔ AllAre len (map C.child_len children.now) }
{
    for child in children {
        if child.len() != len {
            return false;
        }
    }
    true
}
