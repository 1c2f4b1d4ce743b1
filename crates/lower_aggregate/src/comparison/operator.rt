//! Comparisons of two values.
ghost use Rattle.std.specs.Prelude.{◌≡◌};
ghost use Rattle.lower_aggregate.specs.Compared.{passes};

use std::cmp::Ordering;

/// A comparison of two values.
#[derive(Debug, Clone, Copy, PartialEq, Eq)]
pub(crate) enum Operator {
    Eq,
    Neq,
    Lt,
    LtEq,
    Gt,
    GtEq,
}

impl Operator {
    /// Returns whether two values in this order pass.
    pub(crate) fn passes(self, order: Ordering) -> bool
        ensures { result ≡ passes self order }
    {
        match self {
            Operator::Eq => order.is_eq(),
            Operator::Neq => order.is_ne(),
            Operator::Lt => order.is_lt(),
            Operator::LtEq => order.is_le(),
            Operator::Gt => order.is_gt(),
            Operator::GtEq => order.is_ge(),
        }
    }
}
