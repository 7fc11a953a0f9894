ghost use Rattle.std.specs.Prelude.{◌≡◌, ◌≤◌};
ghost use Rattle.formula_tree.specs.Levels.{infix_level, infix_node};

use crate::{CompareKind, Node, ProductKind, SumKind};
use base_shared::Shared;

/// An operator between two operands.
#[derive(Clone, Copy)]
pub enum Infix {
    Compare(CompareKind),
    /// `&`
    Concatenate,
    Sum(SumKind),
    Product(ProductKind),
    /// `^`
    Power,
    /// `:`
    Colon,
}

impl Infix {
    /// How tightly it binds: 1 is the loosest level, 10 the tightest.
    pub fn level(self) -> u8
        ensures level { result ≡ infix_level self }
        ensures most { result ≤ 10 }
    {
        match self {
            Infix::Compare(_) => 1,
            Infix::Concatenate => 2,
            Infix::Sum(_) => 3,
            Infix::Product(_) => 4,
            Infix::Power => 5,
            Infix::Colon => 9,
        }
    }

    /// What it makes of its operands.
    pub fn node(self, left: Shared<Node>, right: Shared<Node>) -> Node
        ensures { result ≡ infix_node self left right }
    {
        match self {
            Infix::Compare(kind) => Node::Compare(kind, left, right),
            Infix::Concatenate => Node::Concatenate(left, right),
            Infix::Sum(kind) => Node::Sum(kind, left, right),
            Infix::Product(kind) => Node::Product(kind, left, right),
            Infix::Power => Node::Power(left, right),
            Infix::Colon => Node::Colon(left, right),
        }
    }
}
