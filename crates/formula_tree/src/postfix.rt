ghost use Rattle.std.specs.Prelude.{◌≡◌};
ghost use Rattle.formula_tree.specs.Levels.{postfix_level, postfix_node};

use crate::{Node, UnaryKind};
use base_shared::Shared;

/// An operator behind its operand.
#[derive(Clone, Copy)]
pub enum Postfix {
    /// `%`
    Percent,
    /// `#`
    Spill,
}

impl Postfix {
    /// How tightly it binds: 1 is the loosest level, 10 the tightest.
    pub fn level(self) -> u8
        ensures { result ≡ postfix_level self }
    {
        match self {
            Postfix::Percent => 7,
            Postfix::Spill => 10,
        }
    }

    /// What it makes of its operand.
    pub fn node(self, operand: Shared<Node>) -> Node
        ensures { result ≡ postfix_node self operand }
    {
        match self {
            Postfix::Percent => Node::Unary(UnaryKind::Percent, operand),
            Postfix::Spill => Node::Spill(operand),
        }
    }
}
