use base_decimal::Decimal;
use base_shared::Shared;
use base_tables::Error;
use base_values::{Exact, Text};
use formula_tree::Node;

/// What a cell holds.
#[derive(Clone, PartialEq, Eq, Drop)]
pub enum Content {
    Empty,
    Number(Decimal),
    Boolean(bool),
    Error(Error),
    Text(Text),
    /// A formula.
    Formula(Shared<Node>),
    /// A formula whose value may spill over the cells around.
    Dynamic(Shared<Node>),
    /// A formula whose values fill a rectangle from the cell on: so many columns wide and rows high.
    Array {
        tree: Shared<Node>,
        width: i32,
        height: i32,
    },
}

impl Exact for Content {
    ghost use Rattle.std.proofs.Common.{rules};
    ghost use Rattle.cell_content.specs.laws.ContentEquals.{content_equals};

    ghost copies = { λ a b h. Prim.search rules };

    ghost equals = { content_equals };
}
