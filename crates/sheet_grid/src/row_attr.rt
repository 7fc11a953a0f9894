use base_shared::Shared;
use base_styles::Style;
use base_values::Exact;

/// What a row of a sheet has of its own. docs/MODEL.md has the rules.
#[derive(Clone, Debug, PartialEq, Eq, Drop)]
pub struct RowAttr {
    /// The height in half pixels, where it is not the usual one.
    pub height: Option<i32>,
    /// The style of the cells that have none. The default style counts as one here.
    pub style: Option<Shared<Style>>,
    /// Whether the row is not shown.
    pub hidden: bool,
}

impl Exact for RowAttr {
    ghost use Rattle.std.proofs.Common.{rules};
    ghost use Rattle.sheet_grid.specs.laws.LineEquals.{row_attr_equals};

    ghost copies = { λ a b h. Prim.search rules };

    ghost equals = { row_attr_equals };
}
