use crate::rule::CfRule;
use base_axis::MergedCell;
use base_values::{Exact, Items};

/// A conditional rule: what it shows, and the places that it stands on.
#[derive(Clone, PartialEq, Eq, Drop)]
pub struct ConditionalFormatting {
    /// Rectangles of the sheet, at least one. The rule's formulas stand at the first place of the
    /// first one.
    pub parts: Items<MergedCell>,
    /// What it shows, and of which cells.
    pub rule: CfRule,
    /// Of several rules on a place the one of the least priority comes first.
    pub priority: u32,
}

impl Exact for ConditionalFormatting {
    ghost use Rattle.std.proofs.Common.{rules};
    ghost use Rattle.format_rules.specs.laws.RuleEquals.{formatting_equals};

    ghost copies = { λ a b h. Prim.search rules };

    ghost equals = { formatting_equals };
}
