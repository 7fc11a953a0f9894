use crate::operator::CfOperator;
use crate::threshold::{Cfvo, ColorThreshold, IconThreshold};
use base_shared::Shared;
use base_styles::{Color, Style};
use base_values::{Exact, Items};
use formula_tree::Node;

/// What a conditional rule shows, and of which cells.
#[derive(Clone, PartialEq, Eq, Drop)]
pub enum CfRule {
    /// A style, where a formula holds.
    Formula {
        formula: Shared<Node>,
        /// The style of the cells of which it holds.
        style: Shared<Style>,
        /// Whether rules of greater priority are left out where this one shows its style.
        stop_if_true: bool,
    },
    /// A style, where the cell's value compares so with that of a formula, or of two.
    CellIs {
        operator: CfOperator,
        /// The formula that the value is compared with, or the first of two.
        formula: Shared<Node>,
        /// The second formula of an operator that has two.
        formula2: Option<Shared<Node>>,
        /// The style of the cells of which it holds.
        style: Shared<Style>,
        /// Whether rules of greater priority are left out where this one shows its style.
        stop_if_true: bool,
    },
    /// A colour between those of the thresholds.
    ColorScale {
        thresholds: Items<ColorThreshold>,
    },
    /// A bar whose length shows the value.
    DataBar {
        /// Where a bar has no length. `None` where the program that shows it decides.
        min: Option<Cfvo>,
        /// Where a bar is as long as its cell is wide.
        max: Option<Cfvo>,
        positive_color: Color,
        negative_color: Color,
        is_gradient: bool,
        /// Whether the value is shown beside the bar.
        show_value: bool,
    },
    /// One icon of a set, by the thresholds that the value reaches.
    IconSet {
        /// The number of the set.
        icons: u8,
        thresholds: Items<IconThreshold>,
        show_value: bool,
    },
    /// One icon as many times as there are thresholds that the value reaches.
    IconRating {
        /// The number of the icon.
        icon: u8,
        color: Color,
        thresholds: Items<IconThreshold>,
        show_value: bool,
    },
}

impl Exact for CfRule {
    ghost use Rattle.std.proofs.Common.{rules};
    ghost use Rattle.format_rules.specs.laws.RuleEquals.{rule_equals};

    ghost copies = { λ a b h. Prim.search rules };

    ghost equals = { rule_equals };
}
