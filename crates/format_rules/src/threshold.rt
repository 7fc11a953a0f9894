use base_decimal::Decimal;
use base_shared::Shared;
use base_styles::Color;
use base_values::Exact;
use formula_tree::Node;

/// The value at which a threshold of a rule stands.
#[derive(Clone, PartialEq, Eq, Drop)]
pub enum Cfvo {
    /// The least value of the rule's cells.
    Min,
    /// The greatest one.
    Max,
    Number(Decimal),
    /// A percentage of the way from the least value to the greatest.
    Percent(Decimal),
    /// The value that a percentage of the cells do not exceed.
    Percentile(Decimal),
    /// The value of a formula.
    Formula(Shared<Node>),
}

impl Exact for Cfvo {
    ghost use Rattle.std.proofs.Common.{rules};
    ghost use Rattle.format_rules.specs.laws.ThresholdEquals.{cfvo_equals};

    ghost copies = { λ a b h. Prim.search rules };

    ghost equals = { cfvo_equals };
}

/// A threshold of a scale of colours.
#[derive(Clone, PartialEq, Eq, Drop)]
pub struct ColorThreshold {
    pub cfvo: Cfvo,
    /// The colour of cells whose value is that of the threshold.
    pub color: Color,
}

impl Exact for ColorThreshold {
    ghost use Rattle.std.proofs.Common.{rules};
    ghost use Rattle.format_rules.specs.laws.ThresholdEquals.{color_threshold_equals};

    ghost copies = { λ a b h. Prim.search rules };

    ghost equals = { color_threshold_equals };
}

/// A threshold from which on a cell shows another icon.
#[derive(Clone, PartialEq, Eq, Drop)]
pub struct IconThreshold {
    pub cfvo: Cfvo,
    /// Whether a value has to exceed it.
    pub strict: bool,
}

impl Exact for IconThreshold {
    ghost use Rattle.std.proofs.Common.{rules};
    ghost use Rattle.format_rules.specs.laws.ThresholdEquals.{icon_threshold_equals};

    ghost copies = { λ a b h. Prim.search rules };

    ghost equals = { icon_threshold_equals };
}
