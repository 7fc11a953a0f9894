use crate::color::Color;
use base_values::Exact;

/// How the line of a border is drawn, from the lightest to the heaviest.
#[derive(Clone, Copy, Debug, PartialEq, Eq)]
pub enum BorderStyle {
    Dotted,
    Thin,
    MediumDashDotDot,
    MediumDashDot,
    SlantDashDot,
    MediumDashed,
    Medium,
    Thick,
    Double,
}

impl BorderStyle {
    ghost use Rattle.std.specs.Prelude.{◌≡◌};
    ghost use Rattle.base_styles.specs.Borders.{weight};

    /// How heavy the line is, from 1 for the lightest to 9 for the heaviest.
    pub fn weight(self) -> u8
        ensures { result ≡ weight self }
    {
        match self {
            BorderStyle::Dotted => 1,
            BorderStyle::Thin => 2,
            BorderStyle::MediumDashDotDot => 3,
            BorderStyle::MediumDashDot => 4,
            BorderStyle::SlantDashDot => 5,
            BorderStyle::MediumDashed => 6,
            BorderStyle::Medium => 7,
            BorderStyle::Thick => 8,
            BorderStyle::Double => 9,
        }
    }
}

impl Exact for BorderStyle {
    ghost use Rattle.std.proofs.Common.{rules};
    ghost use Rattle.base_styles.specs.laws.BorderEquals.{border_style_equals};

    ghost copies = { λ a b h. Prim.search rules };

    ghost equals = { border_style_equals };
}

/// One side of a cell's border.
#[derive(Clone, Copy, Debug, PartialEq, Eq)]
pub struct BorderItem {
    pub style: BorderStyle,
    pub color: Color,
}

impl Exact for BorderItem {
    ghost use Rattle.std.proofs.Common.{rules};
    ghost use Rattle.base_styles.specs.laws.BorderEquals.{border_item_equals};

    ghost copies = { λ a b h. Prim.search rules };

    ghost equals = { border_item_equals };
}

/// The border of a cell.
#[derive(Clone, Copy, Debug, PartialEq, Eq)]
pub struct Border {
    pub left: Option<BorderItem>,
    pub right: Option<BorderItem>,
    pub top: Option<BorderItem>,
    pub bottom: Option<BorderItem>,
}

impl Exact for Border {
    ghost use Rattle.std.proofs.Common.{rules};
    ghost use Rattle.base_styles.specs.laws.BorderEquals.{border_equals};

    ghost copies = { λ a b h. Prim.search rules };

    ghost equals = { border_equals };
}
