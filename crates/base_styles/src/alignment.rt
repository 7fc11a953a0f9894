use base_values::Exact;

/// Where a text stands between the sides of its cell.
#[derive(Clone, Copy, Debug, PartialEq, Eq)]
pub enum HorizontalAlignment {
    General,
    Left,
    Center,
    Right,
    Fill,
    Justify,
    CenterContinuous,
    Distributed,
}

impl HorizontalAlignment {
    ghost use Rattle.std.specs.Prelude.{◌≡◌};
    ghost use Rattle.base_styles.specs.Alignments.{horizontal_name};

    /// All horizontal alignments, in the order of their codes.
    pub const ALL: [HorizontalAlignment; 8] = [
        HorizontalAlignment::General,
        HorizontalAlignment::Left,
        HorizontalAlignment::Center,
        HorizontalAlignment::Right,
        HorizontalAlignment::Fill,
        HorizontalAlignment::Justify,
        HorizontalAlignment::CenterContinuous,
        HorizontalAlignment::Distributed,
    ];

    /// The name of the alignment.
    pub fn name(self) -> &'static str
        ensures { result.now ≡ horizontal_name self }
    {
        match self {
            HorizontalAlignment::General => "general",
            HorizontalAlignment::Left => "left",
            HorizontalAlignment::Center => "center",
            HorizontalAlignment::Right => "right",
            HorizontalAlignment::Fill => "fill",
            HorizontalAlignment::Justify => "justify",
            HorizontalAlignment::CenterContinuous => "centerContinuous",
            HorizontalAlignment::Distributed => "distributed",
        }
    }
}

impl Exact for HorizontalAlignment {
    ghost use Rattle.std.proofs.Common.{rules};
    ghost use Rattle.base_styles.specs.laws.AlignmentEquals.{horizontal_equals};

    ghost copies = { λ a b h. Prim.search rules };

    ghost equals = { horizontal_equals };
}

/// Where a text stands between the top and the bottom of its cell.
#[derive(Clone, Copy, Debug, PartialEq, Eq)]
pub enum VerticalAlignment {
    Bottom,
    Center,
    Distributed,
    Justify,
    Top,
}

impl VerticalAlignment {
    ghost use Rattle.std.specs.Prelude.{◌≡◌};
    ghost use Rattle.base_styles.specs.Alignments.{vertical_name};

    /// All vertical alignments, in the order of their codes.
    pub const ALL: [VerticalAlignment; 5] = [
        VerticalAlignment::Bottom,
        VerticalAlignment::Center,
        VerticalAlignment::Distributed,
        VerticalAlignment::Justify,
        VerticalAlignment::Top,
    ];

    /// The name of the alignment.
    pub fn name(self) -> &'static str
        ensures { result.now ≡ vertical_name self }
    {
        match self {
            VerticalAlignment::Bottom => "bottom",
            VerticalAlignment::Center => "center",
            VerticalAlignment::Distributed => "distributed",
            VerticalAlignment::Justify => "justify",
            VerticalAlignment::Top => "top",
        }
    }
}

impl Exact for VerticalAlignment {
    ghost use Rattle.std.proofs.Common.{rules};
    ghost use Rattle.base_styles.specs.laws.AlignmentEquals.{vertical_equals};

    ghost copies = { λ a b h. Prim.search rules };

    ghost equals = { vertical_equals };
}

/// The alignment of a cell.
#[derive(Clone, Copy, Debug, PartialEq, Eq)]
pub struct Alignment {
    pub horizontal: HorizontalAlignment,
    pub vertical: VerticalAlignment,
    pub wrap_text: bool,
}

impl Exact for Alignment {
    ghost use Rattle.std.proofs.Common.{rules};
    ghost use Rattle.base_styles.specs.laws.AlignmentEquals.{alignment_equals};

    ghost copies = { λ a b h. Prim.search rules };

    ghost equals = { alignment_equals };
}

impl Default for Alignment {
    ghost use Rattle.std.specs.Prelude.{◌≡◌};
    ghost use Rattle.base_styles.specs.Alignments.{default_alignment};

    ghost is_default = { λ alignment. alignment ≡ default_alignment };

    /// The alignment of a cell that was given none: general, bottom, without wrapping.
    fn default() -> Alignment {
        Alignment {
            horizontal: HorizontalAlignment::General,
            vertical: VerticalAlignment::Bottom,
            wrap_text: false,
        }
    }
}
