ghost use Rattle.std.specs.Prelude.{IfOk, IsOkUnless, ◌≡◌};
ghost use Rattle.base_values.specs.declared.EditError.TheVariants.{NoMemory};

use crate::alignment::Alignment;
use crate::border::Border;
use crate::color::Color;
use base_values::{EditError, Exact, Text};
use std::alloc::Global;

/// The font of a cell.
#[derive(Clone, Copy, Debug, PartialEq, Eq)]
pub struct Font {
    /// Bold.
    pub b: bool,
    /// Italic.
    pub i: bool,
    /// Underlined.
    pub u: bool,
    /// Struck through.
    pub strike: bool,
    /// The size, at least 1 in a cell.
    pub sz: i32,
    pub color: Color,
}

impl Exact for Font {
    ghost use Rattle.std.proofs.Common.{rules};
    ghost use Rattle.base_styles.specs.laws.StyleEquals.{font_equals};

    ghost copies = { λ a b h. Prim.search rules };

    ghost equals = { font_equals };
}

/// How a cell looks.
#[derive(Clone, Debug, PartialEq, Eq, Drop)]
pub struct Style {
    pub font: Font,
    /// The colour behind the text.
    pub fill: Color,
    pub border: Border,
    /// The number format; `general` at first.
    pub num_fmt: Text,
    pub alignment: Option<Alignment>,
}

impl Exact for Style {
    ghost use Rattle.std.proofs.Common.{rules};
    ghost use Rattle.base_styles.specs.laws.StyleEquals.{style_equals};

    ghost copies = { λ a b h. Prim.search rules };

    ghost equals = { style_equals };
}

impl Style {
    ghost use Rattle.base_styles.specs.DefaultStyle.{default_style};

    /// The default style: no marks, size 13, no colours, no borders, the number format `general`,
    /// no alignment. The only error is `NoMemory`.
    pub fn new(alloc: Global) -> Result<Style, EditError>
        ensures output { IfOk result (λ style. style ≡ default_style) }
        ensures only { IsOkUnless result NoMemory }
    {
        Ok(Style {
            font: Font {
                b: false,
                i: false,
                u: false,
                strike: false,
                sz: 13,
                color: Color::None,
            },
            fill: Color::None,
            border: Border {
                left: None,
                right: None,
                top: None,
                bottom: None,
            },
            num_fmt: Text::new(String::from_str(alloc, "general")?),
            alignment: None,
        })
    }
}
