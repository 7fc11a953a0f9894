//! Whether a style is the default one, part by part.

ghost use Rattle.std.specs.Prelude.{◌≡◌};
ghost use Rattle.sheet_grid.specs.DefaultParts.{is_default, is_default_font, is_default_fill, is_default_border, is_default_format};

use base_styles::{Border, Color, Font, Style};
use base_values::Text;

fn is_default_font(font: &Font) -> bool
    ensures { result ≡ is_default_font font.now }
{
    *font
        == Font {
            b: false,
            i: false,
            u: false,
            strike: false,
            sz: 13,
            color: Color::None,
        }
}

fn is_default_fill(fill: &Color) -> bool
    ensures { result ≡ is_default_fill fill.now }
{
    *fill == Color::None
}

fn is_default_border(border: &Border) -> bool
    ensures { result ≡ is_default_border border.now }
{
    *border
        == Border {
            left: None,
            right: None,
            top: None,
            bottom: None,
        }
}

fn is_default_format(format: &Text) -> bool
    ensures { result ≡ is_default_format format.now }
{
    format.as_str() == "general"
}

/// Whether a style is the default one. It takes no memory.
#[tactic(auto, using(crate::specs::laws::DefaultPartLaws::default_parts))]
pub fn is_default_style(style: &Style) -> bool
    ensures { result ≡ is_default style.now }
{
    is_default_font(&style.font)
        && is_default_fill(&style.fill)
        && is_default_border(&style.border)
        && is_default_format(&style.num_fmt)
        && style.alignment.is_none()
}
