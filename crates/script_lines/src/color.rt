ghost use Rattle.std.specs.Prelude.{◌≡◌};
ghost use Rattle.script_lines.specs.Colors as spec;

use base_styles::{Color, RgbColor};
use style_edits::read_color;

/// The colour that a word names: none for a dash, one of digits or one of the theme.
pub(crate) fn color_of(text: &str) -> Option<Color>
    ensures { result ≡ spec.color_of text.now }
{
    if text == "-" {
        return Some(Color::None);
    }
    read_color(text)
}

/// The parts of a colour that has some.
fn parts_in(color: Color) -> Option<RgbColor>
    ensures { result ≡ spec.parts_in color }
{
    match color {
        Color::Rgb { red, green, blue } => Some(RgbColor { red, green, blue }),
        _ => None,
    }
}

/// The parts of a colour that `#RRGGBB` names.
pub(crate) fn parts_of(text: &str) -> Option<RgbColor>
    ensures { result ≡ spec.parts_of text.now }
{
    if text.len() != 7 {
        return None;
    }
    match read_color(text) {
        Some(color) => parts_in(color),
        None => None,
    }
}
