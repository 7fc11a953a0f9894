ghost use Rattle.std.specs.Prelude.{◌≡◌, option_copied};
ghost use Rattle.style_edits.specs.BorderOrder.{lightness, lightness_in, outweighs, is_max_border};

use base_styles::{BorderItem, Color, RgbColor, Theme};

/// How light a colour is to the eye, from 0 for black to 255,000 for white.
fn lightness(color: RgbColor) -> u32
    ensures { result ≡ lightness color }
{
    299 * u32::from(color.red) + 587 * u32::from(color.green) + 114 * u32::from(color.blue)
}

/// The same of a colour in a theme. No colour is as dark as black.
fn lightness_in(theme: &Theme, color: Color) -> u32
    ensures { result ≡ lightness_in theme.now color }
{
    match theme.resolve(color) {
        Some(color) => lightness(color),
        None => 0,
    }
}

/// Whether the second border is heavier than the first, or equally heavy and darker.
fn outweighs(theme: &Theme, a: &BorderItem, b: &BorderItem) -> bool
    ensures { result ≡ outweighs theme.now a.now b.now }
{
    let (weight_a, weight_b) = (a.style.weight(), b.style.weight());
    weight_a < weight_b
        || weight_a == weight_b && lightness_in(theme, b.color) < lightness_in(theme, a.color)
}

/// Whether, of two borders on one line, the second shows in place of the first: it is there, and
/// the first is not, or the second is heavier, or they are equally heavy and the second is darker.
pub fn is_max_border(a: Option<&BorderItem>, b: Option<&BorderItem>, theme: &Theme) -> bool
    ensures { result ≡ is_max_border (option_copied a.entry) (option_copied b.entry) theme.now }
{
    match (a, b) {
        (_, None) => false,
        (None, Some(_)) => true,
        (Some(a), Some(b)) => outweighs(theme, a, b),
    }
}
