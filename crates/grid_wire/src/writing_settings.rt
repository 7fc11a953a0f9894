//! Themes as bytes.

ghost use Rattle.std.specs.Prelude.{◌≡◌, ◌++◌, OnOk};
ghost use Rattle.grid_wire.specs.ThemeBytes.{encode_rgb, encode_theme, FitsRgb, FitsTheme};

use base_styles::{RgbColor, Theme};
use std::alloc::AllocError;

/// Adds the red, green and blue parts of a colour.
pub(crate) fn put_rgb(out: &mut Vec<u8>, color: RgbColor) -> Result<(), AllocError>
    ensures encoded { OnOk result (out.new.items ≡ out.old.items ++ encode_rgb color) }
    ensures fits { OnOk result (FitsRgb color) }
{
    out.extend_from_slice(&[color.red, color.green, color.blue])
}

/// Adds the colours of a theme in their order.
#[tactic(auto, unfolding(crate::specs::ThemeBytes::encode_theme))]
pub(crate) fn put_theme(out: &mut Vec<u8>, theme: &Theme) -> Result<(), AllocError>
    ensures encoded { OnOk result (out.new.items ≡ out.old.items ++ encode_theme theme.now) }
    ensures fits { OnOk result (FitsTheme theme.now) }
{
    put_rgb(out, theme.light1)?;
    put_rgb(out, theme.dark1)?;
    put_rgb(out, theme.light2)?;
    put_rgb(out, theme.dark2)?;
    put_rgb(out, theme.accent1)?;
    put_rgb(out, theme.accent2)?;
    put_rgb(out, theme.accent3)?;
    put_rgb(out, theme.accent4)?;
    put_rgb(out, theme.accent5)?;
    put_rgb(out, theme.accent6)?;
    put_rgb(out, theme.hyperlink)?;
    put_rgb(out, theme.followed_hyperlink)
}
