//! The line of a theme.

ghost use Rattle.std.specs.Prelude.{◌≡◌, ◌++◌, ◌∷◌, [], codes, OnOk};
ghost use Rattle.base_styles.specs.RgbTexts.{rgb_text};
ghost use Rattle.base_styles.specs.Themes.{default_theme};
ghost use Rattle.std.specs.List.{flat_map};
ghost use Rattle.script_dump.specs.Dump.{rgb_word, same_theme, theme_colors, theme_line, theme_lines};

use base_styles::{RgbColor, Theme};
use std::alloc::{AllocError, Global};

/// Writes a space and a colour.
fn push_rgb(alloc: Global, out: &mut Vec<u8>, color: RgbColor) -> Result<(), AllocError>
    ensures { OnOk result (out.new.items ≡ out.old.items ++ rgb_word color) }
{
    let text = color.text(alloc)?;
    out.push(b' ')?;
    out.extend_from_slice(text.as_bytes())
}

/// Writes colours, each behind a space.
fn push_colors(alloc: Global, out: &mut Vec<u8>, colors: &[RgbColor]) -> Result<(), AllocError>
    ensures { OnOk result (out.new.items ≡ out.old.items ++ flat_map rgb_word colors.now) }
{
    for color in colors {
        push_rgb(alloc, out, *color)?;
    }
    Ok(())
}

/// The colours of a theme, in the order of its line.
fn theme_colors(theme: Theme) -> [RgbColor; 12]
    ensures { result ≡ theme_colors theme }
{
    [
        theme.light1,
        theme.dark1,
        theme.light2,
        theme.dark2,
        theme.accent1,
        theme.accent2,
        theme.accent3,
        theme.accent4,
        theme.accent5,
        theme.accent6,
        theme.hyperlink,
        theme.followed_hyperlink,
    ]
}

/// Writes a theme as a line.
fn push_theme_line(alloc: Global, out: &mut Vec<u8>, theme: Theme) -> Result<(), AllocError>
    ensures { OnOk result (out.new.items ≡ out.old.items ++ theme_line theme) }
{
    out.extend_from_slice(b"theme")?;
    push_colors(alloc, out, &theme_colors(theme))?;
    out.push(b'\n')?;
    Ok(())
}

fn is_default(theme: Theme) -> bool
    ensures { result ≡ same_theme theme default_theme }
{
    let default = Theme::default();
    theme == default
}

/// Writes the line of a theme that is not the default one.
pub(crate) fn push_theme(alloc: Global, out: &mut Vec<u8>, theme: Theme) -> Result<(), AllocError>
    ensures { OnOk result (out.new.items ≡ out.old.items ++ theme_lines theme) }
{
    if is_default(theme) {
        return Ok(());
    }
    push_theme_line(alloc, out, theme)
}
