//! Styles from the front of bytes.

ghost use Rattle.std.specs.Prelude.{◌≡◌, IfOk, IsOkUnless};
ghost use Rattle.base_values.specs.Answers.{Answers, map_ok};
ghost use Rattle.base_values.specs.declared.EditError.TheVariants.{NoMemory};
ghost use Rattle.base_styles.specs.Colors.{theme_color_of_code};
ghost use Rattle.base_wire.specs.laws.Reading.{code_at, coded_at};
ghost use Rattle.grid_wire.specs.StyleBytes.{border_code, horizontal_code, vertical_code};
ghost use Rattle.grid_wire.specs.laws.CellReading.{alignment_at, border_at, border_item_at, border_styles, color_at, font_at, horizontals, style_at, verticals};

use crate::cell_parts::{AlignmentPart, BorderItemPart};
use crate::style_codes::{border_style_of, horizontal_of, theme_of, vertical_of};
use base_shared::Shared;
use base_styles::{
    Alignment, Border, BorderItem, BorderStyle, Color, Font, HorizontalAlignment, Style,
    ThemeColor, VerticalAlignment,
};
use base_values::{EditError, Text, copy_of, same};
use base_wire::read;
use std::alloc::Global;

fn theme_at(alloc: Global, bytes: &[u8]) -> Result<(ThemeColor, &[u8]), EditError>
    ensures { Answers (map_ok (λ x. (x.0, x.1.now)) result) (coded_at theme_color_of_code bytes.now) }
{
    let (code, rest) = read::<u8>(alloc, &(), bytes)?;
    let theme = theme_of(code)?;
    Ok((theme, rest))
}

fn border_style_at(alloc: Global, bytes: &[u8]) -> Result<(BorderStyle, &[u8]), EditError>
    ensures { Answers (map_ok (λ x. (x.0, x.1.now)) result) (code_at border_code border_styles bytes.now) }
{
    let (code, rest) = read::<u8>(alloc, &(), bytes)?;
    let style = border_style_of(code)?;
    Ok((style, rest))
}

fn horizontal_at(alloc: Global, bytes: &[u8]) -> Result<(HorizontalAlignment, &[u8]), EditError>
    ensures { Answers (map_ok (λ x. (x.0, x.1.now)) result) (code_at horizontal_code horizontals bytes.now) }
{
    let (code, rest) = read::<u8>(alloc, &(), bytes)?;
    let horizontal = horizontal_of(code)?;
    Ok((horizontal, rest))
}

fn vertical_at(alloc: Global, bytes: &[u8]) -> Result<(VerticalAlignment, &[u8]), EditError>
    ensures { Answers (map_ok (λ x. (x.0, x.1.now)) result) (code_at vertical_code verticals bytes.now) }
{
    let (code, rest) = read::<u8>(alloc, &(), bytes)?;
    let vertical = vertical_of(code)?;
    Ok((vertical, rest))
}

#[tactic(auto, unfolding(crate::specs::laws::CellReading::color_at))]
pub(crate) fn color_at(alloc: Global, bytes: &[u8]) -> Result<(Color, &[u8]), EditError>
    ensures { Answers (map_ok (λ x. (x.0, x.1.now)) result) (color_at bytes.now) }
{
    let (kind, rest) = read::<u8>(alloc, &(), bytes)?;
    match kind {
        0 => Ok((Color::None, rest)),
        1 => {
            let (red, rest) = read::<u8>(alloc, &(), rest)?;
            let (green, rest) = read::<u8>(alloc, &(), rest)?;
            let (blue, rest) = read::<u8>(alloc, &(), rest)?;
            Ok((Color::Rgb { red, green, blue }, rest))
        }
        2 => {
            let (theme, rest) = theme_at(alloc, rest)?;
            Ok((Color::Theme(theme), rest))
        }
        _ => Err(EditError::ParseDiffs),
    }
}

#[tactic(auto, unfolding(crate::specs::laws::CellReading::font_at))]
fn font_at(alloc: Global, bytes: &[u8]) -> Result<(Font, &[u8]), EditError>
    ensures { Answers (map_ok (λ x. (x.0, x.1.now)) result) (font_at bytes.now) }
{
    let (b, rest) = read::<bool>(alloc, &(), bytes)?;
    let (i, rest) = read::<bool>(alloc, &(), rest)?;
    let (u, rest) = read::<bool>(alloc, &(), rest)?;
    let (strike, rest) = read::<bool>(alloc, &(), rest)?;
    let (sz, rest) = read::<i32>(alloc, &(), rest)?;
    let (color, rest) = color_at(alloc, rest)?;
    let font = Font {
        b,
        i,
        u,
        strike,
        sz,
        color,
    };
    Ok((font, rest))
}

#[tactic(auto, unfolding(crate::specs::laws::CellReading::border_item_at))]
pub(crate) fn border_item_at(alloc: Global, bytes: &[u8]) -> Result<(BorderItem, &[u8]), EditError>
    ensures { Answers (map_ok (λ x. (x.0, x.1.now)) result) (border_item_at bytes.now) }
{
    let (style, rest) = border_style_at(alloc, bytes)?;
    let (color, rest) = color_at(alloc, rest)?;
    Ok((BorderItem { style, color }, rest))
}

#[tactic(auto, unfolding(crate::specs::laws::CellReading::border_at, crate::specs::laws::CellReading::side_at))]
fn border_at(alloc: Global, bytes: &[u8]) -> Result<(Border, &[u8]), EditError>
    ensures { Answers (map_ok (λ x. (x.0, x.1.now)) result) (border_at bytes.now) }
{
    let (left, rest) = read::<Option<BorderItemPart>>(alloc, &(), bytes)?;
    let (right, rest) = read::<Option<BorderItemPart>>(alloc, &(), rest)?;
    let (top, rest) = read::<Option<BorderItemPart>>(alloc, &(), rest)?;
    let (bottom, rest) = read::<Option<BorderItemPart>>(alloc, &(), rest)?;
    let border = Border {
        left,
        right,
        top,
        bottom,
    };
    Ok((border, rest))
}

#[tactic(auto, unfolding(crate::specs::laws::CellReading::alignment_at))]
pub(crate) fn alignment_at(alloc: Global, bytes: &[u8]) -> Result<(Alignment, &[u8]), EditError>
    ensures { Answers (map_ok (λ x. (x.0, x.1.now)) result) (alignment_at bytes.now) }
{
    let (horizontal, rest) = horizontal_at(alloc, bytes)?;
    let (vertical, rest) = vertical_at(alloc, rest)?;
    let (wrap_text, rest) = read::<bool>(alloc, &(), rest)?;
    let alignment = Alignment {
        horizontal,
        vertical,
        wrap_text,
    };
    Ok((alignment, rest))
}

#[tactic(auto, unfolding(crate::specs::laws::CellReading::style_at, crate::specs::laws::CellReading::alignment_option_at))]
fn one_style_at(alloc: Global, bytes: &[u8]) -> Result<(Style, &[u8]), EditError>
    ensures { Answers (map_ok (λ x. (x.0, x.1.now)) result) (style_at bytes.now) }
{
    let (font, rest) = font_at(alloc, bytes)?;
    let (fill, rest) = color_at(alloc, rest)?;
    let (border, rest) = border_at(alloc, rest)?;
    let (num_fmt, rest) = read::<Text>(alloc, &(), rest)?;
    let (alignment, rest) = read::<Option<AlignmentPart>>(alloc, &(), rest)?;
    let style = Style {
        font,
        fill,
        border,
        num_fmt,
        alignment,
    };
    Ok((style, rest))
}

/// One more owner of the plain style where the style is equal to it, and else the first owner of the style.
fn share(alloc: Global, plain: &Shared<Style>, style: Style) -> Result<Shared<Style>, EditError>
    ensures value { IfOk result (λ shared. shared ≡ style) }
    ensures only { IsOkUnless result NoMemory }
{
    if same(&style, plain.get()) {
        return copy_of(plain);
    }
    Ok(Shared::new(alloc, style)?)
}

pub(crate) fn style_at<'a>(
    alloc: Global,
    plain: &Shared<Style>,
    bytes: &'a [u8],
) -> Result<(Shared<Style>, &'a [u8]), EditError>
    ensures { Answers (map_ok (λ x. (x.0, x.1.now)) result) (style_at bytes.now) }
{
    let (style, rest) = one_style_at(alloc, bytes)?;
    Ok((share(alloc, plain, style)?, rest))
}
