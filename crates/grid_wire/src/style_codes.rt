//! The codes of values that have one byte.

ghost use Rattle.std.specs.Prelude.{◌≡◌};
ghost use Rattle.base_values.specs.Answers.{ok_or};
ghost use Rattle.base_values.specs.declared.EditError.TheVariants.{ParseDiffs};
ghost use Rattle.base_styles.specs.Colors.{theme_color_of_code};
ghost use Rattle.base_wire.specs.laws.Reading.{decoded};
ghost use Rattle.grid_wire.specs.CellBytes.{kind_code};
ghost use Rattle.grid_wire.specs.StyleBytes.{border_code, horizontal_code, vertical_code};
ghost use Rattle.grid_wire.specs.laws.CellReading.{border_styles, horizontals, verticals};

use base_styles::{BorderStyle, HorizontalAlignment, ThemeColor, VerticalAlignment};
use base_values::EditError;
use cell_content::Content;

pub(crate) fn kind_code(content: &Content) -> u8
    ensures { result ≡ kind_code content.now }
{
    match content {
        Content::Empty => 0,
        Content::Number(_) => 1,
        Content::Boolean(_) => 2,
        Content::Error(_) => 3,
        Content::Text(_) => 4,
        Content::Formula(_) => 5,
        Content::Dynamic(_) => 6,
        Content::Array { .. } => 7,
    }
}

pub(crate) fn theme_of(code: u8) -> Result<ThemeColor, EditError>
    ensures { result ≡ ok_or ParseDiffs (theme_color_of_code code) }
{
    match ThemeColor::from_code(code) {
        Some(color) => Ok(color),
        None => Err(EditError::ParseDiffs),
    }
}

pub(crate) fn border_code(style: BorderStyle) -> u8
    ensures { result ≡ border_code style }
{
    match style {
        BorderStyle::Dotted => 1,
        BorderStyle::Thin => 2,
        BorderStyle::MediumDashDotDot => 3,
        BorderStyle::MediumDashDot => 4,
        BorderStyle::SlantDashDot => 5,
        BorderStyle::MediumDashed => 6,
        BorderStyle::Medium => 7,
        BorderStyle::Thick => 8,
        BorderStyle::Double => 9,
    }
}

pub(crate) fn border_style_of(code: u8) -> Result<BorderStyle, EditError>
    ensures { result ≡ ok_or ParseDiffs (decoded border_code border_styles code) }
{
    match code {
        1 => Ok(BorderStyle::Dotted),
        2 => Ok(BorderStyle::Thin),
        3 => Ok(BorderStyle::MediumDashDotDot),
        4 => Ok(BorderStyle::MediumDashDot),
        5 => Ok(BorderStyle::SlantDashDot),
        6 => Ok(BorderStyle::MediumDashed),
        7 => Ok(BorderStyle::Medium),
        8 => Ok(BorderStyle::Thick),
        9 => Ok(BorderStyle::Double),
        _ => Err(EditError::ParseDiffs),
    }
}

pub(crate) fn horizontal_code(horizontal: HorizontalAlignment) -> u8
    ensures { result ≡ horizontal_code horizontal }
{
    match horizontal {
        HorizontalAlignment::General => 0,
        HorizontalAlignment::Left => 1,
        HorizontalAlignment::Center => 2,
        HorizontalAlignment::Right => 3,
        HorizontalAlignment::Fill => 4,
        HorizontalAlignment::Justify => 5,
        HorizontalAlignment::CenterContinuous => 6,
        HorizontalAlignment::Distributed => 7,
    }
}

pub(crate) fn horizontal_of(code: u8) -> Result<HorizontalAlignment, EditError>
    ensures { result ≡ ok_or ParseDiffs (decoded horizontal_code horizontals code) }
{
    match code {
        0 => Ok(HorizontalAlignment::General),
        1 => Ok(HorizontalAlignment::Left),
        2 => Ok(HorizontalAlignment::Center),
        3 => Ok(HorizontalAlignment::Right),
        4 => Ok(HorizontalAlignment::Fill),
        5 => Ok(HorizontalAlignment::Justify),
        6 => Ok(HorizontalAlignment::CenterContinuous),
        7 => Ok(HorizontalAlignment::Distributed),
        _ => Err(EditError::ParseDiffs),
    }
}

pub(crate) fn vertical_code(vertical: VerticalAlignment) -> u8
    ensures { result ≡ vertical_code vertical }
{
    match vertical {
        VerticalAlignment::Bottom => 0,
        VerticalAlignment::Center => 1,
        VerticalAlignment::Distributed => 2,
        VerticalAlignment::Justify => 3,
        VerticalAlignment::Top => 4,
    }
}

pub(crate) fn vertical_of(code: u8) -> Result<VerticalAlignment, EditError>
    ensures { result ≡ ok_or ParseDiffs (decoded vertical_code verticals code) }
{
    match code {
        0 => Ok(VerticalAlignment::Bottom),
        1 => Ok(VerticalAlignment::Center),
        2 => Ok(VerticalAlignment::Distributed),
        3 => Ok(VerticalAlignment::Justify),
        4 => Ok(VerticalAlignment::Top),
        _ => Err(EditError::ParseDiffs),
    }
}
