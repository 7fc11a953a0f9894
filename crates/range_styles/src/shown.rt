//! The styles that lines show, and the places that a range touches.

ghost use Rattle.std.specs.Prelude.{◌≡◌, IsTrue};
ghost use Rattle.std.specs.Option.{option_copied};
ghost use Rattle.sheet_grid.specs.DefaultParts.{is_default};
ghost use Rattle.range_styles.specs.StyleRanges.{has_cell, has_own_style, has_style, is_cleared, is_set, touches};
ghost use Rattle.range_styles.specs.Styled.{line_style};

use crate::range::{AreaKind, StyleRange};
use base_shared::Shared;
use base_styles::Style;
use base_values::{Position, same};
use sheet_grid::{DefaultStyle, LineAttr, Worksheet, own_line_style};

/// Whether what a line has of its own has a style.
pub(crate) fn has_own_style(attr: &LineAttr) -> bool
    ensures { result ≡ has_own_style attr.now }
{
    attr.style.is_some()
}

/// Whether a line has a style of its own.
pub(crate) fn has_style(own: Option<&LineAttr>) -> bool
    ensures { result ≡ has_style (option_copied own.entry) }
{
    own_line_style(own).is_some()
}

/// The style of a line, or the default one.
pub(crate) fn line_style<'a>(
    own: Option<&'a LineAttr>,
    default: &'a DefaultStyle,
) -> &'a Shared<Style>
    ensures { result.now ≡ line_style (option_copied own.entry) }
{
    match own_line_style(own) {
        Some(style) => style,
        None => default.shared(),
    }
}

/// Whether a style is the default one.
pub(crate) fn is_default(default: &DefaultStyle, style: &Shared<Style>) -> bool
    ensures { result ≡ is_default style.now }
{
    same(style, default.shared())
}

fn has_cell(sheet: &Worksheet, place: Position) -> bool
    ensures { result ≡ has_cell sheet.now place }
{
    sheet.cell_map().get(place).is_some()
}

fn is_set(kind: AreaKind, sheet: &Worksheet, place: Position) -> bool
    ensures { result ≡ is_set kind sheet.now place }
{
    match kind {
        AreaKind::FullColumns => {
            has_cell(sheet, place) || has_style(sheet.row_map().get(place.row))
        }
        AreaKind::FullRows => {
            has_cell(sheet, place) || has_style(sheet.column_map().get(place.column))
        }
        AreaKind::OtherPlaces => true,
    }
}

fn is_cleared(kind: AreaKind, sheet: &Worksheet, default: &DefaultStyle, place: Position) -> bool
    ensures { result ≡ is_cleared kind sheet.now place }
{
    match kind {
        AreaKind::FullColumns => {
            has_cell(sheet, place) || has_style(sheet.row_map().get(place.row))
        }
        AreaKind::FullRows => has_cell(sheet, place),
        AreaKind::OtherPlaces => {
            has_cell(sheet, place) || !is_default(default, sheet.shown_style_at(place, default))
        }
    }
}

/// Whether a place is one of a range whose cell gets another style.
pub(crate) fn touches(
    range: StyleRange,
    sheet: &Worksheet,
    default: &DefaultStyle,
    place: Position,
) -> bool
    ensures { result ≡ touches range sheet.now place }
{
    range.area.holds(place)
        && (if range.clears {
            is_cleared(range.kind, sheet, default, place)
        } else {
            is_set(range.kind, sheet, place)
        })
}
