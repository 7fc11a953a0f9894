//! The style that a cell shows beside its neighbours.

ghost use Rattle.std.specs.Prelude.{◌≡◌};
ghost use Rattle.base_values.specs.Answers.{Returns};
ghost use Rattle.base_values.specs.Places.{IsPlace};
ghost use Rattle.user_model.specs.CellStyles.{border_at, cell_style_at, heavier, no_border, shown_border};

use base_styles::{Border, BorderItem, Style, Theme};
use base_values::{EditError, Position, place_of};
use sheet_grid::{DefaultStyle, Workbook, Worksheet};
use style_edits::is_max_border;

fn no_border() -> Border
    ensures { result ≡ no_border }
{
    Border {
        left: None,
        right: None,
        top: None,
        bottom: None,
    }
}

/// The border of the style that the place at a row and a column shows, and none outside the sheet.
fn border_at(sheet: &Worksheet, default: &DefaultStyle, row: i32, column: i32) -> Border
    ensures { result ≡ border_at sheet.now row column }
{
    match sheet.shown_style(row, column, default) {
        Ok(style) => style.get().border,
        Err(_) => no_border(),
    }
}

/// The neighbour's facing border, where that one shows, else the own one.
fn heavier(theme: &Theme, own: Option<BorderItem>, facing: Option<BorderItem>) -> Option<BorderItem>
    ensures { result ≡ heavier theme.now own facing }
{
    if is_max_border(own.as_ref(), facing.as_ref(), theme) {
        facing
    } else {
        own
    }
}

/// The own border of a place with each side as it shows.
fn shown_border(
    theme: &Theme,
    sheet: &Worksheet,
    default: &DefaultStyle,
    place: Position,
    own: Border,
) -> Border
    requires { IsPlace place }
    ensures { result ≡ shown_border theme.now sheet.now place own }
{
    let left = border_at(sheet, default, place.row, place.column - 1).right;
    let right = border_at(sheet, default, place.row, place.column + 1).left;
    let top = border_at(sheet, default, place.row - 1, place.column).bottom;
    let bottom = border_at(sheet, default, place.row + 1, place.column).top;
    Border {
        left: heavier(theme, own.left, left),
        right: heavier(theme, own.right, right),
        top: heavier(theme, own.top, top),
        bottom: heavier(theme, own.bottom, bottom),
    }
}

/// The style that the cell at a row and a column of the sheet at an index shows beside its neighbours.
pub(crate) fn cell_style_at(
    workbook: &Workbook,
    default: &DefaultStyle,
    sheet: u32,
    row: i32,
    column: i32,
) -> Result<Style, EditError>
    ensures { Returns result (cell_style_at sheet row column workbook.now) }
{
    let found = workbook.worksheet(sheet)?;
    let place = place_of(row, column)?;
    let mut style = found.get_style(row, column)?;
    let theme = workbook.theme();
    style.border = shown_border(&theme, found, default, place, style.border);
    Ok(style)
}
