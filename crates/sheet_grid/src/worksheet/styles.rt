//! The style that a place shows.

ghost use Rattle.std.specs.Prelude.{◌≡◌, Ok};
ghost use Rattle.std.specs.Option.{option_copied};
ghost use Rattle.std.specs.FinMap as fin;
ghost use Rattle.base_values.specs.Answers.{Returns, map_ok};
ghost use Rattle.sheet_grid.specs.Lines.{own_line_style};
ghost use Rattle.sheet_grid.specs.Sheet.{line_style, own_style, shown_style, style_at};

use super::Worksheet;
use crate::default_style::DefaultStyle;
use crate::line_attr::LineAttr;
use base_shared::Shared;
use base_styles::Style;
use base_values::{EditError, Position, copy_of, place_of};

/// The style that a line has of its own.
pub fn own_line_style(own: Option<&LineAttr>) -> Option<&Shared<Style>>
    ensures { option_copied result ≡ own_line_style (option_copied own.entry) }
{
    match own {
        Some(attr) => attr.style.as_ref(),
        None => None,
    }
}

impl Worksheet {
    /// The style of the row of a place, else of its column.
    fn line_style(&self, place: Position) -> Option<&Shared<Style>>
        ensures { option_copied result ≡ line_style self.now place }
    {
        match own_line_style(self.rows.get(place.row)) {
            Some(style) => Some(style),
            None => own_line_style(self.columns.get(place.column)),
        }
    }

    /// The style of the cell of a place, else of its row, else of its column.
    fn own_style(&self, place: Position) -> Option<&Shared<Style>>
        ensures { option_copied result ≡ own_style self.now place }
    {
        match self.cells.as_map().get(place) {
            Some(cell) => Some(&cell.get().style),
            None => self.line_style(place),
        }
    }

    /// The style that a place shows, to be shared with a cell.
    pub(crate) fn style_to_share(&self, place: Position) -> Result<Shared<Style>, EditError>
        ensures { Returns result (Ok (shown_style self.now place)) }
    {
        match self.own_style(place) {
            Some(style) => copy_of(style),
            None => copy_of(DefaultStyle::new(self.name.allocator())?.shared()),
        }
    }

    /// Lends the style that a place shows: its cell's, else its row's where that has one, else its
    /// column's, else the default, which is given. It takes no memory.
    pub fn shown_style_at<'a>(
        &'a self,
        place: Position,
        default: &'a DefaultStyle,
    ) -> &'a Shared<Style>
        ensures { result.now ≡ shown_style self.now place }
    {
        match self.own_style(place) {
            Some(style) => style,
            None => default.shared(),
        }
    }

    /// Lends the style that the place at a row and a column shows: its cell's, else its row's
    /// where that has one, else its column's, else the default, which is given. It takes no memory.
    ///
    /// `InvalidRow` where the row is outside the sheet, else `InvalidColumn` where the column is.
    pub fn shown_style<'a>(
        &'a self,
        row: i32,
        column: i32,
        default: &'a DefaultStyle,
    ) -> Result<&'a Shared<Style>, EditError>
        ensures { map_ok (λ lent. lent.now) result ≡ style_at self.now row column }
    {
        let place = place_of(row, column)?;
        Ok(self.shown_style_at(place, default))
    }

    /// A copy of the style that the place at a row and a column shows: its cell's, else its row's
    /// where that has one, else its column's, else the default.
    ///
    /// `InvalidRow` where the row is outside the sheet, else `InvalidColumn` where the column is.
    pub fn get_style(&self, row: i32, column: i32) -> Result<Style, EditError>
        ensures { Returns result (style_at self.now row column) }
    {
        let place = place_of(row, column)?;
        match self.own_style(place) {
            Some(style) => copy_of(style.get()),
            None => Ok(Style::new(self.name.allocator())?),
        }
    }
}
