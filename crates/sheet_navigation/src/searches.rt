//! The cells with a content that stand nearest in a row.

ghost use Rattle.std.specs.Prelude.{◌≡◌, ℤ, Option, None, Result};
ghost use Rattle.base_values.specs.declared.EditError.{EditError};
ghost use Rattle.std.specs.List.{filter_map, find, last_or};
ghost use Rattle.sheet_navigation.specs.Searches.{filled_before, filled_column, first_after, last_before};

use base_values::{EditError, Position, place_of};
use cell_content::Content;
use sheet_grid::{Cell, Worksheet};

/// The column of a cell, where it stands in a row and has a content.
fn filled_column(row: i32, place: Position, cell: &Cell) -> Option<i32>
    ensures { result ≡ filled_column row (place, cell.now) }
{
    match cell.content {
        Content::Empty => None,
        _ if place.row == row => Some(place.column),
        _ => None,
    }
}

/// The same of a cell before a column.
fn filled_before(row: i32, column: i32, place: Position, cell: &Cell) -> Option<i32>
    ensures { result ≡ filled_before row column (place, cell.now) }
{
    match filled_column(row, place, cell) {
        Some(found) if found < column => Some(found),
        _ => None,
    }
}

fn last_before(sheet: &Worksheet, row: i32, column: i32) -> Option<i32>
    ensures { result ≡ last_before sheet.now row column }
{
    let mut last = None;
    for (place, cell) in sheet.cells() {
        if let Some(found) = filled_before(row, column, *place, cell.get()) {
            last = Some(found);
        }
    }
    last
}

fn first_after(sheet: &Worksheet, row: i32, column: i32) -> Option<i32>
    ensures { result ≡ first_after sheet.now row column }
{
    sheet
        .cells()
        .filter_map(|(place, cell)| filled_column(row, *place, cell.get()))
        .find(|found| column < *found)
}

/// Sheets in whose rows the nearest cell with a content is found.
pub trait RowSearch {
    ghost last_filled_before: { Self → ℤ → ℤ → Result (Option ℤ) EditError };

    ghost first_filled_after: { Self → ℤ → ℤ → Result (Option ℤ) EditError };

    /// The greatest column below a column whose cell in a row has a content, or `None` where there is
    /// none. It takes no memory.
    ///
    /// `InvalidRow` where the row is outside the sheet, else `InvalidColumn` where the column is.
    fn last_filled_before(&self, row: i32, column: i32) -> Result<Option<i32>, EditError>
        ensures { result ≡ last_filled_before self.now row column };

    /// The least column above a column whose cell in a row has a content, or `None` where there is none.
    /// It takes no memory. The errors are those of `last_filled_before`.
    fn first_filled_after(&self, row: i32, column: i32) -> Result<Option<i32>, EditError>
        ensures { result ≡ first_filled_after self.now row column };
}

impl RowSearch for Worksheet {
    ghost use Rattle.sheet_navigation.specs.Searches.{first_filled_after, last_filled_before};

    ghost last_filled_before = { last_filled_before };

    ghost first_filled_after = { first_filled_after };

    fn last_filled_before(&self, row: i32, column: i32) -> Result<Option<i32>, EditError> {
        let _place = place_of(row, column)?;
        Ok(last_before(self, row, column))
    }

    fn first_filled_after(&self, row: i32, column: i32) -> Result<Option<i32>, EditError> {
        let _place = place_of(row, column)?;
        Ok(first_after(self, row, column))
    }
}
