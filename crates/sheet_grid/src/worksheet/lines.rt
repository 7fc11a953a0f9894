//! Links, and what rows and columns have of their own.

ghost use Rattle.std.specs.Prelude.{◌≡◌, ◌≢◌, None, Ok, Err, All};
ghost use Rattle.std.specs.Option.{option_map};
ghost use Rattle.std.specs.FinMap as fin;
ghost use Rattle.base_values.specs.Answers.{Returns, Changes};
ghost use Rattle.base_values.specs.declared.EditError.TheVariants.{NoMemory};
ghost use Rattle.base_values.specs.Places.{IsPlace, IsRow, IsColumn};
ghost use Rattle.sheet_grid.specs.Lines.{line_of_row, stored_line};
ghost use Rattle.sheet_grid.specs.Sheet.{link_at, link_put, row_at, row_put, column_at, column_put};

use super::Worksheet;
use crate::column_attr::ColumnAttr;
use crate::line_attr::LineAttr;
use crate::link::Link;
use crate::row_attr::RowAttr;
use base_values::{EditError, LAST_COLUMN, LAST_ROW, Position, copy_of, line_of, place_of};
use std::collections::btree_map::Iter;

impl Worksheet {
    /// The links with their places, by row and then by column.
    pub fn links(&self) -> Iter<'_, Position, Link>
        ensures entries { result ≡ fin.entries self.now.links }
        ensures inside { All (λ entry. IsPlace entry.0) result }
    {
        self.links.iter()
    }

    /// The rows that have something of their own, in ascending order.
    pub fn rows(&self) -> Iter<'_, i32, LineAttr>
        ensures entries { result ≡ fin.entries self.now.rows }
        ensures inside { All (λ entry. IsRow entry.0) result }
    {
        self.rows.iter()
    }

    /// The columns that have something of their own, in ascending order.
    pub fn columns(&self) -> Iter<'_, i32, LineAttr>
        ensures entries { result ≡ fin.entries self.now.columns }
        ensures inside { All (λ entry. IsColumn entry.0) result }
    {
        self.columns.iter()
    }

    /// A copy of the link at a row and a column, if there is one.
    ///
    /// `InvalidRow` where the row is outside the sheet, else `InvalidColumn` where the column is.
    pub fn link(&self, row: i32, column: i32) -> Result<Option<Link>, EditError>
        ensures { Returns result (link_at self.now row column) }
    {
        let place = place_of(row, column)?;
        match self.links.get(place) {
            Some(link) => Ok(Some(copy_of(link)?)),
            None => Ok(None),
        }
    }

    /// A copy of what a row has of its own, if it has something.
    ///
    /// `InvalidRow` where the row is outside the sheet.
    pub fn row_attr(&self, row: i32) -> Result<Option<RowAttr>, EditError>
        ensures { Returns result (row_at self.now row) }
    {
        let line = line_of(LAST_ROW, row, EditError::InvalidRow)?;
        match self.rows.get(line) {
            Some(attr) => Ok(Some(copy_of(attr)?.into_row())),
            None => Ok(None),
        }
    }

    /// A copy of what a column has of its own, if it has something.
    ///
    /// `InvalidColumn` where the column is outside the sheet.
    pub fn column_attr(&self, column: i32) -> Result<Option<ColumnAttr>, EditError>
        ensures { Returns result (column_at self.now column) }
    {
        let line = line_of(LAST_COLUMN, column, EditError::InvalidColumn)?;
        match self.columns.get(line) {
            Some(attr) => Ok(Some(copy_of(attr)?.into_column())),
            None => Ok(None),
        }
    }

    /// Sets the link at a row and a column, or takes it away.
    ///
    /// `InvalidRow` where the row is outside the sheet, else `InvalidColumn` where the column is.
    /// To take a link away needs no memory.
    pub fn put_link(&mut self, row: i32, column: i32, entry: Option<Link>) -> Result<(), EditError>
        ensures put { Changes result self.old self.new (link_put self.old row column entry) }
        ensures away { entry ≡ None → result ≢ Err NoMemory }
    {
        let place = place_of(row, column)?;
        self.links.put(place, entry)
    }

    /// Sets what a row has of its own, or takes it away. A height, a style and hiding that are all
    /// missing count as nothing.
    ///
    /// `InvalidRow` where the row is outside the sheet. To take something away needs no memory.
    pub fn put_row(&mut self, row: i32, entry: Option<RowAttr>) -> Result<(), EditError>
        ensures put { Changes result self.old self.new (row_put self.old row entry) }
        ensures away { stored_line (option_map line_of_row entry) ≡ None → result ≢ Err NoMemory }
    {
        let line = line_of(LAST_ROW, row, EditError::InvalidRow)?;
        let attr = entry.map(LineAttr::of_row);
        self.rows.put(line, LineAttr::kept(attr))
    }

    /// Sets what a column has of its own, or takes it away. A width, a style and hiding that are
    /// all missing count as nothing.
    ///
    /// `InvalidColumn` where the column is outside the sheet. To take something away may need memory.
    pub fn put_column(&mut self, column: i32, entry: Option<ColumnAttr>) -> Result<(), EditError>
        ensures { Changes result self.old self.new (column_put self.old column entry) }
    {
        let line = line_of(LAST_COLUMN, column, EditError::InvalidColumn)?;
        let attr = entry.map(LineAttr::of_column);
        self.columns.put(line, LineAttr::kept(attr))
    }
}
