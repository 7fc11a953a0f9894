//! What kind of value a cell has, and which cells of a row have one.

ghost use Rattle.std.specs.Prelude.{◌≡◌};
ghost use Rattle.base_values.specs.Answers.{Returns};
ghost use Rattle.user_model.specs.CellStyles.{cell_style_at};
ghost use Rattle.user_model.specs.CellTypes.{type_at};
ghost use Rattle.user_model.specs.Properties.{first_filled, last_filled};

use super::UserModel;
use crate::cell_style::cell_style_at;
use crate::cell_type::{CellType, type_at};
use crate::properties::{first_filled, last_filled};
use base_styles::Style;
use base_values::EditError;
use open_book::Recalc;

impl<R: Recalc + Drop> UserModel<R> {
    /// What kind of value the cell at a row and a column of the sheet at an index has: that of its computed
    /// value, else that of its content. No cell, an empty one and a formula without a value count as
    /// numbers. It takes no memory.
    ///
    /// `InvalidSheet` where there is no such sheet, else `InvalidRow` where the row is outside the
    /// sheet, else `InvalidColumn` where the column is.
    ///
    /// ```
    /// let is_text = model.get_cell_type(0, 1, 1)? == CellType::Text;
    /// ```
    pub fn get_cell_type(&self, sheet: u32, row: i32, column: i32) -> Result<CellType, EditError>
        ensures { result ≡ type_at sheet row column self.now.values self.now.document.book }
    {
        type_at(
            &self.results.values,
            &self.book.workbook,
            sheet,
            row,
            column,
        )
    }

    /// The style that the cell at a row and a column of the sheet at an index shows: its own, else its row's,
    /// else its column's, else the default one. Each side of its border is the neighbour's facing one where that
    /// is heavier, or as heavy and darker, or where the cell has none.
    ///
    /// `InvalidSheet` where there is no such sheet, else `InvalidRow` where the row is outside the
    /// sheet, else `InvalidColumn` where the column is, else `NoMemory` where there is not enough.
    ///
    /// ```
    /// let is_bold = model.get_cell_style(0, 1, 1)?.font.b;
    /// ```
    pub fn get_cell_style(&self, sheet: u32, row: i32, column: i32) -> Result<Style, EditError>
        ensures { Returns result (cell_style_at sheet row column self.now.document.book) }
    {
        let book = &self.book;
        cell_style_at(&book.workbook, &book.default_style, sheet, row, column)
    }

    /// The greatest column below a column, in a row of the sheet at an index, whose cell has a content, or
    /// `None` where there is none. Computed values are not looked at. It takes no memory. The errors are
    /// those of `get_cell_type`.
    ///
    /// ```
    /// let before = model.get_last_non_empty_in_row_before_column(0, 1, 3)?;
    /// ```
    pub fn get_last_non_empty_in_row_before_column(
        &self,
        sheet: u32,
        row: i32,
        column: i32,
    ) -> Result<Option<i32>, EditError>
        ensures { result ≡ last_filled sheet row column self.now.document.book }
    {
        last_filled(&self.book.workbook, sheet, row, column)
    }

    /// The least column above a column, in a row of the sheet at an index, whose cell has a content, or
    /// `None` where there is none. Computed values are not looked at. It takes no memory. The errors are
    /// those of `get_cell_type`.
    ///
    /// ```
    /// let behind = model.get_first_non_empty_in_row_after_column(0, 1, 3)?;
    /// ```
    pub fn get_first_non_empty_in_row_after_column(
        &self,
        sheet: u32,
        row: i32,
        column: i32,
    ) -> Result<Option<i32>, EditError>
        ensures { result ≡ first_filled sheet row column self.now.document.book }
    {
        first_filled(&self.book.workbook, sheet, row, column)
    }
}
