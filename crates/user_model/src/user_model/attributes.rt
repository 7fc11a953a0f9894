//! Sizes of rows and columns, hidden and frozen ones.

ghost use Rattle.std.specs.Prelude.{◌≡◌, OnOk, OnErr};
ghost use Rattle.sheet_history.specs.declared.LineAxis.TheVariants.{Rows, Columns};
ghost use Rattle.sheet_history.specs.declared.SheetField.TheVariants.{FrozenColumns, FrozenRows};
ghost use Rattle.edit_plans.specs.Edits.Edit.{SetField, SetHidden, SetSize};
ghost use Rattle.open_book.specs.Machine.{edit_of};
ghost use Rattle.user_model.specs.Properties.{column_width, frozen_columns, frozen_rows, row_height};
ghost use Rattle.open_book.specs.Stands.{Steps};
ghost use Rattle.open_book.specs.Values.{IsMade};

use super::UserModel;
use crate::properties::{column_width, frozen_columns, frozen_rows, row_height};
use crate::view_steps::seen_by_hiding;
use base_values::EditError;
use edit_plans::{plan_hidden, plan_size};
use open_book::Recalc;
use sheet_history::{LineAxis, SheetField};

impl<R: Recalc + Drop> UserModel<R> {
    /// Gives lines of the sheet at an index, from a first to a last, a size, and records the change.
    fn set_size(
        &mut self,
        sheet: u32,
        axis: LineAxis,
        first: i32,
        last: i32,
        size: i32,
    ) -> Result<(), EditError>
        ensures next { Steps result self.old.document self.new.document (edit_of (SetSize sheet axis first last size)) }
        ensures output { OnOk result (IsMade R.Fits self.new) }
        ensures err { OnErr result (self.new ≡ self.old) }
        ensures paused { self.new.paused ≡ self.old.paused }
    {
        let book = &self.book;
        let plan = plan_size(book.alloc, &book.workbook, sheet, axis, first, last, size);
        let selected = book.view.sheet as usize;
        self.make(plan, selected)
    }

    /// Hides or shows lines of the sheet at an index, from a first to a last, and records the change.
    fn set_hidden(
        &mut self,
        sheet: u32,
        axis: LineAxis,
        first: i32,
        last: i32,
        hidden: bool,
    ) -> Result<(), EditError>
        ensures next { Steps result self.old.document self.new.document (edit_of (SetHidden sheet axis first last hidden)) }
        ensures output { OnOk result (IsMade R.Fits self.new) }
        ensures err { OnErr result (self.new ≡ self.old) }
        ensures paused { self.new.paused ≡ self.old.paused }
    {
        let book = &self.book;
        let plan = plan_hidden(book.alloc, &book.workbook, sheet, axis, first, last, hidden);
        let selected = book.view.sheet as usize;
        let seen = seen_by_hiding(&book.workbook, sheet, axis, first, last, hidden, book.view);
        self.make_seen(plan, selected, seen)
    }

    /// Gives the columns of the sheet at an index, from a first to a last, a width in half pixels, and
    /// records the change, also where nothing changes. The width 250, which a column has anyway, takes
    /// their own away. Hidden columns stay hidden.
    ///
    /// `InvalidSheet` where there is no such sheet, else `InvalidArea` where one of the two columns is
    /// outside the sheet or the last one is before the first, else `NegativeSize` where the width is
    /// below 0, else `NoMemory` where there is not enough. An error changes nothing. docs/MODEL.md has
    /// the rules.
    ///
    /// ```
    /// model.set_columns_width(0, 2, 4, 300)?; // columns B to D
    /// ```
    pub fn set_columns_width(
        &mut self,
        sheet: u32,
        first: i32,
        last: i32,
        width: i32,
    ) -> Result<(), EditError>
        ensures next { Steps result self.old.document self.new.document (edit_of (SetSize sheet Columns first last width)) }
        ensures output { OnOk result (IsMade R.Fits self.new) }
        ensures err { OnErr result (self.new ≡ self.old) }
        ensures paused { self.new.paused ≡ self.old.paused }
    {
        self.set_size(sheet, LineAxis::Columns, first, last, width)
    }

    /// Gives the rows of the sheet at an index, from a first to a last, a height in half pixels, and
    /// records the change, also where nothing changes. The height is their own from then on, also where
    /// it is 56, which a row has anyway. Hidden rows stay hidden. The errors are those of
    /// `set_columns_width`.
    ///
    /// ```
    /// model.set_rows_height(0, 1, 1, 84)?;
    /// ```
    pub fn set_rows_height(
        &mut self,
        sheet: u32,
        first: i32,
        last: i32,
        height: i32,
    ) -> Result<(), EditError>
        ensures next { Steps result self.old.document self.new.document (edit_of (SetSize sheet Rows first last height)) }
        ensures output { OnOk result (IsMade R.Fits self.new) }
        ensures err { OnErr result (self.new ≡ self.old) }
        ensures paused { self.new.paused ≡ self.old.paused }
    {
        self.set_size(sheet, LineAxis::Rows, first, last, height)
    }

    /// Hides the columns of the sheet at an index, from a first to a last, or shows them again, and
    /// records the change, also where nothing changes. Their widths stay. Where the selected sheet's
    /// columns are hidden, one column is selected then, as a whole: the first one that is shown behind
    /// them, else the nearest one before them, else the first one.
    ///
    /// `InvalidSheet` where there is no such sheet, else `InvalidArea` where one of the two columns is
    /// outside the sheet or the last one is before the first, else `NoMemory` where there is not
    /// enough. An error changes nothing. docs/MODEL.md has the rules.
    ///
    /// ```
    /// model.set_columns_hidden(0, 4, 4, true)?; // column D
    /// ```
    pub fn set_columns_hidden(
        &mut self,
        sheet: u32,
        first: i32,
        last: i32,
        hidden: bool,
    ) -> Result<(), EditError>
        ensures next { Steps result self.old.document self.new.document (edit_of (SetHidden sheet Columns first last hidden)) }
        ensures output { OnOk result (IsMade R.Fits self.new) }
        ensures err { OnErr result (self.new ≡ self.old) }
        ensures paused { self.new.paused ≡ self.old.paused }
    {
        self.set_hidden(sheet, LineAxis::Columns, first, last, hidden)
    }

    /// Hides the rows of the sheet at an index, from a first to a last, or shows them again, and records
    /// the change, also where nothing changes. Their heights stay. The selection moves to a row as it
    /// does to a column in `set_columns_hidden`, which has the errors too.
    ///
    /// ```
    /// model.set_rows_hidden(0, 2, 5, true)?;
    /// ```
    pub fn set_rows_hidden(
        &mut self,
        sheet: u32,
        first: i32,
        last: i32,
        hidden: bool,
    ) -> Result<(), EditError>
        ensures next { Steps result self.old.document self.new.document (edit_of (SetHidden sheet Rows first last hidden)) }
        ensures output { OnOk result (IsMade R.Fits self.new) }
        ensures err { OnErr result (self.new ≡ self.old) }
        ensures paused { self.new.paused ≡ self.old.paused }
    {
        self.set_hidden(sheet, LineAxis::Rows, first, last, hidden)
    }

    /// Sets how many first rows of the sheet at an index are frozen, and records the change, also where
    /// there were as many.
    ///
    /// `InvalidSheet` where there is no such sheet, else `FrozenCount` where the count is below 0 or
    /// above 1048575, so that one row is left, else `NoMemory` where there is not enough. An error
    /// changes nothing.
    ///
    /// ```
    /// model.set_frozen_rows_count(0, 2)?;
    /// ```
    pub fn set_frozen_rows_count(&mut self, sheet: u32, count: i32) -> Result<(), EditError>
        ensures next { Steps result self.old.document self.new.document (edit_of (SetField sheet (FrozenRows count))) }
        ensures output { OnOk result (IsMade R.Fits self.new) }
        ensures err { OnErr result (self.new ≡ self.old) }
        ensures paused { self.new.paused ≡ self.old.paused }
    {
        self.put_field(sheet, SheetField::FrozenRows(count))
    }

    /// Sets how many first columns of the sheet at an index are frozen, and records the change, also
    /// where there were as many. The errors are those of `set_frozen_rows_count`, and the greatest count
    /// is 16383.
    ///
    /// ```
    /// model.set_frozen_columns_count(0, 1)?;
    /// ```
    pub fn set_frozen_columns_count(&mut self, sheet: u32, count: i32) -> Result<(), EditError>
        ensures next { Steps result self.old.document self.new.document (edit_of (SetField sheet (FrozenColumns count))) }
        ensures output { OnOk result (IsMade R.Fits self.new) }
        ensures err { OnErr result (self.new ≡ self.old) }
        ensures paused { self.new.paused ≡ self.old.paused }
    {
        self.put_field(sheet, SheetField::FrozenColumns(count))
    }

    /// The height of a row of the sheet at an index, in half pixels: 0 where it is hidden, else its
    /// own, else 56. It takes no memory.
    ///
    /// `InvalidSheet` where there is no such sheet, else `InvalidRow` where the row is outside the
    /// sheet.
    ///
    /// ```
    /// let height = model.get_row_height(0, 1)?;
    /// ```
    pub fn get_row_height(&self, sheet: u32, row: i32) -> Result<i32, EditError>
        ensures { result ≡ row_height sheet row self.now.document.book }
    {
        row_height(&self.book.workbook, sheet, row)
    }

    /// The width of a column of the sheet at an index, in half pixels: 0 where it is hidden, else its
    /// own, else 250. It takes no memory.
    ///
    /// `InvalidSheet` where there is no such sheet, else `InvalidColumn` where the column is outside
    /// the sheet.
    ///
    /// ```
    /// let width = model.get_column_width(0, 1)?;
    /// ```
    pub fn get_column_width(&self, sheet: u32, column: i32) -> Result<i32, EditError>
        ensures { result ≡ column_width sheet column self.now.document.book }
    {
        column_width(&self.book.workbook, sheet, column)
    }

    /// How many first rows of the sheet at an index are frozen. It takes no memory.
    ///
    /// `InvalidSheet` where there is no such sheet.
    ///
    /// ```
    /// let count = model.get_frozen_rows_count(0)?;
    /// ```
    pub fn get_frozen_rows_count(&self, sheet: u32) -> Result<i32, EditError>
        ensures { result ≡ frozen_rows sheet self.now.document.book }
    {
        frozen_rows(&self.book.workbook, sheet)
    }

    /// How many first columns of the sheet at an index are frozen. It takes no memory.
    ///
    /// `InvalidSheet` where there is no such sheet.
    ///
    /// ```
    /// let count = model.get_frozen_columns_count(0)?;
    /// ```
    pub fn get_frozen_columns_count(&self, sheet: u32) -> Result<i32, EditError>
        ensures { result ≡ frozen_columns sheet self.now.document.book }
    {
        frozen_columns(&self.book.workbook, sheet)
    }
}
