//! Rows and columns that are filled.

ghost use Rattle.std.specs.Prelude.{◌≡◌, OnOk, OnErr};
ghost use Rattle.sheet_history.specs.declared.LineAxis.TheVariants.{Rows, Columns};
ghost use Rattle.user_model.specs.Reading.{rectangle_of};
ghost use Rattle.open_book.specs.Stands.{Steps};
ghost use Rattle.user_model.specs.Typing.{fill_asked};
ghost use Rattle.open_book.specs.Values.{IsMade};

use super::UserModel;
use base_axis::Area;
use base_values::EditError;
use edit_plans::plan_auto_fill;
use open_book::Recalc;
use sheet_history::LineAxis;

impl<R: Recalc + Drop> UserModel<R> {
    /// Fills from an area to a row or a column, and records the change.
    fn auto_fill(&mut self, area: &Area, axis: LineAxis, to: i32) -> Result<(), EditError>
        ensures next { Steps result self.old.document self.new.document (fill_asked area.now.sheet axis (rectangle_of area.now) to) }
        ensures output { OnOk result (IsMade R.Fits self.new) }
        ensures err { OnErr result (self.new ≡ self.old) }
        ensures paused { self.new.paused ≡ self.old.paused }
    {
        let book = &self.book;
        let plan = plan_auto_fill(book.alloc, &book.workbook, area, axis, to, book.language);
        let selected = book.view.sheet as usize;
        self.make(plan, selected)
    }

    /// Fills the rows between an area, the source, and a row, that row too, in the columns of the
    /// area, and records the change, also where nothing changes. The area goes on: each column that
    /// holds numbers with the same step, texts that end in such numbers, or names of days or months
    /// with the same step gets what comes next; any other repeats its cells, and the relative
    /// references of formulas move along. Each cell gets the style that shows at the one that it
    /// repeats, and its link. Merges of the area repeat as well, and those of the filled rows go. What
    /// goes on is read in the display language.
    ///
    /// `InvalidSheet` where there is no such sheet, else `InvalidArea` where the area is empty or
    /// reaches outside the sheet, else `InvalidRow` where the row is outside it, else `NothingToFill`
    /// where the row is one of the area's, else `PartialMerge` where a merge meets the area or what is
    /// filled and is wholly in neither, else `CutMerge` where what is filled ends within a repetition
    /// of a merge of the area, else `PartialArray` where an array of more than one cell meets what is
    /// filled and reaches out of it, else `NoMemory` where there is not enough. An error changes
    /// nothing. docs/MODEL.md has the rules.
    ///
    /// ```
    /// let area = Area { sheet: 0, row: 1, column: 1, width: 1, height: 3 };
    /// model.auto_fill_rows(&area, 5)?; // A4 and A5 go on from A1 to A3
    /// ```
    pub fn auto_fill_rows(&mut self, area: &Area, to_row: i32) -> Result<(), EditError>
        ensures next { Steps result self.old.document self.new.document (fill_asked area.now.sheet Rows (rectangle_of area.now) to_row) }
        ensures output { OnOk result (IsMade R.Fits self.new) }
        ensures err { OnErr result (self.new ≡ self.old) }
        ensures paused { self.new.paused ≡ self.old.paused }
    {
        self.auto_fill(area, LineAxis::Rows, to_row)
    }

    /// Fills the columns between an area, the source, and a column, that column too, in the rows of the
    /// area, and records the change, as `auto_fill_rows` does with rows. `InvalidColumn` takes the place
    /// of `InvalidRow`.
    ///
    /// ```
    /// let area = Area { sheet: 0, row: 1, column: 1, width: 2, height: 1 };
    /// model.auto_fill_columns(&area, 6)?; // C1 to F1 go on from A1 and B1
    /// ```
    pub fn auto_fill_columns(&mut self, area: &Area, to_column: i32) -> Result<(), EditError>
        ensures next { Steps result self.old.document self.new.document (fill_asked area.now.sheet Columns (rectangle_of area.now) to_column) }
        ensures output { OnOk result (IsMade R.Fits self.new) }
        ensures err { OnErr result (self.new ≡ self.old) }
        ensures paused { self.new.paused ≡ self.old.paused }
    {
        self.auto_fill(area, LineAxis::Columns, to_column)
    }
}
