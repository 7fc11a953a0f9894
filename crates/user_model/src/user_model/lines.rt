//! Rows and columns that a user inserts, deletes and moves.

ghost use Rattle.std.specs.Prelude.{◌≡◌, OnOk, OnErr};
ghost use Rattle.line_edits.specs.declared.EditKind.TheVariants.{Insert, Delete};
ghost use Rattle.sheet_history.specs.LineDiffs.{along_of};
ghost use Rattle.sheet_history.specs.declared.LineAxis.TheVariants.{Rows, Columns};
ghost use Rattle.edit_plans.specs.Edits.{is_silent};
ghost use Rattle.edit_plans.specs.Edits.Edit.{Lines, MoveLines};
ghost use Rattle.open_book.specs.Machine.{edit_of};
ghost use Rattle.open_book.specs.Stands.{Steps};
ghost use Rattle.open_book.specs.Values.{IsMade, Makes};

use super::UserModel;
use base_axis::{Axis, ColumnAxis, RowAxis};
use base_values::EditError;
use line_map::EditKind;
use open_book::Recalc;
use sheet_history::LineAxis;

impl<R: Recalc + Drop> UserModel<R> {
    /// Edits lines along an axis, which is `A`.
    fn edit_lines<A: Axis>(
        &mut self,
        sheet: u32,
        axis: LineAxis,
        kind: EditKind,
    ) -> Result<(), EditError>
        requires { A.along ≡ along_of axis }
        ensures next { Steps result self.old.document self.new.document (edit_of (Lines sheet axis kind)) }
        ensures output { OnOk result (IsMade R.Fits self.new) }
        ensures err { OnErr result (self.new ≡ self.old) }
        ensures paused { self.new.paused ≡ self.old.paused }
    {
        self.book
            .edit_lines::<R, A>(&mut self.results, &mut self.recalc, sheet, axis, kind)
    }

    /// Moves lines along an axis, which is `A`, past the hidden ones in the way.
    fn move_lines<A: Axis>(
        &mut self,
        sheet: u32,
        axis: LineAxis,
        first: i32,
        count: i32,
        delta: i32,
    ) -> Result<(), EditError>
        requires { A.along ≡ along_of axis }
        ensures next { Steps result self.old.document self.new.document (edit_of (MoveLines sheet axis first count delta)) }
        ensures output { OnOk result (Makes (is_silent (MoveLines sheet axis first count delta) self.old.document.book) R.Fits self.old self.new) }
        ensures err { OnErr result (self.new ≡ self.old) }
        ensures paused { self.new.paused ≡ self.old.paused }
    {
        self.book.move_lines::<R, A>(
            &mut self.results,
            &mut self.recalc,
            sheet,
            axis,
            first,
            count,
            delta,
        )
    }

    /// Inserts empty rows in the sheet at an index, as many as the count, before a row. Its cells
    /// with their links, its merges, its conditional rules and its rows go where their lines go,
    /// and the formulas of all sheets follow.
    ///
    /// `InvalidSheet` where there is no such sheet, else `BadCount` where the count is below 1, else
    /// `InvalidRow` where the row is outside the sheet, else `SplitsArray` where an array stands on
    /// both sides of it, else `OverEdge` where the last row with a cell, or that an array fills, and
    /// the count together exceed the last row of the sheet, else `NoMemory` where there is not
    /// enough. That last row may be before the inserted ones too, and in an empty sheet it is the
    /// first. An error changes nothing. docs/MODEL.md has the rules.
    ///
    /// ```
    /// model.insert_rows(0, 3, 2)?; // what stood in row 3 stands in row 5
    /// ```
    pub fn insert_rows(&mut self, sheet: u32, row: i32, count: i32) -> Result<(), EditError>
        ensures next { Steps result self.old.document self.new.document (edit_of (Lines sheet Rows (Insert row count))) }
        ensures output { OnOk result (IsMade R.Fits self.new) }
        ensures err { OnErr result (self.new ≡ self.old) }
        ensures paused { self.new.paused ≡ self.old.paused }
    {
        self.edit_lines::<RowAxis>(
            sheet,
            LineAxis::Rows,
            EditKind::Insert { first: row, count },
        )
    }

    /// Inserts empty columns in the sheet at an index, as many as the count, before a column. Its
    /// cells with their links, its merges, its conditional rules and its columns go where their
    /// lines go, and the formulas of all sheets follow.
    ///
    /// `InvalidSheet` where there is no such sheet, else `BadCount` where the count is below 1, else
    /// `InvalidColumn` where the column is outside the sheet, else `SplitsArray` where an array stands on
    /// both sides of it, else `OverEdge` where the last column with a cell, or that an array fills, and
    /// the count together exceed the last column of the sheet, else `NoMemory` where there is not
    /// enough. That last column may be before the inserted ones too, and in an empty sheet it is the
    /// first. An error changes nothing. docs/MODEL.md has the rules.
    ///
    /// ```
    /// model.insert_columns(0, 1, 1)?; // what stood in column A stands in column B
    /// ```
    pub fn insert_columns(&mut self, sheet: u32, column: i32, count: i32) -> Result<(), EditError>
        ensures next { Steps result self.old.document self.new.document (edit_of (Lines sheet Columns (Insert column count))) }
        ensures output { OnOk result (IsMade R.Fits self.new) }
        ensures err { OnErr result (self.new ≡ self.old) }
        ensures paused { self.new.paused ≡ self.old.paused }
    {
        self.edit_lines::<ColumnAxis>(
            sheet,
            LineAxis::Columns,
            EditKind::Insert {
                first: column,
                count,
            },
        )
    }

    /// Deletes rows of the sheet at an index, as many as the count, from a row on. What stood there
    /// can be taken back by `undo`.
    ///
    /// `InvalidSheet`, `BadCount` and `InvalidRow` as `insert_rows` answers them, else
    /// `TargetOutOfBounds` where the last row to delete is outside the sheet, else `SplitsArray`
    /// where an array has some of these rows and others, else `NoMemory` where there is not enough.
    /// An error changes nothing. docs/MODEL.md has the rules.
    ///
    /// ```
    /// model.delete_rows(0, 3, 2)?; // rows 3 and 4
    /// ```
    pub fn delete_rows(&mut self, sheet: u32, row: i32, count: i32) -> Result<(), EditError>
        ensures next { Steps result self.old.document self.new.document (edit_of (Lines sheet Rows (Delete row count))) }
        ensures output { OnOk result (IsMade R.Fits self.new) }
        ensures err { OnErr result (self.new ≡ self.old) }
        ensures paused { self.new.paused ≡ self.old.paused }
    {
        self.edit_lines::<RowAxis>(
            sheet,
            LineAxis::Rows,
            EditKind::Delete { first: row, count },
        )
    }

    /// Deletes columns of the sheet at an index, as many as the count, from a column on. What stood there
    /// can be taken back by `undo`.
    ///
    /// `InvalidSheet`, `BadCount` and `InvalidColumn` as `insert_columns` answers them, else
    /// `TargetOutOfBounds` where the last column to delete is outside the sheet, else `SplitsArray`
    /// where an array has some of these columns and others, else `NoMemory` where there is not enough.
    /// An error changes nothing. docs/MODEL.md has the rules.
    ///
    /// ```
    /// model.delete_columns(0, 2, 1)?; // column B
    /// ```
    pub fn delete_columns(&mut self, sheet: u32, column: i32, count: i32) -> Result<(), EditError>
        ensures next { Steps result self.old.document self.new.document (edit_of (Lines sheet Columns (Delete column count))) }
        ensures output { OnOk result (IsMade R.Fits self.new) }
        ensures err { OnErr result (self.new ≡ self.old) }
        ensures paused { self.new.paused ≡ self.old.paused }
    {
        self.edit_lines::<ColumnAxis>(
            sheet,
            LineAxis::Columns,
            EditKind::Delete {
                first: column,
                count,
            },
        )
    }

    /// Moves rows of the sheet at an index, as many as the count, from a first one on, by `delta`
    /// rows on, or back where it is below 0. Hidden rows in the way are passed too, beyond `delta`.
    /// What stands there goes along, and the formulas of all sheets follow.
    ///
    /// Where `delta` is 0 or the count below 1 nothing is done and recorded, whatever else is asked.
    /// Else `InvalidSheet` where there is no such sheet, else `TargetOutOfBounds` where one of these
    /// rows, or where it goes, is outside the sheet, else `SplitsArray` where an array has some of the
    /// rows, or some that they pass, and others, else `SplitsMerge` where a merge has, else `NoMemory`
    /// where there is not enough. An error changes nothing. docs/MODEL.md has the rules.
    ///
    /// ```
    /// model.move_rows_action(0, 2, 1, 3)?; // row 2 becomes row 5
    /// ```
    pub fn move_rows_action(
        &mut self,
        sheet: u32,
        row: i32,
        count: i32,
        delta: i32,
    ) -> Result<(), EditError>
        ensures next { Steps result self.old.document self.new.document (edit_of (MoveLines sheet Rows row count delta)) }
        ensures output { OnOk result (Makes (is_silent (MoveLines sheet Rows row count delta) self.old.document.book) R.Fits self.old self.new) }
        ensures err { OnErr result (self.new ≡ self.old) }
        ensures paused { self.new.paused ≡ self.old.paused }
    {
        self.move_lines::<RowAxis>(sheet, LineAxis::Rows, row, count, delta)
    }

    /// Moves columns of the sheet at an index, as many as the count, from a first one on, by `delta`
    /// columns on, or back where it is below 0. Hidden columns in the way are passed too, beyond `delta`.
    /// What stands there goes along, and the formulas of all sheets follow.
    ///
    /// Where `delta` is 0 or the count below 1 nothing is done and recorded, whatever else is asked.
    /// Else `InvalidSheet` where there is no such sheet, else `TargetOutOfBounds` where one of these
    /// columns, or where it goes, is outside the sheet, else `SplitsArray` where an array has some of the
    /// columns, or some that they pass, and others, else `SplitsMerge` where a merge has, else `NoMemory`
    /// where there is not enough. An error changes nothing. docs/MODEL.md has the rules.
    ///
    /// ```
    /// model.move_columns_action(0, 4, 2, -3)?; // columns D and E become A and B
    /// ```
    pub fn move_columns_action(
        &mut self,
        sheet: u32,
        column: i32,
        count: i32,
        delta: i32,
    ) -> Result<(), EditError>
        ensures next { Steps result self.old.document self.new.document (edit_of (MoveLines sheet Columns column count delta)) }
        ensures output { OnOk result (Makes (is_silent (MoveLines sheet Columns column count delta) self.old.document.book) R.Fits self.old self.new) }
        ensures err { OnErr result (self.new ≡ self.old) }
        ensures paused { self.new.paused ≡ self.old.paused }
    {
        self.move_lines::<ColumnAxis>(sheet, LineAxis::Columns, column, count, delta)
    }
}
