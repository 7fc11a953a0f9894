ghost use Rattle.std.specs.Prelude.{◌≡◌, Ok};
ghost use Rattle.base_values.specs.Answers.{Changes, map_ok};
ghost use Rattle.base_axis.specs.Along.{rows, columns};
ghost use Rattle.line_edits.specs.Edit.{IsValid};
ghost use Rattle.line_edits.specs.declared.EditKind.TheVariants.{Insert, Delete};
ghost use Rattle.sheet_rules.specs.WellFormed.{IsWellFormed};
ghost use Rattle.sheet_lines.specs.Followed.{book_followed};
ghost use Rattle.sheet_actions.specs.Checked.{checked};
ghost use Rattle.sheet_actions.specs.laws.WellFormedProp.{well_formed_prop};
ghost use Rattle.sheet_actions.specs.Edited.{lines_edited, lines_moved};
ghost use Rattle.sheet_actions.specs.Whole.{IsAllowed};

use crate::plan::{plan_delete, plan_insert, plan_move};
use base_axis::{Axis, ColumnAxis, RowAxis};
use base_values::EditError;
use line_map::LineEdit;
use sheet_grid::Workbook;
use sheet_lines::followed_book;
use sheet_rules::broken_rule;
use std::alloc::Global;

/// A workbook that keeps the rules of a well-formed one. docs/MODEL.md has the rules.
#[derive(Drop)]
pub struct Model {
    alloc: Global,
    workbook: Workbook,
    ghost rules: { IsWellFormed workbook } by { well_formed_prop workbook },
}

impl Model {
    ghost use Rattle.sheet_actions.specs.Shown.{book_of};

    /// A model of a workbook. `IllFormed` with the first rule that the workbook breaks, if it
    /// breaks one. It takes no memory.
    pub fn from_workbook(alloc: Global, workbook: Workbook) -> Result<Model, EditError>
        ensures { map_ok book_of result ≡ checked workbook }
    {
        match broken_rule(&workbook) {
            None => Ok(Model { alloc, workbook }),
            Some(rule) => Err(EditError::IllFormed { rule }),
        }
    }

    /// The workbook as it is now.
    pub fn workbook(&self) -> &Workbook
        ensures now { result.now ≡ book_of self.now }
        ensures rules { IsWellFormed (book_of self.now) }
    {
        &self.workbook
    }

    /// The workbook as it is now, without a copy.
    pub fn into_workbook(self) -> Workbook
        ensures now { result ≡ book_of self }
        ensures rules { IsWellFormed (book_of self) }
    {
        self.workbook
    }

    /// Edits lines of the sheet of an id.
    fn edit_lines<A: Axis>(&mut self, id: u32, edit: &LineEdit<A>) -> Result<(), EditError>
        requires valid { IsValid A.along.last edit.now.kind }
        requires allowed { IsAllowed A.along edit.now.kind id (book_of self.now) }
        ensures { Changes result (book_of self.old) (book_of self.new) (Ok (book_followed A.along edit.now.kind id (book_of self.old))) }
    {
        self.workbook = followed_book(self.alloc, &self.workbook, id, edit)?;
        Ok(())
    }

    /// Moves lines of the sheet at an index, unless no line moves, or by none.
    fn move_lines<A: Axis>(
        &mut self,
        sheet: u32,
        first: i32,
        count: i32,
        delta: i32,
    ) -> Result<(), EditError>
        ensures { Changes result (book_of self.old) (book_of self.new) (lines_moved A.along first count delta sheet (book_of self.old)) }
    {
        if delta == 0 || count < 1 {
            return Ok(());
        }
        let (id, edit) = plan_move::<A>(&self.workbook, sheet, first, count, delta)?;
        self.edit_lines(id, &edit)
    }

    /// Inserts `count` empty rows at a row of the sheet at an index. Rows are counted from 1. Its
    /// cells, links and row attributes go where their rows go, its merges and conditional rules
    /// follow, and the formulas of all sheets do.
    ///
    /// The errors are those of `plan_insert`, and `NoMemory`. After one the model is as before.
    pub fn insert_rows(&mut self, sheet: u32, row: i32, count: i32) -> Result<(), EditError>
        ensures { Changes result (book_of self.old) (book_of self.new) (lines_edited rows (Insert row count) sheet (book_of self.old)) }
    {
        let (id, edit) = plan_insert::<RowAxis>(&self.workbook, sheet, row, count)?;
        self.edit_lines(id, &edit)
    }

    /// Inserts `count` empty columns at a column of the sheet at an index. Columns are counted from
    /// 1. Its cells, links and column attributes go where their columns go, its merges and
    /// conditional rules follow, and the formulas of all sheets do. The new columns have the
    /// attributes of the columns before and behind them where these are equal, else none.
    ///
    /// The errors are those of `plan_insert`, and `NoMemory`. After one the model is as before.
    pub fn insert_columns(&mut self, sheet: u32, column: i32, count: i32) -> Result<(), EditError>
        ensures { Changes result (book_of self.old) (book_of self.new) (lines_edited columns (Insert column count) sheet (book_of self.old)) }
    {
        let (id, edit) = plan_insert::<ColumnAxis>(&self.workbook, sheet, column, count)?;
        self.edit_lines(id, &edit)
    }

    /// Deletes `count` rows from a row on of the sheet at an index. The cells, links and row
    /// attributes of the rows behind go back, the merges and conditional rules of the sheet follow,
    /// and the formulas of all sheets do.
    ///
    /// The errors are those of `plan_delete`, and `NoMemory`. After one the model is as before.
    pub fn delete_rows(&mut self, sheet: u32, row: i32, count: i32) -> Result<(), EditError>
        ensures { Changes result (book_of self.old) (book_of self.new) (lines_edited rows (Delete row count) sheet (book_of self.old)) }
    {
        let (id, edit) = plan_delete::<RowAxis>(&self.workbook, sheet, row, count)?;
        self.edit_lines(id, &edit)
    }

    /// Deletes `count` columns from a column on of the sheet at an index. The cells, links and
    /// column attributes of the columns behind go back, the merges and conditional rules of the sheet
    /// follow, and the formulas of all sheets do.
    ///
    /// The errors are those of `plan_delete`, and `NoMemory`. After one the model is as before.
    pub fn delete_columns(&mut self, sheet: u32, column: i32, count: i32) -> Result<(), EditError>
        ensures { Changes result (book_of self.old) (book_of self.new) (lines_edited columns (Delete column count) sheet (book_of self.old)) }
    {
        let (id, edit) = plan_delete::<ColumnAxis>(&self.workbook, sheet, column, count)?;
        self.edit_lines(id, &edit)
    }

    /// Moves `count` rows from a row on of the sheet at an index on by `delta` rows, or back where
    /// it is below 0. The rows that they pass go by `count` the other way. Cells, links and row
    /// attributes go where their rows go, the merges and conditional rules of the sheet follow, and
    /// the formulas of all sheets do. Nothing is done, and nothing refused, where `delta` is 0 or
    /// `count` is below 1.
    ///
    /// The errors are those of `plan_move`, and `NoMemory`. After one the model is as before.
    pub fn move_rows_action(
        &mut self,
        sheet: u32,
        row: i32,
        count: i32,
        delta: i32,
    ) -> Result<(), EditError>
        ensures { Changes result (book_of self.old) (book_of self.new) (lines_moved rows row count delta sheet (book_of self.old)) }
    {
        self.move_lines::<RowAxis>(sheet, row, count, delta)
    }

    /// Moves `count` columns from a column on of the sheet at an index on by `delta` columns, or
    /// back where it is below 0. The columns that they pass go by `count` the other way. Cells,
    /// links and column attributes go where their columns go, the merges and conditional rules of
    /// the sheet follow, and the formulas of all sheets do. Nothing is done, and nothing refused,
    /// where `delta` is 0 or `count` is below 1.
    ///
    /// The errors are those of `plan_move`, and `NoMemory`. After one the model is as before.
    pub fn move_columns_action(
        &mut self,
        sheet: u32,
        column: i32,
        count: i32,
        delta: i32,
    ) -> Result<(), EditError>
        ensures { Changes result (book_of self.old) (book_of self.new) (lines_moved columns column count delta sheet (book_of self.old)) }
    {
        self.move_lines::<ColumnAxis>(sheet, column, count, delta)
    }
}
