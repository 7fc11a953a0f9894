//! What a user has selected of a workbook.

ghost use Rattle.std.specs.Prelude.{◌≡◌, ◌≢◌, length, Err, IfOk};
ghost use Rattle.base_values.specs.Answers.{Edits, map_ok};
ghost use Rattle.base_values.specs.declared.EditError.TheVariants.{NoMemory};
ghost use Rattle.sheet_ids.specs.Views.{IsViewOf, range_chosen};
ghost use Rattle.open_book.specs.Machine.{looking, range_selected, sheet_selected};
ghost use Rattle.open_book.specs.Stands.{Moves, OnStates, Steps};
ghost use Rattle.open_book.specs.Values.{seeing};
ghost use Rattle.open_book.specs.Views.{sheet_chosen};

use super::UserModel;
use crate::view_steps::choose_sheet;
use base_values::EditError;
use open_book::Recalc;
use sheet_ids::View;

impl<R: Recalc + Drop> UserModel<R> {
    /// What is selected of the workbook: a sheet by its index, counted from 0, and a rectangle of it
    /// by its first row, its first column, its last row and its last column. It takes no memory.
    ///
    /// ```
    /// let sheet = model.get_view().sheet;
    /// ```
    pub fn get_view(&self) -> View
        ensures { result ≡ self.now.document.view }
    {
        self.book.view
    }

    /// Puts another view in place of the one before.
    fn put_view(&mut self, view: View)
        requires { IsViewOf (length self.now.document.book.worksheets) view }
        ensures { self.new ≡ seeing self.old view }
    {
        self.book.view = view;
    }

    /// Puts a view that was chosen in place of the one before, or refuses as the choice does.
    fn look(&mut self, chosen: Result<View, EditError>) -> Result<(), EditError>
        requires sure { chosen ≢ Err NoMemory }
        requires seen { IfOk chosen (IsViewOf (length self.now.document.book.worksheets)) }
        ensures seen { Edits result self.old self.new (map_ok (seeing self.old) chosen) }
        ensures next { OnStates self.old.document (λ state. Moves result self.new.document (looking chosen state)) }
        ensures sure { result ≢ Err NoMemory }
    {
        match chosen {
            Ok(view) => {
                self.put_view(view);
                Ok(())
            }
            Err(error) => Err(error),
        }
    }

    /// Selects the sheet at an index, at A1 where another one was selected. It is no edit: nothing is
    /// recorded, and what was undone can still be made again. It takes no memory.
    ///
    /// `InvalidSheet` where there is no such sheet, and nothing has changed then.
    ///
    /// ```
    /// model.set_selected_sheet(1)?;
    /// ```
    pub fn set_selected_sheet(&mut self, sheet: u32) -> Result<(), EditError>
        ensures seen { Edits result self.old self.new (map_ok (seeing self.old) (sheet_chosen sheet self.old.document.book self.old.document.view)) }
        ensures next { Steps result self.old.document self.new.document (sheet_selected sheet) }
        ensures sure { result ≢ Err NoMemory }
    {
        let chosen = choose_sheet(&self.book.workbook, sheet, self.book.view);
        self.look(chosen)
    }

    /// Selects a rectangle of the selected sheet by its first row, its first column, its last row and
    /// its last column, counted from 1. It is no edit, as `set_selected_sheet` is none, and takes no
    /// memory.
    ///
    /// `InvalidArea` where the rectangle reaches outside the sheet, or a first line is after its last,
    /// and nothing has changed then.
    ///
    /// ```
    /// model.set_selected_range(2, 1, 4, 1)?; // A2 to A4
    /// ```
    pub fn set_selected_range(
        &mut self,
        first_row: i32,
        first_column: i32,
        last_row: i32,
        last_column: i32,
    ) -> Result<(), EditError>
        ensures seen { Edits result self.old self.new (map_ok (seeing self.old) (range_chosen self.old.document.view first_row first_column last_row last_column)) }
        ensures next { Steps result self.old.document self.new.document (range_selected first_row first_column last_row last_column) }
        ensures sure { result ≢ Err NoMemory }
    {
        let view = self.book.view;
        let chosen = view.with_range(first_row, first_column, last_row, last_column);
        self.look(chosen)
    }
}
