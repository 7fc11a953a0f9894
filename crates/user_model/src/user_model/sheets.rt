//! Sheets that a user adds, copies, deletes, moves, renames, hides, colours and lists.

ghost use Rattle.std.specs.Prelude.{◌≡◌, false, Ok, OnOk, OnErr};
ghost use Rattle.base_values.specs.Answers.{Returns};
ghost use Rattle.sheet_grid.specs.declared.SheetState.TheVariants.{Visible, Hidden};
ghost use Rattle.sheet_history.specs.declared.SheetField.TheVariants as field;
ghost use Rattle.edit_plans.specs.Edits.{is_silent};
ghost use Rattle.edit_plans.specs.Edits.Edit.{AddSheet, CopySheet, DeleteSheet, MoveSheet, RenameSheet, SetField};
ghost use Rattle.edit_plans.specs.SheetEdits.{is_named, stays_there};
ghost use Rattle.open_book.specs.Machine.{edit_of};
ghost use Rattle.user_model.specs.Properties.{all_properties, draws_grid_lines};
ghost use Rattle.open_book.specs.Stands.{Steps};
ghost use Rattle.open_book.specs.Values.{IsMade, Makes};

use super::UserModel;
use crate::properties::{SheetProperties, all_properties, draws_grid_lines};
use crate::view_steps::{selected_after_deletion, selected_after_field};
use base_styles::Color;
use base_values::{EditError, Items};
use edit_plans::{
    plan_copied_sheet, plan_deleted_sheet, plan_field, plan_moved_sheet, plan_new_sheet,
    plan_renamed_sheet, selected_by_copy, selected_by_move, selected_by_new,
    sheet_edits_go_both_ways,
};
use open_book::Recalc;
use sheet_grid::{SheetState, Workbook};
use sheet_history::SheetField;

/// Whether a sheet that is there is to go to its own index.
fn stays_there(workbook: &Workbook, from: u32, to: u32) -> bool
    ensures { result ≡ stays_there from to workbook.now }
{
    from == to && (from as usize) < workbook.worksheets().len()
}

/// Whether a sheet that is there has exactly that name already.
#[tactic(auto, unfolding(edit_plans::specs::SheetEdits::is_named))]
fn is_named(workbook: &Workbook, sheet: u32, name: &str) -> bool
    ensures { result ≡ is_named sheet name.now workbook.now }
{
    match workbook.worksheets().get(sheet as usize) {
        Some(found) => found.get_name() == name,
        None => false,
    }
}

impl<R: Recalc + Drop> UserModel<R> {
    /// Puts an empty sheet behind the last one, selects it, and records the change. Its id is one
    /// above the greatest, and its name is `Sheet` with the least number from 1 on that gives a name
    /// that no other sheet has, whatever the case of its letters.
    ///
    /// `SheetIds` where the greatest id is 4294967295, else `NoMemory` where there is not enough. An
    /// error changes nothing.
    ///
    /// ```
    /// model.new_sheet()?;
    /// ```
    pub fn new_sheet(&mut self) -> Result<(), EditError>
        ensures next { Steps result self.old.document self.new.document (edit_of AddSheet) }
        ensures output { OnOk result (IsMade R.Fits self.new) }
        ensures err { OnErr result (self.new ≡ self.old) }
        ensures paused { self.new.paused ≡ self.old.paused }
    {
        // For the proof alone.
        sheet_edits_go_both_ways();
        let book = &self.book;
        let selected = selected_by_new(&book.workbook, book.view.sheet);
        let plan = plan_new_sheet(book.alloc, &book.workbook);
        self.make(plan, selected)
    }

    /// Puts a copy of the sheet at an index behind it, selects the copy, and records the change. Its
    /// id is that of a new sheet, and its name is that of its source with ` (2)` behind it, or with
    /// the least number from 2 on that gives a free name; of the source's name as much is left as 31
    /// characters in all have room for. The defined names that are known in the source alone are
    /// copied too.
    ///
    /// `InvalidSheet` where there is no such sheet, else `SheetIds` where the greatest id is
    /// 4294967295, else `NoMemory` where there is not enough. An error changes nothing.
    ///
    /// ```
    /// model.duplicate_sheet(0)?; // the copy is at index 1
    /// ```
    pub fn duplicate_sheet(&mut self, sheet: u32) -> Result<(), EditError>
        ensures next { Steps result self.old.document self.new.document (edit_of (CopySheet sheet)) }
        ensures output { OnOk result (IsMade R.Fits self.new) }
        ensures err { OnErr result (self.new ≡ self.old) }
        ensures paused { self.new.paused ≡ self.old.paused }
    {
        // For the proof alone.
        sheet_edits_go_both_ways();
        let book = &self.book;
        let selected = selected_by_copy(&book.workbook, sheet, book.view.sheet);
        let plan = plan_copied_sheet(book.alloc, &book.workbook, sheet);
        self.make(plan, selected)
    }

    /// Takes the sheet at an index away, with the defined names that are known in it alone, and
    /// records the change. Where it was the last one, the sheet before it is selected; else the index
    /// of the selected sheet stays.
    ///
    /// `InvalidSheet` where there is no such sheet, else `OnlySheet` where there is no other one, else
    /// `NoMemory` where there is not enough. An error changes nothing.
    ///
    /// ```
    /// model.delete_sheet(1)?;
    /// ```
    pub fn delete_sheet(&mut self, sheet: u32) -> Result<(), EditError>
        ensures next { Steps result self.old.document self.new.document (edit_of (DeleteSheet sheet)) }
        ensures output { OnOk result (IsMade R.Fits self.new) }
        ensures err { OnErr result (self.new ≡ self.old) }
        ensures paused { self.new.paused ≡ self.old.paused }
    {
        // For the proof alone.
        sheet_edits_go_both_ways();
        let book = &self.book;
        let selected = selected_after_deletion(&book.workbook, sheet, book.view.sheet);
        let plan = plan_deleted_sheet(book.alloc, &book.workbook, sheet);
        self.make(plan, selected)
    }

    /// Takes the sheet at the index `from` to exactly the index `to`, and records the change. The
    /// sheet that was selected stays so. Where the sheet is there and both are equal, nothing is done
    /// and recorded.
    ///
    /// `InvalidSheet` where there is no sheet at either index, else `NoMemory` where there is not
    /// enough. An error changes nothing.
    ///
    /// ```
    /// model.move_sheet(0, 2)?; // the first sheet is the third one now
    /// ```
    pub fn move_sheet(&mut self, from: u32, to: u32) -> Result<(), EditError>
        ensures next { Steps result self.old.document self.new.document (edit_of (MoveSheet from to)) }
        ensures output { OnOk result (Makes (is_silent (MoveSheet from to) self.old.document.book) R.Fits self.old self.new) }
        ensures err { OnErr result (self.new ≡ self.old) }
        ensures paused { self.new.paused ≡ self.old.paused }
    {
        if stays_there(&self.book.workbook, from, to) {
            return Ok(());
        }
        self.take_sheet(from, to)
    }

    /// Takes the sheet at an index to another index, and records the change.
    fn take_sheet(&mut self, from: u32, to: u32) -> Result<(), EditError>
        requires { is_silent (MoveSheet from to) self.now.document.book ≡ false }
        ensures next { Steps result self.old.document self.new.document (edit_of (MoveSheet from to)) }
        ensures output { OnOk result (IsMade R.Fits self.new) }
        ensures err { OnErr result (self.new ≡ self.old) }
        ensures paused { self.new.paused ≡ self.old.paused }
    {
        // For the proof alone.
        sheet_edits_go_both_ways();
        let book = &self.book;
        let selected = selected_by_move(&book.workbook, from, to, book.view.sheet);
        let plan = plan_moved_sheet(book.alloc, &book.workbook, from, to);
        self.make(plan, selected)
    }

    /// Renames the sheet at an index, and records the change. Every reference and range, in a cell,
    /// a conditional rule or a defined name, that names a sheet with the old name, whatever the
    /// case of its letters, names the new one. Where the sheet has exactly that name already,
    /// nothing is done and recorded.
    ///
    /// `InvalidSheet` where there is no such sheet, else `SheetName` where the name has not 1 to 31
    /// characters, or one of them is one of `: \ / ? * [ ]`, or an apostrophe is at one of its ends, or
    /// another sheet has it, whatever the case of the letters; else `NoMemory` where there is not enough.
    /// An error changes nothing.
    ///
    /// ```
    /// model.rename_sheet(0, "Data")?;
    /// ```
    pub fn rename_sheet(&mut self, sheet: u32, name: &str) -> Result<(), EditError>
        ensures next { Steps result self.old.document self.new.document (edit_of (RenameSheet sheet name.now)) }
        ensures output { OnOk result (Makes (is_silent (RenameSheet sheet name.now) self.old.document.book) R.Fits self.old self.new) }
        ensures err { OnErr result (self.new ≡ self.old) }
        ensures paused { self.new.paused ≡ self.old.paused }
    {
        if is_named(&self.book.workbook, sheet, name) {
            return Ok(());
        }
        self.name_sheet(sheet, name)
    }

    /// Gives the sheet at an index another name, and records the change.
    fn name_sheet(&mut self, sheet: u32, name: &str) -> Result<(), EditError>
        requires { is_silent (RenameSheet sheet name.now) self.now.document.book ≡ false }
        ensures next { Steps result self.old.document self.new.document (edit_of (RenameSheet sheet name.now)) }
        ensures output { OnOk result (IsMade R.Fits self.new) }
        ensures err { OnErr result (self.new ≡ self.old) }
        ensures paused { self.new.paused ≡ self.old.paused }
    {
        // For the proof alone.
        sheet_edits_go_both_ways();
        let book = &self.book;
        let selected = book.view.sheet as usize;
        let plan = plan_renamed_sheet(book.alloc, &book.workbook, sheet, name);
        self.make(plan, selected)
    }

    /// Puts a value in a field of the sheet at an index, and records the change.
    pub(super) fn put_field(&mut self, sheet: u32, value: SheetField) -> Result<(), EditError>
        ensures next { Steps result self.old.document self.new.document (edit_of (SetField sheet value)) }
        ensures output { OnOk result (IsMade R.Fits self.new) }
        ensures err { OnErr result (self.new ≡ self.old) }
        ensures paused { self.new.paused ≡ self.old.paused }
    {
        let book = &self.book;
        let selected = selected_after_field(&book.workbook, sheet, value, book.view.sheet);
        let plan = plan_field(book.alloc, &book.workbook, sheet, value);
        self.make(plan, selected)
    }

    /// Hides the sheet at an index, and records the change, also where it was hidden already. The
    /// next visible sheet behind it is selected, else the first one before it, whichever was
    /// selected; without one the selected sheet stays.
    ///
    /// `InvalidSheet` where there is no such sheet, else `NoMemory` where there is not enough. An
    /// error changes nothing.
    ///
    /// ```
    /// model.hide_sheet(0)?;
    /// ```
    pub fn hide_sheet(&mut self, sheet: u32) -> Result<(), EditError>
        ensures next { Steps result self.old.document self.new.document (edit_of (SetField sheet (field.State Hidden))) }
        ensures output { OnOk result (IsMade R.Fits self.new) }
        ensures err { OnErr result (self.new ≡ self.old) }
        ensures paused { self.new.paused ≡ self.old.paused }
    {
        self.put_field(sheet, SheetField::State(SheetState::Hidden))
    }

    /// Shows the sheet at an index again, and records the change, also where it was shown already.
    /// The errors are those of `hide_sheet`.
    ///
    /// ```
    /// model.unhide_sheet(0)?;
    /// ```
    pub fn unhide_sheet(&mut self, sheet: u32) -> Result<(), EditError>
        ensures next { Steps result self.old.document self.new.document (edit_of (SetField sheet (field.State Visible))) }
        ensures output { OnOk result (IsMade R.Fits self.new) }
        ensures err { OnErr result (self.new ≡ self.old) }
        ensures paused { self.new.paused ≡ self.old.paused }
    {
        self.put_field(sheet, SheetField::State(SheetState::Visible))
    }

    /// Colours the tab of the sheet at an index, or takes its colour away, and records the change,
    /// also where the colour was the same. The errors are those of `hide_sheet`.
    ///
    /// ```
    /// model.set_sheet_color(0, &Color::Theme(ThemeColor::Accent1))?;
    /// ```
    pub fn set_sheet_color(&mut self, sheet: u32, color: &Color) -> Result<(), EditError>
        ensures next { Steps result self.old.document self.new.document (edit_of (SetField sheet (field.Color color.now))) }
        ensures output { OnOk result (IsMade R.Fits self.new) }
        ensures err { OnErr result (self.new ≡ self.old) }
        ensures paused { self.new.paused ≡ self.old.paused }
    {
        self.put_field(sheet, SheetField::Color(*color))
    }

    /// Sets whether the grid lines of the sheet at an index are drawn, and records the change, also
    /// where that was so already. The errors are those of `hide_sheet`.
    ///
    /// ```
    /// model.set_show_grid_lines(0, false)?;
    /// ```
    pub fn set_show_grid_lines(&mut self, sheet: u32, show: bool) -> Result<(), EditError>
        ensures next { Steps result self.old.document self.new.document (edit_of (SetField sheet (field.GridLines show))) }
        ensures output { OnOk result (IsMade R.Fits self.new) }
        ensures err { OnErr result (self.new ≡ self.old) }
        ensures paused { self.new.paused ≡ self.old.paused }
    {
        self.put_field(sheet, SheetField::GridLines(show))
    }

    /// Whether the grid lines of the sheet at an index are drawn. It takes no memory.
    ///
    /// `InvalidSheet` where there is no such sheet.
    ///
    /// ```
    /// let is_plain = !model.get_show_grid_lines(0)?;
    /// ```
    pub fn get_show_grid_lines(&self, sheet: u32) -> Result<bool, EditError>
        ensures { result ≡ draws_grid_lines sheet self.now.document.book }
    {
        draws_grid_lines(&self.book.workbook, sheet)
    }

    /// The name, the state, the id and the colour of each sheet, in order. `NoMemory` alone is an
    /// error.
    ///
    /// ```
    /// let sheets = model.get_worksheets_properties()?;
    /// ```
    pub fn get_worksheets_properties(&self) -> Result<Items<SheetProperties>, EditError>
        ensures { Returns result (Ok (all_properties self.now.document.book)) }
    {
        all_properties(self.book.alloc, &self.book.workbook)
    }
}
