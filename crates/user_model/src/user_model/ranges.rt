//! Styles of ranges, and ranges that are cleared.

ghost use Rattle.std.specs.Prelude.{◌≡◌, ◌≢◌, map, IfErr, OnOk, OnErr};
ghost use Rattle.base_values.specs.declared.EditError.TheVariants.{NoMemory};
ghost use Rattle.range_styles.specs.declared.Clearing.TheVariants.{Cells, Contents};
ghost use Rattle.edit_plans.specs.Edits.Edit.{ClearFormatting, ClearRange, PasteStyles, SetRangeStyle};
ghost use Rattle.edit_plans.specs.RangeEdits.{IsPasteRefusal};
ghost use Rattle.open_book.specs.Machine.{edit_of, pasted_edit};
ghost use Rattle.user_model.specs.Reading.{rectangle_of};
ghost use Rattle.open_book.specs.Stands.{Steps};
ghost use Rattle.open_book.specs.Values.{IsMade};

use super::UserModel;
use crate::reading::rectangle_of;
use crate::view_steps::{pasted_rectangle, seen_by_pasting};
use base_axis::{Area, MergedCell};
use base_styles::Style;
use base_values::EditError;
use edit_plans::{plan_clear, plan_clear_formatting, plan_pasted, plan_styles};
use open_book::Recalc;
use range_styles::Clearing;

impl<R: Recalc + Drop> UserModel<R> {
    /// Gives an attribute of the styles of a rectangle of the sheet at an index a value.
    fn set_styles(
        &mut self,
        sheet: u32,
        area: MergedCell,
        path: &str,
        value: &str,
    ) -> Result<(), EditError>
        ensures next { Steps result self.old.document self.new.document (edit_of (SetRangeStyle sheet area path.now value.now)) }
        ensures output { OnOk result (IsMade R.Fits self.new) }
        ensures err { OnErr result (self.new ≡ self.old) }
        ensures paused { self.new.paused ≡ self.old.paused }
    {
        let book = &self.book;
        let plan = plan_styles(
            book.alloc,
            &book.default_style,
            &book.workbook,
            sheet,
            area,
            path,
            value,
        );
        let selected = book.view.sheet as usize;
        self.make(plan, selected)
    }

    /// Clears a rectangle of the sheet at an index.
    fn clear(&mut self, sheet: u32, clearing: Clearing, area: MergedCell) -> Result<(), EditError>
        ensures next { Steps result self.old.document self.new.document (edit_of (ClearRange sheet clearing area)) }
        ensures output { OnOk result (IsMade R.Fits self.new) }
        ensures err { OnErr result (self.new ≡ self.old) }
        ensures paused { self.new.paused ≡ self.old.paused }
    {
        let book = &self.book;
        let plan = plan_clear(book.alloc, &book.workbook, sheet, clearing, area);
        let selected = book.view.sheet as usize;
        self.make(plan, selected)
    }

    /// Takes the styles of a rectangle of the sheet at an index away.
    fn clear_formats(&mut self, sheet: u32, area: MergedCell) -> Result<(), EditError>
        ensures next { Steps result self.old.document self.new.document (edit_of (ClearFormatting sheet area)) }
        ensures output { OnOk result (IsMade R.Fits self.new) }
        ensures err { OnErr result (self.new ≡ self.old) }
        ensures paused { self.new.paused ≡ self.old.paused }
    {
        let book = &self.book;
        let plan = plan_clear_formatting(
            book.alloc,
            &book.default_style,
            &book.workbook,
            sheet,
            area,
        );
        let selected = book.view.sheet as usize;
        self.make(plan, selected)
    }

    /// Gives one attribute of the styles of a rectangle a value, and records the change, also where
    /// nothing changes. A path names the attribute, as `font.b`. A rectangle of full columns begins at
    /// row 1 and has all rows: then the columns' styles get the value, and the styles of the places that
    /// have a cell or whose row has a style. Any other rectangle that begins at column 1 and has all
    /// columns is one of full rows, and goes likewise. In any other one each place gets it.
    ///
    /// `InvalidSheet` where there is no such sheet, else `InvalidArea` where the rectangle is empty or
    /// reaches outside the sheet, else `StylePath` where no attribute has the path, else `StyleValue`
    /// where one of the styles may not have the value, else `NoMemory` where there is not enough. An
    /// error changes nothing. docs/MODEL.md has the rules.
    ///
    /// ```
    /// let area = Area { sheet: 0, row: 1, column: 1, width: 2, height: 1 };
    /// model.update_range_style(&area, "font.b", "true")?;
    /// ```
    pub fn update_range_style(
        &mut self,
        area: &Area,
        path: &str,
        value: &str,
    ) -> Result<(), EditError>
        ensures next { Steps result self.old.document self.new.document (edit_of (SetRangeStyle area.now.sheet (rectangle_of area.now) path.now value.now)) }
        ensures output { OnOk result (IsMade R.Fits self.new) }
        ensures err { OnErr result (self.new ≡ self.old) }
        ensures paused { self.new.paused ≡ self.old.paused }
    {
        self.set_styles(area.sheet, rectangle_of(area), path, value)
    }

    /// Takes the cells and links of a rectangle away, and records the change, also where there is none.
    ///
    /// `InvalidSheet` where there is no such sheet, else `InvalidArea` where the rectangle is empty or
    /// reaches outside the sheet, else `PartialArray` where an array of more than one cell meets it and
    /// is not inside it, else `NoMemory` where there is not enough. An error changes nothing.
    ///
    /// ```
    /// model.range_clear_all(&Area { sheet: 0, row: 1, column: 1, width: 2, height: 1 })?;
    /// ```
    pub fn range_clear_all(&mut self, area: &Area) -> Result<(), EditError>
        ensures next { Steps result self.old.document self.new.document (edit_of (ClearRange area.now.sheet Cells (rectangle_of area.now))) }
        ensures output { OnOk result (IsMade R.Fits self.new) }
        ensures err { OnErr result (self.new ≡ self.old) }
        ensures paused { self.new.paused ≡ self.old.paused }
    {
        self.clear(area.sheet, Clearing::Cells, rectangle_of(area))
    }

    /// Takes the contents of the cells of a rectangle and its links away, and records the change, also
    /// where there is none. The cells keep their styles. The errors are those of `range_clear_all`.
    ///
    /// ```
    /// model.range_clear_contents(&Area { sheet: 0, row: 1, column: 1, width: 2, height: 1 })?;
    /// ```
    pub fn range_clear_contents(&mut self, area: &Area) -> Result<(), EditError>
        ensures next { Steps result self.old.document self.new.document (edit_of (ClearRange area.now.sheet Contents (rectangle_of area.now))) }
        ensures output { OnOk result (IsMade R.Fits self.new) }
        ensures err { OnErr result (self.new ≡ self.old) }
        ensures paused { self.new.paused ≡ self.old.paused }
    {
        self.clear(area.sheet, Clearing::Contents, rectangle_of(area))
    }

    /// Takes the styles of a rectangle away, and records the change, also where there is none. Of full
    /// columns and full rows the styles of the lines go, and their cells get the default style, of full
    /// columns also the places whose row has a style; of other rectangles the cells get it, and the
    /// places that show another style.
    ///
    /// `InvalidSheet` where there is no such sheet, else `InvalidArea` where the rectangle is empty or
    /// reaches outside the sheet, else `NoMemory` where there is not enough. An error changes nothing.
    ///
    /// ```
    /// model.range_clear_formatting(&Area { sheet: 0, row: 1, column: 1, width: 2, height: 1 })?;
    /// ```
    pub fn range_clear_formatting(&mut self, area: &Area) -> Result<(), EditError>
        ensures next { Steps result self.old.document self.new.document (edit_of (ClearFormatting area.now.sheet (rectangle_of area.now))) }
        ensures output { OnOk result (IsMade R.Fits self.new) }
        ensures err { OnErr result (self.new ≡ self.old) }
        ensures paused { self.new.paused ≡ self.old.paused }
    {
        self.clear_formats(area.sheet, rectangle_of(area))
    }

    /// Gives the places of the selected rectangle styles, row by row, and records the change. Where it
    /// is smaller than they are, it grows to their size from its first place, and where it is greater,
    /// they are repeated. That rectangle is selected then.
    ///
    /// `StylesShape` where there is no row, the first one is empty, rows differ in length, or a font has
    /// a size below 1, else `InvalidArea` where the rectangle reaches outside the sheet, else `NoMemory`
    /// where there is not enough. An error changes nothing.
    ///
    /// ```
    /// model.set_selected_range(2, 2, 3, 4)?;
    /// model.on_paste_styles(&copied)?;
    /// ```
    pub fn on_paste_styles(&mut self, styles: &[Vec<Style>]) -> Result<(), EditError>
        ensures next { Steps result self.old.document self.new.document (pasted_edit (map (λ row. row.items) styles.now)) }
        ensures refusals { IfErr result (λ error. error ≢ NoMemory → IsPasteRefusal error) }
        ensures output { OnOk result (IsMade R.Fits self.new) }
        ensures err { OnErr result (self.new ≡ self.old) }
        ensures paused { self.new.paused ≡ self.old.paused }
    {
        let book = &self.book;
        let view = book.view;
        let area = pasted_rectangle(styles, view.range);
        let plan = plan_pasted(
            book.alloc,
            &book.default_style,
            &book.workbook,
            view.sheet,
            area,
            styles,
        );
        let seen = seen_by_pasting(area, view);
        self.make_seen(plan, view.sheet as usize, seen)
    }
}
