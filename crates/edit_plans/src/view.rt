//! Which sheet is selected after an edit of the sheets. Each is asked before the edit; `viewed` of the
//! later sheets, where that index is selected, is then the view.

ghost use Rattle.std.specs.Prelude.{◌≡◌, ◌≤ℤ◌, ◌<◌, length, pos, Ok};
ghost use Rattle.line_sizes.specs.ShownLines.{next_shown};
ghost use Rattle.sheet_history.specs.LineDiffs.{along_of};
ghost use Rattle.edit_plans.specs.LineRecords.{lines_of};
ghost use Rattle.edit_plans.specs.Edits.Edit.{AddSheet, CopySheet, DeleteSheet, MoveSheet, SetField};
ghost use Rattle.edit_plans.specs.ViewSteps.{line_shown, selected_by, whole_line};

use base_values::{LAST_COLUMN, LAST_ROW};
use line_sizes::next_shown;
use sheet_grid::{SheetState, Workbook, Worksheet};
use sheet_history::{LineAxis, SheetField};
use sheet_ids::{next_visible, selected_after_delete, selected_sheet_after_move};

/// The index that a new sheet of a workbook selects, whichever was selected: its own. It takes no
/// memory, as the others here.
pub fn selected_by_new(workbook: &Workbook, _selected: u32) -> usize
    ensures { result ≡ selected_by AddSheet workbook.now _selected }
{
    workbook.worksheets().len()
}

/// The index that a copy of the sheet at an index selects, whichever was selected: its own.
pub fn selected_by_copy(_workbook: &Workbook, sheet: u32, _selected: u32) -> usize
    ensures { result ≡ selected_by (CopySheet sheet) _workbook.now _selected }
{
    sheet as usize + 1
}

/// The index that is selected after the sheet at an index goes: the one before it, where it is the last
/// one, else the same as before.
pub fn selected_by_deletion(workbook: &Workbook, sheet: u32, selected: u32) -> usize
    requires { sheet < length workbook.now.worksheets }
    ensures { result ≡ selected_by (DeleteSheet sheet) workbook.now selected }
{
    selected_after_delete(
        workbook.worksheets().len(),
        sheet as usize,
        selected as usize,
    )
}

/// The index of the selected sheet after the sheet at `from` is taken to the index `to`.
pub fn selected_by_move(_workbook: &Workbook, from: u32, to: u32, selected: u32) -> usize
    ensures { result ≡ selected_by (MoveSheet from to) _workbook.now selected }
{
    selected_sheet_after_move(selected, from, to) as usize
}

/// The index that is selected after a field of the sheet at an index gets a value: where the sheet is
/// hidden, that of the next visible one behind it, else of the first one before it. Else, and where
/// no other sheet is visible, it is the same as before.
pub fn selected_by_field(workbook: &Workbook, sheet: u32, value: SheetField, selected: u32) -> usize
    requires { sheet < length workbook.now.worksheets }
    ensures { result ≡ selected_by (SetField sheet value) workbook.now selected }
{
    match value {
        SheetField::State(SheetState::Hidden) => {
            next_visible(workbook.worksheets(), sheet as usize).unwrap_or(selected as usize)
        }
        _ => selected as usize,
    }
}

/// A whole row or column, as a rectangle.
fn whole_line(axis: LineAxis, line: i32) -> [i32; 4]
    ensures { result ≡ whole_line axis line }
{
    match axis {
        LineAxis::Rows => [line, 1, line, LAST_COLUMN],
        LineAxis::Columns => [1, line, LAST_ROW, line],
    }
}

/// The next line of a sheet that is shown behind those from a first to a last, else the nearest one before
/// them, else line 1.
fn next_line(sheet: &Worksheet, axis: LineAxis, first: i32, last: i32) -> i32
    requires low { pos 1 ≤ℤ first }
    requires order { first ≤ℤ last }
    requires high { last ≤ℤ (along_of axis).last }
    ensures { result ≡ next_shown (along_of axis).last (lines_of axis sheet.now) first last }
{
    match axis {
        LineAxis::Rows => next_shown(sheet.row_map(), first, last),
        LineAxis::Columns => next_shown(sheet.column_map(), first, last),
    }
}

/// The rectangle that is selected of a sheet, which is viewed, where its rows or columns from a first to a
/// last are hidden: as a whole, the next one that is shown behind them, else the nearest one before them,
/// else the first one. It takes no memory.
pub fn range_by_hiding(sheet: &Worksheet, axis: LineAxis, first: i32, last: i32) -> [i32; 4]
    requires low { pos 1 ≤ℤ first }
    requires order { first ≤ℤ last }
    requires high { last ≤ℤ (along_of axis).last }
    ensures { result ≡ whole_line axis (next_shown (along_of axis).last (lines_of axis sheet.now) first last) }
{
    whole_line(axis, next_line(sheet, axis, first, last))
}
