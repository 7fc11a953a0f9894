//! What is selected of a workbook after a step, also where the step is refused.

ghost use Rattle.std.specs.Prelude.{◌≡◌, ◌≢◌, ◌<◌, ◌≤ℤ◌, length, map, nat_lt, pos, true, Err};
ghost use Rattle.base_axis.specs.Rectangles.{is_inside};
ghost use Rattle.base_values.specs.declared.EditError.TheVariants.{NoMemory};
ghost use Rattle.sheet_grid.specs.Book.{sheet_at};
ghost use Rattle.sheet_history.specs.LineDiffs.{along_of};
ghost use Rattle.edit_plans.specs.Edits.Edit.{DeleteSheet, SetField};
ghost use Rattle.edit_plans.specs.RangeEdits.{pasted_by};
ghost use Rattle.edit_plans.specs.ViewSteps.{line_shown, selected_by};
ghost use Rattle.open_book.specs.Views.{seen_by, seen_by_pasting, sheet_chosen};

use base_axis::{ColumnAxis, MergedCell, RowAxis};
use base_styles::Style;
use base_values::EditError;
use edit_plans::{axis_end, pasted_area, range_by_hiding, selected_by_deletion, selected_by_field};
use line_sizes::has_lines;
use sheet_grid::Workbook;
use sheet_history::{LineAxis, SheetField};
use sheet_ids::{View, viewed, viewed_id};

/// The view of the sheet at an index. It takes no memory.
pub(crate) fn choose_sheet(workbook: &Workbook, sheet: u32, view: View) -> Result<View, EditError>
    ensures chosen { result ≡ sheet_chosen sheet workbook.now view }
    ensures sure { result ≢ Err NoMemory }
{
    let sheets = workbook.worksheets();
    let _found = workbook.worksheet(sheet)?;
    Ok(viewed(viewed_id(sheets, view), sheets, sheet as usize, view))
}

/// Whether there is a sheet at an index.
fn has_sheet(workbook: &Workbook, sheet: u32) -> bool
    ensures { result ≡ nat_lt sheet (length workbook.now.worksheets) }
{
    (sheet as usize) < workbook.worksheets().len()
}

/// The index that is selected after the sheet at an index goes, if it is there.
pub(crate) fn selected_after_deletion(workbook: &Workbook, sheet: u32, selected: u32) -> usize
    ensures { sheet < length workbook.now.worksheets → result ≡ selected_by (DeleteSheet sheet) workbook.now selected }
{
    if has_sheet(workbook, sheet) {
        selected_by_deletion(workbook, sheet, selected)
    } else {
        selected as usize
    }
}

/// The index that is selected after a field of the sheet at an index gets a value, if the sheet is
/// there.
pub(crate) fn selected_after_field(
    workbook: &Workbook,
    sheet: u32,
    value: SheetField,
    selected: u32,
) -> usize
    ensures { sheet < length workbook.now.worksheets → result ≡ selected_by (SetField sheet value) workbook.now selected }
{
    if has_sheet(workbook, sheet) {
        selected_by_field(workbook, sheet, value, selected)
    } else {
        selected as usize
    }
}

/// The rectangle that is selected of the sheet at an index, which is viewed, where its rows or columns from a
/// first to a last are hidden.
fn range_hidden(
    workbook: &Workbook,
    sheet: u32,
    axis: LineAxis,
    first: i32,
    last: i32,
    range: [i32; 4],
) -> [i32; 4]
    requires low { pos 1 ≤ℤ first }
    requires order { first ≤ℤ last }
    requires high { last ≤ℤ (along_of axis).last }
    ensures { result ≡ line_shown axis first last (sheet_at workbook.now sheet) range }
{
    match workbook.worksheet(sheet) {
        Ok(found) => range_by_hiding(found, axis, first, last),
        Err(_) => range,
    }
}

/// The view that is asked for where the rows or columns from a first to a last of the sheet at an index are
/// hidden or shown, if these are lines: where the viewed sheet's are hidden, another rectangle of it.
pub(crate) fn seen_by_hiding(
    workbook: &Workbook,
    sheet: u32,
    axis: LineAxis,
    first: i32,
    last: i32,
    hidden: bool,
    view: View,
) -> View
    ensures { result ≡ seen_by sheet axis first last hidden workbook.now view }
{
    if hidden && sheet == view.sheet && has_lines(axis_end(axis), first, last) {
        View {
            sheet: view.sheet,
            range: range_hidden(workbook, sheet, axis, first, last, view.range),
        }
    } else {
        view
    }
}

/// An empty rectangle, outside every sheet.
const NOWHERE: MergedCell = MergedCell {
    row: 0,
    column: 0,
    width: 0,
    height: 0,
};

/// The rectangle that gets the pasted styles. Where a side has more lines than any sheet: an empty
/// one, which is outside the sheet as well.
pub(crate) fn pasted_rectangle(styles: &[Vec<Style>], range: [i32; 4]) -> MergedCell
    ensures inside { is_inside result ≡ is_inside (pasted_by (map (λ row. row.items) styles.now) range) }
    ensures area { is_inside result ≡ true → result ≡ pasted_by (map (λ row. row.items) styles.now) range }
{
    match pasted_area(styles, range) {
        Some(area) => area,
        None => NOWHERE,
    }
}

/// The view that is asked for where styles are pasted over a rectangle of the viewed sheet, if it lies in
/// the sheet: that rectangle.
pub(crate) fn seen_by_pasting(area: MergedCell, view: View) -> View
    ensures { result ≡ seen_by_pasting area view }
{
    if !area.is_inside() {
        return view;
    }
    let (first_row, last_row) = area.lines::<RowAxis>();
    let (first_column, last_column) = area.lines::<ColumnAxis>();
    View {
        sheet: view.sheet,
        range: [first_row, first_column, last_row, last_column],
    }
}
