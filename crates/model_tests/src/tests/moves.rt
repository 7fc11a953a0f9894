// Moves past lines that the setters of a sheet hide. What moves do past lines that edits hide is in the cases of `script_rows`.
use super::*;

/// Hides the rows and columns 4 and 14, and puts a text in the line before the first of them and in the one behind the other.
fn hide_lines(alloc: Global, sheet: &mut Worksheet) -> Result<(), EditError> {
    let plain = Style::new(alloc)?;
    for line in [4, 14] {
        sheet.set_row_hidden(line, true)?;
        sheet.set_column_hidden(line, true)?;
    }
    for line in [3, 15] {
        sheet.set_cell_with_string(line, 1, "row", &plain)?;
        sheet.set_cell_with_string(1, line, "column", &plain)?;
    }
    Ok(())
}

fn with_hidden_lines(alloc: Global) -> Result<UserModel<ClearAll>, EditError> {
    let mut workbook = Workbook::new_empty(alloc, "book", Locale::En, Zone::Utc)?;
    hide_lines(alloc, workbook.worksheet_mut(0)?)?;
    UserModel::from_model(alloc, PlainModel::from_workbook(alloc, workbook)?, ClearAll)
}

/// A line that goes past a hidden one behind it, or before it, goes one line further.
pub(super) fn moves_pass_hidden_lines(
    rt: &impl Abort,
    model: &mut UserModel<ClearAll>,
) -> Result<(), EditError> {
    model.move_rows_action(0, 3, 1, 1)?;
    model.move_rows_action(0, 15, 1, -1)?;
    model.move_columns_action(0, 3, 1, 1)?;
    model.move_columns_action(0, 15, 1, -1)?;
    for line in [5, 13] {
        assert_eq!(rt; model.get_cell_content(0, line, 1)?.as_str(), "row");
        assert_eq!(rt; model.get_cell_content(0, 1, line)?.as_str(), "column");
    }
    Ok(())
}

#[test]
fn moves_pass_lines_that_setters_hide(rt: HostRuntime) -> Result<(), Fail> {
    let alloc = rt.alloc();
    Ok(run_on(&rt, alloc, Case::HiddenLines, with_hidden_lines(alloc)?)?)
}
