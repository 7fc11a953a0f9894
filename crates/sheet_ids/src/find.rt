ghost use Rattle.std.specs.Prelude.{◌≡◌, is_some};
ghost use Rattle.std.specs.Option.{option_copied};
ghost use Rattle.sheet_ids.specs.Ids.{sheet_of, name_of};

use sheet_grid::{Workbook, Worksheet, sheet_at};

/// The sheet of an id, if there is one.
pub fn sheet_of(workbook: &Workbook, id: u32) -> Option<&Worksheet>
    ensures { option_copied result ≡ sheet_of workbook.now id }
{
    match workbook.index_of(id) {
        Some(index) => sheet_at(workbook.worksheets(), index),
        None => None,
    }
}

/// Whether a sheet has that id.
pub fn has_sheet(workbook: &Workbook, id: u32) -> bool
    ensures { result ≡ is_some (sheet_of workbook.now id) }
{
    sheet_of(workbook, id).is_some()
}

/// The name of the sheet of an id; it is empty where there is none.
pub fn name_of(workbook: &Workbook, id: u32) -> &str
    ensures { result.now ≡ name_of (sheet_of workbook.now id) }
{
    match sheet_of(workbook, id) {
        Some(sheet) => sheet.get_name(),
        None => "",
    }
}
