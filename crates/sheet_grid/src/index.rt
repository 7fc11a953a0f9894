//! Sheets by index and by id.

ghost use Rattle.std.specs.Prelude.{◌≡◌, IfOk, IsOkUnless, slice_get};
ghost use Rattle.std.specs.Option.{option_copied};
ghost use Rattle.base_values.specs.declared.EditError.TheVariants.{NoMemory};
ghost use Rattle.sheet_grid.specs.Book.{index_of};

use crate::workbook::Workbook;
use crate::worksheet::Worksheet;
use base_values::EditError;

/// The sheet at an index of a list, counted from 0.
pub fn sheet_at(sheets: &[Worksheet], index: usize) -> Option<&Worksheet>
    ensures { option_copied result ≡ slice_get sheets.now index }
{
    sheets.get(index)
}

/// The index of the first sheet of an id. It takes no memory.
///
/// `NoMemory` where 32 bits do not hold the index, since no machine holds so many sheets.
pub fn sheet_index(workbook: &Workbook, id: u32) -> Result<Option<u32>, EditError>
    ensures index { IfOk result (λ index. index ≡ index_of workbook.now id) }
    ensures only { IsOkUnless result NoMemory }
{
    match workbook.index_of(id) {
        Some(index) => match u32::try_from(index) {
            Ok(index) => Ok(Some(index)),
            Err(_) => Err(EditError::NoMemory),
        },
        None => Ok(None),
    }
}
