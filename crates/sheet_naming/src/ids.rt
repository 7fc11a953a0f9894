ghost use Rattle.std.specs.Prelude.{◌≡◌};
ghost use Rattle.sheet_grid.specs.Book.{ids_of};
ghost use Rattle.sheet_naming.specs.NextIds.{greatest, next_id};

use base_values::EditError;
use sheet_grid::Worksheet;

fn greatest(sheets: &[Worksheet]) -> u32
    ensures { result ≡ greatest (ids_of sheets.now) }
{
    let mut greatest: u32 = 0;
    for sheet in sheets {
        greatest = greatest.max(sheet.get_sheet_id());
    }
    greatest
}

/// The id of the next sheet, one above the greatest id of the sheets. It takes no memory.
///
/// `SheetIds` where that id is 4,294,967,295, the last one.
pub fn next_id(sheets: &[Worksheet]) -> Result<u32, EditError>
    ensures { result ≡ next_id (ids_of sheets.now) }
{
    match greatest(sheets).checked_add(1) {
        Some(id) => Ok(id),
        None => Err(EditError::SheetIds),
    }
}
