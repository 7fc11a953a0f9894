//! Sheets that are taken to another index.

ghost use Rattle.std.specs.Prelude.{◌≡◌, OnOk};
ghost use Rattle.base_values.specs.Answers.{Edits};
ghost use Rattle.sheet_lines.specs.Sheets.{IsPlacedBook};
ghost use Rattle.book_sheets.specs.SheetDiffs.{sheet_moves};

use base_values::EditError;
use sheet_grid::Workbook;

/// Takes the sheet of an id from where it stands to the index `to`. To make a diff and to take it back
/// is the same with its two indexes exchanged; `other` is the one that is not `to`.
///
/// `DiffRefused` with the number `at` of the diff where one of the two indexes is not below the number
/// of the sheets, or no sheet has the id.
#[tactic(auto, unfolding(crate::specs::SheetDiffs::sheet_moves))]
pub fn sheet_moves(
    workbook: &mut Workbook,
    id: u32,
    other: u32,
    to: u32,
    at: u64,
) -> Result<(), EditError>
    requires { IsPlacedBook workbook.old }
    ensures edits { Edits result workbook.old workbook.new (sheet_moves at id other to workbook.old) }
    ensures placed { OnOk result (IsPlacedBook workbook.new) }
{
    let count = workbook.worksheets().len();
    if other as usize >= count || to as usize >= count {
        return Err(EditError::DiffRefused { entry: 0, diff: at });
    }
    let Some(index) = workbook.index_of(id) else {
        return Err(EditError::DiffRefused { entry: 0, diff: at });
    };
    workbook.move_worksheet(index, to as usize)
}
