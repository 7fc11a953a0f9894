//! Sheets that go. What needs memory is made first, so that a refusal leaves the workbook as it was.

ghost use Rattle.std.specs.Prelude.{◌≡◌, ◌<◌, length, Ok, OnOk};
ghost use Rattle.base_values.specs.Answers.{Changes, Edits};
ghost use Rattle.defined_names.specs.Names.{names_left};
ghost use Rattle.sheet_lines.specs.Sheets.{IsPlacedBook};
ghost use Rattle.book_sheets.specs.SheetDiffs.{without_sheet_at, sheet_goes, new_back, copy_back, deletion_forward};

use crate::inside::is_sheet_inside;
use crate::kept_sheet::KeptSheet;
use base_values::EditError;
use defined_names::NameList;
use sheet_grid::{Workbook, sheet_index};
use std::alloc::Global;

/// Takes the sheet at an index away, and puts these names in place of the workbook's.
fn go(workbook: &mut Workbook, index: u32, names: NameList) -> Result<(), EditError>
    requires { index < length workbook.old.worksheets }
    ensures { Changes result workbook.old workbook.new (Ok (without_sheet_at index names workbook.old)) }
{
    workbook.remove_worksheet(index)?;
    workbook.set_name_list(names);
    Ok(())
}

/// The sheet of an id goes, and the names stay. `at` is the number of the diff, here and below.
fn sheet_goes(workbook: &mut Workbook, id: u32, at: u64) -> Result<(), EditError>
    ensures { Edits result workbook.old workbook.new (sheet_goes at id workbook.old.names workbook.old) }
{
    let Some(index) = sheet_index(workbook, id)? else {
        return Err(EditError::DiffRefused { entry: 0, diff: at });
    };
    workbook.remove_worksheet(index)
}

/// The sheet of an id goes, with the names that are known in it alone.
fn sheet_goes_with_names(
    alloc: Global,
    workbook: &mut Workbook,
    id: u32,
    at: u64,
) -> Result<(), EditError>
    ensures { Edits result workbook.old workbook.new (sheet_goes at id (names_left id workbook.old.names) workbook.old) }
{
    let Some(index) = sheet_index(workbook, id)? else {
        return Err(EditError::DiffRefused { entry: 0, diff: at });
    };
    let names = workbook.name_list().without_sheet(alloc, id)?;
    go(workbook, index, names)
}

/// A new sheet goes again.
///
/// `DiffRefused` with the number `at` of its diff where no sheet has the id.
#[tactic(auto, unfolding(crate::specs::SheetDiffs::new_back))]
pub fn new_back(workbook: &mut Workbook, id: u32, at: u64) -> Result<(), EditError>
    requires { IsPlacedBook workbook.old }
    ensures edits { Edits result workbook.old workbook.new (new_back at id workbook.old) }
    ensures placed { OnOk result (IsPlacedBook workbook.new) }
{
    sheet_goes(workbook, id, at)
}

/// A copy of a sheet goes again, with the names that are known in it alone.
///
/// `DiffRefused` with the number `at` of its diff where no sheet has the id.
#[tactic(auto, unfolding(crate::specs::SheetDiffs::copy_back))]
pub fn copy_back(alloc: Global, workbook: &mut Workbook, id: u32, at: u64) -> Result<(), EditError>
    requires { IsPlacedBook workbook.old }
    ensures edits { Edits result workbook.old workbook.new (copy_back at id workbook.old) }
    ensures placed { OnOk result (IsPlacedBook workbook.new) }
{
    sheet_goes_with_names(alloc, workbook, id, at)
}

/// A sheet goes, with the names that are known in it alone.
///
/// `DiffRefused` with the number `at` of its diff where an array, a merge or a part of a conditional
/// rule of the kept sheet lies outside, where a rule has no part, or where no sheet has its id.
#[tactic(auto, unfolding(crate::specs::SheetDiffs::deletion_forward))]
pub fn deletion_forward(
    alloc: Global,
    workbook: &mut Workbook,
    kept: &KeptSheet,
    at: u64,
) -> Result<(), EditError>
    requires { IsPlacedBook workbook.old }
    ensures edits { Edits result workbook.old workbook.new (deletion_forward at kept.now workbook.old) }
    ensures placed { OnOk result (IsPlacedBook workbook.new) }
{
    if !is_sheet_inside(&kept.sheet) {
        return Err(EditError::DiffRefused { entry: 0, diff: at });
    }
    sheet_goes_with_names(alloc, workbook, kept.sheet.get_sheet_id(), at)
}
