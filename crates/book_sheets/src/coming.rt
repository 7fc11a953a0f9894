//! Sheets that come. What needs memory is made first, so that a refusal leaves the workbook as it was.

ghost use Rattle.std.specs.Prelude.{◌≡◌, IsTrue, Ok, OnOk};
ghost use Rattle.base_values.specs.Answers.{Changes, Edits};
ghost use Rattle.defined_names.specs.Names.{AreCanonicalPlaced};
ghost use Rattle.sheet_lines.specs.Sheets.{IsPlacedBook};
ghost use Rattle.book_sheets.specs.SheetDiffs.{may_come, with_sheet_at, new_forward, copy_forward, deletion_back};

use crate::kept_sheet::{KeptSheet, may_come_back};
use base_values::{EditError, copy_of};
use defined_names::NameList;
use sheet_grid::{Workbook, Worksheet, sheet_index};
use std::alloc::Global;

/// Whether no sheet has the id, and the index is at most the number of the sheets.
#[tactic(auto, unfolding(crate::specs::SheetDiffs::may_come))]
fn may_come(workbook: &Workbook, index: u32, id: u32) -> bool
    ensures { result ≡ may_come index id workbook.now }
{
    workbook.index_of(id).is_none() && index as usize <= workbook.worksheets().len()
}

/// Puts a sheet at an index, where it may come, and these names in place of the workbook's.
fn come(
    workbook: &mut Workbook,
    index: u32,
    sheet: Worksheet,
    names: NameList,
) -> Result<(), EditError>
    requires { IsTrue (may_come index sheet.id workbook.old) }
    ensures { Changes result workbook.old workbook.new (Ok (with_sheet_at index sheet names workbook.old)) }
{
    workbook.insert_worksheet(index, sheet)?;
    workbook.set_name_list(names);
    Ok(())
}

/// A new sheet comes. It is visible and has grid lines and nothing else.
///
/// `DiffRefused` with the number `at` of its diff where a sheet has the id, or the index is above the
/// number of the sheets.
#[tactic(auto, unfolding(crate::specs::SheetDiffs::new_forward))]
pub fn new_forward(
    alloc: Global,
    workbook: &mut Workbook,
    id: u32,
    index: u32,
    name: &str,
    at: u64,
) -> Result<(), EditError>
    requires { IsPlacedBook workbook.old }
    ensures edits { Edits result workbook.old workbook.new (new_forward at id index name.now workbook.old) }
    ensures placed { OnOk result (IsPlacedBook workbook.new) }
{
    if !may_come(workbook, index, id) {
        return Err(EditError::DiffRefused { entry: 0, diff: at });
    }
    let sheet = Worksheet::new(alloc, id, name)?;
    workbook.insert_worksheet(index, sheet)
}

/// The copy of a sheet comes, with copies of the names that are known in that sheet alone.
///
/// `DiffRefused` with the number `at` of its diff where no sheet has the id `source`, where a sheet has
/// the id of the copy, or where the index is above the number of the sheets.
#[tactic(auto, unfolding(crate::specs::SheetDiffs::copy_forward))]
pub fn copy_forward(
    workbook: &mut Workbook,
    source: u32,
    id: u32,
    index: u32,
    name: &str,
    at: u64,
) -> Result<(), EditError>
    requires { IsPlacedBook workbook.old }
    ensures edits { Edits result workbook.old workbook.new (copy_forward at source id index name.now workbook.old) }
    ensures placed { OnOk result (IsPlacedBook workbook.new) }
{
    let Some(found) = sheet_index(workbook, source)? else {
        return Err(EditError::DiffRefused { entry: 0, diff: at });
    };
    if !may_come(workbook, index, id) {
        return Err(EditError::DiffRefused { entry: 0, diff: at });
    }
    let sheet = workbook.worksheet(found)?.copy_as(id, name)?;
    let names = workbook.name_list().copied_to(source, id)?;
    come(workbook, index, sheet, names)
}

/// A deleted sheet comes back, and so do the names that went with it.
///
/// `DiffRefused` with the number `at` of its diff where an array, a merge or a part of a conditional
/// rule of the kept sheet lies outside, or a rule has no part; where a formula does not fit its place;
/// where a name has no place in the list, or its formula does not fit A1; where a sheet has the id; or
/// where the index is above the number of the sheets.
#[tactic(auto, unfolding(crate::specs::SheetDiffs::deletion_back))]
pub fn deletion_back(
    workbook: &mut Workbook,
    index: u32,
    kept: &KeptSheet,
    at: u64,
) -> Result<(), EditError>
    requires placed { IsPlacedBook workbook.old }
    requires canonical { AreCanonicalPlaced kept.now.names }
    ensures edits { Edits result workbook.old workbook.new (deletion_back at index kept.now workbook.old) }
    ensures placed { OnOk result (IsPlacedBook workbook.new) }
{
    if !may_come_back(workbook.defined_names().len(), kept) {
        return Err(EditError::DiffRefused { entry: 0, diff: at });
    }
    if !may_come(workbook, index, kept.sheet.get_sheet_id()) {
        return Err(EditError::DiffRefused { entry: 0, diff: at });
    }
    let sheet = copy_of(&kept.sheet)?;
    let names = workbook.name_list().restored(&kept.names)?;
    come(workbook, index, sheet, names)
}
