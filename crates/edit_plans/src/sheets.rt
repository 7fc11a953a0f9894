//! Sheets that are added, copied, deleted, moved and renamed.

ghost use Rattle.std.specs.Prelude.{◌≡◌, ◌<◌, ◌≤◌, [], ◌∷◌, length, IfOk, IsOkUnless};
ghost use Rattle.base_values.specs.declared.EditError.TheVariants.{NoMemory};
ghost use Rattle.sheet_grid.specs.Book.{ids_of};
ghost use Rattle.sheet_rules.specs.WellFormed.{IsWellFormed};
ghost use Rattle.sheet_naming.specs.NextIds.{next_id};
ghost use Rattle.book_names.specs.RenameDiffs.{may_be_named};
ghost use Rattle.sheet_history.specs.Diffs.{IsCanonicalDiff, IsCanonicalList};
ghost use Rattle.edit_plans.specs.Edits.Edit.{AddSheet, CopySheet, DeleteSheet, MoveSheet, RenameSheet};
ghost use Rattle.edit_plans.specs.Plans.{PlansSheets};
ghost use Rattle.edit_plans.specs.SheetEdits.{new_diff, copy_diff, deletion_diff, rename_diff};

use crate::list_of_two;
use base_shared::Shared;
use base_values::{EditError, Text};
use book_names::{KeptTrees, may_be_named};
use book_sheets::KeptSheet;
use sheet_grid::{Workbook, Worksheet};
use sheet_history::{Diff, DiffList};
use sheet_naming::{copy_name, new_name, next_id};
use std::alloc::Global;

/// The record of one diff.
pub(crate) fn list_of_one(alloc: Global, diff: Diff) -> Result<DiffList, EditError>
    requires { IsCanonicalDiff diff }
    ensures output { IfOk result (λ list. list ≡ diff ∷ []) }
    ensures canonical { IfOk result IsCanonicalList }
    ensures only { IsOkUnless result NoMemory }
{
    list_of_two(alloc, Some(diff), None)
}

/// The id of the next sheet of a workbook.
fn next_sheet_id(workbook: &Workbook) -> Result<u32, EditError>
    ensures { result ≡ next_id (ids_of workbook.now.worksheets) }
{
    next_id(workbook.worksheets())
}

fn sheet_count(workbook: &Workbook) -> usize
    ensures { result ≡ length workbook.now.worksheets }
{
    workbook.worksheets().len()
}

/// The diff of a new sheet of an id.
fn new_diff(alloc: Global, workbook: &Workbook, sheet: u32) -> Result<Diff, EditError>
    requires { length workbook.now.worksheets ≤ 4294967295 }
    ensures output { IfOk result (λ diff. diff ≡ new_diff workbook.now sheet) }
    ensures canonical { IfOk result IsCanonicalDiff }
    ensures only { IsOkUnless result NoMemory }
{
    let sheets = workbook.worksheets();
    let name = new_name(alloc, sheets)?;
    Ok(Diff::NewSheet {
        sheet,
        index: sheets.len() as u32,
        name,
    })
}

/// The diff of a copy, of an id, of the sheet at an index.
fn copy_diff(
    alloc: Global,
    workbook: &Workbook,
    index: u32,
    source: &Worksheet,
    sheet: u32,
) -> Result<Diff, EditError>
    requires { index < 4294967295 }
    ensures output { IfOk result (λ diff. diff ≡ copy_diff index workbook.now source.now sheet) }
    ensures canonical { IfOk result IsCanonicalDiff }
    ensures only { IsOkUnless result NoMemory }
{
    let name = copy_name(alloc, workbook.worksheets(), source.get_name())?;
    Ok(Diff::DuplicateSheet {
        source: source.get_sheet_id(),
        sheet,
        index: index + 1,
        name,
    })
}

/// The diff of the sheet at an index, which goes.
fn deletion_diff(
    alloc: Global,
    workbook: &Workbook,
    index: u32,
    sheet: &Worksheet,
) -> Result<Diff, EditError>
    ensures output { IfOk result (λ diff. diff ≡ deletion_diff index workbook.now sheet.now) }
    ensures canonical { IfOk result IsCanonicalDiff }
    ensures only { IsOkUnless result NoMemory }
{
    let kept = KeptSheet::of(alloc, sheet, workbook.name_list())?;
    let kept = Shared::new(alloc, kept)?;
    Ok(Diff::DeleteSheet { index, kept })
}

/// Whether a sheet of a workbook may get a name.
fn may_have(workbook: &Workbook, sheet: &Worksheet, name: &str) -> bool
    ensures { result ≡ may_be_named sheet.now.id name.now workbook.now.worksheets }
{
    may_be_named(sheet.get_sheet_id(), name, workbook.worksheets())
}

/// The diff of a sheet that gets another name.
fn rename_diff(
    alloc: Global,
    workbook: &Workbook,
    sheet: &Worksheet,
    name: &str,
) -> Result<Diff, EditError>
    ensures output { IfOk result (λ diff. diff ≡ rename_diff name.now workbook.now sheet.now) }
    ensures canonical { IfOk result IsCanonicalDiff }
    ensures only { IsOkUnless result NoMemory }
{
    let kept = KeptTrees::of(alloc, workbook, sheet.get_name(), name)?;
    let kept = Shared::new(alloc, kept)?;
    let old = sheet.copied_name()?;
    let new = Text::new(String::from_str(alloc, name)?);
    Ok(Diff::RenameSheet {
        sheet: sheet.get_sheet_id(),
        old,
        new,
        kept,
    })
}

/// The record of a new sheet behind the last one. Its id is one above the greatest, and its name is
/// `Sheet` and the least free number from 1. Nothing is changed.
///
/// `SheetIds` where the greatest id is 4,294,967,295. Then `NoMemory` is possible.
pub fn plan_new_sheet(alloc: Global, workbook: &Workbook) -> Result<DiffList, EditError>
    requires rules { IsWellFormed workbook.now }
    ensures planned { PlansSheets AddSheet result workbook.now }
{
    let sheet = next_sheet_id(workbook)?;
    let diff = new_diff(alloc, workbook, sheet)?;
    list_of_one(alloc, diff)
}

/// The record of the copy of the sheet at an index, which comes behind it with copies of the names
/// that are known in it alone. Its id is one above the greatest, and its name is that of the sheet
/// and the least free number from 2 in parentheses. Nothing is changed.
///
/// `InvalidSheet` where there is no such sheet, else `SheetIds` where the greatest id is
/// 4,294,967,295. Then `NoMemory` is possible.
pub fn plan_copied_sheet(
    alloc: Global,
    workbook: &Workbook,
    sheet: u32,
) -> Result<DiffList, EditError>
    requires rules { IsWellFormed workbook.now }
    ensures planned { PlansSheets (CopySheet sheet) result workbook.now }
{
    let source = workbook.worksheet(sheet)?;
    let id = next_sheet_id(workbook)?;
    let diff = copy_diff(alloc, workbook, sheet, source, id)?;
    list_of_one(alloc, diff)
}

/// The record of the sheet at an index, which goes with the names that are known in it alone.
/// Nothing is changed.
///
/// `InvalidSheet` where there is no such sheet, else `OnlySheet` where there is no other. Then
/// `NoMemory` is possible.
pub fn plan_deleted_sheet(
    alloc: Global,
    workbook: &Workbook,
    sheet: u32,
) -> Result<DiffList, EditError>
    requires rules { IsWellFormed workbook.now }
    ensures planned { PlansSheets (DeleteSheet sheet) result workbook.now }
{
    let found = workbook.worksheet(sheet)?;
    if sheet_count(workbook) == 1 {
        return Err(EditError::OnlySheet);
    }
    let diff = deletion_diff(alloc, workbook, sheet, found)?;
    list_of_one(alloc, diff)
}

/// The record of the sheet at an index, which is taken to exactly the index `to`. Nothing is changed.
/// It is a record of one diff too where the two are the same.
///
/// `InvalidSheet` where there is no sheet at one of the two. Then `NoMemory` is possible.
pub fn plan_moved_sheet(
    alloc: Global,
    workbook: &Workbook,
    from: u32,
    to: u32,
) -> Result<DiffList, EditError>
    requires rules { IsWellFormed workbook.now }
    ensures planned { PlansSheets (MoveSheet from to) result workbook.now }
{
    let found = workbook.worksheet(from)?;
    if to as usize >= sheet_count(workbook) {
        return Err(EditError::InvalidSheet);
    }
    let diff = Diff::MoveSheet {
        sheet: found.get_sheet_id(),
        from,
        to,
    };
    list_of_one(alloc, diff)
}

/// The record of the sheet at an index, which gets another name. Every reference and range, in a
/// cell, a conditional rule or a defined name, whose sheet name is equal to the old one by simple
/// case folding, names the new one afterwards. Nothing is changed. It is a record of one diff too
/// where the name is the same.
///
/// `InvalidSheet` where there is no such sheet, else `SheetName` where it may not have that name. Then
/// `NoMemory` is possible.
pub fn plan_renamed_sheet(
    alloc: Global,
    workbook: &Workbook,
    sheet: u32,
    name: &str,
) -> Result<DiffList, EditError>
    requires rules { IsWellFormed workbook.now }
    ensures planned { PlansSheets (RenameSheet sheet name.now) result workbook.now }
{
    let found = workbook.worksheet(sheet)?;
    if !may_have(workbook, found, name) {
        return Err(EditError::SheetName);
    }
    let diff = rename_diff(alloc, workbook, found, name)?;
    list_of_one(alloc, diff)
}
