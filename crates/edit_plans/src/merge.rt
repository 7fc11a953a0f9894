//! Cells that are merged.

ghost use Rattle.std.specs.Prelude.{◌≡◌, ◌≢◌, ◌++◌, ◌∷◌, [], map, Ok, Err, IfOk, IsOkUnless};
ghost use Rattle.std.specs.List.{list_any};
ghost use Rattle.std.specs.Option.{option_map_or};
ghost use Rattle.base_axis.specs.Rectangles.{meets};
ghost use Rattle.base_values.specs.Answers.{map_ok};
ghost use Rattle.base_values.specs.declared.EditError.TheVariants.{NoMemory};
ghost use Rattle.sheet_grid.specs.Arrays.{large_arrays_of};
ghost use Rattle.sheet_history.specs.Diffs.{IsCanonicalList};
ghost use Rattle.sheet_rules.specs.Occupied.{is_merge, meets_any};
ghost use Rattle.sheet_rules.specs.WellFormed.{IsWellFormed};
ghost use Rattle.edit_plans.specs.Merging.{merge_made, merged_in, with_merge};
ghost use Rattle.edit_plans.specs.laws.EditRecords.{merge_diffs};
ghost use Rattle.edit_plans.specs.Plans.{Plans};

use crate::blanked::push_blank_diffs;
use crate::{list_of, merges_diff, push_diff};
use base_axis::{MergeList, MergedCell};
use base_values::{EditError, Items, Position, copy_of};
use sheet_grid::{Workbook, Worksheet};
use sheet_history::DiffList;
use std::alloc::Global;
use std::collections::btree_map::Iter;

fn is_merge(area: MergedCell) -> bool
    ensures { result ≡ is_merge area }
{
    area.has_many() && area.is_inside()
}

pub(crate) fn meets_merge(sheet: &Worksheet, area: MergedCell) -> bool
    ensures { result ≡ meets_any sheet.now.merges area }
{
    sheet.merged_cells().iter().any(|other| area.meets(*other))
}

/// Whether a rectangle meets one of some arrays, as a sheet lists them.
fn meets_one(arrays: Iter<'_, Position, MergedCell>, area: MergedCell) -> bool
    ensures { result ≡ meets_any (map (λ array. array.1) arrays.entry) area }
{
    arrays
        .map(|(_, array)| *array)
        .any(|array| area.meets(array))
}

/// Whether a rectangle meets an array of more than one cell.
pub(crate) fn meets_array(sheet: &Worksheet, area: MergedCell) -> bool
    ensures { result ≡ meets_any (large_arrays_of sheet.now) area }
{
    meets_one(sheet.large_arrays(), area)
}

/// Whether a rectangle may be merged. It takes no memory.
fn test_merge(sheet: &Worksheet, area: MergedCell) -> Result<(), EditError>
    ensures tested { map_ok (λ _. with_merge sheet.now area) result ≡ merged_in area sheet.now }
    ensures sure { result ≢ Err NoMemory }
{
    if !is_merge(area) {
        return Err(EditError::InvalidArea);
    }
    if meets_merge(sheet, area) {
        return Err(EditError::MergeOverlap);
    }
    if meets_array(sheet, area) {
        return Err(EditError::ArrayCell);
    }
    Ok(())
}

/// The merges of a sheet and one more, behind them.
fn one_more(sheet: &Worksheet, area: MergedCell) -> Result<MergeList, EditError>
    ensures output { IfOk result (λ merges. merges ≡ sheet.now.merges ++ area ∷ []) }
    ensures only { IsOkUnless result NoMemory }
{
    let mut merges = copy_of(sheet.merge_list())?.into_items();
    merges.push(area)?;
    merges.fit();
    Ok(MergeList::new(merges))
}

/// The record of a merge that is not refused.
fn merge_record(alloc: Global, sheet: &Worksheet, area: MergedCell) -> Result<DiffList, EditError>
    ensures output { IfOk result (λ list. list ≡ merge_diffs area sheet.now) }
    ensures canonical { IfOk result IsCanonicalList }
    ensures only { IsOkUnless result NoMemory }
{
    let mut diffs = Items::empty(alloc);
    push_blank_diffs(alloc, sheet, area, &mut diffs)?;
    let merges = merges_diff(sheet, one_more(sheet, area)?)?;
    push_diff(&mut diffs, Some(merges))?;
    list_of(alloc, diffs)
}

/// Merges the cells of a rectangle of the sheet at an index: the record of the change. The cells
/// that the merge covers lose their contents and keep their styles, and the first keeps its own.
/// Links stay. The workbook is as it was.
///
/// `InvalidSheet` where there is no such sheet, `InvalidArea` where the rectangle has fewer than two
/// cells or reaches outside the sheet, `MergeOverlap` where it meets a merge, `ArrayCell` where it
/// meets an array of more than one cell. The first of them that holds is the answer. They take no
/// memory, and the record takes some.
pub fn plan_merge(
    alloc: Global,
    workbook: &Workbook,
    sheet: u32,
    area: MergedCell,
) -> Result<DiffList, EditError>
    requires rules { IsWellFormed workbook.now }
    ensures planned { Plans result workbook.now (merge_made sheet area workbook.now) }
{
    let found = workbook.worksheet(sheet)?;
    test_merge(found, area)?;
    merge_record(alloc, found, area)
}
