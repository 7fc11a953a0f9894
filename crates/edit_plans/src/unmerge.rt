//! Merges that are dissolved.

ghost use Rattle.std.specs.Prelude.{◌≡◌, ◌≢◌, ◌∷◌, [], Ok, Err, IfOk, IsOkUnless};
ghost use Rattle.base_values.specs.Answers.{map_ok};
ghost use Rattle.base_values.specs.Places.{place_of};
ghost use Rattle.base_values.specs.declared.EditError.TheVariants.{NoMemory};
ghost use Rattle.sheet_grid.specs.Merges.{merge_holding};
ghost use Rattle.sheet_history.specs.Diffs.{IsCanonicalList};
ghost use Rattle.sheet_history.specs.declared.Diff.TheVariants.{Merges as MergesDiff};
ghost use Rattle.sheet_rules.specs.WellFormed.{IsWellFormed};
ghost use Rattle.edit_plans.specs.Merging.{merge_undone, merges_without, unmerged_at, unmerged_in, without_merge};
ghost use Rattle.edit_plans.specs.Plans.{Plans};

use crate::{list_of_two, merges_diff};
use base_axis::{MergeList, MergedCell};
use base_values::{EditError, Items, Position, place_of};
use sheet_grid::{Workbook, Worksheet};
use sheet_history::DiffList;
use std::alloc::Global;

/// The first merge that holds a place.
fn merge_holding(sheet: &Worksheet, place: Position) -> Option<MergedCell>
    ensures { result ≡ merge_holding sheet.now.merges place }
{
    sheet.merged_cell_containing(place.row, place.column)
}

/// A place that a merge holds.
fn held_place(sheet: &Worksheet, place: Position) -> Result<Position, EditError>
    ensures held { map_ok (λ held. without_merge sheet.now held) result ≡ unmerged_at sheet.now place (merge_holding sheet.now.merges place) }
    ensures same { IfOk result (λ held. held ≡ place) }
    ensures sure { result ≢ Err NoMemory }
{
    match merge_holding(sheet, place) {
        Some(_) => Ok(place),
        None => Err(EditError::NoMerge),
    }
}

/// The place at a row and a column, which a merge holds. It takes no memory.
fn merged_place(sheet: &Worksheet, row: i32, column: i32) -> Result<Position, EditError>
    ensures place { map_ok (λ place. without_merge sheet.now place) result ≡ unmerged_in row column sheet.now }
    ensures named { IfOk result (λ place. place_of row column ≡ Ok place) }
    ensures sure { result ≢ Err NoMemory }
{
    let place = place_of(row, column)?;
    held_place(sheet, place)
}

/// The merges that do not hold a place.
fn merges_without(
    alloc: Global,
    merges: &[MergedCell],
    place: Position,
) -> Result<MergeList, EditError>
    ensures output { IfOk result (λ left. left ≡ merges_without place merges.now) }
    ensures only { IsOkUnless result NoMemory }
{
    let left: Vec<MergedCell> = merges
        .iter()
        .copied()
        .filter(|merge| !merge.holds(place))
        .collect(alloc)?;
    let mut left = Items::new(left);
    left.fit();
    Ok(MergeList::new(left))
}

/// The record of a merge that is dissolved.
fn unmerge_record(alloc: Global, sheet: &Worksheet, place: Position) -> Result<DiffList, EditError>
    ensures output { IfOk result (λ list. list ≡ MergesDiff sheet.now.id sheet.now.merges (merges_without place sheet.now.merges) ∷ []) }
    ensures canonical { IfOk result IsCanonicalList }
    ensures only { IsOkUnless result NoMemory }
{
    let merges = merges_without(alloc, sheet.merged_cells(), place)?;
    list_of_two(alloc, Some(merges_diff(sheet, merges)?), None)
}

/// Dissolves the merge that holds the place at a row and a column of the sheet at an index: the
/// record of the change. Cells stay as they are. The workbook is as it was.
///
/// `InvalidSheet` where there is no such sheet, `InvalidRow` where the row is outside the sheet,
/// `InvalidColumn` where the column is, `NoMerge` where no merge holds the place. The first of them
/// that holds is the answer. They take no memory, and the record takes some.
pub fn plan_unmerge(
    alloc: Global,
    workbook: &Workbook,
    sheet: u32,
    row: i32,
    column: i32,
) -> Result<DiffList, EditError>
    requires rules { IsWellFormed workbook.now }
    ensures planned { Plans result workbook.now (merge_undone sheet row column workbook.now) }
{
    let found = workbook.worksheet(sheet)?;
    let place = merged_place(found, row, column)?;
    unmerge_record(alloc, found, place)
}
