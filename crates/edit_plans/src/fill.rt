//! Rows and columns that are filled.

ghost use Rattle.std.specs.Prelude.{◌≡◌, [], ◌∷◌, ◌++◌, IfOk, IfSome, IsOkUnless};
ghost use Rattle.std.specs.List.{cons_option};
ghost use Rattle.base_values.specs.Answers.{Returns};
ghost use Rattle.base_values.specs.declared.EditError.TheVariants.{NoMemory};
ghost use Rattle.sheet_fill.specs.FillRanges.{source_of};
ghost use Rattle.sheet_fill.specs.Plans.{CanonicalFill, fill_planned};
ghost use Rattle.sheet_rules.specs.WellFormed.{IsWellFormed};
ghost use Rattle.sheet_history.specs.Diffs.{IsCanonicalDiff, IsCanonicalList};
ghost use Rattle.sheet_history.specs.LineDiffs.{along_of};
ghost use Rattle.edit_plans.specs.Fills.{fill_made, places_plan};
ghost use Rattle.edit_plans.specs.laws.EditRecords.{fill_record, merges_record};
ghost use Rattle.edit_plans.specs.Plans.{Plans};

use crate::{list_of, merges_diff, plan_list, push_diff};
use base_axis::{Area, AxisMap, ColumnAxis, MergeList, MergedCell, RowAxis};
use base_shared::Shared;
use base_tables::Language;
use base_values::{EditError, Items, PlaceMap, copy_of};
use range_styles::SheetPlan;
use sheet_fill::{FillPlan, plan_fill};
use sheet_grid::{Cell, Link, Workbook, Worksheet};
use sheet_history::{Diff, DiffList, LineAxis};
use std::alloc::Global;

/// The diff of the merges of a sheet that get others in their place, or none where they stay.
fn merges_change(sheet: &Worksheet, merges: Items<MergedCell>) -> Result<Option<Diff>, EditError>
    ensures output { IfOk result (λ diff. cons_option diff [] ≡ merges_record sheet.now merges) }
    ensures canonical { IfOk result (λ diff. IfSome diff IsCanonicalDiff) }
    ensures only { IsOkUnless result NoMemory }
{
    let new = MergeList::new(merges);
    if *sheet.merge_list() == new {
        return Ok(None);
    }
    Ok(Some(merges_diff(sheet, new)?))
}

/// A record with one more diff behind the others.
fn with_last(alloc: Global, list: &DiffList, last: Diff) -> Result<DiffList, EditError>
    requires list { IsCanonicalList list.now }
    requires last { IsCanonicalDiff last }
    ensures output { IfOk result (λ output. output ≡ list.now ++ last ∷ []) }
    ensures canonical { IfOk result IsCanonicalList }
    ensures only { IsOkUnless result NoMemory }
{
    let mut diffs = copy_of(list.get())?;
    push_diff(&mut diffs, Some(last))?;
    list_of(alloc, diffs)
}

/// What a fill puts at places, as a plan of a sheet.
fn sheet_plan(
    alloc: Global,
    cells: PlaceMap<Option<Shared<Cell>>>,
    links: PlaceMap<Option<Link>>,
) -> SheetPlan
    ensures { result ≡ places_plan cells links }
{
    SheetPlan {
        cells,
        links,
        columns: AxisMap::new(alloc),
        rows: AxisMap::new(alloc),
    }
}

/// The record of a fill that is not refused.
fn fill_list(alloc: Global, sheet: &Worksheet, plan: FillPlan) -> Result<DiffList, EditError>
    requires { CanonicalFill plan.cells }
    ensures output { IfOk result (λ list. list ≡ fill_record sheet.now plan) }
    ensures canonical { IfOk result IsCanonicalList }
    ensures only { IsOkUnless result NoMemory }
{
    let merges = merges_change(sheet, plan.merges)?;
    let list = plan_list(alloc, sheet, &sheet_plan(alloc, plan.cells, plan.links))?;
    match merges {
        Some(diff) => with_last(alloc, &list, diff),
        None => Ok(list),
    }
}

/// The plan of a fill along an axis.
fn plan_along(
    alloc: Global,
    workbook: &Workbook,
    area: &Area,
    axis: LineAxis,
    to: i32,
    language: Language,
) -> Result<FillPlan, EditError>
    ensures planned { Returns result (fill_planned (along_of axis) area.now to language workbook.now) }
    ensures canonical { IfOk result (λ plan. CanonicalFill plan.cells) }
{
    match axis {
        LineAxis::Rows => plan_fill::<RowAxis>(alloc, workbook, area, to, language),
        LineAxis::Columns => plan_fill::<ColumnAxis>(alloc, workbook, area, to, language),
    }
}

/// The record of a fill, which goes on from an area to a row or a column, by the axis: the change of each
/// cell of the target, of each link there and of the merges, where they do not stay. Texts that go on are
/// read in the language. docs/MODEL.md has the rules. Nothing is changed.
///
/// `InvalidSheet` where there is no such sheet, else `InvalidArea` where the area is empty or reaches
/// outside the sheet, else `InvalidRow` or `InvalidColumn`, by the axis, where the line is outside it,
/// else `NothingToFill` where the line is one of the area's, else `PartialMerge` where a merge meets the
/// source or the target and is wholly in neither, else `CutMerge` where the target ends within a
/// repetition of a merge of the source, else `PartialArray` where an array of more than one cell meets the
/// target and reaches out of it. Then `NoMemory` is possible.
pub fn plan_auto_fill(
    alloc: Global,
    workbook: &Workbook,
    area: &Area,
    axis: LineAxis,
    to: i32,
    language: Language,
) -> Result<DiffList, EditError>
    requires rules { IsWellFormed workbook.now }
    ensures planned { Plans result workbook.now (fill_made area.now.sheet axis (source_of area.now) to language workbook.now) }
{
    let plan = plan_along(alloc, workbook, area, axis, to, language)?;
    let found = workbook.worksheet(area.sheet)?;
    fill_list(alloc, found, plan)
}
