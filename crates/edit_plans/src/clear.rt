//! Contents and cells of ranges that are taken away.

ghost use Rattle.sheet_rules.specs.WellFormed.{IsWellFormed};
ghost use Rattle.edit_plans.specs.Plans.{Plans};
ghost use Rattle.edit_plans.specs.RangeEdits.{range_cleared};

use crate::plan_list;
use base_axis::MergedCell;
use base_values::EditError;
use range_styles::{Clearing, clear_area, clear_plan};
use sheet_grid::Workbook;
use sheet_history::DiffList;
use std::alloc::Global;

/// Clears a rectangle of the sheet at an index: the record of the change. The contents of its cells go,
/// which keep their styles, or the cells themselves; its links go with them. The workbook is as it was.
///
/// `InvalidSheet` where there is no such sheet, else `InvalidArea` where the rectangle is empty or
/// reaches outside the sheet, else `PartialArray` where an array of more than one cell meets it and is
/// not inside it. They take no memory, and the record takes some.
pub fn plan_clear(
    alloc: Global,
    workbook: &Workbook,
    sheet: u32,
    clearing: Clearing,
    area: MergedCell,
) -> Result<DiffList, EditError>
    requires rules { IsWellFormed workbook.now }
    ensures planned { Plans result workbook.now (range_cleared sheet clearing area workbook.now) }
{
    let found = workbook.worksheet(sheet)?;
    let area = clear_area(found, area)?;
    let plan = clear_plan(alloc, found, clearing, area)?;
    plan_list(alloc, found, &plan)
}
