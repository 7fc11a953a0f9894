//! Rows and columns that get a size, or are hidden or shown.

ghost use Rattle.std.specs.Prelude.{◌≡◌, ◌≢◌, IfOk, IsTrue, Ok, Err};
ghost use Rattle.base_values.specs.declared.EditError.TheVariants.{NoMemory};
ghost use Rattle.line_sizes.specs.declared.LineChange.TheVariants.{Hidden};
ghost use Rattle.sheet_rules.specs.WellFormed.{IsWellFormed};
ghost use Rattle.edit_plans.specs.LineRecords.{change_fits, size_change};
ghost use Rattle.edit_plans.specs.LineEdits.{attrs_set};
ghost use Rattle.edit_plans.specs.Plans.{Plans};

use crate::{axis_end, line_list, size_change};
use base_values::EditError;
use line_sizes::{LineChange, line_count};
use sheet_grid::Workbook;
use sheet_history::{DiffList, LineAxis};
use std::alloc::Global;

/// The record of lines of the sheet at an index that are changed, or the refusal of the change.
fn plan_change(
    alloc: Global,
    workbook: &Workbook,
    sheet: u32,
    axis: LineAxis,
    first: i32,
    last: i32,
    change: Result<LineChange, EditError>,
) -> Result<DiffList, EditError>
    requires rules { IsWellFormed workbook.now }
    requires sure { change ≢ Err NoMemory }
    requires fits { IfOk change (λ output. IsTrue (change_fits axis output)) }
    ensures planned { Plans result workbook.now (attrs_set sheet axis first last change workbook.now) }
{
    let found = workbook.worksheet(sheet)?;
    let end = axis_end(axis);
    let count = line_count(end, first, last)?;
    let output = change?;
    line_list(alloc, found, axis, output, first, count)
}

/// The record of the rows or columns from a first to a last of the sheet at an index, which get a size in
/// half pixels: the change of each, where it does not stay. A height is a row's own from then on, also where
/// it is 56; the width 250 takes a column's own away. Nothing is changed.
///
/// `InvalidSheet` where there is no such sheet, else `InvalidArea` where the first or the last line is
/// outside the sheet or the last one is before the first, else `NegativeSize` where the size is below 0.
/// Then `NoMemory` is possible.
pub fn plan_size(
    alloc: Global,
    workbook: &Workbook,
    sheet: u32,
    axis: LineAxis,
    first: i32,
    last: i32,
    size: i32,
) -> Result<DiffList, EditError>
    requires rules { IsWellFormed workbook.now }
    ensures planned { Plans result workbook.now (attrs_set sheet axis first last (size_change axis size) workbook.now) }
{
    let change = size_change(axis, size);
    plan_change(alloc, workbook, sheet, axis, first, last, change)
}

/// The record of the rows or columns from a first to a last of the sheet at an index, which are hidden or
/// shown: the change of each, where it does not stay. Sizes stay. Nothing is changed.
///
/// `InvalidSheet` where there is no such sheet, else `InvalidArea` where the first or the last line is
/// outside the sheet or the last one is before the first. Then `NoMemory` is possible.
pub fn plan_hidden(
    alloc: Global,
    workbook: &Workbook,
    sheet: u32,
    axis: LineAxis,
    first: i32,
    last: i32,
    hidden: bool,
) -> Result<DiffList, EditError>
    requires rules { IsWellFormed workbook.now }
    ensures planned { Plans result workbook.now (attrs_set sheet axis first last (Ok (Hidden hidden)) workbook.now) }
{
    let change = Ok(LineChange::Hidden(hidden));
    plan_change(alloc, workbook, sheet, axis, first, last, change)
}
