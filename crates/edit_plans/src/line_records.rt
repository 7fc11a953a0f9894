//! Lines of a sheet that get a size or are hidden.

ghost use Rattle.std.specs.Prelude.{◌≡◌, ◌≢◌, ◌≤ℤ◌, ◌+ℤ◌, ◌++◌, [], pos, Ok, Err, IfOk, IfSome, OnOk, IsOkUnless};
ghost use Rattle.std.specs.List.{cons_option};
ghost use Rattle.std.specs.Option.{option_copied};
ghost use Rattle.base_values.specs.declared.EditError.TheVariants.{NoMemory};
ghost use Rattle.line_sizes.specs.LineChanges.{changed_entry as changed};
ghost use Rattle.sheet_history.specs.Diffs.{IsCanonicalDiff, IsCanonicalList};
ghost use Rattle.sheet_history.specs.LineDiffs.{along_of};
ghost use Rattle.edit_plans.specs.LineRecords.{attr_record, line_diffs, lines_of, size_change};

use crate::list::{attr_diff, list_of, push_diff};
use base_axis::{Axis, AxisMap};
use base_values::{EditError, Items, LAST_COLUMN, LAST_ROW};
use line_sizes::{LineChange, changed_entry, copied_entry, height_change, line_at, width_change};
use sheet_grid::{LineAttr, Worksheet};
use sheet_history::{Diff, DiffList, LineAxis};
use std::alloc::Global;

/// The last line of an axis.
pub fn axis_end(axis: LineAxis) -> i32
    ensures end { result ≡ (along_of axis).last }
    ensures far { result ≤ℤ pos 1048576 }
{
    match axis {
        LineAxis::Rows => LAST_ROW,
        LineAxis::Columns => LAST_COLUMN,
    }
}

/// The change of lines of an axis to a size in half pixels: a height, or a width. It takes no memory.
///
/// `NegativeSize` where the size is below 0.
pub fn size_change(axis: LineAxis, size: i32) -> Result<LineChange, EditError>
    ensures change { result ≡ size_change axis size }
    ensures sure { result ≢ Err NoMemory }
{
    match axis {
        LineAxis::Rows => height_change(size),
        LineAxis::Columns => width_change(size),
    }
}

/// The diff of a line that is changed, or none where it stays.
fn line_diff(
    sheet: u32,
    axis: LineAxis,
    change: LineChange,
    line: i32,
    entry: Option<&LineAttr>,
) -> Result<Option<Diff>, EditError>
    ensures output { IfOk result (λ diff. cons_option diff [] ≡ attr_record sheet axis line (option_copied entry.entry) (changed change (option_copied entry.entry))) }
    ensures canonical { IfOk result (λ diff. IfSome diff IsCanonicalDiff) }
    ensures only { IsOkUnless result NoMemory }
{
    let new = changed_entry(change, entry)?;
    let old = copied_entry(entry)?;
    Ok(attr_diff(sheet, axis, line, old, new))
}

/// Puts the diffs of so many lines from a first one on that are changed, in ascending order, behind
/// others.
fn push_line_diffs<A: Axis>(
    lines: &AxisMap<A, LineAttr>,
    sheet: u32,
    axis: LineAxis,
    change: LineChange,
    first: i32,
    count: u32,
    list: &mut Items<Diff>,
) -> Result<(), EditError>
    requires low { pos 1 ≤ℤ first }
    requires high { (first +ℤ pos count) ≤ℤ pos 1048577 }
    requires list { IsCanonicalList list.old }
    ensures output { OnOk result (list.new ≡ list.old ++ line_diffs sheet axis change lines.now first count) }
    ensures canonical { OnOk result (IsCanonicalList list.new) }
    ensures only { IsOkUnless result NoMemory }
{
    for index in 0..count {
        let line = line_at(first, index);
        let diff = line_diff(sheet, axis, change, line, lines.get(line))?;
        push_diff(list, diff)?;
    }
    Ok(())
}

/// The same of the rows or the columns of a sheet.
fn push_changes(
    sheet: &Worksheet,
    axis: LineAxis,
    change: LineChange,
    first: i32,
    count: u32,
    list: &mut Items<Diff>,
) -> Result<(), EditError>
    requires low { pos 1 ≤ℤ first }
    requires high { (first +ℤ pos count) ≤ℤ pos 1048577 }
    requires list { IsCanonicalList list.old }
    ensures output { OnOk result (list.new ≡ list.old ++ line_diffs sheet.now.id axis change (lines_of axis sheet.now) first count) }
    ensures canonical { OnOk result (IsCanonicalList list.new) }
    ensures only { IsOkUnless result NoMemory }
{
    let id = sheet.get_sheet_id();
    match axis {
        LineAxis::Rows => push_line_diffs(sheet.row_map(), id, axis, change, first, count, list),
        LineAxis::Columns => push_line_diffs(
            sheet.column_map(),
            id,
            axis,
            change,
            first,
            count,
            list,
        ),
    }
}

/// The record of so many lines of a sheet from a first one on that are changed: the change of each, in
/// ascending order, where it does not stay. `NoMemory` alone is an error.
pub fn line_list(
    alloc: Global,
    sheet: &Worksheet,
    axis: LineAxis,
    change: LineChange,
    first: i32,
    count: u32,
) -> Result<DiffList, EditError>
    requires low { pos 1 ≤ℤ first }
    requires high { (first +ℤ pos count) ≤ℤ pos 1048577 }
    ensures output { IfOk result (λ list. list ≡ line_diffs sheet.now.id axis change (lines_of axis sheet.now) first count) }
    ensures canonical { IfOk result IsCanonicalList }
    ensures only { IsOkUnless result NoMemory }
{
    let mut diffs = Items::empty(alloc);
    push_changes(sheet, axis, change, first, count, &mut diffs)?;
    list_of(alloc, diffs)
}
