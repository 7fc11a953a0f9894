//! Fields of sheets that get a value: whether a sheet is shown, its colour, its grid lines, and how many of
//! its lines are frozen.

ghost use Rattle.std.specs.Prelude.{◌≡◌, [], IfOk, IfSome, IsOkUnless};
ghost use Rattle.std.specs.List.{cons_option};
ghost use Rattle.base_values.specs.declared.EditError.TheVariants.{NoMemory};
ghost use Rattle.sheet_rules.specs.WellFormed.{IsWellFormed};
ghost use Rattle.sheet_history.specs.Diffs.{IsCanonicalDiff, IsCanonicalList};
ghost use Rattle.sheet_history.specs.declared.SheetField.TheVariants.{State, Color as ColorValue, GridLines, FrozenRows, FrozenColumns};
ghost use Rattle.edit_plans.specs.Plans.{Plans};
ghost use Rattle.edit_plans.specs.SheetEdits.{field_set};
ghost use Rattle.edit_plans.specs.laws.EditRecords.{field_change};

use crate::list_of_two;
use base_styles::Color;
use base_values::EditError;
use sheet_grid::{SheetState, Workbook, Worksheet};
use sheet_history::{Diff, DiffList, FieldChange, SheetField};
use std::alloc::Global;

fn state_diff(sheet: &Worksheet, new: SheetState) -> Option<Diff>
    ensures output { cons_option result [] ≡ field_change sheet.now (State new) }
    ensures canonical { IfSome result IsCanonicalDiff }
{
    let old = sheet.state();
    if old == new {
        return None;
    }
    Some(Diff::Field {
        sheet: sheet.get_sheet_id(),
        change: FieldChange::State { old, new },
    })
}

fn color_diff(sheet: &Worksheet, new: Color) -> Option<Diff>
    ensures output { cons_option result [] ≡ field_change sheet.now (ColorValue new) }
    ensures canonical { IfSome result IsCanonicalDiff }
{
    let old = sheet.color();
    if old == new {
        return None;
    }
    Some(Diff::Field {
        sheet: sheet.get_sheet_id(),
        change: FieldChange::Color { old, new },
    })
}

fn grid_diff(sheet: &Worksheet, new: bool) -> Option<Diff>
    ensures output { cons_option result [] ≡ field_change sheet.now (GridLines new) }
    ensures canonical { IfSome result IsCanonicalDiff }
{
    let old = sheet.show_grid_lines();
    if old == new {
        return None;
    }
    Some(Diff::Field {
        sheet: sheet.get_sheet_id(),
        change: FieldChange::GridLines { old, new },
    })
}

fn frozen_rows_diff(sheet: &Worksheet, new: i32) -> Option<Diff>
    ensures output { cons_option result [] ≡ field_change sheet.now (FrozenRows new) }
    ensures canonical { IfSome result IsCanonicalDiff }
{
    let old = sheet.frozen_rows();
    if old == new {
        return None;
    }
    Some(Diff::Field {
        sheet: sheet.get_sheet_id(),
        change: FieldChange::FrozenRows { old, new },
    })
}

fn frozen_columns_diff(sheet: &Worksheet, new: i32) -> Option<Diff>
    ensures output { cons_option result [] ≡ field_change sheet.now (FrozenColumns new) }
    ensures canonical { IfSome result IsCanonicalDiff }
{
    let old = sheet.frozen_columns();
    if old == new {
        return None;
    }
    Some(Diff::Field {
        sheet: sheet.get_sheet_id(),
        change: FieldChange::FrozenColumns { old, new },
    })
}

/// The diff of a field that gets a value, or none where it stays.
fn field_diff(sheet: &Worksheet, value: SheetField) -> Option<Diff>
    ensures output { cons_option result [] ≡ field_change sheet.now value }
    ensures canonical { IfSome result IsCanonicalDiff }
{
    match value {
        SheetField::State(state) => state_diff(sheet, state),
        SheetField::Color(color) => color_diff(sheet, color),
        SheetField::GridLines(drawn) => grid_diff(sheet, drawn),
        SheetField::FrozenRows(count) => frozen_rows_diff(sheet, count),
        SheetField::FrozenColumns(count) => frozen_columns_diff(sheet, count),
    }
}

/// The record of a field that gets a value.
fn field_list(alloc: Global, sheet: &Worksheet, value: SheetField) -> Result<DiffList, EditError>
    ensures output { IfOk result (λ list. list ≡ field_change sheet.now value) }
    ensures canonical { IfOk result IsCanonicalList }
    ensures only { IsOkUnless result NoMemory }
{
    list_of_two(alloc, field_diff(sheet, value), None)
}

/// The record of a field of the sheet at an index, which gets a value: the change of the field, or
/// nothing where it stays. Nothing is changed.
///
/// `InvalidSheet` where there is no such sheet, else `FrozenCount` where a count of frozen lines is below 0
/// or not less than the lines that a sheet has. Then `NoMemory` is possible.
pub fn plan_field(
    alloc: Global,
    workbook: &Workbook,
    sheet: u32,
    value: SheetField,
) -> Result<DiffList, EditError>
    requires rules { IsWellFormed workbook.now }
    ensures planned { Plans result workbook.now (field_set sheet value workbook.now) }
{
    let found = workbook.worksheet(sheet)?;
    if !value.may_stand() {
        return Err(EditError::FrozenCount);
    }
    field_list(alloc, found, value)
}
