//! Diffs of conditional rules: whether they can be made and taken back, and what they do.

ghost use Rattle.std.specs.Prelude.{OnOk};
ghost use Rattle.base_values.specs.Answers.{Edits};
ghost use Rattle.rule_edits.specs.RuleChanges.{IsCanonicalChange, opposite};
ghost use Rattle.sheet_lines.specs.Sheets.{IsPlacedBook};
ghost use Rattle.sheet_history.specs.RuleDiffs.{rule_put, sheet_rule_put};

use base_values::EditError;
use rule_edits::{RuleChange, goes_back, goes_forward, rules_back, rules_forward};
use sheet_grid::{Workbook, Worksheet, sheet_index};
use std::alloc::Global;

/// Makes a change of the rules of a sheet, where it can be made.
fn made_in(
    alloc: Global,
    sheet: &mut Worksheet,
    change: &RuleChange,
    at: u64,
) -> Result<(), EditError>
    requires { IsCanonicalChange change.now }
    ensures { Edits result sheet.old sheet.new (sheet_rule_put at change.now sheet.old) }
{
    let rules = sheet.conditional_formatting();
    if !goes_forward(change, rules.as_slice().len()) {
        return Err(EditError::DiffRefused { entry: 0, diff: at });
    }
    let later = rules_forward(alloc, rules, change)?;
    sheet.set_conditional_formatting(later);
    Ok(())
}

/// Takes a change of the rules of a sheet back, where its opposite can be made.
fn unmade_in(
    alloc: Global,
    sheet: &mut Worksheet,
    change: &RuleChange,
    at: u64,
) -> Result<(), EditError>
    requires { IsCanonicalChange change.now }
    ensures { Edits result sheet.old sheet.new (sheet_rule_put at (opposite change.now) sheet.old) }
{
    let rules = sheet.conditional_formatting();
    if !goes_back(change, rules.as_slice().len()) {
        return Err(EditError::DiffRefused { entry: 0, diff: at });
    }
    let earlier = rules_back(alloc, rules, change)?;
    sheet.set_conditional_formatting(earlier);
    Ok(())
}

/// Makes a change of the rules of the sheet of an id, where it can be made. `at` is the number of its
/// diff.
pub(crate) fn rule_forward(
    alloc: Global,
    workbook: &mut Workbook,
    id: u32,
    change: &RuleChange,
    at: u64,
) -> Result<(), EditError>
    requires placed { IsPlacedBook workbook.old }
    requires numbers { IsCanonicalChange change.now }
    ensures edits { Edits result workbook.old workbook.new (rule_put at id change.now workbook.old) }
    ensures placed { OnOk result (IsPlacedBook workbook.new) }
{
    let Some(index) = sheet_index(workbook, id)? else {
        return Err(EditError::DiffRefused { entry: 0, diff: at });
    };
    let sheet = workbook.worksheet_mut(index)?;
    made_in(alloc, sheet, change, at)
}

/// Takes a change of the rules of the sheet of an id back, where its opposite can be made. `at` is the
/// number of its diff.
pub(crate) fn rule_back(
    alloc: Global,
    workbook: &mut Workbook,
    id: u32,
    change: &RuleChange,
    at: u64,
) -> Result<(), EditError>
    requires placed { IsPlacedBook workbook.old }
    requires numbers { IsCanonicalChange change.now }
    ensures edits { Edits result workbook.old workbook.new (rule_put at id (opposite change.now) workbook.old) }
    ensures placed { OnOk result (IsPlacedBook workbook.new) }
{
    let Some(index) = sheet_index(workbook, id)? else {
        return Err(EditError::DiffRefused { entry: 0, diff: at });
    };
    let sheet = workbook.worksheet_mut(index)?;
    unmade_in(alloc, sheet, change, at)
}
