//! Conditional rules that are added, changed and removed, and whose priorities are exchanged.

ghost use Rattle.std.specs.Prelude.{◌≡◌, true, IfOk, IfSome, IsOkUnless};
ghost use Rattle.base_values.specs.Answers.{Returns};
ghost use Rattle.base_values.specs.declared.EditError.TheVariants.{NoMemory};
ghost use Rattle.format_rules.specs.Canonical.{has_canonical_numbers};
ghost use Rattle.sheet_rules.specs.WellFormed.{IsWellFormed};
ghost use Rattle.rule_edits.specs.RuleChanges.{IsCanonicalChange};
ghost use Rattle.rule_edits.specs.RuleEdits.{maybe_one, maybe_two, rule_added, rule_removed, rule_updated, rules_swapped};
ghost use Rattle.rule_edits.specs.RuleEdits.RuleEdit.{Add, Delete, Swap, Update};
ghost use Rattle.sheet_history.specs.Diffs.{IsCanonicalDiff, IsCanonicalList};
ghost use Rattle.sheet_history.specs.declared.Diff.TheVariants.{Rule as RuleDiff};
ghost use Rattle.edit_plans.specs.Edits.Edit.{EditRules};
ghost use Rattle.edit_plans.specs.Plans.{PlansSheets};
ghost use Rattle.edit_plans.specs.RuleEdits.{diffs_of};

use crate::list_of_two;
use base_axis::MergedCell;
use base_shared::Shared;
use base_values::EditError;
use format_rules::CfRule;
use rule_edits::{RuleChange, add_rule, remove_rule, swap_rules, update_rule};
use sheet_grid::{Workbook, Worksheet};
use sheet_history::{Diff, DiffList};
use std::alloc::Global;

/// The diff of a change of the rules of a sheet.
fn rule_diff(sheet: &Worksheet, change: Shared<RuleChange>) -> Diff
    requires { IsCanonicalChange change }
    ensures output { result ≡ RuleDiff sheet.now.id change }
    ensures canonical { IsCanonicalDiff result }
{
    Diff::Rule {
        sheet: sheet.get_sheet_id(),
        change,
    }
}

/// The record of one change of the rules of a sheet, or of none.
fn list_of_change(
    alloc: Global,
    sheet: &Worksheet,
    change: Option<Shared<RuleChange>>,
) -> Result<DiffList, EditError>
    requires { IfSome change IsCanonicalChange }
    ensures output { IfOk result (λ list. list ≡ diffs_of sheet.now (maybe_one change)) }
    ensures canonical { IfOk result IsCanonicalList }
    ensures only { IsOkUnless result NoMemory }
{
    match change {
        Some(change) => list_of_two(alloc, Some(rule_diff(sheet, change)), None),
        None => list_of_two(alloc, None, None),
    }
}

/// The record of two changes of the rules of a sheet, in order, or of none.
fn list_of_changes(
    alloc: Global,
    sheet: &Worksheet,
    changes: Option<(Shared<RuleChange>, Shared<RuleChange>)>,
) -> Result<DiffList, EditError>
    requires { IfSome changes (λ both. IsCanonicalChange both.0 × IsCanonicalChange both.1) }
    ensures output { IfOk result (λ list. list ≡ diffs_of sheet.now (maybe_two changes)) }
    ensures canonical { IfOk result IsCanonicalList }
    ensures only { IsOkUnless result NoMemory }
{
    match changes {
        Some((first, second)) => {
            let first = rule_diff(sheet, first);
            let second = rule_diff(sheet, second);
            list_of_two(alloc, Some(first), Some(second))
        }
        None => list_of_two(alloc, None, None),
    }
}

/// The change of a rule that comes on parts of a sheet.
fn new_change(
    alloc: Global,
    sheet: &Worksheet,
    parts: &[MergedCell],
    rule: &CfRule,
) -> Result<Shared<RuleChange>, EditError>
    requires { has_canonical_numbers rule.now ≡ true }
    ensures change { Returns result (rule_added parts.now rule.now sheet.now.formattings) }
    ensures numbers { IfOk result IsCanonicalChange }
{
    add_rule(alloc, sheet.conditional_formatting(), parts, rule)
}

/// The change of the rule at an index of the rules of a sheet, which becomes another one.
fn updated_change(
    alloc: Global,
    sheet: &Worksheet,
    index: u64,
    parts: &[MergedCell],
    rule: &CfRule,
) -> Result<Option<Shared<RuleChange>>, EditError>
    requires { has_canonical_numbers rule.now ≡ true }
    ensures change { Returns result (rule_updated index parts.now rule.now sheet.now.formattings) }
    ensures numbers { IfOk result (λ change. IfSome change IsCanonicalChange) }
{
    update_rule(alloc, sheet.conditional_formatting(), index, parts, rule)
}

/// The change of the rule at an index of the rules of a sheet, which goes.
fn removed_change(
    alloc: Global,
    sheet: &Worksheet,
    index: u64,
) -> Result<Shared<RuleChange>, EditError>
    ensures change { Returns result (rule_removed index sheet.now.formattings) }
    ensures numbers { IfOk result IsCanonicalChange }
{
    remove_rule(alloc, sheet.conditional_formatting(), index)
}

/// The changes of the rules at two indexes of the rules of a sheet, which exchange their priorities.
fn swapped_changes(
    alloc: Global,
    sheet: &Worksheet,
    index_a: u64,
    index_b: u64,
) -> Result<Option<(Shared<RuleChange>, Shared<RuleChange>)>, EditError>
    ensures changes { Returns result (rules_swapped index_a index_b sheet.now.formattings) }
    ensures numbers { IfOk result (λ changes. IfSome changes (λ both. IsCanonicalChange both.0 × IsCanonicalChange both.1)) }
{
    swap_rules(alloc, sheet.conditional_formatting(), index_a, index_b)
}

/// The record of a new conditional rule on parts of the sheet at an index, which comes behind the rules
/// of the sheet. Its priority is one above the greatest, and 1 where there is no rule. Nothing is changed.
///
/// `InvalidSheet` where there is no such sheet, else `InvalidArea` where there is no part or one is not
/// inside the sheet, else `BadFormula` where a formula is none or does not fit the first place of the
/// first part, else `RuleNumbers` where the greatest priority is 4,294,967,295. Then `NoMemory` is
/// possible.
pub fn plan_new_rule(
    alloc: Global,
    workbook: &Workbook,
    sheet: u32,
    parts: &[MergedCell],
    rule: &CfRule,
) -> Result<DiffList, EditError>
    requires rules { IsWellFormed workbook.now }
    requires numbers { has_canonical_numbers rule.now ≡ true }
    ensures planned { PlansSheets (EditRules (Add sheet parts.now rule.now)) result workbook.now }
{
    let found = workbook.worksheet(sheet)?;
    let change = new_change(alloc, found, parts, rule)?;
    list_of_change(alloc, found, Some(change))
}

/// The record of the conditional rule at an index of the rules of a sheet, which gets other parts and
/// becomes another one, in its place. Its priority stays. It is an empty record where both are what they
/// were. Nothing is changed.
///
/// `InvalidSheet` where there is no such sheet, else `RuleIndex` where it has no rule of that index, else
/// `InvalidArea` and `BadFormula` as in `plan_new_rule`. Then `NoMemory` is possible.
pub fn plan_changed_rule(
    alloc: Global,
    workbook: &Workbook,
    sheet: u32,
    index: u64,
    parts: &[MergedCell],
    rule: &CfRule,
) -> Result<DiffList, EditError>
    requires rules { IsWellFormed workbook.now }
    requires numbers { has_canonical_numbers rule.now ≡ true }
    ensures planned { PlansSheets (EditRules (Update sheet index parts.now rule.now)) result workbook.now }
{
    let found = workbook.worksheet(sheet)?;
    let change = updated_change(alloc, found, index, parts, rule)?;
    list_of_change(alloc, found, change)
}

/// The record of the conditional rule at an index of the rules of a sheet, which goes. Nothing is changed.
///
/// `InvalidSheet` where there is no such sheet, else `RuleIndex` where it has no rule of that index. Then
/// `NoMemory` is possible.
pub fn plan_removed_rule(
    alloc: Global,
    workbook: &Workbook,
    sheet: u32,
    index: u64,
) -> Result<DiffList, EditError>
    requires rules { IsWellFormed workbook.now }
    ensures planned { PlansSheets (EditRules (Delete sheet index)) result workbook.now }
{
    let found = workbook.worksheet(sheet)?;
    let change = removed_change(alloc, found, index)?;
    list_of_change(alloc, found, Some(change))
}

/// The record of two conditional rules of a sheet, given by their indexes, that exchange their priorities:
/// one change of each, in the order of the indexes, or none where the priorities are equal. Nothing is
/// changed.
///
/// `InvalidSheet` where there is no such sheet, else `RuleIndex` where it has no rule of one of the
/// indexes. Then `NoMemory` is possible.
pub fn plan_swapped_rules(
    alloc: Global,
    workbook: &Workbook,
    sheet: u32,
    index_a: u64,
    index_b: u64,
) -> Result<DiffList, EditError>
    requires rules { IsWellFormed workbook.now }
    ensures planned { PlansSheets (EditRules (Swap sheet index_a index_b)) result workbook.now }
{
    let found = workbook.worksheet(sheet)?;
    let changes = swapped_changes(alloc, found, index_a, index_b)?;
    list_of_changes(alloc, found, changes)
}
