// Conditional rules that are changed, rules of several parts, and priorities that end. How rules are added, deleted
// and exchanged otherwise, and what they become under other edits, is in the cases of `script_rows`.
ghost use Rattle.format_rules.specs.Canonical.{IsCanonicalFormatting};

use super::values::{Counted, Counting, opened, run_counted};
use super::*;
use base_axis::MergedCell;
use base_values::Items;
use format_rules::{
    CfRule, ConditionalFormatting, RuleList, has_canonical_numbers as has_canonical_rule,
};

/// Rows of column B.
fn rows(first: i32, count: i32) -> MergedCell {
    MergedCell {
        row: first,
        column: 2,
        width: 1,
        height: count,
    }
}

/// A rule of the formula that a text is read as in the cell B2.
fn read_rule<R: Recalc + Drop>(
    alloc: Global,
    model: &UserModel<R>,
    text: &str,
) -> Result<CfRule, EditError> {
    Ok(CfRule::Formula {
        formula: model.read_rule_formula(0, rows(2, 1), text)?,
        style: Shared::new(alloc, Style::new(alloc)?)?,
        stop_if_true: false,
    })
}

/// Adds a rule of the sheet at an index.
fn add<R: Recalc + Drop>(
    alloc: Global,
    model: &mut UserModel<R>,
    sheet: u32,
    parts: &[MergedCell],
    text: &str,
) -> Result<(), EditError> {
    let rule = read_rule(alloc, model, text)?;
    if has_canonical_rule(&rule) {
        return model.add_conditional_formatting(sheet, parts, &rule);
    }
    Ok(())
}

/// Changes the rule at an index of the rules of a sheet.
fn update<R: Recalc + Drop>(
    alloc: Global,
    model: &mut UserModel<R>,
    sheet: u32,
    index: u64,
    parts: &[MergedCell],
    text: &str,
) -> Result<(), EditError> {
    let rule = read_rule(alloc, model, text)?;
    if has_canonical_rule(&rule) {
        return model.update_conditional_formatting(sheet, index, parts, &rule);
    }
    Ok(())
}

/// The first row of the first part of each rule of the first sheet, and its priority.
fn shown<R: Recalc + Drop>(
    alloc: Global,
    model: &UserModel<R>,
) -> Result<Vec<(i32, u32)>, EditError> {
    let mut all = Vec::new(alloc);
    for formatting in model.get_conditional_formatting(0)? {
        let row = match formatting.parts.get(0) {
            Some(part) => part.row,
            None => 0,
        };
        all.push((row, formatting.priority))?;
    }
    Ok(all)
}

/// Two rules are added and one is changed, which is taken back.
pub(super) fn rules_are_edited(
    rt: &impl Abort,
    alloc: Global,
    model: &mut UserModel<ClearAll>,
) -> Result<(), EditError> {
    add(alloc, model, 0, &[rows(2, 3)], "B2>1")?;
    add(alloc, model, 0, &[rows(6, 1), rows(8, 1)], "=B2<0")?;
    update(alloc, model, 0, 0, &[rows(4, 1)], "B2>1")?;
    assert!(rt; shown(alloc, model)?.as_slice() == [(4, 1), (6, 2)].as_slice());
    model.undo()?;
    assert!(rt; shown(alloc, model)?.as_slice() == [(2, 1), (6, 2)].as_slice());
    Ok(())
}

#[test]
fn a_rule_is_edited(rt: HostRuntime) -> Result<(), Fail> {
    Ok(run_on_new(&rt, rt.alloc(), Case::EditedRules)?)
}

/// A sheet that is not there comes before a rule that is not there, that before a part, and that before a
/// formula.
pub(super) fn refusals_are_in_order(
    rt: &impl Abort,
    alloc: Global,
    model: &mut UserModel<ClearAll>,
) -> Result<(), EditError> {
    let outside = [rows(2, 3), rows(0, 1)];
    let (no_sheet, no_rule) = (Err(EditError::InvalidSheet), Err(EditError::RuleIndex));
    let (no_area, no_formula) = (Err(EditError::InvalidArea), Err(EditError::BadFormula));
    assert_eq!(rt; add(alloc, model, 1, &[], "1+"), no_sheet);
    assert_eq!(rt; add(alloc, model, 0, &[], "1+"), no_area);
    assert_eq!(rt; add(alloc, model, 0, &outside, "1+"), no_area);
    assert_eq!(rt; add(alloc, model, 0, &[rows(2, 3)], "1+"), no_formula);
    assert_eq!(rt; add(alloc, model, 0, &[rows(1, 1)], "A1"), no_formula);
    assert_eq!(rt; update(alloc, model, 1, 0, &[], "1+"), no_sheet);
    assert_eq!(rt; update(alloc, model, 0, 0, &[], "1+"), no_rule);
    assert!(rt; !model.can_undo());
    add(alloc, model, 0, &[rows(2, 3)], "TRUE")?;
    assert_eq!(rt; update(alloc, model, 0, 0, &outside, "1+"), no_area);
    assert_eq!(rt; update(alloc, model, 0, 0, &[rows(2, 3)], "1+"), no_formula);
    Ok(())
}

#[test]
fn a_rule_is_refused(rt: HostRuntime) -> Result<(), Fail> {
    Ok(run_on_new(&rt, rt.alloc(), Case::RefusedRules)?)
}

/// A list of one rule.
fn only(alloc: Global, formatting: ConditionalFormatting) -> Result<RuleList, EditError>
    requires { IsCanonicalFormatting formatting }
{
    let mut items = Items::empty(alloc);
    items.push(formatting)?;
    Ok(RuleList::new(items))
}

/// A rule of a formula without numbers, on the cell B2, with the last priority.
fn last_rule(alloc: Global) -> Result<ConditionalFormatting, EditError> {
    let mut parts = Items::empty(alloc);
    parts.push(rows(2, 1))?;
    Ok(ConditionalFormatting {
        parts,
        rule: CfRule::Formula {
            formula: Shared::new(alloc, Node::Boolean(true))?,
            style: Shared::new(alloc, Style::new(alloc)?)?,
            stop_if_true: false,
        },
        priority: 4_294_967_295,
    })
}

/// A workbook whose one rule has the last priority.
fn last_book(alloc: Global) -> Result<PlainModel, EditError> {
    let mut workbook = Workbook::new_empty(alloc, "book", Locale::En, Zone::Utc)?;
    let formatting = last_rule(alloc)?;
    if has_canonical_rule(&formatting.rule) {
        workbook
            .worksheet_mut(0)?
            .set_conditional_formatting(only(alloc, formatting)?);
    }
    PlainModel::from_workbook(alloc, workbook)
}

/// Where the last priority is taken no rule is added, and others are changed. Without memory nothing is.
pub(super) fn no_priority_is_left(
    rt: &impl Abort,
    alloc: Global,
    model: &mut UserModel<Counting<'_>>,
    fails: &Cell<bool>,
) -> Result<(), EditError> {
    let (none, short) = (Err(EditError::RuleNumbers), Err(EditError::NoMemory));
    let bad = Err(EditError::BadFormula);
    assert_eq!(rt; add(alloc, model, 0, &[rows(2, 3)], "TRUE"), none);
    assert_eq!(rt; add(alloc, model, 0, &[rows(2, 3)], "1+"), bad);
    fails.set(true);
    assert_eq!(rt; update(alloc, model, 0, 0, &[rows(4, 1)], "FALSE"), short);
    assert_eq!(rt; model.delete_conditional_formatting(0, 0), short);
    assert_eq!(rt; model.swap_conditional_formatting_priority(0, 0, 0), short);
    assert_eq!(rt; add(alloc, model, 0, &[rows(2, 3)], "TRUE"), none);
    assert!(rt; shown(alloc, model)?.as_slice() == [(2, 4_294_967_295)].as_slice());
    fails.set(false);
    update(alloc, model, 0, 0, &[rows(4, 1)], "FALSE")?;
    assert!(rt; shown(alloc, model)?.as_slice() == [(4, 4_294_967_295)].as_slice());
    Ok(())
}

#[test]
fn priorities_end(rt: HostRuntime) -> Result<(), Fail> {
    let alloc = rt.alloc();
    let calls = Cell::new(0);
    let fails = Cell::new(false);
    let model = opened(alloc, last_book(alloc)?, &calls, &fails)?;
    Ok(run_counted(&rt, alloc, Counted::LastPriority, model, &calls, &fails)?)
}
