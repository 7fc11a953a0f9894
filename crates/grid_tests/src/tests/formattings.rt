// The conditional rules of a sheet.
ghost use Rattle.format_rules.specs.Canonical.{IsCanonicalFormatting};

use base_axis::MergedCell;
use base_shared::Shared;
use base_styles::Style;
use base_values::{EditError, Items, copy_of, same};
use format_rules::{CfRule, ConditionalFormatting, RuleList, has_canonical_numbers};
use formula_tree::{Corner, Node};
use sheet_grid::Worksheet;
use std::alloc::Global;
use std::test::Fail;

/// Puts the two cells of column B from a row on behind others.
fn push_part(parts: &mut Items<MergedCell>, row: Option<i32>) -> Result<(), EditError> {
    if let Some(row) = row {
        parts.push(MergedCell {
            row,
            column: 2,
            width: 1,
            height: 2,
        })?;
    }
    Ok(())
}

fn push_parts(parts: &mut Items<MergedCell>, rows: [Option<i32>; 2]) -> Result<(), EditError> {
    push_part(parts, rows[0])?;
    push_part(parts, rows[1])
}

/// A rule of the cell so many columns to the right.
fn beside(alloc: Global, columns: i32) -> Result<CfRule, EditError> {
    let corner = Corner {
        absolute_row: false,
        row: 0,
        absolute_column: false,
        column: columns,
    };
    Ok(CfRule::Formula {
        formula: Shared::new(alloc, Node::Reference(None, corner))?,
        style: Shared::new(alloc, Style::new(alloc)?)?,
        stop_if_true: false,
    })
}

/// That rule on the two cells of column B from each of these rows on.
fn rule_on(
    alloc: Global,
    columns: i32,
    rows: [Option<i32>; 2],
) -> Result<ConditionalFormatting, EditError> {
    let mut parts = Items::empty(alloc);
    push_parts(&mut parts, rows)?;
    Ok(ConditionalFormatting {
        parts,
        rule: beside(alloc, columns)?,
        priority: 1,
    })
}

/// A list of this rule alone.
fn alone(alloc: Global, formatting: ConditionalFormatting) -> Result<RuleList, EditError>
    requires { IsCanonicalFormatting formatting }
{
    let mut items = Items::empty(alloc);
    items.push(formatting)?;
    Ok(RuleList::new(items))
}

/// A list of a rule of the cell so many columns to the right, on the two cells of column B from each of
/// these rows on.
pub(crate) fn rules_on(
    alloc: Global,
    columns: i32,
    rows: [Option<i32>; 2],
) -> Result<RuleList, EditError> {
    let formatting = rule_on(alloc, columns, rows)?;
    if has_canonical_numbers(&formatting.rule) {
        alone(alloc, formatting)
    } else {
        Ok(RuleList::empty(alloc))
    }
}

/// Whether a sheet has the one rule that was put there, its copy has it too, and a bare sheet differs.
fn has_rule(bare: &Worksheet, sheet: &Worksheet, put: &RuleList) -> Result<bool, EditError> {
    let is_there = put.as_slice().len() == 1 && same(sheet.conditional_formatting(), put);
    let is_copied = same(&copy_of(sheet)?, sheet);
    Ok(is_there && is_copied && !same(bare, sheet))
}

/// Whether a copy of a bare sheet has no rule before one is put there, and then that one.
fn takes_rule(alloc: Global, bare: &Worksheet, sheet: &mut Worksheet) -> Result<bool, EditError> {
    let has_none = sheet.conditional_formatting().as_slice().is_empty();
    sheet.set_conditional_formatting(rules_on(alloc, 1, [Some(1), None])?);
    let put = rules_on(alloc, 1, [Some(1), None])?;
    let has_one = has_rule(bare, sheet, &put)?;
    Ok(has_none && has_one)
}

fn new_sheet_takes_rule(alloc: Global) -> Result<bool, EditError> {
    let bare = Worksheet::new(alloc, 1, "Sheet1")?;
    let mut sheet = copy_of(&bare)?;
    takes_rule(alloc, &bare, &mut sheet)
}

#[test]
fn a_sheet_has_rules(rt: HostRuntime) -> Result<(), Fail> {
    assert!(rt; new_sheet_takes_rule(rt.alloc())?);
    Ok(())
}
