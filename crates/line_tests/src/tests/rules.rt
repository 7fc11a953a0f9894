// Conditional rules of two parts, which no script makes, after edits of rows. What is expected was worked out by
// hand from docs/MODEL.md.
ghost use Rattle.format_rules.specs.Canonical.{IsCanonicalFormatting};

use base_axis::MergedCell;
use base_shared::Shared;
use base_styles::Style;
use base_tables::{Locale, Zone};
use base_values::{EditError, Items};
use format_rules::{CfRule, ConditionalFormatting, RuleList, has_canonical_numbers};
use formula_tree::{Corner, Node};
use sheet_actions::Model;
use sheet_grid::Workbook;
use std::alloc::Global;
use std::test::Fail;

/// Rows of column B.
fn rows(first: i32, count: i32) -> MergedCell {
    MergedCell {
        row: first,
        column: 2,
        width: 1,
        height: count,
    }
}

/// The cell so many rows below the rule's place.
fn below(rows: i32) -> Node {
    let corner = Corner {
        absolute_row: false,
        row: rows,
        absolute_column: false,
        column: 0,
    };
    Node::Reference(None, corner)
}

/// The rule of a formula on these parts.
fn rule_on(
    alloc: Global,
    parts: &[MergedCell],
    formula: Node,
) -> Result<ConditionalFormatting, EditError> {
    let mut items = Items::empty(alloc);
    for part in parts {
        items.push(*part)?;
    }
    let rule = CfRule::Formula {
        formula: Shared::new(alloc, formula)?,
        style: Shared::new(alloc, Style::new(alloc)?)?,
        stop_if_true: false,
    };
    Ok(ConditionalFormatting {
        parts: items,
        rule,
        priority: 1,
    })
}

/// A list of this rule alone.
fn alone(alloc: Global, formatting: ConditionalFormatting) -> Result<RuleList, EditError>
    requires { IsCanonicalFormatting formatting }
{
    let mut items = Items::empty(alloc);
    items.push(formatting)?;
    Ok(RuleList::new(items))
}

/// A list of the rule of a formula on these parts.
fn one_rule(alloc: Global, parts: &[MergedCell], formula: Node) -> Result<RuleList, EditError> {
    let formatting = rule_on(alloc, parts, formula)?;
    if has_canonical_numbers(&formatting.rule) {
        alone(alloc, formatting)
    } else {
        Ok(RuleList::empty(alloc))
    }
}

/// Gives the sheet of a workbook the rule of the cell so many rows below on these parts, and no other.
fn put_rule(
    alloc: Global,
    book: &mut Workbook,
    parts: &[MergedCell],
    cell: i32,
) -> Result<(), EditError> {
    let sheet = book.worksheet_mut(0)?;
    sheet.set_conditional_formatting(one_rule(alloc, parts, below(cell))?);
    Ok(())
}

/// A model whose sheet has that rule, and nothing else.
fn model_of(alloc: Global, parts: &[MergedCell], cell: i32) -> Result<Model, EditError> {
    let mut book = Workbook::new_empty(alloc, "book", Locale::En, Zone::Utc)?;
    put_rule(alloc, &mut book, parts, cell)?;
    Model::from_workbook(alloc, book)
}

/// Whether the sheet of a model has that rule, and no other, once its row 4 is deleted.
fn has_rule_later(
    alloc: Global,
    model: &mut Model,
    parts: &[MergedCell],
    cell: i32,
) -> Result<bool, EditError> {
    model.delete_rows(0, 4, 1)?;
    let expected = one_rule(alloc, parts, below(cell))?;
    Ok(*model.workbook().worksheet(0)?.conditional_formatting() == expected)
}

/// Whether a rule, by its parts and the cell of its formula, becomes another one where row 4 is deleted.
fn becomes(
    alloc: Global,
    parts: &[MergedCell],
    cell: i32,
    later: &[MergedCell],
    there: i32,
) -> Result<bool, EditError> {
    let mut model = model_of(alloc, parts, cell)?;
    has_rule_later(alloc, &mut model, later, there)
}

/// The formula of a rule stands at its first part, and goes with it.
#[test]
fn formulas_follow_at_the_first_part(rt: HostRuntime) -> Result<(), Fail> {
    for (parts, cell, later, there) in [
        // B8, then B2:B4, with B9: the first part moves, and the second one stays, since its last corner is
        // lost.
        ([rows(8, 1), rows(2, 3)], 1, [rows(7, 1), rows(2, 3)], 1),
        // The other way round the first part stays: B9 is B8, seen from B2 as before.
        ([rows(2, 3), rows(8, 1)], 7, [rows(2, 3), rows(7, 1)], 6),
    ] {
        assert!(rt; becomes(rt.alloc(), &parts, cell, &later, there)?);
    }
    Ok(())
}
