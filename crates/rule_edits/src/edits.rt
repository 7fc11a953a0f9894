//! Edits of the rules of a sheet: which changes each makes, or why it is refused.

ghost use Rattle.std.specs.Prelude.{◌≡◌, ◌≢◌, true, Err, IfOk, IfSome, IsOkUnless};
ghost use Rattle.std.specs.List.{list_all};
ghost use Rattle.base_values.specs.Answers.{Returns, map_ok};
ghost use Rattle.base_values.specs.declared.EditError.TheVariants.{NoMemory};
ghost use Rattle.base_axis.specs.Rectangles.{is_inside};
ghost use Rattle.format_rules.specs.Canonical.{IsCanonicalFormatting, has_canonical_numbers};
ghost use Rattle.rule_edits.specs.RuleChanges.{IsCanonicalChange, change_at};
ghost use Rattle.rule_edits.specs.RuleEdits.{checked_rule, formatting_of, greatest_priority, next_priority, priority_change, rule_at};
ghost use Rattle.rule_edits.specs.RuleEdits.{rule_added, rule_removed, rule_replaced, rule_updated, rules_swapped, swapped_in_order};

use crate::change::RuleChange;
use base_axis::MergedCell;
use base_shared::Shared;
use base_values::{EditError, Items, Position, copy_of};
use cell_content::tree_fits_at;
use format_rules::{CfRule, ConditionalFormatting, RuleList, TreeTest, each_tree, place_of};
use formula_tree::{Node, is_parse_error};
use std::alloc::Global;

/// The test of a formula at the place of a rule.
#[derive(Drop)]
struct FormulaAt {
    place: Position,
}

impl TreeTest for FormulaAt {
    ghost use Rattle.rule_edits.specs.RuleEdits.{is_rule_formula};

    ghost tests = { λ self. is_rule_formula self.place };

    fn test(&self, tree: &Node) -> bool {
        !is_parse_error(tree) && tree_fits_at(self.place, tree)
    }
}

fn are_inside(parts: &[MergedCell]) -> bool
    ensures { result ≡ list_all is_inside parts.now }
{
    parts.iter().all(|part| part.is_inside())
}

/// Whether a rule may come on these parts.
fn check_rule(parts: &[MergedCell], rule: &CfRule) -> Result<(), EditError>
    ensures checked { result ≡ checked_rule parts.now rule.now }
    ensures sure { result ≢ Err NoMemory }
{
    let Some(place) = place_of(parts) else {
        return Err(EditError::InvalidArea);
    };
    if !are_inside(parts) {
        return Err(EditError::InvalidArea);
    }
    if !each_tree(rule, &FormulaAt { place }) {
        return Err(EditError::BadFormula);
    }
    Ok(())
}

/// Lends the rule at an index.
fn rule_at(rules: &RuleList, index: u64) -> Result<&ConditionalFormatting, EditError>
    ensures found { map_ok (λ lent. lent.now) result ≡ rule_at index rules.now }
    ensures numbers { IfOk result (λ lent. IsCanonicalFormatting lent.now) }
    ensures sure { result ≢ Err NoMemory }
{
    match rules.as_slice().get(index as usize) {
        Some(formatting) => Ok(formatting),
        None => Err(EditError::RuleIndex),
    }
}

fn greatest_priority(rules: &[ConditionalFormatting]) -> u32
    ensures { result ≡ greatest_priority rules.now }
{
    let mut greatest: u32 = 0;
    for formatting in rules {
        greatest = greatest.max(formatting.priority);
    }
    greatest
}

/// The priority of a rule that comes behind others.
fn next_priority(rules: &[ConditionalFormatting]) -> Result<u32, EditError>
    ensures next { result ≡ next_priority rules.now }
    ensures sure { result ≢ Err NoMemory }
{
    match greatest_priority(rules).checked_add(1) {
        Some(priority) => Ok(priority),
        None => Err(EditError::RuleNumbers),
    }
}

/// A rule on these parts, with a priority. `NoMemory` alone is an error.
fn formatting_of(
    alloc: Global,
    parts: &[MergedCell],
    rule: &CfRule,
    priority: u32,
) -> Result<ConditionalFormatting, EditError>
    ensures output { IfOk result (λ output. output ≡ formatting_of parts.now rule.now priority) }
    ensures only { IsOkUnless result NoMemory }
{
    let parts = Items::new(Vec::from_slice(alloc, parts)?);
    Ok(ConditionalFormatting {
        parts,
        rule: copy_of(rule)?,
        priority,
    })
}

/// A change at an index. `NoMemory` alone is an error.
fn change_at(
    alloc: Global,
    index: u64,
    old: Option<ConditionalFormatting>,
    new: Option<ConditionalFormatting>,
) -> Result<Shared<RuleChange>, EditError>
    ensures output { IfOk result (λ output. output ≡ change_at index old new) }
    ensures only { IsOkUnless result NoMemory }
{
    Ok(Shared::new(alloc, RuleChange { index, old, new })?)
}

/// The change of a rule at an index to another one, or none where they are equal. `NoMemory` alone is an
/// error.
fn rule_replaced(
    alloc: Global,
    index: u64,
    old: &ConditionalFormatting,
    new: ConditionalFormatting,
) -> Result<Option<Shared<RuleChange>>, EditError>
    requires old { IsCanonicalFormatting old.now }
    requires new { IsCanonicalFormatting new }
    ensures output { IfOk result (λ output. output ≡ rule_replaced index old.now new) }
    ensures numbers { IfOk result (λ output. IfSome output IsCanonicalChange) }
    ensures only { IsOkUnless result NoMemory }
{
    if *old == new {
        return Ok(None);
    }
    let change = change_at(alloc, index, Some(copy_of(old)?), Some(new))?;
    Ok(Some(change))
}

/// A copy of a rule with another priority. `NoMemory` alone is an error.
fn with_priority(
    old: &ConditionalFormatting,
    priority: u32,
) -> Result<ConditionalFormatting, EditError>
    ensures output { IfOk result (λ output. output ≡ record old.now { priority = priority }) }
    ensures only { IsOkUnless result NoMemory }
{
    let mut output = copy_of(old)?;
    output.priority = priority;
    Ok(output)
}

/// The change of a rule that gets another priority. `NoMemory` alone is an error.
fn priority_change(
    alloc: Global,
    index: u64,
    old: &ConditionalFormatting,
    priority: u32,
) -> Result<Shared<RuleChange>, EditError>
    requires { IsCanonicalFormatting old.now }
    ensures output { IfOk result (λ output. output ≡ priority_change index old.now priority) }
    ensures numbers { IfOk result IsCanonicalChange }
    ensures only { IsOkUnless result NoMemory }
{
    let new = with_priority(old, priority)?;
    change_at(alloc, index, Some(copy_of(old)?), Some(new))
}

/// The changes of the rules at two indexes, in order, that exchange their priorities.
fn swapped_in_order(
    alloc: Global,
    rules: &RuleList,
    first: u64,
    second: u64,
) -> Result<Option<(Shared<RuleChange>, Shared<RuleChange>)>, EditError>
    ensures changes { Returns result (swapped_in_order first second rules.now) }
    ensures numbers { IfOk result (λ output. IfSome output (λ changes. IsCanonicalChange changes.0 × IsCanonicalChange changes.1)) }
{
    let old = rule_at(rules, first)?;
    let other = rule_at(rules, second)?;
    if old.priority == other.priority {
        return Ok(None);
    }
    let low = priority_change(alloc, first, old, other.priority)?;
    let high = priority_change(alloc, second, other, old.priority)?;
    Ok(Some((low, high)))
}

/// The change that a new rule makes: it comes behind the others, and its priority is one above the
/// greatest, or 1 where it is the first.
///
/// `InvalidArea` where there is no part or a part is not inside the sheet, else `BadFormula` where a
/// formula is none or does not fit the first place of the first part, else `RuleNumbers` where the
/// greatest priority is 4,294,967,295. They take no memory, and the change takes some.
#[tactic(auto, unfolding(crate::specs::RuleEdits::rule_added))]
pub fn add_rule(
    alloc: Global,
    rules: &RuleList,
    parts: &[MergedCell],
    rule: &CfRule,
) -> Result<Shared<RuleChange>, EditError>
    requires { has_canonical_numbers rule.now ≡ true }
    ensures change { Returns result (rule_added parts.now rule.now rules.now) }
    ensures numbers { IfOk result IsCanonicalChange }
{
    let rules = rules.as_slice();
    check_rule(parts, rule)?;
    let priority = next_priority(rules)?;
    let new = formatting_of(alloc, parts, rule, priority)?;
    change_at(alloc, rules.len() as u64, None, Some(new))
}

/// The change of a rule that gets other parts and becomes another one. It keeps its place and its
/// priority. None where both are what they were.
///
/// `RuleIndex` where there is no rule at the index, else `InvalidArea` where there is no part or a part is
/// not inside the sheet, else `BadFormula` where a formula is none or does not fit the first place of the
/// first part. They take no memory, and the change takes some.
#[tactic(auto, unfolding(crate::specs::RuleEdits::rule_updated))]
pub fn update_rule(
    alloc: Global,
    rules: &RuleList,
    index: u64,
    parts: &[MergedCell],
    rule: &CfRule,
) -> Result<Option<Shared<RuleChange>>, EditError>
    requires { has_canonical_numbers rule.now ≡ true }
    ensures change { Returns result (rule_updated index parts.now rule.now rules.now) }
    ensures numbers { IfOk result (λ output. IfSome output IsCanonicalChange) }
{
    let old = rule_at(rules, index)?;
    check_rule(parts, rule)?;
    let new = formatting_of(alloc, parts, rule, old.priority)?;
    rule_replaced(alloc, index, old, new)
}

/// The change of a rule that goes. The others keep their priorities.
///
/// `RuleIndex` where there is no rule at the index. It takes no memory, and the change takes some.
#[tactic(auto, unfolding(crate::specs::RuleEdits::rule_removed))]
pub fn remove_rule(
    alloc: Global,
    rules: &RuleList,
    index: u64,
) -> Result<Shared<RuleChange>, EditError>
    ensures change { Returns result (rule_removed index rules.now) }
    ensures numbers { IfOk result IsCanonicalChange }
{
    let old = rule_at(rules, index)?;
    change_at(alloc, index, Some(copy_of(old)?), None)
}

/// The changes that exchange the priorities of two rules, that at the lower index first. None where the
/// priorities are equal.
///
/// `RuleIndex` where there is no rule at one of the indexes. It takes no memory, and the changes take some.
#[tactic(auto, unfolding(crate::specs::RuleEdits::rules_swapped))]
pub fn swap_rules(
    alloc: Global,
    rules: &RuleList,
    index_a: u64,
    index_b: u64,
) -> Result<Option<(Shared<RuleChange>, Shared<RuleChange>)>, EditError>
    ensures changes { Returns result (rules_swapped index_a index_b rules.now) }
    ensures numbers { IfOk result (λ output. IfSome output (λ changes. IsCanonicalChange changes.0 × IsCanonicalChange changes.1)) }
{
    let first = index_a.min(index_b);
    let second = index_a.max(index_b);
    swapped_in_order(alloc, rules, first, second)
}
