//! The rules of a sheet after a change.

ghost use Rattle.std.specs.Prelude.{◌≡◌, ◌<◌, length, true, IfOk, IfSome, IsOkUnless, OnOk};
ghost use Rattle.std.specs.List.{insert};
ghost use Rattle.base_values.specs.declared.EditError.TheVariants.{NoMemory};
ghost use Rattle.format_rules.specs.Canonical.{IsCanonicalFormatting};
ghost use Rattle.rule_edits.specs.RuleChanges.{IsCanonicalChange, change_at, has_place, opposite, rule_come, rule_gone, rules_changed};

use crate::change::RuleChange;
use base_values::{EditError, Items, copy_of};
use format_rules::{ConditionalFormatting, RuleList};
use std::alloc::Global;

fn copied(
    alloc: Global,
    rules: &[ConditionalFormatting],
) -> Result<Items<ConditionalFormatting>, EditError>
    ensures rules { IfOk result (λ copies. copies ≡ rules.now) }
    ensures only { IsOkUnless result NoMemory }
{
    let mut copies = Items::empty(alloc);
    for formatting in rules {
        copies.push(copy_of(formatting)?)?;
    }
    Ok(copies)
}

/// The rules without the one at an index, if one goes.
fn without_old(
    mut rules: Vec<ConditionalFormatting>,
    index: u64,
    old: &Option<ConditionalFormatting>,
) -> Vec<ConditionalFormatting>
    requires { IfSome old.now (λ _. index < length rules.items) }
    ensures { result.items ≡ rule_gone index old.now rules.items }
{
    if old.is_some() {
        let _gone = rules.remove(index as usize);
    }
    rules
}

/// Puts a rule at an index, or behind the others where they are fewer.
fn put_rule(
    rules: &mut Vec<ConditionalFormatting>,
    index: u64,
    formatting: ConditionalFormatting,
) -> Result<(), EditError>
    ensures rules { OnOk result (rules.new.items ≡ insert rules.old.items index formatting) }
    ensures only { IsOkUnless result NoMemory }
{
    let at = rules.len().min(index as usize);
    rules.insert(at, formatting)?;
    Ok(())
}

/// The rules with a copy of another one at an index, if one comes.
fn with_new(
    mut rules: Vec<ConditionalFormatting>,
    index: u64,
    new: &Option<ConditionalFormatting>,
) -> Result<Vec<ConditionalFormatting>, EditError>
    ensures rules { IfOk result (λ output. output.items ≡ rule_come index new.now rules.items) }
    ensures only { IsOkUnless result NoMemory }
{
    if let Some(formatting) = new {
        put_rule(&mut rules, index, copy_of(formatting)?)?;
    }
    Ok(rules)
}

/// The rules after a change at an index.
fn changed_rules(
    alloc: Global,
    rules: &[ConditionalFormatting],
    index: u64,
    old: &Option<ConditionalFormatting>,
    new: &Option<ConditionalFormatting>,
) -> Result<Items<ConditionalFormatting>, EditError>
    requires { has_place (change_at index old.now new.now) (length rules.now) ≡ true }
    ensures rules { IfOk result (λ output. output ≡ rules_changed (change_at index old.now new.now) rules.now) }
    ensures only { IsOkUnless result NoMemory }
{
    let before = copied(alloc, rules)?.into_vec();
    let left = without_old(before, index, old);
    let output = with_new(left, index, new)?;
    Ok(Items::new(output))
}

/// The list of the rules after a change at an index.
fn changed_list(
    alloc: Global,
    rules: &RuleList,
    index: u64,
    old: &Option<ConditionalFormatting>,
    new: &Option<ConditionalFormatting>,
) -> Result<RuleList, EditError>
    requires place { has_place (change_at index old.now new.now) (length rules.now) ≡ true }
    requires numbers { IfSome new.now IsCanonicalFormatting }
    ensures rules { IfOk result (λ output. output ≡ rules_changed (change_at index old.now new.now) rules.now) }
    ensures only { IsOkUnless result NoMemory }
{
    let output = changed_rules(alloc, rules.as_slice(), index, old, new)?;
    Ok(RuleList::new(output))
}

/// The rules after a change: the old rule goes from the index, and the new one comes there. `NoMemory`
/// alone is an error.
pub fn rules_forward(
    alloc: Global,
    rules: &RuleList,
    change: &RuleChange,
) -> Result<RuleList, EditError>
    requires place { has_place change.now (length rules.now) ≡ true }
    requires numbers { IsCanonicalChange change.now }
    ensures rules { IfOk result (λ output. output ≡ rules_changed change.now rules.now) }
    ensures only { IsOkUnless result NoMemory }
{
    changed_list(alloc, rules, change.index, &change.old, &change.new)
}

/// The rules before a change: the new rule goes from the index, and the old one comes there. `NoMemory`
/// alone is an error.
pub fn rules_back(
    alloc: Global,
    rules: &RuleList,
    change: &RuleChange,
) -> Result<RuleList, EditError>
    requires place { has_place (opposite change.now) (length rules.now) ≡ true }
    requires numbers { IsCanonicalChange change.now }
    ensures rules { IfOk result (λ output. output ≡ rules_changed (opposite change.now) rules.now) }
    ensures only { IsOkUnless result NoMemory }
{
    changed_list(alloc, rules, change.index, &change.new, &change.old)
}
