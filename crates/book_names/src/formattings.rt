//! The conditional rules of a sheet, each with its formulas renamed, kept or taken back.

ghost use Rattle.std.specs.Prelude.{◌≡◌, IfOk, IsOkUnless, OnOk};
ghost use Rattle.std.specs.Option.{option_copied};
ghost use Rattle.base_values.specs.declared.EditError.TheVariants.{NoMemory};
ghost use Rattle.base_maps.specs.Carried.{settled};
ghost use Rattle.base_maps.specs.laws.Gathering.{with_made};
ghost use Rattle.base_maps.specs.ByIndex.{kept_at, restored_at};
ghost use Rattle.line_map.specs.Canonical.{AreCanonicalKept};
ghost use Rattle.book_names.specs.Renaming.{AreCanonicalTrees, formatting_renamed, formattings_renamed, formatting_kept, own_formattings_kept};
ghost use Rattle.book_names.specs.Renaming.{formattings_back, formattings_under};

use crate::cells::Returned;
use crate::names::renamed_tree;
use base_maps::{IndexMap, SheetIndex};
use base_shared::Shared;
use base_values::{EditError, Items, Text, copy_of};
use format_rules::{ConditionalFormatting, RuleList, TreeChange, change_trees};
use formula_names::Reach;
use formula_tree::Node;
use std::alloc::Global;

/// Formulas that are renamed, as far as the renaming reaches.
#[derive(Drop)]
struct RenamedTrees<'r> {
    reach: Reach,
    before: &'r str,
    after: &'r Shared<Text>,
}

impl<'r> TreeChange for RenamedTrees<'r> {
    ghost use Rattle.std.specs.Prelude.{⊤};
    ghost use Rattle.formula_names.specs.Renamed.{tree_renamed};

    ghost Takes = { λ _ _. ⊤ };

    ghost change_of = { λ self. tree_renamed self.reach self.before.now self.after.now };

    fn changed(&self, alloc: Global, tree: &Shared<Node>) -> Result<Shared<Node>, EditError> {
        renamed_tree(alloc, tree, self.reach, self.before, self.after)
    }
}

/// A conditional rule whose formulas are renamed.
fn renamed_formatting(
    alloc: Global,
    formatting: &ConditionalFormatting,
    reach: Reach,
    old: &str,
    new: &Shared<Text>,
) -> Result<ConditionalFormatting, EditError>
    ensures formatting { IfOk result (λ output. output ≡ formatting_renamed reach old.now new.now formatting.now) }
    ensures only { IsOkUnless result NoMemory }
{
    let change = RenamedTrees {
        reach,
        before: old,
        after: new,
    };
    let rule = change_trees(alloc, &formatting.rule, &change)?;
    let parts = copy_of(&formatting.parts)?;
    Ok(ConditionalFormatting {
        parts,
        rule,
        priority: formatting.priority,
    })
}

fn formattings_renamed(
    alloc: Global,
    formattings: &[ConditionalFormatting],
    reach: Reach,
    old: &str,
    new: &Shared<Text>,
) -> Result<Items<ConditionalFormatting>, EditError>
    ensures formattings { IfOk result (λ output. output ≡ formattings_renamed reach old.now new.now formattings.now) }
    ensures only { IsOkUnless result NoMemory }
{
    let mut output = Items::empty(alloc);
    for formatting in formattings {
        let renamed = renamed_formatting(alloc, formatting, reach, old, new)?;
        output.push(renamed)?;
    }
    Ok(output)
}

/// The conditional rules of a sheet, renamed.
pub(crate) fn renamed_rules(
    alloc: Global,
    rules: &RuleList,
    reach: Reach,
    old: &str,
    new: &Shared<Text>,
) -> Result<RuleList, EditError>
    ensures rules { IfOk result (λ output. output ≡ formattings_renamed reach old.now new.now rules.now) }
    ensures only { IsOkUnless result NoMemory }
{
    let renamed = formattings_renamed(alloc, rules.as_slice(), reach, old, new)?;
    Ok(RuleList::new(renamed))
}

/// Two renamings, the second of which goes the opposite way, and what each reaches.
#[derive(Drop)]
pub(crate) struct BothWays<'n> {
    pub(crate) there: Reach,
    pub(crate) back: Reach,
    pub(crate) old: &'n Shared<Text>,
    pub(crate) new: &'n Shared<Text>,
}

/// A conditional rule after one of them.
fn renamed_to(
    alloc: Global,
    formatting: &ConditionalFormatting,
    reach: Reach,
    old: &Shared<Text>,
    new: &Shared<Text>,
) -> Result<ConditionalFormatting, EditError>
    ensures formatting { IfOk result (λ output. output ≡ formatting_renamed reach old.now new.now formatting.now) }
    ensures only { IsOkUnless result NoMemory }
{
    renamed_formatting(alloc, formatting, reach, old.get().as_str(), new)
}

/// A conditional rule after both renamings.
fn there_and_back(
    alloc: Global,
    formatting: &ConditionalFormatting,
    ways: &BothWays<'_>,
) -> Result<ConditionalFormatting, EditError>
    ensures formatting { IfOk result (λ output. output ≡ formatting_renamed ways.now.back ways.now.new.now ways.now.old.now
        (formatting_renamed ways.now.there ways.now.old.now ways.now.new.now formatting.now)) }
    ensures only { IsOkUnless result NoMemory }
{
    let output = renamed_to(alloc, formatting, ways.there, ways.old, ways.new)?;
    renamed_to(alloc, &output, ways.back, ways.new, ways.old)
}

/// A conditional rule, where the opposite renaming does not give it.
#[tactic(auto, unfolding(crate::specs::Renaming::formatting_kept))]
fn kept_formatting(
    alloc: Global,
    formatting: &ConditionalFormatting,
    ways: &BothWays<'_>,
) -> Result<Option<ConditionalFormatting>, EditError>
    ensures kept { IfOk result (λ kept. kept ≡ formatting_kept ways.now.there ways.now.back ways.now.old.now ways.now.new.now formatting.now) }
    ensures only { IsOkUnless result NoMemory }
{
    if there_and_back(alloc, formatting, ways)? == *formatting {
        return Ok(None);
    }
    Ok(Some(copy_of(formatting)?))
}

/// Keeps a conditional rule under its place in the list, where the opposite renaming does not give it.
fn keep_formatting(
    alloc: Global,
    place: usize,
    formatting: &ConditionalFormatting,
    kept: &mut IndexMap<ConditionalFormatting>,
    ways: &BothWays<'_>,
) -> Result<(), EditError>
    ensures kept { OnOk result (kept.new ≡
        with_made (kept_at (formatting_kept ways.now.there ways.now.back ways.now.old.now ways.now.new.now) (place, formatting.now)) kept.old) }
    ensures only { IsOkUnless result NoMemory }
{
    if let Some(part) = kept_formatting(alloc, formatting, ways)? {
        let _before = kept.insert(place as u64, part)?;
    }
    Ok(())
}

fn formattings_kept(
    alloc: Global,
    formattings: &[ConditionalFormatting],
    ways: &BothWays<'_>,
) -> Result<IndexMap<ConditionalFormatting>, EditError>
    ensures kept { IfOk result (λ kept. kept ≡ own_formattings_kept ways.now.there ways.now.back ways.now.old.now ways.now.new.now formattings.now) }
    ensures only { IsOkUnless result NoMemory }
{
    let mut kept = IndexMap::new(alloc);
    for (place, formatting) in formattings.iter().enumerate() {
        keep_formatting(alloc, place, formatting, &mut kept, ways)?;
    }
    Ok(kept)
}

/// The conditional rules of a sheet that the opposite renaming does not give, by their places in the
/// list. Their numbers are canonical.
pub(crate) fn kept_of_rules(
    alloc: Global,
    rules: &RuleList,
    ways: &BothWays<'_>,
) -> Result<IndexMap<ConditionalFormatting>, EditError>
    ensures kept { IfOk result (λ kept. kept ≡ own_formattings_kept ways.now.there ways.now.back ways.now.old.now ways.now.new.now rules.now) }
    ensures numbers { IfOk result AreCanonicalKept }
    ensures only { IsOkUnless result NoMemory }
{
    formattings_kept(alloc, rules.as_slice(), ways)
}

/// The conditional rule that is kept, if there is one, else the sheet's own renamed back.
fn formatting_back(
    alloc: Global,
    formatting: &ConditionalFormatting,
    kept: Option<&ConditionalFormatting>,
    reach: Reach,
    old: &Shared<Text>,
    new: &str,
) -> Result<ConditionalFormatting, EditError>
    ensures formatting { IfOk result (λ back. back ≡ settled (formatting_renamed reach new.now old.now) (λ _ own. own) (option_copied kept.entry) formatting.now) }
    ensures only { IsOkUnless result NoMemory }
{
    match kept {
        Some(own) => copy_of(own),
        None => renamed_formatting(alloc, formatting, reach, new, old),
    }
}

/// The conditional rule at a place of a sheet's list, as it is kept there, else renamed back.
fn formatting_at(
    alloc: Global,
    place: usize,
    formatting: &ConditionalFormatting,
    change: &Returned<'_>,
) -> Result<ConditionalFormatting, EditError>
    ensures formatting { IfOk result (λ output.
        output ≡ restored_at (formatting_renamed change.now.reach change.now.after.now change.now.before.now) (λ _ own. own)
        (formattings_under change.now.kept.now change.now.id) (place, formatting.now)) }
    ensures only { IsOkUnless result NoMemory }
{
    let key = SheetIndex {
        sheet: change.id,
        index: place as u64,
    };
    let kept = change.kept.formattings.get(key);
    formatting_back(
        alloc,
        formatting,
        kept,
        change.reach,
        change.before,
        change.after,
    )
}

fn formattings_back(
    alloc: Global,
    formattings: &[ConditionalFormatting],
    change: &Returned<'_>,
) -> Result<Items<ConditionalFormatting>, EditError>
    ensures formattings { IfOk result (λ output.
        output ≡ formattings_back change.now.reach change.now.before.now change.now.after.now (formattings_under change.now.kept.now change.now.id) formattings.now) }
    ensures only { IsOkUnless result NoMemory }
{
    let mut output = Items::empty(alloc);
    for (place, formatting) in formattings.iter().enumerate() {
        output.push(formatting_at(alloc, place, formatting, change)?)?;
    }
    Ok(output)
}

/// The conditional rules of a sheet, as they are kept, else renamed back as far as the renaming
/// reaches.
pub(crate) fn rules_back(
    alloc: Global,
    rules: &RuleList,
    change: &Returned<'_>,
) -> Result<RuleList, EditError>
    requires { AreCanonicalTrees change.now.kept.now }
    ensures rules { IfOk result (λ output.
        output ≡ formattings_back change.now.reach change.now.before.now change.now.after.now (formattings_under change.now.kept.now change.now.id) rules.now) }
    ensures only { IsOkUnless result NoMemory }
{
    let back = formattings_back(alloc, rules.as_slice(), change)?;
    Ok(RuleList::new(back))
}
