//! Changes of conditional rules as parts of formats.

ghost use Rattle.std.specs.Prelude.{◌≡◌, ◌++◌, OnOk};
ghost use Rattle.base_values.specs.Answers.{Answers, map_ok};
ghost use Rattle.sheet_wire.specs.laws.Reading.{rule_diff_at, rule_change_at};
ghost use Rattle.sheet_wire.specs.RulesBytes.{encode_rule, encode_rule_change, FitsRuleChange, FitsRuleDiff, IsKnownRuleChange};

use base_shared::Shared;
use base_styles::Style;
use base_values::EditError;
use base_wire::{Part, read};
use grid_wire::FormattingPart;
use rule_edits::RuleChange;
use sheet_history::Diff;
use std::alloc::{AllocError, Global};

#[tactic(auto, unfolding(crate::specs::laws::Reading::rule_change_at, crate::specs::laws::Reading::rule_there_at))]
fn rule_change_at<'a>(
    alloc: Global,
    plain: &Shared<Style>,
    bytes: &'a [u8],
) -> Result<(RuleChange, &'a [u8]), EditError>
    ensures { Answers (map_ok (λ x. (x.0, x.1.now)) result) (rule_change_at bytes.now) }
{
    let (index, rest) = read::<u64>(alloc, &(), bytes)?;
    let (old, rest) = read::<Option<FormattingPart>>(alloc, plain, rest)?;
    let (new, rest) = read::<Option<FormattingPart>>(alloc, plain, rest)?;
    Ok((RuleChange { index, old, new }, rest))
}

#[tactic(auto, unfolding(crate::specs::RulesBytes::encode_rule_change))]
fn put_rule_change(out: &mut Vec<u8>, change: &RuleChange) -> Result<(), AllocError>
    ensures encoded { OnOk result (out.new.items ≡ out.old.items ++ encode_rule_change change.now) }
    ensures fits { OnOk result (IsKnownRuleChange change.now → FitsRuleChange change.now) }
{
    u64::put(out, &change.index)?;
    Option::<FormattingPart>::put(out, &change.old)?;
    Option::<FormattingPart>::put(out, &change.new)?;
    Ok(())
}

/// A change of a conditional rule: its index, and the rule before and after. Each style that is read and
/// equal to that of the context shares it.
pub(crate) struct RuleChangePart;

impl Part for RuleChangePart {
    ghost use Rattle.sheet_wire.specs.RulesBytes.{encode_rule_change, FitsRuleChange, IsKnownRuleChange};
    ghost use Rattle.sheet_wire.specs.laws.Reading.{rule_change_at};
    ghost use Rattle.sheet_wire.specs.laws.RulesFormats.{rule_change_format, rule_change_some};

    type Value = RuleChange;

    type Context = Shared<Style>;

    ghost Known = { IsKnownRuleChange };

    ghost Fits = { FitsRuleChange };

    ghost encoding = { encode_rule_change };

    ghost reading = { rule_change_at };

    fn put(out: &mut Vec<u8>, value: &RuleChange) -> Result<(), AllocError> {
        put_rule_change(out, value)
    }

    fn take<'a>(
        alloc: Global,
        plain: &Shared<Style>,
        bytes: &'a [u8],
    ) -> Result<(RuleChange, &'a [u8]), EditError> {
        rule_change_at(alloc, plain, bytes)
    }

    ghost format = { rule_change_format };

    ghost some = { rule_change_some };
}

/// Adds the id of a sheet, and a change of its conditional rules.
#[tactic(auto, unfolding(crate::specs::RulesBytes::encode_rule))]
pub(crate) fn put_rule(
    out: &mut Vec<u8>,
    sheet: u32,
    change: &Shared<RuleChange>,
) -> Result<(), AllocError>
    ensures encoded { OnOk result (out.new.items ≡ out.old.items ++ encode_rule sheet change.now) }
    ensures fits { OnOk result (IsKnownRuleChange change.now → FitsRuleDiff sheet change.now) }
{
    out.extend_from_slice(&sheet.to_be_bytes())?;
    Shared::<RuleChangePart>::put(out, change)
}

#[tactic(auto, unfolding(crate::specs::laws::Reading::rule_diff_at))]
pub(crate) fn rule_diff_at<'a>(
    alloc: Global,
    plain: &Shared<Style>,
    bytes: &'a [u8],
) -> Result<(Diff, &'a [u8]), EditError>
    ensures { Answers (map_ok (λ x. (x.0, x.1.now)) result) (rule_diff_at bytes.now) }
{
    let (sheet, rest) = read::<u32>(alloc, &(), bytes)?;
    let (change, rest) = read::<Shared<RuleChangePart>>(alloc, plain, rest)?;
    Ok((Diff::Rule { sheet, change }, rest))
}
