//! The rules of a sheet, carried along, kept and brought back.

ghost use Rattle.std.specs.Prelude.{◌≡◌, IfOk, IsOkUnless, OnOk};
ghost use Rattle.std.specs.FinMap.{get};
ghost use Rattle.std.specs.Option.{option_copied};
ghost use Rattle.base_maps.specs.Carried.{settled};
ghost use Rattle.base_maps.specs.laws.Gathering.{with_made};
ghost use Rattle.base_values.specs.declared.EditError.TheVariants.{NoMemory};
ghost use Rattle.format_rules.specs.Fitting.{RuleInside};
ghost use Rattle.line_routes.specs.RouteModel.{back, route_model};
ghost use Rattle.base_maps.specs.ByIndex.{kept_at, restored_at};
ghost use Rattle.line_map.specs.Canonical.{AreCanonicalKept};
ghost use Rattle.line_map.specs.Rules.{RulesInside, formatting_carried, formatting_part, rules_carried, rules_kept, rules_restored};

use crate::formatting::{carried_formatting, formatting_part};
use base_axis::Axis;
use base_maps::IndexMap;
use base_values::{EditError, Items, copy_of};
use format_rules::{ConditionalFormatting, RuleList};
use line_edits::LineMap;
use line_routes::Route;
use std::alloc::Global;

pub(crate) fn carried_items<A: Axis, M: LineMap<A>>(
    alloc: Global,
    route: &Route<'_, A, M>,
    rules: &[ConditionalFormatting],
) -> Result<Items<ConditionalFormatting>, EditError>
    requires { RulesInside rules.now }
    ensures rules { IfOk result (λ output. output ≡ rules_carried (route_model route.now) rules.now) }
    ensures only { IsOkUnless result NoMemory }
{
    let mut output = Items::empty(alloc);
    for formatting in rules {
        output.push(carried_formatting(alloc, route, formatting)?)?;
    }
    Ok(output)
}

/// Keeps a rule under its place in the list, where the way back does not give it.
fn keep_formatting<A: Axis, M: LineMap<A>>(
    alloc: Global,
    route: &Route<'_, A, M>,
    place: usize,
    formatting: &ConditionalFormatting,
    kept: &mut IndexMap<ConditionalFormatting>,
) -> Result<(), EditError>
    requires { RuleInside formatting.now }
    ensures kept { OnOk result (kept.new ≡ with_made (kept_at (formatting_part (route_model route.now)) (place, formatting.now)) kept.old) }
    ensures only { IsOkUnless result NoMemory }
{
    if let Some(part) = formatting_part(alloc, route, formatting)? {
        let _before = kept.insert(place as u64, part)?;
    }
    Ok(())
}

pub(crate) fn kept_items<A: Axis, M: LineMap<A>>(
    alloc: Global,
    route: &Route<'_, A, M>,
    rules: &[ConditionalFormatting],
) -> Result<IndexMap<ConditionalFormatting>, EditError>
    requires { RulesInside rules.now }
    ensures kept { IfOk result (λ kept. kept ≡ rules_kept (route_model route.now) rules.now) }
    ensures only { IsOkUnless result NoMemory }
{
    let mut kept = IndexMap::new(alloc);
    for (place, formatting) in rules.iter().enumerate() {
        keep_formatting(alloc, route, place, formatting, &mut kept)?;
    }
    Ok(kept)
}

/// The kept rule; without one, the rule carried back.
fn settled_formatting<A: Axis, M: LineMap<A>>(
    alloc: Global,
    route: &Route<'_, A, M>,
    formatting: &ConditionalFormatting,
    kept: Option<&ConditionalFormatting>,
) -> Result<ConditionalFormatting, EditError>
    requires { RuleInside formatting.now }
    ensures value { IfOk result (λ output. output ≡ settled (formatting_carried (back (route_model route.now))) (λ _ own. own) (option_copied kept.entry) formatting.now) }
    ensures only { IsOkUnless result NoMemory }
{
    match kept {
        Some(own) => copy_of(own),
        None => carried_formatting(alloc, &route.back(), formatting),
    }
}

/// The same for the rule at an index of the list.
fn restored_formatting<A: Axis, M: LineMap<A>>(
    alloc: Global,
    route: &Route<'_, A, M>,
    place: usize,
    formatting: &ConditionalFormatting,
    kept: &IndexMap<ConditionalFormatting>,
) -> Result<ConditionalFormatting, EditError>
    requires { RuleInside formatting.now }
    ensures value { IfOk result (λ output. output ≡ restored_at (formatting_carried (back (route_model route.now))) (λ _ own. own) (get kept.now) (place, formatting.now)) }
    ensures only { IsOkUnless result NoMemory }
{
    settled_formatting(alloc, route, formatting, kept.get(place as u64))
}

pub(crate) fn restored_items<A: Axis, M: LineMap<A>>(
    alloc: Global,
    route: &Route<'_, A, M>,
    rules: &[ConditionalFormatting],
    kept: &IndexMap<ConditionalFormatting>,
) -> Result<Items<ConditionalFormatting>, EditError>
    requires { RulesInside rules.now }
    ensures rules { IfOk result (λ output. output ≡ rules_restored (route_model route.now) kept.now rules.now) }
    ensures only { IsOkUnless result NoMemory }
{
    let mut output = Items::empty(alloc);
    for (place, formatting) in rules.iter().enumerate() {
        output.push(restored_formatting(alloc, route, place, formatting, kept)?)?;
    }
    Ok(output)
}

/// The rules of a sheet, carried along a route: each part of each rule to where its corners go, and
/// the formulas of each rule with the first place of its first part. On another sheet than the edited
/// one they stay. `NoMemory` alone is an error. docs/MODEL.md has the rules.
pub fn carried_rules<A: Axis, M: LineMap<A>>(
    alloc: Global,
    route: &Route<'_, A, M>,
    rules: &RuleList,
) -> Result<RuleList, EditError>
    requires { RulesInside rules.now }
    ensures rules { IfOk result (λ output. output ≡ rules_carried (route_model route.now) rules.now) }
    ensures inside { IfOk result RulesInside }
    ensures only { IsOkUnless result NoMemory }
{
    // For the proof: the route goes one to one.
    route.is_route();
    let output = carried_items(alloc, route, rules.as_slice())?;
    Ok(RuleList::new(output))
}

/// The rules of a sheet that the way back does not give, each whole and under its place in the list.
/// `NoMemory` alone is an error.
pub fn kept_rules<A: Axis, M: LineMap<A>>(
    alloc: Global,
    route: &Route<'_, A, M>,
    rules: &RuleList,
) -> Result<IndexMap<ConditionalFormatting>, EditError>
    requires { RulesInside rules.now }
    ensures kept { IfOk result (λ kept. kept ≡ rules_kept (route_model route.now) rules.now) }
    ensures numbers { IfOk result AreCanonicalKept }
    ensures only { IsOkUnless result NoMemory }
{
    kept_items(alloc, route, rules.as_slice())
}

/// The rules of a sheet before they were carried along: each that was kept under its place in the
/// list as it was, and each other one carried back. `NoMemory` alone is an error.
pub fn restored_rules<A: Axis, M: LineMap<A>>(
    alloc: Global,
    route: &Route<'_, A, M>,
    rules: &RuleList,
    kept: &IndexMap<ConditionalFormatting>,
) -> Result<RuleList, EditError>
    requires lie { RulesInside rules.now }
    requires numbers { AreCanonicalKept kept.now }
    ensures rules { IfOk result (λ output. output ≡ rules_restored (route_model route.now) kept.now rules.now) }
    ensures only { IsOkUnless result NoMemory }
{
    let output = restored_items(alloc, route, rules.as_slice(), kept)?;
    Ok(RuleList::new(output))
}
