ghost use Rattle.std.specs.Prelude.{◌≡◌, IfOk, IsOkUnless};
ghost use Rattle.std.specs.List.{All};
ghost use Rattle.base_values.specs.declared.EditError.TheVariants.{NoMemory};
ghost use Rattle.base_axis.specs.Rectangles.{IsInside};
ghost use Rattle.format_rules.specs.Fitting.{RuleInside};
ghost use Rattle.line_routes.specs.RouteModel.{route_model};
ghost use Rattle.line_map.specs.Rules.{at_part, route_of_trees, formatting_moved, formatting_carried, formatting_part};

use crate::follower::Follower;
use base_axis::{Axis, MergedCell};
use base_shared::Shared;
use base_values::{EditError, copy_of};
use format_rules::{ConditionalFormatting, TreeChange, change_trees};
use formula_tree::Node;
use line_edits::LineMap;
use line_routes::Route;
use std::alloc::Global;

/// What a route does to the trees that go along it.
#[derive(Drop)]
struct Following<'r, 'a, A: Axis, M: LineMap<A>> {
    route: &'r Route<'a, A, M>,
}

impl<'r, 'a, A: Axis, M: LineMap<A>> TreeChange for Following<'r, 'a, A, M> {
    ghost use Rattle.line_routes.specs.Trees.{TreeInside, tree_carried};
    ghost use Rattle.line_routes.specs.RouteModel.{route_model};

    ghost Takes = { λ self. TreeInside (route_model self.route.now) };

    ghost change_of = { λ self. tree_carried (route_model self.route.now) };

    fn changed(&self, alloc: Global, tree: &Shared<Node>) -> Result<Shared<Node>, EditError> {
        tree.carry(alloc, self.route)
    }
}

/// The route of what stands at the first place of a part, and goes with the part.
#[tactic(auto, using(line_routes::specs::laws::MergedCellLaws::merged_cell_stays))]
fn route_with<'a, A: Axis, M: LineMap<A>>(
    alloc: Global,
    route: &Route<'a, A, M>,
    part: MergedCell,
) -> Result<Route<'a, A, M>, EditError>
    requires { IsInside part }
    ensures route { IfOk result (λ output. route_model output ≡ at_part (route_model route.now) part) }
    ensures only { IsOkUnless result NoMemory }
{
    // For the proof: the route goes one to one.
    route.is_route();
    let there = part.carry(alloc, route)?;
    Ok(route.at(part.anchor_place(), there.anchor_place()))
}

/// The route of the formulas of a rule on these parts.
fn route_of_trees<'a, A: Axis, M: LineMap<A>>(
    alloc: Global,
    route: &Route<'a, A, M>,
    parts: &[MergedCell],
) -> Result<Route<'a, A, M>, EditError>
    requires { All IsInside parts.now }
    ensures route { IfOk result (λ output. route_model output ≡ route_of_trees (route_model route.now) parts.now) }
    ensures only { IsOkUnless result NoMemory }
{
    match parts {
        [] => Ok(*route),
        [first, ..] => route_with(alloc, route, *first),
    }
}

/// A rule whose parts and formulas go along a route.
fn moved_formatting<A: Axis, M: LineMap<A>>(
    alloc: Global,
    route: &Route<'_, A, M>,
    formatting: &ConditionalFormatting,
) -> Result<ConditionalFormatting, EditError>
    requires { RuleInside formatting.now }
    ensures value { IfOk result (λ output. output ≡ formatting_moved (route_model route.now) formatting.now) }
    ensures only { IsOkUnless result NoMemory }
{
    let there = route_of_trees(alloc, route, formatting.parts.as_slice())?;
    let rule = change_trees(alloc, &formatting.rule, &Following { route: &there })?;
    let parts = formatting.parts.carry(alloc, route)?;
    Ok(ConditionalFormatting {
        parts,
        rule,
        priority: formatting.priority,
    })
}

/// A rule of a sheet, carried along.
#[tactic(auto, unfolding(crate::specs::Rules::formatting_carried))]
pub(crate) fn carried_formatting<A: Axis, M: LineMap<A>>(
    alloc: Global,
    route: &Route<'_, A, M>,
    formatting: &ConditionalFormatting,
) -> Result<ConditionalFormatting, EditError>
    requires { RuleInside formatting.now }
    ensures value { IfOk result (λ output. output ≡ formatting_carried (route_model route.now) formatting.now) }
    ensures only { IsOkUnless result NoMemory }
{
    if route.is_edited {
        moved_formatting(alloc, route, formatting)
    } else {
        copy_of(formatting)
    }
}

/// What has to be kept of a rule: the rule, where the way back does not give it.
#[tactic(auto, unfolding(line_routes::specs::Trial::part_by_trial), using(crate::specs::laws::RuleLaws::formatting_stays))]
pub(crate) fn formatting_part<A: Axis, M: LineMap<A>>(
    alloc: Global,
    route: &Route<'_, A, M>,
    formatting: &ConditionalFormatting,
) -> Result<Option<ConditionalFormatting>, EditError>
    requires { RuleInside formatting.now }
    ensures part { IfOk result (λ part. part ≡ formatting_part (route_model route.now) formatting.now) }
    ensures only { IsOkUnless result NoMemory }
{
    // For the proof: the route goes one to one.
    route.is_route();
    let there = carried_formatting(alloc, route, formatting)?;
    if carried_formatting(alloc, &route.back(), &there)? == *formatting {
        return Ok(None);
    }
    Ok(Some(copy_of(formatting)?))
}
