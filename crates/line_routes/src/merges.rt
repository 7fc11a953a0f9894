ghost use Rattle.std.specs.Prelude.{◌≡◌, IfOk, IsOkUnless};
ghost use Rattle.std.specs.List.{filter_map};
ghost use Rattle.base_axis.specs.Rectangles.{IsInside};
ghost use Rattle.base_values.specs.declared.EditError.TheVariants.{NoMemory};
ghost use Rattle.line_routes.specs.Merges.{merge_carried, merges_carried, merges_part, MergesInside};
ghost use Rattle.line_routes.specs.RouteModel.{route_model};

use crate::list::put_last;
use crate::route::Route;
use base_axis::{Axis, MergeList, MergedCell};
use base_values::{EditError, Items, copy_of};
use line_edits::LineMap;
use std::alloc::Global;

/// A merge on the lines where the map leaves it. `None` where it is dropped.
fn carried_merge<A: Axis, M: LineMap<A>>(
    route: &Route<'_, A, M>,
    merge: MergedCell,
) -> Option<MergedCell>
    requires { IsInside merge }
    ensures { result ≡ merge_carried (route_model route.now) merge }
{
    let (first, last) = merge.lines::<A>();
    let (first, last) = route.map.merged(first, last, merge.across::<A>())?;
    Some(merge.with_lines::<A>(first, last))
}

/// The merges of the edited sheet that are left, on the lines where the map leaves them.
fn merges_left<A: Axis, M: LineMap<A>>(
    alloc: Global,
    route: &Route<'_, A, M>,
    merges: &[MergedCell],
) -> Result<MergeList, EditError>
    requires { MergesInside merges.now }
    ensures value { IfOk result (λ output. output ≡ filter_map (merge_carried (route_model route.now)) merges.now) }
    ensures inside { IfOk result MergesInside }
    ensures only { IsOkUnless result NoMemory }
{
    // For the proof: the route goes one to one.
    route.is_route();
    let mut output = Items::empty(alloc);
    for merge in merges {
        put_last(carried_merge(route, *merge), &mut output)?;
    }
    Ok(MergeList::new(output))
}

/// The merges of a sheet, carried along a route: of those of the edited sheet the ones that are left
/// go with their lines, in their order, and those of another sheet stay. Each is inside the sheet.
/// `NoMemory` is the only error. docs/MODEL.md has the rules.
#[tactic(auto, unfolding(crate::specs::Merges::merges_carried))]
pub fn carried_merges<A: Axis, M: LineMap<A>>(
    alloc: Global,
    route: &Route<'_, A, M>,
    merges: &MergeList,
) -> Result<MergeList, EditError>
    requires { MergesInside merges.now }
    ensures value { IfOk result (λ output. output ≡ merges_carried (route_model route.now) merges.now) }
    ensures inside { IfOk result MergesInside }
    ensures only { IsOkUnless result NoMemory }
{
    if route.is_edited {
        merges_left(alloc, route, merges.as_slice())
    } else {
        copy_of(merges)
    }
}

/// What has to be kept of the merges of a sheet: the whole list, where the way back does not give
/// it. Each merge is inside the sheet. `NoMemory` is the only error.
#[tactic(auto, unfolding(crate::specs::Trial::part_by_trial))]
pub fn merges_part<A: Axis, M: LineMap<A>>(
    alloc: Global,
    route: &Route<'_, A, M>,
    merges: &MergeList,
) -> Result<Option<MergeList>, EditError>
    requires { MergesInside merges.now }
    ensures part { IfOk result (λ part. part ≡ merges_part (route_model route.now) merges.now) }
    ensures only { IsOkUnless result NoMemory }
{
    let there = carried_merges(alloc, route, merges)?;
    if carried_merges(alloc, &route.back(), &there)? == *merges {
        return Ok(None);
    }
    Ok(Some(copy_of(merges)?))
}
