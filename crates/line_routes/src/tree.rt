ghost use Rattle.std.specs.Prelude.{◌≡◌, IfOk, IfSome, IsOkUnless, None, Some, if◌then◌else◌};
ghost use Rattle.std.specs.Bool.{Decides};
ghost use Rattle.base_tables.specs.Folding.{same_folded};
ghost use Rattle.base_values.specs.Places.{IsPlace};
ghost use Rattle.base_values.specs.declared.EditError.TheVariants.{NoMemory};
ghost use Rattle.line_routes.specs.Trees.{target, is_exposed, is_on_edited, is_whole, moved_corner, tree_carried, tree_part, TreeInside};
ghost use Rattle.line_routes.specs.RouteModel.{route_model};

use crate::keeping::must_keep_along;
use crate::route::Route;
use base_axis::Axis;
use base_shared::Shared;
use base_tables::same_by_folding;
use base_values::{EditError, Exact, Position, Text, copy_of};
use formula_back::is_still;
use formula_tree::{
    Corner, CornerMap, Node, corner_at, corner_to, is_whole_columns, is_whole_rows, move_node,
};
use line_edits::LineMap;
use std::alloc::Global;

/// Where the corners go of a formula that is carried along a route.
#[derive_where(Clone, Copy)]
pub struct Following<'r, 'a, A: Axis, M: LineMap<A>> {
    pub route: &'r Route<'a, A, M>,
}

/// Where a corner comes to stand: an exposed one where its line goes, and any other where it
/// stands. `None` where that is outside the sheet.
#[tactic(auto, unfolding(crate::specs::Trees::target))]
fn target<A: Axis, M: LineMap<A>>(
    route: &Route<'_, A, M>,
    exposed: bool,
    corner: Corner,
) -> Option<Position>
    ensures at { result ≡ target (route_model route.now) exposed corner }
    ensures inside { IfSome result IsPlace }
{
    let place = corner_at(route.from, corner)?;
    if !exposed {
        return Some(place);
    }
    route.image(place)
}

/// Where a corner of the formula goes with its marks, seen from the formula's new place.
pub(crate) fn moved_corner<A: Axis, M: LineMap<A>>(
    route: &Route<'_, A, M>,
    exposed: bool,
    corner: Corner,
) -> Option<Corner>
    ensures { result ≡ moved_corner (route_model route.now) exposed corner }
{
    let target = target(route, exposed, corner)?;
    Some(corner_to(
        route.to,
        corner.absolute_row,
        corner.absolute_column,
        target,
    ))
}

/// Whether a name is that of the edited sheet. Most that are have the same letters, which is told
/// sooner than by folding.
#[tactic(auto, using(base_tables::specs::laws::Folding::same_folded_decides))]
fn is_name_of_edited<A: Axis, M: LineMap<A>>(route: &Route<'_, A, M>, name: &str) -> bool
    ensures { result ≡ same_folded name.now (route_model route.now).edited }
{
    name == route.edited || same_by_folding(name, route.edited)
}

/// Whether a reference or range with this sheet name stands on the edited sheet. One without a name
/// stands on the sheet of its formula.
#[tactic(auto, unfolding(crate::specs::Trees::is_on_edited))]
pub(crate) fn is_on_edited<A: Axis, M: LineMap<A>>(
    route: &Route<'_, A, M>,
    sheet: &Option<Shared<Text>>,
) -> bool
    ensures { result ≡ is_on_edited (route_model route.now).is_edited (route_model route.now).edited sheet.now }
{
    match sheet {
        Some(name) => is_name_of_edited(route, name.get().as_str()),
        None => route.is_edited,
    }
}

/// Whether a range takes all lines of the axis.
pub(crate) fn is_whole<A: Axis>(first: Corner, second: Corner) -> bool
    ensures { result ≡ is_whole A.along first second }
{
    let (rows, columns) = (
        is_whole_rows(first, second),
        is_whole_columns(first, second),
    );
    A::of(rows, columns)
}

/// Whether the corners of a range are exposed: on the edited sheet, and not of a range that is
/// whole along the axis.
#[tactic(auto, unfolding(crate::specs::Trees::is_exposed))]
pub(crate) fn is_exposed<A: Axis, M: LineMap<A>>(
    route: &Route<'_, A, M>,
    sheet: &Option<Shared<Text>>,
    first: Corner,
    second: Corner,
) -> bool
    ensures { result ≡ is_exposed (route_model route.now) sheet.now first second }
{
    is_on_edited(route, sheet) && !is_whole::<A>(first, second)
}

impl<'r, 'a, A: Axis, M: LineMap<A>> CornerMap for Following<'r, 'a, A, M> {
    ghost use Rattle.line_routes.specs.Trees.{following};
    ghost use Rattle.line_routes.specs.RouteModel.{route_model};

    ghost mapping = { λ self. following (route_model self.route.now) };

    fn reference(&self, sheet: &Option<Shared<Text>>, corner: Corner) -> Option<Corner> {
        let exposed = is_on_edited(self.route, sheet);
        moved_corner(self.route, exposed, corner)
    }

    fn range(
        &self,
        sheet: &Option<Shared<Text>>,
        first: Corner,
        second: Corner,
    ) -> (Option<Corner>, Option<Corner>) {
        let exposed = is_exposed(self.route, sheet, first, second);
        (
            moved_corner(self.route, exposed, first),
            moved_corner(self.route, exposed, second),
        )
    }
}

/// The tree of a formula, carried along a route. `NoMemory` is the only error. docs/MODEL.md has the
/// rules.
#[tactic(auto, unfolding(crate::specs::Trees::tree_carried))]
pub fn carried_node<A: Axis, M: LineMap<A>>(
    alloc: Global,
    route: &Route<'_, A, M>,
    node: &Node,
) -> Result<Node, EditError>
    ensures node { IfOk result (λ carried. carried ≡ tree_carried (route_model route.now) node.now) }
    ensures only { IsOkUnless result NoMemory }
{
    Ok(move_node(alloc, node, route.to, &Following { route })?)
}

/// Whether the tree of a formula stays the same along a route, told without memory.
#[tactic(auto, unfolding(crate::specs::Trees::tree_carried))]
pub fn stays<A: Axis, M: LineMap<A>>(route: &Route<'_, A, M>, tree: &Node) -> bool
    ensures { Decides result (tree_carried (route_model route.now) tree.now ≡ tree.now) }
{
    is_still(tree, route.to, &Following { route })
}

/// The tree of a formula, carried along a route. One that stays the same is shared. `NoMemory` is the
/// only error.
pub fn carried_tree<A: Axis, M: LineMap<A>>(
    alloc: Global,
    route: &Route<'_, A, M>,
    tree: &Shared<Node>,
) -> Result<Shared<Node>, EditError>
    ensures value { IfOk result (λ carried. carried ≡ tree_carried (route_model route.now) tree.now) }
    ensures only { IsOkUnless result NoMemory }
{
    if stays(route, tree.get()) {
        return copy_of(tree);
    }
    Ok(Shared::new(alloc, carried_node(alloc, route, tree.get())?)?)
}

/// The value, where it has to be kept.
pub(crate) fn kept_where<T: Exact>(must_keep: bool, value: &T) -> Result<Option<T>, EditError>
    ensures part { IfOk result (λ part. part ≡ (if must_keep then Some value.now else None)) }
    ensures only { IsOkUnless result NoMemory }
{
    if must_keep {
        Ok(Some(copy_of(value)?))
    } else {
        Ok(None)
    }
}

/// What has to be kept of the tree of a formula: the tree, where the way back does not give it. The
/// corners of the formula are inside the sheet, those of each range in order. `NoMemory` is the only
/// error. docs/MODEL.md has the rules.
pub fn tree_part<A: Axis, M: LineMap<A>>(
    route: &Route<'_, A, M>,
    tree: &Shared<Node>,
) -> Result<Option<Shared<Node>>, EditError>
    requires { TreeInside (route_model route.now) tree.now }
    ensures part { IfOk result (λ part. part ≡ tree_part (route_model route.now) tree.now) }
    ensures only { IsOkUnless result NoMemory }
{
    // For the proof: the route goes one to one.
    route.is_route();
    kept_where(must_keep_along(route, tree.get()), tree)
}
