//! What the trees are that a route carries along, and which are kept.

ghost use Rattle.std.specs.Prelude.{◌≡◌, true, not, Some, None, if◌then◌else◌};
ghost use Rattle.std.specs.Bool.{Decides};
ghost use Rattle.formula_tree.specs.Placed.{is_placed};
ghost use Rattle.line_routes.specs.MustKeep.{must_keep, is_move, KeepsNoReference, KeepsRangesThatBecomeWhole};
ghost use Rattle.line_routes.specs.Trees.{ComesBack, TreeInside, tree_carried, tree_part};
ghost use Rattle.line_routes.specs.RouteModel.{route_model};

use crate::route::Route;
use base_axis::Axis;
use base_shared::Shared;
use formula_tree::Node;
use line_edits::{LineEdit, LineMap};

/// The corners of a tree that is carried along are inside the sheet, and those of each range are
/// in order.
pub fn followed_is_placed<A: Axis, M: LineMap<A>>(route: &Route<'_, A, M>, tree: &Shared<Node>)
    ensures { is_placed (route_model route.now).to (tree_carried (route_model route.now) tree.now) ≡ true }
{
    // For the proof: the route goes one to one.
    route.is_route();
    let _ = tree;
}

/// Which formulas are kept. Carrying a tree there and back gives it exactly where none of its
/// references and ranges has to be kept: a reference has to be where it is on the edited sheet and
/// its place has no image; a range where it is on the edited sheet, isn't whole along the axis, and
/// one of its corners has no image or their images make it whole along the axis. What is kept then
/// is the tree. This holds of every map on lines, so of insertions, deletions and moves.
pub fn kept_by_corners<A: Axis, M: LineMap<A>>(route: &Route<'_, A, M>, tree: &Shared<Node>)
    requires { TreeInside (route_model route.now) tree.now }
    ensures exact { Decides (not (must_keep (route_model route.now) tree.now)) (ComesBack (route_model route.now) tree.now) }
    ensures part { tree_part (route_model route.now) tree.now ≡ (if must_keep (route_model route.now) tree.now then Some tree.now else None) }
{
    // For the proof: the route goes one to one.
    route.is_route();
    let _ = tree;
}

/// Of a move only ranges that become whole are kept: no reference has to be, and a range that has
/// to be has images of both corners, and the range between these is whole along the axis.
pub fn moves_keep_whole_ranges<A: Axis>(route: &Route<'_, A, LineEdit<A>>)
    requires { is_move route.now.map.now.kind ≡ true }
    ensures references { KeepsNoReference (route_model route.now) }
    ensures ranges { KeepsRangesThatBecomeWhole (route_model route.now) }
{
    // For the proof: the route goes one to one.
    route.is_route();
}
