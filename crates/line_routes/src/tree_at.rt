ghost use Rattle.std.specs.Prelude.{◌≡◌, IfOk, IsOkUnless};
ghost use Rattle.base_values.specs.declared.EditError.TheVariants.{NoMemory};
ghost use Rattle.line_routes.specs.TreeAt.{TreeAtInside, tree_at_carried, tree_at_part};
ghost use Rattle.line_routes.specs.RouteModel.{route_model};

use crate::keeping::must_keep_tree;
use crate::route::Route;
use crate::tree::{carried_node, kept_where};
use base_axis::Axis;
use base_values::{EditError, Exact, Position, Text, copy_of};
use formula_tree::Node;
use line_edits::LineMap;
use std::alloc::Global;

/// The tree of a cell, with the names of the cell's sheet and of the sheet that is edited. Names
/// are compared by simple case folding.
#[derive(Clone, Drop, PartialEq, Eq)]
pub struct TreeAt {
    pub node: Node,
    pub sheet: Text,
    pub place: Position,
    pub edited: Text,
}

impl Exact for TreeAt {
    ghost use Rattle.std.proofs.Common.{rules};
    ghost use Rattle.line_routes.specs.laws.TreeAtEquals.{tree_at_equals};

    ghost copies = { λ a b h. Prim.search rules };

    ghost equals = { tree_at_equals };
}

/// The tree with another node, at another place.
fn replaced(tree: &TreeAt, node: Node, place: Position) -> Result<TreeAt, EditError>
    ensures tree { IfOk result (λ replaced. replaced ≡ record tree.now { node = node; place = place }) }
    ensures only { IsOkUnless result NoMemory }
{
    Ok(TreeAt {
        node,
        sheet: copy_of(&tree.sheet)?,
        place,
        edited: copy_of(&tree.edited)?,
    })
}

/// A tree with its own place and names, carried along on its sheet. It stays whole where its cell
/// goes nowhere. The place is inside the sheet. `NoMemory` is the only error. docs/MODEL.md has the
/// rules.
#[tactic(auto, unfolding(crate::specs::TreeAt::tree_at_carried, crate::specs::TreeAt::tree_goes))]
pub fn carried_tree_at<A: Axis, M: LineMap<A>>(
    alloc: Global,
    route: &Route<'_, A, M>,
    tree: &TreeAt,
) -> Result<TreeAt, EditError>
    requires { TreeAtInside tree.now }
    ensures value { IfOk result (λ value. value ≡ tree_at_carried (route_model route.now) tree.now) }
    ensures only { IsOkUnless result NoMemory }
{
    let route = route.of_names(tree.sheet.as_str(), tree.edited.as_str());
    match route.goes(tree.place) {
        Some(to) => {
            let node = carried_node(alloc, &route.at(tree.place, to), &tree.node)?;
            replaced(tree, node, to)
        }
        None => copy_of(tree),
    }
}

/// What has to be kept of such a tree: the tree, where its cell goes nowhere, or the way back does
/// not give it. Its place and its corners are inside the sheet, those of each range in order.
/// `NoMemory` is the only error.
pub fn tree_at_part<A: Axis, M: LineMap<A>>(
    route: &Route<'_, A, M>,
    tree: &TreeAt,
) -> Result<Option<TreeAt>, EditError>
    requires { TreeAtInside tree.now }
    ensures part { IfOk result (λ part. part ≡ tree_at_part (route_model route.now) tree.now) }
    ensures only { IsOkUnless result NoMemory }
{
    // For the proof: the route goes one to one.
    route.is_route();
    let (own, edited) = (tree.sheet.as_str(), tree.edited.as_str());
    kept_where(
        must_keep_tree(route, &tree.node, own, tree.place, edited),
        tree,
    )
}
