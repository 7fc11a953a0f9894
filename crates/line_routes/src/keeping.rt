ghost use Rattle.std.specs.Prelude.{◌≡◌, true, not, is_some};
ghost use Rattle.std.specs.Bool.{Decides};
ghost use Rattle.base_values.specs.Places.{IsPlace};
ghost use Rattle.formula_tree.specs.Placed.{is_placed};
ghost use Rattle.line_edits.specs.Edit.{IsValid};
ghost use Rattle.line_routes.specs.EditRoute.{edit_route};
ghost use Rattle.line_routes.specs.MustKeep.{keeps_reference, is_given_up, keeps_range, must_keep, must_keep_tree, must_keep_at, there_and_back};
ghost use Rattle.line_routes.specs.TreeAt.{tree_goes, tree_at};
ghost use Rattle.line_routes.specs.RouteModel.{route_model};

use crate::edit::edit_route;
use crate::route::Route;
use crate::tree::{Following, is_exposed, is_on_edited, is_whole, moved_corner};
use base_axis::Axis;
use base_shared::Shared;
use base_values::{Position, Text};
use formula_back::{LeafTest, has_leaf};
use formula_tree::{Corner, Node, order_corners};
use line_edits::{LineEdit, LineMap};

/// Whether a reference has to be kept: it is on the edited sheet, and its place has no image.
#[tactic(auto, unfolding(crate::specs::MustKeep::keeps_reference))]
fn keeps_reference<A: Axis, M: LineMap<A>>(
    route: &Route<'_, A, M>,
    sheet: &Option<Shared<Text>>,
    corner: Corner,
) -> bool
    ensures { result ≡ keeps_reference (route_model route.now) sheet.now corner }
{
    is_on_edited(route, sheet) && moved_corner(route, true, corner).is_none()
}

/// Whether an exposed range is given up by where its corners go: one of them has no image, or their
/// images make it whole along the axis.
fn is_given_up<A: Axis, M: LineMap<A>>(
    route: &Route<'_, A, M>,
    first: Option<Corner>,
    second: Option<Corner>,
) -> bool
    ensures { result ≡ is_given_up (route_model route.now) first second }
{
    match (first, second) {
        (Some(first), Some(second)) => {
            let (lower, higher) = order_corners(route.to, first, second);
            is_whole::<A>(lower, higher)
        }
        _ => true,
    }
}

/// Whether a range has to be kept: it is on the edited sheet, isn't whole along the axis, and is
/// given up.
#[tactic(auto, unfolding(crate::specs::MustKeep::keeps_range))]
fn keeps_range<A: Axis, M: LineMap<A>>(
    route: &Route<'_, A, M>,
    sheet: &Option<Shared<Text>>,
    first: Corner,
    second: Corner,
) -> bool
    ensures { result ≡ keeps_range (route_model route.now) sheet.now first second }
{
    if !is_exposed(route, sheet, first, second) {
        return false;
    }
    let (one, other) = (
        moved_corner(route, true, first),
        moved_corner(route, true, second),
    );
    is_given_up(route, one, other)
}

impl<'r, 'a, A: Axis, M: LineMap<A>> LeafTest for Following<'r, 'a, A, M> {
    ghost use Rattle.line_routes.specs.MustKeep.{kept_leaves};
    ghost use Rattle.line_routes.specs.RouteModel.{route_model};

    ghost tests = { λ self. kept_leaves (route_model self.route.now) };

    fn reference(&self, sheet: &Option<Shared<Text>>, corner: Corner) -> bool {
        keeps_reference(self.route, sheet, corner)
    }

    fn range(&self, sheet: &Option<Shared<Text>>, first: Corner, second: Corner) -> bool {
        keeps_range(self.route, sheet, first, second)
    }

    fn name(&self, _name: &Text) -> bool {
        false
    }
}

/// Whether a formula has to be kept, told by its corners.
#[tactic(auto, unfolding(crate::specs::MustKeep::must_keep))]
pub(crate) fn must_keep_along<A: Axis, M: LineMap<A>>(route: &Route<'_, A, M>, tree: &Node) -> bool
    ensures { result ≡ must_keep (route_model route.now) tree.now }
{
    has_leaf(tree, &Following { route })
}

/// Whether a formula has to be kept that is that of a cell at a place of a sheet with this name. One
/// whose cell goes nowhere has to be kept.
#[tactic(auto, unfolding(crate::specs::MustKeep::must_keep_tree, crate::specs::TreeAt::tree_goes))]
pub(crate) fn must_keep_tree<A: Axis, M: LineMap<A>>(
    route: &Route<'_, A, M>,
    node: &Node,
    sheet: &str,
    place: Position,
    edited: &str,
) -> bool
    requires { IsPlace place }
    ensures { result ≡ must_keep_tree (route_model route.now) (tree_at node.now sheet.now place edited.now) }
{
    let route = route.of_names(sheet, edited);
    match route.goes(place) {
        Some(to) => must_keep_along(&route.at(place, to), node),
        None => true,
    }
}

/// Whether an edit of lines has to keep a formula so that it can be taken back, told by its corners
/// without memory. The formula is that of a cell at a place of a sheet with this name, and the
/// edited sheet has that name; names are compared by simple case folding. The edit is valid, the
/// cell survives it, and the formula's corners are inside, with those of each range in order.
/// docs/MODEL.md has the rules.
pub fn must_keep<A: Axis>(
    node: &Node,
    sheet: &str,
    place: Position,
    edited: &str,
    edit: &LineEdit<A>,
) -> bool
    requires valid { IsValid A.along.last edit.now.kind }
    requires place { IsPlace place }
    requires corners { is_placed place node.now ≡ true }
    requires survives { is_some (tree_goes (edit_route A.along edit.now.kind) (tree_at node.now sheet.now place edited.now)) ≡ true }
    ensures value { result ≡ must_keep_at A.along edit.now.kind (tree_at node.now sheet.now place edited.now) }
    ensures exact { Decides (not result) ((there_and_back A.along edit.now.kind (tree_at node.now sheet.now place edited.now)).node ≡ node.now) }
{
    let opposite = edit.opposite();
    must_keep_tree(&edit_route(edit, &opposite), node, sheet, place, edited)
}
