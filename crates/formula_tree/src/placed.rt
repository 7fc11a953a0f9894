ghost use Rattle.std.specs.Prelude.{◌≡◌};
ghost use Rattle.std.specs.List.{list_all};
ghost use Rattle.formula_tree.specs.Placed.{is_placed, is_placed_range};

use crate::corner::{Corner, are_in_order, is_inside};
use crate::node::Node;
use base_shared::Shared;
use base_values::{Items, Position};

#[tactic(auto, unfolding(crate::specs::Placed::is_placed_range))]
fn is_placed_range(place: Position, first: Corner, second: Corner) -> bool
    ensures { result ≡ is_placed_range place first second }
{
    is_inside(place, first) && is_inside(place, second) && are_in_order(place, first, second)
}

/// Whether in a formula at a place each corner is inside the sheet and the corners of each range
/// are in order.
#[cycle(placed)]
#[tactic(auto, using(crate::specs::laws::PlacedEquations::placings))]
pub fn is_placed(node: &Node, place: Position) -> bool
    ensures { result ≡ is_placed place node.now }
{
    match node {
        Node::Boolean(_) => true,
        Node::Number(_) => true,
        Node::Text(_) => true,
        Node::Reference(_, corner) => is_inside(place, *corner),
        Node::Range(_, first, second) => is_placed_range(place, *first, *second),
        Node::Colon(a, b) => is_child_placed(a, place) && is_child_placed(b, place),
        Node::Concatenate(a, b) => is_child_placed(a, place) && is_child_placed(b, place),
        Node::Compare(_, a, b) => is_child_placed(a, place) && is_child_placed(b, place),
        Node::Sum(_, a, b) => is_child_placed(a, place) && is_child_placed(b, place),
        Node::Product(_, a, b) => is_child_placed(a, place) && is_child_placed(b, place),
        Node::Power(a, b) => is_child_placed(a, place) && is_child_placed(b, place),
        Node::Unary(_, a) => is_child_placed(a, place),
        Node::Call(_, all) => are_placed(all, place),
        Node::NamedCall(_, all) => are_placed(all, place),
        Node::Array(_) => true,
        Node::Name(_) => true,
        Node::Error(_) => true,
        Node::ParseError(_) => true,
        Node::EmptyArgument => true,
        Node::Spill(a) => is_child_placed(a, place),
        Node::Lambda(_, a) => is_child_placed(a, place),
        Node::LambdaCall(a, all) => is_child_placed(a, place) && are_placed(all, place),
        Node::ImplicitIntersection(a) => is_child_placed(a, place),
    }
}

#[cycle(placed)]
fn is_child_placed(node: &Shared<Node>, place: Position) -> bool
    ensures { result ≡ is_placed place node.now }
{
    is_placed(node.get(), place)
}

#[cycle(placed)]
fn are_placed(nodes: &Items<Node>, place: Position) -> bool
    ensures { result ≡ list_all (is_placed place) nodes.now }
{
    for node in nodes.as_slice() {
        if !is_placed(node, place) {
            return false;
        }
    }
    true
}
