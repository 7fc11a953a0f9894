ghost use Rattle.std.specs.Prelude.{◌≡◌, ◌+◌, ◌≤◌, IsTrue, ◌↔◌};
ghost use Rattle.std.specs.List.{list_all};
ghost use Rattle.formula_tree.specs.Depth.{depth_of, is_within};

use crate::node::Node;
use base_values::Items;

/// The greatest depth of a formula's tree.
pub const MAX_DEPTH: u64 = 64;

/// Whether a tree is at most this deep: a leaf is 1 deep and a range 2, any other node one more
/// than its deepest child. It descends no further than asked, whatever the tree.
pub fn is_at_most_deep(node: &Node, most: u64) -> bool
    ensures { IsTrue result ↔ (depth_of node.now ≤ most) }
{
    is_within(node, most)
}

#[cycle(depth)]
#[tactic(auto, using(crate::specs::laws::DepthBounds::within_nothing))]
fn is_within(node: &Node, most: u64) -> bool
    ensures { result ≡ is_within most node.now }
{
    if most == 0 {
        return false;
    }
    has_room(node, most - 1)
}

/// Whether a tree is at most one deeper than this.
#[cycle(depth)]
#[tactic(auto, using(crate::specs::laws::DepthBounds::bounds))]
fn has_room(node: &Node, rest: u64) -> bool
    ensures { result ≡ is_within (rest + 1) node.now }
{
    match node {
        Node::Boolean(_) => true,
        Node::Number(_) => true,
        Node::Text(_) => true,
        Node::Reference(_, _) => true,
        Node::Range(..) => rest > 0,
        Node::Colon(a, b) => is_within(a.get(), rest) && is_within(b.get(), rest),
        Node::Concatenate(a, b) => is_within(a.get(), rest) && is_within(b.get(), rest),
        Node::Compare(_, a, b) => is_within(a.get(), rest) && is_within(b.get(), rest),
        Node::Sum(_, a, b) => is_within(a.get(), rest) && is_within(b.get(), rest),
        Node::Product(_, a, b) => is_within(a.get(), rest) && is_within(b.get(), rest),
        Node::Power(a, b) => is_within(a.get(), rest) && is_within(b.get(), rest),
        Node::Unary(_, a) => is_within(a.get(), rest),
        Node::Call(_, all) => are_within(all, rest),
        Node::NamedCall(_, all) => are_within(all, rest),
        Node::Array(_) => true,
        Node::Name(_) => true,
        Node::Error(_) => true,
        Node::ParseError(_) => true,
        Node::EmptyArgument => true,
        Node::Spill(a) => is_within(a.get(), rest),
        Node::Lambda(_, a) => is_within(a.get(), rest),
        Node::LambdaCall(a, all) => is_within(a.get(), rest) && are_within(all, rest),
        Node::ImplicitIntersection(a) => is_within(a.get(), rest),
    }
}

#[cycle(depth)]
fn are_within(nodes: &Items<Node>, most: u64) -> bool
    ensures { result ≡ list_all (is_within most) nodes.now }
{
    for node in nodes.as_slice() {
        if !is_within(node, most) {
            return false;
        }
    }
    true
}
