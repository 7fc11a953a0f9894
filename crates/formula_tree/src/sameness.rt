ghost use Rattle.std.specs.Prelude.{◌≡◌, IsTrue, ◌↔◌};

use crate::node::Node;
use base_shared::Shared;
use base_values::{Items, same};

/// Whether two trees are equal.
#[cycle(same)]
pub fn same_node(a: &Node, b: &Node) -> bool
    ensures { IsTrue result ↔ (a.now ≡ b.now) }
{
    match (a, b) {
        (Node::Boolean(x), Node::Boolean(y)) => x == y,
        (Node::Number(x), Node::Number(y)) => same(x, y),
        (Node::Text(x), Node::Text(y)) => same(x, y),
        (Node::Reference(s, x), Node::Reference(t, y)) => same(s, t) && same(x, y),
        (Node::Range(s, x, u), Node::Range(t, y, v)) => same(s, t) && same(x, y) && same(u, v),
        (Node::Colon(x, u), Node::Colon(y, v)) => same_child(x, y) && same_child(u, v),
        (Node::Concatenate(x, u), Node::Concatenate(y, v)) => same_child(x, y) && same_child(u, v),
        (Node::Compare(j, x, u), Node::Compare(k, y, v)) => same(j, k)
            && same_child(x, y)
            && same_child(u, v),
        (Node::Sum(j, x, u), Node::Sum(k, y, v)) => same(j, k)
            && same_child(x, y)
            && same_child(u, v),
        (Node::Product(j, x, u), Node::Product(k, y, v)) => same(j, k)
            && same_child(x, y)
            && same_child(u, v),
        (Node::Power(x, u), Node::Power(y, v)) => same_child(x, y) && same_child(u, v),
        (Node::Unary(j, x), Node::Unary(k, y)) => same(j, k) && same_child(x, y),
        (Node::Call(f, us), Node::Call(g, vs)) => same(f, g) && same_nodes(us, vs),
        (Node::NamedCall(f, us), Node::NamedCall(g, vs)) => same(f, g) && same_nodes(us, vs),
        (Node::Array(xs), Node::Array(ys)) => same(xs, ys),
        (Node::Name(x), Node::Name(y)) => same(x, y),
        (Node::Error(x), Node::Error(y)) => same(x, y),
        (Node::ParseError(x), Node::ParseError(y)) => same(x, y),
        (Node::EmptyArgument, Node::EmptyArgument) => true,
        (Node::Spill(x), Node::Spill(y)) => same_child(x, y),
        (Node::Lambda(ps, x), Node::Lambda(qs, y)) => same(ps, qs) && same_child(x, y),
        (Node::LambdaCall(x, us), Node::LambdaCall(y, vs)) => {
            same_child(x, y) && same_nodes(us, vs)
        }
        (Node::ImplicitIntersection(x), Node::ImplicitIntersection(y)) => { same_child(x, y) }
        _ => false,
    }
}

#[cycle(same)]
fn same_child(a: &Shared<Node>, b: &Shared<Node>) -> bool
    ensures { IsTrue result ↔ (a.now ≡ b.now) }
{
    same_node(a.get(), b.get())
}

#[cycle(same)]
fn same_nodes(xs: &Items<Node>, ys: &Items<Node>) -> bool
    ensures { IsTrue result ↔ (xs.now ≡ ys.now) }
{
    if xs.len() != ys.len() {
        return false;
    }
    let others = ys.as_slice();
    for (index, node) in xs.as_slice().iter().enumerate() {
        if !same_node(node, &others[index]) {
            return false;
        }
    }
    true
}
