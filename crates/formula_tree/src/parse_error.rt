ghost use Rattle.std.specs.Prelude.{◌≡◌};
ghost use Rattle.formula_tree.specs.ParseError.{is_parse_error};

use crate::node::Node;

/// Whether a tree is a text that is no formula.
pub fn is_parse_error(node: &Node) -> bool
    ensures { result ≡ is_parse_error node.now }
{
    match node {
        Node::Boolean(_) => false,
        Node::Number(_) => false,
        Node::Text(_) => false,
        Node::Reference(_, _) => false,
        Node::Range(..) => false,
        Node::Colon(_, _) => false,
        Node::Concatenate(_, _) => false,
        Node::Compare(..) => false,
        Node::Sum(..) => false,
        Node::Product(..) => false,
        Node::Power(_, _) => false,
        Node::Unary(_, _) => false,
        Node::Call(_, _) => false,
        Node::NamedCall(_, _) => false,
        Node::Array(_) => false,
        Node::Name(_) => false,
        Node::Error(_) => false,
        Node::ParseError(_) => true,
        Node::EmptyArgument => false,
        Node::Spill(_) => false,
        Node::Lambda(_, _) => false,
        Node::LambdaCall(_, _) => false,
        Node::ImplicitIntersection(_) => false,
    }
}
