ghost use Rattle.std.specs.Prelude.{◌≡◌};
ghost use Rattle.std.specs.List.{list_any};
ghost use Rattle.formula_back.specs.Leaves.{LeafTests, has_leaf};

use base_shared::Shared;
use base_values::{Items, Text};
use formula_tree::{Corner, Node};

/// A test of the references and ranges of a tree, beside the sheet that they name, and of its names.
pub trait LeafTest {
    /// The tests as definitions speak of them.
    ghost tests: { Self → LeafTests };

    /// Whether a reference passes.
    fn reference(&self, sheet: &Option<Shared<Text>>, corner: Corner) -> bool
        ensures { result ≡ (tests self.now).reference sheet.now corner };

    /// Whether a range passes.
    fn range(&self, sheet: &Option<Shared<Text>>, first: Corner, second: Corner) -> bool
        ensures { result ≡ (tests self.now).range sheet.now first second };

    /// Whether a name passes, of a variable or a defined one.
    fn name(&self, name: &Text) -> bool
        ensures { result ≡ (tests self.now).name name.now };
}

/// Whether some reference, range or name of a tree passes.
#[cycle(leaves)]
#[tactic(auto, using(crate::specs::laws::LeafEquations::leaves))]
pub fn has_leaf<T: LeafTest>(node: &Node, test: &T) -> bool
    ensures { result ≡ has_leaf (T.tests test.now) node.now }
{
    match node {
        Node::Boolean(_) => false,
        Node::Number(_) => false,
        Node::Text(_) => false,
        Node::Reference(sheet, corner) => test.reference(sheet, *corner),
        Node::Range(sheet, first, second) => test.range(sheet, *first, *second),
        Node::Colon(a, b) => has_child_leaf(a, test) || has_child_leaf(b, test),
        Node::Concatenate(a, b) => has_child_leaf(a, test) || has_child_leaf(b, test),
        Node::Compare(_, a, b) => has_child_leaf(a, test) || has_child_leaf(b, test),
        Node::Sum(_, a, b) => has_child_leaf(a, test) || has_child_leaf(b, test),
        Node::Product(_, a, b) => has_child_leaf(a, test) || has_child_leaf(b, test),
        Node::Power(a, b) => has_child_leaf(a, test) || has_child_leaf(b, test),
        Node::Unary(_, a) => has_child_leaf(a, test),
        Node::Call(_, all) => have_leaf(all, test),
        Node::NamedCall(_, all) => have_leaf(all, test),
        Node::Array(_) => false,
        Node::Name(name) => test.name(name),
        Node::Error(_) => false,
        Node::ParseError(_) => false,
        Node::EmptyArgument => false,
        Node::Spill(a) => has_child_leaf(a, test),
        Node::Lambda(_, a) => has_child_leaf(a, test),
        Node::LambdaCall(a, all) => has_child_leaf(a, test) || have_leaf(all, test),
        Node::ImplicitIntersection(a) => has_child_leaf(a, test),
    }
}

#[cycle(leaves)]
fn has_child_leaf<T: LeafTest>(node: &Shared<Node>, test: &T) -> bool
    ensures { result ≡ has_leaf (T.tests test.now) node.now }
{
    has_leaf(node.get(), test)
}

#[cycle(leaves)]
fn have_leaf<T: LeafTest>(nodes: &Items<Node>, test: &T) -> bool
    ensures { result ≡ list_any (has_leaf (T.tests test.now)) nodes.now }
{
    for node in nodes.as_slice() {
        if has_leaf(node, test) {
            return true;
        }
    }
    false
}
