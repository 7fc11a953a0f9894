ghost use Rattle.std.specs.Prelude.{◌≡◌};
ghost use Rattle.std.specs.List.{list_all};
ghost use Rattle.formula_tree.specs.Numbers.{number_follows, constant_follows, lines_follow, numbers_follow, has_canonical_numbers, has_no_negative_number};

use crate::array_item::ArrayItem;
use crate::node::Node;
use base_decimal::Decimal;
use base_shared::Shared;
use base_values::Items;

/// What may be asked of the numbers of a tree.
#[derive(Clone, Copy, Debug)]
pub enum NumberRule {
    /// Each is canonical, also in arrays.
    Canonical,
    /// None is negative, but for the constants of arrays.
    NotNegative,
}

/// Whether each number of a tree, also in its arrays, is canonical: at most 15 digits on each side of
/// the point, and no zero digit at the end of the places.
pub fn has_canonical_numbers(node: &Node) -> bool
    ensures { result ≡ has_canonical_numbers node.now }
{
    numbers_follow(node, NumberRule::Canonical)
}

/// Whether no number node of a tree is negative: a minus sign is a node of its own. The constants
/// of arrays may be negative.
pub fn has_no_negative_number(node: &Node) -> bool
    ensures { result ≡ has_no_negative_number node.now }
{
    numbers_follow(node, NumberRule::NotNegative)
}

fn number_follows(value: Decimal, rule: NumberRule) -> bool
    ensures { result ≡ number_follows rule value }
{
    match rule {
        NumberRule::Canonical => value.is_canonical(),
        NumberRule::NotNegative => value.mantissa >= 0,
    }
}

fn constant_follows(constant: &ArrayItem, rule: NumberRule) -> bool
    ensures { result ≡ constant_follows rule constant.now }
{
    match (rule, constant) {
        (NumberRule::Canonical, ArrayItem::Number(value)) => value.is_canonical(),
        _ => true,
    }
}

fn line_follows(line: &Items<ArrayItem>, rule: NumberRule) -> bool
    ensures { result ≡ list_all (constant_follows rule) line.now }
{
    for constant in line.as_slice() {
        if !constant_follows(constant, rule) {
            return false;
        }
    }
    true
}

fn lines_follow(lines: &Items<Items<ArrayItem>>, rule: NumberRule) -> bool
    ensures { result ≡ lines_follow rule lines.now }
{
    for line in lines.as_slice() {
        if !line_follows(line, rule) {
            return false;
        }
    }
    true
}

/// Whether the numbers of a tree follow a rule.
#[cycle(numbers)]
#[tactic(auto, using(crate::specs::laws::NumbersEquations::numberings))]
fn numbers_follow(node: &Node, rule: NumberRule) -> bool
    ensures { result ≡ numbers_follow rule node.now }
{
    match node {
        Node::Boolean(_) => true,
        Node::Number(value) => number_follows(*value, rule),
        Node::Text(_) => true,
        Node::Reference(_, _) => true,
        Node::Range(..) => true,
        Node::Colon(a, b) => child_follows(a, rule) && child_follows(b, rule),
        Node::Concatenate(a, b) => child_follows(a, rule) && child_follows(b, rule),
        Node::Compare(_, a, b) => child_follows(a, rule) && child_follows(b, rule),
        Node::Sum(_, a, b) => child_follows(a, rule) && child_follows(b, rule),
        Node::Product(_, a, b) => child_follows(a, rule) && child_follows(b, rule),
        Node::Power(a, b) => child_follows(a, rule) && child_follows(b, rule),
        Node::Unary(_, a) => child_follows(a, rule),
        Node::Call(_, all) => all_follow(all, rule),
        Node::NamedCall(_, all) => all_follow(all, rule),
        Node::Array(lines) => lines_follow(lines, rule),
        Node::Name(_) => true,
        Node::Error(_) => true,
        Node::ParseError(_) => true,
        Node::EmptyArgument => true,
        Node::Spill(a) => child_follows(a, rule),
        Node::Lambda(_, a) => child_follows(a, rule),
        Node::LambdaCall(a, all) => child_follows(a, rule) && all_follow(all, rule),
        Node::ImplicitIntersection(a) => child_follows(a, rule),
    }
}

#[cycle(numbers)]
fn child_follows(node: &Shared<Node>, rule: NumberRule) -> bool
    ensures { result ≡ numbers_follow rule node.now }
{
    numbers_follow(node.get(), rule)
}

#[cycle(numbers)]
fn all_follow(nodes: &Items<Node>, rule: NumberRule) -> bool
    ensures { result ≡ list_all (numbers_follow rule) nodes.now }
{
    for node in nodes.as_slice() {
        if !numbers_follow(node, rule) {
            return false;
        }
    }
    true
}
