ghost use Rattle.std.specs.Prelude.{◌≡◌, IfOk, map, List, ℕ, Option};
ghost use Rattle.formula_tree.specs.Corners.{lower_corner, higher_corner};
ghost use Rattle.formula_tree.specs.Moved.{Mapping, reference_to, range_to, moved};

use crate::corner::{Corner, order_corners};
use crate::node::Node;
use base_shared::Shared;
use base_tables::Error;
use base_values::{Items, Position, Text};
use std::alloc::{AllocError, Global};

/// Where the corners of a tree go, by the sheet that their node names.
pub trait CornerMap {
    /// The map as definitions speak of it.
    ghost mapping: { Self → Mapping };

    /// Where the corner of a reference goes. `None` where it is lost.
    fn reference(&self, sheet: &Option<Shared<Text>>, corner: Corner) -> Option<Corner>
        ensures { result ≡ (mapping self.now).reference sheet.now corner };

    /// Where the two corners of a range go, each `None` where it is lost.
    fn range(
        &self,
        sheet: &Option<Shared<Text>>,
        first: Corner,
        second: Corner,
    ) -> (Option<Corner>, Option<Corner>)
        ensures first { result.0 ≡ (mapping self.now).first sheet.now first second }
        ensures second { result.1 ≡ (mapping self.now).second sheet.now first second };
}

/// A reference to where its corner went.
#[tactic(auto, unfolding(crate::specs::Moved::reference_to))]
fn reference_to(sheet: &Option<Shared<Text>>, corner: Option<Corner>) -> Result<Node, AllocError>
    ensures { IfOk result (λ tree. tree ≡ reference_to sheet.now corner) }
{
    match corner {
        Some(corner) => Ok(Node::Reference(sheet.clone()?, corner)),
        None => Ok(Node::Error(Error::Ref)),
    }
}

/// A range of which no corner is lost, with them in order.
fn ordered_range(
    to: Position,
    sheet: &Option<Shared<Text>>,
    first: Corner,
    second: Corner,
) -> Result<Node, AllocError>
    ensures { IfOk result (λ tree. tree ≡ Node.Range sheet.now (lower_corner to first second) (higher_corner to first second)) }
{
    let (lower, higher) = order_corners(to, first, second);
    Ok(Node::Range(sheet.clone()?, lower, higher))
}

/// A reference to where its corner went, shared.
fn shared_reference(
    alloc: Global,
    sheet: &Option<Shared<Text>>,
    corner: Option<Corner>,
) -> Result<Shared<Node>, AllocError>
    ensures { IfOk result (λ tree. tree ≡ reference_to sheet.now corner) }
{
    let tree = reference_to(sheet, corner)?;
    Shared::new(alloc, tree)
}

/// A range between where its corners went.
#[tactic(auto, unfolding(crate::specs::Moved::range_to))]
fn range_to(
    alloc: Global,
    to: Position,
    sheet: &Option<Shared<Text>>,
    first: Option<Corner>,
    second: Option<Corner>,
) -> Result<Node, AllocError>
    ensures { IfOk result (λ tree. tree ≡ range_to to sheet.now first second) }
{
    if let (Some(first), Some(second)) = (first, second) {
        return ordered_range(to, sheet, first, second);
    }
    let left = shared_reference(alloc, sheet, first)?;
    let right = shared_reference(alloc, sheet, second)?;
    Ok(Node::Colon(left, right))
}

/// The tree of a formula whose corners move, and that then stands at `to`: each reference and range
/// goes to where its corners go by the map, and the corners of a range are put in order again, with
/// their `$` marks. A reference whose corner is lost becomes `#REF!`. A range with a lost corner
/// becomes `:` of `#REF!` and the other corner as a reference with its sheet, in their order, and of
/// `#REF!` and `#REF!` where both are lost.
#[cycle(moving)]
#[tactic(auto, using(crate::specs::laws::MovedEquations::moves))]
pub fn move_node<M: CornerMap>(
    alloc: Global,
    node: &Node,
    to: Position,
    corners: &M,
) -> Result<Node, AllocError>
    ensures { IfOk result (λ tree. tree ≡ moved to (M.mapping corners.now) node.now) }
{
    match node {
        Node::Boolean(value) => Ok(Node::Boolean(*value)),
        Node::Number(value) => Ok(Node::Number(*value)),
        Node::Text(text) => match text.clone() {
            Ok(text) => Ok(Node::Text(text)),
            Err(error) => Err(error),
        },
        Node::Reference(sheet, corner) => reference_to(sheet, corners.reference(sheet, *corner)),
        Node::Range(sheet, first, second) => {
            let (first, second) = corners.range(sheet, *first, *second);
            range_to(alloc, to, sheet, first, second)
        },
        Node::Colon(a, b) => match child(alloc, a, to, corners) {
            Ok(a) => match child(alloc, b, to, corners) {
                Ok(b) => Ok(Node::Colon(a, b)),
                Err(error) => Err(error),
            },
            Err(error) => Err(error),
        },
        Node::Concatenate(a, b) => match child(alloc, a, to, corners) {
            Ok(a) => match child(alloc, b, to, corners) {
                Ok(b) => Ok(Node::Concatenate(a, b)),
                Err(error) => Err(error),
            },
            Err(error) => Err(error),
        },
        Node::Compare(kind, a, b) => match child(alloc, a, to, corners) {
            Ok(a) => match child(alloc, b, to, corners) {
                Ok(b) => Ok(Node::Compare(*kind, a, b)),
                Err(error) => Err(error),
            },
            Err(error) => Err(error),
        },
        Node::Sum(kind, a, b) => match child(alloc, a, to, corners) {
            Ok(a) => match child(alloc, b, to, corners) {
                Ok(b) => Ok(Node::Sum(*kind, a, b)),
                Err(error) => Err(error),
            },
            Err(error) => Err(error),
        },
        Node::Product(kind, a, b) => match child(alloc, a, to, corners) {
            Ok(a) => match child(alloc, b, to, corners) {
                Ok(b) => Ok(Node::Product(*kind, a, b)),
                Err(error) => Err(error),
            },
            Err(error) => Err(error),
        },
        Node::Power(a, b) => match child(alloc, a, to, corners) {
            Ok(a) => match child(alloc, b, to, corners) {
                Ok(b) => Ok(Node::Power(a, b)),
                Err(error) => Err(error),
            },
            Err(error) => Err(error),
        },
        Node::Unary(kind, a) => match child(alloc, a, to, corners) {
            Ok(a) => Ok(Node::Unary(*kind, a)),
            Err(error) => Err(error),
        },
        Node::Call(function, all) => match children(alloc, all, to, corners) {
            Ok(all) => Ok(Node::Call(*function, all)),
            Err(error) => Err(error),
        },
        Node::NamedCall(name, all) => match name.clone() {
            Ok(name) => match children(alloc, all, to, corners) {
                Ok(all) => Ok(Node::NamedCall(name, all)),
                Err(error) => Err(error),
            },
            Err(error) => Err(error),
        },
        Node::Array(lines) => match lines.clone() {
            Ok(lines) => Ok(Node::Array(lines)),
            Err(error) => Err(error),
        },
        Node::Name(name) => match name.clone() {
            Ok(name) => Ok(Node::Name(name)),
            Err(error) => Err(error),
        },
        Node::Error(error) => Ok(Node::Error(*error)),
        Node::ParseError(text) => match text.clone() {
            Ok(text) => Ok(Node::ParseError(text)),
            Err(error) => Err(error),
        },
        Node::EmptyArgument => Ok(Node::EmptyArgument),
        Node::Spill(a) => match child(alloc, a, to, corners) {
            Ok(a) => Ok(Node::Spill(a)),
            Err(error) => Err(error),
        },
        Node::Lambda(parameters, a) => match parameters.clone() {
            Ok(parameters) => match child(alloc, a, to, corners) {
                Ok(a) => Ok(Node::Lambda(parameters, a)),
                Err(error) => Err(error),
            },
            Err(error) => Err(error),
        },
        Node::LambdaCall(a, all) => match child(alloc, a, to, corners) {
            Ok(a) => match children(alloc, all, to, corners) {
                Ok(all) => Ok(Node::LambdaCall(a, all)),
                Err(error) => Err(error),
            },
            Err(error) => Err(error),
        },
        Node::ImplicitIntersection(a) => match child(alloc, a, to, corners) {
            Ok(a) => Ok(Node::ImplicitIntersection(a)),
            Err(error) => Err(error),
        },
    }
}

#[cycle(moving)]
fn child<M: CornerMap>(
    alloc: Global,
    node: &Shared<Node>,
    to: Position,
    corners: &M,
) -> Result<Shared<Node>, AllocError>
    ensures { IfOk result (λ tree. tree ≡ moved to (M.mapping corners.now) node.now) }
{
    let inner = move_node(alloc, node.get(), to, corners)?;
    Shared::new(alloc, inner)
}

#[cycle(moving)]
fn children<M: CornerMap>(
    alloc: Global,
    nodes: &Items<Node>,
    to: Position,
    corners: &M,
) -> Result<Items<Node>, AllocError>
    ensures { IfOk result (λ trees. trees ≡ map (moved to (M.mapping corners.now)) nodes.now) }
{
    let mut trees = Items::with_room(alloc, nodes.len())?;
    for node in nodes.as_slice() {
        trees.push(move_node(alloc, node, to, corners)?)?;
    }
    Ok(trees)
}
