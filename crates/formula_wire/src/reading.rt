//! Trees from the front of bytes. A reader of a tree is told how deep it may reach, so that bytes
//! of a deeper one are refused before anything is built of what lies deeper.

ghost use Rattle.std.specs.Prelude.{◌≡◌, ◌+◌, IsErrAnd};
ghost use Rattle.base_values.specs.declared.EditError.TheVariants.{ParseDiffs};
ghost use Rattle.base_wire.specs.Reads.{HasNoCount};
ghost use Rattle.base_values.specs.Answers.{Answers, map_ok};
ghost use Rattle.base_wire.specs.laws.Reading.{list_at, many_at, map_at, ◌⊗◌};
ghost use Rattle.formula_wire.specs.laws.Reading.{corner_at, sheet_at, call_of, kinded_of, leaf_of, node_at, node_of, node_within, range_at, range_made, reference_made, text_of};

use crate::codes::{compare_at, function_at, product_at, sum_at, unary_at};
use crate::parts::{ConstantPart, ParameterPart};
use crate::parts_reading::corner_at;
use base_decimal::Decimal;
use base_shared::Shared;
use base_tables::Error;
use base_values::{EditError, Items, Text};
use base_wire::{count_at, read};
use formula_tree::{MAX_DEPTH, Node};
use std::alloc::Global;

/// The tree at the front of bytes, and the bytes after it.
#[tactic(auto, unfolding(crate::specs::laws::Reading::node_at))]
pub(crate) fn read_node(alloc: Global, bytes: &[u8]) -> Result<(Node, &[u8]), EditError>
    ensures { Answers (map_ok (λ x. (x.0, x.1.now)) result) (node_at bytes.now) }
{
    node_within(alloc, bytes, MAX_DEPTH)
}

/// A tree that is at most so deep.
#[cycle(nodes)]
#[tactic(auto, using(crate::specs::laws::Levels::nothing_within))]
fn node_within(alloc: Global, bytes: &[u8], most: u64) -> Result<(Node, &[u8]), EditError>
    ensures { Answers (map_ok (λ x. (x.0, x.1.now)) result) (node_within most bytes.now) }
{
    if most == 0 {
        return Err(EditError::ParseDiffs);
    }
    level_at(alloc, bytes, most - 1)
}

/// A tree that is at most one deeper than this.
#[cycle(nodes)]
#[tactic(auto, using(crate::specs::laws::Levels::level_within))]
fn level_at(alloc: Global, bytes: &[u8], below: u64) -> Result<(Node, &[u8]), EditError>
    ensures { Answers (map_ok (λ x. (x.0, x.1.now)) result) (node_within (below + 1) bytes.now) }
{
    let (tag, rest) = read::<u8>(alloc, &(), bytes)?;
    operator_at(alloc, tag, rest, below)
}

#[cycle(nodes)]
fn operator_at(alloc: Global, tag: u8, bytes: &[u8], below: u64) -> Result<(Node, &[u8]), EditError>
    ensures { Answers (map_ok (λ x. (x.0, x.1.now)) result) (node_of (node_within below) below tag bytes.now) }
{
    match tag {
        5 => {
            let ((left, right), rest) = pair_at(alloc, bytes, below)?;
            Ok((Node::Colon(left, right), rest))
        }
        6 => {
            let ((left, right), rest) = pair_at(alloc, bytes, below)?;
            Ok((Node::Concatenate(left, right), rest))
        }
        10 => {
            let ((base, exponent), rest) = pair_at(alloc, bytes, below)?;
            Ok((Node::Power(base, exponent), rest))
        }
        _ => kinded_at(alloc, tag, bytes, below),
    }
}

/// An operator of several kinds.
#[cycle(nodes)]
fn kinded_at(alloc: Global, tag: u8, bytes: &[u8], below: u64) -> Result<(Node, &[u8]), EditError>
    ensures { Answers (map_ok (λ x. (x.0, x.1.now)) result) (kinded_of (node_within below) (call_of (node_within below) (leaf_of below)) tag bytes.now) }
{
    match tag {
        7 => {
            let (kind, rest) = compare_at(alloc, bytes)?;
            let ((left, right), rest) = pair_at(alloc, rest, below)?;
            Ok((Node::Compare(kind, left, right), rest))
        }
        8 => {
            let (kind, rest) = sum_at(alloc, bytes)?;
            let ((left, right), rest) = pair_at(alloc, rest, below)?;
            Ok((Node::Sum(kind, left, right), rest))
        }
        9 => {
            let (kind, rest) = product_at(alloc, bytes)?;
            let ((left, right), rest) = pair_at(alloc, rest, below)?;
            Ok((Node::Product(kind, left, right), rest))
        }
        11 => {
            let (kind, rest) = unary_at(alloc, bytes)?;
            let (operand, rest) = boxed_at(alloc, rest, below)?;
            Ok((Node::Unary(kind, operand), rest))
        }
        _ => call_at(alloc, tag, bytes, below),
    }
}

#[cycle(nodes)]
#[tactic(auto, unfolding(crate::specs::laws::Reading::parameters_at))]
fn call_at(alloc: Global, tag: u8, bytes: &[u8], below: u64) -> Result<(Node, &[u8]), EditError>
    ensures { Answers (map_ok (λ x. (x.0, x.1.now)) result) (call_of (node_within below) (leaf_of below) tag bytes.now) }
{
    match tag {
        12 => {
            let (function, rest) = function_at(alloc, bytes)?;
            let (arguments, rest) = nodes_at(alloc, rest, below)?;
            Ok((Node::Call(function, arguments), rest))
        }
        13 => {
            let (name, rest) = read::<Text>(alloc, &(), bytes)?;
            let (arguments, rest) = nodes_at(alloc, rest, below)?;
            Ok((Node::NamedCall(name, arguments), rest))
        }
        19 => {
            let (operand, rest) = boxed_at(alloc, bytes, below)?;
            Ok((Node::Spill(operand), rest))
        }
        20 => {
            let (parameters, rest) = read::<Items<ParameterPart>>(alloc, &(), bytes)?;
            let (body, rest) = boxed_at(alloc, rest, below)?;
            Ok((Node::Lambda(parameters, body), rest))
        }
        21 => {
            let (lambda, rest) = boxed_at(alloc, bytes, below)?;
            let (arguments, rest) = nodes_at(alloc, rest, below)?;
            Ok((Node::LambdaCall(lambda, arguments), rest))
        }
        22 => {
            let (operand, rest) = boxed_at(alloc, bytes, below)?;
            Ok((Node::ImplicitIntersection(operand), rest))
        }
        _ => leaf_at(alloc, tag, bytes, below),
    }
}

#[cycle(nodes)]
fn boxed_at(alloc: Global, bytes: &[u8], most: u64) -> Result<(Shared<Node>, &[u8]), EditError>
    ensures { Answers (map_ok (λ x. (x.0, x.1.now)) result) (node_within most bytes.now) }
{
    let (node, rest) = node_within(alloc, bytes, most)?;
    Ok((Shared::new(alloc, node)?, rest))
}

/// Two trees, one after the other.
#[cycle(nodes)]
fn pair_at(
    alloc: Global,
    bytes: &[u8],
    most: u64,
) -> Result<((Shared<Node>, Shared<Node>), &[u8]), EditError>
    ensures { Answers (map_ok (λ x. (x.0, x.1.now)) result) ((node_within most ⊗ node_within most) bytes.now) }
{
    let (left, rest) = boxed_at(alloc, bytes, most)?;
    let (right, rest) = boxed_at(alloc, rest, most)?;
    Ok(((left, right), rest))
}

/// A count of trees, and so many. Bytes without such a count are refused before any growth.
#[cycle(nodes)]
fn nodes_at(alloc: Global, bytes: &[u8], most: u64) -> Result<(Items<Node>, &[u8]), EditError>
    ensures read { Answers (map_ok (λ x. (x.0, x.1.now)) result) (list_at (node_within most) bytes.now) }
    ensures early { HasNoCount bytes.now → IsErrAnd result (λ e. e ≡ ParseDiffs) }
{
    let (count, rest) = count_at(bytes)?;
    let (nodes, rest) = nodes_of(alloc, count, rest, most)?;
    Ok((Items::new(nodes), rest))
}

/// The trees of a list, so many.
#[cycle(nodes)]
fn nodes_of(
    alloc: Global,
    count: u64,
    bytes: &[u8],
    most: u64,
) -> Result<(Vec<Node>, &[u8]), EditError>
    ensures { Answers (map_ok (λ x. (x.0.items, x.1.now)) result) (many_at (node_within most) count bytes.now) }
{
    let mut nodes = Vec::new(alloc);
    let mut rest = bytes;
    'reads: for _ in 0..count {
        let (node, after) = node_within(alloc, rest, most)?;
        nodes.push(node)?;
        rest = after;
    }
    Ok((nodes, rest))
}

/// A tree without children.
#[tactic(auto, unfolding(crate::specs::laws::Reading::lines_at, crate::specs::laws::Reading::line_at))]
fn leaf_at(alloc: Global, tag: u8, bytes: &[u8], below: u64) -> Result<(Node, &[u8]), EditError>
    ensures { Answers (map_ok (λ x. (x.0, x.1.now)) result) (leaf_of below tag bytes.now) }
{
    match tag {
        0 => {
            let (value, rest) = read::<bool>(alloc, &(), bytes)?;
            Ok((Node::Boolean(value), rest))
        }
        1 => {
            let (number, rest) = read::<Decimal>(alloc, &(), bytes)?;
            Ok((Node::Number(number), rest))
        }
        3 => reference_at(alloc, bytes),
        4 => range_at(alloc, bytes, below),
        14 => {
            let (lines, rest) = read::<Items<Items<ConstantPart>>>(alloc, &(), bytes)?;
            Ok((Node::Array(lines), rest))
        }
        16 => {
            let (error, rest) = read::<Error>(alloc, &(), bytes)?;
            Ok((Node::Error(error), rest))
        }
        18 => Ok((Node::EmptyArgument, bytes)),
        _ => text_leaf_at(alloc, tag, bytes),
    }
}

#[tactic(auto, unfolding(crate::specs::laws::Reading::sheet_at))]
fn reference_at(alloc: Global, bytes: &[u8]) -> Result<(Node, &[u8]), EditError>
    ensures { Answers (map_ok (λ x. (x.0, x.1.now)) result) (map_at reference_made (sheet_at ⊗ corner_at) bytes.now) }
{
    let (sheet, rest) = read::<Option<Shared<Text>>>(alloc, &(), bytes)?;
    let (corner, rest) = corner_at(alloc, rest)?;
    Ok((Node::Reference(sheet, corner), rest))
}

/// A range, which is 2 deep, so that it must be let reach one deeper than its own place.
#[tactic(auto, unfolding(crate::specs::laws::Reading::sheet_at))]
fn range_at(alloc: Global, bytes: &[u8], below: u64) -> Result<(Node, &[u8]), EditError>
    ensures { Answers (map_ok (λ x. (x.0, x.1.now)) result) (range_at below bytes.now) }
{
    if below == 0 {
        return Err(EditError::ParseDiffs);
    }
    let (sheet, rest) = read::<Option<Shared<Text>>>(alloc, &(), bytes)?;
    let (first, rest) = corner_at(alloc, rest)?;
    let (second, rest) = corner_at(alloc, rest)?;
    Ok((Node::Range(sheet, first, second), rest))
}

/// A tree that is a text.
fn text_leaf_at(alloc: Global, tag: u8, bytes: &[u8]) -> Result<(Node, &[u8]), EditError>
    ensures { Answers (map_ok (λ x. (x.0, x.1.now)) result) (text_of tag bytes.now) }
{
    match tag {
        2 => {
            let (text, rest) = read::<Text>(alloc, &(), bytes)?;
            Ok((Node::Text(text), rest))
        }
        15 => {
            let (name, rest) = read::<Text>(alloc, &(), bytes)?;
            Ok((Node::Name(name), rest))
        }
        17 => {
            let (text, rest) = read::<Text>(alloc, &(), bytes)?;
            Ok((Node::ParseError(text), rest))
        }
        _ => Err(EditError::ParseDiffs),
    }
}
