//! Trees at the end of bytes.

ghost use Rattle.std.specs.Prelude.{◌≡◌, ◌∷◌, ◌++◌, ◌&&◌, true, OnOk};
ghost use Rattle.std.specs.List.{list_all};
ghost use Rattle.formula_tree.specs.Numbers.{has_canonical_numbers};
ghost use Rattle.base_wire.specs.Encoding.{encode_text};
ghost use Rattle.base_wire.specs.Parts.{encode_decimal};
ghost use Rattle.base_wire.specs.Forms.{if_passes, is_list, is_text};
ghost use Rattle.formula_wire.specs.Carried.{is_carried, is_corner, is_item, is_parameter, FitsNode, IsKnownNode};
ghost use Rattle.formula_wire.specs.laws.CanonicalNumbers.{is_canonical_item};
ghost use Rattle.formula_wire.specs.PartBytes.{encode_corner, encode_lines, encode_parameters, encode_sheet};
ghost use Rattle.formula_wire.specs.NodeBytes.{encode_node};
ghost use Rattle.formula_wire.specs.laws.EncodeEquations.{encode_nodes};

use crate::codes::{compare_code, product_code, sum_code, unary_code};
use crate::parts_writing::{
    push_array, push_number, push_parameters, push_range, push_reference, push_tagged_text,
};
use base_shared::Shared;
use base_values::{Items, Text};
use base_wire::boolean_code;
use formula_tree::{Node, Parameter};
use std::alloc::AllocError;

/// Adds the bytes of a tree (docs/FORMATS.md, "Bytes"). Bytes can carry a tree that is at most 64 deep and
/// whose numbers are canonical. Out of memory may leave some of its bytes there.
pub fn push_node(out: &mut Vec<u8>, node: &Node) -> Result<(), AllocError>
    ensures encoded { OnOk result (out.new.items ≡ out.old.items ++ encode_node node.now) }
    ensures fits { OnOk result (IsKnownNode node.now → FitsNode node.now) }
{
    push_tree(out, node)
}

/// Of a tree of Rust's own types only the numbers may not fit.
#[cycle(nodes)]
#[tactic(auto, using(crate::specs::laws::EncodeEquations::encodings, crate::specs::laws::CarriedEquations::carryings, crate::proofs::Numbers::canonical, crate::proofs::Joins::pieces))]
fn push_tree(out: &mut Vec<u8>, node: &Node) -> Result<(), AllocError>
    ensures encoded { OnOk result (out.new.items ≡ out.old.items ++ encode_node node.now) }
    ensures carried { OnOk result (is_carried node.now ≡ has_canonical_numbers node.now) }
{
    match node {
        Node::Boolean(value) => out.extend_from_slice(&[0, boolean_code(*value)]),
        Node::Number(value) => push_number(out, *value),
        Node::Text(text) => push_tagged_text(out, 2, text),
        Node::Reference(sheet, corner) => push_reference(out, sheet, *corner),
        Node::Range(sheet, first, second) => push_range(out, sheet, *first, *second),
        Node::Colon(a, b) => {
            push_boxed(out, &[5], a)?;
            push_boxed(out, &[], b)
        }
        Node::Concatenate(a, b) => {
            push_boxed(out, &[6], a)?;
            push_boxed(out, &[], b)
        }
        Node::Compare(kind, a, b) => {
            push_boxed(out, &[7, compare_code(*kind)], a)?;
            push_boxed(out, &[], b)
        }
        Node::Sum(kind, a, b) => {
            push_boxed(out, &[8, sum_code(*kind)], a)?;
            push_boxed(out, &[], b)
        }
        Node::Product(kind, a, b) => {
            push_boxed(out, &[9, product_code(*kind)], a)?;
            push_boxed(out, &[], b)
        }
        Node::Power(a, b) => {
            push_boxed(out, &[10], a)?;
            push_boxed(out, &[], b)
        }
        Node::Unary(kind, a) => push_boxed(out, &[11, unary_code(*kind)], a),
        Node::Call(function, all) => push_nodes(out, &[12, function.code()], all),
        Node::NamedCall(name, all) => push_named_call(out, name, all),
        Node::Array(lines) => push_array(out, lines),
        Node::Name(name) => push_tagged_text(out, 15, name),
        Node::Error(error) => out.extend_from_slice(&[16, error.code()]),
        Node::ParseError(text) => push_tagged_text(out, 17, text),
        Node::EmptyArgument => out.extend_from_slice(&[18]),
        Node::Spill(a) => push_boxed(out, &[19], a),
        Node::Lambda(parameters, body) => push_lambda(out, parameters, body),
        Node::LambdaCall(a, all) => {
            push_boxed(out, &[21], a)?;
            push_nodes(out, &[], all)
        }
        Node::ImplicitIntersection(a) => push_boxed(out, &[22], a),
    }
}

/// Adds the bytes that a node begins with, and a child.
#[cycle(nodes)]
fn push_boxed(out: &mut Vec<u8>, head: &[u8], node: &Shared<Node>) -> Result<(), AllocError>
    ensures encoded { OnOk result (out.new.items ≡ out.old.items ++ (head.now ++ encode_node node.now)) }
    ensures carried { OnOk result (is_carried node.now ≡ has_canonical_numbers node.now) }
{
    out.extend_from_slice(head)?;
    push_tree(out, node.get())
}

/// Adds the bytes that a node begins with, and its arguments.
#[cycle(nodes)]
#[tactic(auto, using(crate::proofs::Fits::lists, crate::proofs::Joins::pieces))]
fn push_nodes(out: &mut Vec<u8>, head: &[u8], nodes: &Items<Node>) -> Result<(), AllocError>
    ensures encoded { OnOk result (out.new.items ≡ out.old.items ++ (head.now ++ encode_nodes nodes.now)) }
    ensures carried { OnOk result (is_list is_carried nodes.now ≡ list_all has_canonical_numbers nodes.now) }
{
    out.extend_from_slice(head)?;
    let nodes = nodes.as_slice();
    out.extend_from_slice(&(nodes.len() as u64).to_be_bytes())?;
    for node in nodes {
        push_tree(out, node)?;
    }
    Ok(())
}

#[cycle(nodes)]
#[tactic(auto, using(crate::proofs::Joins::pieces))]
fn push_named_call(
    out: &mut Vec<u8>,
    name: &Text,
    arguments: &Items<Node>,
) -> Result<(), AllocError>
    ensures encoded { OnOk result (out.new.items ≡ out.old.items ++ 13 ∷ (encode_text name.now ++ encode_nodes arguments.now)) }
    ensures carried { OnOk result (is_text name.now && is_list is_carried arguments.now ≡ list_all has_canonical_numbers arguments.now) }
{
    push_tagged_text(out, 13, name)?;
    push_nodes(out, &[], arguments)?;
    Ok(())
}

#[cycle(nodes)]
#[tactic(auto, using(crate::proofs::Joins::pieces))]
fn push_lambda(
    out: &mut Vec<u8>,
    parameters: &Items<Parameter>,
    body: &Shared<Node>,
) -> Result<(), AllocError>
    ensures encoded { OnOk result (out.new.items ≡ out.old.items ++ 20 ∷ (encode_parameters parameters.now ++ encode_node body.now)) }
    ensures carried { OnOk result (is_list is_parameter parameters.now && is_carried body.now ≡ has_canonical_numbers body.now) }
{
    push_parameters(out, parameters)?;
    push_tree(out, body.get())?;
    Ok(())
}
