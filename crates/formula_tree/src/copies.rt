ghost use Rattle.std.specs.Prelude.{◌≡◌, IfOk};

use crate::node::Node;
use base_values::Items;
use std::alloc::AllocError;

/// An equal tree.
#[cycle(copy)]
pub fn copy_node(node: &Node) -> Result<Node, AllocError>
    ensures { IfOk result (λ copy. copy ≡ node.now) }
{
    match node {
        Node::Boolean(value) => Ok(Node::Boolean(*value)),
        Node::Number(value) => Ok(Node::Number(*value)),
        Node::Text(text) => match text.clone() {
            Ok(text) => Ok(Node::Text(text)),
            Err(error) => Err(error),
        },
        Node::Reference(sheet, corner) => match sheet.clone() {
            Ok(sheet) => Ok(Node::Reference(sheet, *corner)),
            Err(error) => Err(error),
        },
        Node::Range(sheet, a, b) => match sheet.clone() {
            Ok(sheet) => Ok(Node::Range(sheet, *a, *b)),
            Err(error) => Err(error),
        },
        Node::Colon(a, b) => match a.clone() {
            Ok(a) => match b.clone() {
                Ok(b) => Ok(Node::Colon(a, b)),
                Err(error) => Err(error),
            },
            Err(error) => Err(error),
        },
        Node::Concatenate(a, b) => match a.clone() {
            Ok(a) => match b.clone() {
                Ok(b) => Ok(Node::Concatenate(a, b)),
                Err(error) => Err(error),
            },
            Err(error) => Err(error),
        },
        Node::Compare(kind, a, b) => match a.clone() {
            Ok(a) => match b.clone() {
                Ok(b) => Ok(Node::Compare(*kind, a, b)),
                Err(error) => Err(error),
            },
            Err(error) => Err(error),
        },
        Node::Sum(kind, a, b) => match a.clone() {
            Ok(a) => match b.clone() {
                Ok(b) => Ok(Node::Sum(*kind, a, b)),
                Err(error) => Err(error),
            },
            Err(error) => Err(error),
        },
        Node::Product(kind, a, b) => match a.clone() {
            Ok(a) => match b.clone() {
                Ok(b) => Ok(Node::Product(*kind, a, b)),
                Err(error) => Err(error),
            },
            Err(error) => Err(error),
        },
        Node::Power(a, b) => match a.clone() {
            Ok(a) => match b.clone() {
                Ok(b) => Ok(Node::Power(a, b)),
                Err(error) => Err(error),
            },
            Err(error) => Err(error),
        },
        Node::Unary(kind, a) => match a.clone() {
            Ok(a) => Ok(Node::Unary(*kind, a)),
            Err(error) => Err(error),
        },
        Node::Call(function, all) => match copy_nodes(all) {
            Ok(all) => Ok(Node::Call(*function, all)),
            Err(error) => Err(error),
        },
        Node::NamedCall(name, all) => match name.clone() {
            Ok(name) => match copy_nodes(all) {
                Ok(all) => Ok(Node::NamedCall(name, all)),
                Err(error) => Err(error),
            },
            Err(error) => Err(error),
        },
        Node::Array(lines) => match lines.clone() {
            Ok(lines) => Ok(Node::Array(lines)),
            Err(error) => Err(error),
        },
        Node::Name(name) => match name.clone() {
            Ok(name) => Ok(Node::Name(name)),
            Err(error) => Err(error),
        },
        Node::Error(error) => Ok(Node::Error(*error)),
        Node::ParseError(text) => match text.clone() {
            Ok(text) => Ok(Node::ParseError(text)),
            Err(error) => Err(error),
        },
        Node::EmptyArgument => Ok(Node::EmptyArgument),
        Node::Spill(a) => match a.clone() {
            Ok(a) => Ok(Node::Spill(a)),
            Err(error) => Err(error),
        },
        Node::Lambda(all, body) => match all.clone() {
            Ok(all) => match body.clone() {
                Ok(body) => Ok(Node::Lambda(all, body)),
                Err(error) => Err(error),
            },
            Err(error) => Err(error),
        },
        Node::LambdaCall(a, all) => match a.clone() {
            Ok(a) => match copy_nodes(all) {
                Ok(all) => Ok(Node::LambdaCall(a, all)),
                Err(error) => Err(error),
            },
            Err(error) => Err(error),
        },
        Node::ImplicitIntersection(a) => match a.clone() {
            Ok(a) => Ok(Node::ImplicitIntersection(a)),
            Err(error) => Err(error),
        },
    }
}

#[cycle(copy)]
fn copy_nodes(nodes: &Items<Node>) -> Result<Items<Node>, AllocError>
    ensures { IfOk result (λ copies. copies ≡ nodes.now) }
{
    let mut copies = Items::with_room(nodes.allocator(), nodes.len())?;
    for node in nodes.as_slice() {
        copies.push(copy_node(node)?)?;
    }
    Ok(copies)
}
