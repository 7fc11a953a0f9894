ghost use Rattle.std.specs.Prelude.{◌≡◌, IfOk, IsOkUnless, map};
ghost use Rattle.base_values.specs.declared.EditError.TheVariants.{NoMemory};
ghost use Rattle.formula_names.specs.declared.reach.Reach.TheVariants.{Sheets, Names};
ghost use Rattle.formula_names.specs.Renamed.{reaches_names, reaches_sheets, renamed_name, renamed_sheet, tree_renamed};

use crate::reach::Reach;
use base_shared::Shared;
use base_tables::same_by_folding;
use base_values::{EditError, Items, Text};
use formula_tree::Node;
use std::alloc::{AllocError, Global};

/// The sheet that a node names after the renaming.
#[tactic(auto, unfolding(crate::specs::Renamed::renamed_name))]
fn renamed_sheet(
    sheet: &Option<Shared<Text>>,
    reach: Reach,
    old: &str,
    new: &Shared<Text>,
) -> Result<Option<Shared<Text>>, AllocError>
    ensures { IfOk result (λ name. name ≡ renamed_sheet (reaches_sheets reach) old.now new.now sheet.now) }
{
    let Some(name) = sheet else {
        return Ok(None);
    };
    if reach.reaches_sheets() && same_by_folding(name.get().as_str(), old) {
        Ok(Some(new.clone()?))
    } else {
        Ok(Some(name.clone()?))
    }
}

/// The text of a name after the renaming.
#[tactic(auto, unfolding(crate::specs::Renamed::renamed_name))]
fn renamed_text(
    name: &Text,
    reach: Reach,
    old: &str,
    new: &Shared<Text>,
) -> Result<Text, AllocError>
    ensures { IfOk result (λ text. text ≡ renamed_name (reaches_names reach) old.now new.now name.now) }
{
    if reach.reaches_names() && same_by_folding(name.as_str(), old) {
        new.get().clone()
    } else {
        name.clone()
    }
}

/// The name that each renamed part shares.
fn shared_name(alloc: Global, name: &str) -> Result<Shared<Text>, AllocError>
    ensures { IfOk result (λ shared. shared ≡ name.now) }
{
    let text = Text::new(String::from_str(alloc, name)?);
    Shared::new(alloc, text)
}

/// The tree of a formula after the sheet `old` was renamed to `new`: each reference and range whose
/// sheet name is equal to the old one by simple case folding names the new one, and no other node
/// changes. Names that no sheet has are names like any other. Only `NoMemory` is refused.
pub fn rename_sheet_in_node(
    alloc: Global,
    node: &Node,
    old: &str,
    new: &str,
) -> Result<Node, EditError>
    ensures tree { IfOk result (λ tree. tree ≡ tree_renamed Sheets old.now new.now node.now) }
    ensures only { IsOkUnless result NoMemory }
{
    let new = shared_name(alloc, new)?;
    Ok(renamed(alloc, node, Reach::Sheets, old, &new)?)
}

/// The tree of a formula after the defined name `name` was renamed to `new`: each name, also that of a
/// variable, that is equal to the old one by simple case folding becomes the new one, and no other node
/// changes. Only `NoMemory` is refused.
pub fn rename_defined_name_in_node(
    alloc: Global,
    node: &Node,
    name: &str,
    new: &str,
) -> Result<Node, EditError>
    ensures tree { IfOk result (λ tree. tree ≡ tree_renamed Names name.now new.now node.now) }
    ensures only { IsOkUnless result NoMemory }
{
    let new = shared_name(alloc, new)?;
    Ok(renamed(alloc, node, Reach::Names, name, &new)?)
}

/// The tree of a formula after a renaming that reaches sheets, names or nothing: each of them that is
/// equal to the old name by simple case folding becomes the new one. Only `NoMemory` is refused.
pub fn rename_in_node(
    alloc: Global,
    node: &Node,
    reach: Reach,
    old: &str,
    new: &Shared<Text>,
) -> Result<Node, EditError>
    ensures tree { IfOk result (λ tree. tree ≡ tree_renamed reach old.now new.now node.now) }
    ensures only { IsOkUnless result NoMemory }
{
    Ok(renamed(alloc, node, reach, old, new)?)
}

#[cycle(renaming)]
#[tactic(auto, using(crate::specs::laws::NamedEquations::namings))]
fn renamed(
    alloc: Global,
    node: &Node,
    reach: Reach,
    old: &str,
    new: &Shared<Text>,
) -> Result<Node, AllocError>
    ensures { IfOk result (λ tree. tree ≡ tree_renamed reach old.now new.now node.now) }
{
    match node {
        Node::Boolean(value) => Ok(Node::Boolean(*value)),
        Node::Number(value) => Ok(Node::Number(*value)),
        Node::Text(text) => match text.clone() {
            Ok(text) => Ok(Node::Text(text)),
            Err(error) => Err(error),
        },
        Node::Reference(sheet, corner) => match renamed_sheet(sheet, reach, old, new) {
            Ok(sheet) => Ok(Node::Reference(sheet, *corner)),
            Err(error) => Err(error),
        },
        Node::Range(sheet, first, second) => match renamed_sheet(sheet, reach, old, new) {
            Ok(sheet) => Ok(Node::Range(sheet, *first, *second)),
            Err(error) => Err(error),
        },
        Node::Colon(a, b) => match child(alloc, a, reach, old, new) {
            Ok(a) => match child(alloc, b, reach, old, new) {
                Ok(b) => Ok(Node::Colon(a, b)),
                Err(error) => Err(error),
            },
            Err(error) => Err(error),
        },
        Node::Concatenate(a, b) => match child(alloc, a, reach, old, new) {
            Ok(a) => match child(alloc, b, reach, old, new) {
                Ok(b) => Ok(Node::Concatenate(a, b)),
                Err(error) => Err(error),
            },
            Err(error) => Err(error),
        },
        Node::Compare(kind, a, b) => match child(alloc, a, reach, old, new) {
            Ok(a) => match child(alloc, b, reach, old, new) {
                Ok(b) => Ok(Node::Compare(*kind, a, b)),
                Err(error) => Err(error),
            },
            Err(error) => Err(error),
        },
        Node::Sum(kind, a, b) => match child(alloc, a, reach, old, new) {
            Ok(a) => match child(alloc, b, reach, old, new) {
                Ok(b) => Ok(Node::Sum(*kind, a, b)),
                Err(error) => Err(error),
            },
            Err(error) => Err(error),
        },
        Node::Product(kind, a, b) => match child(alloc, a, reach, old, new) {
            Ok(a) => match child(alloc, b, reach, old, new) {
                Ok(b) => Ok(Node::Product(*kind, a, b)),
                Err(error) => Err(error),
            },
            Err(error) => Err(error),
        },
        Node::Power(a, b) => match child(alloc, a, reach, old, new) {
            Ok(a) => match child(alloc, b, reach, old, new) {
                Ok(b) => Ok(Node::Power(a, b)),
                Err(error) => Err(error),
            },
            Err(error) => Err(error),
        },
        Node::Unary(kind, a) => match child(alloc, a, reach, old, new) {
            Ok(a) => Ok(Node::Unary(*kind, a)),
            Err(error) => Err(error),
        },
        Node::Call(function, all) => match children(alloc, all, reach, old, new) {
            Ok(all) => Ok(Node::Call(*function, all)),
            Err(error) => Err(error),
        },
        Node::NamedCall(name, all) => match name.clone() {
            Ok(name) => match children(alloc, all, reach, old, new) {
                Ok(all) => Ok(Node::NamedCall(name, all)),
                Err(error) => Err(error),
            },
            Err(error) => Err(error),
        },
        Node::Array(lines) => match lines.clone() {
            Ok(lines) => Ok(Node::Array(lines)),
            Err(error) => Err(error),
        },
        Node::Name(name) => match renamed_text(name, reach, old, new) {
            Ok(name) => Ok(Node::Name(name)),
            Err(error) => Err(error),
        },
        Node::Error(error) => Ok(Node::Error(*error)),
        Node::ParseError(text) => match text.clone() {
            Ok(text) => Ok(Node::ParseError(text)),
            Err(error) => Err(error),
        },
        Node::EmptyArgument => Ok(Node::EmptyArgument),
        Node::Spill(a) => match child(alloc, a, reach, old, new) {
            Ok(a) => Ok(Node::Spill(a)),
            Err(error) => Err(error),
        },
        Node::Lambda(parameters, a) => match parameters.clone() {
            Ok(parameters) => match child(alloc, a, reach, old, new) {
                Ok(a) => Ok(Node::Lambda(parameters, a)),
                Err(error) => Err(error),
            },
            Err(error) => Err(error),
        },
        Node::LambdaCall(a, all) => match child(alloc, a, reach, old, new) {
            Ok(a) => match children(alloc, all, reach, old, new) {
                Ok(all) => Ok(Node::LambdaCall(a, all)),
                Err(error) => Err(error),
            },
            Err(error) => Err(error),
        },
        Node::ImplicitIntersection(a) => match child(alloc, a, reach, old, new) {
            Ok(a) => Ok(Node::ImplicitIntersection(a)),
            Err(error) => Err(error),
        },
    }
}

#[cycle(renaming)]
fn child(
    alloc: Global,
    node: &Shared<Node>,
    reach: Reach,
    old: &str,
    new: &Shared<Text>,
) -> Result<Shared<Node>, AllocError>
    ensures { IfOk result (λ tree. tree ≡ tree_renamed reach old.now new.now node.now) }
{
    let inner = renamed(alloc, node.get(), reach, old, new)?;
    Shared::new(alloc, inner)
}

#[cycle(renaming)]
fn children(
    alloc: Global,
    nodes: &Items<Node>,
    reach: Reach,
    old: &str,
    new: &Shared<Text>,
) -> Result<Items<Node>, AllocError>
    ensures { IfOk result (λ trees. trees ≡ map (tree_renamed reach old.now new.now) nodes.now) }
{
    let mut trees = Items::with_room(alloc, nodes.len())?;
    for node in nodes.as_slice() {
        trees.push(renamed(alloc, node, reach, old, new)?)?;
    }
    Ok(trees)
}
