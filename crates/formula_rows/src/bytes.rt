use crate::at::At;
use crate::forms::{self, printed};
use crate::row::Row;
use crate::words::{copied, yes_or_no};
use base_shared::Shared;
use base_values::EditError;
use cell_content::{Content, fits_at};
use formula_tree::Node;
use formula_wire::{node_at, push_node};
use std::alloc::{AllocError, Global};

/// The bytes that hexadecimal digits write, and none where they write none.
fn bytes_of(alloc: Global, digits: &str) -> Vec<u8> {
    hex::decode(alloc, digits).unwrap_or(Vec::new(alloc))
}

/// The tree at the front of bytes, and those that are left.
fn tree_at(alloc: Global, bytes: &[u8]) -> Result<(Shared<Node>, &[u8]), EditError> {
    match node_at(alloc, bytes) {
        Ok((tree, rest)) => match Shared::new(alloc, tree) {
            Ok(tree) => Ok((tree, rest)),
            Err(_) => Err(EditError::NoMemory),
        },
        Err(error) => Err(error),
    }
}

/// The bytes of a tree, and those that stood behind it.
fn written(alloc: Global, tree: &Node, rest: &[u8]) -> Result<String, AllocError> {
    let mut out = Vec::new(alloc);
    push_node(&mut out, tree)?;
    let mut text = hex::encode(alloc, out.as_slice())?;
    if !rest.is_empty() {
        text.push(' ')?;
        text.push_str(hex::encode(alloc, rest)?.as_str())?;
    }
    Ok(text)
}

/// The bytes of the tree that bytes spell, and behind a blank those that are left.
pub(crate) fn tree(alloc: Global, row: &Row) -> Result<String, EditError> {
    let bytes = bytes_of(alloc, row.argument(0));
    match tree_at(alloc, bytes.as_slice()) {
        Ok((tree, rest)) => Ok(written(alloc, tree.get(), rest)?),
        Err(error) => copied(alloc, error.name()),
    }
}

/// How many fronts of bytes, from the empty one on, are refused.
pub(crate) fn fronts(alloc: Global, row: &Row) -> Result<String, EditError> {
    let bytes = bytes_of(alloc, row.argument(0));
    let mut refused = 0usize;
    for length in 0..bytes.len() {
        if is_refused(alloc, &bytes[..length]) {
            refused = refused.saturating_add(1);
        }
    }
    Ok(refused.to_string(alloc)?)
}

fn is_refused(alloc: Global, bytes: &[u8]) -> bool {
    matches!(tree_at(alloc, bytes), Err(EditError::ParseDiffs))
}

/// Whether the tree that bytes spell may stand in the cell as a formula.
pub(crate) fn fits(alloc: Global, at: &At, row: &Row) -> Result<String, EditError> {
    let bytes = bytes_of(alloc, row.argument(0));
    match tree_at(alloc, bytes.as_slice()) {
        Ok((tree, _)) => {
            let content = Content::Formula(tree);
            let fits = fits_at(at.place, &content);
            drop(content);
            yes_or_no(alloc, fits)
        }
        Err(error) => copied(alloc, error.name()),
    }
}

/// The bytes of the tree that a text is read as.
pub(crate) fn spelled(alloc: Global, at: &At, row: &Row) -> Result<String, EditError> {
    let tree = forms::tree(alloc, at, row.argument(0))?;
    Ok(written(alloc, tree.get(), &[])?)
}

/// The tree that bytes spell, in the form that is asked for.
pub(crate) fn printed_tree(alloc: Global, at: &At, row: &Row) -> Result<String, EditError> {
    let bytes = bytes_of(alloc, row.argument(1));
    match tree_at(alloc, bytes.as_slice()) {
        Ok((tree, _)) => printed(alloc, at, row.argument(0), tree.get()),
        Err(error) => copied(alloc, error.name()),
    }
}
