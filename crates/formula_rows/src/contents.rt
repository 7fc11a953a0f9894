use crate::at::At;
use crate::row::Row;
use base_values::EditError;
use cell_content::Content;
use cell_input::{print_content, read_input};
use formula_tree::CellReferenceRC;
use std::alloc::Global;

fn kind(content: &Content) -> &'static str {
    match content {
        Content::Empty => "empty",
        Content::Number(_) => "number",
        Content::Boolean(_) => "boolean",
        Content::Error(_) => "error",
        Content::Text(_) => "text",
        Content::Formula(_) => "formula",
        Content::Dynamic(_) => "dynamic",
        Content::Array { .. } => "array",
    }
}

/// The kind of a content, and its text.
fn shown(
    alloc: Global,
    at: &At,
    context: &CellReferenceRC,
    content: &Content,
) -> Result<String, EditError> {
    let kind = kind(content);
    let text = print_content(alloc, content, context, at.locale, at.language)?;
    Ok(format!(in alloc; "{kind} {text}")?)
}

/// The kind of the content that a text is read as, and its text again.
pub(crate) fn input(alloc: Global, at: &At, row: &Row) -> Result<String, EditError> {
    let context = at.context(alloc)?;
    let content = read_input(alloc, row.argument(0), &context, at.locale, at.language)?;
    let text = shown(alloc, at, &context, &content);
    drop(content);
    text
}
