use crate::at::At;
use crate::row::Row;
use crate::words::{copied, number, yes_or_no};
use base_shared::Shared;
use base_values::EditError;
use formula_print::{
    to_english_string, to_excel_array_formula_string, to_excel_string, to_localized_string,
    to_rc_format,
};
use formula_read::read_formula;
use formula_tree::{Node, is_parse_error};
use std::alloc::{AllocError, Global};

/// The tree that a text is read as there.
pub(crate) fn tree(alloc: Global, at: &At, text: &str) -> Result<Shared<Node>, EditError> {
    let context = at.context(alloc)?;
    let tree = read_formula(alloc, text, &context, at.locale, at.language)?;
    Ok(Shared::new(alloc, tree)?)
}

/// A tree in the form that is asked for.
pub(crate) fn printed(
    alloc: Global,
    at: &At,
    form: &str,
    tree: &Node,
) -> Result<String, EditError> {
    let context = at.context(alloc)?;
    match form {
        "localized" => to_localized_string(alloc, tree, &context, at.locale, at.language),
        "rc" => to_rc_format(alloc, tree),
        "excel" => to_excel_string(alloc, tree, &context),
        "excel-array" => to_excel_array_formula_string(alloc, tree, &context),
        _ => to_english_string(alloc, tree, &context),
    }
}

/// A text that is read and printed again, or `none` where it is no formula.
pub(crate) fn form(alloc: Global, at: &At, row: &Row) -> Result<String, EditError> {
    let tree = tree(alloc, at, row.argument(0))?;
    if is_parse_error(tree.get()) {
        return copied(alloc, "none");
    }
    printed(alloc, at, row.call(), tree.get())
}

/// Whether a text is a formula.
pub(crate) fn is_formula(alloc: Global, at: &At, row: &Row) -> Result<String, EditError> {
    let tree = tree(alloc, at, row.argument(0))?;
    yes_or_no(alloc, !is_parse_error(tree.get()))
}

/// Whether a 1 behind so many minus signs, in so many parentheses, is a formula.
pub(crate) fn nested(alloc: Global, at: &At, row: &Row) -> Result<String, EditError> {
    let mut text = String::new(alloc);
    push_times(&mut text, '-', row.argument(0))?;
    push_times(&mut text, '(', row.argument(1))?;
    text.push('1')?;
    push_times(&mut text, ')', row.argument(1))?;
    let tree = tree(alloc, at, text.as_str())?;
    yes_or_no(alloc, !is_parse_error(tree.get()))
}

fn push_times(text: &mut String, sign: char, count: &str) -> Result<(), AllocError> {
    for _ in 0..number(count) {
        text.push(sign)?;
    }
    Ok(())
}
