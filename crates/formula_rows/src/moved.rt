use crate::at::{At, cell, read_place};
use crate::forms::tree;
use crate::row::Row;
use crate::words::{copied, number, word};
use base_shared::Shared;
use base_values::EditError;
use formula_move::{DisplaceData, displace_node, to_string_displaced};
use formula_names::{rename_defined_name_in_node, rename_sheet_in_node};
use formula_print::to_localized_string;
use formula_tree::{CellReferenceRC, Node, rebase_node};
use std::alloc::Global;

/// A tree as it is printed in a cell, in the signs and words of the rows.
fn printed_in(
    alloc: Global,
    at: &At,
    context: &CellReferenceRC,
    tree: Node,
) -> Result<String, EditError> {
    let tree = Shared::new(alloc, tree)?;
    to_localized_string(alloc, tree.get(), context, at.locale, at.language)
}

/// The formula of a text, put into another cell and printed there.
pub(crate) fn rebased(alloc: Global, at: &At, row: &Row) -> Result<String, EditError> {
    let Ok(place) = read_place(row.argument(0)) else {
        return copied(alloc, "no place");
    };
    let tree = tree(alloc, at, row.argument(1))?;
    let context = cell(alloc, place, at.sheet.as_str())?;
    printed_in(alloc, at, &context, rebase_node(alloc, tree.get(), place)?)
}

/// The displacement that words tell: its kind, the sheet, the lines and how far they go.
fn displacement(words: &str) -> DisplaceData<'_> {
    let sheet = word(words, 1);
    let (first, second) = (number(word(words, 2)), number(word(words, 3)));
    match word(words, 0) {
        "row" => DisplaceData::Row {
            sheet,
            row: first,
            delta: second,
        },
        "column" => DisplaceData::Column {
            sheet,
            column: first,
            delta: second,
        },
        "row-move" => DisplaceData::RowMove {
            sheet,
            row: first,
            delta: second,
        },
        "column-move" => DisplaceData::ColumnMove {
            sheet,
            column: first,
            delta: second,
        },
        kind => displacement_of_cells(kind, sheet, (first, second), number(word(words, 4))),
    }
}

/// A displacement of cells of one row or column, or none.
fn displacement_of_cells<'a>(
    kind: &str,
    sheet: &'a str,
    (row, column): (i32, i32),
    delta: i32,
) -> DisplaceData<'a> {
    match kind {
        "cell-horizontal" => DisplaceData::CellHorizontal {
            sheet,
            row,
            column,
            delta,
        },
        "cell-vertical" => DisplaceData::CellVertical {
            sheet,
            row,
            column,
            delta,
        },
        _ => DisplaceData::None,
    }
}

/// A tree that is displaced, and then printed.
fn displaced_node(
    alloc: Global,
    at: &At,
    tree: &Node,
    by: &DisplaceData<'_>,
) -> Result<String, EditError> {
    let context = at.context(alloc)?;
    printed_in(
        alloc,
        at,
        &context,
        displace_node(alloc, tree, &context, by)?,
    )
}

/// The formula of a text after a displacement, as both calls give it.
pub(crate) fn displaced(alloc: Global, at: &At, row: &Row) -> Result<String, EditError> {
    let by = displacement(row.argument(0));
    let tree = tree(alloc, at, row.argument(1))?;
    let context = at.context(alloc)?;
    let text = to_string_displaced(alloc, tree.get(), &context, &by, at.locale, at.language)?;
    let other = displaced_node(alloc, at, tree.get(), &by)?;
    if text.as_str() == other.as_str() {
        return Ok(text);
    }
    Ok(format!(in alloc; "{text} and {other}")?)
}

/// The formula of a text after a sheet was renamed.
pub(crate) fn renamed_sheet(alloc: Global, at: &At, row: &Row) -> Result<String, EditError> {
    let tree = tree(alloc, at, row.argument(2))?;
    let context = at.context(alloc)?;
    let renamed = rename_sheet_in_node(alloc, tree.get(), row.argument(0), row.argument(1))?;
    printed_in(alloc, at, &context, renamed)
}

/// The formula of a text after a defined name was renamed.
pub(crate) fn renamed_name(alloc: Global, at: &At, row: &Row) -> Result<String, EditError> {
    let tree = tree(alloc, at, row.argument(2))?;
    let context = at.context(alloc)?;
    let renamed = rename_defined_name_in_node(alloc, tree.get(), row.argument(0), row.argument(1))?;
    printed_in(alloc, at, &context, renamed)
}
