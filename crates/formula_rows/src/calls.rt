use crate::at::At;
use crate::row::Row;
use crate::words::copied;
use crate::{borders, bytes, contents, forms, lines, moved, progress, tables};
use base_values::EditError;
use std::alloc::Global;

/// What a call answers.
pub(crate) fn answer(alloc: Global, at: &At, row: &Row) -> Result<String, EditError> {
    match row.call() {
        "english" | "localized" | "rc" | "excel" | "excel-array" => forms::form(alloc, at, row),
        "formula" => forms::is_formula(alloc, at, row),
        "nested" => forms::nested(alloc, at, row),
        "input" => contents::input(alloc, at, row),
        "spelled" => bytes::spelled(alloc, at, row),
        "printed" => bytes::printed_tree(alloc, at, row),
        "tree" => bytes::tree(alloc, row),
        "fronts" => bytes::fronts(alloc, row),
        "fits" => bytes::fits(alloc, at, row),
        _ => of_moved(alloc, at, row),
    }
}

/// What a call on a formula that changes, or on lines, answers.
fn of_moved(alloc: Global, at: &At, row: &Row) -> Result<String, EditError> {
    match row.call() {
        "rebased" => moved::rebased(alloc, at, row),
        "displaced" => moved::displaced(alloc, at, row),
        "renamed-sheet" => moved::renamed_sheet(alloc, at, row),
        "renamed-name" => moved::renamed_name(alloc, at, row),
        "image" | "first-image" | "merged" | "splits" | "valid" => lines::answer(alloc, row),
        _ => of_texts(alloc, at, row),
    }
}

/// What a call on numbers, progressions or names answers.
fn of_texts(alloc: Global, at: &At, row: &Row) -> Result<String, EditError> {
    match row.call() {
        "decimal" => tables::decimal(alloc, at, row),
        "round15" => tables::rounded(alloc, at, row),
        "detect" => progress::detected(alloc, at, row),
        "numeric" => progress::numeric(alloc, at, row),
        "suffixed" => progress::suffixed(alloc, at, row),
        "dates" => progress::dates(alloc, at, row),
        "quote" => tables::quoted(alloc, row),
        "folds" => tables::folds(alloc, row),
        "legal" => tables::legal(alloc, row),
        _ => of_tables(alloc, at, row),
    }
}

/// What a call on a table answers.
fn of_tables(alloc: Global, at: &At, row: &Row) -> Result<String, EditError> {
    match row.call() {
        "column" => tables::column(alloc, row),
        "column-number" => tables::column_number(alloc, row),
        "locale" => tables::locale(alloc, row),
        "language" => tables::language(alloc, row),
        "zone" => tables::zone(alloc, row),
        "boolean" => tables::boolean(alloc, at, row),
        "error" => tables::error(alloc, at, row),
        "function" => tables::function(alloc, at, row),
        "names" => tables::names(alloc, at, row),
        "border" => borders::shows(alloc, row),
        "colour" => borders::color(alloc, row),
        _ => copied(alloc, "no such call"),
    }
}
