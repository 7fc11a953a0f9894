use crate::row::Row;
use crate::words::{copied, number, number_or_none, word, yes_or_no};
use base_axis::{Axis, ColumnAxis, RowAxis};
use base_values::{EditError, line_of};
use line_edits::{EditKind, LineEdit, LineMap};
use std::alloc::Global;

/// The edit that words tell behind its axis: its kind, the first line, their count and how far they move.
fn kind(words: &str) -> EditKind {
    let (first, count) = (number(word(words, 2)), number(word(words, 3)));
    match word(words, 1) {
        "insert" => EditKind::Insert { first, count },
        "delete" => EditKind::Delete { first, count },
        _ => EditKind::Move {
            first,
            count,
            delta: number(word(words, 4)),
        },
    }
}

/// What a call answers of an edit along the axis that its words tell first.
pub(crate) fn answer(alloc: Global, row: &Row) -> Result<String, EditError> {
    match word(row.argument(0), 0) {
        "row" => along::<RowAxis>(alloc, row),
        "column" => along::<ColumnAxis>(alloc, row),
        _ => copied(alloc, "no such axis"),
    }
}

fn along<A: Axis>(alloc: Global, row: &Row) -> Result<String, EditError> {
    let edit = LineEdit::<A>::new(kind(row.argument(0)));
    let (first, second) = (number(row.argument(1)), number(row.argument(2)));
    match row.call() {
        "image" => Ok(number_or_none(alloc, edit.image(first))?),
        "splits" => yes_or_no(alloc, edit.splits(first, second)),
        "valid" => yes_or_no(alloc, edit.is_valid()),
        "first-image" => first_image(alloc, &edit, first, second),
        _ => merged(alloc, &edit, (first, second), number(row.argument(3))),
    }
}

/// The first line with an image from one line towards another.
fn first_image<A: Axis>(
    alloc: Global,
    edit: &LineEdit<A>,
    line: i32,
    towards: i32,
) -> Result<String, EditError> {
    let line = line_of(A::LAST, line, EditError::InvalidRow)?;
    let towards = line_of(A::LAST, towards, EditError::InvalidRow)?;
    if !edit.is_valid() {
        return Err(EditError::InvalidRow);
    }
    Ok(number_or_none(alloc, edit.first_image(line, towards))?)
}

/// From which to which line a merge stands afterwards, which is so many cross lines wide.
fn merged<A: Axis>(
    alloc: Global,
    edit: &LineEdit<A>,
    (first, last): (i32, i32),
    across: i32,
) -> Result<String, EditError> {
    if !edit.is_valid() || first < 1 || last < first || A::LAST < last {
        return Err(EditError::InvalidRow);
    }
    match edit.merged(first, last, across) {
        Some((first, last)) => Ok(format!(in alloc; "{first} {last}")?),
        None => copied(alloc, "none"),
    }
}
