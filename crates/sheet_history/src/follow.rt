ghost use Rattle.std.specs.Prelude.{◌≡◌};
ghost use Rattle.base_values.specs.Answers.{Edits};
ghost use Rattle.sheet_grid.specs.Merges.{is_empty};
ghost use Rattle.sheet_rules.specs.Occupied.{may_stand};
ghost use Rattle.sheet_rules.specs.WellFormed.{IsWellFormed};
ghost use Rattle.sheet_ids.specs.Ids.{sheet_of};
ghost use Rattle.sheet_history.specs.Diffs.{IsCanonicalList, book_before, follow, book_after};
ghost use Rattle.sheet_history.specs.Fields.{may_have};
ghost use Rattle.sheet_history.specs.Untested.{cell_keeps_rules, entry_has_font, field_put_by, is_no_array, diff_keeps_rules, keeps_rules, may_stand_on};

use crate::apply::{back, back_in_place, forward, forward_in_place};
use crate::diff::{Diff, DiffList, DiffType};
use crate::field::FieldChange;
use base_shared::Shared;
use base_values::{EditError, Position};
use cell_content::Content;
use sheet_grid::{Cell, Workbook, Worksheet, array_at};
use sheet_ids::sheet_of;
use sheet_rules::is_hidden_place;
use std::alloc::Global;

/// Whether what is put, a cell or none, has a font of at least size 1.
fn has_font(entry: &Option<Shared<Cell>>) -> bool
    ensures { result ≡ entry_has_font entry.now }
{
    match entry {
        Some(cell) => cell.get().style.get().font.sz >= 1,
        None => true,
    }
}

/// Whether what is put, a cell or none, is no array.
fn is_no_array(place: Position, entry: &Option<Shared<Cell>>) -> bool
    ensures { result ≡ is_no_array place entry.now }
{
    match entry {
        Some(cell) => array_at(place, &cell.get().content).is_none(),
        None => true,
    }
}

fn is_empty(content: &Content) -> bool
    ensures { result ≡ is_empty content.now }
{
    matches!(content, Content::Empty)
}

/// Whether a cell, or none, may stand at a place of a sheet: it is no array, and has no content
/// where the place is hidden.
fn may_stand(sheet: &Worksheet, place: Position, entry: &Option<Shared<Cell>>) -> bool
    ensures { result ≡ may_stand sheet.now place entry.now }
{
    match entry {
        Some(cell) => {
            let content = &cell.get().content;
            array_at(place, content).is_none()
                && (is_empty(content) || !is_hidden_place(sheet, place))
        }
        None => true,
    }
}

/// The same of the sheet of an id, if it is there.
fn may_stand_on(workbook: &Workbook, id: u32, place: Position, entry: &Option<Shared<Cell>>) -> bool
    ensures { result ≡ may_stand_on (sheet_of workbook.now id) place entry.now }
{
    match sheet_of(workbook, id) {
        Some(sheet) => may_stand(sheet, place, entry),
        None => is_no_array(place, entry),
    }
}

/// Whether a cell, or none, can be put without a test of the result.
fn cell_keeps_rules(
    workbook: &Workbook,
    id: u32,
    place: Position,
    entry: &Option<Shared<Cell>>,
) -> bool
    ensures { result ≡ cell_keeps_rules (sheet_of workbook.now id) place entry.now }
{
    has_font(entry) && may_stand_on(workbook, id, place, entry)
}

/// Whether the value that a change of a field puts may stand in a well-formed workbook.
fn field_keeps_rules(kind: DiffType, change: FieldChange) -> bool
    ensures { result ≡ may_have (field_put_by kind change) }
{
    match kind {
        DiffType::Undo => change.old_value().may_stand(),
        DiffType::Redo => change.new_value().may_stand(),
    }
}

/// Whether a diff, followed in a well-formed workbook, leaves one for sure.
fn diff_keeps_rules(workbook: &Workbook, kind: DiffType, diff: &Diff) -> bool
    ensures { result ≡ diff_keeps_rules kind workbook.now diff.now }
{
    match diff {
        Diff::Cell {
            sheet,
            position,
            old,
            new,
        } => match kind {
            DiffType::Undo => cell_keeps_rules(workbook, *sheet, *position, old),
            DiffType::Redo => cell_keeps_rules(workbook, *sheet, *position, new),
        },
        Diff::Link { .. } => true,
        Diff::Field { sheet: _, change } => field_keeps_rules(kind, *change),
        Diff::Setting { .. } => true,
        _ => false,
    }
}

/// Whether a list surely leaves a well-formed workbook: it is empty, or has one diff that does.
fn keeps_rules(workbook: &Workbook, kind: DiffType, list: &DiffList) -> bool
    ensures { result ≡ keeps_rules kind workbook.now list.now }
{
    match list.get().as_slice() {
        [] => true,
        [diff] => diff_keeps_rules(workbook, kind, diff),
        _ => false,
    }
}

/// Makes the changes of a list in a well-formed workbook, and tests the result where it has to.
fn follow_forward(alloc: Global, workbook: &mut Workbook, list: &DiffList) -> Result<(), EditError>
    requires canonical { IsCanonicalList list.now }
    requires rules { IsWellFormed workbook.old }
    ensures { Edits result workbook.old workbook.new (book_after workbook.old list.now) }
{
    if keeps_rules(workbook, DiffType::Redo, list) {
        return forward_in_place(alloc, workbook, list);
    }
    *workbook = forward(alloc, workbook, list)?;
    Ok(())
}

/// Takes the changes of a list back in a well-formed workbook, and tests the result where it has
/// to.
fn follow_back(alloc: Global, workbook: &mut Workbook, list: &DiffList) -> Result<(), EditError>
    requires canonical { IsCanonicalList list.now }
    requires rules { IsWellFormed workbook.old }
    ensures { Edits result workbook.old workbook.new (book_before workbook.old list.now) }
{
    if keeps_rules(workbook, DiffType::Undo, list) {
        return back_in_place(alloc, workbook, list);
    }
    *workbook = back(alloc, workbook, list)?;
    Ok(())
}

/// Follows a list in its direction, in the well-formed workbook itself, and leaves a well-formed one.
///
/// `DiffRefused` as `forward` and `back` answer it; it and `NoMemory` leave the workbook. Where a test
/// of the result has to be made the list is followed on a copy. A list of one link, of one setting, or of one
/// field of a sheet whose value may stand in a well-formed workbook needs none, and neither does one of one cell
/// that has a font, is no array, and has no content or stands at no hidden place. For such a cell the merges and the arrays of more than one cell of its
/// sheet are looked at, and no other cell.
pub fn follow_in_place(
    alloc: Global,
    workbook: &mut Workbook,
    kind: DiffType,
    list: &DiffList,
) -> Result<(), EditError>
    requires canonical { IsCanonicalList list.now }
    requires rules { IsWellFormed workbook.old }
    ensures { Edits result workbook.old workbook.new (follow kind workbook.old list.now) }
{
    match kind {
        DiffType::Undo => follow_back(alloc, workbook, list),
        DiffType::Redo => follow_forward(alloc, workbook, list),
    }
}
