//! Which sheet is selected after a list of diffs is followed.

ghost use Rattle.std.specs.Prelude.{◌≡◌, IfOk, IsFalse, IsOkUnless, OnOk, Ok};
ghost use Rattle.std.specs.List.{insert};
ghost use Rattle.base_values.specs.declared.EditError.TheVariants.{NoMemory};
ghost use Rattle.sheet_grid.specs.Book.{ids_of};
ghost use Rattle.sheet_history.specs.declared.diff.DiffType.TheVariants.{Undo, Redo};
ghost use Rattle.sheet_history.specs.Selection.{back_step, forward_step, has_move, is_move, selection_followed, steps_of};
ghost use Rattle.sheet_history.specs.Selection.{ids_after, ids_moved, ids_without, index_in, selected_after, selected_along, selected_of};

use crate::diff::{Diff, DiffType};
use base_values::EditError;
use sheet_grid::Workbook;
use sheet_ids::selected_sheet_after_move;

/// What a diff does to the list of the sheets, in one direction.
#[derive(Clone, Copy)]
pub(crate) enum ListStep {
    /// It leaves the list.
    Stays,
    /// The sheet of that id comes at an index.
    Comes { sheet: u32, index: u32 },
    /// The sheet of that id goes.
    Goes { sheet: u32 },
    /// The sheet of that id is taken to an index.
    Moves { sheet: u32, to: u32 },
}

/// The ids of the sheets, and which index is selected.
#[derive(Drop)]
struct Selection {
    ids: Vec<u32>,
    selected: u32,
}

/// The step that a diff is forward.
fn forward_step(diff: &Diff) -> ListStep
    ensures { result ≡ forward_step diff.now }
{
    match diff {
        Diff::Cell { .. } => ListStep::Stays,
        Diff::Link { .. } => ListStep::Stays,
        Diff::Merges { .. } => ListStep::Stays,
        Diff::Field { .. } => ListStep::Stays,
        Diff::Attributes { .. } => ListStep::Stays,
        Diff::Rule { .. } => ListStep::Stays,
        Diff::Lines { .. } => ListStep::Stays,
        Diff::NewSheet {
            sheet,
            index,
            name: _,
        } => ListStep::Comes {
            sheet: *sheet,
            index: *index,
        },
        Diff::DuplicateSheet {
            source: _,
            sheet,
            index,
            name: _,
        } => ListStep::Comes {
            sheet: *sheet,
            index: *index,
        },
        Diff::DeleteSheet { index: _, kept } => ListStep::Goes {
            sheet: kept.get().sheet.get_sheet_id(),
        },
        Diff::MoveSheet { sheet, from: _, to } => ListStep::Moves {
            sheet: *sheet,
            to: *to,
        },
        Diff::RenameSheet { .. } => ListStep::Stays,
        Diff::ChangeName { .. } => ListStep::Stays,
        Diff::Setting { .. } => ListStep::Stays,
    }
}

/// The step that a diff is back.
fn back_step(diff: &Diff) -> ListStep
    ensures { result ≡ back_step diff.now }
{
    match diff {
        Diff::Cell { .. } => ListStep::Stays,
        Diff::Link { .. } => ListStep::Stays,
        Diff::Merges { .. } => ListStep::Stays,
        Diff::Field { .. } => ListStep::Stays,
        Diff::Attributes { .. } => ListStep::Stays,
        Diff::Rule { .. } => ListStep::Stays,
        Diff::Lines { .. } => ListStep::Stays,
        Diff::NewSheet { sheet, .. } => ListStep::Goes { sheet: *sheet },
        Diff::DuplicateSheet { sheet, .. } => ListStep::Goes { sheet: *sheet },
        Diff::DeleteSheet { index, kept } => ListStep::Comes {
            sheet: kept.get().sheet.get_sheet_id(),
            index: *index,
        },
        Diff::MoveSheet { sheet, from, to: _ } => ListStep::Moves {
            sheet: *sheet,
            to: *from,
        },
        Diff::RenameSheet { .. } => ListStep::Stays,
        Diff::ChangeName { .. } => ListStep::Stays,
        Diff::Setting { .. } => ListStep::Stays,
    }
}

/// The index of a sheet among the ids of all.
fn index_in(ids: &[u32], sheet: u32) -> Option<usize>
    ensures { result ≡ index_in ids.now sheet }
{
    ids.iter().position(|id| *id == sheet)
}

/// Puts an id at an index, or behind the others where they are fewer.
fn put_id(ids: &mut Vec<u32>, index: u32, sheet: u32) -> Result<(), EditError>
    ensures ids { OnOk result (ids.new.items ≡ insert ids.old.items index sheet) }
    ensures only { IsOkUnless result NoMemory }
{
    let at = ids.len().min(index as usize);
    ids.insert(at, sheet)?;
    Ok(())
}

/// The selected index after the sheet at an index, if there is one, is taken to another index.
///
/// `NoMemory` where 32 bits do not hold the index, since no machine holds so many sheets.
fn selected_of(from: Option<usize>, to: u32, selected: u32) -> Result<u32, EditError>
    ensures selected { IfOk result (λ index. index ≡ selected_of from to selected) }
    ensures only { IsOkUnless result NoMemory }
{
    let Some(from) = from else {
        return Ok(selected);
    };
    match u32::try_from(from) {
        Ok(from) => Ok(selected_sheet_after_move(selected, from, to)),
        Err(_) => Err(EditError::NoMemory),
    }
}

/// The selected index after a step.
fn selected_after(step: ListStep, ids: &[u32], selected: u32) -> Result<u32, EditError>
    ensures selected { IfOk result (λ index. index ≡ selected_after step ids.now selected) }
    ensures only { IsOkUnless result NoMemory }
{
    match step {
        ListStep::Stays => Ok(selected),
        ListStep::Comes { sheet: _, index: _ } => Ok(selected),
        ListStep::Goes { sheet: _ } => Ok(selected),
        ListStep::Moves { sheet, to } => selected_of(index_in(ids, sheet), to, selected),
    }
}

/// Takes the id of a sheet out.
fn take_id(ids: &mut Vec<u32>, sheet: u32)
    ensures { ids.new.items ≡ ids_without (index_in ids.old.items sheet) ids.old.items }
{
    if let Some(index) = index_in(ids.as_slice(), sheet) {
        ids.remove(index);
    }
}

/// Takes the id of a sheet to an index.
fn move_id(ids: &mut Vec<u32>, sheet: u32, to: u32) -> Result<(), EditError>
    ensures ids { OnOk result (ids.new.items ≡ ids_moved (index_in ids.old.items sheet) sheet to ids.old.items) }
    ensures only { IsOkUnless result NoMemory }
{
    if let Some(index) = index_in(ids.as_slice(), sheet) {
        ids.remove(index);
        return put_id(ids, to, sheet);
    }
    Ok(())
}

/// Makes a step in the list of the ids.
fn change_ids(ids: &mut Vec<u32>, step: ListStep) -> Result<(), EditError>
    ensures ids { OnOk result (ids.new.items ≡ ids_after step ids.old.items) }
    ensures only { IsOkUnless result NoMemory }
{
    match step {
        ListStep::Stays => Ok(()),
        ListStep::Comes { sheet, index } => put_id(ids, index, sheet),
        ListStep::Goes { sheet } => {
            take_id(ids, sheet);
            Ok(())
        }
        ListStep::Moves { sheet, to } => move_id(ids, sheet, to),
    }
}

/// The selection after a step.
fn follow_step(mut selection: Selection, step: ListStep) -> Result<Selection, EditError>
    ensures ids { IfOk result (λ next. next.ids.items ≡ ids_after step selection.ids.items) }
    ensures selected { IfOk result (λ next. next.selected ≡ selected_after step selection.ids.items selection.selected) }
    ensures only { IsOkUnless result NoMemory }
{
    let selected = selected_after(step, selection.ids.as_slice(), selection.selected)?;
    change_ids(&mut selection.ids, step)?;
    Ok(Selection {
        ids: selection.ids,
        selected,
    })
}

/// The index that is selected after a list is made, from the first diff to the last.
fn selected_forward(mut selection: Selection, list: &[Diff]) -> Result<u32, EditError>
    ensures selected { IfOk result (λ index. index ≡ selected_along (steps_of Redo list.now) selection.ids.items selection.selected) }
    ensures only { IsOkUnless result NoMemory }
{
    for diff in list {
        selection = follow_step(selection, forward_step(diff))?;
    }
    Ok(selection.selected)
}

/// The index that is selected after a list is taken back, from the last diff to the first.
fn selected_back(mut selection: Selection, list: &[Diff]) -> Result<u32, EditError>
    ensures selected { IfOk result (λ index. index ≡ selected_along (steps_of Undo list.now) selection.ids.items selection.selected) }
    ensures only { IsOkUnless result NoMemory }
{
    for diff in list.iter().rev() {
        selection = follow_step(selection, back_step(diff))?;
    }
    Ok(selection.selected)
}

fn is_move(diff: &Diff) -> bool
    ensures { result ≡ is_move diff.now }
{
    matches!(diff, Diff::MoveSheet { .. })
}

/// Whether a list moves a sheet.
fn has_move(list: &[Diff]) -> bool
    ensures { result ≡ has_move list.now }
{
    list.iter().any(is_move)
}

/// The index that is selected after a list is followed in its direction, in a workbook as it is before.
/// The sheet that was selected stays so where a sheet is taken to another index; the index stays where a
/// sheet comes or goes.
///
/// `NoMemory` alone is an error. A list that moves no sheet takes no memory.
#[tactic(auto, using(crate::proofs::Following::selection_stays), unfolding(crate::specs::Selection::selection_followed))]
pub fn selection_followed(
    kind: DiffType,
    workbook: &Workbook,
    list: &[Diff],
    selected: u32,
) -> Result<u32, EditError>
    ensures selected { IfOk result (λ index. index ≡ selection_followed kind (ids_of workbook.now.worksheets) list.now selected) }
    ensures only { IsOkUnless result NoMemory }
    ensures stays { IsFalse (has_move list.now) → result ≡ Ok selected }
{
    if !has_move(list) {
        return Ok(selected);
    }
    let selection = Selection {
        ids: workbook.get_worksheet_ids()?.into_vec(),
        selected,
    };
    match kind {
        DiffType::Undo => selected_back(selection, list),
        DiffType::Redo => selected_forward(selection, list),
    }
}
