ghost use Rattle.std.specs.Prelude.{◌≡◌, IfSome, OnOk, Ok};
ghost use Rattle.base_values.specs.Answers.{Answers, Edits};
ghost use Rattle.sheet_grid.specs.CanonicalCell.{IsCanonicalCell};
ghost use Rattle.line_edits.specs.declared.EditKind.{EditKind};
ghost use Rattle.sheet_rules.specs.WellFormed.{IsWellFormed, broken_rule};
ghost use Rattle.sheet_lines.specs.Back.{AreCanonicalLines};
ghost use Rattle.sheet_lines.specs.Sheets.{IsPlacedBook};
ghost use Rattle.sheet_history.specs.LineDiffs.{along_of, lines_back, lines_forward};
ghost use Rattle.sheet_history.specs.Diffs.{IsCanonicalDiff, IsCanonicalList, book_before, by_rule, book_after, untested_after, step_back, step_forward, untested_before};

use crate::diff::{Diff, DiffList, LineAxis};
use crate::line_diffs::{lines_back, lines_forward};
use crate::put::{put_attr, put_cell, put_field, put_link, put_merges};
use crate::rule_diffs::{rule_back, rule_forward};
use crate::setting::{setting_back, setting_forward};
use base_axis::{ColumnAxis, RowAxis};
use base_values::{EditError, copy_of};
use book_names::{rename_back, rename_forward};
use book_sheets::{
    copy_back, copy_forward, deletion_back, deletion_forward, new_back, new_forward, sheet_moves,
};
use line_map::{EditKind, LineEdit};
use name_edits::{name_back, name_forward};
use sheet_grid::Workbook;
use sheet_lines::KeptLines;
use sheet_rules::is_well_formed;
use std::alloc::Global;

/// Makes an edit of lines along an axis, where it can be made.
fn edit_forward(
    alloc: Global,
    workbook: &mut Workbook,
    id: u32,
    axis: LineAxis,
    kind: EditKind,
    kept: &KeptLines,
    at: u64,
) -> Result<(), EditError>
    requires { IsPlacedBook workbook.old }
    ensures edits { Edits result workbook.old workbook.new (lines_forward at (along_of axis) id kind kept.now workbook.old) }
    ensures placed { OnOk result (IsPlacedBook workbook.new) }
{
    match axis {
        LineAxis::Rows => {
            let edit: LineEdit<RowAxis> = LineEdit::new(kind);
            lines_forward(alloc, workbook, id, &edit, kept, at)
        }
        LineAxis::Columns => {
            let edit: LineEdit<ColumnAxis> = LineEdit::new(kind);
            lines_forward(alloc, workbook, id, &edit, kept, at)
        }
    }
}

/// Takes an edit of lines along an axis back, where it can be.
fn edit_back(
    alloc: Global,
    workbook: &mut Workbook,
    id: u32,
    axis: LineAxis,
    kind: EditKind,
    kept: &KeptLines,
    at: u64,
) -> Result<(), EditError>
    requires placed { IsPlacedBook workbook.old }
    requires canonical { AreCanonicalLines kept.now }
    ensures edits { Edits result workbook.old workbook.new (lines_back at (along_of axis) id kind kept.now workbook.old) }
    ensures placed { OnOk result (IsPlacedBook workbook.new) }
{
    match axis {
        LineAxis::Rows => {
            let edit: LineEdit<RowAxis> = LineEdit::new(kind);
            lines_back(alloc, workbook, id, &edit, kept, at)
        }
        LineAxis::Columns => {
            let edit: LineEdit<ColumnAxis> = LineEdit::new(kind);
            lines_back(alloc, workbook, id, &edit, kept, at)
        }
    }
}

/// Makes a diff's change. `at` is its number in its list.
fn make(alloc: Global, workbook: &mut Workbook, diff: &Diff, at: u64) -> Result<(), EditError>
    requires canonical { IsCanonicalDiff diff.now }
    requires placed { IsPlacedBook workbook.old }
    ensures edits { Edits result workbook.old workbook.new (step_forward at workbook.old diff.now) }
    ensures placed { OnOk result (IsPlacedBook workbook.new) }
{
    match diff {
        Diff::Cell {
            sheet,
            position,
            old: _,
            new,
        } => put_cell(workbook, *sheet, *position, new, at),
        Diff::Link {
            sheet,
            position,
            old: _,
            new,
        } => put_link(workbook, *sheet, *position, new, at),
        Diff::Merges { sheet, old: _, new } => put_merges(workbook, *sheet, new, at),
        Diff::Field { sheet, change } => put_field(workbook, *sheet, change.new_value(), at),
        Diff::Attributes {
            sheet,
            axis,
            line,
            old: _,
            new,
        } => put_attr(workbook, *sheet, *axis, *line, new, at),
        Diff::Rule { sheet, change } => rule_forward(alloc, workbook, *sheet, change.get(), at),
        Diff::Lines {
            sheet,
            axis,
            edit,
            kept,
        } => edit_forward(alloc, workbook, *sheet, *axis, *edit, kept.get(), at),
        Diff::NewSheet { sheet, index, name } => {
            new_forward(alloc, workbook, *sheet, *index, name.as_str(), at)
        }
        Diff::DuplicateSheet {
            source,
            sheet,
            index,
            name,
        } => copy_forward(workbook, *source, *sheet, *index, name.as_str(), at),
        Diff::DeleteSheet { index: _, kept } => deletion_forward(alloc, workbook, kept.get(), at),
        Diff::MoveSheet { sheet, from, to } => sheet_moves(workbook, *sheet, *from, *to, at),
        Diff::RenameSheet {
            sheet,
            old,
            new,
            kept,
        } => rename_forward(
            alloc,
            workbook,
            *sheet,
            old.as_str(),
            new.as_str(),
            kept.get(),
            at,
        ),
        Diff::ChangeName { change, kept } => name_forward(alloc, workbook, change, kept.get(), at),
        Diff::Setting { change } => setting_forward(workbook, change),
    }
}

/// Takes a diff's change back. `at` is its number in its list.
fn take_back(alloc: Global, workbook: &mut Workbook, diff: &Diff, at: u64) -> Result<(), EditError>
    requires canonical { IsCanonicalDiff diff.now }
    requires placed { IsPlacedBook workbook.old }
    ensures edits { Edits result workbook.old workbook.new (step_back at workbook.old diff.now) }
    ensures placed { OnOk result (IsPlacedBook workbook.new) }
{
    match diff {
        Diff::Cell {
            sheet,
            position,
            old,
            new: _,
        } => put_cell(workbook, *sheet, *position, old, at),
        Diff::Link {
            sheet,
            position,
            old,
            new: _,
        } => put_link(workbook, *sheet, *position, old, at),
        Diff::Merges { sheet, old, new: _ } => put_merges(workbook, *sheet, old, at),
        Diff::Field { sheet, change } => put_field(workbook, *sheet, change.old_value(), at),
        Diff::Attributes {
            sheet,
            axis,
            line,
            old,
            new: _,
        } => put_attr(workbook, *sheet, *axis, *line, old, at),
        Diff::Rule { sheet, change } => rule_back(alloc, workbook, *sheet, change.get(), at),
        Diff::Lines {
            sheet,
            axis,
            edit,
            kept,
        } => edit_back(alloc, workbook, *sheet, *axis, *edit, kept.get(), at),
        Diff::NewSheet { sheet, .. } => new_back(workbook, *sheet, at),
        Diff::DuplicateSheet { sheet, .. } => copy_back(alloc, workbook, *sheet, at),
        Diff::DeleteSheet { index, kept } => deletion_back(workbook, *index, kept.get(), at),
        Diff::MoveSheet { sheet, from, to } => sheet_moves(workbook, *sheet, *to, *from, at),
        Diff::RenameSheet {
            sheet,
            old,
            new,
            kept,
        } => rename_back(
            alloc,
            workbook,
            *sheet,
            old.as_str(),
            new.as_str(),
            kept.get(),
            at,
        ),
        Diff::ChangeName { change, kept } => name_back(alloc, workbook, change, kept.get(), at),
        Diff::Setting { change } => setting_back(workbook, change),
    }
}

/// The workbook with the changes of a list made in order.
fn later_book(alloc: Global, workbook: &Workbook, list: &DiffList) -> Result<Workbook, EditError>
    requires canonical { IsCanonicalList list.now }
    requires placed { IsPlacedBook workbook.now }
    ensures { Answers result (untested_after workbook.now list.now) }
{
    let mut next = copy_of(workbook)?;
    for (index, diff) in list.get().as_slice().iter().enumerate() {
        make(alloc, &mut next, diff, index as u64)?;
    }
    Ok(next)
}

/// The workbook with the changes of a list taken back, the last one first.
fn taken_back(alloc: Global, workbook: &Workbook, list: &DiffList) -> Result<Workbook, EditError>
    requires canonical { IsCanonicalList list.now }
    requires placed { IsPlacedBook workbook.now }
    ensures { Answers result (untested_before workbook.now list.now) }
{
    let diffs = list.get().as_slice();
    let mut next = copy_of(workbook)?;
    for index in (0..diffs.len()).rev() {
        take_back(alloc, &mut next, &diffs[index], index as u64)?;
    }
    Ok(next)
}

/// A workbook that breaks no rule. Where it breaks one, the diff of that number is refused.
#[tactic(auto, unfolding(crate::specs::Diffs::by_rule))]
fn by_rule(workbook: Workbook, at: u64) -> Result<Workbook, EditError>
    ensures { result ≡ by_rule at workbook (broken_rule workbook) }
{
    if is_well_formed(&workbook) {
        Ok(workbook)
    } else {
        Err(EditError::DiffRefused { entry: 0, diff: at })
    }
}

/// The well-formed workbook with the changes of a list made in order.
///
/// `DiffRefused` with entry 0 and the number of the first diff that cannot be made; where each can,
/// but the result breaks a rule, with the number of diffs. A cell cannot be put where its sheet is
/// not there, its position is outside, or it may not stand there. docs/MODEL.md says when lines can
/// be inserted, deleted and moved, when a sheet can come, go, move and be renamed, and when a conditional
/// rule and a defined name can come, go and change.
pub fn forward(alloc: Global, workbook: &Workbook, list: &DiffList) -> Result<Workbook, EditError>
    requires canonical { IsCanonicalList list.now }
    requires rules { IsWellFormed workbook.now }
    ensures { Answers result (book_after workbook.now list.now) }
{
    let next = later_book(alloc, workbook, list)?;
    by_rule(next, list.get().as_slice().len() as u64)
}

/// The well-formed workbook with the changes of a list taken back, the last one first.
///
/// `DiffRefused` as `forward` answers it, of the old cells and of lines that cannot be taken back,
/// with the number of the first diff that it comes to.
pub fn back(alloc: Global, workbook: &Workbook, list: &DiffList) -> Result<Workbook, EditError>
    requires canonical { IsCanonicalList list.now }
    requires rules { IsWellFormed workbook.now }
    ensures { Answers result (book_before workbook.now list.now) }
{
    let before = taken_back(alloc, workbook, list)?;
    by_rule(before, list.get().as_slice().len() as u64)
}

/// Makes the changes of a list as `forward` does, in the workbook itself, and does not test the
/// result. A refusal leaves it as it was. A list of one cell costs no copy of the workbook.
pub fn forward_in_place(
    alloc: Global,
    workbook: &mut Workbook,
    list: &DiffList,
) -> Result<(), EditError>
    requires canonical { IsCanonicalList list.now }
    requires rules { IsWellFormed workbook.old }
    ensures { Edits result workbook.old workbook.new (untested_after workbook.old list.now) }
{
    match list.get().as_slice() {
        [] => Ok(()),
        [diff] => make(alloc, workbook, diff, 0),
        _ => {
            *workbook = later_book(alloc, workbook, list)?;
            Ok(())
        }
    }
}

/// Takes the changes of a list back as `back` does, in the workbook itself, and does not test the
/// result. A refusal leaves it as it was. A list of one cell costs no copy of the workbook.
pub fn back_in_place(
    alloc: Global,
    workbook: &mut Workbook,
    list: &DiffList,
) -> Result<(), EditError>
    requires canonical { IsCanonicalList list.now }
    requires rules { IsWellFormed workbook.old }
    ensures { Edits result workbook.old workbook.new (untested_before workbook.old list.now) }
{
    match list.get().as_slice() {
        [] => Ok(()),
        [diff] => take_back(alloc, workbook, diff, 0),
        _ => {
            *workbook = taken_back(alloc, workbook, list)?;
            Ok(())
        }
    }
}
