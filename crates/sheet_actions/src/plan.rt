ghost use Rattle.std.specs.Prelude.{◌≡◌, ◌≢◌, Err, ◌+ℤ◌, int_lt, IfOk, IsTrue, is_some};
ghost use Rattle.std.specs.List.{list_any};
ghost use Rattle.base_values.specs.Answers.{map_ok};
ghost use Rattle.base_values.specs.declared.EditError.TheVariants.{NoMemory};
ghost use Rattle.base_axis.specs.Rectangles.{last_of};
ghost use Rattle.line_edits.specs.Edit.{IsValid};
ghost use Rattle.line_edits.specs.declared.EditKind.TheVariants.{Insert, Delete, Move};
ghost use Rattle.sheet_rules.specs.WellFormed.{IsWellFormed};
ghost use Rattle.sheet_ids.specs.Ids.{sheet_of};
ghost use Rattle.sheet_actions.specs.GreatestLine.{greatest_line};
ghost use Rattle.sheet_actions.specs.Planned.{splits_rectangle, splits_array, splits_merge, pushes_past, refusal_of, lines_planned};
ghost use Rattle.sheet_actions.specs.Whole.{IsAllowed};

use base_axis::{Axis, MergedCell, last_of, outside};
use base_values::{EditError, Position, is_line};
use line_edits::{EditKind, LineEdit};
use sheet_grid::{Workbook, Worksheet, array_at};

/// The greatest line on which a cell of a sheet stands, or that an array fills, or 1 where there is
/// none.
fn greatest_line<A: Axis>(sheet: &Worksheet) -> i32
    ensures { result ≡ greatest_line A.along sheet.now }
{
    let dimension = sheet.dimension();
    A::line(Position {
        row: dimension.max_row,
        column: dimension.max_column,
    })
}

fn is_past(last: i32, line: i64) -> bool
    ensures { result ≡ int_lt last line }
{
    i64::from(last) < line
}

fn sum(line: i32, count: i32) -> i64
    ensures { result ≡ line +ℤ count }
{
    i64::from(line) + i64::from(count)
}

/// Whether an insertion of so many lines could push a cell, or what an array fills, past the last
/// one.
fn pushes_past<A: Axis>(sheet: &Worksheet, count: i32) -> bool
    ensures { result ≡ pushes_past A.along count sheet.now }
{
    is_past(A::LAST, sum(greatest_line::<A>(sheet), count))
}

/// Whether so many lines from a first one on reach past the last one.
fn reaches_past<A: Axis>(first: i32, count: i32) -> bool
    ensures { result ≡ int_lt A.along.last (last_of first count) }
{
    is_past(A::LAST, last_of(first, count))
}

/// Whether an edit splits a rectangle that is inside the sheet.
fn splits_rectangle<A: Axis>(edit: &LineEdit<A>, rectangle: MergedCell) -> bool
    ensures { result ≡ splits_rectangle A.along edit.now.kind rectangle }
{
    if !rectangle.is_inside() {
        return false;
    }
    let (first, last) = rectangle.lines::<A>();
    edit.splits(first, last)
}

/// Whether an edit splits an array of a sheet.
fn splits_array<A: Axis>(edit: &LineEdit<A>, sheet: &Worksheet) -> bool
    ensures { result ≡ splits_array A.along edit.now.kind sheet.now }
{
    sheet
        .cells()
        .filter_map(|(place, cell)| array_at(*place, &cell.get().content))
        .any(|array| splits_rectangle(edit, array))
}

/// Whether an edit splits a merge of a sheet.
fn splits_merge<A: Axis>(edit: &LineEdit<A>, sheet: &Worksheet) -> bool
    ensures { result ≡ splits_merge A.along edit.now.kind sheet.now }
{
    sheet
        .merged_cells()
        .iter()
        .any(|merge| splits_rectangle(edit, *merge))
}

/// The first refusal of an insertion.
#[tactic(auto, unfolding(crate::specs::Planned::refusal_of))]
fn insertion_refusal<A: Axis>(first: i32, count: i32, sheet: &Worksheet) -> Option<EditError>
    ensures { result ≡ refusal_of A.along (Insert first count) sheet.now }
{
    if count < 1 {
        Some(EditError::BadCount)
    } else if !is_line(A::LAST, first as i64) {
        Some(outside::<A>())
    } else if splits_array::<A>(&LineEdit::new(EditKind::Insert { first, count }), sheet) {
        Some(EditError::SplitsArray)
    } else if pushes_past::<A>(sheet, count) {
        Some(EditError::OverEdge)
    } else {
        None
    }
}

/// The first refusal of a deletion.
#[tactic(auto, unfolding(crate::specs::Planned::refusal_of))]
fn deletion_refusal<A: Axis>(first: i32, count: i32, sheet: &Worksheet) -> Option<EditError>
    ensures { result ≡ refusal_of A.along (Delete first count) sheet.now }
{
    if count < 1 {
        Some(EditError::BadCount)
    } else if !is_line(A::LAST, first as i64) {
        Some(outside::<A>())
    } else if reaches_past::<A>(first, count) {
        Some(EditError::TargetOutOfBounds)
    } else if splits_array::<A>(&LineEdit::new(EditKind::Delete { first, count }), sheet) {
        Some(EditError::SplitsArray)
    } else {
        None
    }
}

/// The first refusal of a move.
#[tactic(auto, unfolding(crate::specs::Planned::refusal_of))]
fn move_refusal<A: Axis>(first: i32, count: i32, delta: i32, sheet: &Worksheet) -> Option<EditError>
    ensures { result ≡ refusal_of A.along (Move first count delta) sheet.now }
{
    let edit = LineEdit::<A>::new(EditKind::Move {
        first,
        count,
        delta,
    });
    if !edit.is_valid() {
        Some(EditError::TargetOutOfBounds)
    } else if splits_array(&edit, sheet) {
        Some(EditError::SplitsArray)
    } else if splits_merge(&edit, sheet) {
        Some(EditError::SplitsMerge)
    } else {
        None
    }
}

/// The first refusal of an edit of the lines of a sheet.
fn refusal_of<A: Axis>(kind: EditKind, sheet: &Worksheet) -> Option<EditError>
    ensures { result ≡ refusal_of A.along kind sheet.now }
{
    match kind {
        EditKind::Insert { first, count } => insertion_refusal::<A>(first, count, sheet),
        EditKind::Delete { first, count } => deletion_refusal::<A>(first, count, sheet),
        EditKind::Move {
            first,
            count,
            delta,
        } => move_refusal::<A>(first, count, delta, sheet),
    }
}

fn planned<A: Axis>(
    workbook: &Workbook,
    sheet: u32,
    kind: EditKind,
) -> Result<(u32, LineEdit<A>), EditError>
    ensures planned { map_ok (λ plan. (plan.0, plan.1.kind)) result ≡ lines_planned A.along kind sheet workbook.now }
    ensures valid { IfOk result (λ plan. IsValid A.along.last plan.1.kind) }
    ensures there { IfOk result (λ plan. IsTrue (is_some (sheet_of workbook.now plan.0))) }
    ensures allowed { IsWellFormed workbook.now → IfOk result (λ plan. IsAllowed A.along plan.1.kind plan.0 workbook.now) }
    ensures sure { result ≢ Err NoMemory }
{
    let found = workbook.worksheet(sheet)?;
    match refusal_of::<A>(kind, found) {
        Some(refusal) => Err(refusal),
        None => Ok((found.get_sheet_id(), LineEdit::new(kind))),
    }
}

/// The edit that inserts `count` empty lines at a line of the sheet at an index, and the id of that
/// sheet. It takes no memory.
///
/// `InvalidSheet` where there is no such sheet, else `BadCount` where the count is below 1, else
/// `InvalidRow` or `InvalidColumn`, by the axis, where the line is outside the sheet, else
/// `SplitsArray` where an array stands on both sides of it, else `OverEdge` where so many lines more
/// than the greatest that holds a cell, or that an array fills, are more than a sheet has, be that
/// cell before the line or behind. A sheet without a cell counts as one line. docs/MODEL.md has the rule.
pub fn plan_insert<A: Axis>(
    workbook: &Workbook,
    sheet: u32,
    first: i32,
    count: i32,
) -> Result<(u32, LineEdit<A>), EditError>
    ensures planned { map_ok (λ plan. (plan.0, plan.1.kind)) result ≡ lines_planned A.along (Insert first count) sheet workbook.now }
    ensures valid { IfOk result (λ plan. IsValid A.along.last plan.1.kind) }
    ensures there { IfOk result (λ plan. IsTrue (is_some (sheet_of workbook.now plan.0))) }
    ensures allowed { IsWellFormed workbook.now → IfOk result (λ plan. IsAllowed A.along plan.1.kind plan.0 workbook.now) }
    ensures sure { result ≢ Err NoMemory }
{
    planned(workbook, sheet, EditKind::Insert { first, count })
}

/// The edit that deletes `count` lines from a line on of the sheet at an index, and the id of that
/// sheet. It takes no memory.
///
/// `InvalidSheet` where there is no such sheet, else `BadCount` where the count is below 1, else
/// `InvalidRow` or `InvalidColumn`, by the axis, where the line is outside the sheet, else
/// `TargetOutOfBounds` where the lines reach outside it, else `SplitsArray` where an array has some
/// of these lines and others. docs/MODEL.md has the rule.
pub fn plan_delete<A: Axis>(
    workbook: &Workbook,
    sheet: u32,
    first: i32,
    count: i32,
) -> Result<(u32, LineEdit<A>), EditError>
    ensures planned { map_ok (λ plan. (plan.0, plan.1.kind)) result ≡ lines_planned A.along (Delete first count) sheet workbook.now }
    ensures valid { IfOk result (λ plan. IsValid A.along.last plan.1.kind) }
    ensures there { IfOk result (λ plan. IsTrue (is_some (sheet_of workbook.now plan.0))) }
    ensures allowed { IsWellFormed workbook.now → IfOk result (λ plan. IsAllowed A.along plan.1.kind plan.0 workbook.now) }
    ensures sure { result ≢ Err NoMemory }
{
    planned(workbook, sheet, EditKind::Delete { first, count })
}

/// The edit that moves `count` lines from a line on of the sheet at an index on by `delta` lines, or
/// back where it is below 0, and the id of that sheet. It takes no memory.
///
/// `InvalidSheet` where there is no such sheet, else `TargetOutOfBounds` where the lines, or where
/// they go, are not 1 or more lines of the sheet, else `SplitsArray` where an array has some of the
/// lines, or some that they pass, and others, else `SplitsMerge` where a merge has.
/// docs/MODEL.md has the rule.
pub fn plan_move<A: Axis>(
    workbook: &Workbook,
    sheet: u32,
    first: i32,
    count: i32,
    delta: i32,
) -> Result<(u32, LineEdit<A>), EditError>
    ensures planned { map_ok (λ plan. (plan.0, plan.1.kind)) result ≡ lines_planned A.along (Move first count delta) sheet workbook.now }
    ensures valid { IfOk result (λ plan. IsValid A.along.last plan.1.kind) }
    ensures there { IfOk result (λ plan. IsTrue (is_some (sheet_of workbook.now plan.0))) }
    ensures allowed { IsWellFormed workbook.now → IfOk result (λ plan. IsAllowed A.along plan.1.kind plan.0 workbook.now) }
    ensures sure { result ≢ Err NoMemory }
{
    let kind = EditKind::Move {
        first,
        count,
        delta,
    };
    planned(workbook, sheet, kind)
}
