//! Diffs of lines: whether they can be made and taken back, and what they do.

ghost use Rattle.std.specs.Prelude.{◌≡◌, ◌&&◌, ◌+ℤ◌, IsTrue, OnOk, int_le, int_lt, is_none, is_some, not};
ghost use Rattle.std.specs.List.{list_all};
ghost use Rattle.std.specs.FinMap.{entries};
ghost use Rattle.base_values.specs.Answers.{Edits};
ghost use Rattle.base_values.specs.declared.Position.{Position};
ghost use Rattle.line_edits.specs.Edit.{IsValid, image_at, opposite_of};
ghost use Rattle.line_edits.specs.Moves.{place_image};
ghost use Rattle.sheet_grid.specs.declared.Cell.{Cell};
ghost use Rattle.sheet_lines.specs.Back.{AreCanonicalLines, ArePlacedLines, KeptLinesInside};
ghost use Rattle.sheet_ids.specs.Ids.{sheet_of};
ghost use Rattle.sheet_lines.specs.Sheets.{IsPlacedBook};
ghost use Rattle.book_sheets.specs.SheetDiffs.{cells_fit};
ghost use Rattle.line_map.specs.Canonical.{KeptInside};
ghost use Rattle.sheet_history.specs.LineDiffs.{is_pushed_past, stays_inside, is_there_inside, is_lost_place, is_lost_line, all_keys};
ghost use Rattle.sheet_history.specs.LineDiffs.{stand_on_lost, are_kept_lines_inside, merges_inside, parts_inside, each_stands, formattings_stand, may_stand};
ghost use Rattle.sheet_history.specs.LineDiffs.{goes_forward, goes_back, lines_forward, lines_back};

use base_axis::{Axis, MergeList};
use base_maps::{IndexMap, NumberMap, PositionMap};
use base_shared::Shared;
use base_values::{EditError, Position, is_line, is_place};
use book_names::{FormulaPlace, formulas_stand, stand_on_places};
use book_sheets::{are_arrays_inside, are_merges_inside, each_fits};
use format_rules::{ConditionalFormatting, has_fitting_trees, has_parts};
use line_edits::place_image;
use line_map::{EditKind, LineEdit, are_there};
use sheet_grid::{Cell, Workbook, Worksheet};
use sheet_ids::sheet_of;
use sheet_lines::{KeptLines, followed_book, line_back};
use std::alloc::Global;

fn is_past(last: i32, line: i32, count: i32) -> bool
    ensures { result ≡ int_lt last (line +ℤ count) }
{
    i64::from(last) < i64::from(line) + i64::from(count)
}

/// Whether an insertion takes a place past the last line.
fn is_pushed_past<A: Axis>(first: i32, count: i32, place: Position) -> bool
    ensures { result ≡ is_pushed_past A.along first count place }
{
    let line = A::line(place);
    first <= line && is_past(A::LAST, line, count)
}

fn none_pushed<A: Axis>(first: i32, count: i32, sheet: &Worksheet) -> bool
    ensures { result ≡ list_all (λ (entry : Position × Cell). not (is_pushed_past A.along first count entry.0)) (entries sheet.now.cells) }
{
    sheet.cells().all(|(place, _cell)| !is_pushed_past::<A>(first, count, *place))
}

/// Whether no cell of a sheet is pushed past the last line.
#[tactic(auto, unfolding(crate::specs::LineDiffs::stays_inside))]
fn stays_inside<A: Axis>(edit: &LineEdit<A>, sheet: &Worksheet) -> bool
    ensures { result ≡ stays_inside A.along edit.now.kind sheet.now }
{
    match edit.kind {
        EditKind::Insert { first, count } => none_pushed::<A>(first, count, sheet),
        EditKind::Delete { first: _, count: _ } => true,
        EditKind::Move {
            first: _,
            count: _,
            delta: _,
        } => true,
    }
}

/// Whether there is the sheet of an id, and none of its cells is pushed past the last line.
fn is_there_inside<A: Axis>(edit: &LineEdit<A>, workbook: &Workbook, id: u32) -> bool
    ensures inside { result ≡ is_there_inside A.along edit.now.kind (sheet_of workbook.now id) }
    ensures there { IsTrue result → IsTrue (is_some (sheet_of workbook.now id)) }
{
    match sheet_of(workbook, id) {
        Some(sheet) => stays_inside(edit, sheet),
        None => false,
    }
}

/// Whether a position is a place of the sheet that has no image.
fn is_lost_place<A: Axis>(edit: &LineEdit<A>, place: Position) -> bool
    ensures { result ≡ is_lost_place A.along edit.now.kind place }
{
    is_place(place) && place_image(edit, place).is_none()
}

fn are_lost_places<A: Axis, V>(edit: &LineEdit<A>, map: &PositionMap<V>) -> bool
    ensures { result ≡ all_keys (is_lost_place A.along edit.now.kind) map.now }
{
    map.iter()
        .all(|(place, _value)| is_lost_place(edit, *place))
}

/// Whether a number is a line of the axis that has no image.
fn is_lost_line<A: Axis>(edit: &LineEdit<A>, line: i32) -> bool
    ensures { result ≡ is_lost_line A.along edit.now.kind line }
{
    is_line(A::LAST, line as i64) && edit.image(line).is_none()
}

fn are_lost_lines<A: Axis, V>(edit: &LineEdit<A>, map: &NumberMap<V>) -> bool
    ensures { result ≡ all_keys (is_lost_line A.along edit.now.kind) map.now }
{
    map.iter().all(|(line, _value)| is_lost_line(edit, *line))
}

/// Whether what is kept of lines is inside the sheet where lines have no image, and each kept
/// tree inside a sheet.
#[tactic(auto, unfolding(crate::specs::LineDiffs::stand_on_lost))]
fn stand_on_lost<A: Axis>(edit: &LineEdit<A>, kept: &KeptLines) -> bool
    ensures { result ≡ stand_on_lost A.along edit.now.kind kept.now }
{
    (are_lost_places(edit, &kept.cells) && are_lost_places(edit, &kept.links))
        && (are_lost_lines(edit, &kept.lines) && stand_on_places(&kept.formulas))
}

fn merges_inside(merges: &Option<MergeList>) -> bool
    ensures { result ≡ merges_inside merges.now }
{
    match merges {
        Some(merges) => are_merges_inside(merges),
        None => true,
    }
}

/// Whether each kept conditional rule has a part, and its parts are inside the sheet.
fn parts_inside(formattings: &IndexMap<ConditionalFormatting>) -> bool
    ensures { result ≡ parts_inside formattings.now }
{
    formattings
        .iter()
        .all(|(_place, formatting)| has_parts(formatting))
}

/// Whether each kept cell that is an array is inside the sheet, and so do each kept merge and the parts
/// of each kept conditional rule.
#[tactic(auto, unfolding(crate::specs::LineDiffs::are_kept_lines_inside))]
fn are_kept_lines_inside(kept: &KeptLines) -> bool
    ensures { result ≡ are_kept_lines_inside kept.now }
{
    are_arrays_inside(kept.cells.iter())
        && merges_inside(&kept.merges)
        && parts_inside(&kept.formattings)
}

/// Whether what is kept passes `stand_on_lost` and `are_kept_lines_inside`.
fn is_kept_inside<A: Axis>(edit: &LineEdit<A>, kept: &KeptLines) -> bool
    ensures value { result ≡ (stand_on_lost A.along edit.now.kind kept.now && are_kept_lines_inside kept.now) }
    ensures inside { IsTrue result → KeptLinesInside A.along kept.now }
{
    stand_on_lost(edit, kept) && are_kept_lines_inside(kept)
}

/// Whether the formula of each cell fits its place.
#[tactic(auto, unfolding(book_sheets::specs::SheetDiffs::cells_fit))]
fn cells_fit(cells: &PositionMap<Shared<Cell>>) -> bool
    ensures { result ≡ cells_fit cells.now }
{
    each_fits(cells.iter())
}

/// Where an edit of the sheet of an id takes the place of a tree.
#[derive(Drop)]
struct PlaceAfter<'e, A: Axis> {
    edit: &'e LineEdit<A>,
    id: u32,
}

impl<'e, A: Axis> FormulaPlace for PlaceAfter<'e, A> {
    ghost use Rattle.sheet_history.specs.LineDiffs.{goes_on};

    ghost sought = { λ self. goes_on A.along self.edit.now.kind self.id };

    #[tactic(auto, unfolding(crate::specs::LineDiffs::goes_on))]
    fn seek_in(&self, sheet: &Worksheet, place: Position) -> Option<Position> {
        if sheet.get_sheet_id() == self.id {
            place_image(self.edit, place)
        } else {
            Some(place)
        }
    }
}

fn goes_forward<A: Axis>(edit: &LineEdit<A>, id: u32, kept: &KeptLines, workbook: &Workbook) -> bool
    ensures value { result ≡ goes_forward A.along id edit.now.kind kept.now workbook.now }
    ensures valid { IsTrue result → IsValid A.along.last edit.now.kind }
{
    edit.is_valid() && is_there_inside(edit, workbook, id) && is_kept_inside(edit, kept)
}

/// Makes an edit of lines, where it can be made. `at` is the number of its diff.
#[tactic(auto, unfolding(crate::specs::LineDiffs::lines_forward))]
pub(crate) fn lines_forward<A: Axis>(
    alloc: Global,
    workbook: &mut Workbook,
    id: u32,
    edit: &LineEdit<A>,
    kept: &KeptLines,
    at: u64,
) -> Result<(), EditError>
    requires { IsPlacedBook workbook.old }
    ensures edits { Edits result workbook.old workbook.new (lines_forward at A.along id edit.now.kind kept.now workbook.old) }
    ensures placed { OnOk result (IsPlacedBook workbook.new) }
{
    if !goes_forward(edit, id, kept, workbook) {
        return Err(EditError::DiffRefused { entry: 0, diff: at });
    }
    *workbook = followed_book(alloc, workbook, id, edit)?;
    Ok(())
}

/// Whether the sheet is there, and the lines can be taken from it or put back.
fn is_there_inside_back<A: Axis>(edit: &LineEdit<A>, workbook: &Workbook, id: u32) -> bool
    requires { IsValid A.along.last edit.now.kind }
    ensures inside { result ≡ is_there_inside A.along (opposite_of edit.now.kind) (sheet_of workbook.now id) }
    ensures there { IsTrue result → IsTrue (is_some (sheet_of workbook.now id)) }
{
    is_there_inside(&edit.opposite(), workbook, id)
}

/// Whether each kept conditional rule may stand on a sheet.
fn each_stands(formattings: &IndexMap<ConditionalFormatting>) -> bool
    ensures { result ≡ each_stands formattings.now }
{
    formattings.iter().all(|(_place, formatting)| has_parts(formatting)
        && has_fitting_trees(formatting))
}

/// Whether the sheet of an id is there, and each kept conditional rule may stand on it in the place of one
/// of its rules.
#[tactic(auto, unfolding(crate::specs::LineDiffs::formattings_stand))]
fn formattings_stand(
    formattings: &IndexMap<ConditionalFormatting>,
    workbook: &Workbook,
    id: u32,
) -> bool
    ensures value { result ≡ formattings_stand formattings.now (sheet_of workbook.now id) }
    ensures lie { IsTrue result → KeptInside formattings.now }
{
    match sheet_of(workbook, id) {
        Some(sheet) => {
            let count = sheet.conditional_formatting().as_slice().len() as u64;
            are_there(formattings, count) && each_stands(formattings)
        }
        None => false,
    }
}

/// Whether what is kept may stand where it stood.
fn may_stand<A: Axis>(edit: &LineEdit<A>, id: u32, kept: &KeptLines, workbook: &Workbook) -> bool
    ensures value { result ≡ may_stand A.along id edit.now.kind kept.now workbook.now }
    ensures placed { IsTrue result → ArePlacedLines kept.now }
{
    cells_fit(&kept.cells)
        && formulas_stand(&PlaceAfter { edit, id }, &kept.formulas, workbook)
        && formattings_stand(&kept.formattings, workbook, id)
}

fn goes_back<A: Axis>(edit: &LineEdit<A>, id: u32, kept: &KeptLines, workbook: &Workbook) -> bool
    ensures value { result ≡ goes_back A.along id edit.now.kind kept.now workbook.now }
    ensures valid { IsTrue result → IsValid A.along.last edit.now.kind }
    ensures there { IsTrue result → IsTrue (is_some (sheet_of workbook.now id)) }
    ensures inside { IsTrue result → KeptLinesInside A.along kept.now }
    ensures placed { IsTrue result → ArePlacedLines kept.now }
{
    edit.is_valid()
        && is_there_inside_back(edit, workbook, id)
        && is_kept_inside(edit, kept)
        && may_stand(edit, id, kept, workbook)
}

/// Takes an edit of lines back, where it can be. `at` is the number of its diff.
#[tactic(auto, unfolding(crate::specs::LineDiffs::lines_back))]
pub(crate) fn lines_back<A: Axis>(
    alloc: Global,
    workbook: &mut Workbook,
    id: u32,
    edit: &LineEdit<A>,
    kept: &KeptLines,
    at: u64,
) -> Result<(), EditError>
    requires placed { IsPlacedBook workbook.old }
    requires numbers { AreCanonicalLines kept.now }
    ensures edits { Edits result workbook.old workbook.new (lines_back at A.along id edit.now.kind kept.now workbook.old) }
    ensures placed { OnOk result (IsPlacedBook workbook.new) }
{
    if !goes_back(edit, id, kept, workbook) {
        return Err(EditError::DiffRefused { entry: 0, diff: at });
    }
    *workbook = line_back(alloc, workbook, id, edit, kept)?;
    Ok(())
}
