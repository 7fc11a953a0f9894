//! The input of a content at a place.

ghost use Rattle.std.specs.Prelude.{◌≡◌, ◌≢◌, [], Ok, Err, None, IfOk, IfSome, IsOkUnless};
ghost use Rattle.std.specs.List.{cons_option};
ghost use Rattle.std.specs.FinMap as fin;
ghost use Rattle.base_values.specs.Answers.{Returns};
ghost use Rattle.base_values.specs.declared.EditError.TheVariants.{NoMemory};
ghost use Rattle.base_values.specs.Places.{place_of};
ghost use Rattle.cell_content.specs.CanonicalContent.{IsCanonicalContent};
ghost use Rattle.sheet_grid.specs.CanonicalCell.{IsCanonicalCell};
ghost use Rattle.sheet_grid.specs.Merges.{is_covered, is_empty};
ghost use Rattle.sheet_rules.specs.WellFormed.{IsWellFormed};
ghost use Rattle.sheet_history.specs.Diffs.{IsCanonicalDiff, IsCanonicalList};
ghost use Rattle.edit_plans.specs.Plans.{Plans};
ghost use Rattle.edit_plans.specs.Inputs.{IsInput, entered, free_place, input_place, input_put};
ghost use Rattle.edit_plans.specs.laws.EditRecords.{cell_record, height_record, link_record, input_record};

use crate::blanked::is_empty;
use crate::link::link_change;
use crate::{cell_diff, list_of_three, raised_diff};
use base_shared::Shared;
use base_styles::Style;
use base_values::{EditError, Position, copy_of, place_of};
use line_sizes::needed_height;
use sheet_grid::{Cell, Content, DefaultStyle, Workbook, Worksheet};
use sheet_history::{Diff, DiffList};
use sheet_rules::array_over;
use std::alloc::Global;

/// Whether a merge covers a place.
fn is_covered(sheet: &Worksheet, place: Position) -> bool
    ensures { result ≡ is_covered sheet.now.merges place }
{
    sheet.is_covered_cell(place.row, place.column)
}

/// The place, if an input may go to it. It takes no memory.
///
/// `CoveredCell` where a merge covers the place, else `ArrayCell` where an array of more than one
/// cell holds it.
pub fn free_place(sheet: &Worksheet, place: Position) -> Result<Position, EditError>
    ensures free { result ≡ free_place sheet.now place }
    ensures same { IfOk result (λ found. found ≡ place) }
    ensures sure { result ≢ Err NoMemory }
{
    if is_covered(sheet, place) {
        return Err(EditError::CoveredCell);
    }
    if array_over(sheet, place).is_some() {
        return Err(EditError::ArrayCell);
    }
    Ok(place)
}

/// The place at a row and a column of a sheet, where an input may go. It takes no memory.
fn input_place(sheet: &Worksheet, row: i32, column: i32) -> Result<Position, EditError>
    ensures { result ≡ input_place sheet.now row column }
{
    free_place(sheet, place_of(row, column)?)
}

/// The cell after the input of a content: it has the style that its place shows. An empty input
/// where there is no cell makes none.
fn entered(
    alloc: Global,
    old: &Option<Shared<Cell>>,
    content: Content,
    style: &Shared<Style>,
) -> Result<Option<Shared<Cell>>, EditError>
    requires { IsCanonicalContent content }
    ensures output { Returns result (Ok (entered old.now content style.now)) }
    ensures canonical { IfOk result (λ new. IfSome new IsCanonicalCell) }
{
    if old.is_none() {
        if let Content::Empty = content {
            return Ok(None);
        }
    }
    let style = copy_of(style)?;
    Ok(Some(Shared::new(alloc, Cell { content, style })?))
}

/// The diff of the cell at a place that gets a content, or none where it stays.
pub(crate) fn cell_change(
    alloc: Global,
    default: &DefaultStyle,
    sheet: &Worksheet,
    place: Position,
    content: Content,
) -> Result<Option<Diff>, EditError>
    requires place { place_of place.row place.column ≡ Ok place }
    requires canonical { IsCanonicalContent content }
    ensures output { IfOk result (λ diff. cons_option diff [] ≡ cell_record content sheet.now place) }
    ensures canonical { IfOk result (λ diff. IfSome diff IsCanonicalDiff) }
    ensures only { IsOkUnless result NoMemory }
{
    let old = sheet.shared_cell(place.row, place.column)?;
    let style = sheet.shown_style(place.row, place.column, default)?;
    let new = entered(alloc, &old, content, style)?;
    Ok(cell_diff(sheet.get_sheet_id(), place, old, new))
}

/// The diff of the link at a place that gets a content, or none where it stays: an empty input
/// takes it away.
fn link_left(
    sheet: &Worksheet,
    place: Position,
    content: &Content,
) -> Result<Option<Diff>, EditError>
    requires { place_of place.row place.column ≡ Ok place }
    ensures output { IfOk result (λ diff. cons_option diff [] ≡ link_record content.now sheet.now place) }
    ensures canonical { IfOk result (λ diff. IfSome diff IsCanonicalDiff) }
    ensures only { IsOkUnless result NoMemory }
{
    if !is_empty(content) {
        return Ok(None);
    }
    link_change(sheet, place, None)
}

/// The diff of the row of a place that gets a text of so many line feeds, or none where the row stays.
fn height_change(
    default: &DefaultStyle,
    sheet: &Worksheet,
    place: Position,
    feeds: u64,
) -> Result<Option<Diff>, EditError>
    requires { place_of place.row place.column ≡ Ok place }
    ensures output { IfOk result (λ diff. cons_option diff [] ≡ height_record feeds sheet.now place) }
    ensures canonical { IfOk result (λ diff. IfSome diff IsCanonicalDiff) }
    ensures only { IsOkUnless result NoMemory }
{
    let style = sheet.shown_style(place.row, place.column, default)?;
    let needed = needed_height(feeds, style.get().font.sz);
    raised_diff(sheet, place.row, needed)
}

/// The record of an input that goes to a place.
fn input_list(
    alloc: Global,
    default: &DefaultStyle,
    sheet: &Worksheet,
    place: Position,
    content: Content,
    feeds: u64,
) -> Result<DiffList, EditError>
    requires place { place_of place.row place.column ≡ Ok place }
    requires canonical { IsCanonicalContent content }
    ensures output { IfOk result (λ list. list ≡ input_record content feeds sheet.now place) }
    ensures canonical { IfOk result IsCanonicalList }
    ensures only { IsOkUnless result NoMemory }
{
    let link = link_left(sheet, place, &content)?;
    let cell = cell_change(alloc, default, sheet, place, content)?;
    let height = height_change(default, sheet, place, feeds)?;
    list_of_three(alloc, cell, link, height)
}

/// The record of the input of a content, whose text has so many line feeds, at a row and a column of the
/// sheet at an index: the change of the cell, where the content is empty that of the link, and that of
/// the row's height, each only where it changes. A present cell keeps its style, a new one has the style
/// that its place shows. The height that the text asks for in the size of that font becomes the row's,
/// where it is greater than the row's, which may be hidden (docs/MODEL.md). Nothing is changed.
///
/// `InvalidSheet` where there is no such sheet, else `InvalidRow` where the row is outside the
/// sheet, else `InvalidColumn` where the column is, else `CoveredCell` where a merge covers the
/// place, else `ArrayCell` where an array of more than one cell holds it. Then `NoMemory` is
/// possible.
pub fn plan_input(
    alloc: Global,
    default: &DefaultStyle,
    workbook: &Workbook,
    sheet: u32,
    row: i32,
    column: i32,
    content: Content,
    feeds: u64,
) -> Result<DiffList, EditError>
    requires rules { IsWellFormed workbook.now }
    requires canonical { IsCanonicalContent content }
    requires input { IsInput row column content }
    ensures planned { Plans result workbook.now (input_put sheet row column content feeds workbook.now) }
{
    let found = workbook.worksheet(sheet)?;
    let place = input_place(found, row, column)?;
    input_list(alloc, default, found, place, content, feeds)
}
