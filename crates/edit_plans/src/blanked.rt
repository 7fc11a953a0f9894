//! Cells that a rectangle covers, without their contents.

ghost use Rattle.std.specs.Prelude.{◌≡◌, ◌++◌, Ok, IfOk, IfSome, OnOk, IsOkUnless};
ghost use Rattle.base_values.specs.Answers.{Returns};
ghost use Rattle.base_values.specs.declared.EditError.TheVariants.{NoMemory};
ghost use Rattle.sheet_grid.specs.CanonicalCell.{IsCanonicalCell};
ghost use Rattle.sheet_grid.specs.Merges.{is_empty};
ghost use Rattle.sheet_history.specs.Diffs.{IsCanonicalDiff, IsCanonicalList};
ghost use Rattle.sheet_rules.specs.Occupied.{covers};
ghost use Rattle.edit_plans.specs.Blanked.{blank_cell, loses};
ghost use Rattle.edit_plans.specs.laws.EditRecords.{blank_diff, blank_diffs};

use crate::push_diff;
use base_axis::MergedCell;
use base_shared::Shared;
use base_values::{EditError, Items, Position, copy_of};
use cell_content::Content;
use sheet_grid::{Cell, Worksheet};
use sheet_history::Diff;
use std::alloc::Global;

/// Whether a place is one of a rectangle's places, and not its first.
fn covers(area: MergedCell, place: Position) -> bool
    ensures { result ≡ covers area place }
{
    area.holds(place) && area.anchor_place() != place
}

/// Whether a content is no content.
pub(crate) fn is_empty(content: &Content) -> bool
    ensures { result ≡ is_empty content.now }
{
    matches!(content, Content::Empty)
}

/// Whether a rectangle takes the content of a cell away.
fn loses(area: MergedCell, place: Position, cell: &Cell) -> bool
    ensures { result ≡ loses area place cell.now }
{
    covers(area, place) && !is_empty(&cell.content)
}

/// A cell without its content. It holds the style together with the cell.
fn blank_cell(alloc: Global, cell: &Cell) -> Result<Shared<Cell>, EditError>
    ensures output { Returns result (Ok (blank_cell cell.now)) }
    ensures canonical { IfOk result IsCanonicalCell }
{
    let style = copy_of(&cell.style)?;
    let content = Content::Empty;
    Ok(Shared::new(alloc, Cell { content, style })?)
}

/// The diff of a cell, if it loses its content.
fn blank_diff(
    alloc: Global,
    sheet: u32,
    area: MergedCell,
    position: Position,
    cell: &Shared<Cell>,
) -> Result<Option<Diff>, EditError>
    requires { IsCanonicalCell cell.now }
    ensures output { IfOk result (λ diff. diff ≡ blank_diff sheet area (position, cell.now)) }
    ensures canonical { IfOk result (λ diff. IfSome diff IsCanonicalDiff) }
    ensures only { IsOkUnless result NoMemory }
{
    if !loses(area, position, cell.get()) {
        return Ok(None);
    }
    let new = blank_cell(alloc, cell.get())?;
    Ok(Some(Diff::Cell {
        sheet,
        position,
        old: Some(copy_of(cell)?),
        new: Some(new),
    }))
}

/// Puts the diffs of the cells of a sheet that a rectangle covers and that lose their contents, by
/// place, behind others. It goes over the cells that the sheet has. `NoMemory` alone is an error.
pub(crate) fn push_blank_diffs(
    alloc: Global,
    sheet: &Worksheet,
    area: MergedCell,
    list: &mut Items<Diff>,
) -> Result<(), EditError>
    requires { IsCanonicalList list.old }
    ensures output { OnOk result (list.new ≡ list.old ++ blank_diffs area sheet.now) }
    ensures canonical { OnOk result (IsCanonicalList list.new) }
    ensures only { IsOkUnless result NoMemory }
{
    let id = sheet.get_sheet_id();
    let cells = sheet.cell_map();
    for (place, cell) in cells.iter() {
        let diff = blank_diff(alloc, id, area, *place, cell)?;
        push_diff(list, diff)?;
    }
    Ok(())
}
