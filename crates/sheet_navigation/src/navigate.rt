ghost use Rattle.std.specs.Prelude.{◌≡◌, ◌||◌, ℤ, true, Result};
ghost use Rattle.base_values.specs.declared.EditError.{EditError};
ghost use Rattle.base_values.specs.Places.{IsPlace};
ghost use Rattle.base_axis.specs.Rectangles.{IsInside, holds};
ghost use Rattle.sheet_navigation.specs.declared.direction.NavigationDirection.{NavigationDirection};
ghost use Rattle.sheet_navigation.specs.Navigated.{MergesInside, far_edge, walk_start, shows_nothing, first_filled, last_filled, navigated};
ghost use Rattle.sheet_navigation.specs.Walk.{walk};

use crate::direction::NavigationDirection;
use crate::walk::{next_place, steps_left};
use base_axis::MergedCell;
use base_values::{EditError, Position, place_of};
use sheet_grid::Worksheet;

/// The place at the far edge of a merge that holds a place, across from it.
fn far_edge(direction: NavigationDirection, merge: MergedCell, place: Position) -> Position
    requires merge { IsInside merge }
    requires place { holds merge place ≡ true }
    ensures value { result ≡ far_edge direction merge place }
    ensures inside { IsPlace result }
{
    let (row, column) = (place.row, place.column);
    match direction {
        NavigationDirection::Left => Position {
            row,
            column: merge.column,
        },
        NavigationDirection::Right => Position {
            row,
            column: merge.column + (merge.width - 1),
        },
        NavigationDirection::Up => Position {
            row: merge.row,
            column,
        },
        NavigationDirection::Down => Position {
            row: merge.row + (merge.height - 1),
            column,
        },
    }
}

/// Where the walk from a place begins.
fn walk_start(sheet: &Worksheet, direction: NavigationDirection, place: Position) -> Position
    requires merges { MergesInside sheet.now }
    requires place { IsPlace place }
    ensures value { result ≡ walk_start sheet.now direction place }
    ensures inside { IsPlace result }
{
    match sheet.merged_cell_containing(place.row, place.column) {
        Some(merge) => far_edge(direction, merge, place),
        None => place,
    }
}

/// Whether the cell that shows at a place has no content.
fn shows_nothing(sheet: &Worksheet, place: Position) -> bool
    requires merges { MergesInside sheet.now }
    requires place { IsPlace place }
    ensures { result ≡ shows_nothing sheet.now place }
{
    // An anchor is a place of the sheet, so this is no refusal.
    let (row, column) = sheet.merge_anchor(place.row, place.column);
    sheet.is_empty_cell(row, column).unwrap_or(true)
}

/// Whether a start shows nothing, or its neighbour.
fn is_beside_nothing(sheet: &Worksheet, start: Position, next: Position) -> bool
    requires merges { MergesInside sheet.now }
    requires start { IsPlace start }
    requires next { IsPlace next }
    ensures { result ≡ (shows_nothing sheet.now start || shows_nothing sheet.now next) }
{
    shows_nothing(sheet, start) || shows_nothing(sheet, next)
}

/// The first place behind a start that is not empty, else the last one up to the sheet's edge.
fn first_filled(sheet: &Worksheet, direction: NavigationDirection, start: Position) -> Position
    requires merges { MergesInside sheet.now }
    requires place { IsPlace start }
    ensures { result ≡ first_filled (shows_nothing sheet.now) start (walk direction start) }
{
    let mut place = start;
    'walk: while steps_left(direction, place) > 0 {
        place = next_place(direction, place);
        if !shows_nothing(sheet, place) {
            return place;
        }
    }
    place
}

/// The last place behind a start before the first empty one.
fn last_filled(sheet: &Worksheet, direction: NavigationDirection, start: Position) -> Position
    requires merges { MergesInside sheet.now }
    requires place { IsPlace start }
    ensures { result ≡ last_filled (shows_nothing sheet.now) start (walk direction start) }
{
    let mut place = start;
    'walk: while steps_left(direction, place) > 0 {
        let next = next_place(direction, place);
        if shows_nothing(sheet, next) {
            return place;
        }
        place = next;
    }
    place
}

/// Where navigation goes from a place.
fn navigated(sheet: &Worksheet, direction: NavigationDirection, place: Position) -> Position
    requires merges { MergesInside sheet.now }
    requires place { IsPlace place }
    ensures { result ≡ navigated sheet.now direction place }
{
    let start = walk_start(sheet, direction, place);
    if steps_left(direction, start) == 0 {
        return start;
    }
    if is_beside_nothing(sheet, start, next_place(direction, start)) {
        first_filled(sheet, direction, start)
    } else {
        last_filled(sheet, direction, start)
    }
}

/// Sheets on which a cursor goes from edge to edge.
pub trait Navigate {
    /// Its merges are inside.
    ghost MergesInside: { Self → Type 0 };

    ghost navigated_at: { Self → ℤ → ℤ → NavigationDirection → Result (ℤ × ℤ) EditError };

    /// The row and the column at which a cursor arrives that goes from a row and a column to the edge
    /// in a direction. Each call asks that the merges of the sheet are inside it. It takes no memory.
    ///
    /// From a place of a merge it goes first to the far edge of that merge, and a place is as empty as
    /// the first place of the merge that holds it. From an empty place, or beside an empty
    /// neighbour, it goes to the first place that is not empty, or to the sheet's edge; from any other
    /// place to the last one that is not empty before an empty one. docs/MODEL.md has the rule.
    ///
    /// `InvalidRow` where the row is outside the sheet, else `InvalidColumn` where the column is.
    fn navigate_to_edge_in_direction(
        &self,
        row: i32,
        column: i32,
        direction: NavigationDirection,
    ) -> Result<(i32, i32), EditError>
        requires { MergesInside self.now }
        ensures { result ≡ navigated_at self.now row column direction };
}

impl Navigate for Worksheet {
    ghost use Rattle.sheet_navigation.specs.Navigated.{navigated_at};

    ghost MergesInside = { MergesInside };

    ghost navigated_at = { navigated_at };

    fn navigate_to_edge_in_direction(
        &self,
        row: i32,
        column: i32,
        direction: NavigationDirection,
    ) -> Result<(i32, i32), EditError> {
        let place = place_of(row, column)?;
        let reached = navigated(self, direction, place);
        Ok((reached.row, reached.column))
    }
}
