ghost use Rattle.std.specs.Prelude.{◌≡◌, [], ◌∷◌, ◌++◌, List, map};
ghost use Rattle.sheet_grid.specs.Dimension.{reached, extent_of, IsLeastRectangle};
ghost use Rattle.sheet_grid.specs.declared.dimension.WorksheetDimension.{WorksheetDimension};

use crate::arrays::array_at;
use crate::cell::Cell;
use base_shared::Shared;
use base_values::{Exact, LAST_COLUMN, LAST_ROW, Position};
use std::collections::btree_map::Iter;

/// A rectangle of places of a sheet, by its first and last row and column, each counted from 1.
#[derive(Clone, Copy, Debug, PartialEq, Eq)]
pub struct WorksheetDimension {
    pub min_row: i32,
    pub max_row: i32,
    pub min_column: i32,
    pub max_column: i32,
}

/// The line that so many lines reach, and no further than the last of the axis. Fewer than one count
/// as one.
fn reached(last: i32, first: i32, count: i32) -> i32
    ensures { result ≡ reached last first count }
{
    if count <= 1 {
        return first;
    }
    let end = i64::from(first) + (i64::from(count) - 1);
    if end < i64::from(last) {
        end as i32
    } else {
        last
    }
}

impl WorksheetDimension {
    /// The rectangle of one place alone.
    pub(crate) fn of_place(place: Position) -> WorksheetDimension
        ensures { result ≡ record { min_row = place.row; max_row = place.row; min_column = place.column; max_column = place.column } }
    {
        WorksheetDimension {
            min_row: place.row,
            max_row: place.row,
            min_column: place.column,
            max_column: place.column,
        }
    }

    /// The part of a sheet that a cell takes at a place: the place, and of an array what it fills.
    fn of_cell(place: Position, cell: &Cell) -> WorksheetDimension
        ensures { result ≡ extent_of (place, cell.now) }
    {
        match array_at(place, &cell.content) {
            Some(array) => WorksheetDimension {
                min_row: place.row,
                max_row: reached(LAST_ROW, place.row, array.height),
                min_column: place.column,
                max_column: reached(LAST_COLUMN, place.column, array.width),
            },
            None => WorksheetDimension::of_place(place),
        }
    }

    /// The least rectangle that holds this one and another.
    fn with(self, other: WorksheetDimension) -> WorksheetDimension
        ensures { (extents : List WorksheetDimension) → IsLeastRectangle extents self → IsLeastRectangle (extents ++ other ∷ []) result }
    {
        WorksheetDimension {
            min_row: self.min_row.min(other.min_row),
            max_row: self.max_row.max(other.max_row),
            min_column: self.min_column.min(other.min_column),
            max_column: self.max_column.max(other.max_column),
        }
    }

    /// The least rectangle that holds what a cell takes at a place and what others take.
    pub(crate) fn of_cells(
        place: Position,
        cell: &Cell,
        rest: Iter<'_, Position, Shared<Cell>>,
    ) -> WorksheetDimension
        ensures { IsLeastRectangle (extent_of (place, cell.now) ∷ map extent_of rest.entry) result }
    {
        let mut found = WorksheetDimension::of_cell(place, cell);
        for (place, cell) in rest {
            found = found.with(WorksheetDimension::of_cell(*place, cell.get()));
        }
        found
    }
}

impl Exact for WorksheetDimension {
    ghost use Rattle.std.proofs.Common.{rules};
    ghost use Rattle.sheet_grid.specs.laws.DimensionEquals.{dimension_equals};

    ghost copies = { λ a b h. Prim.search rules };

    ghost equals = { dimension_equals };
}
