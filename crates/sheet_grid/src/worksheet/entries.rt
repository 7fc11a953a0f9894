//! All that a sheet holds at places, rows and columns, as whole maps.

ghost use Rattle.std.specs.Prelude.{◌≡◌, Ok, IfOk, IsOkUnless};
ghost use Rattle.std.specs.FinMap as fin;
ghost use Rattle.base_values.specs.Answers.{Returns};
ghost use Rattle.base_values.specs.declared.EditError.TheVariants.{NoMemory};
ghost use Rattle.sheet_grid.specs.CanonicalCell.{CanonicalCells};
ghost use Rattle.sheet_grid.specs.Sheet.{with_entries};

use super::Worksheet;
use crate::cell::Cell;
use crate::cell_map::CellMap;
use crate::line_attr::LineAttr;
use crate::link::Link;
use crate::sheet_entries::SheetEntries;
use base_axis::{AxisMap, ColumnAxis, RowAxis};
use base_shared::Shared;
use base_values::{EditError, Items, PlaceMap, Position, copy_of};

impl Worksheet {
    /// The cells by their places.
    pub fn cell_map(&self) -> &PlaceMap<Shared<Cell>>
        ensures map { result.now ≡ self.now.cells }
        ensures canonical { CanonicalCells result.now }
    {
        self.cells.as_map()
    }

    /// The links by their places.
    pub fn link_map(&self) -> &PlaceMap<Link>
        ensures { result.now ≡ self.now.links }
    {
        &self.links
    }

    /// What rows have of their own.
    pub fn row_map(&self) -> &AxisMap<RowAxis, LineAttr>
        ensures { result.now ≡ self.now.rows }
    {
        &self.rows
    }

    /// What columns have of their own.
    pub fn column_map(&self) -> &AxisMap<ColumnAxis, LineAttr>
        ensures { result.now ≡ self.now.columns }
    {
        &self.columns
    }

    /// The places of the cells, by row and then by column. `NoMemory` alone is an error.
    pub fn cell_keys(&self) -> Result<Items<Position>, EditError>
        ensures { Returns result (Ok (fin.keys self.now.cells)) }
    {
        self.cells.as_map().keys(self.name.allocator())
    }

    /// The places of the links, by row and then by column. `NoMemory` alone is an error.
    pub fn link_keys(&self) -> Result<Items<Position>, EditError>
        ensures { Returns result (Ok (fin.keys self.now.links)) }
    {
        self.links.keys(self.name.allocator())
    }

    /// The rows that have something of their own, in ascending order. `NoMemory` alone is an error.
    pub fn row_keys(&self) -> Result<Items<i32>, EditError>
        ensures { Returns result (Ok (fin.keys self.now.rows)) }
    {
        self.rows.keys(self.name.allocator())
    }

    /// The columns that have something of their own, in ascending order. `NoMemory` alone is an
    /// error.
    pub fn column_keys(&self) -> Result<Items<i32>, EditError>
        ensures { Returns result (Ok (fin.keys self.now.columns)) }
    {
        self.columns.keys(self.name.allocator())
    }

    /// A copy of the sheet that holds these entries in place of its own. The arrays among the cells
    /// are found in one pass. `NoMemory` alone is an error.
    pub fn with_entries(&self, entries: SheetEntries) -> Result<Worksheet, EditError>
        requires { CanonicalCells entries.cells }
        ensures sheet { IfOk result (λ sheet. sheet ≡ with_entries self.now entries) }
        ensures only { IsOkUnless result NoMemory }
    {
        let alloc = self.name.allocator();
        Ok(Worksheet {
            id: self.id,
            name: copy_of(&self.name)?,
            state: self.state,
            color: self.color,
            show_grid_lines: self.show_grid_lines,
            frozen_rows: self.frozen_rows,
            frozen_columns: self.frozen_columns,
            cells: CellMap::from_cells(alloc, entries.cells)?,
            links: entries.links,
            rows: entries.rows,
            columns: entries.columns,
            merges: entries.merges,
            formattings: entries.formattings,
        })
    }
}
