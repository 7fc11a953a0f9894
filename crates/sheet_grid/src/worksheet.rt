ghost use Rattle.std.specs.Prelude.{◌≡◌, ◌≢◌, [], None, Ok, Err, IfOk, IfSome, All, map};
ghost use Rattle.std.specs.FinMap as fin;
ghost use Rattle.base_values.specs.Answers.{Returns, Changes};
ghost use Rattle.base_values.specs.declared.EditError.TheVariants.{NoMemory};
ghost use Rattle.base_values.specs.Places.{IsPlace};
ghost use Rattle.sheet_grid.specs.Dimension.{IsLeastRectangle, IsRectangle, first_place, extents_of};
ghost use Rattle.sheet_grid.specs.CanonicalCell.{IsCanonicalCell};
ghost use Rattle.sheet_grid.specs.Arrays.{large_arrays_of};
ghost use Rattle.sheet_grid.specs.Sheet.{Sheet, new_sheet, cell_at, cell_put};

mod contents;
mod entries;
mod fields;
mod formattings;
mod line_styles;
mod lines;
mod merges;
mod sizes;
mod styles;

use crate::cell::Cell;
use crate::cell_map::CellMap;
use crate::dimension::WorksheetDimension;
use crate::line_attr::LineAttr;
use crate::link::Link;
use crate::state::SheetState;
use base_axis::{AxisMap, ColumnAxis, MergeList, MergedCell, RowAxis};
use base_shared::Shared;
use base_styles::Color;
use base_values::{EditError, Exact, PlaceMap, Position, Text, copy_of, place_of};
use format_rules::RuleList;
use std::alloc::{AllocError, Global};
use std::collections::btree_map::Iter;
use std::marker::Model;
pub use styles::own_line_style;

/// One sheet of a workbook. Its numbers, those of its formulas and its conditional rules too, have at
/// most 15 digits on each side of the point, and no zero digit at the end of their places.
#[derive(PartialEq, Eq, Drop)]
pub struct Worksheet {
    id: u32,
    name: Text,
    state: SheetState,
    color: Color,
    show_grid_lines: bool,
    frozen_rows: i32,
    frozen_columns: i32,
    cells: CellMap,
    links: PlaceMap<Link>,
    rows: AxisMap<RowAxis, LineAttr>,
    columns: AxisMap<ColumnAxis, LineAttr>,
    merges: MergeList,
    formattings: RuleList,
}

impl Model for Worksheet {
    ghost use Rattle.sheet_grid.specs.Sheet.{Sheet};
    ghost use Rattle.std.specs.Coded.{codes};
    ghost use Rattle.std.specs.FinMap as fin;
    ghost use Rattle.base_values.specs.Places.{coded_position};
    ghost use Rattle.formula_tree.specs.contracts.node.Node as node;

    ghost Value = { Sheet };

    ghost coded = { Prim.hlevel (codes, coded_position, node.the_row.coded, fin.code) };

    ghost view = { λ s. record {
      id = s.id;
      name = s.name;
      state = s.state;
      color = s.color;
      show_grid_lines = s.show_grid_lines;
      frozen_rows = s.frozen_rows;
      frozen_columns = s.frozen_columns;
      cells = s.cells;
      links = s.links;
      rows = s.rows;
      columns = s.columns;
      merges = s.merges;
      formattings = s.formattings;
    } };

    ghost inverse = { λ s. record {
      id = s.id;
      name = s.name;
      state = s.state;
      color = s.color;
      show_grid_lines = s.show_grid_lines;
      frozen_rows = s.frozen_rows;
      frozen_columns = s.frozen_columns;
      cells = s.cells;
      links = s.links;
      rows = s.rows;
      columns = s.columns;
      merges = s.merges;
      formattings = s.formattings;
    } };
}

impl Worksheet {
    /// A visible sheet with grid lines and nothing else. `NoMemory` alone is an error.
    pub fn new(alloc: Global, id: u32, name: &str) -> Result<Worksheet, EditError>
        ensures { Returns result (Ok (new_sheet id name.now)) }
    {
        let name = Text::new(String::from_str(alloc, name)?);
        Ok(Worksheet::named(alloc, id, name))
    }

    fn named(alloc: Global, id: u32, name: Text) -> Worksheet
        ensures { result ≡ new_sheet id name }
    {
        Worksheet {
            id,
            name,
            state: SheetState::Visible,
            color: Color::None,
            show_grid_lines: true,
            frozen_rows: 0,
            frozen_columns: 0,
            cells: CellMap::new(alloc),
            links: PlaceMap::new(alloc),
            rows: AxisMap::new(alloc),
            columns: AxisMap::new(alloc),
            merges: MergeList::empty(alloc),
            formattings: RuleList::empty(alloc),
        }
    }

    /// The name of the sheet.
    pub fn get_name(&self) -> &str
        ensures { result.now ≡ self.now.name }
    {
        self.name.as_str()
    }

    /// The id of the sheet, which stays when sheets are moved.
    pub fn get_sheet_id(&self) -> u32
        ensures { result ≡ self.now.id }
    {
        self.id
    }

    /// Whether the sheet is shown.
    pub fn state(&self) -> SheetState
        ensures { result ≡ self.now.state }
    {
        self.state
    }

    /// The colour of the sheet's tab.
    pub fn color(&self) -> Color
        ensures { result ≡ self.now.color }
    {
        self.color
    }

    /// Whether grid lines are drawn.
    pub fn show_grid_lines(&self) -> bool
        ensures { result ≡ self.now.show_grid_lines }
    {
        self.show_grid_lines
    }

    /// How many rows stay at the top.
    pub fn frozen_rows(&self) -> i32
        ensures { result ≡ self.now.frozen_rows }
    {
        self.frozen_rows
    }

    /// How many columns stay at the left.
    pub fn frozen_columns(&self) -> i32
        ensures { result ≡ self.now.frozen_columns }
    {
        self.frozen_columns
    }

    /// The cells with their places, by row and then by column.
    pub fn cells(&self) -> Iter<'_, Position, Shared<Cell>>
        ensures entries { result ≡ fin.entries self.now.cells }
        ensures inside { All (λ entry. IsPlace entry.0) result }
    {
        self.cells.as_map().iter()
    }

    /// A copy of the cell at a row and a column, if there is one.
    ///
    /// `InvalidRow` where the row is outside the sheet, else `InvalidColumn` where the column is.
    pub fn cell(&self, row: i32, column: i32) -> Result<Option<Cell>, EditError>
        ensures found { Returns result (cell_at self.now row column) }
        ensures canonical { IfOk result (λ found. IfSome found IsCanonicalCell) }
    {
        let place = place_of(row, column)?;
        match self.cells.as_map().get(place) {
            Some(cell) => Ok(Some(copy_of(cell.get())?)),
            None => Ok(None),
        }
    }

    /// The cell at a row and a column, if there is one, held together with the sheet: it is not copied.
    ///
    /// `InvalidRow` where the row is outside the sheet, else `InvalidColumn` where the column is.
    pub fn shared_cell(&self, row: i32, column: i32) -> Result<Option<Shared<Cell>>, EditError>
        ensures found { Returns result (cell_at self.now row column) }
        ensures canonical { IfOk result (λ found. IfSome found IsCanonicalCell) }
    {
        let place = place_of(row, column)?;
        match self.cells.as_map().get(place) {
            Some(cell) => Ok(Some(copy_of(cell)?)),
            None => Ok(None),
        }
    }

    /// The places where arrays of more than one cell stand, by row and then by column, with the
    /// rectangles that they fill. It takes no memory, and looks at no other cell.
    pub fn large_arrays(&self) -> Iter<'_, Position, MergedCell>
        ensures { map (λ array. array.1) result ≡ large_arrays_of self.now }
    {
        self.cells.large_arrays()
    }

    /// The least rectangle that holds the cells, with or without content, and what arrays fill of
    /// the sheet; the first place of the sheet where there is no cell. It takes no memory.
    /// docs/MODEL.md has the rule.
    pub fn dimension(&self) -> WorksheetDimension
        ensures none { extents_of self.now.cells ≡ [] → result ≡ first_place }
        ensures least { extents_of self.now.cells ≢ [] → IsLeastRectangle (extents_of self.now.cells) result }
        ensures inside { IsRectangle result }
    {
        let mut cells = self.cells();
        match cells.next() {
            Some((place, cell)) => WorksheetDimension::of_cells(*place, cell.get(), cells),
            None => WorksheetDimension::of_place(Position { row: 1, column: 1 }),
        }
    }

    /// Sets the cell at a row and a column, or takes it away.
    ///
    /// `InvalidRow` where the row is outside the sheet, else `InvalidColumn` where the column is.
    /// To take a cell away needs no memory.
    pub fn put_cell(&mut self, row: i32, column: i32, entry: Option<Cell>) -> Result<(), EditError>
        requires { IfSome entry IsCanonicalCell }
        ensures put { Changes result self.old self.new (cell_put self.old row column entry) }
        ensures away { entry ≡ None → result ≢ Err NoMemory }
    {
        let _place = place_of(row, column)?;
        let entry = self.shared_entry(entry)?;
        self.put_shared_cell(row, column, entry)
    }

    fn shared_entry(&self, entry: Option<Cell>) -> Result<Option<Shared<Cell>>, EditError>
        ensures entry { Returns result (Ok entry) }
        ensures away { entry ≡ None → result ≡ Ok None }
    {
        match entry {
            Some(cell) => Ok(Some(Shared::new(self.name.allocator(), cell)?)),
            None => Ok(None),
        }
    }

    /// Sets the cell at a row and a column to one that others hold too, or takes it away.
    ///
    /// `InvalidRow` where the row is outside the sheet, else `InvalidColumn` where the column is.
    /// To take a cell away needs no memory.
    pub fn put_shared_cell(
        &mut self,
        row: i32,
        column: i32,
        entry: Option<Shared<Cell>>,
    ) -> Result<(), EditError>
        requires { IfSome entry IsCanonicalCell }
        ensures put { Changes result self.old self.new (cell_put self.old row column entry) }
        ensures away { entry ≡ None → result ≢ Err NoMemory }
    {
        let place = place_of(row, column)?;
        self.cells.put(place, entry)
    }
}

impl Worksheet {
    fn copied_places(&self) -> Result<(CellMap, PlaceMap<Link>), AllocError>
        ensures { IfOk result (λ copies. copies ≡ (self.now.cells, self.now.links)) }
    {
        let cells = self.cells.clone()?;
        let links = self.links.clone()?;
        Ok((cells, links))
    }

    fn copied_lines(
        &self,
    ) -> Result<(AxisMap<RowAxis, LineAttr>, AxisMap<ColumnAxis, LineAttr>), AllocError>
        ensures { IfOk result (λ copies. copies ≡ (self.now.rows, self.now.columns)) }
    {
        let rows = self.rows.clone()?;
        let columns = self.columns.clone()?;
        Ok((rows, columns))
    }

    fn copied_lists(&self) -> Result<(MergeList, RuleList), AllocError>
        ensures { IfOk result (λ copies. copies ≡ (self.now.merges, self.now.formattings)) }
    {
        let merges = self.merges.clone()?;
        let formattings = self.formattings.clone()?;
        Ok((merges, formattings))
    }
}

impl Clone for Worksheet {
    ghost is_clone = { λ s r. r ≡ s };

    fn clone(&self) -> Result<Worksheet, AllocError> {
        let name = self.name.clone()?;
        let (cells, links) = self.copied_places()?;
        let (rows, columns) = self.copied_lines()?;
        let (merges, formattings) = self.copied_lists()?;
        Ok(Worksheet {
            id: self.id,
            name,
            state: self.state,
            color: self.color,
            show_grid_lines: self.show_grid_lines,
            frozen_rows: self.frozen_rows,
            frozen_columns: self.frozen_columns,
            cells,
            links,
            rows,
            columns,
            merges,
            formattings,
        })
    }
}

impl Exact for Worksheet {
    ghost use Rattle.sheet_grid.specs.laws.SheetEquals.{worksheet_equals};

    ghost copies = { λ a b h. h };

    ghost equals = { worksheet_equals };
}
