ghost use Rattle.std.specs.Prelude.{◌≡◌};
ghost use Rattle.sheet_grid.specs.Sheet.{only_cells};

use crate::cell::Cell;
use crate::line_attr::LineAttr;
use crate::link::Link;
use base_axis::{AxisMap, ColumnAxis, MergeList, RowAxis};
use base_shared::Shared;
use base_values::PlaceMap;
use format_rules::RuleList;
use std::alloc::Global;

/// What a sheet holds at places, rows and columns, with its merges and conditional rules.
#[derive(Drop)]
pub struct SheetEntries {
    pub cells: PlaceMap<Shared<Cell>>,
    pub links: PlaceMap<Link>,
    pub rows: AxisMap<RowAxis, LineAttr>,
    pub columns: AxisMap<ColumnAxis, LineAttr>,
    pub merges: MergeList,
    pub formattings: RuleList,
}

impl SheetEntries {
    /// Cells, and nothing else.
    pub fn of_cells(alloc: Global, cells: PlaceMap<Shared<Cell>>) -> SheetEntries
        ensures { result ≡ only_cells cells }
    {
        SheetEntries {
            cells,
            links: PlaceMap::new(alloc),
            rows: AxisMap::new(alloc),
            columns: AxisMap::new(alloc),
            merges: MergeList::empty(alloc),
            formattings: RuleList::empty(alloc),
        }
    }
}
