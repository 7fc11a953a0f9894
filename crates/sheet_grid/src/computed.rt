ghost use Rattle.std.specs.Prelude.{◌≡◌, ◌≢◌, ◌≤ℤ◌, pos, None, Ok, Err};
ghost use Rattle.std.specs.Option.{option_map};
ghost use Rattle.base_values.specs.Answers.{Changes};
ghost use Rattle.cell_content.specs.Lens.{tree_of};
ghost use Rattle.sheet_grid.specs.Computed.{no_values, value_put, value_at};

use base_maps::{SheetPlace, SheetPlaceMap};
use base_values::{EditError, Exact, Position};
use cell_content::Content;
use std::alloc::Global;
use std::marker::Model;

/// A computed value: what the cell at its place shows, and how far it fills the cells to the right
/// and below.
#[derive(Clone, PartialEq, Eq, Drop)]
pub struct ComputedValue {
    pub content: Content,
    /// How many columns it takes, its own counted.
    pub width: i32,
    /// How many rows it takes, its own counted.
    pub height: i32,
}

impl Exact for ComputedValue {
    ghost use Rattle.std.proofs.Common.{rules};
    ghost use Rattle.sheet_grid.specs.laws.ComputedEquals.{computed_equals};

    ghost copies = { λ a b h. Prim.search rules };

    ghost equals = { computed_equals };
}

/// The values that a recalculation gives the cells of a workbook, by the ids of their sheets and
/// their positions. They are no part of the workbook.
#[derive(Clone, PartialEq, Eq, Drop)]
pub struct Computed {
    values: SheetPlaceMap<ComputedValue>,
}

impl Model for Computed {
    ghost use Rattle.std.specs.Coded.{codes};
    ghost use Rattle.std.specs.FinMap as fin;
    ghost use Rattle.base_maps.specs.SheetPlaces.{coded_sheet_place};
    ghost use Rattle.formula_tree.specs.contracts.node.Node as node;
    ghost use Rattle.sheet_grid.specs.Computed.{Values};

    ghost Value = { Values };

    ghost coded = { Prim.hlevel (codes, coded_sheet_place, node.the_row.coded, fin.code) };

    ghost view = { λ computed. computed.values };

    ghost inverse = { λ values. record { values = values } };
}

impl Computed {
    /// No value. It takes no memory.
    pub fn new(alloc: Global) -> Computed
        ensures { result ≡ no_values }
    {
        Computed {
            values: SheetPlaceMap::new(alloc),
        }
    }

    /// Gives the position at a row and a column of the sheet of an id a value, in place of the one
    /// that it had. The content has no formula, and each side is 1 or more.
    ///
    /// The only error is `NoMemory`, and nothing has changed then.
    pub fn put(
        &mut self,
        sheet_id: u32,
        row: i32,
        column: i32,
        content: Content,
        width: i32,
        height: i32,
    ) -> Result<(), EditError>
        requires value { tree_of content ≡ None }
        requires wide { pos 1 ≤ℤ width }
        requires high { pos 1 ≤ℤ height }
        ensures put { Changes result self.old self.new (Ok (value_put sheet_id row column (record { content = content; width = width; height = height }) self.old)) }
    {
        let key = SheetPlace {
            sheet: sheet_id,
            place: Position { row, column },
        };
        let value = ComputedValue {
            content,
            width,
            height,
        };
        self.values.put(key, Some(value))
    }

    /// The value at a row and a column of the sheet of an id, and how many columns wide and rows
    /// high it is; none where there is none. It takes no memory.
    pub fn value(&self, sheet_id: u32, row: i32, column: i32) -> Option<(&Content, i32, i32)>
        ensures { option_map (λ found. record { content = found.0.now; width = found.1; height = found.2 }) result ≡ value_at sheet_id row column self.now }
    {
        let key = SheetPlace {
            sheet: sheet_id,
            place: Position { row, column },
        };
        match self.values.get(key) {
            Some(found) => Some((&found.content, found.width, found.height)),
            None => None,
        }
    }
}
