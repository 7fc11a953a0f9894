//! Whether formulas stand where kept trees are put back.

ghost use Rattle.std.specs.Prelude.{◌≡◌};
ghost use Rattle.std.specs.Option.{option_copied};
ghost use Rattle.book_names.specs.RenameDiffs.{formulas_stand, is_formula, is_formula_at, tree_stands};

use base_maps::SheetPlaceMap;
use base_shared::Shared;
use base_values::{PlaceMap, Position};
use cell_content::{tree_fits_at, tree_of};
use formula_tree::Node;
use sheet_grid::{Cell, Workbook, Worksheet};
use sheet_ids::sheet_of;

/// Where the formula of each kept tree is sought.
pub trait FormulaPlace {
    ghost use Rattle.std.specs.Prelude.{Option};
    ghost use Rattle.base_values.specs.declared.Position.{Position};
    ghost use Rattle.sheet_grid.specs.Sheet.{Sheet};

    /// The place in a sheet, for a tree that is kept under a place, as definitions speak of it.
    ghost sought: { Self → Sheet → Position → Option Position };

    /// The place in a sheet, for a tree that is kept under a place.
    fn seek_in(&self, sheet: &Worksheet, place: Position) -> Option<Position>
        ensures { result ≡ sought self.now sheet.now place };
}

/// Where the tree stood.
pub(crate) struct OwnPlace;

impl FormulaPlace for OwnPlace {
    ghost use Rattle.book_names.specs.RenameDiffs.{own_place};

    ghost sought = { λ self. own_place };

    fn seek_in(&self, _sheet: &Worksheet, place: Position) -> Option<Position> {
        Some(place)
    }
}

/// Whether a cell is there, and its content is a formula.
fn is_formula(cell: Option<&Shared<Cell>>) -> bool
    ensures { result ≡ is_formula (option_copied cell.entry) }
{
    match cell {
        Some(cell) => tree_of(&cell.get().content).is_some(),
        None => false,
    }
}

fn is_formula_at(cells: &PlaceMap<Shared<Cell>>, place: Option<Position>) -> bool
    ensures { result ≡ is_formula_at cells.now place }
{
    match place {
        Some(place) => is_formula(cells.get(place)),
        None => false,
    }
}

/// Whether a kept tree fits its place, and a formula stands where one is sought for it.
#[tactic(auto, unfolding(crate::specs::RenameDiffs::tree_stands))]
fn tree_stands<P: FormulaPlace>(
    seek: &P,
    sheet: Option<&Worksheet>,
    place: Position,
    tree: &Node,
) -> bool
    ensures { result ≡ tree_stands (P.sought seek.now) (option_copied sheet.entry) place tree.now }
{
    match sheet {
        Some(sheet) => {
            tree_fits_at(place, tree) && is_formula_at(sheet.cell_map(), seek.seek_in(sheet, place))
        }
        None => false,
    }
}

/// Whether each kept tree of a cell fits its place, its sheet is there, and a formula stands where one
/// is sought for it.
#[tactic(auto, unfolding(crate::specs::RenameDiffs::formulas_stand))]
pub fn formulas_stand<P: FormulaPlace>(
    seek: &P,
    formulas: &SheetPlaceMap<Shared<Node>>,
    workbook: &Workbook,
) -> bool
    ensures { result ≡ formulas_stand (P.sought seek.now) formulas.now workbook.now }
{
    formulas.iter().all(|(key, tree)| tree_stands(
        seek,
        sheet_of(workbook, key.sheet),
        key.place,
        tree.get(),
    ))
}
