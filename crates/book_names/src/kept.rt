//! What the opposite renaming does not give back of a workbook.

ghost use Rattle.std.specs.Prelude.{◌≡◌, IfOk, IsOkUnless, OnOk, Some};
ghost use Rattle.base_values.specs.declared.EditError.TheVariants.{NoMemory};
ghost use Rattle.base_maps.specs.Carried.{entry_made};
ghost use Rattle.base_maps.specs.laws.Gathering.{with_made};
ghost use Rattle.sheet_lines.specs.Back.{AreCanonicalFormulas};
ghost use Rattle.book_names.specs.Renaming.{AreCanonicalTrees, cell_kept, cells_kept, formulas_kept, trees_kept};

use crate::kept_rules::kept_formattings;
use crate::kept_trees::KeptTrees;
use crate::names::kept_names;
use crate::reaching::{Everywhere, SheetReach};
use base_maps::{PositionMap, SheetPlaceMap};
use base_shared::Shared;
use base_values::{EditError, PlaceMap, Position};
use cell_content::tree_of;
use formula_names::{Reach, kept_tree};
use formula_tree::Node;
use sheet_grid::{Cell, Workbook, Worksheet};
use std::alloc::Global;

/// The tree of a cell, where the opposite renaming does not give it.
fn kept_of_cell(
    cell: &Shared<Cell>,
    there: Reach,
    back: Reach,
    old: &str,
    new: &str,
) -> Result<Option<Shared<Node>>, EditError>
    ensures kept { IfOk result (λ kept. kept ≡ cell_kept there back old.now new.now cell.now) }
    ensures only { IsOkUnless result NoMemory }
{
    match tree_of(&cell.get().content) {
        Some(tree) => kept_tree(tree, there, back, old, new),
        None => Ok(None),
    }
}

/// Keeps the tree of a cell under its place, where the opposite renaming does not give it.
fn keep_cell(
    kept: &mut PositionMap<Shared<Node>>,
    place: Position,
    cell: &Shared<Cell>,
    there: Reach,
    back: Reach,
    old: &str,
    new: &str,
) -> Result<(), EditError>
    ensures kept { OnOk result (kept.new ≡ with_made (entry_made Some (λ _ _ x. cell_kept there back old.now new.now x) (place, cell.now)) kept.old) }
    ensures only { IsOkUnless result NoMemory }
{
    if let Some(tree) = kept_of_cell(cell, there, back, old, new)? {
        let _before = kept.insert(place, tree)?;
    }
    Ok(())
}

/// The trees of the cells of a sheet that the opposite renaming does not give, under their places.
fn kept_of_cells(
    alloc: Global,
    cells: &PlaceMap<Shared<Cell>>,
    there: Reach,
    back: Reach,
    old: &str,
    new: &str,
) -> Result<PositionMap<Shared<Node>>, EditError>
    ensures kept { IfOk result (λ kept. kept ≡ cells_kept there back old.now new.now cells.now) }
    ensures only { IsOkUnless result NoMemory }
{
    let mut kept = PositionMap::new(alloc);
    for (place, cell) in cells.iter() {
        keep_cell(&mut kept, *place, cell, there, back, old, new)?;
    }
    Ok(kept)
}

/// Those of one sheet, whose numbers are canonical.
fn kept_of_sheet(
    alloc: Global,
    sheet: &Worksheet,
    there: Reach,
    back: Reach,
    old: &str,
    new: &str,
) -> Result<PositionMap<Shared<Node>>, EditError>
    ensures kept { IfOk result (λ kept. kept ≡ cells_kept there back old.now new.now sheet.now.cells) }
    ensures numbers { IfOk result AreCanonicalFormulas }
    ensures only { IsOkUnless result NoMemory }
{
    kept_of_cells(alloc, sheet.cell_map(), there, back, old, new)
}

/// What is kept of one sheet. The two renamings reach there what `reach_in` gives for its id.
fn kept_where_reached<T: SheetReach, B: SheetReach>(
    alloc: Global,
    sheet: &Worksheet,
    there: &T,
    back: &B,
    old: &str,
    new: &str,
) -> Result<PositionMap<Shared<Node>>, EditError>
    ensures kept { IfOk result (λ kept.
        kept ≡ cells_kept (T.reached there.now sheet.now.id) (B.reached back.now sheet.now.id) old.now new.now sheet.now.cells) }
    ensures numbers { IfOk result AreCanonicalFormulas }
    ensures only { IsOkUnless result NoMemory }
{
    let id = sheet.get_sheet_id();
    kept_of_sheet(
        alloc,
        sheet,
        there.reach_in(id),
        back.reach_in(id),
        old,
        new,
    )
}

/// The trees of cells that the opposite renaming does not give, by the id of the sheet and the place.
/// `NoMemory` alone is an error.
pub fn kept_formulas<T: SheetReach, B: SheetReach>(
    alloc: Global,
    sheets: &[Worksheet],
    there: &T,
    back: &B,
    old: &str,
    new: &str,
) -> Result<SheetPlaceMap<Shared<Node>>, EditError>
    ensures kept { IfOk result (λ kept. kept ≡ formulas_kept (T.reached there.now) (B.reached back.now) old.now new.now sheets.now) }
    ensures numbers { IfOk result AreCanonicalFormulas }
    ensures only { IsOkUnless result NoMemory }
{
    let mut kept = SheetPlaceMap::new(alloc);
    for sheet in sheets {
        let more = kept_where_reached(alloc, sheet, there, back, old, new)?;
        kept.put_under(sheet.get_sheet_id(), &more)?;
    }
    Ok(kept)
}

impl KeptTrees {
    /// The trees and the conditional rules of a workbook that do not come back where the sheet `old` is
    /// renamed to `new` and then `new` to `old`. `NoMemory` alone is an error.
    pub fn of(
        alloc: Global,
        workbook: &Workbook,
        old: &str,
        new: &str,
    ) -> Result<KeptTrees, EditError>
        ensures kept { IfOk result (λ kept. kept ≡ trees_kept old.now new.now workbook.now) }
        ensures numbers { IfOk result AreCanonicalTrees }
        ensures only { IsOkUnless result NoMemory }
    {
        let sheets = workbook.worksheets();
        let formulas = kept_formulas(alloc, sheets, &Everywhere, &Everywhere, old, new)?;
        let names = kept_names(alloc, workbook.defined_names(), old, new)?;
        let formattings = kept_formattings(alloc, sheets, &Everywhere, &Everywhere, old, new)?;
        Ok(KeptTrees {
            formulas,
            names,
            formattings,
        })
    }
}
