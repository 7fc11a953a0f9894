//! The cells of a sheet, each changed at its place. A cell that stays the same is shared.

ghost use Rattle.std.specs.Prelude.{◌≡◌, ◌∷◌, [], ◌++◌, IfOk, IsOkUnless, OnOk, Some};
ghost use Rattle.std.specs.Bool.{Decides};
ghost use Rattle.std.specs.Option.{option_copied};
ghost use Rattle.base_values.specs.declared.Position.{Position};
ghost use Rattle.base_values.specs.declared.EditError.TheVariants.{NoMemory};
ghost use Rattle.base_maps.specs.Carried.{carried_map};
ghost use Rattle.cell_content.specs.Lens.{tree_of};
ghost use Rattle.formula_names.specs.Renamed.{tree_renamed};
ghost use Rattle.line_map.specs.Contents.{cell_restored};
ghost use Rattle.sheet_grid.specs.declared.Cell.{Cell};
ghost use Rattle.book_names.specs.Renaming.{cell_renamed, cell_back};

use crate::kept_trees::KeptTrees;
use base_maps::SheetPlace;
use base_shared::Shared;
use base_values::{EditError, Items, PlaceMap, Position, Text, copy_of};
use cell_content::{tree_of, with_tree};
use formula_names::{Reach, is_unchanged, rename_in_node};
use formula_tree::Node;
use sheet_grid::Cell;
use sheet_lines::places_inside;
use std::alloc::Global;

/// A change of cells, each at its place.
pub(crate) trait CellChange {
    /// The change as definitions speak of it.
    ghost change: { Self → Position → Cell → Cell };

    /// What a cell becomes. `NoMemory` is the only error.
    fn changed(
        &self,
        alloc: Global,
        place: Position,
        cell: &Shared<Cell>,
    ) -> Result<Shared<Cell>, EditError>
        ensures cell { IfOk result (λ changed. changed ≡ change self.now place cell.now) }
        ensures only { IsOkUnless result NoMemory };
}

/// Cells whose trees are renamed, as far as the renaming reaches.
#[derive(Drop)]
pub(crate) struct Renamed<'r> {
    pub(crate) reach: Reach,
    pub(crate) before: &'r str,
    pub(crate) after: &'r Shared<Text>,
}

/// Cells of the sheet of an id that get their kept trees back, or are renamed back.
#[derive(Drop)]
pub(crate) struct Returned<'r> {
    pub(crate) reach: Reach,
    pub(crate) before: &'r Shared<Text>,
    pub(crate) after: &'r str,
    pub(crate) kept: &'r KeptTrees,
    pub(crate) id: u32,
}

/// A cell with that tree in place of its own.
fn with_other_tree(
    alloc: Global,
    cell: &Shared<Cell>,
    tree: Shared<Node>,
) -> Result<Shared<Cell>, EditError>
    ensures cell { IfOk result (λ changed. changed ≡ cell_restored cell.now tree) }
    ensures only { IsOkUnless result NoMemory }
{
    let content = with_tree(&cell.get().content, tree)?;
    let style = copy_of(&cell.get().style)?;
    Ok(Shared::new(alloc, Cell { content, style })?)
}

/// Whether a tree stays as it is where `old` is renamed to `new`.
pub(crate) fn stays(tree: &Shared<Node>, reach: Reach, old: &str, new: &Shared<Text>) -> bool
    ensures { Decides result (tree_renamed reach old.now new.now tree.now ≡ tree.now) }
{
    is_unchanged(tree.get(), reach, old, new.get().as_str())
}

/// A cell whose formula has this tree, renamed. One that stays the same is shared.
fn renamed_formula(
    alloc: Global,
    cell: &Shared<Cell>,
    tree: &Shared<Node>,
    reach: Reach,
    old: &str,
    new: &Shared<Text>,
) -> Result<Shared<Cell>, EditError>
    requires { tree_of cell.now.content ≡ Some tree.now }
    ensures cell { IfOk result (λ renamed. renamed ≡ cell_renamed reach old.now new.now cell.now) }
    ensures only { IsOkUnless result NoMemory }
{
    if stays(tree, reach, old, new) {
        return copy_of(cell);
    }
    let renamed = rename_in_node(alloc, tree.get(), reach, old, new)?;
    with_other_tree(alloc, cell, Shared::new(alloc, renamed)?)
}

/// A cell whose tree, if it has one, is renamed.
fn renamed_cell(
    alloc: Global,
    cell: &Shared<Cell>,
    reach: Reach,
    old: &str,
    new: &Shared<Text>,
) -> Result<Shared<Cell>, EditError>
    ensures cell { IfOk result (λ renamed. renamed ≡ cell_renamed reach old.now new.now cell.now) }
    ensures only { IsOkUnless result NoMemory }
{
    match tree_of(&cell.get().content) {
        Some(tree) => renamed_formula(alloc, cell, tree, reach, old, new),
        None => copy_of(cell),
    }
}

/// A cell that gets this kept tree back, or is renamed back without one.
fn cell_back(
    alloc: Global,
    cell: &Shared<Cell>,
    kept: Option<&Shared<Node>>,
    reach: Reach,
    old: &Shared<Text>,
    new: &str,
) -> Result<Shared<Cell>, EditError>
    ensures cell { IfOk result (λ back. back ≡ cell_back reach old.now new.now (option_copied kept.entry) cell.now) }
    ensures only { IsOkUnless result NoMemory }
{
    match kept {
        Some(tree) => with_other_tree(alloc, cell, copy_of(tree)?),
        None => renamed_cell(alloc, cell, reach, new, old),
    }
}

impl<'r> CellChange for Renamed<'r> {
    ghost use Rattle.book_names.specs.Renaming.{cell_renamed};

    ghost change = { λ self place cell. cell_renamed self.reach self.before.now self.after.now cell };

    fn changed(
        &self,
        alloc: Global,
        _place: Position,
        cell: &Shared<Cell>,
    ) -> Result<Shared<Cell>, EditError> {
        renamed_cell(alloc, cell, self.reach, self.before, self.after)
    }
}

impl<'r> CellChange for Returned<'r> {
    ghost use Rattle.book_names.specs.Renaming.{cell_back, kept_under};

    ghost change = { λ self place cell. cell_back self.reach self.before.now self.after.now (kept_under self.kept.now self.id place) cell };

    fn changed(
        &self,
        alloc: Global,
        place: Position,
        cell: &Shared<Cell>,
    ) -> Result<Shared<Cell>, EditError> {
        let sheet = self.id;
        let kept = self.kept.formulas.get(SheetPlace { sheet, place });
        cell_back(alloc, cell, kept, self.reach, self.before, self.after)
    }
}

/// Puts a cell behind others, at its place.
fn put_last(
    output: &mut Items<(Position, Shared<Cell>)>,
    place: Position,
    cell: Shared<Cell>,
) -> Result<(), EditError>
    ensures output { OnOk result (output.new ≡ output.old ++ (place, cell) ∷ []) }
    ensures only { IsOkUnless result NoMemory }
{
    output.push((place, cell))?;
    Ok(())
}

/// The cells of a sheet, each changed at its place, in one walk.
pub(crate) fn changed_cells<C: CellChange>(
    alloc: Global,
    change: &C,
    cells: &PlaceMap<Shared<Cell>>,
) -> Result<PlaceMap<Shared<Cell>>, EditError>
    ensures cells { IfOk result (λ output. output ≡ carried_map Some Some (λ _ place cell. C.change change.now place cell) cells.now) }
    ensures only { IsOkUnless result NoMemory }
{
    // For the proof: what is inside.
    places_inside(cells);
    let mut output = Items::empty(alloc);
    for (place, cell) in cells.iter() {
        let changed = change.changed(alloc, *place, cell)?;
        put_last(&mut output, *place, changed)?;
    }
    PlaceMap::of_entries(alloc, output)
}
