//! The cells of a sheet, with an index of its arrays.

ghost use Rattle.std.specs.Prelude.{◌≡◌, ◌≢◌, None, Some, Ok, OnOk, OnErr, IfOk, IfSome, IsOkUnless, map};
ghost use Rattle.std.specs.Cmp.{partial_equiv_from_equiv};
ghost use Rattle.std.specs.FinMap as fin;
ghost use Rattle.base_values.specs.KeyMap.{with_entry, same_entries};
ghost use Rattle.base_values.specs.Places.{IsPlace, same_position};
ghost use Rattle.base_values.specs.declared.EditError.TheVariants.{NoMemory};
ghost use Rattle.base_values.specs.laws.KeyMap.{same_entries_laws, same_entries_equiv};
ghost use Rattle.base_values.specs.laws.Places.{position_equiv};
ghost use Rattle.base_maps.specs.Carried.{entry_made};
ghost use Rattle.base_maps.specs.laws.Gathering.{with_made};
ghost use Rattle.sheet_grid.specs.ArrayIndex.{arrays_by_place, large_array_of};
ghost use Rattle.sheet_grid.specs.Arrays.{large_array_at};
ghost use Rattle.sheet_grid.specs.CanonicalCell.{IsCanonicalCell, CanonicalCells};
ghost use Rattle.sheet_grid.specs.contracts.cell.CellPartialEq.TheImpl as cell;
ghost use Rattle.sheet_grid.specs.laws.CellEquals.{cell_equiv};

use crate::arrays::large_array_at;
use crate::cell::Cell;
use base_axis::MergedCell;
use base_shared::Shared;
use base_values::{EditError, Exact, PlaceMap, Position, copy_of};
use std::alloc::{AllocError, Global};
use std::collections::btree_map::Iter;
use std::marker::Model;

/// The cells of a sheet by their places. The rectangles of its arrays of more than one cell are kept
/// by place too, so that they are found without a look at each cell. Contracts see the cells alone.
#[derive(Drop)]
pub(crate) struct CellMap {
    cells: PlaceMap<Shared<Cell>>,
    arrays: PlaceMap<MergedCell>,
}

impl Model for CellMap {
    ghost use Rattle.std.specs.FinMap as fin;
    ghost use Rattle.base_values.specs.Places.{position_cmp, coded_position};
    ghost use Rattle.sheet_grid.specs.contracts.cell.Cell as cell;
    ghost use Rattle.sheet_grid.specs.declared.cell.Cell.{Cell};
    ghost use Rattle.sheet_grid.specs.ArrayIndex.{IsIndexed};

    ghost Value = { fin.FinMap position_cmp Cell };

    ghost coded = { fin.code coded_position cell.the_row.coded };

    ghost view = { λ a. a.cells };

    ghost invariant = { λ a. IsIndexed a.cells a.arrays };
}

fn large_array_of(place: Position, entry: &Option<Shared<Cell>>) -> Option<MergedCell>
    ensures { result ≡ large_array_of place entry.now }
{
    match entry {
        Some(cell) => large_array_at(place, &cell.get().content),
        None => None,
    }
}

/// Notes the array of more than one cell that a cell is, if it is one.
fn note_array(
    place: Position,
    cell: &Cell,
    arrays: &mut PlaceMap<MergedCell>,
) -> Result<(), EditError>
    requires { IsPlace place }
    ensures arrays { OnOk result (arrays.new ≡ with_made (entry_made Some (λ _ q x. large_array_at q x.content) (place, cell.now)) arrays.old) }
    ensures only { IsOkUnless result NoMemory }
{
    if let Some(array) = large_array_at(place, &cell.content) {
        let _before = arrays.insert(place, array)?;
    }
    Ok(())
}

/// The arrays of more than one cell among cells.
fn arrays_by_place(
    alloc: Global,
    cells: &PlaceMap<Shared<Cell>>,
) -> Result<PlaceMap<MergedCell>, EditError>
    ensures arrays { IfOk result (λ arrays. arrays ≡ arrays_by_place cells.now) }
    ensures only { IsOkUnless result NoMemory }
{
    let mut arrays = PlaceMap::new(alloc);
    for (place, cell) in cells.iter() {
        note_array(*place, cell.get(), &mut arrays)?;
    }
    Ok(arrays)
}

/// Puts a cell where no array is noted, and notes its array. `NoMemory` leaves both maps as they
/// were.
fn put_new_array(
    cells: &mut PlaceMap<Shared<Cell>>,
    arrays: &mut PlaceMap<MergedCell>,
    place: Position,
    entry: Option<Shared<Cell>>,
    array: MergedCell,
) -> Result<(), EditError>
    requires inside { IsPlace place }
    requires new { fin.get arrays.old place ≡ None }
    ensures cells { OnOk result (cells.new ≡ with_entry cells.old place entry) }
    ensures arrays { OnOk result (arrays.new ≡ with_entry arrays.old place (Some array)) }
    ensures cells_stay { OnErr result (cells.new ≡ cells.old) }
    ensures arrays_stay { OnErr result (arrays.new ≡ arrays.old) }
    ensures only { IsOkUnless result NoMemory }
{
    let _before = arrays.insert(place, array)?;
    let put = cells.put(place, entry);
    if put.is_err() {
        let _array = arrays.remove(place);
    }
    put
}

/// Puts a cell where another array is noted, and notes its array in place of that, which takes no
/// memory. `NoMemory` leaves both maps as they were.
fn put_other_array(
    cells: &mut PlaceMap<Shared<Cell>>,
    arrays: &mut PlaceMap<MergedCell>,
    place: Position,
    entry: Option<Shared<Cell>>,
    array: MergedCell,
) -> Result<(), EditError>
    requires inside { IsPlace place }
    requires there { fin.get arrays.old place ≢ None }
    ensures cells { OnOk result (cells.new ≡ with_entry cells.old place entry) }
    ensures arrays { OnOk result (arrays.new ≡ with_entry arrays.old place (Some array)) }
    ensures cells_stay { OnErr result (cells.new ≡ cells.old) }
    ensures arrays_stay { OnErr result (arrays.new ≡ arrays.old) }
    ensures only { IsOkUnless result NoMemory }
{
    cells.put(place, entry)?;
    let _put = arrays.insert(place, array);
    Ok(())
}

/// Puts a cell, and notes its array.
fn put_array(
    cells: &mut PlaceMap<Shared<Cell>>,
    arrays: &mut PlaceMap<MergedCell>,
    place: Position,
    entry: Option<Shared<Cell>>,
    array: MergedCell,
) -> Result<(), EditError>
    requires { IsPlace place }
    ensures cells { OnOk result (cells.new ≡ with_entry cells.old place entry) }
    ensures arrays { OnOk result (arrays.new ≡ with_entry arrays.old place (Some array)) }
    ensures cells_stay { OnErr result (cells.new ≡ cells.old) }
    ensures arrays_stay { OnErr result (arrays.new ≡ arrays.old) }
    ensures only { IsOkUnless result NoMemory }
{
    match arrays.get(place) {
        Some(_) => put_other_array(cells, arrays, place, entry, array),
        None => put_new_array(cells, arrays, place, entry, array),
    }
}

/// Puts a cell, or takes it away, and notes its array, if it is one of more than one cell.
/// `NoMemory` leaves both maps as they were.
fn put_both(
    cells: &mut PlaceMap<Shared<Cell>>,
    arrays: &mut PlaceMap<MergedCell>,
    place: Position,
    entry: Option<Shared<Cell>>,
) -> Result<(), EditError>
    requires { IsPlace place }
    ensures cells { OnOk result (cells.new ≡ with_entry cells.old place entry) }
    ensures arrays { OnOk result (arrays.new ≡ with_entry arrays.old place (large_array_of place entry)) }
    ensures away { entry ≡ None → result ≡ Ok tt }
    ensures cells_stay { OnErr result (cells.new ≡ cells.old) }
    ensures arrays_stay { OnErr result (arrays.new ≡ arrays.old) }
    ensures only { IsOkUnless result NoMemory }
{
    match large_array_of(place, &entry) {
        Some(array) => put_array(cells, arrays, place, entry, array),
        None => {
            cells.put(place, entry)?;
            let _array = arrays.remove(place);
            Ok(())
        }
    }
}

impl CellMap {
    /// No cell. It takes no memory.
    pub(crate) fn new(alloc: Global) -> CellMap
        ensures { result ≡ fin.empty }
    {
        CellMap {
            cells: PlaceMap::new(alloc),
            arrays: PlaceMap::new(alloc),
        }
    }

    /// These cells, with the index of their arrays. `NoMemory` alone is an error.
    pub(crate) fn from_cells(
        alloc: Global,
        cells: PlaceMap<Shared<Cell>>,
    ) -> Result<CellMap, EditError>
        requires { CanonicalCells cells }
        ensures cells { IfOk result (λ map. map ≡ cells) }
        ensures only { IsOkUnless result NoMemory }
    {
        let arrays = arrays_by_place(alloc, &cells)?;
        Ok(CellMap { cells, arrays })
    }

    /// The cells by their places.
    pub(crate) fn as_map(&self) -> &PlaceMap<Shared<Cell>>
        ensures map { result.now ≡ self.now }
        ensures canonical { CanonicalCells result.now }
    {
        &self.cells
    }

    /// The places where arrays of more than one cell stand, in ascending order, with the rectangles
    /// of these arrays. It takes no memory.
    pub(crate) fn large_arrays(&self) -> Iter<'_, Position, MergedCell>
        ensures { result ≡ fin.entries (arrays_by_place self.now) }
    {
        self.arrays.iter()
    }

    /// Sets the cell of a place, or takes it away, which takes no memory. `NoMemory` leaves the cells
    /// as they were.
    pub(crate) fn put(
        &mut self,
        place: Position,
        entry: Option<Shared<Cell>>,
    ) -> Result<(), EditError>
        requires inside { IsPlace place }
        requires canonical { IfSome entry IsCanonicalCell }
        ensures ok { OnOk result (self.new ≡ with_entry self.old place entry) }
        ensures away { entry ≡ None → result ≡ Ok tt }
        ensures err { OnErr result (self.new ≡ self.old) }
        ensures only { IsOkUnless result NoMemory }
    {
        put_both(&mut self.cells, &mut self.arrays, place, entry)
    }
}

impl Clone for CellMap {
    ghost is_clone = { λ s r. r ≡ s };

    fn clone(&self) -> Result<CellMap, AllocError> {
        Ok(CellMap {
            cells: self.cells.clone()?,
            arrays: self.arrays.clone()?,
        })
    }
}

impl PartialEq for CellMap {
    ghost eq = { same_entries same_position cell.ghosts.eq };

    ghost laws = { same_entries_laws (partial_equiv_from_equiv position_equiv) (partial_equiv_from_equiv cell_equiv) };

    fn eq(&self, other: &CellMap) -> bool {
        self.cells == other.cells
    }
}

impl Eq for CellMap {
    ghost laws = { same_entries_equiv position_equiv cell_equiv };
}

impl Exact for CellMap {
    ghost use Rattle.base_values.specs.laws.KeyMap.{same_entries_decides};
    ghost use Rattle.base_values.specs.laws.PositionEquals.{position_equals};
    ghost use Rattle.sheet_grid.specs.laws.CellEquals.{cell_equals};

    ghost copies = { λ a b h. h };

    ghost equals = { same_entries_decides position_equals cell_equals };
}
