//! Contents, cells and links of a rectangle that are taken away.

ghost use Rattle.std.specs.Prelude.{◌≡◌, ◌≢◌, map, IfOk, IsOkUnless, Ok, Err};
ghost use Rattle.std.specs.List.{list_any};
ghost use Rattle.base_axis.specs.Rectangles.{IsInside};
ghost use Rattle.base_values.specs.Answers.{Returns};
ghost use Rattle.base_values.specs.declared.EditError.TheVariants.{NoMemory};
ghost use Rattle.range_styles.specs.CanonicalPlans.{CanonicalCellPlan};
ghost use Rattle.planned_maps.specs.Planned.{planned_places};
ghost use Rattle.range_styles.specs.Clearing.{clear_area, clear_plan, cleared_cell, is_cut, place_cleared, place_unlinked};

use crate::plan::SheetPlan;
use crate::walk::{PlaceEdit, plan_there};
use base_axis::{AxisMap, MergedCell};
use base_shared::Shared;
use base_values::{EditError, PlaceMap, Position, copy_of};
use sheet_grid::{Cell, Content, Link, Worksheet};
use std::alloc::Global;
use std::collections::btree_map::Iter;

/// What is taken away of the cells of a rectangle.
#[derive(Clone, Copy, Debug, PartialEq, Eq)]
pub enum Clearing {
    /// The contents. The cells keep their styles.
    Contents,
    /// The cells.
    Cells,
}

/// Whether an array meets a rectangle and is not inside it.
fn is_cut(area: MergedCell, array: MergedCell) -> bool
    ensures { result ≡ is_cut area array }
{
    array.meets(area) && !array.is_inside_of(area)
}

fn cuts_one(arrays: Iter<'_, Position, MergedCell>, area: MergedCell) -> bool
    ensures { result ≡ list_any (is_cut area) (map (λ array. array.1) arrays.entry) }
{
    arrays
        .map(|(_, array)| *array)
        .any(|array| is_cut(area, array))
}

/// A rectangle, if it may be cleared. It takes no memory.
///
/// `InvalidArea` where it is empty or reaches outside the sheet, else `PartialArray` where an array of
/// more than one cell meets it and is not inside it. It goes over the arrays of more than one cell.
pub fn clear_area(sheet: &Worksheet, area: MergedCell) -> Result<MergedCell, EditError>
    ensures area { result ≡ clear_area area sheet.now }
    ensures same { IfOk result (λ free. free ≡ area) }
    ensures inside { IfOk result IsInside }
    ensures sure { result ≢ Err NoMemory }
{
    if !area.is_inside() {
        return Err(EditError::InvalidArea);
    }
    if cuts_one(sheet.large_arrays(), area) {
        return Err(EditError::PartialArray);
    }
    Ok(area)
}

/// What is left of a cell.
fn cleared_cell(
    alloc: Global,
    clearing: Clearing,
    cell: &Cell,
) -> Result<Option<Shared<Cell>>, EditError>
    ensures { Returns result (Ok (cleared_cell clearing cell.now)) }
{
    match clearing {
        Clearing::Cells => Ok(None),
        Clearing::Contents => {
            let style = copy_of(&cell.style)?;
            let content = Content::Empty;
            Ok(Some(Shared::new(alloc, Cell { content, style })?))
        }
    }
}

/// What is cleared of the cells of a rectangle.
#[derive(Drop)]
struct CellClearing<'a> {
    alloc: Global,
    sheet: &'a Worksheet,
    clearing: Clearing,
    area: MergedCell,
}

impl<'a> PlaceEdit<Option<Shared<Cell>>> for CellClearing<'a> {
    ghost use Rattle.range_styles.specs.Clearing.{cleared_cell, place_cleared};
    ghost use Rattle.range_styles.specs.laws.ClearLaws.{made_here};

    ghost make = { λ edit. place_cleared edit.clearing edit.area edit.sheet.now };

    ghost area_of = { λ edit. edit.area };

    fn area(&self) -> MergedCell {
        self.area
    }

    fn entry_at(&self, place: Position) -> Result<Option<Option<Shared<Cell>>>, EditError> {
        if !self.area.holds(place) {
            return Ok(None);
        }
        match self.sheet.cell_map().get(place) {
            Some(cell) => Ok(Some(cleared_cell(self.alloc, self.clearing, cell.get())?)),
            None => Ok(None),
        }
    }

    ghost inside = { λ edit place x is. made_here edit.area (cleared_cell edit.clearing) edit.sheet.now.cells place x is };
}

/// What the places of a rectangle get that have a cell.
fn cleared_cells(
    alloc: Global,
    sheet: &Worksheet,
    clearing: Clearing,
    area: MergedCell,
) -> Result<PlaceMap<Option<Shared<Cell>>>, EditError>
    requires { IsInside area }
    ensures output { IfOk result (λ cells. cells ≡ planned_places (place_cleared clearing area sheet.now) area) }
    ensures canonical { IfOk result CanonicalCellPlan }
    ensures only { IsOkUnless result NoMemory }
{
    let there = sheet.cell_map();
    let edit = CellClearing {
        alloc,
        sheet,
        clearing,
        area,
    };
    plan_there(alloc, &edit, there)
}

/// The links of a rectangle, which go.
#[derive(Drop)]
struct LinkClearing<'a> {
    sheet: &'a Worksheet,
    area: MergedCell,
}

impl<'a> PlaceEdit<Option<Link>> for LinkClearing<'a> {
    ghost use Rattle.std.specs.Prelude.{None};
    ghost use Rattle.sheet_grid.specs.declared.Link.{Link};
    ghost use Rattle.range_styles.specs.Clearing.{place_unlinked};
    ghost use Rattle.range_styles.specs.laws.ClearLaws.{made_here};

    ghost make = { λ edit. place_unlinked edit.area edit.sheet.now };

    ghost area_of = { λ edit. edit.area };

    fn area(&self) -> MergedCell {
        self.area
    }

    fn entry_at(&self, place: Position) -> Result<Option<Option<Link>>, EditError> {
        if !self.area.holds(place) {
            return Ok(None);
        }
        match self.sheet.link_map().get(place) {
            Some(_link) => Ok(Some(None)),
            None => Ok(None),
        }
    }

    ghost inside = { λ edit place x is. made_here edit.area (λ (link : Link). None) edit.sheet.now.links place x is };
}

/// The places of a rectangle that have a link, each with none.
fn cleared_links(
    alloc: Global,
    sheet: &Worksheet,
    area: MergedCell,
) -> Result<PlaceMap<Option<Link>>, EditError>
    requires { IsInside area }
    ensures output { IfOk result (λ links. links ≡ planned_places (place_unlinked area sheet.now) area) }
    ensures only { IsOkUnless result NoMemory }
{
    let edit = LinkClearing { sheet, area };
    plan_there(alloc, &edit, sheet.link_map())
}

/// The plan of clearing a rectangle: contents or whole cells go, and links. It goes over the places
/// of the rectangle, or over the cells or the links that the sheet has, whichever are fewer.
/// `NoMemory` alone is an error.
pub fn clear_plan(
    alloc: Global,
    sheet: &Worksheet,
    clearing: Clearing,
    area: MergedCell,
) -> Result<SheetPlan, EditError>
    requires { IsInside area }
    ensures plan { Returns result (Ok (clear_plan clearing area sheet.now)) }
    ensures canonical { IfOk result (λ plan. CanonicalCellPlan plan.cells) }
{
    Ok(SheetPlan {
        cells: cleared_cells(alloc, sheet, clearing, area)?,
        links: cleared_links(alloc, sheet, area)?,
        columns: AxisMap::new(alloc),
        rows: AxisMap::new(alloc),
    })
}
