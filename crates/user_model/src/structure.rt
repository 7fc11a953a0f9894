ghost use Rattle.std.specs.Prelude.{◌≡◌};
ghost use Rattle.std.specs.List.{find};
ghost use Rattle.std.specs.Option.{option_copied};
ghost use Rattle.base_axis.specs.Rectangles.{holds};
ghost use Rattle.sheet_grid.specs.Arrays.{arrays_of};
ghost use Rattle.sheet_grid.specs.Computed.{value_at};
ghost use Rattle.user_model.specs.Reading.{content_in};
ghost use Rattle.user_model.specs.Structure.{extent_of, dynamic_at, dynamics_of, in_array, structure_at, structure_in};

use base_axis::MergedCell;
use base_shared::Shared;
use base_values::{EditError, Exact, Position, place_of};
use sheet_grid::{Cell, Computed, Content, Workbook, Worksheet, array_at};

/// How a cell stands to the arrays of its sheet. Widths are in columns, heights in rows.
///
/// ```
/// model.set_user_array_formula(0, 1, 4, 1, 3, "=A1:A3*2")?;
/// let below = model.get_cell_array_structure(0, 2, 4)?; // ArrayChild(1, 4, 1, 3)
/// ```
#[derive(Clone, Copy, Debug, PartialEq, Eq)]
pub enum CellArrayStructure {
    /// No array has it.
    SingleCell,
    /// It belongs to a dynamic formula at another cell: the row and the column of that, how wide and
    /// how high the values are.
    DynamicChild(i32, i32, i32, i32),
    /// It belongs to an entered array at another cell: the row and the column of that, how wide and
    /// how high it is.
    ArrayChild(i32, i32, i32, i32),
    /// It has a dynamic formula, whose values are that wide and high.
    DynamicAnchor(i32, i32),
    /// It has an entered array, which is that wide and high.
    ArrayAnchor(i32, i32),
}

impl Exact for CellArrayStructure {
    ghost use Rattle.std.proofs.Common.{rules};
    ghost use Rattle.user_model.specs.laws.StructureEquals.{structure_equals};

    ghost copies = { λ a b h. Prim.search rules };

    ghost equals = { structure_equals };
}

/// How far a dynamic formula at a place of the sheet of an id fills the cells.
fn extent(values: &Computed, id: u32, place: Position) -> MergedCell
    ensures { result ≡ extent_of place (value_at id place.row place.column values.now) }
{
    let (width, height) = match values.value(id, place.row, place.column) {
        Some((_, width, height)) => (width, height),
        None => (1, 1),
    };
    MergedCell {
        row: place.row,
        column: place.column,
        width,
        height,
    }
}

/// The rectangle that a dynamic formula at a place fills. Any other content fills none.
fn dynamic_at(values: &Computed, id: u32, place: Position, content: &Content) -> Option<MergedCell>
    ensures { result ≡ dynamic_at values.now id place content.now }
{
    match content {
        Content::Dynamic(_) => Some(extent(values, id, place)),
        _ => None,
    }
}

/// The first entered array that holds a place.
fn array_holding(sheet: &Worksheet, place: Position) -> Option<MergedCell>
    ensures { result ≡ find (λ r. holds r place) (arrays_of sheet.now) }
{
    sheet
        .cells()
        .filter_map(|(other, cell)| array_at(*other, &cell.get().content))
        .find(|array| array.holds(place))
}

/// The first dynamic formula whose values hold a place.
fn dynamic_holding(values: &Computed, sheet: &Worksheet, place: Position) -> Option<MergedCell>
    ensures { result ≡ find (λ r. holds r place) (dynamics_of values.now sheet.now) }
{
    let id = sheet.get_sheet_id();
    sheet
        .cells()
        .filter_map(|(other, cell)| dynamic_at(values, id, *other, &cell.get().content))
        .find(|extent| extent.holds(place))
}

/// A place that has no array of its own.
fn child_at(values: &Computed, sheet: &Worksheet, place: Position) -> CellArrayStructure
    ensures { result ≡ in_array (find (λ r. holds r place) (arrays_of sheet.now)) (find (λ r. holds r place) (dynamics_of values.now sheet.now)) }
{
    if let Some(array) = array_holding(sheet, place) {
        return CellArrayStructure::ArrayChild(array.row, array.column, array.width, array.height);
    }
    match dynamic_holding(values, sheet, place) {
        Some(r) => CellArrayStructure::DynamicChild(r.row, r.column, r.width, r.height),
        None => CellArrayStructure::SingleCell,
    }
}

/// A place with a content on it.
fn structure_in(
    values: &Computed,
    sheet: &Worksheet,
    place: Position,
    content: &Content,
) -> CellArrayStructure
    ensures { result ≡ structure_in values.now sheet.now place content.now }
{
    match content {
        Content::Array { width, height, .. } => CellArrayStructure::ArrayAnchor(*width, *height),
        Content::Dynamic(_) => {
            let extent = extent(values, sheet.get_sheet_id(), place);
            CellArrayStructure::DynamicAnchor(extent.width, extent.height)
        }
        _ => child_at(values, sheet, place),
    }
}

/// A place with a cell, or with none.
fn structure_of(
    values: &Computed,
    sheet: &Worksheet,
    place: Position,
    cell: Option<&Shared<Cell>>,
) -> CellArrayStructure
    ensures { result ≡ structure_in values.now sheet.now place (content_in (option_copied cell.entry)) }
{
    match cell {
        Some(cell) => structure_in(values, sheet, place, &cell.get().content),
        None => child_at(values, sheet, place),
    }
}

/// How the cell at a row and a column of the sheet at an index stands to the arrays of the sheet. It
/// takes no memory.
pub(crate) fn structure_at(
    values: &Computed,
    workbook: &Workbook,
    sheet: u32,
    row: i32,
    column: i32,
) -> Result<CellArrayStructure, EditError>
    ensures { result ≡ structure_at sheet row column values.now workbook.now }
{
    let found = workbook.worksheet(sheet)?;
    let place = place_of(row, column)?;
    let cell = found.cell_map().get(place);
    Ok(structure_of(values, found, place, cell))
}
