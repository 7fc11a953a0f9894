ghost use Rattle.std.specs.Prelude.{◌≡◌};
ghost use Rattle.std.specs.Option.{option_copied};
ghost use Rattle.sheet_grid.specs.Computed.{value_at};
ghost use Rattle.user_model.specs.CellTypes.{shown_type, type_at, type_of};
ghost use Rattle.user_model.specs.Reading.{content_in};

use base_shared::Shared;
use base_values::{EditError, Exact, Position, place_of};
use sheet_grid::{Cell, Computed, Content, Workbook};

/// What kind of value a cell has.
///
/// ```
/// let is_text = model.get_cell_type(0, 1, 1)? == CellType::Text;
/// ```
#[derive(Clone, Copy, Debug, PartialEq, Eq)]
pub enum CellType {
    /// A number, or nothing, or a formula whose value was not computed.
    Number,
    Text,
    /// TRUE or FALSE.
    LogicalValue,
    /// An error, as `#REF!`.
    ErrorValue,
}

impl Exact for CellType {
    ghost use Rattle.std.proofs.Common.{rules};
    ghost use Rattle.user_model.specs.laws.CellTypeEquals.{cell_type_equals};

    ghost copies = { λ a b h. Prim.search rules };

    ghost equals = { cell_type_equals };
}

/// The kind of a content.
fn type_of(content: &Content) -> CellType
    ensures { result ≡ type_of content.now }
{
    match content {
        Content::Text(_) => CellType::Text,
        Content::Boolean(_) => CellType::LogicalValue,
        Content::Error(_) => CellType::ErrorValue,
        _ => CellType::Number,
    }
}

/// The kind of what a cell, or none, has of its own.
fn own_type(cell: Option<&Shared<Cell>>) -> CellType
    ensures { result ≡ type_of (content_in (option_copied cell.entry)) }
{
    match cell {
        Some(cell) => type_of(&cell.get().content),
        None => CellType::Number,
    }
}

/// The kind of what a cell, or none, shows at a place of the sheet of an id.
fn shown_type(values: &Computed, id: u32, place: Position, cell: Option<&Shared<Cell>>) -> CellType
    ensures { result ≡ shown_type (value_at id place.row place.column values.now) (content_in (option_copied cell.entry)) }
{
    match values.value(id, place.row, place.column) {
        Some((content, _, _)) => type_of(content),
        None => own_type(cell),
    }
}

/// The kind of the value at a row and a column of the sheet at an index. It takes no memory.
pub(crate) fn type_at(
    values: &Computed,
    workbook: &Workbook,
    sheet: u32,
    row: i32,
    column: i32,
) -> Result<CellType, EditError>
    ensures { result ≡ type_at sheet row column values.now workbook.now }
{
    let found = workbook.worksheet(sheet)?;
    let place = place_of(row, column)?;
    let cell = found.cell_map().get(place);
    Ok(shown_type(values, found.get_sheet_id(), place, cell))
}
