ghost use Rattle.std.specs.Prelude.{◌≡◌, map, Ok, IfOk, IsOkUnless};
ghost use Rattle.base_values.specs.Answers.{Returns};
ghost use Rattle.base_values.specs.declared.EditError.TheVariants.{NoMemory};
ghost use Rattle.std.specs.Prelude.{string_bytes};
ghost use Rattle.base_values.specs.Answers.{map_ok};
ghost use Rattle.user_model.specs.Properties.{all_properties, column_width, draws_grid_lines, first_filled, formattings_in, frozen_columns, frozen_rows, last_filled, properties_of, row_height};
ghost use Rattle.user_model.specs.Settings.{resolved_text};

use base_styles::{Color, Theme};
use base_values::{EditError, Exact, Items, Text};
use format_rules::ConditionalFormatting;
use sheet_grid::{SheetState, Workbook, Worksheet};
use sheet_navigation::RowSearch;
use std::alloc::Global;

/// What is listed of a sheet.
///
/// ```
/// let sheets = model.get_worksheets_properties()?;
/// let first_id = sheets.as_slice()[0].sheet_id;
/// ```
#[derive(Clone, PartialEq, Eq, Drop)]
pub struct SheetProperties {
    /// The name on its tab.
    pub name: Text,
    /// Whether it is shown.
    pub state: SheetState,
    /// Its id, which it keeps wherever it is moved.
    pub sheet_id: u32,
    /// The colour of its tab.
    pub color: Color,
}

impl Exact for SheetProperties {
    ghost use Rattle.std.proofs.Common.{rules};
    ghost use Rattle.user_model.specs.laws.PropertiesEquals.{properties_equals};

    ghost copies = { λ a b h. Prim.search rules };

    ghost equals = { properties_equals };
}

/// What is listed of a sheet. `NoMemory` alone is an error.
fn properties_of(sheet: &Worksheet) -> Result<SheetProperties, EditError>
    ensures output { IfOk result (λ properties. properties ≡ properties_of sheet.now) }
    ensures only { IsOkUnless result NoMemory }
{
    Ok(SheetProperties {
        name: sheet.copied_name()?,
        state: sheet.state(),
        sheet_id: sheet.get_sheet_id(),
        color: sheet.color(),
    })
}

/// What is listed of sheets, in order.
fn list_properties(alloc: Global, sheets: &[Worksheet]) -> Result<Items<SheetProperties>, EditError>
    ensures output { IfOk result (λ list. list ≡ map properties_of sheets.now) }
    ensures only { IsOkUnless result NoMemory }
{
    let mut list = Items::empty(alloc);
    for sheet in sheets {
        let properties = properties_of(sheet)?;
        list.push(properties)?;
    }
    Ok(list)
}

/// What is listed of each sheet of a workbook, in order.
pub(crate) fn all_properties(
    alloc: Global,
    workbook: &Workbook,
) -> Result<Items<SheetProperties>, EditError>
    ensures { Returns result (Ok (all_properties workbook.now)) }
{
    list_properties(alloc, workbook.worksheets())
}

/// Whether grid lines are drawn in the sheet at an index. It takes no memory.
pub(crate) fn draws_grid_lines(workbook: &Workbook, sheet: u32) -> Result<bool, EditError>
    ensures { result ≡ draws_grid_lines sheet workbook.now }
{
    Ok(workbook.worksheet(sheet)?.show_grid_lines())
}

/// The greatest column below one, in a row of the sheet at an index, whose cell has a content. It takes no
/// memory.
pub(crate) fn last_filled(
    workbook: &Workbook,
    sheet: u32,
    row: i32,
    column: i32,
) -> Result<Option<i32>, EditError>
    ensures { result ≡ last_filled sheet row column workbook.now }
{
    workbook.worksheet(sheet)?.last_filled_before(row, column)
}

/// The least column above one, in a row of the sheet at an index, whose cell has a content. It takes no
/// memory.
pub(crate) fn first_filled(
    workbook: &Workbook,
    sheet: u32,
    row: i32,
    column: i32,
) -> Result<Option<i32>, EditError>
    ensures { result ≡ first_filled sheet row column workbook.now }
{
    workbook.worksheet(sheet)?.first_filled_after(row, column)
}

/// A colour as `#RRGGBB`, as a theme has it, or the empty text where it is none.
pub(crate) fn resolved_text(alloc: Global, theme: Theme, color: Color) -> Result<String, EditError>
    ensures { Returns (map_ok string_bytes result) (Ok (resolved_text theme color)) }
{
    match theme.resolve(color) {
        Some(parts) => Ok(parts.text(alloc)?),
        None => Ok(String::new(alloc)),
    }
}

/// The height of a row of the sheet at an index, 0 where it is hidden. It takes no memory.
pub(crate) fn row_height(workbook: &Workbook, sheet: u32, row: i32) -> Result<i32, EditError>
    ensures { result ≡ row_height sheet row workbook.now }
{
    workbook.worksheet(sheet)?.row_height(row)
}

/// The width of a column of the sheet at an index, 0 where it is hidden. It takes no memory.
pub(crate) fn column_width(workbook: &Workbook, sheet: u32, column: i32) -> Result<i32, EditError>
    ensures { result ≡ column_width sheet column workbook.now }
{
    workbook.worksheet(sheet)?.get_column_width(column)
}

/// How many rows of the sheet at an index are frozen. It takes no memory.
pub(crate) fn frozen_rows(workbook: &Workbook, sheet: u32) -> Result<i32, EditError>
    ensures { result ≡ frozen_rows sheet workbook.now }
{
    Ok(workbook.worksheet(sheet)?.frozen_rows())
}

/// How many columns of the sheet at an index are frozen. It takes no memory.
pub(crate) fn frozen_columns(workbook: &Workbook, sheet: u32) -> Result<i32, EditError>
    ensures { result ≡ frozen_columns sheet workbook.now }
{
    Ok(workbook.worksheet(sheet)?.frozen_columns())
}

/// The conditional rules of the sheet at an index, in the order in which they were made. It takes no
/// memory.
pub(crate) fn formattings_in(
    workbook: &Workbook,
    sheet: u32,
) -> Result<&[ConditionalFormatting], EditError>
    ensures { map_ok (λ lent. lent.now) result ≡ formattings_in sheet workbook.now }
{
    Ok(
        workbook
            .worksheet(sheet)?
            .conditional_formatting()
            .as_slice(),
    )
}
