//! The input of a formula whose values fill a rectangle.

ghost use Rattle.std.specs.Prelude.{◌≡◌, ◌≢◌, Ok, Err, IfOk, IsOkUnless, IsTrue};
ghost use Rattle.base_axis.specs.Rectangles.{anchor_place};
ghost use Rattle.base_values.specs.declared.EditError.TheVariants.{NoMemory};
ghost use Rattle.base_values.specs.Places.{place_of};
ghost use Rattle.cell_content.specs.Fitting.{fits_at};
ghost use Rattle.cell_content.specs.declared.Content.TheVariants.{Array};
ghost use Rattle.formula_tree.specs.Numbers.{has_canonical_numbers};
ghost use Rattle.sheet_rules.specs.WellFormed.{IsWellFormed};
ghost use Rattle.sheet_history.specs.Diffs.{IsCanonicalList};
ghost use Rattle.edit_plans.specs.ArrayInputs.{hits_merge, free_area, array_area, array_put};
ghost use Rattle.edit_plans.specs.laws.EditRecords.{array_diffs};
ghost use Rattle.edit_plans.specs.Plans.{Plans};

use crate::blanked::push_blank_diffs;
use crate::input::cell_change;
use crate::merge::{meets_array, meets_merge};
use crate::{list_of, push_diff};
use base_axis::MergedCell;
use base_shared::Shared;
use base_values::{EditError, Items, place_of};
use cell_content::Content;
use formula_tree::Node;
use sheet_grid::{DefaultStyle, Workbook, Worksheet};
use sheet_history::DiffList;
use std::alloc::Global;

/// Whether a rectangle of more than one cell meets a merge, or a merge covers its one cell.
fn hits_merge(sheet: &Worksheet, area: MergedCell) -> bool
    ensures { result ≡ hits_merge sheet.now area }
{
    if area.has_many() {
        meets_merge(sheet, area)
    } else {
        sheet.is_covered_cell(area.row, area.column)
    }
}

/// The rectangle, if an array may fill it. It takes no memory.
///
/// `InvalidArea` where the rectangle is empty or reaches outside the sheet, else `CoveredCell` where a
/// merge meets it, or covers its one cell, else `ArrayCell` where it meets an array of more than one
/// cell.
pub fn free_area(sheet: &Worksheet, area: MergedCell) -> Result<MergedCell, EditError>
    ensures area { result ≡ free_area sheet.now area }
    ensures same { IfOk result (λ free. free ≡ area) }
    ensures sure { result ≢ Err NoMemory }
{
    if !area.is_inside() {
        return Err(EditError::InvalidArea);
    }
    if hits_merge(sheet, area) {
        return Err(EditError::CoveredCell);
    }
    if meets_array(sheet, area) {
        return Err(EditError::ArrayCell);
    }
    Ok(area)
}

/// A rectangle that an array may fill. It takes no memory.
fn array_area(sheet: &Worksheet, area: MergedCell) -> Result<MergedCell, EditError>
    ensures area { result ≡ array_area sheet.now area }
    ensures sure { result ≢ Err NoMemory }
{
    let _place = place_of(area.row, area.column)?;
    free_area(sheet, area)
}

/// The record of an array that may fill a rectangle.
fn array_list(
    alloc: Global,
    default: &DefaultStyle,
    sheet: &Worksheet,
    area: MergedCell,
    tree: Shared<Node>,
) -> Result<DiffList, EditError>
    requires place { place_of area.row area.column ≡ Ok (anchor_place area) }
    requires canonical { IsTrue (has_canonical_numbers tree) }
    ensures output { IfOk result (λ list. list ≡ array_diffs area tree sheet.now) }
    ensures canonical { IfOk result IsCanonicalList }
    ensures only { IsOkUnless result NoMemory }
{
    let content = Content::Array {
        tree,
        width: area.width,
        height: area.height,
    };
    let first = cell_change(alloc, default, sheet, area.anchor_place(), content)?;
    let mut diffs = Items::empty(alloc);
    push_diff(&mut diffs, first)?;
    push_blank_diffs(alloc, sheet, area, &mut diffs)?;
    list_of(alloc, diffs)
}

/// Puts a formula whose values fill a rectangle in the first cell of the rectangle, on the sheet at
/// an index: the record of the change. The other cells of the rectangle lose their contents and keep
/// their styles, and links stay. Where the first place has no cell, the new one has the style that
/// the place shows. The workbook is as it was.
///
/// `InvalidSheet` where there is no such sheet, else `InvalidRow` where the row of the first place
/// is outside the sheet, else `InvalidColumn` where its column is, else `InvalidArea` where the
/// rectangle is empty or reaches outside, else `CoveredCell` where a merge meets it, or covers its
/// one cell, else `ArrayCell` where it meets an array of more than one cell. They take no memory,
/// and the record takes some.
pub fn plan_array(
    alloc: Global,
    default: &DefaultStyle,
    workbook: &Workbook,
    sheet: u32,
    area: MergedCell,
    tree: Shared<Node>,
) -> Result<DiffList, EditError>
    requires rules { IsWellFormed workbook.now }
    requires canonical { IsTrue (has_canonical_numbers tree) }
    requires fits { IsTrue (fits_at (anchor_place area) (Array tree area.width area.height)) }
    ensures planned { Plans result workbook.now (array_put sheet area tree workbook.now) }
{
    let found = workbook.worksheet(sheet)?;
    let free = array_area(found, area)?;
    array_list(alloc, default, found, free, tree)
}
