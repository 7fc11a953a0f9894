//! Whether arrays, merges and the parts of conditional rules are inside the sheet, and formulas fit
//! their places.

ghost use Rattle.std.specs.Prelude.{◌≡◌};
ghost use Rattle.std.specs.List.{list_all};
ghost use Rattle.base_axis.specs.Rectangles.{is_inside};
ghost use Rattle.base_values.specs.declared.Position.{Position};
ghost use Rattle.cell_content.specs.Fitting.{fits_at};
ghost use Rattle.format_rules.specs.Fitting.{has_parts, has_fitting_trees};
ghost use Rattle.sheet_grid.specs.Arrays.{array_at};
ghost use Rattle.sheet_grid.specs.declared.Cell.{Cell};
ghost use Rattle.book_sheets.specs.SheetDiffs.{is_inside_if_any, is_sheet_inside, cells_fit};

use base_axis::{MergeList, MergedCell};
use base_shared::Shared;
use base_values::Position;
use cell_content::fits_at;
use format_rules::{RuleList, has_fitting_trees, has_parts};
use sheet_grid::{Cell, Worksheet, array_at};
use std::collections::btree_map::Iter;

fn is_inside_if_any(rectangle: Option<MergedCell>) -> bool
    ensures { result ≡ is_inside_if_any rectangle }
{
    match rectangle {
        Some(rectangle) => rectangle.is_inside(),
        None => true,
    }
}

/// Whether an array at a place is inside the sheet. A cell that is no array does.
pub fn is_array_inside(place: Position, cell: &Cell) -> bool
    ensures { result ≡ is_inside_if_any (array_at place cell.now.content) }
{
    is_inside_if_any(array_at(place, &cell.content))
}

/// Whether each merge is inside the sheet.
pub fn are_merges_inside(merges: &MergeList) -> bool
    ensures { result ≡ list_all is_inside merges.now }
{
    merges.as_slice().iter().all(|merge| merge.is_inside())
}

/// Whether each array of these cells does.
pub fn are_arrays_inside(mut cells: Iter<'_, Position, Shared<Cell>>) -> bool
    ensures { result ≡ list_all (λ (entry : Position × Cell). is_inside_if_any (array_at entry.0 entry.1.content)) cells.entry }
{
    cells.all(|(place, cell)| is_array_inside(*place, cell.get()))
}

/// Whether each conditional rule stands on a part at least, and its parts are inside the sheet.
fn rules_have_parts(rules: &RuleList) -> bool
    ensures { result ≡ list_all has_parts rules.now }
{
    rules
        .as_slice()
        .iter()
        .all(|formatting| has_parts(formatting))
}

/// Whether each array and each merge of a sheet is inside, and so do the parts of each of its
/// conditional rules, at least one.
#[tactic(auto, unfolding(crate::specs::SheetDiffs::is_sheet_inside))]
pub(crate) fn is_sheet_inside(sheet: &Worksheet) -> bool
    ensures { result ≡ is_sheet_inside sheet.now }
{
    are_arrays_inside(sheet.cells())
        && are_merges_inside(sheet.merge_list())
        && rules_have_parts(sheet.conditional_formatting())
}

/// Whether the formula of each of these cells fits its place.
pub fn each_fits(mut cells: Iter<'_, Position, Shared<Cell>>) -> bool
    ensures { result ≡ list_all (λ (entry : Position × Cell). fits_at entry.0 entry.1.content) cells.entry }
{
    cells.all(|(place, cell)| fits_at(*place, &cell.get().content))
}

/// Whether the formula of each cell of a sheet fits its place.
#[tactic(auto, unfolding(crate::specs::SheetDiffs::cells_fit))]
pub(crate) fn cells_fit(sheet: &Worksheet) -> bool
    ensures { result ≡ cells_fit sheet.now.cells }
{
    each_fits(sheet.cells())
}

/// Whether the formulas of each conditional rule fit the rule's place.
pub(crate) fn rules_fit(rules: &RuleList) -> bool
    ensures { result ≡ list_all has_fitting_trees rules.now }
{
    rules
        .as_slice()
        .iter()
        .all(|formatting| has_fitting_trees(formatting))
}
