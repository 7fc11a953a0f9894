ghost use Rattle.std.specs.Prelude.{◌≡◌, ◌&&◌, is_none};
ghost use Rattle.std.specs.List.{list_all};
ghost use Rattle.std.specs.FinMap.{entries};
ghost use Rattle.base_values.specs.Places.{is_line, is_place};
ghost use Rattle.sheet_rules.specs.Names.{have_name_trees};
ghost use Rattle.sheet_rules.specs.Occupied.{have_arrays, have_merges, are_hidden_blank};
ghost use Rattle.sheet_rules.specs.WellFormed.{are_sheets, has_keys_inside, have_trees, have_rule_trees, have_attributes, is_count, are_frozen, have_rule_parts, broken_rule};

use crate::attributes::have_attributes;
use crate::defined::{are_names, have_name_trees};
use crate::formattings::{have_rule_parts, have_rule_trees};
use crate::ids::have_distinct_ids;
use crate::names::{have_distinct_names, have_names};
use crate::occupied::{are_hidden_blank, have_arrays, have_merges};
use base_axis::{Axis, AxisMap};
use base_values::{LAST_COLUMN, LAST_ROW, PlaceMap};
use cell_content::fits_at;
use sheet_grid::{Workbook, Worksheet};

/// Rule 1: there is a sheet, ids are distinct, names are legal and distinct by case folding.
#[tactic(auto, unfolding(crate::specs::WellFormed::are_sheets))]
fn are_sheets(sheets: &[Worksheet]) -> bool
    ensures { result ≡ are_sheets sheets.now }
{
    !sheets.is_empty()
        && have_distinct_ids(sheets)
        && have_names(sheets)
        && have_distinct_names(sheets)
}

/// Whether the keys of a map are places of the sheet. Its type keeps them so: nothing is walked.
fn are_places<V>(map: &PlaceMap<V>) -> bool
    ensures { result ≡ list_all (λ entry. is_place entry.0) (entries map.now) }
{
    // The promise is one of the type.
    let _ = map.iter();
    true
}

/// Whether the keys of a map are lines of its axis. Its type keeps them so: nothing is walked.
fn are_lines<A: Axis, V>(map: &AxisMap<A, V>) -> bool
    ensures { result ≡ list_all (λ entry. is_line A.along.last entry.0) (entries map.now) }
{
    // The promise is one of the type.
    let _ = map.iter();
    true
}

/// Rule 2: cells, links, rows and columns are inside the sheet.
#[tactic(auto, unfolding(crate::specs::WellFormed::has_keys_inside))]
fn has_keys_inside(sheet: &Worksheet) -> bool
    ensures { result ≡ has_keys_inside sheet.now }
{
    are_places(sheet.cell_map())
        && are_places(sheet.link_map())
        && are_lines(sheet.row_map())
        && are_lines(sheet.column_map())
}

fn all_have_keys_inside(sheets: &[Worksheet]) -> bool
    ensures { result ≡ list_all has_keys_inside sheets.now }
{
    sheets.iter().all(has_keys_inside)
}

fn all_have_arrays(sheets: &[Worksheet]) -> bool
    ensures { result ≡ list_all have_arrays sheets.now }
{
    sheets.iter().all(have_arrays)
}

fn all_have_merges(sheets: &[Worksheet]) -> bool
    ensures { result ≡ list_all have_merges sheets.now }
{
    sheets.iter().all(have_merges)
}

fn all_are_hidden_blank(sheets: &[Worksheet]) -> bool
    ensures { result ≡ list_all are_hidden_blank sheets.now }
{
    sheets.iter().all(are_hidden_blank)
}

/// Rule 6 of a sheet: each formula may stand at its place.
#[tactic(auto, unfolding(crate::specs::WellFormed::have_trees))]
fn have_trees(sheet: &Worksheet) -> bool
    ensures { result ≡ have_trees sheet.now }
{
    sheet
        .cells()
        .all(|(place, cell)| fits_at(*place, &cell.get().content))
}

fn all_have_trees(sheets: &[Worksheet]) -> bool
    ensures { result ≡ list_all have_trees sheets.now }
{
    sheets.iter().all(have_trees)
}

fn all_have_rule_trees(sheets: &[Worksheet]) -> bool
    ensures { result ≡ list_all have_rule_trees sheets.now }
{
    sheets.iter().all(have_rule_trees)
}

/// Rule 6: so it is in each sheet, with the formulas of its conditional rules too, and each tree of a
/// defined name may stand at A1.
fn have_all_trees(workbook: &Workbook) -> bool
    ensures { result ≡ (list_all have_trees workbook.now.worksheets && list_all have_rule_trees workbook.now.worksheets && have_name_trees workbook.now.names) }
{
    let sheets = workbook.worksheets();
    all_have_trees(sheets)
        && all_have_rule_trees(sheets)
        && have_name_trees(workbook.defined_names())
}

fn all_have_attributes(sheets: &[Worksheet]) -> bool
    ensures { result ≡ list_all have_attributes sheets.now }
{
    sheets.iter().all(have_attributes)
}

fn is_count(most: i32, count: i32) -> bool
    ensures { result ≡ is_count most count }
{
    0 <= count && count <= most
}

/// Rule 9 of a sheet: fewer lines than it has stay at its top and at its left.
fn are_frozen(sheet: &Worksheet) -> bool
    ensures { result ≡ are_frozen sheet.now }
{
    is_count(LAST_ROW - 1, sheet.frozen_rows()) && is_count(LAST_COLUMN - 1, sheet.frozen_columns())
}

fn all_are_frozen(sheets: &[Worksheet]) -> bool
    ensures { result ≡ list_all are_frozen sheets.now }
{
    sheets.iter().all(are_frozen)
}

fn all_have_rule_parts(sheets: &[Worksheet]) -> bool
    ensures { result ≡ list_all have_rule_parts sheets.now }
{
    sheets.iter().all(have_rule_parts)
}

/// Rule 9: so it is in each sheet, and each of its conditional rules stands on parts inside it.
fn have_counts_and_parts(sheets: &[Worksheet]) -> bool
    ensures { result ≡ (list_all are_frozen sheets.now && list_all have_rule_parts sheets.now) }
{
    all_are_frozen(sheets) && all_have_rule_parts(sheets)
}

/// The number of the first rule that a workbook breaks, or none. It takes no memory.
/// docs/MODEL.md has the rules with their numbers.
pub fn broken_rule(workbook: &Workbook) -> Option<u8>
    ensures { result ≡ broken_rule workbook.now }
{
    let sheets = workbook.worksheets();
    if !are_sheets(sheets) {
        Some(1)
    } else if !all_have_keys_inside(sheets) {
        Some(2)
    } else if !all_have_arrays(sheets) {
        Some(3)
    } else if !all_have_merges(sheets) {
        Some(4)
    } else if !all_are_hidden_blank(sheets) {
        Some(5)
    } else if !have_all_trees(workbook) {
        Some(6)
    } else if !all_have_attributes(sheets) {
        Some(7)
    } else if !are_names(sheets, workbook.defined_names()) {
        Some(8)
    } else if !have_counts_and_parts(sheets) {
        Some(9)
    } else {
        None
    }
}

/// Whether a workbook breaks no rule. It takes no memory. docs/MODEL.md has the rules.
pub fn is_well_formed(workbook: &Workbook) -> bool
    ensures { result ≡ is_none (broken_rule workbook.now) }
{
    broken_rule(workbook).is_none()
}
