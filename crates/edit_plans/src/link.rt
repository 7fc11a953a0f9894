//! Links that are put and taken away.

ghost use Rattle.std.specs.Prelude.{◌≡◌, [], Ok, IfOk, IfSome, IsOkUnless};
ghost use Rattle.std.specs.List.{cons_option};
ghost use Rattle.base_values.specs.declared.EditError.TheVariants.{NoMemory};
ghost use Rattle.base_values.specs.Places.{place_of};
ghost use Rattle.sheet_rules.specs.WellFormed.{IsWellFormed};
ghost use Rattle.sheet_history.specs.Diffs.{IsCanonicalDiff, IsCanonicalList};
ghost use Rattle.edit_plans.specs.Plans.{Plans};
ghost use Rattle.edit_plans.specs.Links.{link_set};
ghost use Rattle.edit_plans.specs.laws.EditRecords.{link_change};

use crate::{link_diff, list_of_two};
use base_values::{EditError, Position, place_of};
use sheet_grid::{Link, Workbook, Worksheet};
use sheet_history::{Diff, DiffList};
use std::alloc::Global;

/// The diff of the link at a place that gets a link or none, or none where it stays.
pub(crate) fn link_change(
    sheet: &Worksheet,
    place: Position,
    link: Option<Link>,
) -> Result<Option<Diff>, EditError>
    requires { place_of place.row place.column ≡ Ok place }
    ensures output { IfOk result (λ diff. cons_option diff [] ≡ link_change sheet.now place link) }
    ensures canonical { IfOk result (λ diff. IfSome diff IsCanonicalDiff) }
    ensures only { IsOkUnless result NoMemory }
{
    let old = sheet.link(place.row, place.column)?;
    Ok(link_diff(sheet.get_sheet_id(), place, old, link))
}

/// The record of a link, or none, that goes to a place.
fn link_list(
    alloc: Global,
    sheet: &Worksheet,
    place: Position,
    link: Option<Link>,
) -> Result<DiffList, EditError>
    requires { place_of place.row place.column ≡ Ok place }
    ensures output { IfOk result (λ list. list ≡ link_change sheet.now place link) }
    ensures canonical { IfOk result IsCanonicalList }
    ensures only { IsOkUnless result NoMemory }
{
    let diff = link_change(sheet, place, link)?;
    list_of_two(alloc, diff, None)
}

/// The record of a link, or none, that goes to a row and a column of the sheet at an index: the
/// change of the link, or nothing where it stays. Nothing is changed.
///
/// `InvalidSheet` where there is no such sheet, else `InvalidRow` where the row is outside the
/// sheet, else `InvalidColumn` where the column is. Then `NoMemory` is possible.
pub fn plan_link(
    alloc: Global,
    workbook: &Workbook,
    sheet: u32,
    row: i32,
    column: i32,
    link: Option<Link>,
) -> Result<DiffList, EditError>
    requires rules { IsWellFormed workbook.now }
    ensures planned { Plans result workbook.now (link_set sheet row column link workbook.now) }
{
    let found = workbook.worksheet(sheet)?;
    let place = place_of(row, column)?;
    link_list(alloc, found, place, link)
}
