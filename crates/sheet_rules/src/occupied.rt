//! Where the arrays and the merges of a sheet may stand, and what may stand at the places that they
//! take. Merges and arrays of more than one cell are compared in pairs, which takes no memory: they
//! are few. Only rules 3 and 5 look at each cell, for its own array and for those that cover it.

ghost use Rattle.std.specs.Prelude.{◌≡◌, map};
ghost use Rattle.std.specs.List.{find, list_all, list_any};
ghost use Rattle.base_axis.specs.Rectangles.{holds, is_inside};
ghost use Rattle.sheet_grid.specs.Arrays.{arrays_of, large_arrays_of};
ghost use Rattle.sheet_grid.specs.Merges.{is_empty};
ghost use Rattle.sheet_rules.specs.Occupied.{are_apart, meets_any, have_arrays, is_merge, have_merges, covers, covers_blanks, are_hidden_blank, is_hidden_place, array_over};

use base_axis::MergedCell;
use base_values::Position;
use cell_content::Content;
use sheet_grid::{Worksheet, array_at};
use std::collections::btree_map::Iter;

fn are_arrays_inside(sheet: &Worksheet) -> bool
    ensures { result ≡ list_all is_inside (arrays_of sheet.now) }
{
    sheet
        .cells()
        .filter_map(|(place, cell)| array_at(*place, &cell.get().content))
        .all(|array| array.is_inside())
}

/// Whether a rectangle meets one of some arrays, as a sheet lists them.
fn meets_one(arrays: Iter<'_, Position, MergedCell>, rectangle: MergedCell) -> bool
    ensures { result ≡ meets_any (map (λ array. array.1) arrays.entry) rectangle }
{
    arrays
        .map(|(_, array)| *array)
        .any(|array| rectangle.meets(array))
}

/// The same of arrays that are still to be listed.
fn meets_later(arrays: &Iter<'_, Position, MergedCell>, rectangle: MergedCell) -> bool
    ensures { result ≡ meets_any (map (λ array. array.1) arrays.now) rectangle }
{
    match arrays.clone() {
        Ok(arrays) => meets_one(arrays, rectangle),
        Err(_) => unreachable!(),
    }
}

/// Whether no two arrays of more than one cell meet.
fn arrays_are_apart(sheet: &Worksheet) -> bool
    ensures { result ≡ are_apart (large_arrays_of sheet.now) }
{
    let mut rest = sheet.large_arrays();
    while let Some((_, first)) = rest.next() {
        if meets_later(&rest, *first) {
            return false;
        }
    }
    true
}

/// Rule 3: each array is inside the sheet, and no two of more than one cell meet.
#[tactic(auto, unfolding(crate::specs::Occupied::have_arrays))]
pub(crate) fn have_arrays(sheet: &Worksheet) -> bool
    ensures { result ≡ have_arrays sheet.now }
{
    are_arrays_inside(sheet) && arrays_are_apart(sheet)
}

fn is_merge(merge: MergedCell) -> bool
    ensures { result ≡ is_merge merge }
{
    merge.has_many() && merge.is_inside()
}

fn are_merges(merges: &[MergedCell]) -> bool
    ensures { result ≡ list_all is_merge merges.now }
{
    merges.iter().all(|merge| is_merge(*merge))
}

fn meets_any(others: &[MergedCell], rectangle: MergedCell) -> bool
    ensures { result ≡ meets_any others.now rectangle }
{
    others.iter().any(|other| rectangle.meets(*other))
}

/// Whether no two merges meet.
fn merges_are_apart(merges: &[MergedCell]) -> bool
    ensures { result ≡ are_apart merges.now }
{
    let mut rest = merges;
    while let Some((first, others)) = rest.split_first() {
        if meets_any(others, *first) {
            return false;
        }
        rest = others;
    }
    true
}

/// Whether one of some arrays meets a merge.
fn one_meets(arrays: Iter<'_, Position, MergedCell>, merges: &[MergedCell]) -> bool
    ensures { result ≡ list_any (meets_any merges.now) (map (λ array. array.1) arrays.entry) }
{
    arrays
        .map(|(_, array)| *array)
        .any(|array| meets_any(merges, array))
}

/// Whether an array of more than one cell meets a merge.
fn arrays_meet_merges(sheet: &Worksheet) -> bool
    ensures { result ≡ list_any (meets_any sheet.now.merges) (large_arrays_of sheet.now) }
{
    one_meets(sheet.large_arrays(), sheet.merged_cells())
}

/// Rule 4: each merge has two cells or more and is inside the sheet, no two meet, and none meets
/// an array of more than one cell.
#[tactic(auto, unfolding(crate::specs::Occupied::have_merges))]
pub(crate) fn have_merges(sheet: &Worksheet) -> bool
    ensures { result ≡ have_merges sheet.now }
{
    let merges = sheet.merged_cells();
    are_merges(merges) && merges_are_apart(merges) && !arrays_meet_merges(sheet)
}

fn is_empty(content: &Content) -> bool
    ensures { result ≡ is_empty content.now }
{
    matches!(content, Content::Empty)
}

/// Whether a place is one of a rectangle's places, and not its first.
fn covers(rectangle: MergedCell, place: Position) -> bool
    ensures { result ≡ covers rectangle place }
{
    rectangle.holds(place) && rectangle.anchor_place() != place
}

/// Whether each cell that a rectangle covers is without content.
fn covers_blanks(sheet: &Worksheet, rectangle: MergedCell) -> bool
    ensures { result ≡ covers_blanks sheet.now rectangle }
{
    sheet.cells().all(|(place, cell)| is_empty(&cell.get().content) || !covers(rectangle, *place))
}

fn merges_cover_blanks(sheet: &Worksheet) -> bool
    ensures { result ≡ list_all (covers_blanks sheet.now) sheet.now.merges }
{
    sheet
        .merged_cells()
        .iter()
        .all(|merge| covers_blanks(sheet, *merge))
}

/// Whether each cell that one of some arrays covers is without content.
fn each_covers_blanks(sheet: &Worksheet, arrays: Iter<'_, Position, MergedCell>) -> bool
    ensures { result ≡ list_all (covers_blanks sheet.now) (map (λ array. array.1) arrays.entry) }
{
    arrays
        .map(|(_, array)| *array)
        .all(|array| covers_blanks(sheet, array))
}

fn arrays_cover_blanks(sheet: &Worksheet) -> bool
    ensures { result ≡ list_all (covers_blanks sheet.now) (large_arrays_of sheet.now) }
{
    each_covers_blanks(sheet, sheet.large_arrays())
}

/// Rule 5: the cells that merges and arrays cover are without content.
#[tactic(auto, unfolding(crate::specs::Occupied::are_hidden_blank))]
pub(crate) fn are_hidden_blank(sheet: &Worksheet) -> bool
    ensures { result ≡ are_hidden_blank sheet.now }
{
    merges_cover_blanks(sheet) && arrays_cover_blanks(sheet)
}

fn is_merged_away(sheet: &Worksheet, place: Position) -> bool
    ensures { result ≡ list_any (λ merge. covers merge place) sheet.now.merges }
{
    sheet
        .merged_cells()
        .iter()
        .any(|merge| covers(*merge, place))
}

/// Whether one of some arrays covers a place.
fn one_covers(arrays: Iter<'_, Position, MergedCell>, place: Position) -> bool
    ensures { result ≡ list_any (λ array. covers array place) (map (λ array. array.1) arrays.entry) }
{
    arrays
        .map(|(_, array)| *array)
        .any(|array| covers(array, place))
}

fn is_array_child(sheet: &Worksheet, place: Position) -> bool
    ensures { result ≡ list_any (λ array. covers array place) (large_arrays_of sheet.now) }
{
    one_covers(sheet.large_arrays(), place)
}

/// Whether no content may stand at a place: a merge or an array holds it and begins elsewhere. It
/// looks at the merges and at the arrays of more than one cell alone, and takes no memory.
/// docs/MODEL.md has the rule.
#[tactic(auto, unfolding(crate::specs::Occupied::is_hidden_place))]
pub fn is_hidden_place(sheet: &Worksheet, place: Position) -> bool
    ensures { result ≡ is_hidden_place sheet.now place }
{
    is_merged_away(sheet, place) || is_array_child(sheet, place)
}

/// The first of some arrays that holds a place.
fn first_holding(arrays: Iter<'_, Position, MergedCell>, place: Position) -> Option<MergedCell>
    ensures { result ≡ find (λ array. holds array place) (map (λ array. array.1) arrays.entry) }
{
    arrays
        .map(|(_, array)| *array)
        .find(|array| array.holds(place))
}

/// The first array of more than one cell, by row and then by column, that holds a place; the place
/// where the array stands counts. It looks at such arrays alone, and takes no memory.
pub fn array_over(sheet: &Worksheet, place: Position) -> Option<MergedCell>
    ensures { result ≡ array_over sheet.now place }
{
    first_holding(sheet.large_arrays(), place)
}
