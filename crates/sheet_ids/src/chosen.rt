//! Which sheet is selected after an edit, and what of it.

ghost use Rattle.std.specs.Prelude.{◌≡◌, ◌<◌, length};
ghost use Rattle.std.specs.List.{position};
ghost use Rattle.std.specs.Option.{option_copied, option_map};
ghost use Rattle.sheet_ids.specs.Chosen.{id_of, id_at, is_shown, is_visible, next_visible, selected_after_delete, last_index, range_of, viewed};

use crate::view::View;
use sheet_grid::{SheetState, Worksheet, sheet_at};

fn is_shown(state: SheetState) -> bool
    ensures { result ≡ is_shown state }
{
    match state {
        SheetState::Visible => true,
        SheetState::Hidden => false,
        SheetState::VeryHidden => false,
    }
}

fn first_visible(sheets: &[Worksheet]) -> Option<usize>
    ensures { result ≡ position is_visible sheets.now }
{
    sheets.iter().position(|sheet| is_shown(sheet.state()))
}

/// The index of the next visible sheet behind the one at an index, else of the first one before it.
/// None where no other sheet is visible.
pub fn next_visible(sheets: &[Worksheet], index: usize) -> Option<usize>
    requires { index < length sheets.now }
    ensures { result ≡ next_visible sheets.now index }
{
    match first_visible(&sheets[index + 1..]) {
        Some(further) => Some(index + 1 + further),
        None => first_visible(&sheets[..index]),
    }
}

/// The index that is selected after the sheet at an index, of so many, was deleted: the one before it,
/// where it was the last one, else the same as before.
pub fn selected_after_delete(count: usize, index: usize, selected: usize) -> usize
    requires { index < count }
    ensures { result ≡ selected_after_delete count index selected }
{
    if index + 1 == count && index > 0 {
        index - 1
    } else {
        selected
    }
}

fn id_of(sheet: Option<&Worksheet>) -> Option<u32>
    ensures { result ≡ option_map id_of (option_copied sheet.entry) }
{
    match sheet {
        Some(sheet) => Some(sheet.get_sheet_id()),
        None => None,
    }
}

fn id_at(sheets: &[Worksheet], index: usize) -> Option<u32>
    ensures { result ≡ id_at sheets.now index }
{
    id_of(sheet_at(sheets, index))
}

/// The id of the sheet that a view shows.
pub fn viewed_id(sheets: &[Worksheet], view: View) -> Option<u32>
    ensures { result ≡ id_at sheets.now view.sheet }
{
    id_at(sheets, view.sheet as usize)
}

fn last_index(count: usize) -> usize
    ensures { result ≡ last_index count }
{
    count.saturating_sub(1).min(u32::MAX as usize)
}

fn range_of(was: Option<u32>, is: Option<u32>, range: [i32; 4]) -> [i32; 4]
    ensures { result ≡ range_of was is range }
{
    if was == is { range } else { [1, 1, 1, 1] }
}

/// The view of sheets where the one at an index is selected, or the last one where they are fewer.
/// Another sheet than the one that was viewed before, which had that id, starts at A1.
pub fn viewed(was: Option<u32>, sheets: &[Worksheet], index: usize, view: View) -> View
    ensures { result ≡ viewed was sheets.now index view }
{
    let chosen = index.min(last_index(sheets.len()));
    View {
        sheet: chosen as u32,
        range: range_of(was, id_at(sheets, chosen), view.range),
    }
}
