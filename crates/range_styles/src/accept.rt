//! Whether a change may be made of each style that a range touches. No test takes memory.

ghost use Rattle.std.specs.Prelude.{◌≡◌, ◌||◌, not, unsigned_abs};
ghost use Rattle.base_axis.specs.Rectangles.{IsInside};
ghost use Rattle.range_styles.specs.Styled.{all_accept, place_accepts};
ghost use Rattle.std.specs.List.{list_all};
ghost use Rattle.planned_maps.specs.Planned.{places_of};
ghost use Rattle.planned_maps.specs.laws.PlanWalks.{chosen_all, line_passes, places_all, rows_all};
ghost use Rattle.range_styles.specs.StyleRanges.{has_own_style};
ghost use Rattle.range_styles.specs.laws.StoredWalks.{stored_pass};

use crate::change::StyleChange;
use crate::lines::accepts_lines;
use crate::range::{StyleRange, is_small, reaches_all, reaches_columns, reaches_rows};
use crate::shown::{has_own_style, touches};
use crate::walk::has_line;
use base_axis::{Axis, AxisMap, RowAxis};
use base_values::Position;
use planned_maps::{count_across, place_across, row_at};
use sheet_grid::{DefaultStyle, LineAttr, Worksheet};

/// Whether the change may be made of what a place shows, if the place is touched.
fn accepts_place<C: StyleChange>(
    sheet: &Worksheet,
    default: &DefaultStyle,
    range: StyleRange,
    change: &C,
    place: Position,
) -> bool
    ensures { result ≡ place_accepts range (C.takes change.now) sheet.now place }
{
    !touches(range, sheet, default, place)
        || change.accepts(place, sheet.shown_style_at(place, default).get())
}

/// The same of the places of a line.
fn accepts_line<A: Axis, C: StyleChange>(
    sheet: &Worksheet,
    default: &DefaultStyle,
    range: StyleRange,
    change: &C,
    line: i32,
) -> bool
    requires { IsInside range.area }
    ensures { result ≡ line_passes (place_accepts range (C.takes change.now) sheet.now) A.along range.area line }
{
    let mut all = true;
    for index in 0..count_across::<A>(range.area) {
        let place = place_across::<A>(range.area, line, index);
        all = all && accepts_place(sheet, default, range, change, place);
    }
    all
}

/// The same, which holds where the line is none of the range.
fn accepts_own_line<A: Axis, C: StyleChange>(
    sheet: &Worksheet,
    default: &DefaultStyle,
    range: StyleRange,
    change: &C,
    line: i32,
) -> bool
    requires { IsInside range.area }
    ensures { result ≡ line_passes (place_accepts range (C.takes change.now) sheet.now) A.along range.area line }
{
    if has_line::<A>(range.area, line) {
        accepts_line::<A, C>(sheet, default, range, change, line)
    } else {
        true
    }
}

/// The same of the places of all rows of a range.
fn accepts_rows<C: StyleChange>(
    sheet: &Worksheet,
    default: &DefaultStyle,
    range: StyleRange,
    change: &C,
) -> bool
    requires { IsInside range.area }
    ensures { result ≡
        rows_all (place_accepts range (C.takes change.now) sheet.now) range.area (unsigned_abs range.area.height) }
{
    let mut all = true;
    for index in 0..range.area.height.unsigned_abs() {
        let row = row_at(range.area, index);
        all = all && accepts_line::<RowAxis, C>(sheet, default, range, change, row);
    }
    all
}

/// The same of the places of a line, if the line has a style.
fn accepts_styled<A: Axis, C: StyleChange>(
    sheet: &Worksheet,
    default: &DefaultStyle,
    range: StyleRange,
    change: &C,
    line: i32,
    attr: &LineAttr,
) -> bool
    requires { IsInside range.area }
    ensures { result ≡
        (not (has_own_style attr.now)
        || line_passes (place_accepts range (C.takes change.now) sheet.now) A.along range.area line) }
{
    !has_own_style(attr) || accepts_own_line::<A, C>(sheet, default, range, change, line)
}

/// The same of the places of the lines that have a style.
fn accepts_styled_lines<A: Axis, C: StyleChange>(
    sheet: &Worksheet,
    default: &DefaultStyle,
    range: StyleRange,
    change: &C,
    lines: &AxisMap<A, LineAttr>,
) -> bool
    requires { IsInside range.area }
    ensures { result ≡
        chosen_all (place_accepts range (C.takes change.now) sheet.now) has_own_style A.along range.area lines.now }
{
    let mut all = true;
    for (line, attr) in lines.iter() {
        all = all && accepts_styled::<A, C>(sheet, default, range, change, *line, attr);
    }
    all
}

/// The same of the places that have a cell.
fn accepts_cells<C: StyleChange>(
    sheet: &Worksheet,
    default: &DefaultStyle,
    range: StyleRange,
    change: &C,
) -> bool
    ensures { result ≡ places_all (place_accepts range (C.takes change.now) sheet.now) sheet.now.cells }
{
    sheet.cells().all(|(place, _cell)| accepts_place(sheet, default, range, change, *place))
}

/// The same of the places that are stored, as far as a range may touch them.
fn accepts_stored<C: StyleChange>(
    sheet: &Worksheet,
    default: &DefaultStyle,
    range: StyleRange,
    change: &C,
) -> bool
    requires { IsInside range.area }
    ensures { result ≡ stored_pass (place_accepts range (C.takes change.now) sheet.now) range sheet.now }
{
    accepts_cells(sheet, default, range, change)
        && (!reaches_rows(range)
            || accepts_styled_lines(sheet, default, range, change, sheet.row_map()))
        && (!reaches_columns(range)
            || accepts_styled_lines(sheet, default, range, change, sheet.column_map()))
}

/// The same of the places of a range. It goes over all of them where each is touched, or where they
/// are fewer than what the sheet stores, and else over what it stores.
#[tactic(auto, using(crate::specs::laws::RangeLaws::rows_accept, crate::specs::laws::RangeLaws::stored_accept))]
fn accepts_range<C: StyleChange>(
    sheet: &Worksheet,
    default: &DefaultStyle,
    range: StyleRange,
    change: &C,
) -> bool
    requires { IsInside range.area }
    ensures { result ≡ list_all (place_accepts range (C.takes change.now) sheet.now) (places_of range.area) }
{
    if reaches_all(range) {
        return accepts_rows(sheet, default, range, change);
    }
    if is_small(range.area, sheet) {
        return accepts_rows(sheet, default, range, change);
    }
    accepts_stored(sheet, default, range, change)
}

/// Whether the change may be made of each style of a place or a line that a range touches.
#[tactic(auto, unfolding(crate::specs::Styled::all_accept))]
pub(crate) fn all_accept<C: StyleChange>(
    sheet: &Worksheet,
    default: &DefaultStyle,
    range: StyleRange,
    change: &C,
) -> bool
    requires { IsInside range.area }
    ensures { result ≡ all_accept range (C.takes change.now) sheet.now }
{
    accepts_range(sheet, default, range, change)
        && accepts_lines(default, range, change, sheet.column_map())
        && accepts_lines(default, range, change, sheet.row_map())
}
