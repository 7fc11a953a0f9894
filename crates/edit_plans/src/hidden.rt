//! How far lines are moved where hidden lines stand in the way.

ghost use Rattle.std.specs.Prelude.{◌≡◌, pos, if◌then◌else◌, ◌≤ℤ◌};
ghost use Rattle.edit_plans.specs.HiddenLines.{is_hidden_between, hidden_in, hidden_between, grown};

use base_axis::{Axis, AxisMap};
use sheet_grid::{LineAttr, Worksheet};

/// 1 where a line is hidden and is one from a first to a last, else 0.
fn counted(line: i32, attr: &LineAttr, first: i64, last: i64) -> i64
    ensures { result ≡ (if is_hidden_between first last (line, attr.now) then pos 1 else pos 0) }
{
    if attr.hidden && first <= i64::from(line) && i64::from(line) <= last {
        1
    } else {
        0
    }
}

/// How many lines of a map from a first to a last are hidden.
fn hidden_in<B: Axis>(lines: &AxisMap<B, LineAttr>, first: i64, last: i64) -> i64
    ensures counted { result ≡ pos (hidden_in lines.now first last) }
    ensures few { result ≤ℤ pos 1048576 }
{
    let mut count = 0;
    for (line, attr) in lines.iter() {
        count += counted(*line, attr, first, last);
    }
    count
}

/// How many lines of a sheet from a first to a last are hidden.
fn hidden_between<A: Axis>(sheet: &Worksheet, first: i64, last: i64) -> i64
    ensures counted { result ≡ pos (hidden_between A.along sheet.now first last) }
    ensures few { result ≤ℤ pos 1048576 }
{
    if A::of(true, false) {
        hidden_in(sheet.row_map(), first, last)
    } else {
        hidden_in(sheet.column_map(), first, last)
    }
}

/// By how many lines a block of `count` lines from a line on is moved, where it is asked to move by
/// `delta` lines, back where it is below 0. Hidden lines that the block passes are added to the
/// distance: those from behind the block to one line behind its new end, or those from its new
/// first line to before the block. It takes no memory.
#[tactic(auto, unfolding(crate::specs::HiddenLines::grown))]
pub fn grown_delta<A: Axis>(sheet: &Worksheet, first: i32, count: i32, delta: i32) -> i64
    ensures { result ≡ grown A.along sheet.now first count delta }
{
    let first = i64::from(first);
    let delta = i64::from(delta);
    if 0 < delta {
        let behind = first + i64::from(count);
        delta + hidden_between::<A>(sheet, behind, behind + delta)
    } else {
        delta - hidden_between::<A>(sheet, first + delta, first - 1)
    }
}
