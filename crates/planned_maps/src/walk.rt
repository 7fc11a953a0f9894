//! The lines of a rectangle, and its places on a line.

ghost use Rattle.std.specs.Prelude.{◌≡◌, ◌<◌, ◌≤ℤ◌, ◌+ℤ◌, pos, unsigned_abs};
ghost use Rattle.base_axis.specs.Rectangles.{IsInside, first_line, line_count};
ghost use Rattle.base_values.specs.Places.{IsLine, IsPlace};
ghost use Rattle.planned_maps.specs.Walks.{count_across, place_across};

use base_axis::{Axis, MergedCell};
use base_values::Position;

/// The line that stands so many lines behind another one.
fn line_behind(first: i32, index: u32) -> i32
    requires low { pos 1 ≤ℤ first }
    requires high { (first +ℤ pos index) ≤ℤ pos 1048576 }
    ensures { result ≡ first +ℤ pos index }
{
    first + index as i32
}

/// How many places of a rectangle are on each line of an axis.
pub fn count_across<A: Axis>(area: MergedCell) -> u32
    ensures { result ≡ count_across A.along area }
{
    area.across::<A>().unsigned_abs()
}

/// The place of a rectangle on a line that stands so many cross lines behind its first one.
pub fn place_across<A: Axis>(area: MergedCell, line: i32, index: u32) -> Position
    requires area { IsInside area }
    requires few { index < count_across A.along area }
    ensures place { result ≡ place_across A.along area line index }
    ensures inside { IsLine A.along.last line → IsPlace result }
{
    let cross = line_behind(A::count_of(area.column, area.row), index);
    let place = Position {
        row: cross,
        column: cross,
    };
    A::with_line(place, line)
}

/// How many lines of an axis a rectangle takes.
pub fn count_lines<A: Axis>(area: MergedCell) -> u32
    ensures { result ≡ unsigned_abs (line_count A.along area) }
{
    area.line_count::<A>().unsigned_abs()
}

/// The line of a rectangle that stands so many lines behind its first one.
pub fn line_in<A: Axis>(area: MergedCell, index: u32) -> i32
    requires area { IsInside area }
    requires few { index < unsigned_abs (line_count A.along area) }
    ensures line { result ≡ first_line A.along area +ℤ pos index }
    ensures inside { IsLine A.along.last result }
{
    line_behind(area.first_line::<A>(), index)
}

/// The row of a rectangle that stands so many rows behind its first one.
pub fn row_at(area: MergedCell, index: u32) -> i32
    requires area { IsInside area }
    requires few { index < unsigned_abs area.height }
    ensures row { result ≡ area.row +ℤ pos index }
    ensures inside { IsLine (pos 1048576) result }
{
    line_behind(area.row, index)
}
