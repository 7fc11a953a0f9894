//! What a fill goes on from, and the lines that it fills.

ghost use Rattle.std.specs.Prelude.{◌≡◌, ◌≢◌, ◌<◌, ◌≤◌, ◌<ℤ◌, ◌≤ℤ◌, ◌+ℤ◌, pos, Ok, Err, IfOk};
ghost use Rattle.base_values.specs.declared.EditError.TheVariants.{NoMemory};
ghost use Rattle.base_values.specs.Places.{IsLine, IsPlace, is_line, place_of};
ghost use Rattle.base_axis.specs.Rectangles.{IsInside, first_line, last_line};
ghost use Rattle.sheet_fill.specs.FillRanges.{IsRange, ahead, behind, counted_line, lines, range_of, source_of, source_place, target_place};

use base_axis::{Area, Axis, MergedCell, outside};
use base_values::{EditError, Position, is_line};

/// The source of a fill, and the target: the lines that are filled, on the same cross lines.
#[derive(Clone, Copy, Debug, PartialEq, Eq)]
pub struct FillRange {
    pub source: MergedCell,
    pub target: MergedCell,
    /// Whether the target lies behind the source: below it, or to the right.
    pub is_behind: bool,
}

/// The rectangle of an area.
pub fn source_of(area: &Area) -> MergedCell
    ensures { result ≡ source_of area.now }
{
    MergedCell {
        row: area.row,
        column: area.column,
        width: area.width,
        height: area.height,
    }
}

/// The lines behind a source up to a line.
fn behind<A: Axis>(source: MergedCell, last: i32, to: i32) -> FillRange
    requires inside { IsInside source }
    requires last { last ≡ last_line A.along source }
    requires line { IsLine A.along.last to }
    requires order { last <ℤ to }
    ensures range { result ≡ behind A.along source to }
    ensures inside { IsRange result }
{
    let next = last + 1;
    FillRange {
        source,
        target: source.with_lines::<A>(next, to),
        is_behind: true,
    }
}

/// The lines before a source back to a line.
fn ahead<A: Axis>(source: MergedCell, first: i32, to: i32) -> FillRange
    requires inside { IsInside source }
    requires first { first ≡ first_line A.along source }
    requires line { IsLine A.along.last to }
    requires order { to <ℤ first }
    ensures range { result ≡ ahead A.along source to }
    ensures inside { IsRange result }
{
    let before = first - 1;
    FillRange {
        source,
        target: source.with_lines::<A>(to, before),
        is_behind: false,
    }
}

fn is_line_of<A: Axis>(line: i32) -> bool
    ensures { result ≡ is_line A.along.last line }
{
    is_line(A::LAST, line as i64)
}

/// What is filled from a source up to a line. It takes no memory.
///
/// `InvalidArea` where the source is empty or reaches outside the sheet, else `InvalidRow` or
/// `InvalidColumn`, by the axis, where the line is outside it, else `NothingToFill` where the line is
/// one of the source's own.
#[tactic(auto, unfolding(crate::specs::FillRanges::range_of))]
pub fn fill_range<A: Axis>(source: MergedCell, to: i32) -> Result<FillRange, EditError>
    ensures range { result ≡ range_of A.along source to }
    ensures inside { IfOk result IsRange }
    ensures sure { result ≢ Err NoMemory }
{
    if !source.is_inside() {
        return Err(EditError::InvalidArea);
    }
    if !is_line_of::<A>(to) {
        return Err(outside::<A>());
    }
    let (first, last) = source.lines::<A>();
    if last < to {
        Ok(behind::<A>(source, last, to))
    } else if to < first {
        Ok(ahead::<A>(source, first, to))
    } else {
        Err(EditError::NothingToFill)
    }
}

/// How many lines a rectangle takes.
#[tactic(auto, using(crate::specs::laws::LineCounts::lines_is, crate::specs::laws::LineCounts::lines_some, crate::specs::laws::LineCounts::lines_few))]
pub fn lines<A: Axis>(rectangle: MergedCell) -> u32
    requires { IsInside rectangle }
    ensures count { result ≡ lines A.along rectangle }
    ensures some { 0 < result }
    ensures few { result ≤ 1048576 }
{
    rectangle.line_count::<A>().unsigned_abs()
}

/// The line at an index of the lines from `first` to `last`, counted from the first, or backwards
/// from the last.
fn counted_line(onwards: bool, first: i32, last: i32, index: u32) -> i32
    requires low { pos 1 ≤ℤ first }
    requires high { last ≤ℤ pos 1048576 }
    requires index { (first +ℤ pos index) ≤ℤ last }
    ensures line { result ≡ counted_line onwards first last index }
    ensures first { first ≤ℤ result }
    ensures last { result ≤ℤ last }
{
    if onwards {
        first + index as i32
    } else {
        last - index as i32
    }
}

/// A line of a rectangle, counted from its first line on, or from its last one back.
#[tactic(auto, using(crate::specs::laws::LineCounts::line_stands, crate::specs::laws::LineCounts::first_low, crate::specs::laws::LineCounts::last_far))]
fn line_of<A: Axis>(rectangle: MergedCell, onwards: bool, index: u32) -> i32
    requires inside { IsInside rectangle }
    requires index { index < lines A.along rectangle }
    ensures line { result ≡ counted_line onwards (first_line A.along rectangle) (last_line A.along rectangle) index }
    ensures inside { IsLine A.along.last result }
{
    let (first, last) = rectangle.lines::<A>();
    counted_line(onwards, first, last, index)
}

/// The target at an index on the cross line of `at`, counted from the source.
pub fn target_place<A: Axis>(range: FillRange, at: Position, index: u32) -> Position
    requires range { IsRange range }
    requires place { IsPlace at }
    requires index { index < lines A.along range.target }
    ensures place { result ≡ target_place A.along range at index }
    ensures inside { IsPlace result }
{
    A::with_line(at, line_of::<A>(range.target, range.is_behind, index))
}

/// The place of the source that this one repeats.
pub fn source_place<A: Axis>(range: FillRange, at: Position, index: u32) -> Position
    requires range { IsRange range }
    requires place { IsPlace at }
    ensures place { result ≡ source_place A.along range at index }
    ensures inside { IsPlace result }
    ensures named { place_of result.row result.column ≡ Ok result }
{
    let turn = index % lines::<A>(range.source);
    A::with_line(at, line_of::<A>(range.source, range.is_behind, turn))
}
