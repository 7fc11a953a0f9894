ghost use Rattle.std.specs.Prelude.{◌≡◌, pos};
ghost use Rattle.base_values.specs.Places.{IsLine};
ghost use Rattle.base_axis.specs.Rectangles.{IsInside, anchor_place, last_of, last_row, last_column, are_lines_inside, is_inside, is_between, holds, has_many, overlap, meets, is_part, is_inside_of, first_line, line_count, last_line, across, line_span, with_lines};

use crate::axis::Axis;
use base_values::{Exact, LAST_COLUMN, LAST_ROW, Position};

/// A rectangle of places of a sheet: its first row and column, and how many columns wide and rows
/// high it is. Its numbers may be any. docs/MODEL.md has the rules.
#[derive(Clone, Copy, Debug, PartialEq, Eq)]
pub struct MergedCell {
    pub row: i32,
    pub column: i32,
    pub width: i32,
    pub height: i32,
}

/// The last of so many lines from a first one on.
pub fn last_of(first: i32, count: i32) -> i64
    ensures { result ≡ last_of first count }
{
    i64::from(first) + (i64::from(count) - 1)
}

fn are_lines_inside(last: i32, first: i32, count: i32) -> bool
    ensures { result ≡ are_lines_inside last first count }
{
    1 <= first && 1 <= count && last_of(first, count) <= i64::from(last)
}

/// Whether a line is one of so many lines from a first one.
fn is_among(first: i32, count: i32, line: i32) -> bool
    ensures { result ≡ is_between first (last_of first count) line }
{
    first <= line && i64::from(line) <= last_of(first, count)
}

/// Whether so many lines from a first one and others share a line, where each are one or more.
fn overlap(first: i32, count: i32, first_other: i32, count_other: i32) -> bool
    ensures { result ≡ overlap first (last_of first count) first_other (last_of first_other count_other) }
{
    i64::from(first) <= last_of(first_other, count_other)
        && i64::from(first_other) <= last_of(first, count)
}

/// Whether so many lines from a first one are all among others.
fn is_part(first: i32, count: i32, first_other: i32, count_other: i32) -> bool
    ensures { result ≡ is_part first (last_of first count) first_other (last_of first_other count_other) }
{
    first_other <= first && last_of(first, count) <= last_of(first_other, count_other)
}

/// How many lines stand from one to another, both counted.
fn line_span(first: i32, last: i32) -> i32
    requires first { IsLine (pos 1048576) first }
    requires last { IsLine (pos 1048576) last }
    ensures { result ≡ line_span first last }
{
    last - first + 1
}

impl MergedCell {
    /// Its last row, which may lie outside the sheet.
    pub fn last_row(self) -> i64
        ensures { result ≡ last_row self }
    {
        last_of(self.row, self.height)
    }

    /// Its last column, which may lie outside the sheet.
    pub fn last_column(self) -> i64
        ensures { result ≡ last_column self }
    {
        last_of(self.column, self.width)
    }

    /// Its first place. A merge shows the cell that stands there.
    pub fn anchor_place(self) -> Position
        ensures { result ≡ anchor_place self }
    {
        Position {
            row: self.row,
            column: self.column,
        }
    }

    /// Whether it is at least one column wide and one row high, and all its places are of the sheet.
    #[tactic(auto, unfolding(crate::specs::Rectangles::is_inside))]
    pub fn is_inside(self) -> bool
        ensures { result ≡ is_inside self }
    {
        are_lines_inside(LAST_ROW, self.row, self.height)
            && are_lines_inside(LAST_COLUMN, self.column, self.width)
    }

    /// Whether a place is one of its places.
    #[tactic(auto, unfolding(crate::specs::Rectangles::holds))]
    pub fn holds(self, place: Position) -> bool
        ensures { result ≡ holds self place }
    {
        is_among(self.row, self.height, place.row)
            && is_among(self.column, self.width, place.column)
    }

    /// Whether it is more than one column wide or more than one row high.
    #[tactic(auto, unfolding(crate::specs::Rectangles::has_many))]
    pub fn has_many(self) -> bool
        ensures { result ≡ has_many self }
    {
        1 < self.width || 1 < self.height
    }

    fn shares_a_row(self, other: MergedCell) -> bool
        ensures { result ≡ overlap self.row (last_row self) other.row (last_row other) }
    {
        overlap(self.row, self.height, other.row, other.height)
    }

    fn shares_a_column(self, other: MergedCell) -> bool
        ensures { result ≡ overlap self.column (last_column self) other.column (last_column other) }
    {
        overlap(self.column, self.width, other.column, other.width)
    }

    /// Whether two rectangles share a row and a column. Of two that are inside the sheet it says
    /// whether they share a place.
    #[tactic(auto, unfolding(crate::specs::Rectangles::meets))]
    pub fn meets(self, other: MergedCell) -> bool
        ensures { result ≡ meets self other }
    {
        self.shares_a_row(other) && self.shares_a_column(other)
    }

    fn has_rows_of(self, other: MergedCell) -> bool
        ensures { result ≡ is_part self.row (last_row self) other.row (last_row other) }
    {
        is_part(self.row, self.height, other.row, other.height)
    }

    fn has_columns_of(self, other: MergedCell) -> bool
        ensures { result ≡ is_part self.column (last_column self) other.column (last_column other) }
    {
        is_part(self.column, self.width, other.column, other.width)
    }

    /// Whether each of its rows and columns is one of another's.
    #[tactic(auto, unfolding(crate::specs::Rectangles::is_inside_of))]
    pub fn is_inside_of(self, other: MergedCell) -> bool
        ensures { result ≡ is_inside_of self other }
    {
        self.has_rows_of(other) && self.has_columns_of(other)
    }

    /// The line of an axis on which it begins.
    pub fn first_line<A: Axis>(self) -> i32
        ensures { result ≡ first_line A.along self }
    {
        A::line(self.anchor_place())
    }

    /// How many lines of an axis it takes.
    pub fn line_count<A: Axis>(self) -> i32
        ensures { result ≡ line_count A.along self }
    {
        A::count_of(self.height, self.width)
    }

    /// The line of an axis on which it ends, which may lie outside the sheet.
    pub fn last_line<A: Axis>(self) -> i64
        ensures { result ≡ last_line A.along self }
    {
        last_of(self.first_line::<A>(), self.line_count::<A>())
    }

    /// How many lines across an axis it takes: columns where the axis goes from row to row.
    pub fn across<A: Axis>(self) -> i32
        ensures { result ≡ across A.along self }
    {
        A::count_of(self.width, self.height)
    }

    /// The lines of an axis on which it begins and ends, where it is inside the sheet.
    pub fn lines<A: Axis>(self) -> (i32, i32)
        requires { IsInside self }
        ensures first { result.0 ≡ first_line A.along self }
        ensures last { result.1 ≡ last_line A.along self }
    {
        let first = self.first_line::<A>();
        (first, first + (self.line_count::<A>() - 1))
    }

    /// The rectangle from a first line of an axis to a last, on the same cross lines.
    pub fn with_lines<A: Axis>(self, first: i32, last: i32) -> MergedCell
        requires first { IsLine A.along.last first }
        requires last { IsLine A.along.last last }
        ensures { result ≡ with_lines A.along self first last }
    {
        let place = A::with_line(self.anchor_place(), first);
        let count = line_span(first, last);
        MergedCell {
            row: place.row,
            column: place.column,
            width: A::count_of(self.width, count),
            height: A::count_of(count, self.height),
        }
    }
}

impl Exact for MergedCell {
    ghost use Rattle.std.proofs.Common.{rules};
    ghost use Rattle.base_axis.specs.laws.MergedEquals.{merged_equals};

    ghost copies = { λ a b h. Prim.search rules };

    ghost equals = { merged_equals };
}
