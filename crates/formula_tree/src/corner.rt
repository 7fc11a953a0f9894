ghost use Rattle.std.specs.Prelude.{◌≡◌, ◌≤ℤ◌, pos, IfSome, if◌then◌else◌};
ghost use Rattle.base_values.specs.Places.{IsPlace};
ghost use Rattle.formula_tree.specs.Corners.{corner_row, corner_column, is_inside, corner_at, number_at, corner_to, is_whole_rows, is_whole_columns, are_rows_reversed, are_columns_reversed, are_in_order, crossing, lower_corner, higher_corner};

use base_values::{Exact, LAST_COLUMN, LAST_ROW, Position, is_line};

/// A corner of a reference or range. On each axis an absolute number, written with `$`, is a line
/// of the sheet; a relative one is counted from the line of the formula's place.
#[derive(Clone, Copy, Debug, PartialEq, Eq)]
pub struct Corner {
    pub absolute_row: bool,
    pub row: i32,
    pub absolute_column: bool,
    pub column: i32,
}

impl Exact for Corner {
    ghost use Rattle.std.proofs.Common.{rules};
    ghost use Rattle.formula_tree.specs.laws.Equals.{corner_equals};

    ghost copies = { λ a b h. Prim.search rules };

    ghost equals = { corner_equals };
}

/// The row on which a corner of a formula at `place` stands, also where that is outside the sheet.
#[tactic(auto, unfolding(crate::specs::Corners::corner_row))]
pub fn corner_row(place: Position, corner: Corner) -> i64
    ensures { result ≡ corner_row place corner }
{
    let number = i64::from(corner.row);
    if corner.absolute_row {
        number
    } else {
        i64::from(place.row) + number
    }
}

/// The column on which a corner stands, also where that is outside the sheet.
#[tactic(auto, unfolding(crate::specs::Corners::corner_column))]
pub fn corner_column(place: Position, corner: Corner) -> i64
    ensures { result ≡ corner_column place corner }
{
    let number = i64::from(corner.column);
    if corner.absolute_column {
        number
    } else {
        i64::from(place.column) + number
    }
}

/// Whether a corner of a formula at `place` is inside the sheet.
#[tactic(auto, unfolding(crate::specs::Corners::is_inside))]
pub fn is_inside(place: Position, corner: Corner) -> bool
    ensures { result ≡ is_inside place corner }
{
    is_line(LAST_ROW, corner_row(place, corner))
        && is_line(LAST_COLUMN, corner_column(place, corner))
}

/// Where a corner of a formula at `place` stands. `None` where that is outside the sheet.
#[tactic(auto, unfolding(crate::specs::Corners::corner_at, crate::specs::Corners::is_inside))]
pub fn corner_at(place: Position, corner: Corner) -> Option<Position>
    ensures at { result ≡ corner_at place corner }
    ensures inside { IfSome result IsPlace }
{
    if !is_inside(place, corner) {
        return None;
    }
    Some(Position {
        row: corner_row(place, corner) as i32,
        column: corner_column(place, corner) as i32,
    })
}

/// The number that names a line, seen from the line of the formula.
fn number_at(absolute: bool, from: i32, line: i32) -> i32
    requires from_low { pos 1 ≤ℤ from }
    requires from_high { from ≤ℤ pos 1048576 }
    requires low { pos 1 ≤ℤ line }
    requires high { line ≤ℤ pos 1048576 }
    ensures { result ≡ number_at absolute from line }
{
    if absolute { line } else { line - from }
}

/// The corner of a formula at `place` that stands at `target`, with these marks.
#[tactic(auto, unfolding(crate::specs::Corners::corner_to))]
pub fn corner_to(
    place: Position,
    absolute_row: bool,
    absolute_column: bool,
    target: Position,
) -> Corner
    requires place { IsPlace place }
    requires target { IsPlace target }
    ensures { result ≡ corner_to place absolute_row absolute_column target }
{
    Corner {
        absolute_row,
        row: number_at(absolute_row, place.row, target.row),
        absolute_column,
        column: number_at(absolute_column, place.column, target.column),
    }
}

/// Whether a range takes all rows of its columns: its rows are the absolute first and last one.
#[tactic(auto, unfolding(crate::specs::Corners::is_whole_rows))]
pub fn is_whole_rows(first: Corner, second: Corner) -> bool
    ensures { result ≡ is_whole_rows first second }
{
    first.absolute_row && second.absolute_row && first.row == 1 && second.row == LAST_ROW
}

/// Whether a range takes all columns of its rows.
#[tactic(auto, unfolding(crate::specs::Corners::is_whole_columns))]
pub fn is_whole_columns(first: Corner, second: Corner) -> bool
    ensures { result ≡ is_whole_columns first second }
{
    first.absolute_column
        && second.absolute_column
        && first.column == 1
        && second.column == LAST_COLUMN
}

/// Whether the first corner stands on a later row.
fn are_rows_reversed(place: Position, first: Corner, second: Corner) -> bool
    ensures { result ≡ are_rows_reversed place first second }
{
    corner_row(place, second) < corner_row(place, first)
}

/// Whether the first corner stands on a later column.
fn are_columns_reversed(place: Position, first: Corner, second: Corner) -> bool
    ensures { result ≡ are_columns_reversed place first second }
{
    corner_column(place, second) < corner_column(place, first)
}

/// Whether on each axis the first corner does not stand after the second.
#[tactic(auto, unfolding(crate::specs::Corners::are_in_order))]
pub fn are_in_order(place: Position, first: Corner, second: Corner) -> bool
    ensures { result ≡ are_in_order place first second }
{
    !are_rows_reversed(place, first, second) && !are_columns_reversed(place, first, second)
}

fn chosen(reversed: bool, first: Corner, second: Corner) -> Corner
    ensures { result ≡ (if reversed then second else first) }
{
    if reversed { second } else { first }
}

/// The row of one corner and the column of another, each with its mark.
fn crossing(row: Corner, column: Corner) -> Corner
    ensures { result ≡ crossing row column }
{
    Corner {
        absolute_row: row.absolute_row,
        row: row.row,
        absolute_column: column.absolute_column,
        column: column.column,
    }
}

/// The corners of a range in order at a place: the upper row and the left column in the first, the
/// others in the second. The `$` marks travel with their numbers, and corners on one line stay.
#[tactic(auto, unfolding(crate::specs::Corners::lower_corner, crate::specs::Corners::higher_corner))]
pub fn order_corners(place: Position, first: Corner, second: Corner) -> (Corner, Corner)
    ensures first { result.0 ≡ lower_corner place first second }
    ensures second { result.1 ≡ higher_corner place first second }
{
    let rows = are_rows_reversed(place, first, second);
    let columns = are_columns_reversed(place, first, second);
    let lower = crossing(chosen(rows, first, second), chosen(columns, first, second));
    let higher = crossing(chosen(rows, second, first), chosen(columns, second, first));
    (lower, higher)
}
