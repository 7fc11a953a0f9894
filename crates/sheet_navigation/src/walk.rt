ghost use Rattle.std.specs.Prelude.{◌≡◌, ◌<◌, ◌≤ℤ◌, ℕ, pos};
ghost use Rattle.std.specs.Int.{int_gap};
ghost use Rattle.base_values.specs.Places.{IsPlace};
ghost use Rattle.sheet_navigation.specs.Walk.{steps_on, steps_left};

use crate::direction::NavigationDirection;
use base_values::{LAST_COLUMN, LAST_ROW, Position};

/// How far one line of the sheet is behind another.
fn gap(low: i32, high: i32) -> u32
    requires low { pos 1 ≤ℤ low }
    requires high { low ≤ℤ high }
    ensures { result ≡ int_gap low high }
{
    (high - low) as u32
}

/// How many steps there are from a place to the sheet's edge.
#[tactic(auto, unfolding(crate::specs::Walk::steps_left))]
pub(crate) fn steps_left(direction: NavigationDirection, place: Position) -> u32
    requires { IsPlace place }
    ensures { result ≡ steps_left direction place }
{
    match direction {
        NavigationDirection::Left => gap(1, place.column),
        NavigationDirection::Right => gap(place.column, LAST_COLUMN),
        NavigationDirection::Up => gap(1, place.row),
        NavigationDirection::Down => gap(place.row, LAST_ROW),
    }
}

/// The place one step on.
pub(crate) fn next_place(direction: NavigationDirection, place: Position) -> Position
    requires place { IsPlace place }
    requires step { 0 < steps_left direction place }
    ensures value { result ≡ steps_on direction place 1 }
    ensures inside { IsPlace result }
{
    let (row, column) = (place.row, place.column);
    match direction {
        NavigationDirection::Left => Position {
            row,
            column: column - 1,
        },
        NavigationDirection::Right => Position {
            row,
            column: column + 1,
        },
        NavigationDirection::Up => Position {
            row: row - 1,
            column,
        },
        NavigationDirection::Down => Position {
            row: row + 1,
            column,
        },
    }
}
