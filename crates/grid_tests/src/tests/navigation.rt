// Navigation from each place of a small sheet against a plain walk. `x` has a value, and the merge of
// B2:C3, of which B2 alone has one, is shown as it counts:
//
//       A B C D E
//     1 x x . x x
//     2 . x x x .
//     3 x x x . .
//     4 . . x . .
//     5 x . x . x
//
// Row 9 has values in A to E, and H in rows 1 to 4, so that few walks are long.
ghost use Rattle.std.specs.Prelude.{IfOk};
ghost use Rattle.sheet_navigation.specs.Navigated.{MergesInside};

use base_axis::MergedCell;
use base_shared::Shared;
use base_styles::Style;
use base_values::{EditError, Items};
use sheet_grid::{DefaultStyle, Worksheet};
use sheet_navigation::{Navigate, NavigationDirection};
use std::alloc::Global;
use std::test::Fail;

const FILLED: [(i32, i32); 20] = [
    (1, 1),
    (1, 2),
    (1, 4),
    (1, 5),
    (1, 8),
    (2, 2),
    (2, 4),
    (2, 8),
    (3, 1),
    (3, 8),
    (4, 3),
    (4, 8),
    (5, 1),
    (5, 3),
    (5, 5),
    (9, 1),
    (9, 2),
    (9, 3),
    (9, 4),
    (9, 5),
];

fn fill(sheet: &mut Worksheet, style: &Shared<Style>) -> Result<(), EditError> {
    for (row, column) in FILLED {
        sheet.set_cell_with_boolean(row, column, true, style.get())?;
    }
    Ok(())
}

fn filled(alloc: Global) -> Result<Worksheet, EditError> {
    let style = DefaultStyle::new(alloc)?;
    let mut sheet = Worksheet::new(alloc, 1, "Sheet1")?;
    fill(&mut sheet, style.shared())?;
    Ok(sheet)
}

fn sheet(alloc: Global) -> Result<Worksheet, EditError>
    ensures { IfOk result MergesInside }
{
    let mut sheet = filled(alloc)?;
    let mut merges = Items::empty(alloc);
    merges.push(MergedCell {
        row: 2,
        column: 2,
        width: 2,
        height: 2,
    })?;
    sheet.set_merged_cells(merges);
    Ok(sheet)
}

fn is_merged(row: i32, column: i32) -> bool {
    (2..=3).contains(&row) && (2..=3).contains(&column)
}

fn is_filled(row: i32, column: i32) -> bool {
    is_merged(row, column) || FILLED.contains(&(row, column))
}

/// Where a walk arrives that goes on by so many rows and columns at each step.
fn arrival(start: (i32, i32), down: i32, right: i32) -> (i32, i32) {
    let (mut row, mut column) = start;
    let mut is_run = None;
    for _ in 0..1_048_576 {
        let next = (row.saturating_add(down), column.saturating_add(right));
        if !(1..=1_048_576).contains(&next.0) || !(1..=16_384).contains(&next.1) {
            break;
        }
        let is_inside_merge = is_run.is_none() && is_merged(row, column);
        if is_inside_merge && is_merged(next.0, next.1) {
            (row, column) = next;
            continue;
        }
        let runs = is_run.unwrap_or(is_filled(row, column) && is_filled(next.0, next.1));
        is_run = Some(runs);
        if runs && !is_filled(next.0, next.1) {
            break;
        }
        (row, column) = next;
        if !runs && is_filled(row, column) {
            break;
        }
    }
    (row, column)
}

/// The first of the 25 places from which a call arrives elsewhere than a walk.
fn first_astray(
    sheet: &Worksheet,
    direction: NavigationDirection,
    down: i32,
    right: i32,
) -> Result<Option<(i32, i32)>, EditError>
    requires { MergesInside sheet.now }
{
    for at in 0..25 {
        let (row, column) = (at / 5 + 1, at % 5 + 1);
        let reached = sheet.navigate_to_edge_in_direction(row, column, direction)?;
        if reached != arrival((row, column), down, right) {
            return Ok(Some((row, column)));
        }
    }
    Ok(None)
}

/// That place in one direction, then in the next one.
fn astray(sheet: &Worksheet) -> Result<Option<(i32, i32)>, EditError>
    requires { MergesInside sheet.now }
{
    for (direction, down, right) in [
        (NavigationDirection::Left, 0, -1),
        (NavigationDirection::Right, 0, 1),
        (NavigationDirection::Up, -1, 0),
        (NavigationDirection::Down, 1, 0),
    ] {
        let place = first_astray(sheet, direction, down, right)?;
        if place.is_some() {
            return Ok(place);
        }
    }
    Ok(None)
}

fn astray_on_sheet(alloc: Global) -> Result<Option<(i32, i32)>, EditError> {
    let sheet = sheet(alloc)?;
    astray(&sheet)
}

#[test]
fn navigation_arrives_where_a_plain_walk_does(rt: HostRuntime) -> Result<(), Fail> {
    assert_eq!(rt; astray_on_sheet(rt.alloc())?, None);
    Ok(())
}
