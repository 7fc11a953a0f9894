ghost use Rattle.std.specs.Prelude.{◌≡◌, pos};
ghost use Rattle.base_values.specs.Places.{IsLine, IsPlace};
ghost use Rattle.base_axis.specs.Rectangles.{IsInside, last_place};
ghost use Rattle.line_routes.specs.MergedCells.{lesser, span, between, merged_cell_carried, merged_cell_part};
ghost use Rattle.line_routes.specs.RouteModel.{route_model};

use crate::route::Route;
use base_axis::{Axis, ColumnAxis, MergedCell, RowAxis};
use base_values::Position;
use line_edits::LineMap;

fn last_place(cell: MergedCell) -> Position
    requires { IsInside cell }
    ensures { result ≡ last_place cell }
{
    Position {
        row: cell.lines::<RowAxis>().1,
        column: cell.lines::<ColumnAxis>().1,
    }
}

/// The lesser of two lines.
fn lesser(m: i32, n: i32) -> i32
    ensures { result ≡ lesser m n }
{
    if n < m { n } else { m }
}

/// How many lines stand from one to another, both counted.
fn span(m: i32, n: i32) -> i32
    requires first { IsLine (pos 1048576) m }
    requires second { IsLine (pos 1048576) n }
    ensures { result ≡ span m n }
{
    if n < m { m - n + 1 } else { n - m + 1 }
}

/// The rectangle that has two places as opposite corners.
#[tactic(auto, unfolding(crate::specs::MergedCells::between))]
fn between(p: Position, q: Position) -> MergedCell
    requires first { IsPlace p }
    requires second { IsPlace q }
    ensures { result ≡ between p q }
{
    MergedCell {
        row: lesser(p.row, q.row),
        column: lesser(p.column, q.column),
        width: span(p.column, q.column),
        height: span(p.row, q.row),
    }
}

/// A rectangle, carried along a route: the one between where its corners go. It stays where one of
/// them goes nowhere. It is inside the sheet. docs/MODEL.md has the rules.
#[tactic(auto, unfolding(crate::specs::MergedCells::merged_cell_carried))]
pub fn carried_rectangle<A: Axis, M: LineMap<A>>(
    route: &Route<'_, A, M>,
    cell: MergedCell,
) -> MergedCell
    requires { IsInside cell }
    ensures value { result ≡ merged_cell_carried (route_model route.now) cell }
    ensures inside { IsInside result }
{
    match (
        route.goes(cell.anchor_place()),
        route.goes(last_place(cell)),
    ) {
        (Some(first), Some(last)) => between(first, last),
        _ => cell,
    }
}

/// What has to be kept of a rectangle: the rectangle, where the way back does not give it. It lies
/// inside the sheet.
#[tactic(auto, unfolding(crate::specs::Trial::part_by_trial))]
pub fn rectangle_part<A: Axis, M: LineMap<A>>(
    route: &Route<'_, A, M>,
    cell: MergedCell,
) -> Option<MergedCell>
    requires { IsInside cell }
    ensures part { result ≡ merged_cell_part (route_model route.now) cell }
{
    if carried_rectangle(&route.back(), carried_rectangle(route, cell)) == cell {
        return None;
    }
    Some(cell)
}
