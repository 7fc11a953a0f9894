ghost use Rattle.std.specs.Prelude.{◌≡◌};
ghost use Rattle.line_edits.specs.Edit.{IsValid, opposite_of};
ghost use Rattle.line_routes.specs.RouteModel.{IsRoute, route_model};
ghost use Rattle.sheet_lines.specs.Followed.{book_route, route_on};

use base_axis::Axis;
use line_map::{LineEdit, LineMap, Route};
use line_routes::edit_route;
use sheet_grid::{Workbook, Worksheet};
use sheet_ids::name_of;
use std::alloc::Global;

/// The route of an edit of the lines of the sheet of an id.
pub(crate) fn book_route<'e, A: Axis>(
    workbook: &'e Workbook,
    sheet_id: u32,
    edit: &'e LineEdit<A>,
    opposite: &'e LineEdit<A>,
) -> Route<'e, A, LineEdit<A>>
    requires valid { IsValid A.along.last edit.now.kind }
    requires opposite { opposite.now.kind ≡ opposite_of edit.now.kind }
    ensures { route_model result ≡ book_route A.along edit.now.kind sheet_id workbook.now }
{
    edit_route(edit, opposite).of_sheet(sheet_id, name_of(workbook, sheet_id))
}

/// A sheet of the workbook, and the route of what stands on it.
#[derive(Drop)]
pub(crate) struct OnSheet<'s, A: Axis, M: LineMap<A>> {
    pub(crate) alloc: Global,
    pub(crate) route: Route<'s, A, M>,
    pub(crate) sheet: &'s Worksheet,
}

/// A sheet of the workbook, with the route that leads what stands on it along the edit.
pub(crate) fn on_sheet<'s, 'a: 's, A: Axis, M: LineMap<A>>(
    alloc: Global,
    route: &Route<'a, A, M>,
    sheet: &'s Worksheet,
) -> OnSheet<'s, A, M>
    ensures sheet { result.sheet.now ≡ sheet.now }
    ensures route_model { route_model result.route ≡ route_on (route_model route.now) sheet.now }
    ensures is { IsRoute (route_model result.route) }
{
    let route = route.on(sheet.get_sheet_id());
    route.is_route(); // for the proof
    OnSheet {
        alloc,
        route,
        sheet,
    }
}
