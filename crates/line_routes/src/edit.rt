ghost use Rattle.std.specs.Prelude.{◌≡◌};
ghost use Rattle.line_edits.specs.Edit.{IsValid, opposite_of};
ghost use Rattle.line_routes.specs.EditRoute.{edit_route};
ghost use Rattle.line_routes.specs.RouteModel.{route_model};

use crate::route::Route;
use base_axis::Axis;
use base_values::Position;
use line_edits::LineEdit;
use std::marker::PhantomData;

/// The route of an edit on the edited sheet, whose name and id are left open.
pub fn edit_route<'e, A: Axis>(
    edit: &'e LineEdit<A>,
    opposite: &'e LineEdit<A>,
) -> Route<'e, A, LineEdit<A>>
    requires valid { IsValid A.along.last edit.now.kind }
    requires opposite { opposite.now.kind ≡ opposite_of edit.now.kind }
    ensures { route_model result ≡ edit_route A.along edit.now.kind }
{
    let first = Position { row: 1, column: 1 };
    Route {
        map: edit,
        opposite,
        brings: true,
        sheet: 0,
        edited: "",
        is_edited: true,
        from: first,
        to: first,
        axis: PhantomData,
    }
}
