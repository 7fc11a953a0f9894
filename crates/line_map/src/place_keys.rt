use crate::follower::Follower;
use crate::route_keys::RouteKeys;
use base_axis::Axis;
use base_maps::PositionKeys;
use base_values::{EditError, PlaceKeys, PlaceMap, Position};
use line_edits::LineMap;
use line_routes::Route;

/// Places of a sheet go along on the edited sheet. Where places are brought in, nothing stands.
impl<A: Axis, F: Follower<A>> RouteKeys<A, F> for PlaceKeys<F> {
    ghost use Rattle.base_values.specs.Places.{IsPlace};
    ghost use Rattle.line_routes.specs.RouteModel.{at, place_goes};
    ghost use Rattle.line_map.specs.laws.MapLaws.{brings_nothing, place_keys};

    type Lost = PositionKeys<F>;

    type Parts = PositionKeys<F::Part>;

    ghost goes = { place_goes };

    ghost at = { at };

    ghost with_brought = { λ _ _ carried. carried };

    fn goes<M: LineMap<A>>(route: &Route<'_, A, M>, place: Position) -> Option<Position> {
        route.goes(place)
    }

    fn at<'a, M: LineMap<A>>(
        route: &Route<'a, A, M>,
        from: Position,
        to: Position,
    ) -> Route<'a, A, M> {
        route.at(from, to)
    }

    fn bring<M: LineMap<A>>(
        _route: &Route<'_, A, M>,
        _map: &PlaceMap<F>,
        _carried: &mut PlaceMap<F>,
    ) -> Result<(), EditError> {
        Ok(())
    }

    ghost are_keys = { place_keys };

    ghost brings = { brings_nothing IsPlace place_goes };

    ghost lost_fit = { λ key. tt };

    ghost parts_fit = { λ key. tt };
}
