//! What the maps are that a route carries along, and what is kept of them.

ghost use Rattle.std.specs.Prelude.{◌≡◌};
ghost use Rattle.std.specs.FinMap.{get};
ghost use Rattle.base_maps.specs.Carried.{lost_map};
ghost use Rattle.line_map.specs.Maps.{entries_carried, entries_parts, entry_carried, entry_lost, entry_part};
ghost use Rattle.line_routes.specs.RouteModel.{route_model};

use crate::follower::Follower;
use crate::route_keys::RouteKeys;
use base_axis::Axis;
use base_values::KeyMap;
use line_edits::LineMap;
use line_routes::Route;

/// A carried map has at a key what the map had where the key came from, carried along. Of a map is
/// kept: each entry whose key goes nowhere; and of each other entry the part that the way back does
/// not give, if there is one.
pub fn entries_of_maps<A: Axis, M: LineMap<A>, F: Follower<A>, K: RouteKeys<A, F>>(
    route: &Route<'_, A, M>,
    map: &KeyMap<K, F>,
)
    ensures carried { (q : K.Key) → get (entries_carried K.goes K.at F.carry_of (route_model route.now) (K.seen map.now)) q ≡ entry_carried K.goes K.at F.carry_of (route_model route.now) (K.seen map.now) q }
    ensures lost { (p : K.Key) → get (lost_map (K.goes (route_model route.now)) (K.seen map.now)) p ≡ entry_lost (K.goes (route_model route.now)) (K.seen map.now) p }
    ensures parts { (p : K.Key) → get (entries_parts K.goes K.at F.part_of (route_model route.now) (K.seen map.now)) p ≡ entry_part K.goes K.at F.part_of (route_model route.now) (K.seen map.now) p }
{
    // For the proof: the route goes one to one.
    route.is_route();
    let _ = map;
}
