ghost use Rattle.std.specs.Prelude.{◌≡◌, IfSome};
ghost use Rattle.base_values.specs.Places.{IsPlace};
ghost use Rattle.line_edits.specs.Moves.{place_image};

use crate::line_map::LineMap;
use base_axis::Axis;
use base_values::Position;

/// Where a place goes along a map on the lines of its sheet. docs/MODEL.md has the rules.
#[tactic(auto, unfolding(crate::specs::Moves::place_image))]
pub fn place_image<A: Axis, M: LineMap<A>>(map: &M, place: Position) -> Option<Position>
    ensures value { result ≡ place_image A.along (M.moves map.now).to place }
    ensures inside { IsPlace place → IfSome result IsPlace }
{
    match map.image(A::line(place)) {
        Some(line) => Some(A::with_line(place, line)),
        None => None,
    }
}
