//! Laws of line edits that join several crates: displacing a formula's references and editing lines
//! take each line to the same one, and a range goes on denoting what is left of it.
#![tactic(auto)]

ghost use Rattle.std.specs.Prelude.{◌≡◌, ◌-ℤ◌, ℤ, pos, true};
ghost use Rattle.formula_move.specs.Lines.{shifted, stepped};
ghost use Rattle.line_edits.specs.declared.EditKind.TheVariants.{Insert, Delete, Move};
ghost use Rattle.line_edits.specs.Edit.{image_at, IsValid};
ghost use Rattle.line_laws.specs.Ranges.{is_insertion_or_deletion, GoesByNodes, RangesHoldImages};
ghost use Rattle.line_routes.specs.RouteModel.{route_model};

use base_axis::Axis;
use line_edits::LineEdit;
use line_map::Route;

/// The law of line maps: an edit of lines takes each number where displacing its first line by its
/// count takes it, or by minus its count for a deletion; and the move of one line takes it where
/// displacing by that move does. A number that is no line of the axis goes nowhere under all of
/// them. A block moves as its lines do one by one (`move_by_single_lines`). docs/MODEL.md has the
/// rules.
pub fn displaced_as_edited<A: Axis>()
    ensures insertions { (first count n : ℤ) → IsValid A.along.last (Insert first count) → shifted A.along.last first count n ≡ image_at A.along.last (Insert first count) n }
    ensures deletions { (first count n : ℤ) → IsValid A.along.last (Delete first count) → shifted A.along.last first (pos 0 -ℤ count) n ≡ image_at A.along.last (Delete first count) n }
    ensures moves { (line delta n : ℤ) → IsValid A.along.last (Move line (pos 1) delta) → stepped A.along.last line delta n ≡ image_at A.along.last (Move line (pos 1) delta) n }
{}

/// The law of ranges: after an insertion or a deletion of lines, take a range of a formula that
/// survives. Where the range is on the edited sheet and isn't whole along the axis, and both of its
/// corners survive, it then denotes the least rectangle that holds the images of its surviving
/// places. The range may stand anywhere in the formula, since a tree goes node by node.
/// docs/MODEL.md has the rules.
pub fn ranges_hold_images<A: Axis>(route: &Route<'_, A, LineEdit<A>>)
    requires { is_insertion_or_deletion route.now.map.now.kind ≡ true }
    ensures ranges { RangesHoldImages (route_model route.now) }
    ensures nodes { GoesByNodes (route_model route.now) }
{
    // For the proof: the route goes one to one.
    route.is_route();
}
