//! What becomes of conditional rules when lines are edited.

ghost use Rattle.std.specs.Prelude.{◌≡◌, true, false, List};
ghost use Rattle.format_rules.specs.declared.ConditionalFormatting.{ConditionalFormatting};
ghost use Rattle.line_routes.specs.RouteModel.{route_model};
ghost use Rattle.line_map.specs.Follows.{RuleFollows};
ghost use Rattle.line_map.specs.Rules.{formatting_carried, rules_carried, rules_kept, rules_restored};

use base_axis::Axis;
use line_edits::LineMap;
use line_routes::Route;

/// The law of conditional rules. Each part of a rule of the edited sheet goes to the rectangle between
/// the images of its corners, and stays where a corner has no image. The rule's formulas go from the
/// first place of the first part to the first place of that part afterwards, also where it stays: what
/// they refer to is read from the place before, and their offsets are those from the place after. A
/// rule of another sheet stays whole. With what is kept of a list of rules it comes back.
pub fn rules_follow<A: Axis, M: LineMap<A>>(route: &Route<'_, A, M>)
    ensures edited { route.now.is_edited ≡ true → (formatting : ConditionalFormatting) → RuleFollows (route_model route.now) formatting (formatting_carried (route_model route.now) formatting) }
    ensures others { route.now.is_edited ≡ false → (formatting : ConditionalFormatting) → formatting_carried (route_model route.now) formatting ≡ formatting }
    ensures regained { (rules : List ConditionalFormatting) → rules_restored (route_model route.now) (rules_kept (route_model route.now) rules) (rules_carried (route_model route.now) rules) ≡ rules }
{
    // A law does no work.
    let _ = route;
}
