ghost use Rattle.std.specs.Prelude.{◌≡◌};
ghost use Rattle.line_map.specs.Rules.{are_there};

use base_maps::IndexMap;
use format_rules::ConditionalFormatting;

/// Whether each kept rule has the place of one of so many rules.
#[tactic(auto, unfolding(crate::specs::Rules::are_there))]
pub fn are_there(kept: &IndexMap<ConditionalFormatting>, count: u64) -> bool
    ensures { result ≡ are_there kept.now count }
{
    kept.iter().all(|(place, _rule)| *place < count)
}
