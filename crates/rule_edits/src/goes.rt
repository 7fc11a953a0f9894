//! Whether a change of the rules of a sheet can be made, and be taken back.

ghost use Rattle.std.specs.Prelude.{◌≡◌, ◌<◌, ◌^◌, true, IsTrue};
ghost use Rattle.std.specs.Option.{option_map_or};
ghost use Rattle.rule_edits.specs.RuleChanges.{change_at, change_goes, comes_fitting, has_place, is_change, may_stand, opposite};

use crate::change::RuleChange;
use format_rules::{ConditionalFormatting, has_fitting_trees, has_parts};

/// Whether a rule goes, or one comes.
fn is_change(change: &RuleChange) -> bool
    ensures { result ≡ is_change change.now }
{
    change.old.is_some() || change.new.is_some()
}

/// Whether the index is that of a rule. Where no rule goes, the number of the rules is allowed too.
fn has_place(index: u64, old: &Option<ConditionalFormatting>, count: usize) -> bool
    requires { count < 2 ^ 63 }
    ensures { result ≡ has_place (change_at index old.now old.now) count }
{
    let count = count as u64;
    if old.is_some() {
        index < count
    } else {
        index <= count
    }
}

/// Whether the rule that comes may stand on a sheet.
fn comes_fitting(new: &Option<ConditionalFormatting>) -> bool
    ensures { result ≡ option_map_or may_stand new.now true }
{
    match new {
        Some(formatting) => has_parts(formatting) && has_fitting_trees(formatting),
        None => true,
    }
}

/// Whether a change of so many rules can be made: a rule goes or comes; its index is that of a rule, or
/// where none goes also that behind the last one; and the rule that comes stands on a part at least, has
/// its parts inside the sheet, and formulas that fit the first place of its first part. It takes no memory.
#[tactic(auto, unfolding(crate::specs::RuleChanges::change_goes))]
pub fn goes_forward(change: &RuleChange, count: usize) -> bool
    requires { count < 2 ^ 63 }
    ensures value { result ≡ change_goes change.now count }
    ensures place { IsTrue result → has_place change.now count ≡ true }
    ensures fits { IsTrue result → comes_fitting change.now ≡ true }
{
    is_change(change) && has_place(change.index, &change.old, count) && comes_fitting(&change.new)
}

/// Whether a change of so many rules can be taken back: its opposite, in which the old and the new rule
/// are exchanged, can be made. It takes no memory.
#[tactic(auto, unfolding(crate::specs::RuleChanges::change_goes))]
pub fn goes_back(change: &RuleChange, count: usize) -> bool
    requires { count < 2 ^ 63 }
    ensures value { result ≡ change_goes (opposite change.now) count }
    ensures place { IsTrue result → has_place (opposite change.now) count ≡ true }
    ensures fits { IsTrue result → comes_fitting (opposite change.now) ≡ true }
{
    (change.new.is_some() || change.old.is_some())
        && has_place(change.index, &change.new, count)
        && comes_fitting(&change.old)
}
