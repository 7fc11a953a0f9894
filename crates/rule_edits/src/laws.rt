ghost use Rattle.std.specs.Prelude.{◌≡◌, List, Ok, true};
ghost use Rattle.std.specs.List.{list_all};
ghost use Rattle.format_rules.specs.declared.ConditionalFormatting.{ConditionalFormatting};
ghost use Rattle.rule_edits.specs.declared.change.RuleChange.{RuleChange};
ghost use Rattle.rule_edits.specs.Made.{ChangesGo, IsMade};
ghost use Rattle.rule_edits.specs.RuleChanges.{may_stand, opposite, rules_changed};
ghost use Rattle.rule_edits.specs.RuleEdits.{RuleEdit, rule_changes, rules_after};

/// A law about changes of rules, with no work at run time: where a change can be made, its opposite gives
/// the earlier rules.
pub fn changed_rules_come_back()
    ensures { (change : RuleChange) (rules : List ConditionalFormatting) → IsMade change.index change.old change.new rules
        → rules_changed (opposite change) (rules_changed change rules) ≡ rules }
{}

/// A law about edits of rules, with no work at run time: where each rule may stand and an edit is accepted,
/// its changes can be made one after the other.
pub fn edited_rules_stand()
    ensures go { (edit : RuleEdit) (changes : List RuleChange) (rules : List ConditionalFormatting) → list_all may_stand rules ≡ true
        → rule_changes edit rules ≡ Ok changes → ChangesGo changes rules }
    ensures stand { (edit : RuleEdit) (changes : List RuleChange) (rules : List ConditionalFormatting) → list_all may_stand rules ≡ true
        → rule_changes edit rules ≡ Ok changes → list_all may_stand (rules_after changes rules) ≡ true }
{}
