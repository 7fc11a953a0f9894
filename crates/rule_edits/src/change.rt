use base_values::Exact;
use format_rules::ConditionalFormatting;

/// A conditional rule of a sheet that comes, goes or changes. docs/MODEL.md has the rules.
#[derive(Clone, PartialEq, Eq, Drop)]
pub struct RuleChange {
    /// Its place in the list of the sheet's rules.
    pub index: u64,
    /// The rule before. `None` where the rule is new.
    pub old: Option<ConditionalFormatting>,
    /// The rule afterwards. `None` where the rule is removed.
    pub new: Option<ConditionalFormatting>,
}

impl Exact for RuleChange {
    ghost use Rattle.rule_edits.specs.laws.ChangeEquals.{rule_change_copies, rule_change_equals};

    ghost copies = { rule_change_copies };

    ghost equals = { rule_change_equals };
}
