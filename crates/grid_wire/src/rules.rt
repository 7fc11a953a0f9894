use crate::reading_rules::rule_at;
use crate::writing_rules::put_rule;
use base_shared::Shared;
use base_styles::Style;
use base_values::EditError;
use base_wire::Part;
use format_rules::CfRule;
use std::alloc::{AllocError, Global};

/// A rule: its kind, and what it holds (docs/FORMATS.md, "Bytes"). Each style that is read and equal to
/// that of the context shares it.
pub struct RulePart;

impl Part for RulePart {
    ghost use Rattle.grid_wire.specs.RuleBytes.{encode_rule, FitsRule, IsKnownRule};
    ghost use Rattle.grid_wire.specs.laws.RuleReading.{rule_at};
    ghost use Rattle.grid_wire.specs.laws.RuleLaws.{rule_format, rule_some};

    type Value = CfRule;

    type Context = Shared<Style>;

    ghost Known = { IsKnownRule };

    ghost Fits = { FitsRule };

    ghost encoding = { encode_rule };

    ghost reading = { rule_at };

    fn put(out: &mut Vec<u8>, value: &CfRule) -> Result<(), AllocError> {
        put_rule(out, value)
    }

    fn take<'a>(
        alloc: Global,
        plain: &Shared<Style>,
        bytes: &'a [u8],
    ) -> Result<(CfRule, &'a [u8]), EditError> {
        rule_at(alloc, plain, bytes)
    }

    ghost format = { rule_format };

    ghost some = { rule_some };
}
