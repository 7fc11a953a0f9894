ghost use Rattle.std.specs.Prelude.{◌≡◌, []};
ghost use Rattle.std.specs.Cmp.{partial_equiv_from_equiv};
ghost use Rattle.std.specs.Cmp.Lexicographic.{pointwise, lists_per, lists_equiv};
ghost use Rattle.format_rules.specs.Canonical.{AreCanonicalRules};
ghost use Rattle.format_rules.specs.contracts.formatting.ConditionalFormattingPartialEq.TheImpl as formatting;
ghost use Rattle.format_rules.specs.laws.RuleEquals.{formatting_equiv};

use crate::formatting::ConditionalFormatting;
use base_values::{Exact, Items};
use std::alloc::{AllocError, Global};
use std::marker::Model;

/// The conditional rules of a sheet, in the order in which they were made. Their numbers are
/// canonical.
#[derive(Drop)]
pub struct RuleList {
    items: Items<ConditionalFormatting>,
}

impl Model for RuleList {
    ghost use Rattle.std.specs.Prelude.{List};
    ghost use Rattle.std.specs.Coded.{codes};
    ghost use Rattle.formula_tree.specs.contracts.node.Node as node;
    ghost use Rattle.format_rules.specs.Canonical.{AreCanonicalRules};
    ghost use Rattle.format_rules.specs.declared.formatting.ConditionalFormatting.{ConditionalFormatting};

    ghost Value = { List ConditionalFormatting };

    ghost coded = { Prim.hlevel (codes, node.the_row.coded) };

    ghost view = { λ rules. rules.items };

    ghost invariant = { λ rules. AreCanonicalRules rules.items };
}

impl RuleList {
    /// These rules. It takes no memory.
    pub fn new(items: Items<ConditionalFormatting>) -> RuleList
        requires { AreCanonicalRules items }
        ensures { result ≡ items }
    {
        RuleList { items }
    }

    /// No rule. It takes no memory.
    pub fn empty(alloc: Global) -> RuleList
        ensures { result ≡ [] }
    {
        RuleList {
            items: Items::empty(alloc),
        }
    }

    /// Lends the rules.
    pub fn as_slice(&self) -> &[ConditionalFormatting]
        ensures rules { result.now ≡ self.now }
        ensures canonical { AreCanonicalRules result.now }
    {
        self.items.as_slice()
    }
}

impl Clone for RuleList {
    ghost is_clone = { λ s r. r ≡ s };

    fn clone(&self) -> Result<RuleList, AllocError> {
        Ok(RuleList {
            items: self.items.clone()?,
        })
    }
}

impl PartialEq for RuleList {
    ghost eq = { pointwise formatting.ghosts.eq };

    ghost laws = { lists_per (partial_equiv_from_equiv formatting_equiv) };

    fn eq(&self, other: &RuleList) -> bool {
        self.items == other.items
    }
}

impl Eq for RuleList {
    ghost laws = { lists_equiv formatting_equiv };
}

impl Exact for RuleList {
    ghost use Rattle.std.specs.Cmp.Lexicographic.{pointwise_decides};
    ghost use Rattle.format_rules.specs.laws.RuleEquals.{formatting_equals};

    ghost copies = { λ a b h. h };

    ghost equals = { pointwise_decides formatting_equals };
}
