ghost use Rattle.std.specs.Prelude.{◌≡◌};
ghost use Rattle.format_rules.specs.Canonical.{has_canonical_numbers};

use crate::rule::CfRule;
use crate::testing::{CfvoTest, TreeTest, each_cfvo, each_tree};
use crate::threshold::Cfvo;
use formula_tree::{Node, has_canonical_numbers as tree_is_canonical};

/// The test whether numbers are canonical.
#[derive(Drop)]
struct CanonicalNumbers;

impl CfvoTest for CanonicalNumbers {
    ghost use Rattle.format_rules.specs.Canonical.{cfvo_is_canonical};

    ghost tests = { λ _. cfvo_is_canonical };

    fn test_cfvo(&self, cfvo: &Cfvo) -> bool {
        match cfvo {
            Cfvo::Min | Cfvo::Max => true,
            Cfvo::Number(number) => number.is_canonical(),
            Cfvo::Percent(number) | Cfvo::Percentile(number) => number.is_canonical(),
            Cfvo::Formula(_) => true,
        }
    }
}

impl TreeTest for CanonicalNumbers {
    ghost use Rattle.formula_tree.specs.Numbers as numbers;

    ghost tests = { λ _. numbers.has_canonical_numbers };

    fn test(&self, tree: &Node) -> bool {
        tree_is_canonical(tree)
    }
}

/// Whether the numbers of a rule are canonical: each one of its thresholds and of its formulas has at
/// most 15 digits on each side of the point, and no zero digit at the end of its places.
pub fn has_canonical_numbers(rule: &CfRule) -> bool
    ensures { result ≡ has_canonical_numbers rule.now }
{
    each_cfvo(rule, &CanonicalNumbers) && each_tree(rule, &CanonicalNumbers)
}
