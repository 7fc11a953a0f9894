//! Tests of the formulas of a rule, and of the values of its thresholds.

ghost use Rattle.std.specs.Prelude.{◌≡◌, Bool, true};
ghost use Rattle.std.specs.List.{list_all};
ghost use Rattle.std.specs.Option.{option_map_or};
ghost use Rattle.formula_tree.specs.declared.Node.{Node};
ghost use Rattle.format_rules.specs.declared.threshold.Cfvo.{Cfvo};
ghost use Rattle.format_rules.specs.RuleTrees.{each_cfvo, own_trees_pass, each_tree};

use crate::rule::CfRule;
use crate::threshold::{Cfvo, ColorThreshold, IconThreshold};
use base_shared::Shared;
use formula_tree::Node;

/// A test of trees.
pub trait TreeTest {
    /// The test as definitions speak of it.
    ghost tests: { Self → Node → Bool };

    /// Whether a tree passes.
    fn test(&self, tree: &Node) -> bool
        ensures { result ≡ tests self.now tree.now };
}

/// A test of the values of thresholds.
pub(crate) trait CfvoTest {
    ghost tests: { Self → Cfvo → Bool };

    fn test_cfvo(&self, cfvo: &Cfvo) -> bool
        ensures { result ≡ tests self.now cfvo.now };
}

/// The test of the formulas of thresholds.
#[derive(Drop)]
struct OfFormulas<'t, T> {
    test: &'t T,
}

impl<'t, T: TreeTest> CfvoTest for OfFormulas<'t, T> {
    ghost use Rattle.format_rules.specs.RuleTrees.{cfvo_passes};

    ghost tests = { λ self. cfvo_passes (T.tests self.test.now) };

    fn test_cfvo(&self, cfvo: &Cfvo) -> bool {
        match cfvo {
            Cfvo::Min | Cfvo::Max => true,
            Cfvo::Number(_) | Cfvo::Percent(_) | Cfvo::Percentile(_) => true,
            Cfvo::Formula(tree) => self.test.test(tree.get()),
        }
    }
}

/// Whether a value passes, if there is one.
fn bound_passes<T: CfvoTest>(cfvo: &Option<Cfvo>, test: &T) -> bool
    ensures { result ≡ option_map_or (T.tests test.now) cfvo.now true }
{
    match cfvo {
        Some(cfvo) => test.test_cfvo(cfvo),
        None => true,
    }
}

fn colors_pass<T: CfvoTest>(thresholds: &[ColorThreshold], test: &T) -> bool
    ensures { result ≡ list_all (λ threshold. T.tests test.now threshold.cfvo) thresholds.now }
{
    thresholds
        .iter()
        .all(|threshold| test.test_cfvo(&threshold.cfvo))
}

fn icons_pass<T: CfvoTest>(thresholds: &[IconThreshold], test: &T) -> bool
    ensures { result ≡ list_all (λ threshold. T.tests test.now threshold.cfvo) thresholds.now }
{
    thresholds
        .iter()
        .all(|threshold| test.test_cfvo(&threshold.cfvo))
}

/// Whether the value of each threshold of a rule passes.
pub(crate) fn each_cfvo<T: CfvoTest>(rule: &CfRule, test: &T) -> bool
    ensures { result ≡ each_cfvo (T.tests test.now) rule.now }
{
    match rule {
        CfRule::Formula { .. } | CfRule::CellIs { .. } => true,
        CfRule::ColorScale { thresholds } => colors_pass(thresholds.as_slice(), test),
        CfRule::DataBar { min, max, .. } => bound_passes(min, test) && bound_passes(max, test),
        CfRule::IconSet { thresholds, .. } => icons_pass(thresholds.as_slice(), test),
        CfRule::IconRating { thresholds, .. } => icons_pass(thresholds.as_slice(), test),
    }
}

/// Whether a tree passes, if there is one.
fn second_passes<T: TreeTest>(tree: &Option<Shared<Node>>, test: &T) -> bool
    ensures { result ≡ option_map_or (T.tests test.now) tree.now true }
{
    match tree {
        Some(tree) => test.test(tree.get()),
        None => true,
    }
}

/// Whether each formula passes that a rule has beside its thresholds.
fn own_trees_pass<T: TreeTest>(rule: &CfRule, test: &T) -> bool
    ensures { result ≡ own_trees_pass (T.tests test.now) rule.now }
{
    match rule {
        CfRule::Formula { formula, .. } => test.test(formula.get()),
        CfRule::CellIs {
            formula,
            formula2,
            ..
        } => test.test(formula.get()) && second_passes(formula2, test),
        CfRule::ColorScale { .. } | CfRule::DataBar { .. } => true,
        CfRule::IconSet { .. } | CfRule::IconRating { .. } => true,
    }
}

/// Whether each formula of a rule passes a test.
pub fn each_tree<T: TreeTest>(rule: &CfRule, test: &T) -> bool
    ensures { result ≡ each_tree (T.tests test.now) rule.now }
{
    own_trees_pass(rule, test) && each_cfvo(rule, &OfFormulas { test })
}
