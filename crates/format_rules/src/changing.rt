//! Rules with other formulas in place of their own.

ghost use Rattle.std.specs.Prelude.{◌≡◌, IfOk, IfSome, IsOkUnless, map};
ghost use Rattle.std.specs.List.{All};
ghost use Rattle.std.specs.Option.{option_map};
ghost use Rattle.base_values.specs.declared.EditError.TheVariants.{NoMemory};
ghost use Rattle.formula_tree.specs.declared.Node.{Node};
ghost use Rattle.format_rules.specs.declared.rule.CfRule.TheVariants.{Formula, CellIs};
ghost use Rattle.format_rules.specs.RuleTrees.{CfvoHas, HasTrees, cfvo_changed, color_changed, icon_changed, style_rule_changed, icon_rule_changed, trees_changed};

use crate::operator::CfOperator;
use crate::rule::CfRule;
use crate::threshold::{Cfvo, ColorThreshold, IconThreshold};
use base_shared::Shared;
use base_styles::Style;
use base_values::{EditError, Items, copy_of};
use formula_tree::Node;
use std::alloc::Global;

/// What is done to each tree of a rule. `NoMemory` alone is an error.
pub trait TreeChange {
    /// The trees that the change accepts.
    ghost Takes: { Self → Node → Type 0 };

    /// The change in the definitions.
    ghost change_of: { Self → Node → Node };

    /// The tree that a tree becomes.
    fn changed(&self, alloc: Global, tree: &Shared<Node>) -> Result<Shared<Node>, EditError>
        requires { Takes self.now tree.now }
        ensures tree { IfOk result (λ output. output ≡ change_of self.now tree.now) }
        ensures only { IsOkUnless result NoMemory };
}

fn cfvo_changed<M: TreeChange>(alloc: Global, cfvo: &Cfvo, change: &M) -> Result<Cfvo, EditError>
    requires { CfvoHas (M.Takes change.now) cfvo.now }
    ensures cfvo { IfOk result (λ output. output ≡ cfvo_changed (M.change_of change.now) cfvo.now) }
    ensures only { IsOkUnless result NoMemory }
{
    match cfvo {
        Cfvo::Min | Cfvo::Max => copy_of(cfvo),
        Cfvo::Number(_) | Cfvo::Percent(_) | Cfvo::Percentile(_) => copy_of(cfvo),
        Cfvo::Formula(tree) => Ok(Cfvo::Formula(change.changed(alloc, tree)?)),
    }
}

fn bound_changed<M: TreeChange>(
    alloc: Global,
    cfvo: &Option<Cfvo>,
    change: &M,
) -> Result<Option<Cfvo>, EditError>
    requires { IfSome cfvo.now (CfvoHas (M.Takes change.now)) }
    ensures cfvo { IfOk result (λ output. output ≡ option_map (cfvo_changed (M.change_of change.now)) cfvo.now) }
    ensures only { IsOkUnless result NoMemory }
{
    match cfvo {
        Some(cfvo) => Ok(Some(cfvo_changed(alloc, cfvo, change)?)),
        None => Ok(None),
    }
}

fn second_changed<M: TreeChange>(
    alloc: Global,
    tree: &Option<Shared<Node>>,
    change: &M,
) -> Result<Option<Shared<Node>>, EditError>
    requires { IfSome tree.now (M.Takes change.now) }
    ensures tree { IfOk result (λ output. output ≡ option_map (M.change_of change.now) tree.now) }
    ensures only { IsOkUnless result NoMemory }
{
    match tree {
        Some(tree) => Ok(Some(change.changed(alloc, tree)?)),
        None => Ok(None),
    }
}

fn color_changed<M: TreeChange>(
    alloc: Global,
    threshold: &ColorThreshold,
    change: &M,
) -> Result<ColorThreshold, EditError>
    requires { CfvoHas (M.Takes change.now) threshold.now.cfvo }
    ensures threshold { IfOk result (λ output. output ≡ color_changed (M.change_of change.now) threshold.now) }
    ensures only { IsOkUnless result NoMemory }
{
    Ok(ColorThreshold {
        cfvo: cfvo_changed(alloc, &threshold.cfvo, change)?,
        color: threshold.color,
    })
}

fn colors_changed<M: TreeChange>(
    alloc: Global,
    thresholds: &[ColorThreshold],
    change: &M,
) -> Result<Items<ColorThreshold>, EditError>
    requires { All (λ threshold. CfvoHas (M.Takes change.now) threshold.cfvo) thresholds.now }
    ensures thresholds { IfOk result (λ output. output ≡ map (color_changed (M.change_of change.now)) thresholds.now) }
    ensures only { IsOkUnless result NoMemory }
{
    let mut output = Items::empty(alloc);
    for threshold in thresholds {
        output.push(color_changed(alloc, threshold, change)?)?;
    }
    Ok(output)
}

fn icon_changed<M: TreeChange>(
    alloc: Global,
    threshold: &IconThreshold,
    change: &M,
) -> Result<IconThreshold, EditError>
    requires { CfvoHas (M.Takes change.now) threshold.now.cfvo }
    ensures threshold { IfOk result (λ output. output ≡ icon_changed (M.change_of change.now) threshold.now) }
    ensures only { IsOkUnless result NoMemory }
{
    Ok(IconThreshold {
        cfvo: cfvo_changed(alloc, &threshold.cfvo, change)?,
        strict: threshold.strict,
    })
}

fn icons_changed<M: TreeChange>(
    alloc: Global,
    thresholds: &[IconThreshold],
    change: &M,
) -> Result<Items<IconThreshold>, EditError>
    requires { All (λ threshold. CfvoHas (M.Takes change.now) threshold.cfvo) thresholds.now }
    ensures thresholds { IfOk result (λ output. output ≡ map (icon_changed (M.change_of change.now)) thresholds.now) }
    ensures only { IsOkUnless result NoMemory }
{
    let mut output = Items::empty(alloc);
    for threshold in thresholds {
        output.push(icon_changed(alloc, threshold, change)?)?;
    }
    Ok(output)
}

fn formula_changed<M: TreeChange>(
    alloc: Global,
    formula: &Shared<Node>,
    style: &Shared<Style>,
    stop_if_true: bool,
    change: &M,
) -> Result<CfRule, EditError>
    requires { M.Takes change.now formula.now }
    ensures rule { IfOk result (λ output. output ≡ Formula (M.change_of change.now formula.now) style.now stop_if_true) }
    ensures only { IsOkUnless result NoMemory }
{
    Ok(CfRule::Formula {
        formula: change.changed(alloc, formula)?,
        style: copy_of(style)?,
        stop_if_true,
    })
}

/// The two formulas of a comparison, changed.
fn formulas_changed<M: TreeChange>(
    alloc: Global,
    formula: &Shared<Node>,
    formula2: &Option<Shared<Node>>,
    change: &M,
) -> Result<(Shared<Node>, Option<Shared<Node>>), EditError>
    requires first { M.Takes change.now formula.now }
    requires second { IfSome formula2.now (M.Takes change.now) }
    ensures first { IfOk result (λ output. output.0 ≡ M.change_of change.now formula.now) }
    ensures second { IfOk result (λ output. output.1 ≡ option_map (M.change_of change.now) formula2.now) }
    ensures only { IsOkUnless result NoMemory }
{
    let first = change.changed(alloc, formula)?;
    let second = second_changed(alloc, formula2, change)?;
    Ok((first, second))
}

/// A comparison with these formulas.
fn cell_is(
    operator: CfOperator,
    formulas: (Shared<Node>, Option<Shared<Node>>),
    style: &Shared<Style>,
    stop_if_true: bool,
) -> Result<CfRule, EditError>
    ensures rule { IfOk result (λ output. output ≡ CellIs operator formulas.0 formulas.1 style.now stop_if_true) }
    ensures only { IsOkUnless result NoMemory }
{
    let style = copy_of(style)?;
    let (formula, formula2) = formulas;
    Ok(CfRule::CellIs {
        operator,
        formula,
        formula2,
        style,
        stop_if_true,
    })
}

/// The values of a bar's ends, changed.
fn bounds_changed<M: TreeChange>(
    alloc: Global,
    min: &Option<Cfvo>,
    max: &Option<Cfvo>,
    change: &M,
) -> Result<(Option<Cfvo>, Option<Cfvo>), EditError>
    requires min { IfSome min.now (CfvoHas (M.Takes change.now)) }
    requires max { IfSome max.now (CfvoHas (M.Takes change.now)) }
    ensures min { IfOk result (λ output. output.0 ≡ option_map (cfvo_changed (M.change_of change.now)) min.now) }
    ensures max { IfOk result (λ output. output.1 ≡ option_map (cfvo_changed (M.change_of change.now)) max.now) }
    ensures only { IsOkUnless result NoMemory }
{
    let low = bound_changed(alloc, min, change)?;
    let high = bound_changed(alloc, max, change)?;
    Ok((low, high))
}

/// A rule that shows a style, with its formulas changed. Any other is copied.
fn style_rule_changed<M: TreeChange>(
    alloc: Global,
    rule: &CfRule,
    change: &M,
) -> Result<CfRule, EditError>
    requires { HasTrees (M.Takes change.now) rule.now }
    ensures rule { IfOk result (λ output. output ≡ style_rule_changed (M.change_of change.now) rule.now) }
    ensures only { IsOkUnless result NoMemory }
{
    match rule {
        CfRule::Formula {
            formula,
            style,
            stop_if_true,
        } => formula_changed(alloc, formula, style, *stop_if_true, change),
        CfRule::CellIs {
            operator,
            formula,
            formula2,
            style,
            stop_if_true,
        } => {
            let formulas = formulas_changed(alloc, formula, formula2, change)?;
            cell_is(*operator, formulas, style, *stop_if_true)
        }
        CfRule::ColorScale { .. } | CfRule::DataBar { .. } => copy_of(rule),
        CfRule::IconSet { .. } | CfRule::IconRating { .. } => copy_of(rule),
    }
}

/// A rule that shows icons, with the formulas of its thresholds changed. Any other is copied.
fn icon_rule_changed<M: TreeChange>(
    alloc: Global,
    rule: &CfRule,
    change: &M,
) -> Result<CfRule, EditError>
    requires { HasTrees (M.Takes change.now) rule.now }
    ensures rule { IfOk result (λ output. output ≡ icon_rule_changed (M.change_of change.now) rule.now) }
    ensures only { IsOkUnless result NoMemory }
{
    match rule {
        CfRule::Formula { .. } | CfRule::CellIs { .. } => copy_of(rule),
        CfRule::ColorScale { .. } | CfRule::DataBar { .. } => copy_of(rule),
        CfRule::IconSet {
            icons,
            thresholds,
            show_value,
        } => Ok(CfRule::IconSet {
            icons: *icons,
            thresholds: icons_changed(alloc, thresholds.as_slice(), change)?,
            show_value: *show_value,
        }),
        CfRule::IconRating {
            icon,
            color,
            thresholds,
            show_value,
        } => Ok(CfRule::IconRating {
            icon: *icon,
            color: *color,
            thresholds: icons_changed(alloc, thresholds.as_slice(), change)?,
            show_value: *show_value,
        }),
    }
}

/// A rule whose formulas are changed, each by itself. `NoMemory` alone is an error.
pub fn change_trees<M: TreeChange>(
    alloc: Global,
    rule: &CfRule,
    change: &M,
) -> Result<CfRule, EditError>
    requires { HasTrees (M.Takes change.now) rule.now }
    ensures rule { IfOk result (λ output. output ≡ trees_changed (M.change_of change.now) rule.now) }
    ensures only { IsOkUnless result NoMemory }
{
    match rule {
        CfRule::Formula { .. } | CfRule::CellIs { .. } => style_rule_changed(alloc, rule, change),
        CfRule::ColorScale { thresholds } => Ok(CfRule::ColorScale {
            thresholds: colors_changed(alloc, thresholds.as_slice(), change)?,
        }),
        CfRule::DataBar {
            min,
            max,
            positive_color,
            negative_color,
            is_gradient,
            show_value,
        } => {
            let (min, max) = bounds_changed(alloc, min, max, change)?;
            Ok(CfRule::DataBar {
                min,
                max,
                positive_color: *positive_color,
                negative_color: *negative_color,
                is_gradient: *is_gradient,
                show_value: *show_value,
            })
        }
        CfRule::IconSet { .. } | CfRule::IconRating { .. } => {
            icon_rule_changed(alloc, rule, change)
        }
    }
}
