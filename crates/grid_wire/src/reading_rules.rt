//! Rules from the front of bytes.

ghost use Rattle.base_values.specs.Answers.{Answers, map_ok};
ghost use Rattle.grid_wire.specs.laws.RuleReading.{cell_is_at, data_bar_at, formula_at, icon_rating_at, icon_set_at, rule_at};

use crate::rule_codes::operator_at;
use crate::thresholds::{CfvoPart, ColorThresholdPart, IconThresholdPart};
use crate::{ColorPart, StylePart};
use base_shared::Shared;
use base_styles::Style;
use base_values::{EditError, Items};
use base_wire::read;
use format_rules::CfRule;
use formula_wire::NodePart;
use std::alloc::Global;

fn formula_at<'a>(
    alloc: Global,
    plain: &Shared<Style>,
    bytes: &'a [u8],
) -> Result<(CfRule, &'a [u8]), EditError>
    ensures { Answers (map_ok (λ x. (x.0, x.1.now)) result) (formula_at bytes.now) }
{
    let (formula, rest) = read::<Shared<NodePart>>(alloc, &(), bytes)?;
    let (style, rest) = read::<StylePart>(alloc, plain, rest)?;
    let (stop_if_true, rest) = read::<bool>(alloc, &(), rest)?;
    let rule = CfRule::Formula {
        formula,
        style,
        stop_if_true,
    };
    Ok((rule, rest))
}

#[tactic(auto, unfolding(crate::specs::laws::RuleReading::second_at))]
fn cell_is_at<'a>(
    alloc: Global,
    plain: &Shared<Style>,
    bytes: &'a [u8],
) -> Result<(CfRule, &'a [u8]), EditError>
    ensures { Answers (map_ok (λ x. (x.0, x.1.now)) result) (cell_is_at bytes.now) }
{
    let (operator, rest) = operator_at(alloc, bytes)?;
    let (formula, rest) = read::<Shared<NodePart>>(alloc, &(), rest)?;
    let (formula2, rest) = read::<Option<Shared<NodePart>>>(alloc, &(), rest)?;
    let (style, rest) = read::<StylePart>(alloc, plain, rest)?;
    let (stop_if_true, rest) = read::<bool>(alloc, &(), rest)?;
    let rule = CfRule::CellIs {
        operator,
        formula,
        formula2,
        style,
        stop_if_true,
    };
    Ok((rule, rest))
}

#[tactic(auto, unfolding(crate::specs::laws::RuleReading::bound_at))]
fn data_bar_at(alloc: Global, bytes: &[u8]) -> Result<(CfRule, &[u8]), EditError>
    ensures { Answers (map_ok (λ x. (x.0, x.1.now)) result) (data_bar_at bytes.now) }
{
    let (min, rest) = read::<Option<CfvoPart>>(alloc, &(), bytes)?;
    let (max, rest) = read::<Option<CfvoPart>>(alloc, &(), rest)?;
    let (positive_color, rest) = read::<ColorPart>(alloc, &(), rest)?;
    let (negative_color, rest) = read::<ColorPart>(alloc, &(), rest)?;
    let (is_gradient, rest) = read::<bool>(alloc, &(), rest)?;
    let (show_value, rest) = read::<bool>(alloc, &(), rest)?;
    let rule = CfRule::DataBar {
        min,
        max,
        positive_color,
        negative_color,
        is_gradient,
        show_value,
    };
    Ok((rule, rest))
}

#[tactic(auto, unfolding(crate::specs::laws::RuleReading::icons_at))]
fn icon_set_at(alloc: Global, bytes: &[u8]) -> Result<(CfRule, &[u8]), EditError>
    ensures { Answers (map_ok (λ x. (x.0, x.1.now)) result) (icon_set_at bytes.now) }
{
    let (icons, rest) = read::<u8>(alloc, &(), bytes)?;
    let (thresholds, rest) = read::<Items<IconThresholdPart>>(alloc, &(), rest)?;
    let (show_value, rest) = read::<bool>(alloc, &(), rest)?;
    let rule = CfRule::IconSet {
        icons,
        thresholds,
        show_value,
    };
    Ok((rule, rest))
}

#[tactic(auto, unfolding(crate::specs::laws::RuleReading::icons_at))]
fn icon_rating_at(alloc: Global, bytes: &[u8]) -> Result<(CfRule, &[u8]), EditError>
    ensures { Answers (map_ok (λ x. (x.0, x.1.now)) result) (icon_rating_at bytes.now) }
{
    let (icon, rest) = read::<u8>(alloc, &(), bytes)?;
    let (color, rest) = read::<ColorPart>(alloc, &(), rest)?;
    let (thresholds, rest) = read::<Items<IconThresholdPart>>(alloc, &(), rest)?;
    let (show_value, rest) = read::<bool>(alloc, &(), rest)?;
    let rule = CfRule::IconRating {
        icon,
        color,
        thresholds,
        show_value,
    };
    Ok((rule, rest))
}

#[tactic(auto, unfolding(crate::specs::laws::RuleReading::rule_at, crate::specs::laws::RuleReading::colors_at))]
pub(crate) fn rule_at<'a>(
    alloc: Global,
    plain: &Shared<Style>,
    bytes: &'a [u8],
) -> Result<(CfRule, &'a [u8]), EditError>
    ensures { Answers (map_ok (λ x. (x.0, x.1.now)) result) (rule_at bytes.now) }
{
    let (kind, rest) = read::<u8>(alloc, &(), bytes)?;
    match kind {
        0 => formula_at(alloc, plain, rest),
        1 => cell_is_at(alloc, plain, rest),
        2 => {
            let (thresholds, rest) = read::<Items<ColorThresholdPart>>(alloc, &(), rest)?;
            Ok((CfRule::ColorScale { thresholds }, rest))
        }
        3 => data_bar_at(alloc, rest),
        4 => icon_set_at(alloc, rest),
        5 => icon_rating_at(alloc, rest),
        _ => Err(EditError::ParseDiffs),
    }
}
