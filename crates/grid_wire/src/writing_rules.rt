//! Rules at the end of bytes. Those whose numbers are canonical and whose formulas are at most 64 deep
//! fit. Out of memory may leave some of their bytes there.

ghost use Rattle.std.specs.Prelude.{◌≡◌, ◌++◌, IfSome, OnOk};
ghost use Rattle.std.specs.List.{AllByRecursion};
ghost use Rattle.formula_wire.specs.Carried.{IsKnownNode};
ghost use Rattle.grid_wire.specs.ThresholdBytes.{IsKnownCfvo, IsKnownIconThreshold};
ghost use Rattle.grid_wire.specs.RuleBytes.{encode_cell_is, encode_data_bar, encode_formula, encode_icon_rating, encode_icon_set, encode_rule, FitsCellIs, FitsDataBar, FitsFormula, FitsIconRating, FitsIconSet, FitsRule, IsKnownRule};

use crate::rule_codes::operator_code;
use crate::thresholds::{CfvoPart, ColorThresholdPart, IconThresholdPart};
use crate::{ColorPart, StylePart};
use base_shared::Shared;
use base_styles::{Color, Style};
use base_wire::{Part, put_items};
use format_rules::{CfOperator, CfRule, Cfvo, IconThreshold};
use formula_tree::Node;
use formula_wire::NodePart;
use std::alloc::AllocError;

fn put_formula(
    out: &mut Vec<u8>,
    formula: &Shared<Node>,
    style: &Shared<Style>,
    stop_if_true: bool,
) -> Result<(), AllocError>
    ensures encoded { OnOk result (out.new.items ≡ out.old.items ++ encode_formula formula.now style.now stop_if_true) }
    ensures fits { OnOk result (IsKnownNode formula.now → FitsFormula formula.now style.now) }
{
    Shared::<NodePart>::put(out, formula)?;
    StylePart::put(out, style)?;
    bool::put(out, &stop_if_true)
}

fn put_cell_is(
    out: &mut Vec<u8>,
    operator: CfOperator,
    formula: &Shared<Node>,
    formula2: &Option<Shared<Node>>,
    style: &Shared<Style>,
    stop_if_true: bool,
) -> Result<(), AllocError>
    ensures encoded { OnOk result (out.new.items ≡ out.old.items ++ encode_cell_is operator formula.now formula2.now style.now stop_if_true) }
    ensures fits { OnOk result (IsKnownNode formula.now → IfSome formula2.now IsKnownNode → FitsCellIs formula.now formula2.now style.now) }
{
    out.push(operator_code(operator))?;
    Shared::<NodePart>::put(out, formula)?;
    Option::<Shared<NodePart>>::put(out, formula2)?;
    StylePart::put(out, style)?;
    bool::put(out, &stop_if_true)
}

/// Adds the ends of a bar and its colours.
fn put_data_bar(
    out: &mut Vec<u8>,
    ends: (&Option<Cfvo>, &Option<Cfvo>),
    colors: (Color, Color),
    is_gradient: bool,
    show_value: bool,
) -> Result<(), AllocError>
    ensures encoded { OnOk result (out.new.items ≡ out.old.items ++ encode_data_bar ends.entry.0.now ends.entry.1.now colors.0 colors.1 is_gradient show_value) }
    ensures fits { OnOk result (IfSome ends.entry.0.now IsKnownCfvo → IfSome ends.entry.1.now IsKnownCfvo → FitsDataBar ends.entry.0.now ends.entry.1.now colors.0 colors.1) }
{
    let (min, max) = ends;
    Option::<CfvoPart>::put(out, min)?;
    Option::<CfvoPart>::put(out, max)?;
    ColorPart::put(out, &colors.0)?;
    ColorPart::put(out, &colors.1)?;
    bool::put(out, &is_gradient)?;
    bool::put(out, &show_value)
}

fn put_icon_set(
    out: &mut Vec<u8>,
    icons: u8,
    thresholds: &[IconThreshold],
    show_value: bool,
) -> Result<(), AllocError>
    ensures encoded { OnOk result (out.new.items ≡ out.old.items ++ encode_icon_set icons thresholds.now show_value) }
    ensures fits { OnOk result (AllByRecursion IsKnownIconThreshold thresholds.now → FitsIconSet icons thresholds.now) }
{
    u8::put(out, &icons)?;
    put_items::<IconThresholdPart>(out, thresholds)?;
    bool::put(out, &show_value)
}

fn put_icon_rating(
    out: &mut Vec<u8>,
    icon: u8,
    color: Color,
    thresholds: &[IconThreshold],
    show_value: bool,
) -> Result<(), AllocError>
    ensures encoded { OnOk result (out.new.items ≡ out.old.items ++ encode_icon_rating icon color thresholds.now show_value) }
    ensures fits { OnOk result (AllByRecursion IsKnownIconThreshold thresholds.now → FitsIconRating icon color thresholds.now) }
{
    u8::put(out, &icon)?;
    ColorPart::put(out, &color)?;
    put_items::<IconThresholdPart>(out, thresholds)?;
    bool::put(out, &show_value)
}

pub(crate) fn put_rule(out: &mut Vec<u8>, rule: &CfRule) -> Result<(), AllocError>
    ensures encoded { OnOk result (out.new.items ≡ out.old.items ++ encode_rule rule.now) }
    ensures fits { OnOk result (IsKnownRule rule.now → FitsRule rule.now) }
{
    match rule {
        CfRule::Formula {
            formula,
            style,
            stop_if_true,
        } => {
            out.push(0)?;
            put_formula(out, formula, style, *stop_if_true)?;
        }
        CfRule::CellIs {
            operator,
            formula,
            formula2,
            style,
            stop_if_true,
        } => {
            out.push(1)?;
            put_cell_is(out, *operator, formula, formula2, style, *stop_if_true)?;
        }
        CfRule::ColorScale { thresholds } => {
            out.push(2)?;
            put_items::<ColorThresholdPart>(out, thresholds.as_slice())?;
        }
        CfRule::DataBar {
            min,
            max,
            positive_color,
            negative_color,
            is_gradient,
            show_value,
        } => {
            out.push(3)?;
            let colors = (*positive_color, *negative_color);
            put_data_bar(out, (min, max), colors, *is_gradient, *show_value)?;
        }
        CfRule::IconSet {
            icons,
            thresholds,
            show_value,
        } => {
            out.push(4)?;
            put_icon_set(out, *icons, thresholds.as_slice(), *show_value)?;
        }
        CfRule::IconRating {
            icon,
            color,
            thresholds,
            show_value,
        } => {
            out.push(5)?;
            put_icon_rating(out, *icon, *color, thresholds.as_slice(), *show_value)?;
        }
    }
    Ok(())
}
