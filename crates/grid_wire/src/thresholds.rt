//! Thresholds as parts of formats.

ghost use Rattle.std.specs.Prelude.{◌≡◌, ◌++◌, OnOk};
ghost use Rattle.base_values.specs.Answers.{Answers, map_ok};
ghost use Rattle.grid_wire.specs.ThresholdBytes.{encode_cfvo, FitsCfvo, IsKnownCfvo};
ghost use Rattle.grid_wire.specs.laws.RuleReading.{cfvo_at, color_threshold_at, icon_threshold_at};

use crate::ColorPart;
use base_decimal::Decimal;
use base_shared::Shared;
use base_values::EditError;
use base_wire::{Part, read};
use format_rules::{Cfvo, ColorThreshold, IconThreshold};
use formula_wire::NodePart;
use std::alloc::{AllocError, Global};

fn put_cfvo(out: &mut Vec<u8>, cfvo: &Cfvo) -> Result<(), AllocError>
    ensures encoded { OnOk result (out.new.items ≡ out.old.items ++ encode_cfvo cfvo.now) }
    ensures fits { OnOk result (IsKnownCfvo cfvo.now → FitsCfvo cfvo.now) }
{
    match cfvo {
        Cfvo::Min => out.push(0)?,
        Cfvo::Max => out.push(1)?,
        Cfvo::Number(number) => {
            out.push(2)?;
            Decimal::put(out, number)?;
        }
        Cfvo::Percent(number) => {
            out.push(3)?;
            Decimal::put(out, number)?;
        }
        Cfvo::Percentile(number) => {
            out.push(4)?;
            Decimal::put(out, number)?;
        }
        Cfvo::Formula(tree) => {
            out.push(5)?;
            Shared::<NodePart>::put(out, tree)?;
        }
    }
    Ok(())
}

#[tactic(auto, unfolding(crate::specs::laws::RuleReading::cfvo_at))]
fn cfvo_at(alloc: Global, bytes: &[u8]) -> Result<(Cfvo, &[u8]), EditError>
    ensures { Answers (map_ok (λ x. (x.0, x.1.now)) result) (cfvo_at bytes.now) }
{
    let (kind, rest) = read::<u8>(alloc, &(), bytes)?;
    match kind {
        0 => Ok((Cfvo::Min, rest)),
        1 => Ok((Cfvo::Max, rest)),
        2 => {
            let (number, rest) = read::<Decimal>(alloc, &(), rest)?;
            Ok((Cfvo::Number(number), rest))
        }
        3 => {
            let (number, rest) = read::<Decimal>(alloc, &(), rest)?;
            Ok((Cfvo::Percent(number), rest))
        }
        4 => {
            let (number, rest) = read::<Decimal>(alloc, &(), rest)?;
            Ok((Cfvo::Percentile(number), rest))
        }
        5 => {
            let (tree, rest) = read::<Shared<NodePart>>(alloc, &(), rest)?;
            Ok((Cfvo::Formula(tree), rest))
        }
        _ => Err(EditError::ParseDiffs),
    }
}

#[tactic(auto, unfolding(crate::specs::laws::RuleReading::color_threshold_at))]
fn color_threshold_at(alloc: Global, bytes: &[u8]) -> Result<(ColorThreshold, &[u8]), EditError>
    ensures { Answers (map_ok (λ x. (x.0, x.1.now)) result) (color_threshold_at bytes.now) }
{
    let (cfvo, rest) = read::<CfvoPart>(alloc, &(), bytes)?;
    let (color, rest) = read::<ColorPart>(alloc, &(), rest)?;
    Ok((ColorThreshold { cfvo, color }, rest))
}

#[tactic(auto, unfolding(crate::specs::laws::RuleReading::icon_threshold_at))]
fn icon_threshold_at(alloc: Global, bytes: &[u8]) -> Result<(IconThreshold, &[u8]), EditError>
    ensures { Answers (map_ok (λ x. (x.0, x.1.now)) result) (icon_threshold_at bytes.now) }
{
    let (cfvo, rest) = read::<CfvoPart>(alloc, &(), bytes)?;
    let (strict, rest) = read::<bool>(alloc, &(), rest)?;
    Ok((IconThreshold { cfvo, strict }, rest))
}

/// The value of a threshold: the kind, and then the number or the formula.
pub(crate) struct CfvoPart;

impl Part for CfvoPart {
    ghost use Rattle.grid_wire.specs.ThresholdBytes.{encode_cfvo, FitsCfvo, IsKnownCfvo};
    ghost use Rattle.grid_wire.specs.laws.RuleReading.{cfvo_at};
    ghost use Rattle.grid_wire.specs.laws.ThresholdLaws.{cfvo_format, cfvo_some};

    type Value = Cfvo;

    type Context = ();

    ghost Known = { IsKnownCfvo };

    ghost Fits = { FitsCfvo };

    ghost encoding = { encode_cfvo };

    ghost reading = { cfvo_at };

    fn put(out: &mut Vec<u8>, value: &Cfvo) -> Result<(), AllocError> {
        put_cfvo(out, value)
    }

    fn take<'a>(
        alloc: Global,
        _context: &(),
        bytes: &'a [u8],
    ) -> Result<(Cfvo, &'a [u8]), EditError> {
        cfvo_at(alloc, bytes)
    }

    ghost format = { cfvo_format };

    ghost some = { cfvo_some };
}

/// A threshold of a scale of colours: its value, and its colour.
pub(crate) struct ColorThresholdPart;

impl Part for ColorThresholdPart {
    ghost use Rattle.grid_wire.specs.ThresholdBytes.{encode_color_threshold, FitsColorThreshold, IsKnownColorThreshold};
    ghost use Rattle.grid_wire.specs.laws.RuleReading.{color_threshold_at};
    ghost use Rattle.grid_wire.specs.laws.ThresholdLaws.{color_threshold_format, color_threshold_some};

    type Value = ColorThreshold;

    type Context = ();

    ghost Known = { IsKnownColorThreshold };

    ghost Fits = { FitsColorThreshold };

    ghost encoding = { encode_color_threshold };

    ghost reading = { color_threshold_at };

    fn put(out: &mut Vec<u8>, value: &ColorThreshold) -> Result<(), AllocError> {
        put_cfvo(out, &value.cfvo)?;
        ColorPart::put(out, &value.color)
    }

    fn take<'a>(
        alloc: Global,
        _context: &(),
        bytes: &'a [u8],
    ) -> Result<(ColorThreshold, &'a [u8]), EditError> {
        color_threshold_at(alloc, bytes)
    }

    ghost format = { color_threshold_format };

    ghost some = { color_threshold_some };
}

/// A threshold of icons: its value, and whether it has to be exceeded.
pub(crate) struct IconThresholdPart;

impl Part for IconThresholdPart {
    ghost use Rattle.grid_wire.specs.ThresholdBytes.{encode_icon_threshold, FitsIconThreshold, IsKnownIconThreshold};
    ghost use Rattle.grid_wire.specs.laws.RuleReading.{icon_threshold_at};
    ghost use Rattle.grid_wire.specs.laws.ThresholdLaws.{icon_threshold_format, icon_threshold_some};

    type Value = IconThreshold;

    type Context = ();

    ghost Known = { IsKnownIconThreshold };

    ghost Fits = { FitsIconThreshold };

    ghost encoding = { encode_icon_threshold };

    ghost reading = { icon_threshold_at };

    fn put(out: &mut Vec<u8>, value: &IconThreshold) -> Result<(), AllocError> {
        put_cfvo(out, &value.cfvo)?;
        bool::put(out, &value.strict)
    }

    fn take<'a>(
        alloc: Global,
        _context: &(),
        bytes: &'a [u8],
    ) -> Result<(IconThreshold, &'a [u8]), EditError> {
        icon_threshold_at(alloc, bytes)
    }

    ghost format = { icon_threshold_format };

    ghost some = { icon_threshold_some };
}
