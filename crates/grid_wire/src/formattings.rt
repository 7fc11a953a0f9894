//! Rules with their parts and priorities as parts of formats.

ghost use Rattle.base_values.specs.Answers.{Answers, map_ok};
ghost use Rattle.grid_wire.specs.laws.RuleReading.{formatting_at};

use crate::merges::{MergedCellPart, put_merges};
use crate::rules::RulePart;
use base_shared::Shared;
use base_styles::Style;
use base_values::{EditError, Items};
use base_wire::{Part, put_items, read};
use format_rules::{ConditionalFormatting, RuleList};
use std::alloc::{AllocError, Global};

#[tactic(auto, unfolding(crate::specs::laws::RuleReading::formatting_at, crate::specs::laws::CellReading::merges_at))]
fn formatting_at<'a>(
    alloc: Global,
    plain: &Shared<Style>,
    bytes: &'a [u8],
) -> Result<(ConditionalFormatting, &'a [u8]), EditError>
    ensures { Answers (map_ok (λ x. (x.0, x.1.now)) result) (formatting_at bytes.now) }
{
    let (parts, rest) = read::<Items<MergedCellPart>>(alloc, &(), bytes)?;
    let (rule, rest) = read::<RulePart>(alloc, plain, rest)?;
    let (priority, rest) = read::<u32>(alloc, &(), rest)?;
    let formatting = ConditionalFormatting {
        parts,
        rule,
        priority,
    };
    Ok((formatting, rest))
}

/// A rule with its parts and its priority (docs/FORMATS.md, "Bytes"). The parts may be any rectangles.
/// Each style that is read and equal to that of the context shares it.
pub struct FormattingPart;

impl Part for FormattingPart {
    ghost use Rattle.grid_wire.specs.FormattingBytes.{encode_formatting, FitsFormatting, IsKnownFormatting};
    ghost use Rattle.grid_wire.specs.laws.RuleReading.{formatting_at};
    ghost use Rattle.grid_wire.specs.laws.FormattingLaws.{formatting_format, formatting_some};

    type Value = ConditionalFormatting;

    type Context = Shared<Style>;

    ghost Known = { IsKnownFormatting };

    ghost Fits = { FitsFormatting };

    ghost encoding = { encode_formatting };

    ghost reading = { formatting_at };

    fn put(out: &mut Vec<u8>, value: &ConditionalFormatting) -> Result<(), AllocError> {
        put_merges(out, value.parts.as_slice())?;
        RulePart::put(out, &value.rule)?;
        u32::put(out, &value.priority)
    }

    fn take<'a>(
        alloc: Global,
        plain: &Shared<Style>,
        bytes: &'a [u8],
    ) -> Result<(ConditionalFormatting, &'a [u8]), EditError> {
        formatting_at(alloc, plain, bytes)
    }

    ghost format = { formatting_format };

    ghost some = { formatting_some };
}

/// The rules of a sheet, in their order (docs/FORMATS.md, "Bytes").
pub struct RuleListPart;

impl Part for RuleListPart {
    ghost use Rattle.std.proofs.Common.{arith};
    ghost use Rattle.grid_wire.specs.FormattingBytes.{encode_formattings, FitsFormattings, AreKnownFormattings};
    ghost use Rattle.grid_wire.specs.laws.RuleReading.{formattings_at};
    ghost use Rattle.grid_wire.specs.laws.FormattingLaws.{formattings_format};

    type Value = RuleList;

    type Context = Shared<Style>;

    ghost Known = { AreKnownFormattings };

    ghost Fits = { FitsFormattings };

    ghost encoding = { encode_formattings };

    ghost reading = { formattings_at };

    #[tactic(auto, using(crate::specs::laws::KnownLaws::rules_known))]
    fn put(out: &mut Vec<u8>, value: &RuleList) -> Result<(), AllocError> {
        put_items::<FormattingPart>(out, value.as_slice())
    }

    fn take<'a>(
        alloc: Global,
        plain: &Shared<Style>,
        bytes: &'a [u8],
    ) -> Result<(RuleList, &'a [u8]), EditError> {
        let (items, rest) = Items::<FormattingPart>::take(alloc, plain, bytes)?;
        Ok((RuleList::new(items), rest))
    }

    ghost format = { formattings_format };

    ghost some = { λ x. Prim.omega arith };
}
