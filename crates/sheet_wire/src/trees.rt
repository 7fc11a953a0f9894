//! The trees and the conditional rules that a renaming keeps as a part of formats.

ghost use Rattle.std.specs.Prelude.{◌≡◌, ◌++◌, OnOk};
ghost use Rattle.base_values.specs.Answers.{Answers, map_ok};
ghost use Rattle.sheet_wire.specs.TreesBytes.{encode_trees, AreKnownTrees, FitsTrees};
ghost use Rattle.sheet_wire.specs.laws.Reading.{trees_at};

use crate::{FormulasPart, SheetIndexPart};
use base_maps::{IndexKeys, SheetIndexKeys};
use base_shared::Shared;
use base_styles::Style;
use base_values::EditError;
use base_wire::{MapPart, Part, read};
use book_names::KeptTrees;
use format_rules::ConditionalFormatting;
use formula_tree::Node;
use formula_wire::NodePart;
use grid_wire::FormattingPart;
use std::alloc::{AllocError, Global};

type RulesPart = MapPart<SheetIndexKeys<ConditionalFormatting>, SheetIndexPart, FormattingPart>;

type NameTreesPart = MapPart<IndexKeys<Shared<Node>>, u64, Shared<NodePart>>;

#[tactic(auto, unfolding(crate::specs::laws::Reading::trees_at, crate::specs::laws::Reading::name_trees_at, crate::specs::laws::Reading::renamed_rules_at, crate::specs::laws::LinesReading::formulas_at))]
fn trees_at<'a>(
    alloc: Global,
    plain: &Shared<Style>,
    bytes: &'a [u8],
) -> Result<(KeptTrees, &'a [u8]), EditError>
    ensures { Answers (map_ok (λ x. (x.0, x.1.now)) result) (trees_at bytes.now) }
{
    let (formulas, rest) = read::<FormulasPart>(alloc, &(), bytes)?;
    let (formattings, rest) = read::<RulesPart>(alloc, plain, rest)?;
    let (names, rest) = read::<NameTreesPart>(alloc, &(), rest)?;
    let kept = KeptTrees {
        formulas,
        names,
        formattings,
    };
    Ok((kept, rest))
}

#[tactic(auto, unfolding(crate::specs::TreesBytes::encode_trees))]
fn put_trees(out: &mut Vec<u8>, kept: &KeptTrees) -> Result<(), AllocError>
    ensures encoded { OnOk result (out.new.items ≡ out.old.items ++ encode_trees kept.now) }
    ensures fits { OnOk result (AreKnownTrees kept.now → FitsTrees kept.now) }
{
    FormulasPart::put(out, &kept.formulas)?;
    RulesPart::put(out, &kept.formattings)?;
    NameTreesPart::put(out, &kept.names)?;
    Ok(())
}

/// The trees of cells and of defined names, and the conditional rules, that the opposite renaming does not
/// give back. Each style that is read and equal to that of the context shares it.
pub(crate) struct KeptTreesPart;

impl Part for KeptTreesPart {
    ghost use Rattle.sheet_wire.specs.TreesBytes.{encode_trees, AreKnownTrees, FitsTrees};
    ghost use Rattle.sheet_wire.specs.laws.Reading.{trees_at};
    ghost use Rattle.sheet_wire.specs.laws.TreesFormats.{trees_format, trees_some};

    type Value = KeptTrees;

    type Context = Shared<Style>;

    ghost Known = { AreKnownTrees };

    ghost Fits = { FitsTrees };

    ghost encoding = { encode_trees };

    ghost reading = { trees_at };

    fn put(out: &mut Vec<u8>, value: &KeptTrees) -> Result<(), AllocError> {
        put_trees(out, value)
    }

    fn take<'a>(
        alloc: Global,
        plain: &Shared<Style>,
        bytes: &'a [u8],
    ) -> Result<(KeptTrees, &'a [u8]), EditError> {
        trees_at(alloc, plain, bytes)
    }

    ghost format = { trees_format };

    ghost some = { trees_some };
}
