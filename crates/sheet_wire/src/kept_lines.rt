//! What line edits keep of a workbook, as bytes and from them.

ghost use Rattle.std.specs.Prelude.{◌≡◌, ◌++◌, IfSome, OnOk};
ghost use Rattle.base_values.specs.Answers.{Answers, map_ok};
ghost use Rattle.base_wire.specs.Encoding.{encode_option};
ghost use Rattle.grid_wire.specs.MergeBytes.{encode_merges, FitsMerges};
ghost use Rattle.sheet_wire.specs.KeptBytes.{encode_kept, FitsKept, IsKnownKept};
ghost use Rattle.sheet_wire.specs.laws.LinesReading.{kept_at};

use crate::values::SheetPlacePart;
use base_axis::MergeList;
use base_maps::{IndexKeys, NumberKeys, PositionKeys, SheetPlaceKeys};
use base_shared::Shared;
use base_styles::Style;
use base_values::EditError;
use base_wire::{MapPart, Part, read};
use format_rules::ConditionalFormatting;
use formula_tree::Node;
use formula_wire::NodePart;
use grid_wire::{CellPart, FormattingPart, LinePart, LinkPart, MergeListPart, PositionPart};
use sheet_grid::{Cell, LineAttr, Link};
use sheet_lines::KeptLines;
use std::alloc::{AllocError, Global};

type CellsPart = MapPart<PositionKeys<Shared<Cell>>, PositionPart, CellPart>;

type LinksPart = MapPart<PositionKeys<Link>, PositionPart, LinkPart>;

type LinesPart = MapPart<NumberKeys<LineAttr>, i32, LinePart>;

type RulesPart = MapPart<IndexKeys<ConditionalFormatting>, u64, FormattingPart>;

/// The trees of formulas, by the ids of their sheets and their positions.
pub type FormulasPart = MapPart<SheetPlaceKeys<Shared<Node>>, SheetPlacePart, Shared<NodePart>>;

#[tactic(auto, using(base_wire::specs::laws::MapFits::any_option))]
fn put_kept_merges(out: &mut Vec<u8>, merges: &Option<MergeList>) -> Result<(), AllocError>
    ensures encoded { OnOk result (out.new.items ≡ out.old.items ++ encode_option encode_merges merges.now) }
    ensures fits { OnOk result (IfSome merges.now FitsMerges) }
{
    Option::<MergeListPart>::put(out, merges)
}

#[tactic(auto, unfolding(crate::specs::KeptBytes::encode_kept))]
fn put_kept(out: &mut Vec<u8>, kept: &KeptLines) -> Result<(), AllocError>
    ensures encoded { OnOk result (out.new.items ≡ out.old.items ++ encode_kept kept.now) }
    ensures fits { OnOk result (IsKnownKept kept.now → FitsKept kept.now) }
{
    CellsPart::put(out, &kept.cells)?;
    LinksPart::put(out, &kept.links)?;
    LinesPart::put(out, &kept.lines)?;
    FormulasPart::put(out, &kept.formulas)?;
    put_kept_merges(out, &kept.merges)?;
    RulesPart::put(out, &kept.formattings)?;
    Ok(())
}

#[tactic(auto, unfolding(crate::specs::laws::LinesReading::kept_at, crate::specs::laws::LinesReading::cells_at, crate::specs::laws::LinesReading::links_at, crate::specs::laws::LinesReading::lines_at, crate::specs::laws::LinesReading::formulas_at, crate::specs::laws::LinesReading::kept_merges_at, crate::specs::laws::LinesReading::kept_rules_at))]
fn kept_at<'a>(
    alloc: Global,
    plain: &Shared<Style>,
    bytes: &'a [u8],
) -> Result<(KeptLines, &'a [u8]), EditError>
    ensures { Answers (map_ok (λ x. (x.0, x.1.now)) result) (kept_at bytes.now) }
{
    let (cells, rest) = read::<CellsPart>(alloc, plain, bytes)?;
    let (links, rest) = read::<LinksPart>(alloc, &(), rest)?;
    let (lines, rest) = read::<LinesPart>(alloc, plain, rest)?;
    let (formulas, rest) = read::<FormulasPart>(alloc, &(), rest)?;
    let (merges, rest) = read::<Option<MergeListPart>>(alloc, &(), rest)?;
    let (formattings, rest) = read::<RulesPart>(alloc, plain, rest)?;
    let kept = KeptLines {
        cells,
        links,
        lines,
        formulas,
        merges,
        formattings,
    };
    Ok((kept, rest))
}

/// What a line edit keeps: its cells, links, lines, trees, merges and conditional rules (docs/FORMATS.md,
/// "What line edits keep").
///
/// Bytes encode none where a map's keys don't rise strictly, where a line has nothing of its own, or
/// where a part is none. Each style that is read and equal to that of the context shares it.
pub struct KeptLinesPart;

impl Part for KeptLinesPart {
    ghost use Rattle.sheet_wire.specs.KeptBytes.{encode_kept, FitsKept, IsKnownKept};
    ghost use Rattle.sheet_wire.specs.laws.LinesReading.{kept_at};
    ghost use Rattle.sheet_wire.specs.laws.KeptLaws.{kept_format, kept_some};

    type Value = KeptLines;

    type Context = Shared<Style>;

    ghost Known = { IsKnownKept };

    ghost Fits = { FitsKept };

    ghost encoding = { encode_kept };

    ghost reading = { kept_at };

    fn put(out: &mut Vec<u8>, value: &KeptLines) -> Result<(), AllocError> {
        put_kept(out, value)
    }

    fn take<'a>(
        alloc: Global,
        plain: &Shared<Style>,
        bytes: &'a [u8],
    ) -> Result<(KeptLines, &'a [u8]), EditError> {
        kept_at(alloc, plain, bytes)
    }

    ghost format = { kept_format };

    ghost some = { kept_some };
}
