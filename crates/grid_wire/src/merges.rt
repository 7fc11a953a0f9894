//! Links and merged cells as parts of formats.

ghost use Rattle.std.specs.Prelude.{◌≡◌, ◌++◌, OnOk};
ghost use Rattle.base_values.specs.Answers.{Answers, map_ok};
ghost use Rattle.grid_wire.specs.laws.CellReading.{link_at, merge_at, merges_at};
ghost use Rattle.grid_wire.specs.MergeBytes.{encode_merge, encode_merges, FitsMerge, FitsMerges};

use base_axis::{MergeList, MergedCell};
use base_values::{EditError, Items, Text};
use base_wire::{Part, put_items, read};
use sheet_grid::Link;
use std::alloc::{AllocError, Global};

#[tactic(auto, unfolding(crate::specs::laws::CellReading::link_at))]
fn link_at(alloc: Global, bytes: &[u8]) -> Result<(Link, &[u8]), EditError>
    ensures { Answers (map_ok (λ x. (x.0, x.1.now)) result) (link_at bytes.now) }
{
    let (target, rest) = read::<Text>(alloc, &(), bytes)?;
    Ok((Link { target }, rest))
}

#[tactic(auto, unfolding(crate::specs::laws::CellReading::merge_at))]
fn merge_at(alloc: Global, bytes: &[u8]) -> Result<(MergedCell, &[u8]), EditError>
    ensures { Answers (map_ok (λ x. (x.0, x.1.now)) result) (merge_at bytes.now) }
{
    let (row, rest) = read::<i32>(alloc, &(), bytes)?;
    let (column, rest) = read::<i32>(alloc, &(), rest)?;
    let (width, rest) = read::<i32>(alloc, &(), rest)?;
    let (height, rest) = read::<i32>(alloc, &(), rest)?;
    let merge = MergedCell {
        row,
        column,
        width,
        height,
    };
    Ok((merge, rest))
}

#[tactic(auto, unfolding(crate::specs::laws::CellReading::merges_at))]
fn merges_at(alloc: Global, bytes: &[u8]) -> Result<(MergeList, &[u8]), EditError>
    ensures { Answers (map_ok (λ x. (x.0, x.1.now)) result) (merges_at bytes.now) }
{
    let (items, rest) = read::<Items<MergedCellPart>>(alloc, &(), bytes)?;
    Ok((MergeList::new(items), rest))
}

#[tactic(auto, unfolding(crate::specs::MergeBytes::encode_merge))]
fn put_merge(out: &mut Vec<u8>, merge: MergedCell) -> Result<(), AllocError>
    ensures encoded { OnOk result (out.new.items ≡ out.old.items ++ encode_merge merge) }
    ensures fits { OnOk result (FitsMerge merge) }
{
    i32::put(out, &merge.row)?;
    i32::put(out, &merge.column)?;
    i32::put(out, &merge.width)?;
    i32::put(out, &merge.height)
}

/// Adds the merges, or the parts of a rule.
#[tactic(auto, using(crate::proofs::Known::any_items))]
pub(crate) fn put_merges(out: &mut Vec<u8>, merges: &[MergedCell]) -> Result<(), AllocError>
    ensures encoded { OnOk result (out.new.items ≡ out.old.items ++ encode_merges merges.now) }
    ensures fits { OnOk result (FitsMerges merges.now) }
{
    put_items::<MergedCellPart>(out, merges)
}

/// A link: where it leads (docs/FORMATS.md, "Bytes").
pub struct LinkPart;

/// A merge: its first row and column, its width and its height, inside the sheet or not
/// (docs/FORMATS.md, "Bytes").
pub(crate) struct MergedCellPart;

/// The merges of a sheet, in their order (docs/FORMATS.md, "Bytes").
pub struct MergeListPart;

impl Part for LinkPart {
    ghost use Rattle.std.proofs.Common.{arith};
    ghost use Rattle.base_wire.specs.Encoding.{Any};
    ghost use Rattle.grid_wire.specs.LinkBytes.{encode_link, FitsLink};
    ghost use Rattle.grid_wire.specs.laws.CellReading.{link_at};
    ghost use Rattle.grid_wire.specs.laws.MergeLaws.{link_format};

    type Value = Link;

    type Context = ();

    ghost Known = { Any };

    ghost Fits = { FitsLink };

    ghost encoding = { encode_link };

    ghost reading = { link_at };

    fn put(out: &mut Vec<u8>, value: &Link) -> Result<(), AllocError> {
        Text::put(out, &value.target)
    }

    fn take<'a>(
        alloc: Global,
        _context: &(),
        bytes: &'a [u8],
    ) -> Result<(Link, &'a [u8]), EditError> {
        link_at(alloc, bytes)
    }

    ghost format = { link_format };

    ghost some = { λ x. Prim.omega arith };
}

impl Part for MergedCellPart {
    ghost use Rattle.base_wire.specs.Encoding.{Any};
    ghost use Rattle.grid_wire.specs.MergeBytes.{encode_merge, FitsMerge};
    ghost use Rattle.grid_wire.specs.laws.CellReading.{merge_at};
    ghost use Rattle.grid_wire.specs.laws.MergeLaws.{merge_format, merge_some};

    type Value = MergedCell;

    type Context = ();

    ghost Known = { Any };

    ghost Fits = { FitsMerge };

    ghost encoding = { encode_merge };

    ghost reading = { merge_at };

    fn put(out: &mut Vec<u8>, value: &MergedCell) -> Result<(), AllocError> {
        put_merge(out, *value)
    }

    fn take<'a>(
        alloc: Global,
        _context: &(),
        bytes: &'a [u8],
    ) -> Result<(MergedCell, &'a [u8]), EditError> {
        merge_at(alloc, bytes)
    }

    ghost format = { merge_format };

    ghost some = { merge_some };
}

impl Part for MergeListPart {
    ghost use Rattle.std.proofs.Common.{arith};
    ghost use Rattle.base_wire.specs.Encoding.{Any};
    ghost use Rattle.grid_wire.specs.MergeBytes.{encode_merges, FitsMerges};
    ghost use Rattle.grid_wire.specs.laws.CellReading.{merges_at};
    ghost use Rattle.grid_wire.specs.laws.MergeLaws.{merges_format};

    type Value = MergeList;

    type Context = ();

    ghost Known = { Any };

    ghost Fits = { FitsMerges };

    ghost encoding = { encode_merges };

    ghost reading = { merges_at };

    fn put(out: &mut Vec<u8>, value: &MergeList) -> Result<(), AllocError> {
        put_merges(out, value.as_slice())
    }

    fn take<'a>(
        alloc: Global,
        _context: &(),
        bytes: &'a [u8],
    ) -> Result<(MergeList, &'a [u8]), EditError> {
        merges_at(alloc, bytes)
    }

    ghost format = { merges_format };

    ghost some = { λ x. Prim.omega arith };
}
