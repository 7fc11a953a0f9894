//! The bytes of queues.

ghost use Rattle.std.specs.Prelude.{◌≡◌, ◌++◌, OnOk, IfOk, IfSome, IsOkUnless};
ghost use Rattle.base_values.specs.declared.EditError.TheVariants.{NoMemory};
ghost use Rattle.sheet_wire.specs.KeptBytes.{IsKnownKept};
ghost use Rattle.sheet_wire.specs.ChangeBytes.{encode_change, FitsChange};
ghost use Rattle.sheet_wire.specs.LinesBytes.{encode_lines, FitsLines};
ghost use Rattle.sheet_wire.specs.QueueBytes.{encode_diff, encode_entry, FitsDiff, FitsEntry, IsKnownDiff, IsKnownEntry, IsKnownQueue, IsQueue};

use crate::attributes::{line_tag, put_attr_change};
use crate::codes::{axis_code, direction_code};
use crate::encode_sheets::{
    put_copy, put_deletion, put_field, put_move, put_name_change, put_new, put_rename,
    put_sheet_change,
};
use crate::parts::{DiffPart, EntryPart};
use crate::rule_changes::put_rule;
use crate::settings::put_setting;
use crate::{EditPart, KeptLinesPart};
use base_shared::Shared;
use base_values::{EditError, Items, Position};
use base_wire::{Part, put_items};
use grid_wire::{CellPart, LinkPart, MergeListPart, PositionPart};
use line_map::EditKind;
use sheet_history::{Diff, LineAxis, QueueDiffs};
use sheet_lines::KeptLines;
use std::alloc::{AllocError, Global};

/// Adds the id of a sheet, a position, and what stands there before and after.
fn put_change<P: Part>(
    out: &mut Vec<u8>,
    sheet: u32,
    position: Position,
    old: &Option<P::Value>,
    new: &Option<P::Value>,
) -> Result<(), AllocError>
    ensures encoded { OnOk result (out.new.items ≡ out.old.items ++ encode_change P.encoding sheet position old.now new.now) }
    ensures fits { OnOk result (IfSome old.now P.Known → IfSome new.now P.Known → FitsChange P.Fits sheet position old.now new.now) }
{
    out.extend_from_slice(&sheet.to_be_bytes())?;
    PositionPart::put(out, &position)?;
    Option::<P>::put(out, old)?;
    Option::<P>::put(out, new)
}

/// Adds the id of a sheet, the byte of an axis, the edit, and what it keeps.
fn put_lines(
    out: &mut Vec<u8>,
    sheet: u32,
    axis: LineAxis,
    edit: EditKind,
    kept: &Shared<KeptLines>,
) -> Result<(), AllocError>
    ensures encoded { OnOk result (out.new.items ≡ out.old.items ++ encode_lines sheet axis edit kept.now) }
    ensures fits { OnOk result (IsKnownKept kept.now → FitsLines sheet edit kept.now) }
{
    out.extend_from_slice(&sheet.to_be_bytes())?;
    out.push(axis_code(axis))?;
    EditPart::put(out, &edit)?;
    Shared::<KeptLinesPart>::put(out, kept)?;
    Ok(())
}

pub(crate) fn put_diff(out: &mut Vec<u8>, diff: &Diff) -> Result<(), AllocError>
    ensures encoded { OnOk result (out.new.items ≡ out.old.items ++ encode_diff diff.now) }
    ensures fits { OnOk result (IsKnownDiff diff.now → FitsDiff diff.now) }
{
    match diff {
        Diff::Cell {
            sheet,
            position,
            old,
            new,
        } => {
            out.push(1)?;
            put_change::<CellPart>(out, *sheet, *position, old, new)?;
        }
        Diff::Link {
            sheet,
            position,
            old,
            new,
        } => {
            out.push(2)?;
            put_change::<LinkPart>(out, *sheet, *position, old, new)?;
        }
        Diff::Merges { sheet, old, new } => {
            out.push(5)?;
            put_sheet_change::<MergeListPart>(out, *sheet, old, new)?;
        }
        Diff::Field { sheet, change } => put_field(out, *sheet, *change)?,
        Diff::Setting { change } => put_setting(out, change)?,
        Diff::Attributes {
            sheet,
            axis,
            line,
            old,
            new,
        } => {
            out.push(line_tag(*axis))?;
            put_attr_change(out, *sheet, *line, old, new)?;
        }
        Diff::Rule { sheet, change } => {
            out.push(6)?;
            put_rule(out, *sheet, change)?;
        }
        Diff::Lines {
            sheet,
            axis,
            edit,
            kept,
        } => {
            out.push(7)?;
            put_lines(out, *sheet, *axis, *edit, kept)?;
        }
        Diff::NewSheet { sheet, index, name } => {
            out.push(8)?;
            put_new(out, *sheet, *index, name)?;
        }
        Diff::DuplicateSheet {
            source,
            sheet,
            index,
            name,
        } => {
            out.push(9)?;
            put_copy(out, *source, *sheet, *index, name)?;
        }
        Diff::DeleteSheet { index, kept } => {
            out.push(10)?;
            put_deletion(out, *index, kept)?;
        }
        Diff::RenameSheet {
            sheet,
            old,
            new,
            kept,
        } => {
            out.push(11)?;
            put_rename(out, *sheet, old, new, kept)?;
        }
        Diff::ChangeName { change, kept } => {
            out.push(22)?;
            put_name_change(out, change, kept)?;
        }
        Diff::MoveSheet { sheet, from, to } => {
            out.push(12)?;
            put_move(out, *sheet, *from, *to)?;
        }
    }
    Ok(())
}

pub(crate) fn put_entry(out: &mut Vec<u8>, entry: &QueueDiffs) -> Result<(), AllocError>
    ensures encoded { OnOk result (out.new.items ≡ out.old.items ++ encode_entry entry.now) }
    ensures fits { OnOk result (IsKnownEntry entry.now → FitsEntry entry.now) }
{
    out.push(direction_code(entry.kind))?;
    Shared::<Items<DiffPart>>::put(out, &entry.list)
}

/// The bytes of a queue of diffs, whose numbers are canonical, whose trees are at most 64 deep, and whose
/// lines have something of their own. They can be read again as the queue (docs/FORMATS.md, "Bytes"). Refuses with `NoMemory` alone.
#[tactic(auto, unfolding(crate::specs::QueueBytes::encode_queue))]
pub fn encode_queue(alloc: Global, queue: &[QueueDiffs]) -> Result<Vec<u8>, EditError>
    requires known { IsKnownQueue queue.now }
    ensures encoded { IfOk result (λ bytes. IsQueue bytes.items queue.now) }
    ensures only { IsOkUnless result NoMemory }
{
    let mut out = Vec::from_slice(alloc, b"ICQ1")?;
    put_items::<EntryPart>(&mut out, queue)?;
    Ok(out)
}
