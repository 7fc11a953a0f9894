//! The bytes of diffs of the fields of a sheet and of the list of sheets.

ghost use Rattle.std.specs.Prelude.{◌≡◌, ◌++◌, OnOk};
ghost use Rattle.sheet_wire.specs.ChangeBytes.{encode_sheet_change, FitsSheetChange};
ghost use Rattle.sheet_wire.specs.QueueBytes.{encode_diff};
ghost use Rattle.sheet_wire.specs.SheetsBytes.{encode_copy, encode_deletion, encode_move, encode_new};
ghost use Rattle.sheet_wire.specs.SheetsBytes.{FitsCopy, FitsDeletion, FitsField, FitsMove, FitsNew, IsKnownKeptSheet};
ghost use Rattle.sheet_wire.specs.TreesBytes.{encode_rename, AreKnownTrees, FitsRename, encode_name_change, FitsNameChange, IsKnownChange};
ghost use Rattle.sheet_history.specs.declared.Diff.TheVariants.{Field as FieldDiff};

use crate::sheets::KeptSheetPart;
use crate::trees::KeptTreesPart;
use base_shared::Shared;
use base_values::Text;
use base_wire::Part;
use book_names::KeptTrees;
use book_sheets::KeptSheet;
use grid_wire::{ColorPart, NamePart, StatePart};
use name_edits::NameChange;
use sheet_history::FieldChange;
use std::alloc::AllocError;

/// Adds the id of a sheet, and what it had before and has after.
#[tactic(auto, unfolding(crate::specs::ChangeBytes::encode_sheet_change))]
pub(crate) fn put_sheet_change<P: Part>(
    out: &mut Vec<u8>,
    sheet: u32,
    old: &P::Value,
    new: &P::Value,
) -> Result<(), AllocError>
    ensures encoded { OnOk result (out.new.items ≡ out.old.items ++ encode_sheet_change P.encoding sheet old.now new.now) }
    ensures fits { OnOk result (P.Known old.now → P.Known new.now → FitsSheetChange P.Fits sheet old.now new.now) }
{
    out.extend_from_slice(&sheet.to_be_bytes())?;
    P::put(out, old)?;
    P::put(out, new)
}

/// Adds a change of a field of a sheet, behind the tag of the field.
pub(crate) fn put_field(
    out: &mut Vec<u8>,
    sheet: u32,
    change: FieldChange,
) -> Result<(), AllocError>
    ensures encoded { OnOk result (out.new.items ≡ out.old.items ++ encode_diff (FieldDiff sheet change)) }
    ensures fits { OnOk result (FitsField sheet change) }
{
    match change {
        FieldChange::Color { old, new } => {
            out.push(13)?;
            put_sheet_change::<ColorPart>(out, sheet, &old, &new)
        }
        FieldChange::State { old, new } => {
            out.push(14)?;
            put_sheet_change::<StatePart>(out, sheet, &old, &new)
        }
        FieldChange::GridLines { old, new } => {
            out.push(15)?;
            put_sheet_change::<bool>(out, sheet, &old, &new)
        }
        FieldChange::FrozenRows { old, new } => {
            out.push(16)?;
            put_sheet_change::<i32>(out, sheet, &old, &new)
        }
        FieldChange::FrozenColumns { old, new } => {
            out.push(17)?;
            put_sheet_change::<i32>(out, sheet, &old, &new)
        }
    }
}

/// Adds the id, the index and the name of a new sheet.
#[tactic(auto, unfolding(crate::specs::SheetsBytes::encode_new))]
pub(crate) fn put_new(
    out: &mut Vec<u8>,
    sheet: u32,
    index: u32,
    name: &Text,
) -> Result<(), AllocError>
    ensures encoded { OnOk result (out.new.items ≡ out.old.items ++ encode_new sheet index name.now) }
    ensures fits { OnOk result (FitsNew sheet index name.now) }
{
    u32::put(out, &sheet)?;
    u32::put(out, &index)?;
    Text::put(out, name)?;
    Ok(())
}

/// Adds the id of a sheet, and the id, the index and the name of its copy.
#[tactic(auto, unfolding(crate::specs::SheetsBytes::encode_copy))]
pub(crate) fn put_copy(
    out: &mut Vec<u8>,
    source: u32,
    sheet: u32,
    index: u32,
    name: &Text,
) -> Result<(), AllocError>
    ensures encoded { OnOk result (out.new.items ≡ out.old.items ++ encode_copy source sheet index name.now) }
    ensures fits { OnOk result (FitsCopy source sheet index name.now) }
{
    u32::put(out, &source)?;
    put_new(out, sheet, index, name)
}

/// Adds the index of a deleted sheet, and what is kept of it.
#[tactic(auto, unfolding(crate::specs::SheetsBytes::encode_deletion))]
pub(crate) fn put_deletion(
    out: &mut Vec<u8>,
    index: u32,
    kept: &Shared<KeptSheet>,
) -> Result<(), AllocError>
    ensures encoded { OnOk result (out.new.items ≡ out.old.items ++ encode_deletion index kept.now) }
    ensures fits { OnOk result (IsKnownKeptSheet kept.now → FitsDeletion index kept.now) }
{
    out.extend_from_slice(&index.to_be_bytes())?;
    Shared::<KeptSheetPart>::put(out, kept)
}

/// Adds the id of a renamed sheet, its old name, its new name, and what is kept.
#[tactic(auto, unfolding(crate::specs::TreesBytes::encode_rename))]
pub(crate) fn put_rename(
    out: &mut Vec<u8>,
    sheet: u32,
    old: &Text,
    new: &Text,
    kept: &Shared<KeptTrees>,
) -> Result<(), AllocError>
    ensures encoded { OnOk result (out.new.items ≡ out.old.items ++ encode_rename sheet old.now new.now kept.now) }
    ensures fits { OnOk result (AreKnownTrees kept.now → FitsRename sheet old.now new.now kept.now) }
{
    u32::put(out, &sheet)?;
    Text::put(out, old)?;
    Text::put(out, new)?;
    Shared::<KeptTreesPart>::put(out, kept)?;
    Ok(())
}

/// Adds the place of a defined name, the name before and after, and what is kept.
#[tactic(auto, unfolding(crate::specs::TreesBytes::encode_name_change))]
pub(crate) fn put_name_change(
    out: &mut Vec<u8>,
    change: &NameChange,
    kept: &Shared<KeptTrees>,
) -> Result<(), AllocError>
    ensures encoded { OnOk result (out.new.items ≡ out.old.items ++ encode_name_change change.now kept.now) }
    ensures fits { OnOk result (IsKnownChange change.now kept.now → FitsNameChange change.now kept.now) }
{
    u64::put(out, &change.index)?;
    Option::<NamePart>::put(out, &change.old)?;
    Option::<NamePart>::put(out, &change.new)?;
    Shared::<KeptTreesPart>::put(out, kept)
}

/// Adds the id of a moved sheet, and the indexes between which it moves.
#[tactic(auto, unfolding(crate::specs::SheetsBytes::encode_move))]
pub(crate) fn put_move(out: &mut Vec<u8>, sheet: u32, from: u32, to: u32) -> Result<(), AllocError>
    ensures encoded { OnOk result (out.new.items ≡ out.old.items ++ encode_move sheet from to) }
    ensures fits { OnOk result (FitsMove sheet from to) }
{
    out.extend_from_slice(&sheet.to_be_bytes())?;
    out.extend_from_slice(&from.to_be_bytes())?;
    out.extend_from_slice(&to.to_be_bytes())
}
