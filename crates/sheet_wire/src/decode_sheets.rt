//! Diffs of the fields of a sheet and of the list of sheets from their bytes.

ghost use Rattle.base_values.specs.Answers.{Answers, map_ok};
ghost use Rattle.sheet_wire.specs.laws.Reading.{sheet_change_at, color_diff_at, copy_diff_at, deletion_diff_at, grid_diff_at, move_diff_at, name_diff_at, new_diff_at, rename_diff_at, state_diff_at, frozen_columns_diff_at, frozen_rows_diff_at};

use crate::sheets::KeptSheetPart;
use crate::trees::KeptTreesPart;
use base_shared::Shared;
use base_styles::Style;
use base_values::{EditError, Text};
use base_wire::{Part, read};
use grid_wire::{ColorPart, NamePart, StatePart};
use name_edits::NameChange;
use sheet_history::{Diff, FieldChange};
use std::alloc::Global;

/// The id of a sheet, and what it had before and has after.
pub(crate) type SheetChange<T> = (u32, T, T);

/// The id of a sheet, and what it had before and has after.
pub(crate) fn sheet_change_at<'a, P: Part>(
    alloc: Global,
    context: &P::Context,
    bytes: &'a [u8],
) -> Result<(SheetChange<P::Value>, &'a [u8]), EditError>
    ensures { Answers (map_ok (λ x. ((x.0.0, (x.0.1, x.0.2)), x.1.now)) result) (sheet_change_at P.reading bytes.now) }
{
    let (sheet, rest) = read::<u32>(alloc, &(), bytes)?;
    let (old, rest) = read::<P>(alloc, context, rest)?;
    let (new, rest) = read::<P>(alloc, context, rest)?;
    Ok(((sheet, old, new), rest))
}

#[tactic(auto, unfolding(crate::specs::laws::Reading::color_diff_at))]
pub(crate) fn color_diff_at(alloc: Global, bytes: &[u8]) -> Result<(Diff, &[u8]), EditError>
    ensures { Answers (map_ok (λ x. (x.0, x.1.now)) result) (color_diff_at bytes.now) }
{
    let ((sheet, old, new), rest) = sheet_change_at::<ColorPart>(alloc, &(), bytes)?;
    let change = FieldChange::Color { old, new };
    Ok((Diff::Field { sheet, change }, rest))
}

#[tactic(auto, unfolding(crate::specs::laws::Reading::state_diff_at, crate::specs::laws::Reading::state_at))]
pub(crate) fn state_diff_at(alloc: Global, bytes: &[u8]) -> Result<(Diff, &[u8]), EditError>
    ensures { Answers (map_ok (λ x. (x.0, x.1.now)) result) (state_diff_at bytes.now) }
{
    let ((sheet, old, new), rest) = sheet_change_at::<StatePart>(alloc, &(), bytes)?;
    let change = FieldChange::State { old, new };
    Ok((Diff::Field { sheet, change }, rest))
}

#[tactic(auto, unfolding(crate::specs::laws::Reading::grid_diff_at))]
pub(crate) fn grid_diff_at(alloc: Global, bytes: &[u8]) -> Result<(Diff, &[u8]), EditError>
    ensures { Answers (map_ok (λ x. (x.0, x.1.now)) result) (grid_diff_at bytes.now) }
{
    let ((sheet, old, new), rest) = sheet_change_at::<bool>(alloc, &(), bytes)?;
    let change = FieldChange::GridLines { old, new };
    Ok((Diff::Field { sheet, change }, rest))
}

#[tactic(auto, unfolding(crate::specs::laws::Reading::frozen_rows_diff_at))]
pub(crate) fn frozen_rows_diff_at(alloc: Global, bytes: &[u8]) -> Result<(Diff, &[u8]), EditError>
    ensures { Answers (map_ok (λ x. (x.0, x.1.now)) result) (frozen_rows_diff_at bytes.now) }
{
    let ((sheet, old, new), rest) = sheet_change_at::<i32>(alloc, &(), bytes)?;
    let change = FieldChange::FrozenRows { old, new };
    Ok((Diff::Field { sheet, change }, rest))
}

#[tactic(auto, unfolding(crate::specs::laws::Reading::frozen_columns_diff_at))]
pub(crate) fn frozen_columns_diff_at(
    alloc: Global,
    bytes: &[u8],
) -> Result<(Diff, &[u8]), EditError>
    ensures { Answers (map_ok (λ x. (x.0, x.1.now)) result) (frozen_columns_diff_at bytes.now) }
{
    let ((sheet, old, new), rest) = sheet_change_at::<i32>(alloc, &(), bytes)?;
    let change = FieldChange::FrozenColumns { old, new };
    Ok((Diff::Field { sheet, change }, rest))
}

#[tactic(auto, unfolding(crate::specs::laws::Reading::new_diff_at))]
pub(crate) fn new_diff_at(alloc: Global, bytes: &[u8]) -> Result<(Diff, &[u8]), EditError>
    ensures { Answers (map_ok (λ x. (x.0, x.1.now)) result) (new_diff_at bytes.now) }
{
    let (sheet, rest) = read::<u32>(alloc, &(), bytes)?;
    let (index, rest) = read::<u32>(alloc, &(), rest)?;
    let (name, rest) = read::<Text>(alloc, &(), rest)?;
    Ok((Diff::NewSheet { sheet, index, name }, rest))
}

#[tactic(auto, unfolding(crate::specs::laws::Reading::copy_diff_at))]
pub(crate) fn copy_diff_at(alloc: Global, bytes: &[u8]) -> Result<(Diff, &[u8]), EditError>
    ensures { Answers (map_ok (λ x. (x.0, x.1.now)) result) (copy_diff_at bytes.now) }
{
    let (source, rest) = read::<u32>(alloc, &(), bytes)?;
    let (sheet, rest) = read::<u32>(alloc, &(), rest)?;
    let (index, rest) = read::<u32>(alloc, &(), rest)?;
    let (name, rest) = read::<Text>(alloc, &(), rest)?;
    let diff = Diff::DuplicateSheet {
        source,
        sheet,
        index,
        name,
    };
    Ok((diff, rest))
}

#[tactic(auto, unfolding(crate::specs::laws::Reading::deletion_diff_at))]
pub(crate) fn deletion_diff_at<'a>(
    alloc: Global,
    plain: &Shared<Style>,
    bytes: &'a [u8],
) -> Result<(Diff, &'a [u8]), EditError>
    ensures { Answers (map_ok (λ x. (x.0, x.1.now)) result) (deletion_diff_at bytes.now) }
{
    let (index, rest) = read::<u32>(alloc, &(), bytes)?;
    let (kept, rest) = read::<Shared<KeptSheetPart>>(alloc, plain, rest)?;
    Ok((Diff::DeleteSheet { index, kept }, rest))
}

#[tactic(auto, unfolding(crate::specs::laws::Reading::rename_diff_at))]
pub(crate) fn rename_diff_at<'a>(
    alloc: Global,
    plain: &Shared<Style>,
    bytes: &'a [u8],
) -> Result<(Diff, &'a [u8]), EditError>
    ensures { Answers (map_ok (λ x. (x.0, x.1.now)) result) (rename_diff_at bytes.now) }
{
    let (sheet, rest) = read::<u32>(alloc, &(), bytes)?;
    let (old, rest) = read::<Text>(alloc, &(), rest)?;
    let (new, rest) = read::<Text>(alloc, &(), rest)?;
    let (kept, rest) = read::<Shared<KeptTreesPart>>(alloc, plain, rest)?;
    let diff = Diff::RenameSheet {
        sheet,
        old,
        new,
        kept,
    };
    Ok((diff, rest))
}

#[tactic(auto, unfolding(crate::specs::laws::Reading::name_diff_at, crate::specs::laws::Reading::name_there_at))]
pub(crate) fn name_diff_at<'a>(
    alloc: Global,
    plain: &Shared<Style>,
    bytes: &'a [u8],
) -> Result<(Diff, &'a [u8]), EditError>
    ensures { Answers (map_ok (λ x. (x.0, x.1.now)) result) (name_diff_at bytes.now) }
{
    let (index, rest) = read::<u64>(alloc, &(), bytes)?;
    let (old, rest) = read::<Option<NamePart>>(alloc, &(), rest)?;
    let (new, rest) = read::<Option<NamePart>>(alloc, &(), rest)?;
    let (kept, rest) = read::<Shared<KeptTreesPart>>(alloc, plain, rest)?;
    let change = NameChange { index, old, new };
    Ok((Diff::ChangeName { change, kept }, rest))
}

#[tactic(auto, unfolding(crate::specs::laws::Reading::move_diff_at))]
pub(crate) fn move_diff_at(alloc: Global, bytes: &[u8]) -> Result<(Diff, &[u8]), EditError>
    ensures { Answers (map_ok (λ x. (x.0, x.1.now)) result) (move_diff_at bytes.now) }
{
    let (sheet, rest) = read::<u32>(alloc, &(), bytes)?;
    let (from, rest) = read::<u32>(alloc, &(), rest)?;
    let (to, rest) = read::<u32>(alloc, &(), rest)?;
    Ok((Diff::MoveSheet { sheet, from, to }, rest))
}
