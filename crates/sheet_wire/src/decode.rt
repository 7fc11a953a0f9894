//! Queues from their bytes.

ghost use Rattle.std.specs.Prelude.{◌≡◌, Err};
ghost use Rattle.base_values.specs.Answers.{Answers, map_ok};
ghost use Rattle.base_values.specs.declared.EditError.TheVariants.{ParseDiffs};
ghost use Rattle.base_wire.specs.Reads.{HasNoFront, ReadsWhole};
ghost use Rattle.base_wire.specs.laws.Reading.{code_at, rest_after};
ghost use Rattle.sheet_wire.specs.laws.Reading.{change_at, axes, cell_diff_at, diff_at, lines_diff_at, link_diff_at, merges_diff_at, directions, entry_at, queue_of};
ghost use Rattle.sheet_wire.specs.LinesBytes.{axis_code};
ghost use Rattle.sheet_wire.specs.QueueBytes.{direction_code, magic, IsQueue};

use crate::attributes::attr_diff_at;
use crate::codes::{axis_of, direction_of};
use crate::decode_sheets::{
    color_diff_at, copy_diff_at, deletion_diff_at, frozen_columns_diff_at, frozen_rows_diff_at,
    grid_diff_at, move_diff_at, name_diff_at, new_diff_at, rename_diff_at, sheet_change_at,
    state_diff_at,
};
use crate::parts::{DiffPart, EntryPart};
use crate::rule_changes::rule_diff_at;
use crate::settings::{locale_diff_at, theme_diff_at, title_diff_at, zone_diff_at};
use crate::{EditPart, KeptLinesPart};
use base_shared::Shared;
use base_styles::Style;
use base_values::{EditError, Items, Position};
use base_wire::{Part, counted_after, read};
use grid_wire::{CellPart, LinkPart, MergeListPart, PositionPart};
use sheet_grid::DefaultStyle;
use sheet_history::{Diff, DiffType, LineAxis, QueueDiffs};
use std::alloc::Global;

/// The id of a sheet, a position, and what stands there before and after.
type Change<T> = (u32, Position, Option<T>, Option<T>);

/// The id of a sheet, a position, and what stands there before and after.
#[tactic(auto, unfolding(crate::specs::laws::Reading::standing_at))]
fn change_at<'a, P: Part>(
    alloc: Global,
    context: &P::Context,
    bytes: &'a [u8],
) -> Result<(Change<P::Value>, &'a [u8]), EditError>
    ensures { Answers (map_ok (λ x. ((x.0.0, (x.0.1, (x.0.2, x.0.3))), x.1.now)) result) (change_at P.reading bytes.now) }
{
    let (sheet, rest) = read::<u32>(alloc, &(), bytes)?;
    let (position, rest) = read::<PositionPart>(alloc, &(), rest)?;
    let (old, rest) = read::<Option<P>>(alloc, context, rest)?;
    let (new, rest) = read::<Option<P>>(alloc, context, rest)?;
    Ok(((sheet, position, old, new), rest))
}

#[tactic(auto, unfolding(crate::specs::laws::Reading::cell_diff_at))]
fn cell_diff_at<'a>(
    alloc: Global,
    plain: &Shared<Style>,
    bytes: &'a [u8],
) -> Result<(Diff, &'a [u8]), EditError>
    ensures { Answers (map_ok (λ x. (x.0, x.1.now)) result) (cell_diff_at bytes.now) }
{
    let ((sheet, position, old, new), rest) = change_at::<CellPart>(alloc, plain, bytes)?;
    let diff = Diff::Cell {
        sheet,
        position,
        old,
        new,
    };
    Ok((diff, rest))
}

#[tactic(auto, unfolding(crate::specs::laws::Reading::link_diff_at))]
fn link_diff_at(alloc: Global, bytes: &[u8]) -> Result<(Diff, &[u8]), EditError>
    ensures { Answers (map_ok (λ x. (x.0, x.1.now)) result) (link_diff_at bytes.now) }
{
    let ((sheet, position, old, new), rest) = change_at::<LinkPart>(alloc, &(), bytes)?;
    let diff = Diff::Link {
        sheet,
        position,
        old,
        new,
    };
    Ok((diff, rest))
}

#[tactic(auto, unfolding(crate::specs::laws::Reading::merges_diff_at))]
fn merges_diff_at(alloc: Global, bytes: &[u8]) -> Result<(Diff, &[u8]), EditError>
    ensures { Answers (map_ok (λ x. (x.0, x.1.now)) result) (merges_diff_at bytes.now) }
{
    let ((sheet, old, new), rest) = sheet_change_at::<MergeListPart>(alloc, &(), bytes)?;
    Ok((Diff::Merges { sheet, old, new }, rest))
}

fn axis_at(alloc: Global, bytes: &[u8]) -> Result<(LineAxis, &[u8]), EditError>
    ensures { Answers (map_ok (λ x. (x.0, x.1.now)) result) (code_at axis_code axes bytes.now) }
{
    let (code, rest) = read::<u8>(alloc, &(), bytes)?;
    let axis = axis_of(code)?;
    Ok((axis, rest))
}

#[tactic(auto, unfolding(crate::specs::laws::Reading::lines_diff_at))]
fn lines_diff_at<'a>(
    alloc: Global,
    plain: &Shared<Style>,
    bytes: &'a [u8],
) -> Result<(Diff, &'a [u8]), EditError>
    ensures { Answers (map_ok (λ x. (x.0, x.1.now)) result) (lines_diff_at bytes.now) }
{
    let (sheet, rest) = read::<u32>(alloc, &(), bytes)?;
    let (axis, rest) = axis_at(alloc, rest)?;
    let (edit, rest) = read::<EditPart>(alloc, &(), rest)?;
    let (kept, rest) = read::<Shared<KeptLinesPart>>(alloc, plain, rest)?;
    let diff = Diff::Lines {
        sheet,
        axis,
        edit,
        kept,
    };
    Ok((diff, rest))
}

#[tactic(auto, unfolding(crate::specs::laws::Reading::diff_at))]
pub(crate) fn diff_at<'a>(
    alloc: Global,
    plain: &Shared<Style>,
    bytes: &'a [u8],
) -> Result<(Diff, &'a [u8]), EditError>
    ensures { Answers (map_ok (λ x. (x.0, x.1.now)) result) (diff_at bytes.now) }
{
    let (tag, rest) = read::<u8>(alloc, &(), bytes)?;
    match tag {
        1 => cell_diff_at(alloc, plain, rest),
        2 => link_diff_at(alloc, rest),
        3 => attr_diff_at(alloc, plain, LineAxis::Columns, rest),
        4 => attr_diff_at(alloc, plain, LineAxis::Rows, rest),
        5 => merges_diff_at(alloc, rest),
        6 => rule_diff_at(alloc, plain, rest),
        7 => lines_diff_at(alloc, plain, rest),
        8 => new_diff_at(alloc, rest),
        9 => copy_diff_at(alloc, rest),
        10 => deletion_diff_at(alloc, plain, rest),
        11 => rename_diff_at(alloc, plain, rest),
        12 => move_diff_at(alloc, rest),
        13 => color_diff_at(alloc, rest),
        14 => state_diff_at(alloc, rest),
        15 => grid_diff_at(alloc, rest),
        16 => frozen_rows_diff_at(alloc, rest),
        17 => frozen_columns_diff_at(alloc, rest),
        18 => theme_diff_at(alloc, rest),
        19 => title_diff_at(alloc, rest),
        20 => locale_diff_at(alloc, rest),
        21 => zone_diff_at(alloc, rest),
        22 => name_diff_at(alloc, plain, rest),
        _ => Err(EditError::ParseDiffs),
    }
}

fn direction_at(alloc: Global, bytes: &[u8]) -> Result<(DiffType, &[u8]), EditError>
    ensures { Answers (map_ok (λ x. (x.0, x.1.now)) result) (code_at direction_code directions bytes.now) }
{
    let (code, rest) = read::<u8>(alloc, &(), bytes)?;
    let kind = direction_of(code)?;
    Ok((kind, rest))
}

#[tactic(auto, unfolding(crate::specs::laws::Reading::entry_at, crate::specs::laws::Reading::list_of_diffs_at))]
pub(crate) fn entry_at<'a>(
    alloc: Global,
    plain: &Shared<Style>,
    bytes: &'a [u8],
) -> Result<(QueueDiffs, &'a [u8]), EditError>
    ensures { Answers (map_ok (λ x. (x.0, x.1.now)) result) (entry_at bytes.now) }
{
    let (kind, rest) = direction_at(alloc, bytes)?;
    let (list, rest) = read::<Shared<Items<DiffPart>>>(alloc, plain, rest)?;
    Ok((QueueDiffs { kind, list }, rest))
}

/// What stands after the bytes that every queue begins with.
fn after_magic(bytes: &[u8]) -> Result<&[u8], EditError>
    ensures { Answers (map_ok (λ x. x.now) result) (rest_after magic bytes.now) }
{
    match bytes.strip_prefix(b"ICQ1".as_slice()) {
        Some(rest) => Ok(rest),
        None => Err(EditError::ParseDiffs),
    }
}

#[tactic(auto, unfolding(crate::specs::laws::Reading::queue_of))]
fn read_queue(
    alloc: Global,
    plain: &Shared<Style>,
    bytes: &[u8],
) -> Result<Items<QueueDiffs>, EditError>
    ensures { Answers result (queue_of bytes.now) }
{
    let rest = after_magic(bytes)?;
    let (entries, rest) = read::<Items<EntryPart>>(alloc, plain, rest)?;
    if !rest.is_empty() {
        return Err(EditError::ParseDiffs);
    }
    Ok(entries)
}

/// The same, where the first bytes are tested before any memory is taken.
fn queue_at(
    alloc: Global,
    plain: &Shared<Style>,
    bytes: &[u8],
) -> Result<Items<QueueDiffs>, EditError>
    ensures read { Answers result (queue_of bytes.now) }
    ensures early { HasNoFront magic bytes.now → result ≡ Err ParseDiffs }
{
    counted_after(b"ICQ1", bytes)?;
    read_queue(alloc, plain, bytes)
}

/// The queue of diffs that all of these bytes encode (docs/FORMATS.md, "Bytes"). Each style in it that is equal
/// to the plain one shares it.
///
/// `ParseDiffs` where they are the encoding of no queue: where they are cut short or go on, begin
/// otherwise, or where a tag, a code, a count, a decimal or a text in them is not one. Else
/// refuses with `NoMemory` alone, and not where they begin otherwise or their first count is too great.
pub fn decode_queue_sharing(
    alloc: Global,
    plain: &Shared<Style>,
    bytes: &[u8],
) -> Result<Items<QueueDiffs>, EditError>
    ensures read { ReadsWhole IsQueue ParseDiffs bytes.now result }
    ensures early { HasNoFront magic bytes.now → result ≡ Err ParseDiffs }
{
    queue_at(alloc, plain, bytes)
}

/// The same, with a plain style that is made after the test.
fn queue_of(alloc: Global, bytes: &[u8]) -> Result<Items<QueueDiffs>, EditError>
    ensures read { Answers result (queue_of bytes.now) }
    ensures early { HasNoFront magic bytes.now → result ≡ Err ParseDiffs }
{
    counted_after(b"ICQ1", bytes)?;
    let plain = DefaultStyle::new(alloc)?;
    read_queue(alloc, plain.shared(), bytes)
}

/// The queue of diffs that all of these bytes encode (docs/FORMATS.md, "Bytes"). The errors are those of
/// `decode_queue_sharing`, which is for a caller that has made the default style.
pub fn decode_queue(alloc: Global, bytes: &[u8]) -> Result<Items<QueueDiffs>, EditError>
    ensures read { ReadsWhole IsQueue ParseDiffs bytes.now result }
    ensures early { HasNoFront magic bytes.now → result ≡ Err ParseDiffs }
{
    queue_of(alloc, bytes)
}
