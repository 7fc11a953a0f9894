//! Diffs of single entries, and records of them. A record takes as much room as its diffs need.

ghost use Rattle.std.specs.Prelude.{◌≡◌, [], ◌++◌, Ok, IfOk, IfSome, OnOk, IsOkUnless};
ghost use Rattle.std.specs.List.{cons_option};
ghost use Rattle.base_values.specs.Answers.{Returns};
ghost use Rattle.base_values.specs.declared.EditError.TheVariants.{NoMemory};
ghost use Rattle.sheet_grid.specs.CanonicalCell.{IsCanonicalCell};
ghost use Rattle.sheet_history.specs.Diffs.{IsCanonicalDiff, IsCanonicalList};
ghost use Rattle.sheet_history.specs.declared.Diff.TheVariants.{Merges as MergesDiff};
ghost use Rattle.sheet_history.specs.Entries.EntryKey.{CellKey, LinkKey};
ghost use Rattle.sheet_history.specs.Entries.EntryValue.{CellValue, LinkValue};
ghost use Rattle.sheet_history.specs.Records.{entry_record};
ghost use Rattle.edit_plans.specs.LineRecords.{attr_record};

use base_axis::MergeList;
use base_shared::Shared;
use base_values::{EditError, Items, Position, copy_of};
use sheet_grid::{Cell, LineAttr, Link, Worksheet};
use sheet_history::{Diff, DiffList, LineAxis};
use std::alloc::Global;

/// The diff of a cell, or none where it stays.
pub fn cell_diff(
    sheet: u32,
    position: Position,
    old: Option<Shared<Cell>>,
    new: Option<Shared<Cell>>,
) -> Option<Diff>
    requires old { IfSome old IsCanonicalCell }
    requires new { IfSome new IsCanonicalCell }
    ensures output { cons_option result [] ≡ entry_record (CellKey sheet position) (CellValue old) (CellValue new) }
    ensures canonical { IfSome result IsCanonicalDiff }
{
    if old == new {
        return None;
    }
    Some(Diff::Cell {
        sheet,
        position,
        old,
        new,
    })
}

/// The diff of a link, or none where it stays.
pub fn link_diff(
    sheet: u32,
    position: Position,
    old: Option<Link>,
    new: Option<Link>,
) -> Option<Diff>
    ensures output { cons_option result [] ≡ entry_record (LinkKey sheet position) (LinkValue old) (LinkValue new) }
    ensures canonical { IfSome result IsCanonicalDiff }
{
    if old == new {
        return None;
    }
    Some(Diff::Link {
        sheet,
        position,
        old,
        new,
    })
}

/// The diff of the merges of a sheet that get others in their place.
pub fn merges_diff(sheet: &Worksheet, new: MergeList) -> Result<Diff, EditError>
    ensures output { IfOk result (λ diff. diff ≡ MergesDiff sheet.now.id sheet.now.merges new) }
    ensures canonical { IfOk result IsCanonicalDiff }
    ensures only { IsOkUnless result NoMemory }
{
    Ok(Diff::Merges {
        sheet: sheet.get_sheet_id(),
        old: copy_of(sheet.merge_list())?,
        new,
    })
}

/// The diff of what a line has of its own, or none where it stays.
pub fn attr_diff(
    sheet: u32,
    axis: LineAxis,
    line: i32,
    old: Option<LineAttr>,
    new: Option<LineAttr>,
) -> Option<Diff>
    ensures output { cons_option result [] ≡ attr_record sheet axis line old new }
    ensures canonical { IfSome result IsCanonicalDiff }
{
    if old == new {
        return None;
    }
    Some(Diff::Attributes {
        sheet,
        axis,
        line,
        old,
        new,
    })
}

/// Puts a diff, if there is one, behind others.
pub fn push_diff(list: &mut Items<Diff>, diff: Option<Diff>) -> Result<(), EditError>
    requires list { IsCanonicalList list.old }
    requires diff { IfSome diff IsCanonicalDiff }
    ensures output { OnOk result (list.new ≡ list.old ++ cons_option diff []) }
    ensures canonical { OnOk result (IsCanonicalList list.new) }
    ensures only { IsOkUnless result NoMemory }
{
    if let Some(diff) = diff {
        list.push(diff)?;
    }
    Ok(())
}

/// A record of diffs. The room that they do not need is given back.
pub fn list_of(alloc: Global, mut diffs: Items<Diff>) -> Result<DiffList, EditError>
    ensures { Returns result (Ok diffs) }
{
    diffs.fit();
    Ok(Shared::new(alloc, diffs)?)
}

/// A record of at most three diffs, in this order.
pub fn list_of_three(
    alloc: Global,
    first: Option<Diff>,
    second: Option<Diff>,
    third: Option<Diff>,
) -> Result<DiffList, EditError>
    requires first { IfSome first IsCanonicalDiff }
    requires second { IfSome second IsCanonicalDiff }
    requires third { IfSome third IsCanonicalDiff }
    ensures output { Returns result (Ok (cons_option first (cons_option second (cons_option third [])))) }
    ensures canonical { IfOk result IsCanonicalList }
{
    let mut diffs = Items::empty(alloc);
    push_diff(&mut diffs, first)?;
    push_diff(&mut diffs, second)?;
    push_diff(&mut diffs, third)?;
    list_of(alloc, diffs)
}

/// How many diffs these are.
fn count_of(first: &Option<Diff>, second: &Option<Diff>) -> usize {
    match (first.is_some(), second.is_some()) {
        (true, true) => 2,
        (false, false) => 0,
        _ => 1,
    }
}

/// A record of at most two diffs, in this order.
pub fn list_of_two(
    alloc: Global,
    first: Option<Diff>,
    second: Option<Diff>,
) -> Result<DiffList, EditError>
    requires first { IfSome first IsCanonicalDiff }
    requires second { IfSome second IsCanonicalDiff }
    ensures output { Returns result (Ok (cons_option first (cons_option second []))) }
    ensures canonical { IfOk result IsCanonicalList }
{
    let mut diffs = Items::with_room(alloc, count_of(&first, &second))?;
    push_diff(&mut diffs, first)?;
    push_diff(&mut diffs, second)?;
    list_of(alloc, diffs)
}
