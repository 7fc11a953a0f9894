ghost use Rattle.std.specs.Prelude.{IfOk};
ghost use Rattle.sheet_rules.specs.WellFormed.{IsWellFormed};
ghost use Rattle.sheet_lines.specs.Back.{AreCanonicalLines};
ghost use Rattle.sheet_history.specs.Diffs.{IsCanonicalDiff, IsCanonicalList};

use base_axis::{MergeList, MergedCell};
use base_maps::{IndexMap, NumberMap, PositionMap, SheetPlaceMap};
use base_shared::Shared;
use base_styles::Style;
use base_tables::{Locale, Zone};
use base_values::{EditError, Items, Position};
use line_map::EditKind;
use sheet_grid::{Cell, Content, LineAttr, Workbook};
use sheet_history::{Diff, DiffList, LineAxis, back, forward};
use sheet_lines::KeptLines;
use sheet_rules::is_well_formed;
use std::alloc::Global;
use std::test::Fail;

/// The cell B2 of the sheet of id 1, which was absent, and then TRUE.
fn new_cell(alloc: Global, size: i32) -> Result<Diff, EditError>
    ensures { IfOk result IsCanonicalDiff }
{
    let mut style = Style::new(alloc)?;
    style.font.sz = size;
    let style = Shared::new(alloc, style)?;
    let content = Content::Boolean(true);
    Ok(Diff::Cell {
        sheet: 1,
        position: Position { row: 2, column: 2 },
        old: None,
        new: Some(Shared::new(alloc, Cell { content, style })?),
    })
}

/// What is kept of lines, and nothing else.
pub(super) fn kept_with(alloc: Global, lines: NumberMap<LineAttr>) -> KeptLines
    ensures { AreCanonicalLines result }
{
    KeptLines {
        cells: PositionMap::new(alloc),
        links: PositionMap::new(alloc),
        lines,
        formulas: SheetPlaceMap::new(alloc),
        merges: None,
        formattings: IndexMap::new(alloc),
    }
}

/// A list of one diff.
fn only(alloc: Global, diff: Diff) -> Result<DiffList, EditError>
    requires { IsCanonicalDiff diff }
    ensures { IfOk result IsCanonicalList }
{
    let mut list = Items::empty(alloc);
    list.push(diff)?;
    Ok(Shared::new(alloc, list)?)
}

/// A workbook of one empty sheet.
pub(super) fn empty_book(alloc: Global) -> Result<Workbook, EditError>
    ensures { IfOk result IsWellFormed }
{
    let book = Workbook::new_empty(alloc, "book", Locale::En, Zone::Utc)?;
    if is_well_formed(&book) {
        Ok(book)
    } else {
        Err(EditError::InvalidSheet)
    }
}

/// A row that comes before the first one of the sheet of id 1. What it keeps lies outside the
/// sheet.
fn row_with_line_outside(alloc: Global) -> Result<Diff, EditError>
    ensures { IfOk result IsCanonicalDiff }
{
    let mut lines = NumberMap::new(alloc);
    let high = LineAttr {
        size: Some(30),
        style: None,
        hidden: false,
    };
    lines.put(0, Some(high))?;
    Ok(Diff::Lines {
        sheet: 1,
        axis: LineAxis::Rows,
        edit: EditKind::Insert { first: 1, count: 1 },
        kept: Shared::new(alloc, kept_with(alloc, lines))?,
    })
}

/// The cell, and then that row.
fn cell_and_row(alloc: Global) -> Result<DiffList, EditError>
    ensures { IfOk result IsCanonicalList }
{
    let mut list = Items::empty(alloc);
    list.push(new_cell(alloc, 13)?)?;
    list.push(row_with_line_outside(alloc)?)?;
    Ok(Shared::new(alloc, list)?)
}

/// Whether a list is refused for the diff of that number.
fn is_refused(output: Result<Workbook, EditError>, diff: u64) -> bool {
    match output {
        Err(error) => error == EditError::DiffRefused { entry: 0, diff },
        Ok(_) => false,
    }
}

/// The merges of the sheet of id 1, which had none, and then one that is so many columns wide from
/// A1 on.
fn new_merge(alloc: Global, width: i32) -> Result<Diff, EditError>
    ensures { IfOk result IsCanonicalDiff }
{
    let mut merges = Items::empty(alloc);
    merges.push(MergedCell {
        row: 1,
        column: 1,
        width,
        height: 1,
    })?;
    Ok(Diff::Merges {
        sheet: 1,
        old: MergeList::empty(alloc),
        new: MergeList::new(merges),
    })
}

/// Whether a diff is refused in an empty workbook, for the diff of that number.
fn one_is_refused(alloc: Global, change: Diff, diff: u64) -> Result<bool, EditError>
    requires { IsCanonicalDiff change }
{
    let list = only(alloc, change)?;
    let start = empty_book(alloc)?;
    Ok(is_refused(forward(alloc, &start, &list), diff))
}

/// Whether a list is refused, forward and back, for the diff of that number.
fn is_refused_both_ways(alloc: Global, start: &Workbook, list: &DiffList, diff: u64) -> bool
    requires rules { IsWellFormed start.now }
    requires canonical { IsCanonicalList list.now }
{
    is_refused(forward(alloc, start, list), diff) && is_refused(back(alloc, start, list), diff)
}

/// Whether the second of two diffs is refused in an empty workbook, forward and back.
fn second_is_refused(alloc: Global) -> Result<bool, EditError> {
    let list = cell_and_row(alloc)?;
    let start = empty_book(alloc)?;
    Ok(is_refused_both_ways(alloc, &start, &list, 1))
}

/// A font of size 0 and a merge of one cell break a rule. A merge that reaches past the last column is
/// refused by its number, and so is, forward and back, what is kept outside the sheet.
#[test]
fn diffs_are_refused_by_number(rt: HostRuntime) -> Result<(), Fail> {
    let alloc = rt.alloc();
    assert!(rt; one_is_refused(alloc, new_cell(alloc, 0)?, 1)?);
    assert!(rt; one_is_refused(alloc, new_merge(alloc, 1)?, 1)?);
    assert!(rt; one_is_refused(alloc, new_merge(alloc, 16_385)?, 0)?);
    assert!(rt; second_is_refused(alloc)?);
    Ok(())
}
