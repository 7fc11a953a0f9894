//! Edits lines of a workbook of many formulas, and takes them back, again and again, to be timed from
//! outside.
//!
//! The lines of the input tell which edit it is (`insert-rows`, `insert-columns`, `move-rows` or
//! `move-columns`), how many formulas there are, how often the lines are edited, and how often they
//! are taken back. How many cells there are afterwards is written, and how many after going back.
#![tactic(auto)]

ghost use Rattle.std.specs.Prelude.{IfOk};
ghost use Rattle.line_edits.specs.Edit.{IsValid};
ghost use Rattle.sheet_lines.specs.Sheets.{IsPlacedBook};

use anyhow::{Context, Result};
use base_axis::{Axis, ColumnAxis, RowAxis};
use base_shared::Shared;
use base_styles::Style;
use base_tables::{Locale, Zone};
use base_values::{EditError, LAST_ROW};
use formula_tree::{Corner, Node, SumKind, has_canonical_numbers};
use line_map::{EditKind, LineEdit};
use sheet_actions::Model;
use sheet_grid::{Workbook, Worksheet};
use sheet_ids::has_sheet;
use sheet_lines::{line_back, line_edit};
use std::alloc::{AllocError, Global};

fn reference(absolute: bool, row: i32, column: i32) -> Node {
    let corner = Corner {
        absolute_row: absolute,
        row,
        absolute_column: absolute,
        column,
    };
    Node::Reference(None, corner)
}

/// The place two columns to the left, and `$B$2`.
fn formula(alloc: Global) -> Result<Node, AllocError> {
    let left = Shared::new(alloc, reference(false, 0, -2))?;
    let right = Shared::new(alloc, reference(true, 2, 2))?;
    Ok(Node::Sum(SumKind::Add, left, right))
}

fn put_formula(
    alloc: Global,
    sheet: &mut Worksheet,
    row: i32,
    style: &Shared<Style>,
) -> Result<(), EditError> {
    let tree = formula(alloc)?;
    if has_canonical_numbers(&tree) {
        sheet.set_cell_with_formula(row, 3, tree, style.get())?;
    }
    Ok(())
}

/// A workbook whose first rows have a formula each.
fn workbook_of(alloc: Global, count: i32) -> Result<Workbook, EditError> {
    let mut book = Workbook::new_empty(alloc, "bench", Locale::En, Zone::Utc)?;
    let style = Shared::new(alloc, Style::new(alloc)?)?;
    let sheet = book.worksheet_mut(0)?;
    for row in 1..=count {
        put_formula(alloc, sheet, row, &style)?;
    }
    Ok(book)
}

/// Two lines come before the second.
const INSERTION: EditKind = EditKind::Insert { first: 2, count: 2 };

/// The second line and the third go on by three.
const MOVE: EditKind = EditKind::Move {
    first: 2,
    count: 2,
    delta: 3,
};

/// Whether rows are edited, and how, by the word for it.
fn edit_named(word: &str) -> Option<(bool, EditKind)> {
    match word {
        "insert-rows" => Some((true, INSERTION)),
        "insert-columns" => Some((false, INSERTION)),
        "move-rows" => Some((true, MOVE)),
        "move-columns" => Some((false, MOVE)),
        _ => None,
    }
}

fn edit_of<A: Axis>(kind: EditKind) -> Result<LineEdit<A>, EditError>
    ensures { IfOk result (λ edit. IsValid A.along.last edit.kind) }
{
    let edit = LineEdit::new(kind);
    if edit.is_valid() {
        Ok(edit)
    } else {
        Err(EditError::TargetOutOfBounds)
    }
}

fn cells_of(book: &Workbook) -> Result<usize, EditError> {
    Ok(book.worksheet(0)?.cells().count())
}

/// How many cells there are after the last of these edits.
fn edited<A: Axis>(
    alloc: Global,
    book: &Workbook,
    kind: EditKind,
    rounds: usize,
) -> Result<usize, EditError>
    requires { IsPlacedBook book.now }
{
    let edit = edit_of::<A>(kind)?;
    let mut cells = 0;
    for _ in 0..rounds {
        if has_sheet(book, 1) {
            let (after, _kept) = line_edit(alloc, book, 1, &edit)?;
            cells = cells_of(&after)?;
        }
    }
    Ok(cells)
}

/// How many cells there are after the last time that an edit was taken back.
fn taken_back<A: Axis>(
    alloc: Global,
    book: &Workbook,
    kind: EditKind,
    rounds: usize,
) -> Result<usize, EditError>
    requires { IsPlacedBook book.now }
{
    let edit = edit_of::<A>(kind)?;
    if !has_sheet(book, 1) {
        return Ok(0);
    }
    let (after, kept) = line_edit(alloc, book, 1, &edit)?;
    let mut cells = 0;
    for _ in 0..rounds {
        if has_sheet(&after, 1) {
            let before = line_back(alloc, &after, 1, &edit, &kept)?;
            cells = cells_of(&before)?;
        }
    }
    Ok(cells)
}

/// How many cells there are after so many edits, and after so many ways back.
fn counts<A: Axis>(
    alloc: Global,
    book: &Workbook,
    kind: EditKind,
    edits: usize,
    returns: usize,
) -> Result<(usize, usize), EditError>
    requires { IsPlacedBook book.now }
{
    Ok((
        edited::<A>(alloc, book, kind, edits)?,
        taken_back::<A>(alloc, book, kind, returns)?,
    ))
}

fn read_word(rt: &HostRuntime) -> Result<String> {
    let mut line = String::new(rt.alloc());
    rt.read_line(&mut line)?;
    Ok(line)
}

fn read_number(rt: &HostRuntime) -> Result<usize> {
    read_word(rt)?
        .as_str()
        .trim()
        .parse::<usize>()
        .context("a line of digits is wanted")
}

fn main(rt: HostRuntime) -> Result<()> {
    let word = read_word(&rt)?;
    let (is_rows, kind) = edit_named(word.as_str().trim()).context(
        "the first line is no edit's name",
    )?;
    let count = read_number(&rt)?.min(LAST_ROW as usize) as i32;
    let model = Model::from_workbook(rt.alloc(), workbook_of(rt.alloc(), count)?)?;
    let (edits, returns) = (read_number(&rt)?, read_number(&rt)?);
    let book = model.workbook();
    let (after, before) = if is_rows {
        counts::<RowAxis>(rt.alloc(), book, kind, edits, returns)?
    } else {
        counts::<ColumnAxis>(rt.alloc(), book, kind, edits, returns)?
    };
    println!(rt; "{after}")?;
    println!(rt; "{before}")?;
    Ok(())
}
