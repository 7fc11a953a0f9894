//! On which sheet a corner without a name stands, where two sheets share a name for a while.

ghost use Rattle.std.specs.Prelude.{IfOk, IsTrue};
ghost use Rattle.formula_tree.specs.Numbers.{has_canonical_numbers};
ghost use Rattle.sheet_history.specs.Diffs.{IsCanonicalDiff, IsCanonicalList};

use super::history::{empty_book, kept_with};
use base_maps::NumberMap;
use base_shared::Shared;
use base_styles::Style;
use base_values::{EditError, Items, Position, Text};
use formula_tree::{Corner, Node, has_canonical_numbers};
use line_map::EditKind;
use sheet_grid::{Cell, Content, Workbook};
use sheet_history::{Diff, DiffList, LineAxis, forward_in_place};
use std::alloc::Global;
use std::test::Fail;

fn text(alloc: Global, text: &str) -> Result<Text, EditError> {
    Ok(Text::new(String::from_str(alloc, text)?))
}

/// The formula `=A5` of the cell A1.
fn fifth_row() -> Node {
    let corner = Corner {
        absolute_row: false,
        row: 4,
        absolute_column: false,
        column: 0,
    };
    Node::Reference(None, corner)
}

/// The cell A1 of the sheet of id 2, which was absent, and then has a formula.
fn formula_cell(alloc: Global, tree: Node) -> Result<Diff, EditError>
    requires { IsTrue (has_canonical_numbers tree) }
    ensures { IfOk result IsCanonicalDiff }
{
    let content = Content::Formula(Shared::new(alloc, tree)?);
    let style = Shared::new(alloc, Style::new(alloc)?)?;
    Ok(Diff::Cell {
        sheet: 2,
        position: Position { row: 1, column: 1 },
        old: None,
        new: Some(Shared::new(alloc, Cell { content, style })?),
    })
}

/// A second sheet with the name of the first one in capitals.
fn second_sheet(alloc: Global) -> Result<Diff, EditError>
    ensures { IfOk result IsCanonicalDiff }
{
    Ok(Diff::NewSheet {
        sheet: 2,
        index: 1,
        name: text(alloc, "SHEET1")?,
    })
}

/// A row that comes before the first one of the first sheet.
fn new_row(alloc: Global) -> Result<Diff, EditError>
    ensures { IfOk result IsCanonicalDiff }
{
    Ok(Diff::Lines {
        sheet: 1,
        axis: LineAxis::Rows,
        edit: EditKind::Insert { first: 1, count: 1 },
        kept: Shared::new(alloc, kept_with(alloc, NumberMap::new(alloc)))?,
    })
}

/// The second sheet, its formula, and the row of the first sheet.
fn changes(alloc: Global, tree: Node) -> Result<DiffList, EditError>
    requires { IsTrue (has_canonical_numbers tree) }
    ensures { IfOk result IsCanonicalList }
{
    let cell = formula_cell(alloc, tree)?;
    let mut list = Items::empty(alloc);
    list.push(second_sheet(alloc)?)?;
    list.push(cell)?;
    list.push(new_row(alloc)?)?;
    Ok(Shared::new(alloc, list)?)
}

/// Whether the cell A1 of the second sheet has the formula `=A5`.
fn has_fifth_row(book: &Workbook) -> Result<bool, EditError> {
    let Some(cell) = book.worksheet(1)?.cell(1, 1)? else {
        return Ok(false);
    };
    let Cell { content, style: _ } = cell;
    match content {
        Content::Formula(tree) => Ok(*tree.get() == fifth_row()),
        _ => Ok(false),
    }
}

/// The formula stands on the second sheet, whatever this is called, so a row of the first sheet does
/// not move its reference. The result is not tested, since both sheets have one name then.
#[test]
fn a_corner_without_a_name_goes_by_its_sheet(rt: HostRuntime) -> Result<(), Fail> {
    let alloc = rt.alloc();
    let tree = fifth_row();
    if has_canonical_numbers(&tree) {
        let list = changes(alloc, tree)?;
        let mut book = empty_book(alloc)?;
        forward_in_place(alloc, &mut book, &list)?;
        assert!(rt; has_fifth_row(&book)?);
    } else {
        assert!(rt; false);
    }
    Ok(())
}
