// Which rule workbooks break. What is expected was taken from the rules of docs/MODEL.md.
use super::formattings::rules_on;
use base_axis::MergedCell;
use base_shared::Shared;
use base_styles::Style;
use base_tables::{Locale, Zone};
use base_values::{EditError, Text, copy_of};
use cell_content::Content;
use defined_names::{DefinedName, NameList};
use formula_tree::{Corner, Node, has_canonical_numbers};
use sheet_grid::{Cell, ColumnAttr, DefaultStyle, RowAttr, Workbook, Worksheet};
use sheet_rules::broken_rule;
use std::alloc::Global;
use std::test::Fail;

/// What is put into a new workbook, or into its sheet, `Sheet1` of id 1.
#[derive(Clone, Copy)]
enum Piece {
    Nothing,
    /// An empty sheet of this id and name behind the first one.
    Sheet(u32, &'static str),
    /// A name for TRUE, known in the workbook or in the sheet of this id.
    Name(&'static str, Option<u32>),
    /// A name for the cell so many rows below A1.
    RowName(i32),
    /// A first row of this height.
    Height(i32),
    /// A first column of this width.
    Width(i32),
    /// A first row of the default style.
    StyledRow,
    /// A first column of the default style.
    StyledColumn,
    /// An empty first cell of this font size.
    Font(i32),
    /// A formula in the first cell, which leads so many rows down.
    Formula(i32),
    /// A merge at a row and a column, so wide and so high.
    Merge(i32, i32, i32, i32),
    /// An array at a row and a column, so wide and so high.
    Array(i32, i32, i32, i32),
    /// A content at a row and a column.
    Content(i32, i32),
    /// A style alone at a row and a column.
    Style(i32, i32),
    /// A conditional rule of the cell so many columns to the right, on the two cells of column B from each
    /// of these rows on.
    Rule(i32, [Option<i32>; 2]),
}

/// Two pieces that are put into a new workbook, and the rule that it breaks then.
const CASES: [(Piece, Piece, Option<u8>); 56] = [
    (Piece::Nothing, Piece::Nothing, None),
    // Which sheets may stand beside `Sheet1`, and under which names.
    (Piece::Sheet(2, "Sheet2"), Piece::Nothing, None),
    (Piece::Sheet(1, "Sheet2"), Piece::Nothing, Some(1)),
    (Piece::Sheet(2, "sHEET1"), Piece::Nothing, Some(1)),
    (Piece::Sheet(2, ""), Piece::Nothing, Some(1)),
    (
        Piece::Sheet(2, "ééééééééééééééééééééééééééééééé"),
        Piece::Nothing,
        None,
    ),
    (
        Piece::Sheet(2, "abcdefghijklmnopqrstuvwxyz123456"),
        Piece::Nothing,
        Some(1),
    ),
    (Piece::Sheet(2, "'a"), Piece::Nothing, Some(1)),
    (Piece::Sheet(2, "a'"), Piece::Nothing, Some(1)),
    (Piece::Sheet(2, "a'b"), Piece::Nothing, None),
    (Piece::Sheet(2, "a[b"), Piece::Nothing, Some(1)),
    (Piece::Sheet(2, "a\\b"), Piece::Nothing, Some(1)),
    // What may stand in a sheet.
    (Piece::Formula(1), Piece::Nothing, None),
    (Piece::Formula(-1), Piece::Nothing, Some(6)),
    (Piece::Height(0), Piece::Nothing, None),
    (Piece::Height(-1), Piece::Nothing, Some(7)),
    (Piece::StyledRow, Piece::Nothing, Some(7)),
    (Piece::StyledColumn, Piece::Nothing, None),
    (Piece::Width(249), Piece::Nothing, None),
    (Piece::Width(250), Piece::Nothing, Some(7)),
    (Piece::Font(1), Piece::Nothing, None),
    (Piece::Font(0), Piece::Nothing, Some(7)),
    // Where arrays and merges may stand, and what may stand at the places that they cover.
    (Piece::Array(1, 1, 2, 2), Piece::Nothing, None),
    (Piece::Array(1, 1, 0, 1), Piece::Nothing, Some(3)),
    (Piece::Array(1, 16384, 2, 1), Piece::Nothing, Some(3)),
    (Piece::Array(1, 1, 2, 2), Piece::Array(2, 2, 1, 2), Some(3)),
    (Piece::Array(1, 1, 2, 2), Piece::Array(1, 3, 2, 2), None),
    (Piece::Merge(1, 1, 2, 2), Piece::Nothing, None),
    (Piece::Merge(1, 1, 1, 1), Piece::Nothing, Some(4)),
    (Piece::Merge(1048576, 1, 1, 2), Piece::Nothing, Some(4)),
    (Piece::Merge(1, 1, 2, 2), Piece::Merge(2, 2, 2, 2), Some(4)),
    (Piece::Merge(1, 1, 2, 1), Piece::Merge(2, 1, 2, 1), None),
    (Piece::Merge(1, 1, 2, 2), Piece::Array(1, 1, 1, 1), None),
    (Piece::Merge(1, 1, 2, 2), Piece::Array(1, 1, 1, 2), Some(4)),
    (Piece::Merge(1, 1, 2, 2), Piece::Content(1, 1), None),
    (Piece::Merge(1, 1, 2, 2), Piece::Content(2, 2), Some(5)),
    (Piece::Merge(1, 1, 2, 2), Piece::Style(2, 2), None),
    (Piece::Array(1, 1, 2, 2), Piece::Content(1, 2), Some(5)),
    (Piece::Array(1, 1, 2, 2), Piece::Array(2, 1, 1, 1), Some(5)),
    // Which names may stand beside each other, and where their trees may lead.
    (Piece::Name("Rate", None), Piece::Name("Tax", None), None),
    (
        Piece::Name("Rate", None),
        Piece::Name("rate", None),
        Some(8),
    ),
    (
        Piece::Name("Rate", None),
        Piece::Name("rate", Some(1)),
        None,
    ),
    (
        Piece::Name("Rate", Some(1)),
        Piece::Name("rate", Some(1)),
        Some(8),
    ),
    (
        Piece::Name("Rate", Some(2)),
        Piece::Name("Tax", None),
        Some(8),
    ),
    (Piece::Name("B2", None), Piece::Name("Tax", None), Some(8)),
    (Piece::Name("R1C1", None), Piece::Name("Tax", None), Some(8)),
    (Piece::Name("wahr", None), Piece::Name("Tax", None), Some(8)),
    (
        Piece::Name("two words", None),
        Piece::Name("Tax", None),
        Some(8),
    ),
    (Piece::Name("", None), Piece::Name("Tax", None), Some(8)),
    (Piece::RowName(1048575), Piece::Nothing, None),
    (Piece::RowName(1048576), Piece::Nothing, Some(6)),
    (Piece::RowName(-1), Piece::Nothing, Some(6)),
    // Formulas of conditional rules stand at the first place of the first part, and each part is inside
    // the sheet. Without a part it is not asked where the formula leads.
    (Piece::Rule(-1, [Some(1), None]), Piece::Nothing, None),
    (Piece::Rule(-2, [Some(1), None]), Piece::Nothing, Some(6)),
    (
        Piece::Rule(-1, [Some(1), Some(1048576)]),
        Piece::Nothing,
        Some(9),
    ),
    (Piece::Rule(-2, [None, None]), Piece::Nothing, Some(9)),
];

/// The cell so many rows below the one where it stands.
fn below(row: i32) -> Node {
    let corner = Corner {
        absolute_row: false,
        row,
        absolute_column: false,
        column: 0,
    };
    Node::Reference(None, corner)
}

/// The tree of a name: the cell so many rows below A1, or TRUE.
fn tree_of_name(row: Option<i32>) -> Node {
    match row {
        Some(row) => below(row),
        None => Node::Boolean(true),
    }
}

/// Puts a name behind others, whose tree has no number that is not canonical.
fn push_name(
    alloc: Global,
    names: &mut NameList,
    name: &str,
    scope: Option<u32>,
    row: Option<i32>,
) -> Result<(), EditError> {
    let formula = tree_of_name(row);
    if has_canonical_numbers(&formula) {
        names.push(DefinedName {
            name: Text::new(String::from_str(alloc, name)?),
            scope,
            formula: Shared::new(alloc, formula)?,
        })?;
    }
    Ok(())
}

fn put_name(
    alloc: Global,
    book: &mut Workbook,
    name: &str,
    scope: Option<u32>,
    row: Option<i32>,
) -> Result<(), EditError> {
    let mut names = copy_of(book.name_list())?;
    push_name(alloc, &mut names, name, scope, row)?;
    book.set_name_list(names);
    Ok(())
}

fn put_row(
    sheet: &mut Worksheet,
    height: Option<i32>,
    style: Option<Shared<Style>>,
) -> Result<(), EditError> {
    let hidden = false;
    let attr = RowAttr {
        height,
        style,
        hidden,
    };
    sheet.put_row(1, Some(attr))
}

fn put_column(
    sheet: &mut Worksheet,
    width: Option<i32>,
    style: Option<Shared<Style>>,
) -> Result<(), EditError> {
    let hidden = false;
    let attr = ColumnAttr {
        width,
        style,
        hidden,
    };
    sheet.put_column(1, Some(attr))
}

fn put_font(alloc: Global, sheet: &mut Worksheet, size: i32) -> Result<(), EditError> {
    let mut style = Style::new(alloc)?;
    style.font.sz = size;
    let (content, style) = (Content::Empty, Shared::new(alloc, style)?);
    sheet.put_cell(1, 1, Some(Cell { content, style }))
}

fn put_formula(sheet: &mut Worksheet, row: i32, plain: &Shared<Style>) -> Result<(), EditError> {
    let tree = below(row);
    if has_canonical_numbers(&tree) {
        sheet.set_cell_with_formula(1, 1, tree, plain.get())?;
    }
    Ok(())
}

fn put_array(
    sheet: &mut Worksheet,
    array: MergedCell,
    plain: &Shared<Style>,
) -> Result<(), EditError> {
    let tree = Node::Boolean(true);
    if has_canonical_numbers(&tree) {
        sheet.set_cell_with_array_formula(
            array.row,
            array.column,
            tree,
            plain.get(),
            array.width,
            array.height,
        )?;
    }
    Ok(())
}

fn add_merge(sheet: &mut Worksheet, merge: MergedCell) -> Result<(), EditError> {
    let mut merges = copy_of(sheet.merge_list())?.into_items();
    merges.push(merge)?;
    sheet.set_merged_cells(merges);
    Ok(())
}

fn rectangle(row: i32, column: i32, width: i32, height: i32) -> MergedCell {
    MergedCell {
        row,
        column,
        width,
        height,
    }
}

fn put_on_sheet(
    alloc: Global,
    plain: &Shared<Style>,
    sheet: &mut Worksheet,
    piece: Piece,
) -> Result<(), EditError> {
    match piece {
        Piece::Height(height) => put_row(sheet, Some(height), None),
        Piece::Width(width) => put_column(sheet, Some(width), None),
        Piece::StyledRow => put_row(sheet, None, Some(copy_of(plain)?)),
        Piece::StyledColumn => put_column(sheet, None, Some(copy_of(plain)?)),
        Piece::Font(size) => put_font(alloc, sheet, size),
        Piece::Formula(row) => put_formula(sheet, row, plain),
        Piece::Merge(row, column, width, height) => {
            add_merge(sheet, rectangle(row, column, width, height))
        }
        Piece::Array(row, column, width, height) => {
            put_array(sheet, rectangle(row, column, width, height), plain)
        }
        Piece::Content(row, column) => sheet.set_cell_with_boolean(row, column, true, plain.get()),
        Piece::Style(row, column) => sheet.cell_clear_contents_with_style(row, column, plain.get()),
        Piece::Rule(columns, rows) => {
            sheet.set_conditional_formatting(rules_on(alloc, columns, rows)?);
            Ok(())
        }
        _ => Ok(()),
    }
}

fn put(
    alloc: Global,
    plain: &Shared<Style>,
    book: &mut Workbook,
    piece: Piece,
) -> Result<(), EditError> {
    match piece {
        Piece::Nothing => Ok(()),
        Piece::Sheet(id, name) => book.insert_worksheet(1, Worksheet::new(alloc, id, name)?),
        Piece::Name(name, scope) => put_name(alloc, book, name, scope, None),
        Piece::RowName(row) => put_name(alloc, book, "Rate", None, Some(row)),
        other => put_on_sheet(alloc, plain, book.worksheet_mut(0)?, other),
    }
}

/// The rule that a workbook breaks with these two pieces.
fn broken_with(
    alloc: Global,
    book: &mut Workbook,
    first: Piece,
    second: Piece,
) -> Result<Option<u8>, EditError> {
    let plain = DefaultStyle::new(alloc)?;
    put(alloc, plain.shared(), book, first)?;
    put(alloc, plain.shared(), book, second)?;
    Ok(broken_rule(book))
}

fn broken_by(alloc: Global, first: Piece, second: Piece) -> Result<Option<u8>, EditError> {
    let mut book = Workbook::new_empty(alloc, "book", Locale::En, Zone::Utc)?;
    broken_with(alloc, &mut book, first, second)
}

#[test]
fn workbooks_break_rules(rt: HostRuntime) -> Result<(), Fail> {
    for (at, case) in CASES.iter().enumerate() {
        let broken = broken_by(rt.alloc(), case.0, case.1)?;
        assert_eq!(rt; broken, case.2, "case {at}");
    }
    Ok(())
}
