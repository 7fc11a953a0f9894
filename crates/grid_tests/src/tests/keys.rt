// What a sheet lists of itself, and lines that are hidden.
use base_shared::Shared;
use base_styles::Style;
use base_tables::{Locale, Zone};
use base_values::{EditError, Position, Text};
use sheet_grid::{Cell, Content, Link, Workbook, Worksheet};
use std::alloc::Global;
use std::test::Fail;

/// A link in D1, and the row 5 and the column F hidden.
fn put_entries(alloc: Global, sheet: &mut Worksheet) -> Result<(), EditError> {
    let target = Text::new(String::from_str(alloc, "https://example.org")?);
    sheet.put_link(1, 4, Some(Link { target }))?;
    sheet.set_row_hidden(5, true)?;
    sheet.set_column_hidden(6, true)
}

/// A workbook whose sheet has these, and a boolean in C2.
fn filled(alloc: Global) -> Result<Workbook, EditError> {
    let mut book = Workbook::new_empty(alloc, "book", Locale::En, Zone::Utc)?;
    let content = Content::Boolean(true);
    let style = Shared::new(alloc, Style::new(alloc)?)?;
    let cell = Shared::new(alloc, Cell { content, style })?;
    book.put_shared_cell_by_id(1, 2, 3, Some(cell))?;
    put_entries(alloc, book.worksheet_mut(0)?)?;
    Ok(book)
}

fn is_only_place(places: &[Position], row: i32, column: i32) -> bool {
    match places {
        [place] => *place == Position { row, column },
        _ => false,
    }
}

fn is_only_line(lines: &[i32], line: i32) -> bool {
    match lines {
        [only] => *only == line,
        _ => false,
    }
}

/// Whether the sheet lists its cell and its link.
fn lists_places(sheet: &Worksheet) -> Result<bool, EditError> {
    let (cells, links) = (sheet.cell_keys()?, sheet.link_keys()?);
    Ok(is_only_place(cells.as_slice(), 2, 3) && is_only_place(links.as_slice(), 1, 4))
}

/// Whether the sheet lists its row and its column.
fn lists_lines(sheet: &Worksheet) -> Result<bool, EditError> {
    let (rows, columns) = (sheet.row_keys()?, sheet.column_keys()?);
    Ok(is_only_line(rows.as_slice(), 5) && is_only_line(columns.as_slice(), 6))
}

/// Whether just the row 5 and the column F of the lines next to them are hidden.
fn hides_lines(sheet: &Worksheet) -> Result<bool, EditError> {
    let (row, column) = (sheet.is_row_hidden(5)?, sheet.is_column_hidden(6)?);
    let (other_row, other_column) = (sheet.is_row_hidden(6)?, sheet.is_column_hidden(5)?);
    Ok(row && column && !other_row && !other_column)
}

/// Whether the workbook lists the name of its one sheet.
fn lists_name(book: &Workbook) -> Result<bool, EditError> {
    match book.get_worksheet_names()?.as_slice() {
        [name] => Ok(name.as_str() == "Sheet1"),
        _ => Ok(false),
    }
}

#[test]
fn entries_are_listed(rt: HostRuntime) -> Result<(), Fail> {
    let book = filled(rt.alloc())?;
    let sheet = book.worksheet(0)?;
    assert!(rt; lists_places(sheet)?);
    assert!(rt; lists_lines(sheet)?);
    assert!(rt; hides_lines(sheet)?);
    assert!(rt; lists_name(&book)?);
    Ok(())
}
