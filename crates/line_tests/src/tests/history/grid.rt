use base_decimal::Decimal;
use base_shared::Shared;
use base_styles::Style;
use base_tables::{Error, Locale};
use base_values::{EditError, Text};
use formula_tree::{Node, has_canonical_numbers};
use sheet_grid::{ColumnAttr, Link, RowAttr, Worksheet};
use std::alloc::Global;
use std::test::Fail;

fn set_number(sheet: &mut Worksheet, style: &Style) -> Result<(), EditError> {
    match Decimal::read("5", Locale::De) {
        Some(five) => sheet.set_cell_with_number(1, 1, five, style),
        None => Err(EditError::InvalidColumn),
    }
}

fn set_values(sheet: &mut Worksheet, style: &Style) -> Result<(), EditError> {
    set_number(sheet, style)?;
    sheet.set_cell_with_string(1, 2, "five", style)?;
    sheet.set_cell_with_boolean(1, 3, true, style)?;
    sheet.set_cell_with_error(1, 4, Error::Ref, style)
}

/// A tree that is no formula: the setters do not ask.
fn set_formulas(sheet: &mut Worksheet, style: &Shared<Style>) -> Result<(), EditError> {
    let (tree, other) = (Node::EmptyArgument, Node::EmptyArgument);
    if has_canonical_numbers(&tree) && has_canonical_numbers(&other) {
        sheet.set_cell_with_formula(1, 5, tree, style.get())?;
        sheet.set_cell_with_dynamic_formula(1, 6, other, style.get())?;
    }
    Ok(())
}

/// An array, one in its place of another size, and one that a boolean takes the place of.
fn set_arrays(sheet: &mut Worksheet, style: &Shared<Style>) -> Result<(), EditError> {
    for (row, width, height) in [(3, 2, 1), (3, 1, 2), (4, 2, 2)] {
        let tree = Node::EmptyArgument;
        if has_canonical_numbers(&tree) {
            sheet.set_cell_with_array_formula(row, 1, tree, style.get(), width, height)?;
        }
    }
    sheet.set_cell_with_boolean(4, 1, true, style.get())
}

/// A link, two rows with a height and a column with a style.
fn put_lines(sheet: &mut Worksheet, alloc: Global, style: Shared<Style>) -> Result<(), EditError> {
    let target = Text::new(String::from_str(alloc, "https://example.org")?);
    sheet.put_link(2, 3, Some(Link { target }))?;
    let high = RowAttr {
        height: Some(30),
        style: None,
        hidden: false,
    };
    sheet.put_row(7, Some(high))?;
    sheet.set_row_height(8, 60)?;
    let styled = ColumnAttr {
        width: None,
        style: Some(style),
        hidden: false,
    };
    sheet.put_column(7, Some(styled))
}

fn fill(sheet: &mut Worksheet, alloc: Global) -> Result<(), EditError> {
    let style = Shared::new(alloc, Style::new(alloc)?)?;
    set_values(sheet, style.get())?;
    set_formulas(sheet, &style)?;
    set_arrays(sheet, &style)?;
    put_lines(sheet, alloc, style)
}

/// The height that a row has of its own.
fn own_height(sheet: &Worksheet, row: i32) -> Result<Option<i32>, EditError> {
    match sheet.row_attr(row)? {
        Some(attr) => Ok(attr.height),
        None => Ok(None),
    }
}

/// How many cells, large arrays, links, rows and columns a sheet has when it is filled, and the heights of
/// the rows.
fn filled(
    sheet: &mut Worksheet,
    alloc: Global,
) -> Result<([usize; 5], [Option<i32>; 2]), EditError> {
    fill(sheet, alloc)?;
    let counts = [
        sheet.cells().count(),
        sheet.large_arrays().count(),
        sheet.links().count(),
        sheet.rows().count(),
        sheet.columns().count(),
    ];
    Ok((counts, [own_height(sheet, 7)?, own_height(sheet, 8)?]))
}

fn filled_sheet(alloc: Global) -> Result<([usize; 5], [Option<i32>; 2]), EditError> {
    let mut sheet = Worksheet::new(alloc, 1, "one")?;
    filled(&mut sheet, alloc)
}

/// Each call of a sheet that takes memory, once where there is enough.
#[test]
fn sheets_with_ample_memory(rt: HostRuntime) -> Result<(), Fail> {
    let expected = ([8_usize, 1, 1, 2, 1], [Some(30), Some(60)]);
    assert_eq!(rt; filled_sheet(rt.alloc())?, expected);
    Ok(())
}
