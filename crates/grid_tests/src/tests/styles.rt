// Styles of cells, rows and columns, by the calls of a sheet.
use base_styles::Style;
use base_values::EditError;
use sheet_grid::{DefaultStyle, Worksheet};
use std::alloc::Global;
use std::test::Fail;

/// What is done to a sheet. A style is the default one in bold where it says so, else in italics.
#[derive(Clone, Copy)]
enum Step {
    /// A value at a row and a column.
    Value(i32, i32),
    /// A column of this width.
    Width(i32, i32),
    /// All columns get a style.
    Columns(bool),
    /// A row gets a style.
    Row(i32, bool),
    /// A row gets the default style.
    DefaultRow(i32),
    /// A column gets a style.
    Column(i32, bool),
    /// A cell at a row and a column gets a style.
    Cell(i32, i32, bool),
    /// A row loses its style.
    PlainRow(i32),
    /// A column loses its style.
    PlainColumn(i32),
}

/// What is asked of a sheet.
#[derive(Clone, Copy)]
enum Sight {
    /// The text at a row and a column shows in bold, or in italics, as it says.
    Shows(i32, i32, (bool, bool)),
    /// A column has a style of its own, in bold or not, or has none.
    Owns(i32, Option<bool>),
    /// A column has this width.
    IsWide(i32, i32),
    /// The cell at a row and a column has a content, or none.
    IsEmpty(i32, i32, bool),
}

/// What is done to a new sheet, and what is seen then.
const CASES: [(&[Step], &[Sight]); 6] = [
    (
        &[Step::Value(1, 2), Step::Width(2, 300), Step::Columns(true)],
        &[
            Sight::Shows(9, 1, (true, false)),
            Sight::Shows(9, 16_384, (true, false)),
            Sight::Shows(1, 2, (false, false)),
            Sight::IsWide(2, 300),
        ],
    ),
    (
        &[Step::Row(2, false), Step::Column(3, true)],
        &[
            Sight::Shows(2, 3, (false, true)),
            Sight::Owns(3, Some(true)),
        ],
    ),
    (
        &[
            Step::Row(2, false),
            Step::Column(3, true),
            Step::PlainRow(2),
        ],
        &[Sight::Shows(2, 3, (true, false))],
    ),
    (
        &[
            Step::Row(2, false),
            Step::Column(3, true),
            Step::PlainRow(2),
            Step::PlainColumn(3),
        ],
        &[Sight::Shows(2, 3, (false, false)), Sight::Owns(3, None)],
    ),
    // A row that gets the default style has none, so its cells show their columns' styles.
    (
        &[
            Step::Row(2, false),
            Step::Column(3, true),
            Step::DefaultRow(2),
        ],
        &[
            Sight::Shows(2, 3, (true, false)),
            Sight::Shows(2, 4, (false, false)),
        ],
    ),
    // The style of a cell is changed, and its content stays.
    (
        &[
            Step::Value(1, 2),
            Step::Width(2, 300),
            Step::Columns(true),
            Step::Cell(1, 2, false),
            Step::Cell(5, 5, false),
        ],
        &[
            Sight::Shows(1, 2, (false, true)),
            Sight::Shows(5, 5, (false, true)),
            Sight::IsEmpty(1, 2, false),
            Sight::IsEmpty(5, 5, true),
        ],
    ),
];

/// The default style in bold, or in italics.
fn drawn(alloc: Global, is_bold: bool) -> Result<Style, EditError> {
    let mut style = Style::new(alloc)?;
    style.font.b = is_bold;
    style.font.i = !is_bold;
    Ok(style)
}

fn put_value(alloc: Global, sheet: &mut Worksheet, row: i32, column: i32) -> Result<(), EditError> {
    let plain = DefaultStyle::new(alloc)?;
    sheet.set_cell_with_boolean(row, column, true, plain.shared().get())
}

fn set_default_row(alloc: Global, sheet: &mut Worksheet, row: i32) -> Result<(), EditError> {
    let plain = DefaultStyle::new(alloc)?;
    sheet.set_row_style(row, plain.shared().get())
}

fn take(alloc: Global, sheet: &mut Worksheet, step: Step) -> Result<(), EditError> {
    match step {
        Step::Value(row, column) => put_value(alloc, sheet, row, column),
        Step::Width(column, width) => sheet.set_column_width(column, width),
        Step::Columns(is_bold) => sheet.set_style(&drawn(alloc, is_bold)?),
        Step::Row(row, is_bold) => sheet.set_row_style(row, &drawn(alloc, is_bold)?),
        Step::DefaultRow(row) => set_default_row(alloc, sheet, row),
        Step::Column(column, is_bold) => sheet.set_column_style(column, &drawn(alloc, is_bold)?),
        Step::Cell(row, column, is_bold) => {
            sheet.set_cell_style(row, column, &drawn(alloc, is_bold)?)
        }
        Step::PlainRow(row) => sheet.delete_row_style(row),
        Step::PlainColumn(column) => sheet.delete_column_style(column),
    }
}

fn take_all(alloc: Global, sheet: &mut Worksheet, steps: &[Step]) -> Result<(), EditError> {
    for step in steps {
        take(alloc, sheet, *step)?;
    }
    Ok(())
}

fn is_seen(sheet: &Worksheet, sight: Sight) -> Result<bool, EditError> {
    match sight {
        Sight::Shows(row, column, drawing) => {
            let style = sheet.get_style(row, column)?;
            Ok((style.font.b, style.font.i) == drawing)
        }
        Sight::Owns(column, own) => {
            let style = sheet.get_column_style(column)?;
            Ok(style.map(|style| style.font.b) == own)
        }
        Sight::IsWide(column, width) => Ok(sheet.get_column_width(column)? == width),
        Sight::IsEmpty(row, column, is) => Ok(sheet.is_empty_cell(row, column)? == is),
    }
}

/// How many of these a sheet shows from the first one on.
fn seen_count(sheet: &Worksheet, sights: &[Sight]) -> Result<usize, EditError> {
    for (at, sight) in sights.iter().enumerate() {
        if !is_seen(sheet, *sight)? {
            return Ok(at);
        }
    }
    Ok(sights.len())
}

fn seen_after(
    alloc: Global,
    sheet: &mut Worksheet,
    steps: &[Step],
    sights: &[Sight],
) -> Result<usize, EditError> {
    take_all(alloc, sheet, steps)?;
    seen_count(sheet, sights)
}

fn seen_of_new(alloc: Global, steps: &[Step], sights: &[Sight]) -> Result<usize, EditError> {
    let mut sheet = Worksheet::new(alloc, 1, "Sheet1")?;
    seen_after(alloc, &mut sheet, steps, sights)
}

#[test]
fn cells_and_lines_get_styles(rt: HostRuntime) -> Result<(), Fail> {
    for (at, case) in CASES.iter().enumerate() {
        let count = seen_of_new(rt.alloc(), case.0, case.1)?;
        assert_eq!(rt; count, case.1.len(), "case {at}");
    }
    Ok(())
}
