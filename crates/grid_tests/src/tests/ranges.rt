// Empty rectangles, which no script names.
use base_axis::{Area, MergedCell, RowAxis};
use base_tables::{Language, Locale, Zone};
use base_values::EditError;
use range_styles::clear_area;
use sheet_fill::plan_fill;
use sheet_grid::Workbook;
use std::alloc::Global;
use std::test::Fail;

/// Three rows of no column.
const EMPTY: MergedCell = MergedCell {
    row: 1,
    column: 1,
    width: 0,
    height: 3,
};

/// A column without a row, of the sheet at an index.
fn no_row(sheet: u32) -> Area {
    Area {
        sheet,
        row: 1,
        column: 1,
        width: 1,
        height: 0,
    }
}

/// The refusal of clearing an empty rectangle, and those of filling one, of a sheet and of none, to row 0.
fn refusals(alloc: Global, book: &Workbook) -> Result<[Option<EditError>; 3], EditError> {
    let cleared = clear_area(book.worksheet(0)?, EMPTY).err();
    let filled = plan_fill::<RowAxis>(alloc, book, &no_row(0), 0, Language::En).err();
    let elsewhere = plan_fill::<RowAxis>(alloc, book, &no_row(1), 0, Language::En).err();
    Ok([cleared, filled, elsewhere])
}

fn new_refusals(alloc: Global) -> Result<[Option<EditError>; 3], EditError> {
    let book = Workbook::new_empty(alloc, "book", Locale::En, Zone::Utc)?;
    refusals(alloc, &book)
}

#[test]
fn empty_rectangles_are_refused(rt: HostRuntime) -> Result<(), Fail> {
    let [cleared, filled, elsewhere] = new_refusals(rt.alloc())?;
    assert_eq!(rt; cleared, Some(EditError::InvalidArea));
    assert_eq!(rt; filled, Some(EditError::InvalidArea));
    assert_eq!(rt; elsewhere, Some(EditError::InvalidSheet));
    Ok(())
}
