//! What rows, columns and cells of a sheet may have of their own.

ghost use Rattle.std.specs.Prelude.{◌≡◌, ℤ};
ghost use Rattle.std.specs.List.{list_all};
ghost use Rattle.std.specs.FinMap.{entries};
ghost use Rattle.base_values.specs.declared.Position.{Position};
ghost use Rattle.sheet_grid.specs.declared.Cell.{Cell};
ghost use Rattle.sheet_grid.specs.declared.LineAttr.{LineAttr};
ghost use Rattle.sheet_rules.specs.WellFormed.{is_size, has_font, is_row_style, is_row, is_width, is_column_style, is_column, have_attributes};

use base_shared::Shared;
use base_styles::Style;
use sheet_grid::{LineAttr, USUAL_WIDTH, Worksheet, is_default_style};

fn has_font(style: &Style) -> bool
    ensures { result ≡ has_font style.now }
{
    style.font.sz >= 1
}

fn is_size(size: Option<i32>) -> bool
    ensures { result ≡ is_size size }
{
    match size {
        Some(size) => size >= 0,
        None => true,
    }
}

fn is_row_style(style: &Option<Shared<Style>>) -> bool
    ensures { result ≡ is_row_style style.now }
{
    match style {
        Some(given) => has_font(given.get()) && !is_default_style(given.get()),
        None => true,
    }
}

fn is_row(attr: &LineAttr) -> bool
    ensures { result ≡ is_row attr.now }
{
    !attr.is_plain() && is_size(attr.size) && is_row_style(&attr.style)
}

/// The usual width is one that a column does not have of its own.
fn is_width(width: Option<i32>) -> bool
    ensures { result ≡ is_width width }
{
    match width {
        Some(width) => width >= 0 && width != USUAL_WIDTH,
        None => true,
    }
}

fn is_column_style(style: &Option<Shared<Style>>) -> bool
    ensures { result ≡ is_column_style style.now }
{
    match style {
        Some(given) => has_font(given.get()),
        None => true,
    }
}

fn is_column(attr: &LineAttr) -> bool
    ensures { result ≡ is_column attr.now }
{
    !attr.is_plain() && is_width(attr.size) && is_column_style(&attr.style)
}

fn are_rows(sheet: &Worksheet) -> bool
    ensures { result ≡ list_all (λ (entry : ℤ × LineAttr). is_row entry.1) (entries sheet.now.rows) }
{
    sheet.rows().all(|(_row, attr)| is_row(attr))
}

fn are_columns(sheet: &Worksheet) -> bool
    ensures { result ≡ list_all (λ (entry : ℤ × LineAttr). is_column entry.1) (entries sheet.now.columns) }
{
    sheet.columns().all(|(_column, attr)| is_column(attr))
}

fn have_fonts(sheet: &Worksheet) -> bool
    ensures { result ≡ list_all (λ (entry : Position × Cell). has_font entry.1.style) (entries sheet.now.cells) }
{
    sheet
        .cells()
        .all(|(_place, cell)| has_font(cell.get().style.get()))
}

/// Whether what rows and columns have of their own may be so, and each cell's font has a size.
#[tactic(auto, unfolding(crate::specs::WellFormed::have_attributes))]
pub(crate) fn have_attributes(sheet: &Worksheet) -> bool
    ensures { result ≡ have_attributes sheet.now }
{
    are_rows(sheet) && are_columns(sheet) && have_fonts(sheet)
}
