ghost use Rattle.std.specs.Prelude.{◌≡◌, ◌++◌, ◌&&◌, not, OnOk, string_bytes};
ghost use Rattle.formula_print.specs.References as spec;

use crate::column::push_column_name;
use crate::style::Corners;
use base_shared::Shared;
use base_tables::{needs_quotes, quote_name};
use base_values::{Position, Text};
use formula_tree::{Corner, corner_at, is_whole_columns, is_whole_rows};
use std::alloc::AllocError;

fn push_mark(absolute: bool, out: &mut String) -> Result<(), AllocError>
    ensures { OnOk result (string_bytes out.new ≡ string_bytes out.old ++ spec.mark absolute) }
{
    if absolute {
        out.push_str("$")?;
    }
    Ok(())
}

fn push_column(corner: Corner, at: Position, out: &mut String) -> Result<(), AllocError>
    ensures { OnOk result (string_bytes out.new ≡ string_bytes out.old ++ spec.column_text corner at) }
{
    push_mark(corner.absolute_column, out)?;
    push_column_name(at.column, out)
}

fn push_row(corner: Corner, at: Position, out: &mut String) -> Result<(), AllocError>
    ensures { OnOk result (string_bytes out.new ≡ string_bytes out.old ++ spec.row_text corner at) }
{
    push_mark(corner.absolute_row, out)?;
    write!(out, "{}", at.row)
}

fn push_cell(corner: Corner, at: Position, out: &mut String) -> Result<(), AllocError>
    ensures { OnOk result (string_bytes out.new ≡ string_bytes out.old ++ spec.cell_text corner at) }
{
    push_column(corner, at, out)?;
    push_row(corner, at, out)
}

#[tactic(auto, unfolding(crate::specs::References::corners_text))]
fn push_corners(
    first: Corner,
    from: Position,
    second: Corner,
    to: Position,
    out: &mut String,
) -> Result<(), AllocError>
    ensures { OnOk result (string_bytes out.new ≡ string_bytes out.old ++ spec.corners_text first from second to) }
{
    if is_whole_columns(first, second) {
        push_row(first, from, out)?;
        out.push_str(":")?;
        push_row(second, to, out)
    } else if is_whole_rows(first, second) {
        push_column(first, from, out)?;
        out.push_str(":")?;
        push_column(second, to, out)
    } else {
        push_cell(first, from, out)?;
        out.push_str(":")?;
        push_cell(second, to, out)
    }
}

/// The name of a sheet as one that needs quotes, in a text of its own.
#[tactic(auto, unfolding(crate::specs::References::quoted_sheet))]
fn push_in_quotes(name: &str, out: &mut String) -> Result<(), AllocError>
    ensures { OnOk result (string_bytes out.new ≡ string_bytes out.old ++ spec.quoted_sheet name.now) }
{
    match quote_name(*out.allocator(), name) {
        Ok(text) => out.push_str(text.as_str()),
        Err(_) => Err(AllocError),
    }
}

#[tactic(auto, using(crate::proofs::SheetNames::bare_sheet))]
fn push_quoted_name(name: &str, out: &mut String) -> Result<(), AllocError>
    ensures { OnOk result (string_bytes out.new ≡ string_bytes out.old ++ spec.quoted_sheet name.now) }
{
    if needs_quotes(name) {
        push_in_quotes(name, out)
    } else {
        out.push_str(name)
    }
}

fn push_sheet(sheet: &Option<Shared<Text>>, out: &mut String) -> Result<(), AllocError>
    ensures { OnOk result (string_bytes out.new ≡ string_bytes out.old ++ spec.sheet_text sheet.now) }
{
    match sheet {
        Some(name) => {
            push_quoted_name(name.get().as_str(), out)?;
            out.push_str("!")
        }
        None => Ok(()),
    }
}

fn push_reference_at(
    sheet: &Option<Shared<Text>>,
    corner: Corner,
    at: Option<Position>,
    out: &mut String,
) -> Result<(), AllocError>
    ensures { OnOk result (string_bytes out.new ≡ string_bytes out.old ++ spec.reference_at sheet.now corner at) }
{
    match at {
        Some(at) => {
            push_sheet(sheet, out)?;
            push_cell(corner, at, out)
        }
        None => out.push_str("#REF!"),
    }
}

fn push_range_at(
    sheet: &Option<Shared<Text>>,
    first: Corner,
    from: Option<Position>,
    second: Corner,
    to: Option<Position>,
    out: &mut String,
) -> Result<(), AllocError>
    ensures { OnOk result (string_bytes out.new ≡ string_bytes out.old ++ spec.range_at sheet.now first from second to) }
{
    match (from, to) {
        (Some(from), Some(to)) => {
            push_sheet(sheet, out)?;
            push_corners(first, from, second, to, out)
        }
        _ => {
            push_reference_at(sheet, first, from, out)?;
            out.push_str(":")?;
            push_reference_at(sheet, second, to, out)
        }
    }
}

fn push_line(absolute: bool, number: i32, out: &mut String) -> Result<(), AllocError>
    ensures { OnOk result (string_bytes out.new ≡ string_bytes out.old ++ spec.line_text absolute number) }
{
    if absolute {
        write!(out, "{number}")
    } else {
        write!(out, "[{number}]")
    }
}

fn push_row_column(corner: Corner, out: &mut String) -> Result<(), AllocError>
    ensures { OnOk result (string_bytes out.new ≡ string_bytes out.old ++ spec.row_column_text corner) }
{
    out.push_str("R")?;
    push_line(corner.absolute_row, corner.row, out)?;
    out.push_str("C")?;
    push_line(corner.absolute_column, corner.column, out)
}

/// A reference, with its sheet.
#[tactic(auto, unfolding(crate::specs::References::reference_text))]
pub(crate) fn push_reference(
    corners: Corners,
    sheet: &Option<Shared<Text>>,
    corner: Corner,
    out: &mut String,
) -> Result<(), AllocError>
    ensures { OnOk result (string_bytes out.new ≡ string_bytes out.old ++ spec.reference_text corners sheet.now corner) }
{
    match corners {
        Corners::Letters(place) => push_reference_at(sheet, corner, corner_at(place, corner), out),
        Corners::Numbers => {
            push_sheet(sheet, out)?;
            push_row_column(corner, out)
        }
    }
}

/// A range, with its sheet before the first corner.
#[tactic(auto, unfolding(crate::specs::References::range_text))]
pub(crate) fn push_range(
    corners: Corners,
    sheet: &Option<Shared<Text>>,
    first: Corner,
    second: Corner,
    out: &mut String,
) -> Result<(), AllocError>
    ensures { OnOk result (string_bytes out.new ≡ string_bytes out.old ++ spec.range_text corners sheet.now first second) }
{
    match corners {
        Corners::Letters(place) => {
            let from = corner_at(place, first);
            let to = corner_at(place, second);
            push_range_at(sheet, first, from, second, to, out)
        }
        Corners::Numbers => {
            push_sheet(sheet, out)?;
            push_row_column(first, out)?;
            out.push_str(":")?;
            push_row_column(second, out)
        }
    }
}

/// Whether the text of a reference begins with a cell without a sheet.
#[tactic(auto, unfolding(crate::specs::References::reference_cell_first))]
pub(crate) fn is_cell_first(corners: Corners, sheet: &Option<Shared<Text>>, corner: Corner) -> bool
    ensures { result ≡ spec.reference_cell_first corners sheet.now corner }
{
    match corners {
        Corners::Letters(place) => sheet.is_none() && corner_at(place, corner).is_some(),
        Corners::Numbers => sheet.is_none(),
    }
}

fn is_shortened(first: Corner, from: Option<Position>, second: Corner, to: Option<Position>) -> bool
    ensures { result ≡ spec.is_shortened first from second to }
{
    from.is_some()
        && to.is_some()
        && (is_whole_rows(first, second) || is_whole_columns(first, second))
}

/// Whether the text of a range begins with a cell without a sheet.
#[tactic(auto, unfolding(crate::specs::References::range_cell_first))]
pub(crate) fn is_range_cell_first(
    corners: Corners,
    sheet: &Option<Shared<Text>>,
    first: Corner,
    second: Corner,
) -> bool
    ensures { result ≡ spec.range_cell_first corners sheet.now first second }
{
    match corners {
        Corners::Letters(place) => {
            let from = corner_at(place, first);
            let to = corner_at(place, second);
            sheet.is_none() && (from.is_some() && !is_shortened(first, from, second, to))
        }
        Corners::Numbers => sheet.is_none(),
    }
}
