ghost use Rattle.std.specs.Prelude.{◌≡◌, IfSome, pos};
ghost use Rattle.base_values.specs.Places.{IsRow, IsColumn, IsPlace};
ghost use Rattle.formula_move.specs.Displace.{on_row, on_column, to_row, to_column, row_shifted, column_shifted, row_stepped, column_stepped, image_of, is_reached, is_spared, displaced_corner, is_exposed};

use crate::displace_data::DisplaceData;
use crate::lines::{shifted, stepped};
use base_shared::Shared;
use base_values::{LAST_COLUMN, LAST_ROW, Position, Text};
use formula_tree::{
    Corner, corner_column, corner_row, is_on_sheet, is_whole_columns, is_whole_rows,
};

/// The corner that stands on this row, with its marks and on its column.
fn on_row(place: Position, corner: Corner, row: i32) -> Corner
    requires place { IsPlace place }
    requires row { IsRow row }
    ensures { result ≡ on_row place corner row }
{
    let row = if corner.absolute_row {
        row
    } else {
        row - place.row
    };
    Corner { row, ..corner }
}

/// The corner that stands on this column, with its marks and on its row.
fn on_column(place: Position, corner: Corner, column: i32) -> Corner
    requires place { IsPlace place }
    requires column { IsColumn column }
    ensures { result ≡ on_column place corner column }
{
    let column = if corner.absolute_column {
        column
    } else {
        column - place.column
    };
    Corner { column, ..corner }
}

fn to_row(place: Position, corner: Corner, row: Option<i32>) -> Option<Corner>
    requires place { IsPlace place }
    requires row { IfSome row IsRow }
    ensures { result ≡ to_row place corner row }
{
    match row {
        Some(row) => Some(on_row(place, corner, row)),
        None => None,
    }
}

fn to_column(place: Position, corner: Corner, column: Option<i32>) -> Option<Corner>
    requires place { IsPlace place }
    requires column { IfSome column IsColumn }
    ensures { result ≡ to_column place corner column }
{
    match column {
        Some(column) => Some(on_column(place, corner, column)),
        None => None,
    }
}

fn row_shifted(row: i32, delta: i32, place: Position, corner: Corner) -> Option<Corner>
    requires { IsPlace place }
    ensures { result ≡ row_shifted row delta place corner }
{
    let image = shifted(LAST_ROW, row, delta, corner_row(place, corner));
    to_row(place, corner, image)
}

fn column_shifted(column: i32, delta: i32, place: Position, corner: Corner) -> Option<Corner>
    requires { IsPlace place }
    ensures { result ≡ column_shifted column delta place corner }
{
    let image = shifted(LAST_COLUMN, column, delta, corner_column(place, corner));
    to_column(place, corner, image)
}

fn row_stepped(row: i32, delta: i32, place: Position, corner: Corner) -> Option<Corner>
    requires { IsPlace place }
    ensures { result ≡ row_stepped row delta place corner }
{
    let image = stepped(LAST_ROW, row, delta, corner_row(place, corner));
    to_row(place, corner, image)
}

fn column_stepped(column: i32, delta: i32, place: Position, corner: Corner) -> Option<Corner>
    requires { IsPlace place }
    ensures { result ≡ column_stepped column delta place corner }
{
    let image = stepped(LAST_COLUMN, column, delta, corner_column(place, corner));
    to_column(place, corner, image)
}

/// Where an exposed corner of a formula at `place` goes: along the displaced axis to the image of its
/// line, wherever it stands. `None` where its line is lost, leaves the sheet or is none of it.
#[tactic(auto, unfolding(crate::specs::Displace::image_of))]
fn image_of(displacement: &DisplaceData<'_>, place: Position, corner: Corner) -> Option<Corner>
    requires { IsPlace place }
    ensures { result ≡ image_of displacement.now place corner }
{
    match *displacement {
        DisplaceData::Column { column, delta, .. } => column_shifted(column, delta, place, corner),
        DisplaceData::Row { row, delta, .. } => row_shifted(row, delta, place, corner),
        DisplaceData::CellHorizontal {
            row,
            column,
            delta,
            ..
        } => {
            if corner_row(place, corner) == i64::from(row) {
                column_shifted(column, delta, place, corner)
            } else {
                Some(corner)
            }
        }
        DisplaceData::CellVertical {
            row,
            column,
            delta,
            ..
        } => {
            if corner_column(place, corner) == i64::from(column) {
                row_shifted(row, delta, place, corner)
            } else {
                Some(corner)
            }
        }
        DisplaceData::RowMove { row, delta, .. } => row_stepped(row, delta, place, corner),
        DisplaceData::ColumnMove { column, delta, .. } => {
            column_stepped(column, delta, place, corner)
        }
        DisplaceData::None => Some(corner),
    }
}

/// Whether a reference or range with this sheet name, in a formula of the sheet `own`, stands on
/// the displaced sheet.
#[tactic(auto, unfolding(crate::specs::Displace::is_reached))]
pub fn is_reached(own: &str, displacement: &DisplaceData<'_>, name: &Option<Shared<Text>>) -> bool
    ensures { result ≡ is_reached own.now displacement.now name.now }
{
    match displacement {
        DisplaceData::Column { sheet, .. }
        | DisplaceData::Row { sheet, .. }
        | DisplaceData::CellHorizontal { sheet, .. }
        | DisplaceData::CellVertical { sheet, .. }
        | DisplaceData::RowMove { sheet, .. }
        | DisplaceData::ColumnMove { sheet, .. } => is_on_sheet(own, sheet, name),
        DisplaceData::None => false,
    }
}

/// Whether a range stays that takes all rows, or all columns.
#[tactic(auto, unfolding(crate::specs::Displace::is_spared))]
fn is_spared(displacement: &DisplaceData<'_>, rows: bool, columns: bool) -> bool
    ensures { result ≡ is_spared displacement.now rows columns }
{
    match displacement {
        DisplaceData::Column { .. } | DisplaceData::ColumnMove { .. } => columns,
        DisplaceData::Row { .. } | DisplaceData::RowMove { .. } => rows,
        DisplaceData::CellHorizontal { .. } | DisplaceData::CellVertical { .. } => rows || columns,
        DisplaceData::None => true,
    }
}

/// Whether the corners of a range go where their lines go.
#[tactic(auto, unfolding(crate::specs::Displace::is_exposed))]
pub fn is_exposed(
    own: &str,
    displacement: &DisplaceData<'_>,
    name: &Option<Shared<Text>>,
    first: Corner,
    second: Corner,
) -> bool
    ensures { result ≡ is_exposed own.now displacement.now name.now first second }
{
    let (rows, columns) = (
        is_whole_rows(first, second),
        is_whole_columns(first, second),
    );
    is_reached(own, displacement, name) && !is_spared(displacement, rows, columns)
}

/// Where a corner of a formula at a place goes. One that is not exposed stays.
pub fn displaced_corner(
    place: Position,
    displacement: &DisplaceData<'_>,
    exposed: bool,
    corner: Corner,
) -> Option<Corner>
    requires { IsPlace place }
    ensures { result ≡ displaced_corner place displacement.now exposed corner }
{
    if exposed {
        return image_of(displacement, place, corner);
    }
    Some(corner)
}
