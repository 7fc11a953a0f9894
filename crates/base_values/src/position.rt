ghost use Rattle.std.specs.Prelude.{◌≡◌, ◌≢◌, Err, IfOk, IfSome, IsTrue};
ghost use Rattle.base_values.specs.declared.error.EditError.TheVariants.{NoMemory};
ghost use Rattle.base_values.specs.Places.{IsLine, IsPlace, as_line, is_line, is_place, line_of, place_of};

use crate::error::EditError;
use crate::exact::Exact;

/// The last row of a sheet. Rows are counted from 1.
pub const LAST_ROW: i32 = 1_048_576;

/// The last column of a sheet, which is named XFD. Columns are counted from 1.
pub const LAST_COLUMN: i32 = 16_384;

/// A place of a sheet, by row and column. Positions are ordered by row, then by column.
#[derive(Clone, Copy, Debug, PartialEq, Eq, PartialOrd, Ord)]
pub struct Position {
    pub row: i32,
    pub column: i32,
}

impl Exact for Position {
    ghost use Rattle.std.proofs.Common.{rules};
    ghost use Rattle.base_values.specs.laws.PositionEquals.{position_equals};

    ghost copies = { λ a b h. Prim.search rules };

    ghost equals = { position_equals };
}

/// Whether a number is that of a line of an axis that ends at `last`.
pub fn is_line(last: i32, line: i64) -> bool
    ensures value { result ≡ is_line last line }
    ensures inside { IsTrue result → IsLine last line }
{
    1 <= line && line <= i64::from(last)
}

/// Whether a position is a place of a sheet.
pub fn is_place(place: Position) -> bool
    ensures { result ≡ is_place place }
{
    is_line(LAST_ROW, place.row as i64) && is_line(LAST_COLUMN, place.column as i64)
}

/// A line where it is one of an axis that ends at `last`.
#[tactic(auto, unfolding(crate::specs::Places::as_line))]
pub fn as_line(last: i32, line: i64) -> Option<i32>
    ensures value { result ≡ as_line last line }
    ensures inside { IfSome result (IsLine last) }
{
    if !is_line(last, line) {
        return None;
    }
    Some(line as i32)
}

/// A line of an axis that ends at `last`, or the refusal where it lies outside.
#[tactic(auto, unfolding(crate::specs::Places::line_of))]
pub fn line_of(last: i32, line: i32, refusal: EditError) -> Result<i32, EditError>
    ensures line { result ≡ line_of last line refusal }
    ensures inside { IfOk result (IsLine last) }
    ensures sure { refusal ≢ NoMemory → result ≢ Err NoMemory }
{
    if !is_line(last, line as i64) {
        return Err(refusal);
    }
    Ok(line)
}

/// The place at a row and a column.
///
/// `InvalidRow` where the row is outside the sheet, else `InvalidColumn` where the column is.
#[tactic(auto, unfolding(crate::specs::Places::place_of))]
pub fn place_of(row: i32, column: i32) -> Result<Position, EditError>
    ensures place { result ≡ place_of row column }
    ensures inside { IfOk result IsPlace }
    ensures sure { result ≢ Err NoMemory }
{
    if !is_line(LAST_ROW, row as i64) {
        return Err(EditError::InvalidRow);
    }
    if !is_line(LAST_COLUMN, column as i64) {
        return Err(EditError::InvalidColumn);
    }
    Ok(Position { row, column })
}
