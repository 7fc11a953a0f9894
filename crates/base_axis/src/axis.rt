ghost use Rattle.std.specs.Prelude.{◌≡◌, ◌≢◌, ℤ};
ghost use Rattle.base_axis.specs.Along.{Along, IsAxis, outside};
ghost use Rattle.base_values.specs.declared.EditError.TheVariants.{NoMemory};

use base_values::{EditError, Exact, LAST_COLUMN, LAST_ROW, Position};

/// A direction of a sheet: along it each place has a line, and across it another one. Lines are
/// counted from 1. docs/MODEL.md has the rules.
pub trait Axis {
    /// The last line.
    const LAST: i32;

    ghost LAST: { ℤ };

    ghost along: { Along };

    /// The line on which a place stands.
    fn line(place: Position) -> i32
        ensures { result ≡ along.line place };

    /// The place on this line whose cross line is the same.
    fn with_line(place: Position, line: i32) -> Position
        ensures { result ≡ along.with_line place line };

    /// Of what holds of rows and what holds of columns, that which holds of the lines of this
    /// axis.
    fn of(rows: bool, columns: bool) -> bool
        ensures { result ≡ along.of rows columns };

    /// Of a number of rows and a number of columns, that of the lines of this axis.
    fn count_of(rows: i32, columns: i32) -> i32
        ensures { result ≡ along.count_of rows columns };

    ghost last_is: { LAST ≡ along.last };

    ghost lawful: { IsAxis along };
}

/// From row to row: a line is a row.
#[derive(Clone, Copy, Debug, PartialEq, Eq)]
pub struct RowAxis;

impl Exact for RowAxis {
    ghost use Rattle.base_axis.specs.laws.AxisEquals.{row_axis_equals};

    ghost copies = { λ a b h. h };

    ghost equals = { row_axis_equals };
}

/// From column to column: a line is a column.
#[derive(Clone, Copy, Debug, PartialEq, Eq)]
pub struct ColumnAxis;

impl Exact for ColumnAxis {
    ghost use Rattle.base_axis.specs.laws.AxisEquals.{column_axis_equals};

    ghost copies = { λ a b h. h };

    ghost equals = { column_axis_equals };
}

impl Axis for RowAxis {
    ghost use Rattle.std.specs.Prelude.{pos, refl};
    ghost use Rattle.base_axis.specs.Along.{rows};
    ghost use Rattle.base_axis.specs.laws.Lawful.{rows_lawful};

    const LAST: i32 = LAST_ROW;

    ghost LAST = { pos 1048576 };

    ghost along = { rows };

    fn line(place: Position) -> i32 {
        place.row
    }

    fn with_line(place: Position, line: i32) -> Position {
        Position {
            row: line,
            column: place.column,
        }
    }

    fn of(rows: bool, _columns: bool) -> bool {
        rows
    }

    fn count_of(rows: i32, _columns: i32) -> i32 {
        rows
    }

    ghost last_is = { refl };

    ghost lawful = { rows_lawful };
}

impl Axis for ColumnAxis {
    ghost use Rattle.std.specs.Prelude.{pos, refl};
    ghost use Rattle.base_axis.specs.Along.{columns};
    ghost use Rattle.base_axis.specs.laws.Lawful.{columns_lawful};

    const LAST: i32 = LAST_COLUMN;

    ghost LAST = { pos 16384 };

    ghost along = { columns };

    fn line(place: Position) -> i32 {
        place.column
    }

    fn with_line(place: Position, line: i32) -> Position {
        Position {
            row: place.row,
            column: line,
        }
    }

    fn of(_rows: bool, columns: bool) -> bool {
        columns
    }

    fn count_of(_rows: i32, columns: i32) -> i32 {
        columns
    }

    ghost last_is = { refl };

    ghost lawful = { columns_lawful };
}

/// The refusal of a line that is not one of the axis: `InvalidRow` or `InvalidColumn`.
pub fn outside<A: Axis>() -> EditError
    ensures line { result ≡ outside A.along }
    ensures sure { result ≢ NoMemory }
{
    if A::of(true, false) {
        EditError::InvalidRow
    } else {
        EditError::InvalidColumn
    }
}
