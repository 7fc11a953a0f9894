ghost use Rattle.std.specs.Prelude.{◌≡◌};
ghost use Rattle.sheet_ids.specs.Views.{first_view, are_lines, is_range, range_chosen};

use base_values::{EditError, Exact, LAST_COLUMN, LAST_ROW};

/// What a user has selected of a workbook.
#[derive(Clone, Copy, Debug, PartialEq, Eq)]
pub struct View {
    /// The index of the sheet, counted from 0.
    pub sheet: u32,
    /// The first row, the first column, the last row and the last column of the rectangle.
    pub range: [i32; 4],
}

impl Exact for View {
    ghost use Rattle.std.proofs.Common.{rules};
    ghost use Rattle.sheet_ids.specs.laws.ViewEquals.{view_equals};

    ghost copies = { λ a b h. Prim.search rules };

    ghost equals = { view_equals };
}

/// Whether two lines are of an axis, the second one not before the first.
fn are_lines(end: i32, first: i32, last: i32) -> bool
    ensures { result ≡ are_lines end first last }
{
    1 <= first && first <= last && last <= end
}

fn is_range(first_row: i32, first_column: i32, last_row: i32, last_column: i32) -> bool
    ensures { result ≡ is_range first_row first_column last_row last_column }
{
    are_lines(LAST_ROW, first_row, last_row) && are_lines(LAST_COLUMN, first_column, last_column)
}

impl View {
    /// The view of a workbook that was just opened: its first sheet, at A1.
    pub fn first() -> View
        ensures { result ≡ first_view }
    {
        View {
            sheet: 0,
            range: [1, 1, 1, 1],
        }
    }

    /// The view of the same sheet with another rectangle.
    ///
    /// `InvalidArea` where it reaches outside the sheet, or a first line is after its last.
    pub fn with_range(
        self,
        first_row: i32,
        first_column: i32,
        last_row: i32,
        last_column: i32,
    ) -> Result<View, EditError>
        ensures { result ≡ range_chosen self first_row first_column last_row last_column }
    {
        if !is_range(first_row, first_column, last_row, last_column) {
            return Err(EditError::InvalidArea);
        }
        Ok(View {
            sheet: self.sheet,
            range: [first_row, first_column, last_row, last_column],
        })
    }
}
