ghost use Rattle.formula_move.specs.Same.{TellsSame};

/// How the cells of a sheet are displaced. The sheet is given by its name; rows and columns are
/// counted from 1.
#[derive(Clone, Copy, Debug, PartialEq, Eq)]
pub enum DisplaceData<'a> {
    /// The columns from `column` on go `delta` columns to the right. Where that is less than 0, the
    /// columns from `column` to `column - delta - 1` are lost.
    Column {
        sheet: &'a str,
        column: i32,
        delta: i32,
    },
    /// The rows from `row` on go `delta` rows down. Where that is less than 0, the rows from `row`
    /// to `row - delta - 1` are lost.
    Row {
        sheet: &'a str,
        row: i32,
        delta: i32,
    },
    /// As `Column`, of the cells of one row alone.
    CellHorizontal {
        sheet: &'a str,
        row: i32,
        column: i32,
        delta: i32,
    },
    /// As `Row`, of the cells of one column alone.
    CellVertical {
        sheet: &'a str,
        row: i32,
        column: i32,
        delta: i32,
    },
    /// One row goes `delta` rows down, and each row that it passes one row the other way.
    RowMove {
        sheet: &'a str,
        row: i32,
        delta: i32,
    },
    /// One column goes `delta` columns to the right, and each column that it passes one the other
    /// way.
    ColumnMove {
        sheet: &'a str,
        column: i32,
        delta: i32,
    },
    /// Nothing is displaced.
    None,
}

/// The law of equality: two displacements are equal where they are of the same kind, of sheets with
/// the same name, with the same lines and the same delta.
#[tactic(auto, using(crate::proofs::Sameness::tells_same))]
pub fn equality_is_of_values()
    ensures { TellsSame }
{}
