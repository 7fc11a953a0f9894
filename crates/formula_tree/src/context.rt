ghost use Rattle.std.specs.Prelude.{◌≡◌};
ghost use Rattle.formula_tree.specs.Context.{context_place};

use base_values::{Exact, Position, Text};

/// The cell in which a formula stands. Rows and columns are counted from 1.
#[derive(Clone, Debug, Drop, PartialEq, Eq)]
pub struct CellReferenceRC {
    /// The name of the cell's sheet.
    pub sheet: Text,
    pub row: i32,
    pub column: i32,
}

impl Exact for CellReferenceRC {
    ghost use Rattle.std.proofs.Common.{rules};
    ghost use Rattle.formula_tree.specs.laws.Equals.{context_equals};

    ghost copies = { λ a b h. Prim.search rules };

    ghost equals = { context_equals };
}

impl CellReferenceRC {
    /// The cell's place in its sheet.
    pub fn place(&self) -> Position
        ensures { result ≡ context_place self.now }
    {
        Position {
            row: self.row,
            column: self.column,
        }
    }
}
