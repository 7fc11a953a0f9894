ghost use Rattle.std.specs.Prelude.{◌≡◌, Ok};
ghost use Rattle.sheet_grid.specs.Book.{Book};
ghost use Rattle.sheet_rules.specs.WellFormed.{IsWellFormed};
ghost use Rattle.edit_plans.specs.Edits.{Edit, IsGiven, changed};
ghost use Rattle.open_book.specs.BothWays.{GoesBothWays};

use edit_plans::{edits_have_records, sheet_edits_go_both_ways};

/// A law about accepted edits of a well-formed workbook, with no work at run time: each leads to a
/// well-formed workbook, and its record takes the earlier workbook to the later one and the later
/// one back, also where results are tested. A content has to be one that may stand at its place, and
/// an array goes to a rectangle only.
///
/// ```
/// edits_go_both_ways(); // from here on a proof may use the law
/// ```
pub fn edits_go_both_ways()
    ensures { (edit : Edit) (earlier later : Book) → IsWellFormed earlier → IsGiven edit →
        changed edit earlier ≡ Ok later → GoesBothWays edit earlier later }
{
    // For the proof alone: two laws.
    edits_have_records();
    sheet_edits_go_both_ways();
}
