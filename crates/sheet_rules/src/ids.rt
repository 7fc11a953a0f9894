//! The ids of the sheets of a workbook.

ghost use Rattle.std.specs.Prelude.{◌≡◌, ◌==◌};
ghost use Rattle.sheet_rules.specs.Names.{is_id_of};
ghost use Rattle.sheet_rules.specs.WellFormed.{are_distinct, ids_of};

use sheet_grid::Worksheet;

/// Whether a sheet has an id.
pub(crate) fn is_taken(id: u32, sheets: &[Worksheet]) -> bool
    ensures { result ≡ is_id_of (ids_of sheets.now) id }
{
    sheets.iter().any(|sheet| id == sheet.get_sheet_id())
}

/// Whether no two sheets have one id.
pub(crate) fn have_distinct_ids(sheets: &[Worksheet]) -> bool
    ensures { result ≡ are_distinct (λ a b. a == b) (ids_of sheets.now) }
{
    let mut rest = sheets;
    while let Some((first, others)) = rest.split_first() {
        if is_taken(first.get_sheet_id(), others) {
            return false;
        }
        rest = others;
    }
    true
}
