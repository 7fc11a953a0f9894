//! Which names a sheet of a workbook may get.

ghost use Rattle.std.specs.Prelude.{◌≡◌};
ghost use Rattle.book_names.specs.RenameDiffs.{is_taken, may_be_named};

use base_tables::same_by_folding;
use sheet_grid::Worksheet;
use sheet_rules::is_sheet_name;

/// Whether another sheet than the one of an id has a name that is equal by folding.
#[tactic(auto, unfolding(crate::specs::RenameDiffs::is_taken))]
fn is_taken(id: u32, name: &str, sheets: &[Worksheet]) -> bool
    ensures { result ≡ is_taken id name.now sheets.now }
{
    sheets.iter().any(|sheet| sheet.get_sheet_id() != id && same_by_folding(name, sheet.get_name()))
}

/// Whether the sheet of an id may get a name: it has 1 to 31 characters, none of them one of
/// `: \ / ? * [ ]`, and no apostrophe at an end, and no other sheet has a name that is equal to it by
/// simple case folding.
#[tactic(auto, unfolding(crate::specs::RenameDiffs::may_be_named))]
pub fn may_be_named(id: u32, name: &str, sheets: &[Worksheet]) -> bool
    ensures { result ≡ may_be_named id name.now sheets.now }
{
    is_sheet_name(name) && !is_taken(id, name, sheets)
}
