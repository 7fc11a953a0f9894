//! Which conditional rules a sheet may have.

ghost use Rattle.std.specs.Prelude.{◌≡◌};
ghost use Rattle.sheet_rules.specs.WellFormed.{have_rule_trees, have_rule_parts};

use format_rules::{has_fitting_trees, has_parts};
use sheet_grid::Worksheet;

/// Rule 6 of conditional rules: each formula may stand at the first place of its rule's first part.
pub(crate) fn have_rule_trees(sheet: &Worksheet) -> bool
    ensures { result ≡ have_rule_trees sheet.now }
{
    sheet
        .conditional_formatting()
        .as_slice()
        .iter()
        .all(|formatting| has_fitting_trees(formatting))
}

/// Rule 9 of conditional rules: each stands on a part of the sheet, and its parts are inside.
pub(crate) fn have_rule_parts(sheet: &Worksheet) -> bool
    ensures { result ≡ have_rule_parts sheet.now }
{
    sheet
        .conditional_formatting()
        .as_slice()
        .iter()
        .all(|formatting| has_parts(formatting))
}
