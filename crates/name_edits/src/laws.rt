ghost use Rattle.std.specs.Prelude.{◌≡◌, ℕ, Ok};
ghost use Rattle.sheet_grid.specs.Book.{Book};
ghost use Rattle.sheet_rules.specs.WellFormed.{IsWellFormed};
ghost use Rattle.book_sheets.specs.Ways.{LeadsBothWays};
ghost use Rattle.name_edits.specs.declared.name_change.NameChange.{NameChange};
ghost use Rattle.name_edits.specs.NameChanges.{name_made, trees_lost};
ghost use Rattle.name_edits.specs.NameDiffs.{name_forward, name_back};
ghost use Rattle.name_edits.specs.NameEdits.{NameEdit, name_change};

/// A law about edits of defined names, with no work at run time: the diff of an accepted one leads from a
/// well-formed workbook to the later one, and back with what was kept.
pub fn changed_names_lead_both_ways()
    ensures { (at : ℕ) (edit : NameEdit) (change : NameChange) (w : Book) → IsWellFormed w → name_change edit w ≡ Ok change
        → LeadsBothWays (name_forward at change (trees_lost change w)) (name_back at change (trees_lost change w)) w (name_made change w) }
{}

/// A law about edits of defined names, with no work at run time: a well-formed workbook stays so where one
/// is accepted.
pub fn changed_workbooks_are_well_formed()
    ensures { (edit : NameEdit) (change : NameChange) (w : Book) → IsWellFormed w → name_change edit w ≡ Ok change → IsWellFormed (name_made change w) }
{}
