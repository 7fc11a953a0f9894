ghost use Rattle.std.specs.Prelude.{◌≡◌, ℕ, List, Ok, Some, true};
ghost use Rattle.sheet_grid.specs.Sheet.{Sheet};
ghost use Rattle.sheet_grid.specs.Book.{Book};
ghost use Rattle.sheet_rules.specs.WellFormed.{IsWellFormed};
ghost use Rattle.sheet_ids.specs.Ids.{HasDistinctIds, sheet_of};
ghost use Rattle.book_names.specs.Renaming.{book_renamed, book_back, trees_kept};
ghost use Rattle.book_names.specs.RenameDiffs.{rename_forward, rename_back, may_be_named};

/// A law about renamed sheets, with no work at run time: the diff leads from a well-formed workbook to
/// the one that has the new name everywhere, and back with what was kept; and going back with that gives
/// each tree and each conditional rule of the workbook, also where no sheet had the name that it names.
pub fn renaming_leads_both_ways()
    ensures forth { (at id : ℕ) (new : List ℕ) (sheet : Sheet) (w : Book) → IsWellFormed w → sheet_of w id ≡ Some sheet
        → rename_forward at id sheet.name new (trees_kept sheet.name new w) w ≡ Ok (book_renamed id sheet.name new w) }
    ensures back { (at id : ℕ) (new : List ℕ) (sheet : Sheet) (w : Book) → IsWellFormed w → sheet_of w id ≡ Some sheet
        → rename_back at id sheet.name new (trees_kept sheet.name new w) (book_renamed id sheet.name new w) ≡ Ok w }
    ensures regained { (id : ℕ) (new : List ℕ) (sheet : Sheet) (w : Book) → HasDistinctIds w → sheet_of w id ≡ Some sheet
        → book_back id sheet.name new (trees_kept sheet.name new w) (book_renamed id sheet.name new w) ≡ w }
{}

/// A law about renamed sheets, with no work at run time: a well-formed workbook stays so where a sheet
/// gets a name that it may get.
pub fn renamed_workbooks_are_well_formed()
    ensures { (id : ℕ) (old new : List ℕ) (w : Book) → IsWellFormed w → may_be_named id new w.worksheets ≡ true
        → IsWellFormed (book_renamed id old new w) }
{}
