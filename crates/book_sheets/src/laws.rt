ghost use Rattle.std.specs.Prelude.{◌≡◌, ◌<◌, ◌≤◌, ℕ, List, length, slice_get, Some, None, true, false};
ghost use Rattle.std.specs.List.{list_any};
ghost use Rattle.base_tables.specs.Folding.{same_folded};
ghost use Rattle.defined_names.specs.Names.{names_copied, names_left};
ghost use Rattle.sheet_grid.specs.Sheet.{Sheet, new_sheet};
ghost use Rattle.sheet_grid.specs.Book.{Book, index_of, names_of, sheets_moved};
ghost use Rattle.sheet_rules.specs.SheetNames.{is_sheet_name};
ghost use Rattle.sheet_rules.specs.WellFormed.{IsWellFormed};
ghost use Rattle.book_sheets.specs.SheetDiffs.{with_sheet_at, without_sheet_at, sheet_as, kept_of, new_forward, new_back, copy_forward, copy_back};
ghost use Rattle.book_sheets.specs.SheetDiffs.{deletion_forward, deletion_back, sheet_moves};
ghost use Rattle.book_sheets.specs.Ways.{LeadsBothWays};

/// A law about diffs of the list of sheets, with no work at run time: each leads from the workbook
/// that an edit finds to the one that it leaves, and back. The names that are known in a copy alone go
/// with it, and those of a deleted sheet come back.
pub fn sheet_diffs_lead_both_ways()
    ensures new { (at id index : ℕ) (name : List ℕ) (w : Book) → index_of w id ≡ None → index ≤ length w.worksheets
        → LeadsBothWays (new_forward at id index name) (new_back at id) w (with_sheet_at index (new_sheet id name) w.names w) }
    ensures copy { (at id index from : ℕ) (name : List ℕ) (source : Sheet) (w : Book) → IsWellFormed w → slice_get w.worksheets from ≡ Some source
        → index_of w id ≡ None → index ≤ length w.worksheets
        → LeadsBothWays (copy_forward at source.id id index name) (copy_back at id) w
        (with_sheet_at index (sheet_as id name source) (names_copied source.id id w.names) w) }
    ensures deletion { (at index : ℕ) (sheet : Sheet) (w : Book) → IsWellFormed w → slice_get w.worksheets index ≡ Some sheet
        → LeadsBothWays (deletion_forward at (kept_of sheet w.names)) (deletion_back at index (kept_of sheet w.names)) w
        (without_sheet_at index (names_left sheet.id w.names) w) }
    ensures moved { (at from to : ℕ) (sheet : Sheet) (w : Book) → IsWellFormed w → slice_get w.worksheets from ≡ Some sheet → to < length w.worksheets
        → LeadsBothWays (sheet_moves at sheet.id from to) (sheet_moves at sheet.id to from) w
        (record w { worksheets = sheets_moved w.worksheets from to }) }
{}

/// A law about the list of sheets, with no work at run time: a well-formed workbook stays so where a
/// sheet with a free id and a free legal name comes, where one that is not the only one goes with its
/// names, and where one is taken to another index.
pub fn later_workbooks_are_well_formed()
    ensures new { (id index : ℕ) (name : List ℕ) (w : Book) → IsWellFormed w → index_of w id ≡ None → is_sheet_name name ≡ true
        → list_any (same_folded name) (names_of w.worksheets) ≡ false
        → IsWellFormed (with_sheet_at index (new_sheet id name) w.names w) }
    ensures copy { (id index from : ℕ) (name : List ℕ) (source : Sheet) (w : Book) → IsWellFormed w → slice_get w.worksheets from ≡ Some source
        → index_of w id ≡ None → is_sheet_name name ≡ true
        → list_any (same_folded name) (names_of w.worksheets) ≡ false
        → IsWellFormed (with_sheet_at index (sheet_as id name source) (names_copied source.id id w.names) w) }
    ensures deletion { (index : ℕ) (sheet : Sheet) (w : Book) → IsWellFormed w → slice_get w.worksheets index ≡ Some sheet → 1 < length w.worksheets
        → IsWellFormed (without_sheet_at index (names_left sheet.id w.names) w) }
    ensures moved { (from to : ℕ) (w : Book) → IsWellFormed w → IsWellFormed (record w { worksheets = sheets_moved w.worksheets from to }) }
{}
