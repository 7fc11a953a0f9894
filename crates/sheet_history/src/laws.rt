ghost use Rattle.std.specs.Prelude.{◌≡◌, List, Ok};
ghost use Rattle.sheet_grid.specs.Book.{Book};
ghost use Rattle.sheet_rules.specs.WellFormed.{IsWellFormed};
ghost use Rattle.sheet_history.specs.declared.diff.Diff.{Diff};
ghost use Rattle.sheet_history.specs.Diffs.{book_before, book_after, untested_after, untested_before};
ghost use Rattle.sheet_history.specs.Records.{IsRecord, OfLineEdits, OfRecords, record_between};

/// A law about records, with no work at run time: two workbooks have one record at most.
pub fn records_are_unique()
    ensures { (earlier later : Book) (one two : List Diff) → IsRecord earlier later one → IsRecord earlier later two → one ≡ two }
{}

/// A law about records, with no work at run time: the record of two workbooks is what they differ
/// in, computed from both.
pub fn records_are_computed()
    ensures { (earlier later : Book) (list : List Diff) → IsRecord earlier later list → list ≡ record_between earlier later }
{}

/// A law about records, with no work at run time: the record of two well-formed workbooks that
/// differ in entries alone takes the earlier one to the later one, and the later one back, also
/// where the results are tested.
pub fn records_go_both_ways()
    ensures untested_after { OfRecords (λ list earlier later. untested_after earlier list ≡ Ok later) }
    ensures book_after { OfRecords (λ list earlier later. book_after earlier list ≡ Ok later) }
    ensures untested_before { OfRecords (λ list earlier later. untested_before later list ≡ Ok earlier) }
    ensures book_before { OfRecords (λ list earlier later. book_before later list ≡ Ok earlier) }
{}

/// A law about records of edits of lines, with no work at run time: the record makes the edit and
/// takes it back, also where the results are tested.
pub fn line_records_go_both_ways()
    ensures untested_after { OfLineEdits (λ list earlier later. untested_after earlier list ≡ Ok later) }
    ensures book_after { OfLineEdits (λ list earlier later. IsWellFormed later → book_after earlier list ≡ Ok later) }
    ensures untested_before { OfLineEdits (λ list earlier later. untested_before later list ≡ Ok earlier) }
    ensures book_before { OfLineEdits (λ list earlier later. book_before later list ≡ Ok earlier) }
{}
