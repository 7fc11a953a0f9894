ghost use Rattle.std.specs.Prelude.{◌≡◌, ℕ, true, IfSome};
ghost use Rattle.base_values.specs.declared.Position.{Position};
ghost use Rattle.line_edits.specs.Edit.{IsValid};
ghost use Rattle.sheet_lines.specs.Followed.{book_followed, book_route};
ghost use Rattle.sheet_lines.specs.Back.{book_back};
ghost use Rattle.sheet_lines.specs.Kept.{kept_lines};
ghost use Rattle.sheet_rules.specs.WellFormed.{IsWellFormed};
ghost use Rattle.line_laws.specs.Ranges.{is_insertion_or_deletion};
ghost use Rattle.sheet_actions.specs.Formulas.{KeepsExactly, RangesDenote, surviving, tree_at_place};
ghost use Rattle.sheet_actions.specs.Whole.{IsAllowed};

use base_axis::Axis;
use line_map::LineEdit;
use sheet_grid::Workbook;
use sheet_lines::edit_and_back;

/// The law of line edits: a well-formed workbook stays well-formed where an edit leaves arrays and
/// merges whole, as each does that a plan allows; and going back with what was kept gives it, no
/// matter what lies on lines that are lost.
pub fn edit_keeps_rules<A: Axis>(workbook: &Workbook, sheet_id: u32, edit: &LineEdit<A>)
    requires valid { IsValid A.along.last edit.now.kind }
    requires rules { IsWellFormed workbook.now }
    requires allowed { IsAllowed A.along edit.now.kind sheet_id workbook.now }
    ensures rules { IsWellFormed (book_followed A.along edit.now.kind sheet_id workbook.now) }
    ensures back { book_back A.along edit.now.kind sheet_id (kept_lines A.along edit.now.kind sheet_id workbook.now) (book_followed A.along edit.now.kind sheet_id workbook.now) ≡ workbook.now }
{
    // A law does no work: this cites the law below it.
    edit_and_back(workbook, sheet_id, edit);
}

/// Which formulas an edit of lines keeps, in a well-formed workbook: exactly each whose cell survives
/// and that has to be kept, as one of its corners on the edited sheet has no image, or one of its ranges
/// on that sheet becomes whole along the axis. Of a move only the latter (`moves_keep_whole_ranges`).
/// docs/MODEL.md has the rules.
pub fn formulas_are_kept<A: Axis>(workbook: &Workbook, sheet_id: u32, edit: &LineEdit<A>)
    requires valid { IsValid A.along.last edit.now.kind }
    requires rules { IsWellFormed workbook.now }
    ensures kept { (n : ℕ) (p : Position) → KeepsExactly (book_route A.along edit.now.kind sheet_id workbook.now) workbook.now n p }
{
    // A law does no work.
    let _ = workbook;
    let _ = sheet_id;
    let _ = edit;
}

/// What the ranges of surviving formulas denote after an insertion or a deletion of lines: each that is
/// on the edited sheet and isn't whole along the axis, and whose corners survive, the least rectangle
/// that holds the images of its surviving places. docs/MODEL.md has the rules.
pub fn ranges_denote<A: Axis>(workbook: &Workbook, sheet_id: u32, edit: &LineEdit<A>)
    requires valid { IsValid A.along.last edit.now.kind }
    requires kind { is_insertion_or_deletion edit.now.kind ≡ true }
    ensures ranges { (n : ℕ) (p : Position) → IfSome (surviving (book_route A.along edit.now.kind sheet_id workbook.now) workbook.now n p) (λ s. RangesDenote s.0 s.1 (tree_at_place (book_followed A.along edit.now.kind sheet_id workbook.now) n s.0.to)) }
{
    // A law does no work.
    let _ = workbook;
    let _ = sheet_id;
    let _ = edit;
}
