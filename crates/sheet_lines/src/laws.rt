ghost use Rattle.std.specs.Prelude.{◌≡◌, ℕ, ℤ, List};
ghost use Rattle.std.specs.FinMap.{get};
ghost use Rattle.base_values.specs.declared.Position.{Position};
ghost use Rattle.format_rules.specs.declared.ConditionalFormatting.{ConditionalFormatting};
ghost use Rattle.line_edits.specs.Edit.{IsValid};
ghost use Rattle.line_edits.specs.Moves.{edit_moves};
ghost use Rattle.line_map.specs.Maps.{entry_lost};
ghost use Rattle.line_routes.specs.Merges.{merges_part};
ghost use Rattle.line_routes.specs.RouteModel.{place_goes};
ghost use Rattle.line_map.specs.Rules.{rules_kept, KeepsRule};
ghost use Rattle.sheet_grid.specs.Sheet.{Sheet};
ghost use Rattle.sheet_lines.specs.Back.{book_back};
ghost use Rattle.sheet_lines.specs.Entries.{CarriesCells, CarriesLines, CarriesLinks, KeepsTree, OfEdited, line_lost};
ghost use Rattle.sheet_lines.specs.Followed.{book_followed, route_of};
ghost use Rattle.sheet_lines.specs.Kept.{kept_lines};
ghost use Rattle.sheet_ids.specs.Ids.{HasDistinctIds};

use base_axis::Axis;
use line_map::LineEdit;
use sheet_grid::Workbook;

/// The law of line edits: going back with what was kept gives the workbook, each sheet, cell and
/// formula of it.
pub fn edit_and_back<A: Axis>(workbook: &Workbook, sheet_id: u32, edit: &LineEdit<A>)
    requires valid { IsValid A.along.last edit.now.kind }
    requires distinct { HasDistinctIds workbook.now }
    ensures { book_back A.along edit.now.kind sheet_id (kept_lines A.along edit.now.kind sheet_id workbook.now) (book_followed A.along edit.now.kind sheet_id workbook.now) ≡ workbook.now }
{
    // A law does no work.
    let _ = workbook;
    let _ = sheet_id;
    let _ = edit;
}

/// What a sheet has at each place and at each line afterwards, and what is kept of a workbook: the
/// cells, links and attributes of the edited sheet's lines without an image and no others, its merges
/// where the way back does not give them, just those of its conditional rules that the way back does
/// not give, and of each sheet the trees of just those other formulas that the way back does not give.
pub fn entries_of_sheets<A: Axis>(workbook: &Workbook, sheet_id: u32, edit: &LineEdit<A>)
    requires valid { IsValid A.along.last edit.now.kind }
    requires distinct { HasDistinctIds workbook.now }
    ensures cells { (edited : List ℕ) (sheet : Sheet) → CarriesCells (route_of A.along (edit_moves A.along.last edit.now.kind) sheet_id edited sheet) sheet }
    ensures links { (edited : List ℕ) (sheet : Sheet) → CarriesLinks (route_of A.along (edit_moves A.along.last edit.now.kind) sheet_id edited sheet) sheet }
    ensures lines { (edited : List ℕ) (sheet : Sheet) → CarriesLines (route_of A.along (edit_moves A.along.last edit.now.kind) sheet_id edited sheet) sheet }
    ensures lost_cells { OfEdited A.along edit.now.kind sheet_id workbook.now (λ w sheet kept. (p : Position) → get kept.cells p ≡ entry_lost (place_goes w) sheet.cells p) }
    ensures lost_links { OfEdited A.along edit.now.kind sheet_id workbook.now (λ w sheet kept. (p : Position) → get kept.links p ≡ entry_lost (place_goes w) sheet.links p) }
    ensures lost_lines { OfEdited A.along edit.now.kind sheet_id workbook.now (λ w sheet kept. (n : ℤ) → get kept.lines n ≡ line_lost w sheet n) }
    ensures merges { OfEdited A.along edit.now.kind sheet_id workbook.now (λ w sheet kept. kept.merges ≡ merges_part w sheet.merges) }
    ensures formattings { OfEdited A.along edit.now.kind sheet_id workbook.now (λ w sheet kept. kept.formattings ≡ rules_kept w sheet.formattings) }
    ensures kept_rules { OfEdited A.along edit.now.kind sheet_id workbook.now (λ w sheet kept. (index : ℕ) (rule : ConditionalFormatting) → KeepsRule w sheet.formattings kept.formattings index rule) }
    ensures trees { (id : ℕ) (p : Position) → KeepsTree A.along edit.now.kind sheet_id workbook.now id p }
{
    // A law does no work.
    let _ = workbook;
    let _ = sheet_id;
    let _ = edit;
}
