ghost use Rattle.std.specs.Prelude.{◌≡◌, ◌==◌, IfOk, IfSome, IsOkUnless};
ghost use Rattle.std.specs.Bool.{then_some};
ghost use Rattle.std.specs.List.{AllByRecursion};
ghost use Rattle.base_values.specs.declared.EditError.TheVariants.{NoMemory};
ghost use Rattle.base_maps.specs.Carried.{lost_map};
ghost use Rattle.line_edits.specs.Edit.{IsValid};
ghost use Rattle.line_routes.specs.RouteModel.{place_goes, route_model};
ghost use Rattle.sheet_lines.specs.Followed.{route_on, sheet_followed, sheets_followed, book_carried, book_followed};
ghost use Rattle.sheet_lines.specs.Kept.{kept_of, first_kept, trees_kept, formulas_kept};
ghost use Rattle.sheet_lines.specs.Back.{AreCanonicalFormulas};
ghost use Rattle.sheet_lines.specs.Part.{part_carried};
ghost use Rattle.sheet_lines.specs.Parts.{parts};
ghost use Rattle.sheet_lines.specs.Sheets.{IsPlacedSheet, IsPlacedBook};
ghost use Rattle.sheet_lines.specs.Workbooks.{IsSoundSheet, LinesFit};

use crate::inside::{is_sound, places_inside};
use crate::kept::KeptLines;
use crate::part::{Carried, SheetPart};
use crate::parts::SheetParts;
use crate::sheets::{OnSheet, book_route, on_sheet};
use base_axis::Axis;
use base_maps::{PositionMap, SheetPlaceMap};
use base_shared::Shared;
use base_values::{EditError, Items};
use formula_tree::Node;
use line_map::{Follower, LineEdit, LineMap, Route, carried_with_kept};
use sheet_grid::{Cell, SheetEntries, Workbook, Worksheet};
use std::alloc::Global;

/// What is kept of a sheet, or of a workbook's sheets.
#[derive(Drop)]
pub(crate) struct Kept<T> {
    /// All but trees, of the edited sheet, if it is there.
    pub(crate) edited: Option<KeptLines>,
    /// The trees of the other formulas that do not come back, by what tells their cells.
    pub(crate) formulas: T,
}

/// A sheet along the way of the edited one: each part of it is carried along.
fn followed_sheet<A: Axis, M: LineMap<A>>(
    alloc: Global,
    route: &Route<'_, A, M>,
    sheet: &Worksheet,
) -> Result<Worksheet, EditError>
    requires { IsPlacedSheet sheet.now }
    ensures sheet { IfOk result (λ followed. followed ≡ sheet_followed (route_on (route_model route.now) sheet.now) sheet.now) }
    ensures only { IsOkUnless result NoMemory }
{
    let (on, cells) = (on_sheet(alloc, route, sheet), sheet.cell_map());
    // For the proof: what is inside.
    is_sound(sheet);
    places_inside(cells);
    let cells = cells.carry(alloc, &on.route)?;
    let entries = SheetEntries::of_cells(alloc, cells);
    let entries = <SheetParts as SheetPart<A, M>>::carry(&on, entries)?;
    sheet.with_entries(entries)
}

/// Entries with the parts of a sheet besides its cells, carried along, and, if it is the edited one,
/// what is kept of them and of its lost cells.
fn parts_with_kept<A: Axis, M: LineMap<A>>(
    on: &OnSheet<'_, A, M>,
    entries: SheetEntries,
    lost: PositionMap<Shared<Cell>>,
) -> Result<(SheetEntries, Option<KeptLines>), EditError>
    requires sound { IsSoundSheet on.now.sheet.now }
    requires lost { lost ≡ lost_map (place_goes (route_model on.now.route)) on.now.sheet.now.cells }
    ensures entries { IfOk result (λ both. both.0 ≡ part_carried parts (route_model on.now.route) on.now.sheet.now entries) }
    ensures kept { IfOk result (λ both. both.1 ≡ then_some on.now.route.is_edited (kept_of (route_model on.now.route) on.now.sheet.now)) }
    ensures only { IsOkUnless result NoMemory }
{
    if on.route.is_edited {
        let kept = KeptLines::of_cells(on.alloc, lost);
        let so_far = Carried { entries, kept };
        let carried = <SheetParts as SheetPart<A, M>>::carry_with_kept(on, so_far)?;
        Ok((carried.entries, Some(carried.kept)))
    } else {
        Ok((<SheetParts as SheetPart<A, M>>::carry(on, entries)?, None))
    }
}

/// A sheet along the way of the edited one, and what is kept of it, in one walk over its cells.
fn followed_and_kept<A: Axis, M: LineMap<A>>(
    alloc: Global,
    route: &Route<'_, A, M>,
    sheet: &Worksheet,
) -> Result<(Worksheet, Kept<PositionMap<Shared<Node>>>), EditError>
    requires { IsPlacedSheet sheet.now }
    ensures sheet { IfOk result (λ both. both.0 ≡ sheet_followed (route_on (route_model route.now) sheet.now) sheet.now) }
    ensures edited { IfOk result (λ both. both.1.edited ≡ then_some (sheet.now.id == (route_model route.now).sheet) (kept_of (route_on (route_model route.now) sheet.now) sheet.now)) }
    ensures fits { IfOk result (λ both. IfSome both.1.edited (LinesFit (route_model route.now))) }
    ensures trees { IfOk result (λ both. both.1.formulas ≡ trees_kept (route_model route.now) sheet.now) }
    ensures numbers { IfOk result (λ both. AreCanonicalFormulas both.1.formulas) }
    ensures only { IsOkUnless result NoMemory }
{
    let (on, cells) = (on_sheet(alloc, route, sheet), sheet.cell_map());
    // For the proof: the route is a way, and what is inside.
    route.is_route();
    is_sound(sheet);
    places_inside(cells);
    let (cells, kept) = carried_with_kept(alloc, &on.route, cells)?;
    let entries = SheetEntries::of_cells(alloc, cells);
    let (entries, edited) = parts_with_kept(&on, entries, kept.lost)?;
    let (followed, formulas) = (sheet.with_entries(entries)?, kept.parts);
    Ok((followed, Kept { edited, formulas }))
}

/// The sheets along the way of the edited one, and what is kept of them, in one walk over their
/// cells: of the first sheet with the edited id all but trees, and the trees of each sheet's formulas
/// that go somewhere and that the way back does not give, under the id of the sheet and their places
/// before.
pub(crate) fn followed_with_kept<A: Axis, M: LineMap<A>>(
    alloc: Global,
    route: &Route<'_, A, M>,
    sheets: &[Worksheet],
) -> Result<(Items<Worksheet>, Kept<SheetPlaceMap<Shared<Node>>>), EditError>
    requires { AllByRecursion IsPlacedSheet sheets.now }
    ensures sheets { IfOk result (λ both. both.0 ≡ sheets_followed (route_model route.now) sheets.now) }
    ensures edited { IfOk result (λ both. both.1.edited ≡ first_kept (route_model route.now) sheets.now) }
    ensures fits { IfOk result (λ both. IfSome both.1.edited (LinesFit (route_model route.now))) }
    ensures formulas { IfOk result (λ both. both.1.formulas ≡ formulas_kept (route_model route.now) sheets.now) }
    ensures numbers { IfOk result (λ both. AreCanonicalFormulas both.1.formulas) }
    ensures only { IsOkUnless result NoMemory }
{
    let (mut output, mut edited) = (Items::empty(alloc), None);
    let mut formulas = SheetPlaceMap::new(alloc);
    for sheet in sheets {
        let (followed, more) = followed_and_kept(alloc, route, sheet)?;
        formulas.put_under(sheet.get_sheet_id(), &more.formulas)?;
        edited = edited.or(more.edited);
        output.push(followed)?;
    }
    Ok((output, Kept { edited, formulas }))
}

fn followed_sheets<A: Axis, M: LineMap<A>>(
    alloc: Global,
    route: &Route<'_, A, M>,
    sheets: &[Worksheet],
) -> Result<Items<Worksheet>, EditError>
    requires { AllByRecursion IsPlacedSheet sheets.now }
    ensures sheets { IfOk result (λ followed. followed ≡ sheets_followed (route_model route.now) sheets.now) }
    ensures only { IsOkUnless result NoMemory }
{
    let mut output = Items::empty(alloc);
    for sheet in sheets {
        output.push(followed_sheet(alloc, route, sheet)?)?;
    }
    Ok(output)
}

/// The workbook along the way of the edited sheet.
pub(crate) fn carried_book<A: Axis, M: LineMap<A>>(
    alloc: Global,
    route: &Route<'_, A, M>,
    workbook: &Workbook,
) -> Result<Workbook, EditError>
    requires { IsPlacedBook workbook.now }
    ensures book { IfOk result (λ carried. carried ≡ book_carried (route_model route.now) workbook.now) }
    ensures only { IsOkUnless result NoMemory }
{
    let sheets = followed_sheets(alloc, route, workbook.worksheets())?;
    workbook.with_worksheets(sheets)
}

/// The workbook whose sheets follow an edit of the sheet of an id, as `line_edit` returns it. The
/// corners of its formulas are inside the sheet. `NoMemory` is the only error. docs/MODEL.md has
/// the rules.
pub fn followed_book<A: Axis>(
    alloc: Global,
    workbook: &Workbook,
    sheet_id: u32,
    edit: &LineEdit<A>,
) -> Result<Workbook, EditError>
    requires valid { IsValid A.along.last edit.now.kind }
    requires placed { IsPlacedBook workbook.now }
    ensures book { IfOk result (λ followed. followed ≡ book_followed A.along edit.now.kind sheet_id workbook.now) }
    ensures placed { IfOk result IsPlacedBook }
    ensures only { IsOkUnless result NoMemory }
{
    let opposite = edit.opposite();
    let route = book_route(workbook, sheet_id, edit, &opposite);
    // For the proof: the route goes one to one.
    route.is_route();
    carried_book(alloc, &route, workbook)
}
