ghost use Rattle.std.specs.Prelude.{◌≡◌, IfOk, IsOkUnless, IsTrue, is_some};
ghost use Rattle.std.specs.List.{AllByRecursion};
ghost use Rattle.base_values.specs.declared.EditError.TheVariants.{NoMemory};
ghost use Rattle.line_edits.specs.Edit.{IsValid};
ghost use Rattle.line_routes.specs.RouteModel.{route_model};
ghost use Rattle.sheet_lines.specs.Back.{AreCanonicalLines, KeptLinesInside, ArePlacedLines, sheet_back, sheets_back, book_back, book_restored};
ghost use Rattle.sheet_lines.specs.Followed.{route_on};
ghost use Rattle.sheet_ids.specs.Ids.{sheet_of};
ghost use Rattle.sheet_lines.specs.Sheets.{IsPlacedSheet, IsPlacedBook};

use crate::inside::{is_sound, places_inside};
use crate::kept::KeptLines;
use crate::part::SheetPart;
use crate::parts::SheetParts;
use crate::sheets::{book_route, on_sheet};
use base_axis::Axis;
use base_maps::{SheetPlace, SheetPlaceMap};
use base_shared::Shared;
use base_values::{EditError, Items, Position};
use formula_tree::Node;
use line_map::{LineEdit, LineMap, Nothing, Parts, Route, restored_map};
use sheet_grid::{SheetEntries, Workbook, Worksheet};
use std::alloc::Global;

/// The kept trees of the sheet of an id.
#[derive(Drop)]
struct SheetTrees<'k> {
    formulas: &'k SheetPlaceMap<Shared<Node>>,
    id: u32,
}

impl<'k> Parts<Position, Shared<Node>> for SheetTrees<'k> {
    ghost use Rattle.std.specs.FinMap.{get};
    ghost use Rattle.base_maps.specs.Tagged.{place_on};

    ghost part_at = { λ s place. get s.formulas.now (place_on s.id place) };

    fn part(&self, place: Position) -> Option<&Shared<Node>> {
        let sheet = self.id;
        self.formulas.get(SheetPlace { sheet, place })
    }
}

/// What has no parts.
#[derive(Drop)]
pub(crate) struct NoParts {}

impl<Q: Drop> Parts<Q, Nothing> for NoParts {
    ghost use Rattle.std.specs.Prelude.{None};

    ghost part_at = { λ _ _. None };

    fn part(&self, _key: Q) -> Option<&Nothing> {
        None
    }
}

/// A sheet taken back: each part of it is restored.
fn sheet_back<A: Axis, M: LineMap<A>>(
    alloc: Global,
    route: &Route<'_, A, M>,
    kept: &KeptLines,
    sheet: &Worksheet,
) -> Result<Worksheet, EditError>
    requires placed { IsPlacedSheet sheet.now }
    requires numbers { AreCanonicalLines kept.now }
    requires inside { KeptLinesInside A.along kept.now }
    ensures sheet { IfOk result (λ output. output ≡ sheet_back (route_on (route_model route.now) sheet.now) kept.now sheet.now) }
    ensures only { IsOkUnless result NoMemory }
{
    let on = on_sheet(alloc, route, sheet);
    let (formulas, id) = (&kept.formulas, sheet.get_sheet_id());
    let (trees, along) = (SheetTrees { formulas, id }, on.route.is_edited);
    let (lost, cells) = (&kept.cells, sheet.cell_map());
    // For the proof: what is inside.
    is_sound(sheet);
    places_inside(cells);
    let cells = restored_map(alloc, &on.route, along, lost, &trees, cells)?;
    let entries = SheetEntries::of_cells(alloc, cells);
    let entries = <SheetParts as SheetPart<A, M>>::restore(&on, kept, entries)?;
    sheet.with_entries(entries)
}

fn sheets_back<A: Axis, M: LineMap<A>>(
    alloc: Global,
    route: &Route<'_, A, M>,
    kept: &KeptLines,
    sheets: &[Worksheet],
) -> Result<Items<Worksheet>, EditError>
    requires placed { AllByRecursion IsPlacedSheet sheets.now }
    requires numbers { AreCanonicalLines kept.now }
    requires inside { KeptLinesInside A.along kept.now }
    ensures sheets { IfOk result (λ output. output ≡ sheets_back (route_model route.now) kept.now sheets.now) }
    ensures only { IsOkUnless result NoMemory }
{
    let mut output = Items::empty(alloc);
    for sheet in sheets {
        output.push(sheet_back(alloc, route, kept, sheet)?)?;
    }
    Ok(output)
}

/// The workbook before, from the one along the way of the edited sheet.
pub(crate) fn restored_book<A: Axis, M: LineMap<A>>(
    alloc: Global,
    route: &Route<'_, A, M>,
    workbook: &Workbook,
    kept: &KeptLines,
) -> Result<Workbook, EditError>
    requires placed { IsPlacedBook workbook.now }
    requires numbers { AreCanonicalLines kept.now }
    requires inside { KeptLinesInside A.along kept.now }
    ensures workbook { IfOk result (λ output. output ≡ book_restored (route_model route.now) workbook.now kept.now) }
    ensures only { IsOkUnless result NoMemory }
{
    let sheets = sheets_back(alloc, route, kept, workbook.worksheets())?;
    workbook.with_worksheets(sheets)
}

/// Takes back what `line_edit` did to the lines of the sheet of an id: each place of the sheet goes
/// back, each formula and each conditional rule follows or is the kept one, and the lost cells, links
/// and attributes are put back. The keys of what is kept, and the corners of the workbook's formulas,
/// are inside the sheet, and the workbook's merges and conditional rules are inside. A kept
/// conditional rule behind the last one of the sheet is left out. `NoMemory` is the only error.
/// docs/MODEL.md has the rules.
pub fn line_back<A: Axis>(
    alloc: Global,
    workbook: &Workbook,
    sheet_id: u32,
    edit: &LineEdit<A>,
    kept: &KeptLines,
) -> Result<Workbook, EditError>
    requires valid { IsValid A.along.last edit.now.kind }
    requires there { IsTrue (is_some (sheet_of workbook.now sheet_id)) }
    requires placed { IsPlacedBook workbook.now }
    requires numbers { AreCanonicalLines kept.now }
    requires inside { KeptLinesInside A.along kept.now }
    ensures workbook { IfOk result (λ output. output ≡ book_back A.along edit.now.kind sheet_id kept.now workbook.now) }
    ensures placed { ArePlacedLines kept.now → IfOk result IsPlacedBook }
    ensures only { IsOkUnless result NoMemory }
{
    let opposite = edit.opposite();
    let route = book_route(workbook, sheet_id, edit, &opposite);
    // For the proof: the route goes one to one.
    route.is_route();
    restored_book(alloc, &route, workbook, kept)
}
