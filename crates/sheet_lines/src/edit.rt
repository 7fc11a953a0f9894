ghost use Rattle.std.specs.Prelude.{◌≡◌, IfOk, IsOkUnless, IsTrue, is_some};
ghost use Rattle.base_values.specs.declared.EditError.TheVariants.{NoMemory};
ghost use Rattle.line_edits.specs.Edit.{IsValid};
ghost use Rattle.line_routes.specs.RouteModel.{route_model};
ghost use Rattle.sheet_lines.specs.Back.{AreCanonicalLines, KeptLinesInside};
ghost use Rattle.sheet_lines.specs.Followed.{book_carried, book_followed};
ghost use Rattle.sheet_lines.specs.Kept.{kept_lines, lines_kept};
ghost use Rattle.sheet_ids.specs.Ids.{sheet_of};
ghost use Rattle.sheet_lines.specs.Sheets.{IsPlacedBook};

use crate::followed::followed_with_kept;
use crate::kept::KeptLines;
use crate::sheets::book_route;
use base_axis::Axis;
use base_values::EditError;
use line_map::{LineEdit, LineMap, Route};
use sheet_grid::Workbook;
use std::alloc::Global;

/// The workbook along the way of the edited sheet, and what the way back does not give.
pub(crate) fn carried_with_lines<A: Axis, M: LineMap<A>>(
    alloc: Global,
    route: &Route<'_, A, M>,
    workbook: &Workbook,
) -> Result<(Workbook, KeptLines), EditError>
    requires there { IsTrue (is_some (sheet_of workbook.now (route_model route.now).sheet)) }
    requires placed { IsPlacedBook workbook.now }
    ensures workbook { IfOk result (λ both. both.0 ≡ book_carried (route_model route.now) workbook.now) }
    ensures kept { IfOk result (λ both. both.1 ≡ lines_kept (route_model route.now) workbook.now) }
    ensures numbers { IfOk result (λ both. AreCanonicalLines both.1) }
    ensures inside { IfOk result (λ both. KeptLinesInside A.along both.1) }
    ensures only { IsOkUnless result NoMemory }
{
    let (sheets, kept) = followed_with_kept(alloc, route, workbook.worksheets())?;
    let carried = workbook.with_worksheets(sheets)?;
    let (edited, formulas) = (kept.edited.unwrap(), kept.formulas);
    let kept = KeptLines { formulas, ..edited };
    Ok((carried, kept))
}

/// Inserts, deletes or moves lines of the sheet of an id. Its cells, links, attributes, merges and
/// conditional rules go where their lines go, the formulas of all sheets follow, and all else stays.
/// Returns the workbook, and what taking the lines back does not give (`line_back`). The corners of
/// the workbook's formulas are inside the sheet, and its merges and conditional rules are inside.
/// `NoMemory` is the only error. docs/MODEL.md has the rules.
pub fn line_edit<A: Axis>(
    alloc: Global,
    workbook: &Workbook,
    sheet_id: u32,
    edit: &LineEdit<A>,
) -> Result<(Workbook, KeptLines), EditError>
    requires valid { IsValid A.along.last edit.now.kind }
    requires there { IsTrue (is_some (sheet_of workbook.now sheet_id)) }
    requires placed { IsPlacedBook workbook.now }
    ensures workbook { IfOk result (λ output. output.0 ≡ book_followed A.along edit.now.kind sheet_id workbook.now) }
    ensures placed { IfOk result (λ output. IsPlacedBook output.0) }
    ensures kept { IfOk result (λ output. output.1 ≡ kept_lines A.along edit.now.kind sheet_id workbook.now) }
    ensures numbers { IfOk result (λ output. AreCanonicalLines output.1) }
    ensures inside { IfOk result (λ output. KeptLinesInside A.along output.1) }
    ensures only { IsOkUnless result NoMemory }
{
    let opposite = edit.opposite();
    let route = book_route(workbook, sheet_id, edit, &opposite);
    // For the proof: the route goes one to one.
    route.is_route();
    carried_with_lines(alloc, &route, workbook)
}
