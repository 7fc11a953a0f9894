ghost use Rattle.std.specs.Prelude.{◌≡◌, true, IfOk, IsOkUnless};
ghost use Rattle.base_values.specs.declared.EditError.TheVariants.{NoMemory};
ghost use Rattle.line_routes.specs.RouteModel.{route_model};
ghost use Rattle.sheet_lines.specs.Back.{AreCanonicalLines, KeptLinesInside};
ghost use Rattle.sheet_lines.specs.Part.{Part, joined, part_carried, part_kept, part_restored};
ghost use Rattle.sheet_lines.specs.Workbooks.{IsSoundSheet};

use crate::kept::KeptLines;
use crate::sheets::OnSheet;
use base_axis::Axis;
use base_values::EditError;
use line_map::LineMap;
use sheet_grid::SheetEntries;

/// The edited sheet carried along, as far as it is: what it holds, and what is kept of it.
#[derive(Drop)]
pub(crate) struct Carried {
    pub(crate) entries: SheetEntries,
    pub(crate) kept: KeptLines,
}

/// A part of a sheet that goes along with its lines. `NoMemory` is the only error of each call.
pub(crate) trait SheetPart<A: Axis, M: LineMap<A>> {
    ghost part: { Part };

    /// Entries with this part of a sheet, carried along.
    fn carry(on: &OnSheet<'_, A, M>, entries: SheetEntries) -> Result<SheetEntries, EditError>
        requires { IsSoundSheet on.now.sheet.now }
        ensures entries { IfOk result (λ output. output ≡ part_carried part (route_model on.now.route) on.now.sheet.now entries) }
        ensures only { IsOkUnless result NoMemory };

    /// With this part of the edited sheet, carried along, and what is kept of it.
    fn carry_with_kept(on: &OnSheet<'_, A, M>, so_far: Carried) -> Result<Carried, EditError>
        requires sound { IsSoundSheet on.now.sheet.now }
        requires edited { on.now.route.is_edited ≡ true }
        ensures entries { IfOk result (λ carried. carried.entries ≡ part_carried part (route_model on.now.route) on.now.sheet.now so_far.entries) }
        ensures kept { IfOk result (λ carried. carried.kept ≡ part_kept part (route_model on.now.route) on.now.sheet.now so_far.kept) }
        ensures only { IsOkUnless result NoMemory };

    /// Entries with this part of a sheet that was carried along, taken back.
    fn restore(
        on: &OnSheet<'_, A, M>,
        kept: &KeptLines,
        entries: SheetEntries,
    ) -> Result<SheetEntries, EditError>
        requires sound { IsSoundSheet on.now.sheet.now }
        requires numbers { AreCanonicalLines kept.now }
        requires inside { KeptLinesInside A.along kept.now }
        ensures entries { IfOk result (λ output. output ≡ part_restored part (route_model on.now.route) kept.now on.now.sheet.now entries) }
        ensures only { IsOkUnless result NoMemory };
}

/// Two parts, one after the other.
impl<A: Axis, M: LineMap<A>, P: SheetPart<A, M>, Q: SheetPart<A, M>> SheetPart<A, M> for (P, Q) {
    ghost part = { joined P.part Q.part };

    fn carry(on: &OnSheet<'_, A, M>, entries: SheetEntries) -> Result<SheetEntries, EditError> {
        let entries = P::carry(on, entries)?;
        Q::carry(on, entries)
    }

    fn carry_with_kept(on: &OnSheet<'_, A, M>, so_far: Carried) -> Result<Carried, EditError> {
        let so_far = P::carry_with_kept(on, so_far)?;
        Q::carry_with_kept(on, so_far)
    }

    fn restore(
        on: &OnSheet<'_, A, M>,
        kept: &KeptLines,
        entries: SheetEntries,
    ) -> Result<SheetEntries, EditError> {
        let entries = P::restore(on, kept, entries)?;
        Q::restore(on, kept, entries)
    }
}
