//! The parts of a sheet that go along with its lines, besides its cells.

ghost use Rattle.std.specs.Prelude.{◌≡◌, IfOk, IsOkUnless};
ghost use Rattle.base_values.specs.declared.EditError.TheVariants.{NoMemory};
ghost use Rattle.base_maps.specs.Carried.{lost_map};
ghost use Rattle.line_map.specs.Attributes.{LinesInside, line_goes, lines_carried, lines_restored};
ghost use Rattle.line_routes.specs.RouteModel.{route_model};
ghost use Rattle.sheet_grid.specs.contracts.line_attr.LineAttrPartialEq.TheImpl as attribute;

use crate::back::NoParts;
use crate::inside::places_inside;
use crate::kept::KeptLines;
use crate::part::{Carried, SheetPart};
use crate::sheets::OnSheet;
use base_axis::{Axis, AxisMap};
use base_maps::NumberMap;
use base_values::{EditError, copy_of};
use line_map::{
    Follower, LineMap, carried_rules, carried_with_kept, goes_along, kept_rules, regained,
    restored_map, restored_rules,
};
use sheet_grid::{LineAttr, SheetEntries};

/// The parts. A further one joins by its implementation and its place here and in the definition.
pub(crate) type SheetParts = (Links, (Lines, (Merges, Rules)));

/// The links.
pub(crate) struct Links;

impl<A: Axis, M: LineMap<A>> SheetPart<A, M> for Links {
    ghost use Rattle.sheet_lines.specs.Parts.{part_of_links};

    ghost part = { part_of_links };

    fn carry(on: &OnSheet<'_, A, M>, entries: SheetEntries) -> Result<SheetEntries, EditError> {
        let links = on.sheet.link_map().carry(on.alloc, &on.route)?;
        Ok(SheetEntries { links, ..entries })
    }

    fn carry_with_kept(on: &OnSheet<'_, A, M>, mut so_far: Carried) -> Result<Carried, EditError> {
        let (links, more) = carried_with_kept(on.alloc, &on.route, on.sheet.link_map())?;
        (so_far.entries.links, so_far.kept.links) = (links, more.lost);
        Ok(so_far)
    }

    fn restore(
        on: &OnSheet<'_, A, M>,
        kept: &KeptLines,
        entries: SheetEntries,
    ) -> Result<SheetEntries, EditError> {
        let (lost, links) = (&kept.links, on.sheet.link_map());
        let along = on.route.is_edited;
        let links = restored_map(on.alloc, &on.route, along, lost, &NoParts {}, links)?;
        Ok(SheetEntries { links, ..entries })
    }
}

/// What the lines of an axis have, carried along, and what those of them had that go nowhere.
fn lines_with_lost<A: Axis, B: Axis, M: LineMap<A>>(
    on: &OnSheet<'_, A, M>,
    lines: &AxisMap<B, LineAttr>,
) -> Result<(AxisMap<B, LineAttr>, NumberMap<LineAttr>), EditError>
    requires { LinesInside B.along lines.now }
    ensures lines { IfOk result (λ both. both.0 ≡ lines_carried B.along attribute.ghosts.eq (route_model on.now.route) lines.now) }
    ensures lost { IfOk result (λ both. both.1 ≡ lost_map (line_goes B.along (route_model on.now.route)) lines.now) }
    ensures only { IsOkUnless result NoMemory }
{
    on.route.is_route(); // for the proof
    let (lines, kept) = carried_with_kept(on.alloc, &on.route, lines)?;
    Ok((lines, kept.lost))
}

/// What the lines of an axis have, taken back on the edited axis of the edited sheet.
fn lines_back<A: Axis, B: Axis, M: LineMap<A>>(
    on: &OnSheet<'_, A, M>,
    kept: &KeptLines,
    lines: &AxisMap<B, LineAttr>,
) -> Result<AxisMap<B, LineAttr>, EditError>
    requires lie { LinesInside B.along lines.now }
    requires inside { LinesInside A.along kept.now.lines }
    ensures lines { IfOk result (λ output. output ≡ lines_restored B.along (route_model on.now.route) lines.now kept.now.lines) }
    ensures only { IsOkUnless result NoMemory }
{
    on.route.is_route(); // for the proof
    let along = goes_along::<A, B, M>(&on.route);
    restored_map(on.alloc, &on.route, along, &kept.lines, &NoParts {}, lines)
}

/// What rows and columns have of their own.
pub(crate) struct Lines;

impl<A: Axis, M: LineMap<A>> SheetPart<A, M> for Lines {
    ghost use Rattle.sheet_lines.specs.Parts.{part_of_lines};

    ghost part = { part_of_lines };

    fn carry(on: &OnSheet<'_, A, M>, mut entries: SheetEntries) -> Result<SheetEntries, EditError> {
        let (rows, columns) = (on.sheet.row_map(), on.sheet.column_map());
        // For the proof: what is inside.
        places_inside(rows);
        places_inside(columns);
        entries.rows = rows.carry(on.alloc, &on.route)?;
        entries.columns = columns.carry(on.alloc, &on.route)?;
        Ok(entries)
    }

    fn carry_with_kept(on: &OnSheet<'_, A, M>, mut so_far: Carried) -> Result<Carried, EditError> {
        let (rows, of_rows) = lines_with_lost(on, on.sheet.row_map())?;
        let (columns, of_columns) = lines_with_lost(on, on.sheet.column_map())?;
        (so_far.entries.rows, so_far.entries.columns) = (rows, columns);
        let is_rows = A::of(true, false);
        so_far.kept.lines = if is_rows { of_rows } else { of_columns };
        Ok(so_far)
    }

    fn restore(
        on: &OnSheet<'_, A, M>,
        kept: &KeptLines,
        mut entries: SheetEntries,
    ) -> Result<SheetEntries, EditError> {
        entries.rows = lines_back(on, kept, on.sheet.row_map())?;
        entries.columns = lines_back(on, kept, on.sheet.column_map())?;
        Ok(entries)
    }
}

/// The merges.
pub(crate) struct Merges;

impl<A: Axis, M: LineMap<A>> SheetPart<A, M> for Merges {
    ghost use Rattle.sheet_lines.specs.Parts.{part_of_merges};

    ghost part = { part_of_merges };

    fn carry(on: &OnSheet<'_, A, M>, entries: SheetEntries) -> Result<SheetEntries, EditError> {
        let merges = on.sheet.merge_list().carry(on.alloc, &on.route)?;
        Ok(SheetEntries { merges, ..entries })
    }

    fn carry_with_kept(on: &OnSheet<'_, A, M>, mut so_far: Carried) -> Result<Carried, EditError> {
        let (merges, part) = on.sheet.merge_list().carry_with_part(on.alloc, &on.route)?;
        (so_far.entries.merges, so_far.kept.merges) = (merges, part);
        Ok(so_far)
    }

    fn restore(
        on: &OnSheet<'_, A, M>,
        kept: &KeptLines,
        entries: SheetEntries,
    ) -> Result<SheetEntries, EditError> {
        let edited = on.route.is_edited;
        let part = if edited { kept.merges.as_ref() } else { None };
        let merges = regained(on.alloc, &on.route, on.sheet.merge_list(), part)?;
        Ok(SheetEntries { merges, ..entries })
    }
}

/// The conditional rules.
pub(crate) struct Rules;

impl<A: Axis, M: LineMap<A>> SheetPart<A, M> for Rules {
    ghost use Rattle.sheet_lines.specs.Parts.{part_of_rules};

    ghost part = { part_of_rules };

    fn carry(on: &OnSheet<'_, A, M>, mut entries: SheetEntries) -> Result<SheetEntries, EditError> {
        let rules = on.sheet.conditional_formatting();
        entries.formattings = carried_rules(on.alloc, &on.route, rules)?;
        Ok(entries)
    }

    fn carry_with_kept(on: &OnSheet<'_, A, M>, mut so_far: Carried) -> Result<Carried, EditError> {
        let rules = on.sheet.conditional_formatting();
        so_far.entries.formattings = carried_rules(on.alloc, &on.route, rules)?;
        so_far.kept.formattings = kept_rules(on.alloc, &on.route, rules)?;
        Ok(so_far)
    }

    fn restore(
        on: &OnSheet<'_, A, M>,
        kept: &KeptLines,
        mut entries: SheetEntries,
    ) -> Result<SheetEntries, EditError> {
        let rules = on.sheet.conditional_formatting();
        entries.formattings = if on.route.is_edited {
            restored_rules(on.alloc, &on.route, rules, &kept.formattings)?
        } else {
            copy_of(rules)?
        };
        Ok(entries)
    }
}
