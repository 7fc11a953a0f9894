use crate::back::restored_book;
use crate::edit::carried_with_lines;
use crate::followed::carried_book;
use crate::kept::KeptLines;
use base_axis::Axis;
use base_values::EditError;
use line_map::{Follower, LineMap, Route};
use sheet_grid::Workbook;
use std::alloc::Global;

/// A workbook as the map of its sheets by their ids.
#[derive(Drop)]
pub struct SheetsById {
    pub workbook: Workbook,
}

/// Each sheet is carried along by its own route.
impl<A: Axis> Follower<A> for SheetsById {
    ghost use Rattle.std.specs.Prelude.{Some};
    ghost use Rattle.sheet_lines.specs.Back.{book_restored};
    ghost use Rattle.sheet_lines.specs.Followed.{book_carried};
    ghost use Rattle.sheet_lines.specs.Kept.{lines_kept};
    ghost use Rattle.sheet_lines.specs.Workbooks.{SheetsInside, LinesFit};
    ghost use Rattle.sheet_lines.specs.laws.WorkbookLaws.{book_stays, kept_fits, book_restores};

    type Part = KeptLines;

    ghost Inside = { λ w sheets. SheetsInside w sheets.workbook };

    ghost carry_of = { λ w sheets. record { workbook = book_carried w sheets.workbook } };

    ghost part_of = { λ w sheets. Some (lines_kept w sheets.workbook) };

    ghost Fits = { LinesFit };

    ghost restore_of = { λ w sheets kept. record { workbook = book_restored w sheets.workbook kept } };

    fn carry<M: LineMap<A>>(
        &self,
        alloc: Global,
        route: &Route<'_, A, M>,
    ) -> Result<SheetsById, EditError> {
        let workbook = carried_book(alloc, route, &self.workbook)?;
        Ok(SheetsById { workbook })
    }

    fn part<M: LineMap<A>>(
        &self,
        alloc: Global,
        route: &Route<'_, A, M>,
    ) -> Result<Option<KeptLines>, EditError> {
        Ok(Some(carried_with_lines(alloc, route, &self.workbook)?.1))
    }

    fn carry_with_part<M: LineMap<A>>(
        &self,
        alloc: Global,
        route: &Route<'_, A, M>,
    ) -> Result<(SheetsById, Option<KeptLines>), EditError> {
        let (workbook, kept) = carried_with_lines(alloc, route, &self.workbook)?;
        Ok((SheetsById { workbook }, Some(kept)))
    }

    fn restore<M: LineMap<A>>(
        &self,
        alloc: Global,
        route: &Route<'_, A, M>,
        part: &KeptLines,
    ) -> Result<SheetsById, EditError> {
        let workbook = restored_book(alloc, route, &self.workbook, part)?;
        Ok(SheetsById { workbook })
    }

    ghost stays = { λ w is sheets. book_stays w is sheets.workbook };

    ghost part_fits = { λ w is sheets. kept_fits w is sheets.workbook };

    ghost comes_back = { λ w is sheets lie h. absurd (Prim.cc) };

    ghost restores = { λ w is sheets lie kept h i. record { workbook = book_restores w is sheets.workbook lie kept h i } };
}
