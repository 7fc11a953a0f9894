use crate::follower::Follower;
use base_axis::{Axis, MergedCell};
use base_values::EditError;
use line_edits::LineMap;
use line_routes::{Route, carried_rectangle, rectangle_part};
use std::alloc::Global;

/// A rectangle is carried along by its corners.
impl<A: Axis> Follower<A> for MergedCell {
    ghost use Rattle.std.specs.Prelude.{⊤};
    ghost use Rattle.base_axis.specs.Rectangles.{IsInside};
    ghost use Rattle.line_routes.specs.MergedCells.{merged_cell_carried, merged_cell_part};
    ghost use Rattle.line_routes.specs.laws.MergedCellLaws.{merged_cell_stays, merged_cell_comes_back, merged_cell_restores};

    /// The rectangle, where the way back does not give it.
    type Part = MergedCell;

    ghost Inside = { λ _. IsInside };

    ghost carry_of = { merged_cell_carried };

    ghost part_of = { merged_cell_part };

    ghost Fits = { λ _ _. ⊤ };

    ghost restore_of = { λ _ _ part. part };

    fn carry<M: LineMap<A>>(
        &self,
        _alloc: Global,
        route: &Route<'_, A, M>,
    ) -> Result<MergedCell, EditError> {
        Ok(carried_rectangle(route, *self))
    }

    fn part<M: LineMap<A>>(
        &self,
        _alloc: Global,
        route: &Route<'_, A, M>,
    ) -> Result<Option<MergedCell>, EditError> {
        Ok(rectangle_part(route, *self))
    }

    fn restore<M: LineMap<A>>(
        &self,
        _alloc: Global,
        _route: &Route<'_, A, M>,
        part: &MergedCell,
    ) -> Result<MergedCell, EditError> {
        Ok(*part)
    }

    ghost stays = { merged_cell_stays };

    ghost part_fits = { λ w is v lies k kept. tt };

    ghost comes_back = { λ w is v lies h. merged_cell_comes_back w v h };

    ghost restores = { λ w is v lies k h. merged_cell_restores w v k h };
}
