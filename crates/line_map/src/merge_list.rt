use crate::follower::Follower;
use base_axis::{Axis, MergeList};
use base_values::{EditError, copy_of};
use line_edits::LineMap;
use line_routes::{Route, carried_merges, merges_part};
use std::alloc::Global;

/// Of the merges of the edited sheet those that are left go with their lines.
impl<A: Axis> Follower<A> for MergeList {
    ghost use Rattle.line_routes.specs.Merges.{merges_carried, merges_part, MergesInside};
    ghost use Rattle.line_routes.specs.laws.MergeLaws.{merges_stay, merges_part_fits, merges_come_back, merges_restore};

    /// The merges, where the way back does not give them.
    type Part = MergeList;

    ghost Inside = { λ _. MergesInside };

    ghost carry_of = { merges_carried };

    ghost part_of = { merges_part };

    ghost Fits = { λ _. MergesInside };

    ghost restore_of = { λ _ _ part. part };

    fn carry<M: LineMap<A>>(
        &self,
        alloc: Global,
        route: &Route<'_, A, M>,
    ) -> Result<MergeList, EditError> {
        carried_merges(alloc, route, self)
    }

    fn part<M: LineMap<A>>(
        &self,
        alloc: Global,
        route: &Route<'_, A, M>,
    ) -> Result<Option<MergeList>, EditError> {
        merges_part(alloc, route, self)
    }

    fn restore<M: LineMap<A>>(
        &self,
        _alloc: Global,
        _route: &Route<'_, A, M>,
        part: &MergeList,
    ) -> Result<MergeList, EditError> {
        copy_of(part)
    }

    ghost stays = { merges_stay };

    ghost part_fits = { merges_part_fits };

    ghost comes_back = { λ w is v lies h. merges_come_back w v h };

    ghost restores = { λ w is v lies k h. merges_restore w v k h };
}
