use crate::follower::Follower;
use base_axis::Axis;
use base_shared::Shared;
use base_values::{EditError, copy_of};
use formula_tree::Node;
use line_edits::LineMap;
use line_routes::{Route, TreeAt, carried_tree, carried_tree_at, tree_at_part, tree_part};
use std::alloc::Global;

/// A formula's tree follows with its cell. One that stays the same is shared.
impl<A: Axis> Follower<A> for Shared<Node> {
    ghost use Rattle.std.specs.Prelude.{⊤};
    ghost use Rattle.line_routes.specs.Trees.{TreeInside, tree_carried, tree_part};
    ghost use Rattle.line_routes.specs.laws.TreeLaws.{tree_stays, tree_comes_back, tree_restores};

    type Part = Shared<Node>;

    ghost Inside = { TreeInside };

    ghost carry_of = { tree_carried };

    ghost part_of = { tree_part };

    ghost Fits = { λ _ _. ⊤ };

    ghost restore_of = { λ _ _ part. part };

    fn carry<M: LineMap<A>>(
        &self,
        alloc: Global,
        route: &Route<'_, A, M>,
    ) -> Result<Shared<Node>, EditError> {
        carried_tree(alloc, route, self)
    }

    fn part<M: LineMap<A>>(
        &self,
        _alloc: Global,
        route: &Route<'_, A, M>,
    ) -> Result<Option<Shared<Node>>, EditError> {
        tree_part(route, self)
    }

    fn restore<M: LineMap<A>>(
        &self,
        _alloc: Global,
        _route: &Route<'_, A, M>,
        part: &Shared<Node>,
    ) -> Result<Shared<Node>, EditError> {
        copy_of(part)
    }

    ghost stays = { λ w is v lies. tree_stays w is v };

    ghost part_fits = { λ w is v lies k kept. tt };

    ghost comes_back = { λ w is v lies h. tree_comes_back w v h };

    ghost restores = { λ w is v lies k h. tree_restores w v k h };
}

/// A tree with its own place and names is carried along on its sheet. It stays whole where its cell
/// goes nowhere.
impl<A: Axis> Follower<A> for TreeAt {
    ghost use Rattle.std.specs.Prelude.{⊤};
    ghost use Rattle.line_routes.specs.TreeAt.{TreeAtInside, tree_at_carried, tree_at_part};
    ghost use Rattle.line_routes.specs.laws.TreeAtLaws.{tree_at_stays, tree_at_comes_back, tree_at_restores};

    /// The tree, where the way back does not give it.
    type Part = TreeAt;

    ghost Inside = { λ _. TreeAtInside };

    ghost carry_of = { tree_at_carried };

    ghost part_of = { tree_at_part };

    ghost Fits = { λ _ _. ⊤ };

    ghost restore_of = { λ _ _ part. part };

    fn carry<M: LineMap<A>>(
        &self,
        alloc: Global,
        route: &Route<'_, A, M>,
    ) -> Result<TreeAt, EditError> {
        carried_tree_at(alloc, route, self)
    }

    fn part<M: LineMap<A>>(
        &self,
        _alloc: Global,
        route: &Route<'_, A, M>,
    ) -> Result<Option<TreeAt>, EditError> {
        tree_at_part(route, self)
    }

    fn restore<M: LineMap<A>>(
        &self,
        _alloc: Global,
        _route: &Route<'_, A, M>,
        part: &TreeAt,
    ) -> Result<TreeAt, EditError> {
        copy_of(part)
    }

    ghost stays = { tree_at_stays };

    ghost part_fits = { λ w is v lies k kept. tt };

    ghost comes_back = { λ w is v lies h. tree_at_comes_back w v h };

    ghost restores = { λ w is v lies k h. tree_at_restores w v k h };
}
