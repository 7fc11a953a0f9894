use crate::follower::{Follower, regained};
use base_axis::Axis;
use base_values::{EditError, Items};
use line_edits::LineMap;
use line_routes::Route;
use std::alloc::Global;

/// Each item of a list is carried along.
impl<A: Axis, F: Follower<A>> Follower<A> for Items<F> {
    ghost use Rattle.std.specs.Prelude.{map, Some, IfSome};
    ghost use Rattle.std.specs.List.{All};
    ghost use Rattle.line_map.specs.Lists.{items_restored};
    ghost use Rattle.line_routes.specs.RouteModel.{back};
    ghost use Rattle.line_map.specs.laws.ListLaws.{items_stay, parts_fit, items_restore};

    /// The part of each item.
    type Part = Items<Option<F::Part>>;

    ghost Inside = { λ w. All (F.Inside w) };

    ghost carry_of = { λ w. map (F.carry_of w) };

    ghost part_of = { λ w xs. Some (map (F.part_of w) xs) };

    ghost Fits = { λ w. All (λ part. IfSome part (F.Fits w)) };

    ghost restore_of = { λ w. items_restored (F.carry_of (back w)) (F.restore_of w) };

    fn carry<M: LineMap<A>>(
        &self,
        alloc: Global,
        route: &Route<'_, A, M>,
    ) -> Result<Items<F>, EditError> {
        let mut output = Items::empty(alloc);
        for item in self.as_slice() {
            output.push(item.carry(alloc, route)?)?;
        }
        Ok(output)
    }

    fn part<M: LineMap<A>>(
        &self,
        alloc: Global,
        route: &Route<'_, A, M>,
    ) -> Result<Option<Items<Option<F::Part>>>, EditError> {
        let mut output = Items::empty(alloc);
        for item in self.as_slice() {
            output.push(item.part(alloc, route)?)?;
        }
        Ok(Some(output))
    }

    fn restore<M: LineMap<A>>(
        &self,
        alloc: Global,
        route: &Route<'_, A, M>,
        part: &Items<Option<F::Part>>,
    ) -> Result<Items<F>, EditError> {
        let mut output = Items::empty(alloc);
        let (items, parts) = (self.as_slice(), part.as_slice());
        let both = items.len().min(parts.len());
        for i in 0..both {
            output.push(regained(alloc, route, &items[i], parts[i].as_ref())?)?;
        }
        Ok(output)
    }

    ghost stays = { λ w is. items_stay (F.Inside w) (F.Inside (back w)) (F.carry_of w) (F.stays w is) };

    ghost part_fits = { λ w is xs lie ks h. parts_fit (F.Inside w) (F.part_of w) (F.Fits w) (F.part_fits w is) xs lie ks h };

    ghost comes_back = { λ w is xs lie h. absurd (Prim.cc) };

    ghost restores = { λ w is xs lie ks h. items_restore (F.Inside w) (F.carry_of w) (F.carry_of (back w)) (F.restore_of w) (F.part_of w) (F.comes_back w is) (F.restores w is) xs lie ks h };
}
