ghost use Rattle.std.specs.Prelude.{◌≡◌, IfOk, IfSome, IsOkUnless, None, Option, Some};
ghost use Rattle.std.specs.Option.{option_copied};
ghost use Rattle.base_maps.specs.Carried.{settled};
ghost use Rattle.base_values.specs.declared.EditError.TheVariants.{NoMemory};
ghost use Rattle.line_routes.specs.RouteModel.{RouteModel, IsRoute, back, route_model};

use base_axis::Axis;
use base_values::EditError;
use line_edits::LineMap;
use line_routes::Route;
use std::alloc::Global;

/// What is carried along a map on lines. Each call asks that the value is inside the sheet, and
/// `NoMemory` is its only error. docs/MODEL.md has the rules.
pub trait Follower<A: Axis>: Drop {
    /// What is kept of a value that the way back does not give.
    type Part: Drop;

    /// It is inside the sheet.
    ghost Inside: { RouteModel → Self → Type 0 };

    ghost carry_of: { RouteModel → Self → Self };

    ghost part_of: { RouteModel → Self → Option Self.Part };

    /// What is laid over a value is inside the sheet.
    ghost Fits: { RouteModel → Self.Part → Type 0 };

    ghost restore_of: { RouteModel → Self → Self.Part → Self };

    /// The value carried along a route.
    fn carry<M: LineMap<A>>(
        &self,
        alloc: Global,
        route: &Route<'_, A, M>,
    ) -> Result<Self, EditError>
        requires { Inside (route_model route.now) self.now }
        ensures value { IfOk result (λ value. value ≡ carry_of (route_model route.now) self.now) }
        ensures only { IsOkUnless result NoMemory };

    /// What has to be kept of the value. `None` where the way back gives it.
    fn part<M: LineMap<A>>(
        &self,
        alloc: Global,
        route: &Route<'_, A, M>,
    ) -> Result<Option<Self::Part>, EditError>
        requires { Inside (route_model route.now) self.now }
        ensures part { IfOk result (λ part. part ≡ part_of (route_model route.now) self.now) }
        ensures only { IsOkUnless result NoMemory };

    /// The value carried along a route, and what has to be kept of it.
    fn carry_with_part<M: LineMap<A>>(
        &self,
        alloc: Global,
        route: &Route<'_, A, M>,
    ) -> Result<(Self, Option<Self::Part>), EditError>
        requires { Inside (route_model route.now) self.now }
        ensures value { IfOk result (λ both. both.0 ≡ carry_of (route_model route.now) self.now) }
        ensures part { IfOk result (λ both. both.1 ≡ part_of (route_model route.now) self.now) }
        ensures only { IsOkUnless result NoMemory }
    {
        let value = self.carry(alloc, route)?;
        let part = self.part(alloc, route)?;
        Ok((value, part))
    }

    /// The value before, from the one that was carried along the route and from its part.
    fn restore<M: LineMap<A>>(
        &self,
        alloc: Global,
        route: &Route<'_, A, M>,
        part: &Self::Part,
    ) -> Result<Self, EditError>
        requires lies { Inside (back (route_model route.now)) self.now }
        requires fits { Fits (route_model route.now) part.now }
        ensures value { IfOk result (λ value. value ≡ restore_of (route_model route.now) self.now part.now) }
        ensures only { IsOkUnless result NoMemory };

    /// What is carried along is inside.
    ghost stays: { (w : RouteModel) → IsRoute w → (v : Self) → Inside w v → Inside (back w) (carry_of w v) };

    /// What is kept is inside too.
    ghost part_fits: { (w : RouteModel) → IsRoute w → (v : Self) → Inside w v → (k : Self.Part) → part_of w v ≡ Some k → Fits w k };

    /// Where nothing is kept, the way back gives the value.
    ghost comes_back: { (w : RouteModel) → IsRoute w → (v : Self) → Inside w v → part_of w v ≡ None → carry_of (back w) (carry_of w v) ≡ v };

    /// The law of followers: what was kept restores the value.
    ghost restores: { (w : RouteModel) → IsRoute w → (v : Self) → Inside w v → (k : Self.Part) → part_of w v ≡ Some k → restore_of w (carry_of w v) k ≡ v };
}

/// The value before, from the one that was carried along the route: restored from its part, if there
/// is one, else carried back. `NoMemory` is the only error.
pub fn regained<A: Axis, M: LineMap<A>, F: Follower<A>>(
    alloc: Global,
    route: &Route<'_, A, M>,
    value: &F,
    part: Option<&F::Part>,
) -> Result<F, EditError>
    requires lies { F.Inside (back (route_model route.now)) value.now }
    requires fits { IfSome (option_copied part) (F.Fits (route_model route.now)) }
    ensures value { IfOk result (λ before. before ≡ settled (F.carry_of (back (route_model route.now))) (F.restore_of (route_model route.now)) (option_copied part.entry) value.now) }
    ensures only { IsOkUnless result NoMemory }
{
    match part {
        Some(part) => value.restore(alloc, route, part),
        None => value.carry(alloc, &route.back()),
    }
}
