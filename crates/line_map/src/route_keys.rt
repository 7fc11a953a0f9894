ghost use Rattle.std.specs.Prelude.{◌≡◌, IfSome, IsOkUnless, OnOk, Option};
ghost use Rattle.base_values.specs.declared.EditError.TheVariants.{NoMemory};
ghost use Rattle.line_map.specs.Keys.{AreKeys, BringsBeside, KeysAre};
ghost use Rattle.line_routes.specs.RouteModel.{RouteModel, route_model};

use crate::follower::Follower;
use base_axis::Axis;
use base_values::{EditError, KeyMap, MapKey};
use line_edits::LineMap;
use line_routes::Route;

/// The keys of a map that is carried along, and those of what is kept of it.
pub trait RouteKeys<A: Axis, F: Follower<A>>: MapKey<F> {
    /// The keys of entries that are kept, which may lie outside the sheet.
    type Lost: MapKey<F, Key = Self::Key>;

    /// The keys of parts that are kept, which may lie outside the sheet.
    type Parts: MapKey<F::Part, Key = Self::Key>;

    ghost goes: { RouteModel → Self.Key → Option Self.Key };

    ghost at: { RouteModel → Self.Key → Self.Key → RouteModel };

    /// What was carried along of a map, with what the keys have that are brought in.
    ghost with_brought: { RouteModel → Self → Self → Self };

    /// Where a key goes.
    fn goes<M: LineMap<A>>(route: &Route<'_, A, M>, key: Self::Key) -> Option<Self::Key>
        requires { Self.fits key }
        ensures value { result ≡ goes (route_model route.now) key }
        ensures inside { IfSome result Self.fits };

    /// The route of what goes from a key to a key.
    fn at<'a, M: LineMap<A>>(
        route: &Route<'a, A, M>,
        from: Self::Key,
        to: Self::Key,
    ) -> Route<'a, A, M>
        requires from { Self.fits from }
        requires to { Self.fits to }
        ensures { route_model result ≡ at (route_model route.now) from to };

    /// Gives the keys that are brought in what they take from the map before. `NoMemory` is the only
    /// error, after which some of them may have it.
    fn bring<M: LineMap<A>>(
        route: &Route<'_, A, M>,
        map: &KeyMap<Self, F>,
        carried: &mut KeyMap<Self, F>,
    ) -> Result<(), EditError>
        requires { KeysAre Self.fits (Self.seen map.now) }
        ensures carried { OnOk result (carried.new ≡ with_brought (route_model route.now) map.now carried.old) }
        ensures only { IsOkUnless result NoMemory };

    ghost are_keys: { AreKeys Self.MapKey.order Self.fits goes at };

    ghost brings: { BringsBeside Self.fits goes (λ w m carried. Self.seen (with_brought w (Self.model m) (Self.model carried))) };

    ghost lost_fit: { (key : Self.Key) → Self.Lost.fits key };

    ghost parts_fit: { (key : Self.Key) → Self.Parts.fits key };
}
