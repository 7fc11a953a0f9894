use crate::carried::{carried_map, carried_with_kept};
use crate::follower::Follower;
use crate::kept::{KeptMap, PartsOf};
use crate::restored::restored_map;
use crate::route_keys::RouteKeys;
use base_axis::Axis;
use base_values::{EditError, Exact, KeyMap};
use line_edits::LineMap;
use line_routes::Route;
use std::alloc::Global;

/// Each entry of a map goes where its key goes, and is carried along.
impl<A: Axis, K: RouteKeys<A, F>, F: Follower<A> + Exact> Follower<A> for KeyMap<K, F> {
    ghost use Rattle.std.specs.Prelude.{◌≡◌, Some};
    ghost use Rattle.line_map.specs.laws.MapLaws.{kept_map_fits, map_goes_back, map_stays, of_kept};
    ghost use Rattle.line_map.specs.laws.UnderLaws.{get-kept, kept_back};
    ghost use Rattle.std.specs.FinMap.{get};
    ghost use Rattle.base_maps.specs.Carried.{lost_map, overlaid};
    ghost use Rattle.line_map.specs.Keys.{rekeyed};
    ghost use Rattle.line_map.specs.Maps.{AllInside, KeptFits, entries_carried, entries_parts, entries_restored};

    type Part = KeptMap<K::Lost, K::Parts, F, F::Part>;

    ghost Inside = { λ w map. AllInside K.goes K.at K.fits F.Inside w (K.seen map) };

    ghost carry_of = { λ w map. K.with_brought w map (K.model (entries_carried K.goes K.at F.carry_of w (K.seen map))) };

    ghost part_of = { λ w map. Some (record { lost = K.Lost.model (rekeyed (lost_map (K.goes w) (K.seen map))); parts = K.Parts.model (rekeyed (entries_parts K.goes K.at F.part_of w (K.seen map))) }) };

    ghost Fits = { λ w kept. KeptFits K.goes K.at K.fits F.Fits w (K.Lost.seen kept.lost) (get (K.Parts.seen kept.parts)) };

    ghost restore_of = { λ w map kept. K.model (overlaid (rekeyed (K.Lost.seen kept.lost)) (entries_restored K.goes K.at F.carry_of F.restore_of w (get (K.Parts.seen kept.parts)) (K.seen map))) };

    fn carry<M: LineMap<A>>(
        &self,
        alloc: Global,
        route: &Route<'_, A, M>,
    ) -> Result<KeyMap<K, F>, EditError> {
        carried_map(alloc, route, self)
    }

    fn part<M: LineMap<A>>(
        &self,
        alloc: Global,
        route: &Route<'_, A, M>,
    ) -> Result<Option<KeptMap<K::Lost, K::Parts, F, F::Part>>, EditError> {
        Ok(self.carry_with_part(alloc, route)?.1)
    }

    fn carry_with_part<M: LineMap<A>>(
        &self,
        alloc: Global,
        route: &Route<'_, A, M>,
    ) -> Result<(KeyMap<K, F>, Option<KeptMap<K::Lost, K::Parts, F, F::Part>>), EditError> {
        let (carried, kept) = carried_with_kept(alloc, route, self)?;
        Ok((carried, Some(kept)))
    }

    fn restore<M: LineMap<A>>(
        &self,
        alloc: Global,
        route: &Route<'_, A, M>,
        part: &KeptMap<K::Lost, K::Parts, F, F::Part>,
    ) -> Result<KeyMap<K, F>, EditError> {
        let parts = PartsOf { map: &part.parts };
        restored_map(alloc, route, true, &part.lost, &parts, self)
    }

    ghost stays = { λ w is map lie. map_stays K.are_keys w is K.model K.seen K.model_seen K.with_brought K.brings F.carry_of F.Inside map lie F.stays };

    ghost part_fits = { λ w is map lie kept h. of_kept (λ kept. KeptFits K.goes K.at K.fits F.Fits w (K.Lost.seen kept.lost) (get (K.Parts.seen kept.parts))) _ kept h
        (kept_map_fits K.are_keys w is F.part_of F.Inside F.Fits F.part_fits (K.seen map) lie _
        (get-kept K.are_keys.total K.are_keys.exact K.ordered K.Lost.ordered K.Lost.model K.Lost.seen K.Lost.seen_model (lost_map (K.goes w) (K.seen map))) _
        (get-kept K.are_keys.total K.are_keys.exact K.ordered K.Parts.ordered K.Parts.model K.Parts.seen K.Parts.seen_model (entries_parts K.goes K.at F.part_of w (K.seen map)))) };

    ghost comes_back = { λ w is map lie h. absurd (Prim.cc) };

    ghost restores = { λ w is map lie kept h. of_kept (λ kept. K.model (overlaid (rekeyed (K.Lost.seen kept.lost)) (entries_restored K.goes K.at F.carry_of F.restore_of w (get (K.Parts.seen kept.parts)) (K.seen (K.with_brought w map (K.model (entries_carried K.goes K.at F.carry_of w (K.seen map))))))) ≡ map) _ kept h
        (map_goes_back K.are_keys w is K.model K.seen K.model_seen K.with_brought K.brings F.carry_of F.Inside map lie F.part_of F.restore_of F.comes_back F.restores _
        (kept_back K.are_keys.total K.are_keys.exact K.ordered K.Lost.ordered K.Lost.model K.Lost.seen K.Lost.seen_model (lost_map (K.goes w) (K.seen map))) _
        (get-kept K.are_keys.total K.are_keys.exact K.ordered K.Parts.ordered K.Parts.model K.Parts.seen K.Parts.seen_model (entries_parts K.goes K.at F.part_of w (K.seen map)))) };
}
