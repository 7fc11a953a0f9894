//! A map carried along, and what is kept of it.

ghost use Rattle.std.specs.Prelude.{◌≡◌, IfOk, IfSome, IsOkUnless, OnOk, Some};
ghost use Rattle.base_values.specs.declared.EditError.TheVariants.{NoMemory};
ghost use Rattle.base_maps.specs.Carried.{entry_made, if_lost, if_there, lost_map};
ghost use Rattle.base_maps.specs.laws.Gathering.{with_made};
ghost use Rattle.line_map.specs.Keys.{rekeyed};
ghost use Rattle.line_map.specs.Maps.{AllInside, carried_entry, entries_carried, entries_parts, kept_entry};
ghost use Rattle.line_routes.specs.RouteModel.{route_model};

use crate::follower::Follower;
use crate::kept::KeptMap;
use crate::route_keys::RouteKeys;
use base_axis::Axis;
use base_values::{EditError, Exact, Items, KeyMap, MapKey, copy_of};
use line_edits::LineMap;
use line_routes::{Route, put_last};
use std::alloc::Global;

/// What is kept of one entry of a map: the entry where it goes nowhere, else its part.
#[derive(Drop)]
struct KeptEntry<Q, F, P> {
    /// The entry, where it goes nowhere.
    lost: Option<(Q, F)>,
    /// Its part, where it goes somewhere and has one.
    part: Option<(Q, P)>,
}

/// One entry carried along, to where its key goes.
fn carried_entry<A: Axis, M: LineMap<A>, F: Follower<A>, K: RouteKeys<A, F>>(
    alloc: Global,
    route: &Route<'_, A, M>,
    from: K::Key,
    item: &F,
) -> Result<Option<(K::Key, F)>, EditError>
    requires inside { K.fits from }
    requires lies { (to : K.Key) → K.goes (route_model route.now) from ≡ Some to → F.Inside (K.at (route_model route.now) from to) item.now }
    ensures entry { IfOk result (λ entry. entry ≡ carried_entry K.goes K.at F.carry_of (route_model route.now) (from, item.now)) }
    ensures only { IsOkUnless result NoMemory }
{
    match K::goes(route, from) {
        Some(to) => Ok(Some((to, item.carry(alloc, &K::at(route, from, to))?))),
        None => Ok(None),
    }
}

/// A value under a key, if there is one.
fn under<Q: Drop, V: Drop>(key: Q, value: Option<V>) -> Option<(Q, V)>
    ensures { result ≡ if_there value (λ x. Some (key, x)) }
{
    match value {
        Some(value) => Some((key, value)),
        None => None,
    }
}

/// One entry carried along to where its key goes, and what is kept of it.
fn carried_and_kept<A: Axis, M: LineMap<A>, F: Follower<A> + Exact, K: RouteKeys<A, F>>(
    alloc: Global,
    route: &Route<'_, A, M>,
    from: K::Key,
    item: &F,
) -> Result<(Option<(K::Key, F)>, KeptEntry<K::Key, F, F::Part>), EditError>
    requires inside { K.fits from }
    requires lies { (to : K.Key) → K.goes (route_model route.now) from ≡ Some to → F.Inside (K.at (route_model route.now) from to) item.now }
    ensures carried { IfOk result (λ both. both.0 ≡ carried_entry K.goes K.at F.carry_of (route_model route.now) (from, item.now)) }
    ensures lost { IfOk result (λ both. both.1.lost ≡ entry_made Some (if_lost (K.goes (route_model route.now))) (from, item.now)) }
    ensures part { IfOk result (λ both. both.1.part ≡ kept_entry K.goes K.at F.part_of (route_model route.now) (from, item.now)) }
    ensures only { IsOkUnless result NoMemory }
{
    match K::goes(route, from) {
        Some(to) => {
            let (value, part) = item.carry_with_part(alloc, &K::at(route, from, to))?;
            let part = under(from, part);
            Ok((Some((to, value)), KeptEntry { lost: None, part }))
        }
        None => {
            let lost = Some((from, copy_of(item)?));
            Ok((None, KeptEntry { lost, part: None }))
        }
    }
}

/// Puts an entry into a map, if there is one.
fn put_made<K: MapKey<V>, V: Drop>(
    entry: Option<(K::Key, V)>,
    map: &mut KeyMap<K, V>,
) -> Result<(), EditError>
    requires { (key : K.Key) → K.fits key }
    ensures map { OnOk result (K.seen map.new ≡ with_made entry (K.seen map.old)) }
    ensures only { IsOkUnless result NoMemory }
{
    if let Some((key, value)) = entry {
        map.insert(key, value)?;
    }
    Ok(())
}

/// A map carried along: each entry goes where its key goes, and the keys that are brought in have
/// what they take.
pub fn carried_map<A: Axis, M: LineMap<A>, F: Follower<A>, K: RouteKeys<A, F>>(
    alloc: Global,
    route: &Route<'_, A, M>,
    map: &KeyMap<K, F>,
) -> Result<KeyMap<K, F>, EditError>
    requires { AllInside K.goes K.at K.fits F.Inside (route_model route.now) (K.seen map.now) }
    ensures map { IfOk result (λ carried. carried ≡ K.with_brought (route_model route.now) map.now (K.model (entries_carried K.goes K.at F.carry_of (route_model route.now) (K.seen map.now)))) }
    ensures only { IsOkUnless result NoMemory }
{
    // For the proof: the route goes one to one.
    route.is_route();
    let mut output = Items::empty(alloc);
    for (from, item) in map.iter() {
        put_last(
            carried_entry::<A, M, F, K>(alloc, route, *from, item)?,
            &mut output,
        )?;
    }
    let mut carried = KeyMap::of_entries(alloc, output)?;
    K::bring(route, map, &mut carried)?;
    Ok(carried)
}

/// A map carried along, and what is kept of it, in one walk over its entries: those whose keys go
/// nowhere, and the parts of the others.
pub fn carried_with_kept<A: Axis, M: LineMap<A>, F: Follower<A> + Exact, K: RouteKeys<A, F>>(
    alloc: Global,
    route: &Route<'_, A, M>,
    map: &KeyMap<K, F>,
) -> Result<(KeyMap<K, F>, KeptMap<K::Lost, K::Parts, F, F::Part>), EditError>
    requires { AllInside K.goes K.at K.fits F.Inside (route_model route.now) (K.seen map.now) }
    ensures carried { IfOk result (λ both. both.0 ≡ K.with_brought (route_model route.now) map.now (K.model (entries_carried K.goes K.at F.carry_of (route_model route.now) (K.seen map.now)))) }
    ensures lost { IfOk result (λ both. rekeyed (K.Lost.seen both.1.lost) ≡ lost_map (K.goes (route_model route.now)) (K.seen map.now)) }
    ensures parts { IfOk result (λ both. rekeyed (K.Parts.seen both.1.parts) ≡ entries_parts K.goes K.at F.part_of (route_model route.now) (K.seen map.now)) }
    ensures only { IsOkUnless result NoMemory }
{
    // For the proof: the route goes one to one.
    route.is_route();
    let mut output = Items::empty(alloc);
    let mut lost = KeyMap::new(alloc);
    let mut parts = KeyMap::new(alloc);
    for (from, item) in map.iter() {
        let (moved, kept) = carried_and_kept::<A, M, F, K>(alloc, route, *from, item)?;
        put_last(moved, &mut output)?;
        put_made(kept.lost, &mut lost)?;
        put_made(kept.part, &mut parts)?;
    }
    let mut carried = KeyMap::of_entries(alloc, output)?;
    K::bring(route, map, &mut carried)?;
    Ok((carried, KeptMap { lost, parts }))
}
