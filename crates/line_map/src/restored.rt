//! A map taken back, with what was kept of it.

ghost use Rattle.std.specs.Prelude.{◌≡◌, true, IfOk, IsOkUnless, OnOk, Some};
ghost use Rattle.std.specs.FinMap.{insert};
ghost use Rattle.std.specs.Option.{option_copied};
ghost use Rattle.base_values.specs.declared.EditError.TheVariants.{NoMemory};
ghost use Rattle.base_maps.specs.Carried.{overlaid};
ghost use Rattle.line_map.specs.Keys.{KeysAre, rekeyed};
ghost use Rattle.line_map.specs.Maps.{AllInside, PartsFit, entries_restored, lost_along, restored_entry};
ghost use Rattle.line_routes.specs.RouteModel.{back, route_model};

use crate::follower::{Follower, regained};
use crate::kept::Parts;
use crate::route_keys::RouteKeys;
use base_axis::Axis;
use base_values::{EditError, Exact, Items, KeyMap, MapKey, copy_of};
use line_edits::LineMap;
use line_routes::{Route, put_last};
use std::alloc::Global;

/// One entry brought back to where its key came from: restored from its part, or carried back.
fn restored_entry<
    A: Axis,
    M: LineMap<A>,
    F: Follower<A>,
    K: RouteKeys<A, F>,
    L: Parts<K::Key, F::Part>,
>(
    alloc: Global,
    route: &Route<'_, A, M>,
    parts: &L,
    to: K::Key,
    item: &F,
) -> Result<Option<(K::Key, F)>, EditError>
    requires inside { K.fits to }
    requires lies { (from : K.Key) → K.goes (back (route_model route.now)) to ≡ Some from → F.Inside (K.at (back (route_model route.now)) to from) item.now }
    requires fit { PartsFit K.goes K.at F.Fits (route_model route.now) (L.part_at parts.now) }
    ensures entry { IfOk result (λ entry. entry ≡ restored_entry K.goes K.at F.carry_of F.restore_of (route_model route.now) (L.part_at parts.now) (to, item.now)) }
    ensures only { IsOkUnless result NoMemory }
{
    // For the proof: the route goes one to one.
    route.is_route();
    let Some(from) = K::goes(&route.back(), to) else {
        return Ok(None);
    };
    let route = K::at(route, from, to);
    Ok(Some((from, regained(alloc, &route, item, parts.part(from))?)))
}

/// The entries of a map that was carried along, each where its key came from: restored from the part
/// that is kept under that key, if there is one, else carried back.
fn restored_entries<
    A: Axis,
    M: LineMap<A>,
    F: Follower<A>,
    K: RouteKeys<A, F>,
    L: Parts<K::Key, F::Part>,
>(
    alloc: Global,
    route: &Route<'_, A, M>,
    parts: &L,
    map: &KeyMap<K, F>,
) -> Result<KeyMap<K, F>, EditError>
    requires lie { AllInside K.goes K.at K.fits F.Inside (back (route_model route.now)) (K.seen map.now) }
    requires fit { PartsFit K.goes K.at F.Fits (route_model route.now) (L.part_at parts.now) }
    ensures map { IfOk result (λ output. K.seen output ≡ entries_restored K.goes K.at F.carry_of F.restore_of (route_model route.now) (L.part_at parts.now) (K.seen map.now)) }
    ensures only { IsOkUnless result NoMemory }
{
    // For the proof: the route goes one to one.
    route.is_route();
    let mut output = Items::empty(alloc);
    for (to, item) in map.iter() {
        let entry = restored_entry::<A, M, F, K, L>(alloc, route, parts, *to, item)?;
        put_last(entry, &mut output)?;
    }
    KeyMap::of_entries(alloc, output)
}

/// Puts a copy of a value under a key.
pub(crate) fn put_copy<K: MapKey<V>, V: Exact + Drop>(
    key: K::Key,
    value: &V,
    map: &mut KeyMap<K, V>,
) -> Result<(), EditError>
    requires { K.fits key }
    ensures map { OnOk result (K.seen map.new ≡ insert (K.seen map.old) key value.now) }
    ensures only { IsOkUnless result NoMemory }
{
    map.insert(key, copy_of(value)?)?;
    Ok(())
}

/// A map with these entries, whose keys fit, in place of its own.
fn laid_over<A: Axis, F: Follower<A> + Exact, K: RouteKeys<A, F>>(
    over: &KeyMap<K::Lost, F>,
    map: KeyMap<K, F>,
) -> Result<KeyMap<K, F>, EditError>
    requires { KeysAre K.fits (K.Lost.seen over.now) }
    ensures map { IfOk result (λ output. K.seen output ≡ overlaid (rekeyed (K.Lost.seen over.now)) (K.seen map)) }
    ensures only { IsOkUnless result NoMemory }
{
    let mut output = map;
    for (key, item) in over.iter() {
        put_copy(*key, item, &mut output)?;
    }
    Ok(output)
}

/// The map before, from the one that was carried along: each entry where its key came from, restored
/// from the part that is kept under that key, if there is one, else carried back; and, where keys go
/// along, the lost entries in place of those. `NoMemory` is the only error.
pub fn restored_map<
    A: Axis,
    M: LineMap<A>,
    F: Follower<A> + Exact,
    K: RouteKeys<A, F>,
    L: Parts<K::Key, F::Part>,
>(
    alloc: Global,
    route: &Route<'_, A, M>,
    along: bool,
    lost: &KeyMap<K::Lost, F>,
    parts: &L,
    map: &KeyMap<K, F>,
) -> Result<KeyMap<K, F>, EditError>
    requires lie { AllInside K.goes K.at K.fits F.Inside (back (route_model route.now)) (K.seen map.now) }
    requires inside { along ≡ true → KeysAre K.fits (K.Lost.seen lost.now) }
    requires fit { PartsFit K.goes K.at F.Fits (route_model route.now) (L.part_at parts.now) }
    ensures map { IfOk result (λ output. K.seen output ≡ overlaid (rekeyed (lost_along along (K.Lost.seen lost.now))) (entries_restored K.goes K.at F.carry_of F.restore_of (route_model route.now) (L.part_at parts.now) (K.seen map.now))) }
    ensures only { IsOkUnless result NoMemory }
{
    let output = restored_entries(alloc, route, parts, map)?;
    if along {
        laid_over::<A, F, K>(lost, output)
    } else {
        Ok(output)
    }
}
