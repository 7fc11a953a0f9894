//! Maps from the front of bytes. Each reader answers the value and the bytes after it. It refuses with
//! `ParseDiffs` bytes that are cut short or encode no such value, and with `NoMemory`.

ghost use Rattle.std.specs.Prelude.{◌≡◌, IfOk, IsTrue};
ghost use Rattle.std.specs.FinMap.{is_sorted};
ghost use Rattle.std.specs.List.{AllByRecursion};
ghost use Rattle.base_values.specs.Answers.{Answers, map_ok};
ghost use Rattle.base_wire.specs.Reads.{Reads};
ghost use Rattle.base_wire.specs.Encoding.{Both};
ghost use Rattle.base_wire.specs.MapBytes.{FitsMap, Within, encode_map};
ghost use Rattle.base_wire.specs.laws.MapReading.{entries_at, map_of_at};

use crate::entries::EntryPart;
use crate::{Part, read};
use base_values::{EditError, Items, KeyMap, MapKey};
use std::alloc::Global;

/// Whether the keys of entries rise strictly.
fn ascends<X: MapKey<V>, V>(entries: &[(X::Key, V)]) -> bool
    ensures { result ≡ is_sorted X.order entries.now }
{
    for i in 1..entries.len() {
        if !entries[i - 1].0.cmp(&entries[i].0).is_lt() {
            return false;
        }
    }
    true
}

/// A list of entries, whose keys rise strictly.
fn sorted_entries_at<'a, X: MapKey<P::Value>, K: Part<Value = X::Key, Context = ()>, P: Part>(
    alloc: Global,
    context: &P::Context,
    bytes: &'a [u8],
) -> Result<(Items<(X::Key, P::Value)>, &'a [u8]), EditError>
    ensures read { Answers (map_ok (λ x. (x.0, x.1.now)) result) (entries_at X.order K.reading P.reading bytes.now) }
    ensures sorted { IfOk result (λ x. IsTrue (is_sorted X.order x.0)) }
{
    let (entries, rest) = read::<Items<EntryPart<K, P>>>(alloc, context, bytes)?;
    if !ascends::<X, P::Value>(entries.as_slice()) {
        return Err(EditError::ParseDiffs);
    }
    Ok((entries, rest))
}

/// The entries of a map, in the order of its keys.
fn entries_at<'a, X: MapKey<P::Value>, K: Part<Value = X::Key, Context = ()>, P: Part>(
    alloc: Global,
    context: &P::Context,
    bytes: &'a [u8],
) -> Result<(Items<(X::Key, P::Value)>, &'a [u8]), EditError>
    ensures read { Answers (map_ok (λ x. (x.0, x.1.now)) result) (entries_at X.order K.reading P.reading bytes.now) }
    ensures fits { IfOk result (λ x. AllByRecursion (Both K.Fits P.Fits) x.0) }
    ensures sorted { IfOk result (λ x. IsTrue (is_sorted X.order x.0)) }
{
    sorted_entries_at::<X, K, P>(alloc, context, bytes)
}

/// What `map_at` answers, by the steps of the reader.
fn map_by_steps<'a, X: MapKey<P::Value>, K: Part<Value = X::Key, Context = ()>, P: Part>(
    alloc: Global,
    context: &P::Context,
    bytes: &'a [u8],
) -> Result<(KeyMap<X, P::Value>, &'a [u8]), EditError>
    requires inside { Within K.Fits X.fits }
    ensures { Answers (map_ok (λ x. (x.0, x.1.now)) result) (map_of_at X.order X.model K.reading P.reading bytes.now) }
{
    let (entries, rest) = entries_at::<X, K, P>(alloc, context, bytes)?;
    let map = KeyMap::of_entries(alloc, entries)?;
    Ok((map, rest))
}

/// The map at the front of bytes, and the bytes after it. The map takes each key that bytes can carry.
///
/// Refuses with `ParseDiffs` bytes that begin with the encoding of no map, such as those whose keys don't
/// rise strictly, and with `NoMemory`.
pub fn map_at<'a, X: MapKey<P::Value>, K: Part<Value = X::Key, Context = ()>, P: Part>(
    alloc: Global,
    context: &P::Context,
    bytes: &'a [u8],
) -> Result<(KeyMap<X, P::Value>, &'a [u8]), EditError>
    requires inside { Within K.Fits X.fits }
    ensures { Reads (λ map. FitsMap K.Fits P.Fits (X.seen map)) (λ map. encode_map K.encoding P.encoding (X.seen map)) bytes.now (map_ok (λ x. (x.0, x.1.now)) result) }
{
    map_by_steps::<X, K, P>(alloc, context, bytes)
}
