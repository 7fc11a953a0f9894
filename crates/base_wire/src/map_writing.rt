//! Maps at the end of bytes. Out of memory may leave some of theirs there.

ghost use Rattle.std.specs.Prelude.{◌≡◌, ◌++◌, ◌<◌, ◌^◌, OnOk, length};
ghost use Rattle.std.specs.List.{AllByRecursion};
ghost use Rattle.base_wire.specs.Encoding.{encode_both};
ghost use Rattle.base_wire.specs.MapBytes.{encode_entries, encode_map, FitsMap, HasValues, Within};
ghost use Rattle.base_wire.specs.laws.MapFits.{Carried};

use crate::Part;
use base_values::{KeyMap, MapKey};
use std::alloc::AllocError;
use std::collections::btree_map::Iter;

fn put_entry<K: Part, P: Part>(
    out: &mut Vec<u8>,
    key: &K::Value,
    value: &P::Value,
) -> Result<(), AllocError>
    ensures encoded { OnOk result (out.new.items ≡ out.old.items ++ encode_both K.encoding P.encoding (key.now, value.now)) }
    ensures fits { OnOk result (Carried K.Known P.Known K.Fits P.Fits (key.now, value.now)) }
{
    K::put(out, key)?;
    P::put(out, value)
}

/// Adds how many entries there are, in eight bytes, and each of them.
fn put_entries<K: Part, P: Part>(
    out: &mut Vec<u8>,
    entries: Iter<'_, K::Value, P::Value>,
) -> Result<(), AllocError>
    ensures encoded { OnOk result (out.new.items ≡ out.old.items ++ encode_entries K.encoding P.encoding entries.entry) }
    ensures short { OnOk result (length entries.entry < 2 ^ 64) }
    ensures each { OnOk result (AllByRecursion (Carried K.Known P.Known K.Fits P.Fits) entries.entry) }
{
    out.extend_from_slice(&(entries.len() as u64).to_be_bytes())?;
    for (key, value) in entries {
        put_entry::<K, P>(out, key, value)?;
    }
    Ok(())
}

/// Adds a map: how many entries it has, in eight bytes, and each of them (docs/FORMATS.md, "Bytes"). Out
/// of memory may leave some of its bytes there.
pub fn put_map<X: MapKey<P::Value>, K: Part<Value = X::Key, Context = ()>, P: Part>(
    out: &mut Vec<u8>,
    map: &KeyMap<X, P::Value>,
) -> Result<(), AllocError>
    ensures encoded { OnOk result (out.new.items ≡ out.old.items ++ encode_map K.encoding P.encoding (X.seen map.now)) }
    ensures fits { OnOk result (Within X.fits K.Known → HasValues P.Known (X.seen map.now) → FitsMap K.Fits P.Fits (X.seen map.now)) }
{
    put_entries::<K, P>(out, map.iter())?;
    Ok(())
}
