//! The keys of the maps that bytes can carry.

use base_maps::{IndexKeys, NumberKeys, PositionKeys, SheetIndexKeys, SheetPlaceKeys};
use base_values::MapKey;

/// Keys that a map takes without a condition, so that it can be made of any entries.
pub trait PlainKey<V>: MapKey<V> {
    ghost plain: { (key : Self.Key) → Self.fits key };
}

impl<V> PlainKey<V> for PositionKeys<V> {
    ghost plain = { λ key. tt };
}

impl<V> PlainKey<V> for NumberKeys<V> {
    ghost plain = { λ key. tt };
}

impl<V> PlainKey<V> for IndexKeys<V> {
    ghost plain = { λ key. tt };
}

impl<V> PlainKey<V> for SheetPlaceKeys<V> {
    ghost plain = { λ key. tt };
}

impl<V> PlainKey<V> for SheetIndexKeys<V> {
    ghost plain = { λ key. tt };
}
