//! Maps as parts of formats.

use crate::Part;
use crate::map_reading::map_at;
use crate::map_writing::put_map;
use crate::plain_key::PlainKey;
use base_values::{EditError, KeyMap};
use std::alloc::{AllocError, Global};
use std::marker::PhantomData;

/// A map, whose keys and values are parts: how many entries it has, and its entries in the order of
/// their keys (docs/FORMATS.md, "Bytes"). Bytes whose keys don't rise strictly encode none.
pub struct MapPart<X: PlainKey<P::Value>, K: Part<Value = X::Key, Context = ()>, P: Part> {
    map: PhantomData<X>,
    key: PhantomData<K>,
    value: PhantomData<P>,
}

impl<X: PlainKey<P::Value>, K: Part<Value = X::Key, Context = ()>, P: Part> Part
    for MapPart<X, K, P> {
    ghost use Rattle.std.proofs.Common.{arith};
    ghost use Rattle.base_wire.specs.MapBytes.{encode_map, FitsMap, IsKnownMap};
    ghost use Rattle.base_wire.specs.laws.MapReading.{map_of_at};
    ghost use Rattle.base_wire.specs.laws.KeyOrder.{order_total, order_exact};
    ghost use Rattle.base_wire.specs.laws.MapLaws.{map_format};

    type Value = KeyMap<X, P::Value>;

    type Context = P::Context;

    ghost Known = { λ map. IsKnownMap K.Known P.Known (X.seen map) };

    ghost Fits = { λ map. FitsMap K.Fits P.Fits (X.seen map) };

    ghost encoding = { λ map. encode_map K.encoding P.encoding (X.seen map) };

    ghost reading = { map_of_at X.order X.model K.reading P.reading };

    fn put(out: &mut Vec<u8>, value: &KeyMap<X, P::Value>) -> Result<(), AllocError> {
        put_map::<X, K, P>(out, value)?;
        Ok(())
    }

    fn take<'a>(
        alloc: Global,
        context: &P::Context,
        bytes: &'a [u8],
    ) -> Result<(KeyMap<X, P::Value>, &'a [u8]), EditError> {
        map_at::<X, K, P>(alloc, context, bytes)
    }

    ghost format = { map_format (order_total X.ordered X.Key.total) (order_exact X.ordered X.Key.equals X.Key.matches_eq) K.format P.format K.some X.seen X.model X.seen_model X.model_seen };

    ghost some = { λ map. Prim.omega arith };
}
