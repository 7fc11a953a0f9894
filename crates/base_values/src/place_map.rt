use crate::key_map::{KeyMap, MapKey};
use crate::position::Position;
use std::marker::{Model, PhantomData};

/// A map from places of a sheet.
pub type PlaceMap<V> = KeyMap<PlaceKeys<V>, V>;

/// The keys of a `PlaceMap`: places inside a sheet.
#[derive(Drop)]
pub struct PlaceKeys<V> {
    values: PhantomData<V>,
}

impl<V> Model for PlaceKeys<V> {
    ghost use Rattle.std.specs.FinMap as fin;
    ghost use Rattle.base_values.specs.Places.{position_cmp, coded_position};

    ghost Value = { fin.FinMap position_cmp V };

    ghost coded = { fin.code coded_position V.code };

    ghost view = { λ _. fin.empty };
}

impl<V> MapKey<V> for PlaceKeys<V> {
    ghost use Rattle.std.specs.Prelude.{refl};
    ghost use Rattle.base_values.specs.Places.{position_cmp, IsPlace};

    type Key = Position;

    ghost order = { position_cmp };

    ghost fits = { IsPlace };

    ghost model = { λ m. m };

    ghost seen = { λ map. map };

    ghost seen_model = { λ m. refl };

    ghost model_seen = { λ map. refl };

    ghost ordered = { refl };
}
