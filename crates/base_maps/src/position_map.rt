use base_values::{KeyMap, MapKey, Position};
use std::marker::{Model, PhantomData};

/// A map from positions, which may lie outside a sheet.
pub type PositionMap<V> = KeyMap<PositionKeys<V>, V>;

/// The keys of a `PositionMap`.
#[derive(Drop)]
pub struct PositionKeys<V> {
    values: PhantomData<V>,
}

impl<V> Model for PositionKeys<V> {
    ghost use Rattle.std.specs.FinMap as fin;
    ghost use Rattle.base_values.specs.Places.{position_cmp, coded_position};

    ghost Value = { fin.FinMap position_cmp V };

    ghost coded = { fin.code coded_position V.code };

    ghost view = { λ _. fin.empty };
}

impl<V> MapKey<V> for PositionKeys<V> {
    ghost use Rattle.std.specs.Prelude.{refl, ⊤};
    ghost use Rattle.base_values.specs.Places.{position_cmp};

    type Key = Position;

    ghost order = { position_cmp };

    ghost fits = { λ _. ⊤ };

    ghost model = { λ m. m };

    ghost seen = { λ map. map };

    ghost seen_model = { λ m. refl };

    ghost model_seen = { λ map. refl };

    ghost ordered = { refl };
}
