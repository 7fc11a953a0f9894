use base_values::{KeyMap, MapKey};
use std::marker::{Model, PhantomData};

/// A map from numbers, such as those of lines, which may lie outside a sheet.
pub type NumberMap<V> = KeyMap<NumberKeys<V>, V>;

/// The keys of a `NumberMap`.
#[derive(Drop)]
pub struct NumberKeys<V> {
    values: PhantomData<V>,
}

impl<V> Model for NumberKeys<V> {
    ghost use Rattle.std.specs.FinMap as fin;
    ghost use Rattle.std.specs.Ordering.{int_cmp};
    ghost use Rattle.std.specs.Coded.{coded_ℤ};

    ghost Value = { fin.FinMap int_cmp V };

    ghost coded = { fin.code coded_ℤ V.code };

    ghost view = { λ _. fin.empty };
}

impl<V> MapKey<V> for NumberKeys<V> {
    ghost use Rattle.std.specs.Prelude.{refl, ⊤};
    ghost use Rattle.std.specs.Ordering.{int_cmp};

    type Key = i32;

    ghost order = { int_cmp };

    ghost fits = { λ _. ⊤ };

    ghost model = { λ m. m };

    ghost seen = { λ map. map };

    ghost seen_model = { λ m. refl };

    ghost model_seen = { λ map. refl };

    ghost ordered = { refl };
}
