use base_values::{KeyMap, MapKey};
use std::marker::{Model, PhantomData};

/// A map from indexes, such as the places of a list, which may lie behind its end.
pub type IndexMap<V> = KeyMap<IndexKeys<V>, V>;

/// The keys of an `IndexMap`.
#[derive(Drop)]
pub struct IndexKeys<V> {
    values: PhantomData<V>,
}

impl<V> Model for IndexKeys<V> {
    ghost use Rattle.std.specs.FinMap as fin;
    ghost use Rattle.std.specs.Ordering.{nat_cmp};
    ghost use Rattle.std.specs.Coded.{coded_ℕ};

    ghost Value = { fin.FinMap nat_cmp V };

    ghost coded = { fin.code coded_ℕ V.code };

    ghost view = { λ _. fin.empty };
}

impl<V> MapKey<V> for IndexKeys<V> {
    ghost use Rattle.std.specs.Prelude.{refl, ⊤};
    ghost use Rattle.std.specs.Ordering.{nat_cmp};

    type Key = u64;

    ghost order = { nat_cmp };

    ghost fits = { λ _. ⊤ };

    ghost model = { λ m. m };

    ghost seen = { λ map. map };

    ghost seen_model = { λ m. refl };

    ghost model_seen = { λ map. refl };

    ghost ordered = { refl };
}
