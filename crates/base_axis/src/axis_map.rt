use crate::axis::Axis;
use base_values::{KeyMap, MapKey};
use std::marker::{Model, PhantomData};

/// A map from the lines of an axis.
pub type AxisMap<A, V> = KeyMap<LineKeys<A, V>, V>;

/// The keys of an `AxisMap`: lines inside the axis.
#[derive(Drop)]
pub struct LineKeys<A: Axis, V> {
    axis: PhantomData<A>,
    values: PhantomData<V>,
}

impl<A: Axis, V> Model for LineKeys<A, V> {
    ghost use Rattle.std.specs.FinMap as fin;
    ghost use Rattle.std.specs.Ordering.{int_cmp};
    ghost use Rattle.std.specs.Coded.{coded_ℤ};

    ghost Value = { fin.FinMap int_cmp V };

    ghost coded = { fin.code coded_ℤ V.code };

    ghost view = { λ _. fin.empty };
}

impl<A: Axis, V> MapKey<V> for LineKeys<A, V> {
    ghost use Rattle.std.specs.Prelude.{refl};
    ghost use Rattle.std.specs.Ordering.{int_cmp};
    ghost use Rattle.base_values.specs.Places.{IsLine};

    type Key = i32;

    ghost order = { int_cmp };

    ghost fits = { IsLine A.along.last };

    ghost model = { λ m. m };

    ghost seen = { λ map. map };

    ghost seen_model = { λ m. refl };

    ghost model_seen = { λ map. refl };

    ghost ordered = { refl };
}
