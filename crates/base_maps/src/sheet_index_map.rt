use crate::index_map::IndexKeys;
use crate::sheet_index::SheetIndex;
use base_values::{KeyMap, MapKey, SheetKey};
use std::marker::{Model, PhantomData};

/// A map from sheets and indexes of their lists, which may lie behind the end.
pub type SheetIndexMap<V> = KeyMap<SheetIndexKeys<V>, V>;

/// The keys of a `SheetIndexMap`.
#[derive(Drop)]
pub struct SheetIndexKeys<V> {
    values: PhantomData<V>,
}

impl<V> Model for SheetIndexKeys<V> {
    ghost use Rattle.std.specs.FinMap as fin;
    ghost use Rattle.base_maps.specs.SheetIndexes.{sheet_index_cmp, coded_sheet_index};

    ghost Value = { fin.FinMap sheet_index_cmp V };

    ghost coded = { fin.code coded_sheet_index V.code };

    ghost view = { λ _. fin.empty };
}

impl<V> MapKey<V> for SheetIndexKeys<V> {
    ghost use Rattle.std.specs.Prelude.{refl, ⊤};
    ghost use Rattle.base_maps.specs.SheetIndexes.{sheet_index_cmp};

    type Key = SheetIndex;

    ghost order = { sheet_index_cmp };

    ghost fits = { λ _. ⊤ };

    ghost model = { λ m. m };

    ghost seen = { λ map. map };

    ghost seen_model = { λ m. refl };

    ghost model_seen = { λ map. refl };

    ghost ordered = { refl };
}

impl<V> SheetKey<V> for SheetIndexKeys<V> {
    ghost use Rattle.base_maps.specs.TaggedIndexes.{index_on};

    type Own = IndexKeys<V>;

    ghost under = { index_on };

    fn under(sheet: u32, index: u64) -> SheetIndex {
        SheetIndex { sheet, index }
    }

    ghost under_fits = { λ sheet index. tt };
}
