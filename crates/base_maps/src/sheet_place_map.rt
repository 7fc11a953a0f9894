use crate::position_map::PositionKeys;
use crate::sheet_place::SheetPlace;
use base_values::{KeyMap, MapKey, Position, SheetKey};
use std::marker::{Model, PhantomData};

/// A map from places of a workbook, whose positions may lie outside their sheet.
pub type SheetPlaceMap<V> = KeyMap<SheetPlaceKeys<V>, V>;

/// The keys of a `SheetPlaceMap`.
#[derive(Drop)]
pub struct SheetPlaceKeys<V> {
    values: PhantomData<V>,
}

impl<V> Model for SheetPlaceKeys<V> {
    ghost use Rattle.std.specs.FinMap as fin;
    ghost use Rattle.base_maps.specs.SheetPlaces.{sheet_place_cmp, coded_sheet_place};

    ghost Value = { fin.FinMap sheet_place_cmp V };

    ghost coded = { fin.code coded_sheet_place V.code };

    ghost view = { λ _. fin.empty };
}

impl<V> MapKey<V> for SheetPlaceKeys<V> {
    ghost use Rattle.std.specs.Prelude.{refl, ⊤};
    ghost use Rattle.base_maps.specs.SheetPlaces.{sheet_place_cmp};

    type Key = SheetPlace;

    ghost order = { sheet_place_cmp };

    ghost fits = { λ _. ⊤ };

    ghost model = { λ m. m };

    ghost seen = { λ map. map };

    ghost seen_model = { λ m. refl };

    ghost model_seen = { λ map. refl };

    ghost ordered = { refl };
}

impl<V> SheetKey<V> for SheetPlaceKeys<V> {
    ghost use Rattle.base_maps.specs.Tagged.{place_on};

    type Own = PositionKeys<V>;

    ghost under = { place_on };

    fn under(sheet: u32, place: Position) -> SheetPlace {
        SheetPlace { sheet, place }
    }

    ghost under_fits = { λ sheet place. tt };
}
