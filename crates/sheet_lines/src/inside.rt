ghost use Rattle.line_map.specs.Keys.{KeysAre};
ghost use Rattle.sheet_lines.specs.Sheets.{IsPlacedSheet};
ghost use Rattle.sheet_lines.specs.Workbooks.{IsSoundSheet};

use base_values::{KeyMap, MapKey};
use sheet_grid::Worksheet;

/// The keys of a map are such as it asks for: places of the sheet, or lines of the axis.
pub fn places_inside<K: MapKey<V>, V>(map: &KeyMap<K, V>)
    ensures { KeysAre K.fits (K.seen map.now) }
{
    // The promise is one of the type.
    let _ = map.iter();
}

/// What is inside a sheet is sound.
pub(crate) fn is_sound(sheet: &Worksheet)
    requires { IsPlacedSheet sheet.now }
    ensures { IsSoundSheet sheet.now }
{
    // The other promises are those of the types.
    places_inside(sheet.cell_map());
    places_inside(sheet.link_map());
    places_inside(sheet.row_map());
    places_inside(sheet.column_map());
    let _ = sheet.conditional_formatting().as_slice();
}
