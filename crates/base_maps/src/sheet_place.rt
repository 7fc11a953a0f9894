use base_values::{Exact, Position};

/// A place of a workbook: the id of a sheet, and a position in it. Places are ordered by sheet, then
/// by row, then by column.
#[derive(Clone, Copy, Debug, PartialEq, Eq, PartialOrd, Ord)]
pub struct SheetPlace {
    /// The id of the sheet.
    pub sheet: u32,
    /// The position in that sheet.
    pub place: Position,
}

impl Exact for SheetPlace {
    ghost use Rattle.std.proofs.Common.{rules};
    ghost use Rattle.base_maps.specs.laws.SheetPlaceEquals.{sheet_place_equals};

    ghost copies = { λ a b h. Prim.search rules };

    ghost equals = { sheet_place_equals };
}
