use base_values::Exact;

/// A rectangle of places of a sheet: its first row and column, and how many columns wide and rows
/// high it is.
#[derive(Clone, Copy, Debug, PartialEq, Eq)]
pub struct Area {
    /// The index of the sheet.
    pub sheet: u32,
    pub row: i32,
    pub column: i32,
    pub width: i32,
    pub height: i32,
}

impl Exact for Area {
    ghost use Rattle.std.proofs.Common.{rules};
    ghost use Rattle.base_axis.specs.laws.AreaEquals.{area_equals};

    ghost copies = { λ a b h. Prim.search rules };

    ghost equals = { area_equals };
}
