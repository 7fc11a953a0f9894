use crate::border::BorderItem;
use base_values::Exact;

/// Which sides of the cells of an area get a border.
#[derive(Clone, Copy, Debug, PartialEq, Eq)]
pub enum BorderType {
    /// All sides of each cell.
    All,
    /// The sides between its cells.
    Inner,
    /// The sides at its edge.
    Outer,
    /// The upper sides of its first row.
    Top,
    /// The right sides of its last column.
    Right,
    /// The lower sides of its last row.
    Bottom,
    /// The left sides of its first column.
    Left,
    /// The sides between its rows.
    CenterH,
    /// The sides between its columns.
    CenterV,
    /// No side has one any more.
    None,
}

impl Exact for BorderType {
    ghost use Rattle.std.proofs.Common.{rules};
    ghost use Rattle.base_styles.specs.laws.AreaEquals.{border_type_equals};

    ghost copies = { λ a b h. Prim.search rules };

    ghost equals = { border_type_equals };
}

/// A border for the sides of an area.
#[derive(Clone, Copy, Debug, PartialEq, Eq)]
pub struct BorderArea {
    pub item: BorderItem,
    pub kind: BorderType,
}

impl Exact for BorderArea {
    ghost use Rattle.std.proofs.Common.{rules};
    ghost use Rattle.base_styles.specs.laws.AreaEquals.{border_area_equals};

    ghost copies = { λ a b h. Prim.search rules };

    ghost equals = { border_area_equals };
}
