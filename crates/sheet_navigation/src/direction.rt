use base_values::Exact;

/// A direction on a sheet: to lower or higher columns, or to lower or higher rows.
#[derive(Clone, Copy, Debug, PartialEq, Eq)]
pub enum NavigationDirection {
    Left,
    Right,
    Up,
    Down,
}

impl Exact for NavigationDirection {
    ghost use Rattle.std.proofs.Common.{rules};
    ghost use Rattle.sheet_navigation.specs.laws.DirectionEquals.{direction_equals};

    ghost copies = { λ a b h. Prim.search rules };

    ghost equals = { direction_equals };
}
