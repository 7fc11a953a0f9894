use base_values::{Exact, Text};

/// What a cell of a sheet leads to when it is followed.
#[derive(Clone, Debug, PartialEq, Eq, Drop)]
pub struct Link {
    /// Where it leads, as it was typed.
    pub target: Text,
}

impl Exact for Link {
    ghost use Rattle.std.proofs.Common.{rules};
    ghost use Rattle.sheet_grid.specs.laws.LineEquals.{link_equals};

    ghost copies = { λ a b h. Prim.search rules };

    ghost equals = { link_equals };
}
