use base_values::Exact;

/// Whether a sheet is shown among the tabs. A very hidden one is not even offered to be shown.
#[derive(Clone, Copy, Debug, PartialEq, Eq)]
pub enum SheetState {
    Visible,
    Hidden,
    VeryHidden,
}

impl Exact for SheetState {
    ghost use Rattle.std.proofs.Common.{rules};
    ghost use Rattle.sheet_grid.specs.laws.StateEquals.{state_equals};

    ghost copies = { λ a b h. Prim.search rules };

    ghost equals = { state_equals };
}
