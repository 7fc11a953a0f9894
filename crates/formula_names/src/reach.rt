ghost use Rattle.std.specs.Prelude.{◌≡◌};
ghost use Rattle.formula_names.specs.Renamed.{reaches_names, reaches_sheets};

use base_values::Exact;

/// What a renaming reaches in a formula.
#[derive(Clone, Copy, Debug, PartialEq, Eq)]
pub enum Reach {
    /// The sheets that references and ranges name.
    Sheets,
    /// Names: defined ones and variables.
    Names,
    Nothing,
}

impl Exact for Reach {
    ghost use Rattle.std.proofs.Common.{rules};
    ghost use Rattle.formula_names.specs.laws.ReachEquals.{reach_equals};

    ghost copies = { λ a b h. Prim.search rules };

    ghost equals = { reach_equals };
}

impl Reach {
    /// Whether it is the sheets that references and ranges name.
    pub(crate) fn reaches_sheets(self) -> bool
        ensures { result ≡ reaches_sheets self }
    {
        matches!(self, Reach::Sheets)
    }

    /// Whether it is names.
    pub(crate) fn reaches_names(self) -> bool
        ensures { result ≡ reaches_names self }
    {
        matches!(self, Reach::Names)
    }
}
