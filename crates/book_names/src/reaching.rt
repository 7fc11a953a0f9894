ghost use Rattle.std.specs.Prelude.{◌≡◌};

use formula_names::Reach;

/// What a renaming reaches in the formulas of each sheet.
pub trait SheetReach {
    ghost use Rattle.std.specs.Prelude.{ℕ};
    ghost use Rattle.formula_names.specs.declared.Reach.{Reach};

    /// What it reaches in the sheet of an id, as definitions speak of it.
    ghost reached: { Self → ℕ → Reach };

    /// What it reaches in the sheet of an id.
    fn reach_in(&self, sheet_id: u32) -> Reach
        ensures { result ≡ reached self.now sheet_id };
}

/// The names of sheets, in every sheet.
pub(crate) struct Everywhere;

impl SheetReach for Everywhere {
    ghost use Rattle.book_names.specs.Renaming.{everywhere};

    ghost reached = { λ self. everywhere };

    fn reach_in(&self, _sheet_id: u32) -> Reach {
        Reach::Sheets
    }
}
