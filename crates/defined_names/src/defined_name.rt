ghost use Rattle.std.specs.Prelude.{◌≡◌};
ghost use Rattle.defined_names.specs.Names.{is_scoped_to, is_same_name};

use base_shared::Shared;
use base_tables::same_by_folding;
use base_values::{Exact, Text};
use formula_tree::Node;

/// A name for a formula, which other formulas can use in its place.
#[derive(Clone, PartialEq, Eq, Drop)]
pub struct DefinedName {
    pub name: Text,
    /// The id of the sheet where it is known. None stands for the whole workbook.
    pub scope: Option<u32>,
    /// What it stands for, as at the first place of a sheet.
    pub formula: Shared<Node>,
}

impl DefinedName {
    /// Whether the name is known in the sheet of an id alone.
    pub fn is_scoped_to(&self, sheet_id: u32) -> bool
        ensures { result ≡ is_scoped_to sheet_id self.now }
    {
        match self.scope {
            Some(scope) => scope == sheet_id,
            None => false,
        }
    }

    /// Whether another name is known in the same sheet, or both are in the whole workbook, and the two
    /// are equal by case folding.
    pub fn is_same_name(&self, other: &DefinedName) -> bool
        ensures { result ≡ is_same_name self.now other.now }
    {
        self.scope == other.scope && same_by_folding(self.name.as_str(), other.name.as_str())
    }
}

impl Exact for DefinedName {
    ghost use Rattle.std.proofs.Common.{rules};
    ghost use Rattle.defined_names.specs.laws.NameEquals.{defined_name_equals};

    ghost copies = { λ a b h. Prim.search rules };

    ghost equals = { defined_name_equals };
}
