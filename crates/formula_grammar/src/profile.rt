use base_tables::{Language, Locale};
use base_values::{Exact, Position};

/// What the reading of a formula depends on, beside its text.
#[derive(Clone, Copy, Debug, PartialEq, Eq)]
pub struct Profile {
    /// The cell in which the formula stands: relative corners are counted from it.
    pub place: Position,
    /// It says which sign parts arguments, and which the rows and columns of an array.
    pub locale: Locale,
    /// The language of functions and booleans.
    pub language: Language,
}

impl Exact for Profile {
    ghost use Rattle.std.proofs.Common.{rules};
    ghost use Rattle.formula_grammar.specs.laws.ProfileEquals.{profile_equals};

    ghost copies = { λ a b h. Prim.search rules };

    ghost equals = { profile_equals };
}
