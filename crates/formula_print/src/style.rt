use base_tables::{Language, Locale};
use base_values::{Exact, Position};

/// How a form writes what other forms write differently.
#[derive(Clone, Copy)]
pub struct Style {
    pub corners: Corners,
    /// The decimal sign, and the separators of arguments and of arrays.
    pub locale: Locale,
    /// The words of functions and booleans.
    pub language: Language,
    pub dialect: Dialect,
}

/// How a form writes the corners of references and ranges.
#[derive(Clone, Copy)]
pub enum Corners {
    /// As `B$3`, seen from the formula's place.
    Letters(Position),
    /// As `R3C[1]`.
    Numbers,
}

/// How a form writes what older programs don't know.
#[derive(Clone, Copy, PartialEq, Eq)]
pub enum Dialect {
    /// `LET`, `LAMBDA`, `x#` and `@x`.
    Plain,
    /// With `_xlfn.`, and `#` and `@` as calls.
    Excel,
}

impl Exact for Dialect {
    ghost use Rattle.std.proofs.Common.{rules};
    ghost use Rattle.formula_print.specs.laws.DialectEquals.{dialect_equals};

    ghost copies = { λ a b h. Prim.search rules };

    ghost equals = { dialect_equals };
}
