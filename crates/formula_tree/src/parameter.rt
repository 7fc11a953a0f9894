use base_values::{Exact, Text};

/// A parameter of a lambda.
#[derive(Clone, Debug, Drop, PartialEq, Eq)]
pub struct Parameter {
    pub name: Text,
    /// A call may leave it out.
    pub optional: bool,
}

impl Exact for Parameter {
    ghost use Rattle.std.proofs.Common.{rules};
    ghost use Rattle.formula_tree.specs.laws.Equals.{parameter_equals};

    ghost copies = { λ a b h. Prim.search rules };

    ghost equals = { parameter_equals };
}
