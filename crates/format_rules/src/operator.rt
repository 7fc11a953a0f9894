use base_values::Exact;

/// How a rule compares the value of a cell with those of its formulas.
#[derive(Clone, Copy, Debug, PartialEq, Eq)]
pub enum CfOperator {
    /// `=`
    Equal,
    /// `<>`
    NotEqual,
    /// `<`
    Less,
    /// `<=`
    LessOrEqual,
    /// `>`
    Greater,
    /// `>=`
    GreaterOrEqual,
    /// It is the value of one formula, that of the other, or one between them.
    Between,
    /// It is none of these.
    NotBetween,
}

impl Exact for CfOperator {
    ghost use Rattle.std.proofs.Common.{rules};
    ghost use Rattle.format_rules.specs.laws.RuleEquals.{operator_equals};

    ghost copies = { λ a b h. Prim.search rules };

    ghost equals = { operator_equals };
}
