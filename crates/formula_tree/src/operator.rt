use base_values::Exact;

/// A comparison.
#[derive(Clone, Copy, Debug, PartialEq, Eq)]
pub enum CompareKind {
    /// `=`
    Equal,
    /// `<>`
    NotEqual,
    /// `<`
    Less,
    /// `<=`
    LessOrEqual,
    /// `>`
    Greater,
    /// `>=`
    GreaterOrEqual,
}

impl Exact for CompareKind {
    ghost use Rattle.std.proofs.Common.{rules};
    ghost use Rattle.formula_tree.specs.laws.Equals.{compare_kind_equals};

    ghost copies = { λ a b h. Prim.search rules };

    ghost equals = { compare_kind_equals };
}

/// An operator of the level of sums.
#[derive(Clone, Copy, Debug, PartialEq, Eq)]
pub enum SumKind {
    /// `+`
    Add,
    /// `-`
    Subtract,
}

impl Exact for SumKind {
    ghost use Rattle.std.proofs.Common.{rules};
    ghost use Rattle.formula_tree.specs.laws.Equals.{sum_kind_equals};

    ghost copies = { λ a b h. Prim.search rules };

    ghost equals = { sum_kind_equals };
}

/// An operator of the level of products.
#[derive(Clone, Copy, Debug, PartialEq, Eq)]
pub enum ProductKind {
    /// `*`
    Multiply,
    /// `/`
    Divide,
}

impl Exact for ProductKind {
    ghost use Rattle.std.proofs.Common.{rules};
    ghost use Rattle.formula_tree.specs.laws.Equals.{product_kind_equals};

    ghost copies = { λ a b h. Prim.search rules };

    ghost equals = { product_kind_equals };
}

/// An operator with one operand.
#[derive(Clone, Copy, Debug, PartialEq, Eq)]
pub enum UnaryKind {
    /// `-` before the operand
    Minus,
    /// `%` after the operand
    Percent,
}

impl Exact for UnaryKind {
    ghost use Rattle.std.proofs.Common.{rules};
    ghost use Rattle.formula_tree.specs.laws.Equals.{unary_kind_equals};

    ghost copies = { λ a b h. Prim.search rules };

    ghost equals = { unary_kind_equals };
}
