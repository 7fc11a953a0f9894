use base_decimal::Decimal;
use base_tables::Error;
use base_values::{Exact, Text};

/// A constant of an array.
#[derive(Clone, Debug, Drop, PartialEq, Eq)]
pub enum ArrayItem {
    Boolean(bool),
    Number(Decimal),
    Text(Text),
    Error(Error),
}

impl Exact for ArrayItem {
    ghost use Rattle.std.proofs.Common.{rules};
    ghost use Rattle.formula_tree.specs.laws.Equals.{array_item_equals};

    ghost copies = { λ a b h. Prim.search rules };

    ghost equals = { array_item_equals };
}
