ghost use Rattle.std.specs.Prelude.{◌≡◌};
ghost use Rattle.formula_tree.specs.contracts.node.Node.{the_row};

use crate::array_item::ArrayItem;
use crate::copies::copy_node;
use crate::corner::Corner;
use crate::operator::{CompareKind, ProductKind, SumKind, UnaryKind};
use crate::parameter::Parameter;
use crate::sameness::same_node;
use base_decimal::Decimal;
use base_shared::Shared;
use base_tables::{Error, Function};
use base_values::{Exact, Items, Text};
use std::alloc::AllocError;

/// The syntax tree of a formula.
#[derive(Drop)]
pub enum Node {
    Boolean(bool),
    Number(Decimal),
    Text(Text),
    /// A cell, of the named sheet or of the formula's own.
    Reference(Option<Shared<Text>>, Corner),
    /// The cells between two corners, of the named sheet or of the formula's own.
    Range(Option<Shared<Text>>, Corner, Corner),
    /// The range operator, `left:right`.
    Colon(Shared<Node>, Shared<Node>),
    /// `left & right`
    Concatenate(Shared<Node>, Shared<Node>),
    Compare(CompareKind, Shared<Node>, Shared<Node>),
    Sum(SumKind, Shared<Node>, Shared<Node>),
    Product(ProductKind, Shared<Node>, Shared<Node>),
    /// `base ^ exponent`
    Power(Shared<Node>, Shared<Node>),
    Unary(UnaryKind, Shared<Node>),
    /// A call of a function, with its arguments.
    Call(Function, Items<Node>),
    /// A call of a name that is no function.
    NamedCall(Text, Items<Node>),
    /// Constants line by line.
    Array(Items<Items<ArrayItem>>),
    Name(Text),
    Error(Error),
    /// A text that is no formula.
    ParseError(Text),
    /// An argument that is left empty.
    EmptyArgument,
    /// The array that is spilled from a cell, `reference#`.
    Spill(Shared<Node>),
    /// Parameters and body.
    Lambda(Items<Parameter>, Shared<Node>),
    /// What is called, and its arguments.
    LambdaCall(Shared<Node>, Items<Node>),
    /// The one value where the formula's row or column meets a range, `@range`.
    ImplicitIntersection(Shared<Node>),
}

impl Clone for Node {
    ghost is_clone = { λ s r. r ≡ s };

    fn clone(&self) -> Result<Node, AllocError> {
        copy_node(self)
    }
}

impl PartialEq for Node {
    ghost use Rattle.base_values.specs.CodedEq.{same_value};
    ghost use Rattle.base_values.specs.laws.CodedEq.{same_value_laws};

    ghost eq = { same_value the_row.coded };

    ghost laws = { same_value_laws the_row.coded };

    fn eq(&self, other: &Node) -> bool {
        same_node(self, other)
    }
}

impl Eq for Node {
    ghost use Rattle.base_values.specs.laws.CodedEq.{same_value_equiv};

    ghost laws = { same_value_equiv the_row.coded };
}

impl Exact for Node {
    ghost use Rattle.base_values.specs.laws.CodedEq.{same_value_decides};

    ghost copies = { λ a b h. h };

    ghost equals = { same_value_decides the_row.coded };
}
