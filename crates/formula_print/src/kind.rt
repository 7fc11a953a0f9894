ghost use Rattle.std.specs.Prelude.{◌≡◌};
ghost use Rattle.formula_print.specs.Kinds.{level_of, is_simple, is_percent, is_sign, is_number_or_name, is_reference, is_lambda, fits, left_need, right_need};

use formula_tree::{Infix, Postfix, Prefix, SumKind};

/// The level of what is no operator: all operators are looser.
const OPERAND: u8 = 11;

/// What the rules of parentheses see of a tree.
#[derive(Clone, Copy)]
pub enum Kind {
    Infix(Infix),
    Prefix(Prefix),
    Postfix(Postfix),
    Number,
    Name,
    Reference,
    /// A boolean, a text or a range.
    Value,
    /// A lambda or a call of one.
    Lambda,
    Other,
}

/// What an operand must be to stand without parentheses.
#[derive(Clone, Copy)]
pub enum Need {
    /// Of this level or a higher one.
    Level(u8),
    /// The operand of a minus.
    Negated,
    /// The left side of `^`.
    Base,
    /// The right side of `^`.
    Exponent,
    /// The left side of `:`; `cell_follows` where the right side begins with a cell without a sheet.
    LeftOfColon { cell_follows: bool },
    /// What a lambda call calls.
    Callee,
}

/// What the left operand must be to stand without parentheses. That of `:` asks for more.
pub(crate) fn left_need(operator: Infix) -> Need
    ensures { result ≡ left_need operator }
{
    match operator {
        Infix::Power => Need::Base,
        _ => Need::Level(operator.level()),
    }
}

/// What the right operand must be to stand without parentheses.
pub(crate) fn right_need(operator: Infix) -> Need
    ensures { result ≡ right_need operator }
{
    match operator {
        Infix::Power => Need::Exponent,
        Infix::Sum(SumKind::Add) => Need::Level(operator.level()),
        _ => Need::Level(operator.level() + 1),
    }
}

impl Kind {
    /// How tightly the tree holds together.
    fn level(self) -> u8
        ensures { result ≡ level_of self }
    {
        match self {
            Kind::Infix(operator) => operator.level(),
            Kind::Prefix(operator) => operator.level(),
            Kind::Postfix(operator) => operator.level(),
            _ => OPERAND,
        }
    }

    fn is_simple(self) -> bool
        ensures { result ≡ is_simple self }
    {
        match self {
            Kind::Number | Kind::Name | Kind::Reference | Kind::Value => true,
            _ => false,
        }
    }

    fn is_percent(self) -> bool
        ensures { result ≡ is_percent self }
    {
        match self {
            Kind::Postfix(Postfix::Percent) => true,
            _ => false,
        }
    }

    fn is_sign(self) -> bool
        ensures { result ≡ is_sign self }
    {
        match self {
            Kind::Prefix(Prefix::Minus) | Kind::Postfix(Postfix::Percent) => true,
            _ => false,
        }
    }

    fn is_number_or_name(self) -> bool
        ensures { result ≡ is_number_or_name self }
    {
        match self {
            Kind::Number | Kind::Name => true,
            _ => false,
        }
    }

    fn is_reference(self) -> bool
        ensures { result ≡ is_reference self }
    {
        match self {
            Kind::Reference => true,
            _ => false,
        }
    }

    fn is_lambda(self) -> bool
        ensures { result ≡ is_lambda self }
    {
        match self {
            Kind::Lambda => true,
            _ => false,
        }
    }

    /// Whether the tree stands there without parentheses.
    pub(crate) fn fits(self, need: Need) -> bool
        ensures { result ≡ fits need self }
    {
        match need {
            Need::Level(least) => least <= self.level(),
            Need::Negated => Prefix::Minus.level() <= self.level() && !self.is_percent(),
            Need::Base => self.is_simple() || self.is_sign(),
            Need::Exponent => self.is_simple(),
            Need::LeftOfColon { cell_follows } => {
                Infix::Colon.level() < self.level()
                    && !self.is_number_or_name()
                    && !(cell_follows && self.is_reference())
            }
            Need::Callee => self.is_lambda(),
        }
    }
}
