//! Which operators tokens are, and at which level of expressions.

ghost use Rattle.std.specs.Prelude.{◌≡◌};
ghost use Rattle.formula_grammar.specs.Operators.{prefix_under};
ghost use Rattle.formula_grammar.specs.laws.Reading as spec;
ghost use Rattle.formula_grammar.specs.laws.Signs.{making};

use crate::token::Token;
use formula_tree::{CompareKind, Infix, Postfix, Prefix, ProductKind, SumKind, tighter};

/// An operator behind a first operand.
#[derive(Clone, Copy)]
pub enum Operator {
    Infix(Infix),
    Postfix(Postfix),
}

impl Operator {
    /// How many levels are tighter.
    fn under(self) -> u8
        ensures { result ≡ spec.operator_under self }
    {
        match self {
            Operator::Infix(operator) => tighter(operator.level()),
            Operator::Postfix(operator) => tighter(operator.level()),
        }
    }

    /// The operator, if it has this level under it.
    pub fn own(self, under: u8) -> Option<Operator>
        ensures { result ≡ spec.own spec.operator_under under self }
    {
        if self.under() == under {
            Some(self)
        } else {
            None
        }
    }
}

/// The operator that the token is.
pub fn operator_of(token: &Token) -> Option<Operator>
    ensures { result ≡ spec.operator_of token.now }
{
    let operator = match token {
        Token::Equal => Infix::Compare(CompareKind::Equal),
        Token::NotEqual => Infix::Compare(CompareKind::NotEqual),
        Token::Less => Infix::Compare(CompareKind::Less),
        Token::LessOrEqual => Infix::Compare(CompareKind::LessOrEqual),
        Token::Greater => Infix::Compare(CompareKind::Greater),
        Token::GreaterOrEqual => Infix::Compare(CompareKind::GreaterOrEqual),
        Token::Ampersand => Infix::Concatenate,
        Token::Plus => Infix::Sum(SumKind::Add),
        Token::Minus => Infix::Sum(SumKind::Subtract),
        Token::Times => Infix::Product(ProductKind::Multiply),
        Token::Divide => Infix::Product(ProductKind::Divide),
        Token::Power => Infix::Power,
        Token::Colon => Infix::Colon,
        Token::Percent => return Some(Operator::Postfix(Postfix::Percent)),
        Token::Hash => return Some(Operator::Postfix(Postfix::Spill)),
        _ => return None,
    };
    Some(Operator::Infix(operator))
}

fn sign_of(token: &Token) -> Option<Prefix>
    ensures { result ≡ spec.sign_of token.now }
{
    match token {
        Token::Minus => Some(Prefix::Minus),
        Token::Plus => Some(Prefix::Plus),
        Token::At => Some(Prefix::At),
        _ => None,
    }
}

fn own_sign(under: u8, sign: Prefix) -> Option<Prefix>
    ensures { result ≡ spec.own prefix_under under sign }
{
    if tighter(sign.level()) == under {
        Some(sign)
    } else {
        None
    }
}

/// The sign with this level under it that the token is.
pub fn sign_at(under: u8, token: &Token) -> Option<Prefix>
    ensures { result ≡ spec.sign_at under token.now }
{
    own_sign(under, sign_of(token)?)
}

/// Which of the signs with this level under them makes a node.
pub fn making(under: u8) -> Prefix
    ensures { result ≡ making under }
{
    if under == tighter(Prefix::At.level()) {
        Prefix::At
    } else {
        Prefix::Minus
    }
}
