ghost use Rattle.std.specs.Prelude.{◌≡◌};
ghost use Rattle.formula_grammar.specs.laws.Reading as spec;
ghost use Rattle.formula_grammar.specs.laws.Signs.{signs};
ghost use Rattle.formula_grammar.specs.laws.Outcome.{Reads, Picks, Eats};

use crate::after_item::AfterItem;
use crate::fault::Fault;
use crate::operator::{Operator, operator_of, sign_at};
use crate::separators::{has_point, is_separator};
use crate::token::Token;
use base_tables::Locale;
use formula_tree::Prefix;

/// The tokens that are still to be read.
#[derive(Drop)]
pub struct Cursor<'a> {
    pub rest: &'a [Token],
}

impl<'a> Cursor<'a> {
    /// Passes an operator with this level under it, if one stands here.
    pub fn operator(&mut self, under: u8) -> Option<Operator>
        ensures { Picks (spec.operator_at under self.old.rest.now) result self.old.rest.now self.new.rest.now }
    {
        let [first, rest @ ..] = self.rest else {
            return None;
        };
        let operator = operator_of(first)?.own(under)?;
        self.rest = rest;
        Some(operator)
    }

    pub fn opening(&mut self) -> bool
        ensures { Eats (spec.opening self.old.rest.now) result self.old.rest.now self.new.rest.now }
    {
        match self.rest {
            [Token::OpenParenthesis, rest @ ..] => {
                self.rest = rest;
                true
            }
            _ => false,
        }
    }

    pub fn closing(&mut self) -> bool
        ensures { Eats (spec.closing self.old.rest.now) result self.old.rest.now self.new.rest.now }
    {
        match self.rest {
            [Token::CloseParenthesis, rest @ ..] => {
                self.rest = rest;
                true
            }
            _ => false,
        }
    }

    /// Passes the separator of arguments, which goes on, or the closing parenthesis, which ends.
    pub fn separator(&mut self, locale: Locale) -> Result<bool, Fault>
        ensures { Reads (spec.separator locale self.old.rest.now) result self.new.rest.now }
    {
        match self.rest {
            [Token::CloseParenthesis, rest @ ..] => {
                self.rest = rest;
                Ok(false)
            }
            [first, rest @ ..] if is_separator(locale, first) => {
                self.rest = rest;
                Ok(true)
            }
            _ => Err(Fault::Outside),
        }
    }

    /// Whether nothing stands before the next separator or closing parenthesis.
    pub fn is_empty_here(&self, locale: Locale) -> bool
        ensures { result ≡ spec.is_empty_here locale self.now.rest.now }
    {
        match self.rest {
            [Token::CloseParenthesis, ..] => true,
            [first, ..] => is_separator(locale, first),
            [] => false,
        }
    }

    /// Passes the separator after an item of an array, or the array's closing brace.
    pub fn after_item(&mut self, locale: Locale) -> Result<AfterItem, Fault>
        ensures { Reads (spec.after_item locale self.old.rest.now) result self.new.rest.now }
    {
        let (next, rest) = match self.rest {
            [Token::CloseBrace, rest @ ..] => (AfterItem::End, rest),
            [Token::Comma, rest @ ..] if has_point(locale) => (AfterItem::Column, rest),
            [Token::Semicolon, rest @ ..] if has_point(locale) => (AfterItem::Row, rest),
            [Token::Semicolon, rest @ ..] => (AfterItem::Column, rest),
            [Token::Divide, rest @ ..] if !has_point(locale) => (AfterItem::Row, rest),
            _ => return Err(Fault::Outside),
        };
        self.rest = rest;
        Ok(next)
    }

    /// Passes the signs with this level under them that stand here, and counts those that make a node.
    pub fn signs(&mut self, under: u8) -> usize
        ensures { signs under self.old.rest.now ≡ (result, self.new.rest.now) }
    {
        let mut rest = self.rest;
        let mut count = 0;
        while let [first, more @ ..] = rest {
            match sign_at(under, first) {
                Some(Prefix::Plus) => {}
                Some(_) => count += 1,
                None => break,
            }
            rest = more;
        }
        self.rest = rest;
        count
    }
}
