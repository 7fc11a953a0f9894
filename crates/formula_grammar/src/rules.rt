//! The rules of the grammar. They take the reader of a whole as a parameter, so that each is proved
//! by itself.

ghost use Rattle.std.specs.Prelude.{◌≡◌};
ghost use Rattle.base_values.specs.Places.{IsPlace};
ghost use Rattle.formula_grammar.specs.laws.Reading as spec;
ghost use Rattle.formula_grammar.specs.laws.Outcome.{Gives, Reads};
ghost use Rattle.formula_grammar.specs.laws.Signs.{wrapped};
ghost use Rattle.formula_grammar.specs.laws.Nests.{Nests};

use crate::arrays::array;
use crate::cursor::Cursor;
use crate::fault::Fault;
use crate::found::{Found, FoundAll};
use crate::operator::{Operator, making};
use crate::parameters::parameters;
use crate::profile::Profile;
use crate::token::Token;
use crate::words::{called, is_lambda, range, reference, worded};
use base_values::Text;
use formula_tree::{LEVELS, MAX_DEPTH, Node, Prefix};
use std::alloc::Global;

#[derive(Clone, Copy)]
pub struct Rules<F> {
    pub alloc: Global,
    pub profile: Profile,
    /// How deep calls and parentheses may still nest.
    pub nesting: u64,
    /// How many parentheses that are no call's may still be opened.
    pub room: u64,
    pub whole: F,
}

impl<F: Fn(Global, Profile, &mut Cursor<'_>, u64, u64) -> Result<Found, Fault>> Rules<F> {
    fn inner(&self, tokens: &mut Cursor<'_>, room: u64) -> Result<Found, Fault>
        requires { Nests self.now.profile self.now.nesting (F.pre self.now.whole) (F.post self.now.whole) }
        ensures { Reads (spec.whole self.now.profile self.now.nesting room tokens.old.rest.now) result tokens.new.rest.now }
    {
        (self.whole)(self.alloc, self.profile, tokens, self.nesting, room)
    }

    /// An expression of a level: signs, an operand of the next tighter level, and the operators of the
    /// level behind it, which group to the left.
    #[cycle(expression)]
    #[tactic(auto, using(crate::proofs::Loops::turns), unfolding(crate::specs::laws::Reading::expression))]
    pub fn expression(&self, tokens: &mut Cursor<'_>, level: u8) -> Result<Found, Fault>
        requires { Nests self.now.profile self.now.nesting (F.pre self.now.whole) (F.post self.now.whole) }
        ensures { Reads (spec.expression self.now.profile (spec.whole self.now.profile self.now.nesting) self.now.room level tokens.old.rest.now) result tokens.new.rest.now }
    {
        if level == 0 {
            return self.primary(tokens);
        }
        let under = level - 1;
        let mut left = self.signed(tokens, under)?;
        for _turn in 0..MAX_DEPTH {
            let Some(operator) = tokens.operator(under) else {
                return Ok(left);
            };
            left = self.turn(tokens, under, operator, left)?;
        }
        drop(left);
        Err(Fault::Outside)
    }

    /// What an operator makes of the tree before it and of what follows.
    #[cycle(expression)]
    fn turn(
        &self,
        tokens: &mut Cursor<'_>,
        under: u8,
        operator: Operator,
        left: Found,
    ) -> Result<Found, Fault>
        requires { Nests self.now.profile self.now.nesting (F.pre self.now.whole) (F.post self.now.whole) }
        ensures { let operand = spec.expression self.now.profile (spec.whole self.now.profile self.now.nesting) self.now.room under in
            Reads (spec.turn operand operator left tokens.old.rest.now) result tokens.new.rest.now }
    {
        match operator {
            Operator::Infix(operator) => match self.expression(tokens, under) {
                Ok(right) => Found::joined(self.alloc, operator, left, right),
                Err(fault) => {
                    drop(left);
                    Err(fault)
                }
            },
            Operator::Postfix(operator) => Found::followed(self.alloc, operator, left),
        }
    }

    /// An operand with the signs of a level before it.
    #[cycle(expression)]
    #[tactic(auto, using(crate::proofs::Loops::signed_counted))]
    fn signed(&self, tokens: &mut Cursor<'_>, under: u8) -> Result<Found, Fault>
        requires { Nests self.now.profile self.now.nesting (F.pre self.now.whole) (F.post self.now.whole) }
        ensures { let operand = spec.expression self.now.profile (spec.whole self.now.profile self.now.nesting) self.now.room under in
            Reads (spec.signed under operand tokens.old.rest.now) result tokens.new.rest.now }
    {
        let count = tokens.signs(under);
        let operand = self.expression(tokens, under)?;
        self.wrapped(making(under), count, operand)
    }

    /// The operand behind so many signs.
    #[tactic(auto, using(crate::proofs::Loops::turns))]
    fn wrapped(&self, sign: Prefix, count: usize, operand: Found) -> Result<Found, Fault>
        ensures { Gives (wrapped sign count operand) result }
    {
        let mut tree = operand;
        for _turn in 0..count {
            tree = Found::signed(self.alloc, sign, tree)?;
        }
        Ok(tree)
    }

    #[tactic(auto, using(crate::proofs::Depths::depths), unfolding(crate::specs::laws::Reading::primary))]
    fn primary(&self, tokens: &mut Cursor<'_>) -> Result<Found, Fault>
        requires { Nests self.now.profile self.now.nesting (F.pre self.now.whole) (F.post self.now.whole) }
        ensures { Reads (spec.primary self.now.profile (spec.whole self.now.profile self.now.nesting) self.now.room tokens.old.rest.now) result tokens.new.rest.now }
    {
        match tokens.rest {
            [Token::Number(value), rest @ ..] => {
                tokens.rest = rest;
                Ok(Found::leaf(Node::Number(*value)))
            }
            [Token::Text(text), rest @ ..] => {
                tokens.rest = rest;
                Ok(Found::leaf(Node::Text(text.clone()?)))
            }
            [Token::Error(error), rest @ ..] => {
                tokens.rest = rest;
                Ok(Found::leaf(Node::Error(*error)))
            }
            [Token::Reference(sheet, mark), rest @ ..] => {
                tokens.rest = rest;
                reference(self.profile.place, sheet, *mark)
            }
            [Token::Range(sheet, first, second), rest @ ..] => {
                tokens.rest = rest;
                range(self.profile.place, sheet, *first, *second)
            }
            [Token::Word(word), rest @ ..] => {
                tokens.rest = rest;
                self.named(tokens, word)
            }
            [Token::OpenParenthesis, rest @ ..] => {
                tokens.rest = rest;
                self.enclosed(tokens)
            }
            [Token::OpenBrace, rest @ ..] => {
                tokens.rest = rest;
                array(self.alloc, self.profile, tokens)
            }
            _ => Err(Fault::Outside),
        }
    }

    /// What stands in parentheses, after the first of them.
    #[tactic(auto, unfolding(crate::specs::laws::Reading::enclosed))]
    fn enclosed(&self, tokens: &mut Cursor<'_>) -> Result<Found, Fault>
        requires { Nests self.now.profile self.now.nesting (F.pre self.now.whole) (F.post self.now.whole) }
        ensures { Reads (spec.enclosed self.now.profile (spec.whole self.now.profile self.now.nesting) self.now.room tokens.old.rest.now) result tokens.new.rest.now }
    {
        if self.room == 0 {
            return Err(Fault::Outside);
        }
        let tree = self.inner(tokens, self.room - 1)?;
        if !tokens.closing() {
            drop(tree);
            return Err(Fault::Outside);
        }
        Ok(tree)
    }

    /// What a word begins: a call, or the word alone.
    fn named(&self, tokens: &mut Cursor<'_>, word: &Text) -> Result<Found, Fault>
        requires { Nests self.now.profile self.now.nesting (F.pre self.now.whole) (F.post self.now.whole) }
        ensures { Reads (spec.named self.now.profile (spec.whole self.now.profile self.now.nesting) self.now.room word.now tokens.old.rest.now) result tokens.new.rest.now }
    {
        match tokens.rest {
            [Token::OpenParenthesis, rest @ ..] => {
                tokens.rest = rest;
                self.call(tokens, word)
            }
            _ => Ok(worded(self.profile.language, word)?),
        }
    }

    /// A call, after the word and the opening parenthesis.
    #[tactic(auto, unfolding(crate::specs::laws::Reading::call))]
    fn call(&self, tokens: &mut Cursor<'_>, word: &Text) -> Result<Found, Fault>
        requires { Nests self.now.profile self.now.nesting (F.pre self.now.whole) (F.post self.now.whole) }
        ensures { Reads (spec.call self.now.profile (spec.whole self.now.profile self.now.nesting) self.now.room word.now tokens.old.rest.now) result tokens.new.rest.now }
    {
        if is_lambda(word) {
            return self.lambda(tokens);
        }
        let arguments = self.arguments(tokens)?;
        called(self.profile.language, word, arguments)
    }

    /// A lambda and its calls, after LAMBDA and the opening parenthesis.
    #[tactic(auto, using(crate::proofs::Loops::turns), unfolding(crate::specs::laws::Reading::lambda))]
    fn lambda(&self, tokens: &mut Cursor<'_>) -> Result<Found, Fault>
        requires { Nests self.now.profile self.now.nesting (F.pre self.now.whole) (F.post self.now.whole) }
        ensures { Reads (spec.lambda self.now.profile (spec.whole self.now.profile self.now.nesting) self.now.room tokens.old.rest.now) result tokens.new.rest.now }
    {
        let mut tree = self.function(tokens)?;
        for _turn in 0..MAX_DEPTH {
            if !tokens.opening() {
                return Ok(tree);
            }
            tree = self.applied(tokens, tree)?;
        }
        drop(tree);
        Err(Fault::Outside)
    }

    /// A call of the tree before, after the opening parenthesis.
    fn applied(&self, tokens: &mut Cursor<'_>, callee: Found) -> Result<Found, Fault>
        requires { Nests self.now.profile self.now.nesting (F.pre self.now.whole) (F.post self.now.whole) }
        ensures { Reads (spec.lambda_turn self.now.profile (spec.whole self.now.profile self.now.nesting) self.now.room tt callee tokens.old.rest.now) result tokens.new.rest.now }
    {
        match self.arguments(tokens) {
            Ok(arguments) => Found::lambda_call(self.alloc, callee, arguments),
            Err(fault) => {
                drop(callee);
                Err(fault)
            }
        }
    }

    /// Parameters and body of a lambda, up to the closing parenthesis.
    #[tactic(auto, unfolding(crate::specs::laws::Reading::function))]
    fn function(&self, tokens: &mut Cursor<'_>) -> Result<Found, Fault>
        requires { Nests self.now.profile self.now.nesting (F.pre self.now.whole) (F.post self.now.whole) }
        ensures { Reads (spec.function self.now.profile (spec.whole self.now.profile self.now.nesting) self.now.room tokens.old.rest.now) result tokens.new.rest.now }
    {
        let parameters = parameters(self.alloc, tokens, self.profile.locale)?;
        let body = self.inner(tokens, self.room)?;
        if !tokens.closing() {
            drop(body);
            return Err(Fault::Outside);
        }
        Found::lambda(self.alloc, parameters, body)
    }

    #[tactic(auto, unfolding(crate::specs::laws::Reading::argument))]
    fn argument(&self, tokens: &mut Cursor<'_>) -> Result<Found, Fault>
        requires { Nests self.now.profile self.now.nesting (F.pre self.now.whole) (F.post self.now.whole) }
        ensures { Reads (spec.argument self.now.profile (spec.whole self.now.profile self.now.nesting) self.now.room tokens.old.rest.now) result tokens.new.rest.now }
    {
        if tokens.is_empty_here(self.profile.locale) {
            return Ok(Found::leaf(Node::EmptyArgument));
        }
        self.inner(tokens, self.room)
    }

    /// The arguments of a call, up to the closing parenthesis.
    #[tactic(auto, unfolding(crate::specs::laws::Reading::arguments))]
    fn arguments(&self, tokens: &mut Cursor<'_>) -> Result<FoundAll, Fault>
        requires { Nests self.now.profile self.now.nesting (F.pre self.now.whole) (F.post self.now.whole) }
        ensures { Reads (spec.arguments self.now.profile (spec.whole self.now.profile self.now.nesting) self.now.room tokens.old.rest.now) result tokens.new.rest.now }
    {
        let mut found = FoundAll::empty(self.alloc);
        if tokens.closing() {
            return Ok(found);
        }
        for _turn in 0..tokens.rest.len() {
            let argument = self.argument(tokens)?;
            found = found.push(argument)?;
            if !tokens.separator(self.profile.locale)? {
                return Ok(found);
            }
        }
        Err(Fault::Outside)
    }
}

/// A whole, with calls and parentheses nested no deeper than `nesting`, and with at most `room` open
/// parentheses that are no call's.
#[tactic(auto, using(crate::proofs::Loops::turns), unfolding(crate::specs::laws::Reading::whole))]
pub fn whole(
    alloc: Global,
    profile: Profile,
    tokens: &mut Cursor<'_>,
    nesting: u64,
    room: u64,
) -> Result<Found, Fault>
    requires { IsPlace profile.place }
    ensures { Reads (spec.whole profile nesting room tokens.old.rest.now) result tokens.new.rest.now }
{
    if nesting == 0 {
        return Err(Fault::Outside);
    }
    Rules {
        alloc,
        profile,
        nesting: nesting - 1,
        room,
        whole,
    }
    .expression(tokens, LEVELS)
}
