ghost use Rattle.std.specs.Prelude.{◌≡◌, IfOk};
ghost use Rattle.formula_grammar.specs.laws.Reading as spec;
ghost use Rattle.formula_grammar.specs.laws.Outcome.{Reads, Picks};

use crate::cursor::Cursor;
use crate::fault::Fault;
use crate::separators::is_separator;
use crate::token::Token;
use base_tables::Locale;
use base_values::{Items, Text};
use formula_tree::Parameter;
use std::alloc::{AllocError, Global};

fn parameter_of(name: &Text, optional: bool) -> Result<Parameter, AllocError>
    ensures name { IfOk result (λ parameter. parameter.name ≡ name.now) }
    ensures optional { IfOk result (λ parameter. parameter.optional ≡ optional) }
{
    Ok(Parameter {
        name: name.clone()?,
        optional,
    })
}

/// A parameter of a lambda and the separator after it, if they stand here.
fn parameter(tokens: &mut Cursor<'_>, locale: Locale) -> Result<Option<Parameter>, AllocError>
    ensures { IfOk result (λ o. Picks (spec.parameter locale tokens.old.rest.now) o tokens.old.rest.now tokens.new.rest.now) }
{
    match tokens.rest {
        [Token::Word(name), next, rest @ ..] if is_separator(locale, next) => {
            tokens.rest = rest;
            Ok(Some(parameter_of(name, false)?))
        }
        [
            Token::OpenBracket,
            Token::Word(name),
            Token::CloseBracket,
            next,
            rest @ ..,
        ] if is_separator(locale, next) => {
            tokens.rest = rest;
            Ok(Some(parameter_of(name, true)?))
        }
        _ => Ok(None),
    }
}

/// The parameters of a lambda, each with the separator after it.
#[tactic(auto, unfolding(crate::specs::laws::Reading::parameters))]
pub fn parameters(
    alloc: Global,
    tokens: &mut Cursor<'_>,
    locale: Locale,
) -> Result<Items<Parameter>, Fault>
    ensures { Reads (spec.parameters locale tokens.old.rest.now) result tokens.new.rest.now }
{
    let mut found = Items::empty(alloc);
    for _turn in 0..tokens.rest.len() {
        let Some(next) = parameter(tokens, locale)? else {
            return Ok(found);
        };
        found.push(next)?;
    }
    Ok(found)
}
