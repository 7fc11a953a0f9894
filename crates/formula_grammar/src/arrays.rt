ghost use Rattle.std.specs.Prelude.{◌≡◌, [], length};
ghost use Rattle.std.specs.List.{list_all};
ghost use Rattle.formula_grammar.specs.Words.{are_even, has_length, negated};
ghost use Rattle.formula_grammar.specs.laws.Reading as spec;
ghost use Rattle.formula_grammar.specs.laws.Outcome.{Reads};

use crate::after_item::AfterItem;
use crate::cursor::Cursor;
use crate::fault::Fault;
use crate::found::Found;
use crate::profile::Profile;
use crate::token::Token;
use base_decimal::Decimal;
use base_tables::{Language, read_boolean};
use base_values::Items;
use formula_tree::{ArrayItem, Node};
use std::alloc::Global;

/// The number behind a minus sign, which is not negative itself.
#[tactic(auto, unfolding(crate::specs::Words::negated))]
fn negated(number: Decimal) -> Option<Decimal>
    ensures { result ≡ negated number }
{
    if number.mantissa < 0 {
        return None;
    }
    Some(Decimal {
        mantissa: -number.mantissa,
        places: number.places,
    })
}

/// A constant of an array.
fn item(language: Language, tokens: &mut Cursor<'_>) -> Result<ArrayItem, Fault>
    ensures { Reads (spec.item language tokens.old.rest.now) result tokens.new.rest.now }
{
    match tokens.rest {
        [Token::Minus, Token::Number(number), rest @ ..] => {
            tokens.rest = rest;
            let value = negated(*number).ok_or(Fault::Outside)?;
            Ok(ArrayItem::Number(value))
        }
        [Token::Number(number), rest @ ..] => {
            tokens.rest = rest;
            Ok(ArrayItem::Number(*number))
        }
        [Token::Text(text), rest @ ..] => {
            tokens.rest = rest;
            Ok(ArrayItem::Text(text.clone()?))
        }
        [Token::Word(word), rest @ ..] => {
            tokens.rest = rest;
            let value = read_boolean(word.as_str(), language).ok_or(Fault::Outside)?;
            Ok(ArrayItem::Boolean(value))
        }
        [Token::Error(error), rest @ ..] => {
            tokens.rest = rest;
            Ok(ArrayItem::Error(*error))
        }
        _ => Err(Fault::Outside),
    }
}

/// Whether each line has this many items.
fn all_of_length(lines: &[Items<ArrayItem>], count: usize) -> bool
    ensures { result ≡ list_all (has_length count) lines.now }
{
    for line in lines {
        if line.len() != count {
            return false;
        }
    }
    true
}

/// Whether the lines have one length.
#[tactic(auto, unfolding(crate::specs::Words::are_even))]
fn are_even(lines: &[Items<ArrayItem>]) -> bool
    ensures { result ≡ are_even lines.now }
{
    match lines {
        [] => true,
        [first, rest @ ..] => all_of_length(rest, first.len()),
    }
}

/// The lines of an array, up to its closing brace.
#[tactic(auto, using(crate::proofs::Loops::turns))]
fn rows(
    alloc: Global,
    profile: Profile,
    tokens: &mut Cursor<'_>,
) -> Result<Items<Items<ArrayItem>>, Fault>
    ensures { Reads (spec.rows_from profile (length tokens.old.rest.now) [] [] tokens.old.rest.now) result tokens.new.rest.now }
{
    let mut lines = Items::empty(alloc);
    let mut line = Items::empty(alloc);
    for _turn in 0..tokens.rest.len() {
        line.push(item(profile.language, tokens)?)?;
        match tokens.after_item(profile.locale)? {
            AfterItem::Column => {}
            AfterItem::Row => {
                lines.push(line)?;
                line = Items::empty(alloc);
            }
            AfterItem::End => {
                lines.push(line)?;
                return Ok(lines);
            }
        }
    }
    Err(Fault::Outside)
}

/// An array, after its opening brace. Outside where its lines differ in length.
#[tactic(auto, using(crate::proofs::Depths::depths), unfolding(crate::specs::laws::Reading::array))]
pub fn array(alloc: Global, profile: Profile, tokens: &mut Cursor<'_>) -> Result<Found, Fault>
    ensures { Reads (spec.array profile tokens.old.rest.now) result tokens.new.rest.now }
{
    let lines = rows(alloc, profile, tokens)?;
    if !are_even(lines.as_slice()) {
        return Err(Fault::Outside);
    }
    Ok(Found::leaf(Node::Array(lines)))
}
