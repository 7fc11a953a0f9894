ghost use Rattle.std.specs.Prelude.{◌≡◌, ◌<◌, ◌∷◌, false, length, Some, IfSome, IfOk, encode_utf8_all};
ghost use Rattle.std.specs.Str.{chars};
ghost use Rattle.base_decimal.specs.Numeral.{is_exponent_letter};
ghost use Rattle.formula_read.specs.Characters.{goes_on_number};
ghost use Rattle.formula_read.specs.laws.Lex as spec;
ghost use Rattle.formula_read.specs.laws.Outcome.{Cuts, seen};

use crate::characters::{
    Class, ends_before, first, goes_on_word, is_digit, is_letter, past, run, starts_word,
};
use crate::errors::error;
use crate::place::{Spot, place};
use base_decimal::Decimal;
use base_shared::Shared;
use base_tables::{Language, Locale, reads_as_cell};
use base_values::Text;
use formula_grammar::{Profile, Token};
use std::alloc::{AllocError, Global};

/// A copy of the text.
#[tactic(auto, using(crate::proofs::Lexing::encoded))]
fn copy(alloc: Global, text: &str) -> Result<Text, AllocError>
    ensures { IfOk result (λ copy. copy ≡ encode_utf8_all (chars text.now)) }
{
    Ok(Text::new(String::from_str(alloc, text)?))
}

fn place_token(sheet: Option<Shared<Text>>, place: Spot) -> Token
    ensures { result ≡ spec.place_token sheet place }
{
    match place {
        Spot::Cell(mark) => Token::Reference(sheet, mark),
        Spot::Range(first, second) => Token::Range(sheet, first, second),
    }
}

/// A range, or else a cell, at the front of the text, which stands on this sheet.
fn place_on(sheet: Option<Shared<Text>>, text: &str) -> Option<(Token, &str)>
    ensures { seen result ≡ spec.place_at sheet (chars text.now) }
{
    let (found, rest) = place(text)?;
    Some((place_token(sheet, found), rest))
}

/// What stands on the sheet, behind its name.
fn on_sheet(sheet: Shared<Text>, text: &str) -> Option<(Token, &str)>
    ensures { seen result ≡ spec.on_sheet sheet (chars text.now) }
{
    let (_, rest) = run(Class::Blank, past('!', text)?);
    place_on(Some(sheet), rest)
}

/// A word, or what stands on the sheet that a word names.
#[tactic(auto, unfolding(crate::specs::laws::Lex::word_at))]
fn word(alloc: Global, text: &str) -> Result<Option<(Token, &str)>, AllocError>
    ensures { IfOk result (λ found. seen found ≡ spec.word_at (chars text.now)) }
{
    let (word, rest) = run(Class::Word, text);
    if ends_before('!', rest) {
        return Ok(Some((Token::Word(copy(alloc, word)?), rest)));
    }
    if reads_as_cell(word) {
        return Ok(None);
    }
    Ok(on_sheet(Shared::new(alloc, copy(alloc, word)?)?, rest))
}

fn goes_on_number(locale: Locale, c: char) -> bool
    ensures { result ≡ goes_on_number locale c }
{
    goes_on_word(c) || c == locale.decimal_sign()
}

fn in_number(locale: Locale, after_letter: bool, c: char) -> bool
    ensures { result ≡ spec.in_number locale after_letter c }
{
    (after_letter && (c == '+' || c == '-')) || goes_on_number(locale, c)
}

fn is_exponent_letter(c: char) -> bool
    ensures { result ≡ is_exponent_letter c }
{
    c == 'e' || c == 'E'
}

/// The length in bytes of the longest front that may be a number.
fn number_len(locale: Locale, text: &str) -> usize
    ensures { Cuts text.now result (spec.number_span locale false (chars text.now)) }
{
    let mut rest = text;
    let mut after_letter = false;
    while let Some((c, more)) = first(rest) {
        if !in_number(locale, after_letter, c) {
            return text.len() - rest.len();
        }
        after_letter = is_exponent_letter(c);
        rest = more;
    }
    text.len() - rest.len()
}

/// The number at the front of the text. It takes no memory.
#[tactic(auto, unfolding(crate::specs::laws::Lex::number_at), using(crate::proofs::Lexing::encoded))]
fn number(locale: Locale, text: &str) -> Option<(Token, &str)>
    ensures { seen result ≡ spec.number_at locale (chars text.now) }
{
    let (front, rest) = text.split_at(number_len(locale, text));
    let number = Decimal::read(front, locale)?;
    Some((Token::Number(number), rest))
}

/// What stands next between quotes, and what follows: a character, where a doubled quote is one, or
/// nothing at the closing quote. `None` where the text ends before it.
#[tactic(auto, using(crate::proofs::Lexing::quote_behind))]
fn next_quoted(quote: char, text: &str) -> Option<(Option<char>, &str)>
    ensures value { spec.quoted quote false (chars text.now) ≡ spec.goes_on quote (seen result) }
    ensures shorter { IfSome result (λ next. length next.1.now < length text.now) }
{
    let (c, rest) = first(text)?;
    if c != quote {
        return Some((Some(c), rest));
    }
    match past(quote, rest) {
        Some(rest) => Some((Some(quote), rest)),
        None => Some((None, rest)),
    }
}

/// What stands before the closing quote, with doubled quotes as one, and what follows it.
#[tactic(auto, using(crate::proofs::Lexing::quotes))]
fn quoted(alloc: Global, quote: char, text: &str) -> Result<Option<(Text, &str)>, AllocError>
    ensures { IfOk result (λ found. seen found ≡ spec.quoted_text quote (chars text.now)) }
{
    let mut value = String::new(alloc);
    let mut rest = text;
    while let Some((next, more)) = next_quoted(quote, rest) {
        match next {
            Some(c) => value.push(c)?,
            None => return Ok(Some((Text::new(value), more))),
        }
        rest = more;
    }
    Ok(None)
}

#[tactic(auto, unfolding(crate::specs::laws::Lex::text_at))]
fn text_token(alloc: Global, text: &str) -> Result<Option<(Token, &str)>, AllocError>
    ensures { IfOk result (λ found. seen found ≡ spec.text_at (chars text.now)) }
{
    match quoted(alloc, '"', text) {
        Ok(Some((value, rest))) => Ok(Some((Token::Text(value), rest))),
        Ok(None) => Ok(None),
        Err(error) => Err(error),
    }
}

#[tactic(auto, unfolding(crate::specs::laws::Lex::quoted_sheet_at))]
fn quoted_sheet(alloc: Global, text: &str) -> Result<Option<(Token, &str)>, AllocError>
    ensures { IfOk result (λ found. seen found ≡ spec.quoted_sheet_at (chars text.now)) }
{
    match quoted(alloc, '\'', text) {
        Ok(Some((sheet, rest))) if !sheet.as_str().is_empty() => {
            Ok(on_sheet(Shared::new(alloc, sheet)?, rest))
        }
        Ok(_) => Ok(None),
        Err(error) => Err(error),
    }
}

/// An error's text, or a hash. The text begins with a hash, and `rest` follows that.
fn error_or_hash<'a>(language: Language, text: &'a str, rest: &'a str) -> (Token, &'a str)
    ensures { Some (result.0, chars result.1.now) ≡ spec.error_or_hash (chars rest.now) (spec.error_at language (chars text.now)) }
{
    match error(language, text) {
        Some((error, rest)) => (Token::Error(error), rest),
        None => (Token::Hash, rest),
    }
}

/// Behind `<`.
fn behind_less(text: &str) -> (Token, &str)
    ensures { Some (result.0, chars result.1.now) ≡ spec.behind_less (chars text.now) }
{
    if let Some(rest) = past('>', text) {
        return (Token::NotEqual, rest);
    }
    match past('=', text) {
        Some(rest) => (Token::LessOrEqual, rest),
        None => (Token::Less, text),
    }
}

/// Behind `>`.
fn behind_greater(text: &str) -> (Token, &str)
    ensures { Some (result.0, chars result.1.now) ≡ spec.behind_greater (chars text.now) }
{
    match past('=', text) {
        Some(rest) => (Token::GreaterOrEqual, rest),
        None => (Token::Greater, text),
    }
}

/// A token of one character that begins no other.
fn single(c: char) -> Option<Token>
    ensures { result ≡ spec.single c }
{
    match c {
        '=' => Some(Token::Equal),
        '&' => Some(Token::Ampersand),
        '+' => Some(Token::Plus),
        '-' => Some(Token::Minus),
        '*' => Some(Token::Times),
        '/' => Some(Token::Divide),
        '^' => Some(Token::Power),
        '%' => Some(Token::Percent),
        '@' => Some(Token::At),
        ':' => Some(Token::Colon),
        '(' => Some(Token::OpenParenthesis),
        ')' => Some(Token::CloseParenthesis),
        '{' => Some(Token::OpenBrace),
        '}' => Some(Token::CloseBrace),
        '[' => Some(Token::OpenBracket),
        ']' => Some(Token::CloseBracket),
        ',' => Some(Token::Comma),
        ';' => Some(Token::Semicolon),
        _ => None,
    }
}

/// Whether a character of ASCII begins no place, no number and no word.
fn is_sign(c: char) -> bool
    ensures { result ≡ spec.is_sign c }
{
    c.is_ascii() && !(is_letter(c) || is_digit(c) || c == '_' || c == '$')
}

/// The token that such a character begins. It stands at the front of `text`, and `rest` follows it.
#[tactic(auto, unfolding(crate::specs::laws::Lex::by_sign))]
fn by_sign<'a>(
    alloc: Global,
    language: Language,
    c: char,
    text: &'a str,
    rest: &'a str,
) -> Result<Option<(Token, &'a str)>, AllocError>
    requires { chars text.now ≡ c ∷ chars rest.now }
    ensures { IfOk result (λ found. seen found ≡ spec.by_sign language c (chars rest.now)) }
{
    match c {
        '"' => text_token(alloc, rest),
        '\'' => quoted_sheet(alloc, rest),
        '#' => Ok(Some(error_or_hash(language, text, rest))),
        '<' => Ok(Some(behind_less(rest))),
        '>' => Ok(Some(behind_greater(rest))),
        _ => match single(c) {
            Some(token) => Ok(Some((token, rest))),
            None => Ok(None),
        },
    }
}

/// The number or the word at the front of the text, which begins with this character.
fn plain(
    alloc: Global,
    locale: Locale,
    c: char,
    text: &str,
) -> Result<Option<(Token, &str)>, AllocError>
    ensures { IfOk result (λ found. seen found ≡ spec.plain_at locale c (chars text.now)) }
{
    if is_digit(c) {
        return Ok(number(locale, text));
    }
    if starts_word(c) {
        return word(alloc, text);
    }
    Ok(None)
}

/// The token at the front of the text, and what follows it. The first character decides what is tried.
#[tactic(auto, unfolding(crate::specs::laws::Lex::token_at))]
pub fn token(
    alloc: Global,
    profile: Profile,
    text: &str,
) -> Result<Option<(Token, &str)>, AllocError>
    ensures { IfOk result (λ found. seen found ≡ spec.token_at profile.locale profile.language (chars text.now)) }
{
    let Some((c, rest)) = first(text) else {
        return Ok(None);
    };
    if is_sign(c) {
        return by_sign(alloc, profile.language, c, text, rest);
    }
    match place_on(None, text) {
        Some(found) => Ok(Some(found)),
        None => plain(alloc, profile.locale, c, text),
    }
}
