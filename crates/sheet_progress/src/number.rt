ghost use Rattle.std.specs.Prelude.{◌≡◌, ◌^◌, ◌≤◌, ◌++◌, ◌∷◌, [], length, filter, pos, IfOk, IfSome, OnOk, IsOkUnless, string_bytes, encode_utf8_all};
ghost use Rattle.std.specs.List.{prefix_len, list_all};
ghost use Rattle.std.specs.Str.{chars};
ghost use Rattle.base_values.specs.declared.EditError.TheVariants.{NoMemory};
ghost use Rattle.base_tables.specs.Locale.{decimal_sign, group_sign};
ghost use Rattle.base_tables.specs.Word.{is_digit};
ghost use Rattle.base_decimal.specs.Arithmetic.{rounded};
ghost use Rattle.base_decimal.specs.Canonical.{IsCanonical};
ghost use Rattle.sheet_progress.specs.Numbers.{are_groups, is_whole_part, is_fraction, is_other, is_unsigned, is_number, ungrouped, decimal_in, number_in, units, number_text};
ghost use Rattle.sheet_progress.specs.Steps.{IsWithin};

use crate::characters::characters;
use base_decimal::Decimal;
use base_tables::Locale;
use base_values::EditError;
use std::alloc::{AllocError, Global};

fn digit_count(text: &[char]) -> usize
    ensures value { result ≡ prefix_len is_digit text.now }
    ensures within { result ≤ length text.now }
{
    for (at, c) in text.iter().enumerate() {
        if !c.is_ascii_digit() {
            return at;
        }
    }
    text.len()
}

fn place_of(text: &[char], sign: char) -> usize
    ensures value { result ≡ prefix_len (is_other sign) text.now }
    ensures within { result ≤ length text.now }
{
    for (at, c) in text.iter().enumerate() {
        if *c == sign {
            return at;
        }
    }
    text.len()
}

fn are_groups(text: &[char], sign: char) -> bool
    ensures { result ≡ are_groups sign text.now }
{
    let mut rest = text;
    while let [c, x, y, z, tail @ ..] = rest {
        if !(*c == sign && x.is_ascii_digit() && y.is_ascii_digit() && z.is_ascii_digit()) {
            return false;
        }
        rest = tail;
    }
    rest.is_empty()
}

fn is_whole_part(text: &[char], sign: char) -> bool
    ensures { result ≡ is_whole_part sign text.now }
{
    let (digits, groups) = text.split_at(digit_count(text));
    !digits.is_empty() && (groups.is_empty() || digits.len() <= 3 && are_groups(groups, sign))
}

fn are_digits(text: &[char]) -> bool
    ensures { result ≡ list_all is_digit text.now }
{
    text.iter().all(|c| c.is_ascii_digit())
}

fn is_fraction(text: &[char], mark: char) -> bool
    ensures { result ≡ is_fraction mark text.now }
{
    match text {
        [c, digits @ ..] => *c == mark && are_digits(digits),
        [] => true,
    }
}

fn is_unsigned(text: &[char], mark: char, sign: char) -> bool
    ensures { result ≡ is_unsigned mark sign text.now }
{
    let (whole, fraction) = text.split_at(place_of(text, mark));
    is_whole_part(whole, sign) && is_fraction(fraction, mark)
}

#[tactic(auto, unfolding(crate::specs::Numbers::is_number))]
fn is_number(text: &[char], mark: char, sign: char) -> bool
    ensures { result ≡ is_number mark sign text.now }
{
    match text {
        [c, rest @ ..] if *c == '-' => is_unsigned(rest, mark, sign),
        [] => false,
        _ => is_unsigned(text, mark, sign),
    }
}

fn push_other(c: char, sign: char, out: &mut String) -> Result<(), AllocError>
    ensures { OnOk result (string_bytes out.new ≡ string_bytes out.old ++ encode_utf8_all (filter (is_other sign) (c ∷ []))) }
{
    if c != sign {
        out.push(c)?;
    }
    Ok(())
}

#[tactic(auto, using(crate::proofs::Others::others_turn))]
fn push_others(text: &str, sign: char, out: &mut String) -> Result<(), AllocError>
    ensures { OnOk result (string_bytes out.new ≡ string_bytes out.old ++ encode_utf8_all (filter (is_other sign) (chars text.now))) }
{
    for c in text.chars() {
        push_other(c, sign, out)?;
    }
    Ok(())
}

fn without(alloc: Global, text: &str, sign: char) -> Result<String, AllocError>
    ensures { IfOk result (λ rest. string_bytes rest ≡ encode_utf8_all (filter (is_other sign) (chars text.now))) }
{
    let mut rest = String::new(alloc);
    push_others(text, sign, &mut rest)?;
    Ok(rest)
}

fn is_number_in(alloc: Global, text: &str, locale: Locale) -> Result<bool, AllocError>
    ensures { IfOk result (λ is. is ≡ is_number (decimal_sign locale) (group_sign locale) (chars text.now)) }
{
    let characters = characters(alloc, text)?;
    Ok(is_number(&characters, locale.decimal_sign(), locale.group_sign()))
}

fn ungrouped(alloc: Global, text: &str, locale: Locale) -> Result<String, AllocError>
    ensures { IfOk result (λ rest. string_bytes rest ≡ ungrouped locale text.now) }
{
    without(alloc, text, locale.group_sign())
}

/// The decimal that a text writes.
fn decimal_in(alloc: Global, text: &str, locale: Locale) -> Result<Option<Decimal>, AllocError>
    ensures value { IfOk result (λ number. number ≡ decimal_in locale text.now) }
    ensures canonical { IfOk result (λ number. IfSome number IsCanonical) }
{
    if !is_number_in(alloc, text, locale)? {
        return Ok(None);
    }
    let plain = ungrouped(alloc, text, locale)?;
    Ok(Decimal::read(plain.as_str(), locale))
}

/// Ten to a power.
fn ten_to(power: u8) -> i128
    requires { power ≤ 15 }
    ensures { result ≡ pos (10 ^ power) }
{
    i128::from(10_u64.pow(u32::from(power)))
}

/// A number rounded to 15 digits, in units of the fifteenth place.
fn rounded_units(number: &Decimal) -> i128
    requires { IsCanonical number.now }
    ensures value { result ≡ units (rounded number.now) }
    ensures within { IsWithin (10 ^ 30) result }
{
    let rounded = number.round15();
    rounded.mantissa * ten_to(15 - rounded.places)
}

/// The number that a text writes, rounded to 15 digits, in units of the fifteenth place.
#[tactic(auto, unfolding(crate::specs::Numbers::number_in))]
pub fn number_in(alloc: Global, text: &str, locale: Locale) -> Result<Option<i128>, EditError>
    ensures value { IfOk result (λ number. number ≡ number_in locale text.now) }
    ensures within { IfOk result (λ number. IfSome number (IsWithin (10 ^ 30))) }
    ensures only { IsOkUnless result NoMemory }
{
    match decimal_in(alloc, text, locale)? {
        Some(number) => Ok(Some(rounded_units(&number))),
        None => Ok(None),
    }
}

/// The text of a number in units of the fifteenth place, rounded to 15 digits.
pub fn number_text(alloc: Global, number: i128, locale: Locale) -> Result<String, EditError>
    ensures text { IfOk result (λ text. string_bytes text ≡ number_text locale number) }
    ensures only { IsOkUnless result NoMemory }
{
    let exact = Decimal {
        mantissa: number,
        places: 15,
    };
    exact.round15().print(alloc, locale)
}
