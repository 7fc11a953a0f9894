ghost use Rattle.std.specs.Prelude.{◌≡◌, ℕ, ◌+◌, ◌-◌, ◌*◌, ◌^◌, ◌<◌, ◌≤◌, ◌++◌, length, take, drop, true, IfSome, List};
ghost use Rattle.std.specs.List.{list_all};
ghost use Rattle.base_decimal.specs.Digits.{is_digit, number_of};
ghost use Rattle.base_decimal.specs.laws.Reading.{decimal_of, value_at};
ghost use Rattle.base_decimal.specs.Value.{decimal_from, fifteen_places, canonical_of};

use crate::decimal::{Decimal, from_parts};
use crate::digits::{LIMIT, are_zero, digits, raised, trim};
use crate::numeral::{Scale, exponent, fraction};
use base_tables::capped_number;

/// Cuts this many digits off at the end, or all where there are fewer.
#[tactic(auto, using(crate::proofs::Fifteen::front_all))]
fn cut_end(digits: &[u8], count: usize) -> (&[u8], &[u8])
    requires { list_all is_digit digits.now ≡ true }
    ensures all { list_all is_digit result.0.now ≡ true }
    ensures front { result.0.now ≡ take (length digits.now - count) digits.now }
    ensures back { result.1.now ≡ drop (length digits.now - count) digits.now }
{
    digits.split_at(digits.len().saturating_sub(count))
}

/// A number in units of the fifteenth place, if it is a whole number of them and has at most 15
/// digits before the point.
fn at_fifteen(whole: &[u8], fraction: &[u8], scale: Scale) -> Option<u128>
    requires whole { list_all is_digit whole.now ≡ true }
    requires fraction { list_all is_digit fraction.now ≡ true }
    ensures value { result
        ≡ fifteen_places (number_of (whole.now ++ fraction.now) * 10 ^ scale.up)
        (length fraction.now + scale.down) }
    ensures small { IfSome result (λ n. n < 10 ^ 30) }
{
    let places = fraction.len() + usize::from(scale.down);
    let up = usize::from(scale.up) + 15;
    let cut = places.saturating_sub(up);
    let (front, front_cut) = cut_end(whole, cut.saturating_sub(fraction.len()));
    let (back, back_cut) = cut_end(fraction, cut);
    if !(are_zero(front_cut) && are_zero(back_cut)) {
        return None;
    }
    let number = capped_number(capped_number(0, front, LIMIT), back, LIMIT);
    raised(number, up.saturating_sub(places))
}

/// The canonical decimal that digits and a power of ten write, if there is one.
#[tactic(auto, unfolding(crate::specs::Value::canonical_of))]
fn kept(negative: bool, whole: &[u8], fraction: &[u8], scale: Scale) -> Option<Decimal>
    requires whole { list_all is_digit whole.now ≡ true }
    requires fraction { list_all is_digit fraction.now ≡ true }
    ensures { result
        ≡ canonical_of negative (number_of (whole.now ++ fraction.now) * 10 ^ scale.up)
        (length fraction.now + scale.down) }
{
    let Some(number) = at_fifteen(whole, fraction, scale) else {
        return None;
    };
    let (mantissa, places) = trim(number, 15);
    Some(from_parts(negative, mantissa, places))
}

/// The canonical decimal that a text without a minus writes, if there is one. Its sign is given.
#[tactic(auto, unfolding(crate::specs::laws::Reading::numeral_at))]
fn number_value(text: &[u8], mark: u8, negative: bool) -> Option<Decimal>
    ensures { result ≡ value_at mark negative text.now }
{
    let (whole, rest) = digits(text);
    if whole.is_empty() {
        return None;
    }
    let (fraction, rest) = fraction(rest, mark);
    let Some((scale, rest)) = exponent(rest) else {
        return None;
    };
    if !rest.is_empty() {
        return None;
    }
    kept(negative, whole, fraction, scale)
}

/// The canonical decimal that a whole text writes, if there is one.
#[tactic(auto, unfolding(crate::specs::laws::Reading::decimal_of, crate::specs::laws::Reading::numeral_at))]
pub fn read(text: &[u8], mark: u8) -> Option<Decimal>
    ensures { result ≡ decimal_of mark text.now }
{
    match text {
        [b, rest @ ..] if *b == b'-' => number_value(rest, mark, true),
        _ => number_value(text, mark, false),
    }
}
