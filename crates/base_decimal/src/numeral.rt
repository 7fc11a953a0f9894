ghost use Rattle.std.specs.Prelude.{◌≡◌, ℕ, ◌+◌, ◌*◌, ◌^◌, ◌<◌, ◌≤◌, ◌++◌, length, true, Some, None, IfSome, if◌then◌else◌};
ghost use Rattle.std.specs.List.{list_all};
ghost use Rattle.std.specs.Option.{option_map};
ghost use Rattle.base_decimal.specs.Digits.{is_digit, number_of};
ghost use Rattle.base_decimal.specs.Numeral.{is_exponent_len, is_exponent_letter, exponent_scale, fraction_digits, sign_scale};
ghost use Rattle.base_decimal.specs.laws.Reading.{exponent_after, exponent_at, fraction_at, sign_at};
ghost use Rattle.base_decimal.specs.Seen.{seen};
ghost use Rattle.base_decimal.specs.Value.{fifteen_places};

use crate::digits::{digit_value, digits};

/// What stands before the digits of an exponent.
#[derive(Clone, Copy)]
pub enum Sign {
    Absent,
    Plus,
    Minus,
}

/// The power of ten that an exponent multiplies by, and the one that it divides by.
#[derive(Clone, Copy)]
pub struct Scale {
    pub up: u16,
    pub down: u16,
}

/// The digits behind the decimal sign at the front of a text, if it is there, and what follows.
pub fn fraction(text: &[u8], mark: u8) -> (&[u8], &[u8])
    ensures all { list_all is_digit result.0.now ≡ true }
    ensures digits { result.0.now ≡ fraction_digits (fraction_at mark text.now).0 }
    ensures rest { result.1.now ≡ (fraction_at mark text.now).1 }
{
    match text {
        [b, rest @ ..] if *b == mark => digits(rest),
        _ => (&text[..0], text),
    }
}

fn front_sign(text: &[u8]) -> (Sign, &[u8])
    ensures sign { result.0 ≡ (sign_at text.now).0 }
    ensures rest { result.1.now ≡ (sign_at text.now).1 }
{
    match text {
        [b, rest @ ..] if *b == b'+' => (Sign::Plus, rest),
        [b, rest @ ..] if *b == b'-' => (Sign::Minus, rest),
        _ => (Sign::Absent, text),
    }
}

fn signed_scale(sign: Sign, power: u16) -> Scale
    ensures { result ≡ sign_scale sign power }
{
    match sign {
        Sign::Absent | Sign::Plus => Scale { up: power, down: 0 },
        Sign::Minus => Scale { up: 0, down: power },
    }
}

/// The number that one to three digits write.
fn small_number(digits: &[u8]) -> Option<u16>
    requires { list_all is_digit digits.now ≡ true }
    ensures { result ≡ (if is_exponent_len (length digits.now) then Some (number_of digits.now) else None) }
{
    match digits {
        [a] => Some(u16::from(digit_value(*a))),
        [a, b] => Some(u16::from(digit_value(*a)) * 10 + u16::from(digit_value(*b))),
        [a, b, c] => Some(
            (u16::from(digit_value(*a)) * 10 + u16::from(digit_value(*b))) * 10
                + u16::from(digit_value(*c)),
        ),
        _ => None,
    }
}

fn exponent_after(text: &[u8]) -> Option<(Scale, &[u8])>
    ensures { (letter : ℕ)
        → seen result
        ≡ option_map (λ p. (exponent_scale p.0, p.1)) (exponent_after letter (sign_at text.now)) }
{
    let (sign, rest) = front_sign(text);
    let (digits, rest) = digits(rest);
    let Some(power) = small_number(digits) else {
        return None;
    };
    Some((signed_scale(sign, power), rest))
}

/// The exponent at the front of a text, if one is there, and what follows. None where a letter
/// that begins an exponent is followed by no exponent.
pub fn exponent(text: &[u8]) -> Option<(Scale, &[u8])>
    ensures { seen result ≡ option_map (λ p. (exponent_scale p.0, p.1)) (exponent_at text.now) }
{
    match text {
        [letter, rest @ ..] if *letter == b'e' || *letter == b'E' => exponent_after(rest),
        _ => Some((Scale { up: 0, down: 0 }, text)),
    }
}
