ghost use Rattle.std.specs.Prelude.{◌≡◌, ◌+◌, ◌-◌, ◌*◌, ◌^◌, ◌<◌, ◌≤◌, length, take, drop, true, IsTrue, ◌↔◌, ◌==◌, nat_lt, Some, None, IfSome, if◌then◌else◌};
ghost use Rattle.std.specs.List.{list_all};
ghost use Rattle.base_decimal.specs.Digits.{is_digit, span};
ghost use Rattle.base_decimal.specs.Value.{trim};

use base_tables::digits_len;

/// A number as large as this has more than 15 digits before the point, when it counts units of
/// the fifteenth place after it.
pub const LIMIT: u128 = 1_000_000_000_000_000_000_000_000_000_000;

/// The digits at the front of a text, and what follows them.
#[tactic(auto, using(crate::proofs::Runs::spans))]
pub fn digits(text: &[u8]) -> (&[u8], &[u8])
    ensures all { list_all is_digit result.0.now ≡ true }
    ensures front { result.0.now ≡ (span is_digit text.now).0 }
    ensures rest { result.1.now ≡ (span is_digit text.now).1 }
{
    let len = digits_len(text);
    text.split_at(len)
}

pub fn digit_value(digit: u8) -> u8
    requires { IsTrue (is_digit digit) }
    ensures value { result ≡ digit - 48 }
    ensures small { result < 10 }
{
    digit - b'0'
}

/// Whether all digits are zeros.
pub fn are_zero(digits: &[u8]) -> bool
    ensures { result ≡ list_all (λ b. b == 48) digits.now }
{
    digits.iter().all(|digit| *digit == b'0')
}

/// Ten to a power.
#[tactic(auto, using(crate::proofs::Runs::ten_fits))]
pub fn ten_to(power: u32) -> u128
    requires { power ≤ 38 }
    ensures value { result ≡ 10 ^ power }
    ensures positive { 0 < result }
{
    10u128.pow(power)
}

/// A number times a power of ten, if that stays below `LIMIT`.
pub fn raised(number: u128, power: usize) -> Option<u128>
    requires { number ≤ LIMIT }
    ensures value { result
        ≡ (if nat_lt (number * 10 ^ power) LIMIT then Some (number * 10 ^ power) else None) }
    ensures small { IfSome result (λ n. n < LIMIT) }
{
    if number == 0 {
        return Some(0);
    }
    if power >= 30 || number >= ten_to(30 - power as u32) {
        return None;
    }
    Some(number * ten_to(power as u32))
}

/// A mantissa and its places, without the zero digits at the end of the places.
pub fn trim(number: u128, places: u8) -> (u128, u8)
    ensures number { result.0 ≡ (trim number places).0 }
    ensures places { result.1 ≡ (trim number places).1 }
    ensures below { result.0 ≤ number }
{
    let mut number = number;
    let mut places = places;
    while places > 0 && number % 10 == 0 {
        number /= 10;
        places -= 1;
    }
    (number, places)
}
