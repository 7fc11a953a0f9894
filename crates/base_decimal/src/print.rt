ghost use Rattle.std.specs.Prelude.{◌≡◌, ◌+◌, ◌*◌, ◌/◌, ◌%◌, ◌^◌, ◌<◌, ◌≤◌, ◌++◌, ◌∷◌, [], decimal, OnOk, IfOk};
ghost use Rattle.std.specs.String.{string_bytes};
ghost use Rattle.base_decimal.specs.Numeral.{minus_text};
ghost use Rattle.base_decimal.specs.Printed.{last_digits, places_text, printed};

use crate::decimal::Decimal;
use crate::digits::{ten_to, trim};
use std::alloc::{AllocError, Global};

fn push_byte(text: &mut String, byte: u8) -> Result<(), AllocError>
    requires { byte < 128 }
    ensures { OnOk result (string_bytes text.new ≡ string_bytes text.old ++ byte ∷ []) }
{
    text.push(char::from(byte))
}

/// The digits of a number without its last ones.
#[tactic(auto, using(crate::proofs::Prints::far_whole))]
fn without_last(number: u128, count: u8) -> u128
    ensures { result ≡ number / 10 ^ count }
{
    if count > 38 {
        return 0;
    }
    number / ten_to(u32::from(count))
}

fn push_last_digits(text: &mut String, number: u128, count: u8) -> Result<(), AllocError>
    ensures { OnOk result (string_bytes text.new ≡ string_bytes text.old ++ last_digits count number) }
{
    let mut left = count;
    while left > 0 {
        left -= 1;
        push_byte(text, b'0' + (without_last(number, left) % 10) as u8)?;
    }
    Ok(())
}

fn push_places(text: &mut String, mark: u8, number: u128, places: u8) -> Result<(), AllocError>
    requires { mark < 128 }
    ensures { OnOk result (string_bytes text.new ≡ string_bytes text.old ++ places_text mark places number) }
{
    if places == 0 {
        return Ok(());
    }
    push_byte(text, mark)?;
    push_last_digits(text, number, places)
}

fn whole_text(alloc: Global, negative: bool, whole: u128) -> Result<String, AllocError>
    ensures { IfOk result (λ text. string_bytes text ≡ minus_text negative ++ decimal whole) }
{
    if negative {
        format!(in alloc; "-{whole}")
    } else {
        format!(in alloc; "{whole}")
    }
}

/// The text of a decimal, where `mark` is the decimal sign.
#[tactic(auto, unfolding(crate::specs::Printed::printed))]
pub fn print(alloc: Global, number: &Decimal, mark: u8) -> Result<String, AllocError>
    requires { mark < 128 }
    ensures { IfOk result (λ text. string_bytes text ≡ printed mark number.now) }
{
    let (digits, places) = trim(number.mantissa.unsigned_abs(), number.places);
    let mut text = whole_text(alloc, number.mantissa < 0, without_last(digits, places))?;
    push_places(&mut text, mark, digits, places)?;
    Ok(text)
}
