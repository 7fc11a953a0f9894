ghost use Rattle.std.specs.Prelude.{◌≡◌, ◌++◌, OnOk, string_bytes};
ghost use Rattle.base_tables.specs.Locale.{decimal_sign};
ghost use Rattle.base_decimal.specs.Printed.{printed};

use base_decimal::Decimal;
use base_tables::Locale;
use std::alloc::AllocError;

/// Writes a number in plain digits at the end, with the locale's decimal sign and without zeros at the
/// end of the places. A number without places needs no text of its own.
#[tactic(auto, using(crate::proofs::Numbers::whole_number))]
pub fn push_number(out: &mut String, number: &Decimal, locale: Locale) -> Result<(), AllocError>
    ensures { OnOk result (string_bytes out.new ≡ string_bytes out.old ++ printed (decimal_sign locale) number.now) }
{
    if number.places == 0 {
        return write!(out, "{}", number.mantissa);
    }
    match number.print(*out.allocator(), locale) {
        Ok(text) => out.push_str(text.as_str()),
        Err(_) => Err(AllocError),
    }
}
