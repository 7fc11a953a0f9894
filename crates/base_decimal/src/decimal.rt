ghost use Rattle.std.specs.Prelude.{◌≡◌, ◌+◌, ◌/◌, ◌^◌, ◌<◌, ◌≤◌, ◌↔◌, IsTrue, IfOk, IfSome, IsOkUnless, Some, FitsSigned, ◌*ℤ◌};
ghost use Rattle.std.specs.Int.{w128};
ghost use Rattle.base_decimal.specs.Arithmetic.{IsRounded, SumFits, common_places, excess, mantissa_at, nearest, rounded, sum_of};
ghost use Rattle.std.specs.String.{string_bytes};
ghost use Rattle.base_decimal.specs.Value.{SameValue, decimal_from};
ghost use Rattle.base_tables.specs.Locale.{decimal_sign};
ghost use Rattle.base_values.specs.declared.error.EditError.TheVariants.{NoMemory};

use crate::digits::{ten_to, trim};
use crate::{print, value};
use base_tables::Locale;
use base_values::{EditError, Exact};
use std::alloc::Global;

/// A number: the mantissa over 10 to the power of the places.
///
/// The numbers of workbooks are canonical: at most 15 digits on each side of the point, and no zero
/// digit at the end of the places.
#[derive(Clone, Copy, Debug, PartialEq, Eq)]
pub struct Decimal {
    pub mantissa: i128,
    pub places: u8,
}

impl Exact for Decimal {
    ghost use Rattle.std.proofs.Common.{rules};
    ghost use Rattle.base_decimal.specs.laws.DecimalEquals.{decimal_equals};

    ghost copies = { λ a b h. Prim.search rules };

    ghost equals = { decimal_equals };
}

/// The locale's decimal sign, which is ASCII.
fn sign_byte(locale: Locale) -> u8
    ensures { result ≡ decimal_sign locale }
{
    locale.decimal_sign() as u8
}

impl Decimal {
    ghost use Rattle.base_decimal.specs.declared.decimal.Decimal.{Decimal as AnyDecimal};
    ghost use Rattle.base_decimal.specs.Canonical.{IsCanonical};
    ghost use Rattle.base_decimal.specs.Numeral.{Reads};
    ghost use Rattle.base_decimal.specs.laws.Reading.{decimal_of};
    ghost use Rattle.base_decimal.specs.Printed.{printed};

    /// The number that a text writes: maybe a minus, then digits, maybe the locale's decimal sign
    /// and any count of digits, maybe `e` or `E`, a sign and one to three digits. None where the
    /// text is no such number, or where its value has more than 15 digits on a side of the point.
    /// It takes no memory.
    #[tactic(auto, using(crate::proofs::Marks::readings))]
    pub fn read(text: &str, locale: Locale) -> Option<Decimal>
        ensures value { result ≡ decimal_of (decimal_sign locale) text.now }

        // The canonical decimal that the text reads as, and None only where there is none.
        ensures found { IfSome result (Reads (decimal_sign locale) text.now) }
        ensures canonical { IfSome result IsCanonical }
        ensures only { (d : AnyDecimal) → Reads (decimal_sign locale) text.now d → result ≡ Some d }
    {
        value::read(text.as_bytes(), sign_byte(locale))
    }

    /// The number in plain digits, with the locale's decimal sign and without zeros at the end of
    /// the places. `NoMemory` where memory runs out.
    #[tactic(auto, using(crate::proofs::Marks::printings))]
    pub fn print(&self, alloc: Global, locale: Locale) -> Result<String, EditError>
        ensures text { IfOk result (λ text. string_bytes text ≡ printed (decimal_sign locale) self.now) }
        ensures memory { IsOkUnless result NoMemory }

        // A canonical decimal reads back.
        ensures back { IsCanonical self.now
            → IfOk result (λ text. decimal_of (decimal_sign locale) (string_bytes text) ≡ Some self.now) }
    {
        Ok(print::print(alloc, self, sign_byte(locale))?)
    }

    /// Whether the number is canonical: at most 15 digits on each side of the point, and no zero digit
    /// at the end of the places.
    #[tactic(auto, unfolding(crate::specs::Canonical::is_canonical))]
    pub fn is_canonical(&self) -> bool
        ensures { IsTrue result ↔ IsCanonical self.now }
    {
        let digits = self.mantissa.unsigned_abs();
        self.places <= 15
            && digits < ten_to(15 + u32::from(self.places))
            && !(self.places > 0 && digits % 10 == 0)
    }

    /// The sum, with the greater of the two places. Both numbers and the sum must fit 128 bits with
    /// these places.
    pub fn add(&self, other: &Decimal) -> Decimal
        requires { SumFits self.now other.now }
        ensures places { result.places ≡ common_places self.now other.now }
        ensures value { SameValue result (sum_of self.now other.now) }
    {
        let places = self.places.max(other.places);
        Decimal {
            mantissa: mantissa_at(self, places) + mantissa_at(other, places),
            places,
        }
    }

    /// The product with a whole number, with the same places. It must fit 128 bits.
    pub fn scale(&self, by: i128) -> Decimal
        requires { FitsSigned w128 (self.now.mantissa *ℤ by) }
        ensures { result ≡ record self.now { mantissa = self.now.mantissa *ℤ by } }
    {
        Decimal {
            mantissa: self.mantissa * by,
            places: self.places,
        }
    }

    /// The nearest number with 15 significant digits, away from zero in the middle between two,
    /// without zeros at the end of the places.
    #[tactic(auto, using(crate::proofs::Rounds::roundings), unfolding(crate::specs::Arithmetic::rounded))]
    pub fn round15(&self) -> Decimal
        ensures value { result ≡ rounded self.now }
        ensures nearest { IsRounded self.now result }
    {
        let number = self.mantissa.unsigned_abs();
        let unit = ten_to(excess(number));
        let (digits, places) = trim(nearest(number, unit) * unit, self.places);
        from_parts(self.mantissa < 0, digits, places)
    }
}

/// How many digits a number has beyond 15.
fn excess(number: u128) -> u32
    ensures { result ≡ excess number }
{
    let mut rest = number;
    let mut dropped = 0;
    while rest >= 1_000_000_000_000_000 {
        rest /= 10;
        dropped += 1;
    }
    dropped
}

/// How often a unit goes into a number, to the nearest whole number, and up in the middle.
fn nearest(number: u128, unit: u128) -> u128
    requires some { 0 < unit }
    requires room { number + unit / 2 < 2 ^ 128 }
    ensures { result ≡ nearest number unit }
{
    (number + unit / 2) / unit
}

/// The mantissa of the number with these places.
fn mantissa_at(number: &Decimal, places: u8) -> i128
    requires room { number.now.places ≤ places }
    requires fits { FitsSigned w128 (mantissa_at number.now places) }
    ensures { result ≡ mantissa_at number.now places }
{
    if number.mantissa == 0 {
        return 0;
    }
    number.mantissa * ten_to(u32::from(places - number.places)) as i128
}

/// The decimal of a sign, an absolute mantissa and places.
pub fn from_parts(negative: bool, mantissa: u128, places: u8) -> Decimal
    requires { mantissa < 2 ^ 127 }
    ensures { result ≡ decimal_from negative mantissa places }
{
    let value = mantissa as i128;
    Decimal {
        mantissa: if negative { -value } else { value },
        places,
    }
}
