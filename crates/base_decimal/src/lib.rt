//! Exact decimal numbers: the type, how they are read and printed in a locale, sums, products with
//! whole numbers, and rounding to 15 digits. A workbook holds the decimals that `is_canonical` accepts;
//! `read` answers only those, and what `print` writes of one reads back as it.
#![tactic(auto)]

mod decimal;
mod digits;
mod numeral;
mod print;
mod value;

pub use decimal::Decimal;
