//! Locales, languages, time zones, error values and functions as tables, each with the look-ups both ways;
//! names of columns, quoted sheet names, and equality of names by folding.
#![tactic(auto)]

mod calendar;
mod column;
mod digits;
mod error;
mod folding;
mod function;
mod language;
mod locale;
mod quote;
mod tables;
mod word;
mod zone;

pub use column::{
    column_text, column_to_number, is_letter, letters_number, number_to_column, push_column,
};
pub use digits::{capped_number, digits_len, is_digit};
pub use error::{Error, read_error};
pub use folding::same_by_folding;
pub use function::{Function, function_by_name};
pub use language::{Language, get_language, read_boolean};
pub use locale::{Locale, get_locale};
pub use quote::{needs_quotes, push_doubled, quote_name, reads_as_cell, reads_as_row_column};
pub use word::is_word;
pub use zone::{Zone, get_zone};
