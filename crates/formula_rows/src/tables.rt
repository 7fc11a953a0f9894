use crate::at::At;
use crate::row::Row;
use crate::words::{copied, number, number_or_none, or_none, yes_or_no};
use base_decimal::Decimal;
use base_tables::{
    Language, Locale, column_to_number, function_by_name, get_language, get_locale, get_zone,
    number_to_column, quote_name, read_boolean, read_error, same_by_folding,
};
use base_values::EditError;
use defined_names::is_defined_name;
use std::alloc::{AllocError, Global};

/// The letters of a column.
pub(crate) fn column(alloc: Global, row: &Row) -> Result<String, EditError> {
    match number_to_column(alloc, number(row.argument(0)))? {
        Some(name) => Ok(name),
        None => copied(alloc, "none"),
    }
}

/// The number of the column that letters name.
pub(crate) fn column_number(alloc: Global, row: &Row) -> Result<String, EditError> {
    Ok(number_or_none(alloc, column_to_number(row.argument(0)))?)
}

/// A sheet name as formulas write it.
pub(crate) fn quoted(alloc: Global, row: &Row) -> Result<String, EditError> {
    quote_name(alloc, row.argument(0))
}

/// Whether two names are equal.
pub(crate) fn folds(alloc: Global, row: &Row) -> Result<String, EditError> {
    yes_or_no(alloc, same_by_folding(row.argument(0), row.argument(1)))
}

/// Whether a text may be a defined name.
pub(crate) fn legal(alloc: Global, row: &Row) -> Result<String, EditError> {
    yes_or_no(alloc, is_defined_name(row.argument(0)))
}

/// The name, the decimal sign and the group sign of a locale.
pub(crate) fn locale(alloc: Global, row: &Row) -> Result<String, EditError> {
    match get_locale(row.argument(0)) {
        Ok(locale) => Ok(signs(alloc, locale)?),
        Err(error) => copied(alloc, error.name()),
    }
}

fn signs(alloc: Global, locale: Locale) -> Result<String, AllocError> {
    let (name, decimal, group) = (locale.name(), locale.decimal_sign(), locale.group_sign());
    format!(in alloc; "{name} {decimal} {group}")
}

/// The name of a language, and its words for true and false.
pub(crate) fn language(alloc: Global, row: &Row) -> Result<String, EditError> {
    match get_language(row.argument(0)) {
        Ok(language) => Ok(booleans(alloc, language)?),
        Err(error) => copied(alloc, error.name()),
    }
}

fn booleans(alloc: Global, language: Language) -> Result<String, AllocError> {
    let (name, yes, no) = (
        language.name(),
        language.boolean(true),
        language.boolean(false),
    );
    format!(in alloc; "{name} {yes} {no}")
}

/// The name of a time zone.
pub(crate) fn zone(alloc: Global, row: &Row) -> Result<String, EditError> {
    match get_zone(row.argument(0)) {
        Ok(zone) => copied(alloc, zone.name()),
        Err(error) => copied(alloc, error.name()),
    }
}

/// The truth value that a word of the language means.
pub(crate) fn boolean(alloc: Global, at: &At, row: &Row) -> Result<String, EditError> {
    match read_boolean(row.argument(0), at.language) {
        Some(value) => yes_or_no(alloc, value),
        None => copied(alloc, "none"),
    }
}

/// The English text of the error value that a text of the language means.
pub(crate) fn error(alloc: Global, at: &At, row: &Row) -> Result<String, EditError> {
    match read_error(row.argument(0), at.language) {
        Some(error) => copied(alloc, error.text()),
        None => copied(alloc, "none"),
    }
}

/// The names of a function in all languages, found by its name in one.
pub(crate) fn function(alloc: Global, at: &At, row: &Row) -> Result<String, EditError> {
    let Some(function) = function_by_name(row.argument(0), at.language) else {
        return copied(alloc, "none");
    };
    let (english, german) = (function.name(Language::En), function.name(Language::De));
    let (french, spanish) = (function.name(Language::Fr), function.name(Language::Es));
    Ok(format!(in alloc; "{english} {german} {french} {spanish}")?)
}

fn joined(alloc: Global, texts: &[&str]) -> Result<String, EditError> {
    let mut text = String::new(alloc);
    for part in texts {
        if !text.is_empty() {
            text.push('|')?;
        }
        text.push_str(part)?;
    }
    Ok(text)
}

/// A list of names of the locale's calendar.
pub(crate) fn names(alloc: Global, at: &At, row: &Row) -> Result<String, EditError> {
    match row.argument(0) {
        "days" => joined(alloc, at.locale.days()),
        "short-days" => joined(alloc, at.locale.short_days()),
        "months" => joined(alloc, at.locale.months()),
        "short-months" => joined(alloc, at.locale.short_months()),
        _ => copied(alloc, "no such list"),
    }
}

/// A number in the locale's signs.
fn printed(alloc: Global, at: &At, number: Option<Decimal>) -> Result<String, EditError> {
    match number {
        Some(number) => number.print(alloc, at.locale),
        None => or_none(alloc, None),
    }
}

/// A number that is read and printed.
pub(crate) fn decimal(alloc: Global, at: &At, row: &Row) -> Result<String, EditError> {
    printed(alloc, at, Decimal::read(row.argument(0), at.locale))
}

/// A number that is rounded to 15 digits.
pub(crate) fn rounded(alloc: Global, at: &At, row: &Row) -> Result<String, EditError> {
    let number = match Decimal::read(row.argument(0), at.locale) {
        Some(number) => Some(number.round15()),
        None => None,
    };
    printed(alloc, at, number)
}
