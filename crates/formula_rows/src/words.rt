use base_values::EditError;
use std::alloc::{AllocError, Global};

/// One of the words that blanks part, and an empty text where there are not as many.
pub(crate) fn word(text: &str, index: usize) -> &str {
    text.split(' ').nth(index).unwrap_or("")
}

/// The number that a word writes, and 0 where it writes none.
pub(crate) fn number(word: &str) -> i32 {
    word.parse::<i32>().unwrap_or(0)
}

pub(crate) fn copied(alloc: Global, text: &str) -> Result<String, EditError> {
    Ok(String::from_str(alloc, text)?)
}

pub(crate) fn yes_or_no(alloc: Global, answer: bool) -> Result<String, EditError> {
    copied(alloc, if answer { "yes" } else { "no" })
}

/// A text, or `none`.
pub(crate) fn or_none(alloc: Global, found: Option<&str>) -> Result<String, EditError> {
    copied(alloc, found.unwrap_or("none"))
}

/// A number in digits, or `none`.
pub(crate) fn number_or_none(alloc: Global, found: Option<i32>) -> Result<String, AllocError> {
    match found {
        Some(number) => number.to_string(alloc),
        None => String::from_str(alloc, "none"),
    }
}
