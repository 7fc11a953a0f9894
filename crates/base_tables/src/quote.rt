ghost use Rattle.std.specs.Prelude.{◌≡◌, ◌<◌, ◌≤◌, ◌^◌, ◌∷◌, ◌++◌, [], ◌&&◌, length, true, IfOk, OnOk, IsOkUnless, string_bytes, encode_utf8_all};
ghost use Rattle.std.specs.List.{list_all, prefix_len};
ghost use Rattle.std.specs.Str.{chars};
ghost use Rattle.base_values.specs.declared.error.EditError.TheVariants.{NoMemory};
ghost use Rattle.base_tables.specs.Column.{is_letter, is_column_name};
ghost use Rattle.base_tables.specs.Word.{is_digit, is_row_number, starts_positive, is_count, front, behind, reads_as_cell, is_column_part, reads_as_row_column, needs_quotes, twice, doubled, quoted_name};

use crate::column::{is_column_name, is_letter};
use crate::digits::{capped_number, digits_len, is_digit};
use crate::word::is_word;
use base_values::EditError;
use std::alloc::{AllocError, Global};

fn letters_len(text: &[u8]) -> usize
    ensures value { result ≡ prefix_len is_letter text.now }
    ensures within { result ≤ length text.now }
{
    for (at, c) in text.iter().enumerate() {
        if !is_letter(*c) {
            return at;
        }
    }
    text.len()
}

fn are_digits(text: &[u8]) -> bool
    ensures { result ≡ list_all is_digit text.now }
{
    text.iter().all(|c| is_digit(*c))
}

fn starts_positive(digits: &[u8]) -> bool
    ensures { result ≡ starts_positive digits.now }
{
    match digits {
        [c, ..] => *c != b'0',
        [] => false,
    }
}

/// Whether the text is a number from 1 to `last` without a leading zero.
#[tactic(auto, unfolding(crate::specs::Word::is_count, crate::specs::Word::digits_number))]
fn is_count(text: &[u8], last: u32) -> bool
    requires { last < 2 ^ 31 }
    ensures { result ≡ is_count last text.now }
{
    are_digits(text)
        && starts_positive(text)
        && capped_number(0, text, u128::from(last) + 1) <= u128::from(last)
}

#[tactic(auto, unfolding(crate::specs::Word::reads_as_cell))]
fn cell_bytes(text: &[u8]) -> bool
    ensures { result ≡ reads_as_cell text.now }
{
    let (letters, digits) = text.split_at(letters_len(text));
    is_column_name(letters) && is_count(digits, 1_048_576)
}

fn is_column_part(text: &[u8]) -> bool
    ensures { result ≡ is_column_part text.now }
{
    match text {
        [c, digits @ ..] => (*c == b'C' || *c == b'c') && is_count(digits, 16_384),
        [] => false,
    }
}

fn row_and_column(text: &[u8]) -> bool
    ensures { result ≡ (is_row_number (front is_digit text.now) && is_column_part (behind is_digit text.now)) }
{
    let (digits, rest) = text.split_at(digits_len(text));
    is_count(digits, 1_048_576) && is_column_part(rest)
}

#[tactic(auto, unfolding(crate::specs::Word::reads_as_row_column))]
fn row_column_bytes(text: &[u8]) -> bool
    ensures { result ≡ reads_as_row_column text.now }
{
    match text {
        [c, rest @ ..] => (*c == b'R' || *c == b'r') && row_and_column(rest),
        [] => false,
    }
}

/// Whether the text is the name of a cell inside the sheet, as `B12`, in capitals or small letters.
pub fn reads_as_cell(text: &str) -> bool
    ensures { result ≡ reads_as_cell (chars text.now) }
{
    cell_bytes(text.as_bytes())
}

/// Whether the text is a cell inside the sheet by its numbers, as `R12C2`, in capitals or small letters.
pub fn reads_as_row_column(text: &str) -> bool
    ensures { result ≡ reads_as_row_column (chars text.now) }
{
    row_column_bytes(text.as_bytes())
}

/// Whether a sheet name is printed in quotes: where it is no word (as where it is empty), or reads as a
/// cell by letters or by numbers.
pub fn needs_quotes(name: &str) -> bool
    ensures { result ≡ needs_quotes (chars name.now) }
{
    !is_word(name) || reads_as_cell(name) || reads_as_row_column(name)
}

fn push_twice(quote: char, c: char, out: &mut String) -> Result<(), AllocError>
    ensures { OnOk result (string_bytes out.new ≡ string_bytes out.old ++ encode_utf8_all (twice quote c)) }
{
    if c == quote {
        out.push(quote)?;
    }
    out.push(c)
}

/// Writes a text as it stands between such quotes: the quote twice, any other character once.
#[tactic(auto, using(crate::proofs::Doubling::doubled_turn))]
pub fn push_doubled(quote: char, text: &str, out: &mut String) -> Result<(), AllocError>
    ensures { OnOk result (string_bytes out.new ≡ string_bytes out.old ++ encode_utf8_all (doubled quote (chars text.now))) }
{
    for c in text.chars() {
        push_twice(quote, c, out)?;
    }
    Ok(())
}

fn quoted(alloc: Global, name: &str) -> Result<String, AllocError>
    ensures { IfOk result (λ text. string_bytes text ≡ encode_utf8_all (39 ∷ doubled 39 (chars name.now) ++ 39 ∷ [])) }
{
    let mut text = String::new(alloc);
    text.push('\'')?;
    push_doubled('\'', name, &mut text)?;
    text.push('\'')?;
    Ok(text)
}

fn unquoted(alloc: Global, name: &str) -> Result<String, AllocError>
    ensures { IfOk result (λ text. string_bytes text ≡ encode_utf8_all (chars name.now)) }
{
    Ok(String::from_str(alloc, name)?)
}

/// A sheet name as formulas print it: in quotes where it needs them, each quote inside it doubled, and
/// else as it is.
///
/// `NoMemory` is the only error.
#[tactic(auto, unfolding(crate::specs::Word::quoted_name))]
pub fn quote_name(alloc: Global, name: &str) -> Result<String, EditError>
    ensures value { IfOk result (λ text. string_bytes text ≡ encode_utf8_all (quoted_name (chars name.now))) }
    ensures only { IsOkUnless result NoMemory }
{
    if needs_quotes(name) {
        Ok(quoted(alloc, name)?)
    } else {
        Ok(unquoted(alloc, name)?)
    }
}
