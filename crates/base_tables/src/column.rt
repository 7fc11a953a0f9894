ghost use Rattle.std.specs.Prelude.{◌≡◌, ◌≤◌, ◌++◌, ◌∷◌, [], pos, IfOk, OnOk, IfSome, IsOkUnless, string_bytes, option_map, length, map, Some, ◌&&◌, true, if◌then◌else◌};
ghost use Rattle.std.specs.List.{list_all};
ghost use Rattle.std.specs.Char.{to_ascii_uppercase};
ghost use Rattle.base_values.specs.declared.error.EditError.TheVariants.{NoMemory};
ghost use Rattle.base_tables.specs.Column.{is_letter, letter_value, letter_of, letters_number, column_letters, column_name, column_of_name, is_column_name, number_a_column};

use base_values::{EditError, LAST_COLUMN};
use std::alloc::{AllocError, Global};

fn push_letter(name: &mut String, value: u32) -> Result<(), AllocError>
    requires { value ≤ 26 }
    ensures { OnOk result (string_bytes name.new ≡ string_bytes name.old ++ letter_of value ∷ []) }
{
    name.push(char::from(b'@' + value as u8))
}

/// Writes the letters of a column at the end, in capitals. Where memory ends, a front of them may have
/// been written.
#[tactic(auto, unfolding(crate::specs::Column::column_letters))]
pub fn push_column(name: &mut String, column: u32) -> Result<(), AllocError>
    requires low { 1 ≤ column }
    requires high { column ≤ 16384 }
    ensures { OnOk result (string_bytes name.new ≡ string_bytes name.old ++ column_letters column) }
{
    let before = (column - 1) / 26;
    let last = (column - 1) % 26 + 1;
    if column <= 26 {
        push_letter(name, column)?;
    } else if column <= 702 {
        push_letter(name, before)?;
        push_letter(name, last)?;
    } else {
        push_letter(name, (before - 1) / 26)?;
        push_letter(name, (before - 1) % 26 + 1)?;
        push_letter(name, last)?;
    }
    Ok(())
}

/// The letters of a column, in capitals.
#[tactic(auto, using(crate::specs::laws::ColumnLaws::letters_name_column))]
pub fn column_text(alloc: Global, column: u32) -> Result<String, AllocError>
    requires low { 1 ≤ column }
    requires high { column ≤ 16384 }
    ensures value { IfOk result (λ name. string_bytes name ≡ column_letters column) }
    ensures read { IfOk result (λ name. column_of_name (string_bytes name) ≡ Some (pos column)) }
{
    let mut name = String::new(alloc);
    push_column(&mut name, column)?;
    Ok(name)
}

/// The name of a column in capital letters, `A` to `XFD`, or `None` where the column is outside the
/// sheet. Columns are counted from 1.
///
/// `NoMemory` is the only error.
#[tactic(auto, unfolding(crate::specs::Column::column_name))]
pub fn number_to_column(alloc: Global, column: i32) -> Result<Option<String>, EditError>
    ensures value { IfOk result (λ found. option_map string_bytes found ≡ column_name column) }
    ensures read { IfOk result (λ found. IfSome found (λ name. column_of_name (string_bytes name) ≡ Some column)) }
    ensures only { IsOkUnless result NoMemory }
{
    if column < 1 || LAST_COLUMN < column {
        return Ok(None);
    }
    Ok(Some(column_text(alloc, column.unsigned_abs())?))
}

/// Whether the byte is an ASCII letter.
pub fn is_letter(c: u8) -> bool
    ensures { result ≡ is_letter c }
{
    (b'A' <= c && c <= b'Z') || (b'a' <= c && c <= b'z')
}

fn letter_value(c: u8) -> u32
    requires { is_letter c ≡ true }
    ensures value { result ≡ letter_value c }
    ensures small { result ≤ 26 }
{
    u32::from(if c >= b'a' {
        c - (b'a' - 1)
    } else {
        c - (b'A' - 1)
    })
}

fn are_letters(text: &[u8]) -> bool
    ensures { result ≡ list_all is_letter text.now }
{
    text.iter().all(|c| is_letter(*c))
}

/// The number of at most three letters, `A` standing for 1 and `Z` for 26.
pub fn letters_number(letters: &[u8]) -> u32
    requires all { list_all is_letter letters.now ≡ true }
    requires few { length letters.now ≤ 3 }
    ensures value { result ≡ letters_number letters.now }
    ensures small { result ≤ 18278 }
{
    match letters {
        [] => 0,
        [a] => letter_value(*a),
        [a, b] => letter_value(*a) * 26 + letter_value(*b),
        [a, b, c] => (letter_value(*a) * 26 + letter_value(*b)) * 26 + letter_value(*c),
        _ => unreachable!(),
    }
}

fn number_inside(letters: &[u8]) -> Option<u32>
    requires { list_all is_letter letters.now ≡ true }
    ensures value { result ≡ (if number_a_column letters.now then Some (letters_number letters.now) else None) }
    ensures inside { IfSome result (λ number. number ≤ 16384) }
{
    if letters.is_empty() || letters.len() > 3 {
        return None;
    }
    let number = letters_number(letters);
    if number <= 16_384 { Some(number) } else { None }
}

/// The column that one to three letters name, `A` standing for 1 and `Z` for 26.
#[tactic(auto, unfolding(crate::specs::Column::is_column_name))]
fn column_number(letters: &[u8]) -> Option<u32>
    ensures value { result ≡ (if is_column_name letters.now then Some (letters_number letters.now) else None) }
    ensures inside { IfSome result (λ number. number ≤ 16384) }
{
    if !are_letters(letters) {
        return None;
    }
    number_inside(letters)
}

/// Whether the letters name a column inside the sheet.
pub(crate) fn is_column_name(letters: &[u8]) -> bool
    ensures { result ≡ is_column_name letters.now }
{
    column_number(letters).is_some()
}

/// The column that one to three letters name, in either case, or `None` where the text names none.
#[tactic(auto, unfolding(crate::specs::Column::column_of_name), using(crate::specs::laws::ColumnLaws::found_column))]
pub fn column_to_number(text: &str) -> Option<i32>
    ensures value { result ≡ column_of_name text.now }
    ensures named { IfSome result (λ column. column_name column ≡ Some (map to_ascii_uppercase text.now)) }
{
    match column_number(text.as_bytes()) {
        Some(number) => Some(number as i32),
        None => None,
    }
}
